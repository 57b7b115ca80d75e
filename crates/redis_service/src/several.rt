//! Commands of several keys: one event for each, in order.
ghost use Rattle.std.specs.Prelude.{◌≡◌, ◌<◌, ◌≤◌, ◌+◌, ◌^◌, ◌∷◌, [], ℕ, List, length, All, Option, count_by, is_some, IsTrue, IsFalse};
ghost use Rattle.atomic_methods.specs.declared.reply.Reply.{Reply};
ghost use Rattle.atomic_methods.specs.Invocations.{on_key, put};
ghost use Rattle.atomic_methods.specs.Plans.{where_true};
ghost use Rattle.timed_bins.specs.declared.timing.DeadlineChange.TheVariants.{Clear};
ghost use Rattle.devices.specs.Devices.{CanWrite};
ghost use Rattle.redis_commands.specs.declared.command.KeysAct.TheVariants.{GetEach};
ghost use Rattle.redis_commands.specs.Commands.{texts};
ghost use Rattle.redis_commands.specs.Limits.{IsKey, IsValue, ArePairs};
ghost use Rattle.redis_service.specs.Answers.{pairs, Puts, AnswersKeys, AnswersSetEach};
ghost use Rattle.redis_service.specs.Calls.{Refuses, Finds, Removes, Each, bulk};
ghost use Rattle.redis_service.specs.Replied.{replied_bytes};
ghost use Rattle.redis_service.specs.Sending.{Sends};
ghost use Rattle.redis_service.specs.Texts.{count_line};

use crate::calls::{MapAt, get, make, remove};
use crate::reply::Replied;
use crate::room::Room;
use atomic_methods::Call;
use bin_stripes::Pass;
use bpf_model::NoMemory;
use devices::{Failed, Sink};
use std::sync::Wait;
use timed_bins::DeadlineChange;

/// Returns the count, and one more if a value was found.
fn one_more(count: usize, was: bool) -> usize
    requires { count < 2 ^ 63 }
    ensures { (found : List ℕ) → result ≡ count + count_by is_some (where_true was found ∷ []) }
{
    if was { count + 1 } else { count }
}

/// The reply that is this number.
pub fn count_of(count: usize) -> Replied
    requires { count < 2 ^ 63 }
    ensures { (found : List ℕ) → replied_bytes result found ≡ count_line count }
{
    Replied::Integer(count as i64)
}

/// Removes the key, and returns whether it was there.
fn remove_one<H: Wait>(rt: &H, at: &MapAt<'_>, pass: &mut Pass, room: &mut Room, key: &[u8]) -> bool
    requires map { pass.old.map ≡ at.now.map.now }
    requires key { IsKey key.now }
    ensures same { pass.new.map ≡ at.now.map.now }
    ensures passes { pass.new.view.passes ≡ pass.old.view.passes }
    ensures numbers { pass.new.view.numbers ≡ pass.old.view.numbers }
    ensures removes { Removes at.now.time pass.old key.now (where_true result room.new.found) pass.new }
{
    room.key.set_from(key);
    remove(rt, at, pass, &room.key, &mut room.found)
}

/// Gets the key's value into the room, and returns whether there is one.
fn get_one<H: Wait>(rt: &H, at: &MapAt<'_>, pass: &mut Pass, room: &mut Room, key: &[u8]) -> bool
    requires map { pass.old.map ≡ at.now.map.now }
    requires key { IsKey key.now }
    ensures same { pass.new.map ≡ at.now.map.now }
    ensures passes { pass.new.view.passes ≡ pass.old.view.passes }
    ensures numbers { pass.new.view.numbers ≡ pass.old.view.numbers }
    ensures finds { Finds at.now.time pass.old key.now (where_true result room.new.found) pass.new }
{
    room.key.set_from(key);
    get(rt, at, pass, &room.key, &mut room.found)
}

/// Removes each key, and returns the number of those that were there.
pub fn remove_each<H: Wait>(
    rt: &H,
    at: &MapAt<'_>,
    pass: &mut Pass,
    room: &mut Room,
    keys: &[&[u8]],
) -> usize
    requires map { pass.old.map ≡ at.now.map.now }
    requires keys { All IsKey (texts keys.now) }
    ensures same { pass.new.map ≡ at.now.map.now }
    ensures passes { pass.new.view.passes ≡ pass.old.view.passes }
    ensures numbers { pass.new.view.numbers ≡ pass.old.view.numbers }
    ensures count { (founds : List (Option (List ℕ))) × Each (Removes at.now.time) pass.old (texts keys.now) founds pass.new
        × (result ≡ count_by is_some founds) }
    ensures most { result ≤ length keys.now }
{
    let mut count = 0;
    for key in keys {
        let was = remove_one(rt, at, pass, room, key);
        count = one_more(count, was);
    }
    count
}

/// Looks for each key, and returns the number of those that are there.
pub fn count_each<H: Wait>(
    rt: &H,
    at: &MapAt<'_>,
    pass: &mut Pass,
    room: &mut Room,
    keys: &[&[u8]],
) -> usize
    requires map { pass.old.map ≡ at.now.map.now }
    requires keys { All IsKey (texts keys.now) }
    ensures same { pass.new.map ≡ at.now.map.now }
    ensures passes { pass.new.view.passes ≡ pass.old.view.passes }
    ensures numbers { pass.new.view.numbers ≡ pass.old.view.numbers }
    ensures count { (founds : List (Option (List ℕ))) × Each (Finds at.now.time) pass.old (texts keys.now) founds pass.new
        × (result ≡ count_by is_some founds) }
    ensures most { result ≤ length keys.now }
{
    let mut count = 0;
    for key in keys {
        let was = get_one(rt, at, pass, room, key);
        count = one_more(count, was);
    }
    count
}

/// The value that was found, or nothing.
pub fn found_if(was: bool) -> Replied
    ensures { (found : List ℕ) → replied_bytes result found ≡ bulk (where_true was found) }
{
    if was {
        Replied::Found
    } else {
        Replied::Nothing
    }
}

/// Gets the value of each key, and sends it. If a write fails, nothing more is sent, and the keys left are looked at all the same.
pub fn get_each<H: Wait, W: Sink>(
    rt: &H,
    at: &MapAt<'_>,
    pass: &mut Pass,
    room: &mut Room,
    keys: &[&[u8]],
    sink: &mut W,
) -> Result<(), Failed>
    requires map { pass.old.map ≡ at.now.map.now }
    requires keys { All IsKey (texts keys.now) }
    requires sink { CanWrite (W.state sink.old) }
    ensures same { pass.new.map ≡ at.now.map.now }
    ensures passes { pass.new.view.passes ≡ pass.old.view.passes }
    ensures numbers { pass.new.view.numbers ≡ pass.old.view.numbers }
    ensures answers { (written : List ℕ) × Sends result (W.state sink.old) (W.state sink.new) written
        × AnswersKeys at.now.time pass.old (texts keys.now) GetEach written pass.new }
{
    let mut sent = Replied::Array(keys.len()).send_after(Ok(()), &[], sink);
    for key in keys {
        let was = get_one(rt, at, pass, room, key);
        sent = found_if(was).send_after(sent, room.found.as_slice(), sink);
    }
    sent
}

/// Sets the key to the value without a deadline, and returns whether memory was there.
fn put_one<H: Wait>(
    rt: &H,
    at: &MapAt<'_>,
    pass: &mut Pass,
    room: &mut Room,
    key: &[u8],
    value: &[u8],
) -> bool
    requires map { pass.old.map ≡ at.now.map.now }
    requires key { IsKey key.now }
    requires value { IsValue value.now }
    ensures same { pass.new.map ≡ at.now.map.now }
    ensures passes { pass.new.view.passes ≡ pass.old.view.passes }
    ensures numbers { pass.new.view.numbers ≡ pass.old.view.numbers }
    ensures puts { IsTrue result → (reply : Reply) × Puts at.now.time pass.old (key.now, value.now) reply pass.new }
    ensures refuses { IsFalse result → Refuses at.now.time Clear pass.old (on_key key.now (put value.now)) pass.new }
{
    room.key.set_from(key);
    room.value.set_from(value);
    let call = Call::Put {
        key: &room.key,
        value: &room.value,
    };
    match make(rt, at, pass, &call, DeadlineChange::Clear, &mut room.found) {
        Ok(_) => true,
        Err(NoMemory) => false,
    }
}

/// Sets keys and values, which come by turns, without deadlines.
pub fn put_each<H: Wait>(
    rt: &H,
    at: &MapAt<'_>,
    pass: &mut Pass,
    room: &mut Room,
    words: &[&[u8]],
) -> Replied
    requires map { pass.old.map ≡ at.now.map.now }
    requires words { ArePairs (texts words.now) }
    ensures same { pass.new.map ≡ at.now.map.now }
    ensures passes { pass.new.view.passes ≡ pass.old.view.passes }
    ensures numbers { pass.new.view.numbers ≡ pass.old.view.numbers }
    ensures answers { (found : List ℕ) → AnswersSetEach at.now.time pass.old (pairs (texts words.now)) (replied_bytes result found) pass.new }
{
    let mut next = 0;
    while next + 1 < words.len() {
        if !put_one(rt, at, pass, room, words[next], words[next + 1]) {
            return Replied::NoMemory;
        }
        next += 2;
    }
    Replied::Simple(b"OK")
}
