//! Commands of one key.
ghost use Rattle.std.specs.Prelude.{◌≡◌, ◌≤◌, ℕ, List, length, false};
ghost use Rattle.atomic_methods.specs.Plans.{where_true};
ghost use Rattle.bpf_model.specs.declared.limits.TheConstants.{VALUE_BYTES};
ghost use Rattle.timed_bins.specs.declared.timing.DeadlineChange.TheVariants.{Keep};
ghost use Rattle.redis_commands.specs.Commands.{act_by, condition_by};
ghost use Rattle.redis_commands.specs.Commands.Act.{Set, SetIfAbsent, GetAndSet, Length, GetRange, SetRange, DeleteIfEqual};
ghost use Rattle.redis_commands.specs.Commands.Condition.{Always, IfAbsent, IfPresent, IfEqual};
ghost use Rattle.redis_commands.specs.Table.{longest};
ghost use Rattle.redis_service.specs.Answers.{AnswersKey, AnswersSet};
ghost use Rattle.redis_service.specs.Calls.{Finds};
ghost use Rattle.redis_service.specs.Changes.{AnswersChange};
ghost use Rattle.redis_service.specs.Planned.{Does, IsWithin};
ghost use Rattle.redis_service.specs.Replied.{replied_bytes};
ghost use Rattle.redis_service.specs.Texts.{length_line, type_line, range_line};

use crate::calls::{MapAt, get, make, noted, remove, text_of};
use crate::changes::{Change, make_change};
use crate::deadlines::{expire, get_and_expire, lives, persist, time_left};
use crate::reply::Replied;
use crate::room::Room;
use crate::several::found_if;
use crate::telling::{
    say_ok, say_ok_if_done, say_ok_if_none, say_ok_if_some, say_one_if_done, say_one_if_none,
    say_value,
};
use crate::texts::range;
use atomic_methods::Call;
use bin_stripes::Pass;
use bpf_model::Value;
use redis_commands::{Condition, KeyAct, Lifetime};
use std::mem;
use std::sync::Wait;
use timed_bins::DeadlineChange;

/// The length of the value that was found.
fn length_of(was: bool, found: &Value) -> Replied
    ensures { replied_bytes result found.now ≡ length_line (where_true was found.now) }
{
    Replied::Integer(if was {
        found.as_slice().len() as i64
    } else {
        0
    })
}

/// The type of what was found.
fn type_of(was: bool) -> Replied
    ensures { (found : List ℕ) → replied_bytes result found ≡ type_line (where_true was found) }
{
    Replied::Simple(if was { b"string" } else { b"none" })
}

/// Makes the found value the part of it from one place to another.
fn range_in(room: &mut Room, was: bool, start: i64, end: i64) -> Replied
    ensures { replied_bytes result room.new.found ≡ range_line start end (where_true was room.old.found) }
{
    let part = range(text_of(was, &room.found), start, end);
    room.value.set_from(part);
    mem::swap(&mut room.value, &mut room.found);
    Replied::Found
}

/// A `SET`.
#[derive(Clone, Copy)]
struct SetAct<'a> {
    value: &'a [u8],
    condition: Condition<'a>,
    wants_old: bool,
    lifetime: Lifetime,
}

/// Sets the room's value, whatever the key has.
fn set_always<H: Wait>(
    rt: &H,
    at: &MapAt<'_>,
    pass: &mut Pass,
    room: &mut Room,
    wants_old: bool,
    lifetime: Lifetime,
) -> Replied
    requires map { pass.old.map ≡ at.now.map.now }
    ensures same { pass.new.map ≡ at.now.map.now }
    ensures passes { pass.new.view.passes ≡ pass.old.view.passes }
    ensures numbers { pass.new.view.numbers ≡ pass.old.view.numbers }
    ensures answers { AnswersSet at.now.time pass.old room.old.key room.old.value Always wants_old lifetime (replied_bytes result room.new.found) pass.new }
{
    let Room {
        key,
        found,
        value,
        sweeper,
        ..
    } = room;
    let call = Call::Put { key, value };
    let made = noted(make(rt, at, pass, &call, lives(lifetime), found), sweeper);
    if wants_old {
        say_value(made)
    } else {
        say_ok(made)
    }
}

/// Sets the room's value if the key has none.
fn set_if_absent<H: Wait>(
    rt: &H,
    at: &MapAt<'_>,
    pass: &mut Pass,
    room: &mut Room,
    wants_old: bool,
    lifetime: Lifetime,
) -> Replied
    requires map { pass.old.map ≡ at.now.map.now }
    ensures same { pass.new.map ≡ at.now.map.now }
    ensures passes { pass.new.view.passes ≡ pass.old.view.passes }
    ensures numbers { pass.new.view.numbers ≡ pass.old.view.numbers }
    ensures answers { AnswersSet at.now.time pass.old room.old.key room.old.value IfAbsent wants_old lifetime (replied_bytes result room.new.found) pass.new }
{
    let Room {
        key,
        found,
        value,
        sweeper,
        ..
    } = room;
    let call = Call::PutIfAbsent { key, value };
    let made = noted(make(rt, at, pass, &call, lives(lifetime), found), sweeper);
    if wants_old {
        say_value(made)
    } else {
        say_ok_if_none(made)
    }
}

/// Sets the room's value if the key has one.
fn set_if_present<H: Wait>(
    rt: &H,
    at: &MapAt<'_>,
    pass: &mut Pass,
    room: &mut Room,
    wants_old: bool,
    lifetime: Lifetime,
) -> Replied
    requires map { pass.old.map ≡ at.now.map.now }
    ensures same { pass.new.map ≡ at.now.map.now }
    ensures passes { pass.new.view.passes ≡ pass.old.view.passes }
    ensures numbers { pass.new.view.numbers ≡ pass.old.view.numbers }
    ensures answers { AnswersSet at.now.time pass.old room.old.key room.old.value IfPresent wants_old lifetime (replied_bytes result room.new.found) pass.new }
{
    let Room {
        key,
        found,
        value,
        sweeper,
        ..
    } = room;
    let call = Call::Replace { key, value };
    let made = noted(make(rt, at, pass, &call, lives(lifetime), found), sweeper);
    if wants_old {
        say_value(made)
    } else {
        say_ok_if_some(made)
    }
}

/// Sets the room's value if the key has the expected one.
fn set_if_equal<H: Wait>(
    rt: &H,
    at: &MapAt<'_>,
    pass: &mut Pass,
    room: &mut Room,
    expected: &[u8],
    lifetime: Lifetime,
) -> Replied
    requires map { pass.old.map ≡ at.now.map.now }
    requires expected { length expected.now ≤ VALUE_BYTES }
    ensures same { pass.new.map ≡ at.now.map.now }
    ensures passes { pass.new.view.passes ≡ pass.old.view.passes }
    ensures numbers { pass.new.view.numbers ≡ pass.old.view.numbers }
    ensures answers { AnswersSet at.now.time pass.old room.old.key room.old.value (IfEqual expected.now) false lifetime (replied_bytes result room.new.found) pass.new }
{
    let Room {
        key,
        found,
        value,
        other,
        sweeper,
    } = room;
    other.set_from(expected);
    let call = Call::ReplaceIf {
        key,
        expected: other,
        value,
    };
    let made = noted(make(rt, at, pass, &call, lives(lifetime), found), sweeper);
    say_ok_if_done(made)
}

/// Sets the value.
fn set<H: Wait>(
    rt: &H,
    at: &MapAt<'_>,
    pass: &mut Pass,
    room: &mut Room,
    act: SetAct<'_>,
) -> Replied
    requires map { pass.old.map ≡ at.now.map.now }
    requires limits { longest (Set act.value.now (condition_by act.condition) act.wants_old act.lifetime) ≤ VALUE_BYTES }
    ensures same { pass.new.map ≡ at.now.map.now }
    ensures passes { pass.new.view.passes ≡ pass.old.view.passes }
    ensures numbers { pass.new.view.numbers ≡ pass.old.view.numbers }
    ensures answers { AnswersSet at.now.time pass.old room.old.key act.entry.value.now (condition_by act.entry.condition) act.entry.wants_old act.entry.lifetime (replied_bytes result room.new.found) pass.new }
{
    room.value.set_from(act.value);
    match act.condition {
        Condition::Always => set_always(rt, at, pass, room, act.wants_old, act.lifetime),
        Condition::IfAbsent => set_if_absent(rt, at, pass, room, act.wants_old, act.lifetime),
        Condition::IfPresent => set_if_present(rt, at, pass, room, act.wants_old, act.lifetime),
        Condition::IfEqual(expected) => {
            if act.wants_old {
                let change = Change::SetIfEqual(expected, act.value);
                make_change(rt, at, pass, room, &change, lives(act.lifetime))
            } else {
                set_if_equal(rt, at, pass, room, expected, act.lifetime)
            }
        }
    }
}

/// Sets the value, without a deadline, if the key has none, and says 1 if it did, else 0.
fn put_new<H: Wait>(rt: &H, at: &MapAt<'_>, pass: &mut Pass, room: &mut Room, new: &[u8]) -> Replied
    requires map { pass.old.map ≡ at.now.map.now }
    requires limits { length new.now ≤ VALUE_BYTES }
    ensures same { pass.new.map ≡ at.now.map.now }
    ensures passes { pass.new.view.passes ≡ pass.old.view.passes }
    ensures numbers { pass.new.view.numbers ≡ pass.old.view.numbers }
    ensures answers { AnswersKey at.now.time pass.old room.old.key (SetIfAbsent new.now) (replied_bytes result room.new.found) pass.new }
{
    let Room {
        key,
        found,
        value,
        ..
    } = room;
    value.set_from(new);
    let call = Call::PutIfAbsent { key, value };
    say_one_if_none(make(rt, at, pass, &call, DeadlineChange::Clear, found))
}

/// Sets the value, without a deadline, and says the old one.
fn get_and_put<H: Wait>(
    rt: &H,
    at: &MapAt<'_>,
    pass: &mut Pass,
    room: &mut Room,
    new: &[u8],
) -> Replied
    requires map { pass.old.map ≡ at.now.map.now }
    requires limits { length new.now ≤ VALUE_BYTES }
    ensures same { pass.new.map ≡ at.now.map.now }
    ensures passes { pass.new.view.passes ≡ pass.old.view.passes }
    ensures numbers { pass.new.view.numbers ≡ pass.old.view.numbers }
    ensures answers { AnswersKey at.now.time pass.old room.old.key (GetAndSet new.now) (replied_bytes result room.new.found) pass.new }
{
    let Room {
        key,
        found,
        value,
        ..
    } = room;
    value.set_from(new);
    let call = Call::Put { key, value };
    say_value(make(rt, at, pass, &call, DeadlineChange::Clear, found))
}

/// Removes the key if it has this value, and says 1 if it did, else 0.
fn remove_equal<H: Wait>(
    rt: &H,
    at: &MapAt<'_>,
    pass: &mut Pass,
    room: &mut Room,
    expected: &[u8],
) -> Replied
    requires map { pass.old.map ≡ at.now.map.now }
    requires limits { length expected.now ≤ VALUE_BYTES }
    ensures same { pass.new.map ≡ at.now.map.now }
    ensures passes { pass.new.view.passes ≡ pass.old.view.passes }
    ensures numbers { pass.new.view.numbers ≡ pass.old.view.numbers }
    ensures answers { AnswersKey at.now.time pass.old room.old.key (DeleteIfEqual expected.now) (replied_bytes result room.new.found) pass.new }
{
    let Room {
        key,
        found,
        other,
        ..
    } = room;
    other.set_from(expected);
    let call = Call::RemoveIf {
        key,
        expected: other,
    };
    say_one_if_done(make(rt, at, pass, &call, DeadlineChange::Keep, found))
}

/// Gets the value of the room's key into the room, and returns whether there is one.
fn look<H: Wait>(rt: &H, at: &MapAt<'_>, pass: &mut Pass, room: &mut Room) -> bool
    requires map { pass.old.map ≡ at.now.map.now }
    ensures same { pass.new.map ≡ at.now.map.now }
    ensures passes { pass.new.view.passes ≡ pass.old.view.passes }
    ensures numbers { pass.new.view.numbers ≡ pass.old.view.numbers }
    ensures finds { Finds at.now.time pass.old room.old.key (where_true result room.new.found) pass.new }
{
    get(rt, at, pass, &room.key, &mut room.found)
}

/// Says how long the value of the room's key is.
fn get_length<H: Wait>(rt: &H, at: &MapAt<'_>, pass: &mut Pass, room: &mut Room) -> Replied
    requires map { pass.old.map ≡ at.now.map.now }
    ensures same { pass.new.map ≡ at.now.map.now }
    ensures passes { pass.new.view.passes ≡ pass.old.view.passes }
    ensures numbers { pass.new.view.numbers ≡ pass.old.view.numbers }
    ensures answers { AnswersKey at.now.time pass.old room.old.key Length (replied_bytes result room.new.found) pass.new }
{
    let was = look(rt, at, pass, room);
    length_of(was, &room.found)
}

/// Says the part of the value of the room's key from one place to another.
fn get_range<H: Wait>(
    rt: &H,
    at: &MapAt<'_>,
    pass: &mut Pass,
    room: &mut Room,
    start: i64,
    end: i64,
) -> Replied
    requires map { pass.old.map ≡ at.now.map.now }
    ensures same { pass.new.map ≡ at.now.map.now }
    ensures passes { pass.new.view.passes ≡ pass.old.view.passes }
    ensures numbers { pass.new.view.numbers ≡ pass.old.view.numbers }
    ensures answers { AnswersKey at.now.time pass.old room.old.key (GetRange start end) (replied_bytes result room.new.found) pass.new }
{
    let was = look(rt, at, pass, room);
    range_in(room, was, start, end)
}

/// Makes the change of the value of the room's key, which keeps its deadline.
fn change<H: Wait>(
    rt: &H,
    at: &MapAt<'_>,
    pass: &mut Pass,
    room: &mut Room,
    change: &Change<'_>,
) -> Replied
    requires map { pass.old.map ≡ at.now.map.now }
    requires within { IsWithin change.now }
    ensures same { pass.new.map ≡ at.now.map.now }
    ensures passes { pass.new.view.passes ≡ pass.old.view.passes }
    ensures numbers { pass.new.view.numbers ≡ pass.old.view.numbers }
    ensures changes { AnswersChange at.now.time Keep room.old.key (Does change.now) pass.old (replied_bytes result room.new.found) pass.new }
{
    make_change(rt, at, pass, room, change, DeadlineChange::Keep)
}

/// Writes the bytes into the value of the room's key, from this place on.
fn set_range<H: Wait>(
    rt: &H,
    at: &MapAt<'_>,
    pass: &mut Pass,
    room: &mut Room,
    offset: u64,
    bytes: &[u8],
) -> Replied
    requires map { pass.old.map ≡ at.now.map.now }
    requires limits { longest (SetRange offset bytes.now) ≤ VALUE_BYTES }
    ensures same { pass.new.map ≡ at.now.map.now }
    ensures passes { pass.new.view.passes ≡ pass.old.view.passes }
    ensures numbers { pass.new.view.numbers ≡ pass.old.view.numbers }
    ensures answers { AnswersKey at.now.time pass.old room.old.key (SetRange offset bytes.now) (replied_bytes result room.new.found) pass.new }
{
    change(
        rt,
        at,
        pass,
        room,
        &Change::SetRange(offset as usize, bytes),
    )
}

/// Answers a command about the room's key. The value of a reply that has one is left in `found`.
pub fn answer_key<H: Wait>(
    rt: &H,
    at: &MapAt<'_>,
    pass: &mut Pass,
    room: &mut Room,
    act: &KeyAct<'_>,
) -> Replied
    requires map { pass.old.map ≡ at.now.map.now }
    requires limits { longest (act_by act.now) ≤ VALUE_BYTES }
    ensures same { pass.new.map ≡ at.now.map.now }
    ensures passes { pass.new.view.passes ≡ pass.old.view.passes }
    ensures numbers { pass.new.view.numbers ≡ pass.old.view.numbers }
    ensures answers { AnswersKey at.now.time pass.old room.old.key (act_by act.now) (replied_bytes result room.new.found) pass.new }
{
    match *act {
        KeyAct::Get => found_if(look(rt, at, pass, room)),
        KeyAct::Set {
            value,
            condition,
            wants_old,
            lifetime,
        } => {
            let act = SetAct {
                value,
                condition,
                wants_old,
                lifetime,
            };
            set(rt, at, pass, room, act)
        }
        KeyAct::SetIfAbsent { value } => put_new(rt, at, pass, room, value),
        KeyAct::GetAndSet { value } => get_and_put(rt, at, pass, room, value),
        KeyAct::GetAndDelete => found_if(remove(rt, at, pass, &room.key, &mut room.found)),
        KeyAct::GetAndExpire { lifetime } => get_and_expire(rt, at, pass, room, lifetime),
        KeyAct::Expire { at: until, rule } => expire(rt, at, pass, room, until, rule),
        KeyAct::Persist => persist(rt, at, pass, room),
        KeyAct::TimeLeft { unit, form } => time_left(rt, at, pass, room, unit, form),
        KeyAct::Length => get_length(rt, at, pass, room),
        KeyAct::TypeName => type_of(look(rt, at, pass, room)),
        KeyAct::Add { by } => change(rt, at, pass, room, &Change::Add(by)),
        KeyAct::Append { value } => change(rt, at, pass, room, &Change::Append(value)),
        KeyAct::GetRange { start, end } => get_range(rt, at, pass, room, start, end),
        KeyAct::SetRange { offset, value } => set_range(rt, at, pass, room, offset, value),
        KeyAct::DeleteIfEqual { value } => remove_equal(rt, at, pass, room, value),
    }
}
