//! Changes of a value by what it was.
ghost use Rattle.std.specs.Prelude.{◌≡◌, ◌≤◌, ◌+◌, ℕ, List, length, MatchOption};
ghost use Rattle.atomic_methods.specs.Invocations.{invocation_of};
ghost use Rattle.atomic_methods.specs.Plans.{where_true, reply_by};
ghost use Rattle.bin_stripes.specs.Passes.{PassState};
ghost use Rattle.bpf_model.specs.declared.limits.TheConstants.{VALUE_BYTES};
ghost use Rattle.redis_service.specs.Changes.{swap, takes, LosesTry, LosesTries, EndsTry, AnswersChange};
ghost use Rattle.redis_service.specs.Planned.{Does, IsWithin, step_by};
ghost use Rattle.redis_service.specs.Replied.{replied_bytes};
ghost use Rattle.redis_service.specs.Texts.{Sums, Adds, Appends, SetsRange, SetsIfEqual};

use crate::calls::{MapAt, get, make, noted, text_of};
use crate::errors::{NOT_A_NUMBER, TOO_LONG};
use crate::reply::Replied;
use crate::room::Room;
use crate::texts::{overwrite, set_both};
use atomic_methods::{Call, ReplyKind};
use bin_stripes::Pass;
use bpf_model::limits::VALUE_BYTES;
use bpf_model::{Key, NoMemory, Value};
use itoa::Buffer;
use resp::integer;
use std::sync::Wait;
use std::thread;
use timed_bins::DeadlineChange;

/// A change of a value by what it was.
#[derive(Clone, Copy)]
pub enum Change<'a> {
    /// The number that is the value is increased.
    Add(i64),
    /// The bytes are added at the end.
    Append(&'a [u8]),
    /// The bytes are written from this place on.
    SetRange(usize, &'a [u8]),
    /// If the value is the first one, it becomes the second.
    SetIfEqual(&'a [u8], &'a [u8]),
}

/// What a change does with the value that it found.
#[derive(Clone, Copy)]
pub enum Planned {
    /// The value stays.
    Stays(Replied),
    /// It becomes the one that was left in the room.
    Becomes(Replied),
}

/// This many tries may be lost before the worker lets other threads go on.
const TRIES: u32 = 64;

const OVERFLOW: &[u8] = b"ERR increment or decrement would overflow";

/// Plans to add to the number.
fn plan_sum(old: i64, by: i64, value: &mut Value) -> Planned
    ensures { (found : List ℕ) → Sums by old (step_by result found value.new) }
{
    let Some(sum) = old.checked_add(by) else {
        return Planned::Stays(Replied::Error(OVERFLOW));
    };
    value.set_from(Buffer::new().format(sum).as_bytes());
    Planned::Becomes(Replied::Integer(sum))
}

/// Plans to add to the number that the value is.
fn plan_add(by: i64, was: bool, found: &Value, value: &mut Value) -> Planned
    ensures { Adds by (where_true was found.now) (step_by result found.now value.new) }
{
    if !was {
        return plan_sum(0, by, value);
    }
    match integer(found.as_slice()) {
        Some(old) => plan_sum(old, by, value),
        None => Planned::Stays(Replied::Error(NOT_A_NUMBER)),
    }
}

/// Plans to add the bytes at the end.
fn plan_append(more: &[u8], was: bool, found: &Value, value: &mut Value) -> Planned
    requires { length more.now ≤ VALUE_BYTES }
    ensures { Appends more.now (where_true was found.now) (step_by result found.now value.new) }
{
    let text = text_of(was, found);
    let len = text.len() + more.len();
    if len > VALUE_BYTES {
        return Planned::Stays(Replied::Error(TOO_LONG));
    }
    set_both(value, text, more);
    Planned::Becomes(Replied::Integer(len as i64))
}

/// Plans to write the bytes from this place on.
fn plan_range(offset: usize, more: &[u8], was: bool, found: &Value, value: &mut Value) -> Planned
    requires { 1 ≤ length more.now → offset + length more.now ≤ VALUE_BYTES }
    ensures { SetsRange offset more.now (where_true was found.now) (step_by result found.now value.new) }
{
    let text = text_of(was, found);
    if more.is_empty() {
        return Planned::Stays(Replied::Integer(text.len() as i64));
    }
    overwrite(value, text, offset, more);
    Planned::Becomes(Replied::Integer(value.as_slice().len() as i64))
}

/// Plans to set the value if the found one is the expected one.
fn plan_swap(expected: &[u8], new: &[u8], was: bool, found: &Value, value: &mut Value) -> Planned
    requires { length new.now ≤ VALUE_BYTES }
    ensures { SetsIfEqual expected.now new.now (where_true was found.now) (step_by result found.now value.new) }
{
    if !was {
        return Planned::Stays(Replied::Nothing);
    }
    if found.as_slice() != expected {
        return Planned::Stays(Replied::Found);
    }
    value.set_from(new);
    Planned::Becomes(Replied::Found)
}

/// Plans what the change does with the value that was found, or with none. A new value is left in `value`.
fn plan(change: &Change<'_>, was: bool, found: &Value, value: &mut Value) -> Planned
    requires { IsWithin change.now }
    ensures { Does change.now (where_true was found.now) (step_by result found.now value.new) }
{
    match *change {
        Change::Add(by) => plan_add(by, was, found, value),
        Change::Append(more) => plan_append(more, was, found, value),
        Change::SetRange(offset, more) => plan_range(offset, more, was, found, value),
        Change::SetIfEqual(expected, new) => plan_swap(expected, new, was, found, value),
    }
}

/// Returns the call that sets the value only if what was found is still there.
fn swap_of<'a>(key: &'a Key, was: bool, found: &'a Value, value: &'a Value) -> Call<'a>
    ensures { invocation_of result ≡ swap key.now (where_true was found.now) value.now }
{
    if was {
        Call::ReplaceIf {
            key,
            expected: found,
            value,
        }
    } else {
        Call::PutIfAbsent { key, value }
    }
}

/// Tests whether that call took.
fn has_taken(was: bool, kind: ReplyKind) -> bool
    ensures { (found bytes : List ℕ) → takes (where_true was found) (reply_by kind bytes) ≡ result }
{
    match kind {
        ReplyKind::Done(done) => done || !was,
        ReplyKind::Some => false,
        _ => !was,
    }
}

/// Tries the change once; what becomes of the key's deadline if it takes is `deadline`. Returns its reply, or none if another change
/// came between its Get and the call after it.
fn try_change<H: Wait>(
    rt: &H,
    at: &MapAt<'_>,
    pass: &mut Pass,
    room: &mut Room,
    change: &Change<'_>,
    deadline: DeadlineChange,
) -> Option<Replied>
    requires map { pass.old.map ≡ at.now.map.now }
    requires within { IsWithin change.now }
    ensures same { pass.new.map ≡ at.now.map.now }
    ensures passes { pass.new.view.passes ≡ pass.old.view.passes }
    ensures numbers { pass.new.view.numbers ≡ pass.old.view.numbers }
    ensures key { room.new.key ≡ room.old.key }
    ensures tried { MatchOption result (LosesTry at.now.time deadline room.old.key (Does change.now) pass.old pass.new)
        (λ replied. EndsTry at.now.time deadline room.old.key (Does change.now) pass.old (replied_bytes replied room.new.found) pass.new) }
{
    let Room {
        key,
        found,
        value,
        other,
        sweeper,
    } = room;
    let was = get(rt, at, pass, key, found);
    match plan(change, was, found, value) {
        Planned::Stays(replied) => Some(replied),
        Planned::Becomes(replied) => {
            let call = swap_of(key, was, found, value);
            match noted(make(rt, at, pass, &call, deadline, other), sweeper) {
                Ok(timed) if has_taken(was, timed.kind) => Some(replied),
                Ok(_) => None,
                Err(NoMemory) => Some(Replied::NoMemory),
            }
        }
    }
}

/// Tries the change some times. Returns its reply, or none if all tries were lost.
fn try_often<H: Wait>(
    rt: &H,
    at: &MapAt<'_>,
    pass: &mut Pass,
    room: &mut Room,
    change: &Change<'_>,
    deadline: DeadlineChange,
) -> Option<Replied>
    requires map { pass.old.map ≡ at.now.map.now }
    requires within { IsWithin change.now }
    ensures same { pass.new.map ≡ at.now.map.now }
    ensures passes { pass.new.view.passes ≡ pass.old.view.passes }
    ensures numbers { pass.new.view.numbers ≡ pass.old.view.numbers }
    ensures key { room.new.key ≡ room.old.key }
    ensures tried { (before : PassState) → (tries : ℕ) → LosesTries at.now.time deadline room.old.key (Does change.now) tries before pass.old
        → MatchOption result ((more : ℕ) × LosesTries at.now.time deadline room.old.key (Does change.now) more before pass.new)
        (λ replied. AnswersChange at.now.time deadline room.old.key (Does change.now) before (replied_bytes replied room.new.found) pass.new) }
{
    for _ in 0..TRIES {
        if let Some(replied) = try_change(rt, at, pass, room, change, deadline) {
            return Some(replied);
        }
    }
    None
}

/// Makes the change, and that of the key's deadline: tries until no other change comes between its Get and the call after it. After
/// 64 lost tries the worker lets other threads go on. Waits until the stripe of the key is free.
pub fn make_change<H: Wait>(
    rt: &H,
    at: &MapAt<'_>,
    pass: &mut Pass,
    room: &mut Room,
    change: &Change<'_>,
    deadline: DeadlineChange,
) -> Replied
    requires map { pass.old.map ≡ at.now.map.now }
    requires within { IsWithin change.now }
    ensures same { pass.new.map ≡ at.now.map.now }
    ensures passes { pass.new.view.passes ≡ pass.old.view.passes }
    ensures numbers { pass.new.view.numbers ≡ pass.old.view.numbers }
    ensures changes { AnswersChange at.now.time deadline room.old.key (Does change.now) pass.old (replied_bytes result room.new.found) pass.new }
{
    for _ in rt.forever() {
        if let Some(replied) = try_often(rt, at, pass, room, change, deadline) {
            return replied;
        }
        thread::yield_now();
    }
    unreachable!()
}
