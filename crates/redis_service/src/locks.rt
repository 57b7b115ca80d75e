//! Acts on locks: well-known scripts of clients, each of which is one call here.
ghost use Rattle.std.specs.Prelude.{◌≡◌, ◌≢◌, ℕ, pos, List, [], ◌∷◌, All, IfSome, IfNone, FitsSigned};
ghost use Rattle.std.specs.Int.{w64};
ghost use Rattle.std.specs.Fmt.{signed_decimal};
ghost use Rattle.atomic_methods.specs.Invocations.{Invocation, on_key, replace_if};
ghost use Rattle.timed_bins.specs.declared.timing.DeadlineChange.{DeadlineChange as TheChange};
ghost use Rattle.bin_stripes.specs.Passes.{PassState};
ghost use Rattle.redis_commands.specs.Commands.{texts};
ghost use Rattle.redis_commands.specs.Limits.{IsValue};
ghost use Rattle.redis_scripts.specs.declared.lua.LockAct.TheVariants.{Release, Extend, Reacquire};
ghost use Rattle.redis_service.specs.Calls.{Made, AnswersTimed, is_done};
ghost use Rattle.redis_service.specs.Deadlines.{extended_line, later_by};
ghost use Rattle.redis_service.specs.Deadlines as deadlines;
ghost use Rattle.redis_service.specs.Programs.{AnswersLock};
ghost use Rattle.redis_service.specs.Replied.{replied_bytes};

use crate::calls::{MapAt, Outcome, make, noted};
use crate::errors::{NO_ARGUMENT, NOT_A_NUMBER};
use crate::reply::Replied;
use crate::room::Room;
use crate::telling::{one_if, say_one_if_done};
use atomic_methods::{Call, ReplyKind};
use bin_stripes::Pass;
use bpf_model::NoMemory;
use redis_scripts::LockAct;
use resp::integer;
use std::sync::Wait;
use timed_bins::{DeadlineChange, SetRule};

/// Reads a time in milliseconds: a number from 0 to 2^63 - 1 in decimal.
fn time_in(word: &[u8]) -> Option<u64>
    ensures some { IfSome result (λ ms. FitsSigned w64 (pos ms) × (word.now ≡ signed_decimal (pos ms))) }
    ensures none { IfNone result ((ms : ℕ) → FitsSigned w64 (pos ms) → word.now ≢ signed_decimal (pos ms)) }
{
    let Some(n) = integer(word) else {
        return None;
    };
    if n < 0 {
        return None;
    }
    Some(n as u64)
}

/// Returns the time that is so long after now, and at most the last one.
fn later_by(now: u64, ms: u64) -> u64
    ensures { result ≡ later_by now ms }
{
    now.saturating_add(ms)
}

/// Returns what becomes of a lock's deadline if its time goes on for so long.
fn goes_on(now: u64, ms: u64, word: &[u8]) -> DeadlineChange
    ensures { result ≡ deadlines.goes_on now ms word.now }
{
    if word == b"0".as_slice() {
        return DeadlineChange::Extend { by: ms };
    }
    DeadlineChange::Set {
        at: later_by(now, ms),
        rule: SetRule::IfSome,
    }
}

/// Says 1 if the key's value was the expected one and it had a deadline, else 0.
fn say_extended(made: Outcome) -> Replied
    ensures { (now : ℕ) (change : TheChange) (old new : PassState) (invocation : Invocation) (found : List ℕ)
        → Made now change made old invocation found new → AnswersTimed now change old invocation
        (λ reply before. extended_line (is_done reply) before) (replied_bytes result found) new }
{
    match made {
        Ok(timed) => {
            one_if(matches!(timed.kind, ReplyKind::Done(true)) && timed.before.is_some())
        }
        Err(NoMemory) => Replied::NoMemory,
    }
}

/// Changes the deadline of the room's key if its value is this one.
fn touch<H: Wait>(
    rt: &H,
    at: &MapAt<'_>,
    pass: &mut Pass,
    room: &mut Room,
    holder: &[u8],
    change: DeadlineChange,
) -> Outcome
    requires map { pass.old.map ≡ at.now.map.now }
    requires holder { IsValue holder.now }
    ensures same { pass.new.map ≡ at.now.map.now }
    ensures passes { pass.new.view.passes ≡ pass.old.view.passes }
    ensures numbers { pass.new.view.numbers ≡ pass.old.view.numbers }
    ensures made { Made at.now.time change result pass.old (on_key room.old.key (replace_if holder.now holder.now)) room.new.found pass.new }
{
    let Room {
        key,
        found,
        other,
        sweeper,
        ..
    } = room;
    other.set_from(holder);
    let held = &*other;
    let call = Call::ReplaceIf {
        key,
        expected: held,
        value: held,
    };
    noted(make(rt, at, pass, &call, change, found), sweeper)
}

/// Removes the room's key if its value is this one.
fn release<H: Wait>(
    rt: &H,
    at: &MapAt<'_>,
    pass: &mut Pass,
    room: &mut Room,
    holder: &[u8],
) -> Replied
    requires map { pass.old.map ≡ at.now.map.now }
    requires holder { IsValue holder.now }
    ensures same { pass.new.map ≡ at.now.map.now }
    ensures passes { pass.new.view.passes ≡ pass.old.view.passes }
    ensures numbers { pass.new.view.numbers ≡ pass.old.view.numbers }
    ensures answers { AnswersLock at.now.time pass.old room.old.key Release (holder.now ∷ []) (replied_bytes result room.new.found) pass.new }
{
    let Room {
        key,
        found,
        other,
        ..
    } = room;
    other.set_from(holder);
    let call = Call::RemoveIf {
        key,
        expected: other,
    };
    say_one_if_done(make(rt, at, pass, &call, DeadlineChange::Keep, found))
}

/// Lets the time of a lock, which is the room's key, go on if its value is this one.
fn extend<H: Wait>(
    rt: &H,
    at: &MapAt<'_>,
    pass: &mut Pass,
    room: &mut Room,
    holder: &[u8],
    more: (&[u8], &[u8]),
) -> Replied
    requires map { pass.old.map ≡ at.now.map.now }
    requires holder { IsValue holder.now }
    ensures same { pass.new.map ≡ at.now.map.now }
    ensures passes { pass.new.view.passes ≡ pass.old.view.passes }
    ensures numbers { pass.new.view.numbers ≡ pass.old.view.numbers }
    ensures answers { AnswersLock at.now.time pass.old room.old.key Extend (holder.now ∷ more.entry.0.now ∷ more.entry.1.now ∷ []) (replied_bytes result room.new.found) pass.new }
{
    let Some(ms) = time_in(more.0) else {
        return Replied::Error(NOT_A_NUMBER);
    };
    let change = goes_on(at.time, ms, more.1);
    say_extended(touch(rt, at, pass, room, holder, change))
}

/// Begins the time of a lock, which is the room's key, anew if its value is this one.
fn reacquire<H: Wait>(
    rt: &H,
    at: &MapAt<'_>,
    pass: &mut Pass,
    room: &mut Room,
    holder: &[u8],
    time: &[u8],
) -> Replied
    requires map { pass.old.map ≡ at.now.map.now }
    requires holder { IsValue holder.now }
    ensures same { pass.new.map ≡ at.now.map.now }
    ensures passes { pass.new.view.passes ≡ pass.old.view.passes }
    ensures numbers { pass.new.view.numbers ≡ pass.old.view.numbers }
    ensures answers { AnswersLock at.now.time pass.old room.old.key Reacquire (holder.now ∷ time.now ∷ []) (replied_bytes result room.new.found) pass.new }
{
    let Some(ms) = time_in(time) else {
        return Replied::Error(NOT_A_NUMBER);
    };
    let change = DeadlineChange::Set {
        at: later_by(at.time, ms),
        rule: SetRule::Always,
    };
    say_one_if_done(touch(rt, at, pass, room, holder, change))
}

/// Does this to the lock that is the room's key. Waits until the stripe of the key is free.
pub fn act_on_lock<H: Wait>(
    rt: &H,
    at: &MapAt<'_>,
    pass: &mut Pass,
    room: &mut Room,
    act: LockAct,
    arguments: &[&[u8]],
) -> Replied
    requires map { pass.old.map ≡ at.now.map.now }
    requires arguments { All IsValue (texts arguments.now) }
    ensures same { pass.new.map ≡ at.now.map.now }
    ensures passes { pass.new.view.passes ≡ pass.old.view.passes }
    ensures numbers { pass.new.view.numbers ≡ pass.old.view.numbers }
    ensures answers { AnswersLock at.now.time pass.old room.old.key act (texts arguments.now) (replied_bytes result room.new.found) pass.new }
{
    match (act, arguments) {
        (LockAct::Release, [holder]) => release(rt, at, pass, room, holder),
        (LockAct::Extend, [holder, time, word]) => {
            extend(rt, at, pass, room, holder, (time, word))
        }
        (LockAct::Reacquire, [holder, time]) => reacquire(rt, at, pass, room, holder, time),
        _ => Replied::Error(NO_ARGUMENT),
    }
}
