//! Single calls on the key of a command.
ghost use Rattle.std.specs.Prelude.{◌≡◌, ◌≤◌, ℕ, List, length};
ghost use Rattle.bpf_model.specs.declared.limits.TheConstants.{VALUE_BYTES};
ghost use Rattle.atomic_methods.specs.Invocations.{invocation_of};
ghost use Rattle.atomic_methods.specs.Plans.{reply_by, where_true};
ghost use Rattle.redis_service.specs.Texts as texts;
ghost use Rattle.redis_service.specs.Calls.{Made, Finds, Removes, value_in};

use crate::sweeper::Sweeper;
use atomic_methods::{Call, ReplyKind};
use bin_stripes::{Pass, StripedMap};
use bpf_model::{Key, NoMemory, Value};
use server_state::WorkerCounts;
use std::sync::Wait;
use timed_bins::{DeadlineChange, TimedReply, Timing};

/// The map, and the time at which calls are made on it, in milliseconds since the epoch.
#[derive(Clone, Copy)]
pub struct MapAt<'a> {
    /// The map.
    pub map: &'a StripedMap,
    /// The time.
    pub time: u64,
    /// Where reads are counted.
    pub counts: &'a WorkerCounts,
}

/// What came of a call.
pub type Outcome = Result<TimedReply, NoMemory>;

/// Makes the call, and changes the key's deadline so if it gets to the entry. The value of its reply is left in `found`.
#[inline(always)]
pub fn make<H: Wait>(
    rt: &H,
    at: &MapAt<'_>,
    pass: &mut Pass,
    call: &Call,
    change: DeadlineChange,
    found: &mut Value,
) -> Outcome
    requires map { pass.old.map ≡ at.now.map.now }
    ensures same { pass.new.map ≡ at.now.map.now }
    ensures passes { pass.new.view.passes ≡ pass.old.view.passes }
    ensures numbers { pass.new.view.numbers ≡ pass.old.view.numbers }
    ensures made { Made at.now.time change result pass.old (invocation_of call.now) found.new pass.new }
{
    let timing = Timing {
        now: at.time,
        change,
    };
    at.map.call_at_into(rt, pass, call, &timing, found)
}

/// Tells the sweeper of the deadline that the call left, if it left one.
pub fn noted(made: Outcome, sweeper: &mut Sweeper) -> Outcome
    ensures { result ≡ made }
{
    if let Ok(timed) = made {
        if let Some(at) = timed.after {
            sweeper.notice(at);
        }
    }
    made
}

/// Tests whether the reply has a value.
#[inline(always)]
pub fn has_value(kind: ReplyKind) -> bool
    ensures { (bytes : List ℕ) → value_in (reply_by kind bytes) ≡ where_true result bytes }
{
    matches!(kind, ReplyKind::Some)
}

/// Returns what is found: the value, or no bytes.
#[inline(always)]
pub fn text_of(was: bool, found: &Value) -> &[u8]
    ensures value { result.now ≡ texts.text_of (where_true was found.now) }
    ensures fits { length result.now ≤ VALUE_BYTES }
{
    if was { found.as_slice() } else { &[] }
}

/// Counts a read, and returns whether there is a value.
fn counted(counts: &WorkerCounts, kind: ReplyKind) -> bool
    ensures { (bytes : List ℕ) → value_in (reply_by kind bytes) ≡ where_true result bytes }
{
    let was = has_value(kind);
    counts.count_read(was);
    was
}

/// Gets the key's value into `found`, and returns whether there is one.
#[tactic(auto, using(crate::proofs::CallLemmas::gets_are_not_refused))]
pub fn get<H: Wait>(rt: &H, at: &MapAt<'_>, pass: &mut Pass, key: &Key, found: &mut Value) -> bool
    requires map { pass.old.map ≡ at.now.map.now }
    ensures same { pass.new.map ≡ at.now.map.now }
    ensures passes { pass.new.view.passes ≡ pass.old.view.passes }
    ensures numbers { pass.new.view.numbers ≡ pass.old.view.numbers }
    ensures finds { Finds at.now.time pass.old key.now (where_true result found.new) pass.new }
{
    match make(
        rt,
        at,
        pass,
        &Call::Get { key },
        DeadlineChange::Keep,
        found,
    ) {
        Ok(timed) => counted(at.counts, timed.kind),
        Err(NoMemory) => unreachable!(),
    }
}

/// Removes the key, leaves its value in `found`, and returns whether there was one.
#[tactic(auto, using(crate::proofs::CallLemmas::removes_are_not_refused))]
pub fn remove<H: Wait>(
    rt: &H,
    at: &MapAt<'_>,
    pass: &mut Pass,
    key: &Key,
    found: &mut Value,
) -> bool
    requires map { pass.old.map ≡ at.now.map.now }
    ensures same { pass.new.map ≡ at.now.map.now }
    ensures passes { pass.new.view.passes ≡ pass.old.view.passes }
    ensures numbers { pass.new.view.numbers ≡ pass.old.view.numbers }
    ensures removes { Removes at.now.time pass.old key.now (where_true result found.new) pass.new }
{
    match make(
        rt,
        at,
        pass,
        &Call::Remove { key },
        DeadlineChange::Keep,
        found,
    ) {
        Ok(timed) => has_value(timed.kind),
        Err(NoMemory) => unreachable!(),
    }
}
