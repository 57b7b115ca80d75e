//! The methods, over any store of entries: what a call will do to its key is planned before anything changes.
ghost use Rattle.std.specs.FinMap as map;
ghost use Rattle.std.specs.Prelude.{◌≡◌, ◌≢◌, ◌<◌, ◌^◌, ℕ, List, IfOk, OnOk, OnErr, Some, None, ◌↔◌, IsTrue};
ghost use Rattle.bins.specs.Ranks.{KeepsRanks};
ghost use Rattle.bins.specs.Replacements.{ReplacesEach, ComesTo};
ghost use Rattle.atomic_methods.specs.Invocations.{invocation_of};
ghost use Rattle.atomic_methods.specs.Methods.{rule_of, with_value, Follows, Answers, RunsTo, WouldAdd};
ghost use Rattle.atomic_methods.specs.Plans.{changed, outcome_by, reply_by, reply_planned, where_true, rule_by};
ghost use Rattle.std.specs.Option.{option_copied};
ghost use Rattle.bpf_model.specs.Fits.{input_of};

use crate::call::{Call, HashedCall};
use crate::reply::{Reply, ReplyKind};
use crate::workspace::Workspace;
use bins::{Bins, Counts, HashedKey};
use bpf_machine::{Machine, run_into};
use bpf_model::{InputPart, Key, NoMemory, Value, fits_parts, value_bytes};
use std::alloc::Global;
use verifier::Verified;

/// Makes one call. Returns `NoMemory` only if it would have added a key and the room for it is refused; the entries are
/// then unchanged. A call that adds no key takes no memory. Never waits.
pub fn apply<B: Bins>(bins: &mut B, call: &Call) -> Result<Reply, NoMemory>
    ensures ok { IfOk result (Answers (B.table bins.old) (invocation_of call.now) (B.table bins.new)) }
    ensures err { OnErr result (B.table bins.new ≡ B.table bins.old) }
    ensures memory { OnErr result (WouldAdd (B.table bins.old) (invocation_of call.now)) }
{
    let mut workspace = Workspace::new();
    let mut bytes = Value::new();
    let kind = apply_into(bins, &HashedCall::new(call), &mut workspace, &mut bytes)?;
    Ok(kind.with(bytes))
}

/// Makes one call as `apply` does. Leaves the bytes of the replied value in `bytes`, so that no value is moved, and works in
/// `workspace`, so that none is cleared; the old contents of both are lost. A program runs on the old value in place, before
/// room is asked for. Hashed bins search once per call, and the replied value is copied once.
#[inline(always)]
pub fn apply_into<B: Bins>(
    bins: &mut B,
    call: &HashedCall<'_>,
    workspace: &mut Workspace,
    bytes: &mut Value,
) -> Result<ReplyKind, NoMemory>
    ensures ok { IfOk result (λ kind.
        Answers (B.table bins.old) call.now (B.table bins.new) (reply_by kind bytes.new)) }
    ensures err { OnErr result (B.table bins.new ≡ B.table bins.old) }
    ensures memory { OnErr result (WouldAdd (B.table bins.old) call.now) }
    ensures ranks { KeepsRanks (B.table bins.old) (B.order bins.old) (B.order bins.new) }
{
    let Some(old) = bins.find(call.key()) else {
        return apply_to_absent(bins, call, workspace, bytes);
    };
    if let Call::Get { .. } = call.call() {
        bytes.set_from(old);
        return Ok(ReplyKind::Some);
    }
    match plan_of(call.call(), Some(old)) {
        Plan::Apply(change, told) => {
            bytes.set_from(old);
            make_change(bins, call.key(), &change)?;
            Ok(kind_of(told))
        }
        Plan::Give(new) => {
            bytes.set_from(new.as_slice());
            make_change(bins, call.key(), &Change::Enter(new))?;
            Ok(ReplyKind::Some)
        }
        Plan::Run(program, arg) => {
            let (key, arg) = (call.call().key(), value_bytes(arg));
            let machine = &mut workspace.machine;
            let answered = answer_into(program, key, Some(old), arg, machine, bytes);
            enter_answer(bins, call, answered, bytes)
        }
    }
}

/// Enters a program's answer: if it is bytes, which are in `bytes`, they become the key's value and the reply.
#[inline(always)]
fn enter_answer<B: Bins>(
    bins: &mut B,
    call: &HashedCall<'_>,
    answered: Result<bool, InputPart>,
    bytes: &Value,
) -> Result<ReplyKind, NoMemory>
    requires came_to { RunsTo (B.table bins.old) call.now (outcome_by answered bytes.now) }
    ensures ok { IfOk result (λ kind.
        Answers (B.table bins.old) call.now (B.table bins.new) (reply_by kind bytes.now)) }
    ensures err { OnErr result (B.table bins.new ≡ B.table bins.old) }
    ensures memory { OnErr result (WouldAdd (B.table bins.old) call.now) }
    ensures ranks { KeepsRanks (B.table bins.old) (B.order bins.old) (B.order bins.new) }
{
    match answered {
        Ok(true) => {
            bins.put(call.key(), bytes)?;
            Ok(ReplyKind::Some)
        }
        Ok(false) => {
            bins.discard(call.key());
            Ok(ReplyKind::None)
        }
        Err(part) => Ok(ReplyKind::Unfit(part)),
    }
}

/// Returns the reply about a present key, without its value.
fn kind_of(told: PlannedReply) -> ReplyKind
    ensures value { (old : List ℕ) → reply_by result old ≡ reply_planned told (Some old) }
{
    match told {
        PlannedReply::Done(done) => ReplyKind::Done(done),
        PlannedReply::Old => ReplyKind::Some,
    }
}

/// Makes a change of a key's value. It is separate so that `apply_into` stays short enough to be inlined.
#[inline(never)]
fn make_change<B: Bins>(
    bins: &mut B,
    key: &HashedKey<'_>,
    change: &Change<'_>,
) -> Result<(), NoMemory>
    ensures ok { OnOk result (B.table bins.new ≡
        with_value (B.table bins.old) key.now (changed change.now (map.get (B.table bins.old) key.now))) }
    ensures err { OnErr result (B.table bins.new ≡ B.table bins.old) }
    ensures memory { OnErr result (map.get (B.table bins.old) key.now ≡ None) }
    ensures ranks { KeepsRanks (B.table bins.old) (B.order bins.old) (B.order bins.new) }
{
    match change {
        Change::Keep => Ok(()),
        Change::Remove => {
            bins.discard(key);
            Ok(())
        }
        Change::Enter(value) => bins.put(key, value),
    }
}

/// Makes a call whose key is absent, as `apply_into` does. It is separate so that calls on present keys clear no room for
/// a new entry.
#[inline(never)]
fn apply_to_absent<B: Bins>(
    bins: &mut B,
    call: &HashedCall<'_>,
    workspace: &mut Workspace,
    bytes: &mut Value,
) -> Result<ReplyKind, NoMemory>
    requires absent { map.get (B.table bins.old) call.now.key ≡ None }
    ensures ok { IfOk result (λ kind.
        Answers (B.table bins.old) call.now (B.table bins.new) (reply_by kind bytes.new)) }
    ensures err { OnErr result (B.table bins.new ≡ B.table bins.old) }
    ensures memory { OnErr result (WouldAdd (B.table bins.old) call.now) }
    ensures ranks { KeepsRanks (B.table bins.old) (B.order bins.old) (B.order bins.new) }
{
    let (enters, kind) = new_value(call.call(), workspace, bytes);
    if enters {
        let key = call.key();
        bins.add(key, bytes)?;
    }
    Ok(kind)
}

/// Makes one call as if its key were absent, though it has an entry: that entry goes, and the call may enter a new one in its place.
/// Takes no memory. Never waits.
#[inline(never)]
pub fn apply_to_stale<B: Bins>(
    bins: &mut B,
    call: &HashedCall<'_>,
    workspace: &mut Workspace,
    bytes: &mut Value,
) -> ReplyKind
    requires present { map.get (B.table bins.old) call.now.key ≢ None }
    ensures answers { Answers (map.remove (B.table bins.old) call.now.key) call.now (B.table bins.new) (reply_by result bytes.new) }
    ensures ranks { KeepsRanks (B.table bins.old) (B.order bins.old) (B.order bins.new) }
{
    let (enters, kind) = new_value(call.call(), workspace, bytes);
    if enters {
        let Ok(()) = bins.put(call.key(), bytes) else {
            unreachable!()
        };
        return kind;
    }
    bins.discard(call.key());
    kind
}

/// Returns copies of all entries, in key order. Returns `NoMemory` if a request for memory is refused. Never waits.
pub fn scan<B: Bins>(alloc: Global, bins: &B) -> Result<Vec<(Key, Value)>, NoMemory>
    ensures ok { IfOk result (λ found. found.items ≡ map.entries (B.table bins.now)) }
{
    bins.entries(alloc)
}

/// Replaces the value of each key once by the program's answer on the key, its value and the argument. If the answer is
/// nothing, or the entry is too long for a window, the entry stays. Takes no memory. Never waits.
pub fn replace_each<B: Bins>(bins: &mut B, program: &Verified, arg: &Option<Value>) -> Counts
    ensures each { ReplacesEach program.now arg.now (B.table bins.old) (B.table bins.new) result }
    ensures bounded { result.scanned < 2 ^ 57 }
{
    bins.replace_each(program, arg)
}

/// Returns the result of a call on an absent key: whether to enter a value, which is then in `bytes`, and the reply.
fn new_value(call: &Call, workspace: &mut Workspace, bytes: &mut Value) -> (bool, ReplyKind)
    ensures follows { let invocation = invocation_of call.now in
        Follows (rule_of invocation.method None) invocation.key None
        (where_true result.0 bytes.new) (reply_by result.1 bytes.new) }
{
    match plan_of(call, None) {
        Plan::Apply(Change::Enter(new), told) => {
            bytes.set_from(new.as_slice());
            match told {
                PlannedReply::Old => (true, ReplyKind::None),
                PlannedReply::Done(done) => (true, ReplyKind::Done(done)),
            }
        }
        Plan::Apply(_, PlannedReply::Done(done)) => (false, ReplyKind::Done(done)),
        Plan::Apply(_, PlannedReply::Old) => (false, ReplyKind::None),
        Plan::Give(new) => {
            bytes.set_from(new.as_slice());
            (true, ReplyKind::Some)
        }
        Plan::Run(program, arg) => match answer_into(
            program,
            call.key(),
            None,
            value_bytes(arg),
            &mut workspace.machine,
            bytes,
        ) {
            Ok(true) => (true, ReplyKind::Some),
            Ok(false) => (false, ReplyKind::None),
            Err(part) => (false, ReplyKind::Unfit(part)),
        },
    }
}

/// The change of a key's value.
#[derive(Clone, Copy)]
pub enum Change<'c> {
    /// Keeps the value, or keeps the key absent.
    Keep,
    /// Removes the key.
    Remove,
    /// Sets this value.
    Enter(&'c Value),
}

/// The reply.
#[derive(Clone, Copy)]
pub enum PlannedReply {
    /// The value that the key had, if any.
    Old,
    /// Whether the value was the expected one.
    Done(bool),
}

/// What a call does to its key.
#[derive(Clone, Copy)]
pub enum Plan<'c> {
    /// The change and the reply.
    Apply(Change<'c>, PlannedReply),
    /// Sets this value and replies it.
    Give(&'c Value),
    /// Runs the program with this argument; its answer becomes the key's value and the reply.
    Run(&'c Verified, Option<&'c Value>),
}

/// Returns whether a value is the expected one. It is separate, since `plan_of` compares at two places.
#[inline(never)]
fn is_expected(old: &[u8], expected: &Value) -> bool
    ensures { IsTrue result ↔ (old.now ≡ expected.now) }
{
    old == expected.as_slice()
}

/// The rule of each method: what the call does to its key, which has this value or none.
#[inline(always)]
pub fn plan_of<'c>(call: &Call<'c>, old: Option<&[u8]>) -> Plan<'c>
    ensures rule { let value = option_copied old.entry in
        rule_by result value ≡ rule_of (invocation_of call.now).method value }
{
    use Change::{Enter, Keep, Remove};
    use Plan::{Give, Run, Apply};
    use PlannedReply::{Done, Old};
    match call {
        Call::Get { .. } => Apply(Keep, Old),
        Call::Put { value, .. } => Apply(Enter(value), Old),
        Call::PutIfAbsent { value, .. } => match old {
            Some(_) => Apply(Keep, Old),
            None => Apply(Enter(value), Old),
        },
        Call::Remove { .. } => Apply(Remove, Old),
        Call::RemoveIf { expected, .. } => match old {
            Some(old) if is_expected(old, expected) => Apply(Remove, Done(true)),
            _ => Apply(Keep, Done(false)),
        },
        Call::Replace { value, .. } => match old {
            Some(_) => Apply(Enter(value), Old),
            None => Apply(Keep, Old),
        },
        Call::ReplaceIf {
            expected,
            value,
            ..
        } => match old {
            Some(old) if is_expected(old, expected) => Apply(Enter(value), Done(true)),
            _ => Apply(Keep, Done(false)),
        },
        Call::Compute { program, arg, .. } => Run(program, *arg),
        Call::ComputeIfAbsent { program, arg, .. } => match old {
            Some(_) => Apply(Keep, Old),
            None => Run(program, *arg),
        },
        Call::ComputeIfPresent { program, arg, .. } => match old {
            Some(_) => Run(program, *arg),
            None => Apply(Keep, Old),
        },
        Call::Merge { value, program, .. } => match old {
            Some(_) => Run(program, Some(value)),
            None => Give(value),
        },
    }
}

/// Runs the program on the key, its value and the argument, in the borrowed machine. Returns whether it answers bytes,
/// which are then in `answer`; `false` means nothing. If a window is too small, returns the first such window. Takes no
/// memory.
pub fn answer_into(
    program: &Verified,
    key: &Key,
    old: Option<&[u8]>,
    arg: Option<&[u8]>,
    machine: &mut Machine,
    answer: &mut Value,
) -> Result<bool, InputPart>
    ensures outcome { let input = input_of key.now (option_copied old.entry) (option_copied arg.entry) in
        ComesTo program.now input (outcome_by result answer.new) }
{
    fits_parts(&program.sizes(), key, old, arg)?;
    Ok(run_into(program, key, old, arg, machine, answer))
}
