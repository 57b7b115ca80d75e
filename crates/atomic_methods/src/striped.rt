//! A whole table in stripes, for one caller.
ghost use Rattle.std.specs.Prelude.{◌≡◌, ◌≤◌, ◌↔◌, ◌⊎◌, ℕ, [], length, IfOk, IfErr, OnErr, IsErrOf, map};
ghost use Rattle.std.specs.FinMap as finmap;
ghost use Rattle.bins.specs.Copies.{WeighSame};
ghost use Rattle.bins.specs.Replacements.{ReplacesEach};
ghost use Rattle.atomic_methods.specs.Hashes.{IsStripeCount};
ghost use Rattle.atomic_methods.specs.Invocations.{invocation_of};
ghost use Rattle.atomic_methods.specs.Methods.{Answers, WouldAdd};
ghost use Rattle.atomic_methods.specs.Plans.{reply_by};
ghost use Rattle.atomic_methods.specs.Replies.{IsReply};
ghost use Rattle.atomic_methods.specs.Runs.{AnswersInTurn, first_of, IsCallRefused};
ghost use Rattle.atomic_methods.specs.Whole.{stripe_at, all_entries, whole, AreStripes, ReplacesStripes};

use crate::call::{Call, HashedCall, MAX_STRIPES, is_stripe_count};
use crate::fault::OpenFault;
use crate::reply::{Reply, ReplyKind};
use crate::stripe::Stripe;
use crate::walk_reply::{WalkKind, WalkReply};
use crate::walks::walk_entries;
use crate::workspace::Workspace;
use bins::{Counts, EntryList, SortedEntries};
use bpf_model::{Key, NoMemory, Value};
use std::alloc::Global;
use std::marker::Model;
use verifier::Verified;

/// Why a list of calls stopped early: memory was refused.
#[derive(Debug, Drop)]
pub struct Stopped {
    /// The replies to the calls that were made; these calls stand. Empty if memory for the list itself was refused.
    pub replies: Vec<Reply>,
}

/// A table of one caller, in stripes by the hashes of the keys, with the workspace of its calls.
#[derive(Drop)]
pub struct Striped {
    stripes: Vec<Stripe>,
    workspace: Workspace,
}

impl Model for Striped {
    ghost use Rattle.bins.specs.Table.{Table, table_code};
    ghost use Rattle.atomic_methods.specs.Whole.{whole, AreStripes};

    ghost Value = { Table };

    ghost coded = { table_code };

    ghost view = { λ striped. whole striped.stripes.items };

    ghost invariant = { λ striped. AreStripes striped.stripes.items };
}

impl Striped {
    /// Makes an empty table. Returns `BadStripes` if it may not have this many stripes, else `NoMemory` if a request for
    /// memory is refused.
    pub fn open(alloc: Global, stripes: u64) -> Result<Striped, OpenFault>
        ensures bad_stripes { IsErrOf result OpenFault.BadStripes ↔ (IsStripeCount stripes → ⊥) }
        ensures ok { IfOk result (λ striped. striped ≡ finmap.empty) }
    {
        if !is_stripe_count(stripes) {
            return Err(OpenFault::BadStripes);
        }
        Ok(Striped {
            stripes: empty_stripes(alloc, stripes)?,
            workspace: Workspace::new(),
        })
    }

    /// Makes one call on the whole table. Returns `NoMemory` only if it would have added a key and the room for it is
    /// refused; the table is then unchanged. A call that adds no key takes no memory. Never waits.
    pub fn apply(&mut self, call: &Call) -> Result<Reply, NoMemory>
        ensures ok { IfOk result (Answers self.old (invocation_of call.now) self.new) }
        ensures err { OnErr result (self.new ≡ self.old) }
        ensures memory { OnErr result (WouldAdd self.old (invocation_of call.now)) }
    {
        let mut bytes = Value::new();
        let kind = self.apply_into(call, &mut bytes)?;
        Ok(kind.with(bytes))
    }

    /// Makes one call as `apply` does, and leaves the bytes of the replied value in `bytes`, so that no value is moved.
    /// The old contents of `bytes` are lost.
    pub fn apply_into(&mut self, call: &Call, bytes: &mut Value) -> Result<ReplyKind, NoMemory>
        ensures ok { IfOk result (λ kind.
            Answers self.old (invocation_of call.now) self.new (reply_by kind bytes.new)) }
        ensures err { OnErr result (self.new ≡ self.old) }
        ensures memory { OnErr result (WouldAdd self.old (invocation_of call.now)) }
    {
        let call = HashedCall::new(call);
        let stripe = call.stripe(self.stripes.len() as u64) as usize;
        let bins = &mut self.stripes[stripe];
        bins.apply_into(&call, &mut self.workspace, bytes)
    }

    /// Makes the calls in turn, each on the result of the ones before it. If a call is refused, neither it nor any after
    /// it is made. Room for the replies is asked for first. Never waits.
    pub fn run(&mut self, alloc: Global, calls: &[Call]) -> Result<Vec<Reply>, Stopped>
        ensures ok { IfOk result (λ replies.
            AnswersInTurn self.old (map invocation_of calls.now) self.new replies.items) }
        ensures err { IfErr result (λ stopped.
            let made = first_of calls.now (length stopped.replies.items) in
            AnswersInTurn self.old made self.new stopped.replies.items) }
        ensures memory { IfErr result (λ stopped. (stopped.replies.items ≡ [])
            ⊎ IsCallRefused self.new calls.now (length stopped.replies.items)) }
    {
        let Ok(mut replies) = Vec::with_capacity(alloc, calls.len()) else {
            return Err(Stopped {
                replies: Vec::new(alloc),
            });
        };
        for call in calls {
            match self.apply(call) {
                Ok(reply) => replies.push_reserved(reply),
                Err(NoMemory) => return Err(Stopped { replies }),
            }
        }
        Ok(replies)
    }

    /// Returns copies of all entries, in key order. Returns `NoMemory` if a request for memory is refused. Never waits.
    pub fn scan(&self, alloc: Global) -> Result<Vec<(Key, Value)>, NoMemory>
        ensures ok { IfOk result (λ found. found.items ≡ finmap.entries self.now) }
    {
        let entries = sorted_entries(alloc, &self.stripes)?;
        let found = entries.copied(alloc)?;
        Ok(found)
    }

    /// Runs the program on each entry in key order, and returns the answers of this kind of walk. Returns `NoMemory` if
    /// a request for memory is refused. Never waits.
    pub fn walk(
        &self,
        alloc: Global,
        kind: WalkKind,
        program: &Verified,
        arg: &Option<Value>,
    ) -> Result<WalkReply, NoMemory>
        ensures ok { IfOk result (λ reply. IsReply kind program.now arg.now (finmap.entries self.now) reply) }
    {
        let entries = sorted_entries(alloc, &self.stripes)?;
        let reply = walk_entries(alloc, kind, &entries, program, arg)?;
        Ok(reply.into_reply())
    }

    /// Returns the number of entries. Takes no memory. Never waits.
    pub fn count(&self) -> u64
        ensures value { result ≡ length (finmap.entries self.now) }
    {
        count_all(&self.stripes)
    }

    /// Replaces the value of each key of the table once by the program's answer on the key, its value and the argument. If
    /// the answer is nothing, or the entry is too long for a window, the entry stays. Takes no memory. Never waits.
    pub fn replace_each(&mut self, program: &Verified, arg: &Option<Value>) -> Counts
        ensures each { ReplacesEach program.now arg.now self.old self.new result }
    {
        replace_stripes(&mut self.stripes, program, arg)
    }
}

/// Replaces the values of each stripe, and adds up the counts.
fn replace_stripes(stripes: &mut Vec<Stripe>, program: &Verified, arg: &Option<Value>) -> Counts
    requires bounded { length stripes.old.items ≤ MAX_STRIPES }
    ensures each { ReplacesStripes program.now arg.now stripes.old.items stripes.new.items result }
{
    let mut scanned = 0;
    let mut given = 0;
    let mut unfit = 0;
    for stripe in stripes.iter_mut() {
        let counts = stripe.replace_each(program, arg);
        scanned += counts.scanned;
        given += counts.given;
        unfit += counts.unfit;
    }
    Counts {
        scanned,
        given,
        unfit,
    }
}

/// Makes this many stripes without entries.
fn empty_stripes(alloc: Global, count: u64) -> Result<Vec<Stripe>, NoMemory>
    ensures count { IfOk result (λ stripes. length stripes.items ≡ count) }
    ensures empty { IfOk result (λ stripes. (i : ℕ) → stripe_at stripes.items i ≡ finmap.empty) }
{
    let mut stripes = Vec::new(alloc);
    for _ in 0..count {
        stripes.push(Stripe::open(alloc, count)?)?;
    }
    Ok(stripes)
}

/// Returns the number of entries in all stripes.
fn count_all(stripes: &[Stripe]) -> u64
    requires { length stripes.now ≤ MAX_STRIPES }
    ensures { result ≡ length (all_entries stripes.now) }
{
    let mut sum = 0;
    for stripe in stripes {
        sum += stripe.count();
    }
    sum
}

/// Returns the entries of all stripes in one list. Asks for its room first.
fn list_of(alloc: Global, stripes: &[Stripe]) -> Result<EntryList, NoMemory>
    requires { length stripes.now ≤ MAX_STRIPES }
    ensures ok { IfOk result (λ found. WeighSame found (all_entries stripes.now)) }
{
    let mut found = EntryList::new(alloc);
    found.reserve(count_all(stripes) as usize)?;
    for stripe in stripes {
        stripe.copy_into(&mut found)?;
    }
    Ok(found)
}

/// Returns the entries of all stripes in key order.
fn sorted_entries(alloc: Global, stripes: &[Stripe]) -> Result<SortedEntries, NoMemory>
    requires { AreStripes stripes.now }
    ensures ok { IfOk result (λ found. found ≡ finmap.entries (whole stripes.now)) }
{
    let found = list_of(alloc, stripes)?;
    let sorted = SortedEntries::new(alloc, found)?;
    Ok(sorted)
}
