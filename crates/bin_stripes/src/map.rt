//! The map that passes share.
ghost use Rattle.std.specs.Prelude.{◌≡◌, ◌<◌, ◌^◌, [], length, option_copied, IfOk, IfErr, OnOk, OnErr, IsErrOf};
ghost use Rattle.atomic_methods.specs.Hashes.{stripe_of, IsStripeCount};
ghost use Rattle.atomic_methods.specs.Invocations.{invocation_of};
ghost use Rattle.atomic_methods.specs.Plans.{reply_by};
ghost use Rattle.bin_stripes.specs.Invoked.{Makes, Calls, RefusesCall, Scans, CopiesStripe, VisitsStripe, CountsStripe, AreOf, ReplacesInStripe, stripe_for};
ghost use Rattle.bin_stripes.specs.Timed.{CallsAt, RefusesAt, ExpiresOne, PassCalls, PassIsRefused};
ghost use Rattle.bin_stripes.specs.Passes.{ServesSameMap, stripes_of};

use crate::expiry::{Expiry, plain};
use crate::fault::CallFault;
use crate::gate::Gate;
use crate::ghost_action::GhostAction;
use crate::held::{
    CallAt, Replacer, make_call, make_copies, make_count, make_expiry, make_replacements,
    make_scan, make_visit,
};
use crate::holds::Holds;
use crate::pass::Pass;
use crate::rule::{Shape, Striping};
use crate::seats::{try_call, try_replace, try_scan};
use crate::steps::take_stripe;
use crate::turns::{Turns, Waits};
use crate::visitor::Visitor;
use atomic_methods::{Call, HashedCall, Reply, ReplyKind};
use atomic_table::Table;
use bins::{Counts, EntryList, HashedBins};
use bpf_model::{Key, NoMemory, Value};
use noted_bins::Noted;
use std::alloc::Global;
use std::marker::Model;
use std::sync::Wait;
use stripe_rule::View;
use ticks::micros;
use timed_bins::{Timed, TimedReply, Timing};
use verifier::Verified;

/// The store of a stripe's entries. The map's contracts and proofs know it only by the traits `Bins`, `TimedBins` and
/// `NotedBins`.
pub(crate) type StripeBins = Noted<Timed<HashedBins>>;

/// A table in stripes by the hashes of the keys, shared by passes. Each stripe has a word, which is 1 while it is held,
/// and a slot for its bins.
#[derive(Drop)]
pub struct StripedMap {
    pub(crate) table: Table<
        Option<StripeBins>,
        View<GhostAction>,
        Shape,
        Striping<StripeBins>,
        Global,
    >,
    pub(crate) turns: Turns,
    pub(crate) holds: Holds,
}

impl Model for StripedMap {
    ghost use Rattle.atomic_table.specs.Seated.{TableId, table_id_coded};
    ghost use Rattle.bin_stripes.specs.Holding.{IsMap};

    ghost Value = { TableId };

    ghost coded = { table_id_coded };

    ghost view = { λ m. m.table.shared.table_id };

    ghost invariant = { λ m. IsMap m.table.shared.table_id m.table.shared.key };
}

impl StripedMap {
    /// Returns the number of stripes. Takes no memory. Never waits.
    pub fn stripes(&self) -> u64
        ensures value { result ≡ stripes_of self.now }
        ensures count { IsStripeCount (stripes_of self.now) }
    {
        self.table.slot_count() as u64
    }

    /// Returns the stripe of a key, counted from 0. Takes no memory. Never waits.
    pub fn stripe_of(&self, key: &Key) -> u64
        ensures value { result ≡ stripe_of (stripes_of self.now) key.now }
        ensures range { result < stripes_of self.now }
    {
        atomic_methods::stripe_of(key, self.stripes())
    }

    /// Returns how often threads have waited for a stripe since the map was opened, and the longest wait. Both count only waits that
    /// are over, of all passes and calls. Takes no memory. Never waits.
    pub fn waits(&self) -> Waits {
        self.turns.waits()
    }

    /// Returns how long a stripe was held at the longest since the map was opened, in microseconds, by a scan, a copy, a count, a
    /// replacement, a save or a look for an entry whose time is over, each of them over by now. Calls are not timed, nor what has
    /// `try_` in its name. Takes no memory. Never waits.
    pub fn longest_hold_micros(&self) -> u64 {
        self.holds.longest_micros()
    }

    /// The stripe of the call's key.
    fn stripe_for(&self, call: &HashedCall<'_>) -> usize
        ensures stripe { result ≡ stripe_of (stripes_of self.now) call.now.key }
        ensures range { result < stripes_of self.now }
    {
        call.stripe(self.stripes()) as usize
    }

    /// Makes the call. Returns `NoMemory` only if it would have added its key and a request for memory is refused; then
    /// nothing was done. Waits until the stripe of the key is free.
    pub fn call<R: Wait>(&self, rt: &R, pass: &mut Pass, call: &Call) -> Result<Reply, NoMemory>
        requires map { pass.old.map ≡ self.now }
        ensures same { ServesSameMap pass.old pass.new }
        ensures ok { IfOk result (λ reply. Calls pass.old (invocation_of call.now) reply pass.new) }
        ensures err { OnErr result (RefusesCall pass.old (invocation_of call.now) pass.new) }
    {
        let mut bytes = Value::new();
        let kind = self.call_into(rt, pass, call, &mut bytes)?;
        Ok(kind.with(bytes))
    }

    /// Makes the call if the stripe of the key is free, else returns `Busy`. Returns `NoMemory` as `call` does. After either
    /// error nothing was done. Never waits.
    pub fn try_call(&self, pass: &mut Pass, call: &Call) -> Result<Reply, CallFault>
        requires map { pass.old.map ≡ self.now }
        ensures same { ServesSameMap pass.old pass.new }
        ensures ok { IfOk result (λ reply. Calls pass.old (invocation_of call.now) reply pass.new) }
        ensures err { OnErr result (Makes pass.old (stripe_for pass.old (invocation_of call.now)) [] pass.new) }
        ensures memory { IsErrOf result CallFault.NoMemory → RefusesCall pass.old (invocation_of call.now) pass.new }
    {
        let mut bytes = Value::new();
        let kind = self.try_call_into(pass, call, &mut bytes)?;
        Ok(kind.with(bytes))
    }

    /// Makes the call as `call` does, and leaves the bytes of the replied value in `bytes`, so that no value is moved. The
    /// old contents of `bytes` are lost. Returns `NoMemory` as `call` does. Waits until the stripe of the key is free.
    #[inline(always)]
    pub fn call_into<R: Wait>(
        &self,
        rt: &R,
        pass: &mut Pass,
        call: &Call,
        bytes: &mut Value,
    ) -> Result<ReplyKind, NoMemory>
        requires map { pass.old.map ≡ self.now }
        ensures same { ServesSameMap pass.old pass.new }
        ensures ok { IfOk result (λ kind. Calls pass.old (invocation_of call.now) (reply_by kind bytes.new) pass.new) }
        ensures err { OnErr result (RefusesCall pass.old (invocation_of call.now) pass.new) }
    {
        match self.make(rt, pass, call, None, bytes) {
            Ok(timed) => Ok(timed.kind),
            Err(fault) => Err(fault),
        }
    }

    /// Makes the call as `try_call` does, and leaves the bytes of the replied value in `bytes`, so that no value is moved.
    /// The old contents of `bytes` are lost. Returns `Busy` and `NoMemory` as `try_call` does. Never waits.
    pub fn try_call_into(
        &self,
        pass: &mut Pass,
        call: &Call,
        bytes: &mut Value,
    ) -> Result<ReplyKind, CallFault>
        requires map { pass.old.map ≡ self.now }
        ensures same { ServesSameMap pass.old pass.new }
        ensures ok { IfOk result (λ kind. Calls pass.old (invocation_of call.now) (reply_by kind bytes.new) pass.new) }
        ensures err { OnErr result (Makes pass.old (stripe_for pass.old (invocation_of call.now)) [] pass.new) }
        ensures memory { IsErrOf result CallFault.NoMemory → RefusesCall pass.old (invocation_of call.now) pass.new }
    {
        let call = HashedCall::new(call);
        let stripe = self.stripe_for(&call);
        let table = &self.table.shared;
        let mut seat = pass.known.take();
        let answer = try_call(table, &mut seat, stripe, &call, &mut pass.workspace, bytes);
        pass.known.put(seat);
        answer
    }

    /// Makes the call at a time, in milliseconds since the epoch: takes its key away first if its deadline is not after that
    /// time, or not after the latest that the stripe was told. Then makes the call as `call_into` does, and changes the key's
    /// deadline as `timing` says if the call gets to the key's entry. Returns `NoMemory` only if the call would have added its
    /// key, or `timing` may set a deadline, and a request for memory is refused; then nothing was done. Waits until the stripe
    /// of the key is free.
    #[inline(always)]
    pub fn call_at_into<R: Wait>(
        &self,
        rt: &R,
        pass: &mut Pass,
        call: &Call,
        timing: &Timing,
        bytes: &mut Value,
    ) -> Result<TimedReply, NoMemory>
        requires map { pass.old.map ≡ self.now }
        ensures same { ServesSameMap pass.old pass.new }
        ensures ok { IfOk result (λ timed. CallsAt pass.old timing.entry.now (invocation_of call.now) timed bytes.new pass.new) }
        ensures err { OnErr result (RefusesAt pass.old timing.entry.now (invocation_of call.now) pass.new) }
    {
        self.make(rt, pass, call, Some(timing), bytes)
    }

    /// Makes the call, at a time or whatever the time is, and leaves the bytes of the replied value in `bytes`. Waits until the
    /// stripe of the key is free.
    #[inline(always)]
    fn make<R: Wait>(
        &self,
        rt: &R,
        pass: &mut Pass,
        call: &Call,
        timing: Option<&Timing>,
        bytes: &mut Value,
    ) -> Result<TimedReply, NoMemory>
        requires map { pass.old.map ≡ self.now }
        ensures same { ServesSameMap pass.old pass.new }
        ensures ok { IfOk result (λ timed. PassCalls (option_copied timing.entry) pass.old (invocation_of call.now)
            timed bytes.new pass.new) }
        ensures err { OnErr result (PassIsRefused (option_copied timing.entry) pass.old (invocation_of call.now)
            pass.new) }
    {
        let call = HashedCall::new(call);
        let stripe = self.stripe_for(&call);
        let table = &self.table.shared;
        let mut seat = pass.known.take();
        take_stripe(rt, table, &mut seat, stripe, &self.turns);
        let answer = make_call(
            table,
            &mut seat,
            stripe,
            CallAt {
                call: &call,
                timing,
            },
            &mut pass.workspace,
            bytes,
        );
        pass.known.put(seat);
        answer
    }

    /// Takes at most one entry of one stripe away, which is below `stripes()`: one whose deadline is not after this time, in
    /// milliseconds since the epoch, or not after the latest that the stripe was told. Takes no memory. Waits until the stripe
    /// is free.
    pub fn expire_one<R: Wait>(&self, rt: &R, pass: &mut Pass, stripe: u64, now: u64) -> Expiry
        requires map { pass.old.map ≡ self.now }
        requires stripe { stripe < stripes_of self.now }
        ensures same { ServesSameMap pass.old pass.new }
        ensures expires { ExpiresOne pass.old stripe now result pass.new }
    {
        let slot = stripe as usize;
        let table = &self.table.shared;
        let mut seat = pass.known.take();
        take_stripe(rt, table, &mut seat, slot, &self.turns);
        let begun = micros();
        let expiry = make_expiry(table, &mut seat, slot, now);
        self.holds.ended(begun);
        pass.known.put(seat);
        plain(&expiry)
    }

    /// Returns copies of the entries of one stripe, which is below `stripes()`, in key order. Returns `NoMemory` if a request
    /// for memory is refused; then nothing was done. Waits until the stripe is free.
    pub fn scan_stripe<R: Wait>(
        &self,
        rt: &R,
        alloc: Global,
        pass: &mut Pass,
        stripe: u64,
    ) -> Result<Vec<(Key, Value)>, NoMemory>
        requires map { pass.old.map ≡ self.now }
        requires stripe { stripe < stripes_of self.now }
        ensures same { ServesSameMap pass.old pass.new }
        ensures ok { IfOk result (λ found. Scans pass.old stripe found.items pass.new) }
        ensures err { OnErr result (Makes pass.old stripe [] pass.new) }
        ensures entries { IfOk result (λ found. AreOf (stripes_of self.now) stripe found.items) }
        ensures bounded { IfOk result (λ found. length found.items < 2 ^ 55) }
    {
        let slot = stripe as usize;
        let table = &self.table.shared;
        let mut seat = pass.known.take();
        take_stripe(rt, table, &mut seat, slot, &self.turns);
        let begun = micros();
        let answer = make_scan(alloc, table, &mut seat, slot);
        self.holds.ended(begun);
        pass.known.put(seat);
        answer
    }

    /// Adds copies of the entries of one stripe, which is below `stripes()`, to the list, in any order: a scan without sorting.
    /// Returns `NoMemory` if a request for memory is refused; then nothing was done, and the list is unchanged. Waits until the
    /// stripe is free.
    pub fn copy_stripe<R: Wait>(
        &self,
        rt: &R,
        pass: &mut Pass,
        stripe: u64,
        list: &mut EntryList,
    ) -> Result<(), NoMemory>
        requires map { pass.old.map ≡ self.now }
        requires stripe { stripe < stripes_of self.now }
        ensures same { ServesSameMap pass.old pass.new }
        ensures ok { OnOk result (CopiesStripe pass.old stripe list.old list.new pass.new) }
        ensures err { OnErr result (Makes pass.old stripe [] pass.new × (list.new ≡ list.old)) }
    {
        let slot = stripe as usize;
        let table = &self.table.shared;
        let mut seat = pass.known.take();
        take_stripe(rt, table, &mut seat, slot, &self.turns);
        let begun = micros();
        let answer = make_copies(table, &mut seat, slot, list);
        self.holds.ended(begun);
        pass.known.put(seat);
        answer
    }

    /// Shows the entries of one stripe, which is below `stripes()`, to a visitor where they lie, in any order: a scan that copies
    /// nothing. The stripe is held meanwhile. Takes no memory, unless the visitor does. Waits until the stripe is free.
    pub fn visit_stripe<R: Wait, V: Visitor>(
        &self,
        rt: &R,
        pass: &mut Pass,
        stripe: u64,
        visitor: &mut V,
    )
        requires map { pass.old.map ≡ self.now }
        requires stripe { stripe < stripes_of self.now }
        requires may { V.may_visit visitor.old }
        ensures same { ServesSameMap pass.old pass.new }
        ensures visits { VisitsStripe V.visits pass.old stripe visitor.old visitor.new pass.new }
    {
        let slot = stripe as usize;
        let table = &self.table.shared;
        let mut seat = pass.known.take();
        take_stripe(rt, table, &mut seat, slot, &self.turns);
        let begun = micros();
        make_visit(table, &mut seat, slot, visitor);
        self.holds.ended(begun);
        pass.known.put(seat);
    }

    /// Scans as `scan_stripe` does if the stripe is free; else returns `Busy`. Never waits.
    pub fn try_scan_stripe(
        &self,
        alloc: Global,
        pass: &mut Pass,
        stripe: u64,
    ) -> Result<Vec<(Key, Value)>, CallFault>
        requires map { pass.old.map ≡ self.now }
        requires stripe { stripe < stripes_of self.now }
        ensures same { ServesSameMap pass.old pass.new }
        ensures ok { IfOk result (λ found. Scans pass.old stripe found.items pass.new) }
        ensures err { OnErr result (Makes pass.old stripe [] pass.new) }
        ensures entries { IfOk result (λ found. AreOf (stripes_of self.now) stripe found.items) }
        ensures bounded { IfOk result (λ found. length found.items < 2 ^ 55) }
    {
        let mut seat = pass.known.take();
        let answer = try_scan(alloc, &self.table.shared, &mut seat, stripe as usize);
        pass.known.put(seat);
        answer
    }

    /// Returns the number of entries of one stripe, which is below `stripes()`: a scan that returns no entries. Takes
    /// no memory. Waits until the stripe is free.
    pub fn count_stripe<R: Wait>(&self, rt: &R, pass: &mut Pass, stripe: u64) -> u64
        requires map { pass.old.map ≡ self.now }
        requires stripe { stripe < stripes_of self.now }
        ensures same { ServesSameMap pass.old pass.new }
        ensures counts { CountsStripe pass.old stripe result pass.new }
        ensures bounded { result < 2 ^ 57 }
    {
        let slot = stripe as usize;
        let table = &self.table.shared;
        let mut seat = pass.known.take();
        take_stripe(rt, table, &mut seat, slot, &self.turns);
        let begun = micros();
        let count = make_count(table, &mut seat, slot);
        self.holds.ended(begun);
        pass.known.put(seat);
        count
    }

    /// Replaces the value of each key of one stripe, which is below `stripes()`, once by the program's answer on the key, its
    /// value and the argument. If the answer is nothing, or the entry does not fit, the entry stays. This worker passes the
    /// gate once at `Held`, while the stripe is held. Takes no memory. Waits until the stripe is free.
    pub fn replace_stripe<R: Wait, G: Gate>(
        &self,
        rt: &R,
        pass: &mut Pass,
        stripe: u64,
        program: &Verified,
        arg: &Option<Value>,
        gate: &G,
        worker: u32,
    ) -> Counts
        requires map { pass.old.map ≡ self.now }
        requires stripe { stripe < stripes_of self.now }
        ensures same { ServesSameMap pass.old pass.new }
        ensures each { ReplacesInStripe pass.old stripe program.now arg.now result pass.new }
        ensures bounded { result.scanned < 2 ^ 57 }
    {
        let slot = stripe as usize;
        let table = &self.table.shared;
        let mut seat = pass.known.take();
        take_stripe(rt, table, &mut seat, slot, &self.turns);
        let begun = micros();
        let counts = make_replacements(
            table,
            &mut seat,
            slot,
            Replacer { program, arg },
            gate,
            worker,
        );
        self.holds.ended(begun);
        pass.known.put(seat);
        counts
    }

    /// Replaces as `replace_stripe` does, without a gate, if the stripe is free; else returns `Busy`. Takes no memory. Never
    /// waits.
    pub fn try_replace_stripe(
        &self,
        pass: &mut Pass,
        stripe: u64,
        program: &Verified,
        arg: &Option<Value>,
    ) -> Result<Counts, CallFault>
        requires map { pass.old.map ≡ self.now }
        requires stripe { stripe < stripes_of self.now }
        ensures same { ServesSameMap pass.old pass.new }
        ensures ok { IfOk result (λ counts. ReplacesInStripe pass.old stripe program.now arg.now counts pass.new) }
        ensures err { OnErr result (Makes pass.old stripe [] pass.new) }
        ensures busy { IfErr result (λ fault. fault ≡ CallFault.Busy) }
        ensures bounded { IfOk result (λ counts. counts.scanned < 2 ^ 57) }
    {
        let mut seat = pass.known.take();
        let answer = try_replace(
            &self.table.shared,
            &mut seat,
            stripe as usize,
            Replacer { program, arg },
        );
        pass.known.put(seat);
        answer
    }
}
