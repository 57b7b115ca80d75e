//! Work on the bins of a held stripe: a call, a scan or the replacement of its values. Each works on the bins in place,
//! in the stripe's slot, and lets the stripe go.
ghost use Rattle.std.specs.Prelude.{◌≡◌, ◌<◌, ◌^◌, [], ◌∷◌, length, option_copied, IfOk, OnOk, OnErr};
ghost use Rattle.std.specs.FinMap as map;
ghost use Rattle.atomic_methods.specs.Hashes.{stripe_of};
ghost use Rattle.bins.specs.Copies.{AddsCopies};
ghost use Rattle.bins.specs.Table.{Table};
ghost use Rattle.stripe_rule.specs.Gains.{seen_of};
ghost use Rattle.timed_bins.specs.Deadlines.{timed_table};
ghost use Rattle.bin_stripes.specs.Actions.{scanned};
ghost use Rattle.bin_stripes.specs.Histories.{Leaves};
ghost use Rattle.bin_stripes.specs.Invoked.{AreReplacements, Shown};
ghost use Rattle.bin_stripes.specs.Releasing.{Lets};
ghost use Rattle.bin_stripes.specs.Holding.{IsLaid, SeatHolds};
ghost use Rattle.bin_stripes.specs.Deeds.{CallsBy, RefusesBy, ExpiresBy, LetsAt};

use crate::gate::{Gate, Place};
use crate::steps::{PassSeat, Shows, Stripes, let_go};
use crate::visitor::Visitor;
use atomic_methods::{HashedCall, Workspace};
use bins::{Counts, EntryList};
use bpf_model::{Key, NoMemory, Value};
use noted_bins::NotedBins;
use std::alloc::Global;
use std::snapshot::Snapshot;
use timed_bins::{Expiry, TimedReply, Timing};
use verifier::Verified;

/// Nothing was done.
pub(crate) struct Nothing;

impl Shows<()> for Nothing {
    ghost shows = { λ _ actions. actions ≡ [] };
}

/// A call, and the time at which it is made, or none if it is made whatever the time is.
#[derive(Clone, Copy)]
pub(crate) struct CallAt<'a> {
    pub(crate) call: &'a HashedCall<'a>,
    pub(crate) timing: Option<&'a Timing>,
}

/// A call, what it came to, the bytes of the replied value, and the bins before and after.
#[derive(Drop)]
struct Answered<'a, B> {
    at: CallAt<'a>,
    timed: TimedReply,
    bytes: &'a Value,
    before: Snapshot<B>,
    after: Snapshot<B>,
}

/// The call was made; before that, if its time was over, the key was taken away.
struct Calling;

impl<'a, B: NotedBins> Shows<Answered<'a, B>> for Calling {
    ghost shows = { λ done actions.
        CallsBy (option_copied done.at.timing) done.at.call.now done.timed done.bytes.now
        (timed_table (B.table done.before.value) (B.deadline done.before.value) (B.latest done.before.value))
        (timed_table (B.table done.after.value) (B.deadline done.after.value) (B.latest done.after.value)) actions };
}

/// A call that was refused, and the bins before and after.
#[derive(Drop)]
struct Refused<'a, B> {
    at: CallAt<'a>,
    before: Snapshot<B>,
    after: Snapshot<B>,
}

/// The call was not made.
struct Refusing;

impl<'a, B: NotedBins> Shows<Refused<'a, B>> for Refusing {
    ghost shows = { λ done actions. RefusesBy (option_copied done.at.timing) done.at.call.now
        (timed_table (B.table done.before.value) (B.deadline done.before.value) (B.latest done.before.value))
        (timed_table (B.table done.after.value) (B.deadline done.after.value) (B.latest done.after.value)) actions };
}

/// What a look for an entry whose time is over came to, and the bins before and after.
#[derive(Drop)]
struct Expired<B> {
    now: u64,
    expiry: Expiry,
    before: Snapshot<B>,
    after: Snapshot<B>,
}

/// At most one entry was taken away.
struct Expiring;

impl<B: NotedBins> Shows<Expired<B>> for Expiring {
    ghost shows = { λ done actions. ExpiresBy done.now done.expiry
        (timed_table (B.table done.before.value) (B.deadline done.before.value) (B.latest done.before.value))
        (timed_table (B.table done.after.value) (B.deadline done.after.value) (B.latest done.after.value)) actions };
}

/// The entries were found.
struct Scanning;

impl<B: NotedBins> Shows<Snapshot<B>> for Scanning {
    ghost shows = { λ found actions. actions ≡ scanned (map.entries (B.table found.value)) ∷ [] };
}

/// The program and argument that replace values.
#[derive(Clone, Copy)]
pub(crate) struct Replacer<'a> {
    pub(crate) program: &'a Verified,
    pub(crate) arg: &'a Option<Value>,
}

/// What was replaced, by which program, and how many.
#[derive(Drop)]
struct Replacement<'a, B> {
    by: Replacer<'a>,
    counts: Counts,
    before: Snapshot<B>,
}

/// The values were replaced.
struct Replacing;

impl<'a, B: NotedBins> Shows<Replacement<'a, B>> for Replacing {
    ghost shows = { λ done actions.
        AreReplacements done.by.program.now done.by.arg.now (map.entries (B.table done.before.value)) actions done.counts };
}

/// Makes the call on the stripe of its key: the only one that does, so that all of a call is in one place. Before that it takes the
/// key away if the call has a time and the key is over. A program runs in the workspace; the bytes of the replied value are left
/// in `bytes`. Returns `NoMemory` as `NotedBins::call_noted` does; then nothing was done.
#[inline(always)]
pub(crate) fn make_call<B: NotedBins + Drop>(
    table: &Stripes<B>,
    seat: &mut PassSeat<B>,
    stripe: usize,
    at: CallAt<'_>,
    workspace: &mut Workspace,
    bytes: &mut Value,
) -> Result<TimedReply, NoMemory>
    requires table { IsLaid table.now.table_id table.now.key × (seat.old.table_id ≡ table.now.table_id) }
    requires stripe { stripe < table.now.table_id.slots }
    requires held { SeatHolds B.table B.noted table.now.table_id.slots stripe seat.old.me }
    requires key { stripe_of table.now.table_id.slots at.call.now.key ≡ stripe }
    ensures same { (seat.new.table_id ≡ seat.old.table_id) × (seat.new.id ≡ seat.old.id) }
    ensures ok { IfOk result (λ timed.
        LetsAt (CallsBy (option_copied at.entry.timing) at.entry.call.now timed bytes.new)
        table.now.table_id.slots stripe seat.old.me seat.new.me) }
    ensures err { OnErr result
        (LetsAt (RefusesBy (option_copied at.entry.timing) at.entry.call.now)
        table.now.table_id.slots stripe seat.old.me seat.new.me) }
{
    let Some(bins) = seat.slot_mut(table, stripe) else {
        unreachable!()
    };
    let before = Snapshot::of(&*bins);
    match bins.call_noted(at.call, at.timing, workspace, bytes) {
        Ok(timed) => {
            let after = Snapshot::of(&*bins);
            let done = Answered {
                at,
                timed,
                bytes,
                before,
                after,
            };
            let_go::<B, _, Calling>(table, seat, stripe, &done);
            Ok(timed)
        }
        Err(fault) => {
            let after = Snapshot::of(&*bins);
            let done = Refused { at, before, after };
            let_go::<B, _, Refusing>(table, seat, stripe, &done);
            Err(fault)
        }
    }
}

/// Takes at most one entry of the stripe away whose time is over. Takes no memory.
pub(crate) fn make_expiry<B: NotedBins + Drop>(
    table: &Stripes<B>,
    seat: &mut PassSeat<B>,
    stripe: usize,
    now: u64,
) -> Expiry
    requires table { IsLaid table.now.table_id table.now.key × (seat.old.table_id ≡ table.now.table_id) }
    requires stripe { stripe < table.now.table_id.slots }
    requires held { SeatHolds B.table B.noted table.now.table_id.slots stripe seat.old.me }
    ensures same { (seat.new.table_id ≡ seat.old.table_id) × (seat.new.id ≡ seat.old.id) }
    ensures made { LetsAt (ExpiresBy now result) table.now.table_id.slots stripe seat.old.me seat.new.me }
{
    let Some(bins) = seat.slot_mut(table, stripe) else {
        unreachable!()
    };
    let before = Snapshot::of(&*bins);
    let expiry = bins.expire_noted(now);
    let after = Snapshot::of(&*bins);
    let done = Expired {
        now,
        expiry,
        before,
        after,
    };
    let_go::<B, _, Expiring>(table, seat, stripe, &done);
    done.expiry
}

/// Adds copies of the stripe's entries to the list, in any order. Returns `NoMemory` if a request for memory is refused;
/// then nothing was done, and the list is unchanged.
pub(crate) fn make_copies<B: NotedBins + Drop>(
    table: &Stripes<B>,
    seat: &mut PassSeat<B>,
    stripe: usize,
    list: &mut EntryList,
) -> Result<(), NoMemory>
    requires table { IsLaid table.now.table_id table.now.key × (seat.old.table_id ≡ table.now.table_id) }
    requires stripe { stripe < table.now.table_id.slots }
    requires held { SeatHolds B.table B.noted table.now.table_id.slots stripe seat.old.me }
    ensures same { (seat.new.table_id ≡ seat.old.table_id) × (seat.new.id ≡ seat.old.id) }
    ensures ok { OnOk result ((there : Table) × (Leaves table.now.table_id.slots stripe (seen_of seat.old.me.0 stripe) there
        × Lets (λ actions. actions ≡ scanned (map.entries there) ∷ []) table.now.table_id.slots stripe seat.old.me seat.new.me
        × AddsCopies there list.old list.new × (length (map.entries there) < 2 ^ 57))) }
    ensures err { OnErr result
        (Lets (λ actions. actions ≡ []) table.now.table_id.slots stripe seat.old.me seat.new.me
        × (list.new ≡ list.old)) }
{
    let Some(bins) = seat.slot_mut(table, stripe) else {
        unreachable!()
    };
    match bins.copy_into(list) {
        Ok(()) => {
            let found = Snapshot::of(&*bins);
            let_go::<B, _, Scanning>(table, seat, stripe, &found);
            Ok(())
        }
        Err(fault) => {
            let_go::<B, _, Nothing>(table, seat, stripe, &());
            Err(fault)
        }
    }
}

/// Shows the entries of these bins to the visitor.
fn show<B: NotedBins, V: Visitor>(bins: &B, visitor: &mut V)
    requires may { V.may_visit visitor.old }
    ensures shown { Shown V.visits (B.table bins.now) visitor.old visitor.new }
    ensures bounded { length (map.entries (B.table bins.now)) < 2 ^ 57 }
{
    visitor.visit(&bins.lend());
}

/// Shows the stripe's entries to the visitor where they lie, in any order. Takes no memory, unless the visitor does.
pub(crate) fn make_visit<B: NotedBins + Drop, V: Visitor>(
    table: &Stripes<B>,
    seat: &mut PassSeat<B>,
    stripe: usize,
    visitor: &mut V,
)
    requires table { IsLaid table.now.table_id table.now.key × (seat.old.table_id ≡ table.now.table_id) }
    requires stripe { stripe < table.now.table_id.slots }
    requires held { SeatHolds B.table B.noted table.now.table_id.slots stripe seat.old.me }
    requires may { V.may_visit visitor.old }
    ensures same { (seat.new.table_id ≡ seat.old.table_id) × (seat.new.id ≡ seat.old.id) }
    ensures made { (there : Table) × (Leaves table.now.table_id.slots stripe (seen_of seat.old.me.0 stripe) there
        × Lets (λ actions. actions ≡ scanned (map.entries there) ∷ []) table.now.table_id.slots stripe seat.old.me seat.new.me
        × Shown V.visits there visitor.old visitor.new × (length (map.entries there) < 2 ^ 57)) }
{
    let Some(bins) = seat.slot_mut(table, stripe) else {
        unreachable!()
    };
    show(&*bins, visitor);
    let found = Snapshot::of(&*bins);
    let_go::<B, _, Scanning>(table, seat, stripe, &found);
}

/// Returns copies of the stripe's entries, in key order. Sorts them before the stripe is let go, since that takes memory.
/// Returns `NoMemory` if a request for memory is refused; then nothing was done.
pub(crate) fn make_scan<B: NotedBins + Drop>(
    alloc: Global,
    table: &Stripes<B>,
    seat: &mut PassSeat<B>,
    stripe: usize,
) -> Result<Vec<(Key, Value)>, NoMemory>
    requires table { IsLaid table.now.table_id table.now.key × (seat.old.table_id ≡ table.now.table_id) }
    requires stripe { stripe < table.now.table_id.slots }
    requires held { SeatHolds B.table B.noted table.now.table_id.slots stripe seat.old.me }
    ensures same { (seat.new.table_id ≡ seat.old.table_id) × (seat.new.id ≡ seat.old.id) }
    ensures ok { IfOk result (λ found.
        Lets (λ actions. actions ≡ scanned found.items ∷ []) table.now.table_id.slots stripe seat.old.me seat.new.me) }
    ensures entries { IfOk result (λ found. (there : Table)
        × (Leaves table.now.table_id.slots stripe (seen_of seat.old.me.0 stripe) there
        × (found.items ≡ map.entries there))) }
    ensures err { OnErr result
        (Lets (λ actions. actions ≡ []) table.now.table_id.slots stripe seat.old.me seat.new.me) }
{
    let Some(bins) = seat.slot_mut(table, stripe) else {
        unreachable!()
    };
    match bins.entries(alloc) {
        Ok(found) => {
            let there = Snapshot::of(&*bins);
            let_go::<B, _, Scanning>(table, seat, stripe, &there);
            Ok(found)
        }
        Err(fault) => {
            let_go::<B, _, Nothing>(table, seat, stripe, &());
            Err(fault)
        }
    }
}

/// Returns the number of entries in the stripe. Takes no memory.
pub(crate) fn make_count<B: NotedBins + Drop>(
    table: &Stripes<B>,
    seat: &mut PassSeat<B>,
    stripe: usize,
) -> u64
    requires table { IsLaid table.now.table_id table.now.key × (seat.old.table_id ≡ table.now.table_id) }
    requires stripe { stripe < table.now.table_id.slots }
    requires held { SeatHolds B.table B.noted table.now.table_id.slots stripe seat.old.me }
    ensures same { (seat.new.table_id ≡ seat.old.table_id) × (seat.new.id ≡ seat.old.id) }
    ensures made { (there : Table) × (Lets (λ actions. actions ≡ scanned (map.entries there) ∷ [])
        table.now.table_id.slots stripe seat.old.me seat.new.me × (result ≡ length (map.entries there))) }
    ensures bounded { result < 2 ^ 57 }
{
    let Some(bins) = seat.slot_mut(table, stripe) else {
        unreachable!()
    };
    let count = bins.count();
    let found = Snapshot::of(&*bins);
    let_go::<B, _, Scanning>(table, seat, stripe, &found);
    count
}

/// Replaces the value of each of the stripe's keys once. Passes the gate before, with the stripe held. Takes no memory.
pub(crate) fn make_replacements<B: NotedBins + Drop, G: Gate>(
    table: &Stripes<B>,
    seat: &mut PassSeat<B>,
    stripe: usize,
    by: Replacer<'_>,
    gate: &G,
    worker: u32,
) -> Counts
    requires table { IsLaid table.now.table_id table.now.key × (seat.old.table_id ≡ table.now.table_id) }
    requires stripe { stripe < table.now.table_id.slots }
    requires held { SeatHolds B.table B.noted table.now.table_id.slots stripe seat.old.me }
    ensures same { (seat.new.table_id ≡ seat.old.table_id) × (seat.new.id ≡ seat.old.id) }
    ensures made { (there : Table) × (Leaves table.now.table_id.slots stripe (seen_of seat.old.me.0 stripe) there
        × Lets (λ actions. AreReplacements by.entry.program.now by.entry.arg.now (map.entries there) actions result)
        table.now.table_id.slots stripe seat.old.me seat.new.me) }
    ensures bounded { result.scanned < 2 ^ 57 }
{
    let Some(bins) = seat.slot_mut(table, stripe) else {
        unreachable!()
    };
    gate.pass(Place::Held, worker);
    let before = Snapshot::of(&*bins);
    let counts = bins.replace_noted(by.program, by.arg);
    let done = Replacement { by, counts, before };
    let_go::<B, _, Replacing>(table, seat, stripe, &done);
    counts
}
