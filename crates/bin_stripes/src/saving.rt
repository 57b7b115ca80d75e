//! Saves of a stripe: the rows of keys that changed since the last one.
ghost use Rattle.std.specs.Prelude.{◌≡◌, ◌<◌, [], true, IsTrue, IfOk, OnErr};
ghost use Rattle.timed_bins.specs.Deadlines.{timed_table};
ghost use Rattle.noted_bins.specs.Notes.{is_anew};
ghost use Rattle.bin_stripes.specs.Deeds.{SavesBy, LetsSave};
ghost use Rattle.bin_stripes.specs.Holding.{IsLaid, SeatHolds};
ghost use Rattle.bin_stripes.specs.Invoked.{Makes};
ghost use Rattle.bin_stripes.specs.Passes.{ServesSameMap, stripes_of};
ghost use Rattle.bin_stripes.specs.Releasing.{Lets};
ghost use Rattle.bin_stripes.specs.Saves.{SavesStripe, TakesAllEntries};

use crate::held::Nothing;
use crate::map::StripedMap;
use crate::pass::Pass;
use crate::steps::{PassSeat, Shows, Stripes, let_go, take_stripe};
use bpf_model::NoMemory;
use noted_bins::{Changes, NotedBins, Taken};
use std::snapshot::Snapshot;
use std::sync::Wait;
use ticks::micros;

/// Which rows a save adds.
#[derive(Clone, Copy, Debug, PartialEq, Eq)]
pub struct TakeHow {
    /// Those of all entries, whatever was handed out before.
    pub anew: bool,
    /// Those of at most this many keys, as `NotedBins::take_changes` takes them.
    pub most: usize,
}

impl StripedMap {
    /// Adds rows of one stripe, which is below `stripes()`, to the changes: of keys that changed since their rows were handed out,
    /// or of all entries if `how` says so, or if it isn't known which keys changed. If these are more than `how` lets it take, the others
    /// are left for the next time. All in one step, so that the rows are what the stripe had at one time. Unless `Taken::Begun` or
    /// `Taken::Some` is returned, what was handed out of the stripe so far, put in order, comes to
    /// just what it had then. Returns `NoMemory` if a request for memory is refused and no row was added; then nothing was done.
    /// Waits until the stripe is free.
    pub fn take_changes<R: Wait>(
        &self,
        rt: &R,
        pass: &mut Pass,
        stripe: u64,
        how: TakeHow,
        changes: &mut Changes,
    ) -> Result<Taken, NoMemory>
        requires map { pass.old.map ≡ self.now }
        requires stripe { stripe < stripes_of self.now }
        ensures same { ServesSameMap pass.old pass.new }
        ensures ok { IfOk result (λ taken. SavesStripe pass.old stripe changes.old changes.new taken pass.new) }
        ensures anew { IfOk result (λ taken. IsTrue how.anew → is_anew taken ≡ true) }
        ensures all { IfOk result (λ taken. IsTrue how.anew → TakesAllEntries (stripes_of self.now) stripe how.most taken pass.new.view) }
        ensures err { OnErr result (Makes pass.old stripe [] pass.new × (changes.new ≡ changes.old)) }
    {
        let slot = stripe as usize;
        let table = &self.table.shared;
        let mut seat = pass.known.take();
        take_stripe(rt, table, &mut seat, slot, &self.turns);
        let begun = micros();
        let answer = make_save(table, &mut seat, slot, how, changes);
        self.holds.ended(begun);
        pass.known.put(seat);
        answer
    }
}

/// What a save came to, the rows before and after it, and the bins before and after.
#[derive(Drop)]
struct Saved<'a, B> {
    taken: Taken,
    rows: Snapshot<Changes>,
    changes: &'a Changes,
    before: Snapshot<B>,
    after: Snapshot<B>,
}

/// Rows were handed out.
struct Saving;

impl<'a, B: NotedBins> Shows<Saved<'a, B>> for Saving {
    ghost shows = { λ done actions. SavesBy done.rows.value done.changes.now done.taken
        (B.noted done.before.value)
        (timed_table (B.table done.before.value) (B.deadline done.before.value) (B.latest done.before.value))
        (B.noted done.after.value)
        (timed_table (B.table done.after.value) (B.deadline done.after.value) (B.latest done.after.value)) actions };
}

/// Adds rows of the stripe's changed keys, or of all its entries, to the changes. Returns `NoMemory` as
/// `NotedBins::take_changes` does; then nothing was done.
fn make_save<B: NotedBins + Drop>(
    table: &Stripes<B>,
    seat: &mut PassSeat<B>,
    stripe: usize,
    how: TakeHow,
    changes: &mut Changes,
) -> Result<Taken, NoMemory>
    requires table { IsLaid table.now.table_id table.now.key × (seat.old.table_id ≡ table.now.table_id) }
    requires stripe { stripe < table.now.table_id.slots }
    requires held { SeatHolds B.table B.noted table.now.table_id.slots stripe seat.old.me }
    ensures same { (seat.new.table_id ≡ seat.old.table_id) × (seat.new.id ≡ seat.old.id) }
    ensures ok { IfOk result (λ taken.
        LetsSave table.now.table_id.slots stripe changes.old changes.new taken seat.old.me seat.new.me) }
    ensures anew { IfOk result (λ taken. IsTrue how.anew → is_anew taken ≡ true) }
    ensures all { IfOk result (λ taken. IsTrue how.anew → TakesAllEntries table.now.table_id.slots stripe how.most taken seat.new.me.0) }
    ensures err { OnErr result
        (Lets (λ actions. actions ≡ []) table.now.table_id.slots stripe seat.old.me seat.new.me
        × (changes.new ≡ changes.old)) }
{
    let Some(bins) = seat.slot_mut(table, stripe) else {
        unreachable!()
    };
    let before = Snapshot::of(&*bins);
    let rows = Snapshot::of(&*changes);
    match bins.take_changes(how.anew, how.most, changes) {
        Ok(taken) => {
            let after = Snapshot::of(&*bins);
            let done = Saved {
                taken,
                rows,
                changes,
                before,
                after,
            };
            let_go::<B, _, Saving>(table, seat, stripe, &done);
            Ok(taken)
        }
        Err(fault) => {
            let_go::<B, _, Nothing>(table, seat, stripe, &());
            Err(fault)
        }
    }
}
