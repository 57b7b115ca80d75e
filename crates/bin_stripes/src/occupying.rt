//! How many bytes a stripe takes.
ghost use Rattle.std.specs.Prelude.{◌≡◌, ◌<◌, []};
ghost use Rattle.bin_stripes.specs.Holding.{IsLaid, SeatHolds};
ghost use Rattle.bin_stripes.specs.Invoked.{Makes};
ghost use Rattle.bin_stripes.specs.Passes.{ServesSameMap, stripes_of};
ghost use Rattle.bin_stripes.specs.Releasing.{Lets};

use crate::held::Nothing;
use crate::map::StripedMap;
use crate::pass::Pass;
use crate::steps::{PassSeat, Stripes, let_go, take_stripe};
use bins::{Occupied, Occupies};
use noted_bins::NotedBins;
use std::sync::Wait;

impl StripedMap {
    /// Returns how many bytes one stripe takes, which is below `stripes()`. Does nothing else. Takes no memory. Waits until the
    /// stripe is free.
    pub fn occupied<R: Wait>(&self, rt: &R, pass: &mut Pass, stripe: u64) -> Occupied
        requires map { pass.old.map ≡ self.now }
        requires stripe { stripe < stripes_of self.now }
        ensures same { ServesSameMap pass.old pass.new }
        ensures nothing { Makes pass.old stripe [] pass.new }
    {
        let slot = stripe as usize;
        let table = &self.table.shared;
        let mut seat = pass.known.take();
        take_stripe(rt, table, &mut seat, slot, &self.turns);
        let occupied = make_occupied(table, &mut seat, slot);
        pass.known.put(seat);
        occupied
    }
}

/// Returns how many bytes the stripe's bins take, and lets it go. Does nothing else. Takes no memory.
fn make_occupied<B: NotedBins + Occupies + Drop>(
    table: &Stripes<B>,
    seat: &mut PassSeat<B>,
    stripe: usize,
) -> Occupied
    requires table { IsLaid table.now.table_id table.now.key × (seat.old.table_id ≡ table.now.table_id) }
    requires stripe { stripe < table.now.table_id.slots }
    requires held { SeatHolds B.table B.noted table.now.table_id.slots stripe seat.old.me }
    ensures same { (seat.new.table_id ≡ seat.old.table_id) × (seat.new.id ≡ seat.old.id) }
    ensures nothing { Lets (λ actions. actions ≡ []) table.now.table_id.slots stripe seat.old.me seat.new.me }
{
    let Some(bins) = seat.slot_mut(table, stripe) else {
        unreachable!()
    };
    let occupied = bins.occupied();
    let_go::<B, _, Nothing>(table, seat, stripe, &());
    occupied
}
