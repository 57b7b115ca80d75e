//! The last entries of a map.
ghost use Rattle.std.specs.Prelude.{◌≡◌, List, IfOk};
ghost use Rattle.bins.specs.Copies.{WeighSame};
ghost use Rattle.bins.specs.Table.{Table};
ghost use Rattle.atomic_methods.specs.Whole.{all_entries};
ghost use Rattle.stripe_rule.specs.Steps.{HasTaken};
ghost use Rattle.bin_stripes.specs.Histories.{empty, does, Sound};
ghost use Rattle.bin_stripes.specs.Holding.{IsLaid, Rests};
ghost use Rattle.bin_stripes.specs.Closed.{Closes};

use crate::map::StripedMap;
use crate::pass::Pass;
use crate::steps::{PassSeat, Stripes, bins_out, take_stripe};
use crate::turns::Turns;
use bins::{EntryList, sorted_copies};
use bpf_model::{Key, NoMemory, Value};
use noted_bins::NotedBins;
use std::alloc::Global;
use std::sync::Wait;

impl StripedMap {
    /// Closes the map and returns its entries, in key order: those of each stripe once it was free. Returns `NoMemory` if a
    /// request for memory is refused; the map is gone then too. Waits until each stripe is free.
    pub fn close<R: Wait>(
        self,
        rt: &R,
        alloc: Global,
        pass: Pass,
    ) -> Result<Vec<(Key, Value)>, NoMemory>
        requires map { pass.map ≡ self }
        ensures ok { IfOk result (λ found. Closes pass found.items) }
    {
        let stripes = self.table.slot_count();
        let Pass { mut known, .. } = pass;
        let mut seat = known.take();
        let copies = entries_out(
            rt,
            alloc,
            &self.table.shared,
            &mut seat,
            stripes,
            &self.turns,
        )?;
        let found = sorted_copies(alloc, copies)?;
        Ok(found)
    }
}

/// Takes each stripe, and copies the entries of each in turn. The stripes stay held.
fn entries_out<B: NotedBins + Drop, R: Wait>(
    rt: &R,
    alloc: Global,
    table: &Stripes<B>,
    seat: &mut PassSeat<B>,
    stripes: usize,
    turns: &Turns,
) -> Result<EntryList, NoMemory>
    requires table { IsLaid table.now.table_id table.now.key × (seat.old.table_id ≡ table.now.table_id) }
    requires stripes { stripes ≡ table.now.table_id.slots }
    requires rests { Rests seat.old.me × Sound stripes seat.old.me.0 }
    ensures ok { IfOk result (λ found. (tables : List Table) × (WeighSame found (all_entries tables)
        × (HasTaken (does stripes) empty seat.old.me.0 stripes tables seat.new.me.0 × Sound stripes seat.new.me.0))) }
{
    let mut found = EntryList::new(alloc);
    for stripe in 0..stripes {
        take_stripe(rt, table, seat, stripe, turns);
        let bins = bins_out(table, seat, stripe);
        bins.copy_into(&mut found)?;
    }
    Ok(found)
}
