//! One pass is told what another knows, and two passes become one.
ghost use Rattle.std.specs.Prelude.{◌≡◌, ◌<◌};
ghost use Rattle.stripe_rule.specs.Gains.{Hears, IsJoined};
ghost use Rattle.stripe_rule.specs.Steps.{HasHeard, united, view_of};
ghost use Rattle.bin_stripes.specs.AllSeen.{CarriesAll, SeesJustTheirs};
ghost use Rattle.bin_stripes.specs.Histories.{Sound};
ghost use Rattle.bin_stripes.specs.Holding.{IsLaid, Rests};
ghost use Rattle.bin_stripes.specs.Passes.{IsPass, ServesSameMap, stripes_of};

use crate::ghost_action::GhostAction;
use crate::map::StripedMap;
use crate::pass::Pass;
use crate::rule::{Inform, Unite};
use crate::steps::{PassSeat, Stripes, look};
use known_seat::{Known, learn};
use noted_bins::NotedBins;
use stripe_rule::View;

impl StripedMap {
    /// Tells `to`, for each stripe, what `from` knows; it then looks at each stripe once. Takes no memory. Never waits.
    pub fn tell(&self, from: &Pass, to: &mut Pass)
        requires from { from.now.map ≡ self.now }
        requires to { to.old.map ≡ self.now }
        ensures same { ServesSameMap to.old to.new }
        ensures told { Hears (stripes_of self.now) from.now.view to.old.view to.new.view }
    {
        let stripes = self.table.slot_count();
        let mut seat = to.known.take();
        hear(&self.table.shared, &from.known, &mut seat, stripes);
        to.known.put(seat);
    }

    /// Returns a pass that carries the numbers of both, and knows what both knew. If these are the numbers of all passes, it
    /// has seen exactly the events that both had made, each once. Looks at each stripe. Takes no memory. Never waits.
    pub fn join(&self, one: Pass, other: Pass) -> Pass
        requires one { one.map ≡ self.now }
        requires other { other.map ≡ self.now }
        ensures same { ServesSameMap one result }
        ensures joined { IsJoined (stripes_of self.now) one.view other.view result.view }
        ensures once { CarriesAll result.view → SeesJustTheirs (stripes_of self.now) one.view other.view result.view }
    {
        let stripes = self.table.slot_count();
        let table = &self.table.shared;
        let Pass {
            known: mut one,
            workspace,
        } = one;
        let Pass {
            known: mut other,
            ..
        } = other;
        let mut seat = one.take();
        hear(table, &other, &mut seat, stripes);
        unite(table, &mut seat, other.take());
        look(table, &mut seat, 0);
        Pass {
            known: Known::of(seat),
            workspace,
        }
    }
}

/// Gives the seat all that both carried; the other is spent.
fn unite<B: NotedBins + Drop>(table: &Stripes<B>, seat: &mut PassSeat<B>, other: PassSeat<B>)
    requires table { (seat.old.table_id ≡ table.now.table_id) × (other.table_id ≡ table.now.table_id)
        × (0 < table.now.table_id.words) }
    requires rests { Rests seat.old.me × Rests other.me }
    ensures same { (seat.new.table_id ≡ seat.old.table_id) × (seat.new.id ≡ seat.old.id) }
    ensures both { seat.new.me ≡ (united seat.old.me.0 other.me.0, seat.old.me.1) }
{
    table.join_seat::<Unite>(seat, other);
}

/// The seat hears everything that the one at rest has seen: it is told, and a look at each word shows it.
fn hear<B: NotedBins + Drop>(
    table: &Stripes<B>,
    from: &Known<View<GhostAction>>,
    seat: &mut PassSeat<B>,
    stripes: usize,
)
    requires table { IsLaid table.now.table_id table.now.key × (stripes ≡ table.now.table_id.slots) }
    requires seats { (seat.old.table_id ≡ table.now.table_id) × (from.now.table_id ≡ table.now.table_id) }
    requires from { IsPass from.now.table_id from.now.views }
    requires rests { Rests seat.old.me × Sound stripes seat.old.me.0 }
    ensures same { (seat.new.table_id ≡ seat.old.table_id) × (seat.new.id ≡ seat.old.id) }
    ensures heard { HasHeard (view_of from.now.views) seat.old.me.0 stripes seat.new.me.0 }
    ensures rests { Rests seat.new.me × Sound stripes seat.new.me.0 }
{
    learn::<_, _, _, _, Inform>(table, seat, from);
    for stripe in 0..stripes {
        look(table, seat, stripe);
    }
}
