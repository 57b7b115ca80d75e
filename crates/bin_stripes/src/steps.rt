//! The steps on one stripe: take and release. Its word is 1 while it is held, else 0, and has two lines of the cache to
//! itself. Its bins are in the slot with its number, which belongs to the seat that holds the stripe.
ghost use Rattle.std.specs.Prelude.{◌≡◌, ℕ, ◌<◌, true, false, Option, List, ◌∷◌, ◌++◌, Some, None, MatchBool};
ghost use Rattle.stripe_rule.specs.Gains.{held_at, seen_of, Carries, least};
ghost use Rattle.stripe_rule.specs.Steps.{Takes, Looks};
ghost use Rattle.bin_stripes.specs.Actions.{Action};
ghost use Rattle.bin_stripes.specs.Histories.{empty, does, own_events};
ghost use Rattle.bin_stripes.specs.Releasing.{Lets};
ghost use Rattle.bin_stripes.specs.Saves.{keeps, LeavesBins};
ghost use Rattle.bin_stripes.specs.Holding.{IsLaid, SeatHolds};

use crate::ghost_action::GhostAction;
use crate::rule::{Look, May, Release, Shape, Striping, Take};
use crate::turns::Turns;
use atomic_table::{Seat, Shared};
use noted_bins::NotedBins;
use std::marker::Brand;
use std::sync::Wait;
use stripe_rule::View;

/// A stripe has this many words and uses the first. They fill two lines of the cache, which processors fetch in pairs,
/// so the words of two stripes share none.
pub(crate) const STRIPE_WORDS: usize = 16;

/// The words and slots of all stripes.
pub(crate) type Stripes<B> = Shared<Option<B>, View<GhostAction>, Shape, Striping<B>>;

/// The seat that a pass steps with.
pub(crate) type PassSeat<B> = Seat<Option<B>, View<GhostAction>>;

/// Looks at the stripe: the seat has then seen everything that it was told. Never waits.
pub(crate) fn look<B: NotedBins + Drop>(table: &Stripes<B>, seat: &mut PassSeat<B>, stripe: usize)
    requires table { IsLaid table.now.table_id table.now.key × (seat.old.table_id ≡ table.now.table_id) }
    requires stripe { stripe < table.now.table_id.slots }
    requires pass { Carries seat.old.me.0 (least seat.old.me.0.numbers) }
    ensures same { (seat.new.table_id ≡ seat.old.table_id) × (seat.new.id ≡ seat.old.id) }
    ensures looked { Looks (does table.now.table_id.slots) empty stripe seat.old.me seat.new.me }
{
    table.load::<Look>(seat, stripe * STRIPE_WORDS);
}

/// Tries once to take the stripe, and returns whether it was free. Never waits.
pub(crate) fn try_take_stripe<B: NotedBins + Drop>(
    table: &Stripes<B>,
    seat: &mut PassSeat<B>,
    stripe: usize,
) -> bool
    requires table { IsLaid table.now.table_id table.now.key × (seat.old.table_id ≡ table.now.table_id) }
    requires stripe { stripe < table.now.table_id.slots }
    requires pass { Carries seat.old.me.0 (least seat.old.me.0.numbers) × (held_at seat.old.me.0 stripe ≡ false) }
    ensures same { (seat.new.table_id ≡ seat.old.table_id) × (seat.new.id ≡ seat.old.id) }
    ensures took { MatchBool result
        (Takes (does table.now.table_id.slots) empty B.table (keeps B.table B.noted) stripe seat.old.me seat.new.me)
        (Looks (does table.now.table_id.slots) empty stripe seat.old.me seat.new.me) }
{
    table.compare_exchange::<Take<B>>(seat, stripe * STRIPE_WORDS, 0, 1) == 0
}

/// Takes the stripe. Waits until it is free, and until its turn has come.
pub(crate) fn take_stripe<B: NotedBins + Drop, R: Wait>(
    rt: &R,
    table: &Stripes<B>,
    seat: &mut PassSeat<B>,
    stripe: usize,
    turns: &Turns,
)
    requires table { IsLaid table.now.table_id table.now.key × (seat.old.table_id ≡ table.now.table_id) }
    requires stripe { stripe < table.now.table_id.slots }
    requires pass { Carries seat.old.me.0 (least seat.old.me.0.numbers) × (held_at seat.old.me.0 stripe ≡ false) }
    ensures same { (seat.new.table_id ≡ seat.old.table_id) × (seat.new.id ≡ seat.old.id) }
    ensures took { Takes (does table.now.table_id.slots) empty B.table (keeps B.table B.noted) stripe seat.old.me
        seat.new.me }
{
    if turns.are_free(stripe) && try_take_stripe(table, seat, stripe) {
        return;
    }
    wait_for_stripe(rt, table, seat, stripe, turns);
}

/// Takes the stripe as `take_stripe` does. It is separate so that calls on free stripes know nothing of waiting.
#[cold]
#[inline(never)]
fn wait_for_stripe<B: NotedBins + Drop, R: Wait>(
    rt: &R,
    table: &Stripes<B>,
    seat: &mut PassSeat<B>,
    stripe: usize,
    turns: &Turns,
)
    requires table { IsLaid table.now.table_id table.now.key × (seat.old.table_id ≡ table.now.table_id) }
    requires stripe { stripe < table.now.table_id.slots }
    requires pass { Carries seat.old.me.0 (least seat.old.me.0.numbers) × (held_at seat.old.me.0 stripe ≡ false) }
    ensures same { (seat.new.table_id ≡ seat.old.table_id) × (seat.new.id ≡ seat.old.id) }
    ensures took { Takes (does table.now.table_id.slots) empty B.table (keeps B.table B.noted) stripe seat.old.me
        seat.new.me }
{
    let mut waiter = turns.come(stripe);
    for _ in rt.forever() {
        if waiter.may_try() && try_take_stripe(table, seat, stripe) {
            waiter.took();
            return;
        }
        waiter.rest(rt);
    }
    unreachable!()
}

/// Takes the bins of a stripe that the seat holds out of their slot.
pub(crate) fn bins_out<B: NotedBins + Drop>(
    table: &Stripes<B>,
    seat: &mut PassSeat<B>,
    stripe: usize,
) -> B
    requires table { seat.old.table_id ≡ table.now.table_id }
    requires held { SeatHolds B.table B.noted table.now.table_id.slots stripe seat.old.me }
    ensures same { (seat.new.table_id ≡ seat.old.table_id) × (seat.new.id ≡ seat.old.id)
        × (seat.new.me.0 ≡ seat.old.me.0) }
    ensures out { (others : List (ℕ × Option B))
        × ((seat.old.me.1 ≡ (stripe, Some result) ∷ others) × (seat.new.me.1 ≡ (stripe, None) ∷ others)) }
{
    match table.exchange(seat, stripe, None) {
        Some(bins) => bins,
        None => unreachable!(),
    }
}

/// What a value shows about the actions that were made on a stripe.
pub(crate) trait Shows<T> {
    ghost shows: { T → List Action → Type 0 };
}

/// Lets the stripe go after these actions; its bins are in its slot. Never waits.
pub(crate) fn let_go<B: NotedBins + Drop, T, M: Shows<T>>(
    table: &Stripes<B>,
    seat: &mut PassSeat<B>,
    stripe: usize,
    what: &T,
)
    requires table { IsLaid table.now.table_id table.now.key × (seat.old.table_id ≡ table.now.table_id) }
    requires stripe { stripe < table.now.table_id.slots }
    requires held { (held_at seat.old.me.0 stripe ≡ true) × Carries seat.old.me.0 (least seat.old.me.0.numbers) }
    requires made { (bins : B) × ((others : List (ℕ × Option B)) × ((seat.old.me.1 ≡ (stripe, Some bins) ∷ others)
        × ((actions : List Action) × (M.shows what.now actions
        × LeavesBins B.table B.noted table.now.table_id.slots stripe
        (seen_of seat.old.me.0 stripe ++ own_events seat.old.me.0 actions) bins)))) }
    ensures same { (seat.new.table_id ≡ seat.old.table_id) × (seat.new.id ≡ seat.old.id) }
    ensures made { Lets (M.shows what.now) table.now.table_id.slots stripe seat.old.me seat.new.me }
{
    release::<B, T, Brand>(table, seat, stripe, what);
}

/// Swaps the word to 0. `J` says something about the actions that this adds, and `what` picks it.
fn release<B: NotedBins + Drop, T, J: May>(
    table: &Stripes<B>,
    seat: &mut PassSeat<B>,
    stripe: usize,
    what: &T,
)
    requires table { IsLaid table.now.table_id table.now.key × (seat.old.table_id ≡ table.now.table_id) }
    requires stripe { stripe < table.now.table_id.slots }
    requires held { (held_at seat.old.me.0 stripe ≡ true) × Carries seat.old.me.0 (least seat.old.me.0.numbers) }
    requires made { (bins : B) × ((others : List (ℕ × Option B)) × ((seat.old.me.1 ≡ (stripe, Some bins) ∷ others)
        × ((actions : List Action) × (J.may actions
        × LeavesBins B.table B.noted table.now.table_id.slots stripe
        (seen_of seat.old.me.0 stripe ++ own_events seat.old.me.0 actions) bins)))) }
    ensures same { (seat.new.table_id ≡ seat.old.table_id) × (seat.new.id ≡ seat.old.id) }
    ensures made { Lets J.may table.now.table_id.slots stripe seat.old.me seat.new.me }
{
    // Only for the proof: `J` speaks about the actions in terms of this value.
    let _ = what;
    table.swap::<Release<J>>(seat, stripe * STRIPE_WORDS, 0);
}
