//! A seat of an `atomic_table` at rest: through a `&` to it another seat learns what it knows.
//!
//! The promise to the layers above: `learn` gives a seat any view that keeps the table's rule, whatever the table is
//! while both seats have their views (`Learns` of `specs/Knowing.antt`; `learn`, clause `ensures`). It reads and
//! changes no word, takes no memory, never waits and compiles to nothing: it is only a step of the proof. A `Known` has
//! no bytes, and threads may share it.
#![tactic(auto)]

ghost use Rattle.std.specs.Prelude.{◌≡◌, ℕ, List, [], ◌∷◌};
ghost use base.Stored.{coded_list};
ghost use Rattle.atomic_table.specs.Seated.{TableId, table_id_coded, badge_owns};
ghost use Rattle.known_seat.specs.Knowing.{known_shares, Learns};

use atomic_table::{Badge, Seat, Shared, TableRule};
use std::marker::{Model, PhantomData};

/// A seat at rest that holds no slot, or no seat (`blank`). It has no bytes. `views` has the seat's view, or is empty.
pub struct Known<V> {
    marker: PhantomData<V>,
    pub ghost table_id: { TableId } by { table_id_coded },
    pub ghost id: { ℕ },
    pub ghost views: { List V } by { coded_list V.code },
}

impl<V> Model for Known<V> {
    ghost also_owns = { λ b. badge_owns V.row.coded.code b.table_id b.id b.views };

    ghost also_shares = { λ b _ κ. known_shares V.row.coded.code b.table_id b.id b.views κ };
}

/// What a seat learns from another.
pub trait Lesson<V> {
    /// Relates the seat's view before, the other seat's view, and the seat's view after.
    ghost then: { V → V → V → Type 0 };
}

/// Lets the seat learn from another one at rest. The caller ensures that both belong to the table. Reads no word, and
/// nothing runs. Takes no memory. Never waits.
pub fn learn<S, V, K, P: TableRule<S, V, K>, M: Lesson<V>>(
    table: &Shared<S, V, K, P>,
    seat: &mut Seat<S, V>,
    from: &Known<V>,
)
    requires { (seat.old.table_id ≡ table.now.table_id) × (from.now.table_id ≡ table.now.table_id)
        × ((w : V) × (from.now.views ≡ w ∷ [])
        × Learns (P.holds table.now.key) seat.old.id seat.old.me.0 from.now.id w (M.then seat.old.me.0 w)) }
    ensures { (seat.new.table_id ≡ seat.old.table_id) × (seat.new.id ≡ seat.old.id)
        × (seat.new.me.1 ≡ seat.old.me.1)
        × ((w : V) × (from.now.views ≡ w ∷ []) × M.then seat.old.me.0 w seat.new.me.0) }
{}

impl<V> Known<V> {
    /// Makes a `Known` without a seat.
    fn blank() -> Known<V>
        ensures { result.views ≡ [] }
    {
        Known {
            marker: PhantomData,
        }
    }

    /// Swaps what the two hold.
    fn trade(&mut self, badge: &mut Badge<V>)
        ensures { (self.new.table_id ≡ badge.old.table_id) × (self.new.id ≡ badge.old.id)
            × (self.new.views ≡ badge.old.views) × (badge.new.table_id ≡ self.old.table_id)
            × (badge.new.id ≡ self.old.id) × (badge.new.views ≡ self.old.views) }
    {}

    /// Puts a seat that holds no slot to rest.
    pub fn of<S>(seat: Seat<S, V>) -> Known<V>
        requires { seat.me.1 ≡ [] }
        ensures { (result.table_id ≡ seat.table_id) × (result.id ≡ seat.id)
            × (result.views ≡ seat.me.0 ∷ []) }
    {
        let mut known = Known::blank();
        let mut badge = seat.into_badge();
        known.trade(&mut badge);
        known
    }

    /// Takes the seat out, so that you can step with it, and leaves a blank.
    pub fn take<S>(&mut self) -> Seat<S, V>
        requires { (v : V) × (self.old.views ≡ v ∷ []) }
        ensures { (result.table_id ≡ self.old.table_id) × (result.id ≡ self.old.id)
            × (self.old.views ≡ result.me.0 ∷ []) × (result.me.1 ≡ []) }
    {
        let mut badge = Badge::blank();
        self.trade(&mut badge);
        badge.into_seat()
    }

    /// Puts a seat that holds no slot to rest.
    pub fn put<S>(&mut self, seat: Seat<S, V>)
        requires { seat.me.1 ≡ [] }
        ensures { (self.new.table_id ≡ seat.table_id) × (self.new.id ≡ seat.id)
            × (self.new.views ≡ seat.me.0 ∷ []) }
    {
        let mut resting = seat.into_badge();
        self.trade(&mut resting);
    }
}

impl<V> Drop for Known<V> {
    fn drop(self) {
        let Self { marker: _ } = self;
    }
}

unsafe impl<V> Send for Known<V> {}

unsafe impl<V> Sync for Known<V> {}
