//! What looks at the entries of a held stripe.

use bins::LentEntries;

/// Looks at the entries of a stripe where they lie, while the stripe is held.
pub trait Visitor {
    ghost use Rattle.std.specs.Prelude.{List};
    ghost use Rattle.bins.specs.Table.{Entry};

    /// If it may visit one more stripe.
    ghost may_visit: { Self → Type 0 };

    /// What it is before, the entries that it is lent, and what it is after.
    ghost visits: { Self → List Entry → Self → Type 0 };

    /// Looks at all entries of a stripe, in any order. All others wait for the stripe meanwhile.
    fn visit(&mut self, entries: &LentEntries<'_>)
        requires may { may_visit self.old }
        ensures visits { visits self.old entries.now self.new };
}
