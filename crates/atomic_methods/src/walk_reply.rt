//! The reply of a walk.
ghost use Rattle.std.specs.Prelude.{◌≡◌, ◌↔◌, List, ℕ, IsTrue, Option};
ghost use Rattle.verifier.specs.Checked.{Checked};
ghost use Rattle.bins.specs.Table.{Entry};
ghost use Rattle.atomic_methods.specs.declared.walk_reply.WalkKind.{WalkKind as AnyKind};
ghost use Rattle.atomic_methods.specs.Replies.{IsReply, IsCount};

use bins::{Counts, MergedEntries};
use std::alloc::Global;

/// The reply to a walk.
#[derive(Drop)]
pub struct WalkReply {
    /// Keys with the answers that the walk gives, in key order.
    pub items: MergedEntries,
    /// `scanned` and `unfit` count entries, and `given` the items. A replacement, which gives no items, counts in
    /// `given` the values that it entered.
    pub counts: Counts,
}

impl WalkReply {
    /// Tests whether two replies are the same. Replies to one walk over the same entries are, and so are replies to
    /// counts of equal numbers.
    pub fn is_same(&self, other: &WalkReply) -> bool
        ensures exact { IsTrue result ↔ (self.now.items ≡ other.now.items) × (self.now.counts ≡ other.now.counts) }
        ensures one { (kind : AnyKind) (checked : Checked) (arg : Option (List ℕ)) (entries : List Entry) →
            IsReply kind checked arg entries self.now → IsReply kind checked arg entries other.now →
            IsTrue result }
        ensures one_count { (entries : ℕ) → IsCount entries self.now → IsCount entries other.now → IsTrue result }
    {
        self.items.is_same(&other.items) && self.counts == other.counts
    }
}

/// Which of the present answers a walk gives.
#[derive(Clone, Copy, PartialEq, Eq, Debug)]
pub enum WalkKind {
    /// The one at the least key.
    Search,
    /// All of them.
    ForEach,
}

/// Returns the reply to a count of this many entries. Takes no memory.
pub fn count_of(alloc: Global, scanned: u64) -> WalkReply
    ensures { IsCount scanned result }
{
    let items = MergedEntries::new(alloc);
    let counts = Counts {
        scanned,
        given: 0,
        unfit: 0,
    };
    WalkReply { items, counts }
}
