//! Ranks of keys, or positions of entries.
ghost use Rattle.std.specs.Prelude.{◌≡◌, ◌<◌, ◌≤◌, ℕ, true, None};
ghost use Rattle.bins.specs.Ranks.{is_below};

/// Some ranks of keys, or positions of entries: from one on, up to another, which is not among them, if there is one.
#[derive(Clone, Copy, Debug, PartialEq, Eq)]
pub struct Ranks {
    /// The first of them.
    pub from: usize,
    /// The one after the last; none if they have no end.
    pub to: Option<usize>,
}

impl Ranks {
    /// Returns all ranks.
    pub fn all() -> Ranks
        ensures from { result.from ≡ 0 }
        ensures to { result.to ≡ None }
    {
        Ranks { from: 0, to: None }
    }

    /// Returns the position at which they end among so many.
    pub fn end_among(&self, count: usize) -> usize
        ensures most { result ≤ count }
        ensures below { (position : ℕ) → position < count → is_below self.now.to position ≡ true → position < result }
    {
        match self.to {
            Some(to) => to.min(count),
            None => count,
        }
    }
}
