//! The size that an index reports: the number of bins that a table of this many entries has by its rule.
ghost use Rattle.std.specs.Prelude.{◌≡◌, ◌⊎◌, ◌*◌, ◌<◌, ◌↔◌, IsTrue};
ghost use Rattle.bins.specs.Told.{IsBinCount};

use std::marker::Model;

/// The number of bins at first.
pub const FIRST_BINS: u64 = 8;
/// The greatest number of bins.
pub const MOST_BINS: u64 = 65_536;

/// The reported number of bins.
#[derive(Drop)]
pub struct ToldSize {
    bins: u64,
}

impl Model for ToldSize {
    ghost use Rattle.std.specs.Prelude.{ℕ};
    ghost use Rattle.bins.specs.Told.{IsBinCount};

    ghost Value = { ℕ };

    ghost view = { λ size. size.bins };

    ghost invariant = { λ size. IsBinCount size.bins };
}

/// Returns whether there are more than twice as many of these entries as bins, and more bins may be reported.
fn is_crowded(bins: u64, entries: usize) -> bool
    requires { IsBinCount bins }
    ensures exact { IsTrue result ↔ ((2 * bins < entries) × (bins < MOST_BINS)) }
{
    entries as u64 > 2 * bins && bins < MOST_BINS
}

impl ToldSize {
    /// Returns the size of no entries.
    pub fn new() -> ToldSize
        ensures bins { result ≡ 8 }
    {
        ToldSize { bins: FIRST_BINS }
    }

    /// Returns the same size.
    pub fn copied(&self) -> ToldSize
        ensures { result ≡ self.now }
    {
        ToldSize { bins: self.bins }
    }

    /// Returns the number of bins.
    pub fn bins(&self) -> u64
        ensures value { result ≡ self.now }
        ensures count { IsBinCount result }
    {
        self.bins
    }

    /// Doubles the bins if these entries are more than twice as many.
    pub fn count_entries(&mut self, entries: usize)
        ensures may { (self.new ≡ self.old) ⊎ ((2 * self.old < entries) × (self.old < MOST_BINS) × (self.new ≡ 2 * self.old)) }
        ensures must { 2 * self.old < entries → self.old < MOST_BINS → self.new ≡ 2 * self.old }
    {
        if is_crowded(self.bins, entries) {
            self.bins = 2 * self.bins;
        }
    }
}
