//! Keys that are handed out in turn, by their ranks.
ghost use Rattle.std.specs.Prelude.{◌≡◌, ℕ, [], List, None, true, false};
ghost use Rattle.bins.specs.Ranks.{IsOneOf, rank_in};
ghost use Rattle.bins.specs.Table.{Table};
ghost use Rattle.noted_bins.specs.Tours.{is_ahead};

use crate::key_filter::KeyFilter;
use bins::Ranks;
use std::alloc::Global;
use std::marker::Model;

/// How many tours follow one another, if keys go on changing fast, before the others are handed out at once.
const MOST_TOURS: u32 = 4;

/// A tour that follows another one takes this many times as many ranks at once: it has few keys, those that changed meanwhile.
const LATER_RANKS: usize = 4;

/// The keys with an entry that a filter may have, from the highest rank down. No call on a key gives an entry that is there a higher
/// rank, so none is left out.
#[derive(Drop)]
pub(crate) struct Tour {
    filter: KeyFilter,
    // Keys at this rank and above were handed out; none: not yet any.
    below: Option<usize>,
    // How many tours began since no key was noted.
    begun: u32,
}

impl Model for Tour {
    ghost use Rattle.noted_bins.specs.Tours.{TourKeys, tour_code};

    ghost Value = { TourKeys };

    ghost coded = { tour_code };

    ghost view = { λ tour. record { filter = tour.filter; below = tour.below } };
}

impl Tour {
    /// A tour of no keys. Takes no memory.
    pub(crate) fn off(alloc: Global) -> Tour
        ensures { result.filter ≡ [] }
    {
        Tour {
            filter: KeyFilter::off(alloc),
            below: None,
            begun: 0,
        }
    }

    /// Returns whether keys may still have to be handed out.
    pub(crate) fn is_on(&self) -> bool
        ensures { result ≡ false → self.now.filter ≡ [] }
    {
        self.filter.is_on()
    }

    /// Returns whether another tour may follow.
    pub(crate) fn may_follow(&self) -> bool {
        self.begun < MOST_TOURS
    }

    /// Returns the filter.
    pub(crate) fn filter(&self) -> &KeyFilter
        ensures { result.now ≡ self.now.filter }
    {
        &self.filter
    }

    /// Returns how many bytes it takes.
    pub(crate) fn bytes(&self) -> usize {
        self.filter.bytes()
    }

    /// Begins with the keys that this filter may have.
    pub(crate) fn begin(&mut self, filter: KeyFilter)
        ensures filter { self.new.filter ≡ filter }
        ensures below { self.new.below ≡ None }
    {
        self.filter = filter;
        self.below = None;
        self.begun = self.begun.saturating_add(1);
    }

    /// Returns the next ranks, if bins have this many entries: at most `most`, or more if another tour came before this one.
    pub(crate) fn next_ranks(&self, most: usize, entries: usize) -> Ranks
        ensures { result.to ≡ self.now.below }
    {
        let end = self.below.unwrap_or(entries).min(entries);
        let many = if self.begun > 1 {
            most.saturating_mul(LATER_RANKS)
        } else {
            most
        };
        Ranks {
            from: end.saturating_sub(many),
            to: self.below,
        }
    }

    /// Passes the keys at these ranks: they were handed out. If these were the last, the tour is over.
    pub(crate) fn leave(&mut self, ranks: Ranks)
        requires next { ranks.to ≡ self.old.below }
        ensures { (order : List (List ℕ)) (table : Table) (key : List ℕ) → is_ahead self.new order table key ≡ false
            → is_ahead self.old order table key ≡ true → IsOneOf ranks (rank_in order key) }
    {
        self.below = Some(ranks.from);
        if ranks.from == 0 {
            self.filter.turn_off();
        }
    }

    /// Ends it: no key is noted.
    pub(crate) fn end(&mut self)
        ensures { self.new.filter ≡ [] }
    {
        self.filter.turn_off();
        self.below = None;
        self.begun = 0;
    }
}
