//! Entries whose time is over are taken away, even if no command asks for them.
ghost use Rattle.std.specs.Prelude.{◌≡◌, ◌<◌, ◌↔◌, List, Option, Some, None, Contains, IsTrue};
ghost use Rattle.bin_stripes.specs.declared.expiry.Expiry.{Expiry as Answer};
ghost use Rattle.bin_stripes.specs.declared.expiry.Expiry.TheVariants.{Took};
ghost use Rattle.bin_stripes.specs.Passes.{ServesSameMap, stripes_of};
ghost use Rattle.redis_service.specs.Sweeps.{SweepsAll, SweepsStripe, sooner, next_after, next_of};

use bin_stripes::{Expiry, Pass, StripedMap};
use server_state::WorkerCounts;
use std::marker::Model;
use std::sync::Wait;

/// At most this many entries of a stripe are taken away in one sweep.
const MOST: u64 = 20;

/// When a worker sweeps next: what it knows of the deadlines in the map.
#[derive(Drop)]
pub struct Sweeper {
    next: Option<u64>,
}

impl Model for Sweeper {
    ghost use Rattle.std.specs.Prelude.{ℕ, Option};

    ghost Value = { Option ℕ };

    ghost view = { λ s. s.next };
}

/// Returns the sooner of two times; none comes after every time.
fn sooner(one: Option<u64>, other: Option<u64>) -> Option<u64>
    ensures { result ≡ sooner one other }
{
    match (one, other) {
        (Some(at), Some(then)) => Some(at.min(then)),
        (None, _) => other,
        (_, None) => one,
    }
}

/// Returns when a stripe is to be looked at again after this answer.
fn next_after(now: u64, answer: Expiry) -> Option<u64>
    ensures { result ≡ next_after now answer }
{
    match answer {
        Expiry::Took => Some(now),
        Expiry::Waits(at) => Some(at),
        Expiry::Nothing => None,
    }
}

/// Tests whether an entry was taken away.
fn is_took(answer: Expiry) -> bool
    ensures { IsTrue result ↔ (answer ≡ Took) }
{
    matches!(answer, Expiry::Took)
}

/// Counts an entry, if one was taken away.
fn count_taken(counts: &WorkerCounts, answer: Expiry) {
    if is_took(answer) {
        counts.count_expired(1);
    }
}

/// Takes at most 20 entries of one stripe away whose time is over at `now`, each in a hold of its own, and returns the last answer:
/// `Took` if there may be more. Takes no memory. Waits until the stripe is free.
fn sweep_stripe<R: Wait>(
    rt: &R,
    map: &StripedMap,
    pass: &mut Pass,
    stripe: u64,
    now: u64,
    counts: &WorkerCounts,
) -> Expiry
    requires map { pass.old.map ≡ map.now }
    requires stripe { stripe < stripes_of map.now }
    ensures same { ServesSameMap pass.old pass.new }
    ensures sweeps { SweepsStripe now pass.old stripe result pass.new }
{
    for _ in 1..MOST {
        let answer = map.expire_one(rt, pass, stripe, now);
        if !is_took(answer) {
            return answer;
        }
        counts.count_expired(1);
    }
    let last = map.expire_one(rt, pass, stripe, now);
    count_taken(counts, last);
    last
}

impl Sweeper {
    /// Makes a sweeper that knows of no deadline. Takes no memory.
    pub fn new() -> Sweeper
        ensures { result ≡ None }
    {
        Sweeper { next: None }
    }

    /// Some entry has this deadline now. Takes no memory. Never waits.
    pub fn notice(&mut self, at: u64)
        ensures { self.new ≡ sooner self.old (Some at) }
    {
        self.next = sooner(self.next, Some(at));
    }

    /// Returns when to sweep next, in milliseconds since the epoch; none if no deadline is known. Takes no memory. Never waits.
    pub fn next(&self) -> Option<u64>
        ensures { result ≡ self.now }
    {
        self.next
    }

    /// Takes entries away whose time is over at `now`, in milliseconds since the epoch: of each stripe in turn at most 20, each in a
    /// hold of its own. Returns whether more may be left that are over: 20 of some stripe went. The next time is then `now`, else
    /// the first deadline that is left, or none if none is left. Takes no memory. Waits until each stripe is free.
    pub fn sweep<R: Wait>(
        &mut self,
        rt: &R,
        map: &StripedMap,
        pass: &mut Pass,
        now: u64,
        counts: &WorkerCounts,
    ) -> bool
        requires map { pass.old.map ≡ map.now }
        ensures same { ServesSameMap pass.old pass.new }
        ensures numbers { pass.new.view.numbers ≡ pass.old.view.numbers }
        ensures sweeps { (last : List Answer) × (SweepsAll now pass.old last pass.new
            × ((self.new ≡ next_of now last) × (IsTrue result ↔ Contains last Took))) }
    {
        let mut next = None;
        let mut is_more = false;
        for stripe in 0..map.stripes() {
            let answer = sweep_stripe(rt, map, pass, stripe, now, counts);
            next = sooner(next, next_after(now, answer));
            is_more |= is_took(answer);
        }
        self.next = next;
        is_more
    }
}
