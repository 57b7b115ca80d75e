//! Turns at a stripe. A thread that finds a stripe held lets others run, looks again, and sleeps if that didn't help. If it has
//! waited for two milliseconds, it starves: while somebody starves at a stripe, nobody else takes it. Go's `sync.Mutex` does the
//! same after one, but keeps those who starve in order. No contract speaks of this: a stripe belongs to the pass that changed its
//! word.

use atomic_methods::MAX_STRIPES;
use std::sync::Wait;
use std::sync::atomic::{AtomicU64, Ordering};
use std::time::Duration;
use std::{array, thread};

/// A thread that waits lets others run this often, and looks again each time.
const YIELDS: u32 = 10;

/// After that it sleeps for these times, in microseconds, and then it starves. The system adds some 50 to each.
const NAPS: [u64; 3] = [50, 600, 1500];

/// A map has at most this many stripes.
const STRIPES: usize = MAX_STRIPES as usize;

/// What a yield counts in microseconds, if nobody looks at a clock.
const YIELD_MICROS: u64 = 1;

/// How long threads have waited for a map's stripes. No clock is read: a nap counts as the time asked for, and a yield as a
/// microsecond. Both mostly take longer, but a yield may take less, and the system may end a nap early.
#[derive(Clone, Copy, Debug, PartialEq, Eq)]
pub struct Waits {
    /// How often a thread found a stripe held, or found others that had waited for long, and took it only after that.
    pub times: u64,
    /// The longest that one of them waited, in microseconds.
    pub longest_micros: u64,
}

/// The waits of a map that are over.
#[derive(Drop)]
struct Waited {
    times: AtomicU64,
    longest_micros: AtomicU64,
}

/// How many starve at each stripe of a map, and how long its threads have waited.
#[derive(Drop)]
pub(crate) struct Turns {
    starving: [AtomicU64; STRIPES],
    waited: Waited,
}

impl Turns {
    /// Nobody starves.
    pub(crate) fn new() -> Turns {
        Turns {
            starving: array::from_fn(|_| AtomicU64::new(0)),
            waited: Waited {
                times: AtomicU64::new(0),
                longest_micros: AtomicU64::new(0),
            },
        }
    }

    /// Returns how long threads have waited. The two numbers are read one after the other.
    pub(crate) fn waits(&self) -> Waits {
        Waits {
            times: self.waited.times.load(Ordering::Relaxed),
            longest_micros: self.waited.longest_micros.load(Ordering::Relaxed),
        }
    }

    /// Whether nobody starves at a stripe.
    pub(crate) fn are_free(&self, stripe: usize) -> bool {
        self.starving[stripe % STRIPES].load(Ordering::Relaxed) == 0
    }

    /// A thread comes to a stripe.
    #[inline(always)]
    pub(crate) fn come(&self, stripe: usize) -> Waiter<'_> {
        Waiter {
            starving: &self.starving[stripe % STRIPES],
            waited: &self.waited,
            rests: 0,
            micros: 0,
            starves: false,
        }
    }
}

/// A thread that wants a stripe: how often it has rested since it came, how many microseconds that counts, and whether it has waited
/// for so long that others let it go first.
#[derive(Drop)]
pub(crate) struct Waiter<'a> {
    starving: &'a AtomicU64,
    waited: &'a Waited,
    rests: u32,
    micros: u64,
    starves: bool,
}

impl Waiter<'_> {
    /// Whether it may take the stripe if that is free.
    #[inline(always)]
    pub(crate) fn may_try(&self) -> bool {
        self.starving.load(Ordering::Relaxed) == 0 || self.starves
    }

    /// It has the stripe.
    #[inline(always)]
    pub(crate) fn took(self) {
        if self.starves {
            self.starving.fetch_sub(1, Ordering::Relaxed);
        }
        self.waited.times.fetch_add(1, Ordering::Relaxed);
        self.waited
            .longest_micros
            .fetch_max(self.micros, Ordering::Relaxed);
    }

    /// Rests before it tries again.
    #[cold]
    pub(crate) fn rest<R: Wait>(&mut self, rt: &R) {
        let rests = self.rests;
        self.rests = rests.saturating_add(1);
        if rests < YIELDS {
            self.micros = self.micros.saturating_add(YIELD_MICROS);
            return thread::yield_now();
        }
        match NAPS.get((rests - YIELDS) as usize) {
            Some(nap) => self.nap(rt, *nap),
            None => self.starve(rt),
        }
    }

    /// It has waited for long: others let it go first from now on. Sleeps for a short time.
    fn starve<R: Wait>(&mut self, rt: &R) {
        if !self.starves {
            self.starves = true;
            self.starving.fetch_add(1, Ordering::Relaxed);
        }
        self.nap(rt, NAPS[0]);
    }

    /// Sleeps for this many microseconds.
    fn nap<R: Wait>(&mut self, rt: &R, micros: u64) {
        self.micros = self.micros.saturating_add(micros);
        let seen = self.starving.load(Ordering::Relaxed) % (1 << 32);
        let time = Duration::from_micros(micros);
        self.starving.park_timeout(rt, seen as u32, time);
    }
}
