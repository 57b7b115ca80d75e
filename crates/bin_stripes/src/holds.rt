//! How long stripes were held by what may hold one for long: a scan, a copy, a count, a replacement, a save, or a look for an entry whose
//! time is over. Calls are not timed: they would read a clock twice. No contract speaks of this.

use std::sync::atomic::{AtomicU64, Ordering};
use ticks::micros_since;

/// The longest of a map's holds that were timed and are over.
#[derive(Drop)]
pub(crate) struct Holds {
    longest_micros: AtomicU64,
}

impl Holds {
    /// None is over.
    pub(crate) fn none() -> Holds {
        Holds {
            longest_micros: AtomicU64::new(0),
        }
    }

    /// Returns the longest so far, in microseconds.
    pub(crate) fn longest_micros(&self) -> u64 {
        self.longest_micros.load(Ordering::Relaxed)
    }

    /// A hold is over that began at this time; it isn't counted if the clock could not be read.
    pub(crate) fn ended(&self, begun: Option<u64>) {
        self.longest_micros
            .fetch_max(micros_since(begun), Ordering::Relaxed);
    }
}
