//! The time since a worker began.

use std::rt::Clock;
use std::time::{Duration, Instant};

/// The time since a worker began, as it was when the clock was last looked at. If the clock can't be read it stands still.
#[derive(Drop)]
pub(crate) struct Stopwatch<'a, H: Clock> {
    rt: &'a H,
    begun: Option<Instant>,
    now: Duration,
}

impl<'a, H: Clock> Stopwatch<'a, H> {
    /// A worker begins now.
    pub(crate) fn new(rt: &'a H) -> Stopwatch<'a, H> {
        Stopwatch {
            rt,
            begun: Instant::now(rt).ok(),
            now: Duration::ZERO,
        }
    }

    /// The time when the clock was last looked at.
    pub(crate) fn now(&self) -> Duration {
        self.now
    }

    /// Looks at the clock.
    pub(crate) fn look(&mut self) {
        if let Some(begun) = self.begun
            && let Ok(now) = begun.elapsed(self.rt)
        {
            self.now = now;
        }
    }
}
