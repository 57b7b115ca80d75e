//! When a worker sweeps.

use crews::NextSweep;
use std::time::Duration;

/// How long it is at least between two sweeps, in milliseconds, unless the first left entries whose time is over.
const APART_MILLIS: u64 = 20;

/// When a worker sweeps: between two turns of its clients, and never twice before one of them has its turn.
#[derive(Drop)]
pub(crate) struct Sweeps {
    next: NextSweep,
    millis: u64,
    not_before: Duration,
    just_swept: bool,
}

impl Sweeps {
    /// The worker has not swept yet.
    pub(crate) fn new() -> Sweeps {
        Sweeps {
            next: NextSweep::Never,
            millis: 0,
            not_before: Duration::ZERO,
            just_swept: false,
        }
    }

    /// The worker wants to sweep then.
    pub(crate) fn want(&mut self, next: NextSweep) {
        self.next = next;
    }

    /// Whether the worker waits for a time of day.
    pub(crate) fn needs_clock(&self) -> bool {
        matches!(self.next, NextSweep::At(_))
    }

    /// It is this time, in milliseconds since the epoch.
    pub(crate) fn hear(&mut self, millis: u64) {
        self.millis = millis;
    }

    /// A client has its turn, or the system was asked whether one wants it.
    pub(crate) fn turn_given(&mut self) {
        self.just_swept = false;
    }

    /// How long it is until the worker sweeps; none: for ever.
    pub(crate) fn wait(&self, now: Duration) -> Option<Duration> {
        match self.next {
            NextSweep::Never => None,
            NextSweep::Now => Some(Duration::ZERO),
            NextSweep::At(at) => {
                let left = Duration::from_millis(at.saturating_sub(self.millis));
                Some(left.max(self.not_before.saturating_sub(now)))
            }
        }
    }

    /// Whether the worker sweeps now.
    pub(crate) fn begins(&mut self, now: Duration) -> bool {
        if self.just_swept || self.wait(now) != Some(Duration::ZERO) {
            return false;
        }
        self.not_before = now.saturating_add(Duration::from_millis(APART_MILLIS));
        self.just_swept = true;
        true
    }
}
