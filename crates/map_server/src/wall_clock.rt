//! The time of day, for all workers.

use std::rt::Clock;
use std::sync::atomic::{AtomicU64, Ordering};
use std::time::{SystemTime, UNIX_EPOCH};

/// The latest time that any worker read from the system's clock, in milliseconds since the epoch; 0 at first. So the time never goes
/// back, for none of them: if the clock does, or can't be read, it stands still.
#[derive(Drop)]
pub(crate) struct WallClock<'a, H: Clock> {
    rt: &'a H,
    latest: AtomicU64,
}

/// What the system's clock reads, in milliseconds since the epoch; none if it can't be read.
fn read<H: Clock>(rt: &H) -> Option<u64> {
    let since = SystemTime::now(rt).ok()?.duration_since(UNIX_EPOCH).ok()?;
    Some(u64::try_from(since.as_millis()).unwrap_or(u64::MAX))
}

impl<'a, H: Clock> WallClock<'a, H> {
    /// Nobody looked at the clock yet.
    pub(crate) fn new(rt: &'a H) -> WallClock<'a, H> {
        WallClock {
            rt,
            latest: AtomicU64::new(0),
        }
    }

    /// Looks at the clock.
    pub(crate) fn look(&self) -> u64 {
        let latest = self.latest.load(Ordering::SeqCst);
        match read(self.rt) {
            Some(now) if now > latest => self.latest.fetch_max(now, Ordering::SeqCst).max(now),
            _ => latest,
        }
    }
}
