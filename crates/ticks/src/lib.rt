//! The system's clock that never goes back, by which what the server does is timed. Contracts speak of no time.
#![tactic(auto)]

use libc::{CLOCK_MONOTONIC, clock_gettime, types};

/// Returns the time since some begin, in microseconds; none if the clock can't be read. Takes no memory. Never waits.
pub fn micros() -> Option<u64> {
    let mut time = types::timespec {
        tv_sec: 0,
        tv_nsec: 0,
    };
    if clock_gettime(CLOCK_MONOTONIC, &mut time) != 0 {
        return None;
    }
    let seconds = u64::try_from(time.tv_sec).ok()?;
    let nanos = u64::try_from(time.tv_nsec).ok()?;
    Some(
        seconds
            .saturating_mul(1_000_000)
            .saturating_add(nanos / 1000),
    )
}

/// Returns how long ago this time was, in microseconds. 0 if the clock could not be read, then or now.
pub fn micros_since(begun: Option<u64>) -> u64 {
    match (begun, micros()) {
        (Some(begun), Some(now)) => now.saturating_sub(begun),
        _ => 0,
    }
}
