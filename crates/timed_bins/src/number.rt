//! Deadlines as eight bytes, the low one first, and times.
ghost use Rattle.std.specs.Prelude.{◌≡◌, max};
ghost use Rattle.timed_bins.specs.Agendas.{number_of as number_is};
ghost use Rattle.timed_bins.specs.Deadlines.{is_over as over_is};

use bpf_model::Value;

/// Returns a deadline's bytes.
pub(crate) fn bytes_of(at: u64) -> Value
    ensures { number_is result ≡ at }
{
    let mut value = Value::new();
    value.set_from(&at.to_le_bytes());
    value
}

/// Returns the deadline that these bytes are.
#[inline(always)]
pub(crate) fn number_of(bytes: &[u8]) -> u64
    ensures { result ≡ number_is bytes.now }
{
    match <[u8; 8]>::try_from(bytes) {
        Ok(bytes) => u64::from_le_bytes(bytes),
        Err(_) => 0,
    }
}

/// Returns whether a deadline is over at this time.
#[inline(always)]
pub(crate) fn is_over(deadline: Option<u64>, now: u64) -> bool
    ensures { result ≡ over_is deadline now }
{
    match deadline {
        Some(at) => at <= now,
        None => false,
    }
}

/// Returns the time that counts once this one was told: the latest.
#[inline(always)]
pub(crate) fn latest_of(told: u64, now: u64) -> u64
    ensures { result ≡ max told now }
{
    told.max(now)
}
