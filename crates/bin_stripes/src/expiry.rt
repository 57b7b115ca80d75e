//! What a look for an entry whose time is over came to.
ghost use Rattle.std.specs.Prelude.{◌≡◌};
ghost use Rattle.bin_stripes.specs.Timed.{plain_of};

use timed_bins::Expiry as BinsExpiry;

/// What a look for an entry whose time is over came to. The key that was taken away is in the pass's history.
#[derive(Clone, Copy, Debug, PartialEq, Eq)]
pub enum Expiry {
    /// One was taken away.
    Took,
    /// No time is over. The next one may be over at this time, in milliseconds since the epoch, and none before.
    Waits(u64),
    /// No key has a deadline.
    Nothing,
}

/// Returns the same without the key.
pub(crate) fn plain(expiry: &BinsExpiry) -> Expiry
    ensures { result ≡ plain_of expiry.now }
{
    match expiry {
        BinsExpiry::Took(_) => Expiry::Took,
        BinsExpiry::Waits(at) => Expiry::Waits(*at),
        BinsExpiry::Nothing => Expiry::Nothing,
    }
}
