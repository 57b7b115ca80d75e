//! What was saved of a key, and what a row says of it beside the value.
ghost use Rattle.std.specs.Prelude.{◌≡◌, IfSome};
ghost use Rattle.noted_bins.specs.Marks.{mark_of as mark_is, saved_as, saved_in};

/// A key's value when it was saved, and its deadline in milliseconds since the epoch if it had one.
#[derive(Clone, Copy, Debug)]
pub struct SavedEntry<'a> {
    pub value: &'a [u8],
    pub deadline: Option<u64>,
}

/// What a row says of its key beside the value.
#[derive(Clone, Copy, Debug, PartialEq, Eq)]
pub(crate) enum Mark {
    /// The key has no entry. The row's value is empty.
    Gone,
    /// The key has an entry without a deadline.
    Lasting,
    /// The key has an entry with this deadline.
    Until(u64),
}

impl Mark {
    /// The mark of an entry with this deadline.
    pub(crate) fn of(deadline: Option<u64>) -> Mark
        ensures { result ≡ mark_is deadline }
    {
        match deadline {
            Some(at) => Mark::Until(at),
            None => Mark::Lasting,
        }
    }

    /// The entry of a row with this value, or none.
    pub(crate) fn entry(self, value: &[u8]) -> Option<SavedEntry<'_>>
        ensures saved { saved_in result ≡ saved_as self value.now }
        ensures value { IfSome result (λ entry. entry.value.now ≡ value.now) }
    {
        match self {
            Mark::Gone => None,
            Mark::Lasting => Some(SavedEntry {
                value,
                deadline: None,
            }),
            Mark::Until(at) => Some(SavedEntry {
                value,
                deadline: Some(at),
            }),
        }
    }
}
