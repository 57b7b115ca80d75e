//! What a save of bins came to.

/// What a save of bins came to.
#[derive(Clone, Copy, Debug, PartialEq, Eq)]
pub enum Taken {
    /// The rows of all entries were added. Rows of these bins that were handed out before count no more.
    All,
    /// The rows of some entries were added, and the others are noted. Rows of these bins that were handed out before count no more.
    Begun,
    /// Rows of some noted keys were added. More keys may be noted.
    Some,
    /// Rows of all keys that were noted were added.
    Rest,
}
