//! Times of calls, and deadlines.
use atomic_methods::ReplyKind;
use bpf_model::Key;

/// When a deadline is set, by the one that the key has. A key without one counts as never over.
#[derive(Clone, Copy, Debug, PartialEq, Eq)]
pub enum SetRule {
    /// In any case.
    Always,
    /// If the key has none.
    IfNone,
    /// If the key has one.
    IfSome,
    /// If the key has one that is over sooner.
    IfLater,
    /// If the key has none, or one that is over later.
    IfSooner,
    /// If the key has one that is over later.
    IfSomeAndSooner,
}

/// What becomes of a key's deadline if a call gets to its entry.
#[derive(Clone, Copy, Debug, PartialEq, Eq)]
pub enum DeadlineChange {
    /// The key keeps the deadline that it has, if any.
    Keep,
    /// The key has none.
    Clear,
    /// The key gets this deadline, in milliseconds since the epoch, if the rule allows it.
    Set { at: u64, rule: SetRule },
    /// The key's deadline moves back by this many milliseconds, if it has one; at most to `u64::MAX`.
    Extend { by: u64 },
}

/// The time at which a call is made, in milliseconds since the epoch, and what becomes of its key's deadline.
#[derive(Clone, Copy, Debug, PartialEq, Eq)]
pub struct Timing {
    pub now: u64,
    pub change: DeadlineChange,
}

/// What a call at a time came to.
#[derive(Clone, Copy, Debug, PartialEq, Eq)]
pub struct TimedReply {
    /// The reply, without the bytes of its value.
    pub kind: ReplyKind,
    /// Whether the key was taken away first, since its time was over.
    pub was_over: bool,
    /// The key's deadline after that, when the call was made.
    pub before: Option<u64>,
    /// The key's deadline after the call.
    pub after: Option<u64>,
}

/// What a look for an entry whose time is over came to.
#[derive(Debug, PartialEq, Eq, Drop)]
pub enum Expiry {
    /// The entry of this key was taken away.
    Took(Key),
    /// No time is over. The next one may be over at this time, and none before.
    Waits(u64),
    /// No key has a deadline.
    Nothing,
}
