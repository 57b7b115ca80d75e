//! The numbers of a server.

use arrayvec::ArrayVec;

/// The bytes that a label has at most.
pub const LABEL_BYTES: usize = 24;

/// At most this many kinds of commands are told apart.
pub const MOST_COMMANDS: usize = 80;

/// At most this many kinds of requests are told apart.
pub const MOST_REQUESTS: usize = 20;

/// At most this many kinds of refusals are told apart.
pub const MOST_REFUSALS: usize = 48;

/// What tells a number from others of its name. It has no quote, backslash or newline.
pub type Label = ArrayVec<u8, LABEL_BYTES>;

/// One of several numbers of a name.
#[derive(Default, Drop)]
pub struct Labelled {
    /// What tells it from the others.
    pub label: Label,
    /// The number.
    pub number: u64,
}

/// The numbers of a server, as they are now.
#[derive(Drop)]
pub struct Numbers {
    /// The entries of the map.
    pub entries: u64,
    /// The bytes of memory that the process has; 0 if the system doesn't say.
    pub resident_bytes: u64,
    /// Clients that are there.
    pub clients: u64,
    /// Clients that came, also those that were turned away.
    pub clients_came: u64,
    /// Clients that were turned away, since there was no room for them.
    pub clients_refused: u64,
    /// Commands of Redis, right ones and wrong ones, by their names.
    pub commands: ArrayVec<Labelled, MOST_COMMANDS>,
    /// Requests in frames, by their names.
    pub requests: ArrayVec<Labelled, MOST_REQUESTS>,
    /// Commands of Redis that walked over the whole map.
    pub walks: u64,
    /// Refusals in frames by their numbers, and those of commands of Redis.
    pub refusals: ArrayVec<Labelled, MOST_REFUSALS>,
    /// Entries that sweeps took away, since their time was over.
    pub expired: u64,
    /// Reads of a key by commands of Redis that found a value.
    pub hits: u64,
    /// Reads of a key by commands of Redis that found none.
    pub misses: u64,
    /// When the last save was written, in seconds since the epoch; 0 if none was.
    pub last_save_seconds: u64,
    /// Whether the last save could not be written.
    pub is_save_failing: bool,
    /// How often a thread waited for a stripe of the map that another held.
    pub stripe_waits: u64,
    /// The longest that one waited, in microseconds; it may be longer.
    pub longest_wait_micros: u64,
    /// The longest that a walk, a save or a sweep held a stripe, in microseconds.
    pub longest_hold_micros: u64,
    /// The bytes of keys and values.
    pub row_bytes: u64,
    /// The bytes of what is kept beside keys and values.
    pub index_bytes: u64,
    /// The bytes of registered programs.
    pub program_bytes: u64,
    /// The bytes that are kept for clients.
    pub session_bytes: u64,
    /// How long the server has run, in seconds.
    pub uptime_seconds: u64,
}
