//! What workers count.
ghost use Rattle.std.specs.Prelude.{◌≡◌, ◌-◌};

use std::array;
use std::sync::atomic::{AtomicU64, Ordering};

/// Kinds of commands and of requests, and the numbers of refusals, are below this.
pub const MOST_KINDS: usize = 128;

/// What was counted since the server began.
#[derive(Clone, Copy, Debug, Default, PartialEq, Eq, Drop)]
pub struct Counts {
    /// Clients that came, of both ports, also those that were turned away.
    pub clients_came: u64,
    /// Clients that came and left.
    pub clients_left: u64,
    /// Clients that came and were turned away, since there was no room for them.
    pub clients_refused: u64,
    /// Commands of Redis, right ones and wrong ones.
    pub commands: u64,
    /// Requests in frames.
    pub requests: u64,
    /// Commands or requests that walked over the whole map.
    pub walks: u64,
    /// Commands of Redis to which memory was refused.
    pub refusals: u64,
    /// Entries that a sweep took away, since their time was over.
    pub expired: u64,
    /// Reads of a key that found a value.
    pub hits: u64,
    /// Reads of a key that found none.
    pub misses: u64,
    /// Bytes that are kept for clients. They go up and down.
    pub session_bytes: u64,
}

impl Counts {
    /// Returns how many clients are there.
    pub fn clients_here(&self) -> u64
        ensures { result ≡ self.now.clients_came - self.now.clients_left - self.now.clients_refused }
    {
        self.clients_came
            .saturating_sub(self.clients_left)
            .saturating_sub(self.clients_refused)
    }

    /// Returns the sum of both.
    pub(crate) fn plus(self, other: Counts) -> Counts {
        Counts {
            clients_came: self.clients_came.wrapping_add(other.clients_came),
            clients_left: self.clients_left.wrapping_add(other.clients_left),
            clients_refused: self.clients_refused.wrapping_add(other.clients_refused),
            commands: self.commands.wrapping_add(other.commands),
            requests: self.requests.wrapping_add(other.requests),
            walks: self.walks.wrapping_add(other.walks),
            refusals: self.refusals.wrapping_add(other.refusals),
            expired: self.expired.wrapping_add(other.expired),
            hits: self.hits.wrapping_add(other.hits),
            misses: self.misses.wrapping_add(other.misses),
            session_bytes: self.session_bytes.wrapping_add(other.session_bytes),
        }
    }
}

/// A number that one thread counts up, and others read. If two threads counted, one might not be counted.
#[derive(Drop)]
struct Counter {
    number: AtomicU64,
}

impl Counter {
    /// Nothing is counted yet.
    fn new() -> Counter {
        Counter {
            number: AtomicU64::new(0),
        }
    }

    /// Counts this many more.
    #[inline(always)]
    fn add(&self, more: u64) {
        let number = self.number.load(Ordering::Relaxed);
        self.number
            .store(number.wrapping_add(more), Ordering::Relaxed);
    }

    /// Returns the number.
    fn number(&self) -> u64 {
        self.number.load(Ordering::Relaxed)
    }
}

/// Numbers that one thread counts up, one for each kind, and others read.
#[derive(Drop)]
struct Tally {
    counters: [Counter; MOST_KINDS],
}

impl Tally {
    /// Nothing is counted yet.
    fn new() -> Tally {
        Tally {
            counters: array::from_fn(|_| Counter::new()),
        }
    }

    /// Counts one more of this kind.
    #[inline(always)]
    fn add(&self, kind: usize) {
        self.counters[kind % MOST_KINDS].add(1);
    }

    /// Returns the number of this kind.
    fn of(&self, kind: usize) -> u64 {
        self.counters[kind % MOST_KINDS].number()
    }

    /// Returns the number of all kinds.
    fn sum(&self) -> u64 {
        let mut sum = 0_u64;
        for counter in &self.counters {
            sum = sum.wrapping_add(counter.number());
        }
        sum
    }
}

/// What one worker counted. It has more than 128 bytes, and its last ones are of no use: so the counts of two workers are never on one line
/// of a processor's cache, and a worker counts without waiting for another.
#[derive(Drop)]
pub struct WorkerCounts {
    clients_came: Counter,
    clients_left: Counter,
    clients_refused: Counter,
    /// By their kinds.
    commands: Tally,
    /// By their kinds.
    requests: Tally,
    walks: Counter,
    refusals: Counter,
    /// Refusals in frames, by their numbers.
    refused: Tally,
    expired: Counter,
    hits: Counter,
    misses: Counter,
    session_bytes: Counter,
    /// What the commands of the last turn asked for last.
    last_command: AtomicU64,
    apart: [u64; 16],
}

impl WorkerCounts {
    /// Nothing is counted yet.
    pub(crate) fn new() -> WorkerCounts {
        WorkerCounts {
            clients_came: Counter::new(),
            clients_left: Counter::new(),
            clients_refused: Counter::new(),
            commands: Tally::new(),
            requests: Tally::new(),
            walks: Counter::new(),
            refusals: Counter::new(),
            refused: Tally::new(),
            expired: Counter::new(),
            hits: Counter::new(),
            misses: Counter::new(),
            session_bytes: Counter::new(),
            last_command: AtomicU64::new(0),
            apart: [0; 16],
        }
    }

    /// A client came.
    pub fn count_client(&self) {
        self.clients_came.add(1);
    }

    /// A client that came left.
    pub fn count_leaving(&self) {
        self.clients_left.add(1);
    }

    /// A client that came was turned away.
    pub fn count_refused_client(&self) {
        self.clients_refused.add(1);
    }

    /// A command of Redis came, of this kind by a number of the one who counts it.
    #[inline(always)]
    pub fn count_command(&self, kind: usize) {
        self.commands.add(kind);
    }

    /// A request in a frame came, of this kind by a number of the one who counts it.
    #[inline(always)]
    pub fn count_request(&self, kind: usize) {
        self.requests.add(kind);
    }

    /// A request in a frame, or a frame, was refused with this number.
    pub fn count_refused(&self, number: u8) {
        self.refused.add(usize::from(number));
    }

    /// A command or a request walked over the whole map.
    pub fn count_walk(&self) {
        self.walks.add(1);
    }

    /// Memory was refused to a command of Redis.
    pub fn count_refusal(&self) {
        self.refusals.add(1);
    }

    /// A sweep took this many entries away.
    pub fn count_expired(&self, count: u64) {
        self.expired.add(count);
    }

    /// A key was read, and had a value or none.
    #[inline(always)]
    pub fn count_read(&self, has_value: bool) {
        if has_value {
            self.hits.add(1);
        } else {
            self.misses.add(1);
        }
    }

    /// This many bytes are kept for a client now, in place of those before. A client that comes had none, and one that leaves has none.
    #[inline(always)]
    pub fn count_kept(&self, before: u64, now: u64) {
        if now != before {
            self.session_bytes.add(now.wrapping_sub(before));
        }
    }

    /// Returns how many bytes are kept for this worker's clients.
    #[inline(always)]
    pub(crate) fn session_bytes(&self) -> u64 {
        self.session_bytes.number()
    }

    /// A turn of commands ended, of which the last one that has a name asked for this, by a number of the one who notes it; 0: none has.
    pub fn note_command(&self, command: u64) {
        self.last_command.store(command, Ordering::Relaxed);
    }

    /// Returns what was noted last.
    pub fn last_command(&self) -> u64 {
        self.last_command.load(Ordering::Relaxed)
    }

    /// Returns how many commands of this kind came.
    fn commands_of(&self, kind: usize) -> u64 {
        self.commands.of(kind)
    }

    /// Returns how many requests of this kind came.
    fn requests_of(&self, kind: usize) -> u64 {
        self.requests.of(kind)
    }

    /// Returns how many refusals in frames had this number.
    fn refused_of(&self, number: usize) -> u64 {
        self.refused.of(number)
    }

    /// Returns what was counted so far.
    pub(crate) fn so_far(&self) -> Counts {
        Counts {
            clients_came: self.clients_came.number(),
            clients_left: self.clients_left.number(),
            clients_refused: self.clients_refused.number(),
            commands: self.commands.sum(),
            requests: self.requests.sum(),
            walks: self.walks.number(),
            refusals: self.refusals.number(),
            expired: self.expired.number(),
            hits: self.hits.number(),
            misses: self.misses.number(),
            session_bytes: self.session_bytes.number(),
        }
    }
}

/// Returns what all of them counted so far.
pub(crate) fn sum(all: &[WorkerCounts]) -> Counts {
    let mut counts = Counts::default();
    for one in all {
        counts = counts.plus(one.so_far());
    }
    counts
}

/// Returns how many bytes are kept for the clients of all of them.
pub(crate) fn session_bytes_of(all: &[WorkerCounts]) -> u64 {
    let mut bytes = 0_u64;
    for one in all {
        bytes = bytes.wrapping_add(one.session_bytes());
    }
    bytes
}

/// Returns how many commands of this kind came to all of them.
pub(crate) fn commands_of(all: &[WorkerCounts], kind: usize) -> u64 {
    let mut count = 0_u64;
    for one in all {
        count = count.wrapping_add(one.commands_of(kind));
    }
    count
}

/// Returns how many requests of this kind came to all of them.
pub(crate) fn requests_of(all: &[WorkerCounts], kind: usize) -> u64 {
    let mut count = 0_u64;
    for one in all {
        count = count.wrapping_add(one.requests_of(kind));
    }
    count
}

/// Returns how many refusals in frames of all of them had this number.
pub(crate) fn refused_of(all: &[WorkerCounts], number: usize) -> u64 {
    let mut count = 0_u64;
    for one in all {
        count = count.wrapping_add(one.refused_of(number));
    }
    count
}
