//! What is counted and told of clients that come.

use crate::patience::{AcceptFault, Patience, accept_fault};
use crate::telling::Telling;
use devices::Sink;
use std::alloc::{AllocError, Global};
use std::io;
use std::rt::Clock;
use std::sync::atomic::{AtomicBool, AtomicU64, Ordering};
use std::sync::{Mutex, Wait};
use std::time::Duration;

/// How many clients are served at once, how long one may be silent, how long one of its commands may take before it is kept, and what else
/// clients may do.
#[derive(Clone, Copy, Debug, PartialEq, Eq)]
pub struct Limits {
    /// How many clients may be there at once, over all workers. One more is told that there is no room.
    pub clients: u64,
    /// The number of seconds after which a client is let go if nothing comes from it, or it takes nothing; none: never.
    pub idle: Option<u64>,
    /// From how many microseconds on a command of Redis is kept for SLOWLOG; none: none is.
    pub slow: Option<u64>,
    /// How many bytes may be kept for all clients between their turns, before those that need most are let go.
    pub session_bytes: u64,
    /// Whether requests that may change the map are refused while it can't be saved.
    pub is_strict: bool,
}

/// No limits.
pub(crate) const NO_LIMITS: Limits = Limits {
    clients: u64::MAX,
    idle: None,
    slow: None,
    session_bytes: u64::MAX,
    is_strict: false,
};

/// What follows from a failed accept.
pub(crate) enum Then {
    /// The next accept can be made at once.
    Again,
    /// It can be made after this time.
    After(Duration),
    /// Accepts fail for good.
    Never,
}

/// Counts the clients of all workers, and tells standard error what goes wrong with accepts.
#[derive(Drop)]
pub(crate) struct Arrivals<'a, 'b, H: Wait + Clock, E: Sink> {
    pub(crate) rt: &'a H,
    alloc: Global,
    pub(crate) limits: Limits,
    streams: AtomicU64,
    here: AtomicU64,
    wanting: AtomicU64,
    failed: AtomicBool,
    refused: AtomicBool,
    errors: Mutex<Telling<'b, E>>,
}

/// The line that tells of a failed accept.
fn failure_line(alloc: Global, worker: u32, error: &io::Error) -> Result<String, AllocError> {
    format!(in alloc; "worker {worker} ended: failed accept: {error}\n")
}

/// The line that tells that clients are refused, and why.
fn refusing_line(alloc: Global, error: &io::Error) -> Result<String, AllocError> {
    format!(in alloc; "clients are refused: {error}\n")
}

/// The line that tells that accepts wait, and why.
fn waiting_line(alloc: Global, error: &io::Error) -> Result<String, AllocError> {
    format!(in alloc; "accepts wait: {error}\n")
}

impl<'a, 'b, H: Wait + Clock, E: Sink> Arrivals<'a, 'b, H, E> {
    /// Nobody has come.
    pub(crate) fn new(
        rt: &'a H,
        alloc: Global,
        limits: Limits,
        errors: Telling<'b, E>,
    ) -> Arrivals<'a, 'b, H, E> {
        Arrivals {
            rt,
            alloc,
            limits,
            streams: AtomicU64::new(0),
            here: AtomicU64::new(0),
            wanting: AtomicU64::new(0),
            failed: AtomicBool::new(false),
            refused: AtomicBool::new(false),
            errors: Mutex::new(errors),
        }
    }

    /// How many clients were handed out.
    pub(crate) fn streams(&self) -> u64 {
        self.streams.load(Ordering::SeqCst)
    }

    /// An accept failed.
    pub(crate) fn has_failed(&self) -> bool {
        self.failed.load(Ordering::SeqCst)
    }

    /// What tells standard error.
    pub(crate) fn into_telling(self) -> Telling<'b, E> {
        self.errors.into_inner()
    }

    /// A client may come: there is room for it, which it takes until it leaves.
    pub(crate) fn comes(&self) -> bool {
        if self.here.fetch_add(1, Ordering::SeqCst) < self.limits.clients {
            return true;
        }
        self.leaves();
        false
    }

    /// How many clients are there, over all workers.
    pub(crate) fn here(&self) -> u64 {
        self.here.load(Ordering::SeqCst)
    }

    /// A client that came is handed out.
    pub(crate) fn is_handed_out(&self) {
        self.streams.fetch_add(1, Ordering::SeqCst);
    }

    /// A client that came leaves.
    pub(crate) fn leaves(&self) {
        self.here.fetch_sub(1, Ordering::SeqCst);
    }

    /// Writes the text to standard error.
    pub(crate) fn tell(&self, text: &[u8]) {
        self.errors.lock(self.rt).tell(text);
    }

    /// An accept failed for good, which ends the worker.
    pub(crate) fn tell_failure(&self, worker: u32, error: &io::Error) {
        self.failed.store(true, Ordering::SeqCst);
        let mut errors = self.errors.lock(self.rt);
        match failure_line(self.alloc, worker, error) {
            Ok(line) => errors.tell(line.as_bytes()),
            Err(_) => errors.tell(b"failed accept\n"),
        }
    }

    /// A client was refused since there is no descriptor for it. Standard error is told once.
    pub(crate) fn tell_refused(&self, error: &io::Error) {
        if self.refused.swap(true, Ordering::SeqCst) {
            return;
        }
        let mut errors = self.errors.lock(self.rt);
        match refusing_line(self.alloc, error) {
            Ok(line) => errors.tell(line.as_bytes()),
            Err(_) => errors.tell(b"clients are refused\n"),
        }
    }

    /// A worker's accept failed of a want that may pass. Standard error is told of the first such worker.
    fn tell_want(&self, error: &io::Error) {
        if self.wanting.fetch_add(1, Ordering::SeqCst) > 0 {
            return;
        }
        let mut errors = self.errors.lock(self.rt);
        match waiting_line(self.alloc, error) {
            Ok(line) => errors.tell(line.as_bytes()),
            Err(_) => errors.tell(b"accepts wait\n"),
        }
    }

    /// Nothing is wanting for this worker. Standard error is told if that is so for all again.
    pub(crate) fn tell_plenty(&self, patience: &mut Patience) {
        if !patience.has_waited() {
            return;
        }
        *patience = Patience::new();
        if self.wanting.fetch_sub(1, Ordering::SeqCst) == 1 {
            self.errors.lock(self.rt).tell(b"accepts go on\n");
        }
    }

    /// What follows from the error of an accept, after so much patience.
    pub(crate) fn after_fault(&self, patience: &mut Patience, error: &io::Error) -> Then {
        match accept_fault(error) {
            AcceptFault::Gone => Then::Again,
            AcceptFault::Lasting => Then::Never,
            AcceptFault::Passing => self.after_want(patience, error),
        }
    }

    /// What follows from a want that may pass, after so much patience.
    fn after_want(&self, patience: &mut Patience, error: &io::Error) -> Then {
        if !patience.has_waited() {
            self.tell_want(error);
        }
        match patience.next_wait() {
            None => Then::Never,
            Some(wait) => Then::After(Duration::from_millis(wait)),
        }
    }
}
