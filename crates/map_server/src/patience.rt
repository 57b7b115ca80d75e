//! How a worker goes on when an accept fails.
ghost use Rattle.std.specs.Prelude.{◌≡◌, ◌<◌, ◌↔◌, IsTrue};
ghost use Rattle.map_server.specs.Waits.{WaitsOnce};

use libc::{EMFILE, ENOMEM, EPERM};
use std::io::{self, ErrorKind};
use std::marker::Model;

/// The first wait, in milliseconds.
const FIRST_WAIT: u64 = 10;

/// The longest wait.
const LONGEST_WAIT: u64 = 1000;

/// When the waits come to an hour, the accept has failed for good.
const MOST_WAITED: u64 = 3_600_000;

/// The system has no further file: no descriptor for any process.
const ENFILE: i32 = 23;

/// There is no memory for the socket's buffers.
const ENOBUFS: i32 = 105;

/// What an error of an accept tells.
#[derive(Clone, Copy, Debug, PartialEq, Eq)]
pub enum AcceptFault {
    /// The connection went away before it was accepted, or a signal came: the next accept can be made at once.
    Gone,
    /// Descriptors or memory are wanting, or the connection's network is: the next accept is made after a while.
    Passing,
    /// The listener can't be used.
    Lasting,
}

/// The number is one that accept(2) lists of a connection's network: ENONET, EPROTO, ENOPROTOOPT, EOPNOTSUPP, ENETDOWN,
/// ENETUNREACH, EHOSTDOWN, EHOSTUNREACH.
fn is_of_network(number: i32) -> bool {
    matches!(number, 64 | 71 | 92 | 95 | 100 | 101 | 112 | 113)
}

/// The number tells of a want of descriptors or memory, or that a rule of the firewall refused the connection.
fn is_of_want(number: i32) -> bool {
    matches!(number, EMFILE | ENFILE | ENOBUFS | ENOMEM | EPERM)
}

/// There is no descriptor for a further connection.
pub(crate) fn is_of_descriptors(error: &io::Error) -> bool {
    matches!(error.raw_os_error(), Some(EMFILE | ENFILE))
}

/// What the error of an accept tells.
pub fn accept_fault(error: &io::Error) -> AcceptFault {
    match error.kind() {
        ErrorKind::Interrupted | ErrorKind::ConnectionAborted | ErrorKind::ConnectionReset => {
            AcceptFault::Gone
        }
        _ => match error.raw_os_error() {
            Some(number) if is_of_network(number) || is_of_want(number) => AcceptFault::Passing,
            _ => AcceptFault::Lasting,
        },
    }
}

/// How long is waited before the next accept, and how long was, in milliseconds.
#[derive(Drop)]
pub struct Patience {
    next: u64,
    waited: u64,
}

impl Model for Patience {
    ghost use Rattle.std.specs.Prelude.{◌≤◌};
    ghost use Rattle.map_server.specs.Waits.{Waits};

    ghost Value = { Waits };

    ghost view = { λ p. record { next = p.next; waited = p.waited } };

    ghost invariant = { λ p. (p.next ≤ 1000) × (p.waited ≤ 3601000) };
}

impl Patience {
    /// Nothing was waited for: the first wait is the shortest.
    pub fn new() -> Patience
        ensures { result ≡ record { next = 10; waited = 0 } }
    {
        Patience {
            next: FIRST_WAIT,
            waited: 0,
        }
    }

    /// Something was waited for.
    pub fn has_waited(&self) -> bool
        ensures { IsTrue result ↔ (0 < self.now.waited) }
    {
        self.waited > 0
    }

    /// The next wait, in milliseconds; none if an hour was waited.
    pub fn next_wait(&mut self) -> Option<u64>
        ensures { WaitsOnce self.old result self.new }
    {
        if self.waited >= MOST_WAITED {
            return None;
        }
        let wait = self.next;
        *self = Patience {
            next: (2 * wait).min(LONGEST_WAIT),
            waited: self.waited + wait,
        };
        Some(wait)
    }
}
