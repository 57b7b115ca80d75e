//! The seats of a worker's clients: who has a turn next, and when each was last heard.

use bpf_model::NoMemory;
use std::alloc::Global;
use std::collections::VecDeque;
use std::mem;
use std::time::Duration;

/// A seat: when its client last sent or took something, whether somebody has it, whether it is to have a turn, whether its client
/// takes nothing now, and whether the client's end has come and may not be read yet.
#[derive(Clone, Copy, Debug, PartialEq, Eq)]
struct Seat {
    heard: Duration,
    is_taken: bool,
    is_queued: bool,
    is_stuck: bool,
    is_ending: bool,
}

/// What the system tells of a connection: whether it can be written, and whether the client's end has come.
#[derive(Clone, Copy, Debug, PartialEq, Eq)]
pub(crate) struct Stirring {
    pub(crate) is_writable: bool,
    pub(crate) is_ending: bool,
}

/// A seat that nobody had.
const NEW_SEAT: Seat = Seat {
    heard: Duration::ZERO,
    is_taken: false,
    is_queued: false,
    is_stuck: false,
    is_ending: false,
};

/// The seats of one worker's clients. Those that are to have a turn are queued, each once.
#[derive(Drop)]
pub(crate) struct Seats {
    seats: Vec<Seat>,
    queue: VecDeque<usize>,
    looked: usize,
}

impl Seats {
    /// No seat. Takes no memory.
    pub(crate) fn new(alloc: Global) -> Seats {
        Seats {
            seats: Vec::new(alloc),
            queue: VecDeque::new(alloc),
            looked: 0,
        }
    }

    /// How many seats are to have a turn.
    pub(crate) fn queued(&self) -> usize {
        self.queue.len()
    }

    /// A client takes this seat. `NoMemory` if a request for memory was refused.
    pub(crate) fn take(&mut self, seat: usize, now: Duration) -> Result<(), NoMemory> {
        for _ in self.seats.len()..=seat {
            self.seats.push(NEW_SEAT)?;
        }
        // Each seat is queued at most once, so a seat that is queued later needs no memory.
        self.queue.reserve(self.seats.len())?;
        if let Some(taken) = self.seats.get_mut(seat) {
            taken.heard = now;
            taken.is_taken = true;
            taken.is_stuck = false;
            taken.is_ending = false;
        }
        Ok(())
    }

    /// The seat's client left.
    pub(crate) fn leave(&mut self, seat: usize) {
        if let Some(left) = self.seats.get_mut(seat) {
            left.is_taken = false;
        }
    }

    /// The seat is to have a turn. Its client sent or took something, unless it takes nothing now.
    fn queue(&mut self, seat: usize, now: Duration) {
        let Some(queued) = self.seats.get_mut(seat) else {
            return;
        };
        if !queued.is_stuck {
            queued.heard = now;
        }
        if queued.is_taken && !queued.is_queued {
            queued.is_queued = self.queue.push_back(seat).is_ok();
        }
    }

    /// The system tells this of the seat's connection.
    pub(crate) fn stir(&mut self, seat: usize, stirring: Stirring, now: Duration) {
        if let Some(stirred) = self.seats.get_mut(seat) {
            stirred.is_stuck = !stirring.is_writable;
            stirred.is_ending |= stirring.is_ending;
        }
        self.queue(seat, now);
    }

    /// The seat's client waits. If its end has come, one more turn reads it: the system doesn't tell of it again.
    pub(crate) fn rest(&mut self, seat: usize, now: Duration) {
        let Some(resting) = self.seats.get_mut(seat) else {
            return;
        };
        if mem::take(&mut resting.is_ending) {
            self.queue(seat, now);
        }
    }

    /// The seat's client sent something, and more may be there.
    pub(crate) fn go_on(&mut self, seat: usize, now: Duration) {
        self.queue(seat, now);
    }

    /// The seat that has the next turn; none if none is to have one.
    pub(crate) fn next_turn(&mut self) -> Option<usize> {
        let seat = self.queue.pop_front()?;
        if let Some(called) = self.seats.get_mut(seat) {
            called.is_queued = false;
        }
        Some(seat)
    }

    /// All seats are to be looked at again.
    pub(crate) fn look_again(&mut self) {
        self.looked = 0;
    }

    /// The next seat, of those that are to be looked at, whose client was last heard before this time; none if there is none.
    pub(crate) fn next_silent(&mut self, before: Duration) -> Option<usize> {
        let next = self.looked;
        for seat in next..self.seats.len() {
            self.looked = seat + 1;
            if self.seats[seat].is_taken && self.seats[seat].heard < before {
                return Some(seat);
            }
        }
        None
    }
}
