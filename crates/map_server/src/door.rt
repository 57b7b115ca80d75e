//! When a worker looks for its next client.

use crate::patience::Patience;
use std::time::Duration;

/// At most this many clients are let in before the others have a turn again, so that the workers share those that come at once.
const MOST_LOOKS: u32 = 64;

/// A worker that has more clients than others leaves a new one to them for this long, in milliseconds.
const COURTESY_MILLIS: u64 = 1;

/// How a worker stands with a port.
#[derive(Clone, Copy, Debug, PartialEq, Eq)]
enum State {
    /// Nobody waits, as far as is known.
    Quiet,
    /// Somebody may wait, for whichever worker has the fewest clients.
    Knocked,
    /// Somebody may wait, and was left to others for long enough.
    Left,
    /// There is no look before this time.
    Until(Duration),
    /// The worker takes no further client.
    Shut,
}

/// The shorter of two times; none is for ever.
pub(crate) fn sooner(one: Option<Duration>, other: Option<Duration>) -> Option<Duration> {
    match (one, other) {
        (Some(one), Some(other)) => Some(one.min(other)),
        (one, None) => one,
        (None, other) => other,
    }
}

/// A worker's door to a port: when it looks for its next client, and how long it waited for what was wanting.
#[derive(Drop)]
pub(crate) struct Door {
    state: State,
    looks: u32,
    pub(crate) patience: Patience,
}

impl Door {
    /// Somebody may wait.
    pub(crate) fn new() -> Door {
        Door {
            state: State::Knocked,
            looks: MOST_LOOKS,
            patience: Patience::new(),
        }
    }

    /// Somebody may wait, if clients are still taken.
    pub(crate) fn knock(&mut self) {
        if self.state == State::Quiet {
            self.state = State::Knocked;
        }
    }

    /// Nobody waits.
    pub(crate) fn quiet(&mut self) {
        self.state = State::Quiet;
    }

    /// There is no look before this time.
    pub(crate) fn close_until(&mut self, time: Duration) {
        self.state = State::Until(time);
    }

    /// The worker takes no further client.
    pub(crate) fn shut(&mut self) {
        self.state = State::Shut;
    }

    /// The worker takes no further client.
    pub(crate) fn is_shut(&self) -> bool {
        self.state == State::Shut
    }

    /// The worker's clients have had their turns, and it is this time.
    pub(crate) fn begin_round(&mut self, now: Duration) {
        let state = self.state;
        self.state = match state {
            State::Until(time) if time <= now => State::Left,
            State::Left if self.looks == 0 => State::Knocked,
            other => other,
        };
        self.looks = MOST_LOOKS;
    }

    /// Whether the worker looks for a client now. `is_its_turn` says that it has no more clients than others.
    pub(crate) fn looks(&mut self, is_its_turn: bool, now: Duration) -> bool {
        let goes = match self.state {
            State::Left => true,
            State::Knocked => is_its_turn,
            _ => return false,
        };
        if !goes {
            self.close_until(now.saturating_add(Duration::from_millis(COURTESY_MILLIS)));
            return false;
        }
        let looks = self.looks > 0;
        self.looks = self.looks.saturating_sub(1);
        looks
    }

    /// How long it is from now until the next look; none if a knock is waited for.
    pub(crate) fn wait(&self, now: Duration) -> Option<Duration> {
        match self.state {
            State::Knocked | State::Left => Some(Duration::ZERO),
            State::Until(time) => Some(time.saturating_sub(now)),
            State::Quiet | State::Shut => None,
        }
    }
}
