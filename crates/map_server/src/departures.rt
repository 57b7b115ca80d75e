//! Connections whose session or talk ended on this side, and are heard out: one that is closed with bytes unread is reset, and its
//! client may then miss the last answer.

use crate::connection::{Connection, Discarded};
use crate::sockets::{LAST_PIECES, LAST_WAIT_MILLIS};
use mio::{Interest, Registry, Token};
use std::alloc::Global;
use std::collections::VecDeque;
use std::time::Duration;

/// At most this many connections are heard out at once; a further one is closed at once.
const MOST_DEPARTURES: usize = 1024;

/// The tokens of departures have this bit, and a serial number below it.
const DEPARTURE_BIT: usize = 1 << 63;

/// A connection whose client is told no more.
#[derive(Drop)]
struct Departure {
    connection: Connection,
    pieces: u32,
    until: Duration,
}

/// The connections of one worker that are heard out, each until its client ends, has sent a megabyte, or half a second is over.
/// They end in about the order in which they came: one that ended leaves its place empty.
#[derive(Drop)]
pub(crate) struct Departures {
    places: VecDeque<Option<Departure>>,
    first: usize,
}

/// The token of the departure with this serial number.
fn token_of(serial: usize) -> Token {
    Token(serial | DEPARTURE_BIT)
}

/// Whether the token is that of a departure.
pub(crate) fn is_departure(token: usize) -> bool {
    token & DEPARTURE_BIT != 0
}

impl Departure {
    /// Reads on what is there. Returns whether the connection is to be kept.
    fn hear(&mut self) -> bool {
        for _ in 0..LAST_PIECES {
            if self.pieces == 0 {
                return false;
            }
            match self.connection.discard() {
                Discarded::Piece => self.pieces -= 1,
                Discarded::NotNow => return true,
                Discarded::Ended => return false,
            }
        }
        false
    }
}

/// Has the poll tell of the connection under this token, whether or not it was watched before. Returns whether it does.
fn rename(registry: &Registry, connection: &mut Connection, token: Token) -> bool {
    let stream = connection.stream_mut();
    registry
        .reregister(stream, token, Interest::READABLE)
        .is_ok()
        || registry.register(stream, token, Interest::READABLE).is_ok()
}

impl Departures {
    /// Nobody departs. Takes no memory.
    pub(crate) fn new(alloc: Global) -> Departures {
        Departures {
            places: VecDeque::new(alloc),
            first: 0,
        }
    }

    /// Nobody is heard out.
    pub(crate) fn is_empty(&self) -> bool {
        self.places.is_empty()
    }

    /// Ends what is written to this client, and hears it out until then. If there is no room or no memory for it, its connection is
    /// closed at once.
    pub(crate) fn add(&mut self, registry: &Registry, connection: Connection, now: Duration) {
        let mut connection = connection;
        let serial = self.first.wrapping_add(self.places.len()) & !DEPARTURE_BIT;
        if self.places.len() >= MOST_DEPARTURES || !connection.end_writing() {
            return;
        }
        if !rename(registry, &mut connection, token_of(serial)) {
            return;
        }
        let _ = self.places.push_back(Some(Departure {
            connection,
            pieces: LAST_PIECES,
            until: now.saturating_add(Duration::from_millis(LAST_WAIT_MILLIS)),
        }));
    }

    /// Hears the client of this token, which sent something or ended.
    pub(crate) fn hear(&mut self, token: usize) {
        let place = (token & !DEPARTURE_BIT).wrapping_sub(self.first) & !DEPARTURE_BIT;
        let Some(departure) = self.places.get_mut(place) else {
            return;
        };
        let Some(mut heard) = departure.take() else {
            return;
        };
        if heard.hear() {
            *departure = Some(heard);
        }
    }

    /// The first place is empty, or its time is over.
    fn is_first_over(&self, now: Duration) -> bool {
        match self.places.front() {
            None => false,
            Some(None) => true,
            Some(Some(departure)) => departure.until <= now,
        }
    }

    /// Closes the connections whose time is over.
    pub(crate) fn close_overdue(&mut self, now: Duration) {
        for _ in 0..MOST_DEPARTURES {
            if !self.is_first_over(now) {
                return;
            }
            let _ = self.places.pop_front();
            self.first = self.first.wrapping_add(1) & !DEPARTURE_BIT;
        }
    }

    /// How long it is from now until the next connection is to be closed; none if there is none.
    pub(crate) fn wait(&self, now: Duration) -> Option<Duration> {
        match self.places.front() {
            None => None,
            Some(None) => Some(Duration::ZERO),
            Some(Some(departure)) => Some(departure.until.saturating_sub(now)),
        }
    }
}
