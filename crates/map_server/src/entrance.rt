//! What the workers share: the ports, and what is counted and told of those who come.
ghost use Rattle.std.specs.Prelude.{◌≡◌};

use crate::arrivals::{Arrivals, Then};
use crate::connection::Connection;
use crate::patience::{Patience, is_of_descriptors};
use crate::ports::Ports;
use crate::quotas::Quotas;
use crate::telling::Telling;
use crate::wall_clock::WallClock;
use crews::Protocol;
use devices::Sink;
use mio::Waker;
use server_state::ServerState;
use std::io::{self, ErrorKind};
use std::os::fd::{AsFd, OwnedFd};
use std::rt::Clock;
use std::sync::{Mutex, Wait};
use std::time::Duration;

/// A worker's look at the port of a protocol.
#[derive(Clone, Copy, Debug, PartialEq, Eq)]
pub(crate) struct Look {
    pub(crate) worker: u32,
    pub(crate) protocol: Protocol,
}

/// What a look for the next client gave.
#[derive(Drop)]
pub(crate) enum Arrival {
    /// A client.
    Came(Connection),
    /// One for which there is no room. It was told so.
    Refused(Connection),
    /// Nobody, but the next look can be made at once.
    Again,
    /// Nobody, and the next look can be made after this time.
    After(Duration),
    /// Nobody waits.
    Nobody,
    /// The worker takes no further client.
    Never,
}

/// The ports, which every worker watches, and what ends the waits of all of them.
#[derive(Drop)]
pub(crate) struct Gates {
    pub(crate) ports: Ports,
    /// One for each worker, if the server may be told to end.
    pub(crate) wakers: Vec<Waker>,
}

/// The ports, which every worker watches; what is counted and told of clients, whichever port they came to; the time of day; how many
/// sessions the workers may begin; what all threads know of the server; and a descriptor in reserve, so that one client more than there
/// are descriptors for can be told.
#[derive(Drop)]
pub(crate) struct Entrance<'a, 'b, H: Wait + Clock, E: Sink> {
    pub(crate) arrivals: Arrivals<'a, 'b, H, E>,
    pub(crate) ports: Ports,
    pub(crate) wall_clock: WallClock<'a, H>,
    pub(crate) state: &'a ServerState,
    wakers: Vec<Waker>,
    quotas: Quotas,
    spare: Mutex<Option<OwnedFd>>,
}

/// A descriptor in reserve, a second one of a listener; none if the system has none.
fn spare_of(ports: &Ports) -> Option<OwnedFd> {
    ports.first()?.as_fd().try_clone_to_owned().ok()
}

impl<'a, 'b, H: Wait + Clock, E: Sink> Entrance<'a, 'b, H, E> {
    /// The entrance by these ports, for the workers of these quotas, of those who are counted and told of.
    pub(crate) fn new(
        arrivals: Arrivals<'a, 'b, H, E>,
        state: &'a ServerState,
        gates: Gates,
        quotas: Quotas,
    ) -> Entrance<'a, 'b, H, E>
        ensures ports { result.ports ≡ gates.ports }
        ensures state { result.state.now ≡ state.now }
    {
        let Gates { ports, wakers } = gates;
        let spare = Mutex::new(spare_of(&ports));
        let wall_clock = WallClock::new(arrivals.rt);
        Entrance {
            arrivals,
            ports,
            wall_clock,
            state,
            wakers,
            quotas,
            spare,
        }
    }

    /// Ends the waits of all workers.
    pub(crate) fn wake_all(&self) {
        for waker in self.wakers.iter() {
            // If the system refuses it, that worker ends when something else ends its wait.
            let _ = waker.wake();
        }
    }

    /// The ports, and what tells standard error.
    pub(crate) fn into_parts(self) -> (Ports, Telling<'b, E>)
        ensures { result.0 ≡ self.entry.ports }
    {
        (self.ports, self.arrivals.into_telling())
    }

    /// Whether a worker with this number of clients has no more than its share of all clients.
    pub(crate) fn is_turn_of(&self, clients: u64) -> bool {
        clients.saturating_mul(self.quotas.workers()) <= self.arrivals.here()
    }

    /// The next connection that waits at the port of this protocol.
    fn accept(&self, protocol: Protocol) -> io::Result<Connection> {
        let Some(listener) = self.ports.listener(protocol) else {
            return Err(io::Error::from(ErrorKind::WouldBlock));
        };
        let (stream, _) = listener.accept()?;
        Ok(Connection::new(stream))
    }

    /// Looks for the worker's next client at a port. One worker accepts at a time: no other one may take the descriptor in reserve
    /// while it is given up to refuse a client.
    pub(crate) fn next(&self, look: Look, patience: &mut Patience) -> Arrival {
        if !self.quotas.has_left(look.worker) {
            return Arrival::Never;
        }
        let mut spare = self.spare.lock(self.arrivals.rt);
        match self.accept(look.protocol) {
            Ok(connection) => {
                self.arrivals.tell_plenty(patience);
                self.keep_spare(&mut *spare);
                self.received(look, connection)
            }
            Err(error) if error.kind() == ErrorKind::WouldBlock => {
                self.arrivals.tell_plenty(patience);
                Arrival::Nobody
            }
            Err(error) => self.after_fault(look, patience, &error, &mut *spare),
        }
    }

    /// A client came. It is counted, if there is room for it.
    fn received(&self, look: Look, connection: Connection) -> Arrival {
        let counts = self.state.counts_of(look.worker);
        counts.count_client();
        if !self.arrivals.comes() {
            counts.count_refused_client();
            connection.refuse(look.protocol);
            return Arrival::Refused(connection);
        }
        self.quotas.begin(look.worker);
        self.arrivals.is_handed_out();
        Arrival::Came(connection)
    }

    /// What follows from the error of an accept.
    fn after_fault(
        &self,
        look: Look,
        patience: &mut Patience,
        error: &io::Error,
        spare: &mut Option<OwnedFd>,
    ) -> Arrival {
        if is_of_descriptors(error)
            && let Some(arrival) = self.refuse_one(look, error, spare)
        {
            return arrival;
        }
        match self.arrivals.after_fault(patience, error) {
            Then::Again => Arrival::Again,
            Then::After(wait) => Arrival::After(wait),
            Then::Never => {
                self.arrivals.tell_failure(look.worker, error);
                Arrival::Never
            }
        }
    }

    /// Takes the descriptor in reserve to tell one client of this port that there is none for it, and closes its connection. None if
    /// that can't be done.
    fn refuse_one(
        &self,
        look: Look,
        error: &io::Error,
        spare: &mut Option<OwnedFd>,
    ) -> Option<Arrival> {
        let descriptor = spare.take()?;
        drop(descriptor);
        let arrival = match self.accept(look.protocol) {
            Ok(connection) => {
                let counts = self.state.counts_of(look.worker);
                counts.count_client();
                counts.count_refused_client();
                connection.refuse(look.protocol);
                let _ = connection.discard();
                self.arrivals.tell_refused(error);
                Some(Arrival::Again)
            }
            Err(error) if error.kind() == ErrorKind::WouldBlock => Some(Arrival::Nobody),
            Err(_) => None,
        };
        *spare = spare_of(&self.ports);
        arrival
    }

    /// Takes a descriptor in reserve again, if it was lost.
    fn keep_spare(&self, spare: &mut Option<OwnedFd>) {
        if spare.is_none() {
            *spare = spare_of(&self.ports);
        }
    }
}
