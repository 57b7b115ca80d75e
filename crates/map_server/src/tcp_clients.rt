//! The clients of one worker, over the system's epoll.

use crate::connection::Connection;
use crate::departures::{Departures, is_departure};
use crate::door::sooner;
use crate::doors::Doors;
use crate::entrance::{Arrival, Entrance, Look};
use crate::ports::{COMMANDS_PORT, FRAMES_PORT, WAKE};
use crate::roll::Roll;
use crate::seats::{Seats, Stirring};
use crate::stopwatch::Stopwatch;
use crate::sweeps::Sweeps;
use bin_stripes::Pass;
use bpf_model::NoMemory;
use crews::{Clients, Event, NextSweep, Parting, Protocol, Standing, Tokens};
use devices::Sink;
use mio::{Events, Interest, Poll, Token};
use sessions::SessionEnd;
use std::alloc::Global;
use std::io;
use std::rt::Clock;
use std::sync::Wait;
use std::time::Duration;

/// At most this many connections are told of at once.
const MOST_EVENTS: usize = 256;

/// How long it is between two looks for silent clients, in milliseconds.
const LOOK_MILLIS: u64 = 500;

/// The clients of one worker, of both ports. It takes them from the entrance, tells which has a turn, lets silent ones go, has the
/// worker sweep, and hears out those whose session or talk ended on this side. What the system tells is no premise of it: a seat that it
/// tells of for no reason has a turn for nothing.
#[derive(Drop)]
pub(crate) struct TcpClients<'a, 'b, 'c, H: Wait + Clock, E: Sink> {
    entrance: &'a Entrance<'b, 'c, H, E>,
    worker: u32,
    poll: Poll,
    events: Events,
    stopwatch: Stopwatch<'b, H>,
    seats: Seats,
    clients: u64,
    turns: usize,
    doors: Doors,
    departures: Departures,
    next_look: Duration,
    sweeps: Sweeps,
    roll: Roll<'a>,
    /// The time of day when the stopwatch began, in milliseconds since the epoch.
    began: u64,
}

impl<'a, 'b, 'c, H: Wait + Clock, E: Sink> TcpClients<'a, 'b, 'c, H, E> {
    /// The clients of this worker, which come in by this entrance. The poll watches its ports. `NoMemory` if a request for memory
    /// was refused.
    pub(crate) fn new(
        alloc: Global,
        entrance: &'a Entrance<'b, 'c, H, E>,
        worker: u32,
        poll: Poll,
    ) -> Result<TcpClients<'a, 'b, 'c, H, E>, NoMemory> {
        Ok(TcpClients {
            entrance,
            worker,
            poll,
            events: Events::with_capacity(alloc, MOST_EVENTS)?,
            stopwatch: Stopwatch::new(entrance.arrivals.rt),
            seats: Seats::new(alloc),
            clients: 0,
            turns: 0,
            doors: Doors::of(&entrance.ports),
            departures: Departures::new(alloc),
            next_look: Duration::ZERO,
            sweeps: Sweeps::new(),
            roll: Roll::new(alloc, entrance.state, worker),
            began: entrance.wall_clock.look(),
        })
    }

    /// How long a client may be silent; none: for ever.
    fn idle(&self) -> Option<Duration> {
        let seconds = self.entrance.arrivals.limits.idle?;
        Some(Duration::from_secs(seconds))
    }

    /// The seat of the next client that was silent for too long.
    fn next_silent(&mut self) -> Option<usize> {
        let idle = self.idle()?;
        let before = self.stopwatch.now().saturating_sub(idle);
        self.seats.next_silent(before)
    }

    /// The seat that has the next turn, if it is had before the system is asked again.
    fn next_turn(&mut self) -> Option<usize> {
        self.turns = self.turns.checked_sub(1)?;
        self.seats.next_turn()
    }

    /// The next client that comes in by the port of this protocol, if one is looked for now.
    fn next_of(&mut self, protocol: Protocol) -> Option<Connection> {
        let now = self.stopwatch.now();
        let worker = self.worker;
        for _ in 0..u64::MAX {
            let is_its_turn = self.entrance.is_turn_of(self.clients);
            let door = self.doors.door(protocol);
            if !door.looks(is_its_turn, now) {
                return None;
            }
            let look = Look { worker, protocol };
            match self.entrance.next(look, &mut door.patience) {
                Arrival::Came(connection) => {
                    self.clients = self.clients.saturating_add(1);
                    return Some(connection);
                }
                Arrival::Refused(connection) => {
                    self.departures.add(self.poll.registry(), connection, now)
                }
                Arrival::Again => {}
                Arrival::After(wait) => door.close_until(now.saturating_add(wait)),
                Arrival::Nobody => door.quiet(),
                Arrival::Never => self.doors.shut(),
            }
        }
        None
    }

    /// The next client that comes in, if one is looked for now.
    fn next_client(&mut self) -> Option<Event<Connection>> {
        for protocol in [Protocol::Frames, Protocol::Commands] {
            if let Some(connection) = self.next_of(protocol) {
                self.roll.expect(protocol);
                return Some(Event::Came(connection, protocol));
            }
        }
        None
    }

    /// The time of day when the clock was last looked at, in milliseconds since the epoch.
    fn time_of_day(&self) -> u64 {
        let gone = u64::try_from(self.stopwatch.now().as_millis()).unwrap_or(u64::MAX);
        self.began.saturating_add(gone)
    }

    /// Hears whether clients are to be let go. If so, no other worker waits any longer.
    fn hear_kills(&mut self) {
        if self.roll.hears_kills() {
            self.entrance.wake_all();
        }
    }

    /// What is to be done now for a client; none if the system is to be asked.
    fn client_at_hand(&mut self) -> Option<Event<Connection>> {
        if let Some(seat) = self.roll.next_killed() {
            return Some(Event::LetGo(seat));
        }
        if let Some(seat) = self.next_silent() {
            return Some(Event::LetGo(seat));
        }
        if let Some(came) = self.next_client() {
            return Some(came);
        }
        if let Some(seat) = self.next_turn() {
            return Some(Event::Ready(seat));
        }
        None
    }

    /// What is to be done now; none if the system is to be asked.
    fn event_at_hand(&mut self) -> Option<Event<Connection>> {
        if self.sweeps.begins(self.stopwatch.now()) {
            return Some(Event::Sweep);
        }
        let event = self.client_at_hand()?;
        self.sweeps.turn_given();
        Some(event)
    }

    /// The server is to end. If so, no other worker waits any longer.
    fn is_ending(&self) -> bool {
        let is_ending = self.entrance.state.is_ending();
        if is_ending {
            self.entrance.wake_all();
        }
        is_ending
    }

    /// No client is there, and none will come.
    fn is_over(&self) -> bool {
        self.doors.are_shut() && self.clients == 0 && self.departures.is_empty()
    }

    /// How long the system may be waited for; none: for ever.
    fn timeout(&self) -> Option<Duration> {
        if self.seats.queued() > 0 {
            return Some(Duration::ZERO);
        }
        let now = self.stopwatch.now();
        let look = match self.entrance.arrivals.limits.idle {
            Some(_) if self.clients > 0 => Some(self.next_look.saturating_sub(now)),
            _ => None,
        };
        let edge = sooner(self.doors.wait(now), self.departures.wait(now));
        sooner(edge, sooner(look, self.sweeps.wait(now)))
    }

    /// Looks at the clocks that are needed.
    fn look(&mut self) {
        self.stopwatch.look();
        if self.sweeps.needs_clock() {
            self.sweeps.hear(self.entrance.wall_clock.look());
        }
    }

    /// Waits until the system tells of a connection, or something is to be done.
    fn wait(&mut self) -> io::Result<()> {
        let timeout = self.timeout();
        self.poll.poll(&mut self.events, timeout)?;
        self.look();
        let now = self.stopwatch.now();
        for event in self.events.iter() {
            let token = event.token();
            if token == FRAMES_PORT {
                self.doors.door(Protocol::Frames).knock();
            } else if token == COMMANDS_PORT {
                self.doors.door(Protocol::Commands).knock();
            } else if is_departure(token.0) {
                self.departures.hear(token.0);
            } else if token != WAKE {
                let stirring = Stirring {
                    is_writable: event.is_writable(),
                    is_ending: event.is_read_closed(),
                };
                self.seats.stir(token.0, stirring, now);
            }
        }
        Ok(())
    }

    /// Begins a round: everything that the system told of has its turn in it.
    fn begin_round(&mut self) {
        let now = self.stopwatch.now();
        self.departures.close_overdue(now);
        self.doors.begin_round(now);
        self.sweeps.turn_given();
        // A client whose piece filled the room, or whose end has come, has a second turn: no need to ask the system between them.
        self.turns = self.seats.queued().saturating_mul(2);
        // If it may not have told of all, somebody may seem silent who is not.
        let has_told_all = self.events.iter().len() < MOST_EVENTS;
        if has_told_all && self.next_look <= now {
            self.seats.look_again();
            self.next_look = now.saturating_add(Duration::from_millis(LOOK_MILLIS));
        }
    }
}

/// Whether a client that left so is heard out: its session or talk ended on this side, and it may not have read what it was told last.
fn is_heard_out(parting: Parting) -> bool {
    matches!(
        parting,
        Parting::NotKept
            | Parting::Over
            | Parting::Ended(SessionEnd::Refused(_) | SessionEnd::NoMemory)
    )
}

impl<'a, 'b, 'c, H: Wait + Clock, E: Sink> Clients<Connection> for TcpClients<'a, 'b, 'c, H, E> {
    fn next(&mut self, _pass: &Pass, sweep: NextSweep) -> Event<Connection> {
        self.sweeps.want(sweep);
        for _ in 0..u64::MAX {
            if self.is_ending() {
                return Event::Over;
            }
            self.hear_kills();
            if let Some(event) = self.event_at_hand() {
                return event;
            }
            if self.is_over() {
                return Event::Over;
            }
            if let Err(error) = self.wait() {
                self.entrance.arrivals.tell_failure(self.worker, &error);
                return Event::Over;
            }
            self.begin_round();
        }
        Event::Over
    }

    fn now(&mut self) -> u64 {
        let now = self.entrance.wall_clock.look();
        self.sweeps.hear(now);
        now
    }

    fn watch(&mut self, seat: usize, channel: &mut Connection) -> Result<(), NoMemory> {
        self.seats.take(seat, self.stopwatch.now())?;
        let entrance = self.entrance;
        let rt = entrance.arrivals.rt;
        let now = self.time_of_day();
        if self.roll.come(rt, seat, channel, now).is_err() {
            self.seats.leave(seat);
            return Err(NoMemory);
        }
        let interest = Interest::READABLE | Interest::WRITABLE;
        let stream = channel.stream_mut();
        match self.poll.registry().register(stream, Token(seat), interest) {
            Ok(()) => {
                self.roll.keep();
                Ok(())
            }
            Err(_) => {
                self.seats.leave(seat);
                self.roll.leave(rt, seat);
                Err(NoMemory)
            }
        }
    }

    fn served(&mut self, seat: usize, standing: Standing) {
        let now = self.time_of_day();
        self.roll.served(seat, now);
        match standing {
            Standing::Again => self.seats.go_on(seat, self.stopwatch.now()),
            Standing::Waits => self.seats.rest(seat, self.stopwatch.now()),
        }
    }

    fn ended(
        &mut self,
        _pass: &Pass,
        seat: Option<usize>,
        channel: Connection,
        _tokens: Tokens<'_>,
        parting: Parting,
    ) {
        let entrance = self.entrance;
        let rt = entrance.arrivals.rt;
        if let Some(seat) = seat {
            self.seats.leave(seat);
            self.roll.leave(rt, seat);
        }
        self.clients = self.clients.saturating_sub(1);
        self.entrance.arrivals.leaves();
        self.entrance.state.counts_of(self.worker).count_leaving();
        if is_heard_out(parting) {
            self.departures
                .add(self.poll.registry(), channel, self.stopwatch.now());
        }
    }
}
