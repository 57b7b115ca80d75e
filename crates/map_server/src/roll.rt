//! What a worker tells the server's table of its own clients.

use crate::connection::Connection;
use bpf_model::NoMemory;
use crews::Protocol;
use server_state::{ClientPulse, ClientView, ServerState, client_number, client_text};
use std::alloc::Global;
use std::sync::{Arc, Wait};

/// One of the worker's clients.
#[derive(Drop)]
struct Member {
    pulse: Arc<ClientPulse, Global>,
    has_commands: bool,
}

/// A worker's clients by their seats, as the table of all clients has them. Times are in milliseconds since the epoch.
#[derive(Drop)]
pub(crate) struct Roll<'a> {
    alloc: Global,
    state: &'a ServerState,
    worker: u32,
    members: Vec<Option<Member>>,
    came: u64,
    /// The protocol of the client that came last.
    protocol: Protocol,
    kills: u64,
    /// The seats before this one have no client that is to be let go.
    looked: usize,
}

impl<'a> Roll<'a> {
    /// Nobody came to this worker yet. Takes no memory.
    pub(crate) fn new(alloc: Global, state: &'a ServerState, worker: u32) -> Roll<'a> {
        Roll {
            alloc,
            state,
            worker,
            members: Vec::new(alloc),
            came: 0,
            protocol: Protocol::Frames,
            kills: 0,
            looked: usize::MAX,
        }
    }

    /// The client that comes next speaks this protocol.
    pub(crate) fn expect(&mut self, protocol: Protocol) {
        self.protocol = protocol;
    }

    /// What is listed of the client that came last, at this time.
    fn view(&self, connection: &Connection, now: u64) -> ClientView {
        let mut view = ClientView::stranger(client_number(self.worker, self.came));
        view.has_commands = matches!(self.protocol, Protocol::Commands);
        view.address = connection.address(self.alloc);
        view.local_address = connection.local_address(self.alloc);
        view.descriptor = connection.descriptor();
        view.came = now;
        view.heard = now;
        view
    }

    /// Makes room for this seat.
    fn make_room(&mut self, seat: usize) -> Result<(), NoMemory> {
        for _ in self.members.len()..=seat {
            self.members.push(None)?;
        }
        Ok(())
    }

    /// The client that came last takes this seat at this time. `NoMemory` if a request for memory was refused.
    pub(crate) fn come<H: Wait>(
        &mut self,
        rt: &H,
        seat: usize,
        connection: &Connection,
        now: u64,
    ) -> Result<(), NoMemory> {
        self.make_room(seat)?;
        let view = self.view(connection, now);
        let has_commands = view.has_commands;
        let clients = self.state.clients();
        let pulse = clients.come(rt, self.alloc, (self.worker, seat), view)?;
        if let Some(place) = self.members.get_mut(seat) {
            *place = Some(Member {
                pulse,
                has_commands,
            });
        }
        Ok(())
    }

    /// The client that came last is kept.
    pub(crate) fn keep(&mut self) {
        self.came = self.came.wrapping_add(1);
    }

    /// The client of this seat left.
    pub(crate) fn leave<H: Wait>(&mut self, rt: &H, seat: usize) {
        if let Some(place) = self.members.get_mut(seat) {
            *place = None;
        }
        self.state.clients().leave(rt, self.worker, seat);
    }

    /// The client of this seat had a turn at this time.
    pub(crate) fn served(&self, seat: usize, now: u64) {
        let Some(Some(member)) = self.members.get(seat) else {
            return;
        };
        let command = if member.has_commands {
            self.state.counts_of(self.worker).last_command()
        } else {
            0
        };
        member.pulse.beat(now, command);
    }

    /// Tests whether clients are to be let go since the last look. If so, all seats are looked at again.
    pub(crate) fn hears_kills(&mut self) -> bool {
        let kills = self.state.clients().kills();
        if kills == self.kills {
            return false;
        }
        self.kills = kills;
        self.looked = 0;
        true
    }

    /// Tests whether the client of this seat is to be let go.
    fn is_killed(&self, seat: usize) -> bool {
        match self.members.get(seat) {
            Some(Some(member)) => member.pulse.is_killed(),
            _ => false,
        }
    }

    /// The next seat whose client is to be let go; none if there is none. A client that is still there when it is told again was not
    /// read so far, and is given up then.
    pub(crate) fn next_killed(&mut self) -> Option<usize> {
        for seat in self.looked..self.members.len() {
            self.looked = seat;
            if self.is_killed(seat) {
                return Some(seat);
            }
        }
        self.looked = usize::MAX;
        None
    }
}
