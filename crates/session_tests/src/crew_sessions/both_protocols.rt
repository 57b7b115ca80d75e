//! One worker serves a client of frames and a client of commands, by turns, on one map.
ghost use Rattle.crews.specs.Crews.{IsCrewOf};

use super::on_crews;
use bin_stripes::{OpenGate, Pass, StripedMap};
use bpf_model::NoMemory;
use crews::{Clients, Crew, Event, NextSweep, Parting, Protocol, Standing, Tokens, Worker, attend};
use devices::{Channel, Received, Sent};
use map_server::SessionEnd;
use program_registry::Registry;
use redis_scripts::Scripts;
use server_state::ServerState;
use std::alloc::Global;
use std::sync::Wait;
use std::test::Fail;
use std::thread::Threads;

/// A Hello, and a Put of two bytes under the key `a`.
const PUT: &[u8] = b"\0\0\0\x02\0\x01\0\0\0\x07\x11\x01a\0\x02xy";

const PUT_DONE: &[u8] = b"\0\0\0\x02\x80\x01\0\0\0\x03\x82\xFF\xFF";

/// The command that asks for that key.
const GET: &[u8] = b"*2\r\n$3\r\nGET\r\n$1\r\na\r\n";

const GOT: &[u8] = b"$2\r\nxy\r\n";

/// A connection in memory: it gives its bytes and ends, and keeps what is sent to it.
#[derive(Drop)]
pub(super) struct Line {
    rest: &'static [u8],
    pub(super) sent: Vec<u8>,
}

impl Line {
    /// The connection of a client that sends these bytes.
    pub(super) fn new(alloc: Global, rest: &'static [u8]) -> Line {
        Line {
            rest,
            sent: Vec::new(alloc),
        }
    }
}

impl Channel for Line {
    ghost use Rattle.std.specs.Prelude.{None};

    ghost state = { λ _. record { left = None; held = None } };

    fn receive(&mut self, room: &mut [u8]) -> Received {
        let rest = self.rest;
        let n = rest.len().min(room.len());
        if n == 0 {
            return Received::Ended;
        }
        room[..n].copy_from_slice(&rest[..n]);
        self.rest = &rest[n..];
        Received::Bytes(n)
    }

    fn send(&mut self, bytes: &[u8]) -> Sent {
        match self.sent.extend_from_slice(bytes) {
            Ok(()) => Sent::Took(bytes.len()),
            Err(_) => Sent::Failed,
        }
    }
}

/// Two clients, which come one after the other, and then have their turns.
#[derive(Drop)]
struct Two {
    alloc: Global,
    told: u8,
    served: u8,
}

impl Clients<Line> for Two {
    fn next(&mut self, _pass: &Pass, _sweep: NextSweep) -> Event<Line> {
        let told = self.told;
        self.told = told.saturating_add(1);
        match told {
            0 => Event::Came(Line::new(self.alloc, PUT), Protocol::Frames),
            1 => Event::Came(Line::new(self.alloc, GET), Protocol::Commands),
            2 | 4 => Event::Ready(0),
            3 | 5 => Event::Ready(1),
            _ => Event::Over,
        }
    }

    fn now(&mut self) -> u64 {
        0
    }

    fn watch(&mut self, _seat: usize, _channel: &mut Line) -> Result<(), NoMemory> {
        Ok(())
    }

    fn served(&mut self, _seat: usize, _standing: Standing) {}

    fn ended(
        &mut self,
        _pass: &Pass,
        seat: Option<usize>,
        channel: Line,
        _tokens: Tokens<'_>,
        parting: Parting,
    ) {
        let answers = if seat == Some(0) { PUT_DONE } else { GOT };
        let is_closed = parting == Parting::Ended(SessionEnd::Closed);
        if is_closed && channel.sent.as_slice() == answers {
            self.served = self.served.saturating_add(1);
        }
    }
}

/// Attends both clients. Tells whether both were served.
fn are_served<H: AllocGlobal + Threads + Wait + Sync>(
    rt: &H,
    map: &StripedMap,
    crew: Crew,
) -> Result<bool, Fail>
    requires { IsCrewOf map.now crew }
{
    let alloc = rt.alloc();
    let registry = Registry::new(alloc)?;
    let scripts = Scripts::new(alloc, &registry);
    let state = ServerState::new(alloc, 1, false, 0)?;
    let worker = Worker {
        rt,
        alloc,
        gate: &OpenGate,
        map,
        registry: &registry,
    };
    let mut clients = Two {
        alloc,
        told: 0,
        served: 0,
    };
    let _ = attend(&worker, &scripts, &state, &mut clients, crew);
    Ok(clients.served == 2)
}

#[test]
fn one_worker_serves_both_protocols(rt: HostRuntime) -> Result<(), Fail> {
    let served = on_crews(
        rt.alloc(),
        |map: &StripedMap, one: Crew, _: Crew, _: Pass| -> Result<bool, Fail>
            requires { IsCrewOf map.now one }
        { are_served(&rt, map, one) },
    )?;
    assert!(&rt; served);
    Ok(())
}
