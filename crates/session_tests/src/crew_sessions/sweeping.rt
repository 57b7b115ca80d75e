//! A worker that is told so takes an entry out of the map whose time is over, by the clock of its clients.
ghost use Rattle.crews.specs.Crews.{IsCrewOf};

use super::both_protocols::Line;
use super::on_crews;
use bin_stripes::{OpenGate, Pass, StripedMap};
use bpf_model::NoMemory;
use crews::{
    Clients, Crew, Event, NextSweep, Parting, Post, Protocol, Standing, Tokens, Worker, attend_each,
};
use program_registry::Registry;
use redis_scripts::Scripts;
use server_state::ServerState;
use std::alloc::Global;
use std::sync::Wait;
use std::test::Fail;
use std::thread::Threads;

/// The command that sets the key `a` for 5 milliseconds.
const SET: &[u8] = b"*5\r\n$3\r\nSET\r\n$1\r\na\r\n$1\r\nx\r\n$2\r\nPX\r\n$1\r\n5\r\n";

const SET_DONE: &[u8] = b"+OK\r\n";

/// The command that asks for the number of keys, also of those whose time is over.
const COUNT: &[u8] = b"*1\r\n$6\r\nDBSIZE\r\n";

const NONE_LEFT: &[u8] = b":0\r\n";

/// The time when the key is set.
const BEGIN: u64 = 1000;

/// A client that sets the key, one that counts the keys when the worker has swept, and when it wanted to sweep before and after that.
#[derive(Drop)]
struct Swept {
    alloc: Global,
    told: u8,
    time: u64,
    before: NextSweep,
    after: NextSweep,
    served: u8,
}

impl Clients<Line> for Swept {
    fn next(&mut self, _pass: &Pass, sweep: NextSweep) -> Event<Line> {
        let told = self.told;
        self.told = told.saturating_add(1);
        match told {
            0 => Event::Came(Line::new(self.alloc, SET), Protocol::Commands),
            1 | 2 => Event::Ready(0),
            3 => {
                self.before = sweep;
                self.time = BEGIN + 5;
                Event::Sweep
            }
            4 => {
                self.after = sweep;
                Event::Came(Line::new(self.alloc, COUNT), Protocol::Commands)
            }
            5 | 6 => Event::Ready(0),
            _ => Event::Over,
        }
    }

    fn now(&mut self) -> u64 {
        self.time
    }

    fn watch(&mut self, _seat: usize, _channel: &mut Line) -> Result<(), NoMemory> {
        Ok(())
    }

    fn served(&mut self, _seat: usize, _standing: Standing) {}

    fn ended(
        &mut self,
        _pass: &Pass,
        _seat: Option<usize>,
        channel: Line,
        _tokens: Tokens<'_>,
        _parting: Parting,
    ) {
        let answers = if self.told < 4 { SET_DONE } else { NONE_LEFT };
        if channel.sent.as_slice() == answers {
            self.served = self.served.saturating_add(1);
        }
    }
}

/// Attends both clients. Tells whether the same crew came back, both were served, and the worker wanted to sweep just at the time
/// of the key.
fn is_swept<H: AllocGlobal + Threads + Wait + Sync>(
    rt: &H,
    map: &StripedMap,
    crew: Crew,
) -> Result<bool, Fail>
    requires { IsCrewOf map.now crew }
{
    let alloc = rt.alloc();
    let registry = Registry::new(alloc)?;
    let scripts = Scripts::new(alloc, &registry);
    let state = ServerState::new(alloc, 1, false, 0)?;
    let worker = Worker {
        rt,
        alloc,
        gate: &OpenGate,
        map,
        registry: &registry,
    };
    let clients = Swept {
        alloc,
        told: 0,
        time: BEGIN,
        before: NextSweep::Now,
        after: NextSweep::Now,
        served: 0,
    };
    let number = crew.worker;
    let mut posts = Vec::with_capacity(alloc, 1)?;
    posts.push_reserved(Post { crew, clients });
    let mut back = attend_each(&worker, &scripts, &state, posts)?;
    let Post { crew, clients } = back.pop().ok_or("nobody came back")?;
    let in_time = clients.before == NextSweep::At(BEGIN + 5) && clients.after == NextSweep::Never;
    Ok(crew.into_crew().worker == number && clients.served == 2 && in_time)
}

#[test]
fn a_worker_sweeps(rt: HostRuntime) -> Result<(), Fail> {
    let swept = on_crews(
        rt.alloc(),
        |map: &StripedMap, one: Crew, _: Crew, _: Pass| -> Result<bool, Fail>
            requires { IsCrewOf map.now one }
        { is_swept(&rt, map, one) },
    )?;
    assert!(&rt; swept);
    Ok(())
}
