//! The port at which Prometheus reads the server's numbers.
ghost use Rattle.std.specs.Prelude.{◌≡◌, IfSome, Some, is_some, length};
ghost use Rattle.map_server.specs.Readers.{FitsRoom};

use crate::keeping::Bell;
use crate::sockets::hear_out;
use crate::wall_clock::WallClock;
use arrayvec::ArrayVec;
use bin_stripes::{Pass, StripedMap};
use bins::Occupied;
use crews::request_name;
use itoa::Buffer;
use key_walks::count_all;
use metrics_page::{
    Asked, HEAD_BYTES, Label, Labelled, MOST_COMMANDS, MOST_REFUSALS, MOST_REQUESTS, Numbers,
    answer, asked_by,
};
use mio::net::TcpListener as Watched;
use program_registry::Registry;
use redis_service::{COMMAND_KINDS, command_text};
use server_state::{MOST_KINDS, ServerState, resident_bytes};
use std::io::{ErrorKind, Read, Write};
use std::net::{TcpListener, TcpStream};
use std::rt::Clock;
use std::sync::Wait;
use std::time::{Duration, Instant};

/// How long it is between two looks for readers, and for the server's end, in milliseconds.
const LOOK_MILLIS: u64 = 100;

/// How long a reader may take for its request, and how long it may take nothing of the answer, in milliseconds.
const READER_MILLIS: u64 = 2000;

/// At most this many readers are answered at a look.
const MOST_READERS: u32 = 64;

/// The port for readers, and the pass by which the map's entries are counted.
#[derive(Drop)]
pub(crate) struct Watch {
    listener: TcpListener,
    pub(crate) pass: Pass,
}

impl Watch {
    /// The port and the pass, if both are there.
    pub(crate) fn of(listener: Option<Watched>, pass: Option<Pass>) -> Option<Watch>
        ensures pass { IfSome result (λ watch. pass ≡ Some watch.pass) }
        ensures there { is_some listener ≡ is_some pass → is_some result ≡ is_some pass }
    {
        match (listener, pass) {
            (Some(listener), Some(pass)) => Some(Watch {
                listener: TcpListener::from(listener),
                pass,
            }),
            _ => None,
        }
    }
}

/// What a look at a reader's bytes gave.
#[derive(Clone, Copy, Debug, PartialEq, Eq)]
enum Heard {
    /// This number of further bytes.
    Bytes(usize),
    /// Nothing in this time.
    NotNow,
    /// The reader sends no more.
    Ended,
    /// The connection failed.
    Failed,
}

/// Reads what is there of a reader's request, and waits for it at most this long.
fn hear(mut stream: &TcpStream, room: &mut [u8], most: Duration) -> Heard
    ensures { FitsRoom (length room.old) result }
{
    if stream.set_read_timeout(Some(most)).is_err() {
        return Heard::Failed;
    }
    match stream.read(room) {
        Ok(0) => Heard::Ended,
        Ok(count) => Heard::Bytes(count),
        Err(error) => match error.kind() {
            ErrorKind::WouldBlock | ErrorKind::TimedOut | ErrorKind::Interrupted => Heard::NotNow,
            _ => Heard::Failed,
        },
    }
}

/// A number with this label, as far as there is room for it.
fn labelled(label: &[u8], number: u64) -> Labelled {
    let mut text = Label::new();
    let _ = text.try_extend_from_slice(label);
    Labelled {
        label: text,
        number,
    }
}

/// How many commands came, by their names; without a name those that nobody knows.
fn commands(state: &ServerState) -> ArrayVec<Labelled, MOST_COMMANDS> {
    let mut all = ArrayVec::new();
    let _ = all.try_push(labelled(b"unknown", state.commands_of(0)));
    for noted in 1..=COMMAND_KINDS {
        let name = command_text(noted as u64);
        let _ = all.try_push(labelled(name.as_slice(), state.commands_of(noted)));
    }
    all
}

/// How many requests in frames came, by their names.
fn requests(state: &ServerState) -> ArrayVec<Labelled, MOST_REQUESTS> {
    let mut all = ArrayVec::new();
    for kind in 0..MOST_REQUESTS {
        if let Some(name) = request_name(kind) {
            let _ = all.try_push(labelled(name.as_bytes(), state.requests_of(kind)));
        }
    }
    all
}

/// The refusal that each server tells of, though it may never have come.
const NO_MEMORY: usize = 9;

/// How many requests in frames were refused, by the numbers that came, and how many commands were refused memory.
fn refusals(state: &ServerState, commands: u64) -> ArrayVec<Labelled, MOST_REFUSALS> {
    let mut all = ArrayVec::new();
    let _ = all.try_push(labelled(b"OOM", commands));
    for number in 0..MOST_KINDS {
        let count = state.refused_of(number);
        if count > 0 || number == NO_MEMORY {
            let mut digits = Buffer::new();
            let label = digits.format(number).as_bytes();
            let _ = all.try_push(labelled(label, count));
        }
    }
    all
}

/// Answers readers of the server's numbers, one after the other. It has nothing that clients of the map wait for: a reader that hangs
/// delays other readers alone, two seconds at most.
#[derive(Drop)]
pub(crate) struct Watcher<'a, H: Wait + Clock> {
    rt: &'a H,
    clock: WallClock<'a, H>,
    state: &'a ServerState,
    map: &'a StripedMap,
    registry: &'a Registry,
}

impl<'a, H: Wait + Clock> Watcher<'a, H> {
    /// The numbers are those of this server, its map and its programs.
    pub(crate) fn new(
        rt: &'a H,
        state: &'a ServerState,
        map: &'a StripedMap,
        registry: &'a Registry,
    ) -> Watcher<'a, H>
        ensures { result.map.now ≡ map.now }
    {
        Watcher {
            rt,
            clock: WallClock::new(rt),
            state,
            map,
            registry,
        }
    }

    /// The bytes that all stripes take, one after the other.
    fn occupied(&self, pass: &mut Pass) -> Occupied
        requires { pass.old.map ≡ self.now.map.now }
        ensures { pass.new.map ≡ self.now.map.now }
    {
        let mut all = Occupied::default();
        let stripes = self.map.stripes();
        for stripe in 0..stripes {
            all = all.plus(self.map.occupied(self.rt, pass, stripe));
        }
        all
    }

    /// The server's numbers, as they are now.
    fn numbers(&self, pass: &mut Pass) -> Numbers
        requires { pass.old.map ≡ self.now.map.now }
        ensures { pass.new.map ≡ self.now.map.now }
    {
        let entries = count_all(self.rt, self.map, pass);
        let occupied = self.occupied(pass);
        let state = self.state;
        let counts = state.counts();
        let waits = self.map.waits();
        Numbers {
            entries,
            resident_bytes: resident_bytes().unwrap_or(0),
            clients: counts.clients_here(),
            clients_came: counts.clients_came,
            clients_refused: counts.clients_refused,
            commands: commands(state),
            requests: requests(state),
            walks: counts.walks,
            refusals: refusals(state, counts.refusals),
            expired: counts.expired,
            hits: counts.hits,
            misses: counts.misses,
            last_save_seconds: state.last_save() / 1000,
            is_save_failing: state.is_failing(),
            stripe_waits: waits.times,
            longest_wait_micros: waits.longest_micros,
            longest_hold_micros: self.map.longest_hold_micros(),
            row_bytes: occupied.rows,
            index_bytes: occupied.index,
            program_bytes: self.registry.bytes(self.rt),
            session_bytes: counts.session_bytes,
            uptime_seconds: self.clock.look().saturating_sub(state.began()) / 1000,
        }
    }

    /// How long a reader that came then is waited for now; none if its time is over, or the clock can't be read.
    fn wait_since(&self, came: Instant) -> Option<Duration> {
        let gone = came.elapsed(self.rt).ok()?;
        let left = Duration::from_millis(READER_MILLIS).saturating_sub(gone);
        if left.is_zero() {
            return None;
        }
        Some(left.min(Duration::from_millis(LOOK_MILLIS)))
    }

    /// Reads what a reader asks for. None if it takes too long, the connection fails, or the workers have ended.
    fn asked_of(&self, stream: &TcpStream, bell: &Bell) -> Option<Asked> {
        let came = Instant::now(self.rt).ok()?;
        let mut head = [0; HEAD_BYTES];
        let mut length = 0;
        for _ in 0..u64::MAX {
            if bell.has_rung() {
                return None;
            }
            match hear(stream, &mut head[length..], self.wait_since(came)?) {
                Heard::Bytes(count) => length += count,
                Heard::NotNow => continue,
                Heard::Ended => return Some(Asked::Unreadable),
                Heard::Failed => return None,
            }
            let asked = asked_by(&head[..length]);
            if asked.is_some() {
                return asked;
            }
        }
        None
    }

    /// Answers a reader, and ends its connection.
    fn answer(&self, stream: &TcpStream, pass: &mut Pass, bell: &Bell)
        requires { pass.old.map ≡ self.now.map.now }
        ensures { pass.new.map ≡ self.now.map.now }
    {
        let Some(asked) = self.asked_of(stream, bell) else {
            return;
        };
        let answer = answer(asked, &self.numbers(pass));
        let most = Some(Duration::from_millis(READER_MILLIS));
        let mut writer = stream;
        if stream.set_write_timeout(most).is_ok() && writer.write_all(answer.as_slice()).is_ok() {
            hear_out(self.rt, stream);
        }
    }

    /// Answers the readers that wait. If an accept fails, the others have to wait for the next look.
    fn answer_waiting(&self, watch: &mut Watch, bell: &Bell)
        requires { watch.old.pass.map ≡ self.now.map.now }
        ensures { watch.new.pass.map ≡ self.now.map.now }
    {
        for _ in 0..MOST_READERS {
            let Ok((stream, _)) = watch.listener.accept() else {
                return;
            };
            self.answer(&stream, &mut watch.pass, bell);
            if bell.has_rung() {
                return;
            }
        }
    }

    /// Answers readers until the workers have ended.
    pub(crate) fn watch(&self, watch: Watch, bell: &Bell)
        requires { watch.pass.map ≡ self.now.map.now }
    {
        let mut watch = watch;
        for _ in self.rt.forever() {
            if bell.wait(self.rt, Duration::from_millis(LOOK_MILLIS)) {
                return;
            }
            self.answer_waiting(&mut watch, bell);
        }
    }
}
