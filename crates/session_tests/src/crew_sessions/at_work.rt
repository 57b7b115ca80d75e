//! Two workers serve one client each at the same time: alone, and while another thread makes calls.
ghost use Rattle.std.specs.Prelude.{◌≡◌, All};
ghost use Rattle.crews.specs.Crews.{IsCrewOf};

use super::on_crews;
use crate::bpfmap::memory::{Pieces, ROOM, Room};
use atomic_methods::{Call, Reply};
use bin_stripes::{Gate, Pass, Place, StripedMap};
use bpf_model::{Key, NoMemory, Value};
use crews::{Accept, Crew, Tokens, serve};
use map_server::{SessionEnd, StreamSink, StreamSource};
use program_registry::Registry;
use std::alloc::Global;
use std::process::Abort;
use std::sync::Wait;
use std::sync::atomic::{AtomicU64, Ordering};
use std::test::Fail;
use std::thread::{self, Threads};

/// The most turns that a thread waits for others.
const TURNS: u64 = 10_000_000;

/// The most calls that the other thread makes.
const CALLS: u64 = 10_000_000;

/// A Hello and a Count.
const COUNT: &[u8] = b"\0\0\0\x02\0\x01\0\0\0\x01\x23";

/// One entry, the caller's.
const COUNTED: &[u8] =
    b"\0\0\0\x02\x80\x01\0\0\0\x19\x87\0\0\0\0\0\0\0\x01\0\0\0\0\0\0\0\0\0\0\0\0\0\0\0\0";

/// One client for each of the workers 0 and 1.
#[derive(Drop)]
struct Clients {
    alloc: Global,
    // A bit for each worker that has had its client.
    given: AtomicU64,
    right: AtomicU64,
}

impl Accept<StreamSource<Pieces<'static>>, StreamSink<Room>> for Clients {
    fn next(&self, crew: &Crew) -> Option<(StreamSource<Pieces<'static>>, StreamSink<Room>)> {
        let bit = 1 << crew.worker.min(2);
        if self.given.fetch_or(bit, Ordering::SeqCst) & bit != 0 {
            return None;
        }
        let reader = StreamSource::new(Pieces {
            rest: COUNT,
            size: 1 << 14,
            fails: false,
        });
        Some((reader, StreamSink::new(Room::new(self.alloc, ROOM))))
    }

    fn ended(
        &self,
        _crew: &Crew,
        _reader: StreamSource<Pieces<'static>>,
        writer: StreamSink<Room>,
        end: SessionEnd,
        _tokens: Tokens<'_>,
    ) {
        if end == SessionEnd::Closed && writer.into_inner().bytes.as_slice() == COUNTED {
            self.right.fetch_add(1, Ordering::SeqCst);
        }
    }
}

/// The bits of the workers 0 and 1.
const BOTH: u64 = 3;

/// Holds each worker before it answers, until both workers, 0 and 1, are there.
#[derive(Drop)]
struct Meeting {
    come: AtomicU64,
    gone_alone: AtomicU64,
}

impl Gate for Meeting {
    fn pass(&self, place: Place, worker: u32) {
        if place != Place::Request {
            return;
        }
        self.come.fetch_or(1 << worker.min(2), Ordering::SeqCst);
        for _ in 0..TURNS {
            if self.come.load(Ordering::SeqCst) & BOTH == BOTH {
                return;
            }
            thread::yield_now();
        }
        self.gone_alone.fetch_add(1, Ordering::SeqCst);
    }
}

/// The caller's orders and its progress: it puts 1, 2 and so on under the key `d`, at most `most` times, until it is told to
/// stop.
#[derive(Drop)]
struct Calls {
    most: u64,
    made: AtomicU64,
    stop: AtomicU64,
    late: AtomicU64,
}

impl Calls {
    /// Makes the orders; no call was made yet.
    fn new(most: u64) -> Calls {
        Calls {
            most,
            made: AtomicU64::new(0),
            stop: AtomicU64::new(0),
            late: AtomicU64::new(0),
        }
    }

    /// Waits until the first call was made, if one is to be made.
    fn wait(&self) {
        for _ in 0..TURNS {
            if self.made.load(Ordering::SeqCst) >= self.most.min(1) {
                return;
            }
            thread::yield_now();
        }
        self.late.store(1, Ordering::SeqCst);
    }
}

/// Puts the number under the key `d`. Returns whether the number before it was there.
fn put<R: Wait>(rt: &R, map: &StripedMap, pass: &mut Pass, number: u64) -> bool
    requires { pass.old.map ≡ map.now }
    ensures { pass.new.map ≡ map.now }
{
    let bytes = number.to_le_bytes();
    let (Ok(key), Ok(value)) = (Key::from_slice(b"d"), Value::from_slice(&bytes)) else {
        return false;
    };
    let (key, value) = (&key, &value);
    let before = number.wrapping_sub(1).to_le_bytes();
    match map.call(rt, pass, &Call::Put { key, value }) {
        Ok(Reply::Value(Some(found))) => found.as_slice() == before.as_slice(),
        _ => false,
    }
}

/// Makes the calls. Returns the pass, and whether each call replied the number before its own.
fn make_calls<R: Wait>(rt: &R, map: &StripedMap, mut pass: Pass, calls: &Calls) -> (Pass, bool)
    requires { pass.map ≡ map.now }
    ensures { result.0.map ≡ map.now }
{
    let mut right = true;
    for number in 1..=calls.most {
        if calls.stop.load(Ordering::SeqCst) > 0 {
            return (pass, right);
        }
        right &= put(rt, map, &mut pass, number);
        calls.made.fetch_add(1, Ordering::SeqCst);
    }
    (pass, right)
}

/// The outcome of the sessions and the calls.
#[derive(Drop)]
struct Told {
    clients: Clients,
    gate: Meeting,
    calls: Calls,
}

impl Told {
    /// Makes an outcome in which nothing has happened yet.
    fn new(alloc: Global, most: u64) -> Told {
        Told {
            clients: Clients {
                alloc,
                given: AtomicU64::new(0),
                right: AtomicU64::new(0),
            },
            gate: Meeting {
                come: AtomicU64::new(0),
                gone_alone: AtomicU64::new(0),
            },
            calls: Calls::new(most),
        }
    }

    /// Returns how many clients had the right answers, which workers came to the gate, how many of them didn't meet there, and
    /// whether the calls were late.
    fn found(&self) -> [u64; 4] {
        [
            self.clients.right.load(Ordering::SeqCst),
            self.gate.come.load(Ordering::SeqCst),
            self.gate.gone_alone.load(Ordering::SeqCst),
            self.calls.late.load(Ordering::SeqCst),
        ]
    }
}

/// Serves the clients once the calls have begun, and then stops the calls.
fn serve_both<R: AllocGlobal + Threads + Wait + Sync>(
    rt: &R,
    map: &StripedMap,
    registry: &Registry,
    crews: Vec<Crew>,
    told: &Told,
) -> Result<Vec<Crew>, NoMemory>
    requires { All (λ crew. IsCrewOf map.now crew) crews.items }
{
    told.calls.wait();
    let back = serve(
        rt,
        rt.alloc(),
        &told.clients,
        map,
        registry,
        crews,
        &told.gate,
    );
    told.calls.stop.store(1, Ordering::SeqCst);
    back
}

/// Runs the sessions and the calls at once, each in its own thread.
fn serve_beside<R: AllocGlobal + Threads + Wait + Sync>(
    rt: &R,
    map: &StripedMap,
    registry: &Registry,
    crews: Vec<Crew>,
    pass: Pass,
    told: &Told,
) -> ((Pass, bool), Result<Vec<Crew>, NoMemory>)
    requires crews { All (λ crew. IsCrewOf map.now crew) crews.items }
    requires pass { pass.map ≡ map.now }
    ensures { result.0.0.map ≡ map.now }
{
    thread::join(
        rt,
        move || -> (Pass, bool)
            requires { pass.map ≡ map.now }
            ensures { result.0.map ≡ map.entry.now }
        { make_calls(rt, map, pass, &told.calls) },
        move || -> Result<Vec<Crew>, NoMemory>
            requires { All (λ crew. IsCrewOf map.now crew) crews.items }
        { serve_both(rt, map, registry, crews, told) },
    )
}

/// Tests whether the workers 0 and 1 are back.
fn are_back(crews: &[Crew]) -> bool {
    match crews {
        [one, other] => one.worker == 0 && other.worker == 1,
        _ => false,
    }
}

/// Tests whether the key `d` has this number.
fn has_number<R: Wait>(rt: &R, map: &StripedMap, mut pass: Pass, number: u64) -> bool
    requires { pass.map ≡ map.now }
{
    let Ok(key) = Key::from_slice(b"d") else {
        return false;
    };
    match map.call(rt, &mut pass, &Call::Get { key: &key }) {
        Ok(Reply::Value(Some(last))) => last.as_slice() == number.to_le_bytes().as_slice(),
        _ => false,
    }
}

/// Runs the two sessions while another thread makes at most this many calls. Tells whether all was right.
fn are_met<R: AllocGlobal + Threads + Wait + Sync>(
    rt: &R,
    map: &StripedMap,
    crews: Vec<Crew>,
    mut pass: Pass,
    most: u64,
) -> Result<bool, Fail>
    requires crews { All (λ crew. IsCrewOf map.now crew) crews.items }
    requires pass { pass.map ≡ map.now }
{
    let registry = Registry::new(rt.alloc())?;
    let told = Told::new(rt.alloc(), most);
    put(rt, map, &mut pass, 0);
    let ((pass, right), back) = serve_beside(rt, map, &registry, crews, pass, &told);
    let served = are_back(&back?) && told.found() == [2, BOTH, 0, 0];
    let last = has_number(rt, map, pass, told.calls.made.load(Ordering::SeqCst));
    Ok(served && right && last)
}

/// Does that on a map of its own.
fn meet_beside<R: AllocGlobal + Threads + Wait + Abort + Sync>(
    rt: &R,
    most: u64,
) -> Result<(), Fail> {
    let alloc = rt.alloc();
    let met = on_crews(
        alloc,
        |map: &StripedMap, one: Crew, other: Crew, pass: Pass| -> Result<bool, Fail>
            requires one { IsCrewOf map.now one }
            requires other { IsCrewOf map.now other }
            requires pass { pass.map ≡ map.now }
        {
            let crews = vec![in alloc; one, other]?;
            are_met(rt, map, crews, pass, most)
        },
    )?;
    assert!(rt; met);
    Ok(())
}

#[test]
fn server_uses_workers(rt: HostRuntime) -> Result<(), Fail> {
    meet_beside(&rt, 0)
}

#[test]
fn server_uses_workers_beside_a_caller(rt: HostRuntime) -> Result<(), Fail> {
    meet_beside(&rt, CALLS)
}
