//! Two clients of one map on the loopback address. A crew serves each, in its own thread.
ghost use Rattle.std.specs.Prelude.{◌≡◌, All, IfOk, IfSome};
ghost use Rattle.crews.specs.Crews.{IsCrewOf};

use super::crews_and_pass;
use crate::bpfmap::memory::{ROOM, Room};
use atomic_methods::{Call, Reply};
use bin_stripes::{OpenGate, Pass, StripedMap};
use bpf_model::{Key, NoMemory};
use crews::{Accept, Crew, join_sessions, serve};
use map_server::{Quotas, StreamSink, TcpAccept, TcpReader, TcpWriter, Telling};
use program_registry::Registry;
use std::alloc::Global;
use std::io::{self, Read, Write};
use std::net::{Net, TcpListener, TcpStream};
use std::sync::Wait;
use std::test::Fail;
use std::thread::{self, Threads};

/// A Hello, and the program that adds its argument to the old value.
const REGISTER: &[u8] = b"\0\0\0\x02\0\x01\
    \0\0\0\x39\x01\0\x40\0\x08\0\x08\0\x08\
    \x79\x20\0\0\0\0\0\0\x79\x39\0\0\0\0\0\0\x0F\x90\0\0\0\0\0\0\
    \x7B\x04\0\0\0\0\0\0\xB7\0\0\0\x08\0\0\0\x95\0\0\0\0\0\0\0";

/// A Merge of 1 under the key `a`. The last eight bytes are for the program's number.
const MERGE: [u8; 25] = *b"\0\0\0\x15\x1A\x01a\0\x08\x01\0\0\0\0\0\0\0\0\0\0\0\0\0\0\0";

/// The beginning of the answer to a Merge: a value of eight bytes.
const VALUE: &[u8] = b"\0\0\0\x0B\x82\0\x08";

const MERGES: u32 = 100;

/// Registers the sum as a client does, and merges 1 `MERGES` times. Returns whether each answer was a value.
fn merge_by_ones<H: Net<Listener = TcpListener, Stream = TcpStream>>(
    rt: &H,
    address: &str,
) -> io::Result<bool> {
    let mut stream = TcpStream::connect(rt, address)?;
    stream.write_all(REGISTER)?;
    let mut registered = [0; 19];
    stream.read_exact(&mut registered)?;
    let mut merge = MERGE;
    merge[17..].copy_from_slice(&registered[11..]);
    for _ in 0..MERGES {
        stream.write_all(&merge)?;
        let mut answer = [0; 15];
        stream.read_exact(&mut answer)?;
        if !answer.starts_with(VALUE) {
            return Ok(false);
        }
    }
    Ok(true)
}

/// Runs two clients at once. Returns whether each answer was a value.
fn merge_twice<H: Threads + Net<Listener = TcpListener, Stream = TcpStream> + Sync>(
    rt: &H,
    address: &str,
) -> io::Result<bool> {
    let (one, other) = thread::join(
        rt,
        || merge_by_ones(rt, address),
        || merge_by_ones(rt, address),
    );
    Ok(one? && other?)
}

/// Serves both clients. Returns the crews, and whether the clients had the right answers.
fn serve_beside<
    H: AllocGlobal + Threads + Wait + Net<Listener = TcpListener, Stream = TcpStream> + Sync,
    A: Accept<TcpReader, TcpWriter> + Sync,
>(
    rt: &H,
    accept: &A,
    map: &StripedMap,
    registry: &Registry,
    crews: Vec<Crew>,
    address: &str,
) -> (Result<Vec<Crew>, NoMemory>, io::Result<bool>)
    requires crews { All (λ crew. IsCrewOf map.now crew) crews.items }
    requires serves { A.serves accept.now map.now registry.now }
    ensures { IfOk result.0 (λ back. All (λ crew. IsCrewOf map.now crew) back.items) }
{
    let alloc = rt.alloc();
    thread::join(
        rt,
        move || -> Result<Vec<Crew>, NoMemory>
            requires crews { All (λ crew. IsCrewOf map.now crew) crews.items }
            requires serves { A.serves accept.now map.now registry.now }
            ensures { IfOk result (λ back. All (λ crew. IsCrewOf map.entry.now crew) back.items) }
        { serve(rt, alloc, accept, map, registry, crews, &OpenGate) },
        move || merge_twice(rt, address),
    )
}

/// Joins the passes of the last two crews.
fn joined_pass(map: &StripedMap, mut crews: Vec<Crew>) -> Option<Pass>
    requires { All (λ crew. IsCrewOf map.now crew) crews.items }
    ensures { IfSome result (λ pass. pass.map ≡ map.now) }
{
    let Some(other) = crews.pop() else {
        return None;
    };
    let Some(one) = crews.pop() else {
        return None;
    };
    Some(join_sessions(map, one.pass, other.pass))
}

/// Serves two clients that merge. Returns whether each answer was a value, and the crews' passes find the sum after they
/// are joined.
fn serve_two<
    H: AllocGlobal + Threads + Wait + Net<Listener = TcpListener, Stream = TcpStream> + Sync,
    A: Accept<TcpReader, TcpWriter> + Sync,
>(
    rt: &H,
    accept: &A,
    map: &StripedMap,
    registry: &Registry,
    crews: Vec<Crew>,
    address: &str,
) -> Result<bool, Fail>
    requires crews { All (λ crew. IsCrewOf map.now crew) crews.items }
    requires serves { A.serves accept.now map.now registry.now }
{
    let (back, merged) = serve_beside(rt, accept, map, registry, crews, address);
    let merged = merged?;
    let joined = joined_pass(map, back?).ok_or("no crews")?;
    let sum = is_sum(rt, map, joined);
    Ok(merged && sum)
}

/// Tests whether the key has the sum of all merges.
fn is_sum<H: Wait>(rt: &H, map: &StripedMap, mut pass: Pass) -> bool
    requires { pass.map ≡ map.now }
{
    let Ok(key) = Key::from_slice(b"a") else {
        return false;
    };
    match map.call(rt, &mut pass, &Call::Get { key: &key }) {
        Ok(Reply::Value(Some(value))) => {
            value.as_slice() == [200, 0, 0, 0, 0, 0, 0, 0].as_slice()
        }
        _ => false,
    }
}

/// Listens on a free port. Returns the listener and its address.
fn listening<H: AllocGlobal + Net<Listener = TcpListener, Stream = TcpStream>>(
    rt: &H,
) -> io::Result<(TcpListener, String)> {
    let listener = TcpListener::bind(rt, "127.0.0.1:0")?;
    let address = listener.local_addr()?;
    let address = format!(in rt.alloc(); "{address}")?;
    Ok((listener, address))
}

#[test]
fn two_clients_merge_into_one_key(rt: HostRuntime) -> Result<(), Fail> {
    let (listener, address) = listening(&rt)?;
    let quotas = Quotas::new(rt.alloc(), 2, Some(1))?;
    let mut errors = StreamSink::new(Room::new(rt.alloc(), ROOM));
    let telling = Telling::new(&mut errors);
    let accept = TcpAccept::new(&rt, rt.alloc(), listener, quotas, telling);
    let registry = Registry::new(rt.alloc())?;
    let (map, one, other, _) = crews_and_pass(rt.alloc()).ok_or("no map")?;
    let crews = vec![in rt.alloc(); one, other]?;
    let address = address.as_str();
    assert!(&rt; serve_two(&rt, &accept, &map, &registry, crews, address)?);
    Ok(())
}
