//! Sessions of crews over one map, in memory.
ghost use Rattle.std.specs.Prelude.{◌≡◌, All, IfSome};
ghost use Rattle.crews.specs.Crews.{IsCrewOf};

mod at_work;
mod both_protocols;
mod loopback;
mod sweeping;

use crate::bpfmap::memory::{Pieces, ROOM, Room};
use bin_stripes::{OpenGate, Pass, StripedMap};
use bulk_walks::Team;
use crews::{Crew, Tokens, Worker, session, session_with_tokens};
use map_server::{SessionEnd, StreamSink, StreamSource};
use program_registry::{ProgramToken, Registry};
use std::alloc::Global;
use std::sync::Wait;
use std::test::Fail;
use std::thread::Threads;

/// A Hello, a Put of two bytes, and a Get of them.
const PUT_AND_GET: &[u8] = b"\0\0\0\x02\0\x01\0\0\0\x07\x11\x01a\0\x02xy\0\0\0\x03\x10\x01a";

const PUT_AND_GOT: &[u8] = b"\0\0\0\x02\x80\x01\0\0\0\x03\x82\xFF\xFF\0\0\0\x05\x82\0\x02xy";

/// A Hello and a program that answers the first byte of its argument, as a value of one byte.
const REGISTER: &[u8] = b"\0\0\0\x02\0\x01\
    \0\0\0\x29\x01\0\x40\0\0\0\x01\0\x01\
    \x71\x30\0\0\0\0\0\0\x73\x04\0\0\0\0\0\0\xB7\0\0\0\x01\0\0\0\x95\0\0\0\0\0\0\0";

const REGISTERED: &[u8] = b"\0\0\0\x02\x80\x01\0\0\0\x09\x81\0\0\0\0\0\0\0\0";

/// A Hello, a Compute with that program's number and the argument 7, and a Count.
const COMPUTE: &[u8] = b"\0\0\0\x02\0\x01\
    \0\0\0\x0E\x17\x01b\0\0\0\0\0\0\0\0\0\x01\x07\
    \0\0\0\x01\x23";

const COMPUTED: &[u8] = b"\0\0\0\x02\x80\x01\0\0\0\x04\x82\0\x01\x07\
    \0\0\0\x19\x87\0\0\0\0\0\0\0\x01\0\0\0\0\0\0\0\0\0\0\0\0\0\0\0\0";

/// Takes the next crew: the last of the passes, with the two before it as its team. Returns `None` if there are too few
/// passes or a request for memory is refused.
fn crew(map: &StripedMap, passes: &mut Vec<Pass>, worker: u32) -> Option<Crew>
    requires { All (λ pass. pass.map ≡ map.now) passes.old.items }
    ensures passes { All (λ pass. pass.map ≡ map.now) passes.new.items }
    ensures crew { IfSome result (λ crew. IsCrewOf map.now crew) }
{
    // Only the clauses use it: they name the map.
    let _ = map;
    let Some(pass) = passes.pop() else {
        return None;
    };
    if passes.len() < 2 {
        return None;
    }
    let Ok(members) = passes.split_off(passes.len() - 2) else {
        return None;
    };
    let Ok(team) = Team::new(members) else {
        return None;
    };
    Some(Crew { worker, pass, team })
}

/// Takes the last of the passes.
fn last_pass(map: &StripedMap, mut passes: Vec<Pass>) -> Option<Pass>
    requires { All (λ pass. pass.map ≡ map.now) passes.items }
    ensures { IfSome result (λ pass. pass.map ≡ map.now) }
{
    // Only the clauses use it: they name the map.
    let _ = map;
    let Some(pass) = passes.pop() else {
        return None;
    };
    Some(pass)
}

/// Opens a map with two crews, of the workers 0 and 1, and one more pass. Returns `None` if a request for memory is
/// refused.
fn crews_and_pass(alloc: Global) -> Option<(StripedMap, Crew, Crew, Pass)>
    ensures one { IfSome result (λ r. IsCrewOf r.0 r.1) }
    ensures other { IfSome result (λ r. IsCrewOf r.0 r.2) }
    ensures pass { IfSome result (λ r. r.3.map ≡ r.0) }
{
    let (map, mut passes) = StripedMap::open(alloc, 4, 7).ok()?;
    let one = crew(&map, &mut passes, 0)?;
    let other = crew(&map, &mut passes, 1)?;
    let pass = last_pass(&map, passes)?;
    Some((map, one, other, pass))
}

/// Opens a map with two crews and one more pass, and plays on it: a function that owns a map has to be proved to drop it, so tests are
/// lent theirs.
fn on_crews<F: FnOnce(&StripedMap, Crew, Crew, Pass) -> Result<bool, Fail>>(
    alloc: Global,
    play: F,
) -> Result<bool, Fail>
    requires { (map : _) → (one : _) → (other : _) → (pass : _) → IsCrewOf map.now one → IsCrewOf map.now other → pass.map ≡ map.now → F.pre play map one other pass }
{
    let (map, one, other, pass) = crews_and_pass(alloc).ok_or("no map")?;
    play(&map, one, other, pass)
}

/// The bytes of a session, sent in pieces of at most this size.
#[derive(Clone, Copy)]
struct Sent {
    bytes: &'static [u8],
    size: usize,
}

/// Runs a session of the crew. Returns its end and its answers.
fn served<H: AllocGlobal + Threads + Wait + Sync>(
    rt: &H,
    map: &StripedMap,
    registry: &Registry,
    crew: Crew,
    sent: Sent,
) -> (SessionEnd, Vec<u8>)
    requires { IsCrewOf map.now crew }
{
    let alloc = rt.alloc();
    let mut reader = StreamSource::new(Pieces {
        rest: sent.bytes,
        size: sent.size,
        fails: false,
    });
    let mut writer = StreamSink::new(Room::new(alloc, ROOM));
    let (_, end) = session(
        rt,
        alloc,
        &mut reader,
        &mut writer,
        map,
        registry,
        crew,
        &OpenGate,
    );
    (end, writer.into_inner().bytes)
}

/// Tests whether a session of the crew is closed and has these answers.
fn is_answered<H: AllocGlobal + Threads + Wait + Sync>(
    rt: &H,
    map: &StripedMap,
    registry: &Registry,
    crew: Crew,
    sent: Sent,
    answers: &[u8],
) -> bool
    requires { IsCrewOf map.now crew }
{
    let (end, written) = served(rt, map, registry, crew, sent);
    end == SessionEnd::Closed && written.as_slice() == answers
}

/// Runs a session in pieces of this size. Tells whether it has the right answers.
fn is_answered_in<H: AllocGlobal + Threads + Wait + Sync>(
    rt: &H,
    map: &StripedMap,
    crew: Crew,
    size: usize,
) -> Result<bool, Fail>
    requires { IsCrewOf map.now crew }
{
    let registry = Registry::new(rt.alloc())?;
    let sent = Sent {
        bytes: PUT_AND_GET,
        size,
    };
    Ok(is_answered(rt, map, &registry, crew, sent, PUT_AND_GOT))
}

#[test]
fn a_session_answers_however_it_is_cut(rt: HostRuntime) -> Result<(), Fail> {
    for size in [1, 1 << 14] {
        let answered = on_crews(
            rt.alloc(),
            |map: &StripedMap, one: Crew, _: Crew, _: Pass| -> Result<bool, Fail>
                requires { IsCrewOf map.now one }
            { is_answered_in(&rt, map, one, size) },
        )?;
        assert!(&rt; answered, "{size} at a time");
    }
    Ok(())
}

const REGISTER_AT_ONCE: Sent = Sent {
    bytes: REGISTER,
    size: 1 << 14,
};

const COMPUTE_AT_ONCE: Sent = Sent {
    bytes: COMPUTE,
    size: 1 << 14,
};

/// Tells whether the other crew's session finds the program that the one crew's session registered.
fn is_found<H: AllocGlobal + Threads + Wait + Sync>(
    rt: &H,
    map: &StripedMap,
    one: Crew,
    other: Crew,
) -> Result<bool, Fail>
    requires one { IsCrewOf map.now one }
    requires other { IsCrewOf map.now other }
{
    let registry = Registry::new(rt.alloc())?;
    let registered = is_answered(rt, map, &registry, one, REGISTER_AT_ONCE, REGISTERED);
    // The walk of the same session sees the call; its team has two other passes.
    let computed = is_answered(rt, map, &registry, other, COMPUTE_AT_ONCE, COMPUTED);
    Ok(registered && computed)
}

#[test]
fn a_program_of_an_earlier_session_is_found(rt: HostRuntime) -> Result<(), Fail> {
    let found = on_crews(
        rt.alloc(),
        |map: &StripedMap, one: Crew, other: Crew, _: Pass| -> Result<bool, Fail>
            requires one { IsCrewOf map.now one }
            requires other { IsCrewOf map.now other }
        { is_found(&rt, map, one, other) },
    )?;
    assert!(&rt; found);
    Ok(())
}

/// Runs a session of the crew over these bytes. Returns the tokens of its client.
fn tokens_after<'a, H: AllocGlobal + Threads + Wait + Sync>(
    worker: &Worker<'a, H, OpenGate>,
    crew: Crew,
    sent: &'static [u8],
) -> Tokens<'a>
    requires { IsCrewOf worker.now.map.now crew }
    ensures { result.registry ≡ worker.now.registry.now }
{
    let mut reader = StreamSource::new(Pieces {
        rest: sent,
        size: 1 << 14,
        fails: false,
    });
    let mut writer = StreamSink::new(Room::new(worker.alloc, ROOM));
    let (_, _, tokens) = session_with_tokens(worker, &mut reader, &mut writer, crew);
    tokens
}

/// Tests whether both have one token, of one number.
fn have_one_number(tokens: &[ProgramToken], others: &[ProgramToken]) -> bool {
    match (tokens, others) {
        ([token], [other]) => token.number() == other.number(),
        _ => false,
    }
}

/// Tells whether a number is the same program's for the clients of both crews.
fn mean_the_same<H: AllocGlobal + Threads + Wait + Sync>(
    rt: &H,
    map: &StripedMap,
    one: Crew,
    other: Crew,
) -> Result<bool, Fail>
    requires one { IsCrewOf map.now one }
    requires other { IsCrewOf map.now other }
{
    let registry = Registry::new(rt.alloc())?;
    let worker = Worker {
        rt,
        alloc: rt.alloc(),
        gate: &OpenGate,
        map,
        registry: &registry,
    };
    let registered = tokens_after(&worker, one, REGISTER);
    let named = tokens_after(&worker, other, COMPUTE);
    registered.mean_the_same(&named);
    let (registered, named) = (registered.into_vec(), named.into_vec());
    Ok(have_one_number(registered.as_slice(), named.as_slice()))
}

#[test]
fn tokens_of_two_clients_mean_the_same(rt: HostRuntime) -> Result<(), Fail> {
    let same = on_crews(
        rt.alloc(),
        |map: &StripedMap, one: Crew, other: Crew, _: Pass| -> Result<bool, Fail>
            requires one { IsCrewOf map.now one }
            requires other { IsCrewOf map.now other }
        { mean_the_same(&rt, map, one, other) },
    )?;
    assert!(&rt; same);
    Ok(())
}
