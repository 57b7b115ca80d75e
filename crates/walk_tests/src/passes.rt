//! Rows of calls by several passes, in one thread and in many.
ghost use Rattle.std.specs.Prelude.{◌≡◌, All, IfOk};

use crate::playing::{on_map, opened};
use atomic_methods::{Call, Reply};
use bin_stripes::{CallFault, Gate, OpenGate, Pass, Place, StripedMap};
use bpf_model::{Key, NoMemory, TooLong, Value};
use map_tests::programs::{ONE, TWO, summing};
use std::alloc::Global;
use std::sync::Wait;
use std::sync::atomic::{AtomicU64, Ordering};
use std::test::Fail;
use std::thread;
use std::thread::Threads;
use verifier::Verified;

mod many;
mod rows;

/// Makes the key of these bytes.
fn key(bytes: &[u8]) -> Result<Key, TooLong> {
    Key::from_slice(bytes)
}

/// Makes the value of these bytes.
fn value(bytes: &[u8]) -> Result<Value, TooLong> {
    Value::from_slice(bytes)
}

/// Puts an entry.
fn put<R: Wait>(
    rt: &R,
    map: &StripedMap,
    pass: &mut Pass,
    name: &[u8],
    bytes: &[u8],
) -> Result<(), Fail>
    requires { pass.old.map ≡ map.now }
    ensures { pass.new.map ≡ map.now }
{
    let key = &key(name)?;
    let value = &value(bytes)?;
    map.call(rt, pass, &Call::Put { key, value })?;
    Ok(())
}

/// Returns the reply to a get.
fn got<R: Wait>(rt: &R, map: &StripedMap, pass: &mut Pass, name: &[u8]) -> Result<Reply, Fail>
    requires { pass.old.map ≡ map.now }
    ensures { pass.new.map ≡ map.now }
{
    let key = &key(name)?;
    Ok(map.call(rt, pass, &Call::Get { key })?)
}

/// Tells whether the reply is this value.
fn is_value(reply: &Reply, bytes: &[u8]) -> bool {
    match reply {
        Reply::Value(Some(value)) => value.as_slice() == bytes,
        _ => false,
    }
}

/// Returns the entries of a stripe, if the map has it and there is memory.
fn scanned<R: Wait>(
    rt: &R,
    alloc: Global,
    map: &StripedMap,
    pass: &mut Pass,
    stripe: u64,
) -> Option<Vec<(Key, Value)>>
    requires { pass.old.map ≡ map.now }
    ensures { pass.new.map ≡ map.now }
{
    if stripe >= map.stripes() {
        return None;
    }
    map.scan_stripe(rt, alloc, pass, stripe).ok()
}

/// Takes the next of the map's passes.
pub(crate) fn next_pass(map: &StripedMap, passes: &mut Vec<Pass>) -> Result<Pass, Fail>
    requires all { All (λ pass. pass.map ≡ map.now) passes.old.items }
    ensures pass { IfOk result (λ pass. pass.map ≡ map.now) }
    ensures all { All (λ pass. pass.map ≡ map.now) passes.new.items }
{
    // Only for the clauses, which name the map.
    let _ = map;
    match passes.pop() {
        Some(pass) => Ok(pass),
        None => Err("no pass".into()),
    }
}
