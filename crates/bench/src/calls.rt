//! Calls on a map that threads share.
ghost use Rattle.std.specs.Prelude.{◌≡◌, All};

use crate::opening::{last_pass, numbered_key, numbered_value, opened, scattered_key};
use crate::programs::{Sample, verified};
use anyhow::{Result, bail};
use atomic_methods::{Call, Reply};
use bin_stripes::{Pass, StripedMap};
use bpf_model::{Key, Value};
use std::alloc::Global;
use std::sync::Wait;
use std::thread::{self, Threads};
use verifier::Verified;

/// The method of the calls.
#[derive(Clone, Copy, Debug, PartialEq, Eq)]
pub enum Method {
    Get,
    /// Puts the value 1.
    Put,
    /// Replaces by the value 1.
    Replace,
    /// Computes the sum with the argument 1.
    Compute,
    /// Merges the value 1 by the sum.
    Merge,
}

impl Method {
    /// Returns the method of this name, or `None` if there is no such one.
    pub fn named(name: &str) -> Option<Method> {
        match name {
            "get" => Some(Method::Get),
            "put" => Some(Method::Put),
            "replace" => Some(Method::Replace),
            "compute" => Some(Method::Compute),
            "merge" => Some(Method::Merge),
            _ => None,
        }
    }

    /// Returns the call on this key.
    pub fn call<'a>(self, key: &'a Key, value: &'a Value, program: &'a Verified) -> Call<'a> {
        match self {
            Method::Get => Call::Get { key },
            Method::Put => Call::Put { key, value },
            Method::Replace => Call::Replace { key, value },
            Method::Compute => Call::Compute {
                key,
                program,
                arg: Some(value),
            },
            Method::Merge => Call::Merge {
                key,
                value,
                program,
            },
        }
    }
}

/// Which keys the threads call.
#[derive(Clone, Copy, Debug, PartialEq, Eq)]
pub enum Keys {
    /// All threads call this many keys, each starting at its own place.
    Shared(u64),
    /// The same with this many scattered keys, and each thread takes them in long steps.
    Scattered(u64),
    /// Each thread has its own key, and their stripes are this many apart.
    Own(u64),
}

/// The distance of the stripes of keys that are far apart.
const FAR: u64 = 8;

/// From one call to the next, a thread goes on by this many scattered keys. It is a prime: a thread comes to all keys, unless
/// their count is a multiple of it.
const STEP: u64 = 7919;

/// Returns the key of one byte in this stripe of 64: its hash is 31 and the byte.
fn key_in_stripe(stripe: u64) -> Result<Key> {
    let byte = stripe.wrapping_add(33) % 64;
    Ok(Key::from_slice(&[byte as u8])?)
}

/// Returns a worker's place at this turn: each worker begins a quarter of the keys further on.
fn place(worker: u64, turn: u64, count: u64) -> u64 {
    worker.wrapping_mul(count / 4).wrapping_add(turn)
}

impl Keys {
    /// Reads a word: `near` is a key for each thread, in neighbouring stripes, and `apart` in stripes that are 8 apart.
    /// Otherwise the word is how many keys all threads share, and with `scattered=` before it these are scattered.
    pub fn named(word: &str) -> Result<Keys> {
        if let Some(count) = word.strip_prefix("scattered=") {
            return Ok(Keys::Scattered(count.parse()?));
        }
        Ok(match word {
            "near" => Keys::Own(1),
            "apart" => Keys::Own(FAR),
            _ => Keys::Shared(word.parse()?),
        })
    }

    /// Returns how many keys `threads` threads call.
    fn count(self, threads: u64) -> u64 {
        match self {
            Keys::Shared(count) | Keys::Scattered(count) => count,
            Keys::Own(_) => threads,
        }
    }

    /// Returns the key of this number.
    fn key(self, number: u64) -> Result<Key> {
        match self {
            Keys::Shared(_) => Ok(numbered_key(number)?),
            Keys::Scattered(_) => Ok(scattered_key(number)?),
            Keys::Own(apart) => key_in_stripe(number.wrapping_mul(apart)),
        }
    }

    /// Returns the number of the key that the worker calls at this turn.
    fn number(self, worker: u64, turn: u64) -> u64 {
        match self {
            Keys::Shared(count) => place(worker, turn, count) % count.max(1),
            Keys::Scattered(count) => place(worker, turn, count).wrapping_mul(STEP) % count.max(1),
            Keys::Own(_) => worker,
        }
    }
}

/// The work of the threads.
#[derive(Drop)]
struct Plan<'a> {
    method: Method,
    keys: Keys,
    program: &'a Verified,
    count: u64,
}

/// Puts the value 1 at each of the keys.
fn fill<R: Wait>(rt: &R, map: &StripedMap, pass: &mut Pass, keys: Keys, count: u64) -> Result<()>
    requires { pass.old.map ≡ map.now }
    ensures { pass.new.map ≡ map.now }
{
    let value = &numbered_value(1)?;
    for number in 0..count {
        let key = &keys.key(number)?;
        map.call(rt, pass, &Call::Put { key, value })?;
    }
    Ok(())
}

/// Makes the calls of one worker.
fn make_calls<R: Wait>(
    rt: &R,
    map: &StripedMap,
    pass: &mut Pass,
    plan: &Plan,
    worker: u64,
) -> Result<()>
    requires { pass.old.map ≡ map.now }
    ensures { pass.new.map ≡ map.now }
{
    let value = numbered_value(1)?;
    let mut bytes = Value::new();
    for turn in 0..plan.count {
        let key = plan.keys.key(plan.keys.number(worker, turn))?;
        let call = plan.method.call(&key, &value, plan.program);
        map.call_into(rt, pass, &call, &mut bytes)?;
    }
    Ok(())
}

/// Makes the calls of all workers, each in a thread of its own if one can be made.
fn make_all_calls<R: Threads + Wait + Sync>(
    rt: &R,
    map: &StripedMap,
    passes: &mut [Pass],
    plan: &Plan,
)
    requires { All (λ pass. pass.map ≡ map.now) passes.old }
{
    let threads = passes.len().max(1);
    let call = move |worker: usize, pass: &mut Pass|
        requires { pass.old.map ≡ map.now }
        ensures { pass.new.map ≡ map.entry.now }
    {
        let _ = make_calls(rt, map, pass, plan, worker as u64);
    };
    thread::for_each_mut(rt, passes, threads, &call);
}

/// Returns the value's number; 0 if there is no value of eight bytes.
fn number_of(reply: &Reply) -> u64 {
    let Reply::Value(Some(value)) = reply else {
        return 0;
    };
    match value.as_slice() {
        [a, b, c, d, e, f, g, h] => u64::from_le_bytes([*a, *b, *c, *d, *e, *f, *g, *h]),
        _ => 0,
    }
}

/// Returns the sum of the values of the keys.
fn sum_of<R: Wait>(rt: &R, map: &StripedMap, pass: &mut Pass, keys: Keys, count: u64) -> Result<u64>
    requires { pass.old.map ≡ map.now }
{
    let mut sum = 0u64;
    for number in 0..count {
        let key = &keys.key(number)?;
        let reply = map.call(rt, pass, &Call::Get { key })?;
        sum = sum.wrapping_add(number_of(&reply));
    }
    Ok(sum)
}

/// Returns the sum of the values after this many threads made this many calls each, on keys that had the value 1. A
/// call that was refused for memory shows in the sum.
pub fn calls_sum<R: Threads + Wait + Sync>(
    rt: &R,
    alloc: Global,
    method: Method,
    keys: Keys,
    threads: u64,
    count: u64,
) -> Result<u64> {
    if threads == 0 || threads > 63 {
        bail!("from 1 to 63 threads");
    }
    let program = verified(alloc, Sample::Sum)?;
    let plan = Plan {
        method,
        keys,
        program: &program,
        count,
    };
    let (map, mut passes) = opened(alloc, threads + 1)?;
    let mut pass = last_pass(&map, &mut passes)?;
    fill(rt, &map, &mut pass, keys, keys.count(threads))?;
    make_all_calls(rt, &map, &mut passes, &plan);
    sum_of(rt, &map, &mut pass, keys, keys.count(threads))
}
