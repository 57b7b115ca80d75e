//! Rows of calls and their replies.
use crate::programs::{NINE, NOTHING, ONE, THREE, TWO, sizes, summing, verified};
use atomic_methods::{Call, OpenFault, Reply, Striped};
use bins::Counts;
use bpf_model::{InputPart, Key, NoMemory, TooLong, Value};
use std::alloc::Global;
use std::test::Fail;
use verifier::Verified;

/// An expected reply.
#[derive(Clone, Copy)]
enum Wanted {
    Nothing,
    Bytes(&'static [u8]),
    Done(bool),
    Unfit(InputPart),
}

/// One of the programs.
#[derive(Clone, Copy)]
enum Which {
    Sum,
    Nothing,
    NoKey,
}

/// A method with its arguments; `ReplaceIf` has the expected value first.
#[derive(Clone, Copy)]
enum Method {
    Get,
    Put(&'static [u8]),
    PutIfAbsent(&'static [u8]),
    Remove,
    RemoveIf(&'static [u8]),
    Replace(&'static [u8]),
    ReplaceIf(&'static [u8], &'static [u8]),
    Compute(Which, &'static [u8]),
    IfAbsent(Which, &'static [u8]),
    IfPresent(Which, &'static [u8]),
    Merge(&'static [u8], Which),
}

impl Method {
    /// Returns the bytes of its arguments.
    fn bytes(self) -> (&'static [u8], &'static [u8]) {
        match self {
            Method::Get | Method::Remove => (b"", b""),
            Method::Put(bytes)
            | Method::PutIfAbsent(bytes)
            | Method::RemoveIf(bytes)
            | Method::Replace(bytes)
            | Method::Compute(_, bytes)
            | Method::IfAbsent(_, bytes)
            | Method::IfPresent(_, bytes)
            | Method::Merge(bytes, _) => (bytes, b""),
            Method::ReplaceIf(expected, new) => (expected, new),
        }
    }
}

/// Tells whether the reply is the expected one.
fn is_wanted(reply: &Reply, wanted: Wanted) -> bool {
    match (reply, wanted) {
        (Reply::Value(None), Wanted::Nothing) => true,
        (Reply::Value(Some(value)), Wanted::Bytes(bytes)) => value.as_slice() == bytes,
        (Reply::Done(done), Wanted::Done(wanted)) => *done == wanted,
        (Reply::Unfit(part), Wanted::Unfit(wanted)) => *part == wanted,
        _ => false,
    }
}

/// Makes the key of these bytes.
fn key(bytes: &[u8]) -> Result<Key, TooLong> {
    Key::from_slice(bytes)
}

/// Makes the value of these bytes.
fn value(bytes: &[u8]) -> Result<Value, TooLong> {
    Value::from_slice(bytes)
}

/// Programs on values of 8 bytes, and one that accepts only the empty key.
#[derive(Drop)]
struct Programs {
    sum: Verified,
    nothing: Verified,
    no_key: Verified,
}

impl Programs {
    /// Verifies the programs.
    fn new(alloc: Global) -> Result<Programs, Fail> {
        let sum = summing(alloc)?;
        let nothing = verified(alloc, NOTHING, sizes(64, 8, 8, 8))?;
        let no_key = verified(alloc, NOTHING, sizes(0, 0, 0, 0))?;
        Ok(Programs {
            sum,
            nothing,
            no_key,
        })
    }

    /// Returns one of them.
    fn get(&self, which: Which) -> &Verified {
        match which {
            Which::Sum => &self.sum,
            Which::Nothing => &self.nothing,
            Which::NoKey => &self.no_key,
        }
    }
}

/// The data that a call borrows: its key, and its value or argument. `ReplaceIf` has the expected value first.
#[derive(Drop)]
struct Lender {
    key: Key,
    method: Method,
    first: Value,
    second: Value,
}

impl Lender {
    /// Makes the data for a call of the method on this key.
    fn new(name: &[u8], method: Method) -> Result<Lender, TooLong> {
        let (first, second) = method.bytes();
        Ok(Lender {
            key: key(name)?,
            method,
            first: value(first)?,
            second: value(second)?,
        })
    }

    /// Makes the call.
    fn call<'a>(&'a self, programs: &'a Programs) -> Call<'a> {
        let key = &self.key;
        let value = &self.first;
        match self.method {
            Method::Get => Call::Get { key },
            Method::Put(_) => Call::Put { key, value },
            Method::PutIfAbsent(_) => Call::PutIfAbsent { key, value },
            Method::Remove => Call::Remove { key },
            Method::RemoveIf(_) => Call::RemoveIf {
                key,
                expected: value,
            },
            Method::Replace(_) => Call::Replace { key, value },
            Method::ReplaceIf(_, _) => Call::ReplaceIf {
                key,
                expected: value,
                value: &self.second,
            },
            Method::Compute(which, _) => Call::Compute {
                key,
                program: programs.get(which),
                arg: Some(value),
            },
            Method::IfAbsent(which, _) => Call::ComputeIfAbsent {
                key,
                program: programs.get(which),
                arg: Some(value),
            },
            Method::IfPresent(which, _) => Call::ComputeIfPresent {
                key,
                program: programs.get(which),
                arg: Some(value),
            },
            Method::Merge(_, which) => Call::Merge {
                key,
                value,
                program: programs.get(which),
            },
        }
    }
}

mod memory;
mod methods;
mod shared;
mod stripes;
mod timed;
