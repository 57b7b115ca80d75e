//! Requests of one session, over memory.

use crate::memory::{Counter, Repeated};
use crate::opening::STRIPES;
use crate::programs::{SIZES, Sample, program};
use anyhow::{Result, bail, ensure};
use bpf_decode::encode;
use sessions::{Alone, SessionEnd, session_alone};
use std::alloc::Global;
use std::sync::Wait;

/// The kind of the requests.
#[derive(Clone, Copy, Debug, PartialEq, Eq)]
pub enum Ask {
    Get,
    /// Puts the value 1.
    Put,
    /// Replaces by the value 1.
    Replace,
    /// Computes the sum with the argument 1.
    Compute,
    /// Merges the value 1 by the sum.
    Merge,
}

/// A block has this many requests, one for each key.
pub const BLOCK: u64 = 1_000;

const HELLO: &[u8] = b"\x00\x01";

const REGISTER: u8 = 0x01;

const GET: u8 = 0x10;

const PUT: u8 = 0x11;

const REPLACE: u8 = 0x15;

const COMPUTE: u8 = 0x17;

const MERGE: u8 = 0x1a;

/// The length and the value of 1 in eight bytes, little-endian.
const ONE: &[u8] = b"\x00\x08\x01\x00\x00\x00\x00\x00\x00\x00";

const FIRST_PROGRAM: &[u8] = b"\x00\x00\x00\x00\x00\x00\x00\x00";

impl Ask {
    /// Returns the request of this name, or `None` if there is no such one.
    pub fn named(name: &str) -> Option<Ask> {
        match name {
            "get" => Some(Ask::Get),
            "put" => Some(Ask::Put),
            "replace" => Some(Ask::Replace),
            "compute" => Some(Ask::Compute),
            "merge" => Some(Ask::Merge),
            _ => None,
        }
    }

    /// Returns its tag, and the fields after the key.
    fn parts(self) -> (u8, [&'static [u8]; 2]) {
        match self {
            Ask::Get => (GET, [b"", b""]),
            Ask::Put => (PUT, [ONE, b""]),
            Ask::Replace => (REPLACE, [ONE, b""]),
            Ask::Compute => (COMPUTE, [FIRST_PROGRAM, ONE]),
            Ask::Merge => (MERGE, [ONE, FIRST_PROGRAM]),
        }
    }
}

/// Adds a frame with this body.
fn add_frame(frames: &mut Vec<u8>, body: &[u8]) -> Result<()> {
    let Ok(length) = u32::try_from(body.len()) else {
        bail!("the body is too long");
    };
    frames.extend_from_slice(&length.to_be_bytes())?;
    frames.extend_from_slice(body)?;
    Ok(())
}

/// Adds a request on the key of this number.
fn add_request(frames: &mut Vec<u8>, body: &mut Vec<u8>, ask: Ask, number: u64) -> Result<()> {
    let (tag, fields) = ask.parts();
    body.clear();
    body.extend_from_slice(&[tag, 8])?;
    body.extend_from_slice(&number.to_be_bytes())?;
    for field in fields {
        body.extend_from_slice(field)?;
    }
    add_frame(frames, body)
}

/// Adds a request on each of the keys.
fn add_block(alloc: Global, frames: &mut Vec<u8>, ask: Ask) -> Result<()> {
    let mut body = Vec::new(alloc);
    for number in 0..BLOCK {
        add_request(frames, &mut body, ask, number)?;
    }
    Ok(())
}

/// Says hello, registers the sum, and puts the value 1 at each key.
fn opening(alloc: Global) -> Result<Vec<u8>> {
    let mut frames = Vec::new(alloc);
    add_frame(&mut frames, HELLO)?;
    let mut body = Vec::new(alloc);
    body.push(REGISTER)?;
    for size in [SIZES.key, SIZES.old, SIZES.arg, SIZES.result] {
        body.extend_from_slice(&size.to_be_bytes())?;
    }
    body.extend_from_slice(encode(alloc, &program(alloc, Sample::Sum)?)?.as_slice())?;
    add_frame(&mut frames, &body)?;
    add_block(alloc, &mut frames, Ask::Put)?;
    Ok(frames)
}

/// Returns the opening, and then this many blocks.
fn reader(alloc: Global, ask: Ask, times: u64) -> Result<Repeated> {
    let mut bytes = opening(alloc)?;
    if times == 0 {
        let all = bytes.len();
        return Ok(Repeated::new(bytes, all, 0));
    }
    let opening = bytes.len();
    add_block(alloc, &mut bytes, ask)?;
    Ok(Repeated::new(bytes, opening, times - 1))
}

/// Runs a session that puts the keys and then asks for them in turn, this often. Returns how many bytes are answered.
pub fn serve<R: Wait>(rt: &R, alloc: Global, ask: Ask, times: u64) -> Result<u64> {
    let mut reader = reader(alloc, ask, times)?;
    let mut writer = Counter::new();
    let mut alone = Alone::open(alloc, STRIPES)?;
    let end = session_alone(rt, alloc, &mut reader, &mut writer, &mut alone);
    ensure!(end == SessionEnd::Closed, "the session was not closed");
    Ok(writer.bytes())
}
