//! Registers programs at a registry: one that is known, or new ones.

use crate::programs::SIZES;
use admission::{ProgramLimits, admit};
use anyhow::{Result, bail};
use program_registry::{Registry, SentProgram};
use std::alloc::{AllocError, Global};
use std::sync::Wait;

/// Which programs are registered.
#[derive(Clone, Copy, Debug, PartialEq, Eq)]
pub enum Programs {
    /// The same one each time.
    Known,
    /// A different one each time.
    New,
}

/// `mov64 r0, -1` and `exit`, the last units of each program.
const END: [u8; 16] = [
    0xb7, 0, 0, 0, 0xff, 0xff, 0xff, 0xff, 0x95, 0, 0, 0, 0, 0, 0, 0,
];

/// `END` has this many units.
const END_UNITS: u64 = 2;

impl Programs {
    /// Returns the programs of this name, or `None` if there are no such ones.
    pub fn named(name: &str) -> Option<Programs> {
        match name {
            "known" => Some(Programs::Known),
            "new" => Some(Programs::New),
            _ => None,
        }
    }
}

/// Returns the bytes of a program of this many units, which begins with a move of this number to r0.
fn bytes_with(alloc: Global, units: u64, number: u32) -> Result<Vec<u8>, AllocError> {
    let mut bytes = Vec::new(alloc);
    for _ in 0..units.saturating_sub(END_UNITS) {
        bytes.extend_from_slice(&[0xb7, 0, 0, 0])?;
        bytes.extend_from_slice(&number.to_le_bytes())?;
    }
    bytes.extend_from_slice(&END)?;
    Ok(bytes)
}

/// Registers the program that the bytes spell, as a server does, and returns its number.
fn register<R: Wait>(rt: &R, alloc: Global, registry: &Registry, bytes: &[u8]) -> Result<u64> {
    let sent = SentProgram::new(SIZES, bytes);
    if let Some(token) = registry.find_same(rt, &sent) {
        return Ok(token.number());
    }
    let verified = admit(alloc, ProgramLimits::GREATEST, bytes, SIZES)?;
    match registry.register_sent(rt, &sent, verified) {
        Ok(token) => Ok(token.number()),
        Err(_) => bail!("no memory"),
    }
}

/// Registers programs of this many units this often, and returns how many numbers were given.
pub fn register_often<R: Wait>(
    rt: &R,
    alloc: Global,
    programs: Programs,
    units: u64,
    count: u32,
) -> Result<u64> {
    let registry = Registry::new(alloc)?;
    let known = bytes_with(alloc, units, 0)?;
    let mut last = register(rt, alloc, &registry, known.as_slice())?;
    for turn in 0..count {
        last = match programs {
            Programs::Known => register(rt, alloc, &registry, known.as_slice())?,
            Programs::New => {
                let bytes = bytes_with(alloc, units, turn.wrapping_add(1))?;
                register(rt, alloc, &registry, bytes.as_slice())?
            }
        };
    }
    Ok(last.saturating_add(1))
}
