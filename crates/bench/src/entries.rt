//! Repeated calls on bins of many entries.

use crate::opening::{numbered_value, scattered_key};
use anyhow::{Result, bail};
use bins::{Bins, HashedBins, HashedKey};
use bpf_model::limits::{KEY_BYTES, VALUE_BYTES};
use bpf_model::{Key, Value};
use std::alloc::Global;

/// The work on each key.
#[derive(Clone, Copy)]
enum Work {
    /// Only makes the key and its hash.
    Nothing,
    Find,
    Put,
    /// Removes it, and puts it again.
    Remove,
    /// Finds it, with entries as long as they may be.
    Longest,
}

impl Work {
    fn named(name: &str) -> Option<Work> {
        match name {
            "nothing" => Some(Work::Nothing),
            "find" => Some(Work::Find),
            "put" => Some(Work::Put),
            "remove" => Some(Work::Remove),
            "longest" => Some(Work::Longest),
            _ => None,
        }
    }
}

/// Returns a longest key that encodes a number, scattered.
fn longest_key(number: u64) -> Result<Key> {
    let mut bytes = [7; KEY_BYTES];
    let scattered = number.wrapping_mul(0x9e37_79b9_7f4a_7c15).to_be_bytes();
    bytes[..8].copy_from_slice(&scattered);
    Ok(Key::from_slice(&bytes)?)
}

/// Puts the entry of a number, a short one or a longest one.
fn put(bins: &mut HashedBins, work: Work, number: u64) -> Result<()> {
    let (key, value) = match work {
        Work::Longest => (longest_key(number)?, Value::from_slice(&[1; VALUE_BYTES])?),
        _ => (scattered_key(number)?, numbered_value(number)?),
    };
    Ok(bins.put(&HashedKey::new(&key), &value)?)
}

/// Returns how many bytes the value of a key has.
fn bytes_found(bins: &HashedBins, key: &HashedKey<'_>) -> u64 {
    match bins.find(key) {
        Some(found) => found.len() as u64,
        None => 0,
    }
}

/// Works on the entry of a number, and returns how many bytes of it were seen.
fn work_on(bins: &mut HashedBins, work: Work, number: u64) -> Result<u64> {
    let key = scattered_key(number)?;
    let key = HashedKey::new(&key);
    Ok(match work {
        Work::Nothing => u64::from(key.hash()) & 1,
        Work::Find => bytes_found(bins, &key),
        Work::Longest => bytes_found(bins, &HashedKey::new(&longest_key(number)?)),
        Work::Put => {
            bins.put(&key, &numbered_value(number)?)?;
            8
        }
        Work::Remove => match bins.remove(&key) {
            Some(found) => {
                bins.put(&key, &numbered_value(number)?)?;
                found.as_slice().len() as u64
            }
            None => 0,
        },
    })
}

/// Fills bins with this many entries, of keys and values of 8 bytes or the longest ones. Then does the work of this name on
/// each of them, in another order, this often. Returns how many bytes it saw.
pub fn work_often(alloc: Global, name: &str, entries: u64, rounds: u64) -> Result<u64> {
    let Some(work) = Work::named(name) else {
        bail!("no work is named so");
    };
    let mut bins = HashedBins::open(alloc, 1)?;
    for number in 0..entries {
        put(&mut bins, work, number)?;
    }
    let mut seen: u64 = 0;
    for _ in 0..rounds {
        for number in 0..entries {
            let next = number.wrapping_mul(7919) % entries;
            seen = seen.wrapping_add(work_on(&mut bins, work, next)?);
        }
    }
    Ok(seen)
}
