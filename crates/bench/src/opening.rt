//! Maps of 64 stripes, and keys and values of eight bytes.
ghost use Rattle.std.specs.Prelude.{◌≡◌, All, IfOk};

use anyhow::{Result, anyhow};
use bin_stripes::{OpenFault, Pass, StripedMap};
use bpf_model::{Key, TooLong, Value};
use std::alloc::Global;

/// Each map that is measured has this many stripes.
pub const STRIPES: u64 = 64;

/// Returns the key of this number. Rising numbers have rising keys.
pub fn numbered_key(number: u64) -> Result<Key, TooLong> {
    Key::from_slice(&number.to_be_bytes())
}

/// Returns 8 bytes that encode a number, scattered. Rising numbers have keys in no order.
pub fn scattered_key(number: u64) -> Result<Key, TooLong> {
    numbered_key(number.wrapping_mul(0x9e37_79b9_7f4a_7c15))
}

/// Returns the number as a value.
pub fn numbered_value(number: u64) -> Result<Value, TooLong> {
    Value::from_slice(&number.to_le_bytes())
}

/// Opens an empty map with this many passes, which all serve it.
pub fn opened(alloc: Global, passes: u64) -> Result<(StripedMap, Vec<Pass>), OpenFault>
    ensures all { IfOk result (λ made. All (λ pass. pass.map ≡ made.0) made.1.items) }
{
    StripedMap::open(alloc, STRIPES, passes)
}

/// Takes the last of the map's passes.
pub fn last_pass(map: &StripedMap, passes: &mut Vec<Pass>) -> Result<Pass>
    requires all { All (λ pass. pass.map ≡ map.now) passes.old.items }
    ensures pass { IfOk result (λ pass. pass.map ≡ map.now) }
    ensures all { All (λ pass. pass.map ≡ map.now) passes.new.items }
{
    // Only for the proof: the clauses name the map.
    let _ = map;
    match passes.pop() {
        Some(pass) => Ok(pass),
        None => Err(anyhow!("no pass")),
    }
}
