//! The order in which a walk comes to keys.
ghost use Rattle.std.specs.Prelude.{◌≡◌, ◌<◌, ◌^◌, IfOk, map};
ghost use Rattle.key_walks.specs.Places.{fnv, place_of as place_is, cursor_of as cursor_is};

use bins::EntryList;
use bpf_model::NoMemory;
use std::alloc::Global;

/// The number of places in a stripe.
pub(crate) const PLACES: u64 = 0x1_0000_0000;

/// Returns the hash of a key: FNV-1a with 32 bits.
fn hash_of(key: &[u8]) -> u32
    ensures value { result ≡ fnv key.now }
{
    let mut hash: u32 = 0x811C_9DC5;
    for byte in key {
        hash = (hash ^ u32::from(*byte)).wrapping_mul(0x0100_0193);
    }
    hash
}

/// Returns the place of a key of this stripe.
pub(crate) fn place_of(stripe: u64, key: &[u8]) -> u64
    requires { stripe < 2 ^ 31 }
    ensures { result ≡ place_is stripe key.now }
{
    stripe * PLACES + u64::from(hash_of(key))
}

/// Returns the places of the keys of these entries, which are of one stripe, in their order.
pub(crate) fn places_of(alloc: Global, stripe: u64, found: &EntryList) -> Result<Vec<u64>, NoMemory>
    requires stripe { stripe < 2 ^ 31 }
    ensures value { IfOk result (λ places. places.items ≡ map (λ entry. place_is stripe entry.0) found.now) }
{
    let mut places = Vec::with_capacity(alloc, found.len())?;
    for position in 0..found.len() {
        places.push(place_of(stripe, found.key(position)))?;
    }
    Ok(places)
}

/// Returns the cursor of a place, in a map of this many stripes.
pub(crate) fn cursor_of(stripes: u64, place: u64) -> u64
    requires { stripes < 2 ^ 31 }
    ensures { result ≡ cursor_is stripes place }
{
    if place < stripes * PLACES { place } else { 0 }
}
