//! Some key.
ghost use Rattle.std.specs.Prelude.{◌≡◌, [], Contains, IfOk, OnErr, MatchOption};
ghost use Rattle.bin_stripes.specs.Passes.{ServesSameMap, stripes_of};
ghost use Rattle.key_walks.specs.Expired.{FindsLive, StopsLive};
ghost use Rattle.key_walks.specs.Walks.{Chooses, each_from};

use crate::expiring::live_keys;
use bin_stripes::{Pass, StripedMap};
use bpf_model::{Key, NoMemory};
use std::alloc::Global;
use std::sync::Wait;

/// Returns one of these keys by a number, or none if there is none.
fn choose(keys: &[Key], number: u64) -> Option<Key>
    ensures { MatchOption result (keys.now ≡ []) (λ key. Contains keys.now key) }
{
    if keys.is_empty() {
        return None;
    }
    let position = number % keys.len() as u64;
    Some(keys[position as usize].copied())
}

/// Returns some key by a number, which is best a random one: it scans stripes from the one of this number on, until one has a key.
/// Before a stripe is scanned, its entries whose time is over at `now` are taken away. Returns none if all were found empty. Returns `NoMemory` if a request for memory is refused. Waits until each stripe is free.
pub fn random_key<R: Wait>(
    rt: &R,
    alloc: Global,
    map: &StripedMap,
    pass: &mut Pass,
    number: u64,
    now: u64,
) -> Result<Option<Key>, NoMemory>
    requires map { pass.old.map ≡ map.now }
    ensures same { ServesSameMap pass.old pass.new }
    ensures ok { IfOk result (λ choice. Chooses now number pass.old choice pass.new) }
    ensures err { OnErr result (StopsLive now (FindsLive now) (each_from (stripes_of map.now) number) pass.old pass.new) }
{
    let stripes = map.stripes();
    let first = number % stripes;
    for turn in 0..stripes {
        let keys = live_keys(rt, alloc, map, pass, (first + turn) % stripes, now)?;
        if let Some(key) = choose(&keys, number / stripes) {
            return Ok(Some(key));
        }
    }
    Ok(None)
}
