//! The removal of all keys.
ghost use Rattle.std.specs.Prelude.{◌≡◌, OnOk, OnErr};
ghost use Rattle.bin_stripes.specs.Passes.{ServesSameMap};
ghost use Rattle.key_walks.specs.Turns.{Chain, Stops};
ghost use Rattle.key_walks.specs.Walks.{Clears, ClearsAll, Removes, each};

use crate::finding::stripe_keys;
use atomic_methods::Call;
use bin_stripes::{Pass, StripedMap};
use bpf_model::{Key, NoMemory, Value};
use std::alloc::Global;
use std::sync::Wait;

/// Removes a key, if it is there.
fn remove<R: Wait>(rt: &R, map: &StripedMap, pass: &mut Pass, key: &Key, old: &mut Value)
    requires map { pass.old.map ≡ map.now }
    ensures same { ServesSameMap pass.old pass.new }
    ensures removes { Removes pass.old key.now pass.new }
{
    let call = Call::Remove { key };
    let answer = map.call_into(rt, pass, &call, old);
    prove!(answer.is_ok());
}

/// Removes these keys, if they are there, one after the other.
fn remove_each<R: Wait>(rt: &R, map: &StripedMap, pass: &mut Pass, keys: &[Key])
    requires map { pass.old.map ≡ map.now }
    ensures same { ServesSameMap pass.old pass.new }
    ensures removes { Chain Removes pass.old keys.now pass.new }
{
    let mut old = Value::new();
    for key in keys {
        remove(rt, map, pass, key, &mut old);
    }
}

/// Removes all keys: scans each stripe in turn, and then removes each key that was found there by a call of its own. A key that
/// comes meanwhile may stay. Returns `NoMemory` if a request for memory is refused; the first stripes were cleared then. Waits
/// until each stripe is free.
pub fn remove_all<R: Wait>(
    rt: &R,
    alloc: Global,
    map: &StripedMap,
    pass: &mut Pass,
) -> Result<(), NoMemory>
    requires map { pass.old.map ≡ map.now }
    ensures same { ServesSameMap pass.old pass.new }
    ensures ok { OnOk result (ClearsAll pass.old pass.new) }
    ensures err { OnErr result (Stops Clears each pass.old pass.new) }
{
    let stripes = map.stripes();
    for stripe in 0..stripes {
        let keys = stripe_keys(rt, alloc, map, pass, stripe)?;
        remove_each(rt, map, pass, &keys);
    }
    Ok(())
}
