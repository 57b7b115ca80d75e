//! The keys of stripes.
ghost use Rattle.std.specs.Prelude.{◌≡◌, ◌<◌, ◌++◌, length, map, IfOk, OnOk, OnErr};
ghost use Rattle.bins.specs.Entries.{entry_of};
ghost use Rattle.bin_stripes.specs.Passes.{ServesSameMap, stripes_of};
ghost use Rattle.key_walks.specs.Turns.{FindsKeys, MayScan};
ghost use Rattle.key_walks.specs.Expired.{FindsLive, StopsLive};
ghost use Rattle.key_walks.specs.Walks.{FindsAll, each};

use crate::expiring::live_keys;
use bin_stripes::{Pass, StripedMap};
use bins::EntryList;
use bpf_model::{Key, NoMemory};
use std::alloc::Global;
use std::sync::Wait;

/// Returns a copy of the key at a position of the list.
pub(crate) fn key_at(found: &EntryList, position: usize) -> Key
    requires { position < length found.now }
    ensures { result ≡ (entry_of found.now position).0 }
{
    let key = Key::from_slice(found.key(position));
    key.unwrap()
}

/// Returns copies of the keys of these entries, in their order.
fn keys_of(alloc: Global, found: &EntryList) -> Result<Vec<Key>, NoMemory>
    ensures { IfOk result (λ keys. keys.items ≡ map (λ entry. entry.0) found.now) }
{
    let mut keys = Vec::with_capacity(alloc, found.len())?;
    for position in 0..found.len() {
        keys.push(key_at(found, position))?;
    }
    Ok(keys)
}

/// Scans one stripe, and returns the found keys in any order. Waits until the stripe is free.
pub(crate) fn stripe_keys<R: Wait>(
    rt: &R,
    alloc: Global,
    map: &StripedMap,
    pass: &mut Pass,
    stripe: u64,
) -> Result<Vec<Key>, NoMemory>
    requires map { pass.old.map ≡ map.now }
    requires stripe { stripe < stripes_of map.now }
    ensures same { ServesSameMap pass.old pass.new }
    ensures ok { IfOk result (λ keys. FindsKeys pass.old stripe keys.items pass.new) }
    ensures err { OnErr result (MayScan pass.old stripe pass.new) }
{
    let mut found = EntryList::new(alloc);
    map.copy_stripe(rt, pass, stripe, &mut found)?;
    let keys = keys_of(alloc, &found)?;
    Ok(keys)
}

/// Adds these keys after the others.
fn add_all(keys: &mut Vec<Key>, more: Vec<Key>) -> Result<(), NoMemory>
    ensures { OnOk result (keys.new.items ≡ keys.old.items ++ more.items) }
{
    for key in more {
        keys.push(key)?;
    }
    Ok(())
}

/// Returns all keys, by one scan of each stripe in turn; those of one stripe in any order. Before a stripe is scanned, its entries
/// whose time is over at `now` are taken away. Returns `NoMemory` if a request for memory is refused; the first stripes were scanned
/// then. Waits until each stripe is free.
pub fn all_keys<R: Wait>(
    rt: &R,
    alloc: Global,
    map: &StripedMap,
    pass: &mut Pass,
    now: u64,
) -> Result<Vec<Key>, NoMemory>
    requires map { pass.old.map ≡ map.now }
    ensures same { ServesSameMap pass.old pass.new }
    ensures ok { IfOk result (λ keys. FindsAll now pass.old keys.items pass.new) }
    ensures err { OnErr result (StopsLive now (FindsLive now) each pass.old pass.new) }
{
    let stripes = map.stripes();
    let mut keys = Vec::new(alloc);
    for stripe in 0..stripes {
        let more = live_keys(rt, alloc, map, pass, stripe, now)?;
        add_all(&mut keys, more)?;
    }
    Ok(keys)
}
