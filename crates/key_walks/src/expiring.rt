//! Entries whose time is over are taken away before a stripe is scanned.
ghost use Rattle.std.specs.Prelude.{◌≡◌, ◌<◌, IfOk, OnErr};
ghost use Rattle.bin_stripes.specs.Passes.{ServesSameMap, stripes_of};
ghost use Rattle.key_walks.specs.Expired.{Expires, FindsLive, MayScanLive};

use crate::finding::stripe_keys;
use bin_stripes::{Expiry, Pass, StripedMap};
use bpf_model::{Key, NoMemory};
use std::alloc::Global;
use std::sync::Wait;

/// Takes entries of one stripe away until none is left whose time is over at `now`. Each goes in a hold of its own, so other calls
/// can come between. Takes no memory. Waits until the stripe is free.
pub(crate) fn expire_all<R: Wait>(rt: &R, map: &StripedMap, pass: &mut Pass, stripe: u64, now: u64)
    requires map { pass.old.map ≡ map.now }
    requires stripe { stripe < stripes_of map.now }
    ensures same { ServesSameMap pass.old pass.new }
    ensures expires { Expires now pass.old stripe pass.new }
{
    for _ in rt.forever() {
        let answer = map.expire_one(rt, pass, stripe, now);
        if !matches!(answer, Expiry::Took) {
            return;
        }
    }
    unreachable!()
}

/// Takes entries of one stripe away whose time is over at `now`, then scans it, and returns the found keys in any order. Returns
/// `NoMemory` if a request for memory is refused. Waits until the stripe is free.
pub(crate) fn live_keys<R: Wait>(
    rt: &R,
    alloc: Global,
    map: &StripedMap,
    pass: &mut Pass,
    stripe: u64,
    now: u64,
) -> Result<Vec<Key>, NoMemory>
    requires map { pass.old.map ≡ map.now }
    requires stripe { stripe < stripes_of map.now }
    ensures same { ServesSameMap pass.old pass.new }
    ensures ok { IfOk result (λ keys. FindsLive now pass.old stripe keys.items pass.new) }
    ensures err { OnErr result (MayScanLive now pass.old stripe pass.new) }
{
    expire_all(rt, map, pass, stripe, now);
    stripe_keys(rt, alloc, map, pass, stripe)
}
