//! The number of keys.
ghost use Rattle.std.specs.Prelude.{◌≡◌};
ghost use Rattle.bin_stripes.specs.Passes.{ServesSameMap};
ghost use Rattle.key_walks.specs.Walks.{CountsAll};

use bin_stripes::{Pass, StripedMap};
use std::sync::Wait;

/// Returns the number of keys, by one scan of each stripe in turn. Takes no memory. Waits until each stripe is free.
pub fn count_all<R: Wait>(rt: &R, map: &StripedMap, pass: &mut Pass) -> u64
    requires map { pass.old.map ≡ map.now }
    ensures same { ServesSameMap pass.old pass.new }
    ensures counts { CountsAll pass.old result pass.new }
{
    let stripes = map.stripes();
    let mut count = 0;
    for stripe in 0..stripes {
        count += map.count_stripe(rt, pass, stripe);
    }
    count
}
