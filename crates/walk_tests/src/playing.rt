//! A function that owns a map has to be proved to drop it. So one function owns the maps of tests, and lends them; a test that closes its
//! map has its own.
ghost use Rattle.std.specs.Prelude.{◌≡◌, All, IfOk};

use bin_stripes::{OpenFault, Pass, StripedMap};
use std::alloc::Global;
use std::test::Fail;

/// Opens a map, whose passes all serve it; and again if memory was refused.
pub(crate) fn opened(
    alloc: Global,
    stripes: u64,
    passes: u64,
) -> Result<(StripedMap, Vec<Pass>), OpenFault>
    ensures all { IfOk result (λ made. All (λ pass. pass.map ≡ made.0) made.1.items) }
{
    match StripedMap::open(alloc, stripes, passes) {
        Err(OpenFault::NoMemory) => StripedMap::open(alloc, stripes, passes),
        result => result,
    }
}

/// Plays on a new map with this many stripes and passes.
pub(crate) fn on_map<F: FnOnce(&StripedMap, Vec<Pass>) -> Result<bool, Fail>>(
    alloc: Global,
    stripes: u64,
    passes: u64,
    play: F,
) -> Result<bool, Fail>
    requires { (map : _) → (passes : _) → All (λ pass. pass.map ≡ map.now) passes.items → F.pre play map passes }
{
    let (map, passes) = opened(alloc, stripes, passes)?;
    play(&map, passes)
}
