//! What a worker works with.

use bin_stripes::StripedMap;
use program_registry::Registry;
use std::alloc::Global;

/// What each worker is lent: the runtime, the allocator, the gate that it passes, and the map and the registry of programs that
/// all share.
#[derive(Drop)]
pub struct Worker<'a, H, G> {
    pub rt: &'a H,
    pub alloc: Global,
    pub gate: &'a G,
    pub map: &'a StripedMap,
    pub registry: &'a Registry,
}
