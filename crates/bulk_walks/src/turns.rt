//! The stripes of a worker.

use bin_stripes::{Gate, Place, StripedMap};

/// The turns of one worker of a walk over a map: the stripes `number`, `number + workers`, and so on.
#[derive(Drop)]
pub(crate) struct Turns<'a> {
    pub(crate) map: &'a StripedMap,
    pub(crate) number: u64,
    pub(crate) workers: u64,
}

impl<'a> Turns<'a> {
    /// Passes the gate before its first stripe, if it has a stripe.
    pub(crate) fn start<G: Gate>(&self, gate: &G) {
        if self.number < self.map.stripes() {
            gate.pass(Place::WalkStart, self.number as u32);
        }
    }
}
