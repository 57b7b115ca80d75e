//! What bins are opened with.

use crate::hashes::Seed;

/// How bins are opened: the seed by which they hash keys, and how much memory they may take.
#[derive(Clone, Copy)]
pub struct Opening {
    /// The seed. If you don't know it, you can't choose keys that are slow to find.
    pub seed: Seed,
    /// The most bytes that rows and index may take; none: there is no bound. If a new key would need more, it is refused as
    /// if memory were. A present key may still get a longer value.
    pub budget: Option<u64>,
}

impl Opening {
    /// Returns an opening with this seed and without a bound.
    pub fn seeded(seed: Seed) -> Opening {
        Opening { seed, budget: None }
    }
}
