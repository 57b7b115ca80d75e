//! Which programs a registry knows by their digest, how much it has and how much it may have.
ghost use Rattle.std.specs.Prelude.{◌≡◌, ◌≤◌, ◌+◌, ◌-◌, IfSome};

use crate::sent::Digest;
use std::alloc::Global;
use std::collections::BTreeMap;

/// How many programs a registry takes, and how many bytes these may need, with the texts that are kept beside them.
#[derive(Clone, Copy, Debug, PartialEq, Eq)]
pub struct Bounds {
    pub programs: usize,
    pub bytes: u64,
}

impl Bounds {
    /// Memory alone bounds the registry.
    pub const NONE: Bounds = Bounds {
        programs: usize::MAX,
        bytes: u64::MAX,
    };
}

/// How many programs there are, and how many bytes they need with the texts beside them.
#[derive(Clone, Copy)]
pub(crate) struct Taken {
    programs: usize,
    bytes: u64,
}

/// The numbers of the programs that were registered by their bytes, what is taken, and what may be. A digest alone isn't trusted: the
/// sizes and bytes are compared with the program of that number.
#[derive(Drop)]
pub(crate) struct Known {
    numbers: BTreeMap<Digest, u64>,
    taken: Taken,
    bounds: Bounds,
    ghost programs_within: { taken.programs ≤ bounds.programs },
    ghost bytes_within: { taken.bytes ≤ bounds.bytes },
}

impl Known {
    /// Has no programs, and keeps to the bounds.
    pub(crate) fn new(alloc: Global, bounds: Bounds) -> Known
        ensures { result.bounds ≡ bounds }
    {
        Known {
            numbers: BTreeMap::new(alloc),
            taken: Taken {
                programs: 0,
                bytes: 0,
            },
            bounds,
        }
    }

    /// Returns the number that was last noted for the digest.
    pub(crate) fn number_of(&self, digest: Digest) -> Option<u64> {
        self.numbers.get(&digest).copied()
    }

    /// Returns how many bytes are taken.
    pub(crate) fn bytes(&self) -> u64
        ensures { result ≡ self.now.taken.bytes }
    {
        self.taken.bytes
    }

    /// Returns what is taken with this many programs and bytes more, if that is within the bounds.
    pub(crate) fn with(&self, programs: usize, bytes: u64) -> Option<Taken>
        ensures programs { IfSome result (λ taken. (taken.programs ≡ self.now.taken.programs + programs) × taken.programs ≤ self.now.bounds.programs) }
        ensures bytes { IfSome result (λ taken. (taken.bytes ≡ self.now.taken.bytes + bytes) × taken.bytes ≤ self.now.bounds.bytes) }
    {
        let programs = self.taken.programs.checked_add(programs)?;
        let bytes = self.taken.bytes.checked_add(bytes)?;
        if programs <= self.bounds.programs && bytes <= self.bounds.bytes {
            Some(Taken { programs, bytes })
        } else {
            None
        }
    }

    /// So much is taken now.
    pub(crate) fn take(&mut self, taken: Taken)
        requires programs { taken.programs ≤ self.old.bounds.programs }
        requires bytes { taken.bytes ≤ self.old.bounds.bytes }
        ensures taken { self.new.taken ≡ taken }
        ensures bounds { self.new.bounds ≡ self.old.bounds }
    {
        self.taken = taken;
    }

    /// This many bytes are not needed any more.
    pub(crate) fn give_back(&mut self, bytes: u64)
        ensures bytes { self.new.taken.bytes ≡ self.old.taken.bytes - bytes }
        ensures programs { self.new.taken.programs ≡ self.old.taken.programs }
        ensures bounds { self.new.bounds ≡ self.old.bounds }
    {
        self.taken.bytes = self.taken.bytes.saturating_sub(bytes);
    }

    /// Notes the digest's number. If memory for it is refused, the program keeps its number but can't be found by its
    /// digest.
    pub(crate) fn note(&mut self, digest: Digest, number: u64) {
        let _ = self.numbers.insert(digest, number);
    }
}
