//! A filter of keys: it may take a key for one that was added, but never the other way round.
ghost use Rattle.std.specs.Prelude.{◌≡◌, ◌<◌, ℕ, List, [], length, replicate, true, false, IsTrue, IfOk};
ghost use Rattle.noted_bins.specs.Filters.{may_have, slot_in};

use bins::HashedKey;
use bpf_model::NoMemory;
use std::alloc::Global;
use std::marker::Model;

/// A Bloom filter with one hash: a byte for each slot, and each key has a slot by its hash. If it is off, it has no slots.
#[derive(Drop)]
pub(crate) struct KeyFilter {
    slots: Vec<bool>,
}

impl Model for KeyFilter {
    ghost use Rattle.std.specs.Prelude.{Bool, List};

    ghost Value = { List Bool };

    ghost view = { λ filter. filter.slots.items };
}

impl KeyFilter {
    /// A filter that is off. Takes no memory.
    pub(crate) fn off(alloc: Global) -> KeyFilter
        ensures { result ≡ [] }
    {
        KeyFilter {
            slots: Vec::new(alloc),
        }
    }

    /// A filter of this many slots that has no key, or may have each. Returns `NoMemory` if a request for memory is refused.
    pub(crate) fn of(alloc: Global, slots: usize, is_full: bool) -> Result<KeyFilter, NoMemory>
        ensures { IfOk result (λ filter. filter ≡ replicate slots is_full) }
    {
        let mut all = Vec::with_capacity(alloc, slots)?;
        all.resize(slots, is_full)?;
        Ok(KeyFilter { slots: all })
    }

    /// Returns whether the filter is on.
    #[inline(always)]
    pub(crate) fn is_on(&self) -> bool
        ensures on { IsTrue result → 0 < length self.now }
        ensures off { result ≡ false → self.now ≡ [] }
    {
        !self.slots.is_empty()
    }

    /// Returns how many bytes the slots take for which there is room.
    pub(crate) fn bytes(&self) -> usize {
        self.slots.capacity()
    }

    /// Turns the filter off, and gives its memory back.
    pub(crate) fn turn_off(&mut self)
        ensures { self.new ≡ [] }
    {
        self.slots.clear();
        self.slots.shrink_to(0);
    }

    /// Adds a key.
    pub(crate) fn add(&mut self, key: &HashedKey<'_>)
        requires on { 0 < length self.old }
        ensures added { may_have self.new key.now ≡ true }
        ensures others { (other : List ℕ) → may_have self.new other ≡ false → may_have self.old other ≡ false }
    {
        let slot = slot_of(self.slots.len(), key.hash());
        self.slots[slot] = true;
    }

    /// Returns whether a key with this one's slot was added.
    pub(crate) fn may_have(&self, key: &HashedKey<'_>) -> bool
        ensures { result ≡ may_have self.now key.now }
    {
        if !self.is_on() {
            return false;
        }
        self.slots[slot_of(self.slots.len(), key.hash())]
    }
}

/// Returns the slot of a hash among this many. All keys of a stripe have the same remainder of their hashes, so it is mixed.
#[inline(always)]
fn slot_of(slots: usize, hash: u32) -> usize
    requires { 0 < slots }
    ensures value { result ≡ slot_in slots hash }
    ensures inside { result < slots }
{
    (u64::from(hash) * 0x9E37_79B1 / 0x10_0000) as usize % slots
}
