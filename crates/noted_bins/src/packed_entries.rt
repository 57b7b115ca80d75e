//! Entries side by side in one list of bytes.
ghost use Rattle.std.specs.Prelude.{◌≡◌, ◌<◌, ◌≤◌, ◌++◌, [], ◌∷◌, length, take, OnOk, OnErr};
ghost use Rattle.bins.specs.Entries.{entry_of};
ghost use Rattle.bins.specs.Table.{Entry};

use bins::LentEntries;
use bpf_model::NoMemory;
use bpf_model::limits::{KEY_BYTES, VALUE_BYTES};
use std::alloc::Global;
use std::marker::Model;

/// When the entries are dropped, the list keeps memory for this many bytes.
const KEPT_BYTES: usize = 1 << 18;

/// And for the places of this many entries.
pub(crate) const KEPT_PLACES: usize = 1 << 12;

/// Where an entry lies: its key, and then its value.
#[derive(Clone, Copy)]
pub(crate) struct Place {
    start: usize,
    middle: usize,
    end: usize,
}

/// A list of entries that is filled again and again: it keeps its memory when its entries are dropped, and an entry takes no more than
/// its bytes and 24 more.
#[derive(Drop)]
pub(crate) struct PackedEntries {
    bytes: Vec<u8>,
    places: Vec<Place>,
}

impl Model for PackedEntries {
    ghost use Rattle.std.specs.Prelude.{List, length, map, All};
    ghost use Rattle.bins.specs.Table.{Entry};
    ghost use Rattle.noted_bins.specs.Packed.{LiesIn, entry_at};

    ghost Value = { List Entry };

    ghost view = { λ packed. map (entry_at packed.bytes.items) packed.places.items };

    ghost invariant = { λ packed. All (LiesIn (length packed.bytes.items)) packed.places.items };
}

impl PackedEntries {
    /// Makes a list without entries. Takes no memory.
    pub(crate) fn new(alloc: Global) -> PackedEntries
        ensures { result ≡ [] }
    {
        PackedEntries {
            bytes: Vec::new(alloc),
            places: Vec::new(alloc),
        }
    }

    /// Returns the number of entries.
    pub(crate) fn len(&self) -> usize
        ensures value { result ≡ length self.now }
    {
        self.places.len()
    }

    /// Returns the key and the value at a position.
    pub(crate) fn get(&self, position: usize) -> (&[u8], &[u8])
        requires { position < length self.now }
        ensures entry { ◌≡◌ {A = Entry} (result.0.now, result.1.now) (entry_of self.now position) }
        ensures key { length result.0.now ≤ KEY_BYTES }
        ensures value { length result.1.now ≤ VALUE_BYTES }
    {
        let place = self.places[position];
        let key = &self.bytes[place.start..place.middle];
        (key, &self.bytes[place.middle..place.end])
    }

    /// Adds an entry after the others. Returns `NoMemory` if a request for memory is refused; then nothing changes.
    pub(crate) fn push(&mut self, key: &[u8], value: &[u8]) -> Result<(), NoMemory>
        requires key { length key.now ≤ KEY_BYTES }
        requires value { length value.now ≤ VALUE_BYTES }
        ensures ok { OnOk result (self.new ≡ self.old ++ (key.now, value.now) ∷ []) }
        ensures err { OnErr result (self.new ≡ self.old) }
    {
        let start = self.bytes.len();
        self.bytes.extend_from_slice(key)?;
        let middle = self.bytes.len();
        self.bytes.extend_from_slice(value)?;
        let end = self.bytes.len();
        self.places.push(Place { start, middle, end })?;
        Ok(())
    }

    /// Adds copies of these entries after the others. Returns `NoMemory` if a request for memory is refused; then nothing changes.
    pub(crate) fn add_all(&mut self, entries: &LentEntries<'_>) -> Result<(), NoMemory>
        ensures ok { OnOk result (self.new ≡ self.old ++ entries.now) }
        ensures err { OnErr result (self.new ≡ self.old) }
    {
        let before = self.len();
        for position in 0..entries.len() {
            let (key, value) = entries.get(position);
            if let Err(fault) = self.push(key, value) {
                self.truncate(before);
                return Err(fault);
            }
        }
        Ok(())
    }

    /// Drops all entries but the first ones.
    fn truncate(&mut self, many: usize)
        ensures { self.new ≡ take many self.old }
    {
        self.places.truncate(many);
    }

    /// Drops all entries. Keeps the memory for as many as a save mostly takes at once.
    pub(crate) fn clear(&mut self)
        ensures { self.new ≡ [] }
    {
        self.places.clear();
        self.bytes.clear();
        self.places.shrink_to(KEPT_PLACES);
        self.bytes.shrink_to(KEPT_BYTES);
    }
}
