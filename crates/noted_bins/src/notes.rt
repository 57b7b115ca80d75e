//! Which keys changed.
ghost use Rattle.std.specs.Prelude.{◌≡◌, ◌++◌, ◌<◌, [], ◌∷◌, ℕ, List, true, false, IsTrue, IfOk, OnOk, MatchOption};
ghost use Rattle.bins.specs.Table.{Table};
ghost use Rattle.noted_bins.specs.Filters.{may_have};
ghost use Rattle.noted_bins.specs.Notes.{KeepsNoted, NotesKey, has_key};

use crate::key_filter::KeyFilter;
use crate::short_key::ShortKey;
use bins::{Bins, HashedKey};
use bpf_model::{Key, NoMemory};
use std::alloc::Global;
use std::marker::Model;
use std::mem;

/// The lists have room for this many keys, and for one more for each `PART` entries. If they are full, the filter is turned on.
const FEW: u64 = 128;

/// A key in the lists for this many entries.
const PART: u64 = 1024;

/// If the filter is on, the lists have room for this many times as many keys. If they are full then, all keys are noted.
const MORE: u64 = 2;

/// Slots for the positions of keys that were noted last.
const RECENT: usize = 256;

/// The keys that changed: all, or those in two lists, the short keys and the long ones, and those keys with an entry that the
/// filter may have. A short key takes sixteen bytes, a long one 72. If many keys change, those that have an entry go to the
/// filter, which takes a byte for each entry, and just the others to the lists.
#[derive(Drop)]
pub(crate) struct Notes {
    alloc: Global,
    all: bool,
    short: Vec<ShortKey>,
    long: Vec<Key>,
    filter: KeyFilter,
    // By the hashes of keys, the positions at which they were put. By now another key may stand there, or none.
    recent: [u32; RECENT],
}

impl Model for Notes {
    ghost use Rattle.std.specs.Prelude.{◌++◌};
    ghost use Rattle.noted_bins.specs.Notes.{NotedKeys, noted_code};

    ghost Value = { NotedKeys };

    ghost coded = { noted_code };

    ghost view = { λ notes. record { all = notes.all; keys = notes.short.items ++ notes.long.items; filter = notes.filter } };
}

impl Notes {
    /// Notes all keys. Takes no memory.
    pub(crate) fn of_all(alloc: Global) -> Notes
        ensures { result.all ≡ true }
    {
        Notes {
            alloc,
            all: true,
            short: Vec::new(alloc),
            long: Vec::new(alloc),
            filter: KeyFilter::off(alloc),
            recent: [0; RECENT],
        }
    }

    /// Returns whether all keys are noted, since it isn't known which changed.
    #[inline(always)]
    pub(crate) fn are_all(&self) -> bool
        ensures { result ≡ self.now.all }
    {
        self.all
    }

    /// Returns whether the filter is on.
    #[inline(always)]
    pub(crate) fn is_filtered(&self) -> bool
        ensures { result ≡ false → self.now.filter ≡ [] }
    {
        self.filter.is_on()
    }

    /// Returns the filter.
    #[inline(always)]
    pub(crate) fn filter(&self) -> &KeyFilter
        ensures { result.now ≡ self.now.filter }
    {
        &self.filter
    }

    /// Returns how many bytes the keys take that the lists have room for, and the filter.
    pub(crate) fn bytes(&self) -> u64 {
        let short = self.short.capacity().saturating_mul(size_of::<ShortKey>());
        let long = self.long.capacity().saturating_mul(size_of::<Key>());
        short
            .saturating_add(long)
            .saturating_add(self.filter.bytes()) as u64
    }

    /// Returns how many keys the lists have.
    fn listed(&self) -> u64 {
        (self.short.len() as u64).saturating_add(self.long.len() as u64)
    }

    /// Returns whether the lists are empty.
    pub(crate) fn is_empty(&self) -> bool
        ensures { IsTrue result → self.now.keys ≡ [] }
    {
        self.short.is_empty() && self.long.is_empty()
    }

    /// Empties the lists, and turns the filter off. Takes no memory.
    fn clear(&mut self)
        ensures all { self.new.all ≡ self.old.all }
        ensures keys { self.new.keys ≡ [] }
        ensures filter { self.new.filter ≡ [] }
    {
        self.short.clear();
        self.long.clear();
        self.filter.turn_off();
    }

    /// Notes all keys. Takes no memory.
    pub(crate) fn note_all(&mut self)
        ensures { self.new.all ≡ true }
    {
        self.clear();
        self.all = true;
    }

    /// Forgets all keys. Takes no memory.
    pub(crate) fn forget(&mut self)
        ensures all { self.new.all ≡ false }
        ensures keys { self.new.keys ≡ [] }
        ensures filter { self.new.filter ≡ [] }
    {
        self.clear();
        self.all = false;
    }

    /// Notes a key of these bins, which are as they are after its change. If too many changed, or a request for memory is refused,
    /// all are noted.
    #[inline(always)]
    pub(crate) fn note<B: Bins>(&mut self, key: &HashedKey<'_>, bins: &B)
        ensures { NotesKey (B.table bins.now) self.old key.now self.new }
    {
        if self.all || self.is_recent(key) {
            return;
        }
        self.add(key, bins);
    }

    /// Returns whether a key is noted, by the position at which one with its hash was noted last. It may be noted if it
    /// returns `false`. It is separate so that calls on a map that isn't kept have no comparison in them.
    #[inline(never)]
    fn is_recent(&self, key: &HashedKey<'_>) -> bool
        ensures { IsTrue result → has_key self.now.keys key.now ≡ true }
    {
        let bytes = key.key().as_slice();
        let position = self.recent[slot_of(key)] as usize;
        if position < self.short.len() && self.short[position].as_slice() == bytes {
            return true;
        }
        position < self.long.len() && self.long[position].as_slice() == bytes
    }

    /// Adds a key to the filter if that is on and the key has an entry, else to its list. If that has no room, or a request for
    /// memory is refused, all keys are noted.
    #[inline(never)]
    fn add<B: Bins>(&mut self, key: &HashedKey<'_>, bins: &B)
        ensures { NotesKey (B.table bins.now) self.old key.now self.new }
    {
        let room = FEW.saturating_add(bins.count() / PART);
        if self.listed() >= room {
            self.turn_filter_on(bins.count());
        }
        if self.filter.is_on() && bins.find(key).is_some() {
            self.filter.add(key);
            return;
        }
        if self.listed() >= room.saturating_mul(MORE) || self.push(key).is_err() {
            self.note_all();
        }
    }

    /// Turns the filter on, with a slot for each of this many entries, unless it is on. If a request for memory is refused, all
    /// keys are noted.
    fn turn_filter_on(&mut self, entries: u64)
        ensures { (table : Table) → KeepsNoted table self.old self.new }
    {
        if self.filter.is_on() {
            return;
        }
        match KeyFilter::of(self.alloc, slots_for(entries), false) {
            Ok(filter) => self.filter = filter,
            Err(NoMemory) => self.note_all(),
        }
    }

    /// Turns the filter off, and returns it as it was.
    pub(crate) fn take_filter(&mut self) -> KeyFilter
        ensures taken { result ≡ self.old.filter }
        ensures all { self.new.all ≡ self.old.all }
        ensures keys { self.new.keys ≡ self.old.keys }
        ensures filter { self.new.filter ≡ [] }
    {
        mem::replace(&mut self.filter, KeyFilter::off(self.alloc))
    }

    /// Returns a filter that may have each key. Returns `NoMemory` if a request for memory is refused.
    pub(crate) fn whole_filter(&self) -> Result<KeyFilter, NoMemory>
        ensures { IfOk result (λ filter. (key : List ℕ) → may_have filter key ≡ true) }
    {
        KeyFilter::of(self.alloc, 1, true)
    }

    /// Adds a key to its list, and remembers its position.
    fn push(&mut self, key: &HashedKey<'_>) -> Result<(), NoMemory>
        ensures { OnOk result ((table : Table) → NotesKey table self.old key.now self.new) }
    {
        let position = self.keep(key.key())?;
        self.recent[slot_of(key)] = u32::try_from(position).unwrap_or(u32::MAX);
        Ok(())
    }

    /// Adds a key to its list. Returns its position there.
    fn keep(&mut self, key: &Key) -> Result<usize, NoMemory>
        ensures { OnOk result ((table : Table) → NotesKey table self.old key.now self.new) }
    {
        match ShortKey::from_slice(key.as_slice()) {
            Some(short) => {
                self.short.push(short)?;
                Ok(self.short.len() - 1)
            }
            None => {
                self.long.push(key.copied())?;
                Ok(self.long.len() - 1)
            }
        }
    }

    /// Returns a copy of the key at the end. Takes no memory.
    pub(crate) fn last(&self) -> Option<Key>
        ensures { MatchOption result (self.now.keys ≡ [])
            (λ key. (rest : List (List ℕ)) × (self.now.keys ≡ rest ++ key ∷ [])) }
    {
        if let Some(key) = self.long.last() {
            return Some(key.copied());
        }
        let key = self.short.last()?;
        Some(Key::from_slice(key.as_slice()).unwrap())
    }

    /// Drops the key at the end.
    pub(crate) fn drop_last(&mut self)
        ensures all { self.new.all ≡ self.old.all }
        ensures filter { self.new.filter ≡ self.old.filter }
        ensures keys { (rest : List (List ℕ)) (key : List ℕ) → self.old.keys ≡ rest ++ key ∷ [] → self.new.keys ≡ rest }
    {
        if self.long.pop().is_none() {
            self.short.pop();
        }
    }
}

/// Returns the slot of a key's hash among those of keys that were noted last. All keys of a stripe have the same remainder
/// of their hashes, so it is mixed.
#[inline(always)]
fn slot_of(key: &HashedKey<'_>) -> usize
    ensures { result < RECENT }
{
    (key.hash().wrapping_mul(0x9E37_79B1) >> 24) as usize % RECENT
}

/// Returns how many slots a filter of this many entries has.
fn slots_for(entries: u64) -> usize
    ensures { 0 < result }
{
    entries.max(FEW) as usize
}
