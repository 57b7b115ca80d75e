//! Entries in an order, read from one list or from several.
ghost use Rattle.std.specs.Prelude.{◌≡◌, ◌<◌, ◌≤◌, ◌↔◌, [], length, map, IfOk, IsTrue};
ghost use Rattle.bins.specs.Entries.{entry_of};
ghost use Rattle.bins.specs.Merged.{entry_at};
ghost use Rattle.bins.specs.Table.{Entry};

use crate::entry_list::EntryList;
use bpf_model::NoMemory;
use bpf_model::limits::{KEY_BYTES, VALUE_BYTES};
use std::alloc::Global;
use std::marker::Model;

/// The place of an entry in several lists.
#[derive(Clone, Copy, Debug, PartialEq, Eq)]
pub struct EntryPosition {
    /// The list, from 0.
    pub list: usize,
    /// The position in that list, from 0.
    pub position: usize,
}

/// What a position takes.
const POSITION_BYTES: usize = 16;

/// The source of the entries.
#[derive(Drop)]
enum Source {
    // One list, from its front to its end.
    One(EntryList),
    // Several lists, at these positions in turn.
    Several(Vec<EntryList>, Vec<EntryPosition>),
}

/// Entries in an order. Entries of several lists are not moved: their positions are kept in that order, 16 bytes for each.
#[derive(Drop)]
pub struct MergedEntries {
    source: Source,
}

impl Model for MergedEntries {
    ghost use Rattle.std.specs.Prelude.{List};
    ghost use Rattle.bins.specs.Table.{Entry};
    ghost use Rattle.bins.specs.Merged.{merged_from};

    ghost Value = { List Entry };

    ghost view = { λ merged. merged_from merged.source };
}

impl MergedEntries {
    /// Makes a list without entries. Takes no memory.
    pub fn new(alloc: Global) -> MergedEntries
        ensures { result ≡ [] }
    {
        MergedEntries::of_one(EntryList::new(alloc))
    }

    /// Makes a list of the entries of one list, as they stand. Takes no memory.
    pub fn of_one(list: EntryList) -> MergedEntries
        ensures { result ≡ list }
    {
        MergedEntries {
            source: Source::One(list),
        }
    }

    /// Makes a list of the entries at these positions of several lists. Takes no memory.
    pub fn of_several(lists: Vec<EntryList>, positions: Vec<EntryPosition>) -> MergedEntries
        ensures { result ≡ map (entry_at lists.items) positions.items }
    {
        MergedEntries {
            source: Source::Several(lists, positions),
        }
    }

    /// Returns the number of entries. Takes no memory.
    pub fn len(&self) -> usize
        ensures value { result ≡ length self.now }
    {
        match &self.source {
            Source::One(list) => list.len(),
            Source::Several(_, positions) => positions.len(),
        }
    }

    /// Returns how many bytes the lists and the positions take. Takes no memory.
    pub fn bytes(&self) -> usize {
        match &self.source {
            Source::One(list) => list.bytes(),
            Source::Several(lists, positions) => {
                let placed = positions.capacity().saturating_mul(POSITION_BYTES);
                bytes_of(lists).saturating_add(placed)
            }
        }
    }

    /// Returns the key and the value at a position. Takes no memory.
    #[inline(always)]
    pub fn get(&self, position: usize) -> (&[u8], &[u8])
        requires { position < length self.now }
        ensures entry { ◌≡◌ {A = Entry} (result.0.now, result.1.now) (entry_of self.now position) }
        ensures key { length result.0.now ≤ KEY_BYTES }
        ensures value { length result.1.now ≤ VALUE_BYTES }
    {
        match &self.source {
            Source::One(list) => list.get(position),
            Source::Several(lists, positions) => get_at(lists, positions[position]),
        }
    }

    /// Returns whether these are the same entries in the same order. Takes no memory.
    pub fn is_same(&self, other: &MergedEntries) -> bool
        ensures exact { IsTrue result ↔ (self.now ≡ other.now) }
    {
        if self.len() != other.len() {
            return false;
        }
        for position in 0..self.len() {
            let (key, value) = other.get(position);
            if !self.is_at(position, key, value) {
                return false;
            }
        }
        true
    }

    /// Returns whether the entry at a position has this key and this value.
    fn is_at(&self, position: usize, key: &[u8], value: &[u8]) -> bool
        requires { position < length self.now }
        ensures exact { IsTrue result ↔ (entry_of self.now position ≡ (key.now, value.now)) }
    {
        let entry = self.get(position);
        entry.0 == key && entry.1 == value
    }

    /// Copies the entries into one list. Asks for memory for them. Returns `NoMemory` if that is refused.
    pub fn copied(&self, alloc: Global) -> Result<EntryList, NoMemory>
        ensures { IfOk result (λ copies. copies ≡ self.now) }
    {
        let mut copies = EntryList::new(alloc);
        for position in 0..self.len() {
            let (key, value) = self.get(position);
            copies.push(key, value)?;
        }
        Ok(copies)
    }
}

/// Returns how many bytes these lists take.
fn bytes_of(lists: &[EntryList]) -> usize {
    let mut bytes = 0usize;
    for list in lists {
        bytes = bytes.saturating_add(list.bytes());
    }
    bytes
}

/// Returns the key and the value at a position of several lists; no bytes if no entry stands there.
#[inline(always)]
fn get_at(lists: &[EntryList], at: EntryPosition) -> (&[u8], &[u8])
    ensures entry { ◌≡◌ {A = Entry} (result.0.now, result.1.now) (entry_at lists.now at) }
    ensures key { length result.0.now ≤ KEY_BYTES }
    ensures value { length result.1.now ≤ VALUE_BYTES }
{
    match lists.get(at.list) {
        Some(list) => list.get_any(at.position),
        None => (&[], &[]),
    }
}
