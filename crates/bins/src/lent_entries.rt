//! Entries that are lent where they lie, however they are stored.
ghost use Rattle.std.specs.Prelude.{◌≡◌, ◌<◌, ◌≤◌, ◌^◌, ◌↔◌, length, IsTrue};
ghost use Rattle.bins.specs.Lent.{entries_stored, ArePaired};
ghost use Rattle.bins.specs.Entries.{entry_of, entries_in};
ghost use Rattle.bins.specs.Table.{Entry};

use crate::rows::Rows;
use bpf_model::limits::{KEY_BYTES, VALUE_BYTES};
use bpf_model::{Key, Value};
use std::marker::Model;

/// What stores the entries.
#[derive(Drop)]
pub(crate) enum Storage<'a> {
    // Each in a row.
    Rows(&'a Rows),
    // Each as a pair.
    Pairs(&'a [(Key, Value)]),
}

/// Entries that lie where they are kept, in an order that stays while they are lent. None is copied.
#[derive(Drop)]
pub struct LentEntries<'a> {
    storage: Storage<'a>,
    count: usize,
}

impl<'a> Model for LentEntries<'a> {
    ghost use Rattle.std.specs.Prelude.{◌≡◌, ◌<◌, ◌^◌, List, length};
    ghost use Rattle.bins.specs.Table.{Entry};
    ghost use Rattle.bins.specs.Lent.{entries_stored, ArePaired};

    ghost Value = { List Entry };

    ghost view = { λ lent. entries_stored lent.storage };

    ghost invariant = { λ lent. ArePaired lent.storage
        × (lent.count ≡ length (entries_stored lent.storage))
        × (lent.count < 2 ^ 57) };
}

impl<'a> LentEntries<'a> {
    /// Lends the entries of these rows.
    #[inline(always)]
    pub(crate) fn of_rows(rows: &'a Rows) -> LentEntries<'a>
        requires paired { length rows.now.keys ≡ length rows.now.values }
        ensures entries { result ≡ entries_in rows.now.keys rows.now.values }
        ensures few { length result < 2 ^ 57 }
    {
        LentEntries {
            storage: Storage::Rows(rows),
            count: rows.len(),
        }
    }

    /// Lends these entries.
    pub(crate) fn of_pairs(pairs: &'a [(Key, Value)]) -> LentEntries<'a>
        ensures entries { result ≡ pairs.now }
        ensures few { length result < 2 ^ 57 }
    {
        LentEntries {
            storage: Storage::Pairs(pairs),
            count: pairs.len(),
        }
    }

    /// Returns what stores the entries.
    pub(crate) fn storage(&self) -> &Storage<'a>
        ensures entries { entries_stored result.now ≡ self.now }
        ensures paired { ArePaired result.now }
    {
        &self.storage
    }

    /// Returns the number of entries. Takes no memory.
    #[inline(always)]
    pub fn len(&self) -> usize
        ensures value { result ≡ length self.now }
        // No memory has room for 2 ^ 57 entries.
        ensures few { result < 2 ^ 57 }
    {
        self.count
    }

    /// Returns whether there is no entry. Takes no memory.
    pub fn is_empty(&self) -> bool
        ensures exact { IsTrue result ↔ (length self.now ≡ 0) }
    {
        self.len() == 0
    }

    /// Returns the key and the value at a position. Takes no memory.
    #[inline(always)]
    pub fn get(&self, position: usize) -> (&[u8], &[u8])
        requires { position < length self.now }
        ensures entry { ◌≡◌ {A = Entry} (result.0.now, result.1.now) (entry_of self.now position) }
        ensures key { length result.0.now ≤ KEY_BYTES }
        ensures value { length result.1.now ≤ VALUE_BYTES }
    {
        match &self.storage {
            Storage::Rows(rows) => rows.get_any(position),
            Storage::Pairs(pairs) => pair_at(pairs, position),
        }
    }

    /// Returns the key at a position; no bytes if it is after the last one. Takes no memory.
    #[inline(always)]
    pub fn key(&self, position: usize) -> &[u8]
        ensures value { result.now ≡ (entry_of self.now position).0 }
        ensures fits { length result.now ≤ KEY_BYTES }
    {
        if position < self.len() {
            return self.get(position).0;
        }
        &[]
    }
}

/// Returns the key and the value at a position of pairs.
fn pair_at(pairs: &[(Key, Value)], position: usize) -> (&[u8], &[u8])
    requires { position < length pairs.now }
    ensures entry { ◌≡◌ {A = Entry} (result.0.now, result.1.now) (entry_of pairs.now position) }
    ensures key { length result.0.now ≤ KEY_BYTES }
    ensures value { length result.1.now ≤ VALUE_BYTES }
{
    let (key, value) = &pairs[position];
    (key.as_slice(), value.as_slice())
}
