//! Lists of entries, in rows of many widths.
ghost use Rattle.std.specs.Prelude.{◌≡◌, ◌+◌, ◌<◌, ◌≤◌, ◌++◌, ◌∷◌, ◌↔◌, [], length, map, IfOk, IsTrue, OnOk, OnErr};
ghost use Rattle.std.specs.List.Sorted.{IsPermutation, IsSortedBy};
ghost use Rattle.bins.specs.KeptRows.{string_at};
ghost use Rattle.bins.specs.Copies.{comes_before, is_before, positions_of};
ghost use Rattle.bins.specs.Entries.{entries_at, entries_in, entry_of};
ghost use Rattle.bins.specs.Fronts.{front, AreBytes};
ghost use Rattle.bins.specs.Table.{Entry, by_bytes};

use crate::hashes::front_of;
use crate::lent_entries::{LentEntries, Storage};
use crate::rows::Rows;
use bpf_model::limits::{KEY_BYTES, VALUE_BYTES};
use bpf_model::{Key, NoMemory, Value};
use std::alloc::Global;
use std::cmp::Ordering;
use std::marker::Model;

/// A list of entries in rows, each a key and its value. Room for the longest is reserved, and not touched before it is
/// needed.
#[derive(Drop)]
pub struct EntryList {
    rows: Rows,
}

impl Model for EntryList {
    ghost use Rattle.std.specs.Prelude.{◌≡◌, List, length};
    ghost use Rattle.bins.specs.Table.{Entry};
    ghost use Rattle.bins.specs.Entries.{entries_in};

    ghost Value = { List Entry };

    ghost view = { λ list. entries_in list.rows.keys list.rows.values };

    ghost invariant = { λ list. length list.rows.keys ≡ length list.rows.values };
}

impl EntryList {
    /// Makes a list without entries. Takes no memory.
    pub fn new(alloc: Global) -> EntryList
        ensures { result ≡ [] }
    {
        EntryList {
            rows: Rows::new(alloc),
        }
    }

    /// Returns the number of entries. Takes no memory.
    #[inline(always)]
    pub fn len(&self) -> usize
        ensures value { result ≡ length self.now }
    {
        self.rows.len()
    }

    /// Returns how many bytes the list takes: of room that it keeps for later, as much as it has touched. Takes no memory.
    pub fn bytes(&self) -> usize {
        self.rows.bytes()
    }

    /// Returns whether there is no entry. Takes no memory.
    pub fn is_empty(&self) -> bool
        ensures exact { IsTrue result ↔ (length self.now ≡ 0) }
    {
        self.len() == 0
    }

    /// Returns the key and the value at a position. Takes no memory.
    #[inline(always)]
    pub fn get(&self, position: usize) -> (&[u8], &[u8])
        requires { position < length self.now }
        ensures entry { ◌≡◌ {A = Entry} (result.0.now, result.1.now) (entry_of self.now position) }
        ensures key { length result.0.now ≤ KEY_BYTES }
        ensures value { length result.1.now ≤ VALUE_BYTES }
    {
        self.get_any(position)
    }

    /// Returns the key and the value at a position; no bytes if it is after the last one. Takes no memory.
    #[inline(always)]
    pub(crate) fn get_any(&self, position: usize) -> (&[u8], &[u8])
        ensures entry { ◌≡◌ {A = Entry} (result.0.now, result.1.now) (entry_of self.now position) }
        ensures key { length result.0.now ≤ KEY_BYTES }
        ensures value { length result.1.now ≤ VALUE_BYTES }
    {
        self.rows.get_any(position)
    }

    /// Returns the key at a position; no bytes if it is after the last one. Takes no memory.
    #[inline(always)]
    pub fn key(&self, position: usize) -> &[u8]
        ensures value { result.now ≡ (entry_of self.now position).0 }
        ensures fits { length result.now ≤ KEY_BYTES }
    {
        self.get_any(position).0
    }

    /// Returns the first eight bytes of the key at a position, as a number. If it is less than another key's, the key comes
    /// before that one. Takes no memory.
    #[inline(always)]
    pub fn front(&self, position: usize) -> u64
        ensures value { result ≡ front 8 (entry_of self.now position).0 }
        ensures bytes { AreBytes (entry_of self.now position).0 }
    {
        front_of(self.key(position))
    }

    /// Asks for memory for this many more entries. Returns `NoMemory` if that is refused; the entries are then unchanged.
    pub fn reserve(&mut self, more: usize) -> Result<(), NoMemory>
        ensures same { self.new ≡ self.old }
    {
        self.rows.reserve(more)?;
        Ok(())
    }

    /// Adds an entry after the others. Asks for memory if there is no room for it. Returns `NoMemory` if that is refused;
    /// the entries are then unchanged.
    #[inline(always)]
    pub fn push(&mut self, key: &[u8], value: &[u8]) -> Result<(), NoMemory>
        requires key { length key.now ≤ KEY_BYTES }
        requires value { length value.now ≤ VALUE_BYTES }
        ensures ok { OnOk result (self.new ≡ self.old ++ (key.now, value.now) ∷ []) }
        ensures err { OnErr result (self.new ≡ self.old) }
    {
        self.rows.reserve(1)?;
        self.rows.push_reserved(key, value);
        Ok(())
    }

    /// Lends the entries. Takes no memory.
    #[inline(always)]
    pub fn lend(&self) -> LentEntries<'_>
        ensures { result ≡ self.now }
    {
        LentEntries::of_rows(&self.rows)
    }

    /// Adds copies of these entries after the others. Asks for memory if there is no room for them. Returns `NoMemory` if that
    /// is refused; the entries are then unchanged.
    pub fn add_all(&mut self, entries: &LentEntries<'_>) -> Result<(), NoMemory>
        ensures ok { OnOk result (self.new ≡ self.old ++ entries.now) }
        ensures err { OnErr result (self.new ≡ self.old) }
    {
        match entries.storage() {
            Storage::Rows(rows) => self.add_rows(rows),
            Storage::Pairs(pairs) => self.add_pairs(pairs),
        }
    }

    /// Adds copies of the entries of these rows. Asks for memory if there is no room for them.
    fn add_rows(&mut self, rows: &Rows) -> Result<(), NoMemory>
        requires paired { length rows.now.keys ≡ length rows.now.values }
        ensures ok { OnOk result (self.new ≡ self.old ++ entries_in rows.now.keys rows.now.values) }
        ensures err { OnErr result (self.new ≡ self.old) }
    {
        let more = rows.len();
        self.rows.reserve(more)?;
        self.rows.push_all(rows);
        Ok(())
    }

    /// Adds copies of these entries. Asks for memory if there is no room for them.
    fn add_pairs(&mut self, pairs: &[(Key, Value)]) -> Result<(), NoMemory>
        ensures ok { OnOk result (self.new ≡ self.old ++ pairs.now) }
        ensures err { OnErr result (self.new ≡ self.old) }
    {
        let more = pairs.len();
        self.rows.reserve(more)?;
        push_pairs(&mut self.rows, pairs);
        Ok(())
    }

    /// Returns all positions, in the order of the keys at them. Asks for memory for them, and then for as much again.
    pub(crate) fn order(&self, alloc: Global) -> Result<Vec<usize>, NoMemory>
        ensures moved { IfOk result (λ order. IsPermutation self.now (entries_at self.now order.items)) }
        ensures order { IfOk result (λ order. IsSortedBy comes_before (entries_at self.now order.items)) }
    {
        let order = order_of(alloc, &self.rows)?;
        Ok(order)
    }
}

/// Adds copies of these entries to the rows, which have room for them.
fn push_pairs(rows: &mut Rows, pairs: &[(Key, Value)])
    requires room { length rows.old.keys + length pairs.now ≤ rows.old.room }
    ensures keys { rows.new.keys ≡ rows.old.keys ++ map (λ pair. pair.0) pairs.now }
    ensures values { rows.new.values ≡ rows.old.values ++ map (λ pair. pair.1) pairs.now }
{
    for pair in pairs {
        rows.push_reserved(pair.0.as_slice(), pair.1.as_slice());
    }
}

/// Compares the keys at two positions.
#[inline(always)]
fn compare_at(rows: &Rows, one: usize, other: usize) -> Ordering
    ensures { result ≡ by_bytes (string_at rows.now.keys one) (string_at rows.now.keys other) }
{
    rows.get_any(one).0.cmp(rows.get_any(other).0)
}

/// Returns all positions, sorted by the first bytes of the keys at them. That is quick, since numbers are compared, and
/// nearly the order of the keys: only keys that begin alike are left to sort.
fn nearly_ordered(alloc: Global, rows: &Rows) -> Result<Vec<usize>, NoMemory>
    ensures moved { IfOk result (λ order. IsPermutation (positions_of rows.now.keys) order.items) }
{
    let many = rows.len();
    let mut fronts = Vec::with_capacity(alloc, many)?;
    for position in 0..many {
        fronts.push_reserved((front_of(rows.get_any(position).0), position));
    }
    fronts.sort_unstable_by_key(|front| front.0);
    let mut order = Vec::with_capacity(alloc, many)?;
    for front in &fronts {
        order.push(front.1)?;
    }
    Ok(order)
}

/// Returns all positions, in the order of the keys at them.
fn order_of(alloc: Global, rows: &Rows) -> Result<Vec<usize>, NoMemory>
    ensures moved { IfOk result (λ order. IsPermutation (positions_of rows.now.keys) order.items) }
    ensures order { IfOk result (λ order. IsSortedBy (is_before rows.now.keys) order.items) }
{
    let mut order = nearly_ordered(alloc, rows)?;
    order.sort_unstable_by(|one, other| compare_at(rows, *one, *other));
    Ok(order)
}
