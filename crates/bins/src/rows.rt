//! The keys and values of entries, in rows of many widths.
ghost use Rattle.std.specs.Prelude.{◌≡◌, ◌+◌, ◌<◌, ◌≤◌, ◌++◌, [], ◌∷◌, length, set, HoldsAt, IfNone, IfSome, OnOk};
ghost use Rattle.std.specs.List.{swap_remove};
ghost use Rattle.bins.specs.KeptRows.{string_at};

use crate::locations::MOST_ROWS;
use crate::raw_rows::RawRows;
use bpf_model::NoMemory;
use bpf_model::limits::{KEY_BYTES, VALUE_BYTES};
use std::alloc::Global;
use std::marker::Model;

/// Keys and their values, at the same positions. A position takes eight bytes, and its row takes as many as the narrowest
/// width for its key and its value. There are enough free segments for rows of any widths; they are not touched before they
/// are needed.
#[derive(Drop)]
pub(crate) struct Rows {
    raw: RawRows,
}

impl Model for Rows {
    ghost use Rattle.bins.specs.KeptRows.{KeptEntries};
    ghost use Rattle.bins.specs.Rows.{IsKept, keys_in, values_in};

    ghost Value = { KeptEntries };

    ghost view = { λ rows. record { keys = keys_in rows.raw; values = values_in rows.raw; room = rows.raw.room } };

    ghost invariant = { λ rows. IsKept rows.raw };
}

impl Rows {
    /// Makes rows without entries. Takes no memory.
    pub(crate) fn new(alloc: Global) -> Rows
        ensures keys { result.keys ≡ [] }
        ensures values { result.values ≡ [] }
    {
        Rows {
            raw: RawRows::new(alloc),
        }
    }

    /// Returns the number of entries. Takes no memory.
    #[inline(always)]
    pub(crate) fn len(&self) -> usize
        ensures value { result ≡ length self.now.keys }
        ensures few { result ≤ MOST_ROWS }
    {
        self.raw.len()
    }

    /// Returns the key at a position. Takes no memory.
    #[inline(always)]
    pub(crate) fn key(&self, position: usize) -> &[u8]
        requires { position < length self.now.keys }
        ensures value { result.now ≡ string_at self.now.keys position }
        ensures fits { length result.now ≤ KEY_BYTES }
    {
        self.raw.entry(position).0
    }

    /// Returns the value at a position. Takes no memory.
    #[inline(always)]
    pub(crate) fn value(&self, position: usize) -> &[u8]
        requires { position < length self.now.keys }
        ensures value { result.now ≡ string_at self.now.values position }
        ensures fits { length result.now ≤ VALUE_BYTES }
    {
        self.raw.entry(position).1
    }

    /// The key and the value at a position. Takes no memory.
    #[inline(always)]
    pub(crate) fn entry(&self, position: usize) -> (&[u8], &[u8])
        requires { position < length self.now.keys }
        ensures key { result.0.now ≡ string_at self.now.keys position }
        ensures value { result.1.now ≡ string_at self.now.values position }
        ensures fits { length result.1.now ≤ VALUE_BYTES }
    {
        self.raw.entry(position)
    }

    /// The key and the value at a position; no bytes after the last one. Takes no memory.
    #[inline(always)]
    pub(crate) fn get_any(&self, position: usize) -> (&[u8], &[u8])
        ensures key { result.0.now ≡ string_at self.now.keys position }
        ensures value { result.1.now ≡ string_at self.now.values position }
        ensures key_fits { length result.0.now ≤ KEY_BYTES }
        ensures value_fits { length result.1.now ≤ VALUE_BYTES }
    {
        if position < self.raw.len() {
            return self.raw.entry(position);
        }
        (&[], &[])
    }

    /// Makes room for this many more entries. Returns `NoMemory` if a request for it is refused, or if there would be more
    /// than `MOST_ROWS`; the entries are then unchanged.
    pub(crate) fn reserve(&mut self, more: usize) -> Result<(), NoMemory>
        ensures ok { OnOk result (length self.new.keys + more ≤ self.new.room) }
        ensures keys { self.new.keys ≡ self.old.keys }
        ensures values { self.new.values ≡ self.old.values }
    {
        if more > MOST_ROWS - self.raw.len() {
            return Err(NoMemory);
        }
        self.raw.reserve(more)
    }

    /// Returns how many bytes they take: those of segments that were touched so far, and what lists have room for.
    pub(crate) fn bytes(&self) -> usize {
        self.raw.bytes()
    }

    /// Returns how many bytes a new row of this many for key and value would touch first.
    pub(crate) fn untouched(&self, bytes: usize) -> usize
        requires { bytes ≤ KEY_BYTES + VALUE_BYTES }
    {
        self.raw.untouched(bytes)
    }

    /// Returns whether one more entry has no room. Takes no memory.
    #[inline(always)]
    pub(crate) fn is_full(&self) -> bool {
        self.raw.is_full()
    }

    /// Makes room for one more entry if there is none, and for at most this many further ones. Returns `NoMemory` if a
    /// request for it is refused, or if there would be more than `MOST_ROWS`.
    pub(crate) fn reserve_some(&mut self, further: usize) -> Result<(), NoMemory>
        ensures keys { self.new.keys ≡ self.old.keys }
        ensures values { self.new.values ≡ self.old.values }
    {
        if self.raw.len() >= MOST_ROWS {
            return Err(NoMemory);
        }
        self.raw.reserve_some(further)
    }

    /// Sets the value at a position. Takes no memory.
    #[inline(always)]
    pub(crate) fn set_value(&mut self, position: usize, bytes: &[u8])
        requires range { position < length self.old.keys }
        requires fits { length bytes.now ≤ VALUE_BYTES }
        ensures keys { self.new.keys ≡ self.old.keys }
        ensures values { self.new.values ≡ set self.old.values position bytes.now }
    {
        self.raw.set_value(position, bytes);
    }

    /// Sets the value of a key if its row is found at once by this position, and stays as wide. Returns the key's position if it
    /// did. Takes no memory.
    #[inline(always)]
    pub(crate) fn rewrite(&mut self, position: usize, key: &[u8], bytes: &[u8]) -> Option<usize>
        requires fits { length bytes.now ≤ VALUE_BYTES }
        ensures range { IfSome result (λ found. found < length self.old.keys) }
        ensures found { IfSome result (HoldsAt (λ k. k ≡ key.now) self.old.keys) }
        ensures keys { self.new.keys ≡ self.old.keys }
        ensures values { IfSome result (λ found. self.new.values ≡ set self.old.values found bytes.now) }
        ensures not { IfNone result (self.new ≡ self.old) }
    {
        self.raw.rewrite(position, key, bytes)
    }

    /// Adds an entry after the others. Takes no memory.
    pub(crate) fn push_reserved(&mut self, key: &[u8], value: &[u8])
        requires room { length self.old.keys < self.old.room }
        requires key { length key.now ≤ KEY_BYTES }
        requires value { length value.now ≤ VALUE_BYTES }
        ensures keys { self.new.keys ≡ self.old.keys ++ key.now ∷ [] }
        ensures values { self.new.values ≡ self.old.values ++ value.now ∷ [] }
        ensures room { self.new.room ≡ self.old.room }
    {
        self.raw.push_reserved(key, value);
    }

    /// Adds copies of another list's entries after the others. Takes no memory.
    pub(crate) fn push_all(&mut self, other: &Rows)
        requires room { length self.old.keys + length other.now.keys ≤ self.old.room }
        ensures keys { self.new.keys ≡ self.old.keys ++ other.now.keys }
        ensures values { self.new.values ≡ self.old.values ++ other.now.values }
        ensures room { self.new.room ≡ self.old.room }
    {
        self.raw.push_all(&other.raw);
    }

    /// Removes the entry at a position; the last one takes the gap. Takes no memory.
    pub(crate) fn swap_remove(&mut self, position: usize)
        requires { position < length self.old.keys }
        ensures keys { self.new.keys ≡ swap_remove self.old.keys position [] }
        ensures values { self.new.values ≡ swap_remove self.old.values position [] }
    {
        self.raw.swap_remove(position);
    }
}
