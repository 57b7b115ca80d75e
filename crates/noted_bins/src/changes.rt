//! Rows of keys that changed.
ghost use Rattle.std.specs.Prelude.{◌≡◌, ◌<◌, ◌≤◌, ◌+◌, ◌-◌, ◌++◌, [], ◌∷◌, ◌↔◌, length, drop, vec_len, vec_capacity, IsTrue, IfSome, OnOk, OnErr};
ghost use Rattle.timed_bins.specs.Deadlines.{timed_table};
ghost use Rattle.noted_bins.specs.Marks.{marks_of, saved_as, saved_in};
ghost use Rattle.noted_bins.specs.Rows.{Row, row_of};
ghost use Rattle.noted_bins.specs.Taking.{HandsOutAll, HandsOutAt, HandsOutPresent, row_at};

use crate::key_filter::KeyFilter;
use crate::mark::{Mark, SavedEntry};
use crate::packed_entries::{KEPT_PLACES, PackedEntries};
use bins::{HashedKey, Ranks};
use bpf_model::limits::{KEY_BYTES, VALUE_BYTES};
use bpf_model::{Key, NoMemory};
use std::alloc::Global;
use std::marker::Model;
use timed_bins::TimedBins;

/// Rows of keys in the order in which they were handed out: what was there of each key. A later row of a key replaces an
/// earlier one.
#[derive(Drop)]
pub struct Changes {
    entries: PackedEntries,
    marks: Vec<Mark>,
}

impl Model for Changes {
    ghost use Rattle.std.specs.Prelude.{◌≡◌, List, length};
    ghost use Rattle.noted_bins.specs.Rows.{Row, rows_code};
    ghost use Rattle.noted_bins.specs.Marks.{rows_in};

    ghost Value = { List Row };

    ghost coded = { rows_code };

    ghost view = { λ changes. rows_in changes.marks.items changes.entries };

    ghost invariant = { λ changes. length changes.marks.items ≡ length changes.entries };
}

impl Changes {
    /// Makes a list without rows. Takes no memory.
    pub fn new(alloc: Global) -> Changes
        ensures { result ≡ [] }
    {
        Changes {
            entries: PackedEntries::new(alloc),
            marks: Vec::new(alloc),
        }
    }

    /// Returns the number of rows. Takes no memory.
    pub fn len(&self) -> usize
        ensures value { result ≡ length self.now }
    {
        self.marks.len()
    }

    /// Returns whether there is no row. Takes no memory.
    pub fn is_empty(&self) -> bool
        ensures exact { IsTrue result ↔ (length self.now ≡ 0) }
    {
        self.len() == 0
    }

    /// Returns the key of a row, and the entry that it had, or none. Takes no memory.
    pub fn get(&self, position: usize) -> (&[u8], Option<SavedEntry<'_>>)
        requires { position < length self.now }
        ensures row { ◌≡◌ {A = Row} (result.0.now, saved_in result.1) (row_at self.now position) }
        ensures key { length result.0.now ≤ KEY_BYTES }
        ensures value { IfSome result.1 (λ entry. length entry.value.now ≤ VALUE_BYTES) }
    {
        let (key, value) = self.entries.get(position);
        (key, self.marks[position].entry(value))
    }

    /// Drops all rows. Keeps the memory for as many as a save mostly takes at once.
    pub fn clear(&mut self)
        ensures { self.new ≡ [] }
    {
        self.entries.clear();
        self.marks.clear();
        self.marks.shrink_to(KEPT_PLACES);
    }

    /// Adds a row of what is there of a key. Returns `NoMemory` if a request for memory is refused; then nothing changes.
    pub(crate) fn add<T: TimedBins>(&mut self, bins: &T, key: &Key) -> Result<(), NoMemory>
        ensures ok { OnOk result (self.new ≡ self.old ++
            (key.now, row_of (timed_table (T.table bins.now) (T.deadline bins.now) (T.latest bins.now)) key.now) ∷ []) }
        ensures err { OnErr result (self.new ≡ self.old) }
    {
        let (value, mark) = find_row(bins, &HashedKey::new(key));
        self.push(key, value, mark)
    }

    /// Adds a row with this key, this value and this mark. Returns `NoMemory` if a request for memory is refused; then nothing
    /// changes.
    fn push(&mut self, key: &Key, value: &[u8], mark: Mark) -> Result<(), NoMemory>
        requires fits { length value.now ≤ VALUE_BYTES }
        ensures ok { OnOk result (self.new ≡ self.old ++ (key.now, saved_as mark value.now) ∷ []) }
        ensures err { OnErr result (self.new ≡ self.old) }
    {
        self.marks.try_reserve(1)?;
        self.entries.push(key.as_slice(), value)?;
        self.marks.push_reserved(mark);
        Ok(())
    }

    /// Adds a row of each entry whose key the filter may have, if its rank is one of these. Returns `NoMemory` if a request for memory
    /// is refused; then rows of some of them were added.
    pub(crate) fn add_filtered<T: TimedBins>(
        &mut self,
        bins: &T,
        filter: &KeyFilter,
        ranks: Ranks,
    ) -> Result<(), NoMemory>
        ensures ok { OnOk result (HandsOutAt
            (timed_table (T.table bins.now) (T.deadline bins.now) (T.latest bins.now)) (T.order bins.now) filter.now ranks self.old self.new) }
        ensures err { OnErr result (HandsOutPresent
            (timed_table (T.table bins.now) (T.deadline bins.now) (T.latest bins.now)) self.old self.new) }
    {
        let (entries, positions) = bins.lend_at(ranks);
        let from = positions.from;
        for position in from..positions.end_among(entries.len()) {
            let (bytes, value) = entries.get(position);
            let key = Key::from_slice(bytes).unwrap();
            let hashed = HashedKey::new(&key);
            if filter.may_have(&hashed) {
                self.push(&key, value, Mark::of(bins.deadline_of(&hashed)))?;
            }
        }
        Ok(())
    }

    /// Adds rows of all entries. Returns `NoMemory` if a request for memory is refused; then nothing changes.
    pub(crate) fn add_all<T: TimedBins>(&mut self, bins: &T) -> Result<(), NoMemory>
        ensures ok { OnOk result (HandsOutAll
            (timed_table (T.table bins.now) (T.deadline bins.now) (T.latest bins.now)) self.old self.new) }
        ensures err { OnErr result (self.new ≡ self.old) }
    {
        let from = self.entries.len();
        self.marks.try_reserve(bins.count() as usize)?;
        self.entries.add_all(&bins.lend())?;
        add_marks(bins, &self.entries, from, &mut self.marks);
        Ok(())
    }
}

/// Returns what is there of a key: its value, or no bytes, and the mark of its row.
fn find_row<'a, T: TimedBins>(bins: &'a T, key: &HashedKey<'_>) -> (&'a [u8], Mark)
    ensures saved { saved_as result.1 result.0.now
        ≡ row_of (timed_table (T.table bins.now) (T.deadline bins.now) (T.latest bins.now)) key.now }
    ensures fits { length result.0.now ≤ VALUE_BYTES }
{
    match bins.find(key) {
        Some(value) => (value, Mark::of(bins.deadline_of(key))),
        None => (b"", Mark::Gone),
    }
}

/// Adds the marks of all entries from this position on. There is room for them.
fn add_marks<T: TimedBins>(bins: &T, entries: &PackedEntries, from: usize, marks: &mut Vec<Mark>)
    requires from { from ≤ length entries.now }
    requires room { vec_len marks.old + (length entries.now - from) ≤ vec_capacity marks.old }
    ensures { marks.new.items ≡ marks.old.items ++ marks_of (T.deadline bins.now) (drop from entries.now) }
{
    for position in from..entries.len() {
        let key = Key::from_slice(entries.get(position).0).unwrap();
        marks.push_reserved(Mark::of(bins.deadline_of(&HashedKey::new(&key))));
    }
}
