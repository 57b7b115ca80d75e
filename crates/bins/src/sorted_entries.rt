//! A list of entries in key order; the entries lie as they came.
ghost use Rattle.std.specs.Prelude.{◌≡◌, ◌<◌, ◌≤◌, length, IfOk};
ghost use Rattle.std.specs.FinMap as map;
ghost use Rattle.std.specs.List.Sorted.{IsPermutation, IsSortedBy};
ghost use Rattle.bins.specs.Copies.{comes_before, AreCopies};
ghost use Rattle.bins.specs.Entries.{entry_of};
ghost use Rattle.bins.specs.Table.{Entry, Table};

use crate::entry_list::EntryList;
use bpf_model::limits::{KEY_BYTES, VALUE_BYTES};
use bpf_model::{Key, NoMemory, Value};
use std::alloc::Global;
use std::marker::Model;

/// A list of entries and the order of their keys. Takes 8 bytes more for each entry; no entry is moved.
#[derive(Drop)]
pub struct SortedEntries {
    list: EntryList,
    order: Vec<usize>,
}

impl Model for SortedEntries {
    ghost use Rattle.std.specs.Prelude.{List};
    ghost use Rattle.bins.specs.Table.{Entry};
    ghost use Rattle.bins.specs.Entries.{entries_at};

    ghost Value = { List Entry };

    ghost view = { λ sorted. entries_at sorted.list sorted.order.items };
}

impl SortedEntries {
    /// Puts the entries of this list in key order. Asks for memory for the order of their positions. Returns `NoMemory` if
    /// that is refused; the entries are gone then.
    pub fn new(alloc: Global, list: EntryList) -> Result<SortedEntries, NoMemory>
        ensures moved { IfOk result (λ sorted. IsPermutation list sorted) }
        ensures order { IfOk result (λ sorted. IsSortedBy comes_before sorted) }
    {
        let order = list.order(alloc)?;
        Ok(SortedEntries { list, order })
    }

    /// Returns the number of entries. Takes no memory.
    pub fn len(&self) -> usize
        ensures value { result ≡ length self.now }
    {
        self.order.len()
    }

    /// Returns the key and the value at a position in key order. Takes no memory.
    #[inline(always)]
    pub fn get(&self, position: usize) -> (&[u8], &[u8])
        requires { position < length self.now }
        ensures entry { ◌≡◌ {A = Entry} (result.0.now, result.1.now) (entry_of self.now position) }
        ensures key { length result.0.now ≤ KEY_BYTES }
        ensures value { length result.1.now ≤ VALUE_BYTES }
    {
        self.list.get_any(self.order[position])
    }

    /// Returns copies of the entries in key order, each in room for the longest. Returns `NoMemory` if a request for memory
    /// is refused.
    pub fn copied(&self, alloc: Global) -> Result<Vec<(Key, Value)>, NoMemory>
        ensures { IfOk result (λ copies. copies.items ≡ self.now) }
    {
        let mut copies = Vec::with_capacity(alloc, self.len())?;
        for position in 0..self.len() {
            let (key, value) = self.get(position);
            copies.push(entry_with(key, value))?;
        }
        Ok(copies)
    }
}

/// Returns an entry with copies of this key and this value.
fn entry_with(key: &[u8], value: &[u8]) -> (Key, Value)
    requires key { length key.now ≤ KEY_BYTES }
    requires value { length value.now ≤ VALUE_BYTES }
    ensures { result ≡ (key.now, value.now) }
{
    let key = Key::from_slice(key);
    let value = Value::from_slice(value);
    (key.unwrap(), value.unwrap())
}

/// Returns copies of the entries of this list, in key order. Returns `NoMemory` if a request for memory is refused. The list
/// is gone in either case.
pub fn sorted_copies(alloc: Global, list: EntryList) -> Result<Vec<(Key, Value)>, NoMemory>
    ensures order { IfOk result (λ copies. (table : Table) → AreCopies table list → copies.items ≡ map.entries table) }
{
    let sorted = SortedEntries::new(alloc, list)?;
    let copies = sorted.copied(alloc)?;
    Ok(copies)
}
