//! A table's storage: a finite map from keys to values, however it is kept.
ghost use Rattle.std.specs.Prelude.{◌≡◌, ◌<◌, ◌≤◌, ◌^◌, None, length, IfOk, IfSome, OnOk, OnErr, option_copied};
ghost use Rattle.std.specs.FinMap as map;
ghost use Rattle.bins.specs.Copies.{AddsCopies, AreCopies};
ghost use Rattle.bins.specs.Entries.{entry_of};
ghost use Rattle.bins.specs.Ranks.{IsOneOf, KeepsRanks, rank_in};
ghost use Rattle.bins.specs.Replacements.{ReplacesEach};

use crate::counts::Counts;
use crate::entry_list::EntryList;
use crate::hashes::{HashedKey, Seed};
use crate::lent_entries::LentEntries;
use crate::opening::Opening;
use crate::ranks::Ranks;
use crate::sorted_entries::sorted_copies;
use bpf_model::limits::VALUE_BYTES;
use bpf_model::{Key, NoMemory, Value};
use std::alloc::Global;
use verifier::Verified;

/// A finite map from keys to values. A call on one key takes the key with its hash, so the caller computes the hash once.
pub trait Bins {
    ghost use Rattle.std.specs.Prelude.{ℕ, List};
    ghost use Rattle.bins.specs.Table.{Table};

    /// The entries, as one map.
    ghost table: { Self → Table };

    /// The keys in the order of their ranks. No call on a key gives an entry that is there a higher rank. In bins that promise
    /// no order, the list is empty, and each key has rank 0.
    ghost order: { Self → List (List ℕ) };

    /// Makes bins without entries, for one of a table's `stripes` stripes: bins of a kind may depend on that number, but those
    /// here don't. Returns `NoMemory` if a request for memory is refused.
    fn open(alloc: Global, stripes: u64) -> Result<Self, NoMemory>
        ensures ok { IfOk result (λ bins. table bins ≡ map.empty) };

    /// Does the same as `open`, for bins that hash keys by the opening's seed and keep to its budget, if they hash keys and
    /// keep to a budget at all. Returns `NoMemory` if a request for memory is refused.
    fn open_with(alloc: Global, stripes: u64, opening: &Opening) -> Result<Self, NoMemory>
        ensures ok { IfOk result (λ bins. table bins ≡ map.empty) }
    {
        let _ = opening;
        Self::open(alloc, stripes)
    }

    /// Does the same as `open_with`, by this seed and without a budget.
    fn open_seeded(alloc: Global, stripes: u64, seed: Seed) -> Result<Self, NoMemory>
        ensures ok { IfOk result (λ bins. table bins ≡ map.empty) }
    {
        Self::open_with(alloc, stripes, &Opening::seeded(seed))
    }

    /// Returns the bytes of a key's value. Takes no memory.
    fn find(&self, key: &HashedKey<'_>) -> Option<&[u8]>
        ensures value { option_copied result ≡ map.get (table self.now) key.now }
        ensures fits { IfSome result (λ bytes. length bytes.now ≤ VALUE_BYTES) };

    /// Sets the value of a key. Returns `NoMemory` if the key is new and memory for it is refused; the entries are then
    /// unchanged. Takes no memory if the key is present.
    fn put(&mut self, key: &HashedKey<'_>, value: &Value) -> Result<(), NoMemory>
        ensures ok { OnOk result (table self.new ≡ map.insert (table self.old) key.now value.now) }
        ensures err { OnErr result (table self.new ≡ table self.old) }
        ensures memory { OnErr result (map.get (table self.old) key.now ≡ None) }
        ensures ranks { KeepsRanks (table self.old) (order self.old) (order self.new) };

    /// Adds a key that is absent, with this value, as `put` does but without a search. Returns `NoMemory` if memory for it
    /// is refused; the entries are then unchanged.
    fn add(&mut self, key: &HashedKey<'_>, value: &Value) -> Result<(), NoMemory>
        requires absent { map.get (table self.old) key.now ≡ None }
        ensures ok { OnOk result (table self.new ≡ map.insert (table self.old) key.now value.now) }
        ensures err { OnErr result (table self.new ≡ table self.old) }
        ensures ranks { KeepsRanks (table self.old) (order self.old) (order self.new) }
    {
        self.put(key, value)
    }

    /// Removes a key. Takes no memory.
    fn discard(&mut self, key: &HashedKey<'_>)
        ensures others { table self.new ≡ map.remove (table self.old) key.now }
        ensures ranks { KeepsRanks (table self.old) (order self.old) (order self.new) };

    /// Removes a key as `discard` does, and returns a copy of the value that it had. Takes no memory.
    fn remove(&mut self, key: &HashedKey<'_>) -> Option<Value>
        ensures value { result ≡ map.get (table self.old) key.now }
        ensures others { table self.new ≡ map.remove (table self.old) key.now }
        ensures ranks { KeepsRanks (table self.old) (order self.old) (order self.new) }
    {
        let mut value = Value::new();
        value.set_from(self.find(key)?);
        self.discard(key);
        Some(value)
    }

    /// Lends all entries where they lie, in any order. Takes no memory.
    fn lend(&self) -> LentEntries<'_>
        ensures are { AreCopies (table self.now) result }
        // As for `count`.
        ensures bounded { length (map.entries (table self.now)) < 2 ^ 57 };

    /// Lends all entries as `lend` does, with the positions at which those stand that have these ranks. Others may stand there
    /// too. Takes no memory.
    fn lend_at(&self, ranks: Ranks) -> (LentEntries<'_>, Ranks)
        ensures are { AreCopies (table self.now) result.0 }
        ensures there { (p : ℕ) → p < length result.0 → IsOneOf ranks (rank_in (order self.now) (entry_of result.0 p).0) → IsOneOf result.1 p }
    {
        let _ = ranks;
        (self.lend(), Ranks::all())
    }

    /// Adds copies of all entries to the list, in any order. Asks for memory if the list has no room for them. Returns
    /// `NoMemory` if that is refused; the list is then unchanged.
    fn copy_into(&self, list: &mut EntryList) -> Result<(), NoMemory>
        ensures ok { OnOk result (AddsCopies (table self.now) list.old list.new) }
        ensures err { OnErr result (list.new ≡ list.old) }
        ensures bounded { length (map.entries (table self.now)) < 2 ^ 57 }
    {
        list.add_all(&self.lend())
    }

    /// Returns copies of all entries, in key order. Returns `NoMemory` if a request for memory is refused.
    fn entries(&self, alloc: Global) -> Result<Vec<(Key, Value)>, NoMemory>
        ensures ok { IfOk result (λ found. found.items ≡ map.entries (table self.now)) }
    {
        let mut list = EntryList::new(alloc);
        self.copy_into(&mut list)?;
        let found = sorted_copies(alloc, list)?;
        Ok(found)
    }

    /// Returns the number of entries. Takes no memory.
    fn count(&self) -> u64
        ensures value { result ≡ length (map.entries (table self.now)) }
        // No memory has room for 2 ^ 57 entries, so the counts of many bins can be added up.
        ensures bounded { result < 2 ^ 57 };

    /// Replaces the value of each key once, in any order, by the program's answer on the key, its value and the argument. An
    /// entry stays as it is if the answer is nothing, or if the entry doesn't fit. Takes no memory.
    fn replace_each(&mut self, program: &Verified, arg: &Option<Value>) -> Counts
        ensures each { ReplacesEach program.now arg.now (table self.old) (table self.new) result }
        ensures bounded { result.scanned < 2 ^ 57 };
}
