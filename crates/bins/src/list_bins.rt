//! Entries in one list, sorted by key.
ghost use Rattle.std.specs.Prelude.{◌≡◌, ◌≤◌, [], T, length, insert, IfOk, IfErr, OnOk, OnErr};
ghost use Rattle.std.specs.List.Sorted.{IsSearchInRange};
ghost use Rattle.std.specs.FinMap.{is_sorted};
ghost use Rattle.bins.specs.Table.{by_bytes};
ghost use Rattle.bins.specs.Positions.{IsAt, IsGapFor};

use crate::bins::Bins;
use crate::counts::Counts;
use crate::hashes::HashedKey;
use crate::lent_entries::LentEntries;
use crate::replacement::{count_of, replace_values};
use bpf_model::{Key, NoMemory, Value};
use std::alloc::Global;
use std::marker::Model;
use verifier::Verified;

/// The entries in one list, sorted by key. A search halves the list; a new key moves the entries after it.
#[derive(Drop)]
pub struct ListBins {
    entries: Vec<(Key, Value)>,
}

impl Model for ListBins {
    ghost use Rattle.std.specs.Prelude.{T};
    ghost use Rattle.std.specs.FinMap as map;
    ghost use Rattle.bins.specs.Table.{Table, table_code, by_bytes};

    ghost Value = { Table };

    ghost coded = { table_code };

    ghost view = { λ b. map.from_sorted b.entries.items };

    ghost invariant = { λ b. T (map.is_sorted by_bytes b.entries.items) };
}

/// Returns the position of this key, or the one that it would get.
fn position_with(entries: &[(Key, Value)], key: &Key) -> Result<usize, usize>
    requires { T (is_sorted by_bytes entries.now) }
    ensures bound { IsSearchInRange result (length entries.now) }
    ensures found { IfOk result (IsAt entries.now key.now) }
    ensures absent { IfErr result (IsGapFor entries.now key.now) }
{
    entries.binary_search_by(|entry| entry.0.cmp(key))
}

/// Returns the position of the key, or the one that it would get.
fn position_of(entries: &[(Key, Value)], key: &HashedKey<'_>) -> Result<usize, usize>
    requires { T (is_sorted by_bytes entries.now) }
    ensures bound { IsSearchInRange result (length entries.now) }
    ensures found { IfOk result (IsAt entries.now key.now) }
    ensures absent { IfErr result (IsGapFor entries.now key.now) }
{
    position_with(entries, key.key())
}

/// Returns an entry with copies of this key and this value.
#[inline(always)]
fn new_entry(key: &HashedKey<'_>, value: &Value) -> (Key, Value)
    ensures { result ≡ (key.now, value.now) }
{
    (key.key().copied(), value.copied())
}

/// Adds an entry at a position; the entries from there on move.
#[inline(always)]
fn add_entry(
    entries: &mut Vec<(Key, Value)>,
    position: usize,
    entry: (Key, Value),
) -> Result<(), NoMemory>
    requires { position ≤ length entries.old.items }
    ensures ok { OnOk result (entries.new.items ≡ insert entries.old.items position entry) }
    ensures err { OnErr result (entries.new.items ≡ entries.old.items) }
{
    Ok(entries.insert(position, entry)?)
}

impl Bins for ListBins {
    ghost table = { λ bins. bins };

    ghost order = { λ bins. [] };

    fn open(alloc: Global, _stripes: u64) -> Result<ListBins, NoMemory> {
        Ok(ListBins {
            entries: Vec::new(alloc),
        })
    }

    fn find(&self, key: &HashedKey<'_>) -> Option<&[u8]> {
        match position_of(&self.entries, key) {
            Ok(position) => {
                let value = &self.entries[position].1;
                Some(value.as_slice())
            }
            Err(_) => None,
        }
    }

    fn put(&mut self, key: &HashedKey<'_>, value: &Value) -> Result<(), NoMemory> {
        match position_of(&self.entries, key) {
            Ok(position) => {
                self.entries[position].1.set_from(value.as_slice());
                Ok(())
            }
            Err(position) => {
                add_entry(&mut self.entries, position, new_entry(key, value))?;
                Ok(())
            }
        }
    }

    fn discard(&mut self, key: &HashedKey<'_>) {
        if let Ok(position) = position_of(&self.entries, key) {
            self.entries.remove(position);
        }
    }

    fn lend(&self) -> LentEntries<'_> {
        LentEntries::of_pairs(&self.entries)
    }

    fn count(&self) -> u64 {
        count_of(&self.entries)
    }

    fn replace_each(&mut self, program: &Verified, arg: &Option<Value>) -> Counts {
        replace_values(&mut self.entries, program, arg)
    }
}
