//! The positions of the keys of rows, in a tree of the keys.
ghost use Rattle.std.specs.Prelude.{◌≡◌, ◌≢◌, ◌<◌, ◌++◌, [], ◌∷◌, Some, length, map, IfOk, IsSome, OnOk, OnErr};
ghost use Rattle.std.specs.List.{AllWithin, swap_remove};
ghost use Rattle.std.specs.BTreeMap.{get};
ghost use Rattle.bins.specs.Mixed.{mixed};
ghost use Rattle.bins.specs.Told.{IsBinCount};
ghost use Rattle.bins.specs.KeptRows.{string_at};
ghost use Rattle.bins.specs.Table.{by_bytes};
ghost use Rattle.bins.specs.Trees.{Locates, Sets, StandOnce};

use crate::hashes::Seed;
use crate::index::Index;
use crate::rows::Rows;
use crate::told_size::ToldSize;
use bpf_model::{Key, NoMemory};
use std::alloc::Global;
use std::collections::BTreeMap;

/// The position of each key, and the size that an index of these keys would report and the seed that it would be made by.
#[derive(Drop)]
pub(crate) struct Tree {
    positions: BTreeMap<Key, usize>,
    alloc: Global,
    told: ToldSize,
    seed: Seed,
    // The number of keys when the tree was made, or when an index was last to take its place.
    made_with: usize,
}

/// Enters a key with its position.
fn add_position(
    positions: &mut BTreeMap<Key, usize>,
    key: Key,
    position: usize,
) -> Result<(), NoMemory>
    ensures ok { OnOk result (Sets positions.old positions.new key (Some position)) }
    ensures err { OnErr result (positions.new.entries ≡ positions.old.entries) }
{
    positions.insert(key, position)?;
    Ok(())
}

/// Returns a copy of the key at a position.
fn key_at(rows: &Rows, position: usize) -> Key
    requires { position < length rows.now.keys }
    ensures { result ≡ string_at rows.now.keys position }
{
    let key = Key::from_slice(rows.key(position));
    key.unwrap()
}

/// Returns the position of each key. Returns `NoMemory` if a request for memory is refused.
fn positions_by_key(alloc: Global, rows: &Rows) -> Result<BTreeMap<Key, usize>, NoMemory>
    requires { StandOnce rows.now.keys }
    ensures { IfOk result (λ positions. Locates positions rows.now.keys) }
{
    let mut positions = BTreeMap::new(alloc);
    for position in 0..rows.len() {
        add_position(&mut positions, key_at(rows, position), position)?;
    }
    Ok(positions)
}

/// Gives another position to a key that has one.
fn move_position(positions: &mut BTreeMap<Key, usize>, key: &Key, position: usize)
    ensures { IsSome (get by_bytes positions.old key.now) → Sets positions.old positions.new key.now (Some position) }
{
    if let Some(old) = positions.get_mut(key) {
        *old = position;
    }
}

/// What a key takes in a tree, at most.
const KEY_TREE_BYTES: usize = 160;

/// Returns whether a tree of `made_with` keys is to be left: there are half as many keys now, or twice as many.
fn is_far_from(made_with: usize, keys: usize) -> bool {
    keys <= made_with / 2 || keys / 2 >= made_with
}

impl Tree {
    /// Makes the tree of these keys, which an index had found. Returns `NoMemory` if a request for memory is refused.
    pub(crate) fn of(index: &Index, rows: &Rows) -> Result<Tree, NoMemory>
        requires { StandOnce rows.now.keys }
        ensures locates { IfOk result (λ tree. Locates tree.positions rows.now.keys) }
    {
        Ok(Tree {
            positions: positions_by_key(index.alloc(), rows)?,
            alloc: index.alloc(),
            told: index.told(),
            seed: index.seed(),
            made_with: rows.len(),
        })
    }

    /// Returns how many bins an index would report. Takes no memory.
    pub(crate) fn bins(&self) -> u64
        ensures value { result ≡ self.now.told }
        ensures count { IsBinCount result }
    {
        self.told.bins()
    }

    /// Returns how many bytes a tree of these keys may take.
    pub(crate) fn bytes_for(rows: &Rows) -> usize {
        rows.len().saturating_mul(KEY_TREE_BYTES)
    }

    /// Returns the position of a key. Takes no memory.
    #[cold]
    pub(crate) fn position(&self, key: &Key) -> Option<usize>
        ensures value { result ≡ get by_bytes self.now.positions key.now }
    {
        self.positions.get(key).copied()
    }

    /// Adds a key, at the position after these. Returns `NoMemory` if a request for memory is refused.
    #[cold]
    pub(crate) fn push(&mut self, rows: &Rows, key: &Key) -> Result<(), NoMemory>
        requires locates { Locates self.old.positions rows.now.keys }
        requires new { AllWithin (λ k. k ≢ key.now) rows.now.keys 0 (length rows.now.keys) }
        ensures ok { OnOk result (Locates self.new.positions (rows.now.keys ++ key.now ∷ [])) }
        ensures err { OnErr result (Locates self.new.positions rows.now.keys) }
    {
        let position = rows.len();
        add_position(&mut self.positions, key.copied(), position)?;
        self.told.count_entries(position + 1);
        Ok(())
    }

    /// Removes the key at a position; the last key takes that position. Takes no memory.
    #[cold]
    pub(crate) fn swap_remove(&mut self, rows: &Rows, position: usize)
        requires locates { Locates self.old.positions rows.now.keys }
        requires range { position < length rows.now.keys }
        ensures locates { Locates self.new.positions (swap_remove rows.now.keys position []) }
    {
        let key = key_at(rows, position);
        let last = key_at(rows, rows.len() - 1);
        move_position(&mut self.positions, &last, position);
        self.positions.remove(&key);
    }

    /// Returns whether it has half as many keys as when it was made, or twice as many: then try its index again. If that is
    /// refused, it is tried after as much again.
    pub(crate) fn is_outlived(&mut self, rows: &Rows) -> bool
        ensures positions { self.new.positions ≡ self.old.positions }
    {
        let keys = rows.len();
        let far = is_far_from(self.made_with, keys);
        if far {
            self.made_with = keys;
        }
        far
    }

    /// Makes an index of these keys, by another seed than the one before. Returns `NoMemory` if a request for memory is
    /// refused.
    pub(crate) fn index(&self, rows: &Rows) -> Result<Index, NoMemory>
        ensures hashes { IfOk result (λ index. index.hashes ≡ map (mixed index.seed) rows.now.keys) }
    {
        let mut index = Index::open(self.alloc, self.told.copied(), self.seed.next())?;
        for position in 0..rows.len() {
            let hash = index.hash_of(rows.key(position));
            index.push(hash)?;
        }
        Ok(index)
    }
}
