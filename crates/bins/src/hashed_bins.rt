//! Entries in rows of many widths, and where their keys stand: found by chains of their hashes, or by a tree once chains have
//! become long.
ghost use Rattle.std.specs.FinMap as map;
ghost use Rattle.std.specs.Prelude.{◌≡◌, ◌+◌, ◌≤◌, None, OnOk, OnErr, ◌≢◌, ◌<◌, ◌++◌, ◌↔◌, [], ◌∷◌, length, map, slice_index, HoldsAt, IfOk, IfSome, IfNone, IsTrue};
ghost use Rattle.bins.specs.Told.{IsBinCount};
ghost use Rattle.std.specs.List.{AllWithin, swap_remove};
ghost use Rattle.bins.specs.Mixed.{mixed};
ghost use Rattle.bins.specs.KeptRows.{string_at};
ghost use Rattle.bins.specs.Ranks.{KeepsRanks, table_in};
ghost use Rattle.bins.specs.Finders.{Finds};
ghost use Rattle.bins.specs.Trees.{Locates, StandOnce};

use crate::bins::Bins;
use crate::counts::Counts;
use crate::hashes::{HashedKey, Seed};
use crate::index::Index;
use crate::lent_entries::LentEntries;
use crate::occupied::{Occupied, Occupies};
use crate::opening::Opening;
use crate::ranks::Ranks;
use crate::replacement::replace_rows;
use crate::rows::Rows;
use crate::told_size::ToldSize;
use crate::tree::Tree;
use crate::width_rows::are_same;
use bpf_model::limits::{KEY_BYTES, VALUE_BYTES};
use bpf_model::{Key, NoMemory, Value};
use std::alloc::Global;
use std::marker::Model;
use verifier::Verified;

/// The keys and their values in rows, in no order, and a finder of a key's position. A new key goes to the end of the rows,
/// and a removal moves the last entry into the gap.
#[derive(Drop)]
pub struct HashedBins {
    finder: Finder,
    rows: Rows,
    // The most bytes that they may take; none: there is no bound.
    budget: Option<u64>,
    // A cache line that nothing writes, so neighbouring bins share none.
    _gap: [u64; 8],
}

impl Model for HashedBins {
    ghost use Rattle.std.specs.Prelude.{◌≡◌, length};
    ghost use Rattle.bins.specs.Entries.{Distinct, entries_in};
    ghost use Rattle.bins.specs.Finders.{Finds};
    ghost use Rattle.bins.specs.Ranks.{Held, held_code};

    ghost Value = { Held };

    ghost coded = { held_code };

    ghost view = { λ b. record { keys = b.rows.keys; values = b.rows.values } };

    ghost invariant = { λ b. Finds b.finder b.rows.keys
        × Distinct (entries_in b.rows.keys b.rows.values)
        × (length b.rows.keys ≡ length b.rows.values) };
}

/// Returns how many bytes rows and index take.
fn bytes_of(finder: &Finder, rows: &Rows) -> u64 {
    rows.bytes().saturating_add(finder.bytes(rows)) as u64
}

/// Returns how many bytes of a budget are left.
#[inline(always)]
fn left_of(budget: Option<u64>, finder: &Finder, rows: &Rows) -> usize {
    match budget {
        Some(budget) => budget.saturating_sub(bytes_of(finder, rows)) as usize,
        None => usize::MAX,
    }
}

impl HashedBins {
    /// Returns the reported number of bins: a power of two from 8 to 65,536. It doubles if a new key makes the entries more
    /// than twice as many. Takes no memory.
    pub fn bins(&self) -> u64
        ensures count { IsBinCount result }
    {
        self.finder.bins()
    }

    /// Returns how many bytes rows and index take: what their lists have room for, and the bytes of segments that were
    /// touched so far. Takes no memory.
    pub fn bytes(&self) -> u64 {
        bytes_of(&self.finder, &self.rows)
    }

    /// Returns `NoMemory` if there is a budget, and an entry of this many bytes for key and value would need more.
    #[inline(always)]
    fn admit(&mut self, bytes: usize) -> Result<(), NoMemory>
        requires fits { bytes ≤ KEY_BYTES + VALUE_BYTES }
        ensures same { self.new ≡ self.old }
    {
        match self.budget {
            Some(_) => self.admit_within(bytes),
            None => Ok(()),
        }
    }

    /// Makes room for one more entry of this many bytes within the budget, and for as many further ones as the bytes that
    /// are left have room for if they are like those so far. Returns `NoMemory` if the budget or the allocator refuses it.
    #[inline(never)]
    fn admit_within(&mut self, bytes: usize) -> Result<(), NoMemory>
        requires fits { bytes ≤ KEY_BYTES + VALUE_BYTES }
        ensures same { self.new ≡ self.old }
    {
        let left = left_of(self.budget, &self.finder, &self.rows);
        let row = self.rows.untouched(bytes);
        if row > left {
            return Err(NoMemory);
        }
        if !self.rows.is_full() && !self.finder.is_full() {
            return Ok(());
        }
        let counted = bytes_of(&self.finder, &self.rows) as usize;
        let each = (counted / self.rows.len().max(1)).max(1);
        let further = (left - row) / each;
        if further == 0 {
            return Err(NoMemory);
        }
        self.rows.reserve_some(further)?;
        self.finder.reserve_some(&self.rows, further)
    }

    /// Adds a key that is absent, whatever the budget.
    #[inline(always)]
    fn add_admitted(&mut self, key: &HashedKey<'_>, value: &Value) -> Result<(), NoMemory>
        requires absent { map.get (table_in self.old) key.now ≡ None }
        ensures ok { OnOk result (table_in self.new ≡ map.insert (table_in self.old) key.now value.now) }
        ensures err { OnErr result (self.new ≡ self.old) }
        ensures ranks { KeepsRanks (table_in self.old) self.old.keys self.new.keys }
    {
        self.rows.reserve(1)?;
        self.finder.push(&self.rows, key)?;
        self.rows
            .push_reserved(key.key().as_slice(), value.as_slice());
        let left = left_of(self.budget, &self.finder, &self.rows);
        self.finder.settle(&self.rows, left);
        Ok(())
    }

    /// Sets the value of a key, and searches for it first.
    #[inline(never)]
    fn put_searched(&mut self, key: &HashedKey<'_>, value: &Value) -> Result<(), NoMemory>
        ensures ok { OnOk result (table_in self.new ≡ map.insert (table_in self.old) key.now value.now) }
        ensures err { OnErr result (table_in self.new ≡ table_in self.old) }
        ensures memory { OnErr result (map.get (table_in self.old) key.now ≡ None) }
        ensures ranks { KeepsRanks (table_in self.old) self.old.keys self.new.keys }
    {
        match self.finder.position(&self.rows, key) {
            Some(position) => {
                self.rows.set_value(position, value.as_slice());
                Ok(())
            }
            None => self.add(key, value),
        }
    }
}

impl Occupies for HashedBins {
    fn occupied(&self) -> Occupied {
        Occupied {
            rows: self.rows.bytes() as u64,
            index: self.finder.bytes(&self.rows) as u64,
        }
    }
}

impl Bins for HashedBins {
    ghost table = { λ bins. table_in bins };

    ghost order = { λ bins. bins.keys };

    fn open(alloc: Global, stripes: u64) -> Result<HashedBins, NoMemory> {
        HashedBins::open_with(alloc, stripes, &Opening::seeded(Seed::fixed()))
    }

    fn open_with(alloc: Global, _stripes: u64, opening: &Opening) -> Result<HashedBins, NoMemory> {
        Ok(HashedBins {
            finder: Finder::open(alloc, opening.seed)?,
            rows: Rows::new(alloc),
            budget: opening.budget,
            _gap: [0; 8],
        })
    }

    #[inline(always)]
    fn find(&self, key: &HashedKey<'_>) -> Option<&[u8]> {
        match self.finder.found(&self.rows, key) {
            Some(found) => {
                key.remember(found.position);
                Some(found.value)
            }
            None => None,
        }
    }

    #[inline(always)]
    fn put(&mut self, key: &HashedKey<'_>, value: &Value) -> Result<(), NoMemory> {
        let bytes = key.key().as_slice();
        match self.rows.rewrite(key.guess(), bytes, value.as_slice()) {
            Some(_) => Ok(()),
            None => self.put_searched(key, value),
        }
    }

    fn add(&mut self, key: &HashedKey<'_>, value: &Value) -> Result<(), NoMemory> {
        self.admit(key.key().as_slice().len() + value.as_slice().len())?;
        self.add_admitted(key, value)
    }

    fn discard(&mut self, key: &HashedKey<'_>) {
        if let Some(position) = self.finder.position_again(&self.rows, key) {
            self.finder.swap_remove(&self.rows, position);
            self.rows.swap_remove(position);
        }
    }

    fn lend(&self) -> LentEntries<'_> {
        LentEntries::of_rows(&self.rows)
    }

    fn lend_at(&self, ranks: Ranks) -> (LentEntries<'_>, Ranks) {
        (LentEntries::of_rows(&self.rows), ranks)
    }

    fn count(&self) -> u64 {
        self.rows.len() as u64
    }

    fn replace_each(&mut self, program: &Verified, arg: &Option<Value>) -> Counts {
        replace_rows(&mut self.rows, program, arg)
    }
}

/// The way in which the keys of rows are found.
#[derive(Drop)]
pub(crate) enum Finder {
    /// By chains of hashes: the quickest, if hashes spread.
    Hashes(Index),
    /// By a tree of keys, once chains had become long: a call takes O(log n), whichever keys are there.
    Keys(Tree),
}

/// Where a key was found, and its value there.
#[derive(Clone, Copy)]
pub(crate) struct Found<'a> {
    /// The position of the key.
    pub position: usize,
    /// The bytes of its value.
    pub value: &'a [u8],
}

/// Returns whether the key at a position is these bytes.
#[inline(always)]
fn is_at(rows: &Rows, position: usize, bytes: &[u8]) -> bool
    requires { position < length rows.now.keys }
    ensures exact { IsTrue result ↔ (string_at rows.now.keys position ≡ bytes.now) }
{
    are_same(rows.key(position), bytes)
}

/// The position at which a key was found before, if it stands there as it did then. Takes no memory.
#[inline(always)]
pub(crate) fn remembered(rows: &Rows, key: &HashedKey<'_>) -> Option<usize>
    ensures bound { IfSome result (λ position. position < length rows.now.keys) }
    ensures found { IfSome result (HoldsAt (λ k. k ≡ key.now) rows.now.keys) }
{
    let guess = key.guess();
    if guess < rows.len() && is_at(rows, guess, key.key().as_slice()) {
        return Some(guess);
    }
    None
}

/// Returns the position of the key with this hash, if that isn't the last position of the hash, `end`, nor after it. It is
/// separate, so that a search which finds its key at once has no loop.
#[inline(never)]
fn position_before(index: &Index, rows: &Rows, key: &Key, hash: u64, end: usize) -> Option<usize>
    requires index { index.now.hashes ≡ map (mixed index.now.seed) rows.now.keys }
    requires hash { hash ≡ mixed index.now.seed key.now }
    requires range { end < length index.now.hashes }
    requires same { slice_index index.now.hashes end ≡ hash }
    requires lacks { AllWithin (λ k. k ≢ key.now) rows.now.keys end (length rows.now.keys) }
    ensures bound { IfSome result (λ position. position < length rows.now.keys) }
    ensures found { IfSome result (HoldsAt (λ k. k ≡ key.now) rows.now.keys) }
    ensures absent { IfNone result (AllWithin (λ k. k ≢ key.now) rows.now.keys 0 (length rows.now.keys)) }
{
    let mut next = index.before(end, hash);
    while let Some(position) = next {
        if is_at(rows, position, key.as_slice()) {
            return Some(position);
        }
        next = index.before(position, hash);
    }
    None
}

/// Returns the value at a position. It is separate, since it is seldom needed.
#[inline(never)]
fn value_at(rows: &Rows, position: usize) -> &[u8]
    requires { position < length rows.now.keys }
    ensures value { result.now ≡ string_at rows.now.values position }
    ensures fits { length result.now ≤ VALUE_BYTES }
{
    rows.value(position)
}

/// The position of the key with this hash, by whole hashes. It is separate, since a search that finds its key seldom needs it.
#[inline(never)]
fn position_by_hash(index: &Index, rows: &Rows, key: &Key, hash: u64) -> Option<usize>
    requires index { index.now.hashes ≡ map (mixed index.now.seed) rows.now.keys }
    requires hash { hash ≡ mixed index.now.seed key.now }
    ensures bound { IfSome result (λ position. position < length rows.now.keys) }
    ensures found { IfSome result (HoldsAt (λ k. k ≡ key.now) rows.now.keys) }
    ensures absent { IfNone result (AllWithin (λ k. k ≢ key.now) rows.now.keys 0 (length rows.now.keys)) }
{
    let last = index.last(hash)?;
    if is_at(rows, last, key.as_slice()) {
        return Some(last);
    }
    position_before(index, rows, key, hash, last)
}

/// Where the key with this hash is found.
#[inline(always)]
fn found_with<'a>(index: &Index, rows: &'a Rows, key: &Key, hash: u64) -> Option<Found<'a>>
    requires index { index.now.hashes ≡ map (mixed index.now.seed) rows.now.keys }
    requires hash { hash ≡ mixed index.now.seed key.now }
    ensures bound { IfSome result (λ found. found.position < length rows.now.keys) }
    ensures found { IfSome result (λ found. HoldsAt (λ k. k ≡ key.now) rows.now.keys found.position) }
    ensures value { IfSome result (λ found. found.value.now ≡ string_at rows.now.values found.position) }
    ensures fits { IfSome result (λ found. length found.value.now ≤ VALUE_BYTES) }
    ensures absent { IfNone result (AllWithin (λ k. k ≢ key.now) rows.now.keys 0 (length rows.now.keys)) }
{
    if let Some(position) = index.likely(hash) {
        let (stored, value) = rows.entry(position);
        if are_same(stored, key.as_slice()) {
            return Some(Found { position, value });
        }
    }
    let position = position_by_hash(index, rows, key, hash)?;
    let value = value_at(rows, position);
    Some(Found { position, value })
}

/// Where the tree finds a key.
fn found_by<'a>(tree: &Tree, rows: &'a Rows, key: &Key) -> Option<Found<'a>>
    requires locates { Locates tree.now.positions rows.now.keys }
    ensures bound { IfSome result (λ found. found.position < length rows.now.keys) }
    ensures found { IfSome result (λ found. HoldsAt (λ k. k ≡ key.now) rows.now.keys found.position) }
    ensures value { IfSome result (λ found. found.value.now ≡ string_at rows.now.values found.position) }
    ensures fits { IfSome result (λ found. length found.value.now ≤ VALUE_BYTES) }
    ensures absent { IfNone result (AllWithin (λ k. k ≢ key.now) rows.now.keys 0 (length rows.now.keys)) }
{
    let position = tree.position(key)?;
    let value = rows.value(position);
    Some(Found { position, value })
}

impl Finder {
    /// Makes a finder of no keys, which hashes keys by this seed. Returns `NoMemory` if a request for memory is refused.
    pub(crate) fn open(alloc: Global, seed: Seed) -> Result<Finder, NoMemory>
        ensures ok { IfOk result (λ finder. Finds finder []) }
    {
        let index = Index::open(alloc, ToldSize::new(), seed)?;
        Ok(Finder::Hashes(index))
    }

    /// Returns the reported number of bins, whichever way the keys are found. Takes no memory.
    pub(crate) fn bins(&self) -> u64
        ensures count { IsBinCount result }
    {
        match self {
            Finder::Hashes(index) => index.bins(),
            Finder::Keys(tree) => tree.bins(),
        }
    }

    /// Returns how many bytes it takes: what the lists of an index have room for, or the nodes of a tree, at most.
    pub(crate) fn bytes(&self, rows: &Rows) -> usize {
        match self {
            Finder::Hashes(index) => index.bytes(),
            Finder::Keys(_) => Tree::bytes_for(rows),
        }
    }

    /// Returns whether one more key needs memory. Takes none.
    #[inline(always)]
    pub(crate) fn is_full(&self) -> bool {
        match self {
            Finder::Hashes(index) => index.is_full(),
            Finder::Keys(_) => true,
        }
    }

    /// Makes room for one more key, and for at most this many further ones. Returns `NoMemory` if a request for it is
    /// refused.
    pub(crate) fn reserve_some(&mut self, rows: &Rows, further: usize) -> Result<(), NoMemory>
        requires finds { Finds self.old rows.now.keys }
        ensures finds { Finds self.new rows.now.keys }
    {
        match self {
            Finder::Hashes(index) if index.is_full() => index.reserve_some(further),
            _ => Ok(()),
        }
    }

    /// Where a key is found: one reading of its row compares the key and gives the value. Takes no memory.
    #[inline(always)]
    pub(crate) fn found<'a>(&self, rows: &'a Rows, key: &HashedKey<'_>) -> Option<Found<'a>>
        requires finds { Finds self.now rows.now.keys }
        ensures bound { IfSome result (λ found. found.position < length rows.now.keys) }
        ensures found { IfSome result (λ found. HoldsAt (λ k. k ≡ key.now) rows.now.keys found.position) }
        ensures value { IfSome result (λ found. found.value.now ≡ string_at rows.now.values found.position) }
        ensures fits { IfSome result (λ found. length found.value.now ≤ VALUE_BYTES) }
        ensures absent { IfNone result (AllWithin (λ k. k ≢ key.now) rows.now.keys 0 (length rows.now.keys)) }
    {
        match self {
            Finder::Hashes(index) => {
                let hash = index.hash_of(key.key().as_slice());
                found_with(index, rows, key.key(), hash)
            }
            Finder::Keys(tree) => found_by(tree, rows, key.key()),
        }
    }

    /// The position of a key. Takes no memory.
    #[inline(never)]
    pub(crate) fn position(&self, rows: &Rows, key: &HashedKey<'_>) -> Option<usize>
        requires finds { Finds self.now rows.now.keys }
        ensures bound { IfSome result (λ position. position < length rows.now.keys) }
        ensures found { IfSome result (HoldsAt (λ k. k ≡ key.now) rows.now.keys) }
        ensures absent { IfNone result (AllWithin (λ k. k ≢ key.now) rows.now.keys 0 (length rows.now.keys)) }
    {
        let found = self.found(rows, key)?;
        Some(found.position)
    }

    /// The position of a key: if it stands where it was found before, no search is made. Takes no memory.
    #[inline(always)]
    pub(crate) fn position_again(&self, rows: &Rows, key: &HashedKey<'_>) -> Option<usize>
        requires finds { Finds self.now rows.now.keys }
        ensures bound { IfSome result (λ position. position < length rows.now.keys) }
        ensures found { IfSome result (HoldsAt (λ k. k ≡ key.now) rows.now.keys) }
        ensures absent { IfNone result (AllWithin (λ k. k ≢ key.now) rows.now.keys 0 (length rows.now.keys)) }
    {
        match remembered(rows, key) {
            Some(position) => Some(position),
            None => self.position(rows, key),
        }
    }

    /// Adds a key, at the position after these. Returns `NoMemory` if a request for memory is refused.
    #[inline(always)]
    pub(crate) fn push(&mut self, rows: &Rows, key: &HashedKey<'_>) -> Result<(), NoMemory>
        requires finds { Finds self.old rows.now.keys }
        requires new { AllWithin (λ k. k ≢ key.now) rows.now.keys 0 (length rows.now.keys) }
        ensures ok { OnOk result (Finds self.new (rows.now.keys ++ key.now ∷ [])) }
        ensures err { OnErr result (Finds self.new rows.now.keys) }
    {
        match self {
            Finder::Hashes(index) => {
                let hash = index.hash_of(key.key().as_slice());
                index.push(hash)
            }
            Finder::Keys(tree) => tree.push(rows, key.key()),
        }
    }

    /// Removes the key at a position; the last key takes that position. Takes no memory.
    #[inline(always)]
    pub(crate) fn swap_remove(&mut self, rows: &Rows, position: usize)
        requires finds { Finds self.old rows.now.keys }
        requires range { position < length rows.now.keys }
        ensures finds { Finds self.new (swap_remove rows.now.keys position []) }
    {
        match self {
            Finder::Hashes(index) => index.swap_remove(position),
            Finder::Keys(tree) => tree.swap_remove(rows, position),
        }
    }

    /// Returns whether it is time for the other way to find the keys: chains have become long, or there are far fewer or
    /// more keys than when the tree was made.
    #[inline(always)]
    fn is_due(&mut self, rows: &Rows) -> bool
        requires finds { Finds self.old rows.now.keys }
        ensures finds { Finds self.new rows.now.keys }
    {
        match self {
            Finder::Hashes(index) => index.is_slow(),
            Finder::Keys(tree) => tree.is_outlived(rows),
        }
    }

    /// Returns the other way to find the keys. Returns `NoMemory` if a request for memory is refused, or if a tree may take
    /// more than `left` bytes.
    fn other(&self, rows: &Rows, left: usize) -> Result<Finder, NoMemory>
        requires finds { Finds self.now rows.now.keys }
        requires once { StandOnce rows.now.keys }
        ensures finds { IfOk result (λ finder. Finds finder rows.now.keys) }
    {
        match self {
            Finder::Hashes(_) if Tree::bytes_for(rows) > left => Err(NoMemory),
            Finder::Hashes(index) => Ok(Finder::Keys(Tree::of(index, rows)?)),
            Finder::Keys(tree) => Ok(Finder::Hashes(tree.index(rows)?)),
        }
    }

    /// Finds the keys the other way, if there is memory for it.
    #[cold]
    fn change(&mut self, rows: &Rows, left: usize)
        requires finds { Finds self.old rows.now.keys }
        requires once { StandOnce rows.now.keys }
        ensures finds { Finds self.new rows.now.keys }
    {
        if let Ok(other) = self.other(rows, left) {
            *self = other;
        }
    }

    /// Looks at the chain that the last key was added to. Once chains have become long, takes a tree instead of the index;
    /// once there are far fewer or more keys, an index by another seed instead of the tree. Does so if memory for it is
    /// granted, and a tree takes at most `left` bytes.
    #[inline(always)]
    pub(crate) fn settle(&mut self, rows: &Rows, left: usize)
        requires finds { Finds self.old rows.now.keys }
        requires once { StandOnce rows.now.keys }
        ensures finds { Finds self.new rows.now.keys }
    {
        if self.is_due(rows) {
            self.change(rows, left);
        }
    }
}
