//! Positions of entries, found by the hashes of their keys: a list of hashes, and one chain of positions for each bin of hashes.
//!
//! A bin's head is its last position, and a position's next is the one before it in the same bin. Both count from 1, and 0
//! ends a chain. So positions fall along a chain, and the hashes alone determine the heads and the nexts (`AreChained` of
//! `specs/Chains.antt`). Bins are added one at a time: a new bin takes its positions out of the chain of one bin, and the
//! other chains stay as they are. So no call is held up while the bins grow. The hash of a position and its next lie side by
//! side, so a search finds both in one cache line. Heads and nexts have some bits of the hash at the position that they lead to. So a
//! search mostly knows the right position before it reads that one's record.
ghost use Rattle.std.specs.Prelude.{◌≡◌, ◌<◌, ◌*◌, ◌++◌, [], ◌∷◌, length, slice_index, IfOk, IfSome, OnOk, OnErr, ◌≤◌, ◌+◌, ◌-◌, ℕ, set, IsTrue, take};
ghost use Rattle.std.specs.List.{swap_remove};
ghost use Rattle.bins.specs.Chains.{IsCrowded, IsLastOf, MayDouble, AreChained, AreLinked, AreLinkedAt, AreLinkedBy, AreSpread, IsLast, IsLink, IsLinkTo, Moved, Relinked, bin_in, bin_of, bins_of, follow, position_bin};
ghost use Rattle.bins.specs.Mixed.{mixed};
ghost use Rattle.bins.specs.Told.{IsBinCount};

use crate::growth::make_room;
use crate::hashes::{Seed, mixed_hash};
use crate::links::{LinkWord, MOST_POSITIONS};
use crate::told_size::ToldSize;
use bpf_model::NoMemory;
use std::alloc::Global;
use std::marker::Model;

/// If a chain has at most this many positions, they are few.
const FEW_STEPS: usize = 16;

/// A list of hashes; the chain of its bin finds each again. A hash has the position of its entry, which is kept elsewhere.
/// Takes 16 bytes a hash and 8 bytes a bin; there are as many bins as hashes.
#[derive(Drop)]
pub struct Index {
    chains: Chains,
    told: ToldSize,
    // The seed by which keys are hashed.
    seed: Seed,
    // The steps that walks along chains took, beyond a few each.
    excess: u64,
}

impl Model for Index {
    ghost use Rattle.bins.specs.Chains.{PlacedHashes, AreChained};

    ghost Value = { PlacedHashes };

    ghost view = { λ index. record {
      bins = index.told;
      seed = index.seed;
      hashes = index.chains.records.hashes;
    } };

    ghost invariant = { λ index. AreChained index.chains };
}

impl Index {
    /// Makes an index without hashes, by this seed, which reports this size. Returns `NoMemory` if a request for memory is
    /// refused.
    pub fn open(alloc: Global, told: ToldSize, seed: Seed) -> Result<Index, NoMemory>
        ensures hashes { IfOk result (λ index. index.hashes ≡ []) }
        ensures bins { IfOk result (λ index. index.bins ≡ told) }
        ensures seed { IfOk result (λ index. index.seed ≡ seed) }
    {
        Ok(Index {
            chains: Chains::open(alloc)?,
            told,
            seed,
            excess: 0,
        })
    }

    /// Returns the reported size. Takes no memory.
    pub fn told(&self) -> ToldSize
        ensures bins { result ≡ self.now.bins }
    {
        self.told.copied()
    }

    /// Returns the allocator that memory for the index comes from.
    pub fn alloc(&self) -> Global {
        self.chains.alloc()
    }

    /// Returns the seed by which keys are hashed.
    pub fn seed(&self) -> Seed
        ensures { result ≡ self.now.seed }
    {
        self.seed
    }

    /// Returns the reported number of bins. Takes no memory.
    pub fn bins(&self) -> u64
        ensures value { result ≡ self.now.bins }
        ensures count { IsBinCount result }
    {
        self.told.bins()
    }

    /// Returns the hash of a key's bytes. Takes no memory.
    #[inline(always)]
    pub fn hash_of(&self, key: &[u8]) -> u64
        ensures value { result ≡ mixed self.now.seed key.now }
    {
        mixed_hash(&self.seed, key)
    }

    /// Returns the last position of a hash. Takes no memory.
    #[inline(always)]
    pub fn last(&self, hash: u64) -> Option<usize>
        ensures value { IsLastOf self.now.hashes (length self.now.hashes) hash result }
    {
        self.chains.last(hash)
    }

    /// Returns the first position along the chain of a hash's bin to which a link with bits of the hash leads. Mostly the hash stands there,
    /// but no clause says so. Takes no memory.
    #[inline(always)]
    pub fn likely(&self, hash: u64) -> Option<usize>
        ensures range { IfSome result (λ position. position < length self.now.hashes) }
    {
        self.chains.likely(hash)
    }

    /// Returns the last position before this one that has the same hash. Takes no memory.
    #[inline(always)]
    pub fn before(&self, position: usize, hash: u64) -> Option<usize>
        requires range { position < length self.now.hashes }
        requires same { slice_index self.now.hashes position ≡ hash }
        ensures value { IsLastOf self.now.hashes position hash result }
    {
        self.chains.before(position, hash)
    }

    /// Adds a hash, at the position after the others. If the hashes are then more than twice as many as the reported bins,
    /// it reports twice the bins. Returns `NoMemory` if memory for the hash is refused; nothing changes then.
    pub fn push(&mut self, hash: u64) -> Result<(), NoMemory>
        ensures ok { OnOk result (self.new.hashes ≡ self.old.hashes ++ hash ∷ []) }
        ensures err { OnErr result (self.new ≡ self.old) }
        ensures seed { self.new.seed ≡ self.old.seed }
        ensures bins { OnOk result (MayDouble self.old self.new) }
        ensures crowded { OnOk result (IsCrowded self.old.bins self.new.hashes → self.new.bins ≡ 2 * self.old.bins) }
    {
        self.chains.push(hash)?;
        self.told.count_entries(self.chains.len());
        Ok(())
    }

    /// Returns how many bytes the hashes and bins that have room take.
    pub fn bytes(&self) -> usize {
        self.chains.bytes()
    }

    /// Returns whether one more hash has no room. Takes no memory.
    #[inline(always)]
    pub fn is_full(&self) -> bool {
        self.chains.is_full()
    }

    /// Makes room for one more hash, and for at most this many further ones, but not more than twice the hashes. Returns
    /// `NoMemory` if a request for it is refused.
    pub fn reserve_some(&mut self, further: usize) -> Result<(), NoMemory>
        ensures same { self.new ≡ self.old }
    {
        let more = further.min(self.chains.len()).saturating_add(1);
        self.chains.reserve(more)
    }

    /// Removes the hash at a position; the last hash takes that position. Takes no memory.
    pub fn swap_remove(&mut self, position: usize)
        requires { position < length self.old.hashes }
        ensures hashes { self.new.hashes ≡ swap_remove self.old.hashes position 0 }
        ensures bins { self.new.bins ≡ self.old.bins }
        ensures seed { self.new.seed ≡ self.old.seed }
    {
        self.chains.swap_remove(position);
    }

    /// Walks the chain that the last hash was added to, and adds its positions beyond a few to a sum. Returns whether the
    /// sum is more than the number of hashes; if it is, the sum starts again from zero. Takes no memory.
    #[inline(always)]
    pub fn is_slow(&mut self) -> bool
        ensures same { self.new ≡ self.old }
    {
        let steps = self.chains.steps_from_last();
        steps > FEW_STEPS && self.count_steps(steps)
    }

    /// Adds steps beyond a few to the sum. Returns whether the sum is more than the number of hashes; if it is, the sum
    /// starts again from zero.
    #[cold]
    fn count_steps(&mut self, steps: usize) -> bool
        ensures same { self.new ≡ self.old }
    {
        self.excess = self
            .excess
            .saturating_add(steps.saturating_sub(FEW_STEPS) as u64);
        let slow = self.excess > self.chains.len() as u64;
        if slow {
            self.excess = 0;
        }
        slow
    }
}

/// The number of bins at first.
pub const FIRST_HEADS: usize = 8;
/// What room for a position takes.
const RECORD_BYTES: usize = 16;
/// What room for a bin takes.
const HEAD_BYTES: usize = 8;
/// If there are at most this many bins, their memory is kept when the last position goes.
const KEPT_HEADS: usize = 1_024;
/// From this number on no bins are added: no memory has room for that many.
pub const MOST_HALF: usize = 1 << 60;

/// The hashes in the order of their positions, and the links of their chains. There are at least `half` bins, and at most
/// twice as many.
#[derive(Drop)]
pub struct Chains {
    half: usize,
    heads: Vec<LinkWord>,
    records: Records,
}

/// A link of a chain: the head of a bin, or the next of a position.
#[derive(Clone, Copy)]
pub enum Link {
    /// The head of this bin.
    Head(usize),
    /// The next of this position.
    Next(usize),
}

/// Returns the bin of a hash.
#[inline(always)]
fn bin_of(half: usize, bins: usize, hash: u64) -> usize
    requires { AreSpread half bins }
    ensures value { result ≡ bin_of half bins hash }
    ensures range { result < bins }
{
    let rest = hash as usize & (2 * half - 1);
    if rest < bins { rest } else { rest - half }
}

/// Returns the half with which one more bin may be added: the number of bins if that is twice the half, and otherwise the
/// half itself.
fn half_for(half: usize, bins: usize) -> usize
    requires spread { AreSpread half bins }
    requires few { bins < MOST_HALF }
    ensures spread { AreSpread result bins }
    ensures room { bins < 2 * result }
    ensures same { (hash : ℕ) → bin_of result bins hash ≡ bin_of half bins hash }
{
    if bins == 2 * half { bins } else { half }
}

/// Returns the heads of the first bins, without positions. Returns `NoMemory` if a request for memory is refused.
fn first_heads(alloc: Global) -> Result<Vec<LinkWord>, NoMemory>
    ensures bins { IfOk result (λ heads. length heads.items ≡ FIRST_HEADS) }
    ensures none { IfOk result (λ heads. (bin : ℕ) → slice_index heads.items bin ≡ 0) }
{
    let mut heads = Vec::with_capacity(alloc, FIRST_HEADS)?;
    while heads.len() < FIRST_HEADS {
        heads.push_reserved(LinkWord::none());
    }
    Ok(heads)
}

impl Chains {
    /// Makes chains without positions, in 8 bins. Returns `NoMemory` if a request for memory is refused.
    pub fn open(alloc: Global) -> Result<Chains, NoMemory>
        ensures chained { IfOk result AreChained }
        ensures empty { IfOk result (λ chains. chains.records.hashes ≡ []) }
    {
        Ok(Chains {
            half: FIRST_HEADS,
            heads: first_heads(alloc)?,
            records: Records::new(alloc),
        })
    }

    /// Returns the allocator that memory for the chains comes from.
    pub fn alloc(&self) -> Global {
        *self.heads.allocator()
    }

    /// Returns the number of positions. Takes no memory.
    #[inline(always)]
    pub fn len(&self) -> usize
        ensures value { result ≡ length self.now.records.hashes }
    {
        self.records.len()
    }

    /// Returns how many bytes the positions and bins that have room take.
    pub fn bytes(&self) -> usize {
        let records = self.records.capacity().saturating_mul(RECORD_BYTES);
        let heads = self.heads.capacity().saturating_mul(HEAD_BYTES);
        records.saturating_add(heads)
    }

    /// Returns whether one more position has no room. Takes no memory.
    #[inline(always)]
    pub fn is_full(&self) -> bool {
        self.records.len() >= self.records.capacity()
    }

    /// Makes room for this many more positions, and as many bins. Returns `NoMemory` if a request for it is refused.
    pub fn reserve(&mut self, more: usize) -> Result<(), NoMemory>
        requires chained { AreChained self.old }
        ensures chained { AreChained self.new }
        ensures hashes { self.new.records.hashes ≡ self.old.records.hashes }
    {
        self.records.reserve(more)?;
        self.heads.try_reserve_exact(more)?;
        Ok(())
    }

    /// Returns how many positions the chain of the last one has. Takes no memory.
    #[inline(always)]
    pub fn steps_from_last(&self) -> usize
        requires chained { AreChained self.now }
        ensures bound { result ≤ length self.now.records.hashes }
    {
        let mut steps = 0;
        let mut at = self.records.len();
        while at != 0 {
            at = self.records.next(at - 1);
            steps += 1;
        }
        steps
    }

    /// Returns the first position with this hash along a chain.
    #[inline(always)]
    fn find_from(&self, first: usize, hash: u64) -> Option<usize>
        requires chained { AreChained self.now }
        requires range { first ≤ length self.now.records.hashes }
        ensures value { (n : ℕ) → n ≤ length self.now.records.hashes
            → IsLast (position_bin self.now) n (bin_in self.now hash) first
            → IsLastOf self.now.records.hashes n hash result }
    {
        let mut at = first;
        while at != 0 {
            let position = at - 1;
            if self.records.hash(position) == hash {
                return Some(position);
            }
            at = self.records.next(position);
        }
        None
    }

    /// Returns the last position of a hash. Takes no memory.
    #[inline(always)]
    pub fn last(&self, hash: u64) -> Option<usize>
        requires chained { AreChained self.now }
        ensures value { IsLastOf self.now.records.hashes (length self.now.records.hashes) hash result }
    {
        let bin = bin_of(self.half, self.heads.len(), hash);
        self.find_from(self.heads[bin].at(), hash)
    }

    /// Returns the first position along the chain of a hash's bin to which a link with bits of the hash leads. Takes no memory.
    #[inline(always)]
    pub fn likely(&self, hash: u64) -> Option<usize>
        requires chained { AreChained self.now }
        ensures range { IfSome result (λ position. position < length self.now.records.hashes) }
    {
        let mut link = &self.heads[bin_of(self.half, self.heads.len(), hash)];
        while link.at() != 0 {
            let position = link.at() - 1;
            if link.has_bits_of(hash) {
                return Some(position);
            }
            link = self.records.link(position);
        }
        None
    }

    /// Returns the last position before this one that has the same hash. Takes no memory.
    #[inline(always)]
    pub fn before(&self, position: usize, hash: u64) -> Option<usize>
        requires chained { AreChained self.now }
        requires range { position < length self.now.records.hashes }
        requires same { slice_index self.now.records.hashes position ≡ hash }
        ensures value { IsLastOf self.now.records.hashes position hash result }
    {
        self.find_from(self.records.next(position), hash)
    }

    /// Adds a position for this hash.
    fn add(&mut self, hash: u64) -> Result<(), NoMemory>
        requires chained { AreChained self.old }
        ensures chained { AreChained self.new }
        ensures ok { OnOk result (self.new.records.hashes ≡ self.old.records.hashes ++ hash ∷ []) }
        ensures err { OnErr result (self.new.records.hashes ≡ self.old.records.hashes) }
    {
        let bin = bin_of(self.half, self.heads.len(), hash);
        self.records.push(hash, self.heads[bin].copied())?;
        self.heads[bin] = LinkWord::new(self.records.len(), hash);
        Ok(())
    }

    /// Returns the link of a bin that leads, or would lead, to a position.
    fn link_to(&self, bin: usize, position: usize) -> Link
        requires linked { AreLinked self.now }
        requires bin { bin < length self.now.heads.items }
        requires position { position < length self.now.records.nexts }
        ensures is_link { IsLink self.now result }
        ensures leads { (bins : ℕ → ℕ) → AreLinkedBy bins self.now
            → IsLinkTo bins (length self.now.records.nexts) bin position result }
    {
        let mut link = Link::Head(bin);
        let mut at = self.heads[bin].at();
        while at.saturating_sub(1) > position {
            link = Link::Next(at - 1);
            at = self.records.next(at - 1);
        }
        link
    }

    /// Returns where a link leads to.
    fn follow(&self, link: Link) -> LinkWord
        requires { IsLink self.now link }
        ensures value { result ≡ follow self.now.heads.items self.now.records.nexts link }
    {
        match link {
            Link::Head(bin) => self.heads[bin].copied(),
            Link::Next(position) => self.records.link(position).copied(),
        }
    }

    /// Makes a link lead elsewhere.
    fn relink(&mut self, link: Link, to: LinkWord)
        requires { IsLink self.old link }
        ensures value { Relinked link to self.old self.new }
    {
        match link {
            Link::Head(bin) => self.heads[bin] = to,
            Link::Next(position) => self.records.set_next(position, to),
        }
    }

    /// Takes a position, counted from 1, out of one bin's chain and links it into another's, as one of this hash.
    fn move_to(&mut self, at: usize, from: usize, into: usize, hash: u64)
        requires linked { AreLinkedAt (at - 1) from self.old }
        requires some { 0 < at }
        requires range { at ≤ length self.old.records.nexts }
        requires from { from < length self.old.heads.items }
        requires into { into < length self.old.heads.items }
        ensures linked { (bin new : ℕ → ℕ) → AreLinkedBy bin self.old → bin (at - 1) ≡ from
            → Moved bin new (at - 1) into → AreLinkedBy new self.new }
        ensures hashes { self.new.records.hashes ≡ self.old.records.hashes }
        ensures nexts { length self.new.records.nexts ≡ length self.old.records.nexts }
        ensures bins { length self.new.heads.items ≡ length self.old.heads.items }
        ensures half { self.new.half ≡ self.old.half }
    {
        let position = at - 1;
        let old_link = self.link_to(from, position);
        let next = self.records.link(position).copied();
        self.relink(old_link, next);
        let new_link = self.link_to(into, position);
        let after = self.follow(new_link);
        self.records.set_next(position, after);
        self.relink(new_link, LinkWord::new(at, hash));
    }

    /// Gives a position, counted from 1, another hash: takes it out of the old hash's chain and links it into the new one's.
    fn rehash(&mut self, at: usize, hash: u64)
        requires chained { AreChained self.old }
        requires some { 0 < at }
        requires range { at ≤ length self.old.records.hashes }
        ensures chained { AreChained self.new }
        ensures hashes { self.new.records.hashes ≡ set self.old.records.hashes (at - 1) hash }
    {
        let bins = self.heads.len();
        let from = bin_of(self.half, bins, self.records.hash(at - 1));
        let into = bin_of(self.half, bins, hash);
        self.move_to(at, from, into, hash);
        self.records.set_hash(at - 1, hash);
    }

    /// Divides the positions of one bin: those that go to the last bin, which has none yet, are moved there.
    fn part(&mut self, into: usize)
        requires spread { AreSpread self.old.half into }
        requires few { into < 2 * self.old.half }
        requires bins { length self.old.heads.items ≡ into + 1 }
        requires long { length self.old.records.nexts ≡ length self.old.records.hashes }
        requires linked { AreLinkedBy (bins_of self.old.half into self.old.records.hashes) self.old }
        ensures linked { AreLinkedBy (bins_of self.old.half (into + 1) self.old.records.hashes) self.new }
        ensures hashes { self.new.records.hashes ≡ self.old.records.hashes }
        ensures nexts { length self.new.records.nexts ≡ length self.old.records.nexts }
        ensures bins { length self.new.heads.items ≡ length self.old.heads.items }
        ensures half { self.new.half ≡ self.old.half }
    {
        let bins = self.heads.len();
        let from = into - self.half;
        let mut at = self.heads[from].at();
        while at != 0 {
            let here = at;
            let hash = self.records.hash(here - 1);
            at = self.records.next(here - 1);
            if bin_of(self.half, bins, hash) == into {
                self.move_to(here, from, into, hash);
            }
        }
    }

    /// Adds one bin if there is memory for it. The positions of one other bin are divided between the two.
    fn add_bin(&mut self) -> Result<(), NoMemory>
        requires chained { AreChained self.old }
        requires few { length self.old.heads.items < MOST_HALF }
        ensures chained { AreChained self.new }
        ensures hashes { self.new.records.hashes ≡ self.old.records.hashes }
    {
        let bins = self.heads.len();
        make_room(&mut self.heads, HEAD_BYTES)?;
        self.heads.push_reserved(LinkWord::none());
        self.half = half_for(self.half, bins);
        self.part(bins);
        Ok(())
    }

    /// Returns whether there are more positions than bins, and there may be more bins.
    fn is_crowded(&self) -> bool
        ensures few { IsTrue result → length self.now.heads.items < MOST_HALF }
    {
        self.records.len() > self.heads.len() && self.heads.len() < MOST_HALF
    }

    /// Adds bins while there are more positions than bins and memory for them is granted. Adds two at most, so that it makes
    /// up for refused ones.
    fn spread(&mut self)
        requires chained { AreChained self.old }
        ensures chained { AreChained self.new }
        ensures hashes { self.new.records.hashes ≡ self.old.records.hashes }
    {
        for _ in 0..2 {
            if !self.is_crowded() || self.add_bin().is_err() {
                return;
            }
        }
    }

    /// Adds a hash, at the position after the others. If there are then fewer bins than positions, adds bins too if memory
    /// for them is granted. Returns `NoMemory` if memory for the hash is refused.
    pub fn push(&mut self, hash: u64) -> Result<(), NoMemory>
        requires chained { AreChained self.old }
        ensures chained { AreChained self.new }
        ensures ok { OnOk result (self.new.records.hashes ≡ self.old.records.hashes ++ hash ∷ []) }
        ensures err { OnErr result (self.new.records.hashes ≡ self.old.records.hashes) }
    {
        self.add(hash)?;
        self.spread();
        Ok(())
    }

    /// Takes the last position out of its chain, which it is the head of, and returns its hash.
    fn take_last(&mut self) -> u64
        requires chained { AreChained self.old }
        requires some { 0 < length self.old.records.hashes }
        ensures chained { AreChained self.new }
        ensures hashes { self.old.records.hashes ≡ self.new.records.hashes ++ result ∷ [] }
    {
        let position = self.records.len() - 1;
        let hash = self.records.hash(position);
        let bin = bin_of(self.half, self.heads.len(), hash);
        self.heads[bin] = self.records.link(position).copied();
        self.records.remove_last();
        hash
    }

    /// Removes the hash at a position; the last hash takes that position. Takes no memory.
    pub fn swap_remove(&mut self, position: usize)
        requires chained { AreChained self.old }
        requires range { position < length self.old.records.hashes }
        ensures chained { AreChained self.new }
        ensures hashes { self.new.records.hashes ≡ swap_remove self.old.records.hashes position 0 }
    {
        let hash = self.take_last();
        if position < self.records.len() {
            self.rehash(position + 1, hash);
        }
        if self.records.len() == 0 && self.heads.len() > KEPT_HEADS {
            self.give_back();
        }
    }

    /// Gives back the memory of all positions and of most bins once there is no position.
    #[cold]
    fn give_back(&mut self)
        requires chained { AreChained self.old }
        requires empty { length self.old.records.hashes ≡ 0 }
        ensures chained { AreChained self.new }
        ensures hashes { self.new.records.hashes ≡ self.old.records.hashes }
    {
        self.half = FIRST_HEADS;
        self.heads.truncate(FIRST_HEADS);
        self.heads.shrink_to_fit();
        self.records.give_back();
    }
}

/// The record of one position.
#[derive(Drop)]
struct Record {
    hash: u64,
    next: LinkWord,
}

const _: () = prove!(size_of::<Record>() == 16);

/// The hash and the next of each position, in their order.
#[derive(Drop)]
pub struct Records {
    list: Vec<Record>,
}

impl Model for Records {
    ghost use Rattle.std.specs.Prelude.{map, length, ◌<◌};
    ghost use Rattle.bins.specs.Records.{Recorded};
    ghost use Rattle.bins.specs.declared.links.TheConstants.{MOST_POSITIONS};

    ghost Value = { Recorded };

    ghost view = { λ records. record {
      hashes = map (λ kept. kept.hash) records.list.items;
      nexts = map (λ kept. kept.next) records.list.items;
    } };

    ghost invariant = { λ records. length records.list.items < MOST_POSITIONS };
}

impl Records {
    /// Makes a list without positions. Takes no memory.
    pub fn new(alloc: Global) -> Records
        ensures hashes { result.hashes ≡ [] }
        ensures nexts { result.nexts ≡ [] }
    {
        Records {
            list: Vec::new(alloc),
        }
    }

    /// Returns the number of positions. Takes no memory.
    #[inline(always)]
    pub fn len(&self) -> usize
        ensures hashes { result ≡ length self.now.hashes }
        ensures nexts { result ≡ length self.now.nexts }
        ensures few { result < MOST_POSITIONS }
    {
        self.list.len()
    }

    /// Returns the hash of a position. Takes no memory.
    #[inline(always)]
    pub fn hash(&self, position: usize) -> u64
        requires { position < length self.now.hashes }
        ensures { result ≡ slice_index self.now.hashes position }
    {
        self.list[position].hash
    }

    /// Returns the next of a position. Takes no memory.
    #[inline(always)]
    pub fn next(&self, position: usize) -> usize
        requires { position < length self.now.nexts }
        ensures { result ≡ slice_index self.now.nexts position }
    {
        self.list[position].next.at()
    }

    /// Returns the link from a position to the next. Takes no memory.
    #[inline(always)]
    pub fn link(&self, position: usize) -> &LinkWord
        requires { position < length self.now.nexts }
        ensures value { result.now ≡ slice_index self.now.nexts position }
        ensures few { length self.now.nexts < MOST_POSITIONS }
    {
        &self.list[position].next
    }

    /// Sets the hash of a position. Takes no memory.
    pub fn set_hash(&mut self, position: usize, hash: u64)
        requires { position < length self.old.hashes }
        ensures hashes { self.new.hashes ≡ set self.old.hashes position hash }
        ensures nexts { self.new.nexts ≡ self.old.nexts }
    {
        self.list[position].hash = hash;
    }

    /// Sets the next of a position. Takes no memory.
    pub fn set_next(&mut self, position: usize, next: LinkWord)
        requires { position < length self.old.nexts }
        ensures hashes { self.new.hashes ≡ self.old.hashes }
        ensures nexts { self.new.nexts ≡ set self.old.nexts position next }
    {
        self.list[position].next = next;
    }

    /// Adds a position after the others. Returns `NoMemory` if memory for it is refused, or there would be `MOST_POSITIONS`; nothing changes
    /// then.
    pub fn push(&mut self, hash: u64, next: LinkWord) -> Result<(), NoMemory>
        ensures ok_hashes { OnOk result (self.new.hashes ≡ self.old.hashes ++ hash ∷ []) }
        ensures ok_nexts { OnOk result (self.new.nexts ≡ self.old.nexts ++ next ∷ []) }
        ensures err { OnErr result (self.new ≡ self.old) }
    {
        if self.list.len() as u64 >= MOST_POSITIONS - 1 {
            return Err(NoMemory);
        }
        make_room(&mut self.list, size_of::<Record>())?;
        self.list.push_reserved(Record { hash, next });
        Ok(())
    }

    /// Returns how many positions have room. Takes no memory.
    pub fn capacity(&self) -> usize {
        self.list.capacity()
    }

    /// Makes room for this many more positions. Returns `NoMemory` if the request for it is refused.
    pub fn reserve(&mut self, more: usize) -> Result<(), NoMemory>
        ensures same { self.new ≡ self.old }
    {
        self.list.try_reserve_exact(more)?;
        Ok(())
    }

    /// Removes the last position. Takes no memory.
    pub fn remove_last(&mut self)
        ensures hashes { self.new.hashes ≡ take (length self.old.hashes - 1) self.old.hashes }
        ensures nexts { self.new.nexts ≡ take (length self.old.nexts - 1) self.old.nexts }
    {
        self.list.truncate(self.list.len().saturating_sub(1));
    }

    /// Gives back the memory of all positions if there is none.
    pub fn give_back(&mut self)
        ensures same { self.new ≡ self.old }
    {
        if self.list.is_empty() {
            self.list.shrink_to_fit();
        }
    }
}
