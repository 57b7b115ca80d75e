//! What remains of the items of each worker, and the first item of all.
ghost use Rattle.std.specs.Prelude.{◌≡◌, ◌<◌, ◌≤◌, ◌^◌, ◌∷◌, ◌↔◌, [], All, IfOk, IsTrue, MatchOption, T, drop, length, map, slice_index_or, take, false};
ghost use Rattle.std.specs.FinMap as finmap;
ghost use Rattle.bins.specs.Entries.{entries_at, entry_of};
ghost use Rattle.bins.specs.Fronts.{AreBytes};
ghost use Rattle.bins.specs.Table.{by_bytes};
ghost use Rattle.bulk_walks.specs.Leads.{leads_in};
ghost use Rattle.bulk_walks.specs.Merges.{comes_first, lead_of, left_of, lefts_of, lists_of, whole_of, TakesLeast};
ghost use Rattle.bulk_walks.specs.Halves.{IsParted, PartsAt};

use crate::answers::Answers;
use bins::{EntryList, EntryPosition};
use bpf_model::NoMemory;
use std::alloc::Global;
use std::marker::Model;

/// Borrowed items in an order with their leads, and how many were taken from its front. The lead is that of the first remaining
/// item. If nothing is left it is the greatest number.
#[derive(Drop)]
pub(crate) struct Rest<'a> {
    items: &'a EntryList,
    order: &'a [usize],
    leads: &'a [u64],
    next: usize,
    lead: u64,
}

impl<'a> Model for Rest<'a> {
    ghost use Rattle.std.specs.Prelude.{◌≡◌, ◌≤◌, drop, length};
    ghost use Rattle.bins.specs.Entries.{entries_at, entry_of};
    ghost use Rattle.bins.specs.Fronts.{AreBytes};
    ghost use Rattle.bulk_walks.specs.Leads.{leads_in};
    ghost use Rattle.bulk_walks.specs.Merges.{Remains, lead_of};

    ghost Value = { Remains };

    ghost view = { λ rest. record { list = rest.items.now; order = rest.order.now; taken = rest.next } };

    ghost invariant = { λ rest. (rest.next ≤ length rest.order.now)
        × (rest.leads.now ≡ leads_in rest.items.now rest.order.now)
        × (rest.lead ≡ lead_of (entries_at rest.items.now (drop rest.next rest.order.now)))
        × AreBytes (entry_of (entries_at rest.items.now (drop rest.next rest.order.now)) 0).0 };
}

impl<'a> Rest<'a> {
    /// Starts with all items of a worker.
    fn new(answers: &'a Answers) -> Rest<'a>
        ensures { result ≡ whole_of answers.now }
    {
        Rest::of(&answers.items, &answers.order, &answers.leads)
    }

    /// Starts with the items in this order.
    fn of(items: &'a EntryList, order: &'a [usize], leads: &'a [u64]) -> Rest<'a>
        requires led { leads.now ≡ leads_in items.now order.now }
        ensures list { result.list ≡ items.now }
        ensures order { result.order ≡ order.now }
        ensures taken { result.taken ≡ 0 }
    {
        Rest {
            items,
            order,
            leads,
            next: 0,
            lead: lead_at(items, order, leads, 0),
        }
    }

    /// Returns the same items, with as many taken from the front.
    fn copy(&self) -> Rest<'a>
        ensures { result ≡ self.now }
    {
        Rest {
            items: self.items,
            order: self.order,
            leads: self.leads,
            next: self.next,
            lead: self.lead,
        }
    }

    /// Tests whether nothing is left.
    #[inline(always)]
    pub(crate) fn is_over(&self) -> bool
        ensures exact { IsTrue result ↔ (length (left_of self.now) ≡ 0) }
    {
        self.next >= self.order.len()
    }

    /// Returns the first key.
    #[inline(always)]
    pub(crate) fn key(&self) -> &'a [u8]
        requires { ¬ (length (left_of self.now) ≡ 0) }
        ensures value { result.now ≡ (entry_of (left_of self.now) 0).0 }
    {
        self.items.key(self.order[self.next])
    }

    /// Returns the first bytes of the first key, as a number; the greatest one if nothing is left.
    #[inline(always)]
    fn lead(&self) -> u64
        ensures value { result ≡ lead_of (left_of self.now) }
        ensures bytes { AreBytes (entry_of (left_of self.now) 0).0 }
    {
        self.lead
    }

    /// Returns how many items are left.
    pub(crate) fn left(&self) -> usize
        ensures value { result ≡ length (left_of self.now) }
    {
        self.order.len() - self.next
    }

    /// Returns the key of the item that has this many before it, or no bytes.
    pub(crate) fn key_after(&self, before: usize) -> &'a [u8] {
        if before >= self.left() {
            return &[];
        }
        self.items.key(self.order[self.next + before])
    }

    /// Parts the remaining items at this key: returns those whose keys come before it, and the others.
    pub(crate) fn parted(&self, key: &[u8]) -> (Rest<'a>, Rest<'a>)
        requires order { T (finmap.is_sorted by_bytes (left_of self.now)) }
        ensures parts { IsParted key.now self.now result.0 result.1 }
    {
        let (_, order) = self.order.split_at(self.next);
        let (_, leads) = self.leads.split_at(self.next);
        let before = count_before(self.items, order, key);
        let (front, back) = order.split_at(before);
        let (front_leads, back_leads) = leads.split_at(before);
        let front = Rest::of(self.items, front, front_leads);
        (front, Rest::of(self.items, back, back_leads))
    }

    /// Takes the first item, if there is one, and returns its position.
    #[inline(always)]
    pub(crate) fn take_first(&mut self) -> Option<usize>
        ensures first { MatchOption result (left_of self.old ≡ []) (λ position. left_of self.old ≡ entry_of self.old.list position ∷ left_of self.new) }
        ensures list { self.new.list ≡ self.old.list }
    {
        if self.next >= self.order.len() {
            return None;
        }
        let position = self.order[self.next];
        self.next += 1;
        self.lead = lead_at(self.items, self.order, self.leads, self.next);
        Some(position)
    }
}

/// Returns how many keys in this order come before this one.
fn count_before(items: &EntryList, order: &[usize], key: &[u8]) -> usize
    requires order { T (finmap.is_sorted by_bytes (entries_at items.now order.now)) }
    ensures few { result ≤ length order.now }
    ensures parts { PartsAt key.now (entries_at items.now order.now) (entries_at items.now (take result order.now)) (entries_at items.now (drop result order.now)) }
{
    order.partition_point(|position| items.key(*position).cmp(key).is_lt())
}

/// The items of each worker.
pub(crate) fn rests_of<'a>(alloc: Global, all: &'a [Answers]) -> Result<Vec<Rest<'a>>, NoMemory>
    ensures { IfOk result (λ rests. rests.items ≡ map whole_of all.now) }
{
    let mut rests = Vec::with_capacity(alloc, all.len())?;
    for answers in all {
        rests.push(Rest::new(answers))?;
    }
    Ok(rests)
}

/// Copies what remains of each list.
pub(crate) fn copies_of<'a>(alloc: Global, rests: &[Rest<'a>]) -> Result<Vec<Rest<'a>>, NoMemory>
    ensures { IfOk result (λ copies. copies.items ≡ rests.now) }
{
    let mut copies = Vec::with_capacity(alloc, rests.len())?;
    for rest in rests {
        copies.push(rest.copy())?;
    }
    Ok(copies)
}

/// Takes the first item with the least key of all and returns its position, or `None` if all rests are empty.
pub(crate) fn take_least(rests: &mut Vec<Rest<'_>>) -> Option<EntryPosition>
    ensures least { TakesLeast (lists_of rests.old.items) (lefts_of rests.old.items) result (lefts_of rests.new.items) }
    ensures lists { lists_of rests.new.items ≡ lists_of rests.old.items }
{
    if rests.is_empty() {
        return None;
    }
    let list = least(rests);
    let rest = &mut rests[list];
    let position = rest.take_first()?;
    Some(EntryPosition { list, position })
}

/// Returns the lead of the items in this order, from a place in it on.
#[inline(always)]
fn lead_at(items: &EntryList, order: &[usize], leads: &[u64], next: usize) -> u64
    requires led { leads.now ≡ leads_in items.now order.now }
    ensures value { result ≡ lead_of (entries_at items.now (drop next order.now)) }
    ensures bytes { AreBytes (entry_of (entries_at items.now (drop next order.now)) 0).0 }
{
    if next < order.len() {
        // Only for the proof: that the key has bytes. The compiled program doesn't read it.
        let _ = items.front(order[next]);
        return leads[next];
    }
    u64::MAX
}

/// Returns the position of a rest that no other comes before. Mostly the leads tell.
#[inline(always)]
fn least(rests: &[Rest<'_>]) -> usize
    requires { 0 < length rests.now }
    ensures position { result < length rests.now }
    ensures least { All (λ left. comes_first left (slice_index_or (lefts_of rests.now) result left) ≡ false) (lefts_of rests.now) }
{
    let (position, alone) = least_lead(rests);
    if alone {
        return position;
    }
    least_key(rests)
}

/// Returns the position of a rest with the least lead, and whether the other leads are greater: then no other comes
/// before it. Doesn't branch on a lead, since nobody can predict which one is less.
#[inline(always)]
fn least_lead(rests: &[Rest<'_>]) -> (usize, bool)
    requires { 0 < length rests.now }
    ensures position { result.0 < length rests.now }
    ensures alone { IsTrue result.1 → All (λ left. comes_first left (slice_index_or (lefts_of rests.now) result.0 left) ≡ false) (lefts_of rests.now) }
{
    let mut position = 0;
    let mut least = rests[0].lead();
    let mut second = u64::MAX;
    for other in 1..rests.len() {
        let lead = rests[other].lead();
        second = second.min(lead.max(least));
        position = if lead < least { other } else { position };
        least = least.min(lead);
    }
    (position, least < second)
}

/// Returns the position of a rest whose first key no other's comes before.
#[inline(never)]
fn least_key(rests: &[Rest<'_>]) -> usize
    requires { 0 < length rests.now }
    ensures position { result < length rests.now }
    ensures least { All (λ left. comes_first left (slice_index_or (lefts_of rests.now) result left) ≡ false) (lefts_of rests.now) }
{
    let mut position = 0;
    for other in 1..rests.len() {
        if is_first(&rests[other], &rests[position]) {
            position = other;
        }
    }
    position
}

/// Tests whether the one rest's first key comes before the other's. An empty rest comes last.
#[inline(always)]
fn is_first(one: &Rest<'_>, other: &Rest<'_>) -> bool
    ensures { result ≡ comes_first (left_of one.now) (left_of other.now) }
{
    if one.is_over() {
        return false;
    }
    if other.is_over() {
        return true;
    }
    one.key().cmp(other.key()).is_lt()
}
