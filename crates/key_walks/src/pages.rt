//! A walk by pages.
ghost use Rattle.std.specs.Prelude.{◌≡◌, ◌↔◌, ℕ, List, IsTrue, ◌<◌, ◌≤◌, ◌-◌, ◌/◌, ◌^◌, ◌++◌, ◌&&◌, max, leb, ltb, count_by, filter, map, length, IfOk, OnOk, OnErr};
ghost use Rattle.bin_stripes.specs.Passes.{ServesSameMap, stripes_of};
ghost use Rattle.key_walks.specs.Places.{stands_in, start_of};
ghost use Rattle.key_walks.specs.Expired.{MayScanLive, StopsLive};
ghost use Rattle.key_walks.specs.Iterations.{PageCall, IsWhole, AreShown};
ghost use Rattle.key_walks.specs.Pages.{IsPage, TakesLive, TakesMore, stripes_from};

use crate::expiring::expire_all;
use crate::finding::key_at;
use crate::places::{PLACES, cursor_of, place_of, places_of};
use bin_stripes::{Pass, StripedMap};
use bins::EntryList;
use bpf_model::{Key, NoMemory};
use std::alloc::Global;
use std::sync::Wait;

/// Which page of a walk is asked for, and when.
#[derive(Clone, Copy, Debug, PartialEq, Eq)]
pub struct PageAsked {
    /// The cursor at which the page begins; 0 begins a walk. Any number is allowed.
    pub cursor: u64,
    /// How many keys the page has at least, unless the walk is over; 0 stands for 1.
    pub most: u64,
    /// The time in milliseconds since the epoch.
    pub time: u64,
}

/// A page of a walk.
#[derive(Drop)]
pub struct Page {
    /// The keys of the page, in any order.
    pub keys: Vec<Key>,
    /// The cursor at which the walk goes on; 0 if it is over.
    pub next: u64,
}

impl Page {
    /// Returns whether this is the last page of a walk. In the pages of a whole walk each key has its turn: one of them scanned its
    /// stripe, and has the key if that scan found it.
    pub fn is_last(&self) -> bool
        ensures exact { IsTrue result ↔ (self.now.next ≡ 0) }
        ensures whole { (stripes k : ℕ) (key : List ℕ) (pages : List PageCall) → IsWhole stripes pages → k < stripes → AreShown k key pages }
    {
        self.next == 0
    }
}

/// Returns whether a place is this one or comes after it, and comes before the other.
fn is_between(place: u64, from: u64, until: u64) -> bool
    ensures { result ≡ (leb from place && ltb place until) }
{
    from <= place && place < until
}

/// Counts the places from one on up to another.
fn count_between(places: &[u64], from: u64, until: u64) -> u64
    ensures value { result ≡ count_by (λ place. leb from place && ltb place until) places.now }
{
    let mut count = 0;
    for place in places {
        if is_between(*place, from, until) {
            count += 1;
        }
    }
    count
}

/// Returns the first place such that at least `most` of these lie before it, from a place on; the end if there is none. `most` is
/// not 0.
fn end_of(places: &[u64], from: u64, end: u64, most: u64) -> u64
    requires some { from < end }
    requires most { 0 < most }
    ensures after { from < result }
    ensures inside { result ≤ end }
    ensures enough { count_by (λ place. leb from place && ltb place result) places.now < most → result ≡ end }
    ensures few { count_by (λ place. leb from place && ltb place (result - 1)) places.now < most }
{
    let mut low = from;
    let mut high = end;
    while low + 1 < high {
        let middle = low + (high - low) / 2;
        if count_between(places, from, middle) < most {
            low = middle;
        } else {
            high = middle;
        }
    }
    high
}

/// Adds the keys that stand in this stripe from a place on up to another.
fn add_between(
    keys: &mut Vec<Key>,
    found: &EntryList,
    stripe: u64,
    from: u64,
    until: u64,
) -> Result<(), NoMemory>
    requires { stripe < 2 ^ 31 }
    ensures { OnOk result (keys.new.items ≡ keys.old.items ++ map (λ entry. entry.0) (filter (λ entry. stands_in stripe from until entry.0) found.now)) }
{
    for position in 0..found.len() {
        let place = place_of(stripe, found.key(position));
        if is_between(place, from, until) {
            keys.push(key_at(found, position))?;
        }
    }
    Ok(())
}

/// Scans the stripe that the page has come to, after its entries whose time is over were taken away, and adds keys of it until there
/// are at least `most` or the stripe ends. Returns `NoMemory` if a request for memory is refused; the keys of the page may be lost
/// then. Waits until the stripe is free.
fn take_part<R: Wait>(
    rt: &R,
    alloc: Global,
    map: &StripedMap,
    pass: &mut Pass,
    asked: &PageAsked,
    page: &mut Page,
) -> Result<(), NoMemory>
    requires map { pass.old.map ≡ map.now }
    requires stripes { stripes_of map.now ≤ 64 }
    requires place { page.old.next < start_of (stripes_of map.now) }
    requires most { length page.old.keys.items < asked.now.most }
    ensures same { ServesSameMap pass.old pass.new }
    ensures ok { OnOk result (TakesMore asked.now.time asked.now.most pass.old page.old.keys.items page.old.next page.new.keys.items page.new.next pass.new) }
    ensures err { OnErr result (MayScanLive asked.now.time pass.old (page.old.next / 2 ^ 32) pass.new) }
{
    let stripe = page.next / PLACES;
    expire_all(rt, map, pass, stripe, asked.time);
    let mut found = EntryList::new(alloc);
    map.copy_stripe(rt, pass, stripe, &mut found)?;
    let places = places_of(alloc, stripe, &found)?;
    let more = asked.most - page.keys.len() as u64;
    let until = end_of(&places, page.next, (stripe + 1) * PLACES, more);
    add_between(&mut page.keys, &found, stripe, page.next, until)?;
    page.next = until;
    Ok(())
}

/// Returns some keys from a cursor on, and the cursor of the next page. Begin with the cursor 0, and go on with the cursor of the
/// last page until it is 0: a key that is there all along comes in one of these pages (`Page::is_last`). A page has at least `most` keys
/// unless the walk is over, and more only if keys have the same hash. Before a stripe is scanned, its entries whose time is over at
/// that time are taken away. Returns `NoMemory` if a request for memory is refused. Scans a stripe at a time, and waits until each is free.
pub fn scan_some<R: Wait>(
    rt: &R,
    alloc: Global,
    map: &StripedMap,
    pass: &mut Pass,
    asked: PageAsked,
) -> Result<Page, NoMemory>
    requires map { pass.old.map ≡ map.now }
    ensures same { ServesSameMap pass.old pass.new }
    ensures ok { IfOk result (λ page. IsPage asked.time pass.old asked.cursor asked.most page.keys.items page.next pass.new) }
    ensures err { OnErr result (StopsLive asked.time (TakesLive asked.time (max asked.most 1)) (stripes_from asked.cursor) pass.old pass.new) }
{
    let stripes = map.stripes();
    let wanted = PageAsked {
        most: asked.most.max(1),
        ..asked
    };
    let mut page = Page {
        keys: Vec::new(alloc),
        next: asked.cursor,
    };
    while (page.keys.len() as u64) < wanted.most && page.next < stripes * PLACES {
        take_part(rt, alloc, map, pass, &wanted, &mut page)?;
    }
    page.next = cursor_of(stripes, page.next);
    Ok(page)
}
