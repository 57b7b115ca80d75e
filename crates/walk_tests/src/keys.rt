//! Walks over the keys of a small map with one pass.
ghost use Rattle.std.specs.Prelude.{◌≡◌, All};

use crate::passes::next_pass;
use crate::playing::on_map;
use atomic_methods::Call;
use bin_stripes::{Pass, StripedMap};
use bpf_model::{Key, NoMemory, Value};
use key_walks::{PageAsked, all_keys, count_all, random_key, remove_all, scan_some};
use std::sync::Wait;
use std::test::Fail;
use std::thread::Threads;
use timed_bins::{DeadlineChange, SetRule, Timing};

/// The number of keys in the map.
const KEYS: u8 = 40;

/// The time of the walks.
const NOW: u64 = 1_000;

/// The page of more keys than there are, from a cursor on.
fn all_from(cursor: u64) -> PageAsked {
    PageAsked {
        cursor,
        most: 41,
        time: NOW,
    }
}

/// Puts keys of one byte each.
fn fill<R: Wait>(rt: &R, map: &StripedMap, pass: &mut Pass) -> Result<(), NoMemory>
    requires { pass.old.map ≡ map.now }
    ensures { pass.new.map ≡ map.now }
{
    let value = &Value::new();
    for number in 0..KEYS {
        let key = &Key::from_slice(&[number]).unwrap();
        map.call(rt, pass, &Call::Put { key, value })?;
    }
    Ok(())
}

/// What the pages of a walk had.
#[derive(Clone, Copy, Debug, PartialEq, Eq)]
struct Paged {
    /// The number of keys in all pages.
    keys: usize,
    /// The number of pages.
    pages: usize,
    /// The number of keys in the longest page.
    longest: usize,
    /// The last page was reached.
    is_over: bool,
}

/// Walks by pages of `most` keys, and gives up after a hundred pages.
fn walk_pages<R: AllocGlobal + Wait>(
    rt: &R,
    map: &StripedMap,
    pass: &mut Pass,
    most: u64,
) -> Result<Paged, NoMemory>
    requires { pass.old.map ≡ map.now }
    ensures { pass.new.map ≡ map.now }
{
    let mut paged = Paged {
        keys: 0,
        pages: 0,
        longest: 0,
        is_over: false,
    };
    let mut cursor = 0;
    for _ in 0..100 {
        let asked = PageAsked {
            cursor,
            most,
            time: NOW,
        };
        let page = scan_some(rt, rt.alloc(), map, pass, asked)?;
        paged.keys = paged.keys.saturating_add(page.keys.len());
        paged.pages = paged.pages.saturating_add(1);
        paged.longest = paged.longest.max(page.keys.len());
        if page.is_last() {
            paged.is_over = true;
            return Ok(paged);
        }
        cursor = page.next;
    }
    Ok(paged)
}

/// What the pages of three keys have.
const PAGED: Paged = Paged {
    keys: 40,
    pages: 14,
    longest: 3,
    is_over: true,
};

/// Walks by pages. Tells whether they have each key once.
fn has_pages<R: AllocGlobal + Wait>(
    rt: &R,
    map: &StripedMap,
    mut passes: Vec<Pass>,
) -> Result<bool, Fail>
    requires { All (λ pass. pass.map ≡ map.now) passes.items }
{
    let mut pass = next_pass(map, &mut passes)?;
    fill(rt, map, &mut pass)?;
    Ok(walk_pages(rt, map, &mut pass, 3)? == PAGED)
}

#[test]
fn pages_have_each_key_once(rt: HostRuntime) -> Result<(), Fail> {
    let right = on_map(
        rt.alloc(),
        4,
        1,
        |map: &StripedMap, passes: Vec<Pass>| -> Result<bool, Fail>
            requires { All (λ pass. pass.map ≡ map.now) passes.items }
        { has_pages(&rt, map, passes) },
    )?;
    assert!(rt; right);
    Ok(())
}

/// Puts a key that is over at 500.
fn put_until<R: Wait>(rt: &R, map: &StripedMap, pass: &mut Pass) -> Result<(), NoMemory>
    requires { pass.old.map ≡ map.now }
    ensures { pass.new.map ≡ map.now }
{
    let key = &Key::from_slice(b"until").unwrap();
    let value = &Value::new();
    let change = DeadlineChange::Set {
        at: 500,
        rule: SetRule::Always,
    };
    let timing = Timing { now: 0, change };
    map.call_at_into(
        rt,
        pass,
        &Call::Put { key, value },
        &timing,
        &mut Value::new(),
    )?;
    Ok(())
}

/// Returns how many keys the list has, a page of all has, and are chosen, at this time.
fn shown_at<R: AllocGlobal + Wait>(
    rt: &R,
    map: &StripedMap,
    pass: &mut Pass,
    time: u64,
) -> Result<(usize, usize, usize), NoMemory>
    requires { pass.old.map ≡ map.now }
    ensures { pass.new.map ≡ map.now }
{
    let chosen = random_key(rt, rt.alloc(), map, pass, 7, time)?;
    let asked = PageAsked {
        cursor: 0,
        most: 41,
        time,
    };
    let page = scan_some(rt, rt.alloc(), map, pass, asked)?;
    let keys = all_keys(rt, rt.alloc(), map, pass, time)?;
    Ok((keys.len(), page.keys.len(), usize::from(chosen.is_some())))
}

/// Tells whether a key is there until its time comes.
fn goes_in_time<R: AllocGlobal + Wait>(
    rt: &R,
    map: &StripedMap,
    mut passes: Vec<Pass>,
) -> Result<bool, Fail>
    requires { All (λ pass. pass.map ≡ map.now) passes.items }
{
    let mut pass = next_pass(map, &mut passes)?;
    put_until(rt, map, &mut pass)?;
    let shown = shown_at(rt, map, &mut pass, 499)?;
    let counted = count_all(rt, map, &mut pass);
    let hidden = shown_at(rt, map, &mut pass, 500)?;
    let left = count_all(rt, map, &mut pass);
    Ok((shown, counted) == ((1, 1, 1), 1) && (hidden, left) == ((0, 0, 0), 0))
}

/// A key is shown until its time is over, and is then gone.
#[test]
fn what_is_over_is_not_shown(rt: HostRuntime) -> Result<(), Fail> {
    let right = on_map(
        rt.alloc(),
        4,
        1,
        |map: &StripedMap, passes: Vec<Pass>| -> Result<bool, Fail>
            requires { All (λ pass. pass.map ≡ map.now) passes.items }
        { goes_in_time(&rt, map, passes) },
    )?;
    assert!(rt; right);
    Ok(())
}

/// Makes each walk that changes nothing. Returns the number of keys that were listed, and that were in a page of all.
fn listed<R: AllocGlobal + Wait>(
    rt: &R,
    map: &StripedMap,
    pass: &mut Pass,
) -> Result<(usize, usize), NoMemory>
    requires { pass.old.map ≡ map.now }
    ensures { pass.new.map ≡ map.now }
{
    let keys = all_keys(rt, rt.alloc(), map, pass, NOW)?;
    let page = scan_some(rt, rt.alloc(), map, pass, all_from(0))?;
    Ok((keys.len(), page.keys.len()))
}

/// Makes calls, and again those for which memory was refused. Tells whether all was right.
fn succeeds_again<R: AllocGlobal + Wait>(
    rt: &R,
    map: &StripedMap,
    mut passes: Vec<Pass>,
) -> Result<bool, Fail>
    requires { All (λ pass. pass.map ≡ map.now) passes.items }
{
    let mut pass = next_pass(map, &mut passes)?;
    if fill(rt, map, &mut pass).is_err() {
        fill(rt, map, &mut pass)?;
    }
    let found = match listed(rt, map, &mut pass) {
        Ok(found) => found,
        Err(NoMemory) => listed(rt, map, &mut pass)?,
    };
    if remove_all(rt, rt.alloc(), map, &mut pass).is_err() {
        remove_all(rt, rt.alloc(), map, &mut pass)?;
    }
    Ok(found == (40, 40) && count_all(rt, map, &mut pass) == 0)
}

/// If memory is refused, the walk succeeds the next time.
#[test]
fn a_refused_key_walk_succeeds_again(rt: HostRuntime) -> Result<(), Fail> {
    let right = on_map(
        rt.alloc(),
        4,
        1,
        |map: &StripedMap, passes: Vec<Pass>| -> Result<bool, Fail>
            requires { All (λ pass. pass.map ≡ map.now) passes.items }
        { succeeds_again(&rt, map, passes) },
    )?;
    assert!(rt; right);
    Ok(())
}
