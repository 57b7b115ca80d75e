//! The positions of all items in key order, found by several threads at once.
//!
//! The items of each worker are parted at one key: one thread takes all that come before it, another one the rest. Each parts
//! its own again if it has more threads.
ghost use Rattle.std.specs.Prelude.{◌≡◌, ◌+◌, ◌≤◌, All, OnOk, IfOk, T, length, sum_by};
ghost use Rattle.std.specs.FinMap as finmap;
ghost use Rattle.bins.specs.Table.{by_bytes};
ghost use Rattle.bulk_walks.specs.Merges.{left_of};
ghost use Rattle.bulk_walks.specs.Halves.{AreParted, PlacesAll};
ghost use denote.Param.Send.{IsSync};

use crate::rests::{Rest, copies_of, take_least};
use bins::EntryPosition;
use bpf_model::NoMemory;
use std::alloc::Global;
use std::thread::{Threads, join_mut};
use workers::Execution;

/// The items of each worker in two parts. All keys of the first parts come before all keys of the others.
#[derive(Drop)]
struct Halves<'a> {
    fronts: Vec<Rest<'a>>,
    backs: Vec<Rest<'a>>,
}

/// A thread has at least this many items: it takes about as long to start as to find the positions of half of them.
const LEAST_SHARE: usize = 4096;

/// Writes the positions of all items in key order. If several threads may do it and there are enough items, as many find them
/// as there are workers. Asks for memory only if there are several. Returns `NoMemory` if that is refused.
pub(crate) fn write_positions<R: Threads + Sync>(
    rt: &R,
    alloc: Global,
    mut rests: Vec<Rest<'_>>,
    execution: Execution,
    places: &mut [EntryPosition],
) -> Result<(), NoMemory>
    requires order { All (λ rest. T (finmap.is_sorted by_bytes (left_of rest))) rests.items }
    requires room { length places.old ≡ sum_by (λ rest. length (left_of rest)) rests.items }
    ensures { OnOk result (PlacesAll rests.entry.items places.new) }
{
    let threads = rests.len().min(places.len() / LEAST_SHARE);
    if matches!(execution, Execution::Sequential) || threads < 2 {
        place(&mut rests, places);
        return Ok(());
    }
    place_all(rt, alloc, &rests, threads, places)
}

/// Writes the positions of all items in key order, in this many threads at once. Returns `NoMemory` if a request for memory is
/// refused.
#[cycle(halving)]
fn place_all<R: Threads + Sync>(
    rt: &R,
    alloc: Global,
    rests: &[Rest<'_>],
    threads: usize,
    places: &mut [EntryPosition],
) -> Result<(), NoMemory>
    requires order { All (λ rest. T (finmap.is_sorted by_bytes (left_of rest))) rests.now }
    requires room { length places.old ≡ sum_by (λ rest. length (left_of rest)) rests.now }
    ensures { OnOk result (PlacesAll rests.now places.new) }
{
    if threads < 2 {
        let mut rests = copies_of(alloc, rests)?;
        place(&mut rests, places);
        return Ok(());
    }
    let halves = halved(alloc, rests, pivot(rests, threads))?;
    let middle = left_beside(places.len(), &halves.backs);
    let (front, back) = places.split_at_mut(middle);
    place_both(rt, alloc, &halves, threads, front, back)
}

/// Does the same in a new thread, and waits: beside a thread that works, we saw a thread that it had made wait for its core.
#[cycle(halving)]
fn place_apart<R: Threads + Sync>(
    rt: &R,
    alloc: Global,
    rests: &[Rest<'_>],
    threads: usize,
    places: &mut [EntryPosition],
) -> Result<(), NoMemory>
    requires order { All (λ rest. T (finmap.is_sorted by_bytes (left_of rest))) rests.now }
    requires room { length places.old ≡ sum_by (λ rest. length (left_of rest)) rests.now }
    ensures { OnOk result (PlacesAll rests.now places.new) }
{
    let mut work = ||
        requires { IsSync R.row × (All (λ rest. T (finmap.is_sorted by_bytes (left_of rest))) rests.now) × (length places.now ≡ sum_by (λ rest. length (left_of rest)) rests.now) }
        ensures { OnOk result (PlacesAll rests.entry.now places.exit.now) }
    { place_all(rt, alloc, rests, threads, places) };
    let mut wait = || {};
    let (placed, ()) = join_mut(rt, &mut work, &mut wait);
    placed
}

/// Writes the positions of the items of both parts at once, each in a new thread. It is its own function so that it is given
/// exactly what its closures require.
#[cycle(halving)]
fn place_both<R: Threads + Sync>(
    rt: &R,
    alloc: Global,
    halves: &Halves<'_>,
    threads: usize,
    front: &mut [EntryPosition],
    back: &mut [EntryPosition],
) -> Result<(), NoMemory>
    requires several { 2 ≤ threads }
    requires front_order { All (λ rest. T (finmap.is_sorted by_bytes (left_of rest))) halves.now.fronts.items }
    requires front_room { length front.old ≡ sum_by (λ rest. length (left_of rest)) halves.now.fronts.items }
    requires back_order { All (λ rest. T (finmap.is_sorted by_bytes (left_of rest))) halves.now.backs.items }
    requires back_room { length back.old ≡ sum_by (λ rest. length (left_of rest)) halves.now.backs.items }
    ensures front { OnOk result (PlacesAll halves.now.fronts.items front.new) }
    ensures back { OnOk result (PlacesAll halves.now.backs.items back.new) }
{
    let half = threads / 2;
    let others = threads - half;
    let mut first = ||
        requires { IsSync R.row × (All (λ rest. T (finmap.is_sorted by_bytes (left_of rest))) halves.now.fronts.items) × (length front.now ≡ sum_by (λ rest. length (left_of rest)) halves.now.fronts.items) }
        ensures { OnOk result (PlacesAll halves.entry.now.fronts.items front.exit.now) }
    { place_all(rt, alloc, &halves.fronts, half, front) };
    let mut second = ||
        requires { IsSync R.row × (All (λ rest. T (finmap.is_sorted by_bytes (left_of rest))) halves.now.backs.items) × (length back.now ≡ sum_by (λ rest. length (left_of rest)) halves.now.backs.items) }
        ensures { OnOk result (PlacesAll halves.entry.now.backs.items back.exit.now) }
    { place_apart(rt, alloc, &halves.backs, others, back) };
    let (one, other) = join_mut(rt, &mut first, &mut second);
    one?;
    other
}

/// Writes the positions of all items in key order.
fn place(rests: &mut Vec<Rest<'_>>, places: &mut [EntryPosition])
    requires order { All (λ rest. T (finmap.is_sorted by_bytes (left_of rest))) rests.old.items }
    requires room { length places.old ≡ sum_by (λ rest. length (left_of rest)) rests.old.items }
    ensures { PlacesAll rests.old.items places.new }
{
    for place in 0..places.len() {
        let Some(position) = take_least(rests) else {
            return;
        };
        places[place] = position;
    }
}

/// Returns a key of the worker that has the most items, before which about the share of the first half of the threads comes.
fn pivot<'a>(rests: &[Rest<'a>], threads: usize) -> &'a [u8]
    requires { 2 ≤ threads }
{
    let mut most = 0;
    let mut key: &'a [u8] = &[];
    for rest in rests {
        let left = rest.left();
        if left > most {
            most = left;
            key = rest.key_after(left / threads * (threads / 2));
        }
    }
    key
}

/// Parts the items of each worker at this key.
fn halved<'a>(alloc: Global, rests: &[Rest<'a>], key: &[u8]) -> Result<Halves<'a>, NoMemory>
    requires order { All (λ rest. T (finmap.is_sorted by_bytes (left_of rest))) rests.now }
    ensures { IfOk result (λ halves. AreParted key.now rests.now halves.fronts.items halves.backs.items) }
{
    let mut fronts = Vec::with_capacity(alloc, rests.len())?;
    let mut backs = Vec::with_capacity(alloc, rests.len())?;
    for rest in rests {
        let (front, back) = rest.parted(key);
        fronts.push(front)?;
        backs.push(back)?;
    }
    Ok(Halves { fronts, backs })
}

/// Returns how many of all items are not in these lists.
fn left_beside(all: usize, rests: &[Rest<'_>]) -> usize
    requires { sum_by (λ rest. length (left_of rest)) rests.now ≤ all }
    ensures { result + sum_by (λ rest. length (left_of rest)) rests.now ≡ all }
{
    let mut beside = all;
    for rest in rests {
        beside -= rest.left();
    }
    beside
}
