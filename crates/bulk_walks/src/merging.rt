//! One reply from the answers of the workers.
ghost use Rattle.std.specs.Prelude.{◌≡◌, ◌<◌, ◌^◌, All, IfOk, List, T, length, map, sum_by};
ghost use Rattle.std.specs.FinMap as finmap;
ghost use Rattle.bins.specs.Merged.{entry_at};
ghost use Rattle.bins.specs.Table.{Entry, by_bytes};
ghost use Rattle.atomic_methods.specs.declared.walk_reply.WalkReply.{WalkReply as Reply};
ghost use Rattle.atomic_methods.specs.declared.walk_reply.WalkKind.TheVariants.{Search};
ghost use Rattle.atomic_methods.specs.Replies.{chosen};
ghost use Rattle.bulk_walks.specs.Turns.{items_in};
ghost use Rattle.bulk_walks.specs.Kept.{StandForAll, IsFirst, kept_in, kept_of, lists_of_all};
ghost use Rattle.bulk_walks.specs.Merges.{comes_first, HasAll, IsMerge, CountsAdd};

use crate::answers::Answers;
use crate::halving::write_positions;
use crate::replace::{ZERO, add};
use crate::rests::rests_of;
use atomic_methods::{WalkKind, WalkReply};
use bins::{Counts, EntryList, EntryPosition, MergedEntries};
use bpf_model::NoMemory;
use std::alloc::Global;
use std::thread::Threads;
use workers::Execution;

/// Stands where no position is written yet.
const NOWHERE: EntryPosition = EntryPosition {
    list: 0,
    position: 0,
};

/// Merges the answers of all workers into the reply of this kind of walk. If the execution is parallel, several threads may find the
/// order of the items. Returns `NoMemory` if a request for memory is refused; `Search` makes none. No item is copied.
pub(crate) fn merged<R: Threads + Sync>(
    rt: &R,
    alloc: Global,
    kind: WalkKind,
    all: Vec<Answers>,
    execution: Execution,
) -> Result<WalkReply, NoMemory>
    requires order { All (λ answers. T (finmap.is_sorted by_bytes (kept_of answers))) all.items }
    requires scanned { sum_by (λ answers. answers.scanned) all.items < 2 ^ 64 }
    requires given { sum_by (λ answers. length answers.order.items) all.items < 2 ^ 64 }
    requires unfit { sum_by (λ answers. answers.unfit) all.items < 2 ^ 64 }
    ensures { IfOk result (λ reply. (replies : List Reply) → StandForAll kind replies all.items → IsMerge kind replies reply) }
{
    let total = total_of(&all);
    let items = items_of(rt, alloc, kind, all, total.given as usize, execution)?;
    let given = items.len() as u64;
    let counts = Counts { given, ..total };
    Ok(WalkReply { items, counts })
}

/// Returns the items of this kind of walk. For `ForEach` there are `count` of them.
fn items_of<R: Threads + Sync>(
    rt: &R,
    alloc: Global,
    kind: WalkKind,
    all: Vec<Answers>,
    count: usize,
    execution: Execution,
) -> Result<MergedEntries, NoMemory>
    requires order { All (λ answers. T (finmap.is_sorted by_bytes (kept_of answers))) all.items }
    requires counted { count ≡ sum_by (λ items. length items) (kept_in all.items) }
    ensures { IfOk result (λ items. (replies : List Reply) → StandForAll kind replies all.items → (whole : List Entry) → T (finmap.is_sorted by_bytes whole) → HasAll whole (items_in replies) → items ≡ chosen kind whole) }
{
    match kind {
        WalkKind::Search => Ok(MergedEntries::of_one(first_of(alloc, all))),
        WalkKind::ForEach => all_items(rt, alloc, all, count, execution),
    }
}

/// Adds up the counts of all workers.
fn total_of(all: &[Answers]) -> Counts
    requires scanned { sum_by (λ answers. answers.scanned) all.now < 2 ^ 64 }
    requires given { sum_by (λ answers. length answers.order.items) all.now < 2 ^ 64 }
    requires unfit { sum_by (λ answers. answers.unfit) all.now < 2 ^ 64 }
    ensures { CountsAdd all.now result }
{
    let mut total = ZERO;
    for answers in all {
        add(&mut total, answers.counts());
    }
    total
}

/// Returns the item with the least key of all that the workers of a search kept. Takes no memory.
fn first_of(alloc: Global, all: Vec<Answers>) -> EntryList
    ensures { (replies : List Reply) → StandForAll Search replies all.items → IsFirst (λ weight. sum_by (λ items. sum_by weight items) (items_in replies)) result }
{
    let mut first = EntryList::new(alloc);
    for answers in all {
        let Answers { items, .. } = answers;
        if begins_before(&items, &first) {
            first = items;
        }
    }
    first
}

/// Tests whether the one list's first key comes before the other's. An empty list comes last.
fn begins_before(one: &EntryList, other: &EntryList) -> bool
    ensures { result ≡ comes_first one.now other.now }
{
    if one.is_empty() {
        return false;
    }
    if other.is_empty() {
        return true;
    }
    one.key(0).cmp(other.key(0)).is_lt()
}

/// Returns all items of all workers, `count` of them, in key order. They stay in place.
fn all_items<R: Threads + Sync>(
    rt: &R,
    alloc: Global,
    all: Vec<Answers>,
    count: usize,
    execution: Execution,
) -> Result<MergedEntries, NoMemory>
    requires order { All (λ answers. T (finmap.is_sorted by_bytes (kept_of answers))) all.items }
    requires counted { count ≡ sum_by (λ items. length items) (kept_in all.items) }
    ensures { IfOk result (λ items. (whole : List Entry) → T (finmap.is_sorted by_bytes whole) → HasAll whole (kept_in all.items) → items ≡ whole) }
{
    let positions = positions_of(rt, alloc, &all, count, execution)?;
    let lists = lists_in(alloc, all)?;
    Ok(MergedEntries::of_several(lists, positions))
}

/// Takes the items of each worker.
fn lists_in(alloc: Global, all: Vec<Answers>) -> Result<Vec<EntryList>, NoMemory>
    ensures { IfOk result (λ lists. lists.items ≡ lists_of_all all.items) }
{
    let mut lists = Vec::with_capacity(alloc, all.len())?;
    for answers in all {
        let Answers { items, .. } = answers;
        lists.push(items)?;
    }
    Ok(lists)
}

/// Returns the positions of all items of all workers, `count` of them, in key order.
fn positions_of<R: Threads + Sync>(
    rt: &R,
    alloc: Global,
    all: &[Answers],
    count: usize,
    execution: Execution,
) -> Result<Vec<EntryPosition>, NoMemory>
    requires order { All (λ answers. T (finmap.is_sorted by_bytes (kept_of answers))) all.now }
    requires counted { count ≡ sum_by (λ items. length items) (kept_in all.now) }
    ensures { IfOk result (λ positions. (whole : List Entry) → T (finmap.is_sorted by_bytes whole) → HasAll whole (kept_in all.now) → map (entry_at (lists_of_all all.now)) positions.items ≡ whole) }
{
    let rests = rests_of(alloc, all)?;
    let mut positions = Vec::with_capacity(alloc, count)?;
    positions.resize(count, NOWHERE)?;
    write_positions(rt, alloc, rests, execution, &mut positions)?;
    Ok(positions)
}
