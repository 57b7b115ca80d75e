//! A worker's answers, and their order.
ghost use Rattle.std.specs.Prelude.{◌≡◌, IfOk, length};
ghost use Rattle.bulk_walks.specs.Leads.{leads_in};
ghost use Rattle.std.specs.List.{range_with_len};
ghost use Rattle.std.specs.List.Sorted.{IsPermutation, IsSortedBy};
ghost use Rattle.bins.specs.Copies.{comes_before};
ghost use Rattle.bins.specs.Entries.{entries_at, entry_of};
ghost use Rattle.bins.specs.Table.{by_bytes};

use bins::{Counts, EntryList};
use bpf_model::NoMemory;
use std::alloc::Global;
use std::cmp::Ordering;

/// The answers that a worker keeps, with their keys, as they came, and the order of their keys: all positions for `ForEach`. For
/// `Search` there is at most one item, and no order. The leads are the first bytes of the keys in this order, as numbers: whoever
/// compares them need not read the keys, which lie far apart.
#[derive(Drop)]
pub(crate) struct Answers {
    pub(crate) items: EntryList,
    pub(crate) order: Vec<usize>,
    pub(crate) leads: Vec<u64>,
    pub(crate) scanned: u64,
    pub(crate) unfit: u64,
    ghost led: { leads.items ≡ leads_in items order.items },
}

impl Answers {
    /// Returns the worker's counts. The items in order are given.
    pub(crate) fn counts(&self) -> Counts
        ensures scanned { result.scanned ≡ self.now.scanned }
        ensures given { result.given ≡ length self.now.order.items }
        ensures unfit { result.unfit ≡ self.now.unfit }
    {
        Counts {
            scanned: self.scanned,
            given: self.order.len() as u64,
            unfit: self.unfit,
        }
    }
}

/// Compares the keys at two positions.
#[inline(always)]
fn compare_at(list: &EntryList, one: usize, other: usize) -> Ordering
    ensures { result ≡ by_bytes (entry_of list.now one).0 (entry_of list.now other).0 }
{
    list.key(one).cmp(list.key(other))
}

/// Returns all positions, sorted by the first bytes of the keys at them: numbers are compared quickly, and this is nearly the
/// order of the keys.
fn nearly_ordered(alloc: Global, list: &EntryList) -> Result<Vec<usize>, NoMemory>
    ensures moved { IfOk result (λ order. IsPermutation (range_with_len 0 (length list.now)) order.items) }
{
    let many = list.len();
    let mut fronts = Vec::with_capacity(alloc, many)?;
    for position in 0..many {
        fronts.push_reserved((list.front(position), position));
    }
    fronts.sort_unstable_by_key(|front| front.0);
    let mut order = Vec::with_capacity(alloc, many)?;
    for front in &fronts {
        order.push(front.1)?;
    }
    Ok(order)
}

/// Returns all positions of a list, in the order of the keys at them. Asks for memory for them, and for twice as much beside it.
pub(crate) fn order_of(alloc: Global, list: &EntryList) -> Result<Vec<usize>, NoMemory>
    ensures moved { IfOk result (λ order. IsPermutation list.now (entries_at list.now order.items)) }
    ensures order { IfOk result (λ order. IsSortedBy comes_before (entries_at list.now order.items)) }
{
    let mut order = nearly_ordered(alloc, list)?;
    order.sort_unstable_by(|one, other| compare_at(list, *one, *other));
    Ok(order)
}

/// Returns the first bytes of the keys in this order, as numbers.
pub(crate) fn leads_of(
    alloc: Global,
    list: &EntryList,
    order: &[usize],
) -> Result<Vec<u64>, NoMemory>
    ensures { IfOk result (λ leads. leads.items ≡ leads_in list.now order.now) }
{
    let mut leads = Vec::with_capacity(alloc, order.len())?;
    for position in order {
        leads.push(list.front(*position))?;
    }
    Ok(leads)
}
