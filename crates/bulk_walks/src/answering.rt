//! The program's answers on the entries that a walk found.
ghost use Rattle.std.specs.Prelude.{◌≡◌, ℕ, ◌+◌, ◌<◌, ◌^◌, ◌++◌, List, IfOk, IfSome, Some, length, map, slice_index_or};
ghost use Rattle.bins.specs.Table.{Entry};
ghost use Rattle.bulk_walks.specs.Kept.{IsAnswered, IsGathered, AreAnswered};
ghost use Rattle.bulk_walks.specs.Runs.{AreGathered, lists_with};
ghost use Rattle.bulk_walks.specs.declared.part.Part.{Part as WorkersPart};

use crate::answers::Answers;
use crate::part::{Gathered, Part};
use crate::walk::Walk;
use atomic_methods::WalkKind;
use bins::EntryList;
use bpf_model::NoMemory;
use std::alloc::Global;
use std::thread::Threads;
use std::{mem, thread};
use workers::{Execution, for_each_apart};

/// Runs the program on the waiting entries too, and returns what this kind of walk gives.
fn answers_with(
    alloc: Global,
    walk: &Walk<'_>,
    mut gathered: Gathered,
    waiting: &EntryList,
) -> Result<Answers, NoMemory>
    requires room { gathered.scanned + length waiting.now < 2 ^ 64 }
    ensures { IfOk result (λ answers. (early : List Entry) → IsGathered walk.now.kind walk.now.program.now walk.now.arg.now early gathered
        → IsAnswered walk.now.kind walk.now.program.now walk.now.arg.now (early ++ waiting.now) answers) }
{
    gathered.add(alloc, walk, &waiting.lend())?;
    gathered.ordered(alloc, walk.kind)
}

/// Runs the program on the waiting entries of one part.
fn answer_part(alloc: Global, walk: &Walk<'_>, part: &mut Part)
    ensures { IfSome part.new.answers (λ answers. (early : List Entry) → IsGathered walk.now.kind walk.now.program.now walk.now.arg.now early part.old.gathered
        → IsAnswered walk.now.kind walk.now.program.now walk.now.arg.now (early ++ part.old.waiting) answers) }
{
    let waiting = mem::replace(&mut part.waiting, EntryList::new(alloc));
    let gathered = mem::replace(&mut part.gathered, Gathered::new(alloc));
    if let Ok(answers) = answers_with(alloc, walk, gathered, &waiting) {
        part.answers = Some(answers);
    } else {
        part.answers = None;
    }
}

/// Runs the program on the waiting entries of each part, each in a thread of its own or one after the other.
fn answer_each<R: Threads + Sync>(
    rt: &R,
    alloc: Global,
    walk: &Walk<'_>,
    parts: &mut [Part],
    execution: Execution,
)
    ensures each { (i : ℕ) (d : WorkersPart) → i < length parts.old → IfSome (slice_index_or parts.new i d).answers (λ answers.
        (early : List Entry) → IsGathered walk.now.kind walk.now.program.now walk.now.arg.now early (slice_index_or parts.old i d).gathered
        → IsAnswered walk.now.kind walk.now.program.now walk.now.arg.now (early ++ (slice_index_or parts.old i d).waiting) answers) }
{
    let call = |_, part: &mut Part| answer_part(alloc, walk, part);
    match execution {
        Execution::Parallel => for_each_apart(rt, parts, &call),
        Execution::Sequential => thread::for_each_mut(rt, parts, 1, &call),
    }
}

/// Collects the answers of all parts. Returns `NoMemory` if one has none.
fn answers_of(alloc: Global, parts: Vec<Part>) -> Result<Vec<Answers>, NoMemory>
    ensures { IfOk result (λ all. map Some all.items ≡ map (λ part. part.answers) parts.items) }
{
    let mut all = Vec::with_capacity(alloc, parts.len())?;
    for part in parts {
        let Part { answers, .. } = part;
        let Some(answers) = answers else {
            return Err(NoMemory);
        };
        all.push(answers)?;
    }
    Ok(all)
}

/// Runs the program on the waiting entries of all parts, each in a thread of its own or one after the other, and returns the
/// answers of each. Returns `NoMemory` if a request for memory is refused.
pub(crate) fn answer_all<R: Threads + Sync>(
    rt: &R,
    alloc: Global,
    walk: &Walk<'_>,
    mut parts: Vec<Part>,
    execution: Execution,
) -> Result<Vec<Answers>, NoMemory>
    ensures { IfOk result (λ all. (earlies : List (List Entry)) → AreGathered walk.now.kind walk.now.program.now walk.now.arg.now earlies parts.items
        → AreAnswered walk.now.kind walk.now.program.now walk.now.arg.now (lists_with earlies parts.items) all.items) }
{
    answer_each(rt, alloc, walk, &mut parts, execution);
    let all = answers_of(alloc, parts)?;
    Ok(all)
}

/// Returns how many entries were scanned, capped at the greatest number.
fn scanned_in(parts: &[Part]) -> u64 {
    let mut scanned: u64 = 0;
    for part in parts {
        let own = part.gathered.scanned + part.waiting.len() as u64;
        scanned = scanned.saturating_add(own);
    }
    scanned
}

/// Tests whether several threads would have something to do: answers to sort, or entries on which the program hasn't run.
fn leave_work(kind: WalkKind, parts: &[Part]) -> bool {
    matches!(kind, WalkKind::ForEach) || parts.iter().any(|part| !part.waiting.is_empty())
}

/// Returns in which threads the rest of a walk is done: in several if the workers found at least `threshold` entries, and several
/// would have something to do.
pub(crate) fn execution_after(walk: &Walk<'_>, parts: &[Part]) -> Execution {
    if scanned_in(parts) >= walk.threshold && leave_work(walk.kind, parts) {
        Execution::Parallel
    } else {
        Execution::Sequential
    }
}
