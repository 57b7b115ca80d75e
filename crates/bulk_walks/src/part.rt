//! What a worker has of its walk. `gathering.rt` says how it grows.
ghost use Rattle.std.specs.Prelude.{◌≡◌, ◌+◌, ◌<◌, ◌≤◌, ◌^◌, [], length};

use crate::answers::Answers;
use bins::EntryList;
use std::alloc::Global;

/// Answers with their keys: all of them as they came for `ForEach`, the one at the least key for `Search`. On how many entries the
/// program ran, and how many don't fit.
#[derive(Drop)]
pub(crate) struct Gathered {
    pub(crate) items: EntryList,
    pub(crate) scanned: u64,
    pub(crate) unfit: u64,
    ghost few: { unfit ≤ scanned },
}

/// What one worker has: what it gathered, entries on which the program hasn't run yet, and its answers once it has run on all. If
/// it was refused memory then, it has no answers.
#[derive(Drop)]
pub(crate) struct Part {
    pub(crate) gathered: Gathered,
    pub(crate) waiting: EntryList,
    pub(crate) answers: Option<Answers>,
    ghost room: { gathered.scanned + length waiting < 2 ^ 64 },
}

impl Gathered {
    /// Nothing yet. Takes no memory.
    pub(crate) fn new(alloc: Global) -> Gathered
        ensures items { result.items ≡ [] }
        ensures scanned { result.scanned ≡ 0 }
        ensures unfit { result.unfit ≡ 0 }
    {
        Gathered {
            items: EntryList::new(alloc),
            scanned: 0,
            unfit: 0,
        }
    }
}
