//! What a worker does with the entries of a stripe: it runs the program on them where they lie, or copies them first.
ghost use Rattle.std.specs.Prelude.{◌≡◌, ◌+◌, ◌<◌, ◌≤◌, ◌^◌, ◌++◌, [], IsTrue, OnOk, length};
ghost use Rattle.bulk_walks.specs.Runs.{RunsSome, SeesStripe};

use crate::part::{Gathered, Part};
use crate::walk::Walk;
use bin_stripes::Visitor;
use bins::{EntryList, LentEntries};
use bpf_model::NoMemory;
use std::alloc::Global;

/// A program of more instructions than these doesn't run while a stripe is held.
const MOST_INSTRUCTIONS_HELD: usize = 64;

/// Nor does a program run on more entries than these while their stripe is held.
const MOST_ENTRIES_HELD: usize = 16_384;

/// What a worker has found so far: what it gathered, and copies of entries on which the program hasn't run yet. After a refused
/// request for memory its outcome says so, and it is not looked at again.
#[derive(Drop)]
pub(crate) struct Finds<'w, 'a> {
    alloc: Global,
    walk: &'w Walk<'a>,
    gathered: Gathered,
    waiting: EntryList,
    pub(crate) outcome: Result<(), NoMemory>,
}

impl<'w, 'a> Visitor for Finds<'w, 'a> {
    ghost use Rattle.std.specs.Prelude.{◌+◌, ◌≤◌, ◌^◌, length};
    ghost use Rattle.bulk_walks.specs.Runs.{SeesStripe};

    ghost may_visit = { λ finds. finds.gathered.scanned + length finds.waiting + 2 ^ 57 ≤ 2 ^ 64 };

    ghost visits = { SeesStripe };

    fn visit(&mut self, entries: &LentEntries<'_>) {
        self.outcome = self.take_in(entries);
    }
}

impl<'w, 'a> Finds<'w, 'a> {
    /// Nothing yet. Takes no memory.
    pub(crate) fn new(alloc: Global, walk: &'w Walk<'a>) -> Finds<'w, 'a>
        ensures walk { result.walk.now ≡ walk.now }
        ensures gathered { (result.gathered.items ≡ []) × (result.gathered.scanned ≡ 0) × (result.gathered.unfit ≡ 0) }
        ensures waiting { result.waiting ≡ [] }
    {
        Finds {
            alloc,
            walk,
            gathered: Gathered::new(alloc),
            waiting: EntryList::new(alloc),
            outcome: Ok(()),
        }
    }

    /// Tests whether the program may run on this many entries while their stripe is held: that can't take long, and none waits
    /// that came before them.
    fn may_run_held(&self, many: usize) -> bool
        requires room { self.now.gathered.scanned + many < 2 ^ 64 }
        ensures none { IsTrue result → length self.now.waiting ≡ 0 }
    {
        self.waiting.is_empty()
            && many <= MOST_ENTRIES_HELD
            && self.gathered.scanned + many as u64 >= self.walk.threshold
            && self.walk.program.operations().len() <= MOST_INSTRUCTIONS_HELD
    }

    /// Runs the program on the entries of a held stripe, or copies them.
    fn take_in(&mut self, entries: &LentEntries<'_>) -> Result<(), NoMemory>
        requires room { self.old.gathered.scanned + length self.old.waiting + 2 ^ 57 ≤ 2 ^ 64 }
        ensures walk { self.new.walk.now ≡ self.old.walk.now }
        ensures runs { OnOk result (RunsSome self.old.walk.now.kind self.old.walk.now.program.now self.old.walk.now.arg.now
            self.old.gathered (self.old.waiting ++ entries.now) self.new.gathered self.new.waiting) }
    {
        if self.may_run_held(entries.len()) {
            return self.gathered.add(self.alloc, self.walk, entries);
        }
        self.waiting.add_all(entries)?;
        Ok(())
    }

    /// Runs the program on the entries that wait, if the worker has found at least `threshold` so far. Else they go on waiting.
    pub(crate) fn run_if_enough(&mut self) -> Result<(), NoMemory>
        requires room { self.old.gathered.scanned + length self.old.waiting < 2 ^ 64 }
        ensures walk { self.new.walk.now ≡ self.old.walk.now }
        ensures runs { OnOk result (RunsSome self.old.walk.now.kind self.old.walk.now.program.now self.old.walk.now.arg.now
            self.old.gathered self.old.waiting self.new.gathered self.new.waiting) }
    {
        if self.gathered.scanned + (self.waiting.len() as u64) < self.walk.threshold {
            return Ok(());
        }
        self.gathered
            .add(self.alloc, self.walk, &self.waiting.lend())?;
        self.waiting = EntryList::new(self.alloc);
        Ok(())
    }

    /// Returns what the worker has found.
    pub(crate) fn into_part(self) -> Part
        requires room { self.gathered.scanned + length self.waiting < 2 ^ 64 }
        ensures gathered { result.gathered ≡ self.entry.gathered }
        ensures waiting { result.waiting ≡ self.entry.waiting }
    {
        let Finds {
            gathered,
            waiting,
            ..
        } = self;
        Part {
            gathered,
            waiting,
            answers: None,
        }
    }
}
