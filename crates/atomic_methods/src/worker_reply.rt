//! The reply of one worker of a walk.
ghost use Rattle.std.specs.Prelude.{◌≡◌};

use crate::walk_reply::WalkReply;
use bins::{Counts, EntryList, MergedEntries};
use std::marker::Model;

/// The reply of one worker for the entries that it found, which may be a part of the table's. The replies of all workers are
/// merged into one.
#[derive(Drop)]
pub struct WorkerReply {
    items: EntryList,
    counts: Counts,
}

impl Model for WorkerReply {
    ghost use Rattle.atomic_methods.specs.declared.walk_reply.WalkReply.{WalkReply};

    ghost Value = { WalkReply };

    ghost view = { λ reply. record { items = reply.items; counts = reply.counts } };
}

impl WorkerReply {
    /// Makes a reply of these items and counts.
    pub(crate) fn new(items: EntryList, counts: Counts) -> WorkerReply
        ensures { result ≡ record { items = items; counts = counts } }
    {
        WorkerReply { items, counts }
    }

    /// Keys with the answers that the walk gives, in key order.
    pub fn items(&self) -> &EntryList
        ensures value { result.now ≡ self.now.items }
    {
        &self.items
    }

    /// Returns the worker's counts.
    pub fn counts(&self) -> Counts
        ensures value { result ≡ self.now.counts }
    {
        self.counts
    }

    /// Returns only the items.
    pub fn into_items(self) -> EntryList
        ensures { result ≡ self.items }
    {
        self.items
    }

    /// Returns the reply to the whole walk, if there was one worker.
    pub fn into_reply(self) -> WalkReply
        ensures { result ≡ self }
    {
        WalkReply {
            items: MergedEntries::of_one(self.items),
            counts: self.counts,
        }
    }
}
