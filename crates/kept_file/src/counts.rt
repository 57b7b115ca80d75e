//! What a file has, counted.
use crate::batches::{self, Batches, KeptBatch};
use crate::changes::{KeptChange, Mark};
use crate::fault::KeepFault;
use bpf_model::Key;
use sqlite::Alter;
use std::alloc::Global;
use std::collections::BTreeMap;

/// What the entries of a file come to.
#[derive(Clone, Copy, Debug, Default, PartialEq, Eq)]
pub struct EntryCounts {
    pub entries: u64,
    /// How many of them have a deadline.
    pub deadlines: u64,
    pub key_bytes: u64,
    pub value_bytes: u64,
}

/// A key of a stripe.
#[derive(PartialEq, Eq, PartialOrd, Ord, Drop)]
struct Place {
    stripe: u64,
    key: Key,
}

/// What the newest change of a key left there.
#[derive(Clone, Copy)]
struct Left {
    has_deadline: bool,
    value_bytes: u64,
}

/// The keys that have a value.
type Entries = BTreeMap<Place, Left>;

/// Returns the length, as a number of 64 bits.
fn length(bytes: &[u8]) -> u64 {
    u64::try_from(bytes.len()).unwrap_or(u64::MAX)
}

impl EntryCounts {
    /// Counts one more entry. A count stays at its greatest.
    fn add(&mut self, key: &Key, left: Left) {
        self.entries = self.entries.saturating_add(1);
        if left.has_deadline {
            self.deadlines = self.deadlines.saturating_add(1);
        }
        self.key_bytes = self.key_bytes.saturating_add(length(key.as_slice()));
        self.value_bytes = self.value_bytes.saturating_add(left.value_bytes);
    }
}

/// Makes a change of a stripe. `NoMemory` if a request for memory was refused.
fn make(entries: &mut Entries, stripe: u64, change: &KeptChange) -> Result<(), KeepFault> {
    let place = Place {
        stripe,
        key: change.key.copied(),
    };
    let has_deadline = match change.mark {
        Mark::Gone => {
            let _ = entries.remove(&place);
            return Ok(());
        }
        Mark::Lasting => false,
        Mark::Until(_) => true,
    };
    let left = Left {
        has_deadline,
        value_bytes: length(change.value.as_slice()),
    };
    match entries.insert(place, left) {
        Ok(_) => Ok(()),
        Err(_) => Err(KeepFault::NoMemory),
    }
}

/// Makes the changes of a batch, one after the other. The faults of `KeptChange::read`, and `NoMemory` if a request for memory was refused.
fn make_all(
    entries: &mut Entries,
    batch: &KeptBatch,
    change: &mut KeptChange,
) -> Result<(), KeepFault> {
    let mut rest = batch.bytes.as_slice();
    while !rest.is_empty() {
        rest = change.read(rest)?;
        make(entries, batch.stripe, change)?;
    }
    Ok(())
}

/// Counts the entries.
fn counts_of(entries: &Entries) -> EntryCounts {
    let mut counts = EntryCounts::default();
    for (place, left) in entries.iter() {
        counts.add(&place.key, *left);
    }
    counts
}

/// Reads all batches of a file whose map has this many stripes, and counts the entries that they come to. The faults of `batches::next`
/// and of `KeptChange::read`.
pub(crate) fn count<S: Alter>(
    alloc: Global,
    batches: &mut Batches<'_, S>,
    stripes: u64,
) -> Result<EntryCounts, KeepFault> {
    let mut entries = BTreeMap::new(alloc);
    let mut batch = KeptBatch::new(alloc);
    let mut change = KeptChange::new();
    for _ in 0..u64::MAX {
        if !batches::next(batches, stripes, &mut batch)? {
            break;
        }
        make_all(&mut entries, &batch, &mut change)?;
    }
    Ok(counts_of(&entries))
}
