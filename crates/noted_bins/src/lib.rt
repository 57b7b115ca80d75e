//! Bins that note which keys changed, so that a save hands out the rows of these alone.
//!
//! The promise to the layers above: put the rows that were handed out in order, and you have what is there of each key that is
//! not noted (`Covers` of `specs/Notes.antt`). A change notes its key (`NotesChanges`). `take_changes` hands out the present
//! rows of noted keys, or of all entries if it isn't known which keys changed (`TakesChanges`). If it tells that none is left,
//! the rows come to all entries with their deadlines.
//!
//! `Noted` does this beside any bins with deadlines. Few keys that changed are in lists; if they are many, a filter has them.
//! Noting refuses no call: if there is no room for a key, all are noted. No call waits.
#![tactic(auto)]

mod changes;
mod key_filter;
mod mark;
mod noted;
mod noted_bins;
mod notes;
mod packed_entries;
mod short_key;
mod taken;
mod tour;

pub use changes::Changes;
pub use mark::SavedEntry;
pub use noted::Noted;
pub use noted_bins::NotedBins;
pub use taken::Taken;
