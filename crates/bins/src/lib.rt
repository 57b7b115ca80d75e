//! The storage for a table's entries.
//!
//! The contract of the trait `Bins` is the promise to the layers above: its content is a finite map from keys to values, and
//! each clause says what a call does to that map (`specs/Table.antt`). `specs/Replacements.antt` says what a program makes
//! of each entry. `ListBins` keeps the entries in one list, sorted by key. `HashedBins` keeps keys and values in rows of
//! many widths (`specs/KeptRows.antt`), in no order, with an index by the hashes of the keys (`hash_of`,
//! `specs/Hashes.antt`). So a search visits only the entries of one hash.
//!
//! A new key, `open`, `copy_into` and `entries` take memory; no other call of theirs does. If memory is refused, the
//! entries are unchanged. No call waits.
//!
//! `LentEntries` are entries where they lie. Copies go into an `EntryList`. `SortedEntries` reads such a list in key
//! order, and `MergedEntries` reads one list or several as one.
#![tactic(auto)]

mod bins;
mod counts;
mod entry_list;
mod growth;
mod hashed_bins;
mod hashes;
mod index;
mod lent_entries;
mod links;
mod list_bins;
mod locations;
mod merged_entries;
mod occupied;
mod opening;
mod pool;
mod ranks;
mod raw_rows;
mod replacement;
mod rows;
mod sorted_entries;
mod told_size;
mod tree;
mod width_rows;

pub use bins::Bins;
pub use counts::Counts;
pub use entry_list::EntryList;
pub use hashed_bins::HashedBins;
pub use hashes::{HashedKey, Seed, front_of, hash_of};
pub use lent_entries::LentEntries;
pub use list_bins::ListBins;
pub use merged_entries::{EntryPosition, MergedEntries};
pub use occupied::{Occupied, Occupies};
pub use opening::Opening;
pub use ranks::Ranks;
pub use sorted_entries::{SortedEntries, sorted_copies};
