//! Bins whose keys may have deadlines: times in milliseconds since the epoch at which their entries are over.
//!
//! The promise to the layers above: a call at a time takes its key away first if its time is over, is then made as
//! `apply_into` of atomic_methods makes it, and changes its key's deadline as it was told (`call_at`, by `CallsTimed` of
//! `specs/Deadlines.antt`). No other key's deadline changes. `expire_one` takes one entry away whose time is over, or tells
//! until when none is (`Expires`). To the calls of `Bins` the deadlines are no part of the content.
//!
//! `Timed` keeps them beside any bins, in bins of the same kind and a heap (`Deadlines`, `Agenda`). They are opened with the
//! first deadline. `NoMemory` comes only if a call would add its key or may set a deadline. No call waits.
#![tactic(auto)]

mod deadlines;
mod number;
mod stale;
mod timed;
mod timed_bins;
mod timing;

pub use timed::Timed;
pub use timed_bins::TimedBins;
pub use timing::{DeadlineChange, Expiry, SetRule, TimedReply, Timing};
