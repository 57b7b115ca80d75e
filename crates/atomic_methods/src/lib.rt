//! The methods of a map, each one step on one key, over any store of entries.
//!
//! The promise to the layers above: `apply` changes the entries and replies as the definition of its method says
//! (`Answers`), and so does `Striped::apply` for a whole table. `Striped::run` makes a list of calls as the sequential map
//! would, one after the other (`AnswersInTurn`). `walk_entries` and `count_of` return the reply of a walk over entries
//! (`IsReply`, `IsCount` of `specs/Replies.antt`), and `Striped::walk` that of a walk over a whole table. `NoMemory` comes
//! only if a call would have added its key, and the entries are then unchanged. A call that adds no key takes no memory,
//! and none waits. `specs/Methods.antt` says what each method does, `specs/Runs.antt` what lists of calls do.
#![tactic(auto)]

mod call;
mod fault;
mod methods;
mod reply;
mod stripe;
mod striped;
mod walk_reply;
mod walks;
mod worker_reply;
mod workspace;

pub use call::{Call, HashedCall, MAX_STRIPES, is_stripe_count, stripe_of};
pub use fault::OpenFault;
pub use methods::{apply, apply_into, apply_to_stale, replace_each, scan};
pub use reply::{Reply, ReplyKind};
pub use striped::{Stopped, Striped};
pub use walk_reply::{WalkKind, WalkReply, count_of};
pub use walks::walk_entries;
pub use worker_reply::WorkerReply;
pub use workspace::Workspace;
