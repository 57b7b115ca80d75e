//! Walks over a striped map by a team of workers.
//!
//! The promise to the layer above: a walk is a function of one scan of each stripe, made by the worker whose turn the stripe
//! is. The same scans give the same reply however many workers there are (`IsWalk`, `CountsAll`, `ReplacesAll` of
//! `specs/Walks.antt`). After `NoMemory` each stripe has all its events of the walk or none. The team comes back with its
//! passes in their order. Each walk waits until each stripe is free in its turn, and takes memory for its results.
#![tactic(auto)]

mod alike;
mod answering;
mod answers;
mod count;
mod finding;
mod finds;
mod gathering;
mod halving;
mod merging;
mod part;
mod replace;
mod rests;
mod running;
mod team;
mod turns;
mod walk;
mod walks;

pub use alike::is_same_reply;
pub use atomic_methods::{WalkKind, WalkReply};
pub use count::{mapping_count, mapping_count_in_turn};
pub use replace::replace_all;
pub use team::{EmptyTeam, Team};
pub use walk::Walk;
pub use walks::{for_each, search, walk_map};
