//! A map in stripes. Threads share it, and each has its own pass.
//!
//! The promise to the layers above: what a pass has seen of a stripe is one legal history of a sequential map. It begins with all that
//! the pass had seen or was told, goes on with others' calls, and ends with its own, each once (`Adds` of `stripe_rule`, in the
//! clauses of each call; `Pass::vouch`). `specs/Actions.antt` says what may happen on a stripe.
//!
//! **Words, slots, passes.** Each stripe has a word of 64 bits, 0 or 1, and a slot with its bins. A pass is a seat of the table, which
//! has no bytes, and the workspace of its calls. The numbers by which its events are known, and the events that it has seen and made,
//! exist only in proofs. No history is stored.
//!
//! **The three steps** (`steps`), each atomic: a look loads the word; a take changes the word from 0 to 1 by a compare-exchange; a
//! release swaps the word to 0. Between the last two only the holder of the stripe uses its slot, and works on the bins there; `close`
//! takes them out. Everything done between a take and its release is one event, or one for each key that was replaced; a call at a
//! time may be two.
//!
//! **Deadlines** lie beside the bins of a stripe, in its slot (`timed_bins`), and no event tells of them. An entry whose time is over
//! goes by a Remove: in the hold of a call at a time, right before the call (`CallsAt`), or by `expire_one`. Calls without a time
//! still find it until then.
//!
//! **Saves.** The bins note which keys changed (`noted_bins`). A save is an event that reads: it hands out rows of these keys. The rule
//! knows that the rows handed out so far, put in order, are what the stripe has, but for the keys that are noted (`keeps` of
//! `specs/Saves.antt`). So if none is noted after a save, they come to the stripe's whole table (`SavesStripe`).
//!
//! **The rule** that every step keeps (`stripe_rule`): the word is 1 exactly while one pass holds the stripe; the passes have seen
//! beginnings of one legal list of the stripe's events; if the word is 0, the bins are at home with the table that the list leaves.
//!
//! **Who waits.** `call`, `call_into`, `call_at_into`, `expire_one`, `scan_stripe`, `copy_stripe`, `visit_stripe`, `count_stripe`,
//! `replace_stripe`, `take_changes`, `occupied` and `close` wait until a stripe is free. They sleep between tries, and after two
//! milliseconds others let them go first (`turns`). The `try_` calls, `tell` and `join` never wait. `tell` and `join` cannot fail, and take no memory.
//!
//! Rejected: a lock round the bins (its contract says nothing about other threads' actions), and a wake by each release (it would have to
//! ask each time whether someone sleeps).
#![tactic(auto)]

mod close;
mod expiry;
mod fault;
mod gate;
mod ghost_action;
mod held;
mod holds;
mod map;
mod occupying;
mod open;
mod pass;
mod rule;
mod saving;
mod seats;
mod steps;
mod tell;
mod turns;
mod visitor;

pub use expiry::Expiry;
pub use fault::{CallFault, OpenFault};
pub use gate::{Gate, OpenGate, Place};
pub use ghost_action::GhostAction;
pub use map::StripedMap;
pub use open::MAX_PASSES;
pub use pass::Pass;
pub use saving::TakeHow;
pub use turns::Waits;
pub use visitor::Visitor;
