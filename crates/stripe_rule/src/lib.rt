//! What the passes that share a table in stripes know of each stripe's history, and the rule that keeps it true.
//!
//! The promise to the layer above: each step on the word of a stripe keeps the rule (`Kept` of `specs/Rule.antt`), and
//! has the effect that `specs/Steps.antt` describes. The lemmas are in `proofs/`, one file for each kind of step. The
//! types here describe knowledge; the running program makes no value of them.
#![tactic(auto)]

mod view;

pub use view::{Event, Part, View};
