//! What the verifier knows of a program, in words: at each instruction (`explanation`), and at the one that it refuses
//! (`known_reason`).
//!
//! The promise to the layers above: a text follows from what `known_states` of the verifier tells, by
//! `specs/Listings.antt` and `specs/Reasons.antt`. So it is true of every run on an input that fits. No call waits, and a
//! refused request for memory is the only error.
#![tactic(auto)]

mod access;
mod known;
mod listing;
mod origin;
mod reason;

pub use listing::explanation;
pub use reason::known_reason;
