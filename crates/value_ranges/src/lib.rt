//! Ranges of 64-bit words, and the ranges after operations, conditions and joins.
//!
//! The promise to the layers above: the result of an operation on words in its operands' ranges lies in the answered
//! range (`alu`, `negate`, `mov`, `sign_extend`, `reorder`, clause `holds`). `refine` loses no pair of words for which
//! the condition holds. `join` loses no word. Ranges need not be the least ones: 1 added to the two greatest words gives
//! any unsigned reading. Exact bounds are promised for joins (`join`, clauses `unsigned` and `signed`), for single words
//! (each operation and `Range::single`, clause `single`) and for the reading that you give `Range::unsigned` or
//! `Range::signed`. For an AND with a mask the signed reading lies from 0 to the mask (`alu`, clause `mask`). The tables
//! of program_tests show all other bounds; no contract promises them. No call refuses, waits or takes memory.
//! `specs/In.antt` says when a word lies in a range; the arithmetic is bpf_model's.
#![tactic(auto)]

mod bits;
mod bounds;
mod comparisons;
mod construction;
mod exclusion;
mod moves;
mod products;
mod range;
mod refinement;
mod results;
mod shifts;
mod sums;
mod unions;

pub use moves::{mov, reorder, sign_extend};
pub use range::Range;
pub use refinement::refine;
pub use results::{alu, negate};
pub use unions::join;
