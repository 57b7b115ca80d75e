//! Which programs go forward and stay inside themselves.
//!
//! The promise to the layers above: in a `Shaped` program each jump goes forward, to the start of an instruction inside
//! the program, and no run leaves it after an instruction (`Shaped::program`, clause `forward`). `shape` accepts
//! exactly the programs without a flow fault, unchanged, and names the first fault of any other.
//!
//! A call looks at each instruction twice, marks the starts in `PROGRAM_UNITS` flags on its stack, and takes no memory.
//! `specs/FlowShape.antt` defines the faults.
#![tactic(auto)]

pub mod fault;
mod jumps;
mod layout;
pub mod shaping;

pub use fault::FlowFault;
pub use jumps::distance;
pub use shaping::{Shaped, shape};
