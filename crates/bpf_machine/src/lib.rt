//! Runs a program that was found safe.
//!
//! The promise to the layers above: for each input that fits, `run_into` gives exactly the answer that the program means
//! (`Means` of bpf_model; clause `value`), in a value that the caller keeps. `run` is a thin wrapper of it. Neither has
//! an error: the type of `Verified` says that a run never gets stuck and ends, and that each operation binds the
//! instruction at its index. A call takes no memory and never waits. It fills the windows once, and then takes one
//! operation for each instruction of the run. `specs/Holds.antt` says how the machine's arrays stand for a state,
//! `specs/Effects.antt` how an effect changes them, `specs/Ways.antt` where a run is, and `specs/Answers.antt` gives an
//! answer by its parts.
#![tactic(auto)]

mod execution;
mod machine;
mod windows;

pub use execution::{run, run_into};
pub use machine::Machine;
