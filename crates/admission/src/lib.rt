//! Admits a program: from its bytes to a `Verified`.
//!
//! The promise to the layers above: `admit` returns a program that the bytes spell and that is safe with its sizes, within
//! the given limits, or the first fault (`IsAdmitted` and `IsNotAdmitted` of `specs/Admissions.antt`). It knows no text, no
//! client and no map, so anything that takes programs can use it. It takes memory, and never waits.
#![tactic(auto)]

mod fault;
mod gate;
mod limits;

pub use fault::AdmissionFault;
pub use gate::admit;
pub use limits::ProgramLimits;
