//! Calls of one function, one for each element of a list, by several threads or one.
//!
//! The promise to the layers above: `work` calls the function once for each element, with its place, and returns the
//! elements in their order with the answers of the calls (`AllWorked` of `specs/Workers.antt`), whatever its `Execution` is.
//! `for_each_apart` makes the calls over a slice (`ChangesEach` of std). The calling thread waits for all of them. `work` takes
//! memory for three lists, `for_each_apart` takes none.
#![tactic(auto)]

mod apart;
mod jobs;

pub use apart::for_each_apart;
pub use jobs::{Execution, work};
