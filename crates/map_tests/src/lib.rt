//! Tests of the map: its entries, its calls and its registry. Also the programs that these and walk_tests call, and how their
//! rows fail.
#![tactic(auto)]

#[cfg(test)]
mod calls;
#[cfg(test)]
mod deadlines;
#[cfg(test)]
mod entries;
pub mod expectations;
pub mod programs;
#[cfg(test)]
mod registry;
