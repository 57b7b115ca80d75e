//! Tests of values that no command prints: laws of words, ranges and operations, by the public calls of the crates below.
#![tactic(auto)]

#[cfg(test)]
mod model;
pub mod plain;
#[cfg(test)]
mod ranges;
#[cfg(test)]
mod verdicts;
