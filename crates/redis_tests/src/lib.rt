//! Tests of the commands of Redis and of their scripts, by the public calls of the crates below.
#![tactic(auto)]

#[cfg(test)]
mod commands;
#[cfg(test)]
mod scripts;
#[cfg(test)]
mod spelling;
