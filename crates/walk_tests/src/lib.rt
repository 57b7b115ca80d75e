//! Tests of the map that threads share: its passes, the walks of teams, and those of one pass.
#![tactic(auto)]

#[cfg(test)]
mod keys;
#[cfg(test)]
mod passes;
#[cfg(test)]
mod playing;
#[cfg(test)]
mod seats;
#[cfg(test)]
mod walks;
