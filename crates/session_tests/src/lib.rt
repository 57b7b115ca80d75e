//! Tests of requests and their answers, over memory: frames of the protocol, and `bpfmap` with its sessions.
#![tactic(auto)]

#[cfg(test)]
mod bpfmap;
#[cfg(test)]
mod crew_sessions;
#[cfg(test)]
mod frames;
#[cfg(test)]
mod mapd;
#[cfg(test)]
mod refusals;
