//! Tests of `bpfmap_on` over memory: sessions, and devices that fail.
mod cut_streams;
mod faults;
pub mod memory;
mod refused_memory;
mod turns;
mod versions;
