//! What a walk runs.

use atomic_methods::WalkKind;
use bpf_model::Value;
use verifier::Verified;

/// The program that a walk runs on each entry, and which answers it gives. The program runs in the workers if there are
/// at least `threshold` entries, else in the calling thread.
#[derive(Clone, Copy)]
pub struct Walk<'a> {
    /// Which answers the walk gives.
    pub kind: WalkKind,
    /// The program to run.
    pub program: &'a Verified,
    /// Its argument.
    pub arg: &'a Option<Value>,
    /// The workers run the program if there are at least this many entries.
    pub threshold: u64,
}
