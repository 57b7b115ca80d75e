//! The workspace of calls.
use bpf_machine::Machine;

/// The machine that programs run in. You make it once and lend it to each call, so that no call clears it. What earlier
/// calls left in it makes no difference.
#[derive(Drop)]
pub struct Workspace {
    pub(crate) machine: Machine,
}

impl Workspace {
    /// Makes a machine. Takes no memory.
    pub fn new() -> Workspace {
        Workspace {
            machine: Machine::new(),
        }
    }
}
