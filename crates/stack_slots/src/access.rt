//! Loads and stores of stack and result.
ghost use Rattle.std.specs.Prelude.{◌≤◌, ◌+◌};
ghost use Rattle.bpf_model.specs.Accesses.{byte_count};
ghost use Rattle.stack_slots.specs.Kept.{kept_bytes};

use bpf_model::limits::STACK_BYTES;
use bpf_model::{AccessSize, Window};

/// A slot of the stack has this many bytes and holds one spilled value.
pub const SLOT_BYTES: usize = 8;

/// The stack has this many slots.
pub const SLOTS: usize = STACK_BYTES / SLOT_BYTES;

/// An access to stack or result. Its first byte is `least` to `greatest` bytes after the window's first, and at each of
/// these places all its bytes are in the window. A load extends what it reads with the sign, or with zeros.
#[derive(Clone, Copy, Debug, PartialEq, Eq)]
pub struct Access {
    pub window: Window,
    pub least: usize,
    pub greatest: usize,
    pub size: AccessSize,
    pub signed: bool,
    pub ghost order: { least ≤ greatest },
    pub ghost inside: { greatest + byte_count size ≤ kept_bytes window },
}
