//! The five windows of a running program's memory.
ghost use Rattle.std.specs.Prelude.{◌≡◌, ◌≤◌, ◌<◌};
ghost use Rattle.bpf_model.specs.Memory.{first_address, window_size};

use crate::input::Sizes;
use crate::limits::STACK_BYTES;

/// A window of memory.
#[derive(Clone, Copy, Debug, PartialEq, Eq)]
pub enum Window {
    /// The key: read-only.
    Key,
    /// The old value: read-only.
    Old,
    /// The argument: read-only.
    Arg,
    /// The result: can be written, and read after it was written.
    Result,
    /// The stack: can be written, and read after it was written.
    Stack,
}

impl Window {
    /// The address of the window's first byte.
    pub fn first_address(self) -> u64
        ensures { result ≡ first_address self }
    {
        match self {
            Window::Key => 0x10000,
            Window::Old => 0x20000,
            Window::Arg => 0x30000,
            Window::Result => 0x40000,
            Window::Stack => 0x50000,
        }
    }

    /// Returns how many bytes the window has.
    pub fn size(self, sizes: Sizes) -> usize
        ensures { result ≡ window_size sizes self }
    {
        match self {
            Window::Key => sizes.key as usize,
            Window::Old => sizes.old as usize,
            Window::Arg => sizes.arg as usize,
            Window::Result => sizes.result as usize,
            Window::Stack => STACK_BYTES,
        }
    }
}
