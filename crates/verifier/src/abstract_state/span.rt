//! The place of an access.
ghost use Rattle.std.specs.Prelude.{◌≤◌};

use bpf_model::Window;

/// The possible places of an access: its first byte is `least` to `greatest` bytes after the window's first byte.
#[derive(Clone, Copy, Debug)]
pub struct Span {
    pub window: Window,
    pub least: usize,
    pub greatest: usize,
    pub ghost order: { least ≤ greatest },
}
