//! Pointers into windows.
ghost use Rattle.std.specs.Prelude.{◌^◌, pos, neg_ℤ, ◌≤ℤ◌};

use bpf_model::Window;

/// The first address of a window plus an offset from `least` to `greatest`, modulo 2 to the 64.
#[derive(Clone, Copy, Debug, PartialEq, Eq)]
pub struct Pointer {
    pub window: Window,
    pub least: i64,
    pub greatest: i64,
    pub ghost above: { neg_ℤ (pos (2 ^ 20)) ≤ℤ least },
    pub ghost below: { greatest ≤ℤ pos (2 ^ 20) },
    pub ghost order: { least ≤ℤ greatest },
}
