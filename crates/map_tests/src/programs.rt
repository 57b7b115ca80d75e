//! The programs in the rows, and values of eight bytes.
use bpf_assembler::assemble;
use bpf_model::{NoMemory, Sizes};
use flow_shape::shape;
use std::alloc::Global;
use verifier::{Verified, verify};

/// Eight bytes, little-endian.
pub const ONE: [u8; 8] = [1, 0, 0, 0, 0, 0, 0, 0];

pub const TWO: [u8; 8] = [2, 0, 0, 0, 0, 0, 0, 0];

pub const THREE: [u8; 8] = [3, 0, 0, 0, 0, 0, 0, 0];

/// Nine bytes, too long for the sum.
pub const NINE: [u8; 9] = [9; 9];

/// Answers the sum of the first eight bytes of the old value and of the argument.
pub const SUM: &str =
    "ldd r0, [r2+0]\nldd r9, [r3+0]\nadd64 r0, r9\nstxd [r4+0], r0\nmov64 r0, 8\nexit\n";

/// Answers nothing.
pub const NOTHING: &str = "mov64 r0, -1\nexit\n";

/// Makes the declared sizes.
pub const fn sizes(key: u16, old: u16, arg: u16, most: u16) -> Sizes {
    Sizes {
        key,
        old,
        arg,
        result: most,
    }
}

/// Verifies the program of a text, for inputs and answers of these sizes. Returns `None` if memory was refused.
pub fn accepted(alloc: Global, text: &str, sizes: Sizes) -> Option<Verified> {
    let program = assemble(alloc, text).ok()?;
    verify(alloc, shape(program).ok()?, sizes).ok()
}

/// Verifies the program as `accepted` does, with `NoMemory` in place of `None`.
pub fn verified(alloc: Global, text: &str, sizes: Sizes) -> Result<Verified, NoMemory> {
    accepted(alloc, text, sizes).ok_or(NoMemory)
}

/// Verifies the sum of values of 8 bytes. Returns `None` if memory was refused.
pub fn summed(alloc: Global) -> Option<Verified> {
    accepted(alloc, SUM, sizes(64, 8, 8, 8))
}

/// Verifies the sum as `summed` does, with `NoMemory` in place of `None`.
pub fn summing(alloc: Global) -> Result<Verified, NoMemory> {
    summed(alloc).ok_or(NoMemory)
}
