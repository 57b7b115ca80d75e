//! BPF programs, their input and answer, and their meaning.
//!
//! The types are plain data: keys and values of bounded length, instructions, programs. `specs/` says what an
//! instruction does, what a run is and when a program is safe, in the terms of RFC 9669: partial maps of registers and
//! of addresses, and a step that has no case if RFC 9669 or our profile gives none.
//!
//! The promise to the layers above: lengths are bounded by type, each call gives what its definition says, and the test
//! whether an input fits is exact (`fits`, `fits_parts`). No call takes memory or waits.
#![tactic(auto)]

pub mod accesses;
pub mod arithmetic;
pub mod bytes;
pub mod conditions;
pub mod input;
pub mod instruction;
pub mod laws;
pub mod limits;
pub mod memory;
pub mod operations;
pub mod program;
pub mod window;

pub use accesses::{AccessSize, LoadKind};
pub use bytes::{Key, TooLong, Value, value_bytes};
pub use conditions::{Condition, JumpOp};
pub use input::{Answer, Input, InputPart, Sizes, fits, fits_parts};
pub use instruction::{Insn, Operand, Reg, immediate_word};
pub use memory::NoMemory;
pub use operations::{AluOp, ByteOrder, SignExtension, SwapWidth, Width};
pub use program::Program;
pub use window::Window;
