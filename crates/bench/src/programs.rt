//! The programs that are measured, as texts of the assembler. They are only here: `bench/run.sh` takes their bytes from
//! here for the C loop too.

use anyhow::Result;
use bpf_assembler::assemble;
use bpf_model::limits::{PROGRAM_UNITS, STACK_BYTES};
use bpf_model::{Program, Sizes};
use flow_shape::shape;
use std::alloc::{AllocError, Global};
use verifier::{Verified, verify};

/// Each program is verified and registered with these windows.
pub const SIZES: Sizes = Sizes {
    key: 64,
    old: 8,
    arg: 8,
    result: 8,
};

/// A program that is measured.
#[derive(Clone, Copy, Debug, PartialEq, Eq)]
pub enum Sample {
    /// Six instructions: the sum of the old value and the argument.
    Sum,
    /// Seven instructions: nothing, unless the old value and the argument differ by 77.
    Rare,
    /// 501 instructions: a store, EXIT, and arithmetic.
    Arithmetic,
    /// Arithmetic on eight registers in turn.
    Registers,
    /// Loads, stores and jumps that follow the bits of the old value.
    Mixed,
    /// Arithmetic in all units of a program.
    Straight,
    /// In all units but two a jump that goes on at the next instruction either way.
    Jumps,
    /// In all units but two a ladder of jumps over one instruction.
    Ladder,
    /// Spills a value to each slot of the stack, and then jumps that go on at the next instruction either way.
    Spills,
}

const SUM: &str = "\
ldd r0, [r2+0]
ldd r9, [r3+0]
add64 r0, r9
stxd [r4+0], r0
mov64 r0, 8
exit
";

const RARE: &str = "\
ldd r0, [r2+0]
ldd r9, [r3+0]
sub64 r0, r9
jeq64 r0, 77, +2
mov64 r0, -1
exit
mov64 r0, 0
exit
";

const BEGINNING: &str = "mov64 r0, 1\nmov64 r9, 2\n";

const BEGINNING_UNITS: usize = 2;

const TURN: &str = "\
add64 r0, r9
xor64 r9, r0
mul64 r9, 31
sub64 r0, r9
or64 r9, r0
lsh64 r0, 3
rsh64 r9, 2
and64 r9, 65535
add64 r9, r0
xor64 r0, r9
";

const TURN_UNITS: usize = 10;

const EIGHT: &str = "\
mov64 r0, 1
mov64 r1, 2
mov64 r2, 3
mov64 r3, 4
mov64 r5, 5
mov64 r9, 6
";

const TURN_OF_EIGHT: &str = "\
add64 r0, r1
xor64 r2, r3
mul64 r5, 31
sub64 r6, r7
or64 r1, r2
lsh64 r3, 3
rsh64 r7, 2
and64 r9, 65535
add64 r5, r6
xor64 r9, r0
";

const BITS: &str = "\
ldd r5, [r2+0]
mov64 r0, 7
mov64 r9, 1
";

const TURN_OF_BITS: &str = "\
jset64 r5, 1, +1
add64 r0, 3
rsh64 r5, 1
stxd [r10-8], r0
ldw r9, [r10-8]
jgt64 r9, r5, +1
xor64 r0, r5
stxw [r4+0], r9
";

const REST: &str = "add64 r9, r0\n";

const ANSWER_OF_8_BYTES: &str = "stxd [r4+0], r9\nmov64 r0, 8\nexit\n";

const NO_ANSWER: &str = "mov64 r0, -1\nexit\n";

const NO_ANSWER_UNITS: usize = 2;

const JUMP: &str = "jset64 r6, 1, +0\n";

const RUNG: &str = "jset64 r6, 1, +1\nmov64 r9, 1\n";

const RUNG_UNITS: usize = 2;

const SLOTS: usize = STACK_BYTES / 8;

impl Sample {
    /// Returns the sample of this name, or `None` if there is no such one.
    pub fn named(name: &str) -> Option<Sample> {
        match name {
            "sum" => Some(Sample::Sum),
            "rare" => Some(Sample::Rare),
            "alu" => Some(Sample::Arithmetic),
            "eight" => Some(Sample::Registers),
            "mix" => Some(Sample::Mixed),
            "straight" => Some(Sample::Straight),
            "jumps" => Some(Sample::Jumps),
            "ladder" => Some(Sample::Ladder),
            "spills" => Some(Sample::Spills),
            _ => None,
        }
    }

    /// Returns the program's text.
    pub fn text(self, alloc: Global) -> Result<String, AllocError> {
        match self {
            Sample::Sum => joined(alloc, &[(SUM, 1)]),
            Sample::Rare => joined(alloc, &[(RARE, 1)]),
            Sample::Arithmetic => joined(
                alloc,
                &[
                    (BEGINNING, 1),
                    (TURN, 49),
                    (REST, 6),
                    (ANSWER_OF_8_BYTES, 1),
                ],
            ),
            Sample::Registers => joined(
                alloc,
                &[(EIGHT, 1), (TURN_OF_EIGHT, 49), (ANSWER_OF_8_BYTES, 1)],
            ),
            Sample::Mixed => joined(
                alloc,
                &[(BITS, 1), (TURN_OF_BITS, 40), (ANSWER_OF_8_BYTES, 1)],
            ),
            Sample::Straight => {
                let units = PROGRAM_UNITS - BEGINNING_UNITS - NO_ANSWER_UNITS;
                let (turns, rest) = (units / TURN_UNITS, units % TURN_UNITS);
                joined(
                    alloc,
                    &[(BEGINNING, 1), (TURN, turns), (REST, rest), (NO_ANSWER, 1)],
                )
            }
            Sample::Jumps => {
                let jumps = PROGRAM_UNITS - NO_ANSWER_UNITS;
                joined(alloc, &[(JUMP, jumps), (NO_ANSWER, 1)])
            }
            Sample::Ladder => {
                let rungs = (PROGRAM_UNITS - NO_ANSWER_UNITS) / RUNG_UNITS;
                joined(alloc, &[(RUNG, rungs), (NO_ANSWER, 1)])
            }
            Sample::Spills => {
                let jumps = PROGRAM_UNITS - SLOTS - NO_ANSWER_UNITS;
                let mut text = spills(alloc)?;
                text.push_str(&joined(alloc, &[(JUMP, jumps), (NO_ANSWER, 1)])?)?;
                Ok(text)
            }
        }
    }
}

/// Returns a store of r6 to each slot of the stack.
fn spills(alloc: Global) -> Result<String, AllocError> {
    let mut text = String::new(alloc);
    for slot in 1..SLOTS + 1 {
        text.push_str(&format!(in alloc; "stxd [r10-{}], r6\n", 8 * slot)?)?;
    }
    Ok(text)
}

/// Joins these texts, each repeated as often as the number beside it says.
fn joined(alloc: Global, parts: &[(&str, usize)]) -> Result<String, AllocError> {
    let mut text = String::new(alloc);
    for (part, times) in parts {
        for _ in 0..*times {
            text.push_str(part)?;
        }
    }
    Ok(text)
}

/// Returns the program, read from its text.
pub fn program(alloc: Global, sample: Sample) -> Result<Program> {
    let text = sample.text(alloc)?;
    Ok(assemble(alloc, &text)?)
}

/// Returns the verified program.
pub fn verified(alloc: Global, sample: Sample) -> Result<Verified> {
    Ok(verify(alloc, shape(program(alloc, sample)?)?, SIZES)?)
}
