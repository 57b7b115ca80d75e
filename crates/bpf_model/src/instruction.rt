//! Instructions.
ghost use Rattle.std.specs.Prelude.{◌≡◌, ◌≤◌, ◌↔◌, IsSome, IfSome};
ghost use Rattle.bpf_model.specs.Program.{units_of, unit_count};
ghost use Rattle.bpf_model.specs.Words.{sign_extended};

use crate::accesses::{AccessSize, LoadKind};
use crate::conditions::JumpOp;
use crate::operations::{AluOp, ByteOrder, SignExtension, SwapWidth, Width};
use std::marker::Model;

/// A register, r0 to r10.
#[derive(Clone, Copy, Debug, PartialEq, Eq, Hash)]
pub struct Reg {
    number: u8,
}

impl Model for Reg {
    ghost use Rattle.std.specs.Prelude.{ℕ, ◌≤◌};

    ghost Value = { ℕ };

    ghost view = { λ r. r.number };

    ghost invariant = { λ r. r.number ≤ 10 };

    ghost inverse = { λ n. record { number = n } };
}

impl Reg {
    /// Returns the register of this number, or `None` if it is above 10.
    pub fn new(number: u8) -> Option<Reg>
        ensures some { IsSome result ↔ (number ≤ 10) }
        ensures value { IfSome result (λ r. r ≡ number) }
    {
        if number <= 10 {
            Some(Reg { number })
        } else {
            None
        }
    }

    /// The number, 0 to 10.
    pub fn number(self) -> u8
        ensures value { result ≡ self }
        ensures in_range { result ≤ 10 }
    {
        self.number
    }
}

/// The second operand: a register, or an immediate whose sign is extended to a word.
#[derive(Clone, Copy, Debug, PartialEq, Eq)]
pub enum Operand {
    Register(Reg),
    Immediate(i32),
}

/// Returns the word that an immediate stands for.
pub fn immediate_word(imm: i32) -> u64
    ensures { result ≡ sign_extended imm }
{
    i64::from(imm).cast_unsigned()
}

/// An instruction, by its name in RFC 9669. A jump's distance counts units, from the next instruction on.
#[derive(Clone, Copy, Debug, PartialEq, Eq)]
pub enum Insn {
    /// ADD, SUB, MUL, DIV, SDIV, OR, AND, LSH, RSH, MOD, SMOD, XOR, ARSH: `dst` becomes the result of the operation on
    /// `dst` and `src`.
    Alu {
        op: AluOp,
        width: Width,
        dst: Reg,
        src: Operand,
    },
    /// NEG: `dst` becomes minus `dst`.
    Negate {
        width: Width,
        dst: Reg,
    },
    /// MOV: `dst` becomes `src`, or its low part.
    Mov {
        width: Width,
        dst: Reg,
        src: Operand,
    },
    /// MOVSX: `dst` becomes the low bits of `src`, with their sign extended.
    SignExtend {
        extension: SignExtension,
        dst: Reg,
        src: Reg,
    },
    /// END: `dst` becomes its low bits, in another byte order.
    Reorder {
        order: ByteOrder,
        size: SwapWidth,
        dst: Reg,
    },
    /// The wide LD of IMM mode, a 64-bit immediate: `dst` becomes the value. The only instruction of two units.
    Wide {
        dst: Reg,
        value: u64,
    },
    /// LDX of MEM or MEMSX mode: `dst` becomes the bytes at `src + offset`.
    Load {
        kind: LoadKind,
        dst: Reg,
        src: Reg,
        offset: i16,
    },
    /// ST (`src` is an immediate) or STX (a register), of MEM mode: the bytes at `dst + offset` become the low bytes of
    /// `src`.
    Store {
        size: AccessSize,
        dst: Reg,
        src: Operand,
        offset: i16,
    },
    /// JA of the class JMP: jumps by this distance, which is in the offset.
    Jump {
        distance: i16,
    },
    /// JA of the class JMP32: the same, but the distance is in the immediate.
    JumpLong {
        distance: i32,
    },
    /// JEQ, JGT, JGE, JSET, JNE, JSGT, JSGE, JLT, JLE, JSLT, JSLE: jumps by this distance if the test holds of `dst` and
    /// `src`, else goes on at the next instruction.
    Branch {
        test: JumpOp,
        width: Width,
        dst: Reg,
        src: Operand,
        distance: i16,
    },
    /// EXIT: the run ends.
    Exit,
}

impl Insn {
    /// Returns how many units of 64 bits the instruction takes: two if it is wide, else one.
    pub fn units(self) -> usize
        ensures value { result ≡ units_of self }
        ensures bounded { result ≤ 2 }
    {
        match self {
            Insn::Wide { .. } => 2,
            _ => 1,
        }
    }

    /// Returns how many units the instructions take in all.
    pub fn count_units(instructions: &[Insn]) -> usize
        ensures value { result ≡ unit_count instructions.now }
    {
        let mut units = 0;
        for insn in instructions {
            units += insn.units();
        }
        units
    }
}
