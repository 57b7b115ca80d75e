//! Programs.
ghost use Rattle.std.specs.Prelude.{◌≡◌, ◌≤◌, ◌<◌, ◌↔◌, List, length, IsSome, IfSome};
ghost use Rattle.bpf_model.specs.Program.{IsProgram};

use crate::instruction::Insn;
use crate::limits::PROGRAM_UNITS;
use std::marker::Model;

/// A list of 1 to `PROGRAM_UNITS` units of instructions.
#[derive(Debug, Drop)]
pub struct Program {
    instructions: Vec<Insn>,
}

impl Model for Program {
    ghost use Rattle.std.specs.Prelude.{List};
    ghost use Rattle.bpf_model.specs.declared.instruction.Insn.{Insn};
    ghost use Rattle.bpf_model.specs.Program.{IsProgram};

    ghost Value = { List Insn };

    ghost view = { λ p. p.instructions.items };

    ghost invariant = { λ p. IsProgram p.instructions.items };
}

impl Program {
    /// Makes a program of these instructions. Returns `None` if they have no unit or more than `PROGRAM_UNITS`.
    pub fn new(instructions: Vec<Insn>) -> Option<Program>
        ensures some { IsSome result ↔ IsProgram instructions.items }
        ensures value { IfSome result (λ p. p ≡ instructions.items) }
    {
        if instructions.is_empty() || Insn::count_units(instructions.as_slice()) > PROGRAM_UNITS {
            return None;
        }
        Some(Program { instructions })
    }

    /// The instructions, in order.
    pub fn instructions(&self) -> &[Insn]
        ensures value { result.now ≡ self.now }
        ensures program { IsProgram result.now }
    {
        self.instructions.as_slice()
    }
}
