//! Which units of a program start an instruction, and which flow fault an instruction has.
ghost use Rattle.std.specs.Prelude.{◌≡◌, Some, OnOk, IfErr};
ghost use Rattle.bpf_model.specs.Program.{IsProgram, instruction_at};
ghost use Rattle.flow_shape.specs.Layouts.{DoesLand, HasNoFaultAt, IsFirstFaultAt};

use crate::fault::FlowFault;
use crate::jumps::{distance, falls_through, target};
use bpf_model::Insn;
use bpf_model::limits::PROGRAM_UNITS;
use std::marker::Model;

/// A program, and which of its units start an instruction.
#[derive(Drop)]
pub(crate) struct Layout<'a> {
    instructions: &'a [Insn],
    starts: [bool; PROGRAM_UNITS],
    total: usize,
}

impl<'a> Model for Layout<'a> {
    ghost use Rattle.std.specs.Prelude.{List};
    ghost use Rattle.bpf_model.specs.declared.instruction.Insn.{Insn};
    ghost use Rattle.flow_shape.specs.Layouts.{IsLaidOut};

    ghost Value = { List Insn };

    ghost view = { λ l. l.instructions.now };

    ghost invariant = { λ l. IsLaidOut l.instructions.now l.starts l.total };
}

impl<'a> Layout<'a> {
    pub(crate) fn new(instructions: &'a [Insn]) -> Layout<'a>
        requires { IsProgram instructions.now }
        ensures { result ≡ instructions.now }
    {
        let mut starts = [false; PROGRAM_UNITS];
        let mut total = 0;
        for insn in instructions {
            starts[total] = true;
            total += insn.units();
        }
        Layout {
            instructions,
            starts,
            total,
        }
    }

    /// Returns the first fault of a jump that starts at a unit; other instructions have none.
    fn check_jump(&self, unit: usize, insn: &Insn) -> Result<(), FlowFault>
        requires { instruction_at self.now unit ≡ Some insn.now }
        ensures ok { OnOk result (DoesLand self.now unit) }
        ensures err { IfErr result (IsFirstFaultAt self.now unit) }
    {
        let total = self.total;
        let Some(distance) = distance(insn) else {
            return Ok(());
        };
        let Some(target) = target(unit, distance) else {
            return Err(FlowFault::BackwardJump(unit));
        };
        if target >= total {
            return Err(FlowFault::JumpOut(unit));
        }
        if !self.starts[target] {
            return Err(FlowFault::JumpIntoWide(unit));
        }
        Ok(())
    }

    /// Returns the first fault of the instruction that starts at a unit.
    pub(crate) fn check(&self, unit: usize, insn: &Insn) -> Result<(), FlowFault>
        requires { instruction_at self.now unit ≡ Some insn.now }
        ensures ok { OnOk result (HasNoFaultAt self.now unit) }
        ensures err { IfErr result (IsFirstFaultAt self.now unit) }
    {
        self.check_jump(unit, insn)?;
        if falls_through(insn) && unit + insn.units() == self.total {
            return Err(FlowFault::FallsOffEnd(unit));
        }
        Ok(())
    }
}
