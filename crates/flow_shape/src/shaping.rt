//! The test of a program's flow.
ghost use Rattle.std.specs.Prelude.{◌≡◌, ◌↔◌, IsOk, IfOk, OnOk, IfErr};
ghost use Rattle.bpf_model.specs.Program.{IsProgram};
ghost use Rattle.flow_shape.specs.FlowShape.{IsWellShaped, IsFirstFlowFault, IsForward};

use crate::fault::FlowFault;
use crate::layout::Layout;
use bpf_model::{Insn, Program};
use std::marker::Model;

/// A program without a flow fault.
#[derive(Debug, Drop)]
pub struct Shaped {
    program: Program,
}

impl Model for Shaped {
    ghost use Rattle.std.specs.Prelude.{List};
    ghost use Rattle.bpf_model.specs.declared.instruction.Insn.{Insn};
    ghost use Rattle.flow_shape.specs.FlowShape.{IsWellShaped};

    ghost Value = { List Insn };

    ghost view = { λ s. s.program };

    ghost invariant = { λ s. IsWellShaped s.program };
}

impl Shaped {
    /// Returns the program.
    pub fn program(&self) -> &Program
        ensures value { result.now ≡ self.now }
        ensures shaped { IsWellShaped self.now }
        ensures forward { IsForward self.now }
    {
        &self.program
    }

    /// Takes the program out.
    pub fn into_program(self) -> Program
        ensures value { result ≡ self }
        ensures shaped { IsWellShaped self }
        ensures forward { IsForward self }
    {
        self.program
    }
}

fn find_fault(program: &[Insn]) -> Result<(), FlowFault>
    requires { IsProgram program.now }
    ensures ok { OnOk result (IsWellShaped program.now) }
    ensures err { IfErr result (IsFirstFlowFault program.now) }
{
    let layout = Layout::new(program);
    let mut unit = 0;
    for insn in program {
        layout.check(unit, insn)?;
        unit += insn.units();
    }
    Ok(())
}

/// Returns the program if its flow has no fault. Otherwise returns the first fault, which is the least-numbered one of
/// the first faulty unit, and drops the program. Takes no memory.
pub fn shape(program: Program) -> Result<Shaped, FlowFault>
    ensures ok { IsOk result ↔ IsWellShaped program }
    ensures same { IfOk result (λ s. s ≡ program) }
    ensures first_fault { IfErr result (λ fault. IsFirstFlowFault program fault) }
{
    find_fault(program.instructions())?;
    Ok(Shaped { program })
}
