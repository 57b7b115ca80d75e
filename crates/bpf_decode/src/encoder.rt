//! Bytes from programs.
ghost use Rattle.std.specs.Prelude.{◌≡◌, ◌+◌, ◌*◌, ◌≤◌, ◌++◌, length, IfOk};
ghost use Rattle.std.specs.Vec.{vec_capacity};
ghost use Rattle.bpf_model.specs.Program.{units_of};
ghost use Rattle.bpf_model.specs.Spelling.{Spells, spelling, IsInstruction};

use crate::unit::{Fields, UNIT_BYTES};
use bpf_model::{Insn, NoMemory, Program};
use std::alloc::Global;

fn write(bytes: &mut Vec<u8>, insn: &Insn)
    requires { length bytes.old.items + 8 * units_of insn.now ≤ vec_capacity bytes.old }
    ensures instruction { IsInstruction insn.now }
    ensures written { bytes.new.items ≡ bytes.old.items ++ spelling insn.now }
    ensures room { vec_capacity bytes.old ≤ vec_capacity bytes.new }
{
    bytes
        .extend_from_slice(&Fields::of(insn).to_bytes())
        .unwrap();
    if let Insn::Wide { value, .. } = insn {
        bytes
            .extend_from_slice(&Fields::second_half(*value).to_bytes())
            .unwrap();
    }
}

/// Returns the bytes that spell the program; `decode` reads them back. Asks for memory once, for the bytes.
pub fn encode(alloc: Global, program: &Program) -> Result<Vec<u8>, NoMemory>
    ensures spelled { IfOk result (λ v. Spells v.items program.now) }
{
    let instructions = program.instructions();
    let mut bytes = Vec::with_capacity(alloc, UNIT_BYTES * Insn::count_units(instructions))?;
    for insn in instructions {
        write(&mut bytes, insn);
    }
    Ok(bytes)
}
