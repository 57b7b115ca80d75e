//! Programs from text.
ghost use Rattle.std.specs.Prelude.{◌≡◌, ◌≤◌, ◌⊎◌, ◌++◌, ◌∷◌, List, [], IfOk, IfErr, OnOk, Ok, Err};
ghost use Rattle.bpf_model.specs.declared.instruction.Insn.{Insn};
ghost use Rattle.bpf_model.specs.Program.{unit_count};
ghost use Rattle.bpf_model.specs.Spelling.{AreInstructions};
ghost use Rattle.bpf_model.specs.Refusals.{GivesUnless};
ghost use Rattle.bpf_assembler.specs.declared.fault.AsmFault.{AsmFault};
ghost use Rattle.bpf_assembler.specs.declared.fault.AsmFault.TheVariants.{NoMemory};
ghost use Rattle.bpf_assembler.specs.Text.{text_of, IsTextOf, BeginsWithLine};
ghost use Rattle.bpf_assembler.specs.Faults.{IsFaultyLine, IsFirstAsmFault};

use crate::cursor::Cursor;
use crate::fault::AsmFault;
use bpf_model::limits::PROGRAM_UNITS;
use bpf_model::{Insn, Program};
use std::alloc::{AllocError, Global};

fn append(instructions: &mut Vec<Insn>, insn: &Insn) -> Result<(), AllocError>
    ensures { OnOk result (instructions.new.items ≡ instructions.old.items ++ insn.now ∷ []) }
{
    instructions.extend_from_slice(&[*insn])
}

fn instructions(alloc: Global, text: &[u8]) -> Result<Vec<Insn>, AsmFault>
    ensures fits { IfOk result (λ v. AreInstructions v.items) }
    ensures bounded { IfOk result (λ v. unit_count v.items ≤ PROGRAM_UNITS) }
    ensures lines { IfOk result (λ v. text.now ≡ text_of v.items) }
    ensures first_fault { IfErr result (λ e. (e ≡ NoMemory) ⊎ IsFaultyLine text.now e) }
    ensures memory { result ≡ Err NoMemory → BeginsWithLine text.now }
{
    let mut cursor = Cursor::new(text);
    let mut instructions = Vec::new(alloc);
    let mut units = 0;
    while !cursor.is_done() {
        let line = instructions.len() + 1;
        let insn = match cursor.line() {
            Ok(insn) => insn,
            Err(fault) => return Err(fault.at(line)),
        };
        units += insn.units();
        if units > PROGRAM_UNITS {
            return Err(AsmFault::BadCount(line));
        }
        append(&mut instructions, &insn)?;
    }
    Ok(instructions)
}

/// Returns the program whose canonical text this is. Otherwise returns the first faulty line and its fault. Asks for
/// memory for the program alone, and only after a line was read.
pub fn assemble(alloc: Global, text: &str) -> Result<Program, AsmFault>
    // If a program is read, this is its text.
    ensures found { IfOk result (IsTextOf text.now) }
    // A program with this text is read, unless memory is refused.
    ensures only { (p : List Insn) → IsTextOf text.now p → GivesUnless NoMemory result (Ok p) }
    // Which line is refused, and why.
    ensures first_fault { IfErr result (λ e. (e ≡ NoMemory) ⊎ IsFirstAsmFault text.now e) }
    // Memory can be refused only after a line was read.
    ensures memory { result ≡ Err NoMemory → BeginsWithLine text.now }
    // A text with a faulty line is refused.
    ensures refused { (e : AsmFault) → IsFirstAsmFault text.now e
        → GivesUnless NoMemory result (Err e) }
{
    let instructions = instructions(alloc, text.as_bytes())?;
    match Program::new(instructions) {
        Some(program) => Ok(program),
        None => Err(AsmFault::BadCount(0)),
    }
}
