//! Programs from bytes.
ghost use Rattle.std.specs.Prelude.{◌≡◌, ◌+◌, ◌*◌, ◌%◌, ◌^◌, ◌⊎◌, List, ◌++◌, length, IfOk, IfErr, OnOk, Ok, Err, Some, None};
ghost use Rattle.std.specs.Int.{w32, cast_unsigned};
ghost use Rattle.bpf_model.specs.declared.instruction.Insn.{Insn};
ghost use Rattle.bpf_model.specs.Spelling.{Spells, unit_bytes, spelling, IsInstruction};
ghost use Rattle.bpf_model.specs.Refusals.{GivesUnless};
ghost use Rattle.bpf_decode.specs.declared.fault.DecodeFault.{DecodeFault};
ghost use Rattle.bpf_decode.specs.declared.fault.DecodeFault.TheVariants.{NoMemory};
ghost use Rattle.bpf_decode.specs.Opcodes.{dst_and_imm};
ghost use Rattle.bpf_decode.specs.UnitFaults.{IsFirstHalf, HasSecondFault, UnitHas};
ghost use Rattle.bpf_decode.specs.OpcodeFields.{AreOperands};
ghost use Rattle.bpf_decode.specs.Faults.{length_fault, IsFirstDecodeFault, HasUnitFault};

use crate::fault::{DecodeFault, UnitFault};
use crate::opcode::Opcode;
use crate::operands::register;
use crate::unit::{Fields, UNIT_BYTES};
use bpf_model::limits::PROGRAM_UNITS;
use bpf_model::{Insn, Program};
use std::alloc::Global;

fn check_length(bytes: &[u8]) -> Result<(), DecodeFault>
    ensures ok { OnOk result (length_fault bytes.now ≡ None) }
    ensures err { IfErr result (λ e. length_fault bytes.now ≡ Some e) }
{
    if bytes.is_empty() {
        return Err(DecodeFault::Empty);
    }
    if bytes.len() % UNIT_BYTES != 0 {
        return Err(DecodeFault::NotWholeUnits);
    }
    if bytes.len() / UNIT_BYTES > PROGRAM_UNITS {
        return Err(DecodeFault::TooManyUnits);
    }
    Ok(())
}

/// Reads the instruction of this unit and the bytes after it. Returns it with the rest of the bytes.
fn instruction(fields: Fields, after: &[u8]) -> Result<(Insn, &[u8]), UnitFault>
    requires { length after.now % 8 ≡ 0 }
    ensures instruction { IfOk result (λ r. IsInstruction r.0) }
    ensures spelled { IfOk result (λ r. unit_bytes fields ++ after.now ≡ spelling r.0 ++ r.1.now) }
    ensures fault { IfErr result (λ e. UnitHas fields after.now e) }
{
    let Some(opcode) = Opcode::from_byte(fields.opcode) else {
        return Err(UnitFault::UnknownOpcode);
    };
    fields.check(opcode.used_fields())?;
    if opcode == Opcode::Wide {
        return wide(fields, after);
    }
    match opcode.with_operands(fields) {
        Some(insn) => Ok((insn, after)),
        None => Err(UnitFault::BadWidth),
    }
}

fn wide(first: Fields, after: &[u8]) -> Result<(Insn, &[u8]), UnitFault>
    requires first { IsFirstHalf first }
    requires operands { AreOperands dst_and_imm first }
    requires whole { length after.now % 8 ≡ 0 }
    ensures instruction { IfOk result (λ r. IsInstruction r.0) }
    ensures spelled { IfOk result (λ r. unit_bytes first ++ after.now ≡ spelling r.0 ++ r.1.now) }
    ensures fault { IfErr result (λ e. HasSecondFault after.now e) }
{
    let Some((unit, rest)) = after.split_first_chunk::<UNIT_BYTES>() else {
        return Err(UnitFault::CutWide);
    };
    let second = Fields::from_bytes(unit);
    if !second.has_imm_alone() {
        return Err(UnitFault::UnusedNotZero);
    }
    let insn = Insn::Wide {
        dst: register(first.dst),
        value: value_of_halves(first.imm, second.imm),
    };
    Ok((insn, rest))
}

fn value_of_halves(low: i32, high: i32) -> u64
    ensures { result ≡ cast_unsigned w32 high * 2 ^ 32 + cast_unsigned w32 low }
{
    u64::from(high.cast_unsigned()) * 0x1_0000_0000 + u64::from(low.cast_unsigned())
}

fn instructions(alloc: Global, bytes: &[u8]) -> Result<Vec<Insn>, DecodeFault>
    requires { length_fault bytes.now ≡ None }
    ensures found { IfOk result (λ v. Spells bytes.now v.items) }
    ensures first_fault { IfErr result (λ e. (e ≡ NoMemory) ⊎ HasUnitFault bytes.now e) }
{
    let mut instructions = Vec::with_capacity(alloc, bytes.len() / UNIT_BYTES)?;
    let mut rest = bytes;
    while let Some((unit, after)) = rest.split_first_chunk::<UNIT_BYTES>() {
        match instruction(Fields::from_bytes(unit), after) {
            Ok((insn, next)) => {
                instructions.push(insn).unwrap();
                rest = next;
            }
            Err(fault) => return Err(fault.at((bytes.len() - rest.len()) / UNIT_BYTES)),
        }
    }
    Ok(instructions)
}

/// Returns the program that all the bytes spell. Otherwise returns the first fault: a wrong number of bytes, or else
/// the least-numbered fault of the first unit that begins no instruction. Asks for memory once, for the program, and
/// only after the number of bytes was found right.
pub fn decode(alloc: Global, bytes: &[u8]) -> Result<Program, DecodeFault>
    ensures found { IfOk result (λ p. Spells bytes.now p) }
    ensures only { (p : List Insn) → Spells bytes.now p → GivesUnless NoMemory result (Ok p) }
    ensures first_fault { IfErr result (λ e. (e ≡ NoMemory) ⊎ IsFirstDecodeFault bytes.now e) }
    ensures memory { result ≡ Err NoMemory → length_fault bytes.now ≡ None }
    ensures refused { (e : DecodeFault) →
        IsFirstDecodeFault bytes.now e → GivesUnless NoMemory result (Err e) }
{
    check_length(bytes)?;
    let instructions = instructions(alloc, bytes)?;
    Ok(Program::new(instructions).unwrap())
}
