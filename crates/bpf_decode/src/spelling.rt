//! Fields from instructions.
ghost use Rattle.std.specs.Prelude.{◌≡◌, ◌≤◌, ◌/◌, ◌%◌, ◌^◌};
ghost use Rattle.std.specs.Int.{w32, cast_signed};
ghost use Rattle.bpf_model.specs.Words.{IsWord};
ghost use Rattle.bpf_model.specs.Spelling.{fields_of, second_unit, src_of, imm_of, offset_of, IsRegister};
ghost use Rattle.bpf_decode.specs.UnitFaults.{FitUnit};
ghost use Rattle.bpf_decode.specs.OpcodeFields.{opcode_byte};

use crate::opcode::{Opcode, Source};
use crate::unit::Fields;
use bpf_model::{AluOp, Insn, Operand};

impl Fields {
    /// The fields of an instruction's first unit.
    pub(crate) fn of(insn: &Insn) -> Fields
        ensures fields { result ≡ fields_of insn.now }
        ensures fit { FitUnit result }
        ensures dst { IsRegister result.dst }
        ensures src { IsRegister result.src }
    {
        Fields {
            opcode: opcode(insn).byte(),
            dst: dst(insn),
            src: src(insn),
            offset: offset(insn),
            imm: imm(insn),
        }
    }

    /// The fields of the second unit of a wide instruction.
    pub(crate) fn second_half(value: u64) -> Fields
        ensures word { IsWord value }
        ensures fields { result ≡ second_unit value }
    {
        Fields {
            opcode: 0,
            dst: 0,
            src: 0,
            offset: 0,
            imm: high_half(value),
        }
    }
}

fn low_half(value: u64) -> i32
    ensures { result ≡ cast_signed w32 (value % 2 ^ 32) }
{
    ((value % 0x1_0000_0000) as u32).cast_signed()
}

fn high_half(value: u64) -> i32
    ensures { result ≡ cast_signed w32 (value / 2 ^ 32) }
{
    ((value / 0x1_0000_0000) as u32).cast_signed()
}

fn opcode(insn: &Insn) -> Opcode
    ensures { opcode_byte result ≡ (fields_of insn.now).opcode }
{
    match *insn {
        Insn::Alu { op, width, src, .. } => Opcode::Alu(op, Source::of(src), width),
        Insn::Negate { width, .. } => Opcode::Negate(width),
        Insn::Mov { width, src, .. } => Opcode::Mov(Source::of(src), width),
        Insn::SignExtend { extension, .. } => Opcode::Mov(Source::Register, extension.width()),
        Insn::Reorder { order, .. } => Opcode::Reorder(order),
        Insn::Wide { .. } => Opcode::Wide,
        Insn::Load { kind, .. } => Opcode::Load(kind),
        Insn::Store { size, src, .. } => Opcode::Store(Source::of(src), size),
        Insn::Jump { .. } => Opcode::Jump,
        Insn::JumpLong { .. } => Opcode::JumpLong,
        Insn::Branch {
            test,
            width,
            src,
            ..
        } => Opcode::Branch(test, Source::of(src), width),
        Insn::Exit => Opcode::Exit,
    }
}

fn dst(insn: &Insn) -> u8
    ensures field { result ≡ (fields_of insn.now).dst }
    ensures register { IsRegister result }
{
    match *insn {
        Insn::Alu { dst, .. }
        | Insn::Negate { dst, .. }
        | Insn::Mov { dst, .. }
        | Insn::SignExtend { dst, .. }
        | Insn::Reorder { dst, .. }
        | Insn::Wide { dst, .. }
        | Insn::Load { dst, .. }
        | Insn::Store { dst, .. }
        | Insn::Branch { dst, .. } => dst.number(),
        Insn::Jump { .. } | Insn::JumpLong { .. } | Insn::Exit => 0,
    }
}

fn src(insn: &Insn) -> u8
    ensures field { result ≡ (fields_of insn.now).src }
    ensures register { IsRegister result }
{
    match *insn {
        Insn::Alu { src, .. }
        | Insn::Mov { src, .. }
        | Insn::Store { src, .. }
        | Insn::Branch { src, .. } => operand_register(src),
        Insn::SignExtend { src, .. } | Insn::Load { src, .. } => src.number(),
        _ => 0,
    }
}

fn operand_register(src: Operand) -> u8
    ensures value { result ≡ src_of src }
    ensures register { IsRegister result }
{
    match src {
        Operand::Register(register) => register.number(),
        Operand::Immediate(_) => 0,
    }
}

fn offset(insn: &Insn) -> i16
    ensures { result ≡ (fields_of insn.now).offset }
{
    match *insn {
        Insn::Alu { op, .. } => sign_offset(op),
        Insn::SignExtend { extension, .. } => extension.bits() as i16,
        Insn::Load { offset, .. } | Insn::Store { offset, .. } => offset,
        Insn::Jump { distance } | Insn::Branch { distance, .. } => distance,
        _ => 0,
    }
}

/// the offset that says whether a quotient or a remainder is signed
fn sign_offset(op: AluOp) -> i16
    ensures { result ≡ offset_of op }
{
    match op {
        AluOp::SDiv | AluOp::SMod => 1,
        _ => 0,
    }
}

fn imm(insn: &Insn) -> i32
    ensures { result ≡ (fields_of insn.now).imm }
{
    match *insn {
        Insn::Alu { src, .. }
        | Insn::Mov { src, .. }
        | Insn::Store { src, .. }
        | Insn::Branch { src, .. } => operand_imm(src),
        Insn::Reorder { size, .. } => size.bits().cast_signed(),
        Insn::Wide { value, .. } => low_half(value),
        Insn::JumpLong { distance } => distance,
        _ => 0,
    }
}

fn operand_imm(src: Operand) -> i32
    ensures { result ≡ imm_of src }
{
    match src {
        Operand::Register(_) => 0,
        Operand::Immediate(imm) => imm,
    }
}
