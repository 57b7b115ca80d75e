//! Instructions from opcodes and fields.
ghost use Rattle.std.specs.Prelude.{◌≡◌, ◌≢◌, ◌≤◌, true, false, IfSome, IfNone, nat_eq, pos};
ghost use Rattle.bpf_model.specs.Arithmetic.{swap_bits, extension_width, extension_bits};
ghost use Rattle.bpf_model.specs.Spelling.{fields_of, IsInstruction, IsOperand, code_of, offset_of, source_bit, src_of, imm_of, source_k, source_x};
ghost use Rattle.bpf_decode.specs.Opcodes.{is_division};
ghost use Rattle.bpf_decode.specs.UnitFaults.{has_bad_width, is_sign, is_move, is_swap};
ghost use Rattle.bpf_decode.specs.OpcodeFields.{source_number, opcode_byte, used_by, AreOperands, IsRegisterIfUsed, IsZeroUnlessUsed};
ghost use Rattle.bpf_decode.specs.declared.opcode.Opcode.TheVariants.{Alu, Mov, Wide, Store, Branch};

use crate::opcode::{Opcode, Source};
use crate::unit::Fields;
use bpf_model::{AccessSize, AluOp, Insn, JumpOp, Operand, Reg, SignExtension, SwapWidth, Width};

impl Opcode {
    /// Returns its instruction with the operands in these fields, or `None` if a width among them is invalid.
    pub(crate) fn with_operands(self, fields: Fields) -> Option<Insn>
        requires opcode { fields.opcode ≡ opcode_byte self }
        requires one_unit { self ≢ Wide }
        requires operands { AreOperands (used_by self) fields }
        ensures instruction { IfSome result IsInstruction }
        ensures spelled { IfSome result (λ i. fields_of i ≡ fields) }
        ensures none { IfNone result (has_bad_width fields ≡ true) }
    {
        match self {
            Opcode::Alu(op, source, width) => read_alu(op, source, width, fields),
            Opcode::Negate(width) => Some(Insn::Negate {
                width,
                dst: register(fields.dst),
            }),
            Opcode::Mov(source, width) => read_move(source, width, fields),
            Opcode::Reorder(order) => Some(Insn::Reorder {
                order,
                size: swap_width(fields.imm)?,
                dst: register(fields.dst),
            }),
            Opcode::Wide => unreachable!(),
            Opcode::Load(kind) => Some(Insn::Load {
                kind,
                dst: register(fields.dst),
                src: register(fields.src),
                offset: fields.offset,
            }),
            Opcode::Store(source, size) => Some(read_store(source, size, fields)),
            Opcode::Jump => Some(Insn::Jump {
                distance: fields.offset,
            }),
            Opcode::JumpLong => Some(Insn::JumpLong {
                distance: fields.imm,
            }),
            Opcode::Branch(test, source, width) => Some(read_branch(test, source, width, fields)),
            Opcode::Exit => Some(Insn::Exit),
        }
    }
}

/// The register of a number.
pub(crate) fn register(number: u8) -> Reg
    requires { number ≤ 10 }
    ensures { result ≡ number }
{
    Reg::new(number).unwrap()
}

fn operand(source: Source, fields: Fields) -> Operand
    requires src { IsRegisterIfUsed (nat_eq (source_number source) source_x) fields.src }
    requires imm { IsZeroUnlessUsed (nat_eq (source_number source) source_k) fields.imm }
    ensures operand { IsOperand result }
    ensures source { source_bit result ≡ source_number source }
    ensures src { src_of result ≡ fields.src }
    ensures imm { imm_of result ≡ fields.imm }
{
    match source {
        Source::Immediate => Operand::Immediate(fields.imm),
        Source::Register => Operand::Register(register(fields.src)),
    }
}

fn read_alu(op: AluOp, source: Source, width: Width, fields: Fields) -> Option<Insn>
    requires opcode { fields.opcode ≡ opcode_byte (Alu op source width) }
    requires operands { AreOperands (used_by (Alu op source width)) fields }
    ensures instruction { IfSome result IsInstruction }
    ensures spelled { IfSome result (λ i. fields_of i ≡ fields) }
    ensures none { IfNone result (has_bad_width fields ≡ true) }
{
    Some(Insn::Alu {
        op: with_sign(op, fields.offset)?,
        width,
        dst: register(fields.dst),
        src: operand(source, fields),
    })
}

/// a move of the whole operand, or of its low part with its sign extended
fn read_move(source: Source, width: Width, fields: Fields) -> Option<Insn>
    requires opcode { fields.opcode ≡ opcode_byte (Mov source width) }
    requires operands { AreOperands (used_by (Mov source width)) fields }
    ensures instruction { IfSome result IsInstruction }
    ensures spelled { IfSome result (λ i. fields_of i ≡ fields) }
    ensures none { IfNone result (has_bad_width fields ≡ true) }
{
    let dst = register(fields.dst);
    if fields.offset == 0 {
        let src = operand(source, fields);
        return Some(Insn::Mov { width, dst, src });
    }
    Some(Insn::SignExtend {
        extension: sign_extension(width, fields.offset)?,
        dst,
        src: register(fields.src),
    })
}

fn read_store(source: Source, size: AccessSize, fields: Fields) -> Insn
    requires opcode { fields.opcode ≡ opcode_byte (Store source size) }
    requires operands { AreOperands (used_by (Store source size)) fields }
    ensures instruction { IsInstruction result }
    ensures spelled { fields_of result ≡ fields }
{
    Insn::Store {
        size,
        dst: register(fields.dst),
        src: operand(source, fields),
        offset: fields.offset,
    }
}

fn read_branch(test: JumpOp, source: Source, width: Width, fields: Fields) -> Insn
    requires opcode { fields.opcode ≡ opcode_byte (Branch test source width) }
    requires operands { AreOperands (used_by (Branch test source width)) fields }
    ensures instruction { IsInstruction result }
    ensures spelled { fields_of result ≡ fields }
{
    Insn::Branch {
        test,
        width,
        dst: register(fields.dst),
        src: operand(source, fields),
        distance: fields.offset,
    }
}

/// the operation, signed or not as the offset says
fn with_sign(op: AluOp, offset: i16) -> Option<AluOp>
    requires { IsZeroUnlessUsed (is_division (code_of op)) offset }
    ensures code { IfSome result (λ signed. code_of signed ≡ code_of op) }
    ensures offset { IfSome result (λ signed. offset_of signed ≡ offset) }
    ensures division { IfNone result (is_division (code_of op) ≡ true) }
    ensures none { IfNone result (is_sign offset ≡ false) }
{
    match (op, offset) {
        (AluOp::Div | AluOp::SDiv, 0) => Some(AluOp::Div),
        (AluOp::Div | AluOp::SDiv, 1) => Some(AluOp::SDiv),
        (AluOp::Mod | AluOp::SMod, 0) => Some(AluOp::Mod),
        (AluOp::Mod | AluOp::SMod, 1) => Some(AluOp::SMod),
        (AluOp::Div | AluOp::SDiv | AluOp::Mod | AluOp::SMod, _) => None,
        _ => Some(op),
    }
}

fn sign_extension(width: Width, offset: i16) -> Option<SignExtension>
    requires { offset ≢ pos 0 }
    ensures width { IfSome result (λ extension. extension_width extension ≡ width) }
    ensures bits { IfSome result (λ extension. pos (extension_bits extension) ≡ offset) }
    ensures none { IfNone result (is_move width offset ≡ false) }
{
    match (width, offset) {
        (Width::W32, 8) => Some(SignExtension::From8To32),
        (Width::W32, 16) => Some(SignExtension::From16To32),
        (Width::W64, 8) => Some(SignExtension::From8To64),
        (Width::W64, 16) => Some(SignExtension::From16To64),
        (Width::W64, 32) => Some(SignExtension::From32To64),
        _ => None,
    }
}

fn swap_width(imm: i32) -> Option<SwapWidth>
    ensures bits { IfSome result (λ size. pos (swap_bits size) ≡ imm) }
    ensures none { IfNone result (is_swap imm ≡ false) }
{
    match imm {
        16 => Some(SwapWidth::S16),
        32 => Some(SwapWidth::S32),
        64 => Some(SwapWidth::S64),
        _ => None,
    }
}
