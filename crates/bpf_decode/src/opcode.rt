//! What an opcode stands for.
ghost use Rattle.std.specs.Prelude.{◌≡◌, ◌<◌, ◌%◌, IfSome, IfNone, None};
ghost use Rattle.bpf_model.specs.Spelling.{opcode as opcode_with, source_bit, alu_class, jump_class, class_ld, class_ldx};
ghost use Rattle.bpf_decode.specs.Opcodes.{used_fields, operands, class_in, source_in};
ghost use Rattle.bpf_decode.specs.OpcodeFields.{source_number, stored_class, opcode_byte, used_by};

use crate::codes::{
    access_size, alu_code, alu_op, jump_test, load_kind, mode, size_code, test_code,
};
use crate::unit::{NO_FIELD, UsedFields};
use bpf_model::{AccessSize, AluOp, ByteOrder, JumpOp, LoadKind, Operand, Width};

/// Where an instruction's second operand is: in imm (K) or in the register src (X).
#[derive(Clone, Copy, Debug, PartialEq, Eq)]
pub(crate) enum Source {
    Immediate,
    Register,
}

impl Source {
    /// The source of an operand.
    pub(crate) fn of(operand: Operand) -> Source
        ensures { source_number result ≡ source_bit operand }
    {
        match operand {
            Operand::Register(_) => Source::Register,
            Operand::Immediate(_) => Source::Immediate,
        }
    }

    fn from_byte(byte: u8) -> Source
        ensures { source_number result ≡ source_in byte }
    {
        match byte / 8 % 2 {
            0 => Source::Immediate,
            _ => Source::Register,
        }
    }

    /// dst, an operand of this source, and the offset if it is used
    fn used_fields(self, offset: bool) -> UsedFields
        ensures { result ≡ operands (source_number self) offset }
    {
        UsedFields {
            dst: true,
            src: self == Source::Register,
            offset,
            imm: self == Source::Immediate,
        }
    }

    fn number(self) -> u8
        ensures value { result ≡ source_number self }
        ensures bounded { result < 2 }
    {
        match self {
            Source::Immediate => 0,
            Source::Register => 1,
        }
    }
}

/// An instruction without its operands. Whether a quotient or remainder is signed counts as an operand, and so does
/// whether a move extends a sign.
#[derive(Clone, Copy, Debug, PartialEq, Eq)]
pub(crate) enum Opcode {
    Alu(AluOp, Source, Width),
    Negate(Width),
    Mov(Source, Width),
    Reorder(ByteOrder),
    Wide,
    Load(LoadKind),
    Store(Source, AccessSize),
    Jump,
    JumpLong,
    Branch(JumpOp, Source, Width),
    Exit,
}

impl Opcode {
    /// Returns what this opcode byte stands for, or `None` if no instruction has it.
    pub(crate) fn from_byte(byte: u8) -> Option<Opcode>
        ensures some { IfSome result (λ o. opcode_byte o ≡ byte) }
        ensures none { IfNone result (used_fields byte ≡ None) }
    {
        match byte % 8 {
            0 => Opcode::load_immediate(byte),
            1 => Opcode::load(byte),
            2 => Opcode::store(byte, Source::Immediate),
            3 => Opcode::store(byte, Source::Register),
            4 => Opcode::arithmetic(byte, Width::W32),
            5 => Opcode::jump(byte, Width::W64),
            6 => Opcode::jump(byte, Width::W32),
            _ => Opcode::arithmetic(byte, Width::W64),
        }
    }

    fn load_immediate(byte: u8) -> Option<Opcode>
        requires { class_in byte ≡ class_ld }
        ensures some { IfSome result (λ o. opcode_byte o ≡ byte) }
        ensures none { IfNone result (used_fields byte ≡ None) }
    {
        match byte {
            0x18 => Some(Opcode::Wide),
            _ => None,
        }
    }

    fn load(byte: u8) -> Option<Opcode>
        requires { class_in byte ≡ class_ldx }
        ensures some { IfSome result (λ o. opcode_byte o ≡ byte) }
        ensures none { IfNone result (used_fields byte ≡ None) }
    {
        let kind = load_kind(byte / 32, access_size(byte / 8 % 4))?;
        Some(Opcode::Load(kind))
    }

    fn store(byte: u8, source: Source) -> Option<Opcode>
        requires { class_in byte ≡ stored_class source }
        ensures some { IfSome result (λ o. opcode_byte o ≡ byte) }
        ensures none { IfNone result (used_fields byte ≡ None) }
    {
        match byte / 32 {
            3 => Some(Opcode::Store(source, access_size(byte / 8 % 4))),
            _ => None,
        }
    }

    fn arithmetic(byte: u8, width: Width) -> Option<Opcode>
        requires { class_in byte ≡ alu_class width }
        ensures some { IfSome result (λ o. opcode_byte o ≡ byte) }
        ensures none { IfNone result (used_fields byte ≡ None) }
    {
        let source = Source::from_byte(byte);
        match (byte / 16, source, width) {
            (8, Source::Immediate, _) => Some(Opcode::Negate(width)),
            (11, _, _) => Some(Opcode::Mov(source, width)),
            (13, Source::Immediate, Width::W32) => Some(Opcode::Reorder(ByteOrder::Little)),
            (13, Source::Register, Width::W32) => Some(Opcode::Reorder(ByteOrder::Big)),
            (13, Source::Immediate, Width::W64) => Some(Opcode::Reorder(ByteOrder::Swap)),
            (code, _, _) => Some(Opcode::Alu(alu_op(code)?, source, width)),
        }
    }

    fn jump(byte: u8, width: Width) -> Option<Opcode>
        requires { class_in byte ≡ jump_class width }
        ensures some { IfSome result (λ o. opcode_byte o ≡ byte) }
        ensures none { IfNone result (used_fields byte ≡ None) }
    {
        let source = Source::from_byte(byte);
        match (byte / 16, source, width) {
            (0, Source::Immediate, Width::W64) => Some(Opcode::Jump),
            (0, Source::Immediate, Width::W32) => Some(Opcode::JumpLong),
            (9, Source::Immediate, Width::W64) => Some(Opcode::Exit),
            (code, _, _) => Some(Opcode::Branch(jump_test(code)?, source, width)),
        }
    }

    /// The byte that stands for it.
    pub(crate) fn byte(self) -> u8
        ensures { result ≡ opcode_byte self }
    {
        match self {
            Opcode::Alu(op, source, width) => coded(alu_code(op), source, arithmetic_class(width)),
            Opcode::Negate(width) => coded(8, Source::Immediate, arithmetic_class(width)),
            Opcode::Mov(source, width) => coded(11, source, arithmetic_class(width)),
            Opcode::Reorder(ByteOrder::Little) => 0xd4,
            Opcode::Reorder(ByteOrder::Big) => 0xdc,
            Opcode::Reorder(ByteOrder::Swap) => 0xd7,
            Opcode::Wide => 0x18,
            Opcode::Load(kind) => 32 * mode(kind) + 8 * size_code(kind.size()) + 1,
            Opcode::Store(Source::Immediate, size) => 0x62 + 8 * size_code(size),
            Opcode::Store(Source::Register, size) => 0x63 + 8 * size_code(size),
            Opcode::Jump => 0x05,
            Opcode::JumpLong => 0x06,
            Opcode::Branch(test, source, width) => coded(
                test_code(test),
                source,
                branch_class(width),
            ),
            Opcode::Exit => 0x95,
        }
    }

    /// Which fields its instructions use.
    pub(crate) fn used_fields(self) -> UsedFields
        ensures { result ≡ used_by self }
    {
        match self {
            Opcode::Alu(op, source, _) => source.used_fields(matches!(
                op,
                AluOp::Div | AluOp::SDiv | AluOp::Mod | AluOp::SMod
            )),
            Opcode::Mov(source, _) => source.used_fields(source == Source::Register),
            Opcode::Load(_) => Source::Register.used_fields(true),
            Opcode::Store(source, _) | Opcode::Branch(_, source, _) => source.used_fields(true),
            Opcode::Negate(_) => UsedFields {
                dst: true,
                ..NO_FIELD
            },
            Opcode::Reorder(_) | Opcode::Wide => UsedFields {
                dst: true,
                imm: true,
                ..NO_FIELD
            },
            Opcode::Jump => UsedFields {
                offset: true,
                ..NO_FIELD
            },
            Opcode::JumpLong => UsedFields {
                imm: true,
                ..NO_FIELD
            },
            Opcode::Exit => NO_FIELD,
        }
    }
}

fn arithmetic_class(width: Width) -> u8
    ensures value { result ≡ alu_class width }
    ensures bounded { result < 8 }
{
    match width {
        Width::W32 => 4,
        Width::W64 => 7,
    }
}

fn branch_class(width: Width) -> u8
    ensures value { result ≡ jump_class width }
    ensures bounded { result < 8 }
{
    match width {
        Width::W32 => 6,
        Width::W64 => 5,
    }
}

fn coded(code: u8, source: Source, class: u8) -> u8
    requires code { code < 16 }
    requires class { class < 8 }
    ensures { result ≡ opcode_with code (source_number source) class }
{
    16 * code + 8 * source.number() + class
}
