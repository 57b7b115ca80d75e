//! Instructions without their operands, and their names.
ghost use Rattle.std.specs.Prelude.{◌≡◌, option_and_then};
ghost use Rattle.bpf_assembler.specs.Names.{stem_word, stem_of, suffix_of, stems};
ghost use Rattle.bpf_assembler.specs.Text.{mnemonic_of};
ghost use Rattle.bpf_assembler.specs.Reading.{rest_after, suffixed_at, mnemonic_at};

use crate::tables::{Named, with_word};
use bpf_model::{
    AccessSize, AluOp, ByteOrder, Insn, JumpOp, LoadKind, Operand, SignExtension, SwapWidth, Width,
};

/// An operation, without its width, size or kind.
#[derive(Clone, Copy, Debug, PartialEq, Eq)]
pub(crate) enum Stem {
    Alu(AluOp),
    Negate,
    Mov,
    SignExtend,
    Reorder(ByteOrder),
    Wide,
    Load,
    Store,
    StoreImmediate,
    Jump,
    JumpLong,
    Branch(JumpOp),
    Exit,
}

/// An instruction without its operands.
#[derive(Clone, Copy, Debug, PartialEq, Eq)]
pub(crate) enum Mnemonic {
    Alu(AluOp, Width),
    Negate(Width),
    Mov(Width),
    SignExtend(SignExtension),
    Reorder(ByteOrder, SwapWidth),
    Wide,
    Load(LoadKind),
    /// Stores a register.
    Store(AccessSize),
    /// Stores an immediate.
    StoreImmediate(AccessSize),
    Jump,
    JumpLong,
    Branch(JumpOp, Width),
    Exit,
}

/// All stems.
static STEMS: [Stem; 37] = [
    Stem::Alu(AluOp::Add),
    Stem::Alu(AluOp::Sub),
    Stem::Alu(AluOp::Mul),
    Stem::Alu(AluOp::Div),
    Stem::Alu(AluOp::SDiv),
    Stem::Alu(AluOp::Or),
    Stem::Alu(AluOp::And),
    Stem::Alu(AluOp::Lsh),
    Stem::Alu(AluOp::Rsh),
    Stem::Alu(AluOp::Mod),
    Stem::Alu(AluOp::SMod),
    Stem::Alu(AluOp::Xor),
    Stem::Alu(AluOp::Arsh),
    Stem::Branch(JumpOp::Eq),
    Stem::Branch(JumpOp::Gt),
    Stem::Branch(JumpOp::Ge),
    Stem::Branch(JumpOp::Set),
    Stem::Branch(JumpOp::Ne),
    Stem::Branch(JumpOp::SGt),
    Stem::Branch(JumpOp::SGe),
    Stem::Branch(JumpOp::Lt),
    Stem::Branch(JumpOp::Le),
    Stem::Branch(JumpOp::SLt),
    Stem::Branch(JumpOp::SLe),
    Stem::Reorder(ByteOrder::Little),
    Stem::Reorder(ByteOrder::Big),
    Stem::Reorder(ByteOrder::Swap),
    Stem::Negate,
    Stem::Mov,
    Stem::SignExtend,
    Stem::Wide,
    Stem::Load,
    Stem::Store,
    Stem::StoreImmediate,
    Stem::Jump,
    Stem::JumpLong,
    Stem::Exit,
];

impl Named for Stem {
    ghost text = { stem_word };

    fn word(self) -> &'static str {
        match self {
            Stem::Alu(op) => op.word(),
            Stem::Negate => "neg",
            Stem::Mov => "mov",
            Stem::SignExtend => "sx",
            Stem::Reorder(order) => order.word(),
            Stem::Wide => "wide",
            Stem::Load => "ld",
            Stem::Store => "stx",
            Stem::StoreImmediate => "st",
            Stem::Jump => "ja",
            Stem::JumpLong => "jal",
            Stem::Branch(test) => test.word(),
            Stem::Exit => "exit",
        }
    }
}

impl Stem {
    /// Returns the instruction of this name, if the name begins with the stem's word.
    #[tactic(auto, unfolding(crate::specs::Reading::rest_after))]
    fn named_in(self, name: &[u8]) -> Option<Mnemonic>
        ensures { result ≡ option_and_then (suffixed_at self) (rest_after (stem_word self) name.now) }
    {
        self.with_suffix(name.strip_prefix(self.word().as_bytes())?)
    }

    /// Returns the instruction that the rest of a name makes with this stem, or `None` if the rest isn't one of its
    /// widths, sizes or kinds.
    fn with_suffix(self, text: &[u8]) -> Option<Mnemonic>
        ensures { result ≡ suffixed_at self text.now }
    {
        let alone = text.is_empty();
        match self {
            Stem::Alu(op) => Some(Mnemonic::Alu(op, with_word(text)?)),
            Stem::Negate => Some(Mnemonic::Negate(with_word(text)?)),
            Stem::Mov => Some(Mnemonic::Mov(with_word(text)?)),
            Stem::SignExtend => Some(Mnemonic::SignExtend(with_word(text)?)),
            Stem::Reorder(order) => Some(Mnemonic::Reorder(order, with_word(text)?)),
            Stem::Load => Some(Mnemonic::Load(with_word(text)?)),
            Stem::Store => Some(Mnemonic::Store(with_word(text)?)),
            Stem::StoreImmediate => Some(Mnemonic::StoreImmediate(with_word(text)?)),
            Stem::Branch(test) => Some(Mnemonic::Branch(test, with_word(text)?)),
            Stem::Wide if alone => Some(Mnemonic::Wide),
            Stem::Jump if alone => Some(Mnemonic::Jump),
            Stem::JumpLong if alone => Some(Mnemonic::JumpLong),
            Stem::Exit if alone => Some(Mnemonic::Exit),
            _ => None,
        }
    }
}

/// Returns the instruction of this name, made with the first of the stems that fits.
fn first_named(stems: &[Stem], name: &[u8]) -> Option<Mnemonic>
    ensures { result ≡ mnemonic_at stems.now name.now }
{
    for stem in stems {
        let mnemonic = stem.named_in(name);
        if mnemonic.is_some() {
            return mnemonic;
        }
    }
    None
}

impl Mnemonic {
    /// The instruction without its operands.
    pub(crate) fn of(insn: Insn) -> Mnemonic
        ensures { result ≡ mnemonic_of insn }
    {
        match insn {
            Insn::Alu { op, width, .. } => Mnemonic::Alu(op, width),
            Insn::Negate { width, .. } => Mnemonic::Negate(width),
            Insn::Mov { width, .. } => Mnemonic::Mov(width),
            Insn::SignExtend { extension, .. } => Mnemonic::SignExtend(extension),
            Insn::Reorder { order, size, .. } => Mnemonic::Reorder(order, size),
            Insn::Wide { .. } => Mnemonic::Wide,
            Insn::Load { kind, .. } => Mnemonic::Load(kind),
            Insn::Store {
                size,
                src: Operand::Register(_),
                ..
            } => Mnemonic::Store(size),
            Insn::Store {
                size,
                src: Operand::Immediate(_),
                ..
            } => Mnemonic::StoreImmediate(size),
            Insn::Jump { .. } => Mnemonic::Jump,
            Insn::JumpLong { .. } => Mnemonic::JumpLong,
            Insn::Branch { test, width, .. } => Mnemonic::Branch(test, width),
            Insn::Exit => Mnemonic::Exit,
        }
    }

    /// Returns the instruction of this name, or `None` if the bytes are no name.
    pub(crate) fn from_name(name: &[u8]) -> Option<Mnemonic>
        ensures { result ≡ mnemonic_at stems name.now }
    {
        first_named(&STEMS, name)
    }

    /// Returns the first part of the name: the operation.
    pub(crate) fn stem(self) -> Stem
        ensures { result ≡ stem_of self }
    {
        match self {
            Mnemonic::Alu(op, _) => Stem::Alu(op),
            Mnemonic::Negate(_) => Stem::Negate,
            Mnemonic::Mov(_) => Stem::Mov,
            Mnemonic::SignExtend(_) => Stem::SignExtend,
            Mnemonic::Reorder(order, _) => Stem::Reorder(order),
            Mnemonic::Wide => Stem::Wide,
            Mnemonic::Load(_) => Stem::Load,
            Mnemonic::Store(_) => Stem::Store,
            Mnemonic::StoreImmediate(_) => Stem::StoreImmediate,
            Mnemonic::Jump => Stem::Jump,
            Mnemonic::JumpLong => Stem::JumpLong,
            Mnemonic::Branch(test, _) => Stem::Branch(test),
            Mnemonic::Exit => Stem::Exit,
        }
    }

    /// Returns the last part of the name: its width, size or kind.
    pub(crate) fn suffix(self) -> &'static str
        ensures { result.now ≡ suffix_of self }
    {
        match self {
            Mnemonic::Alu(_, width)
            | Mnemonic::Negate(width)
            | Mnemonic::Mov(width)
            | Mnemonic::Branch(_, width) => width.word(),
            Mnemonic::SignExtend(extension) => extension.word(),
            Mnemonic::Reorder(_, size) => size.word(),
            Mnemonic::Load(kind) => kind.word(),
            Mnemonic::Store(size) | Mnemonic::StoreImmediate(size) => size.word(),
            Mnemonic::Wide | Mnemonic::Jump | Mnemonic::JumpLong | Mnemonic::Exit => "",
        }
    }
}
