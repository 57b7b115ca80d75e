//! The words that names of instructions are made of.
ghost use Rattle.std.specs.Prelude.{◌≡◌, ℕ, List};
ghost use Rattle.bpf_assembler.specs.Names.{alu_word, width_word, order_word, swap_word, extension_word, size_word, kind_word, test_word, widths, swap_widths, extensions, sizes, kinds};
ghost use Rattle.bpf_assembler.specs.Reading.{named_at};

use bpf_model::{AccessSize, AluOp, ByteOrder, JumpOp, LoadKind, SignExtension, SwapWidth, Width};

/// A thing with a word of its own in names of instructions.
pub(crate) trait Named: Copy {
    ghost text: { Self → List ℕ };

    /// Returns its word.
    fn word(self) -> &'static str
        ensures { result.now ≡ text self };
}

/// A thing that can be found by its word.
pub(crate) trait Listed: Named {
    ghost values: { List Self };

    /// Returns all of them.
    fn all() -> &'static [Self]
        ensures { result.now ≡ values };
}

/// Returns the item with this word, or `None` if no item has it.
pub(crate) fn with_word<T: Listed + 'static>(text: &[u8]) -> Option<T>
    ensures { result ≡ named_at T.text T.values text.now }
{
    for item in T::all() {
        if item.word().as_bytes() == text {
            return Some(*item);
        }
    }
    None
}

impl Named for AluOp {
    ghost text = { alu_word };

    fn word(self) -> &'static str {
        match self {
            AluOp::Add => "add",
            AluOp::Sub => "sub",
            AluOp::Mul => "mul",
            AluOp::Div => "div",
            AluOp::SDiv => "sdiv",
            AluOp::Or => "or",
            AluOp::And => "and",
            AluOp::Lsh => "lsh",
            AluOp::Rsh => "rsh",
            AluOp::Mod => "mod",
            AluOp::SMod => "smod",
            AluOp::Xor => "xor",
            AluOp::Arsh => "arsh",
        }
    }
}

impl Named for Width {
    ghost text = { width_word };

    fn word(self) -> &'static str {
        match self {
            Width::W32 => "32",
            Width::W64 => "64",
        }
    }
}

impl Named for SignExtension {
    ghost text = { extension_word };

    fn word(self) -> &'static str {
        match self {
            SignExtension::From8To32 => "8to32",
            SignExtension::From16To32 => "16to32",
            SignExtension::From8To64 => "8to64",
            SignExtension::From16To64 => "16to64",
            SignExtension::From32To64 => "32to64",
        }
    }
}

impl Named for ByteOrder {
    ghost text = { order_word };

    fn word(self) -> &'static str {
        match self {
            ByteOrder::Little => "le",
            ByteOrder::Big => "be",
            ByteOrder::Swap => "swap",
        }
    }
}

impl Named for SwapWidth {
    ghost text = { swap_word };

    fn word(self) -> &'static str {
        match self {
            SwapWidth::S16 => "16",
            SwapWidth::S32 => "32",
            SwapWidth::S64 => "64",
        }
    }
}

impl Named for AccessSize {
    ghost text = { size_word };

    fn word(self) -> &'static str {
        match self {
            AccessSize::Byte => "b",
            AccessSize::HalfWord => "h",
            AccessSize::Word => "w",
            AccessSize::DoubleWord => "d",
        }
    }
}

impl Named for LoadKind {
    ghost text = { kind_word };

    fn word(self) -> &'static str {
        match self {
            LoadKind::Byte => "b",
            LoadKind::HalfWord => "h",
            LoadKind::Word => "w",
            LoadKind::DoubleWord => "d",
            LoadKind::SignedByte => "sb",
            LoadKind::SignedHalfWord => "sh",
            LoadKind::SignedWord => "sw",
        }
    }
}

impl Named for JumpOp {
    ghost text = { test_word };

    fn word(self) -> &'static str {
        match self {
            JumpOp::Eq => "jeq",
            JumpOp::Gt => "jgt",
            JumpOp::Ge => "jge",
            JumpOp::Set => "jset",
            JumpOp::Ne => "jne",
            JumpOp::SGt => "jsgt",
            JumpOp::SGe => "jsge",
            JumpOp::Lt => "jlt",
            JumpOp::Le => "jle",
            JumpOp::SLt => "jslt",
            JumpOp::SLe => "jsle",
        }
    }
}

impl Listed for Width {
    ghost values = { widths };

    fn all() -> &'static [Width] {
        &[Width::W32, Width::W64]
    }
}

impl Listed for SignExtension {
    ghost values = { extensions };

    fn all() -> &'static [SignExtension] {
        &[
            SignExtension::From8To32,
            SignExtension::From16To32,
            SignExtension::From8To64,
            SignExtension::From16To64,
            SignExtension::From32To64,
        ]
    }
}

impl Listed for SwapWidth {
    ghost values = { swap_widths };

    fn all() -> &'static [SwapWidth] {
        &[SwapWidth::S16, SwapWidth::S32, SwapWidth::S64]
    }
}

impl Listed for AccessSize {
    ghost values = { sizes };

    fn all() -> &'static [AccessSize] {
        &[
            AccessSize::Byte,
            AccessSize::HalfWord,
            AccessSize::Word,
            AccessSize::DoubleWord,
        ]
    }
}

impl Listed for LoadKind {
    ghost values = { kinds };

    fn all() -> &'static [LoadKind] {
        &[
            LoadKind::Byte,
            LoadKind::HalfWord,
            LoadKind::Word,
            LoadKind::DoubleWord,
            LoadKind::SignedByte,
            LoadKind::SignedHalfWord,
            LoadKind::SignedWord,
        ]
    }
}
