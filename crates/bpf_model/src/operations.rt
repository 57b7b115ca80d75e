//! Operations and their widths.
ghost use Rattle.std.specs.Prelude.{ℕ, ◌≡◌, ◌%◌, ◌≤◌, ◌^◌};
ghost use Rattle.bpf_model.specs.Arithmetic.{swap_bits, swap_modulus, extension_width, extension_bits, extended};

/// The width at which an instruction computes.
#[derive(Clone, Copy, Debug, PartialEq, Eq)]
pub enum Width {
    /// The low 32 bits; the upper 32 of the result are zero.
    W32,
    /// All 64 bits of a register.
    W64,
}

/// An operation on two words.
#[derive(Clone, Copy, Debug, PartialEq, Eq)]
pub enum AluOp {
    Add,
    Sub,
    Mul,
    /// The unsigned quotient; 0 if the divisor is 0.
    Div,
    /// The signed quotient, truncated toward zero; 0 if the divisor is 0.
    SDiv,
    Or,
    And,
    /// Shifts left, by the amount modulo the width's bits.
    Lsh,
    /// Shifts right and fills with zeros.
    Rsh,
    /// The unsigned remainder; the dividend if the divisor is 0.
    Mod,
    /// The signed remainder, with the dividend's sign; the dividend if the divisor is 0.
    SMod,
    Xor,
    /// Shifts right and fills with the sign.
    Arsh,
}

/// How many low bits of a word are sign-extended, and to which width.
#[derive(Clone, Copy, Debug, PartialEq, Eq)]
pub enum SignExtension {
    From8To32,
    From16To32,
    From8To64,
    From16To64,
    From32To64,
}

impl SignExtension {
    /// The width of the result.
    pub fn width(self) -> Width
        ensures { result ≡ extension_width self }
    {
        match self {
            SignExtension::From8To32 | SignExtension::From16To32 => Width::W32,
            SignExtension::From8To64 | SignExtension::From16To64 | SignExtension::From32To64 =>
                Width::W64,
        }
    }

    /// Returns how many low bits are read.
    pub fn bits(self) -> u32
        ensures value { result ≡ extension_bits self }
        ensures read { (x : ℕ) → extended self (x % 2 ^ result) ≡ extended self x }
        ensures most { result ≤ 32 }
    {
        match self {
            SignExtension::From8To32 | SignExtension::From8To64 => 8,
            SignExtension::From16To32 | SignExtension::From16To64 => 16,
            SignExtension::From32To64 => 32,
        }
    }
}

/// How the order of a word's low bytes changes. Words are little-endian.
#[derive(Clone, Copy, Debug, PartialEq, Eq)]
pub enum ByteOrder {
    /// To little-endian: the bytes stay.
    Little,
    /// To big-endian: the bytes are reversed.
    Big,
    /// Always reverses the bytes.
    Swap,
}

/// How many low bits of a word a change of byte order keeps; the others become zero.
#[derive(Clone, Copy, Debug, PartialEq, Eq)]
pub enum SwapWidth {
    S16,
    S32,
    S64,
}

impl SwapWidth {
    /// The number of bits.
    pub fn bits(self) -> u32
        ensures value { result ≡ swap_bits self }
        ensures power { swap_modulus self ≡ 2 ^ result }
    {
        match self {
            SwapWidth::S16 => 16,
            SwapWidth::S32 => 32,
            SwapWidth::S64 => 64,
        }
    }
}
