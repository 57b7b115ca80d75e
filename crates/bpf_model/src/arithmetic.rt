//! Arithmetic on words, exactly as the definitions say. No call takes memory.
ghost use Rattle.std.specs.Prelude.{ℕ, ◌≡◌, ◌+◌, ◌-◌, ◌*◌, ◌%◌, ◌<◌, ◌^◌};
ghost use Rattle.std.specs.Int.{w8, w16, w32, cast_signed};
ghost use Rattle.bpf_model.specs.Arithmetic.{modulus, bits_of, sum_of, difference_of, product_of, quotient_of, remainder_of, signed_quotient, signed_remainder, shifted_left, shifted_right, signed_right, low_value, alu_value, negated, mov_value, extended, swap_modulus, reversed, reordered};

use crate::operations::{AluOp, ByteOrder, SignExtension, SwapWidth, Width};

impl Width {
    /// The greatest number of the width.
    pub fn greatest(self) -> u64
        ensures { result + 1 ≡ modulus self }
    {
        match self {
            Width::W32 => 0xffff_ffff,
            Width::W64 => u64::MAX,
        }
    }

    /// Returns the low part of a word, as a move gives it.
    pub fn low(self, n: u64) -> u64
        ensures value { result ≡ mov_value self n }
        ensures below { result < modulus self }
    {
        match self {
            Width::W32 => n % 0x1_0000_0000,
            Width::W64 => n,
        }
    }

    /// Returns how far a shift by `by` goes.
    pub fn shift_amount(self, by: u64) -> u32
        ensures value { result ≡ by % bits_of self }
        ensures bounded { result < 64 }
    {
        match self {
            Width::W32 => (by % 32) as u32,
            Width::W64 => (by % 64) as u32,
        }
    }

    /// Returns the negation, as NEG gives it.
    pub fn negate(self, n: u64) -> u64
        ensures { result ≡ negated self n }
    {
        self.subtract(0, self.low(n))
    }

    fn add(self, a: u64, b: u64) -> u64
        ensures { result ≡ sum_of self a b }
    {
        self.low(a.wrapping_add(b))
    }

    fn subtract(self, a: u64, b: u64) -> u64
        requires { b < modulus self }
        ensures { result ≡ difference_of self a b }
    {
        self.low(a.wrapping_sub(b))
    }

    fn multiply(self, a: u64, b: u64) -> u64
        ensures { result ≡ product_of self a b }
    {
        self.low(a.wrapping_mul(b))
    }

    fn divide_signed(self, a: u64, b: u64) -> u64
        requires first { a < modulus self }
        requires second { b < modulus self }
        ensures { result ≡ signed_quotient self a b }
    {
        match self {
            Width::W32 => divide_signed_words(a as u32, b as u32),
            Width::W64 => divide_signed_double_words(a, b),
        }
    }

    fn remainder_signed(self, a: u64, b: u64) -> u64
        requires first { a < modulus self }
        requires second { b < modulus self }
        ensures { result ≡ signed_remainder self a b }
    {
        match self {
            Width::W32 => remainder_signed_words(a as u32, b as u32),
            Width::W64 => remainder_signed_double_words(a, b),
        }
    }

    fn shift_left(self, a: u64, by: u64) -> u64
        ensures { result ≡ shifted_left self a by }
    {
        self.low(a << self.shift_amount(by))
    }

    fn shift_right(self, a: u64, by: u64) -> u64
        ensures { result ≡ shifted_right self a by }
    {
        a >> self.shift_amount(by)
    }

    fn shift_right_signed(self, a: u64, by: u64) -> u64
        requires { a < modulus self }
        ensures { result ≡ signed_right self a by }
    {
        let amount = self.shift_amount(by);
        match self {
            Width::W32 => u64::from(((a as u32).cast_signed() >> amount).cast_unsigned()),
            Width::W64 => (a.cast_signed() >> amount).cast_unsigned(),
        }
    }
}

fn divide(a: u64, b: u64) -> u64
    ensures { result ≡ quotient_of a b }
{
    if b == 0 { 0 } else { a / b }
}

fn remainder(a: u64, b: u64) -> u64
    ensures { result ≡ remainder_of a b }
{
    if b == 0 { a } else { a % b }
}

fn divide_signed_words(a: u32, b: u32) -> u64
    ensures { result ≡ signed_quotient Width.W32 a b }
{
    if b == 0 {
        0
    } else {
        u64::from(
            a.cast_signed()
                .wrapping_div(b.cast_signed())
                .cast_unsigned(),
        )
    }
}

fn divide_signed_double_words(a: u64, b: u64) -> u64
    ensures { result ≡ signed_quotient Width.W64 a b }
{
    if b == 0 {
        0
    } else {
        a.cast_signed()
            .wrapping_div(b.cast_signed())
            .cast_unsigned()
    }
}

fn remainder_signed_words(a: u32, b: u32) -> u64
    ensures { result ≡ signed_remainder Width.W32 a b }
{
    if b == 0 {
        u64::from(a)
    } else {
        u64::from(
            a.cast_signed()
                .wrapping_rem(b.cast_signed())
                .cast_unsigned(),
        )
    }
}

fn remainder_signed_double_words(a: u64, b: u64) -> u64
    ensures { result ≡ signed_remainder Width.W64 a b }
{
    if b == 0 {
        a
    } else {
        a.cast_signed()
            .wrapping_rem(b.cast_signed())
            .cast_unsigned()
    }
}

impl AluOp {
    /// on numbers of the width
    fn apply_low(self, width: Width, a: u64, b: u64) -> u64
        requires first { a < modulus width }
        requires second { b < modulus width }
        ensures { result ≡ low_value self width a b }
    {
        match self {
            AluOp::Add => width.add(a, b),
            AluOp::Sub => width.subtract(a, b),
            AluOp::Mul => width.multiply(a, b),
            AluOp::Div => divide(a, b),
            AluOp::SDiv => width.divide_signed(a, b),
            AluOp::Or => a | b,
            AluOp::And => a & b,
            AluOp::Lsh => width.shift_left(a, b),
            AluOp::Rsh => width.shift_right(a, b),
            AluOp::Mod => remainder(a, b),
            AluOp::SMod => width.remainder_signed(a, b),
            AluOp::Xor => a ^ b,
            AluOp::Arsh => width.shift_right_signed(a, b),
        }
    }

    /// Returns the result of the operation on two words, as RFC 9669 (4.1) says; at 32 bits, on their low parts.
    pub fn apply(self, width: Width, a: u64, b: u64) -> u64
        ensures { result ≡ alu_value self width a b }
    {
        self.apply_low(width, width.low(a), width.low(b))
    }
}

/// the low 8, 16 and 32 bits as two's complement numbers
fn signed_byte(n: u64) -> i8
    ensures { result ≡ cast_signed w8 (n % 2 ^ 8) }
{
    ((n % 0x100) as u8).cast_signed()
}

fn signed_half_word(n: u64) -> i16
    ensures { result ≡ cast_signed w16 (n % 2 ^ 16) }
{
    ((n % 0x1_0000) as u16).cast_signed()
}

fn signed_word(n: u64) -> i32
    ensures { result ≡ cast_signed w32 (n % 2 ^ 32) }
{
    ((n % 0x1_0000_0000) as u32).cast_signed()
}

impl SignExtension {
    /// Sign-extends the low bits; at 32 bits the upper 32 are zero.
    #[tactic(auto, unfolding(crate::specs::Arithmetic::extended))]
    pub fn apply(self, n: u64) -> u64
        ensures { result ≡ extended self n }
    {
        match self {
            SignExtension::From8To32 => u64::from(i32::from(signed_byte(n)).cast_unsigned()),
            SignExtension::From16To32 => u64::from(i32::from(signed_half_word(n)).cast_unsigned()),
            SignExtension::From8To64 => i64::from(signed_byte(n)).cast_unsigned(),
            SignExtension::From16To64 => i64::from(signed_half_word(n)).cast_unsigned(),
            SignExtension::From32To64 => i64::from(signed_word(n)).cast_unsigned(),
        }
    }
}

impl SwapWidth {
    fn low(self, n: u64) -> u64
        ensures { result ≡ n % swap_modulus self }
    {
        match self {
            SwapWidth::S16 => n % 0x1_0000,
            SwapWidth::S32 => n % 0x1_0000_0000,
            SwapWidth::S64 => n,
        }
    }

    #[tactic(auto, unfolding(crate::specs::Arithmetic::reversed))]
    fn reverse(self, n: u64) -> u64
        ensures { result ≡ reversed self (n % swap_modulus self) }
    {
        match self {
            SwapWidth::S16 => u64::from(((n % 0x1_0000) as u16).swap_bytes()),
            SwapWidth::S32 => u64::from(((n % 0x1_0000_0000) as u32).swap_bytes()),
            SwapWidth::S64 => n.swap_bytes(),
        }
    }
}

impl ByteOrder {
    /// Returns the low bits of this width in the given byte order; the other bits are zero.
    pub fn apply(self, size: SwapWidth, n: u64) -> u64
        ensures { result ≡ reordered self size n }
    {
        match self {
            ByteOrder::Little => size.low(n),
            ByteOrder::Big | ByteOrder::Swap => size.reverse(n),
        }
    }
}
