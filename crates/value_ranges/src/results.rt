//! Ranges of the results of operations.
ghost use Rattle.std.specs.Prelude.{ℕ, ◌≡◌, ◌<◌, ◌^◌};
ghost use Rattle.bpf_model.specs.Arithmetic.{modulus, low_value, alu_value, negated};
ghost use Rattle.value_ranges.specs.In.{IsIn, IsSingle, IsSignedUpToMask};

use crate::bits::{and, or, xor};
use crate::products::{divide, multiply, remainder};
use crate::range::Range;
use crate::shifts::{shift_left, shift_right, shift_right_signed};
use crate::sums::{add, subtract};
use bpf_model::{AluOp, Width};

/// Returns the range of the operation's results on words of these ranges. If both have one word, so has the result.
///
/// The bounds come from the unsigned operands if the greatest result does not wrap round. The signed ones count only at
/// 64 bits, for sums, differences and signed shifts. Signed quotients and remainders may be any number.
pub fn alu(op: AluOp, width: Width, a: Range, b: Range) -> Range
    ensures holds { (x y : ℕ) → IsIn x a → IsIn y b → IsIn (alu_value op width x y) result }
    ensures single { (x y : ℕ) → IsSingle a x → IsSingle b y → IsSingle result (alu_value op width x y) }
    ensures mask { op ≡ AluOp.And → width ≡ Width.W64 → b.umax < 2 ^ 63 → IsSignedUpToMask result b.umax }
{
    match (a.single_value(), b.single_value()) {
        (Some(x), Some(y)) => Range::single(op.apply(width, x, y)),
        _ => alu_low(op, width, a.low(width), b.low(width)),
    }
}

/// on numbers of the width, if not both have one word
fn alu_low(op: AluOp, width: Width, a: Range, b: Range) -> Range
    requires first { a.umax < modulus width }
    requires second { b.umax < modulus width }
    ensures holds { (x y : ℕ) → IsIn x a → IsIn y b → IsIn (low_value op width x y) result }
    ensures mask { op ≡ AluOp.And → b.umax < 2 ^ 63 → IsSignedUpToMask result b.umax }
{
    match op {
        AluOp::Add => add(width, a, b),
        AluOp::Sub => subtract(width, a, b),
        AluOp::Mul => multiply(width, a, b),
        AluOp::Div => divide(a, b),
        AluOp::SDiv => Range::any(width),
        AluOp::Or => or(a, b),
        AluOp::And => and(a, b),
        AluOp::Lsh => shift_left(width, a, b),
        AluOp::Rsh => shift_right(width, a, b),
        AluOp::Mod => remainder(a, b),
        AluOp::SMod => Range::any(width),
        AluOp::Xor => xor(a, b),
        AluOp::Arsh => shift_right_signed(width, a, b),
    }
}

/// Returns the range of the negated words.
pub fn negate(width: Width, a: Range) -> Range
    ensures holds { (x : ℕ) → IsIn x a → IsIn (negated width x) result }
    ensures single { (x : ℕ) → IsSingle a x → IsSingle result (negated width x) }
{
    match a.single_value() {
        Some(word) => Range::single(width.negate(word)),
        None => subtract(width, Range::single(0), a.low(width)),
    }
}
