//! Ranges of products, quotients and remainders.
ghost use Rattle.std.specs.Prelude.{ℕ};
ghost use Rattle.bpf_model.specs.Arithmetic.{product_of, quotient_of, remainder_of};
ghost use Rattle.value_ranges.specs.In.{IsIn};

use crate::range::Range;
use bpf_model::Width;

/// The range of products.
pub fn multiply(width: Width, a: Range, b: Range) -> Range
    ensures { (x y : ℕ) → IsIn x a → IsIn y b → IsIn (product_of width x y) result }
{
    match a.umax.checked_mul(b.umax) {
        Some(high) if high <= width.greatest() => Range::unsigned(a.umin * b.umin, high),
        _ => Range::any(width),
    }
}

/// The range of unsigned quotients.
pub fn divide(a: Range, b: Range) -> Range
    ensures { (x y : ℕ) → IsIn x a → IsIn y b → IsIn (quotient_of x y) result }
{
    if b.umin >= 1 {
        Range::unsigned(a.umin / b.umax, a.umax / b.umin)
    } else {
        Range::unsigned(0, a.umax)
    }
}

/// The range of unsigned remainders.
pub fn remainder(a: Range, b: Range) -> Range
    ensures { (x y : ℕ) → IsIn x a → IsIn y b → IsIn (remainder_of x y) result }
{
    if b.umin >= 1 {
        Range::unsigned(0, a.umax.min(b.umax - 1))
    } else {
        Range::unsigned(0, a.umax)
    }
}
