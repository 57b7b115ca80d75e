//! Ranges of shifts.
ghost use Rattle.std.specs.Prelude.{ℕ, ◌<◌};
ghost use Rattle.bpf_model.specs.Arithmetic.{modulus, shifted_left, shifted_right, signed_right};
ghost use Rattle.value_ranges.specs.In.{IsIn};

use crate::range::Range;
use bpf_model::Width;

/// Returns the range of left shifts.
pub fn shift_left(width: Width, a: Range, b: Range) -> Range
    ensures { (x y : ℕ) → IsIn x a → IsIn y b → IsIn (shifted_left width x y) result }
{
    match b.single_value() {
        None => Range::any(width),
        Some(by) => {
            let factor = 1u64 << width.shift_amount(by);
            match a.umax.checked_mul(factor) {
                Some(high) if high <= width.greatest() => Range::unsigned(a.umin * factor, high),
                _ => Range::any(width),
            }
        }
    }
}

/// Returns the range of right shifts that fill with zeros.
pub fn shift_right(width: Width, a: Range, b: Range) -> Range
    ensures { (x y : ℕ) → IsIn x a → IsIn y b → IsIn (shifted_right width x y) result }
{
    match b.single_value() {
        None => Range::unsigned(0, a.umax),
        Some(by) => {
            let amount = width.shift_amount(by);
            Range::unsigned(a.umin >> amount, a.umax >> amount)
        }
    }
}

/// Returns the range of right shifts that fill with the sign.
pub fn shift_right_signed(width: Width, a: Range, b: Range) -> Range
    requires { a.umax < modulus width }
    ensures { (x y : ℕ) → IsIn x a → IsIn y b → IsIn (signed_right width x y) result }
{
    match width {
        Width::W64 => shift_right_signed_double_words(a, b),
        Width::W32 => {
            if a.umax < 0x8000_0000 {
                shift_right(width, a, b)
            } else {
                Range::any(width)
            }
        }
    }
}

fn shift_right_signed_double_words(a: Range, b: Range) -> Range
    ensures { (x y : ℕ) → IsIn x a → IsIn y b → IsIn (signed_right Width.W64 x y) result }
{
    match b.single_value() {
        None => Range::signed(a.smin.min(0), a.smax.max(-1)),
        Some(by) => {
            let amount = Width::W64.shift_amount(by);
            Range::signed(a.smin >> amount, a.smax >> amount)
        }
    }
}
