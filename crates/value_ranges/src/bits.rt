//! Ranges of AND, OR and XOR.
ghost use Rattle.std.specs.Prelude.{ℕ, ◌≡◌, ◌+◌, ◌<◌, ◌≤◌, ◌^◌, bit_and, bit_or, bit_xor};
ghost use Rattle.value_ranges.specs.In.{IsIn, IsSignedUpToMask};

use crate::range::Range;

/// Returns the range of `a & b`.
pub fn and(a: Range, b: Range) -> Range
    ensures holds { (x y : ℕ) → IsIn x a → IsIn y b → IsIn (bit_and x y) result }
    ensures mask { b.umax < 2 ^ 63 → IsSignedUpToMask result b.umax }
{
    Range::unsigned(0, a.umax.min(b.umax))
}

/// Returns the range of `a | b`.
pub fn or(a: Range, b: Range) -> Range
    ensures { (x y : ℕ) → IsIn x a → IsIn y b → IsIn (bit_or x y) result }
{
    Range::unsigned(a.umin.max(b.umin), ones_over(a.umax.max(b.umax)))
}

/// Returns the range of `a ^ b`.
pub fn xor(a: Range, b: Range) -> Range
    ensures { (x y : ℕ) → IsIn x a → IsIn y b → IsIn (bit_xor x y) result }
{
    Range::unsigned(0, ones_over(a.umax.max(b.umax)))
}

/// the least number of the form 2^k - 1 that is at least n
fn ones_over(n: u64) -> u64
    ensures ones { (k : ℕ) × (result + 1 ≡ 2 ^ k) }
    ensures above { n ≤ result }
{
    if n == 0 {
        0
    } else {
        u64::MAX >> n.leading_zeros()
    }
}
