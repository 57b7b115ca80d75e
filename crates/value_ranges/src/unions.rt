//! The words of either of two ranges.
ghost use Rattle.std.specs.Prelude.{ℕ, ◌≡◌, min, max};
ghost use Rattle.std.specs.Int.{int_min, int_max};
ghost use Rattle.value_ranges.specs.In.{IsIn};

use crate::range::Range;

/// Returns a range of the words of either: the lesser minima and the greater maxima.
pub fn join(a: Range, b: Range) -> Range
    ensures first { (w : ℕ) → IsIn w a → IsIn w result }
    ensures second { (w : ℕ) → IsIn w b → IsIn w result }
    ensures unsigned { (result.umin ≡ min a.umin b.umin) × (result.umax ≡ max a.umax b.umax) }
    ensures signed { (result.smin ≡ int_min a.smin b.smin) × (result.smax ≡ int_max a.smax b.smax) }
{
    Range {
        umin: a.umin.min(b.umin),
        umax: a.umax.max(b.umax),
        smin: a.smin.min(b.smin),
        smax: a.smax.max(b.smax),
    }
}
