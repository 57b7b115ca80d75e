//! Refines ranges by a condition on their words.
ghost use Rattle.bpf_model.specs.Words.{signed};
ghost use Rattle.bpf_model.specs.Conditions.{compare, holds};
ghost use Rattle.value_ranges.specs.In.{KeepsPairs};

use crate::bounds::Bounds;
use crate::comparisons::{
    at_least, both, equal, greater, signed_at_least, signed_greater, swapped,
};
use crate::exclusion::unequal;
use crate::range::Range;
use bpf_model::{Condition, Width};

/// Returns the ranges of the words for which the condition holds, or `None` if it holds for no pair.
///
/// At 32 bits the bounds count if all words of both ranges are below 2 to the 31: there low parts and words have the
/// same readings. Otherwise the ranges stay, and the answer is `None` only if both have one word.
#[inline(always)]
pub fn refine(condition: Condition, width: Width, a: Range, b: Range) -> Option<(Range, Range)>
    ensures { KeepsPairs (holds condition width) a b result }
{
    match width {
        Width::W64 => refine_words(condition, a, b),
        Width::W32 => {
            if a.umax < 0x8000_0000 && b.umax < 0x8000_0000 {
                refine_words(condition, a, b)
            } else {
                kept(condition, width, a, b)
            }
        }
    }
}

/// Compares whole words. Inlined into its caller: otherwise each call copies each range, of four words.
#[inline(always)]
fn refine_words(condition: Condition, a: Range, b: Range) -> Option<(Range, Range)>
    ensures { KeepsPairs (λ x y. compare condition x y (signed x) (signed y)) a b result }
{
    match condition {
        Condition::Eq => equal(a, b),
        Condition::Ne => unequal(a, b),
        Condition::Gt => greater(a, b),
        Condition::Ge => at_least(a, b),
        Condition::Lt => swapped(greater(b, a)),
        Condition::Le => swapped(at_least(b, a)),
        Condition::SGt => signed_greater(a, b),
        Condition::SGe => signed_at_least(a, b),
        Condition::SLt => swapped(signed_greater(b, a)),
        Condition::SLe => swapped(signed_at_least(b, a)),
        Condition::CommonBit | Condition::NoCommonBit => kept(condition, Width::W64, a, b),
    }
}

/// the ranges themselves, or none if each has one word and the condition is false
fn kept(condition: Condition, width: Width, a: Range, b: Range) -> Option<(Range, Range)>
    ensures { KeepsPairs (holds condition width) a b result }
{
    match (a.single_value(), b.single_value()) {
        (Some(x), Some(y)) if !condition.holds(width, x, y) => None,
        _ => both(Bounds::of(a), Bounds::of(b)),
    }
}
