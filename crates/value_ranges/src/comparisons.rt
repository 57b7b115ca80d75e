//! Refines ranges by comparisons of their words.
ghost use Rattle.std.specs.Prelude.{ℕ, ◌≡◌, ◌<◌, ◌≤◌, ◌≤ℤ◌, ◌<ℤ◌};
ghost use Rattle.bpf_model.specs.Words.{signed};
ghost use Rattle.value_ranges.specs.In.{IsIn, IsWithin, IsInSome, AreInSome};

use crate::bounds::Bounds;
use crate::range::Range;

/// Returns both ranges, or `None` if one of them is missing.
pub fn pair(a: Option<Range>, b: Option<Range>) -> Option<(Range, Range)>
    ensures { (x y : ℕ) → IsInSome x a → IsInSome y b → AreInSome x y result }
{
    match (a, b) {
        (Some(first), Some(second)) => Some((first, second)),
        _ => None,
    }
}

/// Returns the ranges of these bounds, or `None` if one is empty.
pub fn both(a: Bounds, b: Bounds) -> Option<(Range, Range)>
    ensures { (x y : ℕ) → IsWithin x a → IsWithin y b → AreInSome x y result }
{
    pair(a.tighten(), b.tighten())
}

/// Swaps the pair.
pub fn swapped(pair: Option<(Range, Range)>) -> Option<(Range, Range)>
    ensures { (x y : ℕ) → AreInSome x y pair → AreInSome y x result }
{
    match pair {
        Some((a, b)) => Some((b, a)),
        None => None,
    }
}

/// Refines if both words are equal.
pub fn equal(a: Range, b: Range) -> Option<(Range, Range)>
    ensures { (x y : ℕ) → IsIn x a → IsIn y b → x ≡ y → AreInSome x y result }
{
    let common = Bounds {
        umin: a.umin.max(b.umin),
        umax: a.umax.min(b.umax),
        smin: a.smin.max(b.smin),
        smax: a.smax.min(b.smax),
    };
    both(common, common)
}

/// Refines if the first word is greater.
pub fn greater(a: Range, b: Range) -> Option<(Range, Range)>
    ensures { (x y : ℕ) → IsIn x a → IsIn y b → y < x → AreInSome x y result }
{
    if b.umin == u64::MAX || a.umax == 0 {
        return None;
    }
    let first = Bounds {
        umin: a.umin.max(b.umin + 1),
        ..Bounds::of(a)
    };
    let second = Bounds {
        umax: b.umax.min(a.umax - 1),
        ..Bounds::of(b)
    };
    both(first, second)
}

/// Refines if the first word is at least the second.
pub fn at_least(a: Range, b: Range) -> Option<(Range, Range)>
    ensures { (x y : ℕ) → IsIn x a → IsIn y b → y ≤ x → AreInSome x y result }
{
    let first = Bounds {
        umin: a.umin.max(b.umin),
        ..Bounds::of(a)
    };
    let second = Bounds {
        umax: b.umax.min(a.umax),
        ..Bounds::of(b)
    };
    both(first, second)
}

/// Refines if the signed reading of the first word is greater.
pub fn signed_greater(a: Range, b: Range) -> Option<(Range, Range)>
    ensures { (x y : ℕ) → IsIn x a → IsIn y b → signed y <ℤ signed x → AreInSome x y result }
{
    if b.smin == i64::MAX || a.smax == i64::MIN {
        return None;
    }
    let first = Bounds {
        smin: a.smin.max(b.smin + 1),
        ..Bounds::of(a)
    };
    let second = Bounds {
        smax: b.smax.min(a.smax - 1),
        ..Bounds::of(b)
    };
    both(first, second)
}

/// Refines if the signed reading of the first word is at least the second's.
pub fn signed_at_least(a: Range, b: Range) -> Option<(Range, Range)>
    ensures { (x y : ℕ) → IsIn x a → IsIn y b → signed y ≤ℤ signed x → AreInSome x y result }
{
    let first = Bounds {
        smin: a.smin.max(b.smin),
        ..Bounds::of(a)
    };
    let second = Bounds {
        smax: b.smax.min(a.smax),
        ..Bounds::of(b)
    };
    both(first, second)
}
