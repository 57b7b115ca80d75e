//! Ranges of sums and differences.
ghost use Rattle.std.specs.Prelude.{ℕ, ◌+◌, ◌-◌, ◌%◌, ◌<◌, ◌^◌};
ghost use Rattle.bpf_model.specs.Words.{IsWord};
ghost use Rattle.bpf_model.specs.Arithmetic.{modulus, sum_of, difference_of};
ghost use Rattle.value_ranges.specs.In.{IsIn, IsBetween, IsSignedBetween};

use crate::bounds::Bounds;
use crate::range::Range;
use bpf_model::Width;

/// The range of sums.
pub fn add(width: Width, a: Range, b: Range) -> Range
    ensures { (x y : ℕ) → IsIn x a → IsIn y b → IsIn (sum_of width x y) result }
{
    of_bounds(width, unsigned_sums(width, a, b), signed_sums(width, a, b))
}

/// The range of differences.
pub fn subtract(width: Width, a: Range, b: Range) -> Range
    requires first { a.umax < modulus width }
    requires second { b.umax < modulus width }
    ensures { (x y : ℕ) → IsIn x a → IsIn y b → IsIn (difference_of width x y) result }
{
    of_bounds(
        width,
        unsigned_differences(width, a, b),
        signed_differences(width, a, b),
    )
}

/// the range of these bounds, or all numbers of the width if they hold no word
fn of_bounds(width: Width, unsigned: (u64, u64), signed: (i64, i64)) -> Range
    ensures { (w : ℕ) → w < modulus width → IsBetween w unsigned → IsSignedBetween w signed → IsIn w result }
{
    let bounds = Bounds {
        umin: unsigned.0,
        umax: unsigned.1,
        smin: signed.0,
        smax: signed.1,
    };
    match bounds.tighten() {
        Some(range) => range,
        None => Range::any(width),
    }
}

/// the greatest sum decides: if it wraps round, any number of the width may come out
fn unsigned_sums(width: Width, a: Range, b: Range) -> (u64, u64)
    ensures { (x y : ℕ) → IsIn x a → IsIn y b → IsBetween (sum_of width x y) result }
{
    let greatest = width.greatest();
    match a.umax.checked_add(b.umax) {
        Some(high) if high <= greatest => (a.umin + b.umin, high),
        _ => (0, greatest),
    }
}

fn unsigned_differences(width: Width, a: Range, b: Range) -> (u64, u64)
    requires first { a.umax < modulus width }
    requires second { b.umax < modulus width }
    ensures { (x y : ℕ) → IsIn x a → IsIn y b → IsBetween (difference_of width x y) result }
{
    if a.umin >= b.umax {
        (a.umin - b.umax, a.umax - b.umin)
    } else {
        (0, width.greatest())
    }
}

fn signed_sums(width: Width, a: Range, b: Range) -> (i64, i64)
    ensures { (x y : ℕ) → IsIn x a → IsIn y b → IsSignedBetween (sum_of width x y) result }
{
    match width {
        Width::W32 => all_signed(),
        Width::W64 => signed_double_word_sums(a, b),
    }
}

fn signed_differences(width: Width, a: Range, b: Range) -> (i64, i64)
    ensures { (x y : ℕ) → IsIn x a → IsIn y b → IsSignedBetween (difference_of width x y) result }
{
    match width {
        Width::W32 => all_signed(),
        Width::W64 => signed_double_word_differences(a, b),
    }
}

fn signed_double_word_sums(a: Range, b: Range) -> (i64, i64)
    ensures { (x y : ℕ) → IsIn x a → IsIn y b → IsSignedBetween ((x + y) % 2 ^ 64) result }
{
    match (a.smin.checked_add(b.smin), a.smax.checked_add(b.smax)) {
        (Some(low), Some(high)) => (low, high),
        _ => all_signed(),
    }
}

fn signed_double_word_differences(a: Range, b: Range) -> (i64, i64)
    ensures { (x y : ℕ) → IsIn x a → IsIn y b → IsSignedBetween ((x + (2 ^ 64 - y)) % 2 ^ 64) result }
{
    match (a.smin.checked_sub(b.smax), a.smax.checked_sub(b.smin)) {
        (Some(low), Some(high)) => (low, high),
        _ => all_signed(),
    }
}

fn all_signed() -> (i64, i64)
    ensures { (w : ℕ) → IsWord w → IsSignedBetween w result }
{
    (i64::MIN, i64::MAX)
}
