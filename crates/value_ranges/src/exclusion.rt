//! Refines a range if its word is not another one.
ghost use Rattle.std.specs.Prelude.{ℕ, ◌≢◌, ◌≤◌, ◌≤ℤ◌};
ghost use Rattle.bpf_model.specs.Words.{IsWord, signed};
ghost use Rattle.value_ranges.specs.In.{IsIn, IsInSome, AreInSome};
ghost use Rattle.value_ranges.specs.Edges.{IsFrom, IsUpTo, IsSignedFrom, IsSignedUpTo};

use crate::bounds::Bounds;
use crate::comparisons::pair;
use crate::range::Range;

/// Refines if the words differ: if the second range has one word, it is taken off the edges of the first.
pub fn unequal(a: Range, b: Range) -> Option<(Range, Range)>
    ensures { (x y : ℕ) → IsIn x a → IsIn y b → x ≢ y → AreInSome x y result }
{
    let first = match b.single_value() {
        Some(word) => without(a, word),
        None => Bounds::of(a).tighten(),
    };
    pair(first, Bounds::of(b).tighten())
}

fn without(a: Range, word: u64) -> Option<Range>
    ensures { (x : ℕ) → IsIn x a → x ≢ word → IsInSome x result }
{
    let Some(umin) = raised(a.umin, word) else {
        return None;
    };
    let Some(umax) = lowered(a.umax, word) else {
        return None;
    };
    let reading = word.cast_signed();
    let Some(smin) = signed_raised(a.smin, reading) else {
        return None;
    };
    let Some(smax) = signed_lowered(a.smax, reading) else {
        return None;
    };
    let bounds = Bounds {
        umin,
        umax,
        smin,
        smax,
    };
    bounds.tighten()
}

/// a minimum without this word, if a greater one exists
fn raised(bound: u64, word: u64) -> Option<u64>
    ensures { (x : ℕ) → IsWord x → bound ≤ x → x ≢ word → IsFrom x result }
{
    if bound == word {
        word.checked_add(1)
    } else {
        Some(bound)
    }
}

fn lowered(bound: u64, word: u64) -> Option<u64>
    ensures { (x : ℕ) → IsWord x → x ≤ bound → x ≢ word → IsUpTo x result }
{
    if bound == word {
        word.checked_sub(1)
    } else {
        Some(bound)
    }
}

fn signed_raised(bound: i64, reading: i64) -> Option<i64>
    ensures { (x : ℕ) → IsWord x → bound ≤ℤ signed x → signed x ≢ reading → IsSignedFrom x result }
{
    if bound == reading {
        reading.checked_add(1)
    } else {
        Some(bound)
    }
}

fn signed_lowered(bound: i64, reading: i64) -> Option<i64>
    ensures { (x : ℕ) → IsWord x → signed x ≤ℤ bound → signed x ≢ reading → IsSignedUpTo x result }
{
    if bound == reading {
        reading.checked_sub(1)
    } else {
        Some(bound)
    }
}
