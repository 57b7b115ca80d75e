//! Ranges of moved, extended and reordered words.
ghost use Rattle.std.specs.Prelude.{ℕ, ◌≡◌, ◌+◌, ◌-◌, ◌≤◌, ◌^◌};
ghost use Rattle.bpf_model.specs.Arithmetic.{mov_value, extended, extension_bits, reordered, swap_modulus};
ghost use Rattle.value_ranges.specs.In.{IsIn, IsSingle};

use crate::range::Range;
use bpf_model::{ByteOrder, SignExtension, SwapWidth, Width};

/// Returns the range of moved words: the low parts, at 32 bits.
pub fn mov(width: Width, a: Range) -> Range
    ensures holds { (x : ℕ) → IsIn x a → IsIn (mov_value width x) result }
    ensures single { (x : ℕ) → IsSingle a x → IsSingle result (mov_value width x) }
{
    match a.single_value() {
        Some(word) => Range::single(width.low(word)),
        None => a.low(width),
    }
}

/// Returns the range of words with the sign of their low bits extended.
pub fn sign_extend(extension: SignExtension, a: Range) -> Range
    ensures holds { (x : ℕ) → IsIn x a → IsIn (extended extension x) result }
    ensures single { (x : ℕ) → IsSingle a x → IsSingle result (extended extension x) }
{
    match a.single_value() {
        Some(word) => Range::single(extension.apply(word)),
        None => extend_low(extension, a.low(extension.width())),
    }
}

fn extend_low(extension: SignExtension, a: Range) -> Range
    ensures { (x : ℕ) → IsIn x a → IsIn (extended extension x) result }
{
    let half = sign_bit(extension);
    if a.umax < u64::from(half) {
        a
    } else {
        match extension.width() {
            Width::W32 => Range::any(Width::W32),
            Width::W64 => Range::signed(-i64::from(half), i64::from(half) - 1),
        }
    }
}

/// the highest bit that is read
fn sign_bit(extension: SignExtension) -> u32
    ensures value { result ≡ 2 ^ (extension_bits extension - 1) }
    ensures least { 1 ≤ result }
    ensures most { result ≤ 2 ^ 31 }
{
    1 << (extension.bits() - 1)
}

/// Returns the range of words whose low bits are put into the given byte order, with zeros elsewhere.
pub fn reorder(order: ByteOrder, size: SwapWidth, a: Range) -> Range
    ensures holds { (x : ℕ) → IsIn x a → IsIn (reordered order size x) result }
    ensures single { (x : ℕ) → IsSingle a x → IsSingle result (reordered order size x) }
{
    match a.single_value() {
        Some(word) => Range::single(order.apply(size, word)),
        None => reorder_many(order, size, a),
    }
}

fn reorder_many(order: ByteOrder, size: SwapWidth, a: Range) -> Range
    ensures { (x : ℕ) → IsIn x a → IsIn (reordered order size x) result }
{
    let greatest = greatest_of(size);
    match order {
        ByteOrder::Little if a.umax <= greatest => a,
        _ => Range::unsigned(0, greatest),
    }
}

fn greatest_of(size: SwapWidth) -> u64
    ensures { result + 1 ≡ swap_modulus size }
{
    match size {
        SwapWidth::S16 => 0xffff,
        SwapWidth::S32 => 0xffff_ffff,
        SwapWidth::S64 => u64::MAX,
    }
}
