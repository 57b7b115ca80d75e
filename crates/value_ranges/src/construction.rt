//! Ranges of given bounds, and the word of a range that has only one.
ghost use Rattle.std.specs.Prelude.{◌≡◌, ℕ, ◌%◌, ◌<◌, ◌≤◌, ◌≤ℤ◌, ◌^◌, Some, None, nat_eq, if◌then◌else◌, IfSome};
ghost use Rattle.bpf_model.specs.Words.{IsWord};
ghost use Rattle.bpf_model.specs.Arithmetic.{modulus};
ghost use Rattle.value_ranges.specs.In.{IsIn, IsWithinUnsigned, IsWithinSigned, IsSingle, IsSignedUpToMask};

use crate::range::Range;
use bpf_model::Width;

impl Range {
    /// Returns the words whose unsigned reading lies from `umin` to `umax`. If both are in one half of the words, the
    /// signed bounds are their signed readings.
    pub fn unsigned(umin: u64, umax: u64) -> Range
        requires { umin ≤ umax }
        ensures holds { (w : ℕ) → IsWithinUnsigned w umin umax → IsIn w result }
        ensures umin { result.umin ≡ umin }
        ensures umax { result.umax ≡ umax }
        ensures mask { umax < 2 ^ 63 → IsSignedUpToMask result umax }
    {
        if umin < 0x8000_0000_0000_0000 && umax >= 0x8000_0000_0000_0000 {
            return Range {
                umin,
                umax,
                smin: i64::MIN,
                smax: i64::MAX,
            };
        }
        Range {
            umin,
            umax,
            smin: umin.cast_signed(),
            smax: umax.cast_signed(),
        }
    }

    /// Returns the words whose signed reading lies from `smin` to `smax`. If both have one sign, the unsigned bounds
    /// are the words that they stand for.
    pub fn signed(smin: i64, smax: i64) -> Range
        requires { smin ≤ℤ smax }
        ensures holds { (w : ℕ) → IsWithinSigned w smin smax → IsIn w result }
        ensures smin { result.smin ≡ smin }
        ensures smax { result.smax ≡ smax }
    {
        if smin >= 0 || smax < 0 {
            Range {
                umin: smin.cast_unsigned(),
                umax: smax.cast_unsigned(),
                smin,
                smax,
            }
        } else {
            Range {
                umin: 0,
                umax: u64::MAX,
                smin,
                smax,
            }
        }
    }

    /// All words.
    pub fn full() -> Range
        ensures { (w : ℕ) → IsWord w → IsIn w result }
    {
        Range::unsigned(0, u64::MAX)
    }

    /// This word alone.
    pub fn single(word: u64) -> Range
        ensures holds { IsIn word result }
        ensures single { IsSingle result word }
    {
        Range {
            umin: word,
            umax: word,
            smin: word.cast_signed(),
            smax: word.cast_signed(),
        }
    }

    /// Returns the word, if the unsigned bounds leave only one.
    pub fn single_value(self) -> Option<u64>
        ensures value { result ≡ (if nat_eq self.umin self.umax then Some self.umin else None) }
        ensures only { IfSome result (λ v. (w : ℕ) → IsIn w self → w ≡ v) }
    {
        if self.umin == self.umax {
            Some(self.umin)
        } else {
            None
        }
    }

    /// All numbers of a width.
    pub(crate) fn any(width: Width) -> Range
        ensures { (w : ℕ) → w < modulus width → IsIn w result }
    {
        Range::unsigned(0, width.greatest())
    }

    /// Returns the range of the low parts at 32 bits; at 64 the range itself.
    pub(crate) fn low(self, width: Width) -> Range
        ensures holds { (x : ℕ) → IsIn x self → IsIn (x % modulus width) result }
        ensures bounded { result.umax < modulus width }
        ensures whole { width ≡ Width.W64 → result.umax ≡ self.umax }
    {
        match width {
            Width::W64 => self,
            Width::W32 => {
                match self.single_value() {
                    Some(word) => Range::single(width.low(word)),
                    None if self.umax < 0x1_0000_0000 => self,
                    None => Range::unsigned(0, 0xffff_ffff),
                }
            }
        }
    }
}
