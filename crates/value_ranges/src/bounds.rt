//! Bounds of one reading tighten those of the other.
ghost use Rattle.std.specs.Prelude.{ℕ};
ghost use Rattle.value_ranges.specs.In.{IsIn, IsWithin, IsInSome};

use crate::range::Range;

/// Bounds in any order.
#[derive(Clone, Copy)]
pub struct Bounds {
    pub umin: u64,
    pub umax: u64,
    pub smin: i64,
    pub smax: i64,
}

impl Bounds {
    /// The bounds of a range.
    pub fn of(range: Range) -> Bounds
        ensures { (w : ℕ) → IsIn w range → IsWithin w result }
    {
        Bounds {
            umin: range.umin,
            umax: range.umax,
            smin: range.smin,
            smax: range.smax,
        }
    }

    /// Returns the range with these bounds, each reading tightened once by the other, or `None` if a minimum then
    /// passes its maximum.
    pub fn tighten(self) -> Option<Range>
        ensures { (w : ℕ) → IsWithin w self → IsInSome w result }
    {
        self.with_signed().with_unsigned().ordered()
    }

    /// tightens the unsigned bounds by the signed ones, if these have one sign
    fn with_signed(self) -> Bounds
        ensures { (w : ℕ) → IsWithin w self → IsWithin w result }
    {
        let Bounds {
            umin,
            umax,
            smin,
            smax,
        } = self;
        if smin >= 0 || smax < 0 {
            Bounds {
                umin: umin.max(smin.cast_unsigned()),
                umax: umax.min(smax.cast_unsigned()),
                smin,
                smax,
            }
        } else {
            self
        }
    }

    /// tightens the signed bounds by the unsigned ones, if these are in one half
    fn with_unsigned(self) -> Bounds
        ensures { (w : ℕ) → IsWithin w self → IsWithin w result }
    {
        let Bounds {
            umin,
            umax,
            smin,
            smax,
        } = self;
        if umax < 0x8000_0000_0000_0000 || umin >= 0x8000_0000_0000_0000 {
            Bounds {
                umin,
                umax,
                smin: smin.max(umin.cast_signed()),
                smax: smax.min(umax.cast_signed()),
            }
        } else {
            self
        }
    }

    fn ordered(self) -> Option<Range>
        ensures { (w : ℕ) → IsWithin w self → IsInSome w result }
    {
        let Bounds {
            umin,
            umax,
            smin,
            smax,
        } = self;
        if umin <= umax && smin <= smax {
            Some(Range {
                umin,
                umax,
                smin,
                smax,
            })
        } else {
            None
        }
    }
}
