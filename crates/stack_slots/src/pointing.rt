//! Addresses of pointers, and pointers plus or minus numbers.
ghost use Rattle.std.specs.Prelude.{◌≡◌, ◌+◌, ◌-◌, ◌%◌, ◌^◌, ℕ, pos, ◌≤ℤ◌, ◌+ℤ◌, ◌-ℤ◌, ◌↔◌, IsSome, IfSome};
ghost use Rattle.std.specs.Int.{int_min, int_max};
ghost use Rattle.value_ranges.specs.In.{IsIn};
ghost use Rattle.stack_slots.specs.Offsets.{AreInReach};
ghost use Rattle.stack_slots.specs.Values.{PointsTo, IsPointer, IsAddressRange};

use crate::pointer::Pointer;
use bpf_model::Window;
use value_ranges::Range;

/// A pointer may be at most this far from its window's first byte, in either direction.
const REACH: i64 = 1 << 20;

impl Pointer {
    /// Makes the pointer with these offsets, or returns `None` if one of them is out of reach, or the least passes the
    /// greatest.
    pub fn new(window: Window, least: i64, greatest: i64) -> Option<Pointer>
        ensures some { IsSome result ↔ (AreInReach least greatest × (least ≤ℤ greatest)) }
        ensures value { IfSome result (IsPointer window least greatest) }
    {
        if least < -REACH || greatest > REACH || least > greatest {
            None
        } else {
            Some(Pointer {
                window,
                least,
                greatest,
            })
        }
    }

    /// Adds a number. Returns `None` if an offset may be out of reach.
    pub fn plus(self, number: Range) -> Option<Pointer>
        ensures some { IsSome result
            ↔ AreInReach (self.least +ℤ number.smin) (self.greatest +ℤ number.smax) }
        ensures value { IfSome result
            (IsPointer self.window (self.least +ℤ number.smin) (self.greatest +ℤ number.smax)) }
        ensures holds { IfSome result (λ p. (x y : ℕ) → PointsTo self x → IsIn y number
            → PointsTo p ((x + y) % 2 ^ 64)) }
    {
        let least = self.least.checked_add(number.smin)?;
        let greatest = self.greatest.checked_add(number.smax)?;
        Pointer::new(self.window, least, greatest)
    }

    /// Subtracts a number. Returns `None` if an offset may be out of reach.
    pub fn minus(self, number: Range) -> Option<Pointer>
        ensures some { IsSome result
            ↔ AreInReach (self.least -ℤ number.smax) (self.greatest -ℤ number.smin) }
        ensures value { IfSome result
            (IsPointer self.window (self.least -ℤ number.smax) (self.greatest -ℤ number.smin)) }
        ensures holds { IfSome result (λ p. (x y : ℕ) → PointsTo self x → IsIn y number
            → PointsTo p ((x + (2 ^ 64 - y)) % 2 ^ 64)) }
    {
        let least = self.least.checked_sub(number.smax)?;
        let greatest = self.greatest.checked_sub(number.smin)?;
        Pointer::new(self.window, least, greatest)
    }

    /// Returns the pointer that covers both, which point into one window: the lesser least offset and the greater
    /// greatest one.
    pub fn over(self, other: Pointer) -> Pointer
        ensures value { IsPointer self.window (int_min self.least other.least)
            (int_max self.greatest other.greatest) result }
    {
        Pointer {
            window: self.window,
            least: self.least.min(other.least),
            greatest: self.greatest.max(other.greatest),
        }
    }

    /// Returns the range of the addresses.
    pub fn addresses(self) -> Range
        ensures holds { (w : ℕ) → PointsTo self w → IsIn w result }
        ensures bounds { IsAddressRange self result }
    {
        let first = self.window.first_address().cast_signed();
        Range::signed(first + self.least, first + self.greatest)
    }
}
