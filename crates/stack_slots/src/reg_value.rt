//! What is known of a register's word: as a number, and what two such facts have in common.
ghost use Rattle.std.specs.Prelude.{◌≡◌, ◌≢◌, ℕ, ℤ, true, Option, Some};
ghost use Rattle.bpf_model.specs.declared.window.Window.{Window};
ghost use Rattle.value_ranges.specs.In.{IsIn};
ghost use Rattle.stack_slots.specs.Values.{StandsFor, IsAddressRange, IsJoin, IsPointerIn, IsNumberIn};

use crate::pointer::Pointer;
use value_ranges::Range;

/// What is known of a register's word.
#[derive(Clone, Copy, Debug, PartialEq, Eq)]
pub enum RegValue {
    /// The register may have no word.
    Unwritten,
    /// The word lies in the range.
    Number(Range),
    /// The word is an address in or near a window.
    Pointer(Pointer),
}

impl RegValue {
    /// Returns the range of the words that the value stands for.
    pub fn as_number(&self) -> Range
        ensures holds { (w : ℕ) → StandsFor self.now (Some w) → IsIn w result }
        ensures number { (r : Range) → self.now ≡ RegValue.Number r → result ≡ r }
        ensures pointer { (p : Pointer) → self.now ≡ RegValue.Pointer p → IsAddressRange p result }
    {
        match self {
            RegValue::Unwritten => Range::full(),
            RegValue::Number(range) => *range,
            RegValue::Pointer(pointer) => pointer.addresses(),
        }
    }

    /// Returns what is known of a word if one of the two values stands for it.
    pub fn join(&self, other: &RegValue) -> RegValue
        ensures first { (o : Option ℕ) → StandsFor self.now o → StandsFor result o }
        ensures second { (o : Option ℕ) → StandsFor other.now o → StandsFor result o }
        ensures exact { IsJoin self.now other.now result }
        ensures value { self.now ≢ RegValue.Unwritten → other.now ≢ RegValue.Unwritten
            → result ≢ RegValue.Unwritten }
        ensures pointer { (w : Window) (lo hi : ℤ) → IsPointerIn w lo hi self.now
            → IsPointerIn w lo hi other.now → IsPointerIn w lo hi result }
        ensures range { (lo hi : ℤ) → IsNumberIn lo hi self.now
            → IsNumberIn lo hi other.now → IsNumberIn lo hi result }
    {
        match (self, other) {
            (RegValue::Unwritten, _) | (_, RegValue::Unwritten) => RegValue::Unwritten,
            (RegValue::Number(a), RegValue::Number(b)) => {
                RegValue::Number(value_ranges::join(*a, *b))
            }
            (RegValue::Pointer(a), RegValue::Pointer(b)) if a.window == b.window => {
                RegValue::Pointer(a.over(*b))
            }
            _ => RegValue::Number(Range::full()),
        }
    }

    /// Tests whether both values are the same.
    pub(crate) fn is_same(&self, other: &RegValue) -> bool
        ensures same { result ≡ true → self.now ≡ other.now }
    {
        match (self, other) {
            (RegValue::Unwritten, RegValue::Unwritten) => true,
            (RegValue::Number(a), RegValue::Number(b)) => is_same_range(a, b),
            (RegValue::Pointer(a), RegValue::Pointer(b)) => is_same_pointer(a, b),
            _ => false,
        }
    }
}

fn is_same_range(a: &Range, b: &Range) -> bool
    ensures same { result ≡ true → a.now ≡ b.now }
{
    a.umin == b.umin && a.umax == b.umax && a.smin == b.smin && a.smax == b.smax
}

fn is_same_pointer(a: &Pointer, b: &Pointer) -> bool
    ensures same { result ≡ true → a.now ≡ b.now }
{
    a.window == b.window && a.least == b.least && a.greatest == b.greatest
}
