//! Conditions of jumps.
ghost use Rattle.std.specs.Prelude.{◌≡◌, not};
ghost use Rattle.bpf_model.specs.Conditions.{condition_of, opposite_of, compare, holds};

use crate::operations::Width;

/// The test of a conditional jump.
#[derive(Clone, Copy, Debug, PartialEq, Eq)]
pub enum JumpOp {
    Eq,
    Gt,
    Ge,
    /// The words share a set bit.
    Set,
    Ne,
    SGt,
    SGe,
    Lt,
    Le,
    SLt,
    SLe,
}

/// A condition on two words: what jumps test, and one more that is only an opposite.
#[derive(Clone, Copy, Debug, PartialEq, Eq)]
pub enum Condition {
    Eq,
    Ne,
    Gt,
    Ge,
    Lt,
    Le,
    SGt,
    SGe,
    SLt,
    SLe,
    CommonBit,
    NoCommonBit,
}

impl JumpOp {
    /// The condition that holds if the jump is taken.
    pub fn condition(self) -> Condition
        ensures { result ≡ condition_of self }
    {
        match self {
            JumpOp::Eq => Condition::Eq,
            JumpOp::Gt => Condition::Gt,
            JumpOp::Ge => Condition::Ge,
            JumpOp::Set => Condition::CommonBit,
            JumpOp::Ne => Condition::Ne,
            JumpOp::SGt => Condition::SGt,
            JumpOp::SGe => Condition::SGe,
            JumpOp::Lt => Condition::Lt,
            JumpOp::Le => Condition::Le,
            JumpOp::SLt => Condition::SLt,
            JumpOp::SLe => Condition::SLe,
        }
    }
}

impl Condition {
    /// The condition that holds exactly if this one doesn't.
    pub fn opposite(self) -> Condition
        ensures { result ≡ opposite_of self }
    {
        match self {
            Condition::Eq => Condition::Ne,
            Condition::Ne => Condition::Eq,
            Condition::Gt => Condition::Le,
            Condition::Le => Condition::Gt,
            Condition::Ge => Condition::Lt,
            Condition::Lt => Condition::Ge,
            Condition::SGt => Condition::SLe,
            Condition::SLe => Condition::SGt,
            Condition::SGe => Condition::SLt,
            Condition::SLt => Condition::SGe,
            Condition::CommonBit => Condition::NoCommonBit,
            Condition::NoCommonBit => Condition::CommonBit,
        }
    }

    /// Tests whether the condition holds of two words at this width.
    pub fn holds(self, width: Width, a: u64, b: u64) -> bool
        ensures { result ≡ holds self width a b }
    {
        match width {
            Width::W64 => self.holds_of(a, b, a.cast_signed(), b.cast_signed()),
            Width::W32 => {
                let low = (a % 0x1_0000_0000) as u32;
                let other = (b % 0x1_0000_0000) as u32;
                self.holds_of(
                    u64::from(low),
                    u64::from(other),
                    i64::from(low.cast_signed()),
                    i64::from(other.cast_signed()),
                )
            }
        }
    }

    /// compares the numbers and their signed readings
    fn holds_of(self, a: u64, b: u64, signed_a: i64, signed_b: i64) -> bool
        ensures { result ≡ compare self a b signed_a signed_b }
    {
        match self {
            Condition::Eq => a == b,
            Condition::Ne => a != b,
            Condition::Gt => a > b,
            Condition::Ge => a >= b,
            Condition::Lt => a < b,
            Condition::Le => a <= b,
            Condition::SGt => signed_a > signed_b,
            Condition::SGe => signed_a >= signed_b,
            Condition::SLt => signed_a < signed_b,
            Condition::SLe => signed_a <= signed_b,
            Condition::CommonBit => a & b != 0,
            Condition::NoCommonBit => a & b == 0,
        }
    }
}
