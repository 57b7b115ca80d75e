//! Why a program's flow is refused.
ghost use Rattle.std.specs.Prelude.{◌≡◌};
ghost use Rattle.flow_shape.specs.FlowShape.{flow_fault_number, flow_fault_unit};
ghost use Rattle.flow_shape.specs.Messages.{flow_fault_reason};

use std::error::Error;
use std::fmt;

/// A fault in a program's flow, with the unit of the faulty instruction, counted from 0.
#[derive(Clone, Copy, Debug, PartialEq, Eq)]
pub enum FlowFault {
    /// A jump has a distance below 0: number 30.
    BackwardJump(usize),
    /// A jump goes to the number of units or past it: number 31.
    JumpOut(usize),
    /// A jump goes to the second half of a wide instruction: number 32.
    JumpIntoWide(usize),
    /// The last instruction is neither EXIT nor a jump without a condition: number 33.
    FallsOffEnd(usize),
}

impl FlowFault {
    /// Returns the number with which this refusal is printed and sent.
    pub fn number(self) -> u8
        ensures { result ≡ flow_fault_number self }
    {
        match self {
            FlowFault::BackwardJump(_) => 30,
            FlowFault::JumpOut(_) => 31,
            FlowFault::JumpIntoWide(_) => 32,
            FlowFault::FallsOffEnd(_) => 33,
        }
    }

    /// Returns the unit of the faulty instruction, counted from 0.
    pub fn unit(self) -> usize
        ensures { result ≡ flow_fault_unit self }
    {
        match self {
            FlowFault::BackwardJump(unit)
            | FlowFault::JumpOut(unit)
            | FlowFault::JumpIntoWide(unit)
            | FlowFault::FallsOffEnd(unit) => unit,
        }
    }

    fn reason(self) -> &'static str
        ensures { result.now ≡ flow_fault_reason self }
    {
        match self {
            FlowFault::BackwardJump(_) => "a jump goes backward",
            FlowFault::JumpOut(_) => "a jump leaves the program",
            FlowFault::JumpIntoWide(_) => "a jump goes into a wide instruction",
            FlowFault::FallsOffEnd(_) => "the last instruction is neither an exit nor a jump",
        }
    }
}

impl fmt::Display for FlowFault {
    ghost use Rattle.std.specs.Prelude.{Some};
    ghost use Rattle.flow_shape.specs.Messages.{flow_fault_message};

    ghost output = { λ fault. Some (flow_fault_message fault) };

    fn fmt<W: fmt::Write>(&self, f: &mut fmt::Formatter<W>) -> fmt::Result {
        write!(f, "{} at unit {}", self.reason(), self.unit())
    }
}

impl Error for FlowFault {}
