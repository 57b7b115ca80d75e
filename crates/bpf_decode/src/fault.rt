//! Why bytes are no program.
ghost use Rattle.std.specs.Prelude.{◌≡◌};
ghost use Rattle.bpf_decode.specs.declared.fault.DecodeFault.TheVariants.{NoMemory as OutOfMemory};
ghost use Rattle.bpf_decode.specs.Faults.{decode_fault_number, decode_fault_unit, decode_fault_at};

use bpf_model::NoMemory;
use bpf_model::limits::PROGRAM_UNITS;
use std::alloc::AllocError;
use std::error::Error;
use std::fmt;

/// A fault in bytes, and its unit; units are counted from 0.
#[derive(Clone, Copy, Debug, PartialEq, Eq)]
pub enum DecodeFault {
    /// A request for memory was refused: number 9. It says nothing about the bytes.
    NoMemory,
    /// There are no bytes: number 10, at unit 0.
    Empty,
    /// The number of bytes isn't a multiple of 8: number 11, at unit 0.
    NotWholeUnits,
    /// There are more than `PROGRAM_UNITS` units: number 12, at unit 0.
    TooManyUnits,
    /// No instruction has this opcode: number 13, at this unit.
    UnknownOpcode(usize),
    /// A register field is used and above 10: number 14, at this unit.
    BadRegister(usize),
    /// A field is not used and not zero: number 15, at this unit. For a wide instruction's second half this is its
    /// first half's unit.
    UnusedNotZero(usize),
    /// The offset of a quotient or remainder is not 0 or 1, the offset of a move isn't a width, or the imm of a byte
    /// order isn't one: number 16, at this unit.
    BadWidth(usize),
    /// The first half of a wide instruction has no second: number 17, at this unit.
    CutWide(usize),
}

impl DecodeFault {
    /// Returns the number with which the fault is printed and sent, 9 to 17.
    pub fn number(&self) -> u8
        ensures { result ≡ decode_fault_number self.now }
    {
        match self {
            DecodeFault::NoMemory => NoMemory::NUMBER,
            DecodeFault::Empty => 10,
            DecodeFault::NotWholeUnits => 11,
            DecodeFault::TooManyUnits => 12,
            DecodeFault::UnknownOpcode(_) => 13,
            DecodeFault::BadRegister(_) => 14,
            DecodeFault::UnusedNotZero(_) => 15,
            DecodeFault::BadWidth(_) => 16,
            DecodeFault::CutWide(_) => 17,
        }
    }

    /// Returns the unit with the fault; 0 if the fault belongs to no unit.
    pub fn unit(&self) -> usize
        ensures { result ≡ decode_fault_unit self.now }
    {
        match self {
            DecodeFault::UnknownOpcode(unit)
            | DecodeFault::BadRegister(unit)
            | DecodeFault::UnusedNotZero(unit)
            | DecodeFault::BadWidth(unit)
            | DecodeFault::CutWide(unit) => *unit,
            _ => 0,
        }
    }
}

impl fmt::Display for DecodeFault {
    ghost use Rattle.std.specs.Prelude.{Some};
    ghost use Rattle.bpf_decode.specs.Messages.{decode_fault_message};

    ghost output = { λ fault. Some (decode_fault_message fault) };

    fn fmt<W: fmt::Write>(&self, f: &mut fmt::Formatter<W>) -> fmt::Result {
        match self {
            DecodeFault::NoMemory => write!(f, "no memory"),
            DecodeFault::Empty => write!(f, "no byte"),
            DecodeFault::NotWholeUnits => write!(f, "the number of bytes is no multiple of 8"),
            DecodeFault::TooManyUnits => write!(f, "more than {PROGRAM_UNITS} units"),
            DecodeFault::UnknownOpcode(unit) => write!(f, "unknown opcode at unit {unit}"),
            DecodeFault::BadRegister(unit) => write!(f, "register above 10 at unit {unit}"),
            DecodeFault::UnusedNotZero(unit) => write!(
                f,
                "unused field is not zero at unit {unit}"
            ),
            DecodeFault::BadWidth(unit) => write!(f, "no such width at unit {unit}"),
            DecodeFault::CutWide(unit) => write!(
                f,
                "wide instruction without second half at unit {unit}"
            ),
        }
    }
}

impl Error for DecodeFault {}

impl From<AllocError> for DecodeFault {
    ghost from_gives = { λ _ e. e ≡ OutOfMemory };

    fn from(_: AllocError) -> DecodeFault {
        DecodeFault::NoMemory
    }
}

/// A fault in one unit, or in the second half of its instruction.
#[derive(Clone, Copy, Debug, PartialEq, Eq)]
pub(crate) enum UnitFault {
    UnknownOpcode,
    BadRegister,
    UnusedNotZero,
    BadWidth,
    CutWide,
}

impl UnitFault {
    /// The fault, at this unit.
    pub(crate) fn at(self, unit: usize) -> DecodeFault
        ensures { result ≡ decode_fault_at unit self }
    {
        match self {
            UnitFault::UnknownOpcode => DecodeFault::UnknownOpcode(unit),
            UnitFault::BadRegister => DecodeFault::BadRegister(unit),
            UnitFault::UnusedNotZero => DecodeFault::UnusedNotZero(unit),
            UnitFault::BadWidth => DecodeFault::BadWidth(unit),
            UnitFault::CutWide => DecodeFault::CutWide(unit),
        }
    }
}
