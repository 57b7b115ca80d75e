//! Why a text is no program.
ghost use Rattle.std.specs.Prelude.{◌≡◌, Some};
ghost use Rattle.bpf_assembler.specs.declared.fault.AsmFault.TheVariants.{NoMemory as OutOfMemory};
ghost use Rattle.bpf_assembler.specs.Faults.{asm_fault_number, line_number, asm_fault_message, at_line};

use bpf_model::NoMemory;
use bpf_model::limits::PROGRAM_UNITS;
use std::alloc::AllocError;
use std::error::Error;
use std::fmt;

/// A fault in a text, and its line; lines are counted from 1.
#[derive(Clone, Copy, Debug, PartialEq, Eq)]
pub enum AsmFault {
    /// A request for memory was refused: number 9. It says nothing about the text.
    NoMemory,
    /// The bytes up to the first blank, newline or end are no name: number 20, in this line.
    UnknownName(usize),
    /// An operand, a separator or the blank after the name is missing or ill-formed, a number has a needless zero, or
    /// zero has a minus: number 21, in this line.
    BadOperand(usize),
    /// A well-formed number that doesn't fit its field: number 22, in this line.
    OutOfRange(usize),
    /// The last operand is not followed by a newline, or the text ends there: number 23, in this line.
    Trailing(usize),
    /// Number 24: this line's instruction passes `PROGRAM_UNITS`, or there is no line at all (line 0).
    BadCount(usize),
}

impl AsmFault {
    /// Returns the number with which the fault is printed, 9 or 20 to 24.
    pub fn number(&self) -> u8
        ensures { result ≡ asm_fault_number self.now }
    {
        match self {
            AsmFault::NoMemory => NoMemory::NUMBER,
            AsmFault::UnknownName(_) => 20,
            AsmFault::BadOperand(_) => 21,
            AsmFault::OutOfRange(_) => 22,
            AsmFault::Trailing(_) => 23,
            AsmFault::BadCount(_) => 24,
        }
    }

    /// Returns the line with the fault, counted from 1; 0 if no line has it.
    pub fn line(&self) -> usize
        ensures { result ≡ line_number self.now }
    {
        match self {
            AsmFault::NoMemory => 0,
            AsmFault::UnknownName(line)
            | AsmFault::BadOperand(line)
            | AsmFault::OutOfRange(line)
            | AsmFault::Trailing(line)
            | AsmFault::BadCount(line) => *line,
        }
    }
}

impl fmt::Display for AsmFault {
    ghost output = { λ fault. Some (asm_fault_message fault) };

    fn fmt<W: fmt::Write>(&self, f: &mut fmt::Formatter<W>) -> fmt::Result {
        match self {
            AsmFault::NoMemory => write!(f, "no memory"),
            AsmFault::UnknownName(line) => write!(f, "unknown name in line {line}"),
            AsmFault::BadOperand(line) => write!(f, "bad operand in line {line}"),
            AsmFault::OutOfRange(line) => write!(f, "number out of range in line {line}"),
            AsmFault::Trailing(line) => write!(
                f,
                "no newline after the last operand in line {line}"
            ),
            AsmFault::BadCount(0) => write!(f, "no line"),
            AsmFault::BadCount(line) => write!(f, "more than {PROGRAM_UNITS} units in line {line}"),
        }
    }
}

impl Error for AsmFault {}

impl From<AllocError> for AsmFault {
    ghost from_gives = { λ _ e. e ≡ OutOfMemory };

    fn from(_: AllocError) -> AsmFault {
        AsmFault::NoMemory
    }
}

/// A fault in one line: the first from left to right.
#[derive(Clone, Copy, Debug, PartialEq, Eq)]
pub(crate) enum LineFault {
    UnknownName,
    BadOperand,
    OutOfRange,
    Trailing,
}

impl LineFault {
    /// The fault, in this line.
    pub(crate) fn at(self, line: usize) -> AsmFault
        ensures { result ≡ at_line line self }
    {
        match self {
            LineFault::UnknownName => AsmFault::UnknownName(line),
            LineFault::BadOperand => AsmFault::BadOperand(line),
            LineFault::OutOfRange => AsmFault::OutOfRange(line),
            LineFault::Trailing => AsmFault::Trailing(line),
        }
    }
}
