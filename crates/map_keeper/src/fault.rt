//! Why a map is not restored.

use admission::AdmissionFault;
use bpf_model::NoMemory;
use kept_file::KeepFault;
use redis_scripts::ScriptFault;
use std::error::Error;
use std::fmt;

/// Why a map is not restored from its file. The text goes after the file's name and a colon.
#[derive(Clone, Copy, Debug, PartialEq, Eq)]
pub enum RestoreFault {
    /// The file cannot be used.
    File(KeepFault),
    /// The program of this number is refused.
    Program { number: u64, fault: AdmissionFault },
    /// The program of this number would get another one.
    Number { number: u64 },
    /// The script at this place, counted from 0, is refused.
    Script { place: u64, fault: ScriptFault },
    /// A request for memory was refused, or there are more programs or scripts than the server may have.
    NoMemory,
}

impl RestoreFault {
    /// Returns the number with which a refusal is printed: that of the program's refusal, or 9 for a lack of memory; none if the file
    /// cannot be used.
    pub fn refusal(&self) -> Option<u8> {
        match self {
            RestoreFault::Program { fault, .. } => Some(fault.number()),
            RestoreFault::NoMemory => Some(NoMemory::NUMBER),
            RestoreFault::File(_) | RestoreFault::Number { .. } | RestoreFault::Script { .. } =>
                None,
        }
    }
}

impl From<KeepFault> for RestoreFault {
    fn from(fault: KeepFault) -> RestoreFault {
        match fault {
            KeepFault::NoMemory => RestoreFault::NoMemory,
            fault => RestoreFault::File(fault),
        }
    }
}

impl From<NoMemory> for RestoreFault {
    fn from(_: NoMemory) -> RestoreFault {
        RestoreFault::NoMemory
    }
}

impl fmt::Display for RestoreFault {
    fn fmt<W: fmt::Write>(&self, f: &mut fmt::Formatter<W>) -> fmt::Result {
        match self {
            RestoreFault::File(fault) => write!(f, "{fault}"),
            RestoreFault::Program { number, fault } => {
                write!(f, "the program {number} is refused: {fault}")
            }
            RestoreFault::Number { number } => {
                write!(f, "the program {number} would get another number")
            }
            RestoreFault::Script { place, .. } => write!(f, "the script {place} is refused"),
            RestoreFault::NoMemory => f.write_str("no memory for what is in it"),
        }
    }
}

impl Error for RestoreFault {}
