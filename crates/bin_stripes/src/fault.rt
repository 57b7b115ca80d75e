//! Why a map can't be opened, and why a call isn't made.

use bpf_model::NoMemory;
use std::error::Error;
use std::fmt;

/// Why a map can't be opened.
#[derive(Clone, Copy, Debug, PartialEq, Eq)]
pub enum OpenFault {
    /// The number of stripes isn't a power of two from 1 to `MAX_STRIPES`: number 50.
    BadStripes,
    /// The number of passes is not from 1 to `MAX_PASSES`: number 51.
    BadPasses,
    /// A request for memory was refused: number 9.
    NoMemory,
}

impl OpenFault {
    ghost use Rattle.std.specs.Prelude.{◌≡◌};
    ghost use Rattle.bin_stripes.specs.Faults.{map_fault_number};

    /// Returns the number with which this refusal is printed and sent.
    pub fn number(self) -> u8
        ensures value { result ≡ map_fault_number self }
    {
        match self {
            OpenFault::BadStripes => 50,
            OpenFault::BadPasses => 51,
            OpenFault::NoMemory => NoMemory::NUMBER,
        }
    }
}

impl fmt::Display for OpenFault {
    ghost use Rattle.std.specs.Prelude.{Some};
    ghost use Rattle.bin_stripes.specs.Faults.{map_fault_message};

    ghost output = { λ fault. Some (map_fault_message fault) };

    fn fmt<W: fmt::Write>(&self, f: &mut fmt::Formatter<W>) -> fmt::Result {
        match self {
            OpenFault::BadStripes => write!(f, "not a number of stripes"),
            OpenFault::BadPasses => write!(f, "not a number of passes"),
            OpenFault::NoMemory => write!(f, "{}", NoMemory),
        }
    }
}

impl Error for OpenFault {}

impl From<NoMemory> for OpenFault {
    ghost use Rattle.std.specs.Prelude.{◌≡◌};
    ghost use Rattle.bin_stripes.specs.declared.fault.OpenFault.TheVariants.{NoMemory};

    ghost from_gives = { λ _ fault. fault ≡ NoMemory };

    fn from(_: NoMemory) -> OpenFault {
        OpenFault::NoMemory
    }
}

/// Why a call that never waits wasn't made.
#[derive(Clone, Copy, Debug, PartialEq, Eq)]
pub enum CallFault {
    /// The stripe was held: number 52.
    Busy,
    /// A request for memory was refused: number 9.
    NoMemory,
}

impl CallFault {
    ghost use Rattle.std.specs.Prelude.{◌≡◌};
    ghost use Rattle.bin_stripes.specs.Faults.{call_fault_number};

    /// Returns the number with which this refusal is printed and sent.
    pub fn number(self) -> u8
        ensures value { result ≡ call_fault_number self }
    {
        match self {
            CallFault::Busy => 52,
            CallFault::NoMemory => NoMemory::NUMBER,
        }
    }
}

impl fmt::Display for CallFault {
    ghost use Rattle.std.specs.Prelude.{Some};
    ghost use Rattle.bin_stripes.specs.Faults.{call_fault_message};

    ghost output = { λ fault. Some (call_fault_message fault) };

    fn fmt<W: fmt::Write>(&self, f: &mut fmt::Formatter<W>) -> fmt::Result {
        match self {
            CallFault::Busy => write!(f, "the stripe is held"),
            CallFault::NoMemory => write!(f, "{}", NoMemory),
        }
    }
}

impl Error for CallFault {}

impl From<NoMemory> for CallFault {
    ghost use Rattle.std.specs.Prelude.{◌≡◌};
    ghost use Rattle.bin_stripes.specs.declared.fault.CallFault.TheVariants.{NoMemory};

    ghost from_gives = { λ _ fault. fault ≡ NoMemory };

    fn from(_: NoMemory) -> CallFault {
        CallFault::NoMemory
    }
}
