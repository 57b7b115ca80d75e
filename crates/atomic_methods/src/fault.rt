//! Why a table can't be opened.
use bpf_model::NoMemory;
use std::error::Error;
use std::fmt;

/// Why a table can't be opened.
#[derive(Clone, Copy, Debug, PartialEq, Eq)]
pub enum OpenFault {
    /// The number of stripes isn't a power of two from 1 to `MAX_STRIPES`: number 50.
    BadStripes,
    /// A request for memory was refused: number 9.
    NoMemory,
}

impl OpenFault {
    ghost use Rattle.std.specs.Prelude.{◌≡◌};
    ghost use Rattle.atomic_methods.specs.Faults.{open_fault_number};

    /// Returns the number with which this refusal is printed and sent.
    pub fn number(self) -> u8
        ensures value { result ≡ open_fault_number self }
    {
        match self {
            OpenFault::BadStripes => 50,
            OpenFault::NoMemory => NoMemory::NUMBER,
        }
    }
}

impl fmt::Display for OpenFault {
    ghost use Rattle.std.specs.Prelude.{Some};
    ghost use Rattle.atomic_methods.specs.Faults.{open_fault_message};

    ghost output = { λ fault. Some (open_fault_message fault) };

    fn fmt<W: fmt::Write>(&self, f: &mut fmt::Formatter<W>) -> fmt::Result {
        match self {
            OpenFault::BadStripes => write!(f, "not a number of stripes"),
            OpenFault::NoMemory => write!(f, "{}", NoMemory),
        }
    }
}

impl Error for OpenFault {}

impl From<NoMemory> for OpenFault {
    ghost use Rattle.std.specs.Prelude.{◌≡◌};
    ghost use Rattle.atomic_methods.specs.declared.fault.OpenFault.TheVariants.{NoMemory};

    ghost from_gives = { λ _ fault. fault ≡ NoMemory };

    fn from(_: NoMemory) -> OpenFault {
        OpenFault::NoMemory
    }
}
