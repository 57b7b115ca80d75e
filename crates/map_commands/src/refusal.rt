//! Why there is no answer, whichever step refuses.
ghost use Rattle.std.specs.Prelude.{◌≡◌};
ghost use Rattle.map_commands.specs.Refusals.{refusal_number, place_of};

use crate::hex::HexFault;
use admission::AdmissionFault;
use bpf_assembler::AsmFault;
use bpf_decode::DecodeFault;
use bpf_model::{NoMemory, TooLong};
use std::error::Error;
use std::fmt;

/// Why there is no answer. Each refusal has a number N and a place P, and is printed as `refused N at P`.
#[derive(Clone, Copy, Debug, PartialEq, Eq)]
pub enum Refusal {
    /// A key, old value or argument has more bytes than any may have: number 1, at place 0.
    TooLong,
    /// A request for memory was refused: number 9, at place 0.
    NoMemory,
    /// A text is no hex text: number 70, at its first byte that begins neither blank space nor a pair.
    NotHex { place: usize },
    /// The text is no program's: numbers 9 and 20 to 24, at the faulty line.
    Assemble(AsmFault),
    /// The bytes are no program that is found safe: the fault's number, at the faulty unit.
    Program(AdmissionFault),
}

impl Refusal {
    /// The number under which the refusal is printed.
    pub fn number(&self) -> u8
        ensures { result ≡ refusal_number self.now }
    {
        match self {
            Refusal::TooLong => TooLong::NUMBER,
            Refusal::NoMemory => NoMemory::NUMBER,
            Refusal::NotHex { .. } => 70,
            Refusal::Assemble(fault) => fault.number(),
            Refusal::Program(fault) => fault.number(),
        }
    }

    /// The place: the unit of the program, the line, or the byte of the text that the refusal is about, else 0.
    pub fn place(&self) -> usize
        ensures { result ≡ place_of self.now }
    {
        match self {
            Refusal::TooLong | Refusal::NoMemory => 0,
            Refusal::NotHex { place } => *place,
            Refusal::Assemble(fault) => fault.line(),
            Refusal::Program(fault) => fault.unit(),
        }
    }
}

impl fmt::Display for Refusal {
    ghost use Rattle.std.specs.Prelude.{Some};
    ghost use Rattle.map_commands.specs.Meanings.{refusal_message};

    ghost output = { λ refusal. Some (refusal_message refusal) };

    fn fmt<W: fmt::Write>(&self, f: &mut fmt::Formatter<W>) -> fmt::Result {
        match self {
            Refusal::TooLong => write!(f, "too many bytes"),
            Refusal::NoMemory => write!(f, "no memory"),
            Refusal::NotHex { place } => write!(f, "no hex text at place {place}"),
            Refusal::Assemble(fault) => write!(f, "{fault}"),
            Refusal::Program(fault) => write!(f, "{fault}"),
        }
    }
}

impl Error for Refusal {}

impl From<TooLong> for Refusal {
    ghost use Rattle.std.specs.Prelude.{◌≡◌};
    ghost use Rattle.map_commands.specs.declared.refusal.Refusal.TheVariants.{TooLong as KeyTooLong};

    ghost from_gives = { λ _ e. e ≡ KeyTooLong };

    fn from(_: TooLong) -> Refusal {
        Refusal::TooLong
    }
}

impl From<HexFault> for Refusal {
    ghost use Rattle.std.specs.Prelude.{◌≡◌};
    ghost use Rattle.map_commands.specs.Refusals.{of_hex};

    ghost from_gives = { λ fault e. e ≡ of_hex fault };

    fn from(fault: HexFault) -> Refusal {
        match fault {
            HexFault::NotHex { place } => Refusal::NotHex { place },
            HexFault::NoMemory => Refusal::NoMemory,
        }
    }
}

impl From<NoMemory> for Refusal {
    ghost use Rattle.std.specs.Prelude.{◌≡◌};
    ghost use Rattle.map_commands.specs.declared.refusal.Refusal.TheVariants.{NoMemory as OutOfMemory};

    ghost from_gives = { λ _ e. e ≡ OutOfMemory };

    fn from(_: NoMemory) -> Refusal {
        Refusal::NoMemory
    }
}

impl From<AsmFault> for Refusal {
    ghost use Rattle.std.specs.Prelude.{◌≡◌};
    ghost use Rattle.map_commands.specs.declared.refusal.Refusal.TheVariants.{Assemble};

    ghost from_gives = { λ fault e. e ≡ Assemble fault };

    fn from(fault: AsmFault) -> Refusal {
        Refusal::Assemble(fault)
    }
}

impl From<AdmissionFault> for Refusal {
    ghost use Rattle.std.specs.Prelude.{◌≡◌};
    ghost use Rattle.map_commands.specs.declared.refusal.Refusal.TheVariants.{Program};

    ghost from_gives = { λ fault e. e ≡ Program fault };

    fn from(fault: AdmissionFault) -> Refusal {
        Refusal::Program(fault)
    }
}

impl From<DecodeFault> for Refusal {
    ghost use Rattle.std.specs.Prelude.{◌≡◌};
    ghost use Rattle.admission.specs.declared.fault.AdmissionFault.TheVariants.{Decode};
    ghost use Rattle.map_commands.specs.declared.refusal.Refusal.TheVariants.{Program};

    ghost from_gives = { λ fault e. e ≡ Program (Decode fault) };

    fn from(fault: DecodeFault) -> Refusal {
        Refusal::Program(AdmissionFault::Decode(fault))
    }
}
