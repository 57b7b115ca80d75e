//! Why a program is refused.
ghost use Rattle.std.specs.Prelude.{◌≡◌};
ghost use Rattle.admission.specs.Admissions.{admission_fault_number, admission_fault_unit};

use bpf_decode::DecodeFault;
use flow_shape::FlowFault;
use std::error::Error;
use std::fmt;
use verifier::VerifyFault;

/// Why a program isn't admitted.
#[derive(Clone, Copy, Debug, PartialEq, Eq)]
pub enum AdmissionFault {
    /// The bytes are no program: numbers 9 to 17.
    Decode(DecodeFault),
    /// A jump has a bad target, or the program may go past its end: numbers 30 to 33.
    Flow(FlowFault),
    /// The program was not found safe: numbers 9 and 40 to 47.
    Verify(VerifyFault),
}

impl AdmissionFault {
    /// Returns the number with which the fault is printed and sent.
    pub fn number(&self) -> u8
        ensures { result ≡ admission_fault_number self.now }
    {
        match self {
            AdmissionFault::Decode(fault) => fault.number(),
            AdmissionFault::Flow(fault) => fault.number(),
            AdmissionFault::Verify(fault) => fault.number(),
        }
    }

    /// Returns the faulty unit, counted from 0; 0 if the fault belongs to no unit.
    pub fn unit(&self) -> usize
        ensures { result ≡ admission_fault_unit self.now }
    {
        match self {
            AdmissionFault::Decode(fault) => fault.unit(),
            AdmissionFault::Flow(fault) => fault.unit(),
            AdmissionFault::Verify(fault) => fault.unit(),
        }
    }
}

impl fmt::Display for AdmissionFault {
    ghost use Rattle.std.specs.Prelude.{Some};
    ghost use Rattle.admission.specs.Admissions.{fault_message};

    ghost output = { λ fault. Some (fault_message fault) };

    fn fmt<W: fmt::Write>(&self, f: &mut fmt::Formatter<W>) -> fmt::Result {
        match self {
            AdmissionFault::Decode(fault) => write!(f, "{fault}"),
            AdmissionFault::Flow(fault) => write!(f, "{fault}"),
            AdmissionFault::Verify(fault) => write!(f, "{fault}"),
        }
    }
}

impl Error for AdmissionFault {}

impl From<DecodeFault> for AdmissionFault {
    ghost use Rattle.std.specs.Prelude.{◌≡◌};
    ghost use Rattle.admission.specs.declared.fault.AdmissionFault.TheVariants.{Decode};

    ghost from_gives = { λ fault e. e ≡ Decode fault };

    fn from(fault: DecodeFault) -> AdmissionFault {
        AdmissionFault::Decode(fault)
    }
}

impl From<FlowFault> for AdmissionFault {
    ghost use Rattle.std.specs.Prelude.{◌≡◌};
    ghost use Rattle.admission.specs.declared.fault.AdmissionFault.TheVariants.{Flow};

    ghost from_gives = { λ fault e. e ≡ Flow fault };

    fn from(fault: FlowFault) -> AdmissionFault {
        AdmissionFault::Flow(fault)
    }
}

impl From<VerifyFault> for AdmissionFault {
    ghost use Rattle.std.specs.Prelude.{◌≡◌};
    ghost use Rattle.admission.specs.declared.fault.AdmissionFault.TheVariants.{Verify};

    ghost from_gives = { λ fault e. e ≡ Verify fault };

    fn from(fault: VerifyFault) -> AdmissionFault {
        AdmissionFault::Verify(fault)
    }
}
