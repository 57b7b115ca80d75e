//! The steps from bytes to a verified program.
ghost use Rattle.std.specs.Prelude.{◌≡◌, IfOk, OnOk, IfErr};
ghost use Rattle.admission.specs.Admissions.{IsAdmitted, IsNotAdmitted, HasManyUnits, HasLargeWindow};

use crate::fault::AdmissionFault;
use crate::limits::ProgramLimits;
use bpf_decode::{DecodeFault, decode};
use bpf_model::Sizes;
use flow_shape::shape;
use std::alloc::Global;
use verifier::{Verified, VerifyFault, verify};

/// Returns the program that the bytes spell, verified with these sizes, if it is within the limits. The steps come in this
/// order, and the first that refuses gives the fault: too many units by these limits, before any unit is looked at; the
/// decoder, which may also return `NoMemory`; the flow; a size above its limit; the verifier.
pub fn admit(
    alloc: Global,
    limits: ProgramLimits,
    bytes: &[u8],
    sizes: Sizes,
) -> Result<Verified, AdmissionFault>
    ensures ok { IfOk result (λ v. IsAdmitted bytes.now sizes v.program) }
    ensures sizes { IfOk result (λ v. v.sizes ≡ sizes) }
    ensures units { OnOk result (HasManyUnits limits bytes.now → ⊥) }
    ensures windows { OnOk result (HasLargeWindow limits sizes → ⊥) }
    ensures err { IfErr result (λ fault. IsNotAdmitted limits bytes.now sizes fault) }
{
    if limits.has_many_units(bytes) {
        return Err(AdmissionFault::Decode(DecodeFault::TooManyUnits));
    }
    let program = decode(alloc, bytes)?;
    let shaped = shape(program)?;
    if limits.has_large_window(sizes) {
        return Err(AdmissionFault::Verify(VerifyFault::SizesTooLarge));
    }
    Ok(verify(alloc, shaped, sizes)?)
}
