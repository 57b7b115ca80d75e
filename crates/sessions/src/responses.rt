//! Responses that any service may give.
ghost use Rattle.std.specs.Prelude.{◌≡◌, ◌<◌, ◌^◌, ◌↔◌, ℕ, List, [], ◌∷◌, IfOk, IfErr, IsTrue};
ghost use Rattle.admission.specs.Admissions.{admission_fault_number, admission_fault_unit, HasManyUnits, HasLargeWindow};
ghost use Rattle.atomic_methods.specs.Plans.{reply_by};
ghost use Rattle.client_protocol.specs.Responses.{response_of};
ghost use Rattle.sessions.specs.Answering.{responses_of};
ghost use Rattle.client_protocol.specs.declared.response.Response.TheVariants as tell;
ghost use Rattle.sessions.specs.Asking.{program_limits, response_to, Admits, RefusesProgram};

use crate::session::Answer;
use admission::{AdmissionFault, ProgramLimits, admit};
use atomic_methods::ReplyKind;
use bpf_model::{NoMemory, Sizes};
use client_protocol::{Limits, ShortResponse, Version};
use std::alloc::Global;
use verifier::Verified;

const UNKNOWN_PROGRAM: u8 = 66;

/// Returns the response to a request that names a program with an unknown number.
pub fn unknown_program() -> ShortResponse
    ensures { response_of result ≡ tell.Refused 66 0 }
{
    ShortResponse::Refused {
        number: UNKNOWN_PROGRAM,
        place: 0,
    }
}

/// Returns the response to a request that was refused memory.
pub fn no_memory() -> ShortResponse
    ensures { response_of result ≡ tell.Refused 9 0 }
{
    ShortResponse::Refused {
        number: NoMemory::NUMBER,
        place: 0,
    }
}

/// Returns the answer with a call's reply. If the reply has a value, its bytes were left with the caller.
pub fn answer_to(kind: ReplyKind) -> Answer
    ensures { (bytes : List ℕ) → responses_of result bytes ≡ response_to (reply_by kind bytes) ∷ [] }
{
    match kind {
        ReplyKind::None => Answer::One(ShortResponse::Nothing),
        ReplyKind::Some => Answer::Found,
        ReplyKind::Done(done) => Answer::One(ShortResponse::Done { done }),
        ReplyKind::Unfit(part) => Answer::One(ShortResponse::Unfit { part }),
    }
}

/// Returns the limits of a program that is sent after this Hello.
fn program_limits(hello: Option<Version>) -> ProgramLimits
    ensures { result ≡ program_limits hello }
{
    let limits = Limits::after(hello);
    ProgramLimits {
        units: limits.units,
        window: limits.value,
    }
}

/// Tests whether these bytes and sizes are within the limits after this Hello. Takes no memory.
pub fn may_be_sent(hello: Option<Version>, bytes: &[u8], sizes: Sizes) -> bool
    ensures { IsTrue result ↔ ((HasManyUnits (program_limits hello) bytes.now → ⊥) × (HasLargeWindow (program_limits hello) sizes → ⊥)) }
{
    program_limits(hello).allows(bytes, sizes)
}

/// Returns the response with this fault and its unit.
fn refusal_of(fault: AdmissionFault) -> ShortResponse
    requires { admission_fault_unit fault < 2 ^ 32 }
    ensures { response_of result ≡ tell.Refused (admission_fault_number fault) (admission_fault_unit fault) }
{
    ShortResponse::Refused {
        number: fault.number(),
        place: fault.unit() as u32,
    }
}

/// Returns the program of a Register that is sent after this Hello, or the response that refuses it.
pub fn program_sent(
    alloc: Global,
    hello: Option<Version>,
    bytes: &[u8],
    sizes: Sizes,
) -> Result<Verified, ShortResponse>
    ensures ok { IfOk result (λ program. Admits hello sizes bytes.now program) }
    ensures err { IfErr result (λ response. RefusesProgram hello sizes bytes.now (response_of response)) }
{
    match admit(alloc, program_limits(hello), bytes, sizes) {
        Ok(program) => Ok(program),
        Err(fault) => Err(refusal_of(fault)),
    }
}
