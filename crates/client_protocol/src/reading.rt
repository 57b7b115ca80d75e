//! A request from the body of a frame.
ghost use Rattle.std.specs.Prelude.{◌≡◌, ◌≢◌, ◌≤◌, ◌<◌, ◌∷◌, length, OnOk, IfErr, IfSome, IfNone, IsTrue, IsFalse};
ghost use Rattle.client_protocol.specs.Bodies.{is_hello, is_none, MayCome, body_of, IsBodyOf, BodyHas, limits_after};
ghost use Rattle.client_protocol.specs.Reading.{SpellsBody, TakesSizes, NoSizes, IfFault};

use crate::copies::replace;
use crate::fault::ProtocolFault;
use crate::field::short_at;
use crate::fields::{compute_fields, no_field, one_field, three_fields, two_fields, walk_fields};
use crate::limits::Version;
use crate::request::{Request, RequestKind, Run, Walk};
use bpf_model::{NoMemory, Sizes};
use std::alloc::AllocError;

/// Why a body gives no request.
#[derive(Clone, Copy, Debug, PartialEq, Eq)]
pub enum BodyFault {
    NoMemory,
    Fault(ProtocolFault),
}

impl From<ProtocolFault> for BodyFault {
    ghost use Rattle.std.specs.Prelude.{◌≡◌};
    ghost use Rattle.client_protocol.specs.declared.reading.BodyFault.TheVariants.{Fault};

    ghost from_gives = { λ fault e. e ≡ Fault fault };

    fn from(fault: ProtocolFault) -> BodyFault {
        BodyFault::Fault(fault)
    }
}

impl From<AllocError> for BodyFault {
    ghost use Rattle.std.specs.Prelude.{◌≡◌};
    ghost use Rattle.client_protocol.specs.declared.reading.BodyFault.TheVariants.{NoMemory};

    ghost from_gives = { λ _ e. e ≡ NoMemory };

    fn from(_: AllocError) -> BodyFault {
        BodyFault::NoMemory
    }
}

impl From<NoMemory> for BodyFault {
    ghost use Rattle.std.specs.Prelude.{◌≡◌};
    ghost use Rattle.client_protocol.specs.declared.reading.BodyFault.TheVariants.{NoMemory};

    ghost from_gives = { λ _ e. e ≡ NoMemory };

    fn from(_: NoMemory) -> BodyFault {
        BodyFault::NoMemory
    }
}

/// Returns a Hello; whether it is its turn isn't tested here.
fn hello_request(
    hello: Option<Version>,
    tag: u8,
    rest: &[u8],
    request: &mut Request,
) -> Result<(), ProtocolFault>
    requires { tag ≡ 0x00 }
    ensures ok { OnOk result (SpellsBody (limits_after hello) (tag ∷ rest.now) (body_of request.new)) }
    ensures err { IfErr result (BodyHas hello (tag ∷ rest.now)) }
{
    let mut number: u8 = 0;
    one_field(hello, tag, rest, &mut number)?;
    match Version::from_number(number) {
        Some(version) => {
            request.kind = RequestKind::Hello { version };
            Ok(())
        }
        None => Err(ProtocolFault::WrongVersion),
    }
}

/// Returns the request with a tag below 0x14: a Hello, or a call that works with or without a value. Whether it is its
/// turn isn't tested here.
fn early_request(
    hello: Option<Version>,
    tag: u8,
    rest: &[u8],
    request: &mut Request,
) -> Result<(), ProtocolFault>
    requires below { tag < 0x14 }
    requires no_program { tag ≢ 0x01 }
    ensures ok { OnOk result (SpellsBody (limits_after hello) (tag ∷ rest.now) (body_of request.new)) }
    ensures err { IfErr result (BodyHas hello (tag ∷ rest.now)) }
{
    match tag {
        0x00 => hello_request(hello, tag, rest, request)?,
        0x10 => {
            one_field(hello, tag, rest, &mut request.key)?;
            request.kind = RequestKind::Get;
        }
        0x11 => {
            two_fields(hello, tag, rest, &mut request.key, &mut request.value)?;
            request.kind = RequestKind::Put;
        }
        0x12 => {
            two_fields(hello, tag, rest, &mut request.key, &mut request.value)?;
            request.kind = RequestKind::PutIfAbsent;
        }
        0x13 => {
            one_field(hello, tag, rest, &mut request.key)?;
            request.kind = RequestKind::Remove;
        }
        _ => return Err(ProtocolFault::UnknownRequest),
    }
    Ok(())
}

/// Returns the request with a tag from 0x14 to 0x16: a call on the key's present value.
fn present_request(
    hello: Option<Version>,
    tag: u8,
    rest: &[u8],
    request: &mut Request,
) -> Result<(), ProtocolFault>
    requires range { (0x14 ≤ tag) × (tag < 0x17) }
    ensures ok { OnOk result (SpellsBody (limits_after hello) (tag ∷ rest.now) (body_of request.new)) }
    ensures err { IfErr result (BodyHas hello (tag ∷ rest.now)) }
{
    let key = &mut request.key;
    let expected = &mut request.other.value;
    let value = &mut request.value;
    match tag {
        0x14 => {
            two_fields(hello, tag, rest, key, expected)?;
            request.kind = RequestKind::RemoveIf;
        }
        0x15 => {
            two_fields(hello, tag, rest, key, value)?;
            request.kind = RequestKind::Replace;
        }
        0x16 => {
            three_fields(hello, tag, rest, key, expected, value)?;
            request.kind = RequestKind::ReplaceIf;
        }
        _ => return Err(ProtocolFault::UnknownRequest),
    }
    Ok(())
}

/// Returns the request with a tag from 0x17 to 0x1F: a call with a program.
fn program_request(
    hello: Option<Version>,
    tag: u8,
    rest: &[u8],
    request: &mut Request,
) -> Result<(), ProtocolFault>
    requires range { (0x17 ≤ tag) × (tag < 0x20) }
    ensures ok { OnOk result (SpellsBody (limits_after hello) (tag ∷ rest.now) (body_of request.new)) }
    ensures err { IfErr result (BodyHas hello (tag ∷ rest.now)) }
{
    let key = &mut request.key;
    let arg = &mut request.other;
    let run = match tag {
        0x17 => {
            let program = compute_fields(hello, tag, rest, key, arg)?;
            Run::Compute { program }
        }
        0x18 => {
            let program = compute_fields(hello, tag, rest, key, arg)?;
            Run::ComputeIfAbsent { program }
        }
        0x19 => {
            let program = compute_fields(hello, tag, rest, key, arg)?;
            Run::ComputeIfPresent { program }
        }
        0x1A => {
            let mut program: u64 = 0;
            three_fields(hello, tag, rest, key, &mut request.value, &mut program)?;
            Run::Merge { program }
        }
        _ => return Err(ProtocolFault::UnknownRequest),
    };
    request.kind = RequestKind::Run(run);
    Ok(())
}

/// Returns the request with a tag from 0x20 on: a walk.
fn walk_request(
    hello: Option<Version>,
    tag: u8,
    rest: &[u8],
    request: &mut Request,
) -> Result<(), ProtocolFault>
    requires above { 0x20 ≤ tag }
    ensures ok { OnOk result (SpellsBody (limits_after hello) (tag ∷ rest.now) (body_of request.new)) }
    ensures err { IfErr result (BodyHas hello (tag ∷ rest.now)) }
{
    let arg = &mut request.other;
    let walk = match tag {
        0x20 => {
            let (program, threshold) = walk_fields(hello, tag, rest, arg)?;
            Walk::Search { program, threshold }
        }
        0x21 => {
            let (program, threshold) = walk_fields(hello, tag, rest, arg)?;
            Walk::ForEach { program, threshold }
        }
        0x22 => {
            let mut program: u64 = 0;
            two_fields(hello, tag, rest, &mut program, arg)?;
            Walk::ReplaceAll { program }
        }
        0x23 => {
            no_field(hello, tag, rest)?;
            Walk::Count
        }
        _ => return Err(ProtocolFault::UnknownRequest),
    };
    request.kind = RequestKind::Walk(walk);
    Ok(())
}

/// Returns the sizes that a Register begins with, and the program after them, or `None` if there are too few bytes.
fn sizes_at(hello: Option<Version>, bytes: &[u8]) -> Option<(Sizes, &[u8])>
    ensures some { IfSome result (λ r. TakesSizes (limits_after hello) bytes.now r.0 r.1.now) }
    ensures none { IfNone result (NoSizes (limits_after hello) bytes.now) }
{
    let Some((key, rest)) = short_at(hello, bytes) else {
        return None;
    };
    let Some((old, rest)) = short_at(hello, rest) else {
        return None;
    };
    let Some((arg, rest)) = short_at(hello, rest) else {
        return None;
    };
    let Some((result, program)) = short_at(hello, rest) else {
        return None;
    };
    let sizes = Sizes {
        key,
        old,
        arg,
        result,
    };
    Some((sizes, program))
}

/// Returns a Register. Asks for memory for a copy of the program if the buffer has no room for it.
fn register_request(
    hello: Option<Version>,
    rest: &[u8],
    request: &mut Request,
) -> Result<(), BodyFault>
    ensures ok { OnOk result (SpellsBody (limits_after hello) (0x01 ∷ rest.now) (body_of request.new)) }
    ensures err { IfErr result (λ e. IfFault e (BodyHas hello (0x01 ∷ rest.now))) }
{
    let Some((sizes, program)) = sizes_at(hello, rest) else {
        return Err(BodyFault::Fault(ProtocolFault::BadField));
    };
    replace(&mut request.program, program)?;
    request.kind = RequestKind::Register { sizes };
    Ok(())
}

/// Returns the request of a body; whether it is its turn isn't tested here.
fn request_of(hello: Option<Version>, body: &[u8], request: &mut Request) -> Result<(), BodyFault>
    requires { 1 ≤ length body.now }
    ensures ok { OnOk result (SpellsBody (limits_after hello) body.now (body_of request.new)) }
    ensures err { IfErr result (λ e. IfFault e (BodyHas hello body.now)) }
{
    let [tag, rest @ ..] = body else {
        unreachable!();
    };
    let tag = *tag;
    if tag == 0x01 {
        return register_request(hello, rest, request);
    }
    let read = if tag < 0x14 {
        early_request(hello, tag, rest, request)
    } else if tag < 0x17 {
        present_request(hello, tag, rest, request)
    } else if tag < 0x20 {
        program_request(hello, tag, rest, request)
    } else {
        walk_request(hello, tag, rest, request)
    };
    Ok(read?)
}

fn is_hello(request: &Request) -> bool
    ensures { result ≡ is_hello request.now }
{
    matches!(request.kind, RequestKind::Hello { .. })
}

/// Tests whether it is the request's turn.
fn may_come(hello: Option<Version>, request: &Request) -> bool
    ensures yes { IsTrue result → MayCome hello request.now }
    ensures no { IsFalse result → is_hello request.now ≢ is_none hello }
{
    match hello {
        None => is_hello(request),
        Some(_) => !is_hello(request),
    }
}

/// Reads the request of a body into this buffer, or names the body's fault; the buffer's old contents are lost. A body has at
/// least one byte.
#[tactic(auto, using(crate::proofs::BodyLaws::misplaced))]
pub fn read_request(
    hello: Option<Version>,
    body: &[u8],
    request: &mut Request,
) -> Result<(), BodyFault>
    requires { 1 ≤ length body.now }
    ensures ok { OnOk result (IsBodyOf hello body.now request.new) }
    ensures err { IfErr result (λ fault. IfFault fault (BodyHas hello body.now)) }
{
    request_of(hello, body, request)?;
    if !may_come(hello, request) {
        return Err(BodyFault::Fault(ProtocolFault::WrongVersion));
    }
    Ok(())
}
