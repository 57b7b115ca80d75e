//! Whole frames at the front of bytes.
ghost use Rattle.std.specs.Prelude.{◌≡◌, ◌++◌, ◌<◌, ◌≤◌, ◌^◌, List, length, IfOk, IfErr, IfSome, IfNone};
ghost use Rattle.client_protocol.specs.Requests.{Request as TheRequest};
ghost use Rattle.client_protocol.specs.Bodies.{hello_after};
ghost use Rattle.client_protocol.specs.Frames.{length_bytes, frame_of, IsRequest, IsBeginning, IsFaulty, Frames, held_of};
ghost use Rattle.client_protocol.specs.Reading.{IfFault, Lacks};

use crate::fault::ProtocolFault;
use crate::limits::{Limits, Version};
use crate::reading::{BodyFault, read_request};
use crate::request::{Request, RequestKind};
use crate::requests::Requests;
use bpf_model::NoMemory;
use std::alloc::Global;

const LENGTH_BYTES: usize = 4;

fn length_at(bytes: &[u8]) -> Option<(u32, &[u8])>
    ensures some { IfSome result (λ r. bytes.now ≡ length_bytes r.0 ++ r.1.now) }
    ensures fits { IfSome result (λ r. r.0 < 2 ^ 32) }
    ensures none { IfNone result (length bytes.now < 4) }
{
    match bytes {
        [a, b, c, d, rest @ ..] => Some((u32::from_be_bytes([*a, *b, *c, *d]), rest)),
        _ => None,
    }
}

/// Returns how many bytes the frame that begins here lacks: those of its length, or else those of its body.
#[tactic(auto, using(crate::proofs::HeldLaws::begun_short))]
pub fn lacking(hello: Option<Version>, bytes: &[u8]) -> usize
    requires begun { IsBeginning hello bytes.now }
    ensures { Lacks hello bytes.now result }
{
    match length_at(bytes) {
        None => LENGTH_BYTES - bytes.len(),
        Some((len, part)) => len as usize - part.len(),
    }
}

/// Returns the Hello that is taken after this request.
pub fn hello_after(hello: Option<Version>, request: &Request) -> Option<Version>
    ensures { result ≡ hello_after hello request.now }
{
    match request.kind {
        RequestKind::Hello { version } => Some(version),
        _ => hello,
    }
}

/// Reads the request of the frame that begins the bytes into this buffer, and returns the bytes after it, or `None` if
/// the frame has only begun. The old contents of the buffer are lost.
pub fn next<'b>(
    hello: Option<Version>,
    bytes: &'b [u8],
    request: &mut Request,
) -> Result<Option<&'b [u8]>, BodyFault>
    ensures frame { IfOk result (λ next. IfSome next (λ behind. IsRequest hello request.new
        × (bytes.now ≡ frame_of request.new ++ behind.now))) }
    ensures begun { IfOk result (λ next. IfNone next (IsBeginning hello bytes.now)) }
    ensures fault { IfErr result (λ e. IfFault e (IsFaulty hello bytes.now)) }
{
    let Some((len, rest)) = length_at(bytes) else {
        return Ok(None);
    };
    if len == 0 || len > Limits::after(hello).body {
        return Err(BodyFault::Fault(ProtocolFault::BadLength));
    }
    let len = len as usize;
    if rest.len() < len {
        return Ok(None);
    }
    let (body, behind) = rest.split_at(len);
    read_request(hello, body, request)?;
    Ok(Some(behind))
}

/// The state after whole frames.
#[derive(Clone, Copy)]
pub struct Left<'a> {
    pub hello: Option<Version>,
    pub rest: &'a [u8],
    pub fault: Option<ProtocolFault>,
}

/// Adds the requests of all whole frames up to a fault, if any.
pub fn read_frames<'a>(
    alloc: Global,
    hello: Option<Version>,
    requests: &mut Requests,
    bytes: &'a [u8],
) -> Result<Left<'a>, NoMemory>
    ensures within { IfOk result (λ left. length left.rest.now ≤ length bytes.now) }
    ensures ok { IfOk result (λ left. (new : List TheRequest)
        × ((requests.new ≡ requests.old ++ new)
        × Frames hello bytes.now new (held_of left.hello left.rest.now left.fault))) }
{
    let mut hello = hello;
    let mut rest = bytes;
    loop {
        match requests.read_next(alloc, hello, rest) {
            Ok(Some(behind)) => {
                hello = behind.hello;
                rest = behind.bytes;
            }
            Ok(None) => {
                return Ok(Left {
                    hello,
                    rest,
                    fault: None,
                });
            }
            Err(BodyFault::Fault(fault)) => {
                return Ok(Left {
                    hello,
                    rest,
                    fault: Some(fault),
                });
            }
            Err(BodyFault::NoMemory) => return Err(NoMemory),
        }
    }
}
