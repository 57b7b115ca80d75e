//! Requests from a stream that arrives in pieces.
ghost use Rattle.std.specs.Prelude.{◌≡◌, ◌++◌, List, [], length, take, IfOk, IfErr, IfSome, IfNone, IsOk, IsSome, OnOk, OnErr, None};
ghost use Rattle.client_protocol.specs.Requests.{Request as TheRequest};
ghost use Rattle.client_protocol.specs.Reading.{IfFault, Adds};
ghost use Rattle.client_protocol.specs.Frames.{Frames, Feeds, IsBeginning, IsFaulty, held_of, held_hello, held_fault, is_inside};
ghost use Rattle.client_protocol.specs.Frames.Held.{open_at};

use crate::copies::replace;
use crate::fault::ProtocolFault;
use crate::frames::{lacking, read_frames};
use crate::limits::Version;
use crate::reading::BodyFault;
use crate::request::Request;
use crate::requests::{Behind, Requests};
use bpf_model::NoMemory;
use bytes::BytesMut;
use std::alloc::Global;
use std::marker::Model;

/// The shortest frame has a length and one byte.
const LEAST_FRAME: usize = 5;

/// From the first piece on there is room for this many requests: those that end in 1,024 bytes, and one that began before them.
const LEAST_ROOM: usize = 205;

/// The result of a piece.
#[derive(Drop)]
pub struct Fed {
    pub requests: Vec<Request>,
    pub fault: Option<ProtocolFault>,
}

/// The state after a piece: the Hello that is taken now, and the fault that ended the stream, if any.
#[derive(Clone, Copy)]
struct Progress {
    hello: Option<Version>,
    fault: Option<ProtocolFault>,
}

/// Adds the requests of the bytes, whose frames are read in place. Keeps in `rest` the beginning of a frame that isn't
/// whole.
fn read_whole(
    alloc: Global,
    hello: Option<Version>,
    requests: &mut Requests,
    rest: &mut BytesMut,
    bytes: &[u8],
) -> Result<Progress, NoMemory>
    ensures ok { IfOk result (λ t. (new : List TheRequest) × (requests.new ≡ requests.old ++ new)
        × Frames hello bytes.now new (held_of t.hello rest.new.items t.fault)) }
    ensures err { OnErr result (rest.new.items ≡ rest.old.items) }
{
    let left = read_frames(alloc, hello, requests, bytes)?;
    if left.fault.is_none() {
        replace(rest, left.rest)?;
    }
    Ok(Progress {
        hello: left.hello,
        fault: left.fault,
    })
}

/// Adds the request of the first frame, made of the held bytes and the piece after them, and returns the rest of the
/// piece. Returns `None` if the frame isn't whole; then all of the piece is held. Copies no byte after the frame.
#[tactic(auto, using(crate::proofs::HeldLaws::all_front, crate::proofs::HeldLaws::still_front, crate::proofs::HeldLaws::moved, crate::proofs::HeldLaws::completed))]
fn complete<'a>(
    alloc: Global,
    hello: Option<Version>,
    requests: &mut Requests,
    rest: &mut BytesMut,
    piece: &'a [u8],
) -> Result<Option<Behind<'a>>, BodyFault>
    requires begun { IsBeginning hello rest.old.items }
    ensures grown { take (length rest.old.items) rest.new.items ≡ rest.old.items }
    ensures frame { IfOk result (λ next. IfSome next (λ behind.
        Adds hello (rest.old.items ++ piece.now) requests.old requests.new behind.hello behind.bytes.now)) }
    ensures begun { IfOk result (λ next. IfNone next ((requests.new ≡ requests.old)
        × (rest.new.items ≡ rest.old.items ++ piece.now) × IsBeginning hello rest.new.items)) }
    ensures fault { IfErr result (λ e. IfFault e (λ fault. (requests.new ≡ requests.old)
        × IsFaulty hello (rest.old.items ++ piece.now) fault)) }
{
    let mut piece = piece;
    loop {
        let lacks = lacking(hello, rest.as_slice());
        if piece.len() < lacks {
            rest.extend_from_slice(piece)?;
            return Ok(None);
        }
        let (front, back) = piece.split_at(lacks);
        rest.extend_from_slice(front)?;
        piece = back;
        match requests.read_next(alloc, hello, rest.as_slice()) {
            Ok(Some(behind)) => {
                return Ok(Some(Behind {
                    hello: behind.hello,
                    bytes: piece,
                }));
            }
            Ok(None) => {}
            Err(fault) => return Err(fault),
        }
    }
}

/// Reads on after the held beginning of a frame.
#[tactic(auto, using(crate::proofs::HeldLaws::frames_added, crate::proofs::HeldLaws::frames_begun, crate::proofs::HeldLaws::frames_failed))]
fn read_held(
    alloc: Global,
    hello: Option<Version>,
    requests: &mut Requests,
    rest: &mut BytesMut,
    piece: &[u8],
) -> Result<Progress, NoMemory>
    requires none { requests.old ≡ [] }
    requires begun { IsBeginning hello rest.old.items }
    ensures ok { IfOk result (λ t. Frames hello (rest.old.items ++ piece.now) requests.new
        (held_of t.hello rest.new.items t.fault)) }
    ensures err { OnErr result (take (length rest.old.items) rest.new.items ≡ rest.old.items) }
{
    match complete(alloc, hello, requests, rest, piece) {
        Ok(Some(behind)) => read_whole(alloc, behind.hello, requests, rest, behind.bytes),
        Ok(None) => Ok(Progress { hello, fault: None }),
        Err(BodyFault::Fault(fault)) => Ok(Progress {
            hello,
            fault: Some(fault),
        }),
        Err(BodyFault::NoMemory) => Err(NoMemory),
    }
}

/// Reads on, or leaves the held bytes unchanged.
fn read_on(
    alloc: Global,
    hello: Option<Version>,
    requests: &mut Requests,
    rest: &mut BytesMut,
    piece: &[u8],
) -> Result<Progress, NoMemory>
    requires none { requests.old ≡ [] }
    requires begun { IsBeginning hello rest.old.items }
    ensures ok { IfOk result (λ t. Frames hello (rest.old.items ++ piece.now) requests.new
        (held_of t.hello rest.new.items t.fault)) }
    ensures err { OnErr result (rest.new.items ≡ rest.old.items) }
{
    if rest.is_empty() {
        return read_whole(alloc, hello, requests, rest, piece);
    }
    let kept = rest.len();
    match read_held(alloc, hello, requests, rest, piece) {
        Ok(progress) => Ok(progress),
        Err(NoMemory) => {
            rest.truncate(kept);
            Err(NoMemory)
        }
    }
}

/// The bytes of a stream so far, as requests and the rest.
#[derive(Drop)]
pub struct Feeder {
    hello: Option<Version>,
    rest: BytesMut,
    fault: Option<ProtocolFault>,
}

impl Model for Feeder {
    ghost use Rattle.client_protocol.specs.Frames.{Held, held_of, IsSoundHeld};

    ghost Value = { Held };

    ghost view = { λ f. held_of f.hello f.rest.items f.fault };

    ghost invariant = { λ f. IsSoundHeld (held_of f.hello f.rest.items f.fault) };
}

impl Feeder {
    /// Makes a feeder that has no bytes yet. Takes no memory.
    pub fn new(alloc: Global) -> Feeder
        ensures { result ≡ open_at None [] }
    {
        Feeder {
            hello: None,
            rest: BytesMut::new(alloc),
            fault: None,
        }
    }

    /// Returns the requests that this piece completes, up to a fault, if any. `NoMemory` if a request for memory is refused; then
    /// the piece was not taken. Makes its own list, with as much room as `feed_into` asks for.
    pub fn feed(&mut self, alloc: Global, piece: &[u8]) -> Result<Fed, NoMemory>
        ensures requests { IfOk result (λ fed. Feeds self.old piece.now fed.requests.items self.new) }
        ensures fault { IfOk result (λ fed. fed.fault ≡ held_fault self.new) }
        ensures err { OnErr result (self.new ≡ self.old) }
        ensures still { IsSome (held_fault self.old) → IsOk result }
    {
        let mut requests = Requests::new(alloc);
        let fault = self.feed_into(alloc, piece, &mut requests)?;
        Ok(Fed {
            requests: requests.into_vec(),
            fault,
        })
    }

    /// Reads a piece as `feed` does, and leaves the requests in this list, whose buffers are used again. The list's old contents
    /// are lost. Returns the fault, if any. `NoMemory` as `feed`; the list's contents are then unspecified. Asks for room for all
    /// requests that a piece of this length can bring, and for at least 205. A later piece asks for more only if it is longer than
    /// all before it and than 1,024 bytes, or for a program. So memory that others fill in between does not refuse it.
    #[tactic(auto, using(crate::proofs::HeldLaws::sound_after))]
    pub fn feed_into(
        &mut self,
        alloc: Global,
        piece: &[u8],
        requests: &mut Requests,
    ) -> Result<Option<ProtocolFault>, NoMemory>
        ensures requests { OnOk result (Feeds self.old piece.now requests.new self.new) }
        ensures fault { IfOk result (λ fault. fault ≡ held_fault self.new) }
        ensures err { OnErr result (self.new ≡ self.old) }
        ensures still { IsSome (held_fault self.old) → IsOk result }
    {
        requests.clear();
        if let Some(fault) = self.fault {
            return Ok(Some(fault));
        }
        requests.reserve(LEAST_ROOM.max(piece.len() / LEAST_FRAME + 1))?;
        let progress = read_on(alloc, self.hello, requests, &mut self.rest, piece)?;
        self.hello = progress.hello;
        self.fault = progress.fault;
        Ok(progress.fault)
    }

    /// Returns the Hello that was taken, if any; none after a fault.
    pub fn hello(&self) -> Option<Version>
        ensures { result ≡ held_hello self.now }
    {
        if self.fault.is_some() {
            return None;
        }
        self.hello
    }

    /// Returns how many bytes there is room for, for the beginning of a frame.
    pub fn bytes(&self) -> usize {
        self.rest.capacity()
    }

    /// Tests whether the stream so far ends inside a frame.
    pub fn is_inside(&self) -> bool
        ensures { result ≡ is_inside self.now }
    {
        self.fault.is_none() && !self.rest.is_empty()
    }
}
