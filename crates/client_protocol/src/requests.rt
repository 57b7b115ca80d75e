//! A list of requests whose buffers are used again.
ghost use Rattle.std.specs.Prelude.{◌≡◌, ◌≤◌, ◌<◌, [], ◌∷◌, ◌++◌, vec_len, vec_capacity, IsOk, OnOk, IfOk, IfErr, OnErr, IfSome, IfNone};
ghost use Rattle.client_protocol.specs.Frames.{IsBeginning, IsFaulty};
ghost use Rattle.client_protocol.specs.Reading.{IfFault, Adds};
ghost use Rattle.client_protocol.specs.Requests.{Request as TheRequest};

use crate::frames::{hello_after, next};
use crate::limits::Version;
use crate::reading::BodyFault;
use crate::request::Request;
use bpf_model::NoMemory;
use std::alloc::Global;
use std::marker::Model;

/// Requests in order. `clear` keeps the list's buffers, and later requests use them again: reading a request copies only its
/// bytes.
#[derive(Drop)]
pub struct Requests {
    buffers: Vec<Request>,
    used: usize,
}

impl Model for Requests {
    ghost use Rattle.std.specs.Prelude.{List, take, ◌≤◌, length};
    ghost use Rattle.client_protocol.specs.Requests.{Request};

    ghost Value = { List Request };

    ghost view = { λ r. take r.used r.buffers.items };

    ghost invariant = { λ r. r.used ≤ length r.buffers.items };
}

/// The state after a request was read.
#[derive(Clone, Copy)]
pub struct Behind<'b> {
    /// The Hello taken.
    pub hello: Option<Version>,
    pub bytes: &'b [u8],
}

/// Makes room for this many buffers in all. Asks for no memory if there is room already.
fn make_room(buffers: &mut Vec<Request>, count: usize) -> Result<(), NoMemory>
    ensures items { buffers.new.items ≡ buffers.old.items }
    ensures room { OnOk result (count ≤ vec_capacity buffers.new) }
    ensures enough { count ≤ vec_capacity buffers.old → IsOk result }
{
    buffers.reserve(count.saturating_sub(buffers.len()))?;
    Ok(())
}

/// Adds a buffer at the end. Asks for no memory if there is room for it.
#[inline(never)]
fn add_buffer(buffers: &mut Vec<Request>, alloc: Global) -> Result<(), NoMemory>
    ensures ok { OnOk result ((buffer : TheRequest) × (buffers.new.items ≡ buffers.old.items ++ buffer ∷ [])) }
    ensures err { OnErr result (buffers.new.items ≡ buffers.old.items) }
    ensures enough { vec_len buffers.old < vec_capacity buffers.old → IsOk result }
{
    buffers.reserve(1)?;
    buffers.push_reserved(Request::new(alloc));
    Ok(())
}

impl Requests {
    /// Makes an empty list without buffers. Takes no memory.
    pub fn new(alloc: Global) -> Requests
        ensures { result ≡ [] }
    {
        Requests {
            buffers: Vec::new(alloc),
            used: 0,
        }
    }

    /// Forgets the requests, and keeps their buffers.
    pub fn clear(&mut self)
        ensures { self.new ≡ [] }
    {
        self.used = 0;
    }

    /// Returns the requests in order.
    pub fn as_slice(&self) -> &[Request]
        ensures { result.now ≡ self.now }
    {
        &self.buffers[..self.used]
    }

    /// Makes room for this many requests in all. Making a buffer within it asks for no memory.
    pub(crate) fn reserve(&mut self, count: usize) -> Result<(), NoMemory>
        ensures { self.new ≡ self.old }
    {
        make_room(&mut self.buffers, count)
    }

    /// Adds the request of the frame that begins the bytes, and returns the bytes after it, or `None` if the frame has
    /// only begun. Reads the request into the next buffer, and makes it if there is none.
    pub(crate) fn read_next<'b>(
        &mut self,
        alloc: Global,
        hello: Option<Version>,
        bytes: &'b [u8],
    ) -> Result<Option<Behind<'b>>, BodyFault>
        ensures frame { IfOk result (λ next. IfSome next (λ behind.
            Adds hello bytes.now self.old self.new behind.hello behind.bytes.now)) }
        ensures begun { IfOk result (λ next. IfNone next ((self.new ≡ self.old) × IsBeginning hello bytes.now)) }
        ensures fault { IfErr result (λ e. IfFault e (λ fault. (self.new ≡ self.old) × IsFaulty hello bytes.now fault)) }
    {
        if self.used == self.buffers.len() {
            add_buffer(&mut self.buffers, alloc)?;
        }
        let buffer = &mut self.buffers[self.used];
        let Some(bytes) = next(hello, bytes, buffer)? else {
            return Ok(None);
        };
        let hello = hello_after(hello, buffer);
        self.used += 1;
        Ok(Some(Behind { hello, bytes }))
    }

    /// Returns the requests, without the unused buffers.
    pub(crate) fn into_vec(self) -> Vec<Request>
        ensures { result.items ≡ self }
    {
        let mut buffers = self.buffers;
        buffers.truncate(self.used);
        buffers
    }
}
