//! The reply of a walk, as frames that are made a few at a time.
ghost use Rattle.std.specs.Prelude.{◌≡◌, ◌≢◌, ◌≤◌, ◌<◌, ◌++◌, true, length, IfOk, OnOk, OnErr};
ghost use Rattle.bins.specs.Entries.{entry_of};
ghost use Rattle.client_protocol.specs.Responses.{response_frame, response_frames};
ghost use Rattle.sessions.specs.Answering.{item_of, walk_responses};
ghost use Rattle.sessions.specs.Unsent.{item_frames_from};

use crate::session::send::end_of;
use atomic_methods::WalkReply;
use bins::MergedEntries;
use client_protocol::item_head;
use devices::Owed;
use std::alloc::{AllocError, Global};
use std::marker::Model;

/// Frames are made until this many bytes are owed.
const CHUNK_BYTES: usize = 65536;

/// The frame of an item that begins before that many bytes are owed, and of the end, have no more than this.
const LAST_BYTES: usize = 2048;

/// What `owe_next` adds to nothing that is owed has at most this many bytes.
pub const ROOM_BYTES: usize = CHUNK_BYTES + LAST_BYTES;

/// The frames of a walk's reply that are not made yet: at least that of its end.
#[derive(Drop)]
pub struct UnsentReply {
    reply: Box<WalkReply>,
    next: usize,
}

impl Model for UnsentReply {
    ghost use Rattle.std.specs.Prelude.{ℕ, List, ◌≤◌, length};
    ghost use Rattle.sessions.specs.Unsent.{frames_from};

    ghost Value = { List ℕ };

    ghost view = { λ u. frames_from u.reply.value u.next };

    ghost invariant = { λ u. u.next ≤ length u.reply.value.items };
}

/// Owes the frame of the item at a position.
fn owe_item(items: &MergedEntries, position: usize, owed: &mut Owed) -> Result<(), AllocError>
    requires { position < length items.now }
    ensures ok { OnOk result (owed.new ≡ owed.old ++ response_frame (item_of (entry_of items.now position))) }
    ensures err { OnErr result (owed.new ≡ owed.old) }
{
    let (key, value) = items.get(position);
    let head = item_head(key, value);
    owed.append_both(head.as_slice(), value)
}

/// Owes the frames of the next items, until enough bytes are owed, and counts `next` on.
fn owe_items(items: &MergedEntries, next: &mut usize, owed: &mut Owed) -> Result<(), AllocError>
    requires { next.old ≤ length items.now }
    ensures within { next.new ≤ length items.now }
    ensures whole { owed.new ++ item_frames_from items.now next.new ≡ owed.old ++ item_frames_from items.now next.old }
{
    for position in *next..items.len() {
        if owed.len() >= CHUNK_BYTES {
            break;
        }
        owe_item(items, position, owed)?;
        *next = position + 1;
    }
    Ok(())
}

impl UnsentReply {
    /// Begins with the whole reply. If a request for memory is refused, the reply is given up.
    pub fn new(alloc: Global, reply: WalkReply) -> Result<UnsentReply, AllocError>
        ensures whole { IfOk result (λ unsent. unsent ≡ response_frames (walk_responses reply)) }
        ensures some { IfOk result (λ unsent. 1 ≤ length unsent) }
    {
        Ok(UnsentReply {
            reply: Box::new(alloc, reply)?,
            next: 0,
        })
    }

    /// Returns about how many bytes are kept, with the room for frames.
    pub fn bytes(&self) -> usize {
        self.reply.items.bytes().saturating_add(ROOM_BYTES)
    }

    /// Makes the next frames, and owes them. Returns whether all are made. If a request for memory is refused, no byte is lost, and
    /// you may try again.
    pub fn owe_next(&mut self, owed: &mut Owed) -> Result<bool, AllocError>
        ensures done { result ≡ Ok true → owed.new ≡ owed.old ++ self.old }
        ensures more { result ≢ Ok true → owed.new ++ self.new ≡ owed.old ++ self.old }
        ensures some { 1 ≤ length self.new }
    {
        let reply = &*self.reply;
        owe_items(&reply.items, &mut self.next, owed)?;
        if self.next < reply.items.len() {
            return Ok(false);
        }
        owed.append(end_of(reply.counts).frame().as_slice())?;
        Ok(true)
    }
}
