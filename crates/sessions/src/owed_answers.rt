//! The answers that a client's connection has not taken yet.
ghost use Rattle.std.specs.Prelude.{◌≡◌, ◌+◌, ◌++◌, ◌↔◌, [], Err, IsTrue, OnOk, OnErr};
ghost use Rattle.atomic_methods.specs.declared.walk_reply.WalkReply.{WalkReply as TheReply};
ghost use Rattle.client_protocol.specs.Responses.{response_frames};
ghost use Rattle.devices.specs.Channels.{TakesOwed};
ghost use Rattle.devices.specs.Devices.{CanWrite, TakesBytes, TakesPart};
ghost use Rattle.sessions.specs.Answering.{walk_responses};
ghost use Rattle.sessions.specs.OwedAnswers.{sink_of};

use crate::session::send::{Replies, send_whole};
use crate::unsent::{ROOM_BYTES, UnsentReply};
use atomic_methods::WalkReply;
use devices::{Channel, Failed, Owed, Sink, Taking};
use std::alloc::{AllocError, Global};
use std::marker::Model;
use std::mem;

/// A reply of no more items than this is owed in frames at once.
const FEW_ITEMS: usize = 64;

/// At most this many chunks are sent at a time, so that others have their turn.
const MOST_CHUNKS: usize = 16;

/// The answers that a connection has not taken yet: bytes, then the reply of a walk whose frames are made when the connection takes
/// them, and then the bytes after that.
#[derive(Drop)]
pub struct OwedAnswers {
    alloc: Global,
    front: Owed,
    reply: Option<UnsentReply>,
    back: Owed,
    failures: u64,
}

/// Why a reply is not kept.
#[derive(Drop)]
enum NotKept {
    /// It has few items, or others are owed after one. Here it is again.
    Back(WalkReply),
    /// A request for memory was refused, and the reply is given up.
    NoMemory,
}

impl Model for OwedAnswers {
    ghost use Rattle.std.specs.Prelude.{◌≤◌, length};
    ghost use Rattle.std.specs.Option.{ForSome};
    ghost use Rattle.sessions.specs.OwedAnswers.{OwedState, in_order};

    ghost Value = { OwedState };

    ghost view = { λ o. record { rest = in_order o.front o.reply o.back; failures = o.failures } };

    ghost invariant = { λ o. ForSome o.reply (λ frames. 1 ≤ length frames) };
}

impl OwedAnswers {
    /// Owes nothing. Takes no memory.
    pub fn new(alloc: Global) -> OwedAnswers
        ensures { result ≡ record { rest = []; failures = 0 } }
    {
        OwedAnswers {
            alloc,
            front: Owed::new(alloc),
            reply: None,
            back: Owed::new(alloc),
            failures: 0,
        }
    }

    /// Tests whether nothing is owed.
    pub fn is_empty(&self) -> bool
        ensures { IsTrue result ↔ (self.now.rest ≡ []) }
    {
        if self.reply.is_some() || self.front.len() > 0 {
            return false;
        }
        self.back.len() == 0
    }

    /// Tests whether frames of a walk's reply are still to be made.
    pub fn has_reply(&self) -> bool {
        self.reply.is_some()
    }

    /// Returns about how many bytes are kept.
    pub fn bytes(&self) -> usize {
        let reply = self.reply.as_ref().map_or(0, UnsentReply::bytes);
        let made = self.front.len().saturating_add(self.back.len());
        made.saturating_add(reply)
    }

    /// Owes these bytes after all others. If a request for memory is refused, none of them is owed.
    fn append(&mut self, bytes: &[u8]) -> Result<(), AllocError>
        ensures ok { OnOk result (self.new ≡ record { rest = self.old.rest ++ bytes.now; failures = self.old.failures }) }
        ensures err { OnErr result (self.new ≡ self.old) }
    {
        if self.reply.is_some() || self.back.len() > 0 {
            return self.back.append(bytes);
        }
        self.front.append(bytes)
    }

    /// Owes the frames of this reply after all other bytes, to be made later, in room that is asked for now.
    fn keep(&mut self, reply: WalkReply) -> Result<(), NotKept>
        ensures ok { OnOk result (self.new ≡ record { rest = self.old.rest ++ response_frames (walk_responses reply); failures = self.old.failures }) }
        ensures err { OnErr result (self.new ≡ self.old) }
        ensures back { (back : TheReply) → result ≡ Err (NotKept.Back back) → back ≡ reply }
    {
        if self.reply.is_some() || self.back.len() > 0 || reply.items.len() <= FEW_ITEMS {
            return Err(NotKept::Back(reply));
        }
        let Ok(()) = self.front.reserve(ROOM_BYTES) else {
            return Err(NotKept::NoMemory);
        };
        let Ok(unsent) = UnsentReply::new(self.alloc, reply) else {
            return Err(NotKept::NoMemory);
        };
        self.reply = Some(unsent);
        Ok(())
    }

    /// Counts a write that fails, and took nothing.
    fn fail(&mut self) -> Failed
        requires { CanWrite (sink_of self.old) }
        ensures { self.new ≡ record { rest = self.old.rest; failures = self.old.failures + 1 } }
    {
        self.failures += 1;
        Failed
    }

    /// Owes the frames of this reply after all other bytes. If they are many, and no other reply is owed, they are made later, and all
    /// memory that they need is asked for now. If it is refused, none of them is owed.
    fn owe_reply(&mut self, reply: WalkReply) -> Result<(), Failed>
        requires { CanWrite (sink_of self.old) }
        ensures ok { OnOk result (TakesBytes (sink_of self.old) (sink_of self.new) (response_frames (walk_responses reply))) }
        ensures err { OnErr result (TakesPart (sink_of self.old) (sink_of self.new) (response_frames (walk_responses reply))) }
    {
        match self.keep(reply) {
            Ok(()) => Ok(()),
            Err(NotKept::Back(reply)) => send_whole(self, &reply),
            Err(NotKept::NoMemory) => Err(self.fail()),
        }
    }

    /// If the front is sent, brings to it what comes next: frames of the reply, or what is owed after it. If a request for memory is
    /// refused, nothing is lost.
    fn go_on(&mut self) -> Result<(), AllocError>
        ensures { self.new ≡ self.old }
    {
        if self.front.len() > 0 {
            return Ok(());
        }
        self.front.rewind();
        match &mut self.reply {
            None => mem::swap(&mut self.front, &mut self.back),
            Some(reply) => {
                if reply.owe_next(&mut self.front)? {
                    self.reply = None;
                }
            }
        }
        Ok(())
    }

    /// Sends from the front, as much as the connection takes now.
    fn send_front<C: Channel>(&mut self, channel: &mut C) -> Taking
        ensures taken { TakesOwed (C.state channel.old) (C.state channel.new) self.old.rest self.new.rest }
        ensures failures { self.new.failures ≡ self.old.failures }
    {
        self.front.send_to(channel)
    }

    /// Sends what is owed, as far as the connection takes it now; of a long reply a part at a time. It also returns `Failed` if a
    /// request for memory for the next frames is refused.
    pub fn send_to<C: Channel>(&mut self, channel: &mut C) -> Taking
        ensures taken { TakesOwed (C.state channel.old) (C.state channel.new) self.old.rest self.new.rest }
        ensures failures { self.new.failures ≡ self.old.failures }
        ensures all { result ≡ Taking.All → self.new.rest ≡ [] }
    {
        for _ in 0..MOST_CHUNKS {
            let taking = self.send_front(channel);
            if taking != Taking::All {
                return taking;
            }
            if self.is_empty() {
                return Taking::All;
            }
            let Ok(()) = self.go_on() else {
                return Taking::Failed;
            };
        }
        Taking::More
    }

    /// If nothing is owed, frees the room beyond what is kept for later.
    pub fn settle(&mut self, alloc: Global)
        ensures { self.new ≡ self.old }
    {
        if self.is_empty() {
            self.front.settle(alloc);
            self.back.settle(alloc);
        }
    }
}

impl Sink for OwedAnswers {
    ghost state = { sink_of };

    fn write(&mut self, bytes: &[u8]) -> Result<usize, Failed> {
        match self.append(bytes) {
            Ok(()) => Ok(bytes.len()),
            Err(_) => Err(self.fail()),
        }
    }

    fn flush(&mut self) -> Result<(), Failed> {
        Ok(())
    }
}

/// A reply is kept, and its frames are made when the connection takes them.
pub(crate) struct WhenTaken;

impl Replies<OwedAnswers> for WhenTaken {
    fn send_reply(writer: &mut OwedAnswers, reply: WalkReply) -> Result<(), Failed> {
        writer.owe_reply(reply)
    }
}
