//! Bytes that a connection has not taken yet.
ghost use Rattle.std.specs.Prelude.{◌≡◌, ◌≤◌, ◌<◌, ℕ, [], ◌++◌, length, OnOk, OnErr};
ghost use Rattle.devices.specs.Channels.{TakesOwed};

use crate::channel::{Channel, Sent};
use std::alloc::{AllocError, Global};
use std::marker::Model;

/// If nothing is owed, at most this much room is kept for later.
const KEPT_BYTES: usize = 1024;

/// Bytes that a connection has not taken yet.
#[derive(Drop)]
pub struct Owed {
    bytes: Vec<u8>,
    taken: usize,
}

impl Model for Owed {
    ghost use Rattle.std.specs.Prelude.{ℕ, List, ◌≤◌, length, drop};

    ghost Value = { List ℕ };

    ghost view = { λ o. drop o.taken o.bytes.items };

    ghost invariant = { λ o. o.taken ≤ length o.bytes.items };
}

/// How much of the owed bytes was taken.
#[derive(Clone, Copy, Debug, PartialEq, Eq)]
pub enum Taking {
    /// All of it.
    All,
    /// A part, and the connection may take more now.
    More,
    /// The connection takes no more now.
    NotNow,
    /// The connection failed.
    Failed,
}

impl Owed {
    /// Owes nothing. Takes no memory.
    pub fn new(alloc: Global) -> Owed
        ensures { result ≡ [] }
    {
        Owed {
            bytes: Vec::new(alloc),
            taken: 0,
        }
    }

    /// Returns how many bytes are owed.
    pub fn len(&self) -> usize
        ensures { result ≡ length self.now }
    {
        self.bytes.len() - self.taken
    }

    /// Makes room for this number of bytes more, which can then be owed without a request for memory.
    pub fn reserve(&mut self, count: usize) -> Result<(), AllocError>
        ensures { self.new ≡ self.old }
    {
        self.bytes.reserve(count)
    }

    /// Owes these bytes after all others. If a request for memory is refused, none of them is owed.
    pub fn append(&mut self, bytes: &[u8]) -> Result<(), AllocError>
        ensures ok { OnOk result (self.new ≡ self.old ++ bytes.now) }
        ensures err { OnErr result (self.new ≡ self.old) }
    {
        self.bytes.extend_from_slice(bytes)
    }

    /// Owes the bytes of both parts, one after the other. If a request for memory is refused, none of them is owed.
    pub fn append_both(&mut self, first: &[u8], second: &[u8]) -> Result<(), AllocError>
        ensures ok { OnOk result (self.new ≡ self.old ++ (first.now ++ second.now)) }
        ensures err { OnErr result (self.new ≡ self.old) }
    {
        self.bytes.reserve(first.len() + second.len())?;
        let Ok(()) = self.bytes.extend_from_slice(first) else {
            unreachable!()
        };
        let Ok(()) = self.bytes.extend_from_slice(second) else {
            unreachable!()
        };
        Ok(())
    }

    /// Sends once from the owed bytes.
    fn send_front<C: Channel>(&mut self, channel: &mut C) -> Sent
        requires { 1 ≤ length self.old }
        ensures taken { TakesOwed (C.state channel.old) (C.state channel.new) self.old self.new }
        ensures shorter { (n : ℕ) → result ≡ Sent.Took n → length self.new < length self.old }
    {
        let sent = channel.send(&self.bytes[self.taken..]);
        if let Sent::Took(n) = sent {
            self.taken += n;
        }
        sent
    }

    /// Sends the owed bytes, as many as the connection takes now. Never returns `More`.
    #[tactic(auto, using(crate::proofs::ChannelLemmas::takes_none, crate::proofs::ChannelLemmas::takes_both))]
    pub fn send_to<C: Channel>(&mut self, channel: &mut C) -> Taking
        ensures taken { TakesOwed (C.state channel.old) (C.state channel.new) self.old self.new }
        ensures all { result ≡ Taking.All → self.new ≡ [] }
    {
        while self.len() > 0 {
            match self.send_front(channel) {
                Sent::Took(_) => {}
                Sent::NotNow => return Taking::NotNow,
                Sent::Failed => return Taking::Failed,
            }
        }
        Taking::All
    }

    /// If nothing is owed, forgets the bytes that were taken, and keeps their room.
    pub fn rewind(&mut self)
        ensures { self.new ≡ self.old }
    {
        if self.len() > 0 {
            return;
        }
        self.bytes.clear();
        self.taken = 0;
    }

    /// If nothing is owed, forgets the bytes that were taken, and frees the room beyond what is kept for later.
    pub fn settle(&mut self, alloc: Global)
        ensures { self.new ≡ self.old }
    {
        if self.len() > 0 {
            return;
        }
        if self.bytes.capacity() > KEPT_BYTES {
            self.bytes = Vec::new(alloc);
        } else {
            self.bytes.clear();
        }
        self.taken = 0;
    }
}
