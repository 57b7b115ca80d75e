//! How a client speaks, and what of its bytes was read and not answered yet.
ghost use Rattle.std.specs.Prelude.{◌≡◌, true, false};
ghost use Rattle.server_state.specs.Passwords.{lent};
ghost use Rattle.crews.specs.Talks.{IsOpen, IsBetween, IsInside, begins_so};

use crate::clients::Protocol;
use client_protocol::Feeder;
use redis_service::RedisTalk;
use server_state::Password;
use std::alloc::Global;

/// A client's talk between two turns, by the protocol that it speaks: what was read of a frame, or of a command.
#[derive(Drop)]
pub enum Talk<'a> {
    Frames(Feeder),
    Commands(RedisTalk<'a>),
}

impl<'a> Talk<'a> {
    /// Starts a talk in this protocol; `CLIENT ID` tells the number, and `AUTH` has to show the password, if there is one. Takes no
    /// memory.
    pub fn new(
        alloc: Global,
        number: u64,
        password: Option<&'a Password>,
        protocol: Protocol,
    ) -> Talk<'a>
        ensures { result ≡ begins_so number (lent password.entry) protocol }
    {
        match protocol {
            Protocol::Frames => Talk::Frames(Feeder::new(alloc)),
            Protocol::Commands => Talk::Commands(RedisTalk::new(alloc, number, password)),
        }
    }

    /// Returns how many bytes there is room for, for what was read of a frame or a command.
    pub fn bytes(&self) -> usize {
        match self {
            Talk::Frames(feeder) => feeder.bytes(),
            Talk::Commands(talk) => talk.bytes(),
        }
    }

    /// Tests whether the bytes so far end inside a frame or a command.
    pub fn is_inside(&self) -> bool
        ensures inside { result ≡ true → IsOpen self.now → IsInside self.now }
        ensures between { result ≡ false → IsOpen self.now → IsBetween self.now }
    {
        match self {
            Talk::Frames(feeder) => feeder.is_inside(),
            Talk::Commands(talk) => talk.is_inside(),
        }
    }
}
