//! A talk with one client between two pieces.
ghost use Rattle.std.specs.Prelude.{◌≡◌, [], ◌↔◌, ◌≢◌, IsTrue, IsFalse, true};
ghost use Rattle.redis_commands.specs.Commands.{text};
ghost use Rattle.server_state.specs.Passwords.{lent};
ghost use Rattle.redis_service.specs.States.{begun, ended, renamed, is_authenticated, let_in, reset, showing};

use server_state::Password;
use std::alloc::Global;
use std::marker::Model;

/// What a client shows that wants to be let in.
#[derive(Clone, Copy, Debug, PartialEq, Eq)]
pub(crate) enum Showing {
    /// The right password, or it has shown that before, or needn't.
    Right,
    /// Another password.
    Wrong,
    /// No password, though it has to.
    Missing,
}

/// A talk with one client between two pieces of its bytes: the beginning of a command, whether the talk is over, the client's name and
/// number, the password that it has to show, and whether it was let in.
#[derive(Drop)]
pub struct RedisTalk<'a> {
    pub(crate) rest: Vec<u8>,
    pub(crate) is_over: bool,
    pub(crate) name: Vec<u8>,
    pub(crate) number: u64,
    pub(crate) password: Option<&'a Password>,
    pub(crate) is_let_in: bool,
}

impl<'a> Model for RedisTalk<'a> {
    ghost use Rattle.server_state.specs.Passwords.{lent};
    ghost use Rattle.redis_service.specs.States.{TalkState};

    ghost Value = { TalkState };

    ghost view = { λ t. record { rest = t.rest.items; is_over = t.is_over; name = t.name.items; number = t.number; password = lent t.password; is_let_in = t.is_let_in } };
}

impl<'a> RedisTalk<'a> {
    /// Starts a talk with the client of this number, which has to show the password, if there is one. Takes no memory.
    pub fn new(alloc: Global, number: u64, password: Option<&'a Password>) -> RedisTalk<'a>
        ensures { result ≡ begun number (lent password.entry) }
    {
        RedisTalk {
            rest: Vec::new(alloc),
            is_over: false,
            name: Vec::new(alloc),
            number,
            password,
            is_let_in: false,
        }
    }

    /// Tests whether the bytes so far end inside a command.
    pub fn is_inside(&self) -> bool
        ensures { IsTrue result ↔ (self.now.rest ≢ []) }
    {
        !self.rest.is_empty()
    }

    /// Returns how many bytes there is room for, for the beginning of a command and the client's name.
    pub fn bytes(&self) -> usize {
        self.rest.capacity().saturating_add(self.name.capacity())
    }

    /// Tests whether the talk is over.
    pub(crate) fn is_over(&self) -> bool
        ensures { result ≡ self.now.is_over }
    {
        self.is_over
    }

    /// Returns the client's number.
    pub(crate) fn number(&self) -> u64
        ensures { result ≡ self.now.number }
    {
        self.number
    }

    /// Returns the client's name.
    pub(crate) fn name(&self) -> &[u8]
        ensures { result.now ≡ self.now.name }
    {
        &self.name
    }

    /// The client asked for the end.
    pub(crate) fn leave(&mut self)
        ensures { self.new ≡ record self.old { is_over = true } }
    {
        self.is_over = true;
    }

    /// Takes the client's name away, and it has to show the password again.
    pub(crate) fn reset(&mut self, alloc: Global)
        ensures { self.new ≡ reset self.old }
    {
        self.name = Vec::new(alloc);
        self.is_let_in = false;
    }

    /// Tests whether the client needn't show a password any more.
    pub(crate) fn is_authenticated(&self) -> bool
        ensures { result ≡ is_authenticated self.now }
    {
        self.password.is_none() || self.is_let_in
    }

    /// Says what a client shows by these bytes, or without any.
    pub(crate) fn showing(&self, shown: Option<&[u8]>) -> Showing
        ensures { result ≡ showing self.now (text shown.entry) }
    {
        let Some(shown) = shown else {
            return if self.is_authenticated() {
                Showing::Right
            } else {
                Showing::Missing
            };
        };
        match self.password {
            Some(password) if !password.is(shown) => Showing::Wrong,
            _ => Showing::Right,
        }
    }

    /// Lets the client in.
    pub(crate) fn let_in(&mut self)
        ensures { self.new ≡ let_in self.old }
    {
        self.is_let_in = true;
    }

    /// Ends the talk.
    pub(crate) fn end(&mut self, alloc: Global)
        ensures { self.new ≡ ended self.old }
    {
        self.rest = Vec::new(alloc);
        self.is_over = true;
    }

    /// Holds these bytes, with which a command begins.
    pub(crate) fn hold(&mut self, held: Vec<u8>)
        ensures { self.new ≡ record self.old { rest = held.items } }
    {
        self.rest = held;
    }

    /// Keeps the beginning of a command, and returns whether memory was there.
    pub(crate) fn keep(&mut self, alloc: Global, rest: &[u8]) -> bool
        ensures kept { IsTrue result → self.new ≡ record self.old { rest = rest.now } }
        ensures same { IsFalse result → self.new ≡ self.old }
    {
        match Vec::from_slice(alloc, rest) {
            Ok(kept) => {
                self.rest = kept;
                true
            }
            Err(_) => false,
        }
    }

    /// Keeps the client's name, and returns whether memory was there.
    pub(crate) fn rename(&mut self, alloc: Global, name: &[u8]) -> bool
        ensures kept { IsTrue result → self.new ≡ renamed self.old name.now }
        ensures same { IsFalse result → self.new ≡ self.old }
    {
        match Vec::from_slice(alloc, name) {
            Ok(kept) => {
                self.name = kept;
                true
            }
            Err(_) => false,
        }
    }
}
