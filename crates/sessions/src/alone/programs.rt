//! The programs that one client registered.
ghost use Rattle.std.specs.Prelude.{◌≡◌, ◌++◌, [], ◌∷◌, length, slice_get, option_copied, IfOk, OnOk, OnErr};
ghost use Rattle.sessions.specs.Asking.{asked, IsCall};

use crate::calls::named_program;
use bpf_model::NoMemory;
use client_protocol::Request;
use std::alloc::Global;
use std::marker::Model;
use verifier::Verified;

/// Programs with their numbers: the first has 0, the next 1.
#[derive(Drop)]
pub struct Programs {
    list: Vec<Verified>,
}

impl Model for Programs {
    ghost use Rattle.std.specs.Prelude.{List};
    ghost use Rattle.verifier.specs.Checked.{Checked};

    ghost Value = { List Checked };

    ghost view = { λ programs. programs.list.items };
}

impl Programs {
    /// Makes an empty list. Takes no memory.
    pub fn new(alloc: Global) -> Programs
        ensures value { result ≡ [] }
    {
        Programs {
            list: Vec::new(alloc),
        }
    }

    /// Gives the program the next number, keeps it, and returns the number. `NoMemory` if the room for it is refused.
    pub fn add(&mut self, program: Verified) -> Result<u64, NoMemory>
        ensures number { IfOk result (λ number. number ≡ length self.old) }
        ensures ok { OnOk result (self.new ≡ self.old ++ program ∷ []) }
        ensures err { OnErr result (self.new ≡ self.old) }
    {
        let number = self.list.len() as u64;
        self.list.push(program)?;
        Ok(number)
    }

    /// Returns the program with this number, if there is one. Takes no memory.
    pub fn get(&self, number: u64) -> Option<&Verified>
        ensures value { option_copied result ≡ slice_get self.now number }
    {
        self.list.get(number as usize)
    }

    /// Returns the program whose number the call names, if it names one and there is one. Takes no memory.
    pub fn named_by(&self, request: &Request) -> Option<&Verified>
        requires { IsCall request.now }
        ensures { asked (λ number. slice_get self.now number) request.now ≡ asked (λ _. option_copied result) request.now }
    {
        let Some(number) = named_program(request) else {
            return None;
        };
        self.get(number)
    }
}
