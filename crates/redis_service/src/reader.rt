//! Reads commands from bytes, one after the other.
ghost use Rattle.std.specs.Prelude.{◌≡◌};
ghost use Rattle.resp.specs.Grammar.{texts};
ghost use Rattle.redis_service.specs.Reads.{ReadsNext};

use bumpalo::Bump;
use resp::{Next, NextFault, next_command};
use std::alloc::Global;

/// Bytes that commands are read from, and the words of the last one.
#[derive(Drop)]
pub struct Reader<'b, 'w> {
    /// What is not read yet.
    pub rest: &'b [u8],
    /// The words of the command that was read.
    pub words: Vec<&'w [u8]>,
    /// Where words in quotes are.
    arena: &'w Bump,
}

impl<'b: 'w, 'w> Reader<'b, 'w> {
    /// Begins to read. Takes no memory.
    pub fn new(alloc: Global, bytes: &'b [u8], arena: &'w Bump) -> Reader<'b, 'w>
        ensures { result.rest.now ≡ bytes.now }
    {
        Reader {
            rest: bytes,
            words: Vec::new(alloc),
            arena,
        }
    }

    /// Reads what the rest begins with. Returns `NoMemory` if memory for the words is refused.
    #[tactic(auto, using(crate::proofs::ReadLemmas::spelled_some, crate::proofs::ReadLemmas::ignored_some))]
    pub fn next(&mut self) -> Result<Next<'b>, NextFault>
        ensures { ReadsNext result self.old.rest.now (texts self.new.words.items) self.new.rest.now }
    {
        match next_command(self.rest, self.arena, &mut self.words)? {
            Next::Command(rest) => {
                self.rest = rest;
                Ok(Next::Command(rest))
            }
            Next::Nothing(rest) => {
                self.rest = rest;
                Ok(Next::Nothing(rest))
            }
            Next::More => Ok(Next::More),
        }
    }
}
