//! The registry, and the tokens that it gives for programs.
ghost use Rattle.std.specs.Prelude.{◌≡◌, ◌+◌, IfSome, IsSomeAnd, IfOk, IfErr};
ghost use Rattle.bpf_model.specs.Meaning.{IsSafe};
ghost use Rattle.program_registry.specs.Sent.{IsSentAs};
ghost use Rattle.program_registry.specs.Tokens.{IsOf, program_of, token_number};

use crate::known::{Bounds, Known};
use crate::sent::SentProgram;
use boxcar::{Pushed, Vec};
use bpf_model::NoMemory;
use std::alloc::Global;
use std::sync::{Mutex, Wait};
use verifier::Verified;

/// An instruction takes 16 bytes, and so does the operation that it was verified to be.
const INSTRUCTION_BYTES: u64 = 32;

/// What a program takes beside its instructions, about: its place, its digest, and what the allocator adds.
const PROGRAM_BYTES: u64 = 256;

/// Registered programs, each with a number: the first has 0, the next 1.
#[derive(Drop)]
pub struct Registry {
    programs: Vec<Verified>,
    known: Mutex<Known>,
}

/// Shows that a registry holds a program, for as long as the registry lasts.
#[derive(Drop)]
pub struct ProgramToken {
    place: Pushed<Verified>,
}

/// Returns how many bytes a program takes, about, with its operations.
fn bytes_of(verified: &Verified) -> u64 {
    let instructions = verified.program().instructions().len() as u64;
    instructions
        .saturating_mul(INSTRUCTION_BYTES)
        .saturating_add(PROGRAM_BYTES)
}

impl Registry {
    /// Makes an empty registry. `NoMemory` if a request for memory is refused.
    pub fn new(alloc: Global) -> Result<Registry, NoMemory> {
        Registry::bounded(alloc, Bounds::NONE)
    }

    /// Makes an empty registry that keeps to these bounds. `NoMemory` if a request for memory is refused.
    pub fn bounded(alloc: Global, bounds: Bounds) -> Result<Registry, NoMemory> {
        Ok(Registry {
            programs: Vec::new(alloc)?,
            known: Mutex::new(Known::new(alloc, bounds)),
        })
    }

    /// Keeps the program and counts it. `NoMemory` if a request for memory is refused, or if the bounds leave no room for it; the
    /// program comes back.
    fn keep<R: Wait>(
        &self,
        rt: &R,
        known: &mut Known,
        verified: Verified,
    ) -> Result<ProgramToken, (NoMemory, Verified)>
        ensures ok { IfOk result (λ token. IsOf self.now token × (program_of token ≡ verified)) }
        ensures err { IfErr result (λ refused. refused.1 ≡ verified) }
        ensures counted { IfOk result (λ _. known.new.taken.programs ≡ known.old.taken.programs + 1) }
    {
        let Some(taken) = known.with(1, bytes_of(&verified)) else {
            return Err((NoMemory, verified));
        };
        match self.programs.push_shown(rt, verified) {
            Ok(place) => {
                known.take(taken);
                Ok(ProgramToken { place })
            }
            Err(verified) => Err((NoMemory, verified)),
        }
    }

    /// Gives the program the next number and keeps it. `NoMemory` if a request for memory is refused or the bounds leave no room for
    /// it; the program comes back. Waits while another thread registers a program.
    pub fn register<R: Wait>(
        &self,
        rt: &R,
        verified: Verified,
    ) -> Result<ProgramToken, (NoMemory, Verified)>
        ensures ok { IfOk result (λ token. IsOf self.now token × (program_of token ≡ verified)) }
        ensures err { IfErr result (λ refused. refused.1 ≡ verified) }
    {
        let mut known = self.known.lock(rt);
        self.keep(rt, &mut known, verified)
    }

    /// The same for a program that was sent like this. One that is registered already keeps its number and isn't stored again.
    /// `NoMemory` and waiting as in `register`.
    #[tactic(auto, using(crate::proofs::SentLemmas::sent_once))]
    pub fn register_sent<R: Wait>(
        &self,
        rt: &R,
        sent: &SentProgram<'_>,
        verified: Verified,
    ) -> Result<ProgramToken, (NoMemory, Verified)>
        requires { IsSentAs sent.now.sizes sent.now.bytes.now verified }
        ensures ok { IfOk result (λ token. IsOf self.now token × (program_of token ≡ verified)) }
        ensures err { IfErr result (λ refused. refused.1 ≡ verified) }
    {
        let mut known = self.known.lock(rt);
        if let Some(token) = self.sent_in(&known, sent) {
            return Ok(token);
        }
        let token = self.keep(rt, &mut known, verified)?;
        known.note(sent.digest(), token.number());
        Ok(token)
    }

    /// Returns a token of the known program that was sent like this, if there is one.
    fn sent_in(&self, known: &Known, sent: &SentProgram<'_>) -> Option<ProgramToken>
        ensures mine { IfSome result (λ token. IsOf self.now token) }
        ensures same { IfSome result (λ token. IsSentAs sent.now.sizes sent.now.bytes.now (program_of token)) }
    {
        let number = known.number_of(sent.digest())?;
        self.sent_as(number, sent)
    }

    /// Returns a token of the program with this number, if it was sent like this.
    fn sent_as(&self, number: u64, sent: &SentProgram<'_>) -> Option<ProgramToken>
        ensures mine { IfSome result (λ token. IsOf self.now token) }
        ensures same { IfSome result (λ token. IsSentAs sent.now.sizes sent.now.bytes.now (program_of token)) }
        ensures safe { IfSome result (λ token. IsSafe (program_of token).program (program_of token).sizes) }
    {
        let (token, verified) = self.find(number)?;
        if sent.is(verified) { Some(token) } else { None }
    }

    /// Returns a token of the registered program with these sizes and bytes, if there is one. Takes no memory. Waits while
    /// another thread registers a program.
    pub fn find_same<R: Wait>(&self, rt: &R, sent: &SentProgram<'_>) -> Option<ProgramToken>
        ensures mine { IfSome result (λ token. IsOf self.now token) }
        ensures same { IfSome result (λ token. IsSentAs sent.now.sizes sent.now.bytes.now (program_of token)) }
        ensures safe { IfSome result (λ token. IsSafe (program_of token).program (program_of token).sizes) }
    {
        let number = self.known.lock(rt).number_of(sent.digest())?;
        self.sent_as(number, sent)
    }

    /// Returns the program with this number and a token of it, if one was registered. Takes no memory. Never waits.
    pub fn find(&self, number: u64) -> Option<(ProgramToken, &Verified)>
        ensures token { IfSome result (λ found. IsOf self.now found.0 × (token_number found.0 ≡ number)) }
        ensures program { IfSome result (λ found. found.1.now ≡ program_of found.0) }
    {
        let place = self.programs.witness(number as usize)?;
        let program = self.programs.value(&place);
        Some((ProgramToken { place }, program))
    }

    /// Returns the program that `find` returns, without its token: so no clause says which one it is. Takes no memory.
    /// Never waits.
    pub fn get(&self, number: u64) -> Option<&Verified> {
        let (_, program) = self.find(number)?;
        Some(program)
    }

    /// Takes this many bytes for a text that is kept beside the programs. `NoMemory` if the bounds leave no room for them. Takes no
    /// memory. Waits while another thread registers a program.
    pub fn take_bytes<R: Wait>(&self, rt: &R, bytes: u64) -> Result<(), NoMemory> {
        let mut known = self.known.lock(rt);
        let Some(taken) = known.with(0, bytes) else {
            return Err(NoMemory);
        };
        known.take(taken);
        Ok(())
    }

    /// Gives back this many bytes of those that `take_bytes` took. Waits as it does.
    pub fn give_back<R: Wait>(&self, rt: &R, bytes: u64) {
        self.known.lock(rt).give_back(bytes);
    }

    /// Returns how many bytes its programs take, about, and the texts beside them. Takes no memory. Waits while another thread
    /// registers a program.
    pub fn bytes<R: Wait>(&self, rt: &R) -> u64 {
        self.known.lock(rt).bytes()
    }

    /// Looks up a number if you have a token of it: you get its program, never `None`. Takes no memory. Never waits.
    pub fn get_seen<'a>(&'a self, number: u64, seen: &ProgramToken) -> Option<&'a Verified>
        requires mine { IsOf self.now seen.now }
        ensures found { number ≡ token_number seen.now → IsSomeAnd result (λ program. program.now ≡ program_of seen.now) }
    {
        self.programs.get_seen(number as usize, &seen.place)
    }

    /// Returns the program that was registered with the token. Takes no memory. Never waits.
    pub fn get_by<'a>(&'a self, token: &ProgramToken) -> &'a Verified
        requires mine { IsOf self.now token.now }
        ensures value { result.now ≡ program_of token.now }
    {
        self.programs.value(&token.place)
    }

    /// Two tokens with one number stand for one program. Takes no memory. Never waits.
    pub fn agrees(&self, first: &ProgramToken, second: &ProgramToken)
        requires mine { IsOf self.now first.now × IsOf self.now second.now }
        requires same_number { token_number first.now ≡ token_number second.now }
        ensures same_program { program_of first.now ≡ program_of second.now }
    {
        self.programs.agrees(&first.place, &second.place);
    }
}

impl ProgramToken {
    /// The program's number.
    pub fn number(&self) -> u64
        ensures value { result ≡ token_number self.now }
    {
        self.place.index() as u64
    }
}
