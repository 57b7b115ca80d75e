//! What answers the requests of a session: the crew's passes, and the programs that the session registered.
ghost use Rattle.std.specs.Prelude.{◌≡◌, ◌≢◌, ℕ, List, [], ◌∷◌, true, false, All, IsTrue, IfOk, IfErr, OnOk, Err, MatchResult, MatchOption, Option, Some, option_copied};
ghost use Rattle.std.specs.Bool.{OnTrue};
ghost use Rattle.bpf_model.specs.Meaning.{IsSafe};
ghost use Rattle.bin_stripes.specs.Passes.{ServesSameMap};
ghost use Rattle.program_registry.specs.Tokens.{IsOf, program_of, token_number};
ghost use Rattle.devices.specs.Devices.{CanWrite, TakesBytes, TakesThenFails};
ghost use Rattle.redis_service.specs.Sweeps.{Sweeps};
ghost use Rattle.redis_service.specs.Talks.{AnswersPiece, BreaksPiece};
ghost use Rattle.client_protocol.specs.declared.limits.Version.{Version as TheVersion};
ghost use Rattle.client_protocol.specs.Responses.{response_of};
ghost use Rattle.sessions.specs.Answering.{responses_of, walk_responses};
ghost use Rattle.sessions.specs.Asking.{asked, walk, replacement, count, Admits, IsCall};
ghost use Rattle.client_protocol.specs.declared.response.Response.TheVariants as tell;
ghost use Rattle.crews.specs.Stations.{tokens_of};
ghost use Rattle.crews.specs.Steps.{IsLike, Agree, IsHeld, CrewMeets, Finds, IsNotFound, CrewServes, AsksWithProgram, CrewAnswersRegister, IsRefusal};

use crate::team::{heard, told};
use crate::tokens::Tokens;
use crate::worker::Worker;
use atomic_methods::{WalkKind, WalkReply};
use bin_stripes::{Gate, Pass, Place, StripedMap};
use bpf_model::{NoMemory, Sizes, Value};
use bulk_walks::{Walk, mapping_count_in_turn, replace_all, walk_map};
use client_protocol::{Request, RequestView, ShortResponse, Version};
use devices::Sink;
use program_registry::{ProgramToken, Registry, SentProgram};
use redis_service::{Moment, RedisDesk, RedisTalk, TalkEnd};
use server_state::ServerState;
use sessions::{
    Answer, Service, answer_to, argument_of, call_of, may_be_sent, may_change, named_program,
    no_memory, program_sent, unknown_program,
};
use std::marker::Model;
use std::mem;
use std::sync::Wait;
use std::thread::Threads;
use verifier::Verified;

/// What a session of a crew keeps: the crew's passes, and the tokens of the programs that the session registered. The server is there if
/// it is strict.
#[derive(Drop)]
pub struct Serving<'a> {
    pub map: &'a StripedMap,
    pub registry: &'a Registry,
    pub pass: Pass,
    pub team: Vec<Pass>,
    pub tokens: Vec<ProgramToken>,
    pub strict: Option<&'a ServerState>,
}

impl<'a> Model for Serving<'a> {
    ghost use Rattle.std.specs.Prelude.{◌≡◌, ◌<◌, All, is_some, vec_len};
    ghost use Rattle.program_registry.specs.Tokens.{IsOf};
    ghost use Rattle.crews.specs.Stations.{Station};
    ghost use Rattle.crews.specs.Steps.{Agree};

    ghost Value = { Station };

    ghost view = { λ s. record { pass = s.pass; team = s.team.items; tokens = record { registry = s.registry.now; items = s.tokens.items }; is_strict = is_some s.strict } };

    ghost invariant = { λ s. (s.pass.map ≡ s.map.now) × All (λ p. p.map ≡ s.map.now) s.team.items
        × (0 < vec_len s.team) × All (λ t. IsOf s.registry.now t) s.tokens.items × Agree s.tokens.items };
}

impl<'a> Service for Serving<'a> {
    ghost use Rattle.crews.specs.Steps.{CrewServes};

    ghost answers = { CrewServes };
}

/// The program of this number, if one of the tokens has it.
fn own_program<'a>(
    registry: &'a Registry,
    tokens: &[ProgramToken],
    number: u64,
) -> Option<&'a Verified>
    requires mine { All (λ t. IsOf registry.now t) tokens.now }
    requires agree { Agree tokens.now }
    ensures { MatchOption result (All (λ t. token_number t ≢ number) tokens.now)
        (λ program. Finds (tokens_of registry.now tokens.now) number (Some program.now) (tokens_of registry.now tokens.now)) }
{
    for token in tokens {
        if token.number() == number {
            return Some(known_safe(registry.get_by(token)));
        }
    }
    None
}

/// The program of this number: that of a token that is there; or else the one that the registry has, whose token is kept from then on.
/// Else the response that refuses it: it is unknown, or there is no room for its token.
fn program_of<'a>(
    registry: &'a Registry,
    tokens: &mut Vec<ProgramToken>,
    number: u64,
) -> Result<&'a Verified, ShortResponse>
    requires mine { All (λ t. IsOf registry.now t) tokens.old.items }
    requires agree { Agree tokens.old.items }
    ensures mine { All (λ t. IsOf registry.now t) tokens.new.items }
    ensures agree { Agree tokens.new.items }
    ensures ok { IfOk result (λ program. Finds (tokens_of registry.now tokens.old.items) number (Some program.now) (tokens_of registry.now tokens.new.items)) }
    ensures err { IfErr result (λ response. IsNotFound (tokens_of registry.now tokens.old.items) number (response_of response) (tokens_of registry.now tokens.new.items)) }
{
    if let Some(program) = own_program(registry, tokens, number) {
        return Ok(program);
    }
    let Some((token, program)) = registry.find(number) else {
        return Err(unknown_program());
    };
    let Ok(()) = tokens.reserve(1) else {
        return Err(no_memory());
    };
    tokens.push_reserved(token);
    Ok(known_safe(program))
}

/// The same program. For the proof alone: it is safe, as its type says.
fn known_safe<'a>(program: &'a Verified) -> &'a Verified
    ensures same { result.now ≡ program.now }
    ensures safe { IsSafe result.now.program result.now.sizes }
{
    let _ = program.program();
    program
}

/// Looks through the tokens for those with the number of one more. For the proof alone: they stand for its program.
pub fn show_agrees(registry: &Registry, tokens: &[ProgramToken], token: &ProgramToken)
    requires mine { All (λ t. IsOf registry.now t) tokens.now × IsOf registry.now token.now }
    ensures { All (λ t. IsLike t token.now) tokens.now }
{
    for other in tokens {
        if other.number() == token.number() {
            registry.agrees(other, token);
        }
    }
}

/// Tests whether one of the tokens has the number of one more, and so stands for the same program.
fn is_held(registry: &Registry, tokens: &[ProgramToken], token: &ProgramToken) -> bool
    requires mine { All (λ t. IsOf registry.now t) tokens.now × IsOf registry.now token.now }
    ensures { OnTrue result (IsHeld tokens.now (token_number token.now) (program_of token.now)) }
{
    for other in tokens {
        if other.number() == token.number() {
            registry.agrees(other, token);
            return true;
        }
    }
    false
}

/// A token of the program that the bytes spell, which came after this Hello: of the registered one that is the same, or else of
/// a new one. Else the response that refuses it.
fn token_sent<H: Wait, G>(
    worker: &Worker<'_, H, G>,
    registry: &Registry,
    hello: Option<Version>,
    sizes: Sizes,
    bytes: &[u8],
) -> Result<ProgramToken, ShortResponse>
    ensures ok { IfOk result (λ token. IsOf registry.now token × Admits hello sizes bytes.now (program_of token)) }
    ensures err { IfErr result (λ response. IsRefusal hello sizes bytes.now (response_of response)) }
{
    let sent = SentProgram::new(sizes, bytes);
    if may_be_sent(hello, bytes, sizes) {
        if let Some(token) = registry.find_same(worker.rt, &sent) {
            return Ok(token);
        }
    }
    let verified = program_sent(worker.alloc, hello, bytes, sizes)?;
    match registry.register_sent(worker.rt, &sent, verified) {
        Ok(token) => Ok(token),
        Err(_) => Err(no_memory()),
    }
}

/// The answer that a walk's reply is.
fn answer_of(reply: Result<WalkReply, NoMemory>) -> Answer
    ensures { (bytes : List ℕ) → MatchResult reply (λ walked. responses_of result bytes ≡ walk_responses walked) (λ _. responses_of result bytes ≡ tell.Refused 9 0 ∷ []) }
{
    match reply {
        Ok(reply) => Answer::Walk(reply),
        Err(NoMemory) => Answer::One(no_memory()),
    }
}

impl<'a> Serving<'a> {
    /// The pass of the calls.
    pub fn pass(&self) -> &Pass
        ensures { result.now ≡ self.now.pass }
    {
        &self.pass
    }

    /// Tests whether requests that may change the map are refused now: the server is strict, and its last save could not be written.
    #[inline(always)]
    pub fn refuses_changes(&self) -> bool
        ensures { IsTrue result → IsTrue self.now.is_strict }
    {
        match self.strict {
            None => false,
            Some(server) => server.refuses_changes(),
        }
    }

    /// Goes on with these tokens, and leaves there those that it had.
    pub fn lend(&mut self, tokens: &mut Tokens<'a>)
        ensures here { self.new ≡ record self.old { tokens = tokens.old } }
        ensures there { tokens.new ≡ self.old.tokens }
    {
        mem::swap(&mut self.registry, &mut tokens.registry);
        mem::swap(&mut self.tokens, &mut tokens.items);
    }

    /// Answers the commands that this piece completes by calls of the pass at this moment, and keeps the rest of it. Team and tokens stay
    /// as they are.
    pub fn answer_commands<H: Wait, W: Sink>(
        &mut self,
        moment: &Moment<'_, H>,
        desk: &mut RedisDesk<'a, '_>,
        talk: &mut RedisTalk<'_>,
        piece: &[u8],
        sink: &mut W,
    ) -> Result<(), TalkEnd>
        requires map { self.old.pass.map ≡ desk.old }
        requires sink { CanWrite (W.state sink.old) }
        requires is_open { talk.old.is_over ≡ false }
        ensures desk { desk.new ≡ desk.old }
        ensures team { self.new.team ≡ self.old.team }
        ensures tokens { self.new.tokens ≡ self.old.tokens }
        ensures strict { self.new.is_strict ≡ self.old.is_strict }
        ensures same { ServesSameMap self.old.pass self.new.pass }
        ensures numbers { self.new.pass.view.numbers ≡ self.old.pass.view.numbers }
        ensures ok { OnOk result ((talk.new.is_over ≡ false) × ((written : List ℕ)
            × TakesBytes (W.state sink.old) (W.state sink.new) written
            × AnswersPiece moment.now.time moment.now.refuses talk.old self.old.pass piece.now written talk.new self.new.pass)) }
        ensures over { result ≡ Err TalkEnd.Over → (talk.new.is_over ≡ true) × ((written : List ℕ)
            × TakesBytes (W.state sink.old) (W.state sink.new) written
            × AnswersPiece moment.now.time moment.now.refuses talk.old self.old.pass piece.now written talk.new self.new.pass) }
        ensures memory { result ≡ Err TalkEnd.NoMemory
            → (talk.new ≡ talk.old) × (self.new ≡ self.old) × (W.state sink.new ≡ W.state sink.old) }
        ensures write { result ≡ Err TalkEnd.WriteFailed → ((written : List ℕ)
            × TakesThenFails (W.state sink.old) (W.state sink.new) written
            × BreaksPiece moment.now.time moment.now.refuses talk.old self.old.pass piece.now written talk.new self.new.pass) }
    {
        desk.take(moment, &mut self.pass, talk, piece, sink)
    }

    /// Takes entries out of the map whose time is over. Returns whether more of them may be left. Team and tokens stay as they are.
    pub fn sweep<H: Wait>(&mut self, rt: &H, now: u64, desk: &mut RedisDesk<'a, '_>) -> bool
        requires map { self.old.pass.map ≡ desk.old }
        ensures desk { desk.new ≡ desk.old }
        ensures team { self.new.team ≡ self.old.team }
        ensures tokens { self.new.tokens ≡ self.old.tokens }
        ensures strict { self.new.is_strict ≡ self.old.is_strict }
        ensures same { ServesSameMap self.old.pass self.new.pass }
        ensures numbers { self.new.pass.view.numbers ≡ self.old.pass.view.numbers }
        ensures sweeps { Sweeps now self.old.pass self.new.pass }
    {
        desk.sweep(rt, &mut self.pass, now)
    }

    /// Answers the number of the program that the bytes spell, which came after this Hello, and keeps its token, unless one of
    /// that number is there; the room for that comes first.
    #[tactic(auto, using(crate::proofs::TokenLemmas::answered_again, crate::proofs::TokenLemmas::register_refused))]
    fn register<H: Wait, G>(
        &mut self,
        worker: &Worker<'_, H, G>,
        hello: Option<Version>,
        sizes: Sizes,
        bytes: &[u8],
    ) -> ShortResponse
        ensures { CrewAnswersRegister hello self.old sizes bytes.now (response_of result ∷ []) self.new }
    {
        let Ok(()) = self.tokens.reserve(1) else {
            return no_memory();
        };
        let token = match token_sent(worker, self.registry, hello, sizes, bytes) {
            Ok(token) => token,
            Err(response) => return response,
        };
        let program = token.number();
        if is_held(self.registry, &self.tokens, &token) {
            return ShortResponse::Registered { program };
        }
        show_agrees(self.registry, &self.tokens, &token);
        self.tokens.push_reserved(token);
        ShortResponse::Registered { program }
    }

    /// Makes the call that is asked for, with this program if it names one. The value of its reply, if it has one, is left
    /// in `value`.
    fn call<H: Wait>(
        &mut self,
        rt: &H,
        request: &Request,
        program: Option<&Verified>,
        value: &mut Value,
    ) -> Answer
        requires { IsCall request.now }
        ensures { (hello : Option TheVersion) → CrewMeets hello self.old (asked (λ _. option_copied program.entry) request.now) (responses_of result value.new) self.new }
    {
        let Some(call) = call_of(request, program) else {
            return Answer::One(unknown_program());
        };
        match self.map.call_into(rt, &mut self.pass, &call, value) {
            Ok(kind) => answer_to(kind),
            Err(NoMemory) => Answer::One(no_memory()),
        }
    }

    /// Makes the call that is asked for, with the program that it names, if it names one.
    fn named_call<H: Wait>(&mut self, rt: &H, request: &Request, value: &mut Value) -> Answer
        requires { IsCall request.now }
        ensures { (hello : Option TheVersion) → CrewServes hello self.old request.now (responses_of result value.new) self.new }
    {
        let Some(number) = named_program(request) else {
            return self.call(rt, request, None, value);
        };
        match program_of(self.registry, &mut self.tokens, number) {
            Ok(program) => self.call(rt, request, Some(program), value),
            Err(response) => Answer::One(response),
        }
    }

    /// A walk of the team, by the program of this number. Not inlined, so that a call clears no room for an argument.
    #[inline(never)]
    fn walk_by_team<H: Threads + Wait + Sync, G: Gate + Sync>(
        &mut self,
        worker: &Worker<'_, H, G>,
        kind: WalkKind,
        number: u64,
        arg: Option<&Value>,
        threshold: u64,
    ) -> Answer
        ensures { (hello : Option TheVersion) (bytes : List ℕ) → AsksWithProgram hello self.old number (λ program. walk kind program (option_copied arg.entry)) (responses_of result bytes) self.new }
    {
        let program = match program_of(self.registry, &mut self.tokens, number) {
            Ok(program) => program,
            Err(response) => return Answer::One(response),
        };
        let arg = argument_of(arg);
        let team = mem::replace(&mut self.team, Vec::new(worker.alloc));
        let team = told(self.map, &self.pass, team);
        let asked = Walk {
            kind,
            program,
            arg: &arg,
            threshold,
        };
        let (team, reply) = walk_map(worker.rt, worker.alloc, self.map, team, &asked, worker.gate);
        self.team = heard(self.map, &mut self.pass, team);
        answer_of(reply)
    }

    /// The replacement of all values by the team, by the program of this number. Not inlined, as `walk_by_team` isn't.
    #[inline(never)]
    fn replace_all<H: Threads + Wait + Sync, G: Gate + Sync>(
        &mut self,
        worker: &Worker<'_, H, G>,
        number: u64,
        arg: Option<&Value>,
    ) -> Answer
        ensures { (hello : Option TheVersion) (bytes : List ℕ) → AsksWithProgram hello self.old number (λ program. replacement program (option_copied arg.entry)) (responses_of result bytes) self.new }
    {
        let program = match program_of(self.registry, &mut self.tokens, number) {
            Ok(program) => program,
            Err(response) => return Answer::One(response),
        };
        let arg = argument_of(arg);
        let team = mem::replace(&mut self.team, Vec::new(worker.alloc));
        let team = told(self.map, &self.pass, team);
        let (team, reply) = replace_all(
            worker.rt,
            worker.alloc,
            self.map,
            team,
            program,
            &arg,
            worker.gate,
        );
        self.team = heard(self.map, &mut self.pass, team);
        answer_of(reply)
    }

    /// The team counts all entries, all in this thread: that takes less time than to start another.
    fn count<H: Threads + Wait + Sync, G: Gate + Sync>(
        &mut self,
        worker: &Worker<'_, H, G>,
    ) -> Answer
        ensures { (hello : Option TheVersion) (bytes : List ℕ) → CrewMeets hello self.old count (responses_of result bytes) self.new }
    {
        let team = mem::replace(&mut self.team, Vec::new(worker.alloc));
        let team = told(self.map, &self.pass, team);
        let (team, reply) = mapping_count_in_turn(
            worker.rt,
            worker.alloc,
            self.map,
            team,
            worker.gate,
        );
        self.team = heard(self.map, &mut self.pass, team);
        answer_of(reply)
    }

    /// Answers the request, which came after this Hello, once the worker of this number has passed the gate at `Request`. The value of an answer that found one
    /// is left in `value`; what that held is lost.
    pub fn answer<H: Threads + Wait + Sync, G: Gate + Sync>(
        &mut self,
        worker: &Worker<'_, H, G>,
        number: u32,
        hello: Option<Version>,
        request: &Request,
        value: &mut Value,
    ) -> Answer
        ensures { CrewServes hello self.old request.now (responses_of result value.new) self.new }
    {
        worker.gate.pass(Place::Request, number);
        if self.refuses_changes() && may_change(request) {
            return Answer::One(no_memory());
        }
        match request.view() {
            RequestView::Hello { version } => Answer::One(ShortResponse::Hello { version }),
            RequestView::Register { sizes, program } => {
                Answer::One(self.register(worker, hello, sizes, program))
            }
            RequestView::Search {
                program,
                arg,
                threshold,
            } => self.walk_by_team(worker, WalkKind::Search, program, arg, threshold),
            RequestView::ForEach {
                program,
                arg,
                threshold,
            } => self.walk_by_team(worker, WalkKind::ForEach, program, arg, threshold),
            RequestView::ReplaceAll { program, arg } => self.replace_all(worker, program, arg),
            RequestView::Count => self.count(worker),
            _ => self.named_call(worker.rt, request, value),
        }
    }
}
