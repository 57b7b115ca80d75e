//! How a piece of a client's bytes is answered, by the protocol that the client speaks.
ghost use Rattle.std.specs.Prelude.{◌≡◌, ◌≢◌, ◌≤◌, ℕ, List, ◌++◌, length, take, Option, None, Some, Err, MatchResult, false};
ghost use Rattle.bin_stripes.specs.Passes.{ServesSameMap};
ghost use Rattle.redis_service.specs.Lines.{no_memory_line};
ghost use Rattle.redis_service.specs.Sweeps.{Sweeps};
ghost use Rattle.sessions.specs.Conversations.{Exchange as TheExchange};
ghost use Rattle.sessions.specs.Sessions.{refusal};
ghost use Rattle.crews.specs.Stations.{KeptTokens, Station};
ghost use Rattle.crews.specs.Partings.{SaysSo};
ghost use Rattle.crews.specs.Lives.{known};
ghost use Rattle.crews.specs.Turns.{TellsLast, LeavesAt, LeavesTalk, SaysMore, SaysAndSends};

use crate::clients::Parting;
use crate::counting::{count_answer, count_end, count_request};
use crate::serving::Serving;
use crate::talk::Talk;
use crate::tokens::Tokens;
use crate::worker::Worker;
use bin_stripes::Gate;
use bpf_model::{NoMemory, Value};
use client_protocol::{Feeder, Request};
use devices::{Channel, Failed, write_all};
use redis_service::{Moment, NO_MEMORY_LINE, RedisDesk, RedisTalk, TalkEnd};
use server_state::WorkerCounts;
use sessions::{Conversation, ConversationEnd, OwedAnswers, SessionEnd, refuse};
use std::sync::Wait;
use std::thread::Threads;

/// The most bytes that are read in one turn.
pub const PIECE_BYTES: usize = 16384;

/// What the turns of a worker's clients share: the worker's number, its passes, the room for a piece, for its requests and commands, and
/// for their values, how many bytes the piece has, where the worker counts, and the time of the turn, in milliseconds since the epoch.
#[derive(Drop)]
pub struct Room<'a, 'r> {
    pub number: u32,
    pub serving: Serving<'a>,
    pub conversation: Conversation,
    pub desk: RedisDesk<'a, 'r>,
    pub piece: [u8; PIECE_BYTES],
    pub count: usize,
    pub counts: &'a WorkerCounts,
    pub now: u64,
}

impl<'a, 'r> Room<'a, 'r> {
    /// Takes entries out of the map whose time is over. Returns whether more of them may be left.
    pub fn sweep<H: Wait>(&mut self, rt: &H) -> bool
        requires desk { self.old.serving.pass.map ≡ self.old.desk }
        ensures desk { self.new.desk ≡ self.old.desk }
        ensures team { self.new.serving.team ≡ self.old.serving.team }
        ensures strict { self.new.serving.is_strict ≡ self.old.serving.is_strict }
        ensures same { ServesSameMap self.old.serving.pass self.new.serving.pass }
        ensures numbers { self.new.serving.pass.view.numbers ≡ self.old.serving.pass.view.numbers }
        ensures sweeps { Sweeps self.old.now self.old.serving.pass self.new.serving.pass }
    {
        self.serving.sweep(rt, self.now, &mut self.desk)
    }
}

/// Owes a refusal at the end of a conversation, and answers how the client leaves then.
fn refusal_owed(owed: &mut OwedAnswers, number: u8, end: SessionEnd) -> Option<Parting>
    requires count { owed.old.failures ≡ 0 }
    requires end { end ≢ SessionEnd.WriteFailed }
    ensures { TellsLast (refusal number) end result owed.old.rest owed.new.rest }
{
    Some(Parting::Ended(refuse(owed, number, end)))
}

/// How a client leaves when its conversation took a piece so; what it is owed then has grown by the refusal that this asks for.
fn leaving_after(owed: &mut OwedAnswers, taken: Result<(), ConversationEnd>) -> Option<Parting>
    requires { taken ≢ Err ConversationEnd.WriteFailed → owed.old.failures ≡ 0 }
    ensures { MatchResult taken (λ _. (result ≡ None) × (owed.new ≡ owed.old)) (λ end. LeavesAt end result owed.old.rest owed.new.rest) }
{
    match taken {
        Ok(()) => None,
        Err(ConversationEnd::Refused(fault)) => {
            refusal_owed(owed, fault.number(), SessionEnd::Refused(fault))
        }
        Err(ConversationEnd::NoMemory) => {
            refusal_owed(owed, NoMemory::NUMBER, SessionEnd::NoMemory)
        }
        Err(ConversationEnd::WriteFailed) => Some(Parting::Ended(SessionEnd::WriteFailed)),
    }
}

/// Owes the line that says that memory was refused, and answers how the client leaves then.
fn no_memory_owed(owed: &mut OwedAnswers) -> Option<Parting>
    requires count { owed.old.failures ≡ 0 }
    ensures { TellsLast no_memory_line SessionEnd.NoMemory result owed.old.rest owed.new.rest }
{
    match write_all(owed, NO_MEMORY_LINE) {
        Ok(()) => Some(Parting::Ended(SessionEnd::NoMemory)),
        Err(Failed) => Some(Parting::Ended(SessionEnd::WriteFailed)),
    }
}

/// How a client leaves when its talk took a piece so; what it is owed then has grown by the line that this asks for.
fn leaving_talk(owed: &mut OwedAnswers, taken: Result<(), TalkEnd>) -> Option<Parting>
    requires { taken ≢ Err TalkEnd.WriteFailed → owed.old.failures ≡ 0 }
    ensures { MatchResult taken (λ _. (result ≡ None) × (owed.new ≡ owed.old)) (λ end. LeavesTalk end result owed.old.rest owed.new.rest) }
{
    match taken {
        Ok(()) => None,
        Err(TalkEnd::Over) => Some(Parting::Over),
        Err(TalkEnd::NoMemory) => no_memory_owed(owed),
        Err(TalkEnd::WriteFailed) => Some(Parting::Ended(SessionEnd::WriteFailed)),
    }
}

/// Answers the whole requests of a piece of frames, with the tokens of the client, and owes the answers. Before each walk it sends what
/// is owed, as far as the connection takes it then. Returns how the client leaves, if it does.
pub fn answer_frames<'a, 'r, H: Threads + Wait + Sync, G: Gate + Sync, C: Channel>(
    worker: &Worker<'_, H, G>,
    room: &mut Room<'a, 'r>,
    feeder: &mut Feeder,
    tokens: &mut Tokens<'a>,
    owed: &mut OwedAnswers,
    channel: &mut C,
) -> Option<Parting>
    requires unfailed { owed.old.failures ≡ 0 }
    requires some { 1 ≤ room.old.count }
    requires within { room.old.count ≤ length room.old.piece }
    ensures desk { room.new.desk ≡ room.old.desk }
    ensures unfailed { result ≡ None → owed.new.failures ≡ 0 }
    ensures says { (password : Option (List ℕ)) (exchanges : List (TheExchange Station)) (read said : List ℕ) → SaysSo password None (Talk.Frames feeder.old) exchanges read said
        → SaysAndSends (C.state channel.old) (C.state channel.new) password (known room.old.serving) (known room.new.serving) exchanges tokens.old tokens.new
        (Talk.Frames feeder.new) result (read ++ take room.old.count room.old.piece) said owed.old owed.new }
{
    let number = room.number;
    let counts = room.counts;
    let answer = |serving: &mut Serving<'_>, hello, request: &Request, value: &mut Value| {
        count_request(counts, request);
        let answer = serving.answer(worker, number, hello, request, value);
        count_answer(counts, &answer);
        answer
    };
    room.serving.lend(tokens);
    room.conversation.resume(feeder);
    let piece = &room.piece[..room.count];
    let taken = room
        .conversation
        .take_and_send(&mut room.serving, &answer, piece, owed, channel);
    room.conversation.resume(feeder);
    room.serving.lend(tokens);
    count_end(counts, &taken);
    leaving_after(owed, taken)
}

/// Answers the whole commands of a piece, and owes the answers. Returns how the client leaves, if it does.
pub fn answer_commands<'a, 'r, H: Wait>(
    rt: &H,
    room: &mut Room<'a, 'r>,
    talk: &mut RedisTalk<'_>,
    owed: &mut OwedAnswers,
) -> Option<Parting>
    requires unfailed { owed.old.failures ≡ 0 }
    requires some { 1 ≤ room.old.count }
    requires within { room.old.count ≤ length room.old.piece }
    requires desk { room.old.serving.pass.map ≡ room.old.desk }
    requires is_open { talk.old.is_over ≡ false }
    ensures desk { room.new.desk ≡ room.old.desk }
    ensures unfailed { result ≡ None → owed.new.failures ≡ 0 }
    ensures says { (password : Option (List ℕ)) (exchanges : List (TheExchange Station)) (tokens : KeptTokens) (read said : List ℕ) → SaysSo password None (Talk.Commands talk.old) exchanges read said
        → SaysMore password (known room.old.serving) (known room.new.serving) exchanges tokens tokens
        (Talk.Commands talk.new) result (read ++ take room.old.count room.old.piece) said owed.old.rest owed.new.rest }
{
    let moment = Moment {
        rt,
        time: room.now,
        refuses: room.serving.refuses_changes(),
    };
    let piece = &room.piece[..room.count];
    let taken = room
        .serving
        .answer_commands(&moment, &mut room.desk, talk, piece, owed);
    leaving_talk(owed, taken)
}
