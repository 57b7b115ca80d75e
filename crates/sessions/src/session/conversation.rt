//! A session between two of its reads, and how it answers the next piece.
ghost use Rattle.std.specs.Prelude.{◌≡◌, ◌≢◌, ◌≤◌, ℕ, ◌++◌, List, [], length, None, Some, IsSome, IfOk, OnOk, OnErr, flat_map};
ghost use Rattle.client_protocol.specs.declared.fault.ProtocolFault.{ProtocolFault as TheFault};
ghost use Rattle.client_protocol.specs.Requests.{Request as TheRequest};
ghost use Rattle.client_protocol.specs.Frames.{Held, Frames, held_fault, is_inside};
ghost use Rattle.client_protocol.specs.Frames.Held.{open_at};
ghost use Rattle.sessions.specs.Answering.{Answered, BreaksOff, hello_behind};
ghost use Rattle.sessions.specs.Conversations.{AnswersBy, AnswersPiece, BreaksPiece, TakesPiece, Exchange, Converses, AnsweredInEach};
ghost use Rattle.sessions.specs.OwedAnswers.{OwedState, IsSent, sink_of};
ghost use Rattle.devices.specs.Devices.{CanWrite, TakesBytes, TakesThenFails};

use crate::owed_answers::{OwedAnswers, WhenTaken};
use crate::session::send::{Replies, send};
use crate::session::service::{Answer, Service};
use bpf_model::Value;
use client_protocol::{
    Feeder, ProtocolFault, Request, RequestView, Requests, Version, hello_after,
};
use devices::{Channel, Failed, Sink};
use std::alloc::Global;
use std::marker::Model;
use std::mem;

/// Why a conversation ended at a piece.
#[derive(Clone, Copy, Debug, PartialEq, Eq)]
pub enum ConversationEnd {
    /// The input has this fault. The requests before it are answered.
    Refused(ProtocolFault),
    /// Memory for the piece was refused, and the piece was not taken.
    NoMemory,
    /// A write failed. The sink has a beginning of the answers owed to it.
    WriteFailed,
}

/// Requests that follow one another, and the Hello that came before them.
#[derive(Clone, Copy)]
struct Came<'r> {
    hello: Option<Version>,
    requests: &'r [Request],
}

/// A session between two reads: the Hello that was taken and the beginning of a frame, or the fault of the input. The next
/// piece uses the room for requests and for a value again.
#[derive(Drop)]
pub struct Conversation {
    alloc: Global,
    feeder: Feeder,
    requests: Requests,
    value: Value,
}

impl Model for Conversation {
    ghost use Rattle.client_protocol.specs.Frames.{Held};

    ghost Value = { Held };

    ghost view = { λ c. c.feeder };
}

impl Conversation {
    /// Starts a conversation. Takes no memory.
    pub fn new(alloc: Global) -> Conversation
        ensures { result ≡ open_at None [] }
    {
        Conversation {
            alloc,
            feeder: Feeder::new(alloc),
            requests: Requests::new(alloc),
            value: Value::new(),
        }
    }

    /// Tests whether the input so far ends inside a frame.
    pub fn is_inside(&self) -> bool
        ensures { result ≡ is_inside self.now }
    {
        self.feeder.is_inside()
    }

    /// Goes on with the feeder's conversation, and leaves the current one in the feeder. So the room of one serves the pieces of
    /// many.
    pub fn resume(&mut self, feeder: &mut Feeder)
        ensures here { self.new ≡ feeder.old }
        ensures there { feeder.new ≡ self.old }
    {
        mem::swap(&mut self.feeder, feeder);
    }

    /// Answers the requests that this piece completes, in order, each into the sink before it looks at the next one. `answer` gets
    /// the state, the Hello that came before the request, the request, and room for a value. `K` says how the sink takes the reply of
    /// a walk. An `Err` says why the conversation ended.
    pub fn take<
        S: Service,
        F: Fn(&mut S, Option<Version>, &Request, &mut Value) -> Answer,
        W: Sink,
        K: Replies<W>,
    >(
        &mut self,
        state: &mut S,
        answer: &F,
        piece: &[u8],
        sink: &mut W,
    ) -> Result<(), ConversationEnd>
        requires answer { AnswersBy F.Fn answer.now S.answers }
        requires sink { CanWrite (W.state sink.old) }
        // The piece was taken, and all its requests are answered.
        ensures ok { OnOk result ((held_fault self.new ≡ None) × ((written : List ℕ)
            × TakesBytes (W.state sink.old) (W.state sink.new) written
            × AnswersPiece S.answers self.old state.old piece.now written self.new state.new)) }
        ensures refused { (fault : TheFault) → result ≡ Err (ConversationEnd.Refused fault)
            → (held_fault self.new ≡ Some fault) × ((written : List ℕ)
            × TakesBytes (W.state sink.old) (W.state sink.new) written
            × AnswersPiece S.answers self.old state.old piece.now written self.new state.new) }
        ensures memory { result ≡ Err ConversationEnd.NoMemory
            → (self.new ≡ self.old) × (state.new ≡ state.old) × (W.state sink.new ≡ W.state sink.old) }
        // A conversation with a fault asks for no memory.
        ensures still { IsSome (held_fault self.old) → result ≢ Err ConversationEnd.NoMemory }
        // One request was made whose answer is not wholly written, and none after it.
        ensures write { result ≡ Err ConversationEnd.WriteFailed → ((written : List ℕ)
            × TakesThenFails (W.state sink.old) (W.state sink.new) written
            × BreaksPiece S.answers self.old state.old piece.now written self.new state.new) }
    {
        let hello = self.feeder.hello();
        let Ok(fault) = self.feeder.feed_into(self.alloc, piece, &mut self.requests) else {
            return Err(ConversationEnd::NoMemory);
        };
        let requests = self.requests.as_slice();
        let came = Came { hello, requests };
        let Ok(_) = answer_all::<S, F, W, K>(state, answer, came, &mut self.value, sink) else {
            return Err(ConversationEnd::WriteFailed);
        };
        match fault {
            Some(fault) => Err(ConversationEnd::Refused(fault)),
            None => Ok(()),
        }
    }

    /// As `take`, for answers that are owed to a connection: before each walk it sends what is owed, as far as the connection takes
    /// it then. An `Err` says why the conversation ended: a fault of the piece, memory for its requests that was refused (then
    /// nothing changed), or memory for what is owed (`WriteFailed`).
    pub fn take_and_send<
        S: Service,
        F: Fn(&mut S, Option<Version>, &Request, &mut Value) -> Answer,
        C: Channel,
    >(
        &mut self,
        state: &mut S,
        answer: &F,
        piece: &[u8],
        owed: &mut OwedAnswers,
        channel: &mut C,
    ) -> Result<(), ConversationEnd>
        requires answer { AnswersBy F.Fn answer.now S.answers }
        requires sink { CanWrite (sink_of owed.old) }
        ensures unfailed { result ≢ Err ConversationEnd.WriteFailed → owed.new.failures ≡ owed.old.failures }
        ensures taken { (whole : OwedState) × IsSent (C.state channel.old) (C.state channel.new) whole owed.new
            × TakesPiece S.answers result self.old state.old piece.now (sink_of owed.old) (sink_of whole) self.new state.new }
    {
        let before = self.feeder.hello();
        let Ok(fault) = self.feeder.feed_into(self.alloc, piece, &mut self.requests) else {
            return Err(ConversationEnd::NoMemory);
        };
        let requests = self.requests.as_slice();
        let came = Came {
            hello: before,
            requests,
        };
        let Ok(_) = answer_in_parts(state, answer, came, &mut self.value, owed, channel) else {
            return Err(ConversationEnd::WriteFailed);
        };
        match fault {
            Some(fault) => Err(ConversationEnd::Refused(fault)),
            None => Ok(()),
        }
    }
}

/// Answers the requests, in order: each answer is written before the next request is looked at. Found values are left in `value`, one
/// after the other. Returns the Hello that was taken then.
fn answer_all<
    S: Service,
    F: Fn(&mut S, Option<Version>, &Request, &mut Value) -> Answer,
    W: Sink,
    K: Replies<W>,
>(
    state: &mut S,
    answer: &F,
    came: Came<'_>,
    value: &mut Value,
    sink: &mut W,
) -> Result<Option<Version>, Failed>
    requires answer { AnswersBy F.Fn answer.now S.answers }
    requires sink { CanWrite (W.state sink.old) }
    ensures ok { OnOk result ((written : List ℕ)
        × TakesBytes (W.state sink.old) (W.state sink.new) written
        × Answered S.answers came.entry.hello state.old came.entry.requests.now written state.new) }
    ensures hello { IfOk result (λ hello. hello ≡ hello_behind came.entry.hello came.entry.requests.now) }
    ensures err { OnErr result ((written : List ℕ)
        × TakesThenFails (W.state sink.old) (W.state sink.new) written
        × BreaksOff S.answers came.entry.hello state.old came.entry.requests.now written state.new) }
{
    let mut hello = came.hello;
    for request in came.requests {
        let answered = answer(state, hello, request, value);
        send::<W, K>(sink, hello, answered, value)?;
        hello = hello_after(hello, request);
    }
    Ok(hello)
}

/// Tests whether a request is a walk with a program. What was answered before is sent before it begins.
fn is_walk(request: &Request) -> bool {
    matches!(
        request.view(),
        RequestView::Search { .. } | RequestView::ForEach { .. } | RequestView::ReplaceAll { .. }
    )
}

/// Returns how many of the requests, of which there is at least one, come before the next walk; the first of them may be one.
fn until_walk(requests: &[Request]) -> usize
    requires { 1 ≤ length requests.now }
    ensures some { 1 ≤ result }
    ensures within { result ≤ length requests.now }
{
    for count in 1..requests.len() {
        if is_walk(&requests[count]) {
            return count;
        }
    }
    requests.len()
}

/// Answers the requests as `answer_all` does, and sends what is owed before each walk, as far as the connection takes it then.
fn answer_in_parts<
    S: Service,
    F: Fn(&mut S, Option<Version>, &Request, &mut Value) -> Answer,
    C: Channel,
>(
    state: &mut S,
    answer: &F,
    came: Came<'_>,
    value: &mut Value,
    owed: &mut OwedAnswers,
    channel: &mut C,
) -> Result<(), Failed>
    requires answer { AnswersBy F.Fn answer.now S.answers }
    requires sink { CanWrite (sink_of owed.old) }
    ensures ok { OnOk result ((whole : OwedState) × IsSent (C.state channel.old) (C.state channel.new) whole owed.new × ((written : List ℕ)
        × TakesBytes (sink_of owed.old) (sink_of whole) written
        × Answered S.answers came.entry.hello state.old came.entry.requests.now written state.new)) }
    ensures err { OnErr result ((whole : OwedState) × IsSent (C.state channel.old) (C.state channel.new) whole owed.new × ((written : List ℕ)
        × TakesThenFails (sink_of owed.old) (sink_of whole) written
        × BreaksOff S.answers came.entry.hello state.old came.entry.requests.now written state.new)) }
{
    let mut rest = came;
    while !rest.requests.is_empty() {
        if is_walk(&rest.requests[0]) {
            let _ = owed.send_to(channel);
        }
        let (part, later) = rest.requests.split_at(until_walk(rest.requests));
        let part = Came {
            hello: rest.hello,
            requests: part,
        };
        let hello = answer_all::<S, F, OwedAnswers, WhenTaken>(state, answer, part, value, owed)?;
        rest = Came {
            hello,
            requests: later,
        };
    }
    Ok(())
}

/// Taking two pieces one after the other is taking them as one, whether the answers to the later are all written or break off.
pub fn pieces_join<S: Service>()
    ensures whole { (held mid next : Held) (old between new : S) (first later written more : List ℕ)
        → AnswersPiece S.answers held old first written mid between
        → AnswersPiece S.answers mid between later more next new
        → AnswersPiece S.answers held old (first ++ later) (written ++ more) next new }
    ensures broken { (held mid next : Held) (old between new : S) (first later written more : List ℕ)
        → AnswersPiece S.answers held old first written mid between
        → BreaksPiece S.answers mid between later more next new
        → BreaksPiece S.answers held old (first ++ later) (written ++ more) next new }
{}

/// The pieces of a conversation's exchanges are requests by the grammar, in order, and each was answered in its exchange. Others
/// may have changed the state between two exchanges.
pub fn exchanges_join<S: Service>()
    ensures { (exchanges : List (Exchange S)) (next : Held) → Converses S.answers (open_at None []) exchanges next
        → (requests : List TheRequest) × Frames None (flat_map (λ exchange. exchange.piece) exchanges) requests next
        × AnsweredInEach S.answers None exchanges requests }
{}
