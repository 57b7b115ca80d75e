//! One of many clients between its turns, and what a turn makes of it.
ghost use Rattle.std.specs.Prelude.{◌≡◌, ◌≤◌, ℕ, List, [], ◌++◌, length, take, Option, None, Some, IsTrue};
ghost use Rattle.program_registry.specs.declared.registry.Registry.{Registry as TheRegistry};
ghost use Rattle.sessions.specs.Conversations.{Exchange as TheExchange};
ghost use Rattle.crews.specs.declared.talk.Talk.{Talk as TheTalk};
ghost use Rattle.crews.specs.Stations.{Station};
ghost use Rattle.crews.specs.Talks.{protocol_of, IsOpen};
ghost use Rattle.crews.specs.Partings.{SaysSo, PartsSo};
ghost use Rattle.crews.specs.Arrivals.{CountGoes};
ghost use Rattle.crews.specs.Lives.{Arrival, Known, known, Turn, Stands};
ghost use Rattle.crews.specs.Seats.{IsClient};
ghost use Rattle.crews.specs.Turns.{SaysAndSends, TurnsTo};

use crate::answering::{PIECE_BYTES, Room, answer_commands, answer_frames};
use crate::clients::{Clients, Parting, Standing};
use crate::talk::Talk;
use crate::tokens::Tokens;
use crate::worker::Worker;
use bin_stripes::{Gate, Pass};
use devices::{Channel, Received, Taking};
use sessions::{OwedAnswers, SessionEnd};
use std::alloc::Global;
use std::sync::Wait;
use std::thread::Threads;

/// The most bytes that are owed to a client that is read on.
const OWED_BYTES: usize = 65536;

/// What each client takes in the worker's seats and in the list of clients, about.
const CLIENT_BYTES: usize = 850;

/// A client between its turns: its number among the worker's clients, its connection, how it speaks and what of that was read, the
/// tokens of its programs, what it is owed, and how it is leaving, if it is.
#[derive(Drop)]
pub struct Client<'a, C> {
    pub number: u64,
    pub channel: C,
    pub talk: Talk<'a>,
    pub tokens: Tokens<'a>,
    pub owed: OwedAnswers,
    pub leaving: Option<Parting>,
}

/// How a client stands after a piece of this many bytes. If the piece fills its room, more may be there.
fn standing_after_piece(count: usize) -> Standing {
    if count < PIECE_BYTES {
        Standing::Waits
    } else {
        Standing::Again
    }
}

/// The time of the commands of a client that talks so. Frames have no use for it, and any will do.
fn time_of<C: Channel, P: Clients<C>>(clients: &mut P, talk: &Talk<'_>) -> u64
    ensures { (registry : TheRegistry) → CountGoes (P.there registry) clients.old 0 clients.new 0 }
{
    match talk {
        Talk::Frames(_) => 0,
        Talk::Commands(_) => clients.now(),
    }
}

/// How a client left that is given up now, when all that it was owed is sent, or not.
fn parting_of(leaving: Option<Parting>, is_sent: bool) -> Parting
    ensures { (password : Option (List ℕ)) (talk : TheTalk) (exchanges : List (TheExchange Station)) (read written rest : List ℕ) → (IsTrue is_sent → rest ≡ [])
        → SaysSo password leaving talk exchanges read (written ++ rest) → PartsSo password (protocol_of talk) result exchanges read written }
{
    match leaving {
        Some(Parting::Ended(SessionEnd::WriteFailed)) => Parting::Ended(SessionEnd::WriteFailed),
        Some(Parting::Ended(end)) if is_sent => Parting::Ended(end),
        Some(Parting::Over) if is_sent => Parting::Over,
        _ => Parting::LetGo,
    }
}

impl<'a, C: Channel> Client<'a, C> {
    /// A client that came with this connection, talks so, and has these tokens. Takes no memory.
    pub fn new(
        alloc: Global,
        number: u64,
        tokens: Tokens<'a>,
        channel: C,
        talk: Talk<'a>,
    ) -> Client<'a, C>
        ensures { result ≡ record {
          number = number;
          channel = channel;
          talk = talk.entry;
          tokens = tokens.entry;
          owed = record { rest = []; failures = 0 };
          leaving = None;
        } }
    {
        Client {
            number,
            channel,
            talk,
            tokens,
            owed: OwedAnswers::new(alloc),
            leaving: None,
        }
    }

    /// Returns how many bytes are kept for the client, about: for what was read of it, for its tokens, and what it is owed.
    pub fn bytes(&self) -> u64 {
        let kept = self.talk.bytes().saturating_add(self.tokens.bytes());
        let owed = self.owed.bytes().saturating_add(CLIENT_BYTES);
        kept.saturating_add(owed) as u64
    }

    /// Answers what is whole in the piece in the room, and owes the answers; some may be sent before it ends.
    fn answer_piece<H: Threads + Wait + Sync, G: Gate + Sync>(
        &mut self,
        worker: &Worker<'_, H, G>,
        room: &mut Room<'a, '_>,
    )
        requires unfailed { self.old.owed.failures ≡ 0 }
        requires some { 1 ≤ room.old.count }
        requires within { room.old.count ≤ length room.old.piece }
        requires desk { room.old.serving.pass.map ≡ room.old.desk }
        requires is_open { IsOpen self.old.talk }
        ensures number { self.new.number ≡ self.old.number }
        ensures desk { room.new.desk ≡ room.old.desk }
        ensures speaks { protocol_of self.new.talk ≡ protocol_of self.old.talk }
        ensures unfailed { self.new.leaving ≡ None → self.new.owed.failures ≡ 0 }
        ensures says { (password : Option (List ℕ)) (exchanges : List (TheExchange Station)) (read said : List ℕ) → SaysSo password None self.old.talk exchanges read said
            → SaysAndSends (C.state self.old.channel) (C.state self.new.channel) password (known room.old.serving) (known room.new.serving) exchanges self.old.tokens self.new.tokens
            self.new.talk self.new.leaving (read ++ take room.old.count room.old.piece) said self.old.owed self.new.owed }
    {
        self.leaving = match &mut self.talk {
            Talk::Frames(feeder) => answer_frames(
                worker,
                room,
                feeder,
                &mut self.tokens,
                &mut self.owed,
                &mut self.channel,
            ),
            Talk::Commands(talk) => answer_commands(worker.rt, room, talk, &mut self.owed),
        };
    }

    /// Whether the client is owed so much that it is not read.
    fn is_held_back(&self) -> bool {
        self.owed.has_reply() || self.owed.bytes() > OWED_BYTES
    }

    /// How the client stands after a turn in which it was read so, and was sent more. One that was held back and is not any more was
    /// not read: what it sent meanwhile is there, and the system has told of it.
    fn standing_after(&self, was_held_back: bool, read: Standing, sent: Standing) -> Standing {
        if was_held_back && !self.is_held_back() {
            return Standing::Again;
        }
        match read {
            Standing::Again => Standing::Again,
            Standing::Waits => sent,
        }
    }

    /// Reads one piece and answers it, if the client is to be read now. Its commands are made at a time that is told after it is read:
    /// none is made at one before it was sent.
    fn hear<P: Clients<C>, H: Threads + Wait + Sync, G: Gate + Sync>(
        &mut self,
        worker: &Worker<'_, H, G>,
        room: &mut Room<'a, '_>,
        clients: &mut P,
    ) -> Standing
        requires unfailed { self.old.leaving ≡ None → self.old.owed.failures ≡ 0 }
        requires is_open { self.old.leaving ≡ None → IsOpen self.old.talk }
        requires desk { room.old.serving.pass.map ≡ room.old.desk }
        ensures number { self.new.number ≡ self.old.number }
        ensures desk { room.new.desk ≡ room.old.desk }
        ensures there { (registry : TheRegistry) → CountGoes (P.there registry) clients.old 0 clients.new 0 }
        ensures turns { (registry : TheRegistry) (password : Option (List ℕ)) (came : Arrival C) (exchanges : List (TheExchange Station))
            → Stands C.state registry password came self.old.channel exchanges self.old.tokens self.old.talk self.old.owed self.old.leaving
            → TurnsTo C.state registry password (known room.old.serving) (known room.new.serving) came self.new.channel exchanges
            self.new.tokens self.new.talk self.new.owed self.new.leaving }
    {
        if self.leaving.is_some() || self.is_held_back() {
            return Standing::Waits;
        }
        match self.channel.receive(&mut room.piece) {
            Received::Bytes(count) => {
                room.count = count;
                room.now = time_of(clients, &self.talk);
                self.answer_piece(worker, room);
                standing_after_piece(count)
            }
            Received::NotNow => Standing::Waits,
            Received::Ended if self.talk.is_inside() => {
                self.leaving = Some(Parting::Ended(SessionEnd::Cut));
                Standing::Waits
            }
            Received::Ended => {
                self.leaving = Some(Parting::Ended(SessionEnd::Closed));
                Standing::Waits
            }
            Received::Failed => {
                self.leaving = Some(Parting::Ended(SessionEnd::ReadFailed));
                Standing::Waits
            }
        }
    }

    /// Sends what is owed, as far as the connection takes it now, and of a long reply a part.
    fn tell(&mut self, alloc: Global) -> Standing
        ensures number { self.new.number ≡ self.old.number }
        ensures stands { (registry : TheRegistry) (password : Option (List ℕ)) (came : Arrival C) (exchanges : List (TheExchange Station))
            → Stands C.state registry password came self.old.channel exchanges self.old.tokens self.old.talk self.old.owed self.old.leaving
            → Stands C.state registry password came self.new.channel exchanges self.new.tokens self.new.talk self.new.owed self.new.leaving }
    {
        let taking = self.owed.send_to(&mut self.channel);
        self.owed.settle(alloc);
        match taking {
            Taking::All | Taking::NotNow => Standing::Waits,
            Taking::More => Standing::Again,
            Taking::Failed => {
                self.leaving = Some(Parting::Ended(SessionEnd::WriteFailed));
                Standing::Waits
            }
        }
    }

    /// One turn: reads a piece, if less is owed than may be, answers what is whole in it, and sends what is owed.
    pub fn turn<P: Clients<C>, H: Threads + Wait + Sync, G: Gate + Sync>(
        &mut self,
        worker: &Worker<'_, H, G>,
        room: &mut Room<'a, '_>,
        clients: &mut P,
    ) -> Standing
        requires unfailed { self.old.leaving ≡ None → self.old.owed.failures ≡ 0 }
        requires is_open { self.old.leaving ≡ None → IsOpen self.old.talk }
        requires desk { room.old.serving.pass.map ≡ room.old.desk }
        ensures number { self.new.number ≡ self.old.number }
        ensures desk { room.new.desk ≡ room.old.desk }
        ensures there { (registry : TheRegistry) → CountGoes (P.there registry) clients.old 0 clients.new 0 }
        ensures turns { (registry : TheRegistry) (password : Option (List ℕ)) (came : Arrival C) (exchanges : List (TheExchange Station))
            → Stands C.state registry password came self.old.channel exchanges self.old.tokens self.old.talk self.old.owed self.old.leaving
            → TurnsTo C.state registry password (known room.old.serving) (known room.new.serving) came self.new.channel exchanges
            self.new.tokens self.new.talk self.new.owed self.new.leaving }
    {
        let was_held_back = self.is_held_back();
        let read = self.hear(worker, room, clients);
        let sent = self.tell(worker.alloc);
        self.standing_after(was_held_back, read, sent)
    }

    /// The client is not read any more. Sends what it is owed, as far as the connection takes it now, and of a long reply a part.
    pub fn let_go(&mut self, alloc: Global) -> Standing
        ensures number { self.new.number ≡ self.old.number }
        ensures stands { (registry : TheRegistry) (password : Option (List ℕ)) (came : Arrival C) (exchanges : List (TheExchange Station))
            → Stands C.state registry password came self.old.channel exchanges self.old.tokens self.old.talk self.old.owed self.old.leaving
            → Stands C.state registry password came self.new.channel exchanges self.new.tokens self.new.talk self.new.owed self.new.leaving }
    {
        if self.leaving.is_none() {
            self.leaving = Some(Parting::LetGo);
        }
        self.tell(alloc)
    }

    /// Whether the client is leaving, and nothing keeps it.
    pub fn has_left(&self) -> bool {
        match self.leaving {
            None => false,
            Some(Parting::Ended(SessionEnd::WriteFailed)) => true,
            Some(_) => self.owed.is_empty(),
        }
    }

    /// Gives the client up, as it stands.
    pub fn part<P: Clients<C>>(self, clients: &mut P, pass: &Pass, seat: usize)
        requires { (registry : TheRegistry) × (password : Option (List ℕ)) × (old : Known) × (turns : List Turn) × (new : Known) × (came : ℕ)
            × (new.pass ≡ pass.now) × IsClient C.state P.gave registry password old turns new came self }
        ensures there { CountGoes (P.there self.entry.tokens.registry) clients.old 1 clients.new 0 }
        ensures over { P.over clients.old → P.over clients.new }
    {
        let parting = parting_of(self.leaving, self.owed.is_empty());
        clients.ended(pass, Some(seat), self.channel, self.tokens, parting);
    }
}
