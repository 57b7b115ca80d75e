//! The source of one worker's clients, and of what happens to them.
ghost use Rattle.std.specs.Prelude.{◌≡◌};

use crate::tokens::Tokens;
use bin_stripes::Pass;
use bpf_model::NoMemory;
use devices::Channel;
use sessions::SessionEnd;

/// How a client speaks: by the port that it came to.
#[derive(Clone, Copy, Debug, PartialEq, Eq)]
pub enum Protocol {
    /// In frames of requests and responses, as the crate client_protocol has them.
    Frames,
    /// In commands of RESP2, the protocol of Redis, as the crate redis_service has them.
    Commands,
}

/// What a worker does next.
#[derive(Drop)]
pub enum Event<C> {
    /// A client came with this connection, and speaks this protocol.
    Came(C, Protocol),
    /// The client of this seat has a turn.
    Ready(usize),
    /// The client of this seat is let go. It is not read any more, and is gone when it has taken what it is owed; at once if it
    /// was leaving already.
    LetGo(usize),
    /// The worker sweeps: it takes entries out of the map whose time is over. There may be more of them than it takes at once.
    Sweep,
    /// The worker ends. Clients that are there are let go at once.
    Over,
}

/// When a worker wants to sweep.
#[derive(Clone, Copy, Debug, PartialEq, Eq)]
pub enum NextSweep {
    /// Never, as far as it knows: none of its clients set a deadline.
    Never,
    /// At this time, in milliseconds since the epoch: some entry's time may be over then.
    At(u64),
    /// Now: the last sweep left entries whose time is over.
    Now,
}

/// How a client stands after its turn.
#[derive(Clone, Copy, Debug, PartialEq, Eq)]
pub enum Standing {
    /// More may be there to read now: it wants a turn soon, whether or not the system tells of it.
    Again,
    /// It waits until its connection can be read or written. What was there to read is read, unless it is held back: if a piece
    /// doesn't fill its room, no more was there.
    Waits,
}

/// How a client left.
#[derive(Clone, Copy, Debug, PartialEq, Eq)]
pub enum Parting {
    /// Its session ended so. All that it was owed is written then, unless a write failed. A client of commands is never `Refused`.
    Ended(SessionEnd),
    /// It speaks commands, and asked for the end, or its talk can't go on, as the last answer says. All that it was owed is written
    /// then.
    Over,
    /// It was let go.
    LetGo,
    /// It came and could not be kept. It was told so, as far as its connection took that at once: 9, or by a line that ends with
    /// `max number of clients reached` if it speaks commands.
    NotKept,
}

/// The source of one worker's clients, of what happens to them, and of the time. Whatever it tells, a seat that has no client is passed
/// over, and a worker may sweep at any time.
pub trait Clients<C: Channel> {
    ghost use Rattle.std.specs.Prelude.{ℕ};
    ghost use Rattle.atomic_table.specs.Seated.{TableId};
    ghost use Rattle.bin_stripes.specs.Passes.{PassState};
    ghost use Rattle.program_registry.specs.declared.registry.Registry.{Registry};
    ghost use Rattle.crews.specs.Arrivals.{came_by, CountGoes};
    ghost use Rattle.crews.specs.declared.clients.Protocol.{Protocol as TheProtocol};
    ghost use Rattle.crews.specs.Lives.{HasParted};

    /// The clients are of this map.
    ghost serves: { TableId → Type 0 } = { λ _. Unit {0} };

    /// The worker was given this connection, as it was then, when its pass knew this, from the port of this protocol. Nothing but
    /// `next` tells it.
    ghost gave: { PassState → C → TheProtocol → Type 0 } = { λ _ _ _. Unit {0} };

    /// The tokens of all clients that ended are of this registry. This number of clients came, and have not ended. Nothing but `next`
    /// and `ended` changes it.
    ghost there: { Registry → Self → ℕ → Type 0 } = { λ _ _ _. Unit {0} };

    /// It has told the worker to end. Nothing but `next` does.
    ghost over: { Self → Type 0 } = { λ _. Unit {0} };

    /// The next thing to do, for the worker whose pass this is and which wants to sweep then. It may wait.
    fn next(&mut self, pass: &Pass, sweep: NextSweep) -> Event<C>
        requires { serves pass.now.map }
        ensures gave { (channel : C) (protocol : TheProtocol) → result ≡ Event.Came channel protocol → gave pass.now channel protocol }
        ensures there { (registry : Registry) → CountGoes (there registry) self.old 0 self.new (came_by result) }
        ensures over { result ≡ Event.Over → over self.new };

    /// The time in milliseconds since the epoch, at which commands of a client's turn are made, or a sweep. It may be any number.
    fn now(&mut self) -> u64
        ensures { (registry : Registry) → CountGoes (there registry) self.old 0 self.new 0 };

    /// The client that came last is in this seat from now on. `NoMemory` if it can't be kept.
    fn watch(&mut self, seat: usize, channel: &mut C) -> Result<(), NoMemory>
        ensures channel { C.state channel.new ≡ C.state channel.old }
        ensures there { (registry : Registry) → CountGoes (there registry) self.old 0 self.new 0 };

    /// The client of this seat had a turn.
    fn served(&mut self, seat: usize, standing: Standing)
        ensures { (registry : Registry) → CountGoes (there registry) self.old 0 self.new 0 };

    /// The client left so, which this worker was given with this connection, and had this seat if it was kept. What was read of it
    /// is answered, in its protocol, by turns among those that led to what the worker's pass knows, and what was written to it are the
    /// answers, as its parting says. The connection is given up, and so are the tokens of the programs that the client registered or
    /// named: `Tokens::mean_the_same` compares them with others of their registry. They may be kept without it (`Tokens::into_vec`).
    fn ended(
        &mut self,
        pass: &Pass,
        seat: Option<usize>,
        channel: C,
        tokens: Tokens<'_>,
        parting: Parting,
    )
        requires { HasParted C.state gave pass.now channel tokens parting }
        ensures there { CountGoes (there tokens.entry.registry) self.old 1 self.new 0 }
        ensures over { over self.old → over self.new };
}
