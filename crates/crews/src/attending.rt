//! A worker's whole life, with any number of clients.
ghost use Rattle.std.specs.Prelude.{◌≡◌, ◌+◌, ◌++◌, ℕ, List, [], Option, None};
ghost use Rattle.slab.specs.Slab.{get, slab_len, HasRoomFor};
ghost use Rattle.program_registry.specs.declared.registry.Registry.{Registry as TheRegistry};
ghost use Rattle.devices.specs.Channels.{Sends};
ghost use Rattle.server_state.specs.Passwords.{lent};
ghost use Rattle.crews.specs.Arrivals.{CountGoes};
ghost use Rattle.crews.specs.Crews.{IsCrewOf, CarriesSame};
ghost use Rattle.crews.specs.Lives.{Known, known, known_at, Turn, HasLived};
ghost use Rattle.crews.specs.Partings.{not_kept_told};
ghost use Rattle.crews.specs.Stations.{no_tokens};
ghost use Rattle.crews.specs.Seats.{HasNone, IsAttended, IsClient};

use crate::answering::{PIECE_BYTES, Room};
use crate::clients::{Clients, Event, NextSweep, Parting, Protocol, Standing};
use crate::crew::Crew;
use crate::serving::Serving;
use crate::talk::Talk;
use crate::tokens::Tokens;
use crate::turn::Client;
use crate::worker::Worker;
use bin_stripes::{Gate, Pass};
use bpf_model::NoMemory;
use bulk_walks::Team;
use client_protocol::ShortResponse;
use devices::{Channel, Sent};
use redis_scripts::Scripts;
use redis_service::{NO_ROOM_LINE, RedisDesk};
use server_state::{Password, ServerState, client_number};
use sessions::Conversation;
use slab::Slab;
use std::alloc::Global;
use std::sync::Wait;
use std::thread::Threads;

/// A client for which no more than this is kept stays, however much is kept for the others.
const FAIR_BYTES: u64 = 4096;

/// What a worker has at hand: what the server knows of itself, the room of all turns, the clients in their seats, how many came, and
/// whether its last sweep left entries whose time is over.
#[derive(Drop)]
struct Attendant<'a, 'r, C> {
    alloc: Global,
    state: &'a ServerState,
    room: Room<'a, 'r>,
    seats: Slab<Client<'a, C>>,
    came: u64,
    hurries: bool,
}

/// Tells a client of this protocol that it can't be kept, as far as its connection takes that at once.
fn tell_away<C: Channel>(channel: &mut C, protocol: Protocol) -> Sent
    ensures { Sends (C.state channel.old) (C.state channel.new) result (not_kept_told protocol) }
{
    match protocol {
        Protocol::Frames => {
            let number = NoMemory::NUMBER;
            let frame = ShortResponse::Refused { number, place: 0 }.frame();
            channel.send(frame.as_slice())
        }
        Protocol::Commands => channel.send(NO_ROOM_LINE),
    }
}

/// A client that came can't be kept: it is told so, and given up.
fn turn_away<C: Channel, P: Clients<C>>(
    clients: &mut P,
    tokens: Tokens<'_>,
    pass: &Pass,
    channel: C,
    protocol: Protocol,
)
    requires came { (came : C) × P.gave pass.now came protocol × (C.state channel ≡ C.state came) }
    requires none { tokens ≡ no_tokens tokens.registry }
    ensures { CountGoes (P.there tokens.entry.registry) clients.old 1 clients.new 0 }
{
    let mut channel = channel;
    let _ = tell_away(&mut channel, protocol);
    clients.ended(pass, None, channel, tokens, Parting::NotKept);
}

/// Whether a client for which the server keeps this many bytes has to go, since it keeps more for its clients than it may.
fn is_too_much(state: &ServerState, worker: u32, bytes: u64) -> bool {
    bytes > FAIR_BYTES && state.is_crowded(worker)
}

impl<'a, 'r, C: Channel + Drop> Attendant<'a, 'r, C> {
    /// The number that tells the next client from others, also from those of other workers.
    fn next_number(&self) -> u64 {
        client_number(self.room.number, self.came)
    }

    /// A client came with this connection, speaks this protocol, and takes a seat. It has no token yet. If it speaks commands, it has to
    /// show the password, if there is one.
    fn take_in<P: Clients<C>>(
        &mut self,
        clients: &mut P,
        tokens: Tokens<'a>,
        channel: C,
        protocol: Protocol,
        password: Option<&'a Password>,
    )
        requires gave { P.gave self.old.room.serving.pass channel protocol }
        requires none { tokens ≡ no_tokens tokens.registry }
        ensures desk { self.new.room.desk ≡ self.old.room.desk }
        ensures there { CountGoes (P.there tokens.entry.registry) clients.old (slab_len self.old.seats + 1) clients.new (slab_len self.new.seats) }
        ensures attended { (old : Known) (turns : List Turn)
            → IsAttended C.state P.gave tokens.entry.registry (lent password.entry) old turns (known self.old.room.serving) self.old.came self.old.seats
            → IsAttended C.state P.gave tokens.entry.registry (lent password.entry) old turns (known self.new.room.serving) self.new.came self.new.seats }
    {
        let mut channel = channel;
        let Some(came) = self.came.checked_add(1) else {
            return turn_away(clients, tokens, self.room.serving.pass(), channel, protocol);
        };
        let Ok(()) = self.seats.reserve(1) else {
            return turn_away(clients, tokens, self.room.serving.pass(), channel, protocol);
        };
        let seat = self.seats.vacant_key();
        let Ok(()) = clients.watch(seat, &mut channel) else {
            return turn_away(clients, tokens, self.room.serving.pass(), channel, protocol);
        };
        let talk = Talk::new(self.alloc, self.next_number(), password, protocol);
        let client = Client::new(self.alloc, self.came, tokens, channel, talk);
        self.room.counts.count_kept(0, client.bytes());
        let _ = self.seats.insert_reserved(client);
        self.came = came;
    }

    /// The client, which has left its seat for a turn, takes it again, or is gone.
    fn go_on<P: Clients<C>>(
        &mut self,
        clients: &mut P,
        seat: usize,
        client: Client<'a, C>,
        standing: Standing,
    )
        requires room { HasRoomFor self.old.seats 1 }
        requires client { (registry : TheRegistry) × (password : Option (List ℕ)) × (old : Known) × (turns : List Turn)
            × IsClient C.state P.gave registry password old turns (known self.old.room.serving) self.old.came client }
        ensures desk { self.new.room.desk ≡ self.old.room.desk }
        ensures there { CountGoes (P.there client.entry.tokens.registry) clients.old (slab_len self.old.seats + 1) clients.new (slab_len self.new.seats) }
        ensures attended { (registry : TheRegistry) (password : Option (List ℕ)) (old : Known) (turns : List Turn)
            → IsAttended C.state P.gave registry password old turns (known self.old.room.serving) self.old.came self.old.seats
            → HasNone C.state P.gave registry password self.old.seats client.entry.number
            → IsClient C.state P.gave registry password old turns (known self.old.room.serving) self.old.came client.entry
            → IsAttended C.state P.gave registry password old turns (known self.new.room.serving) self.new.came self.new.seats }
    {
        let bytes = client.bytes();
        if client.has_left() || is_too_much(self.state, self.room.number, bytes) {
            self.room.counts.count_kept(bytes, 0);
            client.part(clients, self.room.serving.pass(), seat);
            return;
        }
        let _ = self.seats.insert_reserved(client);
        clients.served(seat, standing);
    }

    /// The client of this seat has a turn, if there is one.
    fn serve_one<P: Clients<C>, H: Threads + Wait + Sync, G: Gate + Sync>(
        &mut self,
        worker: &Worker<'_, H, G>,
        clients: &mut P,
        seat: usize,
    )
        requires attended { (registry : TheRegistry) × (password : Option (List ℕ)) × (old : Known) × (turns : List Turn)
            × IsAttended C.state P.gave registry password old turns (known self.old.room.serving) self.old.came self.old.seats }
        requires desk { self.old.room.serving.pass.map ≡ self.old.room.desk }
        ensures desk { self.new.room.desk ≡ self.old.room.desk }
        ensures there { (registry : TheRegistry) (password : Option (List ℕ)) (old : Known) (turns : List Turn)
            → IsAttended C.state P.gave registry password old turns (known self.old.room.serving) self.old.came self.old.seats
            → CountGoes (P.there registry) clients.old (slab_len self.old.seats) clients.new (slab_len self.new.seats) }
        ensures attended { (registry : TheRegistry) (password : Option (List ℕ)) (old : Known) (turns : List Turn)
            → IsAttended C.state P.gave registry password old turns (known self.old.room.serving) self.old.came self.old.seats
            → (more : List Turn)
            × IsAttended C.state P.gave registry password old (turns ++ more) (known self.new.room.serving) self.new.came self.new.seats }
    {
        let Some(client) = self.seats.get_mut(seat) else {
            return;
        };
        let before = client.bytes();
        let standing = client.turn(worker, &mut self.room, clients);
        let after = client.bytes();
        self.room.counts.count_kept(before, after);
        if client.has_left() || is_too_much(self.state, self.room.number, after) {
            return self.drop_one(clients, seat);
        }
        clients.served(seat, standing);
    }

    /// The client of this seat is let go, if there is one: at once if it was leaving already.
    fn let_go<P: Clients<C>>(&mut self, clients: &mut P, seat: usize)
        requires attended { (registry : TheRegistry) × (password : Option (List ℕ)) × (old : Known) × (turns : List Turn)
            × IsAttended C.state P.gave registry password old turns (known self.old.room.serving) self.old.came self.old.seats }
        ensures desk { self.new.room.desk ≡ self.old.room.desk }
        ensures there { (registry : TheRegistry) (password : Option (List ℕ)) (old : Known) (turns : List Turn)
            → IsAttended C.state P.gave registry password old turns (known self.old.room.serving) self.old.came self.old.seats
            → CountGoes (P.there registry) clients.old (slab_len self.old.seats) clients.new (slab_len self.new.seats) }
        ensures attended { (registry : TheRegistry) (password : Option (List ℕ)) (old : Known) (turns : List Turn)
            → IsAttended C.state P.gave registry password old turns (known self.old.room.serving) self.old.came self.old.seats
            → IsAttended C.state P.gave registry password old turns (known self.new.room.serving) self.new.came self.new.seats }
    {
        let Some(mut client) = self.seats.try_remove(seat) else {
            return;
        };
        let before = client.bytes();
        if client.leaving.is_some() {
            self.room.counts.count_kept(before, 0);
            client.part(clients, self.room.serving.pass(), seat);
            return;
        }
        let standing = client.let_go(self.alloc);
        self.room.counts.count_kept(before, client.bytes());
        self.go_on(clients, seat, client, standing);
    }

    /// The client of this seat, if there is one, is let go at once.
    fn drop_one<P: Clients<C>>(&mut self, clients: &mut P, seat: usize)
        requires attended { (registry : TheRegistry) × (password : Option (List ℕ)) × (old : Known) × (turns : List Turn)
            × IsAttended C.state P.gave registry password old turns (known self.old.room.serving) self.old.came self.old.seats }
        ensures desk { self.new.room.desk ≡ self.old.room.desk }
        ensures gone { get self.new.seats seat ≡ None }
        ensures over { P.over clients.old → P.over clients.new }
        ensures others { (other : ℕ) → get self.old.seats other ≡ None → get self.new.seats other ≡ None }
        ensures there { (registry : TheRegistry) (password : Option (List ℕ)) (old : Known) (turns : List Turn)
            → IsAttended C.state P.gave registry password old turns (known self.old.room.serving) self.old.came self.old.seats
            → CountGoes (P.there registry) clients.old (slab_len self.old.seats) clients.new (slab_len self.new.seats) }
        ensures attended { (registry : TheRegistry) (password : Option (List ℕ)) (old : Known) (turns : List Turn)
            → IsAttended C.state P.gave registry password old turns (known self.old.room.serving) self.old.came self.old.seats
            → IsAttended C.state P.gave registry password old turns (known self.new.room.serving) self.new.came self.new.seats }
    {
        let Some(client) = self.seats.try_remove(seat) else {
            return;
        };
        self.room.counts.count_kept(client.bytes(), 0);
        client.part(clients, self.room.serving.pass(), seat);
    }

    /// All clients are let go at once.
    fn drop_all<P: Clients<C>>(&mut self, clients: &mut P)
        requires attended { (registry : TheRegistry) × (password : Option (List ℕ)) × (old : Known) × (turns : List Turn)
            × IsAttended C.state P.gave registry password old turns (known self.old.room.serving) self.old.came self.old.seats }
        ensures empty { slab_len self.new.seats ≡ 0 }
        ensures over { P.over clients.old → P.over clients.new }
        ensures there { (registry : TheRegistry) (password : Option (List ℕ)) (old : Known) (turns : List Turn)
            → IsAttended C.state P.gave registry password old turns (known self.old.room.serving) self.old.came self.old.seats
            → CountGoes (P.there registry) clients.old (slab_len self.old.seats) clients.new (slab_len self.new.seats) }
        ensures attended { (registry : TheRegistry) (password : Option (List ℕ)) (old : Known) (turns : List Turn)
            → IsAttended C.state P.gave registry password old turns (known self.old.room.serving) self.old.came self.old.seats
            → IsAttended C.state P.gave registry password old turns (known self.new.room.serving) self.new.came self.new.seats }
    {
        for seat in 0..self.seats.capacity() {
            self.drop_one(clients, seat);
        }
    }

    /// When the worker wants to sweep.
    fn next_sweep(&self) -> NextSweep {
        if self.hurries {
            return NextSweep::Now;
        }
        match self.room.desk.next_sweep() {
            None => NextSweep::Never,
            Some(at) => NextSweep::At(at),
        }
    }

    /// Takes entries out of the map whose time is over.
    fn sweep<P: Clients<C>, H: Wait>(&mut self, rt: &H, clients: &mut P)
        requires desk { self.old.room.serving.pass.map ≡ self.old.room.desk }
        ensures desk { self.new.room.desk ≡ self.old.room.desk }
        ensures there { (registry : TheRegistry) → CountGoes (P.there registry) clients.old (slab_len self.old.seats) clients.new (slab_len self.new.seats) }
        ensures attended { (registry : TheRegistry) (password : Option (List ℕ)) (old : Known) (turns : List Turn)
            → IsAttended C.state P.gave registry password old turns (known self.old.room.serving) self.old.came self.old.seats
            → (more : List Turn)
            × IsAttended C.state P.gave registry password old (turns ++ more) (known self.new.room.serving) self.new.came self.new.seats }
    {
        self.room.now = clients.now();
        self.hurries = self.room.sweep(rt);
    }

    /// Does what is told, until it is over. The state is the attendant's own: the clauses name its password.
    fn attend_all<P: Clients<C>, H: Threads + Wait + Sync, G: Gate + Sync>(
        &mut self,
        worker: &Worker<'a, H, G>,
        state: &'a ServerState,
        clients: &mut P,
    )
        requires attended { (old : Known) × (turns : List Turn)
            × IsAttended C.state P.gave worker.now.registry.now state.now.password old turns (known self.old.room.serving) self.old.came self.old.seats }
        requires serves { P.serves self.old.room.serving.pass.map }
        requires desk { self.old.room.serving.pass.map ≡ self.old.room.desk }
        ensures over { P.over clients.new }
        ensures there { CountGoes (P.there worker.now.registry.now) clients.old (slab_len self.old.seats) clients.new (slab_len self.new.seats) }
        ensures attended { (old : Known) (turns : List Turn)
            → IsAttended C.state P.gave worker.now.registry.now state.now.password old turns (known self.old.room.serving) self.old.came self.old.seats
            → (more : List Turn)
            × IsAttended C.state P.gave worker.now.registry.now state.now.password old (turns ++ more) (known self.new.room.serving) self.new.came self.new.seats }
    {
        for _ in worker.rt.forever() {
            match clients.next(self.room.serving.pass(), self.next_sweep()) {
                Event::Came(channel, protocol) => {
                    let tokens = Tokens::new(worker.alloc, worker.registry);
                    self.take_in(clients, tokens, channel, protocol, state.password());
                }
                Event::Ready(seat) => self.serve_one(worker, clients, seat),
                Event::LetGo(seat) => self.let_go(clients, seat),
                Event::Sweep => self.sweep(worker.rt, clients),
                Event::Over => return,
            }
        }
        unreachable!()
    }
}

/// A worker that begins: nobody came yet.
fn begun<'a, 'r, H, C: Channel + Drop, G>(
    worker: &Worker<'a, H, G>,
    scripts: &'a Scripts<'r>,
    state: &'a ServerState,
    crew: Crew,
) -> Attendant<'a, 'r, C>
    requires { IsCrewOf worker.now.map.now crew }
    ensures number { result.room.number ≡ crew.worker }
    ensures knows { known result.room.serving ≡ known_at state.now.is_strict crew }
    ensures desk { result.room.desk ≡ worker.now.map.now }
    ensures came { result.came ≡ 0 }
    ensures empty { result.seats.slots ≡ [] }
{
    let Crew {
        worker: number,
        pass,
        team,
    } = crew;
    let serving = Serving {
        map: worker.map,
        registry: worker.registry,
        pass,
        team: team.into_passes(),
        tokens: Vec::new(worker.alloc),
        strict: state.if_strict(),
    };
    Attendant {
        alloc: worker.alloc,
        state,
        room: Room {
            number,
            serving,
            conversation: Conversation::new(worker.alloc),
            desk: RedisDesk::new(worker.alloc, worker.map, scripts, state.at(number)),
            piece: [0; PIECE_BYTES],
            count: 0,
            counts: state.counts_of(number),
            now: 0,
        },
        seats: Slab::new(worker.alloc),
        came: 0,
        hurries: false,
    }
}

/// Serves a worker's clients until it is told that this is over, any number of them at once: what each sends is read in pieces, one
/// in each of its turns, and answered by the crew, in the client's protocol and with the tokens of that client. Gives the crew back.
/// What moved it is the turns of the clients and the worker's own sweeps, in one chain. Each client's turns are one conversation, as
/// `session` has it, or one talk of the crate redis_service: its requests are those that it sent, in order, each answered once, and what
/// is written to it are their answers. Each client that came is told to `clients` when it leaves (`there`), and it comes back only after
/// `clients` have told it to end (`over`). Scripts that clients of
/// commands load are kept in `scripts`, and what the server knows of itself in `state`. Waits as `clients` does, and for stripes that others hold.
pub fn attend<'a, 'r, H: Threads + Wait + Sync, C: Channel + Drop, P: Clients<C>, G: Gate + Sync>(
    worker: &Worker<'a, H, G>,
    scripts: &'a Scripts<'r>,
    state: &'a ServerState,
    clients: &mut P,
    crew: Crew,
) -> Crew
    requires crew { IsCrewOf worker.now.map.now crew }
    requires serves { P.serves worker.now.map.now }
    ensures life { HasLived C.state P.gave worker.now.registry.now state.now.password state.now.is_strict crew result }
    ensures there { CountGoes (P.there worker.now.registry.now) clients.old 0 clients.new 0 }
    ensures over { P.over clients.new }
    ensures crew { IsCrewOf worker.now.map.now result }
    ensures same { CarriesSame crew result }
{
    let number = crew.worker;
    let mut attendant: Attendant<'a, 'r, C> = begun(worker, scripts, state, crew);
    attendant.attend_all(worker, state, clients);
    attendant.drop_all(clients);
    let Attendant { room, .. } = attendant;
    let Room { serving, .. } = room;
    let Serving { pass, team, .. } = serving;
    let Ok(team) = Team::new(team) else {
        unreachable!()
    };
    Crew {
        worker: number,
        pass,
        team,
    }
}
