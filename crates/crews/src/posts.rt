//! Crews that attend clients, any number at once each, in threads of their own.
ghost use Rattle.std.specs.Prelude.{◌≡◌, ◌≤◌, [], All, IfOk, IsSome, IsSomeAnd, map, Some, vec_len, vec_capacity};
ghost use Rattle.crews.specs.Arrivals.{CountGoes};
ghost use Rattle.crews.specs.Crews.{IsCrewOf, CarriesSame};
ghost use Rattle.crews.specs.Lives.{HasLived};
ghost use Rattle.crews.specs.Posts.{IsAttendedSeat};
ghost use Rattle.crews.specs.Steps.{Pairwise};

use crate::attending::attend;
use crate::clients::Clients;
use crate::crew::Crew;
use crate::seats::seated;
use crate::worker::Worker;
use bin_stripes::Gate;
use bpf_model::NoMemory;
use devices::Channel;
use redis_scripts::Scripts;
use server_state::ServerState;
use std::marker::Model;
use std::sync::Wait;
use std::thread::Threads;
use workers::{Execution, work};

/// A crew, and the clients that it attends.
#[derive(Drop)]
pub struct Post<P, K> {
    pub crew: K,
    pub clients: P,
}

/// A crew that attended its clients until they were over. Nothing but `attend_each` makes one. In a contract it is the crew.
#[derive(Drop)]
pub struct Attended {
    crew: Crew,
}

impl Model for Attended {
    ghost use Rattle.crews.specs.declared.crew.Crew.{Crew as TheCrew};

    ghost Value = { TheCrew };

    ghost view = { λ attended. attended.crew };

    ghost inverse = { λ crew. record { crew = crew } };
}

impl Attended {
    /// Returns the crew, for another life.
    pub fn into_crew(self) -> Crew
        ensures { result ≡ self }
    {
        self.crew
    }
}

/// Those that threads brought back to their seats, in the room that is there.
fn attended_of<P: Drop>(
    seats: Vec<Option<Post<P, Crew>>>,
    mut back: Vec<Post<P, Attended>>,
) -> Vec<Post<P, Attended>>
    requires empty { back.items ≡ [] }
    requires room { vec_len seats ≤ vec_capacity back }
    requires some { All (λ seat. IsSome seat) seats.items }
    ensures { map Some result.items ≡ seats.items }
{
    for seat in seats {
        let Some(Post { crew, clients }) = seat else {
            unreachable!()
        };
        let crew = Attended { crew };
        back.push_reserved(Post { crew, clients });
    }
    back
}

/// Runs one worker a post, each in a thread of its own if one can be made, and each attending its clients, any number at once, until
/// they are over, by scripts and a state of the server that all share. Gives the posts back in their order: each crew is of this map with the numbers that it
/// carried, nothing but turns of its own clients and its sweeps moved it (`lived`), each client that came was told to its `Clients`
/// when it left (`there`), and these told it to end (`over`). `NoMemory` if a request for the lists of workers was refused: nobody is attended then, and the posts are given
/// up. Waits for clients.
pub fn attend_each<
    'a,
    'r,
    H: Threads + Wait + Sync,
    C: Channel + Drop + Sync,
    P: Clients<C> + Send + Sync + Drop,
    G: Gate + Sync,
>(
    worker: &Worker<'a, H, G>,
    scripts: &'a Scripts<'r>,
    state: &'a ServerState,
    posts: Vec<Post<P, Crew>>,
) -> Result<Vec<Post<P, Attended>>, NoMemory>
    requires crews { All (λ post. IsCrewOf worker.now.map.now post.crew) posts.items }
    requires serves { P.serves worker.now.map.now }
    ensures same { IfOk result (λ back. Pairwise (λ old new. CarriesSame old.crew new.crew) posts.items back.items) }
    ensures map { IfOk result (λ back. All (λ post. IsCrewOf worker.now.map.now post.crew) back.items) }
    ensures lived { IfOk result (λ back. Pairwise (λ old new. HasLived C.state P.gave worker.now.registry.now state.now.password state.now.is_strict old.crew new.crew) posts.items back.items) }
    ensures there { IfOk result (λ back. Pairwise (λ old new. CountGoes (P.there worker.now.registry.now) old.clients 0 new.clients 0) posts.items back.items) }
    ensures over { IfOk result (λ back. All (λ post. P.over post.clients) back.items) }
{
    let alloc = worker.alloc;
    let count = posts.len();
    let seats = Vec::with_capacity(alloc, count)?;
    let back = Vec::with_capacity(alloc, count)?;
    let seats = seated(posts, seats);
    let call = move |_: usize, seat: &mut Option<Post<P, Crew>>|
        requires { IsSomeAnd seat.old (λ post. IsCrewOf worker.now.map.now post.crew) × P.serves worker.now.map.now }
        ensures { IsAttendedSeat C.state P.gave worker.entry.now.registry.now state.entry.now.password state.entry.now.is_strict (P.there worker.entry.now.registry.now) P.over worker.entry.now.map.now seat.old seat.new }
    {
        if let Some(post) = seat.take() {
            let Post { crew, mut clients } = post;
            let crew = attend(worker, scripts, state, &mut clients, crew);
            *seat = Some(Post { crew, clients });
        }
    };
    let (seats, answers) = work(worker.rt, alloc, seats, &call, Execution::Parallel);
    let Ok(_) = answers else {
        return Err(NoMemory);
    };
    Ok(attended_of(seats, back))
}
