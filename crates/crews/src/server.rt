//! Crews that serve clients, each in a thread of its own.
ghost use Rattle.std.specs.Prelude.{ℕ, All, IfOk, IsSomeAnd};
ghost use Rattle.crews.specs.Crews.{IsCrewOf, IsServed, CarriesSame, AllCarrySame};
ghost use Rattle.crews.specs.Served.{ServesClients, AllServeClients, HasServedClients, CameBack};

use crate::accept::Accept;
use crate::client::session_with_tokens;
use crate::crew::Crew;
use crate::seats::{left_of, seated};
use crate::worker::Worker;
use bin_stripes::{Gate, StripedMap};
use bpf_model::NoMemory;
use devices::{Sink, Source};
use program_registry::Registry;
use std::alloc::Global;
use std::sync::Wait;
use std::thread::Threads;
use workers::{Execution, work};

/// Serves the worker's clients, one after the other.
#[tactic(auto, using(crate::proofs::ServeLemmas::carries_same, crate::proofs::ServeLemmas::carries_on))]
fn serve_clients<
    H: Threads + Wait + Sync,
    R: Source + Sync,
    W: Sink + Sync,
    A: Accept<R, W>,
    G: Gate + Sync,
>(worker: &Worker<'_, H, G>, accept: &A, crew: Crew) -> Crew
    requires crew { IsCrewOf worker.now.map.now crew }
    requires serves { A.serves accept.now worker.now.map.now worker.now.registry.now }
    ensures of { IsCrewOf worker.now.map.now result }
    ensures same { CarriesSame crew result }
    ensures served { (n : ℕ) × ServesClients R.state W.state A.gave worker.now.registry.now n crew result }
    ensures over { A.over result }
{
    let mut crew = crew;
    for _ in worker.rt.forever() {
        let Some((mut reader, mut writer)) = accept.next(&crew) else {
            return crew;
        };
        let (back, end, tokens) = session_with_tokens(worker, &mut reader, &mut writer, crew);
        accept.ended(&back, reader, writer, end, tokens);
        crew = back;
    }
    unreachable!()
}

/// Runs one worker a crew, each in a thread of its own if one can be made, and each serving its clients one after the other
/// until `accept` has none for it. Gives the crews back in their order, each of this map with the numbers that it carried, and moved by
/// nothing but the sessions of clients that its worker was given, one after the other, with tokens of this registry (`served`), until it
/// was told that none comes any more (`over`). `NoMemory` if a request for the lists of workers was refused: nobody is served then, and the
/// crews are given up. Waits for clients.
pub fn serve<
    H: Threads + Wait + Sync,
    R: Source + Sync,
    W: Sink + Sync,
    A: Accept<R, W> + Sync,
    G: Gate + Sync,
>(
    rt: &H,
    alloc: Global,
    accept: &A,
    map: &StripedMap,
    registry: &Registry,
    crews: Vec<Crew>,
    gate: &G,
) -> Result<Vec<Crew>, NoMemory>
    requires crews { All (λ crew. IsCrewOf map.now crew) crews.items }
    requires serves { A.serves accept.now map.now registry.now }
    ensures same { IfOk result (λ back. AllCarrySame crews.items back.items) }
    ensures map { IfOk result (λ back. All (λ crew. IsCrewOf map.now crew) back.items) }
    ensures served { IfOk result (λ back. AllServeClients R.state W.state A.gave registry.now crews.items back.items) }
    ensures over { IfOk result (λ back. All A.over back.items) }
{
    let count = crews.len();
    let seats = Vec::with_capacity(alloc, count)?;
    let back = Vec::with_capacity(alloc, count)?;
    let seats = seated(crews, seats);
    let call = move |_: usize, seat: &mut Option<Crew>|
        requires { IsSomeAnd seat.old (λ crew. IsCrewOf map.now crew) × A.serves accept.now map.now registry.now }
        ensures of { IsServed map.entry.now seat.old seat.new }
        ensures served { HasServedClients R.state W.state A.gave registry.entry.now seat.old seat.new }
        ensures over { CameBack A.over seat.old seat.new }
    {
        if let Some(crew) = seat.take() {
            let worker = Worker {
                rt,
                alloc,
                gate,
                map,
                registry,
            };
            *seat = Some(serve_clients(&worker, accept, crew));
        }
    };
    let (seats, answers) = work(rt, alloc, seats, &call, Execution::Parallel);
    let Ok(_) = answers else {
        return Err(NoMemory);
    };
    Ok(left_of(seats, back))
}
