//! The ports that `mapd` listens on, and their clients.
ghost use Rattle.std.specs.Prelude.{◌≡◌, IfOk, IfSome, IsSomeAnd, All, vec_len};
ghost use Rattle.crews.specs.Crews.{IsCrewOf};
ghost use Rattle.map_keeper.specs.Keepers.{pass_of};
ghost use Rattle.map_server.specs.Servers.{HasPorts};
ghost use Rattle.map_server.specs.ServerRuns.{HaveAttended};

use crate::entrance::{Entrance, Gates};
use crate::keeping::{Bell, Host, Kept, Saver};
use crate::metrics::{Watch, Watcher};
use crate::ports::{Binder, ListenFault, Ports, WAKE, add_line, listen_at};
use crate::posts::attend_all;
use crate::words::MapdWords;
use bin_stripes::OpenGate;
use bpf_model::NoMemory;
use crews::{Attended, Crew, Worker};
use devices::Sink;
use map_keeper::Shared;
use mio::net::TcpListener;
use mio::{Poll, Waker};
use std::alloc::Global;
use std::io;
use std::net::Net;
use std::rt::Clock;
use std::sync::Wait;
use std::thread::{Threads, join};

/// Ports that are bound, the polls that watch them, one for each worker, what ends their waits, the port for the server's numbers, which no
/// worker watches, and the lines that tell the ports' addresses.
#[derive(Drop)]
pub(crate) struct Bound {
    pub(crate) gates: Gates,
    pub(crate) polls: Vec<Poll>,
    pub(crate) metrics: Option<TcpListener>,
    pub(crate) lines: String,
}

/// What ends the waits of these polls, if the server may be told to end: clients of commands can tell it.
fn wakers_of(alloc: Global, ports: &Ports, polls: &[Poll]) -> io::Result<Vec<Waker>> {
    let mut wakers = Vec::new(alloc);
    if ports.commands.is_none() {
        return Ok(wakers);
    }
    for poll in polls {
        wakers.push(Waker::new(poll.registry(), WAKE)?)?;
    }
    Ok(wakers)
}

/// Polls of this number of workers, which watch the ports.
fn polls_of<H: Net>(rt: &H, alloc: Global, ports: &Ports, workers: usize) -> io::Result<Vec<Poll>>
    ensures { IfOk result (λ polls. vec_len polls ≡ workers) }
{
    let mut polls = Vec::new(alloc);
    for _ in 0..workers {
        polls.push(ports.poll(rt)?)?;
    }
    Ok(polls)
}

/// The ports that are asked for, bound, and watched by the polls of this number of workers. An error tells why there are none.
pub(crate) fn bind<'a, H: Net, K: Binder>(
    host: &Host<'_, H, K>,
    asked: &'a MapdWords,
    workers: usize,
) -> Result<Bound, ListenFault<'a>>
    ensures polls { IfOk result (λ bound. vec_len bound.polls ≡ workers) }
    ensures ports { IfOk result (λ bound. HasPorts K.bound asked.now bound.gates.ports bound.metrics) }
{
    let (rt, alloc, machine) = (host.rt, host.alloc, host.machine);
    let frames = listen_at(rt, machine, &asked.listen)?;
    let commands = listen_at(rt, machine, &asked.redis)?;
    let metrics = listen_at(rt, machine, &asked.metrics)?;
    let ports = Ports { frames, commands };
    let polls = polls_of(rt, alloc, &ports, workers)?;
    let wakers = wakers_of(alloc, &ports, &polls)?;
    let mut lines = ports.lines(alloc)?;
    add_line(alloc, &mut lines, "metrics on", &metrics)?;
    Ok(Bound {
        gates: Gates { ports, wakers },
        polls,
        metrics,
        lines,
    })
}

/// Serves clients, while a thread of its own keeps the map. If no thread can be made, the map is saved at the end alone. Returns also
/// whether the last save failed.
fn attend_and_keep<'a, 'r, H: Threads + Wait + Clock + Sync, E: Sink + Send>(
    worker: &Worker<'a, H, OpenGate>,
    shared: &Shared<'a, 'r>,
    entrance: &Entrance<'a, '_, H, E>,
    crews: Vec<Crew>,
    polls: Vec<Poll>,
    kept: Kept<'_>,
) -> (Result<Vec<Attended>, NoMemory>, bool)
    requires crews { All (λ crew. IsCrewOf worker.now.map.now crew) crews.items }
    requires polls { vec_len polls ≡ vec_len crews }
    requires kept { (pass_of kept.keeper).map ≡ shared.now.map.now }
    ensures { IfOk result.0 (λ back.
        HaveAttended worker.now.registry.now entrance.now.state.now.password entrance.now.state.now.is_strict crews.items back.items × All (λ crew. IsCrewOf worker.now.map.now crew) back.items) }
{
    let bell = Bell::new();
    let bell = &bell;
    let alloc = worker.alloc;
    let saving = move || -> bool
        requires { (pass_of kept.keeper).map ≡ shared.now.map.now }
    {
        let saver = Saver {
            entrance,
            shared,
            alloc,
        };
        saver.keep(kept, bell)
    };
    // For the proof: a closure that moves its captures on can't be known by what it ensures, so it takes them out of this.
    let mut given = Some((crews, polls));
    let serving = move || -> Result<Vec<Attended>, NoMemory>
        requires { IsSomeAnd given (λ given. All (λ crew. IsCrewOf worker.now.map.now crew) given.0.items × (vec_len given.1 ≡ vec_len given.0)) }
        ensures { IfOk result (λ back. IfSome given.entry (λ given.
            HaveAttended worker.entry.now.registry.now entrance.entry.now.state.now.password entrance.entry.now.state.now.is_strict given.0.items back.items × All (λ crew. IsCrewOf worker.entry.now.map.now crew) back.items)) }
    {
        let Some((crews, polls)) = given.take() else {
            unreachable!()
        };
        let back = attend_all(worker, shared.scripts, entrance, crews, polls);
        bell.ring();
        back
    };
    let (has_failed, crews) = join(worker.rt, saving, serving);
    (crews, has_failed)
}

/// Serves clients, and keeps the map meanwhile, if it is kept. Returns also whether the last save failed.
pub(crate) fn attend<'a, 'r, H: Threads + Wait + Clock + Sync, E: Sink + Send>(
    worker: &Worker<'a, H, OpenGate>,
    shared: &Shared<'a, 'r>,
    entrance: &Entrance<'a, '_, H, E>,
    crews: Vec<Crew>,
    polls: Vec<Poll>,
    kept: Option<Kept<'_>>,
) -> (Result<Vec<Attended>, NoMemory>, bool)
    requires crews { All (λ crew. IsCrewOf worker.now.map.now crew) crews.items }
    requires polls { vec_len polls ≡ vec_len crews }
    requires kept { IfSome kept (λ kept. (pass_of kept.keeper).map ≡ shared.now.map.now) }
    ensures { IfOk result.0 (λ back.
        HaveAttended worker.now.registry.now entrance.now.state.now.password entrance.now.state.now.is_strict crews.items back.items × All (λ crew. IsCrewOf worker.now.map.now crew) back.items) }
{
    match kept {
        None => (
            attend_all(worker, shared.scripts, entrance, crews, polls),
            false,
        ),
        Some(kept) => attend_and_keep(worker, shared, entrance, crews, polls, kept),
    }
}

/// Serves clients, while a thread of its own answers readers of the server's numbers. If no thread can be made, none is answered.
pub(crate) fn attend_and_watch<'a, 'r, H: Threads + Wait + Clock + Sync, E: Sink + Send>(
    worker: &Worker<'a, H, OpenGate>,
    shared: &Shared<'a, 'r>,
    entrance: &Entrance<'a, '_, H, E>,
    posts: (Vec<Crew>, Vec<Poll>),
    kept: Option<Kept<'_>>,
    watch: Watch,
) -> (Result<Vec<Attended>, NoMemory>, bool)
    requires crews { All (λ crew. IsCrewOf worker.now.map.now crew) posts.0.items }
    requires polls { vec_len posts.1 ≡ vec_len posts.0 }
    requires kept { IfSome kept (λ kept. (pass_of kept.keeper).map ≡ shared.now.map.now) }
    requires watch { watch.pass.map ≡ shared.now.map.now }
    ensures { IfOk result.0 (λ back.
        HaveAttended worker.now.registry.now entrance.now.state.now.password entrance.now.state.now.is_strict posts.0.items back.items × All (λ crew. IsCrewOf worker.now.map.now crew) back.items) }
{
    let bell = Bell::new();
    let bell = &bell;
    let (rt, state) = (worker.rt, entrance.state);
    let (map, registry) = (shared.map, shared.registry);
    let watching = move ||
        requires { watch.pass.map ≡ map.now }
    { Watcher::new(rt, state, map, registry).watch(watch, bell) };
    // For the proof: a closure that moves its captures on can't be known by what it ensures, so it takes them out of this.
    let mut given = Some((posts, kept));
    let serving = move || -> (Result<Vec<Attended>, NoMemory>, bool)
        requires { IsSomeAnd given (λ given. All (λ crew. IsCrewOf worker.now.map.now crew) given.0.0.items
            × (vec_len given.0.1 ≡ vec_len given.0.0)
            × IfSome given.1 (λ kept. (pass_of kept.keeper).map ≡ shared.now.map.now)) }
        ensures { IfOk result.0 (λ back. IfSome given.entry (λ given.
            HaveAttended worker.entry.now.registry.now entrance.entry.now.state.now.password entrance.entry.now.state.now.is_strict given.0.0.items back.items × All (λ crew. IsCrewOf worker.entry.now.map.now crew) back.items)) }
    {
        let Some(((crews, polls), kept)) = given.take() else {
            unreachable!()
        };
        let back = attend(worker, shared, entrance, crews, polls, kept);
        bell.ring();
        back
    };
    let ((), served) = join(worker.rt, watching, serving);
    served
}
