//! Serving, from the first client until each worker has ended. Nothing else makes a `Served`.
ghost use Rattle.std.specs.Prelude.{◌≡◌, true, false, IfOk, IsErr, IsOk, option_map};
ghost use Rattle.map_server.specs.Servers.{AreTerms, CanServe, HasServed};
ghost use Rattle.map_server.specs.ServerRuns.{HaveAttended};

use crate::arrivals::{Arrivals, Limits};
use crate::entrance::{Entrance, Gates};
use crate::keeping::Kept;
use crate::ports::Ports;
use crate::ready::Ready;
use crate::tcp::{attend, attend_and_watch};
use crate::telling::Telling;
use crate::wall_clock::WallClock;
use bin_stripes::OpenGate;
use bpf_model::NoMemory;
use crews::{Attended, Worker};
use devices::Sink;
use map_keeper::Shared;
use server_state::{ServerState, SlowLog};
use std::alloc::Global;
use std::rt::Clock;
use std::sync::Wait;
use std::thread::Threads;

/// The terms on which clients are served.
#[derive(Clone, Copy)]
pub(crate) struct Terms {
    /// How many sessions each worker may begin; none: any number.
    sessions: Option<u64>,
    limits: Limits,
    /// Clients of commands have to show a password.
    has_password: bool,
    /// The number of seconds from one save of the map to the next; none: it isn't kept.
    keeps: Option<u64>,
    /// Readers of the server's numbers are answered.
    watches: bool,
}

impl Terms {
    /// Those on which this is ready.
    fn of(ready: &Ready<'_>) -> Terms
        ensures { AreTerms ready.now result }
    {
        Terms {
            sessions: ready.quotas.most(),
            limits: ready.limits,
            has_password: ready.password.is_some(),
            keeps: seconds_of(&ready.kept),
            watches: ready.watch.is_some(),
        }
    }
}

/// What was served, and how that ended.
#[derive(Drop)]
pub struct Served {
    /// The crews; or `NoMemory` if a request for memory was refused before the first client.
    crews: Result<Vec<Attended>, NoMemory>,
    /// How many clients were handed out.
    streams: u64,
    /// An accept failed, or the last save of the map.
    has_failed: bool,
    /// The ports that clients came to.
    ports: Ports,
    terms: Terms,
}

impl Served {
    /// Memory was refused before the first client.
    pub(crate) fn is_refused(&self) -> bool
        ensures refused { result ≡ true → IsErr self.now.crews }
        ensures served { result ≡ false → IsOk self.now.crews }
    {
        self.crews.is_err()
    }

    /// How many clients were handed out.
    pub(crate) fn streams(&self) -> u64
        ensures { result ≡ self.now.streams }
    {
        self.streams
    }

    /// An accept failed, or the last save of the map.
    pub(crate) fn has_failed(&self) -> bool
        ensures { result ≡ self.now.has_failed }
    {
        self.has_failed
    }
}

/// What all threads know of a server that began at this time, within these limits, and keeps commands for SLOWLOG from a number of
/// microseconds on, if there is one. `NoMemory` if a request for memory was refused.
fn state_of(
    alloc: Global,
    workers: u64,
    keeps: bool,
    began: u64,
    limits: &Limits,
) -> Result<ServerState, NoMemory>
    ensures { IfOk result (λ state. state.is_strict ≡ limits.now.is_strict) }
{
    let state = ServerState::new(alloc, workers, keeps, began)?;
    let state = state
        .with_session_bytes(limits.session_bytes)
        .with_strict(limits.is_strict);
    match limits.slow {
        None => Ok(state),
        Some(least) => Ok(state.with_slow_log(SlowLog::from(alloc, least)?)),
    }
}

/// The number of seconds from one save of the map to the next; none: it isn't kept.
fn seconds_of(kept: &Option<Kept<'_>>) -> Option<u64>
    ensures { result ≡ option_map (λ kept. kept.seconds) kept.now }
{
    match kept {
        None => None,
        Some(kept) => Some(kept.seconds),
    }
}

/// Nobody was served: memory was refused.
fn nobody_served(gates: Gates, terms: Terms) -> Served
    ensures crews { IsErr result.crews }
    ensures ports { result.ports ≡ gates.ports }
    ensures terms { result.terms ≡ terms }
{
    let Gates { ports, .. } = gates;
    Served {
        crews: Err(NoMemory),
        streams: 0,
        has_failed: false,
        ports,
        terms,
    }
}

/// What was served at this entrance, which nobody comes through any more; and what tells standard error.
fn served_by<'a, H: Wait + Clock, E: Sink>(
    entrance: Entrance<'_, 'a, H, E>,
    crews: Result<Vec<Attended>, NoMemory>,
    save_failed: bool,
    terms: Terms,
) -> (Served, Telling<'a, E>)
    ensures crews { result.0.crews ≡ crews }
    ensures ports { result.0.ports ≡ entrance.entry.ports }
    ensures terms { result.0.terms ≡ terms }
{
    let streams = entrance.arrivals.streams();
    let has_failed = save_failed || entrance.arrivals.has_failed();
    let (ports, errors) = entrance.into_parts();
    let served = Served {
        crews,
        streams,
        has_failed,
        ports,
        terms,
    };
    (served, errors)
}

/// Serves clients of the ports until each worker has ended. Meanwhile it keeps the map, if it is kept, and answers readers of the server's
/// numbers, if there is a port for them. Standard error is told what goes wrong, and given back.
pub(crate) fn serve_ports<'a, H: Threads + Wait + Clock + Sync, E: Sink + Send>(
    rt: &H,
    ready: Ready<'_>,
    shared: &Shared<'_, '_>,
    errors: Telling<'a, E>,
) -> (Served, Telling<'a, E>)
    requires { CanServe shared.now ready }
    ensures crews { IfOk result.0.crews (λ back. HaveAttended shared.now.registry.now ready.entry.password ready.entry.limits.is_strict ready.entry.crews.items back.items) }
    ensures served { HasServed ready.entry result.0 }
{
    let terms = Terms::of(&ready);
    let Ready {
        alloc,
        crews,
        polls,
        gates,
        quotas,
        limits,
        password,
        kept,
        watch,
    } = ready;
    let began = WallClock::new(rt).look();
    let workers = crews.len() as u64;
    let Ok(state) = state_of(alloc, workers, kept.is_some(), began, &limits) else {
        return (nobody_served(gates, terms), errors);
    };
    let state = state.with_password(password);
    let arrivals = Arrivals::new(rt, alloc, limits, errors);
    let entrance = Entrance::new(arrivals, &state, gates, quotas);
    let worker = Worker {
        rt,
        alloc,
        gate: &OpenGate,
        map: shared.map,
        registry: shared.registry,
    };
    let (crews, has_failed) = match watch {
        None => attend(&worker, shared, &entrance, crews, polls, kept),
        Some(watch) => attend_and_watch(&worker, shared, &entrance, (crews, polls), kept, watch),
    };
    served_by(entrance, crews, has_failed, terms)
}
