//! A session of one client, served by a crew.
ghost use Rattle.std.specs.Prelude.{◌≡◌, ◌≢◌, ◌+◌, ℕ, List, false};
ghost use Rattle.std.specs.Io.KnownBytes.{Appends, Consumes, IsAtEnd};
ghost use Rattle.devices.specs.Devices.{CanRead, CanWrite};
ghost use Rattle.sessions.specs.Sessions.{Ended, HasToldEnd, ends_after, failed_reads, failed_writes};
ghost use Rattle.crews.specs.Stations.{KeptTokens, no_tokens};
ghost use Rattle.crews.specs.Steps.{CrewServes};
ghost use Rattle.crews.specs.Crews.{IsCrewOf, CarriesSame, station};

use crate::crew::Crew;
use crate::serving::Serving;
use crate::tokens::Tokens;
use crate::worker::Worker;
use bin_stripes::{Gate, StripedMap};
use bpf_model::Value;
use bulk_walks::Team;
use client_protocol::Request;
use devices::{ReadAfterFlush, Sink};
use program_registry::Registry;
use sessions::{SessionEnd, run_session};
use std::alloc::Global;
use std::sync::Wait;
use std::thread::Threads;

/// Answers the requests that are read, each before the next one is looked at, as `session_alone` does, over a map and programs that
/// other sessions share. The crew's team makes the walks. It is told what the crew's pass knows, and
/// then the pass is told what the team saw.
/// The gate is passed at `Request` before each answer. A number that the session has a token for means that token's program; another is
/// looked up in the registry, and its token is kept. The tokens come back with the crew: `Tokens::mean_the_same` compares two sessions'.
/// Waits for the reader, and for stripes that others hold.
pub fn session_with_tokens<
    'a,
    H: Threads + Wait + Sync,
    R: ReadAfterFlush<W>,
    W: Sink,
    G: Gate + Sync,
>(
    worker: &Worker<'a, H, G>,
    reader: &mut R,
    writer: &mut W,
    crew: Crew,
) -> (Crew, SessionEnd, Tokens<'a>)
    requires reads { CanRead (R.source reader.old) }
    requires writes { CanWrite (W.state writer.old) }
    requires crew { IsCrewOf worker.now.map.now crew }
    // What was read is answered, by a chain of states from the crew handed in, with no token, to the crew and the tokens given back.
    ensures ended { (read : List ℕ) × ((written : List ℕ)
        × (Consumes (R.source reader.old).left (R.source reader.new).left read
        × (Appends (W.state writer.old).held (W.state writer.new).held written
        × Ended CrewServes (station crew (no_tokens worker.now.registry.now)) result.1 read (R.source reader.new).last written (station result.0 result.2)))) }
    ensures registry { result.2.registry ≡ worker.now.registry.now }
    ensures crew { IsCrewOf worker.now.map.now result.0 }
    ensures same { CarriesSame crew result.0 }
    ensures told { (R.source reader.new).ends ≡ ends_after result.1 (R.source reader.old).ends }
    ensures whole { HasToldEnd result.1 → IsAtEnd (R.source reader.new).left }
    ensures reads { (R.source reader.new).failures
        ≡ (R.source reader.old).failures + failed_reads result.1 }
    ensures writes { (W.state writer.new).failures
        ≡ (W.state writer.old).failures + failed_writes result.1 }
    ensures sent { (result.1 ≢ SessionEnd.WriteFailed) → (W.state writer.new).keeps_back ≡ false }
{
    let Crew {
        worker: number,
        pass,
        team,
    } = crew;
    let answer = |serving: &mut Serving<'_>, hello, request: &Request, value: &mut Value| {
        serving.answer(worker, number, hello, request, value)
    };
    let mut serving = Serving {
        map: worker.map,
        registry: worker.registry,
        pass,
        team: team.into_passes(),
        tokens: Vec::new(worker.alloc),
        strict: None,
    };
    let end = run_session(
        worker.rt,
        worker.alloc,
        reader,
        writer,
        &mut serving,
        &answer,
    );
    let Serving {
        registry,
        pass,
        team,
        tokens,
        ..
    } = serving;
    let Ok(team) = Team::new(team) else {
        unreachable!()
    };
    let crew = Crew {
        worker: number,
        pass,
        team,
    };
    let tokens = Tokens {
        registry,
        items: tokens,
    };
    (crew, end, tokens)
}

/// As `session_with_tokens`, for those who need no tokens: they are given up. Waits for the reader, and for stripes that others hold.
pub fn session<H: Threads + Wait + Sync, R: ReadAfterFlush<W>, W: Sink, G: Gate + Sync>(
    rt: &H,
    alloc: Global,
    reader: &mut R,
    writer: &mut W,
    map: &StripedMap,
    registry: &Registry,
    crew: Crew,
    gate: &G,
) -> (Crew, SessionEnd)
    requires reads { CanRead (R.source reader.old) }
    requires writes { CanWrite (W.state writer.old) }
    requires crew { IsCrewOf map.now crew }
    // What was read is answered, by a chain of states from the crew handed in, with no token, to the crew given back.
    ensures ended { (read : List ℕ) × ((written : List ℕ) × ((tokens : KeptTokens)
        × (Consumes (R.source reader.old).left (R.source reader.new).left read
        × (Appends (W.state writer.old).held (W.state writer.new).held written
        × Ended CrewServes (station crew (no_tokens registry.now)) result.1 read (R.source reader.new).last written (station result.0 tokens))))) }
    ensures crew { IsCrewOf map.now result.0 }
    ensures same { CarriesSame crew result.0 }
    ensures told { (R.source reader.new).ends ≡ ends_after result.1 (R.source reader.old).ends }
    ensures whole { HasToldEnd result.1 → IsAtEnd (R.source reader.new).left }
    ensures reads { (R.source reader.new).failures
        ≡ (R.source reader.old).failures + failed_reads result.1 }
    ensures writes { (W.state writer.new).failures
        ≡ (W.state writer.old).failures + failed_writes result.1 }
    ensures sent { (result.1 ≢ SessionEnd.WriteFailed) → (W.state writer.new).keeps_back ≡ false }
{
    let worker = Worker {
        rt,
        alloc,
        gate,
        map,
        registry,
    };
    let (crew, end, _) = session_with_tokens(&worker, reader, writer, crew);
    (crew, end)
}
