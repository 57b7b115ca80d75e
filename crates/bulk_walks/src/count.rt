//! The number of entries.
ghost use Rattle.std.specs.Prelude.{◌≡◌, ◌<◌, ◌^◌, All, MatchResult, sum_by};
ghost use Rattle.bin_stripes.specs.Passes.{stripes_of};
ghost use Rattle.bulk_walks.specs.Walks.{AllWalked, MayScan, CountsAll};
ghost use Rattle.bulk_walks.specs.Turns.{CountsTurns};

use crate::team::Team;
use crate::turns::Turns;
use atomic_methods::{WalkReply, count_of};
use bin_stripes::{Gate, Pass, StripedMap};
use bpf_model::NoMemory;
use std::alloc::Global;
use std::sync::Wait;
use std::thread::Threads;
use workers::{Execution, work};

/// Counts the worker's stripes, one after the other.
fn count_turns<R: Wait, G: Gate>(rt: &R, worker: &Turns<'_>, gate: &G, pass: &mut Pass) -> u64
    requires map { pass.old.map ≡ worker.now.map.now }
    requires worker { worker.now.number < worker.now.workers }
    ensures map { pass.new.map ≡ pass.old.map }
    ensures done { CountsTurns (stripes_of worker.now.map.now) worker.now.workers worker.now.number pass.old.view pass.new.view result }
{
    worker.start(gate);
    let stripes = worker.map.stripes();
    let mut count = 0;
    for stripe in 0..stripes {
        if stripe % worker.workers == worker.number {
            count += worker.map.count_stripe(rt, pass, stripe);
        }
    }
    count
}

/// Adds up the counts of the workers.
fn total(counts: &[u64]) -> u64
    requires { sum_by (λ n. n) counts.now < 2 ^ 64 }
    ensures { result ≡ sum_by (λ n. n) counts.now }
{
    let mut sum = 0;
    for count in counts {
        sum += *count;
    }
    sum
}

/// Adds up what the team's workers count, in threads as the execution tells.
fn counted<R: Threads + Wait + Sync, G: Gate + Sync>(
    rt: &R,
    alloc: Global,
    map: &StripedMap,
    team: Team,
    gate: &G,
    execution: Execution,
) -> (Team, Result<WalkReply, NoMemory>)
    requires { All (λ pass. pass.map ≡ map.now) team.passes.items }
    ensures map { All (λ pass. pass.map ≡ map.now) result.0.passes.items }
    ensures walked { MatchResult result.1 (λ reply. CountsAll (stripes_of map.now) team.passes.items result.0.passes.items reply) (λ _. AllWalked (stripes_of map.now) MayScan team.passes.items result.0.passes.items) }
{
    let Team { passes } = team;
    let workers = passes.len() as u64;
    let stripes = map.stripes();
    prove!(stripes <= 64);
    let call = move |worker: usize, pass: &mut Pass| -> u64
        requires { (pass.old.map ≡ map.now) × (worker < workers) }
        ensures { (pass.new.map ≡ map.entry.now) × CountsTurns (stripes_of map.entry.now) workers worker pass.old.view pass.new.view result }
    {
        let worker = Turns {
            map,
            number: worker as u64,
            workers,
        };
        count_turns(rt, &worker, gate, pass)
    };
    let (passes, answers) = work(rt, alloc, passes, &call, execution);
    let team = Team { passes };
    let Ok(counts) = answers else {
        return (team, Err(NoMemory));
    };
    (team, Ok(count_of(alloc, total(&counts))))
}

/// Returns the number of entries, with one scan of each stripe. Returns `NoMemory` if a request for the lists of the team's
/// workers is refused; no entry is copied. Waits until each stripe is free.
pub fn mapping_count<R: Threads + Wait + Sync, G: Gate + Sync>(
    rt: &R,
    alloc: Global,
    map: &StripedMap,
    team: Team,
    gate: &G,
) -> (Team, Result<WalkReply, NoMemory>)
    requires { All (λ pass. pass.map ≡ map.now) team.passes.items }
    ensures map { All (λ pass. pass.map ≡ map.now) result.0.passes.items }
    ensures walked { MatchResult result.1 (λ reply. CountsAll (stripes_of map.now) team.passes.items result.0.passes.items reply) (λ _. AllWalked (stripes_of map.now) MayScan team.passes.items result.0.passes.items) }
{
    counted(rt, alloc, map, team, gate, Execution::Parallel)
}

/// As `mapping_count`, but the calling thread counts for all of the team's workers, one after the other. A stripe knows its number
/// of entries, so this takes far less time than threads that have to be started.
pub fn mapping_count_in_turn<R: Threads + Wait + Sync, G: Gate + Sync>(
    rt: &R,
    alloc: Global,
    map: &StripedMap,
    team: Team,
    gate: &G,
) -> (Team, Result<WalkReply, NoMemory>)
    requires { All (λ pass. pass.map ≡ map.now) team.passes.items }
    ensures map { All (λ pass. pass.map ≡ map.now) result.0.passes.items }
    ensures walked { MatchResult result.1 (λ reply. CountsAll (stripes_of map.now) team.passes.items result.0.passes.items reply) (λ _. AllWalked (stripes_of map.now) MayScan team.passes.items result.0.passes.items) }
{
    counted(rt, alloc, map, team, gate, Execution::Sequential)
}
