//! The entries of all stripes, and the program's runs on them as soon as it may run in the workers.
ghost use Rattle.std.specs.Prelude.{◌≡◌, ◌<◌, All, IfOk, MatchResult, Ok, length, map, vec_len};
ghost use Rattle.bin_stripes.specs.Passes.{stripes_of};
ghost use Rattle.bulk_walks.specs.Walks.{Walked, AllWalked, MayScan};
ghost use Rattle.bulk_walks.specs.Runs.{WorkerRuns, TeamRuns};

use crate::finds::Finds;
use crate::part::Part;
use crate::turns::Turns;
use crate::walk::Walk;
use bin_stripes::{Gate, Pass, StripedMap};
use bpf_model::NoMemory;
use std::alloc::Global;
use std::sync::Wait;
use std::thread::Threads;
use workers::{Execution, work};

/// Scans the worker's stripes, one after the other, and runs the program on their entries as soon as it may.
fn run_turns<R: Wait, G: Gate>(
    rt: &R,
    alloc: Global,
    worker: &Turns<'_>,
    walk: &Walk<'_>,
    gate: &G,
    pass: &mut Pass,
) -> Result<Part, NoMemory>
    requires map { pass.old.map ≡ worker.now.map.now }
    requires worker { worker.now.number < worker.now.workers }
    ensures map { pass.new.map ≡ pass.old.map }
    ensures done { IfOk result (λ part. WorkerRuns walk.now.kind walk.now.program.now walk.now.arg.now (stripes_of worker.now.map.now) worker.now.workers worker.now.number pass.old.view pass.new.view part) }
    ensures part { Walked (stripes_of worker.now.map.now) worker.now.workers worker.now.number MayScan pass.old.view pass.new.view }
{
    worker.start(gate);
    let stripes = worker.map.stripes();
    let mut finds = Finds::new(alloc, walk);
    for stripe in 0..stripes {
        if stripe % worker.workers == worker.number {
            worker.map.visit_stripe(rt, pass, stripe, &mut finds);
            finds.outcome?;
            finds.run_if_enough()?;
        }
    }
    Ok(finds.into_part())
}

/// Collects the parts of the workers. Returns `NoMemory` if one has none.
fn parts_of(alloc: Global, answers: Vec<Result<Part, NoMemory>>) -> Result<Vec<Part>, NoMemory>
    ensures { IfOk result (λ parts. map Ok parts.items ≡ answers.items) }
{
    let mut parts = Vec::with_capacity(alloc, answers.len())?;
    for answer in answers {
        let part = answer?;
        parts.push(part)?;
    }
    Ok(parts)
}

/// Finds the entries of all stripes. The worker whose turn it is scans each stripe once, and runs the program on its entries if it
/// found at least `threshold` so far. Returns for each worker its part.
pub(crate) fn find<R: Threads + Wait + Sync, G: Gate + Sync>(
    rt: &R,
    alloc: Global,
    map: &StripedMap,
    passes: Vec<Pass>,
    walk: &Walk<'_>,
    gate: &G,
) -> (Vec<Pass>, Result<Vec<Part>, NoMemory>)
    requires map { All (λ pass. pass.map ≡ map.now) passes.items }
    requires some { 0 < vec_len passes }
    ensures map { All (λ pass. pass.map ≡ map.now) result.0.items }
    ensures order { length result.0.items ≡ length passes.items }
    ensures found { MatchResult result.1 (λ parts. TeamRuns walk.now.kind walk.now.program.now walk.now.arg.now (stripes_of map.now) passes.items result.0.items parts.items) (λ _. AllWalked (stripes_of map.now) MayScan passes.items result.0.items) }
{
    let workers = passes.len() as u64;
    let call = move |worker: usize, pass: &mut Pass| -> Result<Part, NoMemory>
        requires { (pass.old.map ≡ map.now) × (worker < workers) }
        ensures { (pass.new.map ≡ map.entry.now) × IfOk result (λ part. WorkerRuns walk.entry.now.kind walk.entry.now.program.now walk.entry.now.arg.now (stripes_of map.entry.now) workers worker pass.old.view pass.new.view part) × Walked (stripes_of map.entry.now) workers worker MayScan pass.old.view pass.new.view }
    {
        let worker = Turns {
            map,
            number: worker as u64,
            workers,
        };
        run_turns(rt, alloc, &worker, walk, gate, pass)
    };
    let (passes, answers) = work(rt, alloc, passes, &call, Execution::Parallel);
    let Ok(answers) = answers else {
        return (passes, Err(NoMemory));
    };
    let Ok(parts) = parts_of(alloc, answers) else {
        return (passes, Err(NoMemory));
    };
    (passes, Ok(parts))
}
