//! The replacement of all values.
ghost use Rattle.std.specs.Prelude.{◌≡◌, ◌<◌, ◌^◌, All, MatchResult, sum_by};
ghost use Rattle.bin_stripes.specs.Passes.{stripes_of};
ghost use Rattle.bulk_walks.specs.Walks.{ReplacesAll};
ghost use Rattle.atomic_methods.specs.Whole.{IsSum};
ghost use Rattle.bulk_walks.specs.Turns.{ReplacesTurns, HasRoom, AreSums};

use crate::team::Team;
use crate::turns::Turns;
use atomic_methods::WalkReply;
use bin_stripes::{Gate, Pass, StripedMap};
use bins::{Counts, MergedEntries};
use bpf_model::{NoMemory, Value};
use std::alloc::Global;
use std::sync::Wait;
use std::thread::Threads;
use verifier::Verified;
use workers::{Execution, work};

/// Adds these counts.
pub(crate) fn add(total: &mut Counts, more: Counts)
    requires { HasRoom total.old more }
    ensures { IsSum total.new total.old more }
{
    total.scanned += more.scanned;
    total.given += more.given;
    total.unfit += more.unfit;
}

/// Nothing was counted.
pub(crate) const ZERO: Counts = Counts {
    scanned: 0,
    given: 0,
    unfit: 0,
};

/// Replaces the values of the worker's stripes, one after the other.
fn replace_turns<R: Wait, G: Gate>(
    rt: &R,
    worker: &Turns<'_>,
    program: &Verified,
    arg: &Option<Value>,
    gate: &G,
    pass: &mut Pass,
) -> Counts
    requires map { pass.old.map ≡ worker.now.map.now }
    requires worker { worker.now.number < worker.now.workers }
    ensures map { pass.new.map ≡ pass.old.map }
    ensures done { ReplacesTurns (stripes_of worker.now.map.now) program.now arg.now (stripes_of worker.now.map.now) worker.now.workers worker.now.number pass.old.view pass.new.view result }
{
    worker.start(gate);
    let stripes = worker.map.stripes();
    let mut total = ZERO;
    for stripe in 0..stripes {
        if stripe % worker.workers == worker.number {
            let number = worker.number as u32;
            let counts = worker
                .map
                .replace_stripe(rt, pass, stripe, program, arg, gate, number);
            add(&mut total, counts);
        }
    }
    total
}

/// Adds up the counts of the workers.
fn sum_of(answers: &[Counts]) -> Counts
    requires scanned { sum_by (λ c. c.scanned) answers.now < 2 ^ 64 }
    requires given { sum_by (λ c. c.given) answers.now < 2 ^ 64 }
    requires unfit { sum_by (λ c. c.unfit) answers.now < 2 ^ 64 }
    ensures { AreSums answers.now result }
{
    let mut total = ZERO;
    for counts in answers {
        add(&mut total, *counts);
    }
    total
}

/// Replaces the value of each key once, stripe by stripe, by the program's answer on the key, its value and the argument. If
/// the answer is nothing, or the entry does not fit, the entry stays. The reply has no items: its count `given` is the number
/// of values that were entered. Returns `NoMemory` if a request for memory is refused; then nothing was replaced. Waits until
/// each stripe is free.
pub fn replace_all<R: Threads + Wait + Sync, G: Gate + Sync>(
    rt: &R,
    alloc: Global,
    map: &StripedMap,
    team: Team,
    program: &Verified,
    arg: &Option<Value>,
    gate: &G,
) -> (Team, Result<WalkReply, NoMemory>)
    requires { All (λ pass. pass.map ≡ map.now) team.passes.items }
    ensures map { All (λ pass. pass.map ≡ map.now) result.0.passes.items }
    ensures walked { MatchResult result.1 (λ reply. ReplacesAll (stripes_of map.now) program.now arg.now team.passes.items result.0.passes.items reply) (λ _. result.0.passes.items ≡ team.passes.items) }
{
    let Team { passes } = team;
    let workers = passes.len() as u64;
    let stripes = map.stripes();
    prove!(stripes <= 64);
    let call = move |worker: usize, pass: &mut Pass| -> Counts
        requires { (pass.old.map ≡ map.now) × (worker < workers) }
        ensures { (pass.new.map ≡ map.entry.now) × ReplacesTurns (stripes_of map.entry.now) program.entry.now arg.entry.now (stripes_of map.entry.now) workers worker pass.old.view pass.new.view result }
    {
        let worker = Turns {
            map,
            number: worker as u64,
            workers,
        };
        replace_turns(rt, &worker, program, arg, gate, pass)
    };
    let (passes, answers) = work(rt, alloc, passes, &call, Execution::Parallel);
    let team = Team { passes };
    let Ok(answers) = answers else {
        return (team, Err(NoMemory));
    };
    let counts = sum_of(&answers);
    let items = MergedEntries::new(alloc);
    (team, Ok(WalkReply { items, counts }))
}
