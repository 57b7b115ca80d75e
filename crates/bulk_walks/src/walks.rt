//! Walks that run a program.
ghost use Rattle.std.specs.Prelude.{◌≡◌, All};
ghost use Rattle.bin_stripes.specs.Passes.{stripes_of};
ghost use Rattle.atomic_methods.specs.declared.walk_reply.WalkKind.TheVariants.{Search, ForEach};
ghost use Rattle.bulk_walks.specs.Walks.{Walks};

use crate::answering::{answer_all, execution_after};
use crate::finding::find;
use crate::merging::merged;
use crate::team::Team;
use crate::walk::Walk;
use atomic_methods::{WalkKind, WalkReply};
use bin_stripes::{Gate, StripedMap};
use bpf_model::{NoMemory, Value};
use std::alloc::Global;
use std::sync::Wait;
use std::thread::Threads;
use verifier::Verified;

/// Scans each stripe once, runs the program on each entry, and returns the answers of this kind of walk. Returns `NoMemory` if
/// a request for memory is refused. Waits until each stripe is free.
pub fn walk_map<R: Threads + Wait + Sync, G: Gate + Sync>(
    rt: &R,
    alloc: Global,
    map: &StripedMap,
    team: Team,
    walk: &Walk<'_>,
    gate: &G,
) -> (Team, Result<WalkReply, NoMemory>)
    requires { All (λ pass. pass.map ≡ map.now) team.passes.items }
    ensures map { All (λ pass. pass.map ≡ map.now) result.0.passes.items }
    ensures walked { Walks walk.now.kind (stripes_of map.now) walk.now.program.now walk.now.arg.now team.passes.items result.0.passes.items result.1 }
{
    let Team { passes } = team;
    let stripes = map.stripes();
    prove!(stripes <= 64);
    let (passes, found) = find(rt, alloc, map, passes, walk, gate);
    let team = Team { passes };
    let Ok(parts) = found else {
        return (team, Err(NoMemory));
    };
    let execution = execution_after(walk, &parts);
    let Ok(answers) = answer_all(rt, alloc, walk, parts, execution) else {
        return (team, Err(NoMemory));
    };
    (team, merged(rt, alloc, walk.kind, answers, execution))
}

/// The walk of kind `Search`: the least key with a present answer, and that answer; or no item.
pub fn search<R: Threads + Wait + Sync, G: Gate + Sync>(
    rt: &R,
    alloc: Global,
    map: &StripedMap,
    team: Team,
    program: &Verified,
    arg: &Option<Value>,
    threshold: u64,
    gate: &G,
) -> (Team, Result<WalkReply, NoMemory>)
    requires { All (λ pass. pass.map ≡ map.now) team.passes.items }
    ensures map { All (λ pass. pass.map ≡ map.now) result.0.passes.items }
    ensures walked { Walks Search (stripes_of map.now) program.now arg.now team.passes.items result.0.passes.items result.1 }
{
    let kind = WalkKind::Search;
    let walk = Walk {
        kind,
        program,
        arg,
        threshold,
    };
    walk_map(rt, alloc, map, team, &walk, gate)
}

/// The walk of kind `ForEach`: all present answers with their keys, in key order.
pub fn for_each<R: Threads + Wait + Sync, G: Gate + Sync>(
    rt: &R,
    alloc: Global,
    map: &StripedMap,
    team: Team,
    program: &Verified,
    arg: &Option<Value>,
    threshold: u64,
    gate: &G,
) -> (Team, Result<WalkReply, NoMemory>)
    requires { All (λ pass. pass.map ≡ map.now) team.passes.items }
    ensures map { All (λ pass. pass.map ≡ map.now) result.0.passes.items }
    ensures walked { Walks ForEach (stripes_of map.now) program.now arg.now team.passes.items result.0.passes.items result.1 }
{
    let kind = WalkKind::ForEach;
    let walk = Walk {
        kind,
        program,
        arg,
        threshold,
    };
    walk_map(rt, alloc, map, team, &walk, gate)
}
