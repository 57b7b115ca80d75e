//! Walks over a map of many entries by a team of workers.
ghost use Rattle.std.specs.Prelude.{◌≡◌, All, IfOk};

use crate::opening::{last_pass, numbered_value, opened, scattered_key};
use crate::programs::{Sample, verified};
use anyhow::{Result, bail};
use atomic_methods::Call;
use bin_stripes::{OpenGate, Pass, StripedMap};
use bpf_model::{NoMemory, Value};
use bulk_walks::{Team, WalkReply, for_each, mapping_count, search};
use std::alloc::Global;
use std::sync::Wait;
use std::thread::Threads;
use verifier::Verified;

/// The kind of the walks.
#[derive(Clone, Copy, Debug, PartialEq, Eq)]
pub enum Walk {
    /// Adds each entry and the argument 1.
    ForEach,
    /// Runs a program that answers nothing on each entry.
    ForEachOfNone,
    /// Finds the first of these sums, in the order of the keys.
    Search,
    /// Searches for an answer that no entry has.
    SearchOfNone,
    MappingCount,
}

impl Walk {
    /// Returns the walk of this name, or `None` if there is no such one.
    pub fn named(name: &str) -> Option<Walk> {
        match name {
            "for_each" => Some(Walk::ForEach),
            "for_each_of_none" => Some(Walk::ForEachOfNone),
            "search" => Some(Walk::Search),
            "search_of_none" => Some(Walk::SearchOfNone),
            "mapping_count" => Some(Walk::MappingCount),
            _ => None,
        }
    }

    /// Returns the program that it runs.
    fn sample(self) -> Sample {
        match self {
            Walk::ForEachOfNone | Walk::SearchOfNone => Sample::Rare,
            Walk::ForEach | Walk::Search | Walk::MappingCount => Sample::Sum,
        }
    }
}

/// A walk that is repeated.
#[derive(Drop)]
struct AskedWalk {
    walk: Walk,
    program: Verified,
    arg: Option<Value>,
}

/// Puts the value 1 at this many keys.
fn fill<R: Wait>(rt: &R, map: &StripedMap, pass: &mut Pass, entries: u64) -> Result<()>
    requires { pass.old.map ≡ map.now }
    ensures { pass.new.map ≡ map.now }
{
    let value = &numbered_value(1)?;
    for number in 0..entries {
        let key = &scattered_key(number)?;
        map.call(rt, pass, &Call::Put { key, value })?;
    }
    Ok(())
}

/// Makes a team of all passes but one, which has put this many entries.
fn filled<R: Wait>(rt: &R, map: &StripedMap, mut passes: Vec<Pass>, entries: u64) -> Result<Team>
    requires { All (λ pass. pass.map ≡ map.now) passes.items }
    ensures { IfOk result (λ team. All (λ pass. pass.map ≡ map.now) team.passes.items) }
{
    let mut pass = last_pass(map, &mut passes)?;
    fill(rt, map, &mut pass, entries)?;
    let Ok(team) = Team::new(passes) else {
        bail!("no team");
    };
    Ok(team)
}

/// Makes one walk, and returns the team.
fn walked<R: Threads + Wait + Sync>(
    rt: &R,
    alloc: Global,
    map: &StripedMap,
    team: Team,
    asked: &AskedWalk,
) -> (Team, Result<WalkReply, NoMemory>)
    requires { All (λ pass. pass.map ≡ map.now) team.passes.items }
    ensures { All (λ pass. pass.map ≡ map.now) result.0.passes.items }
{
    let AskedWalk { walk, program, arg } = asked;
    match walk {
        Walk::ForEach | Walk::ForEachOfNone => {
            for_each(rt, alloc, map, team, program, arg, 0, &OpenGate)
        }
        Walk::Search | Walk::SearchOfNone => {
            search(rt, alloc, map, team, program, arg, 0, &OpenGate)
        }
        Walk::MappingCount => mapping_count(rt, alloc, map, team, &OpenGate),
    }
}

/// Makes this many walks by one team. Returns how many entries they all scanned and gave, modulo 2^64.
fn walked_often<R: Threads + Wait + Sync>(
    rt: &R,
    alloc: Global,
    map: &StripedMap,
    mut team: Team,
    asked: &AskedWalk,
    count: u64,
) -> Result<(u64, u64)>
    requires { All (λ pass. pass.map ≡ map.now) team.passes.items }
{
    let mut sums = (0u64, 0u64);
    for turn in 0..count {
        // Only for the proof, whose loop invariant is named after this variable.
        let _ = turn;
        let (again, reply) = walked(rt, alloc, map, team, asked);
        let counts = reply?.counts;
        sums = (
            sums.0.wrapping_add(counts.scanned),
            sums.1.wrapping_add(counts.given),
        );
        team = again;
    }
    Ok(sums)
}

/// Makes `count` walks over this many entries. Returns how many entries they all scanned and gave, modulo 2^64.
pub fn walk_often<R: Threads + Wait + Sync>(
    rt: &R,
    alloc: Global,
    walk: Walk,
    workers: u64,
    entries: u64,
    count: u64,
) -> Result<(u64, u64)> {
    if workers == 0 || workers > 63 {
        bail!("from 1 to 63 workers");
    }
    let asked = AskedWalk {
        walk,
        program: verified(alloc, walk.sample())?,
        arg: Some(numbered_value(1)?),
    };
    let (map, passes) = opened(alloc, workers + 1)?;
    let team = filled(rt, &map, passes, entries)?;
    walked_often(rt, alloc, &map, team, &asked, count)
}
