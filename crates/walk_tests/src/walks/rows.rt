//! Three entries, walked over by teams of several sizes.
ghost use Rattle.std.specs.Prelude.{◌≡◌, All};

use super::*;
use std::process::Abort;

const TEAMS: [(u64, u64); 6] = [(1, 1), (1, 2), (1, 8), (4, 1), (4, 2), (4, 8)];

/// Each walk over the three entries, and its reply.
const ROWS: [(&str, Task, Wanted); 8] = [
    ("for_each at 0", Task::List(0), LISTED),
    ("for_each at 3", Task::List(3), LISTED),
    ("for_each at 4", Task::List(4), LISTED),
    ("search at 0", Task::Search(0), FOUND),
    ("search at 3", Task::Search(3), FOUND),
    ("search at 4", Task::Search(4), FOUND),
    ("mapping_count", Task::Count, COUNTED),
    ("replace_all", Task::Replace, REPLACED),
];

/// Makes the walk over the three entries, by a team of all passes but one. Tells whether it gave this reply.
fn is_made<R: AllocGlobal + Threads + Wait + Sync>(
    rt: &R,
    map: &StripedMap,
    passes: Vec<Pass>,
    program: &Verified,
    task: Task,
    wanted: Wanted,
) -> Result<bool, Fail>
    requires { All (λ pass. pass.map ≡ map.now) passes.items }
{
    let (_, team) = filled(rt, map, passes).ok_or("no entries")?;
    let (_, reply) = walk(rt, map, team, program, task, &OpenGate);
    Ok(replied(&reply, wanted))
}

/// Plays each row by a new team of this size, over a new map of this many stripes.
fn play<R: AllocGlobal + Threads + Wait + Abort + Sync>(
    rt: &R,
    program: &Verified,
    (stripes, workers): (u64, u64),
) -> Result<(), Fail> {
    for (name, task, wanted) in ROWS {
        let made = on_map(
            rt.alloc(),
            stripes,
            workers.saturating_add(1),
            |map: &StripedMap, passes: Vec<Pass>| -> Result<bool, Fail>
                requires { All (λ pass. pass.map ≡ map.now) passes.items }
            { is_made(rt, map, passes, program, task, wanted) },
        )?;
        assert!(rt; made, "{name}: {stripes} stripes, {workers} workers");
    }
    Ok(())
}

#[test]
fn each_walk_is_as_wanted_by_each_team(rt: HostRuntime) -> Result<(), Fail> {
    let program = summing(rt.alloc())?;
    for sizes in TEAMS {
        play(&rt, &program, sizes)?;
    }
    Ok(())
}
