//! Walks in which one request for memory is refused: the entries are unchanged, and the walk succeeds the next time. If
//! no request is refused, these are ordinary walks.
ghost use Rattle.std.specs.Prelude.{◌≡◌, All};

use super::*;

/// Tells whether the key has this value.
fn has<R: Wait>(rt: &R, map: &StripedMap, pass: &mut Pass, name: u8, wanted: &[u8]) -> bool
    requires { pass.old.map ≡ map.now }
    ensures { pass.new.map ≡ map.now }
{
    let key = &Key::from_slice(&[name]).unwrap();
    match map.call(rt, pass, &Call::Get { key }) {
        Ok(Reply::Value(Some(value))) => value.as_slice() == wanted,
        _ => false,
    }
}

/// Tells whether `a` and `b` have these values, and `c` its first one.
fn have<R: Wait>(rt: &R, map: &StripedMap, pass: &mut Pass, a: &[u8], b: &[u8]) -> bool
    requires { pass.old.map ≡ map.now }
    ensures { pass.new.map ≡ map.now }
{
    let first = has(rt, map, pass, b'a', a);
    let second = has(rt, map, pass, b'b', b);
    let third = has(rt, map, pass, b'c', &NINE);
    first && second && third
}

/// Makes the walk twice. Tells whether it gave this reply both times, except for one refusal.
fn is_made_again<R: AllocGlobal + Threads + Wait + Sync>(
    rt: &R,
    map: &StripedMap,
    team: Team,
    program: &Verified,
    task: Task,
    wanted: Wanted,
) -> (Team, bool)
    requires { All (λ pass. pass.map ≡ map.now) team.passes.items }
    ensures { All (λ pass. pass.map ≡ map.now) result.0.passes.items }
{
    let (team, first) = walk(rt, map, team, program, task, &OpenGate);
    let (team, second) = walk(rt, map, team, program, task, &OpenGate);
    let one = replied(&first, wanted);
    let other = replied(&second, wanted);
    let right = (one || first.is_err()) && (other || second.is_err()) && (one || other);
    (team, right)
}

/// Makes each walk that changes nothing twice. Tells whether the list, the search and the count were right.
fn are_made_again<R: AllocGlobal + Threads + Wait + Sync>(
    rt: &R,
    map: &StripedMap,
    team: Team,
    program: &Verified,
) -> (Team, [bool; 3])
    requires { All (λ pass. pass.map ≡ map.now) team.passes.items }
    ensures { All (λ pass. pass.map ≡ map.now) result.0.passes.items }
{
    let (team, list) = is_made_again(rt, map, team, program, Task::List(0), LISTED);
    let (team, search) = is_made_again(rt, map, team, program, Task::Search(0), FOUND);
    let (team, count) = is_made_again(rt, map, team, program, Task::Count, COUNTED);
    (team, [list, search, count])
}

/// Replaces the values, and again if that was refused. Tells whether a refusal left the entries, and the reply was the
/// expected one.
fn are_replaced_again<R: AllocGlobal + Threads + Wait + Sync>(
    rt: &R,
    map: &StripedMap,
    pass: &mut Pass,
    team: Team,
    program: &Verified,
) -> bool
    requires pass { pass.old.map ≡ map.now }
    requires team { All (λ pass. pass.map ≡ map.now) team.passes.items }
    ensures { pass.new.map ≡ map.now }
{
    let (team, reply) = walk(rt, map, team, program, Task::Replace, &OpenGate);
    if reply.is_ok() {
        return replied(&reply, REPLACED);
    }
    let left = have(rt, map, pass, &ONE, &TWO);
    let (_, reply) = walk(rt, map, team, program, Task::Replace, &OpenGate);
    left && replied(&reply, REPLACED)
}

/// Makes each walk, and again if memory was refused. Tells whether the list, the search and the count were right and left the
/// entries, and the replacement was right and changed them.
fn tried_again<R: AllocGlobal + Threads + Wait + Sync>(
    rt: &R,
    map: &StripedMap,
    pass: &mut Pass,
    team: Team,
    program: &Verified,
) -> ([bool; 3], [bool; 3])
    requires pass { pass.old.map ≡ map.now }
    requires team { All (λ pass. pass.map ≡ map.now) team.passes.items }
{
    let (team, right) = are_made_again(rt, map, team, program);
    let unchanged = have(rt, map, pass, &ONE, &TWO);
    let replacement = are_replaced_again(rt, map, pass, team, program);
    let replaced = have(rt, map, pass, &TWO, &THREE);
    (right, [unchanged, replacement, replaced])
}

/// Makes the program, and again if memory was refused.
fn program_again(alloc: Global) -> Result<Verified, NoMemory> {
    match summed(alloc) {
        Some(program) => Ok(program),
        None => summing(alloc),
    }
}

/// Makes walks, and again those for which memory was refused. Tells whether all was right.
fn succeed_again<R: AllocGlobal + Threads + Wait + Sync>(
    rt: &R,
    map: &StripedMap,
    passes: Vec<Pass>,
) -> Result<bool, Fail>
    requires { All (λ pass. pass.map ≡ map.now) passes.items }
{
    let program = program_again(rt.alloc())?;
    let (mut pass, team) = dealt(map, passes).ok_or("no team")?;
    if put_all(rt, map, &mut pass).is_none() {
        put_all(rt, map, &mut pass).ok_or("not put")?;
    }
    Ok(tried_again(rt, map, &mut pass, team, &program) == ([true; 3], [true; 3]))
}

#[test]
fn a_refused_walk_changes_nothing(rt: HostRuntime) -> Result<(), Fail> {
    let right = on_map(
        rt.alloc(),
        4,
        3,
        |map: &StripedMap, passes: Vec<Pass>| -> Result<bool, Fail>
            requires { All (λ pass. pass.map ≡ map.now) passes.items }
        { succeed_again(&rt, map, passes) },
    )?;
    assert!(rt; right);
    Ok(())
}
