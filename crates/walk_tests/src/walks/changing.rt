//! Walks while eight threads put and remove.
//!
//! Thread j has two keys of one stripe, the bytes j and j + 8. At its turn t it puts t at the lower, then at the upper, and
//! removes the lower, then the upper. So one scan of its stripe finds neither, only the lower, both of one turn, or only the
//! upper; and a later scan finds no earlier state. The program adds 1 to each value.
ghost use Rattle.std.specs.Prelude.{◌≡◌, All, IfOk};

use super::*;

const THREADS: u8 = 8;

/// Each thread puts and removes its keys this often.
const TURNS: u64 = 300;

/// This many walks of each kind are made meanwhile.
const WALKS: u64 = 40;

/// Makes the key of one byte.
fn key_of(byte: u8) -> Key {
    Key::from_slice(&[byte]).unwrap()
}

/// Puts the turn at the key.
fn put_turn<R: Wait>(
    rt: &R,
    map: &StripedMap,
    pass: &mut Pass,
    key: u8,
    turn: u64,
) -> Result<(), NoMemory>
    requires { pass.old.map ≡ map.now }
    ensures { pass.new.map ≡ map.now }
{
    let key = &key_of(key);
    let value = &Value::from_slice(&turn.to_le_bytes()).unwrap();
    map.call(rt, pass, &Call::Put { key, value })?;
    Ok(())
}

/// Removes the key.
fn remove<R: Wait>(rt: &R, map: &StripedMap, pass: &mut Pass, key: u8) -> Result<(), NoMemory>
    requires { pass.old.map ≡ map.now }
    ensures { pass.new.map ≡ map.now }
{
    let key = &key_of(key);
    map.call(rt, pass, &Call::Remove { key })?;
    Ok(())
}

/// Takes one turn of the thread with this lower key.
fn take_turn<R: Wait>(
    rt: &R,
    map: &StripedMap,
    pass: &mut Pass,
    low: u8,
    turn: u64,
) -> Result<(), NoMemory>
    requires { pass.old.map ≡ map.now }
    ensures { pass.new.map ≡ map.now }
{
    let high = low.wrapping_add(THREADS);
    put_turn(rt, map, pass, low, turn)?;
    put_turn(rt, map, pass, high, turn)?;
    remove(rt, map, pass, low)?;
    remove(rt, map, pass, high)
}

/// Takes all turns of the thread with this lower key.
fn take_turns<R: Wait>(rt: &R, map: &StripedMap, pass: &mut Pass, low: u8) -> Result<(), NoMemory>
    requires { pass.old.map ≡ map.now }
    ensures { pass.new.map ≡ map.now }
{
    for turn in 1..=TURNS {
        take_turn(rt, map, pass, low, turn)?;
    }
    Ok(())
}

/// Takes the turns of all threads. Returns how many took all of theirs.
fn change<R: Threads + Wait + Sync>(rt: &R, map: &StripedMap, mut passes: Vec<Pass>) -> u64
    requires { All (λ pass. pass.map ≡ map.now) passes.items }
{
    let done = AtomicU64::new(0);
    let finished = &done;
    let call = move |worker: usize, pass: &mut Pass|
        requires { pass.old.map ≡ map.now }
        ensures { pass.new.map ≡ map.entry.now }
    {
        if take_turns(rt, map, pass, (worker % 8) as u8).is_ok() {
            finished.fetch_add(1, Ordering::SeqCst);
        }
    };
    thread::for_each_mut(rt, &mut passes, usize::from(THREADS), &call);
    done.load(Ordering::SeqCst)
}

/// Returns the number at the key among the items.
fn number_at(reply: &WalkReply, key: u8) -> Option<u64> {
    for position in 0..reply.items.len() {
        let (found, value) = reply.items.get(position);
        if matches!(found, [byte] if *byte == key) {
            return number_of(value);
        }
    }
    None
}

/// Returns which state of its thread's stripe was found, counted from the first; 0 if neither key was there. `None` if the
/// thread leaves no such state.
fn state_of(reply: &WalkReply, low: u8) -> Option<u64> {
    let high = low.wrapping_add(THREADS);
    match (number_at(reply, low), number_at(reply, high)) {
        (None, None) => Some(0),
        (Some(one), None) => Some(one.wrapping_mul(4)),
        (Some(one), Some(other)) if one == other => Some(one.wrapping_mul(4).wrapping_add(1)),
        (Some(_), Some(_)) => None,
        (None, Some(other)) => Some(other.wrapping_mul(4).wrapping_add(2)),
    }
}

/// Tells whether a state of each stripe was found, none earlier than the one found last.
fn are_states(reply: &WalkReply, last: &mut [u64; 8]) -> bool {
    for low in 0..THREADS {
        let place = &mut last[usize::from(low)];
        match state_of(reply, low) {
            Some(0) => {}
            Some(state) if state >= *place => *place = state,
            _ => return false,
        }
    }
    true
}

/// Tells whether the keys of the items rise.
fn keys_rise(items: &MergedEntries) -> bool {
    for i in 1..items.len() {
        let (before, _) = items.get(i - 1);
        let (key, _) = items.get(i);
        if before >= key {
            return false;
        }
    }
    true
}

/// Tells whether there may be this many entries: those of the threads, and the one that does not fit.
fn may_be(entries: u64) -> bool {
    entries >= 1 && entries <= 17
}

/// Tells whether the reply gives all entries but one, in key order, from states that occurred.
fn is_all(reply: &Result<WalkReply, NoMemory>, last: &mut [u64; 8]) -> bool {
    let Ok(reply) = reply else { return false };
    let given = reply.items.len() as u64;
    let counts = &reply.counts;
    (counts.scanned, counts.given, counts.unfit) == (given.saturating_add(1), given, 1)
        && keys_rise(&reply.items)
        && are_states(reply, last)
}

/// Tells whether the reply gives one entry if more were scanned than the one that does not fit.
fn is_first(reply: &Result<WalkReply, NoMemory>) -> bool {
    let Ok(reply) = reply else { return false };
    let given = reply.items.len() as u64;
    let counts = &reply.counts;
    (given, counts.unfit) == (counts.given, 1)
        && given == counts.scanned.saturating_sub(1).min(1)
        && may_be(counts.scanned)
}

/// Tells whether the reply counts entries.
fn is_count(reply: &Result<WalkReply, NoMemory>) -> bool {
    let Ok(reply) = reply else { return false };
    let scanned = reply.counts.scanned;
    is_reply(reply, &[], (scanned, 0, 0)) && may_be(scanned)
}

/// Tells whether the values of all entries but one were replaced.
fn is_replacement(reply: &Result<WalkReply, NoMemory>) -> bool {
    let Ok(reply) = reply else { return false };
    let scanned = reply.counts.scanned;
    is_reply(reply, &[], (scanned, scanned.saturating_sub(1), 1)) && may_be(scanned)
}

/// Makes one walk of each kind. Tells whether each reply is right. The one that replaces adds 0 to each value.
fn walk_once<R: AllocGlobal + Threads + Wait + Sync>(
    rt: &R,
    map: &StripedMap,
    team: Team,
    program: &Verified,
    last: &mut [u64; 8],
) -> (Team, bool)
    requires { All (λ pass. pass.map ≡ map.now) team.passes.items }
    ensures { All (λ pass. pass.map ≡ map.now) result.0.passes.items }
{
    let (team, all) = walk(rt, map, team, program, Task::List(0), &OpenGate);
    let (team, first) = walk(rt, map, team, program, Task::Search(0), &OpenGate);
    let (team, count) = walk(rt, map, team, program, Task::Count, &OpenGate);
    let (team, replaced) = walk(rt, map, team, program, Task::Rewrite, &OpenGate);
    let right = is_all(&all, last) && is_first(&first) && is_count(&count);
    (team, right && is_replacement(&replaced))
}

/// Makes walks of each kind. Returns in how many turns all replies were right.
fn walk_on<R: AllocGlobal + Threads + Wait + Sync>(
    rt: &R,
    map: &StripedMap,
    mut team: Team,
    program: &Verified,
) -> u64
    requires { All (λ pass. pass.map ≡ map.now) team.passes.items }
{
    let mut last = [0; 8];
    let mut right = 0u64;
    for _ in 0..WALKS {
        let (again, all_right) = walk_once(rt, map, team, program, &mut last);
        team = again;
        right = right.wrapping_add(u64::from(all_right));
    }
    right
}

/// Runs both at once. Returns how many threads took all their turns, and in how many turns of the walks all replies
/// were right.
fn walk_beside<R: AllocGlobal + Threads + Wait + Sync>(
    rt: &R,
    map: &StripedMap,
    passes: Vec<Pass>,
    team: Team,
    program: &Verified,
) -> (u64, u64)
    requires passes { All (λ pass. pass.map ≡ map.now) passes.items }
    requires team { All (λ pass. pass.map ≡ map.now) team.passes.items }
{
    thread::join(
        rt,
        move || -> u64
            requires { All (λ pass. pass.map ≡ map.now) passes.items }
        { change(rt, map, passes) },
        move || -> u64
            requires { All (λ pass. pass.map ≡ map.now) team.passes.items }
        { walk_on(rt, map, team, program) },
    )
}

/// Makes a team of the last two of a team's passes, and returns the others.
fn parted(alloc: Global, map: &StripedMap, team: Team) -> Result<(Vec<Pass>, Team), Fail>
    requires { All (λ pass. pass.map ≡ map.now) team.passes.items }
    ensures passes { IfOk result (λ r. All (λ pass. pass.map ≡ map.now) r.0.items) }
    ensures team { IfOk result (λ r. All (λ pass. pass.map ≡ map.now) r.1.passes.items) }
{
    // Only for the clauses, which name the map.
    let _ = map;
    let mut passes = team.into_passes();
    let mut pair = Vec::new(alloc);
    pair.push(passes.pop().ok_or("no pass")?)?;
    pair.push(passes.pop().ok_or("no pass")?)?;
    let team = Team::new(pair).ok().ok_or("no team")?;
    Ok((passes, team))
}

/// Walks beside the threads. Tells whether all walks and threads were right.
fn are_found<R: AllocGlobal + Threads + Wait + Sync>(
    rt: &R,
    map: &StripedMap,
    passes: Vec<Pass>,
) -> Result<bool, Fail>
    requires { All (λ pass. pass.map ≡ map.now) passes.items }
{
    let program = summing(rt.alloc())?;
    let (mut pass, team) = dealt(map, passes).ok_or("no team")?;
    put(rt, map, &mut pass, &[16], &NINE).ok_or("not put")?;
    let (passes, team) = parted(rt.alloc(), map, team)?;
    Ok(walk_beside(rt, map, passes, team, &program) == (8, WALKS))
}

#[test]
fn walks_find_what_was_there(rt: HostRuntime) -> Result<(), Fail> {
    let right = on_map(
        rt.alloc(),
        8,
        11,
        |map: &StripedMap, passes: Vec<Pass>| -> Result<bool, Fail>
            requires { All (λ pass. pass.map ≡ map.now) passes.items }
        { are_found(&rt, map, passes) },
    )?;
    assert!(rt; right);
    Ok(())
}
