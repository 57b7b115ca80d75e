//! Two workers are at one place at once, each with its own number: alone, and beside a thread that makes calls.
ghost use Rattle.std.specs.Prelude.{◌≡◌, All};

use super::*;
use std::process::Abort;

/// A thread waits for others at most this many turns.
const TURNS: u64 = 10_000_000;

/// At most this many calls are made beside walks.
const CALLS: u64 = 10_000_000;

/// The bits of the workers 0 and 1.
const BOTH: u64 = 3;

/// Holds each worker at a place until the workers 0 and 1 are there.
#[derive(Drop)]
struct Meeting {
    place: Place,
    // A bit for each worker that has arrived, by its number: bit 2 for every number above 1.
    come: AtomicU64,
    passed: AtomicU64,
    gone_alone: AtomicU64,
}

impl Meeting {
    /// Makes a meeting at this place.
    fn at(place: Place) -> Meeting {
        Meeting {
            place,
            come: AtomicU64::new(0),
            passed: AtomicU64::new(0),
            gone_alone: AtomicU64::new(0),
        }
    }

    /// Tells whether exactly the workers 0 and 1 came, equally often, and met.
    fn was_of_both(&self) -> bool {
        self.come.load(Ordering::SeqCst) == BOTH
            && self.passed.load(Ordering::SeqCst) == 2
            && self.gone_alone.load(Ordering::SeqCst) == 0
    }

    /// Tells the same, and whether their walk gave this reply.
    fn gave(&self, reply: &Result<WalkReply, NoMemory>, wanted: Wanted) -> bool {
        self.was_of_both() && replied(reply, wanted)
    }
}

impl Gate for Meeting {
    fn pass(&self, place: Place, worker: u32) {
        if place != self.place {
            return;
        }
        self.passed.fetch_add(1, Ordering::SeqCst);
        self.come.fetch_or(1 << worker.min(2), Ordering::SeqCst);
        for _ in 0..TURNS {
            if self.come.load(Ordering::SeqCst) & BOTH == BOTH {
                return;
            }
            thread::yield_now();
        }
        self.gone_alone.fetch_add(1, Ordering::SeqCst);
    }
}

/// A caller's work: it merges 1 on the key `d`, at most this often, until it is told to stop.
#[derive(Drop)]
struct Calls {
    program: Verified,
    most: u64,
    made: AtomicU64,
    stop: AtomicU64,
    late: AtomicU64,
}

impl Calls {
    /// Starts with no calls made.
    fn new(program: Verified, most: u64) -> Calls {
        Calls {
            program,
            most,
            made: AtomicU64::new(0),
            stop: AtomicU64::new(0),
            late: AtomicU64::new(0),
        }
    }

    /// Waits until the first call was made, if one is to be made.
    fn wait(&self) {
        for _ in 0..TURNS {
            if self.made.load(Ordering::SeqCst) >= self.most.min(1) {
                return;
            }
            thread::yield_now();
        }
        self.late.store(1, Ordering::SeqCst);
    }
}

/// The walk whose workers did not meet, or whose reply was wrong.
#[derive(Clone, Copy, Debug)]
enum Wrong {
    Search,
    Count,
    Replacement,
}

/// Merges 1 on the key `d`, and returns the sum.
fn merge<R: Wait>(rt: &R, map: &StripedMap, pass: &mut Pass, program: &Verified) -> Option<u64>
    requires { pass.old.map ≡ map.now }
    ensures { pass.new.map ≡ map.now }
{
    let key = &Key::from_slice(b"d").ok()?;
    let value = &Value::from_slice(&ONE).ok()?;
    let call = Call::Merge {
        key,
        value,
        program,
    };
    match map.call(rt, pass, &call) {
        Ok(Reply::Value(Some(sum))) => number_of(sum.as_slice()),
        _ => None,
    }
}

/// Makes the calls. Tells whether each replied a greater number than the one before it. Returns the pass.
fn make_calls<R: Wait>(rt: &R, map: &StripedMap, mut pass: Pass, calls: &Calls) -> (Pass, bool)
    requires { pass.map ≡ map.now }
    ensures { result.0.map ≡ map.now }
{
    let mut last = 1;
    let mut rose = true;
    for _ in 0..calls.most {
        if calls.stop.load(Ordering::SeqCst) > 0 {
            return (pass, rose);
        }
        let sum = merge(rt, map, &mut pass, &calls.program).unwrap_or(0);
        rose &= sum > last;
        last = sum;
        calls.made.fetch_add(1, Ordering::SeqCst);
    }
    (pass, rose)
}

/// Tells whether the workers met at the place, and replaced the values of all entries but one.
fn replace_at<R: AllocGlobal + Threads + Wait + Sync>(
    rt: &R,
    map: &StripedMap,
    team: Team,
    program: &Verified,
    place: Place,
) -> Result<(), Wrong>
    requires { All (λ pass. pass.map ≡ map.now) team.passes.items }
{
    let gate = Meeting::at(place);
    let (_, reply) = walk(rt, map, team, program, Task::Replace, &gate);
    if gate.gave(&reply, Wanted(&[], (4, 3, 1))) {
        Ok(())
    } else {
        Err(Wrong::Replacement)
    }
}

/// Makes a walk of each kind, whose workers meet as they start. Otherwise returns the one that failed.
fn start_each<R: AllocGlobal + Threads + Wait + Sync>(
    rt: &R,
    map: &StripedMap,
    team: Team,
    program: &Verified,
) -> Result<(), Wrong>
    requires { All (λ pass. pass.map ≡ map.now) team.passes.items }
{
    let gate = Meeting::at(Place::WalkStart);
    let (team, reply) = walk(rt, map, team, program, Task::Search(0), &gate);
    if !gate.gave(&reply, Wanted(&[(b"a", &TWO)], (4, 1, 1))) {
        return Err(Wrong::Search);
    }
    let gate = Meeting::at(Place::WalkStart);
    let (team, reply) = walk(rt, map, team, program, Task::Count, &gate);
    if !gate.gave(&reply, Wanted(&[], (4, 0, 0))) {
        return Err(Wrong::Count);
    }
    replace_at(rt, map, team, program, Place::WalkStart)
}

/// Makes the walks whose workers meet at the place, after the calls have begun; then stops the calls.
fn meet<R: AllocGlobal + Threads + Wait + Sync>(
    rt: &R,
    map: &StripedMap,
    team: Team,
    place: Place,
    calls: &Calls,
) -> Result<(), Wrong>
    requires { All (λ pass. pass.map ≡ map.now) team.passes.items }
{
    calls.wait();
    let walked = match place {
        Place::WalkStart => start_each(rt, map, team, &calls.program),
        _ => replace_at(rt, map, team, &calls.program, place),
    };
    calls.stop.store(1, Ordering::SeqCst);
    walked
}

/// Runs both at once, each in a thread of its own.
fn walk_beside<R: AllocGlobal + Threads + Wait + Sync>(
    rt: &R,
    map: &StripedMap,
    pass: Pass,
    team: Team,
    place: Place,
    calls: &Calls,
) -> ((Pass, bool), Result<(), Wrong>)
    requires pass { pass.map ≡ map.now }
    requires team { All (λ pass. pass.map ≡ map.now) team.passes.items }
    ensures { result.0.0.map ≡ map.now }
{
    thread::join(
        rt,
        move || -> (Pass, bool)
            requires { pass.map ≡ map.now }
            ensures { result.0.map ≡ map.entry.now }
        { make_calls(rt, map, pass, calls) },
        move || -> Result<(), Wrong>
            requires { All (λ pass. pass.map ≡ map.now) team.passes.items }
        { meet(rt, map, team, place, calls) },
    )
}

/// Returns the number at the key `d`.
fn number_at_d<R: Wait>(rt: &R, map: &StripedMap, mut pass: Pass) -> Option<u64>
    requires { pass.map ≡ map.now }
{
    let key = &Key::from_slice(b"d").ok()?;
    match map.call(rt, &mut pass, &Call::Get { key }) {
        Ok(Reply::Value(Some(sum))) => number_of(sum.as_slice()),
        _ => None,
    }
}

/// Makes the walks whose workers meet at the place, beside at most `most` calls. Tells whether in the end each call and the one
/// replacement have added 1 to the number at `d`.
fn are_met<R: AllocGlobal + Threads + Wait + Sync>(
    rt: &R,
    map: &StripedMap,
    passes: Vec<Pass>,
    place: Place,
    most: u64,
) -> Result<bool, Fail>
    requires { All (λ pass. pass.map ≡ map.now) passes.items }
{
    let calls = Calls::new(summing(rt.alloc())?, most);
    let (mut pass, team) = filled(rt, map, passes).ok_or("no entries")?;
    put(rt, map, &mut pass, b"d", &ONE).ok_or("not put")?;
    let ((pass, rose), walked) = walk_beside(rt, map, pass, team, place, &calls);
    let sum = number_at_d(rt, map, pass);
    walked?;
    let late = calls.late.load(Ordering::SeqCst);
    let made = calls.made.load(Ordering::SeqCst);
    Ok(rose && late == 0 && sum == Some(made.wrapping_add(2)))
}

/// Does that on a map of two stripes, by a team of two.
fn meet_beside<R: AllocGlobal + Threads + Wait + Abort + Sync>(
    rt: &R,
    place: Place,
    most: u64,
) -> Result<(), Fail> {
    let met = on_map(
        rt.alloc(),
        2,
        3,
        |map: &StripedMap, passes: Vec<Pass>| -> Result<bool, Fail>
            requires { All (λ pass. pass.map ≡ map.now) passes.items }
        { are_met(rt, map, passes, place, most) },
    )?;
    assert!(rt; met);
    Ok(())
}

#[test]
fn walk_uses_workers(rt: HostRuntime) -> Result<(), Fail> {
    meet_beside(&rt, Place::WalkStart, 0)
}

#[test]
fn walks_use_workers_beside_a_caller(rt: HostRuntime) -> Result<(), Fail> {
    meet_beside(&rt, Place::WalkStart, CALLS)
}

#[test]
fn stripes_held_at_once(rt: HostRuntime) -> Result<(), Fail> {
    meet_beside(&rt, Place::Held, 0)
}

#[test]
fn stripes_are_held_at_once_beside_a_caller(rt: HostRuntime) -> Result<(), Fail> {
    meet_beside(&rt, Place::Held, CALLS)
}
