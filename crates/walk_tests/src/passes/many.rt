//! Several threads on one map.
ghost use Rattle.std.specs.Prelude.{◌≡◌, All};

use super::*;

/// A thread waits at most this many turns, and tries a call at most this often.
const TURNS: u64 = 10_000_000;

/// A gate that holds a worker at `Held` until it is opened.
#[derive(Drop)]
struct Shut {
    come: AtomicU64,
    open: AtomicU64,
    alone: AtomicU64,
}

impl Shut {
    /// Makes a gate that is shut.
    fn new() -> Shut {
        Shut {
            come: AtomicU64::new(0),
            open: AtomicU64::new(0),
            alone: AtomicU64::new(0),
        }
    }

    /// Waits until a worker is held. Returns whether one came.
    fn wait(&self) -> bool {
        for _ in 0..TURNS {
            if self.come.load(Ordering::SeqCst) > 0 {
                return true;
            }
            thread::yield_now();
        }
        false
    }
}

impl Gate for Shut {
    fn pass(&self, place: Place, _worker: u32) {
        if place != Place::Held {
            return;
        }
        self.come.store(1, Ordering::SeqCst);
        for _ in 0..TURNS {
            if self.open.load(Ordering::SeqCst) > 0 {
                return;
            }
            thread::yield_now();
        }
        self.alone.store(1, Ordering::SeqCst);
    }
}

/// Replaces the values of stripe 0, at the gate.
fn hold<R: Wait>(rt: &R, map: &StripedMap, mut pass: Pass, program: &Verified, gate: &Shut)
    requires { pass.map ≡ map.now }
{
    if map.stripes() > 0 {
        map.replace_stripe(rt, &mut pass, 0, program, &None, gate, 0);
    }
}

/// While stripe 0 is held, tells whether a call on the key of stripe 1 is made, and one on the key of stripe 0 is refused as
/// busy. Then opens the gate.
fn beside(map: &StripedMap, mut pass: Pass, gate: &Shut) -> (bool, bool)
    requires { pass.map ≡ map.now }
{
    let (Ok(free), Ok(held)) = (key(b"b"), key(b"a")) else {
        return (false, false);
    };
    let came = gate.wait();
    let apart = map.try_call(&mut pass, &Call::Get { key: &free }).is_ok();
    let call = Call::Get { key: &held };
    let busy = matches!(map.try_call(&mut pass, &call), Err(fault) if fault.number() == 52);
    gate.open.store(1, Ordering::SeqCst);
    (came && apart, busy)
}

/// Runs both at once, each in a thread of its own.
fn hold_beside<R: Threads + Wait + Sync>(
    rt: &R,
    map: &StripedMap,
    holder: Pass,
    other: Pass,
    program: &Verified,
    gate: &Shut,
) -> (bool, bool)
    requires holder { holder.map ≡ map.now }
    requires other { other.map ≡ map.now }
{
    let (_, told) = thread::join(
        rt,
        move || -> bool
            requires { holder.map ≡ map.now }
        {
            hold(rt, map, holder, program, gate);
            true
        },
        move || -> (bool, bool)
            requires { other.map ≡ map.now }
        { beside(map, other, gate) },
    );
    told
}

/// Tells whether a pass that holds stripe 0 leaves the other free to call on stripe 1.
fn are_apart<R: AllocGlobal + Threads + Wait + Sync>(
    rt: &R,
    map: &StripedMap,
    mut passes: Vec<Pass>,
) -> Result<bool, Fail>
    requires { All (λ pass. pass.map ≡ map.now) passes.items }
{
    let program = summing(rt.alloc())?;
    let other = next_pass(map, &mut passes)?;
    let holder = next_pass(map, &mut passes)?;
    // The key 61 is in stripe 0, and 62 in stripe 1.
    let gate = Shut::new();
    let (answered, busy) = hold_beside(rt, map, holder, other, &program, &gate);
    Ok(answered && busy && gate.alone.load(Ordering::SeqCst) == 0)
}

#[test]
fn stripes_apart(rt: HostRuntime) -> Result<(), Fail> {
    let right = on_map(
        rt.alloc(),
        2,
        2,
        |map: &StripedMap, passes: Vec<Pass>| -> Result<bool, Fail>
            requires { All (λ pass. pass.map ≡ map.now) passes.items }
        { are_apart(&rt, map, passes) },
    )?;
    assert!(rt; right);
    Ok(())
}

/// Tries the call until it is made. Returns whether it was.
fn tried(map: &StripedMap, pass: &mut Pass, call: &Call) -> bool
    requires { pass.old.map ≡ map.now }
    ensures { pass.new.map ≡ map.now }
{
    for _ in 0..TURNS {
        match map.try_call(pass, call) {
            Ok(_) => return true,
            Err(CallFault::Busy) => thread::yield_now(),
            Err(CallFault::NoMemory) => return false,
        }
    }
    false
}

/// The program that threads merge by, and how many of their calls were made.
#[derive(Drop)]
struct Merging {
    program: Verified,
    made: AtomicU64,
}

impl Merging {
    /// Makes a `Merging` without calls yet.
    fn new(program: Verified) -> Merging {
        Merging {
            program,
            made: AtomicU64::new(0),
        }
    }
}

/// Merges 1 on the key.
fn merge_one<R: Wait>(rt: &R, map: &StripedMap, pass: &mut Pass, merging: &Merging, by_tries: bool)
    requires { pass.old.map ≡ map.now }
    ensures { pass.new.map ≡ map.now }
{
    let (Ok(key), Ok(value)) = (key(b"a"), value(&ONE)) else {
        return;
    };
    let call = Call::Merge {
        key: &key,
        value: &value,
        program: &merging.program,
    };
    let is_made = if by_tries {
        tried(map, pass, &call)
    } else {
        map.call(rt, pass, &call).is_ok()
    };
    if is_made {
        merging.made.fetch_add(1, Ordering::SeqCst);
    }
}

/// Merges 1 this often, each second time by tries.
fn merges<R: Wait>(rt: &R, map: &StripedMap, pass: &mut Pass, merging: &Merging, times: u64)
    requires { pass.old.map ≡ map.now }
    ensures { pass.new.map ≡ map.now }
{
    for turn in 0..times {
        merge_one(rt, map, pass, merging, turn % 2 == 1);
    }
}

/// Merges 1 this often by each of the passes, which have a thread each.
fn merge_by_each<R: Threads + Wait + Sync>(
    rt: &R,
    map: &StripedMap,
    mut passes: Vec<Pass>,
    merging: &Merging,
    times: u64,
)
    requires { All (λ pass. pass.map ≡ map.now) passes.items }
{
    let call = move |_: usize, pass: &mut Pass|
        requires { pass.old.map ≡ map.now }
        ensures { pass.new.map ≡ map.entry.now }
    { merges(rt, map, pass, merging, times) };
    thread::for_each_mut(rt, &mut passes, 8, &call);
}

/// Merges 500 times by this many threads. Tells whether all calls were made, and the key has their sum.
fn is_sum<R: AllocGlobal + Threads + Wait + Sync>(
    rt: &R,
    map: &StripedMap,
    mut passes: Vec<Pass>,
    threads: u64,
) -> Result<bool, Fail>
    requires { All (λ pass. pass.map ≡ map.now) passes.items }
{
    let merging = Merging::new(summing(rt.alloc())?);
    let mut last = next_pass(map, &mut passes)?;
    merge_by_each(rt, map, passes, &merging, 500);
    let made = merging.made.load(Ordering::SeqCst);
    let found = got(rt, map, &mut last, b"a")?;
    Ok(made == threads.wrapping_mul(500) && is_value(&found, &made.to_le_bytes()))
}

#[test]
fn threads_merge_on_one_key(rt: HostRuntime) -> Result<(), Fail> {
    for threads in [2, 8] {
        let sum = on_map(
            rt.alloc(),
            16,
            threads + 1,
            |map: &StripedMap, passes: Vec<Pass>| -> Result<bool, Fail>
                requires { All (λ pass. pass.map ≡ map.now) passes.items }
            { is_sum(&rt, map, passes, threads) },
        )?;
        assert!(rt; sum, "{threads} threads");
    }
    Ok(())
}
