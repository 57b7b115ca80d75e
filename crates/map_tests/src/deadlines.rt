//! Deadlines beside both bodies of bins: calls with and without a clock, sweeps, and an agenda that grows too long.
use crate::expectations::expect;
use atomic_methods::{Call, HashedCall, Workspace};
use bins::{Bins, HashedBins, HashedKey, ListBins};
use bpf_model::{Key, NoMemory, Value};
use std::alloc::Global;
use std::test::Fail;
use timed_bins::{DeadlineChange, Expiry, SetRule, Timed, TimedBins, Timing};

/// What is done to bins with one key.
#[derive(Clone, Copy)]
enum Deed {
    /// A Put at this time, with a deadline.
    PutUntil(u64, u64),
    /// A Get without a clock.
    Get,
    /// A Put without a clock.
    Put,
    /// The value is replaced below all calls.
    Replace,
    /// The entry is discarded, and comes back.
    Renew,
}

/// What a sweep comes to.
#[derive(Clone, Copy)]
enum Swept {
    Nothing,
    Waits(u64),
    Took,
}

/// A deed, and then a sweep: its time, and what comes of it.
type Row = (Deed, u64, Swept);

/// A value that is only read or replaced keeps its deadline. One that is put without a clock loses it, and so does an entry that
/// is discarded.
const ROWS: [Row; 6] = [
    (Deed::PutUntil(10, 100), 99, Swept::Waits(100)),
    (Deed::Get, 99, Swept::Waits(100)),
    (Deed::Replace, 99, Swept::Waits(100)),
    (Deed::Put, 100, Swept::Nothing),
    (Deed::PutUntil(110, 200), 200, Swept::Took),
    (Deed::Renew, 300, Swept::Nothing),
];

/// Puts a key at a time, with a deadline.
fn put_until<B: Bins + Drop>(
    bins: &mut Timed<B>,
    key: &Key,
    now: u64,
    at: u64,
) -> Result<(), NoMemory> {
    let value = &Value::new();
    let change = DeadlineChange::Set {
        at,
        rule: SetRule::Always,
    };
    let timing = Timing { now, change };
    let (mut workspace, mut bytes) = (Workspace::new(), Value::new());
    let call = &Call::Put { key, value };
    bins.call_at(&HashedCall::new(call), &timing, &mut workspace, &mut bytes)?;
    Ok(())
}

/// Makes a call without a clock.
fn call<B: Bins + Drop>(bins: &mut Timed<B>, call: &Call) -> Result<(), NoMemory> {
    let (mut workspace, mut bytes) = (Workspace::new(), Value::new());
    bins.call_into(&HashedCall::new(call), &mut workspace, &mut bytes)?;
    Ok(())
}

/// Does the deed with the key.
fn act<B: Bins + Drop>(bins: &mut Timed<B>, key: &Key, deed: Deed) -> Result<(), NoMemory> {
    let value = &Value::new();
    match deed {
        Deed::PutUntil(now, at) => put_until(bins, key, now, at),
        Deed::Get => call(bins, &Call::Get { key }),
        Deed::Put => call(bins, &Call::Put { key, value }),
        Deed::Replace => bins.put(&HashedKey::new(key), value),
        Deed::Renew => {
            bins.discard(&HashedKey::new(key));
            bins.put(&HashedKey::new(key), value)
        }
    }
}

/// Sweeps at a time. Tells whether that comes to what is wanted.
fn sweeps<B: Bins + Drop>(bins: &mut Timed<B>, now: u64, wanted: Swept) -> bool {
    match (bins.expire_one(now), wanted) {
        (Expiry::Nothing, Swept::Nothing) | (Expiry::Took(_), Swept::Took) => true,
        (Expiry::Waits(at), Swept::Waits(wanted)) => at == wanted,
        _ => false,
    }
}

/// Plays the rows one after the other.
fn play_rows<B: Bins + Drop>(alloc: Global) -> Result<bool, Fail> {
    let mut bins: Timed<B> = Timed::open(alloc, 1)?;
    let key = &Key::from_slice(b"a")?;
    let mut right = true;
    for (deed, now, wanted) in ROWS {
        act(&mut bins, key, deed)?;
        right &= sweeps(&mut bins, now, wanted);
    }
    Ok(right && bins.count() == 1)
}

/// Puts forty keys of one byte, each with itself as its deadline.
fn put_forty<B: Bins + Drop>(bins: &mut Timed<B>) -> Result<(), Fail> {
    for at in 1..=40u8 {
        put_until(bins, &Key::from_slice(&[at])?, 0, u64::from(at))?;
    }
    Ok(())
}

/// Moves the deadline of one key so often that the agenda is made anew.
fn move_often<B: Bins + Drop>(bins: &mut Timed<B>) -> Result<(), Fail> {
    let key = Key::from_slice(b"")?;
    for at in 1000..1300 {
        put_until(bins, &key, 0, at)?;
    }
    Ok(())
}

/// Tells whether each of the forty keys goes in its time, and then the other one.
fn go_in_their_time<B: Bins + Drop>(alloc: Global) -> Result<bool, Fail> {
    let mut bins: Timed<B> = Timed::open(alloc, 1)?;
    put_forty(&mut bins)?;
    move_often(&mut bins)?;
    let mut right = true;
    for at in 1..=40 {
        right &= sweeps(&mut bins, at, Swept::Took);
    }
    Ok(right && sweeps(&mut bins, 1298, Swept::Waits(1299)) && sweeps(&mut bins, 1299, Swept::Took))
}

/// Tries both with one body.
fn try_both<B: Bins + Drop>(alloc: Global) -> Result<(), Fail> {
    expect(play_rows::<B>(alloc)?, "rows")?;
    expect(go_in_their_time::<B>(alloc)?, "forty keys")?;
    Ok(())
}

#[test]
fn deadlines_beside_both_bodies(rt: HostRuntime) -> Result<(), Fail> {
    try_both::<ListBins>(rt.alloc())?;
    try_both::<HashedBins>(rt.alloc())
}
