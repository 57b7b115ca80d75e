//! Calls at a time, on keys with deadlines.
ghost use Rattle.std.specs.Prelude.{◌≡◌};

use super::shared::on_map;
use super::*;
use bin_stripes::{Expiry, Pass, StripedMap};
use std::sync::Wait;
use timed_bins::{DeadlineChange, SetRule, Timing};

/// A time, a method on the key `a`, what becomes of its deadline, the reply, and the deadline after it.
type Row = (u64, Method, DeadlineChange, Wanted, Option<u64>);

/// The key keeps its deadline.
const KEEP: DeadlineChange = DeadlineChange::Keep;

/// The key is over at 100.
const UNTIL: DeadlineChange = DeadlineChange::Set {
    at: 100,
    rule: SetRule::Always,
};

/// A call before that time, which sets the deadline.
const SOON: Timing = Timing {
    now: 10,
    change: UNTIL,
};

/// A call before that time, which keeps the deadline.
const SEEN: Timing = Timing {
    now: 10,
    change: KEEP,
};

/// A deadline is set, holds until it is over, stays over if the clock goes back, and is moved and cleared. A key that is added
/// again has none.
const ROWS: [Row; 9] = [
    (10, Method::Put(b"x"), UNTIL, Wanted::Nothing, Some(100)),
    (99, Method::Get, KEEP, Wanted::Bytes(b"x"), Some(100)),
    (100, Method::Get, KEEP, Wanted::Nothing, None),
    (50, Method::Get, KEEP, Wanted::Nothing, None),
    (101, Method::Put(b"y"), KEEP, Wanted::Nothing, None),
    (500, Method::Get, UNTIL, Wanted::Bytes(b"y"), Some(100)),
    (500, Method::Put(b"z"), KEEP, Wanted::Nothing, None),
    (
        500,
        Method::ReplaceIf(b"z", b"w"),
        DeadlineChange::Set {
            at: 600,
            rule: SetRule::IfNone,
        },
        Wanted::Done(true),
        Some(600),
    ),
    (
        599,
        Method::Replace(b"v"),
        DeadlineChange::Clear,
        Wanted::Bytes(b"w"),
        None,
    ),
];

/// Makes a call at a time. Returns its reply, and the deadline after it.
fn made<R: Wait>(
    rt: &R,
    map: &StripedMap,
    pass: &mut Pass,
    call: &Call,
    timing: &Timing,
) -> Result<(Reply, Option<u64>), NoMemory>
    requires { pass.old.map ≡ map.now }
    ensures { pass.new.map ≡ map.now }
{
    let mut bytes = Value::new();
    let timed = map.call_at_into(rt, pass, call, timing, &mut bytes)?;
    Ok((timed.kind.with(bytes), timed.after))
}

/// Makes the row's call. Tells whether its reply and the deadline after it are the expected ones.
fn is_row_kept<R: Wait>(
    rt: &R,
    map: &StripedMap,
    pass: &mut Pass,
    programs: &Programs,
    row: &Row,
) -> Result<bool, Fail>
    requires { pass.old.map ≡ map.now }
    ensures { pass.new.map ≡ map.now }
{
    let (now, method, change, wanted, deadline) = *row;
    let lender = Lender::new(b"a", method)?;
    let timing = &Timing { now, change };
    let (reply, after) = made(rt, map, pass, &lender.call(programs), timing)?;
    Ok(after == deadline && is_wanted(&reply, wanted))
}

/// Makes the calls of these rows. Returns the number of the first one that isn't kept.
fn first_broken<R: Wait>(
    rt: &R,
    map: &StripedMap,
    mut pass: Pass,
    programs: &Programs,
    rows: &[Row],
) -> Result<Option<usize>, Fail>
    requires { pass.map ≡ map.now }
{
    for (number, row) in rows.iter().enumerate() {
        if !is_row_kept(rt, map, &mut pass, programs, row)? {
            return Ok(Some(number));
        }
    }
    Ok(None)
}

#[test]
fn deadlines_of_a_key(rt: HostRuntime) -> Result<(), Fail> {
    let programs = Programs::new(rt.alloc())?;
    let broken = on_map(
        rt.alloc(),
        4,
        |map: &StripedMap, pass: Pass| -> Result<Option<usize>, Fail>
            requires { pass.map ≡ map.now }
        { first_broken(&rt, map, pass, &programs, &ROWS) },
    )?;
    assert!(&rt; broken.is_none(), "row {broken:?}");
    Ok(())
}

/// Looks in the only stripe for an entry whose time is over. Tells whether this came of it, and left this many entries.
fn is_found<R: Wait>(
    rt: &R,
    map: &StripedMap,
    pass: &mut Pass,
    now: u64,
    wanted: (Expiry, u64),
) -> Result<bool, Fail>
    requires { pass.old.map ≡ map.now }
    ensures { pass.new.map ≡ map.now }
{
    let stripe = map.stripe_of(&key(b"a")?);
    let found = map.expire_one(rt, pass, stripe, now);
    Ok((found, map.count_stripe(rt, pass, stripe)) == wanted)
}

/// A time, what a look for an entry whose time is over finds then, and how many entries it leaves.
const LOOKS: [(u64, (Expiry, u64)); 3] = [
    (99, (Expiry::Waits(100), 1)),
    (100, (Expiry::Took, 0)),
    (50, (Expiry::Nothing, 0)),
];

/// Sets a deadline of 100, and looks at these times. Returns the first one at which something else is found.
fn first_missed<R: Wait>(
    rt: &R,
    map: &StripedMap,
    mut pass: Pass,
    looks: &[(u64, (Expiry, u64))],
) -> Result<Option<u64>, Fail>
    requires { pass.map ≡ map.now }
{
    let (key, value) = (&key(b"a")?, &value(b"x")?);
    made(rt, map, &mut pass, &Call::Put { key, value }, &SOON)?;
    for (now, wanted) in looks {
        if !is_found(rt, map, &mut pass, *now, *wanted)? {
            return Ok(Some(*now));
        }
    }
    Ok(None)
}

#[test]
fn an_entry_goes_when_its_time_is_over(rt: HostRuntime) -> Result<(), Fail> {
    let missed = on_map(
        rt.alloc(),
        1,
        |map: &StripedMap, pass: Pass| -> Result<Option<u64>, Fail>
            requires { pass.map ≡ map.now }
        { first_missed(&rt, map, pass, &LOOKS) },
    )?;
    assert!(&rt; missed.is_none(), "at {missed:?}");
    Ok(())
}

/// Gives an entry a deadline by a call that finds its value, and once more. Tells whether the entry was left without one if the
/// first call was refused, and has one then.
fn is_refused_well<R: Wait>(
    rt: &R,
    map: &StripedMap,
    pass: &mut Pass,
    entry: (&Key, &Value),
) -> Result<bool, NoMemory>
    requires { pass.old.map ≡ map.now }
    ensures { pass.new.map ≡ map.now }
{
    let get = &Call::Get { key: entry.0 };
    let found = || Reply::Value(Some(entry.1.copied()));
    if made(rt, map, pass, get, &SOON).is_err()
        && made(rt, map, pass, get, &SEEN)? != (found(), None)
    {
        return Ok(false);
    }
    Ok(made(rt, map, pass, get, &SOON)? == (found(), Some(100)))
}

/// Puts an entry, and again if that was refused, and does that.
fn is_left<R: Wait>(rt: &R, map: &StripedMap, mut pass: Pass) -> Result<bool, Fail>
    requires { pass.map ≡ map.now }
{
    let (key, value) = (&key(b"a")?, &value(b"x")?);
    let put = &Call::Put { key, value };
    if made(rt, map, &mut pass, put, &SEEN).is_err() {
        made(rt, map, &mut pass, put, &SEEN)?;
    }
    Ok(is_refused_well(rt, map, &mut pass, (key, value))?)
}

/// Also if one allocation fails: the entry then has no deadline, and the same call again gives it one.
#[test]
fn a_refused_deadline_leaves_the_entry(rt: HostRuntime) -> Result<(), Fail> {
    let left = on_map(
        rt.alloc(),
        4,
        |map: &StripedMap, pass: Pass| -> Result<bool, Fail>
            requires { pass.map ≡ map.now }
        { is_left(&rt, map, pass) },
    )?;
    assert!(&rt; left);
    Ok(())
}
