//! Rows of one thread.
ghost use Rattle.std.specs.Prelude.{◌≡◌, All, IfOk};

use super::*;

/// Puts by the one pass, which is told to the other. Tells whether that one finds the value.
fn sees_what_was_put<R: Wait>(
    rt: &R,
    map: &StripedMap,
    first: &mut Pass,
    second: &mut Pass,
) -> Result<bool, Fail>
    requires first { first.old.map ≡ map.now }
    requires second { second.old.map ≡ map.now }
{
    put(rt, map, first, b"a", &ONE)?;
    map.tell(first, second);
    let found = got(rt, map, second, b"a")?;
    Ok(is_value(&found, &ONE))
}

/// Tells whether a pass that is told sees what the other put.
fn is_told<R: AllocGlobal + Wait>(
    rt: &R,
    map: &StripedMap,
    mut passes: Vec<Pass>,
) -> Result<bool, Fail>
    requires { All (λ pass. pass.map ≡ map.now) passes.items }
{
    let mut second = next_pass(map, &mut passes)?;
    let mut first = next_pass(map, &mut passes)?;
    sees_what_was_put(rt, map, &mut first, &mut second)
}

#[test]
fn a_told_pass_sees_what_was_put(rt: HostRuntime) -> Result<(), Fail> {
    let right = on_map(
        rt.alloc(),
        4,
        2,
        |map: &StripedMap, passes: Vec<Pass>| -> Result<bool, Fail>
            requires { All (λ pass. pass.map ≡ map.now) passes.items }
        { is_told(&rt, map, passes) },
    )?;
    assert!(rt; right);
    Ok(())
}

/// Tells whether the entries are `a` of 1 and `b` of 2, in key order.
fn are_both(entries: &[(Key, Value)]) -> bool {
    let mut right = entries.len() == 2;
    for (entry, (name, bytes)) in entries.iter().zip(&[(b"a", [1]), (b"b", [2])]) {
        right &= entry.0.as_slice() == name.as_slice() && entry.1.as_slice() == bytes.as_slice();
    }
    right
}

/// Closes the map by a pass that joins both. Tells whether these were its entries.
fn is_closed_with_both<R: Wait>(
    rt: &R,
    alloc: Global,
    map: StripedMap,
    first: Pass,
    second: Pass,
) -> Result<bool, Fail>
    requires first { first.map ≡ map }
    requires second { second.map ≡ map }
{
    let both = map.join(first, second);
    let entries = map.close(rt, alloc, both)?;
    Ok(are_both(&entries))
}

/// Puts `a` by the one pass, and `b` by the other.
fn put_both<R: Wait>(rt: &R, map: &StripedMap, mut passes: Vec<Pass>) -> Result<(Pass, Pass), Fail>
    requires { All (λ pass. pass.map ≡ map.now) passes.items }
    ensures first { IfOk result (λ r. r.0.map ≡ map.now) }
    ensures second { IfOk result (λ r. r.1.map ≡ map.now) }
{
    let mut second = next_pass(map, &mut passes)?;
    let mut first = next_pass(map, &mut passes)?;
    put(rt, map, &mut second, b"b", &[2])?;
    put(rt, map, &mut first, b"a", &[1])?;
    Ok((first, second))
}

#[test]
fn last_entries_are_in_key_order(rt: HostRuntime) -> Result<(), Fail> {
    let (map, passes) = opened(rt.alloc(), 4, 2)?;
    let (first, second) = put_both(&rt, &map, passes)?;
    assert!(rt; is_closed_with_both(&rt, rt.alloc(), map, first, second)?);
    Ok(())
}

/// Tries a call, a scan and a replacement, on a key of stripe 0. Tells whether each was made on that entry.
fn are_made(
    alloc: Global,
    map: &StripedMap,
    pass: &mut Pass,
    program: &Verified,
) -> Result<bool, Fail>
    requires { pass.old.map ≡ map.now }
    ensures { pass.new.map ≡ map.now }
{
    if map.stripes() == 0 {
        return Ok(false);
    }
    let key = &key(b"a")?;
    let value = &value(&ONE)?;
    map.try_call(pass, &Call::Put { key, value })?;
    let found = map.try_scan_stripe(alloc, pass, 0)?;
    let counts = map.try_replace_stripe(pass, 0, program, &Some(value.copied()))?;
    Ok(found.len() == 1 && (counts.scanned, counts.given, counts.unfit) == (1, 1, 0))
}

/// Tries the same this often. Tells whether each was always made.
fn are_always_made(
    alloc: Global,
    map: &StripedMap,
    pass: &mut Pass,
    program: &Verified,
    times: u64,
) -> Result<bool, Fail>
    requires { pass.old.map ≡ map.now }
    ensures { pass.new.map ≡ map.now }
{
    for _ in 0..times {
        if !are_made(alloc, map, pass, program)? {
            return Ok(false);
        }
    }
    Ok(true)
}

/// Tells whether the calls that one thread tries are always made.
fn is_never_busy<R: AllocGlobal + Wait>(
    rt: &R,
    map: &StripedMap,
    mut passes: Vec<Pass>,
) -> Result<bool, Fail>
    requires { All (λ pass. pass.map ≡ map.now) passes.items }
{
    let program = summing(rt.alloc())?;
    let mut pass = next_pass(map, &mut passes)?;
    are_always_made(rt.alloc(), map, &mut pass, &program, 1_000)
}

#[test]
fn a_single_thread_is_never_busy(rt: HostRuntime) -> Result<(), Fail> {
    let right = on_map(
        rt.alloc(),
        2,
        1,
        |map: &StripedMap, passes: Vec<Pass>| -> Result<bool, Fail>
            requires { All (λ pass. pass.map ≡ map.now) passes.items }
        { is_never_busy(&rt, map, passes) },
    )?;
    assert!(rt; right);
    Ok(())
}

/// Tells whether a replacement of the values of stripe 1 found one, and changed it.
fn is_replaced<R: Wait>(rt: &R, map: &StripedMap, pass: &mut Pass, program: &Verified) -> bool
    requires { pass.old.map ≡ map.now }
    ensures { pass.new.map ≡ map.now }
{
    if map.stripes() < 2 {
        return false;
    }
    let arg = Value::from_slice(&ONE).ok();
    let counts = map.replace_stripe(rt, pass, 1, program, &arg, &OpenGate, 0);
    (counts.scanned, counts.given, counts.unfit) == (1, 1, 0)
}

/// Tells whether the stripe has this many entries.
fn has_entries<R: Wait>(
    rt: &R,
    alloc: Global,
    map: &StripedMap,
    pass: &mut Pass,
    stripe: u64,
    count: usize,
) -> bool
    requires { pass.old.map ≡ map.now }
    ensures { pass.new.map ≡ map.now }
{
    match scanned(rt, alloc, map, pass, stripe) {
        Some(found) => found.len() == count,
        None => false,
    }
}

/// Tells whether the map has four stripes, and the two keys are in 1 and 2.
fn are_placed(map: &StripedMap) -> Result<bool, TooLong> {
    let places = (map.stripe_of(&key(b"")?), map.stripe_of(&key(b"ab")?));
    Ok(map.stripes() == 4 && places == (1, 2))
}

/// Puts an entry into stripe 1 and one into stripe 2. Tells whether the four stripes have only these.
fn are_dealt<R: Wait>(
    rt: &R,
    alloc: Global,
    map: &StripedMap,
    pass: &mut Pass,
) -> Result<bool, Fail>
    requires { pass.old.map ≡ map.now }
    ensures { pass.new.map ≡ map.now }
{
    put(rt, map, pass, b"", &ONE)?;
    put(rt, map, pass, b"ab", &ONE)?;
    let first = has_entries(rt, alloc, map, pass, 0, 0);
    let second = has_entries(rt, alloc, map, pass, 1, 1);
    let third = has_entries(rt, alloc, map, pass, 2, 1);
    let fourth = has_entries(rt, alloc, map, pass, 3, 0);
    Ok(first && second && third && fourth)
}

/// Replaces the values of stripe 1. Tells whether its key then has another value, and the key of stripe 2 its old one.
fn is_replaced_alone<R: Wait>(
    rt: &R,
    map: &StripedMap,
    pass: &mut Pass,
    program: &Verified,
) -> Result<bool, Fail>
    requires { pass.old.map ≡ map.now }
    ensures { pass.new.map ≡ map.now }
{
    let replaced = is_replaced(rt, map, pass, program);
    let sum = got(rt, map, pass, b"")?;
    let same = got(rt, map, pass, b"ab")?;
    Ok(replaced && is_value(&sum, &TWO) && is_value(&same, &ONE))
}

/// Tells whether each stripe has its own keys.
fn have_own_keys<R: AllocGlobal + Wait>(
    rt: &R,
    map: &StripedMap,
    mut passes: Vec<Pass>,
) -> Result<bool, Fail>
    requires { All (λ pass. pass.map ≡ map.now) passes.items }
{
    let program = summing(rt.alloc())?;
    let mut pass = next_pass(map, &mut passes)?;
    let dealt = are_placed(map)? && are_dealt(rt, rt.alloc(), map, &mut pass)?;
    let replaced = is_replaced_alone(rt, map, &mut pass, &program)?;
    pass.vouch();
    Ok(dealt && replaced)
}

#[test]
fn a_stripe_has_its_own_keys(rt: HostRuntime) -> Result<(), Fail> {
    let right = on_map(
        rt.alloc(),
        4,
        1,
        |map: &StripedMap, passes: Vec<Pass>| -> Result<bool, Fail>
            requires { All (λ pass. pass.map ≡ map.now) passes.items }
        { have_own_keys(&rt, map, passes) },
    )?;
    assert!(rt; right);
    Ok(())
}

/// Puts an entry into stripe 0.
fn put_one<R: Wait>(rt: &R, map: &StripedMap, pass: &mut Pass) -> Result<Reply, NoMemory>
    requires { pass.old.map ≡ map.now }
    ensures { pass.new.map ≡ map.now }
{
    let key = &Key::from_slice(b"a").unwrap();
    let value = &Value::from_slice(&ONE).unwrap();
    map.call(rt, pass, &Call::Put { key, value })
}

/// Puts an entry, and again if memory was refused. Tells whether the refused call changed nothing.
fn is_put_again<R: Wait>(rt: &R, map: &StripedMap, pass: &mut Pass) -> Result<bool, Fail>
    requires { pass.old.map ≡ map.now }
    ensures { pass.new.map ≡ map.now }
{
    if put_one(rt, map, pass).is_ok() {
        return Ok(true);
    }
    let none = got(rt, map, pass, b"a")?;
    put_one(rt, map, pass)?;
    Ok(matches!(none, Reply::Value(None)))
}

/// Scans stripe 0, and again if memory was refused. Tells whether it has one entry.
fn has_one_again<R: Wait>(rt: &R, alloc: Global, map: &StripedMap, pass: &mut Pass) -> bool
    requires { pass.old.map ≡ map.now }
    ensures { pass.new.map ≡ map.now }
{
    match scanned(rt, alloc, map, pass, 0) {
        Some(found) => found.len() == 1,
        None => has_entries(rt, alloc, map, pass, 0, 1),
    }
}

/// Makes calls, and again those for which memory was refused. Returns the pass, and whether all was right.
fn succeeds_again<R: AllocGlobal + Wait>(
    rt: &R,
    map: &StripedMap,
    mut passes: Vec<Pass>,
) -> Result<(Pass, bool), Fail>
    requires { All (λ pass. pass.map ≡ map.now) passes.items }
    ensures { IfOk result (λ r. r.0.map ≡ map.now) }
{
    let mut pass = next_pass(map, &mut passes)?;
    let put = is_put_again(rt, map, &mut pass)?;
    let found = has_one_again(rt, rt.alloc(), map, &mut pass);
    Ok((pass, put && found))
}

/// Also if one request for memory is refused: the call then changes nothing, and succeeds the next time. A refused close has no
/// entries.
#[test]
fn a_refused_call_changes_nothing(rt: HostRuntime) -> Result<(), Fail> {
    let (map, passes) = opened(rt.alloc(), 2, 1)?;
    let (pass, right) = succeeds_again(&rt, &map, passes)?;
    let left = match map.close(&rt, rt.alloc(), pass) {
        Ok(entries) => entries.len() == 1,
        Err(_) => true,
    };
    assert!(rt; right && left);
    Ok(())
}
