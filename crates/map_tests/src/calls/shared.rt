//! Each method by the calls that leave a reply's bytes with the caller.
ghost use Rattle.std.specs.Prelude.{◌≡◌, All, IfSome};

use super::methods::{BEGINNING, COMPUTING, Names, ONE_HASH, PLAIN, Row};
use super::*;
use bin_stripes::{OpenFault, Pass, StripedMap};
use std::process::Abort;
use std::sync::Wait;

/// Takes the last of the passes.
fn last_pass(map: &StripedMap, mut passes: Vec<Pass>) -> Option<Pass>
    requires { All (λ pass. pass.map ≡ map.now) passes.items }
    ensures { IfSome result (λ pass. pass.map ≡ map.now) }
{
    // Only for the clauses, which name the map.
    let _ = map;
    let Some(pass) = passes.pop() else {
        return None;
    };
    Some(pass)
}

/// Opens a map with this many stripes and one pass, and again if memory was refused, and plays on it: a function that owns a map has
/// to be proved to drop it, so tests are lent theirs.
pub(super) fn on_map<T: Drop, F: FnOnce(&StripedMap, Pass) -> Result<T, Fail>>(
    alloc: Global,
    stripes: u64,
    play: F,
) -> Result<T, Fail>
    requires { (map : _) → (pass : _) → pass.map ≡ map.now → F.pre play map pass }
{
    let (map, passes) = match StripedMap::open(alloc, stripes, 1) {
        Err(OpenFault::NoMemory) => StripedMap::open(alloc, stripes, 1)?,
        result => result?,
    };
    let pass = last_pass(&map, passes).ok_or("no pass")?;
    play(&map, pass)
}

/// Tells whether the method on the key of this name gets the expected reply. If this reply leaves no bytes, those of an
/// earlier one stay.
fn replies<R: Wait>(
    rt: &R,
    map: &StripedMap,
    pass: &mut Pass,
    programs: &Programs,
    asked: (&[u8], Method, Wanted),
    bytes: &mut Value,
) -> Result<bool, Fail>
    requires { pass.old.map ≡ map.now }
    ensures { pass.new.map ≡ map.now }
{
    let (name, method, wanted) = asked;
    let lender = Lender::new(name, method)?;
    let kind = map.call_into(rt, pass, &lender.call(programs), bytes)?;
    Ok(is_wanted(&kind.with(bytes.copied()), wanted))
}

/// Enters a value by a call that does not wait.
fn enter(
    map: &StripedMap,
    pass: &mut Pass,
    programs: &Programs,
    name: &[u8],
    value: &'static [u8],
    bytes: &mut Value,
) -> Result<(), Fail>
    requires { pass.old.map ≡ map.now }
    ensures { pass.new.map ≡ map.now }
{
    let lender = Lender::new(name, Method::Put(value))?;
    map.try_call_into(pass, &lender.call(programs), bytes)?;
    Ok(())
}

/// Plays a row on the key of a map, in which the key has a neighbour. Tells whether each reply is the expected one.
fn is_row_kept<R: Wait>(
    rt: &R,
    programs: &Programs,
    map: &StripedMap,
    mut pass: Pass,
    names: Names,
    row: &Row,
) -> Result<bool, Fail>
    requires { pass.map ≡ map.now }
{
    let pass = &mut pass;
    let (before, method, reply, after) = *row;
    let Names { key, neighbour } = names;
    let mut bytes = Value::new();
    enter(map, pass, programs, neighbour, b"other", &mut bytes)?;
    if let Wanted::Bytes(old) = before {
        enter(map, pass, programs, key, old, &mut bytes)?;
    }
    let other = Wanted::Bytes(b"other");
    let given = replies(rt, map, pass, programs, (key, method, reply), &mut bytes)?;
    let found = replies(
        rt,
        map,
        pass,
        programs,
        (key, Method::Get, after),
        &mut bytes,
    )?;
    let beside = replies(
        rt,
        map,
        pass,
        programs,
        (neighbour, Method::Get, other),
        &mut bytes,
    )?;
    Ok(given && found && beside)
}

/// Plays each row on a map of its own.
fn try_rows<R: Wait + Abort>(
    rt: &R,
    alloc: Global,
    names: Names,
    rows: &[Row],
) -> Result<(), Fail> {
    let programs = Programs::new(alloc)?;
    for (number, row) in rows.iter().enumerate() {
        let kept = on_map(
            alloc,
            4,
            |map: &StripedMap, pass: Pass| -> Result<bool, Fail>
                requires { pass.map ≡ map.now }
            { is_row_kept(rt, &programs, map, pass, names, row) },
        )?;
        assert!(rt; kept, "row {number}");
    }
    Ok(())
}

#[test]
fn methods_of_a_shared_map(rt: HostRuntime) -> Result<(), Fail> {
    for names in [BEGINNING, ONE_HASH] {
        try_rows(&rt, rt.alloc(), names, &PLAIN)?;
        try_rows(&rt, rt.alloc(), names, &COMPUTING)?;
    }
    Ok(())
}
