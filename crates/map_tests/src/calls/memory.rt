//! Calls that add no key ask for no memory, even if there is no room for a further key.
use super::methods::{COMPUTING, PLAIN, Row, Tried, play};
use super::*;
use bins::{HashedBins, ListBins};
use std::process::Abort;

/// A request of this many bytes is a mark for `tests/refused.sh`; no other request has this size.
const MARK: usize = 99_991;

/// Asks for memory of the marked size.
fn mark(alloc: Global) -> Result<(), Fail> {
    let _: Vec<u8> = Vec::with_capacity(alloc, MARK)?;
    Ok(())
}

/// Puts eight entries into the stripe of `a` and `A`, as many as a doubling list has room for; `a` has its first value.
fn fill<T: Tried>(table: &mut T, programs: &Programs, before: Wanted) -> Result<(), Fail> {
    let (name, bytes) = match before {
        Wanted::Bytes(bytes) => (b"a", bytes),
        _ => (b"A", b"other".as_slice()),
    };
    play(table, programs, name, Method::Put(bytes))?;
    for number in 0..7u8 {
        let name = [4 * number + 1];
        play(table, programs, &name, Method::Put(b"other"))?;
    }
    Ok(())
}

/// Makes the call between two marks.
fn made_between_marks<T: Tried>(
    alloc: Global,
    table: &mut T,
    call: &Call,
) -> Result<Result<Reply, NoMemory>, Fail> {
    mark(alloc)?;
    let given = table.made(call);
    mark(alloc)?;
    Ok(given)
}

/// Tells whether the row's call was made, or was refused and would have added its key.
fn is_kept(row: &Row, given: &Result<Reply, NoMemory>, found: &Reply) -> bool {
    let (before, _, reply, after) = row;
    match (given, before, after) {
        (Ok(given), _, _) => is_wanted(given, *reply) && is_wanted(found, *after),
        (Err(NoMemory), Wanted::Nothing, Wanted::Bytes(_)) => is_wanted(found, *before),
        (Err(NoMemory), _, _) => false,
    }
}

/// Plays the row on a full table, the call between two marks.
fn is_row_kept<T: Tried + Drop>(
    alloc: Global,
    programs: &Programs,
    row: &Row,
) -> Result<bool, Fail> {
    let mut table = T::opened(alloc)?;
    fill(&mut table, programs, row.0)?;
    let lender = Lender::new(b"a", row.1)?;
    let given = made_between_marks(alloc, &mut table, &lender.call(programs))?;
    let found = play(&mut table, programs, b"a", Method::Get)?;
    Ok(is_kept(row, &given, &found))
}

/// Plays each row on a full table of its own.
fn try_rows<T: Tried + Drop>(rt: &impl Abort, alloc: Global, rows: &[Row]) -> Result<(), Fail> {
    let programs = Programs::new(alloc)?;
    for (number, row) in rows.iter().enumerate() {
        assert!(rt; is_row_kept::<T>(alloc, &programs, row)?, "row {number}");
    }
    Ok(())
}

/// Also if each request between two marks is refused, of six calls on each kind of table: one of a list, and three of hashed
/// bins, which try to grow again with less.
#[test]
fn a_call_that_adds_no_key_asks_for_no_memory(rt: HostRuntime) -> Result<(), Fail> {
    for rows in [PLAIN.as_slice(), &COMPUTING] {
        try_rows::<Striped>(&rt, rt.alloc(), rows)?;
        try_rows::<ListBins>(&rt, rt.alloc(), rows)?;
        try_rows::<HashedBins>(&rt, rt.alloc(), rows)?;
    }
    Ok(())
}
