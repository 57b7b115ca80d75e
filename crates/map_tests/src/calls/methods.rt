//! Each method on a present and on an absent key.
use super::Method::{
    Compute, Get, IfAbsent, IfPresent, Merge, Put, PutIfAbsent, Remove, RemoveIf, Replace,
    ReplaceIf,
};
use super::Wanted::{Bytes, Done, Unfit};
use super::Which::{NoKey, Nothing, Sum};
use super::*;
use atomic_methods::apply;
use bins::{Bins, HashedBins, ListBins};
use std::process::Abort;

/// Values of calls without programs.
const OLD: Wanted = Bytes(b"x");

const NEW: Wanted = Bytes(b"y");

const EMPTY: Wanted = Bytes(b"");

const NONE: Wanted = Wanted::Nothing;

const YES: Wanted = Done(true);

const NO: Wanted = Done(false);

/// Values of calls with programs: of 8 bytes, and one of 9.
const WAS: Wanted = Bytes(&ONE);

const ARG: Wanted = Bytes(&TWO);

const SUM: Wanted = Bytes(&THREE);

const LONG: Wanted = Bytes(&NINE);

const NO_KEY: Wanted = Unfit(InputPart::Key);

const NO_OLD: Wanted = Unfit(InputPart::Old);

const NO_ARG: Wanted = Unfit(InputPart::Arg);

/// The key's value before, the method, the reply, and the key's value after.
pub(super) type Row = (Wanted, Method, Wanted, Wanted);

pub(super) const PLAIN: [Row; 19] = [
    (OLD, Get, OLD, OLD),
    (EMPTY, Get, EMPTY, EMPTY),
    (NONE, Get, NONE, NONE),
    (OLD, Put(b"y"), OLD, NEW),
    (NONE, Put(b""), NONE, EMPTY),
    (OLD, PutIfAbsent(b"y"), OLD, OLD),
    (NONE, PutIfAbsent(b"y"), NONE, NEW),
    (OLD, Remove, OLD, NONE),
    (NONE, Remove, NONE, NONE),
    (OLD, Replace(b"y"), OLD, NEW),
    (NONE, Replace(b"y"), NONE, NONE),
    (OLD, RemoveIf(b"x"), YES, NONE),
    (OLD, RemoveIf(b"y"), NO, OLD),
    (OLD, RemoveIf(b"xx"), NO, OLD),
    (EMPTY, RemoveIf(b""), YES, NONE),
    (NONE, RemoveIf(b""), NO, NONE),
    (OLD, ReplaceIf(b"x", b"y"), YES, NEW),
    (OLD, ReplaceIf(b"y", b""), NO, OLD),
    (NONE, ReplaceIf(b"", b"y"), NO, NONE),
];

pub(super) const COMPUTING: [Row; 18] = [
    (WAS, Compute(Sum, &TWO), SUM, SUM),
    (NONE, Compute(Sum, &TWO), ARG, ARG),
    (WAS, Compute(Nothing, &TWO), NONE, NONE),
    (NONE, Compute(Nothing, b""), NONE, NONE),
    (LONG, Compute(NoKey, &NINE), NO_KEY, LONG),
    (LONG, Compute(Sum, &NINE), NO_OLD, LONG),
    (WAS, Compute(Sum, &NINE), NO_ARG, WAS),
    (NONE, Compute(Sum, &NINE), NO_ARG, NONE),
    (WAS, IfAbsent(NoKey, &TWO), WAS, WAS),
    (NONE, IfAbsent(Sum, &TWO), ARG, ARG),
    (WAS, IfPresent(Sum, &TWO), SUM, SUM),
    (WAS, IfPresent(Nothing, b""), NONE, NONE),
    (NONE, IfPresent(NoKey, b""), NONE, NONE),
    (WAS, Merge(&TWO, Sum), SUM, SUM),
    (NONE, Merge(&TWO, Sum), ARG, ARG),
    (WAS, Merge(&TWO, Nothing), NONE, NONE),
    (NONE, Merge(&NINE, Sum), LONG, LONG),
    (WAS, Merge(&NINE, Sum), NO_ARG, WAS),
];

/// The tables that rows run on: a whole table, or only bins of either kind.
pub(super) trait Tried: Sized {
    /// Opens it without an entry.
    fn opened(alloc: Global) -> Result<Self, Fail>;

    /// Makes a call on it.
    fn made(&mut self, call: &Call) -> Result<Reply, NoMemory>;
}

impl Tried for Striped {
    fn opened(alloc: Global) -> Result<Striped, Fail> {
        Ok(Striped::open(alloc, 4)?)
    }

    fn made(&mut self, call: &Call) -> Result<Reply, NoMemory> {
        self.apply(call)
    }
}

impl Tried for ListBins {
    fn opened(alloc: Global) -> Result<ListBins, Fail> {
        Ok(ListBins::open(alloc, 1)?)
    }

    fn made(&mut self, call: &Call) -> Result<Reply, NoMemory> {
        apply(self, call)
    }
}

impl Tried for HashedBins {
    fn opened(alloc: Global) -> Result<HashedBins, Fail> {
        Ok(HashedBins::open(alloc, 1)?)
    }

    fn made(&mut self, call: &Call) -> Result<Reply, NoMemory> {
        apply(self, call)
    }
}

/// A key and its neighbour in the table.
#[derive(Clone, Copy)]
pub(super) struct Names {
    pub(super) key: &'static [u8],
    pub(super) neighbour: &'static [u8],
}

/// One key is a beginning of the other.
pub(super) const BEGINNING: Names = Names {
    key: b"a",
    neighbour: b"ab",
};

/// Keys of one hash.
pub(super) const ONE_HASH: Names = Names {
    key: b"Aa",
    neighbour: b"BB",
};

/// Makes a call of the method on the key of this name.
pub(super) fn play<T: Tried>(
    table: &mut T,
    programs: &Programs,
    name: &[u8],
    method: Method,
) -> Result<Reply, Fail> {
    let lender = Lender::new(name, method)?;
    Ok(table.made(&lender.call(programs))?)
}

/// Puts an entry at the neighbour, and the key's first one.
fn fill<T: Tried>(
    table: &mut T,
    programs: &Programs,
    names: Names,
    before: Wanted,
) -> Result<(), Fail> {
    play(table, programs, names.neighbour, Put(b"other"))?;
    if let Bytes(bytes) = before {
        play(table, programs, names.key, Put(bytes))?;
    }
    Ok(())
}

/// Plays the row on an empty table. Tells whether its call gets the expected reply, and leaves the expected values at its key and
/// the neighbour.
fn is_kept<T: Tried>(
    table: &mut T,
    programs: &Programs,
    names: Names,
    row: &Row,
) -> Result<bool, Fail> {
    let (before, method, reply, after) = *row;
    fill(table, programs, names, before)?;
    let given = is_wanted(&play(table, programs, names.key, method)?, reply);
    let found = is_wanted(&play(table, programs, names.key, Get)?, after);
    let beside = play(table, programs, names.neighbour, Get)?;
    Ok(given && found && is_wanted(&beside, Bytes(b"other")))
}

/// Plays the row on a table of its own.
fn is_kept_anew<T: Tried + Drop>(
    alloc: Global,
    programs: &Programs,
    names: Names,
    row: &Row,
) -> Result<bool, Fail> {
    let mut table = T::opened(alloc)?;
    is_kept(&mut table, programs, names, row)
}

/// Plays each row on a table of its own.
fn try_rows<T: Tried + Drop>(
    rt: &impl Abort,
    alloc: Global,
    names: Names,
    rows: &[Row],
) -> Result<(), Fail> {
    let programs = Programs::new(alloc)?;
    for (number, row) in rows.iter().enumerate() {
        let kept = is_kept_anew::<T>(alloc, &programs, names, row)?;
        assert!(rt; kept, "row {number}");
    }
    Ok(())
}

/// Plays the rows on a table in stripes, and on bins of both kinds.
fn try_everywhere(rt: &impl Abort, alloc: Global, names: Names, rows: &[Row]) -> Result<(), Fail> {
    try_rows::<Striped>(rt, alloc, names, rows)?;
    try_rows::<ListBins>(rt, alloc, names, rows)?;
    try_rows::<HashedBins>(rt, alloc, names, rows)
}

#[test]
fn methods_without_programs(rt: HostRuntime) -> Result<(), Fail> {
    try_everywhere(&rt, rt.alloc(), BEGINNING, &PLAIN)?;
    try_everywhere(&rt, rt.alloc(), ONE_HASH, &PLAIN)
}

#[test]
fn methods_with_programs(rt: HostRuntime) -> Result<(), Fail> {
    try_everywhere(&rt, rt.alloc(), BEGINNING, &COMPUTING)?;
    try_everywhere(&rt, rt.alloc(), ONE_HASH, &COMPUTING)
}
