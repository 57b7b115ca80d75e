//! Programs and scripts, as a file has them.
ghost use Rattle.std.specs.Prelude.{◌≡◌, [], map, IfOk, OnOk};
ghost use Rattle.sqlite.specs.Held.{state};
ghost use Rattle.sqlite.specs.Order.{column};
ghost use Rattle.sqlite.specs.State.{HasCleanDisk, IsUnchanged, Shown, Survives};
ghost use Rattle.sqlite.specs.declared.types.Value.TheVariants.{Blob};
ghost use Rattle.kept_file.specs.Reading.{HasPrograms, HasScripts, OnlyReads};
ghost use Rattle.kept_file.specs.Rows.{number, program_row};

use crate::fault::{KeepFault, read_fault};
use crate::query::{bytes_at, number_at};
use bpf_model::Sizes;
use sqlite::{Alter, Connection, Row};
use std::alloc::Global;

pub(crate) const PROGRAMS: &str =
    "SELECT number, key_size, old_size, arg_size, result_size, bytes FROM programs ORDER BY number";

pub(crate) const SCRIPTS: &str = "SELECT number, text FROM scripts ORDER BY number";

/// How many columns a program's row has.
const COLUMNS: usize = 6;

/// A program as it was registered.
#[derive(Debug, Drop)]
pub struct KeptProgram {
    /// Its number: the first that was registered has 0, the next 1.
    pub number: u64,
    /// The sizes that it was verified with.
    pub sizes: Sizes,
    /// Its bytes, as they were sent.
    pub bytes: Vec<u8>,
}

/// Returns the size in a column. `Damaged` if it has none of 16 bits.
fn size_at(row: &Row, at: usize) -> Result<u16, KeepFault>
    ensures { IfOk result (λ n. column row.now at ≡ number n) }
{
    u16::try_from(number_at(row, at)?).map_err(|_| KeepFault::Damaged)
}

/// Returns a copy of the bytes in a column. `Damaged` if it has no bytes.
fn copy_at(alloc: Global, row: &Row, at: usize) -> Result<Vec<u8>, KeepFault>
    ensures { IfOk result (λ bytes. column row.now at ≡ Blob bytes.items) }
{
    Vec::from_slice(alloc, bytes_at(row, at)?).map_err(|_| KeepFault::NoMemory)
}

/// Reads a row. `Damaged` if it is no program's.
#[tactic(auto, using(crate::proofs::RowLemmas::six))]
fn program_of(alloc: Global, row: &Row) -> Result<KeptProgram, KeepFault>
    ensures { IfOk result (λ it. row.now ≡ program_row it.number it.sizes it.bytes.items) }
{
    if row.column_count() != COLUMNS {
        return Err(KeepFault::Damaged);
    }
    Ok(KeptProgram {
        number: number_at(row, 0)?,
        sizes: Sizes {
            key: size_at(row, 1)?,
            old: size_at(row, 2)?,
            arg: size_at(row, 3)?,
            result: size_at(row, 4)?,
        },
        bytes: copy_at(alloc, row, 5)?,
    })
}

/// Returns all rows that a query shows.
pub(crate) fn all_rows<S: Alter>(conn: &mut Connection<S>, sql: &str) -> Result<Vec<Row>, KeepFault>
    requires { OnlyReads sql.now }
    ensures all { HasCleanDisk (state S.Store conn.new) → IfOk result (λ rows. Shown sql.now [] (state S.Store conn.old) (state S.Store conn.old) rows.items) }
    ensures same { HasCleanDisk (state S.Store conn.new) → OnOk result (IsUnchanged (state S.Store conn.old) (state S.Store conn.new)) }
    ensures kept { Survives (state S.Store conn.old) (state S.Store conn.new) (λ _. ⊥) }
{
    match conn.query_all(sql, &[]) {
        Ok(rows) => Ok(rows),
        Err(error) => Err(read_fault(error)),
    }
}

/// Reads the programs in the order of their numbers, which are 0, 1 and so on. `Damaged` if one is missing or is none.
pub(crate) fn programs<S: Alter>(
    alloc: Global,
    conn: &mut Connection<S>,
) -> Result<Vec<KeptProgram>, KeepFault>
    ensures all { HasCleanDisk (state S.Store conn.new) → IfOk result (λ programs. HasPrograms (state S.Store conn.old) programs.items) }
    ensures same { HasCleanDisk (state S.Store conn.new) → OnOk result (IsUnchanged (state S.Store conn.old) (state S.Store conn.new)) }
    ensures kept { Survives (state S.Store conn.old) (state S.Store conn.new) (λ _. ⊥) }
{
    let rows = all_rows(conn, PROGRAMS)?;
    let mut programs = Vec::new(alloc);
    let mut next = 0u64;
    'rows: for row in rows.iter() {
        let program = program_of(alloc, row)?;
        if program.number != next {
            return Err(KeepFault::Damaged);
        }
        next = next.wrapping_add(1);
        programs.push(program).map_err(|_| KeepFault::NoMemory)?;
    }
    Ok(programs)
}

/// Reads the texts of the scripts in the order in which they were loaded.
pub(crate) fn scripts<S: Alter>(
    alloc: Global,
    conn: &mut Connection<S>,
) -> Result<Vec<Vec<u8>>, KeepFault>
    ensures all { HasCleanDisk (state S.Store conn.new) → IfOk result (λ texts. HasScripts (state S.Store conn.old) (map (λ text. text.items) texts.items)) }
    ensures same { HasCleanDisk (state S.Store conn.new) → OnOk result (IsUnchanged (state S.Store conn.old) (state S.Store conn.new)) }
    ensures kept { Survives (state S.Store conn.old) (state S.Store conn.new) (λ _. ⊥) }
{
    let rows = all_rows(conn, SCRIPTS)?;
    let mut scripts = Vec::new(alloc);
    'rows: for row in rows.iter() {
        let text = copy_at(alloc, row, 1)?;
        scripts.push(text).map_err(|_| KeepFault::NoMemory)?;
    }
    Ok(scripts)
}
