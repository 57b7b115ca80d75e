//! Whether a file has the tables of a new one, by its own list of its objects.
ghost use Rattle.std.specs.Prelude.{◌≡◌, codes, IsTrue, OnOk};
ghost use Rattle.sqlite.specs.Held.{state};
ghost use Rattle.sqlite.specs.Order.{column};
ghost use Rattle.sqlite.specs.State.{HasCleanDisk, IsUnchanged, Survives};
ghost use Rattle.sqlite.specs.declared.types.Value.TheVariants.{Null, Text};
ghost use Rattle.kept_file.specs.Content.{ListsKept};
ghost use Rattle.kept_file.specs.Rows.{number as a_number};
ghost use Rattle.kept_file.specs.Tables.{kept_objects, object_row, table_row};

use crate::fault::KeepFault;
use crate::query::number_at;
use crate::rows::all_rows;
use crate::schema::{BATCHES, BATCHES_BY_STRIPE, PROGRAMS, SCRIPTS, SETTINGS};
use sqlite::types::ValueRef;
use sqlite::{Alter, Connection, Row};

pub(crate) const OBJECTS: &str = "SELECT rowid, type, name, tbl_name, sql FROM sqlite_schema";

/// How many columns an object's row has.
const COLUMNS: usize = 5;

/// Tests whether the column has this text.
fn has_text(row: &Row, at: usize, text: &str) -> bool
    ensures { IsTrue result → column row.now at ≡ Text text.now }
{
    match row.get_ref(at) {
        Ok(ValueRef::Text(found)) => found == text.as_bytes(),
        _ => false,
    }
}

/// Tests whether the column has nothing.
fn has_nothing(row: &Row, at: usize) -> bool
    ensures { IsTrue result → column row.now at ≡ Null }
{
    matches!(row.get_ref(at), Ok(ValueRef::Null))
}

/// Tests whether the column has this number.
fn has_number(row: &Row, at: usize, number: u64) -> bool
    ensures { IsTrue result → column row.now at ≡ a_number number }
{
    matches!(number_at(row, at), Ok(found) if found == number)
}

/// Tests whether the row is that of the table that this text makes, under this number in the list.
#[tactic(auto, using(crate::proofs::RowLemmas::five))]
fn is_table(row: &Row, number: u64, name: &str, made_by: &str) -> bool
    ensures { IsTrue result → row.now ≡ table_row number name.now made_by.now }
{
    row.column_count() == COLUMNS
        && has_number(row, 0, number)
        && has_text(row, 1, "table")
        && has_text(row, 2, name)
        && has_text(row, 3, name)
        && has_text(row, 4, made_by)
}

/// Tests whether the row is that of the index of a table's key, under this number in the list.
#[tactic(auto, using(crate::proofs::RowLemmas::five))]
fn is_key(row: &Row, number: u64, name: &str, table: &str) -> bool
    ensures { IsTrue result → row.now ≡ object_row number (codes "index") name.now table.now Null }
{
    row.column_count() == COLUMNS
        && has_number(row, 0, number)
        && has_text(row, 1, "index")
        && has_text(row, 2, name)
        && has_text(row, 3, table)
        && has_nothing(row, 4)
}

/// Tests whether the row is that of the index of a table that this text makes, under this number in the list.
#[tactic(auto, using(crate::proofs::RowLemmas::five))]
fn is_index(row: &Row, number: u64, name: &str, table: &str, made_by: &str) -> bool
    ensures { IsTrue result → row.now ≡ object_row number (codes "index") name.now table.now (Text made_by.now) }
{
    row.column_count() == COLUMNS
        && has_number(row, 0, number)
        && has_text(row, 1, "index")
        && has_text(row, 2, name)
        && has_text(row, 3, table)
        && has_text(row, 4, made_by)
}

/// `NotKept` if this is false.
fn expect(holds: bool) -> Result<(), KeepFault>
    ensures { OnOk result (IsTrue holds) }
{
    if holds {
        Ok(())
    } else {
        Err(KeepFault::NotKept)
    }
}

/// Tests the rows of a file's objects. `NotKept` if they are not those of a new file, in their order.
fn expect_kept(rows: &[Row]) -> Result<(), KeepFault>
    ensures { OnOk result (rows.now ≡ kept_objects) }
{
    let [
        settings,
        settings_key,
        programs,
        scripts,
        batches,
        by_stripe,
    ] = rows
    else {
        return Err(KeepFault::NotKept);
    };
    expect(is_table(settings, 1, "settings", SETTINGS))?;
    expect(is_key(settings_key, 2, "sqlite_autoindex_settings_1", "settings"))?;
    expect(is_table(programs, 3, "programs", PROGRAMS))?;
    expect(is_table(scripts, 4, "scripts", SCRIPTS))?;
    expect(is_table(batches, 5, "batches", BATCHES))?;
    expect(is_index(
        by_stripe,
        6,
        "batches_by_stripe",
        "batches",
        BATCHES_BY_STRIPE,
    ))
}

/// Tests a file's list of its objects. `NotKept` if it is not that of a new file, else the faults of `read_fault`.
pub(crate) fn expect_kept_objects<S: Alter>(conn: &mut Connection<S>) -> Result<(), KeepFault>
    ensures lists { HasCleanDisk (state S.Store conn.new) → OnOk result (ListsKept (state S.Store conn.old)) }
    ensures same { HasCleanDisk (state S.Store conn.new) → OnOk result (IsUnchanged (state S.Store conn.old) (state S.Store conn.new)) }
    ensures kept { Survives (state S.Store conn.old) (state S.Store conn.new) (λ _. ⊥) }
{
    let rows = all_rows(conn, OBJECTS)?;
    expect_kept(rows.as_slice())
}
