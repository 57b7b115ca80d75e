//! Single numbers of a database, and columns of rows.
ghost use Rattle.std.specs.Prelude.{◌≡◌, IfOk, OnOk};
ghost use Rattle.sqlite.specs.Held.{state};
ghost use Rattle.sqlite.specs.Order.{column};
ghost use Rattle.sqlite.specs.State.{HasCleanDisk, IsUnchanged, Survives};
ghost use Rattle.sqlite.specs.declared.types.Value.TheVariants.{Blob};
ghost use Rattle.kept_file.specs.Reading.{OnlyReads};
ghost use Rattle.kept_file.specs.Rows.{number};

use crate::fault::{KeepFault, read_fault};
use sqlite::types::ValueRef;
use sqlite::{Alter, Connection, Error as SqlError, Row, params};

pub(crate) const SETTING: &str = "SELECT value FROM settings WHERE name = ?1";

/// Returns the number that a query shows first, if it shows any row.
pub(crate) fn number_of<S: Alter>(
    conn: &mut Connection<S>,
    sql: &str,
    params: &[ValueRef<'_>],
) -> Result<Option<u64>, SqlError>
    ensures same { OnlyReads sql.now → HasCleanDisk (state S.Store conn.new) → OnOk result (IsUnchanged (state S.Store conn.old) (state S.Store conn.new)) }
    ensures kept { OnlyReads sql.now → Survives (state S.Store conn.old) (state S.Store conn.new) (λ _. ⊥) }
{
    match conn.query_row(sql, params) {
        Ok(row) => Ok(Some(row.get(0)?)),
        Err(SqlError::QueryReturnedNoRows) => Ok(None),
        Err(error) => Err(error),
    }
}

/// Returns the number that a setting has, and 0 if it has none.
pub(crate) fn setting<S: Alter>(conn: &mut Connection<S>, name: &str) -> Result<u64, KeepFault>
    ensures same { HasCleanDisk (state S.Store conn.new) → OnOk result (IsUnchanged (state S.Store conn.old) (state S.Store conn.new)) }
    ensures kept { Survives (state S.Store conn.old) (state S.Store conn.new) (λ _. ⊥) }
{
    match number_of(conn, SETTING, params![name]) {
        Ok(number) => Ok(number.unwrap_or(0)),
        Err(error) => Err(read_fault(error)),
    }
}

/// Returns the bytes in a column. `Damaged` if it has no bytes.
pub(crate) fn bytes_at(row: &Row, at: usize) -> Result<&[u8], KeepFault>
    ensures { IfOk result (λ bytes. column row.now at ≡ Blob bytes.now) }
{
    match row.get_ref(at) {
        Ok(ValueRef::Blob(bytes)) => Ok(bytes),
        _ => Err(KeepFault::Damaged),
    }
}

/// Returns the number in a column. `Damaged` if it has none, or a negative one.
pub(crate) fn number_at(row: &Row, at: usize) -> Result<u64, KeepFault>
    ensures { IfOk result (λ n. column row.now at ≡ number n) }
{
    row.get(at).map_err(read_fault)
}
