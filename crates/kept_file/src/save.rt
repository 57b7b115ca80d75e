//! What a save writes, in one transaction. After a fault drop the save: a commit would keep what was made before it.
ghost use Rattle.std.specs.Prelude.{◌≡◌, pos, [], ◌∷◌, IfOk, OnOk};
ghost use Rattle.sqlite.specs.Held.{state};
ghost use Rattle.sqlite.specs.State.{HasCleanDisk, Shown, Survives};
ghost use Rattle.sqlite.specs.Tree.{rowid};
ghost use Rattle.sqlite.specs.Values.{bound};
ghost use Rattle.sqlite.specs.declared.types.Value.TheVariants.{Blob};
ghost use Rattle.kept_file.specs.Content.{Appends, HasBatches, HasTables, batches_of, others_of};
ghost use Rattle.kept_file.specs.Rows.{kept_number, number, program_row, stripes_row};
ghost use Rattle.kept_file.specs.Saves.{Clears, Makes};

use crate::changes::Batch;
use crate::fault::{KeepFault, write_fault};
use crate::schema::{APPEND, FORMAT, NUMBERS, PROGRAM, REMOVE, SCHEMA, SCRIPT, SET};
use bpf_model::Sizes;
use sqlite::types::ValueRef;
use sqlite::{Alter, Row, Transaction, params};

/// A save in hand. The file on the disk stays as it was before the save began until `commit`, and for good if the save is
/// dropped. The faults of the calls below are `Unwritable` or `Full` if the disk failed, and `NoMemory` if a request for memory was
/// refused.
pub type Save<'file, S> = Transaction<'file, S>;

/// Returns the number as a file keeps it: itself, or the greatest that there is room for.
fn kept(n: u64) -> i64
    ensures { result ≡ pos (kept_number n) }
{
    i64::try_from(n).unwrap_or(i64::MAX)
}

fn run<S: Alter>(
    save: &mut Save<'_, S>,
    sql: &str,
    params: &[ValueRef<'_>],
) -> Result<(), KeepFault>
    ensures same_reference { save.new.conn.ghost_name ≡ save.old.conn.ghost_name }
    ensures made { HasCleanDisk (state S.Store save.new.conn.now) → OnOk result
        (Makes sql.now (bound params.now) (state S.Store save.old.conn.now) (state S.Store save.new.conn.now)) }
    ensures kept { Survives (state S.Store save.old.conn.now) (state S.Store save.new.conn.now) (λ _. ⊥) }
{
    match save.execute(sql, params) {
        Ok(_) => Ok(()),
        Err(error) => Err(write_fault(error)),
    }
}

/// Makes the tables of a new file, and their index.
pub(crate) fn make_tables<S: Alter>(save: &mut Save<'_, S>) -> Result<(), KeepFault> {
    for text in SCHEMA {
        run(save, text, &[])?;
    }
    run(save, SET, params!["format", kept(FORMAT)])
}

/// Notes how many stripes the map has.
pub fn set_stripes<S: Alter>(save: &mut Save<'_, S>, stripes: u64) -> Result<(), KeepFault>
    ensures same_reference { save.new.conn.ghost_name ≡ save.old.conn.ghost_name }
    ensures made { HasCleanDisk (state S.Store save.new.conn.now) → OnOk result
        (Makes SET.now (stripes_row (kept_number stripes)) (state S.Store save.old.conn.now) (state S.Store save.new.conn.now)) }
    ensures kept { Survives (state S.Store save.old.conn.now) (state S.Store save.new.conn.now) (λ _. ⊥) }
{
    run(save, SET, params!["stripes", kept(stripes)])
}

/// Returns the numbers of the batches of a stripe, each in a row of its own.
fn numbers_of<S: Alter>(save: &mut Save<'_, S>, stripe: u64) -> Result<Vec<Row>, KeepFault>
    ensures same_reference { save.new.conn.ghost_name ≡ save.old.conn.ghost_name }
    ensures shown { HasCleanDisk (state S.Store save.new.conn.now) → IfOk result
        (λ rows. Shown NUMBERS.now (number (kept_number stripe) ∷ []) (state S.Store save.old.conn.now) (state S.Store save.new.conn.now) rows.items) }
    ensures kept { Survives (state S.Store save.old.conn.now) (state S.Store save.new.conn.now) (λ _. ⊥) }
{
    match save.query_all(NUMBERS, params![kept(stripe)]) {
        Ok(rows) => Ok(rows),
        Err(error) => Err(write_fault(error)),
    }
}

/// Removes the batch with the number in this row.
fn remove<S: Alter>(save: &mut Save<'_, S>, row: &Row) -> Result<(), KeepFault>
    ensures same_reference { save.new.conn.ghost_name ≡ save.old.conn.ghost_name }
    ensures made { HasCleanDisk (state S.Store save.new.conn.now) → OnOk result
        (Makes REMOVE.now (rowid row.now ∷ []) (state S.Store save.old.conn.now) (state S.Store save.new.conn.now)) }
    ensures kept { Survives (state S.Store save.old.conn.now) (state S.Store save.new.conn.now) (λ _. ⊥) }
{
    let number: i64 = row.get(0).map_err(write_fault)?;
    run(save, REMOVE, params![number])
}

/// Takes away all batches of a stripe, one after the other.
pub fn start_anew<S: Alter>(save: &mut Save<'_, S>, stripe: u64) -> Result<(), KeepFault>
    ensures same_reference { save.new.conn.ghost_name ≡ save.old.conn.ghost_name }
    ensures made { HasCleanDisk (state S.Store save.new.conn.now) → OnOk result
        (Clears (state S.Store) (kept_number stripe) save.old.conn.now save.new.conn.now) }
    ensures batches { HasCleanDisk (state S.Store save.new.conn.now) → HasTables (state S.Store save.old.conn.now) → OnOk result
        (HasBatches (state S.Store save.new.conn.now) (others_of (kept_number stripe) (batches_of (state S.Store save.old.conn.now)))) }
    ensures kept { Survives (state S.Store save.old.conn.now) (state S.Store save.new.conn.now) (λ _. ⊥) }
{
    let numbers = numbers_of(save, stripe)?;
    for row in numbers.iter() {
        remove(save, row)?;
    }
    Ok(())
}

/// Makes the statement that enters a batch of a stripe.
fn enter<S: Alter>(save: &mut Save<'_, S>, stripe: u64, bytes: &[u8]) -> Result<(), KeepFault>
    ensures same_reference { save.new.conn.ghost_name ≡ save.old.conn.ghost_name }
    ensures made { HasCleanDisk (state S.Store save.new.conn.now) → OnOk result
        (Makes APPEND.now (number (kept_number stripe) ∷ Blob bytes.now ∷ []) (state S.Store save.old.conn.now) (state S.Store save.new.conn.now)) }
    ensures kept { Survives (state S.Store save.old.conn.now) (state S.Store save.new.conn.now) (λ _. ⊥) }
{
    run(save, APPEND, params![kept(stripe), bytes])
}

/// Enters a batch of changes of a stripe, after all batches that are there.
pub fn append<S: Alter>(save: &mut Save<'_, S>, stripe: u64, batch: &Batch) -> Result<(), KeepFault>
    ensures same_reference { save.new.conn.ghost_name ≡ save.old.conn.ghost_name }
    ensures made { HasCleanDisk (state S.Store save.new.conn.now) → OnOk result
        (Makes APPEND.now (number (kept_number stripe) ∷ Blob batch.now.bytes.items ∷ []) (state S.Store save.old.conn.now) (state S.Store save.new.conn.now)) }
    ensures batches { HasCleanDisk (state S.Store save.new.conn.now) → HasTables (state S.Store save.old.conn.now) → OnOk result
        (Appends (kept_number stripe) batch.now.bytes.items (state S.Store save.old.conn.now) (state S.Store save.new.conn.now)) }
    ensures kept { Survives (state S.Store save.old.conn.now) (state S.Store save.new.conn.now) (λ _. ⊥) }
{
    enter(save, stripe, batch.as_slice())
}

/// Adds a program. No program of the file may have its number: else `Damaged`, and nothing is added.
pub fn program<S: Alter>(
    save: &mut Save<'_, S>,
    number: u64,
    sizes: &Sizes,
    bytes: &[u8],
) -> Result<(), KeepFault>
    ensures same_reference { save.new.conn.ghost_name ≡ save.old.conn.ghost_name }
    ensures made { HasCleanDisk (state S.Store save.new.conn.now) → OnOk result
        (Makes PROGRAM.now (program_row (kept_number number) sizes.now bytes.now) (state S.Store save.old.conn.now) (state S.Store save.new.conn.now)) }
    ensures kept { Survives (state S.Store save.old.conn.now) (state S.Store save.new.conn.now) (λ _. ⊥) }
{
    let (key, old) = (i64::from(sizes.key), i64::from(sizes.old));
    let (arg, result) = (i64::from(sizes.arg), i64::from(sizes.result));
    run(
        save,
        PROGRAM,
        params![kept(number), key, old, arg, result, bytes],
    )
}

/// Adds a script, after those that the file has.
pub fn script<S: Alter>(save: &mut Save<'_, S>, text: &[u8]) -> Result<(), KeepFault>
    ensures same_reference { save.new.conn.ghost_name ≡ save.old.conn.ghost_name }
    ensures made { HasCleanDisk (state S.Store save.new.conn.now) → OnOk result
        (Makes SCRIPT.now (Blob text.now ∷ []) (state S.Store save.old.conn.now) (state S.Store save.new.conn.now)) }
    ensures kept { Survives (state S.Store save.old.conn.now) (state S.Store save.new.conn.now) (λ _. ⊥) }
{
    run(save, SCRIPT, params![text])
}
