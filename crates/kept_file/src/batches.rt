//! The batches of a file, read one after the other.
ghost use Rattle.std.specs.Prelude.{◌≡◌, ◌<◌, [], Some, false, map, IsTrue, IfOk, OnOk};
ghost use Rattle.sqlite.specs.Given.{row_if};
ghost use Rattle.sqlite.specs.Held.{state};
ghost use Rattle.sqlite.specs.State.{HasCleanDisk, Survives};
ghost use Rattle.kept_file.specs.Content.{HasTables, batches_of};
ghost use Rattle.kept_file.specs.Reading.{HandedOut, HandsOut, RisesTo, row_of};

use crate::fault::{KeepFault, read_fault};
use crate::query::{bytes_at, number_at};
use sqlite::{Alter, Connection, Row, Rows};
use std::alloc::Global;

pub(crate) const BATCHES: &str = "SELECT number, stripe, changes FROM batches";

const COLUMNS: usize = 3;

/// A batch of a file: changes of one stripe.
#[derive(Debug, Drop)]
pub struct KeptBatch {
    /// The later of two batches has the greater number. The first has at least 1.
    pub number: u64,
    /// The stripe, in a map of as many stripes as the file says.
    pub stripe: u64,
    /// The changes, as `KeptChange::read` reads them.
    pub bytes: Vec<u8>,
}

impl KeptBatch {
    /// Makes one with the number 0 and no changes, to be read into.
    pub fn new(alloc: Global) -> KeptBatch
        ensures number { result.number ≡ 0 }
    {
        KeptBatch {
            number: 0,
            stripe: 0,
            bytes: Vec::new(alloc),
        }
    }

    /// Reads a row. `Damaged` if it is no batch's; `NoMemory` if a request for memory was refused.
    #[tactic(auto, using(crate::proofs::RowLemmas::three))]
    fn read(&mut self, row: &Row) -> Result<(), KeepFault>
        ensures { OnOk result (row.now ≡ row_of self.new) }
    {
        if row.column_count() != COLUMNS {
            return Err(KeepFault::Damaged);
        }
        let bytes = bytes_at(row, 2)?;
        self.number = number_at(row, 0)?;
        self.stripe = number_at(row, 1)?;
        self.bytes.clear();
        self.bytes
            .extend_from_slice(bytes)
            .map_err(|_| KeepFault::NoMemory)
    }
}

/// The batches of a file, as they are read.
pub type Batches<'file, S> = Rows<'file, S>;

/// Begins to read the batches of the file that is connected so. The faults of `next`.
pub fn begin<'file, S: Alter>(
    conn: &'file mut Connection<S>,
) -> Result<Batches<'file, S>, KeepFault>
    ensures same_reference { IfOk result (λ batches. batches.conn.ghost_name ≡ conn.entry.ghost_name) }
    ensures begun { IfOk result (λ batches. HasCleanDisk (state S.Store batches.conn.now) → HandedOut S.Store conn.old batches.conn.now []) }
    ensures kept { IfOk result (λ batches. Survives (state S.Store conn.old) (state S.Store batches.conn.now) (λ _. ⊥)) }
{
    match conn.query(BATCHES, &[]) {
        Ok(batches) => Ok(batches),
        Err(error) => Err(read_fault(error)),
    }
}

/// Reads the next batch of a file whose map has this many stripes, and tells whether there was one. `batch` is as the last call left
/// it, or new. After the last, or a fault, don't go on. `Damaged` if a row is no batch's, its stripe is none of the map, or its number is
/// not above the last one's; `Unreadable` if the disk failed; `NoMemory` if a request for memory was refused.
pub fn next<S: Alter>(
    batches: &mut Batches<'_, S>,
    stripes: u64,
    batch: &mut KeptBatch,
) -> Result<bool, KeepFault>
    ensures row { IfOk result (λ found. IsTrue found → row_if batches.new.has_row batches.new.conn.now ≡ Some (row_of batch.new)) }
    ensures stripe { IfOk result (λ found. IsTrue found → batch.new.stripe < stripes) }
    ensures rises { IfOk result (λ found. IsTrue found → batch.old.number < batch.new.number) }
    ensures same_reference { batches.new.conn.ghost_name ≡ batches.old.conn.ghost_name }
    ensures hands { HasCleanDisk (state S.Store batches.new.conn.now) → IfOk result (λ found. HandsOut S.Store batches.old.conn.now batches.new.conn.now found (row_of batch.new)) }
    ensures all { HasCleanDisk (state S.Store batches.new.conn.now) → IfOk result (λ found. found ≡ false → (start last : _) (handed : _)
        → HandedOut S.Store start batches.old.conn.now handed → RisesTo handed last → HasTables (state S.Store start) → handed ≡ batches_of (state S.Store start)) }
    ensures kept { Survives (state S.Store batches.old.conn.now) (state S.Store batches.new.conn.now) (λ _. ⊥) }
{
    batches.advance().map_err(read_fault)?;
    let Some(row) = batches.get() else {
        return Ok(false);
    };
    let last = batch.number;
    batch.read(row)?;
    if batch.stripe >= stripes || batch.number <= last {
        return Err(KeepFault::Damaged);
    }
    Ok(true)
}
