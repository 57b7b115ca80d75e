//! A file that is open.
ghost use Rattle.std.specs.Prelude.{◌≡◌, map, true, IfOk, OnOk};
ghost use Rattle.std.specs.Borrow.{sem};
ghost use Rattle.sqlite.specs.Held.{state};
ghost use Rattle.sqlite.specs.Files.{file_state};
ghost use Rattle.sqlite.specs.State.{HasCleanDisk, IsUnchanged, Survives};
ghost use Rattle.kept_file.specs.Content.{HasTables, ListsKept};
ghost use Rattle.kept_file.specs.Lending.{LendsConnection};
ghost use Rattle.kept_file.specs.Reading.{HasPrograms, HasScripts};

use crate::batches;
use crate::connecting::{OnDisk, connect};
use crate::counts::{self, EntryCounts};
use crate::fault::{KeepFault, read_fault, write_fault};
use crate::query::{number_of, setting};
use crate::rows::{self, KeptProgram};
use crate::save::{Save, make_tables};
use crate::schema::FORMAT;
use crate::tables::expect_kept_objects;
use sqlite::{Alter, Connection};
use std::alloc::Global;
use std::fs;

pub(crate) const COUNT_OBJECTS: &str = "SELECT count(*) FROM sqlite_schema";

/// A file that is open. Nobody else can open it until it is dropped or closed.
pub struct KeptFile<S: Alter> {
    conn: Connection<S>,
}

impl<S: Alter + Drop> Drop for KeptFile<S> {
    fn drop(self) {
        let KeptFile { conn: _ } = self;
    }
}

impl KeptFile<OnDisk> {
    /// Opens the file at a path, and makes it if there is none, or if it is empty. The whole file is read and tested. A file that is
    /// refused stays as it is. `NotKept`, `Newer`, `Older`, `Damaged` and `Busy` as they say; `Unreadable` if it cannot be opened or read,
    /// `Unwritable` or `Full` if a new one cannot be written, `NoMemory` if a request for memory is refused.
    pub fn open(rt: &HostRuntime, path: &str) -> Result<KeptFile<OnDisk>, KeepFault>
        ensures tables { IfOk result (λ file. HasCleanDisk (file_state file.conn) → HasTables (file_state file.conn)) }
    {
        let mut file = KeptFile {
            conn: connect(rt, path)?,
        };
        if !file.has_no_tables()? {
            file.check()?;
            return Ok(file);
        }
        file.make()?;
        file.close()?;
        KeptFile::open_made(rt, path)
    }

    /// Opens a database, and tests that it has the tables that `make` makes. The faults of `check` beside those of `connect`.
    fn open_made(rt: &HostRuntime, path: &str) -> Result<KeptFile<OnDisk>, KeepFault>
        ensures tables { IfOk result (λ file. HasCleanDisk (file_state file.conn) → HasTables (file_state file.conn)) }
    {
        let mut file = KeptFile {
            conn: connect(rt, path)?,
        };
        file.check()?;
        Ok(file)
    }

    /// Opens a file that is there, and makes none: `Unreadable` if there is none. The faults of `open` beside this one.
    pub fn open_existing(rt: &HostRuntime, path: &str) -> Result<KeptFile<OnDisk>, KeepFault>
        ensures tables { IfOk result (λ file. HasCleanDisk (file_state file.conn) → HasTables (file_state file.conn)) }
    {
        match fs::metadata(rt, path) {
            Ok(found) if found.len() == 0 => return Err(KeepFault::NotKept),
            Ok(_) => {}
            Err(_) => return Err(KeepFault::Unreadable),
        }
        KeptFile::open_made(rt, path)
    }

    /// Closes the file, which then has all that was saved: the log beside it can be left behind. If this fails, the two together
    /// still have it.
    pub fn close(self) -> Result<(), KeepFault> {
        let KeptFile { conn } = self;
        conn.close().map_err(write_fault)
    }
}

impl<S: Alter> KeptFile<S> {
    /// Tells whether the database has no tables.
    fn has_no_tables(&mut self) -> Result<bool, KeepFault>
        ensures same { HasCleanDisk (state S.Store self.new.conn) → OnOk result (IsUnchanged (state S.Store self.old.conn) (state S.Store self.new.conn)) }
        ensures kept { Survives (state S.Store self.old.conn) (state S.Store self.new.conn) (λ _. ⊥) }
    {
        match number_of(&mut self.conn, COUNT_OBJECTS, &[]) {
            Ok(objects) => Ok(objects == Some(0)),
            Err(error) => Err(read_fault(error)),
        }
    }

    /// Makes the tables, in one transaction.
    fn make(&mut self) -> Result<(), KeepFault> {
        let mut save = self.begin()?;
        make_tables(&mut save)?;
        save.commit().map_err(write_fault)
    }

    /// Tests whether the database has the tables that `make` makes. `Newer` if a later server made it, `Older` if an earlier one; else
    /// `NotKept`.
    fn check(&mut self) -> Result<(), KeepFault>
        ensures lists { HasCleanDisk (state S.Store self.new.conn) → OnOk result (ListsKept (state S.Store self.old.conn)) }
        ensures same { HasCleanDisk (state S.Store self.new.conn) → OnOk result (IsUnchanged (state S.Store self.old.conn) (state S.Store self.new.conn)) }
        ensures kept { Survives (state S.Store self.old.conn) (state S.Store self.new.conn) (λ _. ⊥) }
    {
        match setting(&mut self.conn, "format") {
            Ok(FORMAT) => expect_kept_objects(&mut self.conn),
            Ok(format) if format > FORMAT => Err(KeepFault::Newer { format }),
            Ok(format) if format > 0 => Err(KeepFault::Older { format }),
            Err(KeepFault::NoMemory) => Err(KeepFault::NoMemory),
            Err(KeepFault::Unreadable) => Err(KeepFault::Unreadable),
            _ => Err(KeepFault::NotKept),
        }
    }

    /// Returns how many stripes the map had that was saved last, and 0 if none was saved yet.
    pub fn stripes(&mut self) -> Result<u64, KeepFault>
        ensures same { HasCleanDisk (state S.Store self.new.conn) → OnOk result (IsUnchanged (state S.Store self.old.conn) (state S.Store self.new.conn)) }
        ensures kept { Survives (state S.Store self.old.conn) (state S.Store self.new.conn) (λ _. ⊥) }
    {
        setting(&mut self.conn, "stripes")
    }

    /// Reads the programs in the order of their numbers, which are 0, 1 and so on. `Damaged` if one is missing, or a row is no
    /// program's; `Unreadable` if the disk failed; `NoMemory` if a request for memory was refused.
    pub fn programs(&mut self, alloc: Global) -> Result<Vec<KeptProgram>, KeepFault>
        ensures all { HasCleanDisk (state S.Store self.new.conn) → IfOk result (λ programs. HasPrograms (state S.Store self.old.conn) programs.items) }
        ensures same { HasCleanDisk (state S.Store self.new.conn) → OnOk result (IsUnchanged (state S.Store self.old.conn) (state S.Store self.new.conn)) }
        ensures kept { Survives (state S.Store self.old.conn) (state S.Store self.new.conn) (λ _. ⊥) }
    {
        rows::programs(alloc, &mut self.conn)
    }

    /// Reads the texts of the scripts in the order in which they were loaded. The faults of `programs`.
    pub fn scripts(&mut self, alloc: Global) -> Result<Vec<Vec<u8>>, KeepFault>
        ensures all { HasCleanDisk (state S.Store self.new.conn) → IfOk result (λ texts. HasScripts (state S.Store self.old.conn) (map (λ text. text.items) texts.items)) }
        ensures same { HasCleanDisk (state S.Store self.new.conn) → OnOk result (IsUnchanged (state S.Store self.old.conn) (state S.Store self.new.conn)) }
        ensures kept { Survives (state S.Store self.old.conn) (state S.Store self.new.conn) (λ _. ⊥) }
    {
        rows::scripts(alloc, &mut self.conn)
    }

    /// Reads all batches, tests each, and counts the entries that they come to. The faults of `batches::next`, and those of
    /// `KeptChange::read`.
    pub fn count(&mut self, alloc: Global) -> Result<EntryCounts, KeepFault> {
        let stripes = self.stripes()?;
        let mut batches = batches::begin(&mut self.conn)?;
        counts::count(alloc, &mut batches, stripes)
    }

    /// Returns the connection to the database, for a transaction. If it is no save's, the file may have what no other call here reads.
    pub fn connection(&mut self) -> &mut Connection<S>
        ensures* lends { sem 𝓛 (LendsConnection S.row S.Store self.entry result) }
        ensures value { result.now ≡ self.old.conn }
    {
        &mut self.conn
    }

    /// Begins a save, which `commit` ends. `Unwritable` if an earlier one has not ended, which cannot be.
    fn begin(&mut self) -> Result<Save<'_, S>, KeepFault>
        ensures { IfOk result (λ save. save.conn.now ≡ record self.old.conn { in_transaction = true }) }
    {
        if !self.conn.is_autocommit() {
            return Err(KeepFault::Unwritable);
        }
        Ok(self.conn.transaction())
    }
}
