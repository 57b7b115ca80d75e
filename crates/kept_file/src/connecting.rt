//! Opening the database at a path.
ghost use Rattle.std.specs.Prelude.{IfOk, IsTrue};
ghost use Rattle.sqlite.specs.Files.{file_state};
ghost use Rattle.sqlite.specs.State.{HasCleanDisk};
ghost use Rattle.sqlite_std_file.specs.File.{file_is_usable};
ghost use Rattle.kept_file.specs.Content.{IsJustOpened};

use crate::fault::{KeepFault, read_fault};
use sqlite::{Connection, File, FileFrom, FileStore, Files, Options, Start, Unknown};
use sqlite_std_file::OpenError;
use std::fs;
use std::hash::{BuildHasher, RandomState};
use std::io::{ErrorKind, Read};

/// The store of a file on the disk.
pub type OnDisk = FileStore<File>;

/// How many pages that were read are kept in memory. Batches are read one after the other, and each once.
const CACHE_PAGES: usize = 64;

/// How many pages that a save wrote are kept in memory before they go to the log beside the file.
const SPILL_PAGES: usize = 256;

/// Tells whether a file begins as a SQLite database does.
fn begins_as_database(rt: &HostRuntime, path: &str) -> bool {
    let Ok(mut file) = fs::File::open(rt, path) else {
        return false;
    };
    let mut first = [0u8; 16];
    file.read_exact(&mut first).is_ok() && first == *b"SQLite format 3\0"
}

/// Opens the file at a path, or makes it, and the log beside it. `Busy` if another process has them open, `NoMemory` if a request for
/// memory is refused, else `Unreadable`.
fn open_files<S: Start>(
    rt: &HostRuntime,
    path: &str,
    start: S,
) -> Result<Files<FileFrom<S>>, KeepFault>
    ensures { IfOk result (λ files. IsTrue (file_is_usable S.Start files.log) × IsTrue (file_is_usable S.Start files.db)) }
{
    if path == ":memory:" || path.starts_with("file:") {
        return Err(KeepFault::Unreadable);
    }
    match sqlite_std_file::open(rt, path, start) {
        Ok(files) => Ok(files),
        Err(OpenError::OutOfMemory) => Err(KeepFault::NoMemory),
        Err(OpenError::Busy) => Err(KeepFault::Busy),
        Err(OpenError::Io(error)) if error.kind() == ErrorKind::OutOfMemory => {
            Err(KeepFault::NoMemory)
        }
        Err(_) => Err(KeepFault::Unreadable),
    }
}

/// How a file is opened: with less memory than the kit would take, and a random number for the log. `Unreadable` if the system has none.
fn options(rt: &HostRuntime) -> Result<Options, KeepFault> {
    let Ok(random) = RandomState::new(rt) else {
        return Err(KeepFault::Unreadable);
    };
    Ok(Options {
        cache_pages: CACHE_PAGES,
        spill_pages: SPILL_PAGES,
        ..Options::new(random.hash_one(&0u8))
    })
}

/// Opens the database at a path, or makes an empty one.
pub(crate) fn connect(rt: &HostRuntime, path: &str) -> Result<Connection<OnDisk>, KeepFault>
    ensures { IfOk result (λ conn. HasCleanDisk (file_state conn) → IsJustOpened (file_state conn)) }
{
    let files = open_files(rt, path, Unknown)?;
    match Connection::open_files_with(rt.alloc(), files, options(rt)?, true) {
        Ok(conn) => Ok(conn),
        Err((error, _)) => match read_fault(error) {
            KeepFault::Damaged if !begins_as_database(rt, path) => Err(KeepFault::NotKept),
            fault => Err(fault),
        },
    }
}
