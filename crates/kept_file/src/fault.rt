//! Why a file cannot be used.
ghost use Rattle.std.specs.Prelude.{◌≡◌, ◌↔◌, unwrap_or};
ghost use Rattle.kept_file.specs.Faults.{IsRefused, failure_of, fault_of};

use sqlite::{Error as SqlError, ErrorCode};
use sqlite_resolve::CompileError;
use std::error::Error;
use std::fmt;

/// Why a file cannot be used. Its text goes after the file's name and a colon.
#[derive(Clone, Copy, Debug, PartialEq, Eq)]
pub enum KeepFault {
    /// It is not a file of this server's: no database, or one with other tables.
    NotKept,
    /// A later server wrote it: its format has this number.
    Newer { format: u64 },
    /// An earlier server wrote it: its format has this number.
    Older { format: u64 },
    /// Its bytes are damaged, or it has a row that no server writes.
    Damaged,
    /// A key has more than 64 bytes, or a value more than 1,024.
    TooLong,
    /// Another process has it open.
    Busy,
    /// It could not be opened or read.
    Unreadable,
    /// It could not be written.
    Unwritable,
    /// There is no room on the disk.
    Full,
    /// A request for memory was refused.
    NoMemory,
}

impl fmt::Display for KeepFault {
    fn fmt<W: fmt::Write>(&self, f: &mut fmt::Formatter<W>) -> fmt::Result {
        match self {
            KeepFault::NotKept => f.write_str("not a file of this server's"),
            KeepFault::Newer { format } => write!(f, "of a newer format ({format})"),
            KeepFault::Older { format } => write!(f, "of an older format ({format})"),
            KeepFault::Damaged => f.write_str("damaged"),
            KeepFault::TooLong => f.write_str("a key or a value in it is too long"),
            KeepFault::Busy => f.write_str("in use by another process"),
            KeepFault::Unreadable => f.write_str("cannot be read"),
            KeepFault::Unwritable => f.write_str("cannot be written"),
            KeepFault::Full => f.write_str("no room on the disk"),
            KeepFault::NoMemory => f.write_str("no memory"),
        }
    }
}

impl Error for KeepFault {}

/// What a commit that failed means.
impl From<SqlError> for KeepFault {
    fn from(error: SqlError) -> KeepFault
        ensures { result ≡ fault_of error }
    {
        write_fault(error)
    }
}

/// Returns what a failure of the database means, or `None` if the device failed.
fn known_failure(code: ErrorCode) -> Option<KeepFault>
    ensures memory { (result ≡ Some KeepFault.NoMemory) ↔ (code ≡ ErrorCode.OutOfMemory) }
    ensures value { unwrap_or result KeepFault.Unwritable ≡ failure_of code }
{
    match code {
        ErrorCode::OutOfMemory => Some(KeepFault::NoMemory),
        ErrorCode::DatabaseBusy => Some(KeepFault::Busy),
        ErrorCode::DiskFull => Some(KeepFault::Full),
        ErrorCode::NotADatabase | ErrorCode::DatabaseCorrupt | ErrorCode::ConstraintViolation(_) =>
            Some(KeepFault::Damaged),
        _ => None,
    }
}

/// Returns what an error means that came as the file was opened or read.
pub(crate) fn read_fault(error: SqlError) -> KeepFault
    ensures { (result ≡ KeepFault.NoMemory) ↔ IsRefused error }
{
    match error {
        SqlError::SqliteFailure(code) => known_failure(code).unwrap_or(KeepFault::Unreadable),
        SqlError::SqlInputError(CompileError::OutOfMemory) => KeepFault::NoMemory,
        _ => KeepFault::Damaged,
    }
}

/// Returns what an error means that came as the file was written.
pub(crate) fn write_fault(error: SqlError) -> KeepFault
    ensures memory { (result ≡ KeepFault.NoMemory) ↔ IsRefused error }
    ensures value { result ≡ fault_of error }
{
    match error {
        SqlError::SqliteFailure(code) => known_failure(code).unwrap_or(KeepFault::Unwritable),
        SqlError::SqlInputError(CompileError::OutOfMemory) => KeepFault::NoMemory,
        _ => KeepFault::Damaged,
    }
}
