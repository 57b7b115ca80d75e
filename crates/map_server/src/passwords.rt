//! The password that clients of commands have to show: the first line of a file.
ghost use Rattle.std.specs.Prelude.{◌≡◌, ◌≤◌, length, true, is_some, IfOk, IfErr};
ghost use Rattle.devices.specs.Devices.{CanWrite};

use crate::words::MapdWords;
use devices::Sink;
use map_commands::{FAILED_DEVICE, warn};
use map_keeper::HostFiles;
use memchr::memchr;
use server_state::{PASSWORD_BYTES, Password};
use std::alloc::{AllocError, Global};
use std::io::{self, Read};
use std::{fmt, fs};

/// Room for the longest password, and for the end of its line.
const ROOM_BYTES: usize = PASSWORD_BYTES + 2;

/// Reads the file in which a password is.
pub trait PasswordFiles {
    /// Reads the first bytes of the file at this path, as many as there is room for, and returns how many there are. An error is the
    /// system's.
    fn read_start(&self, path: &str, room: &mut [u8]) -> io::Result<usize>
        ensures within { IfOk result (λ count. count ≤ length room.old) }
        ensures length { length room.new ≡ length room.old };
}

/// Reads until the room is full, or nothing more comes.
fn fill<R: Read>(reader: &mut R, room: &mut [u8]) -> io::Result<usize>
    ensures within { IfOk result (λ count. count ≤ length room.old) }
    ensures length { length room.new ≡ length room.old }
{
    let mut filled = 0;
    for _ in 0..room.len() {
        let count = reader.read(&mut room[filled..])?;
        if count == 0 {
            return Ok(filled);
        }
        filled += count;
    }
    Ok(filled)
}

impl PasswordFiles for HostFiles<'_> {
    fn read_start(&self, path: &str, room: &mut [u8]) -> io::Result<usize> {
        let mut file = fs::File::open(self.rt, path)?;
        fill(&mut file, room)
    }
}

/// Why there is no password.
#[derive(Debug, Drop)]
pub(crate) enum PasswordFault {
    /// The system says why the file can't be read.
    Unreadable(io::Error),
    /// The first line has none, or more than `PASSWORD_BYTES`.
    BadLength,
}

impl fmt::Display for PasswordFault {
    fn fmt<W: fmt::Write>(&self, f: &mut fmt::Formatter<W>) -> fmt::Result {
        match self {
            PasswordFault::Unreadable(error) => write!(f, "{error}"),
            PasswordFault::BadLength => {
                write!(
                    f,
                    "the first line is no password of 1 to {PASSWORD_BYTES} bytes"
                )
            }
        }
    }
}

/// Returns the first line of these bytes, without its end.
fn first_line(bytes: &[u8]) -> &[u8] {
    let line = match memchr(b'\n', bytes) {
        Some(end) => &bytes[..end],
        None => bytes,
    };
    match line {
        [text @ .., b'\r'] => text,
        _ => line,
    }
}

/// Reads the password of the file at this path.
fn password_in<K: PasswordFiles>(files: &K, path: &str) -> Result<Password, PasswordFault> {
    let mut room = [0; ROOM_BYTES];
    let count = match files.read_start(path, &mut room) {
        Ok(count) => count,
        Err(error) => return Err(PasswordFault::Unreadable(error)),
    };
    match Password::new(first_line(&room[..count])) {
        Some(password) => Ok(password),
        None => Err(PasswordFault::BadLength),
    }
}

/// Reads the password of the file that is asked for, if one is.
pub(crate) fn given_password<K: PasswordFiles>(
    files: &K,
    asked: &MapdWords,
) -> Result<Option<Password>, PasswordFault>
    ensures some { IfOk result (λ password. is_some password ≡ is_some asked.now.password_file) }
    ensures err { IfErr result (λ _. is_some asked.now.password_file ≡ true) }
{
    match &asked.password_file {
        None => Ok(None),
        Some(path) => Ok(Some(password_in(files, path.as_str())?)),
    }
}

/// The line that tells of a fault of the file.
fn fault_line(alloc: Global, path: &str, fault: &PasswordFault) -> Result<String, AllocError> {
    format!(in alloc; "{path}: {fault}\n")
}

/// Tells standard error why there is no password, and answers the status.
pub(crate) fn tell_no_password<E: Sink>(
    alloc: Global,
    asked: &MapdWords,
    fault: &PasswordFault,
    errors: &mut E,
) -> u8
    requires { CanWrite (E.state errors.old) }
    ensures { result ≡ 3 }
{
    let path = match &asked.password_file {
        Some(path) => path.as_str(),
        None => "",
    };
    match fault_line(alloc, path, fault) {
        Ok(line) => warn(line.as_bytes(), FAILED_DEVICE, errors),
        Err(AllocError) => warn(b"there is no password\n", FAILED_DEVICE, errors),
    }
}
