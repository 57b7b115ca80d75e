//! What a file has in which a map is kept, as text.
//!
//! `tell_kept` opens the file, reads and tests all of it, and prints what it has. It makes no file.
#![tactic(auto)]

ghost use Rattle.devices.specs.Devices.{CanWrite};

use bpf_assembler::disassemble;
use bpf_decode::{DecodeFault, decode};
use bpf_model::NoMemory;
use devices::{Sink, write_all};
use kept_file::{EntryCounts, FORMAT, KeepFault, KeptFile, KeptProgram, OnDisk};
use std::alloc::{AllocError, Global};

/// The status of a file that is refused.
const REFUSED: u8 = 1;

/// The status of a file that cannot be read, and of a write that failed.
const FAILED_DEVICE: u8 = 3;

/// Why there is nothing to print.
#[derive(Clone, Copy, Debug)]
enum Refusal {
    Fault(KeepFault),
    NoMemory,
}

impl From<KeepFault> for Refusal {
    fn from(fault: KeepFault) -> Refusal {
        Refusal::Fault(fault)
    }
}

impl From<AllocError> for Refusal {
    fn from(_: AllocError) -> Refusal {
        Refusal::NoMemory
    }
}

/// Returns the file that this word names, if these are the words of a program, with no others.
pub fn kept_path<'a>(words: &[&'a str], word: &str) -> Option<&'a str> {
    if words.len() == 3 && words[1] == word {
        Some(words[2])
    } else {
        None
    }
}

/// Appends the lines on the entries.
fn tell_entries(
    alloc: Global,
    text: &mut String,
    stripes: u64,
    counts: &EntryCounts,
) -> Result<(), AllocError> {
    let EntryCounts {
        entries,
        deadlines,
        key_bytes,
        value_bytes,
    } = *counts;
    let lines = format!(in alloc;
        "format {FORMAT}\nstripes {stripes}\nentries {entries}\ndeadlines {deadlines}\nkey bytes {key_bytes}\nvalue bytes {value_bytes}\n"
    )?;
    text.push_str(lines.as_str())
}

/// Returns a program as the assembler's text, or a line that says that it is none.
fn program_text(alloc: Global, bytes: &[u8]) -> Result<String, AllocError> {
    match decode(alloc, bytes) {
        Ok(program) => disassemble(alloc, &program).map_err(|_| AllocError),
        Err(DecodeFault::NoMemory) => Err(AllocError),
        Err(fault) => format!(in alloc; "no program: {fault}\n"),
    }
}

/// Appends a program: a line with its number and sizes, and its text.
fn tell_program(alloc: Global, text: &mut String, program: &KeptProgram) -> Result<(), AllocError> {
    let number = program.number;
    let sizes = program.sizes;
    let (key, old, arg, result) = (sizes.key, sizes.old, sizes.arg, sizes.result);
    let line = format!(in alloc;
        "program {number}: --key {key} --old {old} --arg {arg} --result {result}\n"
    )?;
    text.push_str(line.as_str())?;
    text.push_str(program_text(alloc, program.bytes.as_slice())?.as_str())
}

/// Appends all programs.
fn tell_programs(
    alloc: Global,
    text: &mut String,
    programs: &[KeptProgram],
) -> Result<(), AllocError> {
    let count = programs.len();
    text.push_str(format!(in alloc; "programs {count}\n")?.as_str())?;
    for program in programs {
        tell_program(alloc, text, program)?;
    }
    Ok(())
}

/// Returns what the file has, as text.
fn text_of(alloc: Global, file: &mut KeptFile<OnDisk>) -> Result<String, Refusal> {
    let mut text = String::new(alloc);
    let stripes = file.stripes()?;
    let counts = file.count(alloc)?;
    tell_entries(alloc, &mut text, stripes, &counts)?;
    let scripts = file.scripts(alloc)?.len();
    text.push_str(format!(in alloc; "scripts {scripts}\n")?.as_str())?;
    let programs = file.programs(alloc)?;
    tell_programs(alloc, &mut text, programs.as_slice())?;
    text.push_str("sound\n")?;
    Ok(text)
}

/// Opens the file at a path, and returns what it has.
fn report(rt: &HostRuntime, path: &str) -> Result<String, Refusal> {
    let mut file = KeptFile::open_existing(rt, path)?;
    text_of(rt.alloc(), &mut file)
}

/// Returns the status that goes with a fault.
fn status_of(fault: KeepFault) -> u8 {
    match fault {
        KeepFault::Busy | KeepFault::Unreadable | KeepFault::Unwritable | KeepFault::Full =>
            FAILED_DEVICE,
        _ => REFUSED,
    }
}

/// Tells standard error why there is nothing to print, and returns the status.
fn tell_refusal<E: Sink>(alloc: Global, path: &str, refusal: Refusal, errors: &mut E) -> u8
    requires { CanWrite (E.state errors.old) }
{
    let Refusal::Fault(fault) = refusal else {
        let _ = write_all(errors, b"no memory\n");
        return REFUSED;
    };
    let _ = match format!(in alloc; "{path}: {fault}\n") {
        Ok(line) => write_all(errors, line.as_bytes()),
        Err(_) => write_all(errors, b"no memory\n"),
    };
    status_of(fault)
}

/// Prints what the file at a path has: its format, stripes, entries, deadlines and bytes, its scripts, its programs as the
/// assembler's text, and `sound`. Nothing is printed if the file is not sound: standard error then has its name and why. Returns the
/// status: 0; 1 if the file is refused or there is no memory; 3 if it cannot be read, is in use, or the text cannot be written.
pub fn tell_kept<W: Sink, E: Sink>(
    rt: &HostRuntime,
    path: &str,
    writer: &mut W,
    errors: &mut E,
) -> u8
    requires writes { CanWrite (W.state writer.old) }
    requires warns { CanWrite (E.state errors.old) }
{
    match report(rt, path) {
        Ok(text) => match write_all(writer, text.as_bytes()) {
            Ok(()) => 0,
            Err(_) => {
                let _ = write_all(errors, b"failed write\n");
                FAILED_DEVICE
            }
        },
        Err(refusal) => tell_refusal(rt.alloc(), path, refusal, errors),
    }
}
