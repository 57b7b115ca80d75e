//! The program `bpfmap`, over devices: it reads, does what the words ask for, prints, and gives the status.
ghost use Rattle.std.specs.Prelude.{◌≡◌, ◌≢◌, IfOk};
ghost use Rattle.std.specs.IoError.{error_kind};
ghost use Rattle.std.specs.declared.io.ErrorKind.TheVariants.{OutOfMemory};
ghost use Rattle.clap.specs.Walk.{texts};
ghost use Rattle.clap.specs.Words.{fault_of, HasKind};
ghost use Rattle.map_commands.specs.CommandLine.{bpfmap};
ghost use Rattle.map_commands.specs.Endings.{outputs, EndsReport, EndsCommand, EndsWords, TellsEnding};
ghost use Rattle.map_commands.specs.Executions.{RunsBpfmap};
ghost use Rattle.map_commands.specs.Shown.{IsShown};
ghost use Rattle.devices.specs.Devices.{CanRead, CanWrite};

use crate::commands::report_of;
use crate::ending::Ending;
use crate::exec::exec;
use crate::meaning::meaning_of;
use crate::report::Report;
use crate::shown::told;
use crate::words::{Command, Task, parse_words};
use bpf_model::NoMemory;
use clap::error::ErrorKind;
use devices::{Failed, ReadFault, Sink, Source, read_all};
use std::alloc::Global;
use std::io;
use std::sync::Wait;

/// What a report on this text comes to: a refusal has its meaning. If there is no memory for that, memory is what is
/// refused.
fn ending_of_report(alloc: Global, command: &Command<'_>, text: &[u8], report: Report) -> Ending
    ensures { EndsReport command.now text.now report result }
{
    match report {
        Report::Refused(refusal) => match meaning_of(alloc, command, text, refusal) {
            Ok(meaning) => Ending::Refused(refusal, meaning),
            Err(NoMemory) => Ending::NoMemory,
        },
        Report::Explained(printed, refusal) => match meaning_of(alloc, command, text, refusal) {
            Ok(meaning) => Ending::Explained(printed, meaning),
            Err(NoMemory) => Ending::NoMemory,
        },
        report => Ending::Reported(report),
    }
}

/// What comes of a command on all that the reader has left.
fn ending_of_command<R: Source>(alloc: Global, command: &Command<'_>, reader: &mut R) -> Ending
    requires { CanRead (R.state reader.old) }
    ensures { EndsCommand command.now (R.state reader.old) (R.state reader.new) result }
{
    match read_all(alloc, reader) {
        Ok(text) => match report_of(alloc, command, &text) {
            Ok(report) => ending_of_report(alloc, command, &text, report),
            Err(Failed) => Ending::Unread,
        },
        Err(ReadFault::NoMemory) => Ending::NoMemory,
        Err(ReadFault::Failed) => Ending::Unread,
    }
}

/// Clap's text for an error, with the words shown that it echoes.
pub fn told_error(alloc: Global, error: &clap::Error, words: &[&str]) -> Result<Vec<u8>, NoMemory>
    ensures { IfOk result (λ shown. IsShown (texts words.now) shown.items) }
{
    let text = error.to_string(alloc)?;
    told(alloc, &text, words)
}

/// What comes of words that ask for no command. If there is no memory for clap's text, that is refused.
fn ending_of_words(alloc: Global, error: &clap::Error, words: &[&str]) -> Ending
    ensures { HasKind (fault_of bpfmap (texts words.now)) error.now
        → EndsWords (texts words.now) result }
{
    if error.kind() == ErrorKind::OutOfMemory {
        return Ending::NoMemory;
    }
    match told_error(alloc, error, words) {
        Err(NoMemory) => Ending::NoMemory,
        Ok(text) if error.use_stderr() => Ending::Faulty(text),
        Ok(text) => Ending::Shown(text),
    }
}

/// Tells that the words of the command line could not be read, and answers the status. A refused request for memory is
/// printed as a refusal.
pub fn tell_unread_words<W: Sink, E: Sink>(error: &io::Error, writer: &mut W, errors: &mut E) -> u8
    requires writes { CanWrite (W.state writer.old) }
    requires warns { CanWrite (E.state errors.old) }
    ensures memory { error_kind error.now ≡ OutOfMemory
        → TellsEnding Ending.NoMemory (outputs (W.state writer.old) (E.state errors.old))
        (outputs (W.state writer.new) (E.state errors.new)) result }
    ensures words { (error_kind error.now ≢ OutOfMemory)
        → TellsEnding Ending.NotUtf8 (outputs (W.state writer.old) (E.state errors.old))
        (outputs (W.state writer.new) (E.state errors.new)) result }
{
    if error.kind() == io::ErrorKind::OutOfMemory {
        return Ending::NoMemory.tell(writer, errors);
    }
    Ending::NotUtf8.tell(writer, errors)
}

/// Does what the words ask for, of which the first is the program's name, and returns the status: 0 if it was done,
/// 1 for a refusal or a value that doesn't fit, 2 for a fault of the words, of which standard error is told in clap's
/// text, and 3 for a failed read or write, of which it is told in one line. A session waits for the reader, and no other
/// command does.
pub fn bpfmap_on<H: Wait, R: Source, W: Sink, E: Sink>(
    rt: &H,
    alloc: Global,
    words: &[&str],
    reader: &mut R,
    writer: &mut W,
    errors: &mut E,
) -> u8
    requires reads { CanRead (R.state reader.old) }
    requires writes { CanWrite (W.state writer.old) }
    requires warns { CanWrite (E.state errors.old) }
    ensures ends { RunsBpfmap (texts words.now) (R.state reader.old) (R.state reader.new)
        (outputs (W.state writer.old) (E.state errors.old))
        (outputs (W.state writer.new) (E.state errors.new)) result }
{
    let ending = match parse_words(alloc, words) {
        Ok(Task::Exec(stripes)) => return exec(rt, alloc, stripes, reader, writer, errors),
        Ok(Task::Report(command)) => ending_of_command(alloc, &command, reader),
        Err(error) => ending_of_words(alloc, &error, words),
    };
    ending.tell(writer, errors)
}
