//! What a call of `bpfmap` comes to, and how that is told.
ghost use Rattle.std.specs.Prelude.{◌≡◌};
ghost use Rattle.devices.specs.Devices.{CanWrite, TakesIfItCan};
ghost use Rattle.map_commands.specs.Endings.{outputs, Prints, PrintsRefusal, TellsEnding};

use crate::refusal::Refusal;
use crate::report::Report;
use devices::{Failed, Sink, write_all};

/// What a call of `bpfmap` comes to.
#[derive(Debug, Drop)]
pub enum Ending {
    /// A command's report that is no refusal: its text goes to standard output, and its status is the call's.
    Reported(Report),
    /// A refusal: status 1, with its line on standard output, and the line of its meaning on standard error.
    Refused(Refusal, String),
    /// A refusal with the text that goes to standard output, of which its line is the last; and its meaning.
    Explained(Vec<u8>, String),
    /// A request for memory was refused, which is told in the same way.
    NoMemory,
    /// A table may not have this number of stripes: number 50, told in the same way.
    BadStripes,
    /// The help or the version, which were asked for: status 0, with clap's text on standard output, as it is told.
    Shown(Vec<u8>),
    /// A fault of the words: status 2, with clap's text on standard error, as it is told.
    Faulty(Vec<u8>),
    /// Standard input could not be read: status 3.
    Unread,
    /// The words are not UTF-8: status 2.
    NotUtf8,
}

/// The status of a refusal.
pub const REFUSED: u8 = 1;

/// The status of a fault of the words.
const FAULT_OF_WORDS: u8 = 2;

/// The status of a failed read or write.
pub const FAILED_DEVICE: u8 = 3;

/// Prints the text, and answers this status, or that of a failed write.
fn print<W: Sink, E: Sink>(text: &[u8], status: u8, writer: &mut W, errors: &mut E) -> u8
    requires writes { CanWrite (W.state writer.old) }
    requires warns { CanWrite (E.state errors.old) }
    ensures { Prints text.now status (outputs (W.state writer.old) (E.state errors.old))
        (outputs (W.state writer.new) (E.state errors.new)) result }
{
    match write_all(writer, text) {
        Ok(()) => status,
        Err(Failed) => {
            let _ = write_all(errors, b"failed write\n");
            FAILED_DEVICE
        }
    }
}

/// Prints a refusal's line, writes its meaning to standard error, and answers the status, or that of a failed write.
pub fn refuse<W: Sink, E: Sink>(line: &[u8], meaning: &[u8], writer: &mut W, errors: &mut E) -> u8
    requires writes { CanWrite (W.state writer.old) }
    requires warns { CanWrite (E.state errors.old) }
    ensures { PrintsRefusal line.now meaning.now (outputs (W.state writer.old) (E.state errors.old))
        (outputs (W.state writer.new) (E.state errors.new)) result }
{
    match write_all(writer, line) {
        Ok(()) => warn(meaning, REFUSED, errors),
        Err(Failed) => warn(b"failed write\n", FAILED_DEVICE, errors),
    }
}

/// Writes the text to standard error, and answers this status. If standard error fails too, nobody is told.
pub fn warn<E: Sink>(text: &[u8], status: u8, errors: &mut E) -> u8
    requires { CanWrite (E.state errors.old) }
    ensures status { result ≡ status }
    ensures errors { TakesIfItCan (E.state errors.old) (E.state errors.new) text.now }
{
    let _ = write_all(errors, text);
    status
}

impl Ending {
    /// Tells it, and returns the status: 3 if standard output fails, of which standard error is told in one line.
    pub fn tell<W: Sink, E: Sink>(&self, writer: &mut W, errors: &mut E) -> u8
        requires writes { CanWrite (W.state writer.old) }
        requires warns { CanWrite (E.state errors.old) }
        ensures { TellsEnding self.now (outputs (W.state writer.old) (E.state errors.old))
            (outputs (W.state writer.new) (E.state errors.new)) result }
    {
        match self {
            Ending::Reported(Report::Text(text)) => print(text, 0, writer, errors),
            Ending::Reported(Report::Explained(text, _)) => print(text, REFUSED, writer, errors),
            Ending::Reported(report) => {
                print(report.line().as_slice(), report.status(), writer, errors)
            }
            Ending::Refused(refusal, meaning) => {
                let line = Report::Refused(*refusal).line();
                refuse(line.as_slice(), meaning.as_bytes(), writer, errors)
            }
            Ending::Explained(text, meaning) => refuse(text, meaning.as_bytes(), writer, errors),
            Ending::NoMemory => {
                let line = Report::Refused(Refusal::NoMemory).line();
                refuse(line.as_slice(), b"no memory\n", writer, errors)
            }
            Ending::BadStripes => {
                refuse(
                    b"refused 50 at 0\n",
                    b"not a number of stripes\n",
                    writer,
                    errors,
                )
            }
            Ending::Shown(text) => print(text, 0, writer, errors),
            Ending::Faulty(text) => warn(text, FAULT_OF_WORDS, errors),
            Ending::Unread => warn(b"failed read\n", FAILED_DEVICE, errors),
            Ending::NotUtf8 => {
                warn(
                    b"error: the command line is not UTF-8\n",
                    FAULT_OF_WORDS,
                    errors,
                )
            }
        }
    }
}
