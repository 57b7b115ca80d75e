//! Why a stream of commands is refused.
ghost use Rattle.std.specs.Prelude.{◌≡◌};
ghost use Rattle.resp.specs.Faults.{fault_message, shown as shown_as};

use crate::short::{SHORT_BYTES, put};
use arrayvec::ArrayVec;
use std::alloc::AllocError;

/// What is wrong with the bytes of a command. After a fault nothing more is read from the stream.
#[derive(Clone, Copy, Debug, PartialEq, Eq)]
pub enum RespFault {
    /// The number of words isn't one, or is above the limit.
    BadCount,
    /// This byte is in place of the `$` of a word.
    NoDollar(u8),
    /// The length of a word isn't a number, or is above a word's limit.
    BadLength,
    /// Less is left of the command's limit than a word may have, and the length of a word isn't a number up to that.
    TooBigCommand,
    /// A word isn't followed by `\r\n`.
    NoNewline,
    /// A line is above the limit.
    TooBigLine,
    /// The quotes in a line aren't balanced, or there is more of a word after them.
    UnbalancedQuotes,
    /// A line has more words than the limit.
    TooManyWords,
}

/// Why no command was read.
#[derive(Clone, Copy, Debug, PartialEq, Eq)]
pub enum NextFault {
    /// The bytes have this fault, whatever follows them.
    Faulty(RespFault),
    /// A request for memory was refused.
    NoMemory,
}

impl From<AllocError> for NextFault {
    ghost use Rattle.std.specs.Prelude.{◌≡◌};
    ghost use Rattle.resp.specs.declared.fault.NextFault.TheVariants.{NoMemory};

    ghost from_gives = { λ _ fault. fault ≡ NoMemory };

    fn from(_: AllocError) -> NextFault {
        NextFault::NoMemory
    }
}

impl From<RespFault> for NextFault {
    ghost use Rattle.std.specs.Prelude.{◌≡◌};
    ghost use Rattle.resp.specs.declared.fault.NextFault.TheVariants.{Faulty};

    ghost from_gives = { λ fault next. next ≡ Faulty fault };

    fn from(fault: RespFault) -> NextFault {
        NextFault::Faulty(fault)
    }
}

/// Returns the byte as a message shows it: a blank for an end of a line.
fn shown(byte: u8) -> u8
    ensures { result ≡ shown_as byte }
{
    if byte == b'\r' || byte == b'\n' {
        b' '
    } else {
        byte
    }
}

impl RespFault {
    /// Returns the message for the fault, without the mark of an error and the end of its line. It is that of Redis, but for
    /// `TooBigCommand`.
    pub fn message(self) -> ArrayVec<u8, SHORT_BYTES>
        ensures { result.items ≡ fault_message self }
    {
        let mut message = ArrayVec::new();
        let text: &[u8] = match self {
            RespFault::BadCount | RespFault::TooManyWords => {
                b"ERR Protocol error: invalid multibulk length"
            }
            RespFault::NoDollar(_) => b"ERR Protocol error: expected '$', got '",
            RespFault::BadLength | RespFault::NoNewline => {
                b"ERR Protocol error: invalid bulk length"
            }
            RespFault::TooBigCommand => b"ERR Protocol error: too big command",
            RespFault::TooBigLine => b"ERR Protocol error: too big inline request",
            RespFault::UnbalancedQuotes => b"ERR Protocol error: unbalanced quotes in request",
        };
        put(&mut message, text);
        if let RespFault::NoDollar(byte) = self {
            put(&mut message, &[shown(byte), b'\'']);
        }
        message
    }
}
