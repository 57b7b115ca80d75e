//! Replies, and parts of them.
ghost use Rattle.std.specs.Prelude.{◌≡◌, ◌++◌, ℕ, List, OnOk, OnErr};
ghost use Rattle.devices.specs.Devices.{SinkState, CanWrite, TakesBytes, TakesPart};
ghost use Rattle.redis_service.specs.Replied.{replied_bytes};
ghost use Rattle.redis_service.specs.Sending.{Sends};
ghost use Rattle.redis_service.specs.Texts.{count_line};

use crate::lines::NO_MEMORY_LINE;
use arrayvec::ArrayVec;
use devices::{Failed, Sink, write_all};
use itoa::Buffer;
use resp::{put_array, put_error, put_integer, put_nothing, put_simple, put_value};
use server_state::WorkerCounts;

/// Returns the line of a number.
fn count_line(number: u64) -> ArrayVec<u8, 64>
    ensures { result.items ≡ count_line number }
{
    let mut line = ArrayVec::new();
    let mut digits = Buffer::new();
    line.try_extend_from_slice(b":").unwrap();
    line.try_extend_from_slice(digits.format(number).as_bytes())
        .unwrap();
    line.try_extend_from_slice(b"\r\n").unwrap();
    line
}

/// A reply of one line or value, or the head of an array. The bytes of a value are with the caller.
#[derive(Clone, Copy)]
pub enum Replied {
    /// The value that was found.
    Found,
    /// No value.
    Nothing,
    /// A number.
    Integer(i64),
    /// A number that is not below 0.
    Count(u64),
    /// The head of an array of this many replies.
    Array(usize),
    /// These bytes.
    Bytes(&'static [u8]),
    /// A text that is no error.
    Simple(&'static [u8]),
    /// An error's text.
    Error(&'static [u8]),
    /// Memory was refused to the call.
    NoMemory,
}

impl Replied {
    /// Writes the reply. If it is the value that was found, it is this one. `Failed` if a write fails, after a part of it.
    pub fn send<W: Sink>(self, found: &[u8], sink: &mut W) -> Result<(), Failed>
        requires { CanWrite (W.state sink.old) }
        ensures ok { OnOk result (TakesBytes (W.state sink.old) (W.state sink.new) (replied_bytes self found.now)) }
        ensures err { OnErr result (TakesPart (W.state sink.old) (W.state sink.new) (replied_bytes self found.now)) }
    {
        match self {
            Replied::Found => put_value(sink, found),
            Replied::Nothing => put_nothing(sink),
            Replied::Integer(number) => put_integer(sink, number),
            Replied::Count(number) => write_all(sink, count_line(number).as_slice()),
            Replied::Array(count) => put_array(sink, count),
            Replied::Bytes(bytes) => write_all(sink, bytes),
            Replied::Simple(text) => put_simple(sink, text),
            Replied::Error(text) => put_error(sink, text),
            Replied::NoMemory => write_all(sink, NO_MEMORY_LINE),
        }
    }

    /// Writes one more part of a reply, if no write of those before failed.
    pub fn send_after<W: Sink>(
        self,
        sent: Result<(), Failed>,
        found: &[u8],
        sink: &mut W,
    ) -> Result<(), Failed>
        requires { OnOk sent (CanWrite (W.state sink.old)) }
        ensures more { (before : SinkState) (said : List ℕ) → Sends sent before (W.state sink.old) said
            → Sends result before (W.state sink.new) (said ++ replied_bytes self found.now) }
        ensures can { OnOk result (CanWrite (W.state sink.new)) }
    {
        sent?;
        self.send(found, sink)
    }
}

/// Counts the reply, if it says that memory was refused.
pub fn count_refused(counts: &WorkerCounts, replied: Replied) {
    if matches!(replied, Replied::NoMemory) {
        counts.count_refusal();
    }
}
