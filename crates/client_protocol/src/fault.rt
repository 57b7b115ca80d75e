//! Why a stream of requests is refused.
ghost use Rattle.std.specs.Prelude.{◌≡◌};
ghost use Rattle.client_protocol.specs.Faults.{protocol_fault_number};

use std::error::Error;
use std::fmt;

/// A fault in a frame. If a frame has several faults, it is reported with the least-numbered one. After a fault nothing
/// more is read from the stream.
#[derive(Clone, Copy, Debug, PartialEq, Eq)]
pub enum ProtocolFault {
    /// The length is 0 or above the limit; reported as soon as its four bytes are there: number 60.
    BadLength,
    /// No request has this tag: number 61.
    UnknownRequest,
    /// Fields are cut short, a key or a value is above its limit, or 0xFFFF is in place of a required value: number 62.
    BadField,
    /// There are bytes after the last field: number 63.
    TrailingBytes,
    /// A Hello has another version, the first request is no Hello, or there is a second Hello: number 64.
    WrongVersion,
}

impl ProtocolFault {
    /// Returns the number with which the fault is sent, 60 to 64.
    pub fn number(self) -> u8
        ensures { result ≡ protocol_fault_number self }
    {
        match self {
            ProtocolFault::BadLength => 60,
            ProtocolFault::UnknownRequest => 61,
            ProtocolFault::BadField => 62,
            ProtocolFault::TrailingBytes => 63,
            ProtocolFault::WrongVersion => 64,
        }
    }
}

impl fmt::Display for ProtocolFault {
    ghost use Rattle.std.specs.Prelude.{Some};
    ghost use Rattle.client_protocol.specs.Faults.{protocol_fault_message};

    ghost output = { λ fault. Some (protocol_fault_message fault) };

    fn fmt<W: fmt::Write>(&self, f: &mut fmt::Formatter<W>) -> fmt::Result {
        match self {
            ProtocolFault::BadLength => write!(f, "bad length of a frame"),
            ProtocolFault::UnknownRequest => write!(f, "unknown request"),
            ProtocolFault::BadField => write!(f, "bad field"),
            ProtocolFault::TrailingBytes => write!(f, "bytes behind the last field"),
            ProtocolFault::WrongVersion => write!(f, "wrong version, or a Hello out of place"),
        }
    }
}

impl Error for ProtocolFault {}
