//! Sources and sinks of bytes, and what devices tell about them.
//!
//! The promise to the layers above: a `Source` and a `Sink` say how each read, write and flush changes what the device
//! tells (`SourceState` and `SinkState` of `specs/Devices.antt`). `read_all` and `write_all` read and write all bytes. A
//! `StreamSource` and a `StreamSink` are the streams of `std::io` as devices, and repeat a call that a signal interrupts.
//! A read waits as long as its device does. Only `read_all` takes memory.
#![tactic(auto)]

mod channel;
mod failed;
mod owed;
mod sink;
mod source;
mod streams;

pub use channel::{Channel, Received, Sent};
pub use failed::Failed;
pub use owed::{Owed, Taking};
pub use sink::{Sink, write_all};
pub use source::{ReadAfterFlush, ReadFault, Source, read_all};
pub use streams::{Flush, StreamSink, StreamSource};
