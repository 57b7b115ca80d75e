//! Readers and writers of `std::io` as devices.
ghost use Rattle.std.specs.Prelude.{◌≡◌, true, false, OnOk};
ghost use Rattle.std.specs.Io.{ReadsAtMost, WritesAtMost};
ghost use Rattle.std.specs.Io.KnownBytes.{Keeps, ReadConsumes, WriteAppends};

use crate::failed::Failed;
use crate::sink::Sink;
use crate::source::Source;
use std::io::{self, ErrorKind, Read, Write};

/// Reads once, and again if a signal interrupts it.
fn read_again<R: Read>(reader: &mut R, buffer: &mut [u8]) -> io::Result<usize>
    ensures within { ReadsAtMost result buffer.new }
    ensures bytes { ReadConsumes (R.remaining reader.old) (R.remaining reader.new)
        result buffer.new }
{
    for _ in 0..u64::MAX {
        match reader.read(buffer) {
            Ok(n) => return Ok(n),
            Err(e) => {
                if e.kind() != ErrorKind::Interrupted {
                    return Err(e);
                }
            }
        }
    }
    Err(io::Error::from(ErrorKind::Interrupted))
}

/// Writes once, and again if a signal interrupts it.
fn write_again<W: Write>(writer: &mut W, bytes: &[u8]) -> io::Result<usize>
    ensures within { WritesAtMost result bytes.now }
    ensures bytes { WriteAppends (W.contents writer.old) (W.contents writer.new) result bytes.now }
{
    for _ in 0..u64::MAX {
        match writer.write(bytes) {
            Ok(n) => return Ok(n),
            Err(e) => {
                if e.kind() != ErrorKind::Interrupted {
                    return Err(e);
                }
            }
        }
    }
    Err(io::Error::from(ErrorKind::Interrupted))
}

/// A writer that passes on what it kept back. Each writer of `std::io` is one.
pub trait Flush: Write {
    /// The writer was flushed, and has taken nothing since. Nothing but `pass_on` tells it.
    ghost flushed: { Self → Type 0 } = { λ _. Unit {0} };

    /// Flushes once.
    fn pass_on(&mut self) -> io::Result<()>
        ensures bytes { Keeps (Self.contents self.old) (Self.contents self.new) }
        ensures flushed { OnOk result (flushed self.new) };
}

impl<W: Write> Flush for W {
    fn pass_on(&mut self) -> io::Result<()> {
        self.flush()
    }
}

/// Flushes once, and again if a signal interrupts it.
fn flush_again<W: Flush>(writer: &mut W) -> io::Result<()>
    ensures bytes { Keeps (W.contents writer.old) (W.contents writer.new) }
    ensures flushed { OnOk result (W.flushed writer.new) }
{
    for _ in 0..u64::MAX {
        match writer.pass_on() {
            Ok(()) => return Ok(()),
            Err(e) => {
                if e.kind() != ErrorKind::Interrupted {
                    return Err(e);
                }
            }
        }
    }
    Err(io::Error::from(ErrorKind::Interrupted))
}

/// A reader as a `Source`. It tells its bytes if the reader does.
#[derive(Drop)]
pub struct StreamSource<R> {
    reader: R,
    last: usize,
    ends: u64,
    failures: u64,
}

impl<R: Read> StreamSource<R> {
    /// Makes a source that was not read, has not failed and has not told its end.
    pub fn new(reader: R) -> StreamSource<R>
        ensures { ⟦<StreamSource<R> as Source>⟧.state result
            ≡ record { left = R.remaining reader; last = 0; ends = 0; failures = 0 } }
    {
        StreamSource {
            reader,
            last: 0,
            ends: 0,
            failures: 0,
        }
    }
}

impl<R: Read> Source for StreamSource<R> {
    ghost state = { λ s. record {
      left = R.remaining s.reader;
      last = s.last;
      ends = s.ends;
      failures = s.failures;
    } };

    fn read(&mut self, buffer: &mut [u8]) -> Result<usize, Failed> {
        match read_again(&mut self.reader, buffer) {
            Ok(n) => {
                self.last = n;
                if n == 0 {
                    self.ends = self.ends.wrapping_add(1);
                }
                Ok(n)
            }
            Err(_) => {
                self.failures += 1;
                Err(Failed)
            }
        }
    }
}

/// A writer as a `Sink`. It tells its bytes if the writer does. A write that takes no byte has failed. The writer may
/// keep bytes back until it is flushed: the sink says that it keeps none only if it flushed the writer after the last write.
#[derive(Drop)]
pub struct StreamSink<W: Flush> {
    writer: W,
    keeps_back: bool,
    failures: u64,
    ghost flushed: { keeps_back ≡ false → ∥ W.flushed writer ∥₁ },
}

impl<W: Flush> StreamSink<W> {
    /// Makes a sink that has not failed. The writer may still keep back bytes that it took before.
    pub fn new(writer: W) -> StreamSink<W>
        ensures { ⟦<StreamSink<W> as Sink>⟧.state result
            ≡ record { held = W.contents writer; keeps_back = true; failures = 0 } }
    {
        StreamSink {
            writer,
            keeps_back: true,
            failures: 0,
        }
    }

    /// Returns the writer.
    pub fn into_inner(self) -> W
        ensures { W.contents result ≡ (⟦<StreamSink<W> as Sink>⟧.state self).held }
    {
        self.writer
    }
}

impl<W: Flush> Sink for StreamSink<W> {
    ghost state = { λ s. record {
      held = W.contents s.writer;
      keeps_back = s.keeps_back;
      failures = s.failures;
    } };

    fn write(&mut self, bytes: &[u8]) -> Result<usize, Failed> {
        self.keeps_back = true;
        match write_again(&mut self.writer, bytes) {
            Ok(n) if n > 0 => Ok(n),
            _ => {
                self.failures += 1;
                Err(Failed)
            }
        }
    }

    fn flush(&mut self) -> Result<(), Failed> {
        if !self.keeps_back {
            return Ok(());
        }
        match flush_again(&mut self.writer) {
            Ok(()) => {
                self.keeps_back = false;
                Ok(())
            }
            Err(_) => {
                self.failures += 1;
                Err(Failed)
            }
        }
    }
}
