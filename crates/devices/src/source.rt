//! Sources of bytes.
ghost use Rattle.std.specs.Prelude.{◌≡◌, ◌≤◌, ◌+◌, length, false, OnOk, OnErr, IfOk};
ghost use Rattle.std.specs.Io.{ReadsAtMost};
ghost use Rattle.std.specs.Io.KnownBytes.{ReadConsumes};
ghost use Rattle.devices.specs.Devices.{CanRead, FailsToRead, IsAll, Reads, next_end};

use crate::failed::Failed;
use crate::sink::Sink;
use std::alloc::{AllocError, Global};

/// A source of bytes.
pub trait Source {
    ghost use Rattle.devices.specs.Devices.{SourceState};

    /// What the device tells about itself.
    ghost state: { Self → SourceState };

    /// Reads into the front of the buffer, and returns how many bytes: 0 means the end. A read that fails takes none.
    fn read(&mut self, buffer: &mut [u8]) -> Result<usize, Failed>
        requires room { 1 ≤ length buffer.old }
        requires count { CanRead (state self.old) }
        ensures within { ReadsAtMost result buffer.new }
        ensures bytes { ReadConsumes (state self.old).left (state self.new).left result buffer.new }
        ensures ok { IfOk result (λ n. Reads (state self.old) (state self.new) n) }
        ensures err { OnErr result (FailsToRead (state self.old) (state self.new)) };
}

/// A source that may be read only after a sink has been flushed. A session reads its client only by this trait, so it can't
/// wait for the client while it keeps back answers that the client may be waiting for. Each `Source` is one, with any sink.
pub trait ReadAfterFlush<W: Sink> {
    ghost use Rattle.devices.specs.Devices.{SourceState};

    /// What the source tells about itself.
    ghost source: { Self → SourceState };

    /// Reads as a `Source` does, after the sink has passed on all that it took.
    fn read_after_flush(&mut self, sink: &W, buffer: &mut [u8]) -> Result<usize, Failed>
        requires sent { (W.state sink.now).keeps_back ≡ false }
        requires room { 1 ≤ length buffer.old }
        requires count { CanRead (source self.old) }
        ensures within { ReadsAtMost result buffer.new }
        ensures bytes { ReadConsumes (source self.old).left (source self.new).left result buffer.new }
        ensures ok { IfOk result (λ n. Reads (source self.old) (source self.new) n) }
        ensures err { OnErr result (FailsToRead (source self.old) (source self.new)) };
}

impl<W: Sink, R: Source> ReadAfterFlush<W> for R {
    ghost source = { λ r. R.state r };

    fn read_after_flush(&mut self, _: &W, buffer: &mut [u8]) -> Result<usize, Failed> {
        self.read(buffer)
    }
}

/// Why not all of a device's bytes were read.
#[derive(Clone, Copy, Debug, PartialEq, Eq)]
pub enum ReadFault {
    /// The device failed.
    Failed,
    /// A request for memory was refused.
    NoMemory,
}

impl From<AllocError> for ReadFault {
    ghost use Rattle.std.specs.Prelude.{◌≡◌};
    ghost use Rattle.devices.specs.declared.source.ReadFault.TheVariants.{NoMemory};

    ghost from_gives = { λ _ e. e ≡ NoMemory };

    fn from(_: AllocError) -> ReadFault {
        ReadFault::NoMemory
    }
}

impl From<Failed> for ReadFault {
    ghost use Rattle.std.specs.Prelude.{◌≡◌};
    ghost use Rattle.devices.specs.declared.source.ReadFault.TheVariants.{Failed as DeviceFailed};

    ghost from_gives = { λ _ e. e ≡ DeviceFailed };

    fn from(_: Failed) -> ReadFault {
        ReadFault::Failed
    }
}

const PIECE_BYTES: usize = 4096;

/// Reads all bytes that the device has left, up to the end that it tells. `Failed` if a read fails, `NoMemory` if a
/// request for memory is refused.
pub fn read_all<R: Source>(alloc: Global, reader: &mut R) -> Result<Vec<u8>, ReadFault>
    requires { CanRead (R.state reader.old) }
    ensures value { IfOk result (λ v. IsAll (R.state reader.old).left v.items) }
    ensures end { OnOk result ((R.state reader.new).ends ≡ next_end (R.state reader.old).ends) }
    ensures ok { OnOk result ((R.state reader.new).failures ≡ (R.state reader.old).failures) }
    ensures failed { result ≡ Err ReadFault.Failed
        → (R.state reader.new).failures ≡ (R.state reader.old).failures + 1 }
    ensures memory { result ≡ Err ReadFault.NoMemory
        → (R.state reader.new).failures ≡ (R.state reader.old).failures }
{
    let mut bytes = Vec::new(alloc);
    let mut piece = [0; PIECE_BYTES];
    for _ in 0..u64::MAX {
        let n = reader.read(&mut piece)?;
        if n == 0 {
            return Ok(bytes);
        }
        bytes.extend_from_slice(&piece[..n])?;
    }
    unreachable!()
}
