//! Sinks of bytes.
ghost use Rattle.std.specs.Prelude.{◌≡◌, ◌≤◌, ◌+◌, false, length, OnOk, OnErr, IfOk};
ghost use Rattle.std.specs.Io.{WritesAtMost};
ghost use Rattle.std.specs.Io.KnownBytes.{Keeps, WriteAppends};
ghost use Rattle.devices.specs.Devices.{CanWrite, TakesBytes, TakesPart};

use crate::failed::Failed;

/// A sink of bytes.
pub trait Sink {
    ghost use Rattle.devices.specs.Devices.{SinkState};

    /// What the device tells about itself.
    ghost state: { Self → SinkState };

    /// Takes a front of the bytes, at least one, and returns how many. A write that fails takes none.
    fn write(&mut self, bytes: &[u8]) -> Result<usize, Failed>
        requires some { 1 ≤ length bytes.now }
        requires count { CanWrite (state self.old) }
        ensures within { WritesAtMost result bytes.now }
        ensures some { IfOk result (λ n. 1 ≤ n) }
        ensures bytes { WriteAppends (state self.old).held (state self.new).held result bytes.now }
        ensures ok { OnOk result ((state self.new).failures ≡ (state self.old).failures) }
        ensures err { OnErr result ((state self.new).failures ≡ (state self.old).failures + 1) };

    /// Passes on the bytes that the device took and kept back. If that fails, a write has failed.
    fn flush(&mut self) -> Result<(), Failed>
        requires count { CanWrite (state self.old) }
        ensures bytes { Keeps (state self.old).held (state self.new).held }
        ensures sent { OnOk result ((state self.new).keeps_back ≡ false) }
        ensures ok { OnOk result ((state self.new).failures ≡ (state self.old).failures) }
        ensures err { OnErr result ((state self.new).failures ≡ (state self.old).failures + 1) };
}

/// Writes all of the bytes.
pub fn write_all<W: Sink>(writer: &mut W, bytes: &[u8]) -> Result<(), Failed>
    requires { CanWrite (W.state writer.old) }
    ensures ok { OnOk result (TakesBytes (W.state writer.old) (W.state writer.new) bytes.now) }
    ensures err { OnErr result (TakesPart (W.state writer.old) (W.state writer.new) bytes.now) }
{
    let mut rest = bytes;
    while !rest.is_empty() {
        let n = writer.write(rest)?;
        rest = &rest[n..];
    }
    Ok(())
}
