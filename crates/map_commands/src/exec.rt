//! The command `exec`: a session over the streams, and a table of its own.
ghost use Rattle.map_commands.specs.Endings.{outputs};
ghost use Rattle.map_commands.specs.Executions.{Executes, TellsEnd};
ghost use Rattle.devices.specs.Devices.{CanRead, CanWrite};

use crate::ending::{Ending, FAILED_DEVICE, warn};
use atomic_methods::OpenFault;
use devices::{Sink, Source};
use sessions::{Alone, SessionEnd, session_alone};
use std::alloc::Global;
use std::sync::Wait;

/// Tells the end of a session, and answers the status that goes with it.
fn tell_end<E: Sink>(end: SessionEnd, errors: &mut E) -> u8
    requires { CanWrite (E.state errors.old) }
    ensures { TellsEnd end (E.state errors.old) (E.state errors.new) result }
{
    match end {
        SessionEnd::Closed => 0,
        SessionEnd::Cut | SessionEnd::Refused(_) | SessionEnd::NoMemory => 1,
        SessionEnd::ReadFailed => warn(b"failed read\n", FAILED_DEVICE, errors),
        SessionEnd::WriteFailed => warn(b"failed write\n", FAILED_DEVICE, errors),
    }
}

/// Answers the requests that the reader has left, over an empty table with this number of stripes, and returns the
/// status: 0 if the input ended between two frames, 1 if it ended inside a frame or was refused, 3 for a failed device, of
/// which standard error is told. Waits for the reader.
pub fn exec<H: Wait, R: Source, W: Sink, E: Sink>(
    rt: &H,
    alloc: Global,
    stripes: u16,
    reader: &mut R,
    writer: &mut W,
    errors: &mut E,
) -> u8
    requires reads { CanRead (R.state reader.old) }
    requires writes { CanWrite (W.state writer.old) }
    requires warns { CanWrite (E.state errors.old) }
    ensures { Executes stripes (R.state reader.old) (R.state reader.new)
        (outputs (W.state writer.old) (E.state errors.old))
        (outputs (W.state writer.new) (E.state errors.new)) result }
{
    let mut alone = match Alone::open(alloc, u64::from(stripes)) {
        Ok(alone) => alone,
        Err(OpenFault::BadStripes) => return Ending::BadStripes.tell(writer, errors),
        Err(OpenFault::NoMemory) => return Ending::NoMemory.tell(writer, errors),
    };
    let end = session_alone(rt, alloc, reader, writer, &mut alone);
    tell_end(end, errors)
}
