//! Replies, written to a sink.
ghost use Rattle.std.specs.Prelude.{◌≡◌, ◌++◌, ◌≤◌, ◌+◌, length, OnOk, OnErr};
ghost use Rattle.devices.specs.Devices.{CanWrite, TakesBytes, TakesPart};
ghost use Rattle.resp.specs.Replies.{simple_bytes, error_bytes, integer_bytes, value_bytes, nothing_bytes, array_head, marked_line};

use crate::short::{SHORT_BYTES, put};
use arrayvec::ArrayVec;
use devices::{Failed, Sink, write_all};
use itoa::Buffer;

/// Writes three pieces.
fn put_three<W: Sink>(sink: &mut W, head: &[u8], body: &[u8], end: &[u8]) -> Result<(), Failed>
    requires { CanWrite (W.state sink.old) }
    ensures ok { OnOk result (TakesBytes (W.state sink.old) (W.state sink.new) (head.now ++ (body.now ++ end.now))) }
    ensures err { OnErr result (TakesPart (W.state sink.old) (W.state sink.new) (head.now ++ (body.now ++ end.now))) }
{
    write_all(sink, head)?;
    write_all(sink, body)?;
    write_all(sink, end)?;
    Ok(())
}

/// Returns a line of this text after a mark.
fn short_line(mark: u8, text: &[u8]) -> ArrayVec<u8, SHORT_BYTES>
    requires { length text.now + 3 ≤ SHORT_BYTES }
    ensures { result.items ≡ marked_line mark text.now }
{
    let mut line = ArrayVec::new();
    put(&mut line, &[mark]);
    put(&mut line, text);
    put(&mut line, b"\r\n");
    line
}

/// Writes a line of this text after a mark, in one write if it is short.
fn put_line<W: Sink>(sink: &mut W, mark: u8, text: &[u8]) -> Result<(), Failed>
    requires { CanWrite (W.state sink.old) }
    ensures ok { OnOk result (TakesBytes (W.state sink.old) (W.state sink.new) (marked_line mark text.now)) }
    ensures err { OnErr result (TakesPart (W.state sink.old) (W.state sink.new) (marked_line mark text.now)) }
{
    if text.len() > SHORT_BYTES - 3 {
        return put_three(sink, &[mark], text, b"\r\n");
    }
    write_all(sink, short_line(mark, text).as_slice())
}

/// Writes a line of text, as `OK`. `Failed` if a write fails, after a front of the line.
pub fn put_simple<W: Sink>(sink: &mut W, text: &[u8]) -> Result<(), Failed>
    requires { CanWrite (W.state sink.old) }
    ensures ok { OnOk result (TakesBytes (W.state sink.old) (W.state sink.new) (simple_bytes text.now)) }
    ensures err { OnErr result (TakesPart (W.state sink.old) (W.state sink.new) (simple_bytes text.now)) }
{
    put_line(sink, b'+', text)
}

/// Writes the text of an error, as `ERR syntax error`. `Failed` as for `put_simple`.
pub fn put_error<W: Sink>(sink: &mut W, text: &[u8]) -> Result<(), Failed>
    requires { CanWrite (W.state sink.old) }
    ensures ok { OnOk result (TakesBytes (W.state sink.old) (W.state sink.new) (error_bytes text.now)) }
    ensures err { OnErr result (TakesPart (W.state sink.old) (W.state sink.new) (error_bytes text.now)) }
{
    put_line(sink, b'-', text)
}

/// Writes a number. `Failed` as for `put_simple`.
pub fn put_integer<W: Sink>(sink: &mut W, n: i64) -> Result<(), Failed>
    requires { CanWrite (W.state sink.old) }
    ensures ok { OnOk result (TakesBytes (W.state sink.old) (W.state sink.new) (integer_bytes n)) }
    ensures err { OnErr result (TakesPart (W.state sink.old) (W.state sink.new) (integer_bytes n)) }
{
    let mut buffer = Buffer::new();
    put_line(sink, b':', buffer.format(n).as_bytes())
}

/// Writes a value. `Failed` as for `put_simple`.
pub fn put_value<W: Sink>(sink: &mut W, bytes: &[u8]) -> Result<(), Failed>
    requires { CanWrite (W.state sink.old) }
    ensures ok { OnOk result (TakesBytes (W.state sink.old) (W.state sink.new) (value_bytes bytes.now)) }
    ensures err { OnErr result (TakesPart (W.state sink.old) (W.state sink.new) (value_bytes bytes.now)) }
{
    let mut buffer = Buffer::new();
    let head = short_line(b'$', buffer.format(bytes.len()).as_bytes());
    put_three(sink, head.as_slice(), bytes, b"\r\n")
}

/// Writes that there is no value. `Failed` as for `put_simple`.
pub fn put_nothing<W: Sink>(sink: &mut W) -> Result<(), Failed>
    requires { CanWrite (W.state sink.old) }
    ensures ok { OnOk result (TakesBytes (W.state sink.old) (W.state sink.new) nothing_bytes) }
    ensures err { OnErr result (TakesPart (W.state sink.old) (W.state sink.new) nothing_bytes) }
{
    write_all(sink, b"$-1\r\n")
}

/// Writes the head of an array, after which this many replies have to be written. `Failed` as for `put_simple`.
pub fn put_array<W: Sink>(sink: &mut W, count: usize) -> Result<(), Failed>
    requires { CanWrite (W.state sink.old) }
    ensures ok { OnOk result (TakesBytes (W.state sink.old) (W.state sink.new) (array_head count)) }
    ensures err { OnErr result (TakesPart (W.state sink.old) (W.state sink.new) (array_head count)) }
{
    let mut buffer = Buffer::new();
    put_line(sink, b'*', buffer.format(count).as_bytes())
}
