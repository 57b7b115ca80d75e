//! What is printed for a command, and the status that goes with it.
ghost use Rattle.std.specs.Prelude.{◌≡◌, ◌≤◌, ◌+◌, ◌/◌, ◌%◌, ◌++◌, codes, length, IfOk};
ghost use Rattle.std.specs.List.{flat_map};
ghost use Rattle.arrayvec.specs.ArrayVec.{array_vec_len};
ghost use Rattle.map_commands.specs.Hex.{SpellsBytes};
ghost use Rattle.map_commands.specs.Reports.{report_text, status_of, spaced, digit, separator, unit_lines, IsLine};

use crate::refusal::Refusal;
use arrayvec::ArrayVec;
use bpf_model::limits::VALUE_BYTES;
use bpf_model::{Answer, InputPart, NoMemory};
use itoa::Buffer;
use std::alloc::Global;

/// What came of a command.
#[derive(Debug, Drop)]
pub enum Report {
    /// A program, as text or in hex.
    Text(Vec<u8>),
    /// The program is safe.
    Accepted,
    /// The program's answer.
    Answered(Answer),
    /// The first value that is longer than its declared size.
    Unfit(InputPart),
    /// There is no answer.
    Refused(Refusal),
    /// There is none, and this is printed: what the verifier knows, and the refusal's line.
    Explained(Vec<u8>, Refusal),
}

/// The most bytes of a line: `bytes`, a blank and two digits for each byte of a value, and a newline.
pub const LINE_BYTES: usize = 6 + 3 * VALUE_BYTES;

/// One printed line.
pub type Line = ArrayVec<u8, LINE_BYTES>;

/// The hexadecimal digits, in lower case.
static DIGITS: [u8; 16] = *b"0123456789abcdef";

/// Appends the text to a line that has room for it. Takes no memory.
pub fn append(line: &mut Line, text: &[u8])
    requires { array_vec_len line.old + length text.now ≤ LINE_BYTES }
    ensures items { line.new.items ≡ line.old.items ++ text.now }
    ensures len { array_vec_len line.new ≡ array_vec_len line.old + length text.now }
{
    match line.try_extend_from_slice(text) {
        Ok(()) => {}
        Err(_) => unreachable!(),
    }
}

/// The two digits of a byte, in lower case.
pub(crate) fn digits(byte: u8) -> (u8, u8)
    ensures high { result.0 ≡ digit (byte / 16) }
    ensures low { result.1 ≡ digit (byte % 16) }
{
    let high = DIGITS[usize::from(byte / 16)];
    let low = DIGITS[usize::from(byte % 16)];
    (high, low)
}

/// Returns what stands after the byte of this index: a newline after the last byte of a unit, else a blank.
fn separator(index: usize) -> u8
    ensures { result ≡ separator index }
{
    if index % 8 == 7 { b'\n' } else { b' ' }
}

/// The bytes in hex, a unit on a line.
pub fn unit_lines(alloc: Global, bytes: &[u8]) -> Result<Vec<u8>, NoMemory>
    ensures lines { IfOk result (λ text. text.items ≡ unit_lines bytes.now) }
    // It is hex text of these bytes.
    ensures hex { IfOk result (λ text. SpellsBytes text.items bytes.now) }
{
    let mut text = Vec::new(alloc);
    for (index, byte) in bytes.iter().enumerate() {
        let (high, low) = digits(*byte);
        text.extend_from_slice(&[high, low, separator(index)])?;
    }
    Ok(text)
}

/// Returns the line of an answer's bytes.
fn bytes_line(bytes: &[u8]) -> Line
    requires { length bytes.now ≤ VALUE_BYTES }
    ensures { result.items ≡ codes "bytes" ++ flat_map spaced bytes.now ++ codes "\n" }
{
    let mut line = Line::new();
    append(&mut line, b"bytes");
    for byte in bytes {
        let high = DIGITS[usize::from(*byte / 16)];
        let low = DIGITS[usize::from(*byte % 16)];
        append(&mut line, &[b' ', high, low]);
    }
    append(&mut line, b"\n");
    line
}

/// Returns a refusal's line.
fn refused_line(refusal: &Refusal) -> Line
    ensures { result.items ≡ report_text (Report.Refused refusal.now) }
{
    let mut line = Line::new();
    append(&mut line, b"refused ");
    append(&mut line, Buffer::new().format(refusal.number()).as_bytes());
    append(&mut line, b" at ");
    append(&mut line, Buffer::new().format(refusal.place()).as_bytes());
    append(&mut line, b"\n");
    line
}

/// Makes a line of this text. Takes no memory.
pub fn text_line(text: &[u8]) -> Line
    requires { length text.now ≤ LINE_BYTES }
    ensures { result.items ≡ text.now }
{
    let mut line = Line::new();
    append(&mut line, text);
    line
}

impl Report {
    /// The status: 0 for what was asked for, 1 for a refusal or a value that doesn't fit.
    pub fn status(&self) -> u8
        ensures { result ≡ status_of self.now }
    {
        match self {
            Report::Text(_) | Report::Accepted | Report::Answered(_) => 0,
            Report::Unfit(_) | Report::Refused(_) | Report::Explained(..) => 1,
        }
    }

    /// Returns the line that is printed if no text is, with its newline. Takes no memory.
    pub fn line(&self) -> Line
        requires { IsLine self.now }
        ensures { result.items ≡ report_text self.now }
    {
        match self {
            Report::Text(_) | Report::Explained(..) => unreachable!(),
            Report::Accepted => text_line(b"accepted\n"),
            Report::Answered(Answer::Nothing) => text_line(b"nothing\n"),
            Report::Answered(Answer::Bytes(value)) => bytes_line(value.as_slice()),
            Report::Unfit(InputPart::Key) => text_line(b"unfit key\n"),
            Report::Unfit(InputPart::Old) => text_line(b"unfit old\n"),
            Report::Unfit(InputPart::Arg) => text_line(b"unfit arg\n"),
            Report::Refused(refusal) => refused_line(refusal),
        }
    }
}
