//! What the verifier knows of registers and bytes, in words.
ghost use Rattle.std.specs.Prelude.{◌≡◌, ◌<◌, ◌≤◌, ◌++◌, OnOk, string_bytes};
ghost use Rattle.bpf_assembler.specs.Text.{offset};
ghost use Rattle.stack_slots.specs.Frames.{is_written};
ghost use Rattle.stack_slots.specs.Kept.{kept_bytes};
ghost use Rattle.explanations.specs.Known.{window_name, is_unsigned_any, is_any, reads_alike, unsigned_text, range_text, pointer_text, value_text, name_text, is_same, begins, ends, byte_text, bytes_below};

use bpf_model::{AccessSize, Window};
use stack_slots::{Access, Frame, Pointer, RegValue};
use std::alloc::AllocError;
use std::fmt::Write;
use value_ranges::Range;

/// Returns the name under which a window is told.
pub(crate) fn window_name(window: Window) -> &'static str
    ensures { result.now ≡ window_name window }
{
    match window {
        Window::Key => "key",
        Window::Old => "old",
        Window::Arg => "arg",
        Window::Result => "result",
        Window::Stack => "stack",
    }
}

/// Tells whether the unsigned bounds leave out no word.
fn is_unsigned_any(range: Range) -> bool
    ensures { result ≡ is_unsigned_any range }
{
    range.umin == 0 && range.umax == u64::MAX
}

/// Tells whether no bound leaves out a word.
fn is_any(range: Range) -> bool
    ensures { result ≡ is_any range }
{
    is_unsigned_any(range) && range.smin == i64::MIN && range.smax == i64::MAX
}

/// Tells whether the unsigned bounds are the signed ones.
fn reads_alike(range: Range) -> bool
    ensures { result ≡ reads_alike range }
{
    range.smin >= 0
        && range.umin == range.smin.unsigned_abs()
        && range.umax == range.smax.unsigned_abs()
}

/// Writes the unsigned bounds, if they say more than the signed ones.
fn write_unsigned(text: &mut String, range: Range) -> Result<(), AllocError>
    ensures { OnOk result (string_bytes text.new ≡ string_bytes text.old ++ unsigned_text range) }
{
    if is_unsigned_any(range) || reads_alike(range) {
        return Ok(());
    }
    write!(text, " (unsigned {} to {})", range.umin, range.umax)
}

/// Writes a number's bounds.
fn write_range(text: &mut String, range: Range) -> Result<(), AllocError>
    ensures { OnOk result (string_bytes text.new ≡ string_bytes text.old ++ range_text range) }
{
    if range.smin == range.smax {
        return write!(text, "{}", range.smin);
    }
    if is_any(range) {
        return text.push_str("any number");
    }
    write!(text, "{} to {}", range.smin, range.smax)?;
    write_unsigned(text, range)
}

/// Writes an offset with its sign.
#[tactic(auto, using(bpf_assembler::proofs::SignLemmas::styled_with_sign))]
fn write_offset(text: &mut String, distance: i64) -> Result<(), AllocError>
    ensures { OnOk result (string_bytes text.new ≡ string_bytes text.old ++ offset distance) }
{
    write!(text, "{distance:+}")
}

/// Writes a pointer: its window, and its least and greatest offset in it.
pub(crate) fn write_pointer(text: &mut String, pointer: Pointer) -> Result<(), AllocError>
    ensures { OnOk result (string_bytes text.new ≡ string_bytes text.old ++ pointer_text pointer) }
{
    text.push_str(window_name(pointer.window))?;
    write_offset(text, pointer.least)?;
    if pointer.least == pointer.greatest {
        return Ok(());
    }
    text.push_str(" to ")?;
    write_offset(text, pointer.greatest)
}

/// Writes what is known of a register's word.
pub(crate) fn write_value(text: &mut String, value: RegValue) -> Result<(), AllocError>
    ensures { OnOk result (string_bytes text.new ≡ string_bytes text.old ++ value_text value) }
{
    match value {
        RegValue::Unwritten => text.push_str("perhaps unwritten"),
        RegValue::Number(range) => write_range(text, range),
        RegValue::Pointer(pointer) => write_pointer(text, pointer),
    }
}

/// Writes what stands before the value of a register.
#[tactic(auto, unfolding(crate::specs::Known::name_text))]
pub(crate) fn write_name(text: &mut String, register: usize) -> Result<(), AllocError>
    ensures { OnOk result (string_bytes text.new ≡ string_bytes text.old ++ name_text register) }
{
    write!(text, ": r{register} is ")
}

/// Whether the same is known of two words.
pub(crate) fn is_same(first: RegValue, second: RegValue) -> bool
    ensures { result ≡ is_same first second }
{
    match (first, second) {
        (RegValue::Unwritten, RegValue::Unwritten) => true,
        (RegValue::Number(a), RegValue::Number(b)) => {
            a.umin == b.umin && a.umax == b.umax && a.smin == b.smin && a.smax == b.smax
        }
        (RegValue::Pointer(a), RegValue::Pointer(b)) => {
            a.window.first_address() == b.window.first_address()
                && a.least == b.least
                && a.greatest == b.greatest
        }
        _ => false,
    }
}

/// Tells whether the byte of the window was written.
pub(crate) fn is_written(frame: &Frame, window: Window, byte: usize) -> bool
    requires inside { byte < kept_bytes window }
    ensures { result ≡ is_written frame.now window byte }
{
    let access = Access {
        window,
        least: byte,
        greatest: byte,
        size: AccessSize::Byte,
        signed: false,
    };
    frame.load(&access).is_some()
}

/// Tells whether the byte is the first of some written ones.
fn begins(frame: &Frame, window: Window, byte: usize) -> bool
    requires inside { byte < kept_bytes window }
    ensures { result ≡ begins frame.now window byte }
{
    is_written(frame, window, byte) && (byte == 0 || !is_written(frame, window, byte - 1))
}

/// Tells whether the byte is the last of some written ones, in a window of this size.
fn ends(frame: &Frame, window: Window, size: usize, byte: usize) -> bool
    requires inside { byte < size }
    requires kept { size ≤ kept_bytes window }
    ensures { result ≡ ends frame.now window size byte }
{
    is_written(frame, window, byte) && (byte + 1 == size || !is_written(frame, window, byte + 1))
}

/// Writes the byte's number if it is the first of some written ones, and if it is the last.
fn write_byte(
    text: &mut String,
    frame: &Frame,
    window: Window,
    size: usize,
    byte: usize,
) -> Result<(), AllocError>
    requires inside { byte < size }
    requires kept { size ≤ kept_bytes window }
    ensures { OnOk result
        (string_bytes text.new ≡ string_bytes text.old ++ byte_text frame.now window size byte) }
{
    if begins(frame, window, byte) {
        write!(text, "; {} bytes {byte}", window_name(window))?;
    }
    if ends(frame, window, size, byte) {
        write!(text, " to {byte} written")?;
    }
    Ok(())
}

/// Writes which of the window's first bytes were written.
pub(crate) fn write_bytes(
    text: &mut String,
    frame: &Frame,
    window: Window,
    size: usize,
) -> Result<(), AllocError>
    requires kept { size ≤ kept_bytes window }
    ensures { OnOk result
        (string_bytes text.new ≡ string_bytes text.old ++ bytes_below frame.now window size size) }
{
    for byte in 0..size {
        write_byte(text, frame, window, size, byte)?;
    }
    Ok(())
}
