//! What is known of a load or store that is refused, in words.
ghost use Rattle.std.specs.Prelude.{◌≡◌, ◌-◌, ◌<◌, ◌≤◌, ◌++◌, IfSome, OnOk, ◌+ℤ◌, string_bytes};
ghost use Rattle.bpf_model.specs.Accesses.{byte_count};
ghost use Rattle.stack_slots.specs.Kept.{kept_bytes};
ghost use Rattle.explanations.specs.Accesses.{touch_of, count_text, span_text, reach_text, extent_text, access_text, store_text, read_only_text, opens, closes, unwritten_byte, unwritten_below, read_text, between_text, load_text, unwritten_text};

use crate::known::{is_written, window_name, write_name, write_pointer};
use bpf_model::limits::{STACK_BYTES, VALUE_BYTES};
use bpf_model::{AccessSize, Insn, Sizes, Window};
use stack_slots::{Frame, Pointer, RegValue};
use std::alloc::AllocError;
use std::fmt::Write;

/// A load or store: the register with its address, the offset, and the number of bytes.
#[derive(Clone, Copy)]
pub struct Touch {
    pub register: usize,
    pub offset: i16,
    pub size: AccessSize,
}

impl Touch {
    /// The load or store of an instruction.
    pub fn of(insn: Insn) -> Option<Touch>
        ensures value { result ≡ touch_of insn }
        ensures register { IfSome result (λ touch. touch.register ≤ 10) }
    {
        match insn {
            Insn::Load {
                kind,
                src,
                offset,
                ..
            } => Some(Touch {
                register: usize::from(src.number()),
                offset,
                size: kind.size(),
            }),
            Insn::Store {
                size,
                dst,
                offset,
                ..
            } => Some(Touch {
                register: usize::from(dst.number()),
                offset,
                size,
            }),
            _ => None,
        }
    }
}

/// Writes a number of bytes.
pub fn write_count(text: &mut String, count: usize) -> Result<(), AllocError>
    ensures { OnOk result (string_bytes text.new ≡ string_bytes text.old ++ count_text count) }
{
    if count == 1 {
        return text.push_str("1 byte");
    }
    write!(text, "{count} bytes")
}

/// How far from its window's first byte an access begins, at the least and at the greatest.
#[derive(Clone, Copy)]
struct Reach {
    least: i64,
    greatest: i64,
}

/// Adds the offset of an instruction to the bounds of its pointer.
fn reach_of(pointer: Pointer, offset: i16) -> Reach
    ensures least { result.least ≡ pointer.least +ℤ offset }
    ensures greatest { result.greatest ≡ pointer.greatest +ℤ offset }
{
    Reach {
        least: pointer.least + i64::from(offset),
        greatest: pointer.greatest + i64::from(offset),
    }
}

/// Writes the least and the greatest offset, or the one if they are equal.
#[tactic(auto, unfolding(crate::specs::Accesses::span_text))]
fn write_span(text: &mut String, reach: Reach) -> Result<(), AllocError>
    ensures { OnOk result
        (string_bytes text.new ≡ string_bytes text.old ++ span_text reach.least reach.greatest) }
{
    if reach.least == reach.greatest {
        return write!(text, "{}", reach.least);
    }
    write!(text, "{} to {}", reach.least, reach.greatest)
}

/// Writes at which offsets of its window an access begins.
#[tactic(auto, unfolding(crate::specs::Accesses::reach_text))]
fn write_reach(text: &mut String, pointer: Pointer, offset: i16) -> Result<(), AllocError>
    ensures { OnOk result
        (string_bytes text.new ≡ string_bytes text.old ++ reach_text pointer offset) }
{
    let reach = reach_of(pointer, offset);
    text.push_str(": offset ")?;
    write_span(text, reach)
}

/// Writes an access's length, and the size of its window.
#[tactic(auto, unfolding(crate::specs::Accesses::extent_text))]
fn write_extent(text: &mut String, count: usize, size: usize) -> Result<(), AllocError>
    ensures { OnOk result
        (string_bytes text.new ≡ string_bytes text.old ++ extent_text count size) }
{
    text.push_str(" and ")?;
    write_count(text, count)?;
    write!(text, ", in a window of {size}")
}

/// Writes at which offsets an access begins, its length and the size of its window. Writes nothing if its register is
/// no pointer.
pub fn write_access(
    text: &mut String,
    sizes: Sizes,
    value: RegValue,
    offset: i16,
    size: AccessSize,
) -> Result<(), AllocError>
    ensures { OnOk result (string_bytes text.new
        ≡ string_bytes text.old ++ access_text sizes value offset (byte_count size)) }
{
    let RegValue::Pointer(pointer) = value else {
        return Ok(());
    };
    write_reach(text, pointer, offset)?;
    write_extent(text, size.bytes(), pointer.window.size(sizes))
}

/// Writes into which window a store goes, and into which ones it may.
fn write_store(text: &mut String, register: usize, pointer: Pointer) -> Result<(), AllocError>
    ensures { OnOk result
        (string_bytes text.new ≡ string_bytes text.old ++ store_text register pointer) }
{
    write_name(text, register)?;
    write_pointer(text, pointer)?;
    text.push_str("; result and stack alone may be written")?;
    Ok(())
}

/// Writes into which window a store goes, and into which ones it may. Writes nothing if its register is no pointer.
pub fn write_read_only(
    text: &mut String,
    register: usize,
    value: RegValue,
) -> Result<(), AllocError>
    ensures { OnOk result
        (string_bytes text.new ≡ string_bytes text.old ++ read_only_text register value) }
{
    match value {
        RegValue::Unwritten | RegValue::Number(_) => Ok(()),
        RegValue::Pointer(pointer) => write_store(text, register, pointer),
    }
}

/// How many bytes of a window a frame keeps.
fn kept_bytes(window: Window) -> usize
    ensures { result ≡ kept_bytes window }
{
    match window {
        Window::Key | Window::Old | Window::Arg => 0,
        Window::Result => VALUE_BYTES,
        Window::Stack => STACK_BYTES,
    }
}

/// Bytes of a window, from `first` and before `end`.
#[derive(Clone, Copy)]
struct Bytes {
    window: Window,
    first: usize,
    end: usize,
}

/// Tells whether the byte is the first of some that were perhaps not written.
fn opens(frame: &Frame, bytes: Bytes, byte: usize) -> bool
    requires from { bytes.first ≤ byte }
    requires kept { byte < kept_bytes bytes.window }
    ensures { result ≡ opens frame.now bytes.window bytes.first byte }
{
    !is_written(frame, bytes.window, byte)
        && (byte == bytes.first || is_written(frame, bytes.window, byte - 1))
}

/// Tells whether the byte is the last of some that were perhaps not written.
fn closes(frame: &Frame, bytes: Bytes, byte: usize) -> bool
    requires inside { byte < bytes.end }
    requires kept { bytes.end ≤ kept_bytes bytes.window }
    ensures { result ≡ closes frame.now bytes.window bytes.end byte }
{
    !is_written(frame, bytes.window, byte)
        && (byte + 1 == bytes.end || is_written(frame, bytes.window, byte + 1))
}

/// Writes the byte's number if it is the first of some that were perhaps not written, and if it is the last.
fn write_byte(text: &mut String, frame: &Frame, bytes: Bytes, byte: usize) -> Result<(), AllocError>
    requires from { bytes.first ≤ byte }
    requires inside { byte < bytes.end }
    requires kept { bytes.end ≤ kept_bytes bytes.window }
    ensures { OnOk result (string_bytes text.new ≡ string_bytes text.old
        ++ unwritten_byte frame.now bytes.window bytes.first bytes.end byte) }
{
    if opens(frame, bytes, byte) {
        write!(text, "; bytes {byte}")?;
    }
    if closes(frame, bytes, byte) {
        write!(text, " to {byte} perhaps unwritten")?;
    }
    Ok(())
}

/// Writes which of the bytes were perhaps not written.
fn write_unwritten(text: &mut String, frame: &Frame, bytes: Bytes) -> Result<(), AllocError>
    requires kept { bytes.end ≤ kept_bytes bytes.window }
    ensures { OnOk result (string_bytes text.new ≡ string_bytes text.old
        ++ unwritten_below frame.now bytes.window bytes.first bytes.end (bytes.end - bytes.first)) }
{
    for step in 0..bytes.end.saturating_sub(bytes.first) {
        write_byte(text, frame, bytes, bytes.first + step)?;
    }
    Ok(())
}

/// Writes which bytes are read.
#[tactic(auto, unfolding(crate::specs::Accesses::read_text))]
fn write_read(text: &mut String, bytes: Bytes) -> Result<(), AllocError>
    ensures { OnOk result (string_bytes text.new
        ≡ string_bytes text.old ++ read_text bytes.window bytes.first bytes.end) }
{
    let window = window_name(bytes.window);
    let last = bytes.end.saturating_sub(1);
    write!(text, ": {window} bytes {} to {last} are read", bytes.first)
}

/// Writes which bytes are read, and which of them were perhaps not written. Writes nothing if they are not in the window.
fn write_between(text: &mut String, frame: &Frame, bytes: Bytes) -> Result<(), AllocError>
    ensures { OnOk result (string_bytes text.new ≡ string_bytes text.old
        ++ between_text frame.now bytes.window bytes.first bytes.end) }
{
    if kept_bytes(bytes.window) < bytes.end {
        return Ok(());
    }
    write_read(text, bytes)?;
    write_unwritten(text, frame, bytes)
}

/// Writes which bytes a load reads from this reach on, and which of them were perhaps not written.
fn write_load(
    text: &mut String,
    frame: &Frame,
    window: Window,
    reach: Reach,
    size: AccessSize,
) -> Result<(), AllocError>
    ensures { OnOk result (string_bytes text.new ≡ string_bytes text.old
        ++ load_text frame.now window reach.least reach.greatest (byte_count size)) }
{
    if reach.least < 0 {
        return Ok(());
    }
    let bytes = Bytes {
        window,
        first: reach.least.unsigned_abs() as usize,
        end: reach.greatest.unsigned_abs() as usize + size.bytes(),
    };
    write_between(text, frame, bytes)
}

/// Writes which bytes a load reads, and which of them were perhaps not written. Writes nothing if its register is no
/// pointer.
pub fn write_unread(
    text: &mut String,
    frame: &Frame,
    value: RegValue,
    offset: i16,
    size: AccessSize,
) -> Result<(), AllocError>
    ensures { OnOk result (string_bytes text.new
        ≡ string_bytes text.old ++ unwritten_text frame.now value offset (byte_count size)) }
{
    let RegValue::Pointer(pointer) = value else {
        return Ok(());
    };
    let reach = reach_of(pointer, offset);
    write_load(text, frame, pointer.window, reach, size)
}
