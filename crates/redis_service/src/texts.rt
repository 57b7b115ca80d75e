//! What commands make of a value's text.
ghost use Rattle.std.specs.Prelude.{◌≡◌, ◌≤◌, ◌+◌, ◌++◌, length, min};
ghost use Rattle.bpf_model.specs.declared.limits.TheConstants.{VALUE_BYTES};
ghost use Rattle.redis_service.specs.Texts as texts;

use arrayvec::ArrayVec;
use bpf_model::Value;
use bpf_model::limits::VALUE_BYTES;

/// Room for a value's text.
type Text = ArrayVec<u8, VALUE_BYTES>;

/// The place in a text of this length that the number names, or the length if that is less.
fn place(len: usize, number: i64) -> usize
    requires { len ≤ VALUE_BYTES }
    ensures { result ≡ min len (texts.place len number) }
{
    if number < 0 {
        return len.saturating_sub(number.unsigned_abs() as usize);
    }
    len.min(number as usize)
}

/// Whether both numbers count from the end, and the second is before the first.
fn is_backward(start: i64, end: i64) -> bool
    ensures { result ≡ texts.is_backward start end }
{
    start < 0 && end < 0 && end < start
}

/// Returns the bytes from one place to another, both included.
pub fn range(text: &[u8], start: i64, end: i64) -> &[u8]
    requires { length text.now ≤ VALUE_BYTES }
    ensures { result.now ≡ texts.range_of start end text.now }
{
    if is_backward(start, end) {
        return &text[..0];
    }
    let last = place(text.len(), end);
    let until = (last + 1).min(text.len());
    let from = place(text.len(), start).min(until);
    &text[from..until]
}

/// Adds bytes to the text.
fn add(text: &mut Text, bytes: &[u8])
    requires { length text.old.items + length bytes.now ≤ VALUE_BYTES }
    ensures { text.new.items ≡ text.old.items ++ bytes.now }
{
    text.try_extend_from_slice(bytes).unwrap();
}

/// Makes the value both texts, one after the other.
pub fn set_both(value: &mut Value, first: &[u8], second: &[u8])
    requires { length first.now + length second.now ≤ VALUE_BYTES }
    ensures { value.new ≡ first.now ++ second.now }
{
    let mut text = Text::new();
    add(&mut text, first);
    add(&mut text, second);
    value.set_from(text.as_slice());
}

/// The zeros that fill a text.
const ZEROS: [u8; VALUE_BYTES] = [0; VALUE_BYTES];

/// Makes the value the text with these bytes from this place on. Zeros fill what is missing before them.
pub fn overwrite(value: &mut Value, text: &[u8], offset: usize, bytes: &[u8])
    requires text { length text.now ≤ VALUE_BYTES }
    requires bytes { offset + length bytes.now ≤ VALUE_BYTES }
    ensures { value.new ≡ texts.overwritten offset bytes.now text.now }
{
    let front = offset.min(text.len());
    let end = (offset + bytes.len()).min(text.len());
    let mut whole = Text::new();
    add(&mut whole, &text[..front]);
    add(&mut whole, &ZEROS[..offset - front]);
    add(&mut whole, bytes);
    add(&mut whole, &text[end..]);
    value.set_from(whole.as_slice());
}
