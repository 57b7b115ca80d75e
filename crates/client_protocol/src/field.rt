//! Fields at the front of bytes.
ghost use Rattle.std.specs.Prelude.{◌≡◌, ◌≤◌, ◌<◌, [], ◌++◌, length, IfSome, IfNone};
ghost use Rattle.client_protocol.specs.Bodies.{Kind, Field as TheField, limits_after};
ghost use Rattle.client_protocol.specs.Bodies.Kind.{a_byte, a_short, a_long, a_key, a_value, an_opt};
ghost use Rattle.client_protocol.specs.Bodies.Field.{byte, short, long, key as the_key, value as the_value, opt};
ghost use Rattle.client_protocol.specs.Buffers.{optional};
ghost use Rattle.client_protocol.specs.Reading.{TakesField, NoField};

use crate::limits::{Limits, Version};
use crate::request::OptionalValue;
use bpf_model::limits::KEY_BYTES;
use bpf_model::{Key, Value};

/// The length that stands for an absent value.
const ABSENT: u16 = 0xFFFF;

/// A field that bytes may begin with.
pub trait Field: Sized {
    ghost kind: { Kind };

    ghost field: { Self → TheField };

    /// Reads the field that begins the bytes into `self`, and returns the bytes after it, or `None` if there are too few
    /// bytes or the field is above its limit. The old contents of `self` are lost.
    fn read<'b>(&mut self, hello: Option<Version>, bytes: &'b [u8]) -> Option<&'b [u8]>
        ensures some { IfSome result (λ rest.
            TakesField (limits_after hello) kind bytes.now (field self.new) rest.now) }
        ensures none { IfNone result (NoField (limits_after hello) kind bytes.now) };
}

impl Field for u8 {
    ghost kind = { a_byte };

    ghost field = { byte };

    fn read<'b>(&mut self, _: Option<Version>, bytes: &'b [u8]) -> Option<&'b [u8]> {
        match bytes {
            [] => None,
            [byte, rest @ ..] => {
                *self = *byte;
                Some(rest)
            }
        }
    }
}

/// Returns the number of 16 bits that begins the bytes, and the bytes after it, or `None` if there are too few.
pub fn short_at(hello: Option<Version>, bytes: &[u8]) -> Option<(u16, &[u8])>
    ensures some { IfSome result (λ r. TakesField (limits_after hello) a_short bytes.now (short r.0) r.1.now) }
    ensures none { IfNone result (NoField (limits_after hello) a_short bytes.now) }
{
    match bytes {
        [high, low, rest @ ..] => Some((u16::from_be_bytes([*high, *low]), rest)),
        _ => None,
    }
}

impl Field for u64 {
    ghost kind = { a_long };

    ghost field = { long };

    fn read<'b>(&mut self, _: Option<Version>, bytes: &'b [u8]) -> Option<&'b [u8]> {
        match bytes {
            [a, b, c, d, e, f, g, h, rest @ ..] => {
                *self = u64::from_be_bytes([*a, *b, *c, *d, *e, *f, *g, *h]);
                Some(rest)
            }
            _ => None,
        }
    }
}

impl Field for Key {
    ghost kind = { a_key };

    ghost field = { the_key };

    fn read<'b>(&mut self, _: Option<Version>, bytes: &'b [u8]) -> Option<&'b [u8]> {
        let (len, rest) = bytes.split_first()?;
        let len = usize::from(*len);
        if len > rest.len() || len > KEY_BYTES {
            return None;
        }
        let (front, rest) = rest.split_at(len);
        self.set_from(front);
        Some(rest)
    }
}

/// Copies the first `len` bytes into this value, and returns the bytes after them.
fn read_value<'b>(
    value: &mut Value,
    hello: Option<Version>,
    len: u16,
    bytes: &'b [u8],
) -> Option<&'b [u8]>
    ensures some { IfSome result (λ rest. (bytes.now ≡ value.new ++ rest.now) × (length value.new ≡ len)
        × (len ≤ (limits_after hello).value)) }
    ensures none { IfNone result (len ≤ (limits_after hello).value → length bytes.now < len) }
{
    let len = usize::from(len);
    if len > bytes.len() || len > Limits::after(hello).value {
        return None;
    }
    let (front, rest) = bytes.split_at(len);
    value.set_from(front);
    Some(rest)
}

impl Field for Value {
    ghost kind = { a_value };

    ghost field = { the_value };

    fn read<'b>(&mut self, hello: Option<Version>, bytes: &'b [u8]) -> Option<&'b [u8]> {
        let Some((len, rest)) = short_at(hello, bytes) else {
            return None;
        };
        let Some(rest) = read_value(self, hello, len, rest) else {
            return None;
        };
        Some(rest)
    }
}

impl Field for OptionalValue {
    ghost kind = { an_opt };

    ghost field = { λ other. opt (optional other) };

    fn read<'b>(&mut self, hello: Option<Version>, bytes: &'b [u8]) -> Option<&'b [u8]> {
        let Some((len, rest)) = short_at(hello, bytes) else {
            return None;
        };
        if len == ABSENT {
            self.is_there = false;
            return Some(rest);
        }
        let Some(rest) = read_value(&mut self.value, hello, len, rest) else {
            return None;
        };
        self.is_there = true;
        Some(rest)
    }
}
