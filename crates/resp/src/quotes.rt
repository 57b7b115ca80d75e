//! Words in quotes.
ghost use Rattle.std.specs.Prelude.{◌≡◌, ◌∷◌, ◌++◌, ◌<◌, ◌≤◌, ℕ, List, true, IfSome, IfNone, IfOk};
ghost use Rattle.std.specs.Char.{digit_value};
ghost use Rattle.resp.specs.LineWords.{is_quote as is_a_quote, escaped as escaped_as, IsHex, IsDoubleItem, IsSingleItem, IsItem, IsInQuotes};

use crate::front::{after, first_of};
use bumpalo::Bump;
use std::alloc::AllocError;

/// Returns the value of a hex digit.
fn hex_value(digit: u8) -> Option<u8>
    ensures some { IfSome result (λ value. (digit_value digit < 16) × (value ≡ digit_value digit)) }
    ensures none { IfNone result (16 ≤ digit_value digit) }
{
    let value = (digit as char).to_digit(16)?;
    Some(value as u8)
}

/// Returns the byte of `xHH`, and the bytes after that.
fn hex_at(bytes: &[u8]) -> Option<(u8, &[u8])>
    ensures some { IfSome result (λ r. IsHex bytes.now r.0 r.1.now) }
    ensures none { IfNone result ((byte : ℕ) (rest : List ℕ) → IsHex bytes.now byte rest → ⊥) }
{
    let [b'x', high, low, rest @ ..] = bytes else {
        return None;
    };
    let high = hex_value(*high)?;
    let low = hex_value(*low)?;
    Some((16 * high + low, rest))
}

/// Returns what a byte is after a backslash.
fn escaped(byte: u8) -> u8
    ensures { result ≡ escaped_as byte }
{
    match byte {
        b'n' => b'\n',
        b'r' => b'\r',
        b't' => b'\t',
        b'b' => 8,
        b'a' => 7,
        other => other,
    }
}

/// Returns the byte that an escape stands for after its backslash, and the bytes after it.
fn escape_at(bytes: &[u8]) -> Option<(u8, &[u8])>
    ensures some { IfSome result (λ r. IsDoubleItem (92 ∷ bytes.now) r.0 r.1.now) }
    ensures none { IfNone result ((byte : ℕ) (rest : List ℕ) → IsDoubleItem (92 ∷ bytes.now) byte rest → ⊥) }
{
    if let Some(read) = hex_at(bytes) {
        return Some(read);
    }
    let (byte, rest) = first_of(bytes)?;
    Some((escaped(byte), rest))
}

/// Returns the next byte of a word between `"`, and the bytes after it.
fn double_item(bytes: &[u8]) -> Option<(u8, &[u8])>
    ensures some { IfSome result (λ r. IsDoubleItem bytes.now r.0 r.1.now) }
    ensures none { IfNone result ((byte : ℕ) (rest : List ℕ) → IsDoubleItem bytes.now byte rest → ⊥) }
{
    let (first, rest) = first_of(bytes)?;
    match first {
        b'"' => None,
        b'\\' => escape_at(rest),
        _ => Some((first, rest)),
    }
}

/// Returns the next byte of a word between `'`, and the bytes after it.
fn single_item(bytes: &[u8]) -> Option<(u8, &[u8])>
    ensures some { IfSome result (λ r. IsSingleItem bytes.now r.0 r.1.now) }
    ensures none { IfNone result ((byte : ℕ) (rest : List ℕ) → IsSingleItem bytes.now byte rest → ⊥) }
{
    match bytes {
        [b'\\', b'\'', rest @ ..] => Some((b'\'', rest)),
        [b'\'', ..] => None,
        [first, rest @ ..] => Some((*first, rest)),
        [] => None,
    }
}

/// Returns the next byte of a word between these quotes, and the bytes after it.
fn item(bytes: &[u8], quote: u8) -> Option<(u8, &[u8])>
    requires { is_a_quote quote ≡ true }
    ensures some { IfSome result (λ r. IsItem quote bytes.now r.0 r.1.now) }
    ensures none { IfNone result ((byte : ℕ) (rest : List ℕ) → IsItem quote bytes.now byte rest → ⊥) }
{
    if quote == b'"' {
        return double_item(bytes);
    }
    single_item(bytes)
}

/// Adds the bytes before the other quote, as they are meant, and returns the bytes after it, if it is there.
pub fn quoted_at<'b, 'w>(
    bytes: &'b [u8],
    quote: u8,
    word: &mut Vec<u8, &'w Bump>,
) -> Result<Option<&'b [u8]>, AllocError>
    requires { is_a_quote quote ≡ true }
    ensures some { IfOk result (λ read. IfSome read (λ rest. (quoted : List ℕ)
        × IsInQuotes quote bytes.now quoted rest.now × (word.new.items ≡ word.old.items ++ quoted))) }
    ensures none { IfOk result (λ read. IfNone read ((quoted rest : List ℕ) → IsInQuotes quote bytes.now quoted rest → ⊥)) }
{
    let mut rest = bytes;
    while let Some((byte, next)) = item(rest, quote) {
        word.reserve(1)?;
        word.push_reserved(byte);
        rest = next;
    }
    Ok(after(rest, quote))
}
