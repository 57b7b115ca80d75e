//! Numbers in text.
ghost use Rattle.std.specs.Prelude.{◌≡◌, ◌≢◌, ◌+◌, ◌≤◌, ◌^◌, ◌++◌, ◌∷◌, ℕ, ℤ, decimal, length, FitsSigned, IfOk, IfSome, IfNone, OnErr};
ghost use Rattle.std.specs.Fmt.{signed_decimal};
ghost use Rattle.std.specs.Int.{w64};
ghost use Rattle.resp.specs.Streams.{IsFrontOf, NeverBegins, StopsAt};
ghost use Rattle.resp.specs.Grammar.{newline, number_line, IsNewline, IsNumberLine};
ghost use Rattle.resp.specs.Reading.{is_other, NoDigits};

use crate::front::{after, first_of};

/// The text is no number, or one above the limit.
#[derive(Clone, Copy, Debug, PartialEq, Eq)]
pub struct NoNumber;

/// No end of a line is here.
#[derive(Clone, Copy, Debug, PartialEq, Eq)]
pub struct NoEnd;

/// Returns the digit that the bytes begin with, and the bytes after it.
fn digit_at(bytes: &[u8]) -> Option<(u8, &[u8])>
    ensures some { IfSome result (λ r. (r.0 ≤ 9) × (bytes.now ≡ (48 + r.0) ∷ r.1.now)) }
    ensures none { IfNone result (StopsAt is_other bytes.now) }
{
    let (first, rest) = first_of(bytes)?;
    if !first.is_ascii_digit() {
        return None;
    }
    Some((first - b'0', rest))
}

/// Returns the number up to this one whose digits the bytes begin with, and the bytes after its last digit.
fn digits_at(bytes: &[u8], most: u64) -> Option<(u64, &[u8])>
    requires { most ≤ 2 ^ 63 }
    ensures range { IfSome result (λ r. r.0 ≤ most) }
    ensures some { IfSome result (λ r. bytes.now ≡ decimal r.0 ++ r.1.now) }
    ensures ends { IfSome result (λ r. StopsAt is_other r.1.now) }
    ensures none { IfNone result (1 ≤ length bytes.now → NoDigits most bytes.now) }
{
    let (first, tail) = digit_at(bytes)?;
    let mut n = u64::from(first);
    let mut rest = tail;
    while let Some((digit, tail)) = digit_at(rest) {
        if n == 0 || n > most / 10 {
            return None;
        }
        n = 10 * n + u64::from(digit);
        rest = tail;
    }
    if n > most {
        return None;
    }
    Some((n, rest))
}

/// Returns the bytes after the end of a line that begins them, or none if it is not whole yet. An error means that none
/// can begin them.
pub fn newline_at(bytes: &[u8]) -> Result<Option<&[u8]>, NoEnd>
    ensures some { IfOk result (λ read. IfSome read (λ rest. bytes.now ≡ newline ++ rest.now)) }
    ensures none { IfOk result (λ read. IfNone read (IsFrontOf IsNewline bytes.now)) }
    ensures err { OnErr result (NeverBegins IsNewline bytes.now) }
{
    if bytes.is_empty() {
        return Ok(None);
    }
    let Some(tail) = after(bytes, b'\r') else {
        return Err(NoEnd);
    };
    if tail.is_empty() {
        return Ok(None);
    }
    let Some(rest) = after(tail, b'\n') else {
        return Err(NoEnd);
    };
    Ok(Some(rest))
}

/// Returns the number up to this one whose line begins the bytes, and the bytes after the line, or none if it is not whole
/// yet. An error means that none can begin them.
pub fn number_at(bytes: &[u8], most: u64) -> Result<Option<(u64, &[u8])>, NoNumber>
    requires { most ≤ 2 ^ 63 }
    ensures range { IfOk result (λ read. IfSome read (λ r. r.0 ≤ most)) }
    ensures some { IfOk result (λ read. IfSome read (λ r. bytes.now ≡ number_line r.0 ++ r.1.now)) }
    ensures none { IfOk result (λ read. IfNone read (IsFrontOf (IsNumberLine most) bytes.now)) }
    ensures err { OnErr result (NeverBegins (IsNumberLine most) bytes.now) }
{
    if bytes.is_empty() {
        return Ok(None);
    }
    let Some((n, tail)) = digits_at(bytes, most) else {
        return Err(NoNumber);
    };
    match newline_at(tail) {
        Ok(Some(rest)) => Ok(Some((n, rest))),
        Ok(None) => Ok(None),
        Err(NoEnd) => Err(NoNumber),
    }
}

/// Returns the number up to this one of which the text is the digits.
fn whole_number(text: &[u8], most: u64) -> Option<u64>
    requires { most ≤ 2 ^ 63 }
    ensures some { IfSome result (λ n. (n ≤ most) × (text.now ≡ decimal n)) }
    ensures none { IfNone result ((n : ℕ) → n ≤ most → text.now ≢ decimal n) }
{
    let (n, rest) = digits_at(text, most)?;
    if !rest.is_empty() {
        return None;
    }
    Some(n)
}

const MOST_NEGATIVE: u64 = 1 << 63;

/// Returns the number of which the text is the decimal form: a `-` if it is negative, and digits without a leading zero.
pub fn integer(text: &[u8]) -> Option<i64>
    ensures some { IfSome result (λ n. text.now ≡ signed_decimal n) }
    ensures none { IfNone result ((n : ℤ) → FitsSigned w64 n → text.now ≢ signed_decimal n) }
{
    let Some(digits) = after(text, b'-') else {
        return whole_number(text, MOST_NEGATIVE - 1).map(|n| n as i64);
    };
    let n = whole_number(digits, MOST_NEGATIVE)?;
    if n == 0 {
        return None;
    }
    Some(-1 - (n - 1) as i64)
}
