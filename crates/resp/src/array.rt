//! Commands in an array.
ghost use Rattle.std.specs.Prelude.{◌≡◌, ◌≢◌, ◌≤◌, ◌++◌, ◌∷◌, [], ℕ, List, length, All, IfOk, IfErr, IfSome, IfNone, OnErr};
ghost use Rattle.resp.specs.Streams.{IsFrontOf, NeverBegins};
ghost use Rattle.resp.specs.Grammar.{texts, words_bytes, bytes_of, IsWord};
ghost use Rattle.resp.specs.Reading.{Reads, Refuses, IfFaulty, IsPositiveLine, LacksWords, FailsWords};

use crate::command::Next;
use crate::fault::{NextFault, RespFault};
use crate::front::after;
use crate::limits::{COMMAND_BYTES, COMMAND_WORDS};
use crate::number::{NoNumber, number_at};
use crate::word::word_at;

const MOST_NEGATIVE: u64 = 1 << 63;

/// Returns the bytes after the line of a number from 1 on, or none if it is not whole yet. An error means that none can
/// begin them.
fn after_positive(bytes: &[u8]) -> Result<Option<&[u8]>, NoNumber>
    ensures some { IfOk result (λ read. IfSome read (λ rest. (front : List ℕ) × IsPositiveLine front × (bytes.now ≡ front ++ rest.now))) }
    ensures none { IfOk result (λ read. IfNone read (IsFrontOf IsPositiveLine bytes.now)) }
    ensures err { OnErr result (NeverBegins IsPositiveLine bytes.now) }
{
    if let Some(_) = after(bytes, b'0') {
        return Err(NoNumber);
    }
    match number_at(bytes, MOST_NEGATIVE) {
        Ok(Some((_, rest))) => Ok(Some(rest)),
        Ok(None) => Ok(None),
        Err(fault) => Err(fault),
    }
}

/// Adds this many words that begin the bytes, and returns the bytes after them, or none if they are not whole yet.
fn words_at<'b: 'w, 'w>(
    count: u64,
    bytes: &'b [u8],
    words: &mut Vec<&'w [u8]>,
) -> Result<Option<&'b [u8]>, NextFault>
    requires { words.old.items ≡ [] }
    ensures len { IfOk result (λ next. IfSome next (λ _. length words.new.items ≡ count)) }
    ensures words { IfOk result (λ next. IfSome next (λ _. All IsWord (texts words.new.items))) }
    ensures fit { IfOk result (λ next. IfSome next (λ _. bytes_of (texts words.new.items) ≤ COMMAND_BYTES)) }
    ensures some { IfOk result (λ next. IfSome next (λ rest. bytes.now ≡ words_bytes (texts words.new.items) ++ rest.now)) }
    ensures none { IfOk result (λ next. IfNone next (LacksWords count bytes.now)) }
    ensures err { IfErr result (λ fault. IfFaulty fault (λ f. FailsWords count f bytes.now)) }
{
    let mut rest = bytes;
    let mut room = COMMAND_BYTES;
    for _ in 0..count {
        let (word, next) = match word_at(rest, room) {
            Ok(Some(read)) => read,
            Ok(None) => return Ok(None),
            Err(fault) => return Err(NextFault::Faulty(fault)),
        };
        words.reserve(1)?;
        words.push_reserved(word);
        room -= word.len() as u64;
        rest = next;
    }
    Ok(Some(rest))
}

/// Reads the array after a `*` and its `-`.
fn empty_array_at<'b>(digits: &'b [u8]) -> Result<Next<'b>, NextFault>
    ensures read { (words : List (List ℕ)) → IfOk result (λ next. Reads (42 ∷ 45 ∷ digits.now) words next) }
    ensures err { IfErr result (λ fault. Refuses (42 ∷ 45 ∷ digits.now) fault) }
{
    match after_positive(digits) {
        Ok(Some(rest)) => Ok(Next::Nothing(rest)),
        Ok(None) => Ok(Next::More),
        Err(_) => Err(NextFault::Faulty(RespFault::BadCount)),
    }
}

/// Reads the array after its `*`.
fn full_array_at<'b: 'w, 'w>(
    head: &'b [u8],
    words: &mut Vec<&'w [u8]>,
) -> Result<Next<'b>, NextFault>
    requires none { words.old.items ≡ [] }
    requires sign { (digits : List ℕ) → head.now ≢ 45 ∷ digits }
    ensures read { IfOk result (λ next. Reads (42 ∷ head.now) (texts words.new.items) next) }
    ensures err { IfErr result (λ fault. Refuses (42 ∷ head.now) fault) }
{
    let (count, rest) = match number_at(head, COMMAND_WORDS) {
        Ok(Some(read)) => read,
        Ok(None) => return Ok(Next::More),
        Err(_) => return Err(NextFault::Faulty(RespFault::BadCount)),
    };
    if count == 0 {
        return Ok(Next::Nothing(rest));
    }
    match words_at(count, rest, words) {
        Ok(Some(after)) => Ok(Next::Command(after)),
        Ok(None) => Ok(Next::More),
        Err(fault) => Err(fault),
    }
}

/// Reads the array after its `*`.
pub fn array_at<'b: 'w, 'w>(
    head: &'b [u8],
    words: &mut Vec<&'w [u8]>,
) -> Result<Next<'b>, NextFault>
    requires { words.old.items ≡ [] }
    ensures read { IfOk result (λ next. Reads (42 ∷ head.now) (texts words.new.items) next) }
    ensures err { IfErr result (λ fault. Refuses (42 ∷ head.now) fault) }
{
    match after(head, b'-') {
        Some(digits) => empty_array_at(digits),
        None => full_array_at(head, words),
    }
}
