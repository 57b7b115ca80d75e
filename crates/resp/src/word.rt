//! Words of an array.
ghost use Rattle.std.specs.Prelude.{◌≡◌, ◌≤◌, ◌++◌, ◌∷◌, ℕ, List, length, IfOk, IfErr, IfSome, IfNone};
ghost use Rattle.resp.specs.Streams.{IsFrontOf, NeverBegins};
ghost use Rattle.resp.specs.Grammar.{IsWord, IsFaultyWord, IsNumberLine, number_line, word_bytes};
ghost use Rattle.resp.specs.Reading.{IsWordText, IsLengthLine};

use crate::fault::RespFault;
use crate::front::first_of;
use crate::limits::WORD_BYTES;
use crate::number::{newline_at, number_at};

/// Returns the most bytes of a word for which there is this much room, and the fault of a length that is no number up to that.
fn limit(room: u64) -> (u64, RespFault)
    ensures word { result.0 ≤ WORD_BYTES }
    ensures room { result.0 ≤ room }
    ensures fault { (rest : List ℕ) → NeverBegins (IsNumberLine result.0) rest → IsFaultyWord room result.1 (36 ∷ rest) }
{
    if room < WORD_BYTES {
        (room, RespFault::TooBigCommand)
    } else {
        (WORD_BYTES, RespFault::BadLength)
    }
}

/// Returns the length of a word whose line begins the bytes, and the bytes after the line, or none if it is not whole yet. There is room
/// for this many bytes.
#[tactic(auto, using(crate::proofs::WordLemmas::length_line))]
fn length_at(bytes: &[u8], room: u64) -> Result<Option<(u64, &[u8])>, RespFault>
    ensures range { IfOk result (λ read. IfSome read (λ r. r.0 ≤ WORD_BYTES)) }
    ensures fits { IfOk result (λ read. IfSome read (λ r. r.0 ≤ room)) }
    ensures some { IfOk result (λ read. IfSome read (λ r. bytes.now ≡ number_line r.0 ++ r.1.now)) }
    ensures none { IfOk result (λ read. IfNone read (IsFrontOf (IsLengthLine room) bytes.now)) }
    ensures err { IfErr result (λ fault. IsFaultyWord room fault (36 ∷ bytes.now)) }
{
    let (most, above) = limit(room);
    match number_at(bytes, most) {
        Ok(Some((len, rest))) => Ok(Some((len, rest))),
        Ok(None) => Ok(None),
        Err(_) => Err(above),
    }
}

/// Returns the word that the bytes begin with, and the bytes after it, or none if it is not whole yet. There is room for this many
/// bytes.
#[tactic(auto, using(crate::proofs::WordLemmas::word_of_nothing))]
pub fn word_at(bytes: &[u8], room: u64) -> Result<Option<(&[u8], &[u8])>, RespFault>
    ensures some { IfOk result (λ read. IfSome read (λ r. IsWord r.0.now × (bytes.now ≡ word_bytes r.0.now ++ r.1.now))) }
    ensures fits { IfOk result (λ read. IfSome read (λ r. length r.0.now ≤ room)) }
    ensures none { IfOk result (λ read. IfNone read (IsFrontOf (IsWordText room) bytes.now)) }
    ensures err { IfErr result (λ fault. IsFaultyWord room fault bytes.now) }
{
    let Some((mark, head)) = first_of(bytes) else {
        return Ok(None);
    };
    if mark != b'$' {
        return Err(RespFault::NoDollar(mark));
    }
    let (len, body) = match length_at(head, room) {
        Ok(Some(read)) => read,
        Ok(None) => return Ok(None),
        Err(fault) => return Err(fault),
    };
    let Some((word, end)) = body.split_at_checked(len as usize) else {
        return Ok(None);
    };
    match newline_at(end) {
        Ok(Some(rest)) => Ok(Some((word, rest))),
        Ok(None) => Ok(None),
        Err(_) => Err(RespFault::NoNewline),
    }
}
