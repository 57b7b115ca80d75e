//! Commands in a line.
ghost use Rattle.std.specs.Prelude.{◌≡◌, ◌≢◌, ◌∷◌, ◌↔◌, ◌≤◌, [], ℕ, List, true, length, IsTrue, IfOk, IfErr, IfSome, IfNone, OnOk};
ghost use Rattle.resp.specs.Streams.{StopsAt};
ghost use Rattle.resp.specs.Grammar.{texts, IsFaultyLine, IsOpenLine};
ghost use Rattle.resp.specs.LineWords.{is_blank as is_a_blank, is_no_blank, is_quote as is_a_quote, BeginsWord, HasWords};
ghost use Rattle.resp.specs.Reading.{Reads, Refuses, IfFaulty, EndsQuoted, NoWord};

use crate::command::Next;
use crate::fault::{NextFault, RespFault};
use crate::front::{after, after_blanks, before_end, first_of, is_blank, plain_word, quote_at};
use crate::limits::{COMMAND_WORDS, LINE_BYTES};
use crate::quotes::quoted_at;
use bumpalo::Bump;
use bumpalo::collections::into_bump_slice;
use std::alloc::AllocError;

/// Tests whether a word in quotes may end before these bytes.
fn is_end(bytes: &[u8]) -> bool
    ensures { IsTrue result ↔ StopsAt is_a_blank bytes.now }
{
    match first_of(bytes) {
        Some((first, _)) => is_blank(first),
        None => true,
    }
}

/// Returns the word that begins with these plain bytes and then is in quotes, and the bytes after it, if it may end there.
fn word_in_quotes<'b, 'w>(
    plain: &[u8],
    quote: u8,
    inside: &'b [u8],
    arena: &'w Bump,
) -> Result<Option<(&'w [u8], &'b [u8])>, AllocError>
    requires { is_a_quote quote ≡ true }
    ensures some { IfOk result (λ read. IfSome read (λ r. EndsQuoted plain.now quote inside.now r.0.now r.1.now)) }
    ensures none { IfOk result (λ read. IfNone read ((word rest : List ℕ) → EndsQuoted plain.now quote inside.now word rest → ⊥)) }
{
    let mut word = Vec::from_slice(arena, plain)?;
    let Some(rest) = quoted_at(inside, quote, &mut word)? else {
        return Ok(None);
    };
    if !is_end(rest) {
        return Ok(None);
    }
    Ok(Some((into_bump_slice(word), rest)))
}

/// Returns the word that the bytes begin with, and the bytes after it. A word with quotes is in the arena.
fn word_of<'b: 'w, 'w>(
    bytes: &'b [u8],
    arena: &'w Bump,
) -> Result<Option<(&'w [u8], &'b [u8])>, AllocError>
    requires some { 1 ≤ length bytes.now }
    requires start { StopsAt is_no_blank bytes.now }
    ensures some { IfOk result (λ read. IfSome read (λ r. BeginsWord bytes.now r.0.now r.1.now)) }
    ensures none { IfOk result (λ read. IfNone read (NoWord bytes.now)) }
{
    let (plain, tail) = plain_word(bytes);
    match quote_at(tail) {
        Some((quote, inside)) => word_in_quotes(plain, quote, inside, arena),
        None => Ok(Some((plain, tail))),
    }
}

/// Adds the words of the line.
fn split_line<'b: 'w, 'w>(
    line: &'b [u8],
    arena: &'w Bump,
    words: &mut Vec<&'w [u8]>,
) -> Result<(), NextFault>
    requires { words.old.items ≡ [] }
    ensures ok { OnOk result (HasWords line.now (texts words.new.items)) }
    ensures err { IfErr result (λ fault. IfFaulty fault (λ f. IsFaultyLine f line.now)) }
{
    let (_, first) = after_blanks(line);
    let mut rest = first;
    while !rest.is_empty() {
        let Some((word, tail)) = word_of(rest, arena)? else {
            return Err(NextFault::Faulty(RespFault::UnbalancedQuotes));
        };
        words.reserve(1)?;
        words.push_reserved(word);
        let (_, next) = after_blanks(tail);
        rest = next;
    }
    Ok(())
}

/// Reads a line whose newline is not there.
fn open_line_at<'b>(bytes: &'b [u8]) -> Result<Next<'b>, NextFault>
    requires { IsOpenLine bytes.now }
    ensures read { (words : List (List ℕ)) → IfOk result (λ next. Reads bytes.now words next) }
    ensures err { IfErr result (λ fault. Refuses bytes.now fault) }
{
    if bytes.len() > LINE_BYTES {
        return Err(NextFault::Faulty(RespFault::TooBigLine));
    }
    Ok(Next::More)
}

/// Reads the command of the line that begins the bytes.
pub fn line_at<'b: 'w, 'w>(
    bytes: &'b [u8],
    arena: &'w Bump,
    words: &mut Vec<&'w [u8]>,
) -> Result<Next<'b>, NextFault>
    requires none { words.old.items ≡ [] }
    requires line { (rest : List ℕ) → bytes.now ≢ 42 ∷ rest }
    ensures read { IfOk result (λ next. Reads bytes.now (texts words.new.items) next) }
    ensures err { IfErr result (λ fault. Refuses bytes.now fault) }
{
    let (line, tail) = before_end(bytes);
    let Some(rest) = after(tail, b'\n') else {
        return open_line_at(bytes);
    };
    if line.len() > LINE_BYTES {
        return Err(NextFault::Faulty(RespFault::TooBigLine));
    }
    if let Err(fault) = split_line(line, arena, words) {
        return Err(fault);
    }
    if words.is_empty() {
        return Ok(Next::Nothing(rest));
    }
    if words.len() > COMMAND_WORDS as usize {
        return Err(NextFault::Faulty(RespFault::TooManyWords));
    }
    Ok(Next::Command(rest))
}
