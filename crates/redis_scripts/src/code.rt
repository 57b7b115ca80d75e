//! The code of a script: without comments, blanks at the ends of lines and empty lines.
ghost use Rattle.std.specs.Prelude.{◌≡◌, ◌++◌, option_copied, OnOk, IfOk};
ghost use Rattle.redis_scripts.specs.Pieces.{pieces, pieces_after};
ghost use Rattle.redis_scripts.specs.Code.{is_blank, begins_with, begins_comment, before_comment, without_front_blanks, without_end_blanks, code_of, code_line, code_of_all, line_with_code};

use crate::pieces::cut;
use bpf_model::NoMemory;
use std::alloc::{AllocError, Global};

/// Tests whether it is a blank, a tab or a carriage return.
fn is_blank(c: u8) -> bool
    ensures { result ≡ is_blank c }
{
    c == b' ' || c == b'\t' || c == b'\r'
}

/// Tests whether this byte is first in the text.
fn begins_with(byte: u8, text: &[u8]) -> bool
    ensures { result ≡ begins_with byte text.now }
{
    match text {
        [] => false,
        [first, ..] => *first == byte,
    }
}

/// Tests whether a comment begins here.
fn begins_comment(text: &[u8]) -> bool
    ensures { result ≡ begins_comment text.now }
{
    match text {
        [] => false,
        [first, rest @ ..] => {
            *first == b';' || *first == b'#' || (*first == b'/' && begins_with(b'/', rest))
        }
    }
}

/// Returns what is before the line's comment: the whole line if it has none.
fn before_comment(line: &[u8]) -> &[u8]
    ensures { result.now ≡ before_comment line.now }
{
    for place in 0..line.len() {
        if begins_comment(&line[place..]) {
            return &line[..place];
        }
    }
    line
}

/// Returns the text without the blanks in front.
fn without_front_blanks(text: &[u8]) -> &[u8]
    ensures { result.now ≡ without_front_blanks text.now }
{
    let mut rest = text;
    while let [first, after @ ..] = rest
        && is_blank(*first)
    {
        rest = after;
    }
    rest
}

/// Returns the text without the blanks at its end.
pub(crate) fn without_end_blanks(text: &[u8]) -> &[u8]
    ensures { result.now ≡ without_end_blanks text.now }
{
    let mut rest = text;
    while let [before @ .., last] = rest
        && is_blank(*last)
    {
        rest = before;
    }
    rest
}

/// Returns the code in a line.
#[tactic(auto, unfolding(crate::specs::Code::code_of))]
fn code_of(line: &[u8]) -> &[u8]
    ensures { result.now ≡ code_of line.now }
{
    without_end_blanks(without_front_blanks(before_comment(line)))
}

/// Adds the line's code and a newline, if it has code.
fn add_code(code: &mut Vec<u8>, line: &[u8]) -> Result<(), AllocError>
    ensures { OnOk result (code.new.items ≡ code.old.items ++ code_line line.now) }
{
    let found = code_of(line);
    if !found.is_empty() {
        code.extend_from_slice(found)?;
        code.extend_from_slice(b"\n")?;
    }
    Ok(())
}

/// Returns the code of all lines, each with a newline. `NoMemory` if a request for memory is refused.
pub(crate) fn code_of_all(alloc: Global, lines: Option<&[u8]>) -> Result<Vec<u8>, NoMemory>
    ensures { IfOk result (λ code. code.items ≡ code_of_all (pieces_after 10 (option_copied lines.entry))) }
{
    let mut code = Vec::new(alloc);
    let mut rest = lines;
    while let Some(text) = rest {
        let (line, after) = cut(text, b'\n');
        add_code(&mut code, line)?;
        rest = after;
    }
    Ok(code)
}

/// Returns the number of the text's line that has the `nth` code, if the first line has number 2.
fn line_in(text: &[u8], nth: usize) -> usize
    ensures { result ≡ line_with_code 2 nth (pieces 10 text.now) }
{
    let mut number = 2;
    let mut left = nth;
    let mut rest = Some(text);
    while let Some(text) = rest {
        let (line, after) = cut(text, b'\n');
        if !code_of(line).is_empty() {
            if left <= 1 {
                return number;
            }
            left -= 1;
        }
        number += 1;
        rest = after;
    }
    number
}

/// The same for lines that may be none.
pub(crate) fn line_with_code(lines: Option<&[u8]>, nth: usize) -> usize
    ensures { result ≡ line_with_code 2 nth (pieces_after 10 (option_copied lines.entry)) }
{
    match lines {
        Some(text) => line_in(text, nth),
        None => 2,
    }
}
