//! How clap's text is told: the words of the command line that it echoes are cut, and bytes that do not print are spelled.
ghost use Rattle.std.specs.Prelude.{◌≡◌, ◌≤◌, ◌++◌, IfOk, OnOk, length, max};
ghost use Rattle.clap.specs.Walk.{texts};
ghost use Rattle.map_commands.specs.Shown.{shown_byte, shown_word, shown_own, before_equals, behind_equals, echo_length, word_echo, longest_echo, told};

use crate::report::digits;
use bpf_model::NoMemory;
use std::alloc::Global;

/// How many bytes of a word are shown.
const MOST_SHOWN: usize = 80;

/// Shows a byte: itself if it prints, else its digits, as `\x1b`.
fn show_byte(shown: &mut Vec<u8>, byte: u8) -> Result<(), NoMemory>
    ensures { OnOk result (shown.new.items ≡ shown.old.items ++ shown_byte byte) }
{
    if matches!(byte, b' '..=b'~') {
        shown.push(byte)?;
        return Ok(());
    }
    let (high, low) = digits(byte);
    shown.extend_from_slice(&[b'\\', b'x', high, low])?;
    Ok(())
}

/// Shows a byte of clap's own; a newline stays.
fn show_own(shown: &mut Vec<u8>, byte: u8) -> Result<(), NoMemory>
    ensures { OnOk result (shown.new.items ≡ shown.old.items ++ shown_own byte) }
{
    if byte == b'\n' {
        shown.push(byte)?;
        return Ok(());
    }
    show_byte(shown, byte)
}

/// Shows the first bytes of a word, and three dots for the others.
fn show_word(shown: &mut Vec<u8>, word: &[u8]) -> Result<(), NoMemory>
    ensures { OnOk result (shown.new.items ≡ shown.old.items ++ shown_word word.now) }
{
    let front = &word[..word.len().min(MOST_SHOWN)];
    for byte in front {
        show_byte(shown, *byte)?;
    }
    if word.len() > MOST_SHOWN {
        shown.extend_from_slice(b"...")?;
    }
    Ok(())
}

/// Returns what stands before and after the first `=` of a word. If there is none, all of it stands before.
fn around_equals(word: &[u8]) -> (&[u8], &[u8])
    ensures before { result.0.now ≡ before_equals word.now }
    ensures behind { result.1.now ≡ behind_equals word.now }
{
    for (index, byte) in word.iter().enumerate() {
        if *byte == b'=' {
            return (&word[..index], &word[index + 1..]);
        }
    }
    (word, &[])
}

/// Returns the length of the echo if the text begins with it, else 0.
fn echo_length(text: &[u8], echo: &[u8]) -> usize
    ensures value { result ≡ echo_length text.now echo.now }
    ensures inside { result ≤ length text.now }
{
    if text.starts_with(echo) {
        echo.len()
    } else {
        0
    }
}

/// Returns the length of the longest echo of the word with which the text begins: all of it, or what stands before or
/// after its first `=`.
fn word_echo(text: &[u8], word: &[u8]) -> usize
    ensures value { result ≡ word_echo text.now word.now }
    ensures inside { result ≤ length text.now }
{
    let (before, behind) = around_equals(word);
    let part = echo_length(text, before).max(echo_length(text, behind));
    echo_length(text, word).max(part)
}

/// The length of the longest echo of one of the words with which the text begins.
fn longest_echo(text: &[u8], words: &[&str]) -> usize
    ensures value { result ≡ longest_echo text.now (texts words.now) }
    ensures inside { result ≤ length text.now }
{
    let mut longest: usize = 0;
    for word in words {
        longest = longest.max(word_echo(text, word.as_bytes()));
    }
    longest
}

/// Returns the text as it is told if it may echo these words.
pub(crate) fn told(alloc: Global, text: &str, words: &[&str]) -> Result<Vec<u8>, NoMemory>
    ensures { IfOk result (λ shown. shown.items ≡ told (texts words.now) text.now) }
{
    let mut shown = Vec::new(alloc);
    let mut rest = text.as_bytes();
    while !rest.is_empty() {
        let length = longest_echo(rest, words);
        if length == 0 {
            show_own(&mut shown, rest[0])?;
            rest = &rest[1..];
        } else {
            show_word(&mut shown, &rest[..length])?;
            rest = &rest[length..];
        }
    }
    Ok(shown)
}
