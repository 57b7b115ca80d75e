//! What the server tells of itself.
ghost use Rattle.std.specs.Prelude.{◌≡◌, ◌<◌, ◌≤◌, ◌+◌, ◌^◌, ◌∷◌, [], ◌++◌, ℕ, List, Option, length, count_by, option_copied, IfOk, OnOk};
ghost use Rattle.std.specs.Str.{str_eq_ignore_ascii_case};
ghost use Rattle.devices.specs.Devices.{SinkState, CanWrite};
ghost use Rattle.redis_commands.specs.Commands.{texts};
ghost use Rattle.redis_service.specs.Replied.{replied_bytes};
ghost use Rattle.redis_service.specs.Sending.{Sends};
ghost use Rattle.redis_service.specs.Server.{joined, setting_of, is_slow_setting, least_text, is_setting, setting_bytes, config_bytes};
ghost use Rattle.redis_service.specs.Texts.{text_of};

use crate::reply::Replied;
use bpf_model::NoMemory;
use devices::{Failed, Sink};
use itoa::Buffer;
use std::alloc::Global;

/// Returns the texts, one after the other.
pub fn joined(alloc: Global, parts: &[&[u8]]) -> Result<Vec<u8>, NoMemory>
    ensures { IfOk result (λ text. text.items ≡ joined (texts parts.now)) }
{
    let mut text = Vec::new(alloc);
    for part in parts {
        let Ok(()) = text.extend_from_slice(part) else {
            return Err(NoMemory);
        };
    }
    Ok(text)
}

/// Tests whether a word is this one, in any case.
pub fn is(name: &str, word: &[u8]) -> bool
    ensures { result ≡ str_eq_ignore_ascii_case name.now word.now }
{
    name.as_bytes().eq_ignore_ascii_case(word)
}

/// Returns the reply about the setting that the word names, or none.
fn setting(word: &[u8]) -> Option<&'static [u8]>
    ensures { option_copied result ≡ setting_of word.now }
{
    if is("save", word) {
        return Some(b"$4\r\nsave\r\n$0\r\n\r\n");
    }
    if is("appendonly", word) {
        return Some(b"$10\r\nappendonly\r\n$2\r\nno\r\n");
    }
    if is("maxmemory", word) {
        return Some(b"$9\r\nmaxmemory\r\n$1\r\n0\r\n");
    }
    if is("databases", word) {
        return Some(b"$9\r\ndatabases\r\n$1\r\n1\r\n");
    }
    if is("timeout", word) {
        return Some(b"$7\r\ntimeout\r\n$1\r\n0\r\n");
    }
    if is("slowlog-max-len", word) {
        return Some(b"$15\r\nslowlog-max-len\r\n$3\r\n128\r\n");
    }
    None
}

/// Tests whether the word names the setting that says which commands SLOWLOG keeps.
fn is_slow_setting(word: &[u8]) -> bool
    ensures { result ≡ is_slow_setting word.now }
{
    is("slowlog-log-slower-than", word)
}

/// Returns from how many microseconds on SLOWLOG keeps a command, in digits; if it keeps none, -1.
fn least_text(least: Option<u64>, buffer: &mut Buffer) -> &[u8]
    ensures { result.now ≡ least_text least }
{
    match least {
        Some(least) => buffer.format(least).as_bytes(),
        None => b"-1",
    }
}

/// Returns the reply about the setting that the word names, or no bytes.
fn setting_of(word: &[u8]) -> Replied
    ensures { (found : List ℕ) → replied_bytes result found ≡ text_of (setting_of word.now) }
{
    match setting(word) {
        Some(bytes) => Replied::Bytes(bytes),
        None => Replied::Bytes(&[]),
    }
}

/// Returns the count, and one more if the word names a setting.
fn one_more(count: usize, word: &[u8]) -> usize
    requires { count < 2 ^ 62 }
    ensures { result ≡ count + count_by is_setting (word.now ∷ []) }
{
    if is_slow_setting(word) || setting(word).is_some() {
        count + 1
    } else {
        count
    }
}

/// Returns the number of words that name settings.
fn count_settings(words: &[&[u8]]) -> usize
    ensures count { result ≡ count_by is_setting (texts words.now) }
    ensures most { result ≤ length words.now }
{
    let mut count = 0;
    for word in words {
        count = one_more(count, word);
    }
    count
}

/// Says the setting that the word names, if it names one, and no write before failed. This text is that of the least time of SLOWLOG.
fn put_setting<W: Sink>(
    sent: Result<(), Failed>,
    least: &[u8],
    word: &[u8],
    sink: &mut W,
) -> Result<(), Failed>
    requires { OnOk sent (CanWrite (W.state sink.old)) }
    ensures more { (before : SinkState) (said : List ℕ) (time : Option ℕ) → least.now ≡ least_text time → Sends sent before (W.state sink.old) said
        → Sends result before (W.state sink.new) (said ++ setting_bytes time word.now) }
    ensures can { OnOk result (CanWrite (W.state sink.new)) }
{
    if is_slow_setting(word) {
        let name = Replied::Bytes(b"$23\r\nslowlog-log-slower-than\r\n");
        let sent = name.send_after(sent, &[], sink);
        return Replied::Found.send_after(sent, least, sink);
    }
    setting_of(word).send_after(sent, &[], sink)
}

/// Says the settings that the words name. SLOWLOG keeps commands from this number of microseconds on, or none.
pub fn put_settings<W: Sink>(
    least: Option<u64>,
    words: &[&[u8]],
    sink: &mut W,
) -> Result<(), Failed>
    requires { CanWrite (W.state sink.old) }
    ensures { Sends result (W.state sink.old) (W.state sink.new) (config_bytes least (texts words.now)) }
{
    let count = count_settings(words);
    let mut buffer = Buffer::new();
    let text = least_text(least, &mut buffer);
    let mut sent = Replied::Array(2 * count).send_after(Ok(()), &[], sink);
    for word in words {
        sent = put_setting(sent, text, word, sink);
    }
    sent
}
