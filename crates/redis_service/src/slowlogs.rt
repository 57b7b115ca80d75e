//! Commands that took long.
ghost use Rattle.std.specs.Prelude.{ℕ, List, ◌++◌, length, IfOk, OnOk};
ghost use Rattle.devices.specs.Devices.{SinkState, CanWrite};
ghost use Rattle.redis_service.specs.Sending.{Sends};
ghost use Rattle.redis_service.specs.Slowlogs.{AnswersSlowlog, IsWithin, Tells, entry_bytes, entries_bytes, words_bytes};

use crate::moment::Moment;
use crate::reply::Replied;
use crate::talk::RedisTalk;
use arrayvec::ArrayVec;
use bpf_model::NoMemory;
use devices::{Failed, Sink};
use itoa::Buffer;
use redis_commands::{Command, ConnectionCommand, SlowlogCommand};
use server_state::{
    ClientView, SLOW_ENTRIES, SLOW_WORDS, ServerState, SlowEntry, SlowLog, SlowWord, client_text,
};
use std::alloc::Global;
use std::sync::Wait;
use ticks::{micros, micros_since};

/// At most this many bytes of a word are kept.
const WORD_BYTES: usize = 64;

/// What `SLOWLOG HELP` says.
const HELP: &[u8] =
    b"*12\r\n+SLOWLOG <subcommand> [<arg> [value] [opt] ...]. Subcommands are:\r\n+GET [<count>]\r\n+    Return top <count> entries from the slowlog (default: 10, -1 mean all).\r\n+    Entries are made of:\r\n+    id, timestamp, time in microseconds, arguments array, client IP and port,\r\n+    client name\r\n+LEN\r\n+    Return the length of the slowlog.\r\n+RESET\r\n+    Reset the slowlog.\r\n+HELP\r\n+    Prints this help.\r\n";

/// When a command began, and how long it may take before it is kept.
#[derive(Clone, Copy)]
pub struct Timer {
    least: u64,
    begun: Option<u64>,
}

/// Tests whether the words of a command may have a password.
fn may_be_secret(command: &Command<'_>) -> bool {
    matches!(
        command,
        Command::Connection(
            ConnectionCommand::Auth { .. }
                | ConnectionCommand::AuthDefault { .. }
                | ConnectionCommand::Hello { .. }
        )
    )
}

/// A command begins. None if none is kept, or its words may have a password.
#[inline(always)]
pub fn begin(slow: &SlowLog, command: &Command<'_>) -> Option<Timer> {
    let least = slow.least()?;
    if may_be_secret(command) {
        return None;
    }
    Some(Timer {
        least,
        begun: micros(),
    })
}

/// Says how much more there is, if there is room.
fn add_more(word: &mut SlowWord, more: usize, what: &[u8]) {
    let text = &mut word.text;
    let mut digits = Buffer::new();
    let _ = text.try_extend_from_slice(b"... (");
    let _ = text.try_extend_from_slice(digits.format(more).as_bytes());
    let _ = text.try_extend_from_slice(b" more ");
    let _ = text.try_extend_from_slice(what);
    let _ = text.try_extend_from_slice(b")");
}

/// A word, cut short as Redis cuts it.
fn cut_word(word: &[u8]) -> SlowWord {
    let mut cut = SlowWord::default();
    let kept = word.len().min(WORD_BYTES);
    let _ = cut.text.try_extend_from_slice(&word[..kept]);
    if word.len() > kept {
        add_more(&mut cut, word.len() - kept, b"bytes");
    }
    cut
}

/// The words of a command, cut short as Redis cuts them.
fn cut_words(words: &[&[u8]]) -> ArrayVec<SlowWord, SLOW_WORDS> {
    let mut all = ArrayVec::new();
    let kept = if words.len() > SLOW_WORDS {
        SLOW_WORDS - 1
    } else {
        words.len()
    };
    for word in &words[..kept] {
        let _ = all.try_push(cut_word(word));
    }
    if words.len() > kept {
        let mut more = SlowWord::default();
        add_more(&mut more, words.len() - kept, b"arguments");
        let _ = all.try_push(more);
    }
    all
}

impl Timer {
    /// Keeps the command of these words, if it took long. Not inlined, so that a command which isn't timed clears no room for an entry.
    #[inline(never)]
    fn end<H: Wait>(
        self,
        moment: &Moment<'_, H>,
        server: &ServerState,
        talk: &RedisTalk<'_>,
        words: &[&[u8]],
    ) {
        let took = micros_since(self.begun);
        if took < self.least {
            return;
        }
        let view = match server.clients().find(moment.rt, talk.number()) {
            Some(view) => view,
            None => ClientView::stranger(talk.number()),
        };
        let entry = SlowEntry {
            number: 0,
            time: moment.time / 1000,
            microseconds: took,
            words: cut_words(words),
            address: view.address,
            name: client_text(talk.name()),
        };
        server.slow().add(moment.rt, entry);
    }
}

/// A command of these words ends, which began so.
#[inline(always)]
pub fn end<H: Wait>(
    timer: Option<Timer>,
    moment: &Moment<'_, H>,
    server: &ServerState,
    talk: &RedisTalk<'_>,
    words: &[&[u8]],
) {
    if let Some(timer) = timer {
        timer.end(moment, server, talk, words);
    }
}

/// Says the words of a command, if no write failed before.
fn put_words<W: Sink>(
    begun: Result<(), Failed>,
    words: &[SlowWord],
    sink: &mut W,
) -> Result<(), Failed>
    requires { OnOk begun (CanWrite (W.state sink.old)) }
    ensures more { (before : SinkState) (said : List ℕ) → Sends begun before (W.state sink.old) said
        → Sends result before (W.state sink.new) (said ++ words_bytes words.now) }
    ensures can { OnOk result (CanWrite (W.state sink.new)) }
{
    let mut sent = Replied::Array(words.len()).send_after(begun, &[], sink);
    for word in words {
        sent = Replied::Found.send_after(sent, word.text.as_slice(), sink);
    }
    sent
}

/// Says a command that took long, if no write failed before.
fn put_entry<W: Sink>(
    begun: Result<(), Failed>,
    entry: &SlowEntry,
    sink: &mut W,
) -> Result<(), Failed>
    requires { OnOk begun (CanWrite (W.state sink.old)) }
    ensures more { (before : SinkState) (said : List ℕ) → Sends begun before (W.state sink.old) said
        → Sends result before (W.state sink.new) (said ++ entry_bytes entry.now) }
    ensures can { OnOk result (CanWrite (W.state sink.new)) }
{
    let sent = Replied::Array(6).send_after(begun, &[], sink);
    let sent = Replied::Count(entry.number).send_after(sent, &[], sink);
    let sent = Replied::Count(entry.time).send_after(sent, &[], sink);
    let sent = Replied::Count(entry.microseconds).send_after(sent, &[], sink);
    let sent = put_words(sent, entry.words.as_slice(), sink);
    let sent = Replied::Found.send_after(sent, entry.address.as_slice(), sink);
    Replied::Found.send_after(sent, entry.name.as_slice(), sink)
}

/// Says commands that took long.
fn put_entries<W: Sink>(entries: &[SlowEntry], sink: &mut W) -> Result<(), Failed>
    requires { CanWrite (W.state sink.old) }
    ensures { Sends result (W.state sink.old) (W.state sink.new) (entries_bytes entries.now) }
{
    let mut sent = Replied::Array(entries.len()).send_after(Ok(()), &[], sink);
    for entry in entries {
        sent = put_entry(sent, entry, sink);
    }
    sent
}

/// The latest commands that took long, this many or all. `NoMemory` if a request for memory was refused.
fn latest<H: Wait>(
    rt: &H,
    alloc: Global,
    slow: &SlowLog,
    count: Option<u64>,
) -> Result<Vec<SlowEntry>, NoMemory>
    ensures { IfOk result (λ entries. IsWithin count (length entries.items)) }
{
    match count {
        Some(most) => slow.latest(rt, alloc, most as usize),
        None => slow.latest(rt, alloc, SLOW_ENTRIES),
    }
}

/// Says the latest commands that took long, this many or all.
fn put_latest<H: Wait, W: Sink>(
    rt: &H,
    alloc: Global,
    slow: &SlowLog,
    count: Option<u64>,
    sink: &mut W,
) -> Result<(), Failed>
    requires { CanWrite (W.state sink.old) }
    ensures { (written : List ℕ) × Sends result (W.state sink.old) (W.state sink.new) written × Tells count written }
{
    match latest(rt, alloc, slow, count) {
        Ok(entries) => put_entries(&entries, sink),
        Err(NoMemory) => Replied::NoMemory.send(&[], sink),
    }
}

/// Answers a command about those that took long.
pub fn answer_slowlog<H: Wait, W: Sink>(
    rt: &H,
    alloc: Global,
    slow: &SlowLog,
    command: SlowlogCommand,
    sink: &mut W,
) -> Result<(), Failed>
    requires { CanWrite (W.state sink.old) }
    ensures { (written : List ℕ) × Sends result (W.state sink.old) (W.state sink.new) written × AnswersSlowlog command written }
{
    match command {
        SlowlogCommand::Get { count } => put_latest(rt, alloc, slow, count, sink),
        SlowlogCommand::Length => Replied::Count(slow.len(rt) as u64).send(&[], sink),
        SlowlogCommand::Reset => {
            slow.clear(rt);
            Replied::Simple(b"OK").send(&[], sink)
        }
        SlowlogCommand::Help => Replied::Bytes(HELP).send(&[], sink),
    }
}
