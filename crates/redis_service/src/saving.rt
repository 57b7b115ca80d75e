//! Commands of the server.
ghost use Rattle.std.specs.Prelude.{◌≡◌, ℕ, List, IfOk, IsFalse};
ghost use Rattle.bin_stripes.specs.Passes.{PassState};
ghost use Rattle.devices.specs.Devices.{CanWrite};
ghost use Rattle.redis_commands.specs.Commands.{texts};
ghost use Rattle.redis_commands.specs.declared.command.LastSave.TheVariants as last;
ghost use Rattle.resp.specs.Replies.{value_bytes};
ghost use Rattle.redis_service.specs.Connections.{SaysIfRoom};
ghost use Rattle.redis_service.specs.Counted.{Calls};
ghost use Rattle.redis_service.specs.Info as spec;
ghost use Rattle.redis_service.specs.Replied.{replied_bytes};
ghost use Rattle.redis_service.specs.Saving.{AnswersShutdown, later_line, save_line};
ghost use Rattle.redis_service.specs.Sending.{Sends};

use crate::counted::calls_lines;
use crate::info::{Info, info_text};
use crate::reply::Replied;
use crate::talk::RedisTalk;
use bpf_model::NoMemory;
use devices::{Failed, Sink};
use redis_commands::LastSave;
use resp::put_value;
use server_state::{SaveFate, ServerState, resident_bytes};
use std::alloc::Global;
use std::sync::Wait;

/// What is said if a server is to save that keeps no file.
const NO_FILE: &[u8] = b"ERR the server keeps no file: it was started without --keep";

/// Asks for a save, and waits for it. Returns what came of it, or none if the server keeps no file.
pub fn save<H: Wait>(rt: &H, server: &ServerState) -> Option<SaveFate> {
    if !server.keeps() {
        return None;
    }
    let ticket = server.ask_save();
    Some(server.wait_for_save(rt, ticket))
}

/// Says what came of a save.
pub fn save_line(fate: Option<SaveFate>) -> Replied
    ensures { (found : List ℕ) → replied_bytes result found ≡ save_line fate }
{
    match fate {
        None => Replied::Error(NO_FILE),
        Some(SaveFate::Saved) => Replied::Simple(b"OK"),
        Some(SaveFate::Failed) => Replied::Error(b"ERR the map could not be written to its file"),
        Some(SaveFate::Waits) => Replied::Error(b"ERR the map is not written to its file yet"),
    }
}

/// Asks for a save, if the server keeps a file. Returns whether it does.
pub fn save_later(server: &ServerState) -> bool {
    let keeps = server.keeps();
    if keeps {
        let _ = server.ask_save();
    }
    keeps
}

/// Says whether a save was asked for.
pub fn later_line(keeps: bool) -> Replied
    ensures { (found : List ℕ) → replied_bytes result found ≡ later_line keeps }
{
    if keeps {
        Replied::Simple(b"Background saving started")
    } else {
        Replied::Error(NO_FILE)
    }
}

/// Ends the server. Returns whether it ends: it doesn't if it is to save first, and keeps no file.
fn ends(server: &ServerState, save: LastSave) -> bool
    ensures { IsFalse result → save ≡ last.Always }
{
    let keeps = server.keeps();
    match save {
        LastSave::Never => server.end(false),
        LastSave::IfKept => server.end(keeps),
        LastSave::Always => {
            if !keeps {
                return false;
            }
            server.end(true);
        }
    }
    true
}

/// Ends the server and the talk, or says that there is no file.
pub fn shut_down<W: Sink>(
    server: &ServerState,
    talk: &mut RedisTalk<'_>,
    save: LastSave,
    sink: &mut W,
) -> Result<(), Failed>
    requires { CanWrite (W.state sink.old) }
    ensures number { talk.new.number ≡ talk.old.number }
    ensures answers { (pass : PassState) → (written : List ℕ) × Sends result (W.state sink.old) (W.state sink.new) written
        × AnswersShutdown talk.old pass save written talk.new pass }
{
    if ends(server, save) {
        talk.leave();
        return Ok(());
    }
    Replied::Error(NO_FILE).send(&[], sink)
}

/// Returns what `INFO` tells of a server at this time, in milliseconds since the epoch, whose map has this number of keys.
pub fn numbers(server: &ServerState, time: u64, keys: u64) -> Info
    ensures { result.keys ≡ keys }
{
    let counts = server.counts();
    Info {
        uptime: time.saturating_sub(server.began()) / 1000,
        clients: counts.clients_here(),
        clients_came: counts.clients_came,
        clients_refused: counts.clients_refused,
        commands: counts.commands,
        refusals: counts.refusals,
        memory: resident_bytes().unwrap_or(0),
        expired: counts.expired,
        hits: counts.hits,
        misses: counts.misses,
        last_save: server.last_save() / 1000,
        is_failing: server.is_failing(),
        keys,
    }
}

/// Returns the sections of `INFO` that the words ask for, with what this server counted. `NoMemory` if memory for them was refused.
fn counted_text(
    alloc: Global,
    words: &[&[u8]],
    info: &Info,
    server: &ServerState,
) -> Result<Vec<u8>, NoMemory>
    ensures { IfOk result (λ text. (calls : List Calls) × (text.items ≡ spec.info_text (texts words.now) info.now calls)) }
{
    let calls = calls_lines(alloc, server)?;
    info_text(alloc, words, info, &calls)
}

/// Says the sections of `INFO` that the words ask for, with what this server counted.
pub fn put_info<W: Sink>(
    alloc: Global,
    words: &[&[u8]],
    info: &Info,
    server: &ServerState,
    sink: &mut W,
) -> Result<(), Failed>
    requires { CanWrite (W.state sink.old) }
    ensures { (calls : List Calls) × (written : List ℕ) × Sends result (W.state sink.old) (W.state sink.new) written
        × SaysIfRoom (value_bytes (spec.info_text (texts words.now) info.now calls)) written }
{
    match counted_text(alloc, words, info, server) {
        Ok(text) => put_value(sink, &text),
        Err(NoMemory) => Replied::NoMemory.send(&[], sink),
    }
}
