//! What `INFO` says.
ghost use Rattle.std.specs.Prelude.{◌≡◌, ◌≤◌, ◌||◌, [], List, length, flat_map, IfOk};
ghost use Rattle.std.specs.List.{list_any};
ghost use Rattle.redis_commands.specs.Commands.{texts};
ghost use Rattle.redis_service.specs.Info as spec;
ghost use Rattle.redis_service.specs.Counted.{Calls, calls_line};
ghost use Rattle.redis_service.specs.Info.{number_line, status_line, refusal_line, names, names_more, is_shown, shown, shown_more, info_text};

use crate::server::{is, joined};
use arrayvec::ArrayVec;
use bpf_model::NoMemory;
use itoa::Buffer;
use std::alloc::Global;

/// The numbers that `INFO` tells.
#[derive(Clone, Copy, Debug, PartialEq, Eq, Drop)]
pub struct Info {
    /// How long the server has run, in seconds.
    pub uptime: u64,
    /// How many clients are there.
    pub clients: u64,
    /// How many clients came.
    pub clients_came: u64,
    /// How many of them were turned away.
    pub clients_refused: u64,
    /// How many commands came.
    pub commands: u64,
    /// How many commands were refused memory.
    pub refusals: u64,
    /// The bytes of memory that the process has; 0 if the system doesn't say.
    pub memory: u64,
    /// How many entries sweeps took away.
    pub expired: u64,
    /// How many reads of a key found a value.
    pub hits: u64,
    /// How many found none.
    pub misses: u64,
    /// When the last save was written, in seconds since the epoch.
    pub last_save: u64,
    /// Whether the last save could not be written.
    pub is_failing: bool,
    /// How many keys the map has.
    pub keys: u64,
}

/// Returns a line with a number.
fn line(name: &[u8], number: u64) -> ArrayVec<u8, 64>
    requires { length name.now ≤ 40 }
    ensures { result.items ≡ number_line name.now number }
{
    let mut line = ArrayVec::new();
    let mut digits = Buffer::new();
    line.try_extend_from_slice(name).unwrap();
    line.try_extend_from_slice(digits.format(number).as_bytes())
        .unwrap();
    line.try_extend_from_slice(b"\r\n").unwrap();
    line
}

/// Returns the line that says how the last save went.
fn status(is_failing: bool) -> &'static [u8]
    ensures { result.now ≡ status_line is_failing }
{
    if is_failing {
        b"rdb_last_bgsave_status:err\r\n"
    } else {
        b"rdb_last_bgsave_status:ok\r\n"
    }
}

/// Returns the section about the server.
fn server(alloc: Global, info: &Info) -> Result<Vec<u8>, NoMemory>
    ensures { IfOk result (λ text. text.items ≡ spec.server info.now) }
{
    let uptime = line(b"uptime_in_seconds:", info.uptime);
    joined(
        alloc,
        &[
            b"# Server\r\nredis_version:7.0.15\r\nredis_mode:standalone\r\n",
            uptime.as_slice(),
            b"\r\n",
        ],
    )
}

/// Returns the section about the clients.
fn clients(alloc: Global, info: &Info) -> Result<Vec<u8>, NoMemory>
    ensures { IfOk result (λ text. text.items ≡ spec.clients info.now) }
{
    let connected = line(b"connected_clients:", info.clients);
    joined(
        alloc,
        &[
            b"# Clients\r\n",
            connected.as_slice(),
            b"blocked_clients:0\r\n\r\n",
        ],
    )
}

/// Returns the section about memory.
fn memory(alloc: Global, info: &Info) -> Result<Vec<u8>, NoMemory>
    ensures { IfOk result (λ text. text.items ≡ spec.memory info.now) }
{
    let used = line(b"used_memory:", info.memory);
    let resident = line(b"used_memory_rss:", info.memory);
    joined(
        alloc,
        &[
            b"# Memory\r\n",
            used.as_slice(),
            resident.as_slice(),
            b"maxmemory:0\r\nmaxmemory_policy:noeviction\r\n\r\n",
        ],
    )
}

/// Returns the section about the file.
fn persistence(alloc: Global, info: &Info) -> Result<Vec<u8>, NoMemory>
    ensures { IfOk result (λ text. text.items ≡ spec.persistence info.now) }
{
    let last_save = line(b"rdb_last_save_time:", info.last_save);
    joined(
        alloc,
        &[
            b"# Persistence\r\nloading:0\r\n",
            last_save.as_slice(),
            status(info.is_failing),
            b"\r\n",
        ],
    )
}

/// Returns the section about what was counted.
fn stats(alloc: Global, info: &Info) -> Result<Vec<u8>, NoMemory>
    ensures { IfOk result (λ text. text.items ≡ spec.stats info.now) }
{
    let came = line(b"total_connections_received:", info.clients_came);
    let commands = line(b"total_commands_processed:", info.commands);
    let refused = line(b"rejected_connections:", info.clients_refused);
    let expired = line(b"expired_keys:", info.expired);
    let hits = line(b"keyspace_hits:", info.hits);
    let misses = line(b"keyspace_misses:", info.misses);
    joined(
        alloc,
        &[
            b"# Stats\r\n",
            came.as_slice(),
            commands.as_slice(),
            refused.as_slice(),
            expired.as_slice(),
            hits.as_slice(),
            misses.as_slice(),
            b"\r\n",
        ],
    )
}

/// Returns the section about the commands, with these lines.
fn command_stats(alloc: Global, calls: &[u8]) -> Result<Vec<u8>, NoMemory>
    ensures { (all : List Calls) → calls.now ≡ flat_map calls_line all → IfOk result (λ text. text.items ≡ spec.command_stats all) }
{
    joined(alloc, &[b"# Commandstats\r\n", calls, b"\r\n"])
}

/// Returns the line about commands that were refused memory; nothing if there is none.
fn refusal_line(refusals: u64) -> ArrayVec<u8, 64>
    ensures { result.items ≡ refusal_line refusals }
{
    if refusals == 0 {
        return ArrayVec::new();
    }
    line(b"errorstat_OOM:count=", refusals)
}

/// Returns the section about errors.
fn error_stats(alloc: Global, info: &Info) -> Result<Vec<u8>, NoMemory>
    ensures { IfOk result (λ text. text.items ≡ spec.error_stats info.now) }
{
    let refused = refusal_line(info.refusals);
    joined(alloc, &[b"# Errorstats\r\n", refused.as_slice(), b"\r\n"])
}

/// Returns the section about the keys.
fn keyspace(alloc: Global, info: &Info) -> Result<Vec<u8>, NoMemory>
    ensures { IfOk result (λ text. text.items ≡ spec.keyspace info.now) }
{
    let mut digits = Buffer::new();
    let keys = digits.format(info.keys).as_bytes();
    joined(
        alloc,
        &[
            b"# Keyspace\r\ndb0:keys=",
            keys,
            b",expires=0,avg_ttl=0\r\n\r\n",
        ],
    )
}

/// Tests whether the word names the section of this name, or all of them.
fn names(name: &str, word: &[u8]) -> bool
    ensures { result ≡ names name.now word.now }
{
    is(name, word) || is("all", word) || is("default", word) || is("everything", word)
}

/// Tests whether one of the words names this section.
fn is_named(name: &str, words: &[&[u8]]) -> bool
    ensures { result ≡ list_any (names name.now) (texts words.now) }
{
    for word in words {
        if names(name, word) {
            return true;
        }
    }
    false
}

/// Tests whether the section of this name is asked for.
fn is_shown(name: &str, words: &[&[u8]]) -> bool
    ensures { result ≡ is_shown name.now (texts words.now) }
{
    words.is_empty() || is_named(name, words)
}

/// Returns the section of this name, if it is asked for, or nothing.
fn shown<'a>(name: &str, words: &[&[u8]], section: &'a [u8]) -> &'a [u8]
    ensures { result.now ≡ shown name.now (texts words.now) section.now }
{
    if is_shown(name, words) { section } else { &[] }
}

/// Tests whether the word names the section of this name, which is none of the default ones, or all of them.
fn names_more(name: &str, word: &[u8]) -> bool
    ensures { result ≡ names_more name.now word.now }
{
    is(name, word) || is("all", word) || is("everything", word)
}

/// Tests whether one of the words names this section, which is none of the default ones.
fn is_named_more(name: &str, words: &[&[u8]]) -> bool
    ensures { result ≡ list_any (names_more name.now) (texts words.now) }
{
    for word in words {
        if names_more(name, word) {
            return true;
        }
    }
    false
}

/// Returns the section of this name, which is none of the default ones, if it is asked for, or nothing.
fn shown_more<'a>(name: &str, words: &[&[u8]], section: &'a [u8]) -> &'a [u8]
    ensures { result.now ≡ shown_more name.now (texts words.now) section.now }
{
    if is_named_more(name, words) {
        section
    } else {
        &[]
    }
}

/// What `INFO` says of other servers.
const REPLICATION: &[u8] = b"# Replication\r\nrole:master\r\nconnected_slaves:0\r\n\r\n";

/// Returns the sections that the words ask for; `calls` has the lines of the commands that came. `NoMemory` if memory for them was refused.
pub fn info_text(
    alloc: Global,
    words: &[&[u8]],
    info: &Info,
    calls: &[u8],
) -> Result<Vec<u8>, NoMemory>
    ensures { (all : List Calls) → calls.now ≡ flat_map calls_line all → IfOk result (λ text. text.items ≡ info_text (texts words.now) info.now all) }
{
    let server = server(alloc, info)?;
    let clients = clients(alloc, info)?;
    let memory = memory(alloc, info)?;
    let persistence = persistence(alloc, info)?;
    let stats = stats(alloc, info)?;
    let commands = command_stats(alloc, calls)?;
    let errors = error_stats(alloc, info)?;
    let keyspace = keyspace(alloc, info)?;
    joined(
        alloc,
        &[
            shown("server", words, &server),
            shown("clients", words, &clients),
            shown("memory", words, &memory),
            shown("persistence", words, &persistence),
            shown("stats", words, &stats),
            shown("replication", words, REPLICATION),
            shown_more("commandstats", words, &commands),
            shown("errorstats", words, &errors),
            shown("keyspace", words, &keyspace),
        ],
    )
}
