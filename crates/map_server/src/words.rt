//! The command line of `mapd`: clap reads the words.
ghost use Rattle.std.specs.Prelude.{◌≡◌, true, false, Some, IfOk, IfErr, if◌then◌else◌, is_some, option_and_then, option_map, string_bytes};
ghost use Rattle.clap.specs.Words.{app_of, fault_of, first_of, found_of, one_of, rows_of, rule_of, HasKind};
ghost use Rattle.clap.specs.Walk.{texts};
ghost use Rattle.map_commands.specs.CommandLine.{size_option, spelled_size};
ghost use Rattle.map_server.specs.Memory.{shares_of};
ghost use Rattle.map_server.specs.Servers.{passes_of, protocols_of};
ghost use Rattle.map_server.specs.ServerWords.{text_option, gives_redis, mapd, reader_of, AsksFor, AsksServer, IsFaultOf, IsInRange, IsWordsFault};

use crate::memory::Shares;
use crate::server::Protocols;
use bpf_model::NoMemory;
use clap::builder::ValueParser;
use clap::error::ErrorKind;
use clap::{Arg, ArgAction, ArgMatches, value_parser};
use map_commands::{flag_option, given_size, is_given, size_option};
use std::alloc::{AllocError, Global};
use std::error::Error;
use std::fmt;

/// What `mapd` is asked to do.
#[derive(Debug, PartialEq, Eq, Drop)]
pub struct MapdWords {
    /// The address of the port whose clients speak frames, as HOST:PORT; none: there is no such port.
    pub listen: Option<String>,
    /// The address of the port whose clients speak the commands of Redis; none: there is no such port.
    pub redis: Option<String>,
    /// The number of stripes: the map is divided into this many parts.
    pub stripes: u64,
    /// How many threads serve clients.
    pub workers: u64,
    /// How many threads walk for each worker.
    pub team: u64,
    /// How many sessions each worker serves; none: without end.
    pub sessions: Option<u64>,
    /// How many clients are served at once, over all workers; one more is refused.
    pub clients: u64,
    /// After how many seconds in which nothing comes from a client, or it takes nothing, it is let go; none: never.
    pub idle: Option<u64>,
    /// How many different programs clients may register, and how many scripts they may load.
    pub programs: u64,
    /// How many MiB entries, programs and sessions may take; none: there is no bound.
    pub memory: Option<u64>,
    /// The file in which entries, programs and scripts are kept; none: nothing is kept.
    pub keep: Option<String>,
    /// How many seconds it is from one save to the next.
    pub keep_seconds: u64,
    /// Whether requests that may change the map are refused while it can't be saved.
    pub keep_strict: bool,
    /// The file whose first line is the password that clients of Redis have to show; none: they needn't.
    pub password_file: Option<String>,
    /// The address of the port whose clients read the server's numbers over HTTP; none: there is no such port.
    pub metrics: Option<String>,
    /// From how many microseconds on a command of Redis is shown by SLOWLOG; none: none is.
    pub slowlog_microseconds: Option<u64>,
}

/// Returns 1 if it is so, else 0.
fn one_if(is_so: bool) -> u64
    ensures { result ≡ (if is_so then 1 else 0) }
{
    if is_so { 1 } else { 0 }
}

impl MapdWords {
    /// The protocols of the ports that are asked for.
    pub fn protocols(&self) -> Protocols
        ensures { result ≡ protocols_of self.now }
    {
        Protocols {
            frames: self.listen.is_some(),
            commands: self.redis.is_some(),
        }
    }

    /// What entries, programs and sessions may take.
    pub(crate) fn shares(&self) -> Shares
        ensures { result ≡ shares_of self.now.memory }
    {
        Shares::of(self.memory)
    }

    /// How many passes the map has: one for each worker, one for each member of its team, one that keeps it in a file, if it is
    /// kept, and one that counts its entries, if there is a port for the numbers.
    pub(crate) fn passes(&self) -> u64
        requires { IsInRange self.now }
        ensures { result ≡ passes_of self.now }
    {
        let served = self.workers * (1 + self.team);
        served + one_if(self.keep.is_some()) + one_if(self.metrics.is_some())
    }
}

/// Why words ask for no server.
#[derive(Debug, Drop)]
pub enum WordsFault {
    /// A fault of the words, or the help or the version that they ask for; it has the text for the user.
    Words(clap::Error),
    /// A request for memory was refused.
    NoMemory,
}

impl fmt::Display for WordsFault {
    fn fmt<W: fmt::Write>(&self, f: &mut fmt::Formatter<W>) -> fmt::Result {
        match self {
            WordsFault::Words(error) => write!(f, "{error}"),
            WordsFault::NoMemory => write!(f, "no memory"),
        }
    }
}

impl Error for WordsFault {}

impl From<AllocError> for WordsFault {
    ghost use Rattle.std.specs.Prelude.{◌≡◌};
    ghost use Rattle.map_server.specs.declared.words.WordsFault.TheVariants.{NoMemory};

    ghost from_gives = { λ _ fault. fault ≡ NoMemory };

    fn from(_: AllocError) -> WordsFault {
        WordsFault::NoMemory
    }
}

impl From<NoMemory> for WordsFault {
    ghost use Rattle.std.specs.Prelude.{◌≡◌};
    ghost use Rattle.map_server.specs.declared.words.WordsFault.TheVariants.{NoMemory};

    ghost from_gives = { λ _ fault. fault ≡ NoMemory };

    fn from(_: NoMemory) -> WordsFault {
        WordsFault::NoMemory
    }
}

/// The number of stripes, if none is given.
const STRIPES_DEFAULT: u16 = 16;

/// The number of workers, if none is given.
const WORKERS_DEFAULT: u16 = 4;

/// The number of threads of each worker's walks, if none is given.
const TEAM_DEFAULT: u16 = 1;

/// The number of clients, if none is given.
const CLIENTS_DEFAULT: u16 = 1000;

/// The number of different programs, if none is given.
const PROGRAMS_DEFAULT: u64 = 65_536;

/// The seconds between two saves, if no number is given.
const KEEP_SECONDS_DEFAULT: u16 = 1;

/// What the options cost.
const COSTS: &str = "\
At least one of --listen and --redis is given. Both ports serve one map.
Each worker serves any number of clients at once, and waits for none of them.
Threads: one for each worker, and one more if there are several; while a worker walks with a team of several, as
many more. Passes of the map: workers * (1 + team), at most 64. Descriptors: 4, one a port, one a worker and one a
client. With --keep there is one more thread and one more pass, and there are three more descriptors. With --metrics there
is one more thread, one more pass, and one more descriptor while it answers.
mapd --kept FILE, with no other words, prints what such a file has, and ends.
Memory: 2 KB for each client, and up to 7 MB for each worker, beside the threads' stacks, answers that are not read
yet, what walks answer, and the map. A registered program stays.
Status: 0 all sessions were served, 1 refused, 2 a fault of the words, 3 a failed listen, accept, write or save.";

/// An option that takes a number in a range, in this unit.
fn range_option<'a>(
    alloc: Global,
    name: &'a str,
    unit: &'a str,
    range: ValueParser<'a>,
    help: &'a str,
) -> Arg<'a>
    ensures rule { rule_of result ≡ record (size_option name.entry.now) { parser = Some range.entry } }
    ensures local { result.global ≡ false }
{
    Arg::new(alloc, name)
        .long(name)
        .value_name(unit)
        .help(help)
        .value_parser(range)
}

/// An option that takes a text of this kind, and is wanted or not.
fn text_option<'a>(
    alloc: Global,
    name: &'a str,
    kind: &'a str,
    wanted: bool,
    help: &'a str,
) -> Arg<'a>
    ensures rule { rule_of result ≡ text_option name.entry.now wanted }
    ensures local { result.global ≡ false }
{
    Arg::new(alloc, name)
        .long(name)
        .value_name(kind)
        .help(help)
        .action(ArgAction::Set)
        .required(wanted)
}

/// Makes the command line of `mapd`, which wants `--listen` or doesn't.
fn mapd_command<'a>(alloc: Global, wanted: bool) -> Result<clap::Command<'a>, AllocError>
    ensures { IfOk result (λ c. app_of c ≡ mapd wanted) }
{
    clap::Command::new(alloc, "mapd")
        .about("Serves a map to many clients over TCP")
        .version("0.1.0")
        .after_help(COSTS)
        .arg(text_option(
            alloc,
            "listen",
            "HOST:PORT",
            wanted,
            "Address to listen on; port 0 takes a free one, which standard error is told",
        ))?
        .arg(text_option(
            alloc,
            "redis",
            "HOST:PORT",
            false,
            "Address for clients of Redis; if it is given, --listen may be left out",
        ))?
        .arg(size_option(
            alloc,
            "stripes",
            "NUMBER",
            "Stripes of the map, a power of two from 1 to 64 [default: 16]",
        ))?
        .arg(range_option(
            alloc,
            "workers",
            "NUMBER",
            value_parser!(u16).range(1..=32),
            "Threads that serve clients, 1 to 32 [default: 4]",
        ))?
        .arg(range_option(
            alloc,
            "team",
            "NUMBER",
            value_parser!(u16).range(1..=8),
            "Threads of each worker's walks, 1 to 8 [default: 1]",
        ))?
        .arg(size_option(
            alloc,
            "sessions",
            "NUMBER",
            "Clients that each worker takes before it ends, 0 to 65535 [default: without end]",
        ))?
        .arg(range_option(
            alloc,
            "clients",
            "NUMBER",
            value_parser!(u16).range(1..=65535),
            "Clients connected at once, 1 to 65535; one more is refused with 9 [default: 1000]",
        ))?
        .arg(range_option(
            alloc,
            "idle",
            "SECONDS",
            value_parser!(u16).range(1..=65535),
            "Seconds after which a client is let go that sends nothing, or takes nothing, 1 to 65535 [default: never]",
        ))?
        .arg(size_option(
            alloc,
            "programs",
            "NUMBER",
            "Different programs that clients may register, 0 to 65535 [default: 65536]",
        ))?
        .arg(text_option(
            alloc,
            "keep",
            "FILE",
            false,
            "File that keeps entries, programs and scripts; it is made if there is none [default: none]",
        ))?
        .arg(range_option(
            alloc,
            "keep-seconds",
            "SECONDS",
            value_parser!(u16).range(1..=3600),
            "Seconds from one save to the next, 1 to 3600, if there is a --keep [default: 1]",
        ))?
        .arg(range_option(
            alloc,
            "memory",
            "MIB",
            value_parser!(u16).range(1..=65535),
            "MiB of entries, programs and sessions, 1 to 65535; past it a new key or program is refused with 9 [default: no bound]",
        ))?
        .arg(text_option(
            alloc,
            "password-file",
            "FILE",
            false,
            "File whose first line is the password that clients of Redis have to show [default: none]",
        ))?
        .arg(text_option(
            alloc,
            "metrics",
            "HOST:PORT",
            false,
            "Address at which Prometheus reads the server's numbers, as GET /metrics [default: none]",
        ))?
        .arg(size_option(
            alloc,
            "slowlog-microseconds",
            "NUMBER",
            "Microseconds from which on SLOWLOG shows a command of Redis, 0 to 65535 [default: never]",
        ))?
        .arg(flag_option(
            alloc,
            "keep-strict",
            "Refuses changes with 9 while the map can't be saved, if there is a --keep [default: they go on]",
        ))
}

/// Returns the number that the option gives; none if it is not given.
fn given_number(matches: &ArgMatches<'_>, name: &str) -> Option<u16>
    ensures { result ≡ option_and_then spelled_size (one_of name.now (rows_of (found_of matches.now))) }
{
    matches.get_one(name)
}

/// The number, as one of 64 bits.
fn widened(number: Option<u16>) -> Option<u64>
    ensures { result ≡ number }
{
    number.map(u64::from)
}

/// Returns the text that the option gives; none if it is not given. `NoMemory` if a request for memory was refused.
fn given_text(
    alloc: Global,
    matches: &ArgMatches<'_>,
    name: &str,
) -> Result<Option<String>, NoMemory>
    ensures { IfOk result (λ text. option_map string_bytes text ≡ first_of name.now (rows_of (found_of matches.now))) }
{
    match matches.get_str(name) {
        None => Ok(None),
        Some(text) => Ok(Some(String::from_str(alloc, text)?)),
    }
}

/// Returns what the options ask for.
fn words_of(alloc: Global, matches: &ArgMatches<'_>) -> Result<MapdWords, NoMemory>
    ensures { IfOk result (λ asked. AsksFor (rows_of (found_of matches.now)) asked) }
{
    Ok(MapdWords {
        listen: given_text(alloc, matches, "listen")?,
        redis: given_text(alloc, matches, "redis")?,
        stripes: u64::from(given_size(matches, "stripes", STRIPES_DEFAULT)),
        workers: u64::from(given_size(matches, "workers", WORKERS_DEFAULT)),
        team: u64::from(given_size(matches, "team", TEAM_DEFAULT)),
        sessions: widened(given_number(matches, "sessions")),
        clients: u64::from(given_size(matches, "clients", CLIENTS_DEFAULT)),
        idle: widened(given_number(matches, "idle")),
        programs: widened(given_number(matches, "programs")).unwrap_or(PROGRAMS_DEFAULT),
        memory: widened(given_number(matches, "memory")),
        keep: given_text(alloc, matches, "keep")?,
        keep_seconds: u64::from(given_size(matches, "keep-seconds", KEEP_SECONDS_DEFAULT)),
        password_file: given_text(alloc, matches, "password-file")?,
        metrics: given_text(alloc, matches, "metrics")?,
        slowlog_microseconds: widened(given_number(matches, "slowlog-microseconds")),
        keep_strict: is_given(matches, "keep-strict"),
    })
}

/// Returns clap's error as a fault of the words, or as a refusal of memory.
fn fault_of_error(error: clap::Error, words: &[&str]) -> WordsFault
    requires { HasKind (fault_of (reader_of (texts words.now)) (texts words.now)) error }
    ensures kind { IsWordsFault (texts words.now) result }
    ensures exact { IsFaultOf error result }
{
    if error.kind() == ErrorKind::OutOfMemory {
        return WordsFault::NoMemory;
    }
    WordsFault::Words(error)
}

/// Reads what the words ask for, which don't give `--redis`, or have a fault beside that.
fn words_with_listen<'a>(alloc: Global, words: &'a [&'a str]) -> Result<MapdWords, WordsFault>
    requires { gives_redis (texts words.now) ≡ false }
    ensures ok { IfOk result (λ asked. AsksServer (texts words.entry.now) asked) }
    ensures range { IfOk result IsInRange }
    ensures err { IfErr result (λ fault. IsWordsFault (texts words.entry.now) fault) }
{
    match mapd_command(alloc, true)?.try_get_matches_from(words) {
        Ok(matches) => Ok(words_of(alloc, &matches)?),
        Err(error) => Err(fault_of_error(error, words)),
    }
}

/// Reads what the words ask for. The first word is the program's name. `--listen` is wanted unless they give `--redis`.
pub fn mapd_words<'a>(alloc: Global, words: &'a [&'a str]) -> Result<MapdWords, WordsFault>
    ensures ok { IfOk result (λ asked. AsksServer (texts words.entry.now) asked) }
    ensures range { IfOk result IsInRange }
    ensures err { IfErr result (λ fault. IsWordsFault (texts words.entry.now) fault) }
{
    match mapd_command(alloc, false)?.try_get_matches_from(words) {
        Ok(matches) => {
            if matches.get_str("redis").is_none() {
                return words_with_listen(alloc, words);
            }
            Ok(words_of(alloc, &matches)?)
        }
        Err(error) if error.kind() == ErrorKind::OutOfMemory => Err(WordsFault::NoMemory),
        Err(_) => words_with_listen(alloc, words),
    }
}
