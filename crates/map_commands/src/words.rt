//! The command line of `bpfmap`: clap reads the words.
ghost use Rattle.std.specs.Prelude.{◌≡◌, ◌↔◌, false, IfOk, IsTrue, codes};
ghost use Rattle.clap.specs.Words.{app_of, fault_of, found_of, new_app, rows_of, rule_of, subcommand_rows_of, FailsBy};
ghost use Rattle.clap.specs.Walk.{texts};
ghost use Rattle.clap.specs.declared.builder.Command.TheViews.{out-Command as fields_of};
ghost use Rattle.map_commands.specs.Meanings.{sizes_asked};
ghost use Rattle.map_commands.specs.CommandLine.{size_option, text_option, flag_option, size_options, text_options, explain_options, stripe_options, bpfmap, given_size, sizes_of, with_options, GivesTexts, IsGiven, IsCheck, NamesOne, IsAsked, Asks};

use bpf_model::Sizes;
use clap::{Arg, ArgAction, ArgMatches, value_parser};
use std::alloc::{AllocError, Global};

/// What `bpfmap` is asked to do.
#[derive(Clone, Copy, Debug, PartialEq, Eq)]
pub enum Task<'a> {
    /// Report on all of standard input.
    Report(Command<'a>),
    /// Answer the requests on standard input, over a table with this number of stripes.
    Exec(u16),
}

/// What `bpfmap` reports on all of its input.
#[derive(Clone, Copy, Debug, PartialEq, Eq)]
pub enum Command<'a> {
    /// Make bytes of a program's text.
    Asm,
    /// Make text of a program's bytes.
    Disasm,
    /// Verify the program with these sizes.
    Check(Sizes),
    /// Verify it, and print what the verifier knows at each instruction.
    Explain(Sizes),
    /// Verify the program with these sizes, and run it once.
    Run(Sizes, RunTexts<'a>),
}

impl Command<'_> {
    /// Returns the sizes with which it verifies, if it does.
    pub(crate) fn sizes(&self) -> Option<Sizes>
        ensures { result ≡ sizes_asked self.now }
    {
        match self {
            Command::Asm | Command::Disasm => None,
            Command::Check(sizes) | Command::Explain(sizes) | Command::Run(sizes, _) => Some(
                *sizes,
            ),
        }
    }
}

/// The hex texts that a program is run on. A missing option is an absent value, an empty text an empty one.
#[derive(Clone, Copy, Debug, PartialEq, Eq)]
pub struct RunTexts<'a> {
    pub key: &'a str,
    pub old: Option<&'a str>,
    pub arg: Option<&'a str>,
}

/// The declared size of the key, if none is given.
const KEY_DEFAULT: u16 = 64;

/// The declared size of an old value, an argument or a result, if none is given.
const VALUE_DEFAULT: u16 = 256;

/// What the program does beside these commands.
const KEPT_HELP: &str =
    "bpfmap kept FILE, with no other words, prints what a file has in which mapd keeps its map.";

/// The number of stripes, if none is given.
const STRIPES_DEFAULT: u16 = 16;

/// An option that takes a number from 0 to 65,535 of what is named.
pub fn size_option<'a>(alloc: Global, name: &'a str, unit: &'a str, help: &'a str) -> Arg<'a>
    ensures rule { rule_of result ≡ size_option name.entry.now }
    ensures local { result.global ≡ false }
{
    Arg::new(alloc, name)
        .long(name)
        .value_name(unit)
        .help(help)
        .value_parser(value_parser!(u16))
}

/// Makes an option that takes a text.
fn text_option<'a>(alloc: Global, name: &'a str, help: &'a str) -> Arg<'a>
    ensures rule { rule_of result ≡ text_option name.entry.now }
    ensures local { result.global ≡ false }
{
    Arg::new(alloc, name)
        .long(name)
        .value_name("HEX")
        .help(help)
}

/// Adds the options of declared sizes.
fn with_size_options(
    command: clap::Command<'_>,
    alloc: Global,
) -> Result<clap::Command<'_>, AllocError>
    ensures app { IfOk result (λ c. app_of c ≡ with_options (app_of command.entry) size_options) }
    ensures local { (fields_of command.entry).has_globals ≡ false
        → IfOk result (λ c. (fields_of c).has_globals ≡ false) }
{
    command
        .arg(size_option(
            alloc,
            "key",
            "BYTES",
            "Declared size of the key, 0 to 65535 [default: 64]",
        ))?
        .arg(size_option(
            alloc,
            "old",
            "BYTES",
            "Declared size of the old value, 0 to 65535 [default: 256]",
        ))?
        .arg(size_option(
            alloc,
            "arg",
            "BYTES",
            "Declared size of the argument, 0 to 65535 [default: 256]",
        ))?
        .arg(size_option(
            alloc,
            "result",
            "BYTES",
            "Declared size of the result, 0 to 65535 [default: 256]",
        ))
}

/// Adds the options of hex texts.
fn with_text_options(
    command: clap::Command<'_>,
    alloc: Global,
) -> Result<clap::Command<'_>, AllocError>
    ensures app { IfOk result (λ c. app_of c ≡ with_options (app_of command.entry) text_options) }
    ensures local { (fields_of command.entry).has_globals ≡ false
        → IfOk result (λ c. (fields_of c).has_globals ≡ false) }
{
    command
        .arg(text_option(alloc, "with-key", "The key, in hex [default: empty]"))?
        .arg(text_option(alloc, "with-old", "The old value, in hex [default: absent]"))?
        .arg(text_option(alloc, "with-arg", "The argument, in hex [default: absent]"))
}

/// A command without options.
fn plain_command<'a>(alloc: Global, name: &'a str, about: &'a str) -> clap::Command<'a>
    ensures app { app_of result ≡ new_app name.entry.now }
    ensures local { (fields_of result).has_globals ≡ false }
{
    clap::Command::new(alloc, name).about(about)
}

/// An option without a value.
pub fn flag_option<'a>(alloc: Global, name: &'a str, help: &'a str) -> Arg<'a>
    ensures rule { rule_of result ≡ flag_option name.entry.now }
    ensures local { result.global ≡ false }
{
    Arg::new(alloc, name)
        .long(name)
        .help(help)
        .action(ArgAction::SetTrue)
}

/// Makes the command `check`.
fn check_command<'a>(alloc: Global) -> Result<clap::Command<'a>, AllocError>
    ensures app { IfOk result (λ c. app_of c
        ≡ with_options (with_options (new_app (codes "check")) size_options) explain_options) }
    ensures local { IfOk result (λ c. (fields_of c).has_globals ≡ false) }
{
    let check = plain_command(
        alloc,
        "check",
        "Verifies the program that standard input spells in hex",
    );
    with_size_options(check, alloc)?.arg(flag_option(
        alloc,
        "explain",
        "Prints what the verifier knows at each instruction",
    ))
}

/// Makes the command `run`.
fn run_command<'a>(alloc: Global) -> Result<clap::Command<'a>, AllocError>
    ensures app { IfOk result (λ c. app_of c
        ≡ with_options (with_options (new_app (codes "run")) size_options) text_options) }
    ensures local { IfOk result (λ c. (fields_of c).has_globals ≡ false) }
{
    let run = plain_command(
        alloc,
        "run",
        "Verifies the program that standard input spells in hex, and runs it once",
    );
    with_text_options(with_size_options(run, alloc)?, alloc)
}

/// Makes the command `exec`.
fn exec_command<'a>(alloc: Global) -> Result<clap::Command<'a>, AllocError>
    ensures app { IfOk result (λ c. app_of c
        ≡ with_options (new_app (codes "exec")) stripe_options) }
    ensures local { IfOk result (λ c. (fields_of c).has_globals ≡ false) }
{
    let exec = plain_command(
        alloc,
        "exec",
        "Answers the request frames on standard input, over a table of its own",
    );
    exec.arg(size_option(
        alloc,
        "stripes",
        "NUMBER",
        "Stripes of the table, a power of two from 1 to 64 [default: 16]",
    ))
}

/// Makes the command line, with the five commands.
fn bpfmap_command<'a>(alloc: Global) -> Result<clap::Command<'a>, AllocError>
    ensures { IfOk result (λ c. app_of c ≡ bpfmap) }
{
    let asm = plain_command(
        alloc,
        "asm",
        "Prints in hex the program whose text is on standard input",
    );
    let disasm = plain_command(
        alloc,
        "disasm",
        "Prints the text of the program that standard input spells in hex",
    );
    let about = "Assembles BPF programs, verifies them and runs them";
    plain_command(alloc, "bpfmap", about)
        .version("0.1.0")
        .after_help(KEPT_HELP)
        .subcommand_required(true)
        .arg_required_else_help(true)
        .disable_help_subcommand(true)
        .subcommand(asm)?
        .subcommand(disasm)?
        .subcommand(check_command(alloc)?)?
        .subcommand(run_command(alloc)?)?
        .subcommand(exec_command(alloc)?)
}

/// Returns the number that the option gives, or its default.
pub fn given_size(matches: &ArgMatches<'_>, name: &str, default: u16) -> u16
    ensures { result ≡ given_size (rows_of (found_of matches.now)) name.now default }
{
    matches.get_one(name).unwrap_or(default)
}

/// Returns the declared sizes that the options give.
fn sizes_of(matches: &ArgMatches<'_>) -> Sizes
    ensures { result ≡ sizes_of (rows_of (found_of matches.now)) }
{
    Sizes {
        key: given_size(matches, "key", KEY_DEFAULT),
        old: given_size(matches, "old", VALUE_DEFAULT),
        arg: given_size(matches, "arg", VALUE_DEFAULT),
        result: given_size(matches, "result", VALUE_DEFAULT),
    }
}

/// Tests whether the option without a value is given.
pub fn is_given(matches: &ArgMatches<'_>, name: &str) -> bool
    ensures { IsTrue result ↔ IsGiven (rows_of (found_of matches.now)) name.now }
{
    match matches.get_str(name) {
        Some(text) => text == "true",
        None => false,
    }
}

/// What `check` is asked to do.
fn check_of<'a>(matches: &ArgMatches<'a>) -> Command<'a>
    ensures { IsCheck (rows_of (found_of matches.now)) result }
{
    let sizes = sizes_of(matches);
    if is_given(matches, "explain") {
        Command::Explain(sizes)
    } else {
        Command::Check(sizes)
    }
}

/// Returns the hex texts that the options give.
fn texts_of<'a>(matches: &ArgMatches<'a>) -> RunTexts<'a>
    ensures { GivesTexts (rows_of (found_of matches.now)) result }
{
    RunTexts {
        key: matches.get_str("with-key").unwrap_or(""),
        old: matches.get_str("with-old"),
        arg: matches.get_str("with-arg"),
    }
}

/// Returns what the named command is asked to do.
fn task_of<'a>(matches: &ArgMatches<'a>) -> Task<'a>
    requires { NamesOne (subcommand_rows_of matches.now) }
    ensures { IsAsked (subcommand_rows_of matches.now) result }
{
    let Some((name, options)) = matches.subcommand() else {
        unreachable!()
    };
    match name {
        "asm" => Task::Report(Command::Asm),
        "disasm" => Task::Report(Command::Disasm),
        "check" => Task::Report(check_of(options)),
        "run" => Task::Report(Command::Run(sizes_of(options), texts_of(options))),
        "exec" => Task::Exec(given_size(options, "stripes", STRIPES_DEFAULT)),
        _ => unreachable!(),
    }
}

/// What the words ask for; the first is the program's name. An error is a fault of the words, the help or the version
/// that they ask for, or want of memory; it has the text for the user.
pub fn parse_words<'a>(alloc: Global, words: &'a [&'a str]) -> Result<Task<'a>, clap::Error>
    ensures ok { IfOk result (λ task. Asks (texts words.entry.now) task) }
    ensures kinds { FailsBy (fault_of bpfmap (texts words.entry.now)) result }
{
    let matches = bpfmap_command(alloc)?.try_get_matches_from(words)?;
    Ok(task_of(&matches))
}
