//! Words, and what they ask for.
ghost use Rattle.std.specs.Prelude.{◌≡◌, ◌≤◌, true, All, IfOk, length, if◌then◌else◌};
ghost use Rattle.redis_commands.specs.Names.{walk_arity, connection_arity, sub_arity, arity_of, is_allowed};
ghost use Rattle.redis_commands.specs.Commands.{answer_by, fault_by, asked_by, clients_by, walk_by, connection_by, server_by, program_by, text, texts};
ghost use Rattle.redis_commands.specs.Commands.Fault.{UnknownCommand, WebRequest};
ghost use Rattle.redis_commands.specs.Commands.Asked.{Server};
ghost use Rattle.redis_commands.specs.Commands.ServerAsked.{Clients, Slowlog};
ghost use Rattle.redis_commands.specs.Words.{given};
ghost use Rattle.redis_commands.specs.Reading.{read_by, natural_by, same_by, call_by};
ghost use Rattle.redis_commands.specs.Table.{cursor_of, flush, scan, walk_of, hello_as, hello, auth, select, connection_of, save_later, last_save, shutdown, server_of, has_long_value, call_with, program_of, asked_of_sub, asked_of_parent, asked_as, asked_of, is_web, is_open, closed_parent, closed_server, asked_if_open, asked_before_auth};
ghost use Rattle.redis_commands.specs.Limits.{IsWithinLimits, IsOfConnection, IsConnectionWithin, IsProgramWithin, IsKey, IsValue};

use crate::clients::{kill, list, slow_get};
use crate::command::{
    ClientsCommand, Command, ConnectionCommand, LastSave, ProgramCommand, ServerCommand,
    SlowlogCommand, WalkCommand,
};
use crate::fault::CommandFault;
use crate::keyed::{Answer, key_command, keys_command, word};
use crate::name::{ConnectionName, Name, Parent, ProgramName, ServerName, Sub, WalkName, is};
use crate::number::{integer, natural};
use crate::options::{HelloOptions, ScanOptions, client_name, is_default, number, short_name};
use bpf_model::limits::{KEY_BYTES, VALUE_BYTES};

/// Reads the cursor of `SCAN`.
fn cursor_of<'a>(text: &[u8]) -> Result<u64, CommandFault<'a>>
    ensures { natural_by result ≡ cursor_of text.now }
{
    natural(text).ok_or(CommandFault::BadCursor)
}

/// Returns what the arguments of `SCAN` ask for.
fn scan<'a>(args: &'a [&'a [u8]]) -> Result<WalkCommand<'a>, CommandFault<'a>>
    requires { 1 ≤ length args.now }
    ensures { read_by walk_by result ≡ scan (texts args.now) }
{
    let cursor = cursor_of(word(args, 0))?;
    let options = ScanOptions::read(&args[1..])?;
    Ok(WalkCommand::Scan {
        cursor,
        pattern: options.pattern,
        count: options.count,
        is_string: options.is_string,
    })
}

/// Returns what the arguments of `FLUSHALL` ask for.
fn flush<'a>(args: &'a [&'a [u8]]) -> Result<WalkCommand<'a>, CommandFault<'a>>
    ensures { read_by walk_by result ≡ flush (texts args.now) }
{
    match args {
        [] => Ok(WalkCommand::RemoveAll),
        [option] => {
            if is("async", option) || is("sync", option) {
                Ok(WalkCommand::RemoveAll)
            } else {
                Err(CommandFault::Syntax)
            }
        }
        _ => Err(CommandFault::Syntax),
    }
}

/// Returns what the arguments of a command of the whole map ask for.
fn walk_command<'a>(
    name: WalkName,
    args: &'a [&'a [u8]],
) -> Result<WalkCommand<'a>, CommandFault<'a>>
    requires { is_allowed (walk_arity name) (length args.now) ≡ true }
    ensures { read_by walk_by result ≡ walk_of name (texts args.now) }
{
    match name {
        WalkName::DbSize => Ok(WalkCommand::CountAll),
        WalkName::Scan => scan(args),
        WalkName::Keys => Ok(WalkCommand::Keys {
            pattern: word(args, 0),
        }),
        WalkName::RandomKey => Ok(WalkCommand::RandomKey),
        WalkName::FlushAll | WalkName::FlushDb => flush(args),
    }
}

/// Returns what `HELLO` asks for that shows this password and gives the client this name, or none.
fn hello_as<'a>(
    password: Option<&'a [u8]>,
    name: Option<&'a [u8]>,
) -> Result<ConnectionCommand<'a>, CommandFault<'a>>
    ensures asked { read_by connection_by result ≡ hello_as (text password.entry) (text name.entry) }
    ensures limits { IfOk result (λ c. IsConnectionWithin (connection_by c)) }
{
    match name {
        None => Ok(ConnectionCommand::Hello {
            password,
            name: None,
        }),
        Some(name) => {
            let name = short_name(name)?;
            Ok(ConnectionCommand::Hello {
                password,
                name: Some(name),
            })
        }
    }
}

/// Returns what the arguments of `HELLO` ask for.
fn hello<'a>(args: &'a [&'a [u8]]) -> Result<ConnectionCommand<'a>, CommandFault<'a>>
    ensures asked { read_by connection_by result ≡ hello (texts args.now) }
    ensures limits { IfOk result (λ c. IsConnectionWithin (connection_by c)) }
{
    let [version, options @ ..] = args else {
        return hello_as(None, None);
    };
    let Some(version) = integer(version) else {
        return Err(CommandFault::BadVersion);
    };
    if version != 2 {
        return Err(CommandFault::NoProtocol);
    }
    let options = HelloOptions::read(options)?;
    if options.is_stranger {
        return Err(CommandFault::WrongPassword);
    }
    hello_as(options.password, options.name)
}

/// Returns what the arguments of `AUTH` ask for.
fn auth<'a>(args: &'a [&'a [u8]]) -> Result<ConnectionCommand<'a>, CommandFault<'a>>
    ensures asked { read_by connection_by result ≡ auth (texts args.now) }
    ensures limits { IfOk result (λ c. IsConnectionWithin (connection_by c)) }
{
    match args {
        [password] => Ok(ConnectionCommand::Auth { password }),
        [user, password] => {
            if is_default(user) {
                Ok(ConnectionCommand::AuthDefault { password })
            } else {
                Err(CommandFault::WrongPassword)
            }
        }
        _ => Err(CommandFault::Syntax),
    }
}

/// Selects the map of this number: there is number 0 alone.
fn select<'a>(n: i64) -> Result<ConnectionCommand<'a>, CommandFault<'a>>
    ensures asked { read_by connection_by result ≡ select n }
    ensures limits { IfOk result (λ c. IsConnectionWithin (connection_by c)) }
{
    if n == 0 {
        Ok(ConnectionCommand::Select)
    } else if i32::try_from(n).is_ok() {
        Err(CommandFault::BadIndex)
    } else {
        Err(CommandFault::WideIndex)
    }
}

/// Returns what the arguments of a command of the connection ask for.
fn connection_command<'a>(
    name: ConnectionName,
    args: &'a [&'a [u8]],
) -> Result<ConnectionCommand<'a>, CommandFault<'a>>
    requires { is_allowed (connection_arity name) (length args.now) ≡ true }
    ensures asked { read_by connection_by result ≡ connection_of name (texts args.now) }
    ensures limits { IfOk result (λ c. IsConnectionWithin (connection_by c)) }
{
    match name {
        ConnectionName::Ping => match args {
            [] => Ok(ConnectionCommand::Ping(None)),
            [text, ..] => Ok(ConnectionCommand::Ping(Some(text))),
        },
        ConnectionName::Echo => Ok(ConnectionCommand::Echo(word(args, 0))),
        ConnectionName::Quit => Ok(ConnectionCommand::Quit),
        ConnectionName::Select => select(number(word(args, 0))?),
        ConnectionName::Hello => hello(args),
        ConnectionName::Auth => auth(args),
        ConnectionName::Reset => Ok(ConnectionCommand::Reset),
    }
}

/// Returns what the arguments of `BGSAVE` ask for.
fn save_later<'a>(args: &'a [&'a [u8]]) -> Result<ServerCommand<'a>, CommandFault<'a>>
    ensures { read_by server_by result ≡ save_later (texts args.now) }
{
    match args {
        [] => Ok(ServerCommand::SaveLater),
        [option] => {
            if is("schedule", option) {
                Ok(ServerCommand::SaveLater)
            } else {
                Err(CommandFault::Syntax)
            }
        }
        _ => Err(CommandFault::Syntax),
    }
}

/// Returns what the option of `SHUTDOWN` asks for.
fn last_save<'a>(option: &[u8]) -> Result<ServerCommand<'a>, CommandFault<'a>>
    ensures { read_by server_by result ≡ last_save option.now }
{
    if is("save", option) {
        let save = LastSave::Always;
        Ok(ServerCommand::Shutdown { save })
    } else if is("nosave", option) {
        let save = LastSave::Never;
        Ok(ServerCommand::Shutdown { save })
    } else {
        Err(CommandFault::Syntax)
    }
}

/// Returns what the arguments of `SHUTDOWN` ask for.
fn shutdown<'a>(args: &'a [&'a [u8]]) -> Result<ServerCommand<'a>, CommandFault<'a>>
    ensures { read_by server_by result ≡ shutdown (texts args.now) }
{
    match args {
        [] => {
            let save = LastSave::IfKept;
            Ok(ServerCommand::Shutdown { save })
        }
        [option] => last_save(option),
        _ => Err(CommandFault::Syntax),
    }
}

/// Returns what the arguments of a command of the server ask for.
fn server_command<'a>(
    name: ServerName,
    args: &'a [&'a [u8]],
) -> Result<ServerCommand<'a>, CommandFault<'a>>
    ensures { read_by server_by result ≡ server_of name (texts args.now) }
{
    match name {
        ServerName::Info => Ok(ServerCommand::Info { sections: args }),
        ServerName::Save => Ok(ServerCommand::Save),
        ServerName::BgSave => save_later(args),
        ServerName::LastSave => Ok(ServerCommand::LastSaved),
        ServerName::Shutdown => shutdown(args),
        ServerName::Debug => Err(CommandFault::NoDebug),
    }
}

/// Whether one of the arguments is too long.
fn has_long_value(arguments: &[&[u8]]) -> bool
    ensures { result ≡ has_long_value (texts arguments.now) }
{
    for argument in arguments {
        if argument.len() > VALUE_BYTES {
            return true;
        }
    }
    false
}

/// Returns the one key of a program and its arguments, if the words are said to begin with this number of keys.
fn call_with<'a>(
    keys: i64,
    words: &'a [&'a [u8]],
) -> Result<(&'a [u8], &'a [&'a [u8]]), CommandFault<'a>>
    ensures asked { call_by result ≡ call_with keys (texts words.now) }
    ensures key { IfOk result (λ call. IsKey call.0.now) }
    ensures arguments { IfOk result (λ call. All IsValue (texts call.1.now)) }
{
    let Ok(keys) = u64::try_from(keys) else {
        return Err(CommandFault::NegativeKeys);
    };
    if keys > words.len() as u64 {
        return Err(CommandFault::TooManyKeys);
    }
    if keys != 1 {
        return Err(CommandFault::ScriptShape);
    }
    let key = word(words, 0);
    let arguments = &words[1..];
    if key.len() > KEY_BYTES {
        return Err(CommandFault::LongKey);
    }
    if has_long_value(arguments) {
        return Err(CommandFault::LongValue);
    }
    Ok((key, arguments))
}

/// Returns what the arguments of a command of programs ask for.
fn program_command<'a>(
    name: ProgramName,
    args: &'a [&'a [u8]],
) -> Result<ProgramCommand<'a>, CommandFault<'a>>
    requires { 2 ≤ length args.now }
    ensures asked { read_by program_by result ≡ program_of name (texts args.now) }
    ensures limits { IfOk result (λ p. IsProgramWithin (program_by p)) }
{
    let text = word(args, 0);
    if matches!(name, ProgramName::EvalSha) && text.len() != 40 {
        return Err(CommandFault::NoScript);
    }
    let keys = number(word(args, 1))?;
    let (key, arguments) = call_with(keys, &args[2..])?;
    match name {
        ProgramName::Eval => Ok(ProgramCommand::Eval {
            text,
            key,
            arguments,
        }),
        ProgramName::EvalSha => Ok(ProgramCommand::Call {
            digest: text,
            key,
            arguments,
        }),
    }
}

/// The same, of the server's clients.
fn clients_command<'a>(asked: Result<ClientsCommand<'a>, CommandFault<'a>>) -> Answer<'a>
    ensures { answer_by result ≡ given (read_by clients_by asked.entry) (λ asked. Ok (Server (Clients asked))) }
{
    Ok(Command::Server(ServerCommand::Clients(asked?)))
}

/// The same, of the requests that took long.
fn slowlog_command<'a>(asked: Result<SlowlogCommand, CommandFault<'a>>) -> Answer<'a>
    ensures { answer_by result ≡ given (same_by asked.entry) (λ asked. Ok (Server (Slowlog asked))) }
{
    Ok(Command::Server(ServerCommand::Slowlog(asked?)))
}

/// Returns what the arguments after this word, which names it, ask for.
fn sub_command<'a>(sub: Sub, first: &'a [u8], args: &'a [&'a [u8]]) -> Answer<'a>
    requires { is_allowed (sub_arity sub) (length args.now) ≡ true }
    ensures asked { answer_by result ≡ asked_of_sub sub first.now (texts args.now) }
    ensures limits { IfOk result (λ c. IsWithinLimits (asked_by c)) }
{
    let command = match sub {
        Sub::ScriptLoad => return Ok(Command::Program(ProgramCommand::Load {
            text: word(args, 0),
        })),
        Sub::ScriptExists => return Ok(Command::Program(ProgramCommand::Exists { digests: args })),
        Sub::ClientId => ConnectionCommand::ClientId,
        Sub::ClientGetName => ConnectionCommand::ClientName,
        Sub::ClientSetName => ConnectionCommand::SetClientName(client_name(word(args, 0))?),
        Sub::ClientSetInfo => ConnectionCommand::SetClientInfo {
            attribute: word(args, 0),
            value: word(args, 1),
        },
        Sub::ClientList => return clients_command(list(args)),
        Sub::ClientInfo => return clients_command(Ok(ClientsCommand::Own)),
        Sub::ClientKill => return clients_command(kill(args)),
        Sub::SlowlogGet => return slowlog_command(slow_get(first, args)),
        Sub::SlowlogLen => return slowlog_command(Ok(SlowlogCommand::Length)),
        Sub::SlowlogReset => return slowlog_command(Ok(SlowlogCommand::Reset)),
        Sub::SlowlogHelp => return slowlog_command(Ok(SlowlogCommand::Help)),
        Sub::CommandCount => ConnectionCommand::CommandCount,
        Sub::CommandDocs => ConnectionCommand::CommandDocs,
        Sub::ConfigGet => ConnectionCommand::Config { parameters: args },
    };
    Ok(Command::Connection(command))
}

/// Returns what the arguments ask for. The first one names what the command does.
fn parent_command<'a>(parent: Parent, args: &'a [&'a [u8]]) -> Answer<'a>
    ensures asked { answer_by result ≡ asked_of_parent parent (texts args.now) }
    ensures limits { IfOk result (λ c. IsWithinLimits (asked_by c)) }
{
    let [first, rest @ ..] = args else {
        return Ok(Command::Connection(ConnectionCommand::Commands));
    };
    let Some(sub) = parent.sub_named(first) else {
        return Err(CommandFault::UnknownSub {
            parent,
            word: first,
        });
    };
    if !sub.arity().allows(rest.len()) {
        return Err(CommandFault::WrongSubCount(sub));
    }
    sub_command(sub, first, rest)
}

/// Returns what the arguments of the command of this name ask for, at the time `now`.
fn command_as<'a>(name: Name, now: u64, args: &'a [&'a [u8]]) -> Answer<'a>
    requires { is_allowed (arity_of name) (length args.now) ≡ true }
    ensures asked { answer_by result ≡ asked_as now name (texts args.now) }
    ensures limits { IfOk result (λ c. IsWithinLimits (asked_by c)) }
{
    match name {
        Name::Key(name) => key_command(name, now, args),
        Name::Keys(name) => keys_command(name, args),
        Name::Walk(name) => Ok(Command::Walk(walk_command(name, args)?)),
        Name::Connection(name) => Ok(Command::Connection(connection_command(name, args)?)),
        Name::Server(name) => Ok(Command::Server(server_command(name, args)?)),
        Name::Program(name) => Ok(Command::Program(program_command(name, args)?)),
        Name::Parent(parent) => parent_command(parent, args),
    }
}

/// Returns the fault of a name that no command has.
fn unknown<'a>(name: &'a [u8], args: &'a [&'a [u8]]) -> CommandFault<'a>
    ensures { fault_by result ≡ (if is_web name.now then WebRequest else UnknownCommand name.now (texts args.now)) }
{
    if is("post", name) || is("host:", name) {
        CommandFault::WebRequest
    } else {
        CommandFault::UnknownCommand { name, args }
    }
}

/// Returns what the words ask for at the time `now`, in milliseconds since the epoch. The first word names a command, in
/// any case. The command borrows the words. No memory is asked for.
///
/// An error has the text of the reply: `UnknownCommand` also for what Redis serves and this server doesn't, as `MULTI`.
pub fn command_of<'a>(words: &'a [&'a [u8]], now: u64) -> Result<Command<'a>, CommandFault<'a>>
    ensures asked { answer_by result ≡ asked_of now (texts words.now) }
    ensures limits { IfOk result (λ c. IsWithinLimits (asked_by c)) }
{
    named_command_of(words, now).1
}

/// Returns what `command_of` returns, and the command that the words name, if they do.
pub fn named_command_of<'a>(
    words: &'a [&'a [u8]],
    now: u64,
) -> (Option<Name>, Result<Command<'a>, CommandFault<'a>>)
    ensures asked { answer_by result.1 ≡ asked_of now (texts words.now) }
    ensures limits { IfOk result.1 (λ c. IsWithinLimits (asked_by c)) }
{
    let [first, args @ ..] = words else {
        let none = CommandFault::UnknownCommand {
            name: &[],
            args: &[],
        };
        return (None, Err(none));
    };
    let Some(name) = Name::named(first) else {
        return (None, Err(unknown(first, args)));
    };
    if !name.arity().allows(args.len()) {
        return (Some(name), Err(CommandFault::WrongCount(name)));
    }
    (Some(name), command_as(name, now, args))
}

/// Returns why a client that has not authenticated may not call a command whose first argument names what it does.
fn closed_parent<'a>(parent: Parent, args: &'a [&'a [u8]]) -> CommandFault<'a>
    ensures { fault_by result ≡ closed_parent parent (texts args.now) }
{
    let [first, rest @ ..] = args else {
        return CommandFault::NotAuthenticated;
    };
    let Some(sub) = parent.sub_named(first) else {
        return CommandFault::UnknownSub {
            parent,
            word: first,
        };
    };
    if !sub.arity().allows(rest.len()) {
        return CommandFault::WrongSubCount(sub);
    }
    CommandFault::NotAuthenticated
}

/// Returns why a client that has not authenticated may not call a command of the server.
fn closed_server<'a>(name: ServerName) -> CommandFault<'a>
    ensures { fault_by result ≡ closed_server name }
{
    match name {
        ServerName::Debug => CommandFault::NoDebug,
        _ => CommandFault::NotAuthenticated,
    }
}

/// Whether a client that has not authenticated may call this command.
fn is_open(name: ConnectionName) -> bool
    ensures { result ≡ is_open name }
{
    match name {
        ConnectionName::Ping
        | ConnectionName::Quit
        | ConnectionName::Hello
        | ConnectionName::Auth
        | ConnectionName::Reset => true,
        ConnectionName::Echo | ConnectionName::Select => false,
    }
}

/// Returns what the arguments of the command of this name ask for, if a client may call it that has not authenticated.
fn open_command<'a>(name: Name, args: &'a [&'a [u8]]) -> Answer<'a>
    requires { is_allowed (arity_of name) (length args.now) ≡ true }
    ensures asked { answer_by result ≡ asked_if_open name (texts args.now) }
    ensures limits { IfOk result (λ c. IsWithinLimits (asked_by c)) }
    ensures connection { IfOk result (λ c. IsOfConnection (asked_by c)) }
{
    match name {
        Name::Connection(name) => {
            if !is_open(name) {
                return Err(CommandFault::NotAuthenticated);
            }
            Ok(Command::Connection(connection_command(name, args)?))
        }
        Name::Server(name) => Err(closed_server(name)),
        Name::Parent(parent) => Err(closed_parent(parent, args)),
        Name::Key(_) | Name::Keys(_) | Name::Walk(_) | Name::Program(_) => {
            Err(CommandFault::NotAuthenticated)
        }
    }
}

/// Returns what the words of a client ask for that has not authenticated. It is what `command_of` returns for `PING`, `QUIT`, `AUTH`,
/// `HELLO` and `RESET`, and for words that name no command or have a wrong number of arguments. The command borrows the words. No
/// memory is asked for.
///
/// `NotAuthenticated` says that the client has to authenticate before it calls this command. Other errors are as those of `command_of`.
pub fn command_before_auth<'a>(words: &'a [&'a [u8]]) -> Result<Command<'a>, CommandFault<'a>>
    ensures asked { answer_by result ≡ asked_before_auth (texts words.now) }
    ensures limits { IfOk result (λ c. IsWithinLimits (asked_by c)) }
    ensures connection { IfOk result (λ c. IsOfConnection (asked_by c)) }
{
    let [first, args @ ..] = words else {
        return Err(CommandFault::UnknownCommand {
            name: &[],
            args: &[],
        });
    };
    let Some(name) = Name::named(first) else {
        return Err(unknown(first, args));
    };
    if !name.arity().allows(args.len()) {
        return Err(CommandFault::WrongCount(name));
    }
    open_command(name, args)
}
