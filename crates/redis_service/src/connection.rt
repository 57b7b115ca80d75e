//! Commands of the connection.
ghost use Rattle.std.specs.Prelude.{◌≡◌, ℕ, List, Some};
ghost use Rattle.bin_stripes.specs.Passes.{PassState};
ghost use Rattle.devices.specs.Devices.{CanWrite};
ghost use Rattle.redis_commands.specs.Commands.{connection_by, text};
ghost use Rattle.redis_service.specs.Connections.{AnswersConnection, AnswersHello, Greets, LetsIn, LetsInBy, Renames, hello_bytes, name_line, ping_line, wrong_password_line};
ghost use Rattle.redis_service.specs.Replied.{replied_bytes};
ghost use Rattle.redis_service.specs.Sending.{Sends};
ghost use Rattle.redis_service.specs.States.{showing};
ghost use Rattle.redis_service.specs.Texts.{ok_line};

use crate::reply::Replied;
use crate::server::put_settings;
use crate::talk::{RedisTalk, Showing};
use devices::{Failed, Sink};
use redis_commands::{CommandFault, ConnectionCommand};
use resp::{put_error, put_value};
use std::alloc::Global;

/// What `HELLO` says before the client's number.
const HELLO_HEAD: &[u8] =
    b"*14\r\n$6\r\nserver\r\n$5\r\nredis\r\n$7\r\nversion\r\n$6\r\n7.0.15\r\n$5\r\nproto\r\n:2\r\n$2\r\nid\r\n";

/// What `HELLO` says after the client's number.
const HELLO_TAIL: &[u8] =
    b"$4\r\nmode\r\n$10\r\nstandalone\r\n$4\r\nrole\r\n$6\r\nmaster\r\n$7\r\nmodules\r\n*0\r\n";

/// Says what a `HELLO` asks for, to the client of this number.
fn put_hello<W: Sink>(number: u64, sink: &mut W) -> Result<(), Failed>
    requires { CanWrite (W.state sink.old) }
    ensures { Sends result (W.state sink.old) (W.state sink.new) (hello_bytes number) }
{
    let sent = Replied::Bytes(HELLO_HEAD).send_after(Ok(()), &[], sink);
    let sent = Replied::Count(number).send_after(sent, &[], sink);
    Replied::Bytes(HELLO_TAIL).send_after(sent, &[], sink)
}

/// Says the client's name, or nothing.
fn name_of(name: &[u8]) -> Replied
    ensures { replied_bytes result name.now ≡ name_line name.now }
{
    if name.is_empty() {
        Replied::Nothing
    } else {
        Replied::Found
    }
}

/// Renames the client, and says OK.
fn rename<W: Sink>(
    alloc: Global,
    talk: &mut RedisTalk<'_>,
    name: &[u8],
    sink: &mut W,
) -> Result<(), Failed>
    requires { CanWrite (W.state sink.old) }
    ensures number { talk.new.number ≡ talk.old.number }
    ensures renames { (pass : PassState) → (written : List ℕ) × Sends result (W.state sink.old) (W.state sink.new) written
        × Renames talk.old pass name.now ok_line written talk.new pass }
{
    if talk.rename(alloc, name) {
        Replied::Simple(b"OK").send(&[], sink)
    } else {
        Replied::NoMemory.send(&[], sink)
    }
}

/// Renames the client, and says what a `HELLO` asks for.
fn greet<W: Sink>(
    alloc: Global,
    talk: &mut RedisTalk<'_>,
    name: &[u8],
    sink: &mut W,
) -> Result<(), Failed>
    requires { CanWrite (W.state sink.old) }
    ensures number { talk.new.number ≡ talk.old.number }
    ensures renames { (pass : PassState) → (written : List ℕ) × Sends result (W.state sink.old) (W.state sink.new) written
        × Renames talk.old pass name.now (hello_bytes talk.old.number) written talk.new pass }
{
    if talk.rename(alloc, name) {
        put_hello(talk.number(), sink)
    } else {
        Replied::NoMemory.send(&[], sink)
    }
}

/// Says what a `HELLO` asks for that is welcome, and renames the client if there is a name.
fn welcome<W: Sink>(
    alloc: Global,
    talk: &mut RedisTalk<'_>,
    name: Option<&[u8]>,
    sink: &mut W,
) -> Result<(), Failed>
    requires { CanWrite (W.state sink.old) }
    ensures number { talk.new.number ≡ talk.old.number }
    ensures greets { (pass : PassState) → (written : List ℕ) × Sends result (W.state sink.old) (W.state sink.new) written
        × Greets talk.old pass (text name.entry) written talk.new pass }
{
    match name {
        Some(name) => greet(alloc, talk, name, sink),
        None => put_hello(talk.number(), sink),
    }
}

/// What `HELLO` says to a client that has to show the password.
const STRANGER: &[u8] =
    b"NOAUTH HELLO must be called with the client already authenticated, otherwise the HELLO AUTH <user> <pass> option can be used to authenticate the client and select the RESP protocol version at the same time";

/// What `AUTH` with a password alone says if there is none.
const NO_PASSWORD: &[u8] =
    b"ERR AUTH <password> called without any password configured for the default user. Are you sure your configuration is correct?";

/// Says that the password is wrong.
fn say_wrong<W: Sink>(sink: &mut W) -> Result<(), Failed>
    requires { CanWrite (W.state sink.old) }
    ensures { Sends result (W.state sink.old) (W.state sink.new) wrong_password_line }
{
    put_error(sink, CommandFault::WrongPassword.text().as_slice())
}

/// Answers a `HELLO`. Who shows the right password, or has shown it, is let in and welcome.
fn hello<W: Sink>(
    alloc: Global,
    talk: &mut RedisTalk<'_>,
    shown: Option<&[u8]>,
    name: Option<&[u8]>,
    sink: &mut W,
) -> Result<(), Failed>
    requires { CanWrite (W.state sink.old) }
    ensures number { talk.new.number ≡ talk.old.number }
    ensures answers { (pass : PassState) → (written : List ℕ) × Sends result (W.state sink.old) (W.state sink.new) written
        × AnswersHello (showing talk.old (text shown.entry)) talk.old pass (text name.entry) written talk.new pass }
{
    match talk.showing(shown) {
        Showing::Right => {
            talk.let_in();
            welcome(alloc, talk, name, sink)
        }
        Showing::Wrong => say_wrong(sink),
        Showing::Missing => Replied::Error(STRANGER).send(&[], sink),
    }
}

/// Lets a client in that shows the right password.
fn let_in<W: Sink>(talk: &mut RedisTalk<'_>, shown: &[u8], sink: &mut W) -> Result<(), Failed>
    requires { CanWrite (W.state sink.old) }
    ensures number { talk.new.number ≡ talk.old.number }
    ensures answers { (pass : PassState) → (written : List ℕ) × Sends result (W.state sink.old) (W.state sink.new) written
        × LetsIn (showing talk.old (Some shown.now)) talk.old pass written talk.new pass }
{
    match talk.showing(Some(shown)) {
        Showing::Right => {
            talk.let_in();
            Replied::Simple(b"OK").send(&[], sink)
        }
        Showing::Wrong | Showing::Missing => say_wrong(sink),
    }
}

/// Lets a client in that shows the right password alone, if there is one.
fn let_in_by<W: Sink>(talk: &mut RedisTalk<'_>, shown: &[u8], sink: &mut W) -> Result<(), Failed>
    requires { CanWrite (W.state sink.old) }
    ensures number { talk.new.number ≡ talk.old.number }
    ensures answers { (pass : PassState) → (written : List ℕ) × Sends result (W.state sink.old) (W.state sink.new) written
        × LetsInBy talk.old.password talk.old pass shown.now written talk.new pass }
{
    match talk.password {
        None => Replied::Error(NO_PASSWORD).send(&[], sink),
        Some(_) => let_in(talk, shown, sink),
    }
}

/// Says the text, or that the server is there.
fn ping<W: Sink>(word: Option<&[u8]>, sink: &mut W) -> Result<(), Failed>
    requires { CanWrite (W.state sink.old) }
    ensures { Sends result (W.state sink.old) (W.state sink.new) (ping_line (text word.entry)) }
{
    match word {
        Some(text) => put_value(sink, text),
        None => Replied::Simple(b"PONG").send(&[], sink),
    }
}

/// Answers a command of the connection. SLOWLOG keeps commands from this number of microseconds on, or none.
pub fn answer_connection<W: Sink>(
    alloc: Global,
    least: Option<u64>,
    talk: &mut RedisTalk<'_>,
    command: &ConnectionCommand<'_>,
    sink: &mut W,
) -> Result<(), Failed>
    requires { CanWrite (W.state sink.old) }
    ensures number { talk.new.number ≡ talk.old.number }
    ensures answers { (pass : PassState) → (written : List ℕ) × Sends result (W.state sink.old) (W.state sink.new) written
        × AnswersConnection talk.old pass (connection_by command.now) written talk.new pass }
{
    match *command {
        ConnectionCommand::Ping(text) => ping(text, sink),
        ConnectionCommand::Echo(text) => put_value(sink, text),
        ConnectionCommand::Quit => {
            talk.leave();
            Replied::Simple(b"OK").send(&[], sink)
        }
        ConnectionCommand::Select => Replied::Simple(b"OK").send(&[], sink),
        ConnectionCommand::Auth { password } => let_in_by(talk, password, sink),
        ConnectionCommand::AuthDefault { password } => let_in(talk, password, sink),
        ConnectionCommand::SetClientInfo { .. } => Replied::Simple(b"OK").send(&[], sink),
        ConnectionCommand::Commands => Replied::Array(0).send(&[], sink),
        ConnectionCommand::CommandDocs => Replied::Array(0).send(&[], sink),
        ConnectionCommand::CommandCount => Replied::Integer(0).send(&[], sink),
        ConnectionCommand::ClientName => {
            let name = talk.name();
            name_of(name).send(name, sink)
        }
        ConnectionCommand::SetClientName(name) => { rename(alloc, talk, name, sink) }
        ConnectionCommand::Hello { password, name } => hello(alloc, talk, password, name, sink),
        ConnectionCommand::ClientId => Replied::Count(talk.number()).send(&[], sink),
        ConnectionCommand::Reset => {
            talk.reset(alloc);
            Replied::Simple(b"RESET").send(&[], sink)
        }
        ConnectionCommand::Config { parameters } => put_settings(least, parameters, sink),
    }
}
