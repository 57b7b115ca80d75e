//! The clients of a server, as they are listed and let go.
ghost use Rattle.std.specs.Prelude.{◌≡◌, ◌<◌, ◌-◌, ◌/◌, ◌++◌, true, false, [], ℕ, List, length, get_or, decimal, IfOk, IfSome};
ghost use Rattle.devices.specs.Devices.{CanWrite};
ghost use Rattle.redis_commands.specs.Commands.{clients_by, texts};
ghost use Rattle.redis_service.specs.Clients.{AnswersClients, AreLines, IsAny, IsNamed, IsOwn, Lists, MayEnd, SaysLines, killed_line, version_of, addresses, name_part, times, command_part, version_part, library, client_line};
ghost use Rattle.redis_service.specs.Replied.{replied_bytes};
ghost use Rattle.redis_service.specs.Sending.{Sends};

use crate::moment::Moment;
use crate::reply::Replied;
use crate::server::is;
use crate::talk::RedisTalk;
use arrayvec::ArrayVec;
use bpf_model::NoMemory;
use devices::{Failed, Sink};
use itoa::Buffer;
use redis_commands::{ClientFilter, ClientsCommand, ConnectionCommand, kind_name};
use resp::put_value;
use server_state::{ClientFact, ClientView, KillFilter, ServerClients};
use std::alloc::Global;
use std::str;
use std::sync::Wait;

/// What is said if nobody has the address.
const NO_CLIENT: &[u8] = b"ERR No such client";

/// The name of a command has at most this many bytes.
pub const COMMAND_TEXT_BYTES: usize = 24;

/// The name of a command, of at most two words.
pub type CommandText = ArrayVec<u8, COMMAND_TEXT_BYTES>;

/// A number, in decimal.
pub(crate) fn decimal_of(number: u64) -> ArrayVec<u8, 20>
    ensures { result.items ≡ decimal number }
{
    let mut text = ArrayVec::new();
    let mut digits = Buffer::new();
    text.try_extend_from_slice(digits.format(number).as_bytes())
        .unwrap();
    text
}

/// The number of seconds from one time to another, in decimal.
fn seconds(from: u64, to: u64) -> ArrayVec<u8, 20>
    ensures { result.items ≡ decimal ((to - from) / 1000) }
{
    decimal_of(to.saturating_sub(from) / 1000)
}

/// The version of Redis' protocol that a client of commands speaks, or 0.
fn version(has_commands: bool) -> &'static [u8]
    ensures { result.now ≡ version_of has_commands }
{
    if has_commands { b"2" } else { b"0" }
}

/// The name of the command that is noted by this number: its kind from 1 on. `NULL` if there is no such kind.
pub fn command_text(command: u64) -> CommandText {
    let mut text = ArrayVec::new();
    let named = match command.checked_sub(1) {
        Some(kind) => kind_name(kind as usize),
        None => None,
    };
    let (first, second) = named.unwrap_or(("NULL", None));
    let _ = text.try_extend_from_slice(first.as_bytes());
    if let Some(second) = second {
        let _ = text.try_extend_from_slice(b"|");
        let _ = text.try_extend_from_slice(second.as_bytes());
    }
    text
}

/// Adds bytes to a text. `NoMemory` if a request for memory was refused.
pub(crate) fn add(text: &mut Vec<u8>, bytes: &[u8]) -> Result<(), NoMemory>
    ensures { IfOk result (λ _. text.new.items ≡ text.old.items ++ bytes.now) }
{
    match text.extend_from_slice(bytes) {
        Ok(()) => Ok(()),
        Err(_) => Err(NoMemory),
    }
}

/// Adds the number and the addresses of a client.
fn add_addresses(text: &mut Vec<u8>, view: &ClientView) -> Result<(), NoMemory>
    ensures { (name command : List ℕ) → IfOk result (λ _. text.new.items ≡ text.old.items ++ addresses (record { client = view.now; name = name; command = command })) }
{
    let number = decimal_of(view.number);
    add(text, b"id=")?;
    add(text, number.as_slice())?;
    add(text, b" addr=")?;
    add(text, view.address.as_slice())?;
    add(text, b" laddr=")?;
    add(text, view.local_address.as_slice())
}

/// Adds the descriptor and the name of a client.
fn add_name(text: &mut Vec<u8>, view: &ClientView, name: &[u8]) -> Result<(), NoMemory>
    ensures { (command : List ℕ) → IfOk result (λ _. text.new.items ≡ text.old.items ++ name_part (record { client = view.now; name = name.now; command = command })) }
{
    let descriptor = decimal_of(view.descriptor);
    add(text, b" fd=")?;
    add(text, descriptor.as_slice())?;
    add(text, b" name=")?;
    add(text, name)
}

/// Adds how long a client has been there and silent at this time.
fn add_times(text: &mut Vec<u8>, view: &ClientView, now: u64) -> Result<(), NoMemory>
    ensures { (name command : List ℕ) → IfOk result (λ _. text.new.items ≡ text.old.items ++ times now (record { client = view.now; name = name; command = command })) }
{
    let age = seconds(view.came, now);
    let idle = seconds(view.heard, now);
    add(text, b" age=")?;
    add(text, age.as_slice())?;
    add(text, b" idle=")?;
    add(text, idle.as_slice())
}

/// Adds what a client asked for last.
fn add_command(text: &mut Vec<u8>, view: &ClientView, command: &[u8]) -> Result<(), NoMemory>
    ensures { (name : List ℕ) → IfOk result (λ _. text.new.items ≡ text.old.items ++ command_part (record { client = view.now; name = name; command = command.now })) }
{
    add(text, b" flags=N db=0 sub=0 psub=0 ssub=0 multi=-1 cmd=")?;
    add(text, command)
}

/// Adds the version of a client's protocol.
fn add_version(text: &mut Vec<u8>, view: &ClientView) -> Result<(), NoMemory>
    ensures { (name command : List ℕ) → IfOk result (λ _. text.new.items ≡ text.old.items ++ version_part (record { client = view.now; name = name; command = command })) }
{
    add(text, b" user=default redir=-1 resp=")?;
    add(text, version(view.has_commands))
}

/// Adds what a client told of its library.
fn add_library(text: &mut Vec<u8>, view: &ClientView) -> Result<(), NoMemory>
    ensures { (name command : List ℕ) → IfOk result (λ _. text.new.items ≡ text.old.items ++ library (record { client = view.now; name = name; command = command })) }
{
    add(text, b" lib-name=")?;
    add(text, view.library.as_slice())?;
    add(text, b" lib-ver=")?;
    add(text, view.version.as_slice())?;
    add(text, b"\n")
}

/// Adds the line of a client at this time, which has this name.
fn add_line(text: &mut Vec<u8>, view: &ClientView, name: &[u8], now: u64) -> Result<(), NoMemory>
    ensures { IfOk result (λ _. (command : List ℕ)
        × (text.new.items ≡ text.old.items ++ client_line now (record { client = view.now; name = name.now; command = command }))) }
{
    let command = command_text(view.command);
    add_addresses(text, view)?;
    add_name(text, view, name)?;
    add_times(text, view, now)?;
    add_command(text, view, command.as_slice())?;
    add_version(text, view)?;
    add_library(text, view)
}

/// Adds the client of this seat of the worker, if one is there.
fn add_seat<H: Wait>(
    moment: &Moment<'_, H>,
    clients: &ServerClients,
    place: (usize, usize),
    text: &mut Vec<u8>,
) -> Result<(), NoMemory>
    requires { AreLines IsAny moment.now.time text.old.items }
    ensures { IfOk result (λ _. AreLines IsAny moment.now.time text.new.items) }
{
    let (worker, seat) = place;
    match clients.at(moment.rt, worker, seat) {
        Some(view) => add_line(text, &view, view.name.as_slice(), moment.time),
        None => Ok(()),
    }
}

/// Adds the clients of this worker.
fn add_worker<H: Wait>(
    moment: &Moment<'_, H>,
    clients: &ServerClients,
    worker: usize,
    text: &mut Vec<u8>,
) -> Result<(), NoMemory>
    requires { AreLines IsAny moment.now.time text.old.items }
    ensures { IfOk result (λ _. AreLines IsAny moment.now.time text.new.items) }
{
    for seat in 0..clients.seats(moment.rt, worker) {
        add_seat(moment, clients, (worker, seat), text)?;
    }
    Ok(())
}

/// The lines of all clients.
fn all_lines<H: Wait>(
    moment: &Moment<'_, H>,
    alloc: Global,
    clients: &ServerClients,
) -> Result<Vec<u8>, NoMemory>
    ensures { IfOk result (λ text. AreLines IsAny moment.now.time text.items) }
{
    let mut text = Vec::new(alloc);
    for worker in 0..clients.workers() {
        add_worker(moment, clients, worker, &mut text)?;
    }
    Ok(text)
}

/// The client whose number is this word, if it is there.
fn named<H: Wait>(rt: &H, clients: &ServerClients, word: &[u8]) -> Option<ClientView>
    ensures { IfSome result (λ view. word.now ≡ decimal view.number) }
{
    let number = str::from_utf8(word).ok()?.parse::<u64>().ok()?;
    let view = clients.find(rt, number)?;
    let digits = decimal_of(view.number);
    if word == digits.as_slice() {
        Some(view)
    } else {
        None
    }
}

/// Adds the client whose number is this word, if it is there.
fn add_named<H: Wait>(
    moment: &Moment<'_, H>,
    clients: &ServerClients,
    word: &[u8],
    text: &mut Vec<u8>,
) -> Result<(), NoMemory>
    ensures { (words : List (List ℕ)) (k : ℕ) → k < length words → get_or words k [] ≡ word.now
        → AreLines (IsNamed words) moment.now.time text.old.items → IfOk result (λ _. AreLines (IsNamed words) moment.now.time text.new.items) }
{
    match named(moment.rt, clients, word) {
        Some(view) => add_line(text, &view, view.name.as_slice(), moment.time),
        None => Ok(()),
    }
}

/// The lines of the clients whose numbers are these words.
fn named_lines<H: Wait>(
    moment: &Moment<'_, H>,
    alloc: Global,
    clients: &ServerClients,
    words: &[&[u8]],
) -> Result<Vec<u8>, NoMemory>
    ensures { IfOk result (λ text. AreLines (IsNamed (texts words.now)) moment.now.time text.items) }
{
    let mut text = Vec::new(alloc);
    for word in words {
        add_named(moment, clients, word, &mut text)?;
    }
    Ok(text)
}

/// The client of this number. If it isn't there, nothing is known of it.
fn own_view<H: Wait>(rt: &H, clients: &ServerClients, number: u64) -> ClientView
    ensures { result.number ≡ number }
{
    match clients.find(rt, number) {
        Some(view) => view,
        None => ClientView::stranger(number),
    }
}

/// The line of the client that asks.
fn own_lines<H: Wait>(
    moment: &Moment<'_, H>,
    alloc: Global,
    clients: &ServerClients,
    talk: &RedisTalk<'_>,
) -> Result<Vec<u8>, NoMemory>
    ensures { IfOk result (λ text. AreLines (IsOwn talk.now) moment.now.time text.items) }
{
    let view = own_view(moment.rt, clients, talk.number());
    let mut text = Vec::new(alloc);
    add_line(&mut text, &view, talk.name(), moment.time)?;
    Ok(text)
}

/// Says the lines, or that memory for them was refused.
fn put_lines<W: Sink>(lines: Result<Vec<u8>, NoMemory>, sink: &mut W) -> Result<(), Failed>
    requires { CanWrite (W.state sink.old) }
    ensures { (written : List ℕ) × Sends result (W.state sink.old) (W.state sink.new) written × SaysLines lines written }
{
    match lines {
        Ok(text) => put_value(sink, &text),
        Err(NoMemory) => Replied::NoMemory.send(&[], sink),
    }
}

/// Says the lines of all clients.
fn put_all<H: Wait, W: Sink>(
    moment: &Moment<'_, H>,
    alloc: Global,
    clients: &ServerClients,
    sink: &mut W,
) -> Result<(), Failed>
    requires { CanWrite (W.state sink.old) }
    ensures { (written : List ℕ) × Sends result (W.state sink.old) (W.state sink.new) written × Lists IsAny written }
{
    put_lines(all_lines(moment, alloc, clients), sink)
}

/// Says the lines of the clients whose numbers are these words.
fn put_named<H: Wait, W: Sink>(
    moment: &Moment<'_, H>,
    alloc: Global,
    clients: &ServerClients,
    words: &[&[u8]],
    sink: &mut W,
) -> Result<(), Failed>
    requires { CanWrite (W.state sink.old) }
    ensures { (written : List ℕ) × Sends result (W.state sink.old) (W.state sink.new) written × Lists (IsNamed (texts words.now)) written }
{
    put_lines(named_lines(moment, alloc, clients, words), sink)
}

/// Says the line of the client that asks.
fn put_own<H: Wait, W: Sink>(
    moment: &Moment<'_, H>,
    alloc: Global,
    clients: &ServerClients,
    talk: &RedisTalk<'_>,
    sink: &mut W,
) -> Result<(), Failed>
    requires { CanWrite (W.state sink.old) }
    ensures { (written : List ℕ) × Sends result (W.state sink.old) (W.state sink.new) written × Lists (IsOwn talk.now) written }
{
    put_lines(own_lines(moment, alloc, clients, talk), sink)
}

/// Lets go of the clients that are meant, of which this one asks. It is told first, if it is among them.
fn kill<H: Wait>(
    rt: &H,
    clients: &ServerClients,
    talk: &mut RedisTalk<'_>,
    filter: &ClientFilter<'_>,
) -> u64
    ensures talk { MayEnd talk.old talk.new }
    ensures spared { filter.now.spares_own ≡ true → talk.new ≡ talk.old }
    ensures none { filter.now.is_normal ≡ false → result ≡ 0 }
    ensures number { talk.new.number ≡ talk.old.number }
{
    if !filter.is_normal {
        return 0;
    }
    let meant = KillFilter {
        number: filter.number,
        address: filter.address,
        local_address: filter.local_address,
        own: talk.number(),
        spares_own: filter.spares_own,
    };
    let killed = clients.kill(rt, &meant);
    if killed.has_own && !filter.spares_own {
        talk.leave();
    }
    killed.count
}

/// Lets go of the client with this address. Returns whether there is one.
fn kill_at<H: Wait>(
    rt: &H,
    clients: &ServerClients,
    talk: &mut RedisTalk<'_>,
    address: &[u8],
) -> bool
    ensures talk { MayEnd talk.old talk.new }
    ensures none { result ≡ false → talk.new ≡ talk.old }
    ensures number { talk.new.number ≡ talk.old.number }
{
    let meant = KillFilter {
        number: None,
        address: Some(address),
        local_address: None,
        own: talk.number(),
        spares_own: false,
    };
    let killed = clients.kill(rt, &meant);
    if killed.count == 0 {
        return false;
    }
    if killed.has_own {
        talk.leave();
    }
    true
}

/// Says whether a client with the address was let go.
fn killed_line(is_killed: bool) -> Replied
    ensures { (found : List ℕ) → replied_bytes result found ≡ killed_line is_killed }
{
    if is_killed {
        Replied::Simple(b"OK")
    } else {
        Replied::Error(NO_CLIENT)
    }
}

/// Whether each byte is from `!` to `~`.
fn is_plain(text: &[u8]) -> bool {
    for b in text {
        if !b.is_ascii_graphic() {
            return false;
        }
    }
    true
}

/// Notes what a client tells of its library.
fn tell_library<H: Wait>(
    rt: &H,
    clients: &ServerClients,
    number: u64,
    attribute: &[u8],
    value: &[u8],
) {
    if !is_plain(value) {
        return;
    }
    if is("lib-name", attribute) {
        clients.tell(rt, number, ClientFact::Library, value);
    } else if is("lib-ver", attribute) {
        clients.tell(rt, number, ClientFact::Version, value);
    }
}

/// Notes what this command told of its client.
pub fn tell_of<H: Wait>(
    rt: &H,
    clients: &ServerClients,
    talk: &RedisTalk<'_>,
    command: &ConnectionCommand<'_>,
) {
    let number = talk.number();
    match *command {
        ConnectionCommand::SetClientName(_)
        | ConnectionCommand::Hello { name: Some(_), .. }
        | ConnectionCommand::Reset => clients.tell(rt, number, ClientFact::Name, talk.name()),
        ConnectionCommand::SetClientInfo { attribute, value } => {
            tell_library(rt, clients, number, attribute, value)
        }
        _ => {}
    }
}

/// Answers a command about the server's clients.
pub fn answer_clients<H: Wait, W: Sink>(
    moment: &Moment<'_, H>,
    alloc: Global,
    clients: &ServerClients,
    talk: &mut RedisTalk<'_>,
    command: &ClientsCommand<'_>,
    sink: &mut W,
) -> Result<(), Failed>
    requires { CanWrite (W.state sink.old) }
    ensures number { talk.new.number ≡ talk.old.number }
    ensures answers { (written : List ℕ) × Sends result (W.state sink.old) (W.state sink.new) written
        × AnswersClients talk.old (clients_by command.now) written talk.new }
{
    match *command {
        ClientsCommand::List => put_all(moment, alloc, clients, sink),
        ClientsCommand::Nobody => put_value(sink, &[]),
        ClientsCommand::Named { numbers } => put_named(moment, alloc, clients, numbers, sink),
        ClientsCommand::Own => put_own(moment, alloc, clients, talk, sink),
        ClientsCommand::KillAt { address } => {
            let is_killed = kill_at(moment.rt, clients, talk, address);
            killed_line(is_killed).send(&[], sink)
        }
        ClientsCommand::Kill { filter } => {
            let count = kill(moment.rt, clients, talk, &filter);
            Replied::Count(count).send(&[], sink)
        }
    }
}
