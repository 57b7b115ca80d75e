//! The program `mapd`, over two devices and the network: it does what the words ask for, prints, and gives the status.
ghost use Rattle.std.specs.Prelude.{◌≡◌, ◌⊎◌, ◌++◌, [], ℕ, true, List, codes, decimal, is_some, IfOk, OnOk, OnErr, vec_len};
ghost use Rattle.clap.specs.Walk.{texts};
ghost use Rattle.clap.specs.Words.{fault_of, HasKind};
ghost use Rattle.devices.specs.Devices.{CanWrite, TakesFront, TakesIfItCan};
ghost use Rattle.map_commands.specs.Endings.{outputs};
ghost use Rattle.map_server.specs.Servers.{CanServe, HasPorts, IsAsked};
ghost use Rattle.map_server.specs.ServerRuns.{EndsServerWords, EndsServing, FailsToRestore, IsLastLine, Listens, PrintsAll, RunsMapd, ServesClients, ServesReady, TellsOpenFault, refusal_line};
ghost use Rattle.map_server.specs.ServerWords.{reader_of, IsWordsFault};

use crate::keeping::{Host, restored, tell_fault_of_file};
use crate::metrics::Watch;
use crate::opening::open_server;
use crate::passwords::{PasswordFiles, given_password, tell_no_password};
use crate::ports::{Binder, ListenFault};
use crate::ready::Ready;
use crate::server::Server;
use crate::serving::{Served, serve_ports};
use crate::tcp::{Bound, bind};
use crate::telling::Telling;
use crate::threads::{Others, tell_running};
use crate::witness::Witness;
use crate::words::{MapdWords, WordsFault, mapd_words};
use bin_stripes::OpenFault;
use bins::Seed;
use bpf_model::NoMemory;
use clap::error::ErrorKind;
use devices::{Failed, Sink, write_all};
use itoa::Buffer;
use map_commands::{
    Ending, FAILED_DEVICE, Line, REFUSED, append, refuse, text_line, told_error, warn,
};
use map_keeper::{Opener, RestoreFault, Shared};
use redis_scripts::Scripts;
use std::alloc::{AllocError, Global};
use std::net::Net;
use std::random::RandomSource;
use std::rt::Clock;
use std::sync::Wait;
use std::thread::Threads;

/// Prints the line of a refusal to open the map, writes its meaning to standard error, and answers the status.
fn tell_fault<W: Sink, E: Sink>(fault: OpenFault, writer: &mut W, errors: &mut E) -> u8
    requires writes { CanWrite (W.state writer.old) }
    requires warns { CanWrite (E.state errors.old) }
    ensures { TellsOpenFault fault (outputs (W.state writer.old) (E.state errors.old))
        (outputs (W.state writer.new) (E.state errors.new)) result }
{
    match fault {
        OpenFault::BadStripes => Ending::BadStripes.tell(writer, errors),
        OpenFault::BadPasses => {
            let meaning =
                b"workers * (1 + team), and 1 each for --keep and --metrics, is more than 64\n";
            refuse(b"refused 51 at 0\n", meaning, writer, errors)
        }
        OpenFault::NoMemory => Ending::NoMemory.tell(writer, errors),
    }
}

/// What words come to that ask for no server. If there is no memory for clap's text, that is refused.
fn ending_of_error(alloc: Global, error: &clap::Error, words: &[&str]) -> Ending
    ensures { HasKind (fault_of (reader_of (texts words.now)) (texts words.now)) error.now
        → EndsServerWords (texts words.now) result }
{
    if error.kind() == ErrorKind::OutOfMemory {
        return Ending::NoMemory;
    }
    match told_error(alloc, error, words) {
        Err(NoMemory) => Ending::NoMemory,
        Ok(text) if error.use_stderr() => Ending::Faulty(text),
        Ok(text) => Ending::Shown(text),
    }
}

/// Why a port could not be bound, in a line.
fn reason_line(alloc: Global, fault: &ListenFault<'_>) -> Result<String, AllocError> {
    let error = &fault.error;
    match fault.address {
        Some(address) => format!(in alloc; "{address}: {error}\n"),
        None => format!(in alloc; "{error}\n"),
    }
}

/// The text that tells that a port could not be bound. If there is no memory for the reason, it is left out.
fn listen_failure(alloc: Global, fault: &ListenFault<'_>) -> Result<Vec<u8>, AllocError>
    ensures { IfOk result (λ text. (why : List ℕ) × (text.items ≡ codes "failed listen\n" ++ why)) }
{
    let mut text = Vec::new(alloc);
    text.extend_from_slice(b"failed listen\n")?;
    text.extend_from_slice(reason_line(alloc, fault)?.as_bytes())?;
    Ok(text)
}

/// Tells that a port could not be bound, and why, and answers the status.
fn tell_failed_listen<E: Sink>(alloc: Global, fault: &ListenFault<'_>, errors: &mut E) -> u8
    requires { CanWrite (E.state errors.old) }
    ensures status { result ≡ 3 }
    ensures errors { (why : List ℕ) × TakesIfItCan (E.state errors.old) (E.state errors.new) (codes "failed listen\n" ++ why) }
{
    match listen_failure(alloc, fault) {
        Ok(text) => warn(&text, FAILED_DEVICE, errors),
        Err(_) => warn(b"failed listen\n", FAILED_DEVICE, errors),
    }
}

/// Prints the text, and flushes it.
fn print_at_once<W: Sink>(writer: &mut W, text: &[u8]) -> Result<(), Failed>
    requires { CanWrite (W.state writer.old) }
    ensures ok { OnOk result (PrintsAll (W.state writer.old) (W.state writer.new) text.now) }
    ensures err { OnErr result (TakesFront (W.state writer.old) (W.state writer.new) text.now) }
{
    write_all(writer, text)?;
    writer.flush()
}

/// The line that tells how many streams were handed out.
fn served_line(streams: u64) -> Line
    ensures { result.items ≡ codes "served " ++ decimal streams ++ codes "\n" }
{
    let mut line = Line::new();
    append(&mut line, b"served ");
    append(&mut line, Buffer::new().format(streams).as_bytes());
    append(&mut line, b"\n");
    line
}

/// What is printed when serving has ended so, and the status.
fn last_line(served: &Served) -> (Line, u8)
    ensures { IsLastLine served.now result.0.items result.1 }
{
    if served.is_refused() {
        return (text_line(b"refused 9 at 0\n"), REFUSED);
    }
    let status = if served.has_failed() {
        FAILED_DEVICE
    } else {
        0
    };
    (served_line(served.streams()), status)
}

/// Prints how serving has ended, and answers the status.
fn finish<W: Sink, E: Sink>(served: &Served, writer: &mut W, errors: &mut Telling<'_, E>) -> u8
    requires { CanWrite (W.state writer.old) }
    ensures { EndsServing served.now (W.state writer.old) (W.state writer.new) [] result }
{
    let (line, status) = last_line(served);
    match print_at_once(writer, line.as_slice()) {
        Ok(()) => status,
        Err(Failed) => tell_failed_write(errors),
    }
}

/// Tells standard error that standard output can't be written, and answers the status.
fn tell_failed_write<E: Sink>(errors: &mut Telling<'_, E>) -> u8
    ensures { result ≡ 3 }
{
    errors.tell(b"failed write\n");
    FAILED_DEVICE
}

/// Prints the line of a refusal with this number, and answers the status.
fn print_refusal<W: Sink, E: Sink>(number: u8, writer: &mut W, errors: &mut Telling<'_, E>) -> u8
    requires { CanWrite (W.state writer.old) }
    ensures { ((result ≡ 1) × PrintsAll (W.state writer.old) (W.state writer.new) (refusal_line number))
        ⊎ ((result ≡ 3) × TakesFront (W.state writer.old) (W.state writer.new) (refusal_line number)) }
{
    let mut line = Line::new();
    append(&mut line, b"refused ");
    append(&mut line, Buffer::new().format(number).as_bytes());
    append(&mut line, b" at 0\n");
    match print_at_once(writer, line.as_slice()) {
        Ok(()) => REFUSED,
        Err(Failed) => tell_failed_write(errors),
    }
}

/// Tells why the map is not restored from its file, and answers the status.
fn tell_not_restored<W: Sink, E: Sink>(
    alloc: Global,
    asked: &MapdWords,
    fault: &RestoreFault,
    writer: &mut W,
    errors: &mut Telling<'_, E>,
) -> u8
    requires writes { CanWrite (W.state writer.old) }
    requires kept { is_some asked.now.keep ≡ true }
    ensures { FailsToRestore asked.now (W.state writer.old) (W.state writer.new) result }
{
    tell_fault_of_file(alloc, asked, fault, errors);
    match fault.refusal() {
        None => FAILED_DEVICE,
        Some(number) => print_refusal(number, writer, errors),
    }
}

/// Tells the addresses that were bound, and how many of the server's threads run.
fn tell_start<H: Threads + Wait + Sync, K, E: Sink>(
    host: &Host<'_, H, K>,
    lines: &str,
    server: &Server,
    errors: &mut Telling<'_, E>,
) {
    errors.tell(lines.as_bytes());
    let others = Others {
        saves: server.keeper.is_some(),
        answers: server.watcher.is_some(),
    };
    let workers = server.crews.len() as u64;
    tell_running(host.rt, host.alloc, workers, others, errors);
}

/// Prints `ready`, serves clients until each worker has ended, and answers the status, and what tells standard error.
fn serve_ready<'e, H: Threads + Wait + Clock + Sync, K: Witness, W: Sink, E: Sink + Send>(
    host: &Host<'_, H, K>,
    ready: Ready<'_>,
    shared: &Shared<'_, '_>,
    writer: &mut W,
    errors: Telling<'e, E>,
) -> (u8, Telling<'e, E>)
    requires writes { CanWrite (W.state writer.old) }
    requires ready { CanServe shared.now ready }
    ensures { ServesReady K.saw shared.now.registry.now ready.entry (W.state writer.old) (W.state writer.new) result.0 }
{
    let mut errors = errors;
    if let Err(Failed) = print_at_once(writer, b"ready\n") {
        drop(ready);
        let status = tell_failed_write(&mut errors);
        return (status, errors);
    }
    let (served, mut errors) = serve_ports(host.rt, ready, shared, errors);
    host.machine.see(&served);
    let status = finish(&served, writer, &mut errors);
    (status, errors)
}

/// Tells the addresses that were bound, restores the map if it is kept, serves clients, and answers the status.
fn serve_bound<
    H: Threads + Wait + Clock + Sync,
    K: Opener + Binder + Witness,
    W: Sink,
    E: Sink + Send,
>(
    host: &Host<'_, H, K>,
    asked: &MapdWords,
    bound: (Bound, Server),
    writer: &mut W,
    errors: &mut E,
) -> u8
    requires writes { CanWrite (W.state writer.old) }
    requires warns { CanWrite (E.state errors.old) }
    requires asked { IsAsked asked.now bound.1 }
    requires password { is_some bound.1.password ≡ is_some asked.now.password_file }
    requires polls { vec_len bound.0.polls ≡ vec_len bound.1.crews }
    requires ports { HasPorts K.bound asked.now bound.0.gates.ports bound.0.metrics }
    ensures { FailsToRestore asked.now (W.state writer.old) (W.state writer.new) result
        ⊎ ServesClients K.bound K.saw asked.now (W.state writer.old) (W.state writer.new) result }
{
    let (bound, server) = bound;
    let mut telling = Telling::new(errors);
    tell_start(host, bound.lines.as_str(), &server, &mut telling);
    let Server {
        map,
        registry,
        crews,
        quotas,
        limits,
        scripts,
        keeper,
        password,
        watcher,
        ..
    } = server;
    let Bound {
        gates,
        polls,
        metrics,
        ..
    } = bound;
    let scripts = Scripts::bounded(host.alloc, &registry, scripts as usize);
    let shared = Shared {
        map: &map,
        registry: &registry,
        scripts: &scripts,
    };
    let kept = match restored(host, asked, keeper, &shared, &mut telling) {
        Ok(kept) => kept,
        Err(fault) => return tell_not_restored(host.alloc, asked, &fault, writer, &mut telling),
    };
    let ready = Ready {
        alloc: host.alloc,
        crews,
        polls,
        gates,
        quotas,
        limits,
        password,
        kept,
        watch: Watch::of(metrics, watcher),
    };
    let (status, _) = serve_ready(host, ready, &shared, writer, telling);
    status
}

/// Listens and serves, and answers the status.
fn listen<
    H: Threads + Wait + Clock + Net + Sync,
    K: Opener + Binder + Witness,
    W: Sink,
    E: Sink + Send,
>(host: &Host<'_, H, K>, asked: &MapdWords, server: Server, writer: &mut W, errors: &mut E) -> u8
    requires writes { CanWrite (W.state writer.old) }
    requires warns { CanWrite (E.state errors.old) }
    requires asked { IsAsked asked.now server }
    requires password { is_some server.password ≡ is_some asked.now.password_file }
    ensures { Listens K.bound K.saw asked.now (outputs (W.state writer.old) (E.state errors.old))
        (outputs (W.state writer.new) (E.state errors.new)) result }
{
    match bind(host, asked, server.crews.len()) {
        Ok(bound) => serve_bound(host, asked, (bound, server), writer, errors),
        Err(fault) => tell_failed_listen(host.alloc, &fault, errors),
    }
}

/// What a fault of the words comes to.
fn ending_of_fault(alloc: Global, fault: &WordsFault, words: &[&str]) -> Ending
    requires { IsWordsFault (texts words.now) fault.now }
    ensures { EndsServerWords (texts words.now) result }
{
    match fault {
        WordsFault::NoMemory => Ending::NoMemory,
        WordsFault::Words(error) => ending_of_error(alloc, error, words),
    }
}

/// A seed that nobody can guess; the one that is always the same if the system gives no random bytes.
fn drawn_seed<R: RandomSource>(rt: &R) -> Seed {
    let (mut start, mut factor) = ([0; 8], [0; 8]);
    if rt.fill_bytes(&mut start).is_err() || rt.fill_bytes(&mut factor).is_err() {
        return Seed::fixed();
    }
    Seed::new(u64::from_le_bytes(start), u64::from_le_bytes(factor))
}

/// Does what the words ask for (the first is the program's name), and returns the status: 0 if it served as many sessions
/// as it was asked for, 1 for a refusal, 2 for a fault of the words, which standard error is told in clap's text, and 3 for
/// a failed listen, accept, write or last save, or a file that can't be used, which it is told in a line. `machine` has the file in
/// which the map is kept, if it is, and that of the password, binds the ports, and sees how serving them ended. Waits for clients.
pub fn mapd_on<
    H: Threads + Wait + Clock + RandomSource + Net + Sync,
    K: Opener + PasswordFiles + Binder + Witness,
    W: Sink,
    E: Sink + Send,
>(rt: &H, alloc: Global, machine: &K, words: &[&str], writer: &mut W, errors: &mut E) -> u8
    requires writes { CanWrite (W.state writer.old) }
    requires warns { CanWrite (E.state errors.old) }
    ensures runs { RunsMapd K.bound K.saw (texts words.now) (outputs (W.state writer.old) (E.state errors.old))
        (outputs (W.state writer.new) (E.state errors.new)) result }
{
    let asked = match mapd_words(alloc, words) {
        Ok(asked) => asked,
        Err(fault) => return ending_of_fault(alloc, &fault, words).tell(writer, errors),
    };
    let password = match given_password(machine, &asked) {
        Ok(password) => password,
        Err(fault) => return tell_no_password(alloc, &asked, &fault, errors),
    };
    let host = Host { rt, alloc, machine };
    match open_server(alloc, &asked, drawn_seed(rt)) {
        Ok(server) => listen(&host, &asked, server.locked_by(password), writer, errors),
        Err(fault) => tell_fault(fault, writer, errors),
    }
}
