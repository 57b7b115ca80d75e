//! The ports that clients come to, one for each protocol that they speak.
ghost use Rattle.std.specs.Prelude.{IfOk};
ghost use Rattle.map_server.specs.Servers.{IsBoundTo};

use crews::Protocol;
use map_keeper::HostFiles;
use mio::net::TcpListener;
use mio::unix::SourceFd;
use mio::{Interest, Poll, Token};
use std::alloc::{AllocError, Global};
use std::io::{self, ErrorKind};
use std::net::{Net, ToSocketAddrs};
use std::os::fd::AsRawFd;

/// The token of the port whose clients speak frames, which is no seat and no departure's.
pub(crate) const FRAMES_PORT: Token = Token(usize::MAX >> 1);

/// The token of the port whose clients speak commands.
pub(crate) const COMMANDS_PORT: Token = Token((usize::MAX >> 1) - 1);

/// The token by which another worker ends a wait of a poll.
pub(crate) const WAKE: Token = Token((usize::MAX >> 1) - 2);

/// The listeners of the ports, by what their clients speak.
#[derive(Drop)]
pub struct Ports {
    pub(crate) frames: Option<TcpListener>,
    pub(crate) commands: Option<TcpListener>,
}

/// Why a port could not be bound: its address, unless something else was wanting, and the system's error.
#[derive(Debug, Drop)]
pub(crate) struct ListenFault<'a> {
    pub(crate) address: Option<&'a str>,
    pub(crate) error: io::Error,
}

impl<'a> From<io::Error> for ListenFault<'a> {
    fn from(error: io::Error) -> ListenFault<'a> {
        ListenFault {
            address: None,
            error,
        }
    }
}

/// What binds listeners.
pub trait Binder {
    ghost use Rattle.std.specs.Prelude.{ℕ, List, IfOk};
    ghost use Rattle.mio.specs.declared.net.listener.TcpListener.{TcpListener as TheListener};

    /// The listener is bound to this address, as a text. Nothing but `bind` tells it.
    ghost bound: { TheListener → List ℕ → Type 0 } = { λ _ _. Unit {0} };

    /// A listener at the first of the name's addresses that can be bound. An error is the system's.
    fn bind<H: Net>(&self, rt: &H, address: &str) -> io::Result<TcpListener>
        ensures { IfOk result (λ listener. bound listener address.now) };
}

impl Binder for HostFiles<'_> {
    fn bind<H: Net>(&self, rt: &H, address: &str) -> io::Result<TcpListener> {
        first_listener(rt, address)
    }
}

/// A listener at the first of the name's addresses that can be bound.
pub fn first_listener<H: Net>(rt: &H, address: &str) -> io::Result<TcpListener> {
    let mut last = io::Error::from(ErrorKind::InvalidInput);
    for address in address.to_socket_addrs(rt)? {
        match TcpListener::bind(rt, address) {
            Ok(listener) => return Ok(listener),
            Err(error) => last = error,
        }
    }
    Err(last)
}

/// A listener at the address, if there is one.
pub(crate) fn listen_at<'a, H: Net, K: Binder>(
    rt: &H,
    binder: &K,
    address: &'a Option<String>,
) -> Result<Option<TcpListener>, ListenFault<'a>>
    ensures { IfOk result (λ listener. IsBoundTo K.bound address.now listener) }
{
    let Some(address) = address else {
        return Ok(None);
    };
    let address = address.as_str();
    match binder.bind(rt, address) {
        Ok(listener) => Ok(Some(listener)),
        Err(error) => Err(ListenFault {
            address: Some(address),
            error,
        }),
    }
}

/// Has the poll watch the listener, if there is one.
fn watch(poll: &Poll, listener: &Option<TcpListener>, token: Token) -> io::Result<()> {
    let Some(listener) = listener else {
        return Ok(());
    };
    let descriptor = listener.as_raw_fd();
    poll.registry()
        .register(&mut SourceFd(&descriptor), token, Interest::READABLE)
}

/// Adds the line that tells the address that was bound, if there is a listener.
pub(crate) fn add_line(
    alloc: Global,
    lines: &mut String,
    begin: &str,
    listener: &Option<TcpListener>,
) -> io::Result<()> {
    let Some(listener) = listener else {
        return Ok(());
    };
    let address = listener.local_addr()?;
    let line: Result<String, AllocError> = format!(in alloc; "{begin} {address}\n");
    lines.push_str(line?.as_str())?;
    Ok(())
}

impl Ports {
    /// The listener of the port whose clients speak this protocol; none if there is no such port.
    pub(crate) fn listener(&self, protocol: Protocol) -> Option<&TcpListener> {
        match protocol {
            Protocol::Frames => self.frames.as_ref(),
            Protocol::Commands => self.commands.as_ref(),
        }
    }

    /// The listener of one of the ports; none if there is no port.
    pub(crate) fn first(&self) -> Option<&TcpListener> {
        match &self.frames {
            Some(listener) => Some(listener),
            None => self.commands.as_ref(),
        }
    }

    /// A poll that watches the ports.
    pub(crate) fn poll<H: Net>(&self, rt: &H) -> io::Result<Poll> {
        let poll = Poll::new(rt)?;
        watch(&poll, &self.frames, FRAMES_PORT)?;
        watch(&poll, &self.commands, COMMANDS_PORT)?;
        Ok(poll)
    }

    /// The lines that tell the addresses that were bound.
    pub(crate) fn lines(&self, alloc: Global) -> io::Result<String> {
        let mut lines = String::new(alloc);
        add_line(alloc, &mut lines, "listening on", &self.frames)?;
        add_line(alloc, &mut lines, "redis on", &self.commands)?;
        Ok(lines)
    }
}
