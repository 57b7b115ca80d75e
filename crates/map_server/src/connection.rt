//! A client's connection, which never blocks.

use crate::sockets::{discard_piece, keep_alive, tell_no_room};
use crews::Protocol;
use devices::{Channel, Received, Sent};
use mio::net::TcpStream;
use server_state::{ClientText, client_text};
use std::alloc::{AllocError, Global};
use std::io::{self, ErrorKind, Read, Write};
use std::net::{Shutdown, SocketAddr};
use std::os::fd::AsRawFd;

/// A client's connection. A call that a signal interrupts is made again. It tells none of its bytes.
#[derive(Drop)]
pub struct Connection {
    stream: TcpStream,
}

/// Returns the text of an address; empty if there is none, or no memory for it.
fn address_text(alloc: Global, address: io::Result<SocketAddr>) -> ClientText {
    let Ok(address) = address else {
        return client_text(&[]);
    };
    let text: Result<String, AllocError> = format!(in alloc; "{address}");
    match text {
        Ok(text) => client_text(text.as_bytes()),
        Err(_) => client_text(&[]),
    }
}

impl Connection {
    /// The connection of a client that came. If the system refuses an option, answers only take longer, or a client stays longer.
    pub(crate) fn new(stream: TcpStream) -> Connection {
        let _ = stream.set_nodelay(true);
        keep_alive(stream.as_raw_fd());
        Connection { stream }
    }

    /// The stream, for the poll that watches it.
    pub(crate) fn stream_mut(&mut self) -> &mut TcpStream {
        &mut self.stream
    }

    /// Returns the client's address, as it is listed; empty if the system doesn't say.
    pub(crate) fn address(&self, alloc: Global) -> ClientText {
        address_text(alloc, self.stream.peer_addr())
    }

    /// Returns the address that the client came to.
    pub(crate) fn local_address(&self, alloc: Global) -> ClientText {
        address_text(alloc, self.stream.local_addr())
    }

    /// Returns the descriptor.
    pub(crate) fn descriptor(&self) -> u64 {
        u64::try_from(self.stream.as_raw_fd()).unwrap_or(0)
    }

    /// Tells the client, which speaks this protocol, that there is no room for it.
    pub(crate) fn refuse(&self, protocol: Protocol) {
        let mut stream = &self.stream;
        tell_no_room(&mut stream, protocol);
    }

    /// Ends what is written to the client. Returns whether the system did.
    pub(crate) fn end_writing(&self) -> bool {
        self.stream.shutdown(Shutdown::Write).is_ok()
    }

    /// Reads a piece of at most 16 KiB, and throws it away.
    pub(crate) fn discard(&self) -> Discarded {
        let mut stream = &self.stream;
        match discard_piece(&mut stream) {
            Ok(0) => Discarded::Ended,
            Ok(_) => Discarded::Piece,
            Err(error) if error.kind() == ErrorKind::WouldBlock => Discarded::NotNow,
            Err(_) => Discarded::Ended,
        }
    }
}

/// What was read and thrown away.
#[derive(Clone, Copy, Debug, PartialEq, Eq)]
pub(crate) enum Discarded {
    /// A piece; more may be there.
    Piece,
    /// Nothing is there now.
    NotNow,
    /// The client sends no more, or the connection failed.
    Ended,
}

impl Channel for Connection {
    ghost use Rattle.std.specs.Prelude.{None};

    ghost state = { λ _. record { left = None; held = None } };

    fn receive(&mut self, room: &mut [u8]) -> Received {
        for _ in 0..u64::MAX {
            match self.stream.read(room) {
                Ok(0) => return Received::Ended,
                Ok(count) => return Received::Bytes(count),
                Err(error) => match error.kind() {
                    ErrorKind::WouldBlock => return Received::NotNow,
                    ErrorKind::Interrupted => {}
                    _ => return Received::Failed,
                },
            }
        }
        Received::Failed
    }

    fn send(&mut self, bytes: &[u8]) -> Sent {
        for _ in 0..u64::MAX {
            match self.stream.write(bytes) {
                Ok(0) => return Sent::Failed,
                Ok(count) => return Sent::Took(count),
                Err(error) => match error.kind() {
                    ErrorKind::WouldBlock => return Sent::NotNow,
                    ErrorKind::Interrupted => {}
                    _ => return Sent::Failed,
                },
            }
        }
        Sent::Failed
    }
}
