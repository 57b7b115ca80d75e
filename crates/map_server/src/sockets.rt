//! What is set of a client's connection, and its end.

use bpf_model::NoMemory;
use client_protocol::ShortResponse;
use crews::Protocol;
use libc::net::{IPPROTO_TCP, SO_KEEPALIVE, SOL_SOCKET, TCP_KEEPIDLE, setsockopt};
use redis_service::NO_ROOM_LINE;
use std::io::{self, Read, Write};
use std::net::{Shutdown, TcpStream};
use std::os::fd::{AsRawFd, RawFd};
use std::rt::Clock;
use std::time::{Duration, Instant};

/// The number of seconds of silence after which the system asks whether the client's machine is still there.
const KEEPALIVE_SECONDS: i32 = 60;

/// How many bytes are read at once after a refusal, and how often.
const LAST_BYTES: usize = 16384;

/// How many pieces of what the client sends are read after a refusal.
pub(crate) const LAST_PIECES: u32 = 64;

/// How long they are waited for in all, in milliseconds.
pub(crate) const LAST_WAIT_MILLIS: u64 = 500;

/// The bytes of an option's value.
fn option_value(value: i32) -> [u8; 16] {
    let mut bytes = [0; 16];
    bytes[..4].copy_from_slice(&value.to_ne_bytes());
    bytes
}

/// Has the system ask a silent client whether it is still there, so that one that lost power is let go. If the system refuses that,
/// such a client stays.
pub fn keep_alive(connection: RawFd) {
    let on = option_value(1);
    let seconds = option_value(KEEPALIVE_SECONDS);
    unsafe {
        let _ = setsockopt(connection, SOL_SOCKET, SO_KEEPALIVE, &on, 4);
        let _ = setsockopt(connection, IPPROTO_TCP, TCP_KEEPIDLE, &seconds, 4);
    }
}

/// Sets what a connection to a client has. If the system refuses an option, answers only take longer, or a client stays longer.
pub fn set_up(stream: &TcpStream, idle: Option<u64>) {
    let _ = stream.set_nodelay(true);
    keep_alive(stream.as_raw_fd());
    if let Some(seconds) = idle {
        let wait = Some(Duration::from_secs(seconds));
        let _ = stream.set_read_timeout(wait);
        let _ = stream.set_write_timeout(wait);
    }
}

/// How much of the time after a refusal is left; none if it is over, or the clock can't be read.
fn time_left<H: Clock>(rt: &H, start: Instant) -> Option<Duration> {
    let Ok(gone) = start.elapsed(rt) else {
        return None;
    };
    let left = Duration::from_millis(LAST_WAIT_MILLIS).saturating_sub(gone);
    if left.is_zero() { None } else { Some(left) }
}

/// Tells a client, which speaks this protocol, that there is no room for it.
pub(crate) fn tell_no_room<W: Write>(stream: &mut W, protocol: Protocol) {
    let number = NoMemory::NUMBER;
    let refusal = ShortResponse::Refused { number, place: 0 };
    let _ = match protocol {
        Protocol::Frames => stream.write_all(refusal.frame().as_slice()),
        Protocol::Commands => stream.write_all(NO_ROOM_LINE),
    };
}

/// Reads a piece, and throws it away. Returns the number of its bytes.
pub(crate) fn discard_piece<R: Read>(stream: &mut R) -> io::Result<usize> {
    let mut piece = [0; LAST_BYTES];
    stream.read(&mut piece)
}

/// Reads a piece, and throws it away. There was one in time.
fn hears_piece(mut stream: &TcpStream, left: Duration) -> bool {
    stream.set_read_timeout(Some(left)).is_ok() && discard_piece(&mut stream).is_ok_and(|n| n > 0)
}

/// Ends what is written to the client, and reads on for half a second at most: a connection that is closed with bytes unread is
/// reset, and the client may then miss the last answer.
pub fn hear_out<H: Clock>(rt: &H, stream: &TcpStream) {
    let Ok(start) = Instant::now(rt) else {
        return;
    };
    if stream.shutdown(Shutdown::Write).is_err() {
        return;
    }
    for _ in 0..LAST_PIECES {
        match time_left(rt, start) {
            Some(left) if hears_piece(stream, left) => {}
            _ => return,
        }
    }
}
