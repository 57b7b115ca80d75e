//! Sessions with a client that sends a frame only after it has the answers to those before.
use atomic_methods::OpenFault;
use client_protocol::ProtocolFault;
use map_server::{Alone, SessionEnd, StreamSink, StreamSource, session_alone};
use std::alloc::{AllocError, Global};
use std::cell::Cell;
use std::io::{self, ErrorKind, Read, Write};
use std::sync::Wait;
use std::test::Fail;

/// Bytes that are sent at once, and the answers to them.
struct Turn {
    sent: &'static [u8],
    answered: &'static [u8],
}

/// Gives the next turn's bytes, in pieces of at most this size, once all answers to the turns before were passed on. If
/// some weren't, it fails.
#[derive(Drop)]
struct Waiting<'a> {
    turns: &'a [Turn],
    rest: &'a [u8],
    size: usize,
    due: usize,
    passed_on: &'a Cell<usize>,
}

impl Read for Waiting<'_> {
    fn read(&mut self, buf: &mut [u8]) -> io::Result<usize> {
        if self.rest.is_empty() {
            if self.passed_on.get() != self.due {
                return Err(io::Error::from(ErrorKind::TimedOut));
            }
            if let [turn, turns @ ..] = self.turns {
                self.rest = turn.sent;
                self.due = self.due.wrapping_add(turn.answered.len());
                self.turns = turns;
            }
        }
        let all = self.rest;
        let n = self.size.min(all.len()).min(buf.len());
        buf[..n].copy_from_slice(&all[..n]);
        self.rest = &all[n..];
        Ok(n)
    }
}

/// Holds what is written until it is flushed, and counts the flushes.
#[derive(Drop)]
struct Buffered<'a> {
    kept_back: Vec<u8>,
    bytes: Vec<u8>,
    flushes: u64,
    passed_on: &'a Cell<usize>,
}

impl Write for Buffered<'_> {
    fn write(&mut self, buf: &[u8]) -> io::Result<usize> {
        self.kept_back.extend_from_slice(buf)?;
        Ok(buf.len())
    }

    fn flush(&mut self) -> io::Result<()> {
        self.bytes.extend_from_slice(&self.kept_back)?;
        self.kept_back.clear();
        self.flushes = self.flushes.wrapping_add(1);
        self.passed_on.set(self.bytes.len());
        Ok(())
    }
}

const HELLO_TURN: Turn = Turn {
    sent: b"\0\0\0\x02\0\x01",
    answered: b"\0\0\0\x02\x80\x01",
};

/// Two Puts at once.
const PUTS: Turn = Turn {
    sent: b"\0\0\0\x07\x11\x01a\0\x02xy\0\0\0\x07\x11\x01a\0\x02xy",
    answered: b"\0\0\0\x03\x82\xFF\xFF\0\0\0\x05\x82\0\x02xy",
};

const GET: Turn = Turn {
    sent: b"\0\0\0\x03\x10\x01a",
    answered: b"\0\0\0\x05\x82\0\x02xy",
};

const UNKNOWN: Turn = Turn {
    sent: b"\0\0\0\x01\x7F",
    answered: b"\0\0\0\x06\x85\x3D\0\0\0\0",
};

const GET_OF_NOTHING: Turn = Turn {
    sent: b"\0\0\0\x03\x10\x01a",
    answered: b"\0\0\0\x03\x82\xFF\xFF",
};

const CLOSED: [Turn; 4] = [HELLO_TURN, PUTS, GET, GET];

const REFUSED: [Turn; 3] = [HELLO_TURN, GET_OF_NOTHING, UNKNOWN];

/// Runs a session over these turns, in pieces of at most this size. Returns its end and its sink.
fn session<'a, R: Wait>(
    rt: &R,
    alloc: Global,
    turns: &[Turn],
    size: usize,
    passed_on: &'a Cell<usize>,
) -> Result<(SessionEnd, Buffered<'a>), OpenFault> {
    let mut reader = StreamSource::new(Waiting {
        turns,
        rest: b"",
        size,
        due: 0,
        passed_on,
    });
    let mut writer = StreamSink::new(Buffered {
        kept_back: Vec::new(alloc),
        bytes: Vec::new(alloc),
        flushes: 0,
        passed_on,
    });
    let mut alone = Alone::open(alloc, 4)?;
    let end = session_alone(rt, alloc, &mut reader, &mut writer, &mut alone);
    Ok((end, writer.into_inner()))
}

/// A session over these turns, in pieces of at most this size, with its end and the number of flushes.
struct Row {
    turns: &'static [Turn],
    size: usize,
    ended: SessionEnd,
    flushes: u64,
}

const UNKNOWN_REQUEST: SessionEnd = SessionEnd::Refused(ProtocolFault::UnknownRequest);

/// There is a flush before the first read, and one for the answers to each piece.
const ROWS: [Row; 4] = [
    Row {
        turns: &CLOSED,
        size: 1 << 10,
        ended: SessionEnd::Closed,
        flushes: 5,
    },
    Row {
        turns: &CLOSED,
        size: 1,
        ended: SessionEnd::Closed,
        flushes: 6,
    },
    Row {
        turns: &REFUSED,
        size: 1 << 10,
        ended: UNKNOWN_REQUEST,
        flushes: 4,
    },
    Row {
        turns: &REFUSED,
        size: 1,
        ended: UNKNOWN_REQUEST,
        flushes: 4,
    },
];

/// Tests whether all answers to the turns were passed on, and nothing else.
fn are_passed_on(alloc: Global, turns: &[Turn], sink: &Buffered<'_>) -> Result<bool, AllocError> {
    let mut wanted = Vec::new(alloc);
    for turn in turns {
        wanted.extend_from_slice(turn.answered)?;
    }
    Ok(sink.bytes.as_slice() == wanted.as_slice() && sink.kept_back.is_empty())
}

/// Tests whether the session ends as the row says, and its client has all answers.
fn is_served<R: AllocGlobal + Wait>(rt: &R, row: &Row) -> Result<bool, Fail> {
    let alloc = rt.alloc();
    let passed_on = Cell::new(0);
    let (end, sink) = session(rt, alloc, row.turns, row.size, &passed_on)?;
    let right = end == row.ended && sink.flushes == row.flushes;
    Ok(right && are_passed_on(alloc, row.turns, &sink)?)
}

#[test]
fn a_client_that_waits_for_its_answers_is_served(rt: HostRuntime) -> Result<(), Fail> {
    for row in &ROWS {
        assert!(&rt;
            is_served(&rt, row)?,
            "{:?}, {} at a time",
            row.ended,
            row.size
        );
    }
    Ok(())
}
