//! Sessions in which one request for memory may be refused: `tests/refused.sh` refuses each in turn.
use super::memory::{Pieces, ROOM};
use arrayvec::ArrayVec;
use atomic_methods::OpenFault;
use map_server::{Alone, SessionEnd, StreamSink, StreamSource, session_alone};
use std::alloc::Global;
use std::io::{self, ErrorKind, Write};
use std::sync::Wait;
use std::test::Fail;

const KEPT_BYTES: usize = 512;

/// Takes up to `KEPT_BYTES` bytes without memory, and then fails.
#[derive(Drop)]
struct Kept {
    bytes: ArrayVec<u8, KEPT_BYTES>,
}

impl Write for Kept {
    fn write(&mut self, buf: &[u8]) -> io::Result<usize> {
        match self.bytes.try_extend_from_slice(buf) {
            Ok(()) => Ok(buf.len()),
            Err(_) => Err(io::Error::from(ErrorKind::BrokenPipe)),
        }
    }

    fn flush(&mut self) -> io::Result<()> {
        Ok(())
    }
}

/// A session after a Hello: the frames, the answer to each with ample memory, and the other answers that may come if
/// memory is refused to one of them.
struct Row {
    name: &'static str,
    sent: &'static [u8],
    answered: &'static [&'static [u8]],
    others: &'static [&'static [&'static [u8]]],
}

const HELLO: &[u8] = b"\0\0\0\x02\0\x01";

const WELCOME: &[u8] = b"\0\0\0\x02\x80\x01";

const REFUSED: &[u8] = b"\0\0\0\x06\x85\x09\0\0\0\0";

const UNKNOWN: &[u8] = b"\0\0\0\x06\x85\x42\0\0\0\0";

const REGISTERED: &[u8] = b"\0\0\0\x09\x81\0\0\0\0\0\0\0\0";

const NOTHING: &[u8] = b"\0\0\0\x03\x82\xFF\xFF";

const TEXT: &[u8] = b"\0\0\0\x05\x82\0\x02xy";

const ONE: &[u8] = b"\0\0\0\x0B\x82\0\x08\x01\0\0\0\0\0\0\0";

const TWO: &[u8] = b"\0\0\0\x0B\x82\0\x08\x02\0\0\0\0\0\0\0";

/// The end of a walk over no entry.
const NONE: &[u8] = b"\0\0\0\x19\x87\0\0\0\0\0\0\0\0\0\0\0\0\0\0\0\0\0\0\0\0\0\0\0\0";

/// The end of a count of one entry.
const COUNTED: &[u8] = b"\0\0\0\x19\x87\0\0\0\0\0\0\0\x01\0\0\0\0\0\0\0\0\0\0\0\0\0\0\0\0";

/// The end of a walk that gave one entry's answer.
const GIVEN: &[u8] = b"\0\0\0\x19\x87\0\0\0\0\0\0\0\x01\0\0\0\0\0\0\0\x01\0\0\0\0\0\0\0\0";

/// That answer, and the end.
const FOUND: &[u8] =
    b"\0\0\0\x0D\x86\x01a\0\x08\x02\0\0\0\0\0\0\0\0\0\0\x19\x87\0\0\0\0\0\0\0\x01\0\0\0\0\0\0\0\x01\0\0\0\0\0\0\0\0";

const PUT: &[u8] = b"\0\0\0\x07\x11\x01a\0\x02xy";

const GET: &[u8] = b"\0\0\0\x03\x10\x01a";

const ROWS: [Row; 3] = [
    Row {
        name: "Put and Get",
        sent: b"\0\0\0\x07\x11\x01a\0\x02xy\0\0\0\x03\x10\x01a",
        answered: &[NOTHING, TEXT],
        others: &[&[REFUSED, NOTHING]],
    },
    // A program that answers nothing, and a Compute by it.
    Row {
        name: "Register and Compute",
        sent: b"\0\0\0\x19\x01\0\x40\x01\0\x01\0\x01\0\xB7\0\0\0\xFF\xFF\xFF\xFF\x95\0\0\0\0\0\0\0\0\0\0\x0D\x17\x01a\0\0\0\0\0\0\0\0\xFF\xFF",
        answered: &[REGISTERED, NOTHING],
        others: &[&[REFUSED, UNKNOWN]],
    },
    // A program that adds its argument, a Put of 1, each walk with the argument 1, and a Get.
    Row {
        name: "walks",
        sent: b"\0\0\0\x39\x01\0\x40\0\x08\0\x08\0\x08\x79\x20\0\0\0\0\0\0\x79\x39\0\0\0\0\0\0\x0F\x90\0\0\0\0\0\0\x7B\x04\0\0\0\0\0\0\xB7\0\0\0\x08\0\0\0\x95\0\0\0\0\0\0\0\0\0\0\x0D\x11\x01a\0\x08\x01\0\0\0\0\0\0\0\0\0\0\x1B\x21\0\0\0\0\0\0\0\0\0\x08\x01\0\0\0\0\0\0\0\0\0\0\0\0\0\0\0\0\0\0\x1B\x20\0\0\0\0\0\0\0\0\0\x08\x01\0\0\0\0\0\0\0\0\0\0\0\0\0\0\0\0\0\0\x01\x23\0\0\0\x13\x22\0\0\0\0\0\0\0\0\0\x08\x01\0\0\0\0\0\0\0\0\0\0\x03\x10\x01a",
        answered: &[REGISTERED, NOTHING, FOUND, FOUND, COUNTED, GIVEN, TWO],
        others: &[
            &[REFUSED, NOTHING, UNKNOWN, UNKNOWN, COUNTED, UNKNOWN, ONE],
            &[REGISTERED, REFUSED, NONE, NONE, NONE, NONE, NOTHING],
            &[REGISTERED, NOTHING, REFUSED, FOUND, COUNTED, GIVEN, TWO],
            &[REGISTERED, NOTHING, FOUND, REFUSED, COUNTED, GIVEN, TWO],
            &[REGISTERED, NOTHING, FOUND, FOUND, REFUSED, GIVEN, TWO],
        ],
    },
];

/// Opens an empty table, and tries once more if memory was refused.
fn opened(alloc: Global) -> Result<Alone, OpenFault> {
    match Alone::open(alloc, 4) {
        Err(OpenFault::NoMemory) => Alone::open(alloc, 4),
        result => result,
    }
}

/// The end of a session, and its answers.
type Ended = (SessionEnd, ArrayVec<u8, KEPT_BYTES>);

/// Runs one session, which reads a Hello and these frames in pieces of at most this size.
fn session(rt: &impl Wait, alloc: Global, alone: &mut Alone, frames: &[u8], size: usize) -> Ended {
    let mut sent = ArrayVec::<u8, KEPT_BYTES>::new();
    let _ = sent.try_extend_from_slice(HELLO);
    let _ = sent.try_extend_from_slice(frames);
    let mut reader = StreamSource::new(Pieces {
        rest: sent.as_slice(),
        size,
        fails: false,
    });
    let mut writer = StreamSink::new(Kept {
        bytes: ArrayVec::new(),
    });
    let end = session_alone(rt, alloc, &mut reader, &mut writer, alone);
    (end, writer.into_inner().bytes)
}

/// Tests whether the bytes are a welcome, these answers, and then the last.
fn are(bytes: &[u8], answers: &[&[u8]], last: &[u8]) -> bool {
    let mut wanted = ArrayVec::<u8, KEPT_BYTES>::new();
    let _ = wanted.try_extend_from_slice(WELCOME);
    for answer in answers {
        let _ = wanted.try_extend_from_slice(answer);
    }
    let _ = wanted.try_extend_from_slice(last);
    bytes == wanted.as_slice()
}

/// Tests the answers of a session. If it closed, they are as with ample memory, or one request was refused. If memory ended it, they
/// are the first ones and a refusal.
fn is_answered(row: &Row, ended: &Ended) -> bool {
    let bytes = ended.1.as_slice();
    match ended.0 {
        SessionEnd::Closed => {
            are(bytes, row.answered, b"") || row.others.iter().any(|other| are(bytes, other, b""))
        }
        SessionEnd::NoMemory => {
            bytes == REFUSED
                || (0..=row.answered.len()).any(|made| are(bytes, &row.answered[..made], REFUSED))
        }
        _ => false,
    }
}

/// If one request for memory is refused, the answer to that request is a refusal, or the session ends.
#[test]
fn a_refused_request_is_told(rt: HostRuntime) -> Result<(), Fail> {
    for row in &ROWS {
        for size in [ROOM, 9, 1] {
            let mut alone = opened(rt.alloc())?;
            let ended = session(&rt, rt.alloc(), &mut alone, row.sent, size);
            assert!(&rt; is_answered(row, &ended), "{}, {size} at a time", row.name);
        }
    }
    Ok(())
}

/// Returns the answers of a session with a Get. If memory ended it, returns those of another one.
fn got(rt: &impl Wait, alloc: Global, alone: &mut Alone, size: usize) -> ArrayVec<u8, KEPT_BYTES> {
    let (end, answered) = session(rt, alloc, alone, GET, size);
    if end == SessionEnd::NoMemory {
        return session(rt, alloc, alone, GET, size).1;
    }
    answered
}

/// Tests whether a Get returns the value of a Put that was answered, and no other.
fn is_left(rt: &impl Wait, alloc: Global, alone: &mut Alone, size: usize) -> bool {
    let (_, answered) = session(rt, alloc, alone, PUT, size);
    let is_put = answered.len() >= 13 && answered[12] == 0xFF;
    let value = if is_put { TEXT } else { NOTHING };
    let answered = got(rt, alloc, alone, size);
    are(answered.as_slice(), &[value], b"")
}

/// If one request for memory is refused, the table has the values of the answered Puts, and no other.
#[test]
fn a_refused_request_leaves_the_table(rt: HostRuntime) -> Result<(), Fail> {
    for size in [ROOM, 9, 1] {
        let mut alone = opened(rt.alloc())?;
        assert!(&rt;
            is_left(&rt, rt.alloc(), &mut alone, size),
            "{size} at a time"
        );
    }
    Ok(())
}
