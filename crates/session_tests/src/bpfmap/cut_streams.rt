//! Sessions whose input or output fails, or is cut anywhere. The answers to frames have their rows in `tests/frames.txt`.
use super::memory::{Pieces, ROOM, Room, call};
use map_server::{Alone, SessionEnd, StreamSink, StreamSource, session_alone};
use std::sync::Wait;
use std::test::Fail;

/// A Hello, a Put of two bytes, a Get.
const PUT_AND_GET: [u8; 24] = [
    0, 0, 0, 2, 0, 1, 0, 0, 0, 7, 0x11, 1, 0x61, 0, 2, 0x78, 0x79, 0, 0, 0, 3, 0x10, 1, 0x61,
];

const PUT_AND_GET_ANSWERED: [u8; 22] = [
    0, 0, 0, 2, 0x80, 1, 0, 0, 0, 3, 0x82, 0xff, 0xff, 0, 0, 0, 5, 0x82, 0, 2, 0x78, 0x79,
];

/// A Hello and a Get.
const GET: &[u8] = b"\0\0\0\x02\0\x01\0\0\0\x03\x10\x01a";

const GET_ANSWERED: &[u8] = b"\0\0\0\x02\x80\x01\0\0\0\x05\x82\0\x02xy";

/// Returns the number of bytes in the answers to the session's first `cut` bytes, and the status.
fn answered_to(cut: usize) -> (usize, u8) {
    match cut {
        0 => (0, 0),
        1..=5 => (0, 1),
        6 => (6, 0),
        7..=16 => (6, 1),
        17 => (13, 0),
        18..=23 => (13, 1),
        _ => (22, 0),
    }
}

/// Tests whether a session over these bytes is answered as wanted, if the input then ends or fails.
fn is_cut_told<R: AllocGlobal + Wait>(rt: &R, input: Pieces<'_>) -> bool {
    let (written, status) = answered_to(input.rest.len());
    let told: &[u8] = if input.fails { b"failed read\n" } else { b"" };
    let status = if input.fails { 3 } else { status };
    let found = call(rt, &["bpfmap", "exec"], input, ROOM, ROOM);
    let answers = PUT_AND_GET_ANSWERED.get(..written).unwrap_or(&[]);
    found.is(status, answers, told)
}

#[test]
fn an_input_that_ends_or_fails_is_told(rt: HostRuntime) {
    for cut in 0..25usize {
        for (size, fails) in [(ROOM, false), (ROOM, true), (1, false), (1, true)] {
            let rest = &PUT_AND_GET[..cut];
            let told = is_cut_told(&rt, Pieces { rest, size, fails });
            assert!(&rt; told, "{cut} bytes, {size} at a time, fails: {fails}");
        }
    }
}

/// Tests whether the session reports that its output failed after `room` bytes.
fn is_failed_write_told<R: AllocGlobal + Wait>(rt: &R, room: usize, size: usize) -> bool {
    let input = Pieces {
        rest: &PUT_AND_GET,
        size,
        fails: false,
    };
    let found = call(rt, &["bpfmap", "exec"], input, room, ROOM);
    let answers = PUT_AND_GET_ANSWERED.get(..room).unwrap_or(&[]);
    found.is(3, answers, b"failed write\n")
}

#[test]
fn an_output_that_fails_is_told(rt: HostRuntime) {
    for room in 0..22usize {
        assert!(&rt; is_failed_write_told(&rt, room, ROOM), "room for {room}");
        assert!(&rt;
            is_failed_write_told(&rt, room, 1),
            "bytes, room for {room}"
        );
    }
}

/// Runs one session over a table that stays, with this much room for its output.
pub(crate) fn session<R: AllocGlobal + Wait>(
    rt: &R,
    alone: &mut Alone,
    bytes: &[u8],
    room: usize,
) -> (SessionEnd, Vec<u8>) {
    let mut reader = StreamSource::new(Pieces {
        rest: bytes,
        size: 7,
        fails: false,
    });
    let mut writer = StreamSink::new(Room::new(rt.alloc(), room));
    let end = session_alone(rt, rt.alloc(), &mut reader, &mut writer, alone);
    (end, writer.into_inner().bytes)
}

/// Tests whether a session over a table that stays is closed and has these answers.
pub(crate) fn is_answered<R: AllocGlobal + Wait>(
    rt: &R,
    alone: &mut Alone,
    bytes: &[u8],
    answers: &[u8],
) -> bool {
    let (end, written) = session(rt, alone, bytes, ROOM);
    end == SessionEnd::Closed && written.as_slice() == answers
}

/// Tests whether the Put stands, although its answer found no room and that ended the session.
fn stands<R: AllocGlobal + Wait>(rt: &R, alone: &mut Alone, room: usize) -> bool {
    let (end, written) = session(rt, alone, &PUT_AND_GET, room);
    let answers = PUT_AND_GET_ANSWERED.get(..room).unwrap_or(&[]);
    let failed = end == SessionEnd::WriteFailed && written.as_slice() == answers;
    failed && is_answered(rt, alone, GET, GET_ANSWERED)
}

#[test]
fn a_call_stands_whose_answer_was_not_written(rt: HostRuntime) -> Result<(), Fail> {
    for room in 6..13usize {
        let mut alone = Alone::open(rt.alloc(), 4)?;
        assert!(&rt; stands(&rt, &mut alone, room), "room for {room}");
    }
    Ok(())
}
