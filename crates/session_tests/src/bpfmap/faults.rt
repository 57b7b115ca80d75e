//! Faults of devices, and a missing command line.
use super::memory::{Interrupted, Outcome, Pieces, ROOM, Room, call};
use map_server::{StreamSink, StreamSource, bpfmap_on, tell_unread_words};
use std::alloc::Global;
use std::io::{self, ErrorKind};
use std::sync::Wait;

const NOTHING: &[u8] = b"b7 00 00 00 ff ff ff ff 95 00 00 00 00 00 00 00";

/// Makes an input of these bytes, in pieces of at most this size.
fn pieces(rest: &[u8], size: usize, fails: bool) -> Pieces<'_> {
    Pieces { rest, size, fails }
}

#[test]
fn no_word_is_no_command(rt: HostRuntime) {
    let none = call(&rt, &[], pieces(b"", 1, false), ROOM, ROOM);
    assert!(rt; none.status == 2 && none.output.is_empty() && !none.errors.is_empty());
}

#[test]
fn failed_reads_end_with_status_3(rt: HostRuntime) {
    for (good, errors_room) in [
        (0, ROOM),
        (1, ROOM),
        (20, ROOM),
        (47, ROOM),
        (0, 0),
        (20, 4),
    ] {
        let input = pieces(&NOTHING[..good], 5, true);
        let found = call(&rt, &["bpfmap", "run"], input, ROOM, errors_room);
        let told = &b"failed read\n"[..errors_room.min(12)];
        assert!(rt; found.is(3, b"", told), "after {good}");
    }
}

/// Tests whether the status is 3, the output is full, and only this is told.
fn is_failed_write(found: &Outcome, room: usize, errors_room: usize) -> bool {
    let told = &b"failed write\n"[..errors_room.min(13)];
    found.status == 3 && found.output.len() == room && found.errors.as_slice() == told
}

#[test]
fn failed_writes_end_with_status_3(rt: HostRuntime) {
    for (room, errors_room) in [(0, ROOM), (1, ROOM), (7, ROOM), (0, 0), (3, 5)] {
        for words in [["bpfmap", "run"], ["bpfmap", "--help"]] {
            let found = call(&rt, &words, pieces(NOTHING, 5, false), room, errors_room);
            assert!(rt;
                is_failed_write(&found, room, errors_room),
                "{words:?} with room for {room}"
            );
        }
    }
}

#[test]
fn what_fits_is_written(rt: HostRuntime) {
    let all = call(&rt, &["bpfmap", "run"], pieces(NOTHING, 5, false), 8, 0);
    assert!(rt; all.is(0, b"nothing\n", b""));
    let words = call(&rt, &["bpfmap", "walk"], pieces(NOTHING, 5, false), 8, 0);
    assert!(rt; words.is(2, b"", b""));
}

#[test]
fn what_is_told_of_a_failed_write_is_that_alone(rt: HostRuntime) {
    for (room, errors_room, status, told) in [
        (0, ROOM, 3, "failed write\n"),
        (15, ROOM, 3, "failed write\n"),
        (16, ROOM, 1, "no byte\n"),
        (16, 3, 1, "no "),
        (16, 0, 1, ""),
        (3, 0, 3, ""),
    ] {
        let found = call(
            &rt,
            &["bpfmap", "check"],
            pieces(b"", 1, false),
            room,
            errors_room,
        );
        let full = found.status == status && found.output.len() == room;
        assert!(rt;
            full && found.errors.as_slice() == told.as_bytes(),
            "room for {room} and {errors_room}"
        );
    }
}

/// Tells of words that were not read. Returns the status and the output.
fn tell(alloc: Global, kind: ErrorKind) -> Outcome {
    let mut writer = StreamSink::new(Room::new(alloc, ROOM));
    let mut errors = StreamSink::new(Room::new(alloc, ROOM));
    let status = tell_unread_words(&io::Error::from(kind), &mut writer, &mut errors);
    Outcome {
        status,
        output: writer.into_inner().bytes,
        errors: errors.into_inner().bytes,
    }
}

#[test]
fn unread_words_are_told(rt: HostRuntime) {
    let memory = tell(rt.alloc(), ErrorKind::OutOfMemory);
    assert!(rt; memory.is(1, b"refused 9 at 0\n", b"no memory\n"));
    let text = tell(rt.alloc(), ErrorKind::InvalidData);
    assert!(rt; text.is(2, b"", b"error: the command line is not UTF-8\n"));
}

/// Makes a call whose reads and writes are each interrupted `times` times.
fn interrupted<R: AllocGlobal + Wait>(rt: &R, times: u8) -> Outcome {
    let alloc = rt.alloc();
    let mut reader = StreamSource::new(Interrupted::new(pieces(NOTHING, 5, false), times));
    let mut writer = StreamSink::new(Interrupted::new(Room::new(alloc, ROOM), times));
    let mut errors = StreamSink::new(Room::new(alloc, ROOM));
    let words = ["bpfmap", "run"];
    let status = bpfmap_on(rt, alloc, &words, &mut reader, &mut writer, &mut errors);
    Outcome {
        status,
        output: writer.into_inner().inner.bytes,
        errors: errors.into_inner().bytes,
    }
}

#[test]
fn interrupted_reads_and_writes_are_tried_again(rt: HostRuntime) {
    for times in [0, 1, 2, 7] {
        let found = interrupted(&rt, times);
        assert!(rt; found.is(0, b"nothing\n", b""), "interrupted {times} times");
    }
}
