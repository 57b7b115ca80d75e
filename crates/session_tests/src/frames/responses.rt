//! Responses with large numbers, and their frames.
use client_protocol::Response;
use std::test::*;

#[test]
fn numbers_are_big_endian(rt: HostRuntime) {
    let rows: [(Response, &[u8]); 3] = [
        (
            Response::Registered {
                program: 0x0102_0304_0506_0708,
            },
            b"\0\0\0\x09\x81\x01\x02\x03\x04\x05\x06\x07\x08",
        ),
        (
            Response::Refused {
                number: 43,
                place: 0x0102_0304,
            },
            b"\0\0\0\x06\x85\x2B\x01\x02\x03\x04",
        ),
        (
            Response::End {
                scanned: u64::MAX,
                given: u64::MAX,
                unfit: u64::MAX,
            },
            b"\0\0\0\x19\x87\xFF\xFF\xFF\xFF\xFF\xFF\xFF\xFF\xFF\xFF\xFF\xFF\xFF\xFF\xFF\xFF\xFF\xFF\xFF\xFF\xFF\xFF\xFF\xFF",
        ),
    ];
    for (response, frame) in &rows {
        assert!(rt; response.frame().as_slice() == *frame);
    }
}
