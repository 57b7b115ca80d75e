//! A feeder that failed, and one for which memory is refused.
use client_protocol::{Feeder, ProtocolFault};
use std::alloc::Global;
use std::test::*;

/// The frame that comes first.
const HELLO: &[u8] = b"\0\0\0\x02\0\x01";

/// Feeds the piece. Returns whether there was no request and the length is at fault.
fn is_refused(alloc: Global, feeder: &mut Feeder, piece: &[u8]) -> Result<bool, Fail> {
    let fed = feeder.feed(alloc, piece)?;
    Ok(fed.requests.is_empty() && fed.fault == Some(ProtocolFault::BadLength))
}

/// The pieces of a stream; the first has a length of 0.
const BAD_PIECES: [&[u8]; 4] = [b"\0\0\0\0", b"", HELLO, b"\0\0\0\x01\x7F"];

#[test]
fn a_failed_feeder_stays_failed(rt: HostRuntime) -> Result<(), Fail> {
    let mut feeder = Feeder::new(rt.alloc());
    for piece in BAD_PIECES {
        assert!(rt; is_refused(rt.alloc(), &mut feeder, piece)?);
    }
    Ok(())
}

/// Feeds the piece, and once more if it was refused.
fn fed_again(alloc: Global, feeder: &mut Feeder, piece: &[u8]) -> Result<usize, Fail> {
    if let Ok(fed) = feeder.feed(alloc, piece) {
        return Ok(fed.requests.len());
    }
    let fed = feeder.feed(alloc, piece)?;
    Ok(fed.requests.len())
}

/// Pieces, and how many requests each completes.
const PIECES: [(&[u8], usize); 7] = [
    (b"\0\0\0\x02\0\x01\0\0", 1),
    (b"\0\x03\x10", 0),
    (b"\x01a\0\0\0\x03\x10\x01a\0\0", 2),
    (b"\0\x01\x23", 1),
    (b"\0\0\0\x0B\x01\0\x40\0\0\0\0\0\0\x95\0", 1),
    (b"\0\0\0\x0B\x01\0\x40\0\0\0\0", 0),
    (b"\0\0\x95\0\0\0\0\x01", 1),
];

#[test]
fn a_refused_piece_can_be_fed_again(rt: HostRuntime) -> Result<(), Fail> {
    let mut feeder = Feeder::new(rt.alloc());
    for (piece, wanted) in PIECES {
        let asked = fed_again(rt.alloc(), &mut feeder, piece)?;
        assert!(rt; asked == wanted, "{asked} of {wanted}");
    }
    assert!(rt; feeder.is_inside());
    Ok(())
}
