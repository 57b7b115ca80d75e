//! A session of version 1 over a table with a value that is too long for it: one of version 2 has put it.
use super::cut_streams::is_answered;
use map_server::Alone;
use std::test::Fail;

/// A Hello of version 2, and a Put of 300 bytes without the bytes themselves.
const PUT_300: [u8; 15] = [0, 0, 0, 2, 0, 2, 0, 0, 1, 0x31, 0x11, 1, 0x61, 1, 0x2c];

/// The Hello, and no value before the Put.
const PUT_ANSWERED: &[u8] = b"\0\0\0\x02\x80\x02\0\0\0\x03\x82\xff\xff";

/// A Hello of version 1, a Get, a Remove and a Get.
const GET_REMOVE_GET: [u8; 27] = [
    0, 0, 0, 2, 0, 1, 0, 0, 0, 3, 0x10, 1, 0x61, 0, 0, 0, 3, 0x13, 1, 0x61, 0, 0, 0, 3, 0x10, 1,
    0x61,
];

/// The Hello, 65 in place of the value twice, and nothing.
const TOO_LONG_TWICE: [u8; 33] = [
    0, 0, 0, 2, 0x80, 1, 0, 0, 0, 6, 0x85, 0x41, 0, 0, 0, 0, 0, 0, 0, 6, 0x85, 0x41, 0, 0, 0, 0, 0,
    0, 0, 3, 0x82, 0xff, 0xff,
];

#[test]
fn version_one_is_told_that_a_value_is_too_long(rt: HostRuntime) -> Result<(), Fail> {
    let mut put = [0x78; 315];
    put[..15].copy_from_slice(&PUT_300);
    let mut alone = Alone::open(rt.alloc(), 4)?;
    assert!(&rt; is_answered(&rt, &mut alone, &put, PUT_ANSWERED));
    assert!(&rt; is_answered(&rt, &mut alone, &GET_REMOVE_GET, &TOO_LONG_TWICE));
    Ok(())
}
