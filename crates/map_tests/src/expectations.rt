//! The message of a row that fails.

/// The name of a row that failed, for the message of its test.
#[derive(Clone, Copy, Debug)]
pub struct Wrong(pub &'static str);

/// Fails with the row's name unless it holds.
pub fn expect(holds: bool, row: &'static str) -> Result<(), Wrong> {
    if holds { Ok(()) } else { Err(Wrong(row)) }
}
