//! How much memory the process has.

use libc::{close, read};
use os::open_read;
use std::str;

/// What the system says of the memory of the process that asks: numbers of pages, with a space between two.
const STATM: &[u8] = b"/proc/self/statm";

/// The bytes of a page.
const PAGE_BYTES: u64 = 4096;

/// Longer than any such line.
const LINE_BYTES: usize = 160;

/// Returns the second number of the line, which counts the pages that are in memory.
fn resident_pages(line: &[u8]) -> Option<u64> {
    let line = str::from_utf8(line).ok()?;
    let pages = line.split(' ').nth(1)?;
    pages.parse::<u64>().ok()
}

/// Returns the bytes of memory that the process has, or `None` if the system doesn't say.
pub fn resident_bytes() -> Option<u64> {
    let mut line = [0u8; LINE_BYTES];
    let file = open_read(STATM);
    if file < 0 {
        return None;
    }
    let count = read(file, &mut line);
    close(file);
    let count = usize::try_from(count).ok()?;
    let pages = resident_pages(&line[..count])?;
    Some(pages.saturating_mul(PAGE_BYTES))
}
