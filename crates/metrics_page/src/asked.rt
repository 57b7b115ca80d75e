//! What a request asks for.
ghost use Rattle.std.specs.Prelude.{◌≡◌};
ghost use Rattle.metrics_page.specs.Requests.{Asks, asked_of, is_page};

use httparse::Status;
use httparse::spans::{EMPTY_HEADER_SPAN, parse_request};

/// The bytes that are read of a request at most. A head that isn't whole then is no head.
pub const HEAD_BYTES: usize = 4096;

/// The fields that a head has at most.
pub const MOST_FIELDS: usize = 64;

/// What a request asks for.
#[derive(Clone, Copy, Debug, PartialEq, Eq)]
pub enum Asked {
    /// The page.
    Page,
    /// The head of its answer alone.
    PageHead,
    /// Something else than the page.
    OtherPath,
    /// The page, by a method that is neither GET nor HEAD.
    OtherMethod,
    /// The bytes are no head of a request, or it is too long.
    Unreadable,
}

/// Tests whether a target is that of the page, with a query or without one.
fn is_page(target: &[u8]) -> bool
    ensures { result ≡ is_page target.now }
{
    target == b"/metrics".as_slice() || target.starts_with(b"/metrics?")
}

/// Returns what a request of this method and target asks for.
fn asked_of(method: &[u8], target: &[u8]) -> Asked
    ensures { result ≡ asked_of method.now target.now }
{
    if !is_page(target) {
        return Asked::OtherPath;
    }
    match method {
        b"GET" => Asked::Page,
        b"HEAD" => Asked::PageHead,
        _ => Asked::OtherMethod,
    }
}

/// Returns what the request asks for that begins with these bytes, or `None` if its head may go on.
pub fn asked_by(bytes: &[u8]) -> Option<Asked>
    ensures { Asks bytes.now result }
{
    let mut fields = [EMPTY_HEADER_SPAN; MOST_FIELDS];
    match parse_request(bytes, &mut fields) {
        Ok(Status::Complete(head)) => { Some(asked_of(head.method.of(bytes), head.path.of(bytes))) }
        Ok(Status::Partial) => {
            if bytes.len() < HEAD_BYTES {
                None
            } else {
                Some(Asked::Unreadable)
            }
        }
        Err(_) => Some(Asked::Unreadable),
    }
}
