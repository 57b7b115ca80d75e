//! The answers to requests.
ghost use Rattle.std.specs.Prelude.{◌≡◌, ◌+◌, ◌≤◌, ◌++◌};
ghost use Rattle.arrayvec.specs.ArrayVec.{array_vec_len};
ghost use Rattle.metrics_page.specs.Pages.{answer, page_head};

use crate::asked::Asked;
use crate::buffer::append;
use crate::numbers::Numbers;
use crate::text::{TEXT_BYTES, text_of};
use arrayvec::ArrayVec;
use itoa::Buffer;

/// The room for the head of an answer.
const ANSWER_HEAD_BYTES: usize = 256;

/// The bytes that an answer has at most.
pub const ANSWER_BYTES: usize = TEXT_BYTES + ANSWER_HEAD_BYTES;

/// The bytes of an answer.
pub type Answer = ArrayVec<u8, ANSWER_BYTES>;

/// Appends the head of the answer with a page of this length.
fn put_page_head(answer: &mut Answer, bytes: usize)
    requires { array_vec_len answer.old + ANSWER_HEAD_BYTES ≤ ANSWER_BYTES }
    ensures items { answer.new.items ≡ answer.old.items ++ page_head bytes }
    ensures len { array_vec_len answer.new ≤ array_vec_len answer.old + ANSWER_HEAD_BYTES }
{
    let mut digits = Buffer::new();
    append(
        answer,
        b"HTTP/1.1 200 OK\r\nContent-Type: text/plain; version=0.0.4; charset=utf-8\r\nContent-Length: ",
    );
    append(answer, digits.format(bytes).as_bytes());
    append(answer, b"\r\nConnection: close\r\n\r\n");
}

/// Returns the bytes of the answer to what a request asks for, by these numbers.
pub fn answer(asked: Asked, numbers: &Numbers) -> Answer
    ensures { result.items ≡ answer asked numbers.now }
{
    let mut bytes = Answer::new();
    match asked {
        Asked::Page => {
            let text = text_of(numbers);
            put_page_head(&mut bytes, text.len());
            append(&mut bytes, text.as_slice());
        }
        Asked::PageHead => put_page_head(&mut bytes, text_of(numbers).len()),
        Asked::OtherPath => append(
            &mut bytes,
            b"HTTP/1.1 404 Not Found\r\nContent-Length: 0\r\nConnection: close\r\n\r\n",
        ),
        Asked::OtherMethod => append(
            &mut bytes,
            b"HTTP/1.1 405 Method Not Allowed\r\nAllow: GET, HEAD\r\nContent-Length: 0\r\nConnection: close\r\n\r\n",
        ),
        Asked::Unreadable => append(
            &mut bytes,
            b"HTTP/1.1 400 Bad Request\r\nContent-Length: 0\r\nConnection: close\r\n\r\n",
        ),
    }
    bytes
}
