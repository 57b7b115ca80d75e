//! Responses.
ghost use Rattle.std.specs.Prelude.{◌≡◌, ◌+◌, ◌≤◌, ◌++◌, length, Some};
ghost use Rattle.arrayvec.specs.ArrayVec.{array_vec_len};
ghost use Rattle.bpf_model.specs.declared.limits.TheConstants.{KEY_BYTES, VALUE_BYTES};
ghost use Rattle.client_protocol.specs.declared.response.Response.TheVariants.{Value as Answered, Item};
ghost use Rattle.client_protocol.specs.Responses.{response_frame, response_body, response_of, part_number};

use crate::limits::Version;
use arrayvec::ArrayVec;
use bpf_model::{InputPart, Key, Value};

/// The longest frame of a response, an `Item`, has this many bytes.
pub const FRAME_BYTES: usize = 1096;

/// The longest frame of a short response, an `End`, has this many bytes.
pub const SHORT_FRAME_BYTES: usize = 29;

/// In the frame of an `Item` at most this many bytes come before the value's own.
pub const ITEM_HEAD_BYTES: usize = 72;

const SHORT_BODY_BYTES: usize = 25;

/// A response in one frame. A walk has several: its items in order, and then one `End`.
#[derive(Debug, PartialEq, Eq, Drop)]
pub enum Response {
    /// The Hello was taken: tag 80.
    Hello {
        version: Version,
    },
    /// The program is registered with this number: tag 81.
    Registered {
        program: u64,
    },
    /// A value, or nothing: tag 82.
    Value {
        value: Option<Value>,
    },
    /// Whether the call changed the entry: tag 83.
    Done {
        done: bool,
    },
    /// The program's first window that is too small for its bytes: tag 84.
    Unfit {
        part: InputPart,
    },
    /// A refusal by its number, at a unit of a program, else at 0: tag 85.
    Refused {
        number: u8,
        place: u32,
    },
    /// An item of a walk: tag 86.
    Item {
        key: Key,
        value: Value,
    },
    /// The end of a walk, and its counts: tag 87.
    End {
        scanned: u64,
        given: u64,
        unfit: u64,
    },
}

/// A response without the bytes of a key or of a value: a few words, which you can copy freely.
#[derive(Clone, Copy, Debug, PartialEq, Eq)]
pub enum ShortResponse {
    /// The Hello was taken: tag 80.
    Hello {
        version: Version,
    },
    /// The program is registered with this number: tag 81.
    Registered {
        program: u64,
    },
    /// An absent value: tag 82.
    Nothing,
    /// Whether the call changed the entry: tag 83.
    Done {
        done: bool,
    },
    /// The program's first window that is too small for its bytes: tag 84.
    Unfit {
        part: InputPart,
    },
    /// A refusal by its number, at a unit of a program, else at 0: tag 85.
    Refused {
        number: u8,
        place: u32,
    },
    /// The end of a walk, and its counts: tag 87.
    End {
        scanned: u64,
        given: u64,
        unfit: u64,
    },
}

fn put<const N: usize>(out: &mut ArrayVec<u8, N>, bytes: &[u8])
    requires { array_vec_len out.old + length bytes.now ≤ N }
    ensures items { out.new.items ≡ out.old.items ++ bytes.now }
    ensures len { array_vec_len out.new ≡ array_vec_len out.old + length bytes.now }
{
    match out.try_extend_from_slice(bytes) {
        Ok(()) => {}
        Err(_) => unreachable!(),
    }
}

fn part_number(part: InputPart) -> u8
    ensures { result ≡ part_number part }
{
    match part {
        InputPart::Key => 1,
        InputPart::Old => 2,
        InputPart::Arg => 3,
    }
}

impl ShortResponse {
    /// Returns how many bytes the body has.
    fn body_len(self) -> usize
        ensures value { result ≡ length (response_body (response_of self)) }
        ensures fits { result ≤ SHORT_BODY_BYTES }
    {
        match self {
            ShortResponse::Hello { .. }
            | ShortResponse::Done { .. }
            | ShortResponse::Unfit { .. } => 2,
            ShortResponse::Registered { .. } => 9,
            ShortResponse::Nothing => 3,
            ShortResponse::Refused { .. } => 6,
            ShortResponse::End { .. } => 25,
        }
    }

    /// Adds the bytes of the body.
    fn put_body(self, out: &mut ArrayVec<u8, SHORT_FRAME_BYTES>)
        requires { array_vec_len out.old ≡ 4 }
        ensures { out.new.items ≡ out.old.items ++ response_body (response_of self) }
    {
        match self {
            ShortResponse::Hello { version } => put(out, &[0x80, version.number()]),
            ShortResponse::Registered { program } => {
                put(out, &[0x81]);
                put(out, &program.to_be_bytes());
            }
            ShortResponse::Nothing => put(out, &[0x82, 0xFF, 0xFF]),
            ShortResponse::Done { done } => put(out, &[0x83, u8::from(done)]),
            ShortResponse::Unfit { part } => put(out, &[0x84, part_number(part)]),
            ShortResponse::Refused { number, place } => {
                put(out, &[0x85, number]);
                put(out, &place.to_be_bytes());
            }
            ShortResponse::End {
                scanned,
                given,
                unfit,
            } => {
                put(out, &[0x87]);
                put(out, &scanned.to_be_bytes());
                put(out, &given.to_be_bytes());
                put(out, &unfit.to_be_bytes());
            }
        }
    }

    /// Returns the response's frame. Takes no memory.
    pub fn frame(&self) -> ArrayVec<u8, SHORT_FRAME_BYTES>
        ensures { result.items ≡ response_frame (response_of self.now) }
    {
        let mut frame = ArrayVec::new();
        put(&mut frame, &(self.body_len() as u32).to_be_bytes());
        self.put_body(&mut frame);
        frame
    }
}

/// Returns the bytes that come before the value in the frame of the response with it, so that you can send the value in
/// place.
pub fn value_head(value: &[u8]) -> [u8; 7]
    requires { length value.now ≤ VALUE_BYTES }
    ensures { response_frame (Answered (Some value.now)) ≡ result ++ value.now }
{
    let len = value.len();
    let [a, b, c, d] = (3 + len as u32).to_be_bytes();
    let [e, f] = (len as u16).to_be_bytes();
    [a, b, c, d, 0x82, e, f]
}

/// Returns the bytes that come before the value in the frame of the item with this key and value, so that you can send
/// the value in place. Takes no memory.
pub fn item_head(key: &[u8], value: &[u8]) -> ArrayVec<u8, ITEM_HEAD_BYTES>
    requires key { length key.now ≤ KEY_BYTES }
    requires value { length value.now ≤ VALUE_BYTES }
    ensures { response_frame (Item key.now value.now) ≡ result.items ++ value.now }
{
    let mut head = ArrayVec::new();
    put(
        &mut head,
        &((4 + key.len() + value.len()) as u32).to_be_bytes(),
    );
    put(&mut head, &[0x86, key.len() as u8]);
    put(&mut head, key);
    put(&mut head, &(value.len() as u16).to_be_bytes());
    head
}

/// Adds a value after the bytes that come before it.
fn put_behind(frame: &mut ArrayVec<u8, FRAME_BYTES>, head: &[u8], value: &[u8])
    requires none { array_vec_len frame.old ≡ 0 }
    requires fits { length head.now + length value.now ≤ FRAME_BYTES }
    ensures { frame.new.items ≡ head.now ++ value.now }
{
    put(frame, head);
    put(frame, value);
}

/// Adds the frame of the item with this key and this value.
fn put_item(frame: &mut ArrayVec<u8, FRAME_BYTES>, key: &Key, value: &[u8])
    requires none { array_vec_len frame.old ≡ 0 }
    requires fits { length value.now ≤ VALUE_BYTES }
    ensures { frame.new.items ≡ response_frame (Item key.now value.now) }
{
    put_behind(frame, item_head(key.as_slice(), value).as_slice(), value);
}

/// Adds the frame of a short response.
fn put_short(frame: &mut ArrayVec<u8, FRAME_BYTES>, short: ShortResponse)
    requires none { array_vec_len frame.old ≡ 0 }
    ensures { frame.new.items ≡ response_frame (response_of short) }
{
    put(frame, short.frame().as_slice());
}

impl Response {
    /// Returns the response's frame. Takes no memory.
    pub fn frame(&self) -> ArrayVec<u8, FRAME_BYTES>
        ensures { result.items ≡ response_frame self.now }
    {
        let mut frame = ArrayVec::new();
        let out = &mut frame;
        match self {
            &Response::Hello { version } => put_short(out, ShortResponse::Hello { version }),
            &Response::Registered { program } => put_short(
                out,
                ShortResponse::Registered { program },
            ),
            Response::Value { value: None } => put_short(out, ShortResponse::Nothing),
            Response::Value { value: Some(value) } => {
                let value = value.as_slice();
                put_behind(out, &value_head(value), value);
            }
            &Response::Done { done } => put_short(out, ShortResponse::Done { done }),
            &Response::Unfit { part } => put_short(out, ShortResponse::Unfit { part }),
            &Response::Refused { number, place } => put_short(
                out,
                ShortResponse::Refused { number, place },
            ),
            Response::Item { key, value } => put_item(out, key, value.as_slice()),
            &Response::End {
                scanned,
                given,
                unfit,
            } => put_short(
                out,
                ShortResponse::End {
                    scanned,
                    given,
                    unfit,
                },
            ),
        }
        frame
    }
}
