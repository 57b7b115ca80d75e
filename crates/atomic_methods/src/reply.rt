//! Replies to calls.
ghost use Rattle.std.specs.Prelude.{◌≡◌};
ghost use Rattle.atomic_methods.specs.Plans.{reply_by};

use bpf_model::{InputPart, Value};

/// A call's reply.
#[derive(Debug, PartialEq, Eq, Drop)]
pub enum Reply {
    /// A value, or none.
    Value(Option<Value>),
    /// Whether the key's value was the expected one.
    Done(bool),
    /// The first window that is too small for its bytes. The program did not run, and the table is unchanged.
    Unfit(InputPart),
}

/// A reply without the bytes of its value, which the caller has in its own `Value`.
#[derive(Clone, Copy, Debug, PartialEq, Eq)]
pub enum ReplyKind {
    /// No value.
    None,
    /// A value.
    Some,
    /// Whether the key's value was the expected one.
    Done(bool),
    /// The first window that is too small for its bytes.
    Unfit(InputPart),
}

impl ReplyKind {
    /// Returns the reply with this value, if it has one.
    pub fn with(self, value: Value) -> Reply
        ensures value { result ≡ reply_by self value }
    {
        match self {
            ReplyKind::None => Reply::Value(None),
            ReplyKind::Some => Reply::Value(Some(value)),
            ReplyKind::Done(done) => Reply::Done(done),
            ReplyKind::Unfit(part) => Reply::Unfit(part),
        }
    }
}
