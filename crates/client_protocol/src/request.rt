//! Clients' requests, in buffers that are used again.
ghost use Rattle.std.specs.Prelude.{◌≡◌, Option, option_copied};
ghost use Rattle.client_protocol.specs.Requests.{viewed};
ghost use Rattle.client_protocol.specs.Requests.Request.{Count};
ghost use Rattle.client_protocol.specs.Buffers.{optional, run_with, walk_with};

use crate::limits::Version;
use bpf_model::{Key, Sizes, Value};
use bytes::BytesMut;
use std::alloc::Global;
use std::fmt;
use std::marker::Model;

/// A client's request, as its buffer shows it: a few words, which borrow the key, the values and the bytes. A program is
/// named by the number with which it was registered; an `arg` is an argument, or absent.
#[derive(Clone, Copy, Debug, PartialEq, Eq)]
pub enum RequestView<'a> {
    /// Comes first, and once: tag 00.
    Hello {
        version: Version,
    },
    /// Registers the program that these bytes spell, with these sizes: tag 01.
    Register {
        sizes: Sizes,
        program: &'a [u8],
    },
    /// Tag 10.
    Get {
        key: &'a Key,
    },
    /// Tag 11.
    Put {
        key: &'a Key,
        value: &'a Value,
    },
    /// Tag 12.
    PutIfAbsent {
        key: &'a Key,
        value: &'a Value,
    },
    /// Tag 13.
    Remove {
        key: &'a Key,
    },
    /// Tag 14.
    RemoveIf {
        key: &'a Key,
        expected: &'a Value,
    },
    /// Tag 15.
    Replace {
        key: &'a Key,
        value: &'a Value,
    },
    /// Tag 16.
    ReplaceIf {
        key: &'a Key,
        expected: &'a Value,
        value: &'a Value,
    },
    /// Tag 17.
    Compute {
        key: &'a Key,
        program: u64,
        arg: Option<&'a Value>,
    },
    /// Tag 18.
    ComputeIfAbsent {
        key: &'a Key,
        program: u64,
        arg: Option<&'a Value>,
    },
    /// Tag 19.
    ComputeIfPresent {
        key: &'a Key,
        program: u64,
        arg: Option<&'a Value>,
    },
    /// Tag 1a.
    Merge {
        key: &'a Key,
        value: &'a Value,
        program: u64,
    },
    /// The least key with an answer, over the whole table: tag 20.
    Search {
        program: u64,
        arg: Option<&'a Value>,
        threshold: u64,
    },
    /// All answers, over the whole table: tag 21.
    ForEach {
        program: u64,
        arg: Option<&'a Value>,
        threshold: u64,
    },
    /// Replaces each value by its answer: tag 22.
    ReplaceAll {
        program: u64,
        arg: Option<&'a Value>,
    },
    /// The number of entries: tag 23.
    Count,
}

/// A request without its bytes.
#[derive(Clone, Copy)]
pub enum RequestKind {
    Hello { version: Version },
    Register { sizes: Sizes },
    Get,
    Put,
    PutIfAbsent,
    Remove,
    RemoveIf,
    Replace,
    ReplaceIf,
    Run(Run),
    Walk(Walk),
}

/// A request that runs a program on one key.
#[derive(Clone, Copy)]
pub enum Run {
    Compute { program: u64 },
    ComputeIfAbsent { program: u64 },
    ComputeIfPresent { program: u64 },
    Merge { program: u64 },
}

/// A request without a key.
#[derive(Clone, Copy)]
pub enum Walk {
    Search { program: u64, threshold: u64 },
    ForEach { program: u64, threshold: u64 },
    ReplaceAll { program: u64 },
    Count,
}

impl Run {
    /// Returns the request on this key, with this value or this argument.
    #[inline(always)]
    fn view<'a>(self, key: &'a Key, value: &'a Value, arg: Option<&'a Value>) -> RequestView<'a>
        ensures { viewed result ≡ run_with self key.now value.now (option_copied arg.entry) }
    {
        match self {
            Run::Compute { program } => RequestView::Compute { key, program, arg },
            Run::ComputeIfAbsent { program } => RequestView::ComputeIfAbsent { key, program, arg },
            Run::ComputeIfPresent { program } => RequestView::ComputeIfPresent {
                key,
                program,
                arg,
            },
            Run::Merge { program } => RequestView::Merge {
                key,
                value,
                program,
            },
        }
    }
}

impl Walk {
    /// Returns the walk with this argument.
    #[inline(always)]
    fn view<'a>(self, arg: Option<&'a Value>) -> RequestView<'a>
        ensures { viewed result ≡ walk_with self (option_copied arg.entry) }
    {
        match self {
            Walk::Search { program, threshold } => RequestView::Search {
                program,
                arg,
                threshold,
            },
            Walk::ForEach { program, threshold } => RequestView::ForEach {
                program,
                arg,
                threshold,
            },
            Walk::ReplaceAll { program } => RequestView::ReplaceAll { program, arg },
            Walk::Count => RequestView::Count,
        }
    }
}

/// A value that may be absent. Then the room for its bytes stays.
#[derive(Drop)]
pub struct OptionalValue {
    pub is_there: bool,
    pub value: Value,
}

impl OptionalValue {
    #[inline(always)]
    fn as_option(&self) -> Option<&Value>
        ensures { option_copied result ≡ optional self.now }
    {
        if self.is_there {
            Some(&self.value)
        } else {
            None
        }
    }
}

/// Makes an empty key, to read one into.
fn empty_key() -> Key {
    match Key::from_slice(&[]) {
        Ok(key) => key,
        Err(_) => unreachable!(),
    }
}

/// A buffer of some 2,200 bytes that holds a client's request. You read a request into it, and borrow it from there by
/// `view`, so reading and answering copy no more than the bytes that arrived.
#[derive(Drop)]
pub struct Request {
    pub(crate) kind: RequestKind,
    pub(crate) key: Key,
    // The argument, or the expected value.
    pub(crate) other: OptionalValue,
    pub(crate) value: Value,
    // The bytes of a Register's program.
    pub(crate) program: BytesMut,
}

impl Model for Request {
    ghost use Rattle.client_protocol.specs.Requests.{Request};
    ghost use Rattle.client_protocol.specs.Buffers.{request_in};

    ghost Value = { Request };

    ghost view = { λ r. request_in r.kind r.key r.value r.other r.program.items };
}

impl fmt::Debug for Request {
    fn fmt<W: fmt::Write>(&self, f: &mut fmt::Formatter<W>) -> fmt::Result {
        self.view().fmt(f)
    }
}

impl Request {
    /// Makes a buffer that holds a `Count`. Takes no memory; reading a `Register` into it asks for some.
    pub fn new(alloc: Global) -> Request
        ensures { result ≡ Count }
    {
        Request {
            kind: RequestKind::Walk(Walk::Count),
            key: empty_key(),
            value: Value::new(),
            other: OptionalValue {
                is_there: false,
                value: Value::new(),
            },
            program: BytesMut::new(alloc),
        }
    }

    /// Borrows the request. Takes no memory, and copies a few words.
    #[inline(always)]
    pub fn view(&self) -> RequestView<'_>
        ensures { viewed result ≡ self.now }
    {
        let key = &self.key;
        let value = &self.value;
        let expected = &self.other.value;
        let arg = self.other.as_option();
        match self.kind {
            RequestKind::Hello { version } => RequestView::Hello { version },
            RequestKind::Register { sizes } => RequestView::Register {
                sizes,
                program: self.program.as_slice(),
            },
            RequestKind::Get => RequestView::Get { key },
            RequestKind::Put => RequestView::Put { key, value },
            RequestKind::PutIfAbsent => RequestView::PutIfAbsent { key, value },
            RequestKind::Remove => RequestView::Remove { key },
            RequestKind::RemoveIf => RequestView::RemoveIf { key, expected },
            RequestKind::Replace => RequestView::Replace { key, value },
            RequestKind::ReplaceIf => RequestView::ReplaceIf {
                key,
                expected,
                value,
            },
            RequestKind::Run(run) => run.view(key, value, arg),
            RequestKind::Walk(walk) => walk.view(arg),
        }
    }
}
