//! The protocol between a client and the map: frames of requests, and frames of responses.
//!
//! A frame is a length of 32 bits and a body. A body is a tag, the fields of the tag's request, and for a `Register`
//! then a program. Numbers are big-endian. `Feeder` makes requests from a stream of bytes that arrives in pieces. It
//! reads them into buffers that are used again, `Requests`; `Request::view` lends one. `Response::frame` spells a
//! response; a `ShortResponse` is one of a few words.
//!
//! The promise to the layer above: `feed` gives the requests, the rest and the fault that the grammar gives for the
//! bytes so far, however they were cut (clause `requests`). A refused piece was not taken (`err`). A response's frame is
//! its spelling. The grammar says nothing about pieces or reading: `specs/Bodies.antt` has the table of tags and fields,
//! `specs/Frames.antt` says which requests a stream is. Nothing here waits.
#![tactic(auto)]

mod copies;
mod fault;
mod feeder;
mod field;
mod fields;
mod frames;
pub mod laws;
mod limits;
mod reading;
mod request;
mod requests;
mod response;

pub use fault::ProtocolFault;
pub use feeder::{Fed, Feeder};
pub use frames::hello_after;
pub use limits::{Limits, Version};
pub use request::{Request, RequestView};
pub use requests::Requests;
pub use response::{
    FRAME_BYTES, ITEM_HEAD_BYTES, Response, SHORT_FRAME_BYTES, ShortResponse, item_head, value_head,
};
