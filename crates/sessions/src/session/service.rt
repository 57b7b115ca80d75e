//! The service that answers a session's requests, for contracts.

use atomic_methods::WalkReply;
use client_protocol::ShortResponse;

/// The answer to one request.
#[derive(Drop)]
pub enum Answer {
    /// One response, without a value.
    One(ShortResponse),
    /// One response, with the value that was left in the caller's room.
    Found,
    /// A response for each item, in order, and one for the end with the counts.
    Walk(WalkReply),
}

/// A state that answers the requests of a session, one after the other. The caller passes the function that answers them;
/// this trait gives the relation that it keeps.
pub trait Service {
    ghost use Rattle.std.specs.Prelude.{List, Option};
    ghost use Rattle.client_protocol.specs.declared.limits.Version.{Version};
    ghost use Rattle.client_protocol.specs.Requests.{Request};
    ghost use Rattle.client_protocol.specs.declared.response.Response.{Response};

    /// In the first state the request, which came after this Hello, may be answered by these responses, and then the state is
    /// the last one.
    ghost answers: { Option Version → Self → Request → List Response → Self → Type 0 };
}
