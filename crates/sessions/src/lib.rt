//! Sessions of clients over a given reader and writer.
//!
//! The promise to the layers above: `session_alone` writes the answers to the requests that it reads, and nothing else
//! (by `specs/Requests.antt` and `specs/Sessions.antt`). `run_session` is its loop, over any `Service`. `OwedAnswers` owe all
//! bytes that they took, in order, to a connection that never blocks. Readers and writers are those of the crate devices. A session waits only for its reader. A refused request for memory is answered
//! as a refusal.
#![tactic(auto)]

mod alone;
mod calls;
mod owed_answers;
mod responses;
mod session;
mod unsent;

pub use alone::{Alone, session_alone};
pub use calls::{argument_of, call_of, may_change, named_program};
pub use owed_answers::OwedAnswers;
pub use responses::{answer_to, may_be_sent, no_memory, program_sent, unknown_program};
pub use session::send::{AtOnce, Replies, refuse};
pub use session::{
    Answer, Conversation, ConversationEnd, Service, SessionEnd, exchanges_join, pieces_join,
    run_session,
};
