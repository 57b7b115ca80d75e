//! Commands and replies of RESP, version 2, the protocol of Redis.
//!
//! The promise to the layers above: `next_command` gives the reading that the bytes have (`read`, `err`). No bytes have two
//! (`laws::one_reading`), and a command or a fault stays as it is, whatever follows (`laws::readings_stay`). A reply's bytes
//! are its spelling. `specs/Grammar.antt` says how commands are spelled, `specs/Replies.antt` how replies are. Only the
//! list of words takes memory, and words with quotes. Nothing waits.
#![tactic(auto)]

mod array;
mod command;
mod fault;
mod front;
pub mod laws;
mod limits;
mod line;
mod number;
mod quotes;
mod reply;
mod short;
mod word;

pub use command::{Next, next_command};
pub use fault::{NextFault, RespFault};
pub use limits::{COMMAND_BYTES, COMMAND_WORDS, LINE_BYTES, WORD_BYTES};
pub use number::integer;
pub use reply::{put_array, put_error, put_integer, put_nothing, put_simple, put_value};
pub use short::SHORT_BYTES;
