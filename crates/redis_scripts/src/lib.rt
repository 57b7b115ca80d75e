//! Scripts that clients of Redis' protocol load, and call by the SHA-1 of their text.
//!
//! The promise to the layers above: `Scripts::load` returns the script of this very text, with a program that is safe with the sizes
//! in the text's first line, or the first fault (`IsText` and `IsFaultOf` of `specs/`). `Scripts::find` returns a script whose text has
//! the digest that you ask for (`IsScript`). `Scripts::known_lua` knows the Lua texts by which clients release a lock or give it time. `load` takes
//! memory if the text is new. `load` and `find` may wait for another thread that loads at the same moment.
#![tactic(auto)]

mod code;
mod digest;
mod fault;
mod head;
mod known;
mod lua;
mod pieces;
mod reading;
mod scripts;

pub use digest::{NAME_LEN, digest_in, digest_of, hex_of};
pub use fault::{MESSAGE_BYTES, ScriptFault};
pub use head::{Method, ReplyKind};
pub use known::Script;
pub use lua::LockAct;
pub use program_registry::Digest;
pub use scripts::Scripts;
