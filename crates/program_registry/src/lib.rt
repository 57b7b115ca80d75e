//! The programs that clients have registered, numbered from 0 and shared by all threads.
//!
//! The promise to the layers above: `get_by` returns the very program that was registered with the token, at any time and from any
//! thread (`IsOf` and `program_of` of `specs/Tokens.antt`; `register`, clause `ok`, and `get_by`, clause `value`). A program is never
//! changed or removed, so you can borrow it for as long as you borrow the registry. The registry knows programs by the sizes and bytes
//! that were sent, and keeps the same one only once (`find_same`, `register_sent`). These and `register` may wait for another thread
//! that registers at the same moment; `find_same` takes no memory.
#![tactic(auto)]

mod known;
mod registry;
mod sent;

pub use known::Bounds;
pub use registry::{ProgramToken, Registry};
pub use sent::{Digest, SentProgram};
