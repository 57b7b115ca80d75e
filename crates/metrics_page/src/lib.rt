//! The page of numbers that Prometheus reads over HTTP: which request a head is (`specs/Requests.antt`), and the bytes of its answer
//! (`specs/Pages.antt`).
//!
//! Nothing here asks for memory, reads or writes. Whoever calls it reads the bytes of a request, asks `asked_by` of them until it says what
//! they ask for, and writes the `answer`.
#![tactic(auto)]

mod answers;
mod asked;
mod buffer;
mod numbers;
mod text;

pub use answers::{ANSWER_BYTES, Answer, answer};
pub use asked::{Asked, HEAD_BYTES, asked_by};
pub use numbers::{
    LABEL_BYTES, Label, Labelled, MOST_COMMANDS, MOST_REFUSALS, MOST_REQUESTS, Numbers,
};
