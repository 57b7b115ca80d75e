//! Sessions of many clients over one map, each served by a crew.
//!
//! The promise to the layers above: `session` answers what it reads by a chain of steps on what its crew knows (`CrewServes` of
//! `specs/Steps.antt`, `Ended` of the crate sessions); `serve` gives its crews back in order, each with the numbers that it
//! carried, and `attend_each` its posts. A client that is attended speaks frames, or the commands of Redis (crate redis_service).
//! A session waits for its reader and for stripes that others hold; its walks start threads.
#![tactic(auto)]

mod accept;
mod answering;
mod attending;
mod client;
mod clients;
mod counting;
mod crew;
mod posts;
mod seats;
mod server;
mod serving;
mod shared;
mod talk;
mod team;
mod tokens;
mod turn;
mod whole;
mod worker;

pub use accept::Accept;
pub use attending::attend;
pub use client::{session, session_with_tokens};
pub use clients::{Clients, Event, NextSweep, Parting, Protocol, Standing};
pub use counting::request_name;
pub use crew::Crew;
pub use posts::{Attended, Post, attend_each};
pub use server::serve;
pub use shared::join_sessions;
pub use tokens::Tokens;
pub use whole::join_crews;
pub use worker::Worker;
