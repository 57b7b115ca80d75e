//! What answers the commands of Redis clients: one talk with each client, over one map.
//!
//! The promise to the layers above: `RedisDesk::take` answers the commands that a piece of a client's bytes completes, in order, and
//! keeps the rest for the next piece (`AnswersPiece` of `specs/Talks.antt`). Each call of a command is made at the time that `take` is
//! given, so no command sees an entry whose time is over. What each command does, the calls that it makes, in order, and its reply, is in
//! five tables: `specs/Answers.antt` (keys), `specs/Walks.antt` (the whole map), `specs/Programs.antt` (scripts and locks),
//! `specs/Connections.antt` and `specs/Saving.antt` (the server). A command of several keys is one event for each. Calls wait until a stripe is free.
//! If the moment says so, commands that may change the map are refused (`specs/Changing.antt`).
#![tactic(auto)]

mod calls;
mod changes;
mod changing;
mod clients;
mod connection;
mod counted;
mod deadlines;
mod desk;
mod errors;
mod info;
mod keyed;
mod lines;
mod locks;
mod moment;
mod programs;
mod reader;
mod reply;
mod room;
mod saving;
mod server;
mod several;
mod slowlogs;
mod sweeper;
mod talk;
mod telling;
mod texts;
mod walks;

pub use clients::{COMMAND_TEXT_BYTES, CommandText, command_text};
pub use desk::{RedisDesk, TalkEnd};
pub use lines::{NO_MEMORY_LINE, NO_ROOM_LINE};
pub use moment::Moment;
pub use redis_commands::COMMAND_KINDS;
pub use sweeper::Sweeper;
pub use talk::RedisTalk;
