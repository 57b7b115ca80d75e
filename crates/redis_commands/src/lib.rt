//! The commands of Redis' clients: what the words of a command ask for.
//!
//! The promise to the layers above: `command_of` gives the command that the words ask for by the table of the commands, or
//! the fault that they have (`asked`), and the keys and values of a command are within their limits (`limits`).
//! `command_before_auth` does it for a client that has not authenticated. A fault knows the text of its reply
//! (`CommandFault::text`). `matches` says whether a key matches a pattern. `specs/Table.antt` is
//! the table, `specs/Names.antt` has the names and how many arguments each command takes, `specs/Texts.antt` the texts,
//! `specs/Matching.antt` the patterns. No call waits, and none asks for memory.
#![tactic(auto)]

mod asking;
mod clients;
pub mod command;
mod deadlines;
pub mod fault;
mod glob;
mod keyed;
mod kind;
pub mod name;
pub mod number;
mod options;
mod text;

pub use asking::{command_before_auth, command_of, named_command_of};
pub use command::{
    ClientFilter, ClientsCommand, Command, Condition, ConnectionCommand, ExpireRule, KeyAct,
    KeysAct, LastSave, Lifetime, NAME_BYTES, ProgramCommand, ServerCommand, SlowlogCommand,
    TimeForm, TimeUnit, WalkCommand,
};
pub use fault::CommandFault;
pub use glob::matches;
pub use kind::{COMMAND_KINDS, kind_name, kind_of, name_of};
pub use name::Name;
pub use text::FaultText;
