//! Room for one command.

use crate::sweeper::Sweeper;
use bpf_model::{Key, Value};

/// Room for the key of a command and for three values, which the commands of all clients of a worker use in turn. The deadlines that
/// they set are told here.
#[derive(Drop)]
pub struct Room {
    /// The command's key.
    pub key: Key,
    /// The value that a call found.
    pub found: Value,
    /// The value that the command names or makes.
    pub value: Value,
    /// One more value.
    pub other: Value,
    /// What the worker knows of deadlines.
    pub sweeper: Sweeper,
}

impl Room {
    /// Makes the room. Takes no memory.
    pub fn new() -> Room {
        Room {
            key: Key::from_slice(b"").unwrap(),
            found: Value::new(),
            value: Value::new(),
            other: Value::new(),
            sweeper: Sweeper::new(),
        }
    }
}
