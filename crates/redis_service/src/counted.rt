//! What `INFO` says of commands, by their kinds.
ghost use Rattle.std.specs.Prelude.{◌≡◌, ◌++◌, IfOk};
ghost use Rattle.redis_service.specs.Counted.{AreCalls, calls_line};

use crate::clients::{add, command_text, decimal_of};
use bpf_model::NoMemory;
use redis_commands::COMMAND_KINDS;
use server_state::ServerState;
use std::alloc::Global;

/// Adds the line of the commands of this name, which came this often.
fn add_calls(text: &mut Vec<u8>, name: &[u8], calls: u64) -> Result<(), NoMemory>
    ensures { IfOk result (λ _. text.new.items ≡ text.old.items ++ calls_line (record { name = name.now; calls = calls })) }
{
    let number = decimal_of(calls);
    add(text, b"cmdstat_")?;
    add(text, name)?;
    add(text, b":calls=")?;
    add(text, number.as_slice())?;
    add(text, b"\r\n")
}

/// Adds the line of the commands that are noted by this number, if some came.
fn add_noted(text: &mut Vec<u8>, server: &ServerState, noted: usize) -> Result<(), NoMemory>
    requires { AreCalls text.old.items }
    ensures { IfOk result (λ _. AreCalls text.new.items) }
{
    let calls = server.commands_of(noted);
    if calls == 0 {
        return Ok(());
    }
    let name = command_text(noted as u64);
    add_calls(text, name.as_slice(), calls)
}

/// Returns the lines of the commands that came and have a name. `NoMemory` if memory for them was refused.
pub fn calls_lines(alloc: Global, server: &ServerState) -> Result<Vec<u8>, NoMemory>
    ensures { IfOk result (λ text. AreCalls text.items) }
{
    let mut text = Vec::new(alloc);
    for noted in 1..=COMMAND_KINDS {
        add_noted(&mut text, server, noted)?;
    }
    Ok(text)
}
