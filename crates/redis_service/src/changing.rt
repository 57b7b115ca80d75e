//! Commands that may change the map.
ghost use Rattle.std.specs.Prelude.{◌≡◌, ◌&&◌};
ghost use Rattle.redis_commands.specs.Commands.{act_by, asked_by, program_by, walk_by};
ghost use Rattle.redis_service.specs.Changing.{act_changes, keys_change, walk_changes, program_changes, may_change};

use redis_commands::{Command, KeyAct, KeysAct, Lifetime, ProgramCommand, WalkCommand};

/// What is said of a command that may change the map, while those are refused.
pub const NOT_KEPT: &[u8] =
    b"MISCONF The map cannot be written to its file, and this server was started with --keep-strict: commands that may change the map are refused.";

/// Tests whether what is done with a key may change its value or its deadline.
fn act_changes(act: &KeyAct<'_>) -> bool
    ensures { result ≡ act_changes (act_by act.now) }
{
    match act {
        KeyAct::Get
        | KeyAct::Length
        | KeyAct::TypeName
        | KeyAct::GetAndExpire {
            lifetime: Lifetime::Kept,
        }
        | KeyAct::TimeLeft { .. }
        | KeyAct::GetRange { .. } => false,
        _ => true,
    }
}

/// Tests whether what is done with several keys may change a value.
fn keys_change(act: KeysAct) -> bool
    ensures { result ≡ keys_change act }
{
    matches!(act, KeysAct::Delete)
}

/// Tests whether what is asked of the whole map may change it.
fn walk_changes(command: &WalkCommand<'_>) -> bool
    ensures { result ≡ walk_changes (walk_by command.now) }
{
    matches!(command, WalkCommand::RemoveAll)
}

/// Tests whether what is asked of programs may change a value, or the programs.
fn program_changes(command: &ProgramCommand<'_>) -> bool
    ensures { result ≡ program_changes (program_by command.now) }
{
    !matches!(command, ProgramCommand::Exists { .. })
}

/// Tests whether a command may change the map or the programs.
fn may_change(command: &Command<'_>) -> bool
    ensures { result ≡ may_change (asked_by command.now) }
{
    match command {
        Command::OnKey { act, .. } => act_changes(act),
        Command::OnKeys { act, .. } => keys_change(*act),
        Command::SetEach { .. } => true,
        Command::Walk(command) => walk_changes(command),
        Command::Program(command) => program_changes(command),
        Command::Connection(_) | Command::Server(_) => false,
    }
}

/// Tests whether this command is refused. `refuses` says whether commands that may change the map are.
#[inline(always)]
pub fn is_refused(refuses: bool, command: &Command<'_>) -> bool
    ensures { result ≡ (refuses && may_change (asked_by command.now)) }
{
    refuses && may_change(command)
}
