//! Commands of programs: scripts that are called by their digests or texts.
ghost use Rattle.std.specs.Prelude.{◌≡◌, ◌++◌, ℕ, List, All, Some, IfSome, IfNone, IfOk, IfErr, option_copied};
ghost use Rattle.std.specs.Int.{w64, to_le_bytes};
ghost use Rattle.atomic_methods.specs.Invocations.{Invocation, invocation_of};
ghost use Rattle.atomic_methods.specs.Plans.{where_true};
ghost use Rattle.timed_bins.specs.declared.timing.DeadlineChange.{DeadlineChange as TheChange};
ghost use Rattle.timed_bins.specs.declared.timing.DeadlineChange.TheVariants.{Keep};
ghost use Rattle.bin_stripes.specs.Passes.{PassState};
ghost use Rattle.devices.specs.Devices.{CanWrite};
ghost use Rattle.resp.specs.Replies.{error_bytes, value_bytes};
ghost use Rattle.redis_commands.specs.Commands.{program_by, texts, text as text_in};
ghost use Rattle.redis_commands.specs.Commands.ProgramAsked.{Exists};
ghost use Rattle.redis_commands.specs.Limits.{IsValue, IsProgramWithin};
ghost use Rattle.redis_scripts.specs.declared.head.ReplyKind.{ReplyKind as TheReply};
ghost use Rattle.redis_scripts.specs.Faults.{fault_text};
ghost use Rattle.redis_service.specs.Calls.{Made, AnswersCall};
ghost use Rattle.redis_service.specs.Programs.{value_line, script_line, no_argument, with_time, AnswersWith, AnswersIfFit, AnswersScript, AnswersArguments, AnswersDigest, AnswersText, LoadsText, Tells, AnswersProgram};
ghost use Rattle.redis_service.specs.Replied.{replied_bytes};
ghost use Rattle.redis_service.specs.Sending.{Sends};

use crate::calls::{MapAt, Outcome, make};
use crate::errors::{NO_ARGUMENT, NOT_A_NUMBER, TOO_LONG};
use crate::locks::act_on_lock;
use crate::reply::{Replied, count_refused};
use crate::room::Room;
use crate::telling::one_if;
use crate::texts::set_both;
use atomic_methods::{Call, ReplyKind};
use bin_stripes::Pass;
use bpf_model::limits::VALUE_BYTES;
use bpf_model::{Key, NoMemory, Value};
use devices::{Failed, Sink};
use redis_commands::ProgramCommand;
use redis_scripts::{
    Method, NAME_LEN, ReplyKind as ScriptReply, Script, ScriptFault, Scripts, digest_in, digest_of,
    hex_of,
};
use resp::{integer, put_error, put_value};
use std::alloc::Global;
use std::sync::Wait;
use timed_bins::DeadlineChange;
use verifier::Verified;

const NO_SCRIPT: &[u8] = b"NOSCRIPT No matching script. Please use EVAL.";

const UNFIT: &[u8] = b"ERR unfit: a length is above its declared size";

/// Tells a value that a script left.
fn value_of(kind: ScriptReply, found: &[u8]) -> Replied
    ensures { replied_bytes result found.now ≡ value_line kind found.now }
{
    if kind == ScriptReply::Bytes {
        return Replied::Found;
    }
    match <[u8; 8]>::try_from(found) {
        Ok(bytes) => Replied::Integer(u64::from_le_bytes(bytes).cast_signed()),
        Err(_) => Replied::Found,
    }
}

/// Tells what came of a script's call.
fn tell(made: Outcome, kind: ScriptReply, found: &Value) -> Replied
    ensures { (now : ℕ) (change : TheChange) (old new : PassState) (invocation : Invocation) → Made now change made old invocation found.now new
        → AnswersCall now change old invocation (script_line kind) (replied_bytes result found.now) new }
{
    let timed = match made {
        Ok(timed) => timed,
        Err(NoMemory) => return Replied::NoMemory,
    };
    match timed.kind {
        ReplyKind::Some => value_of(kind, found.as_slice()),
        ReplyKind::None => Replied::Nothing,
        ReplyKind::Done(done) => one_if(done),
        ReplyKind::Unfit(_) => Replied::Error(UNFIT),
    }
}

/// Returns the call of a script's program, or none if it needs an argument and has none.
fn call_of<'a>(
    method: Method,
    key: &'a Key,
    program: &'a Verified,
    arg: Option<&'a Value>,
) -> Option<Call<'a>>
    ensures some { IfSome result (λ call. (now : ℕ) (old new : PassState) (kind : TheReply) (written : List ℕ)
        → AnswersCall now Keep old (invocation_of call) (script_line kind) written new
        → AnswersWith now old key.now method kind program.now (option_copied arg.entry) written new) }
    ensures none { IfNone result ((now : ℕ) (old : PassState) (kind : TheReply)
        → AnswersWith now old key.now method kind program.now (option_copied arg.entry) no_argument old) }
{
    match method {
        Method::Compute => Some(Call::Compute { key, program, arg }),
        Method::IfAbsent => Some(Call::ComputeIfAbsent { key, program, arg }),
        Method::IfPresent => Some(Call::ComputeIfPresent { key, program, arg }),
        Method::Merge => {
            let value = arg?;
            Some(Call::Merge {
                key,
                value,
                program,
            })
        }
    }
}

/// Returns the value if there is an argument.
fn value_if(has: bool, value: &Value) -> Option<&Value>
    ensures { option_copied result ≡ where_true has value.now }
{
    if has { Some(value) } else { None }
}

/// What the commands of programs are about.
#[derive(Clone, Copy)]
pub struct Programs<'a, 's> {
    pub alloc: Global,
    pub at: MapAt<'a>,
    pub scripts: &'a Scripts<'s>,
}

/// Calls the script on the room's key, with the room's value if there is an argument.
fn call_with<H: Wait>(
    rt: &H,
    at: &MapAt<'_>,
    pass: &mut Pass,
    room: &mut Room,
    script: &Script<'_>,
    has: bool,
) -> Replied
    requires map { pass.old.map ≡ at.now.map.now }
    ensures same { pass.new.map ≡ at.now.map.now }
    ensures passes { pass.new.view.passes ≡ pass.old.view.passes }
    ensures numbers { pass.new.view.numbers ≡ pass.old.view.numbers }
    ensures answers { AnswersWith at.now.time pass.old room.old.key script.now.method script.now.reply script.now.program.now (where_true has room.old.value) (replied_bytes result room.new.found) pass.new }
{
    let Room {
        key,
        found,
        value,
        ..
    } = room;
    let arg = value_if(has, value);
    let Some(call) = call_of(script.method, key, script.program, arg) else {
        return Replied::Error(NO_ARGUMENT);
    };
    let made = make(rt, at, pass, &call, DeadlineChange::Keep, found);
    tell(made, script.reply, found)
}

/// Calls the script on the room's key with this argument, if there is one.
fn call_plain<H: Wait>(
    rt: &H,
    at: &MapAt<'_>,
    pass: &mut Pass,
    room: &mut Room,
    script: &Script<'_>,
    argument: Option<&[u8]>,
) -> Replied
    requires map { pass.old.map ≡ at.now.map.now }
    requires argument { IfSome (text_in argument) IsValue }
    ensures same { pass.new.map ≡ at.now.map.now }
    ensures passes { pass.new.view.passes ≡ pass.old.view.passes }
    ensures numbers { pass.new.view.numbers ≡ pass.old.view.numbers }
    ensures answers { AnswersIfFit at.now.time pass.old room.old.key script.now.method script.now.reply script.now.program.now (text_in argument.entry) (replied_bytes result room.new.found) pass.new }
{
    let Some(word) = argument else {
        return call_with(rt, at, pass, room, script, false);
    };
    room.value.set_from(word);
    call_with(rt, at, pass, room, script, true)
}

/// Calls the script on the room's key with the time, and after it this argument, if both are not too long.
fn call_timed<H: Wait>(
    rt: &H,
    at: &MapAt<'_>,
    pass: &mut Pass,
    room: &mut Room,
    script: &Script<'_>,
    word: &[u8],
) -> Replied
    requires map { pass.old.map ≡ at.now.map.now }
    requires argument { IsValue word.now }
    ensures same { pass.new.map ≡ at.now.map.now }
    ensures passes { pass.new.view.passes ≡ pass.old.view.passes }
    ensures numbers { pass.new.view.numbers ≡ pass.old.view.numbers }
    ensures answers { AnswersIfFit at.now.time pass.old room.old.key script.now.method script.now.reply script.now.program.now (Some (to_le_bytes w64 at.now.time ++ word.now)) (replied_bytes result room.new.found) pass.new }
{
    let time = at.time.to_le_bytes();
    if time.len() + word.len() > VALUE_BYTES {
        return Replied::Error(TOO_LONG);
    }
    set_both(&mut room.value, &time, word);
    call_with(rt, at, pass, room, script, true)
}

/// Calls the script on the room's key with these bytes, if there are some, and before them with the time if the script asks for it.
fn call_bytes<H: Wait>(
    rt: &H,
    at: &MapAt<'_>,
    pass: &mut Pass,
    room: &mut Room,
    script: &Script<'_>,
    argument: Option<&[u8]>,
) -> Replied
    requires map { pass.old.map ≡ at.now.map.now }
    requires argument { IfSome (text_in argument) IsValue }
    ensures same { pass.new.map ≡ at.now.map.now }
    ensures passes { pass.new.view.passes ≡ pass.old.view.passes }
    ensures numbers { pass.new.view.numbers ≡ pass.old.view.numbers }
    ensures answers { AnswersIfFit at.now.time pass.old room.old.key script.now.method script.now.reply script.now.program.now (with_time at.now.time script.now.with_now (text_in argument.entry)) (replied_bytes result room.new.found) pass.new }
{
    if !script.with_now {
        return call_plain(rt, at, pass, room, script, argument);
    }
    match argument {
        Some(word) => call_timed(rt, at, pass, room, script, word),
        None => call_timed(rt, at, pass, room, script, &[]),
    }
}

/// Calls the script on the room's key with this argument, if there is one.
fn call_script<H: Wait>(
    rt: &H,
    at: &MapAt<'_>,
    pass: &mut Pass,
    room: &mut Room,
    script: &Script<'_>,
    argument: Option<&[u8]>,
) -> Replied
    requires map { pass.old.map ≡ at.now.map.now }
    requires argument { IfSome (text_in argument) IsValue }
    ensures same { pass.new.map ≡ at.now.map.now }
    ensures passes { pass.new.view.passes ≡ pass.old.view.passes }
    ensures numbers { pass.new.view.numbers ≡ pass.old.view.numbers }
    ensures answers { AnswersScript at.now.time pass.old room.old.key script.now.method script.now.reply script.now.with_now script.now.program.now (text_in argument.entry) (replied_bytes result room.new.found) pass.new }
{
    let Some(word) = argument else {
        return call_bytes(rt, at, pass, room, script, None);
    };
    if script.reply == ScriptReply::Bytes {
        return call_bytes(rt, at, pass, room, script, Some(word));
    }
    let Some(n) = integer(word) else {
        return Replied::Error(NOT_A_NUMBER);
    };
    let bytes = n.cast_unsigned().to_le_bytes();
    call_bytes(rt, at, pass, room, script, Some(&bytes))
}

/// Calls the script on the room's key with these arguments, of which there may be one.
fn call_arguments<H: Wait>(
    rt: &H,
    at: &MapAt<'_>,
    pass: &mut Pass,
    room: &mut Room,
    script: &Script<'_>,
    arguments: &[&[u8]],
) -> Replied
    requires map { pass.old.map ≡ at.now.map.now }
    requires arguments { All IsValue (texts arguments.now) }
    ensures same { pass.new.map ≡ at.now.map.now }
    ensures passes { pass.new.view.passes ≡ pass.old.view.passes }
    ensures numbers { pass.new.view.numbers ≡ pass.old.view.numbers }
    ensures answers { AnswersArguments at.now.time pass.old room.old.key script.now.method script.now.reply script.now.with_now script.now.program.now (texts arguments.now) (replied_bytes result room.new.found) pass.new }
{
    match arguments {
        [] => call_script(rt, at, pass, room, script, None),
        [word] => call_script(rt, at, pass, room, script, Some(word)),
        _ => Replied::Error(NO_ARGUMENT),
    }
}

/// Calls the script with this digest on the room's key.
fn call_digest<H: Wait>(
    rt: &H,
    programs: &Programs<'_, '_>,
    pass: &mut Pass,
    room: &mut Room,
    word: &[u8],
    arguments: &[&[u8]],
) -> Replied
    requires map { pass.old.map ≡ programs.now.at.map.now }
    requires arguments { All IsValue (texts arguments.now) }
    ensures same { pass.new.map ≡ programs.now.at.map.now }
    ensures passes { pass.new.view.passes ≡ pass.old.view.passes }
    ensures numbers { pass.new.view.numbers ≡ pass.old.view.numbers }
    ensures answers { AnswersDigest programs.now.at.time pass.old word.now room.old.key (texts arguments.now) (replied_bytes result room.new.found) pass.new }
{
    let Some(digest) = digest_in(word) else {
        return Replied::Error(NO_SCRIPT);
    };
    if let Some(act) = programs.scripts.known_lua(digest) {
        return act_on_lock(rt, &programs.at, pass, room, act, arguments);
    }
    let Some(script) = programs.scripts.find(rt, digest) else {
        return Replied::Error(NO_SCRIPT);
    };
    call_arguments(rt, &programs.at, pass, room, &script, arguments)
}

/// Calls the script that is this text on the room's key.
fn call_text<H: Wait>(
    rt: &H,
    programs: &Programs<'_, '_>,
    pass: &mut Pass,
    room: &mut Room,
    text: &[u8],
    arguments: &[&[u8]],
) -> Result<Replied, ScriptFault>
    requires map { pass.old.map ≡ programs.now.at.map.now }
    requires arguments { All IsValue (texts arguments.now) }
    ensures same { pass.new.map ≡ programs.now.at.map.now }
    ensures passes { pass.new.view.passes ≡ pass.old.view.passes }
    ensures numbers { pass.new.view.numbers ≡ pass.old.view.numbers }
    ensures ok { IfOk result (λ replied. AnswersText programs.now.at.time pass.old text.now room.old.key (texts arguments.now) (replied_bytes replied room.new.found) pass.new) }
    ensures err { IfErr result (λ fault. AnswersText programs.now.at.time pass.old text.now room.old.key (texts arguments.now) (error_bytes (fault_text fault)) pass.new) }
{
    if let Some(act) = programs.scripts.known_lua(digest_of(text)) {
        return Ok(act_on_lock(rt, &programs.at, pass, room, act, arguments));
    }
    let script = programs.scripts.load(rt, programs.alloc, text)?;
    Ok(call_arguments(rt, &programs.at, pass, room, &script, arguments))
}

/// Loads the script that is this text, and returns its digest's name.
fn name_of<H: Wait>(
    rt: &H,
    programs: &Programs<'_, '_>,
    text: &[u8],
) -> Result<[u8; NAME_LEN], ScriptFault>
    ensures ok { IfOk result (λ name. LoadsText text.now (value_bytes name)) }
    ensures err { IfErr result (λ fault. LoadsText text.now (error_bytes (fault_text fault))) }
{
    let digest = digest_of(text);
    if programs.scripts.known_lua(digest).is_some() {
        return Ok(hex_of(&digest));
    }
    let script = programs.scripts.load(rt, programs.alloc, text)?;
    Ok(hex_of(&script.digest))
}

/// Loads the script that is this text, and says its digest.
fn load<H: Wait, W: Sink>(
    rt: &H,
    programs: &Programs<'_, '_>,
    text: &[u8],
    sink: &mut W,
) -> Result<(), Failed>
    requires sink { CanWrite (W.state sink.old) }
    ensures answers { (written : List ℕ) × Sends result (W.state sink.old) (W.state sink.new) written × LoadsText text.now written }
{
    match name_of(rt, programs, text) {
        Ok(name) => put_value(sink, &name),
        Err(fault) => put_error(sink, fault.message().as_slice()),
    }
}

/// Returns whether the word names what can be called.
fn is_known<H: Wait>(rt: &H, programs: &Programs<'_, '_>, word: &[u8]) -> bool
    ensures { Tells word.now result }
{
    let Some(digest) = digest_in(word) else {
        return false;
    };
    programs.scripts.known_lua(digest).is_some() || programs.scripts.find(rt, digest).is_some()
}

/// Says of each word whether it names what can be called. If a write fails, nothing more is sent.
fn mark_each<H: Wait, W: Sink>(
    rt: &H,
    programs: &Programs<'_, '_>,
    words: &[&[u8]],
    sink: &mut W,
) -> Result<(), Failed>
    requires sink { CanWrite (W.state sink.old) }
    ensures answers { (now : ℕ) (pass : PassState) → (written : List ℕ) × Sends result (W.state sink.old) (W.state sink.new) written
        × AnswersProgram now pass (Exists (texts words.now)) written pass }
{
    let mut sent = Replied::Array(words.len()).send_after(Ok(()), &[], sink);
    for word in words {
        let is = is_known(rt, programs, word);
        sent = one_if(is).send_after(sent, &[], sink);
    }
    sent
}

/// Answers a command about programs.
pub fn answer_program<H: Wait, W: Sink>(
    rt: &H,
    programs: &Programs<'_, '_>,
    pass: &mut Pass,
    room: &mut Room,
    command: &ProgramCommand<'_>,
    sink: &mut W,
) -> Result<(), Failed>
    requires map { pass.old.map ≡ programs.now.at.map.now }
    requires limits { IsProgramWithin (program_by command.now) }
    requires sink { CanWrite (W.state sink.old) }
    ensures same { pass.new.map ≡ programs.now.at.map.now }
    ensures passes { pass.new.view.passes ≡ pass.old.view.passes }
    ensures numbers { pass.new.view.numbers ≡ pass.old.view.numbers }
    ensures answers { (written : List ℕ) × Sends result (W.state sink.old) (W.state sink.new) written
        × AnswersProgram programs.now.at.time pass.old (program_by command.now) written pass.new }
{
    match *command {
        ProgramCommand::Load { text } => load(rt, programs, text, sink),
        ProgramCommand::Exists { digests } => mark_each(rt, programs, digests, sink),
        ProgramCommand::Call {
            digest,
            key,
            arguments,
        } => {
            room.key.set_from(key);
            let replied = call_digest(rt, programs, pass, room, digest, arguments);
            count_refused(programs.at.counts, replied);
            replied.send(room.found.as_slice(), sink)
        }
        ProgramCommand::Eval {
            text,
            key,
            arguments,
        } => {
            room.key.set_from(key);
            match call_text(rt, programs, pass, room, text, arguments) {
                Ok(replied) => {
                    count_refused(programs.at.counts, replied);
                    replied.send(room.found.as_slice(), sink)
                }
                Err(fault) => put_error(sink, fault.message().as_slice()),
            }
        }
    }
}
