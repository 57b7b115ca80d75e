//! What the verifier knew of an instruction that it refuses, in words.
ghost use Rattle.std.specs.Prelude.{◌≡◌, ◌≤◌, ◌⊎◌, [], IfOk, IfSome, length, take, string_bytes};
ghost use Rattle.bpf_model.specs.declared.limits.TheConstants.{PROGRAM_UNITS};
ghost use Rattle.bpf_model.specs.Program.{unit_count, IsProgram};
ghost use Rattle.verifier.specs.Walks.{KnowsRuns};
ghost use Rattle.explanations.specs.Accesses.{touch_of};
ghost use Rattle.explanations.specs.Origins.{unwritten_read as unwritten_register};
ghost use Rattle.explanations.specs.Reasons.{address_reason, unwritten_reason, access_reason, store_reason, load_reason, is_told, IsExitReason, IsReasonAfter, IsKnownReason};

use crate::access::{Touch, write_access, write_count, write_read_only, write_unread};
use crate::known::write_value;
use crate::origin::{unwritten_read, write_register};
use bpf_model::{Insn, NoMemory, Program, Sizes};
use flow_shape::shape;
use std::alloc::Global;
use verifier::{AbstractState, VerifyFault, known_states};

/// What an address is that does not point into a window, and where that comes from.
fn address_reason(
    alloc: Global,
    before: &[Insn],
    states: &[Option<AbstractState>],
    state: &AbstractState,
    insn: Insn,
) -> Result<String, NoMemory>
    requires units { unit_count before.now ≤ PROGRAM_UNITS }
    ensures { IfOk result (λ text. string_bytes text
        ≡ address_reason before.now states.now state.now (touch_of insn)) }
{
    let mut text = String::new(alloc);
    let Some(touch) = Touch::of(insn) else {
        return Ok(text);
    };
    let value = state.registers()[touch.register];
    write_register(alloc, &mut text, before, states, touch.register, value)?;
    Ok(text)
}

/// Which register is read that was perhaps not written, and where it is written.
fn unwritten_reason(
    alloc: Global,
    before: &[Insn],
    states: &[Option<AbstractState>],
    state: &AbstractState,
    insn: Insn,
) -> Result<String, NoMemory>
    requires units { unit_count before.now ≤ PROGRAM_UNITS }
    ensures { IfOk result (λ text. string_bytes text
        ≡ unwritten_reason before.now states.now state.now (unwritten_register insn state.now 11)) }
{
    let mut text = String::new(alloc);
    let Some(register) = unwritten_read(&insn, state) else {
        return Ok(text);
    };
    let value = state.registers()[register];
    write_register(alloc, &mut text, before, states, register, value)?;
    Ok(text)
}

/// What is known of the answer's length, and how many of the result's first bytes were written.
fn exit_reason(alloc: Global, state: &AbstractState) -> Result<String, NoMemory>
    ensures { IfOk result (λ text. IsExitReason state.now (string_bytes text)) }
{
    let written = state.frame().written_prefix();
    let mut text = String::new(alloc);
    text.push_str(": r0 is ")?;
    write_value(&mut text, state.registers()[0])?;
    text.push_str(", with ")?;
    write_count(&mut text, usize::from(written))?;
    text.push_str(" of the result written")?;
    Ok(text)
}

/// Where a load or store may lie.
fn access_reason(
    alloc: Global,
    sizes: Sizes,
    state: &AbstractState,
    insn: Insn,
) -> Result<String, NoMemory>
    ensures { IfOk result (λ text.
        string_bytes text ≡ access_reason sizes state.now (touch_of insn)) }
{
    let mut text = String::new(alloc);
    let Some(touch) = Touch::of(insn) else {
        return Ok(text);
    };
    let value = state.registers()[touch.register];
    write_access(&mut text, sizes, value, touch.offset, touch.size)?;
    Ok(text)
}

/// Into which window a store goes.
fn store_reason(alloc: Global, state: &AbstractState, insn: Insn) -> Result<String, NoMemory>
    ensures { IfOk result (λ text. string_bytes text ≡ store_reason state.now (touch_of insn)) }
{
    let mut text = String::new(alloc);
    let Some(touch) = Touch::of(insn) else {
        return Ok(text);
    };
    let value = state.registers()[touch.register];
    write_read_only(&mut text, touch.register, value)?;
    Ok(text)
}

/// Which bytes a load reads.
fn load_reason(alloc: Global, state: &AbstractState, insn: Insn) -> Result<String, NoMemory>
    ensures { IfOk result (λ text. string_bytes text ≡ load_reason state.now (touch_of insn)) }
{
    let mut text = String::new(alloc);
    let Some(touch) = Touch::of(insn) else {
        return Ok(text);
    };
    let value = state.registers()[touch.register];
    write_unread(&mut text, state.frame(), value, touch.offset, touch.size)?;
    Ok(text)
}

/// What these states know of the refused instruction, which comes after these instructions.
fn reason_after(
    alloc: Global,
    before: &[Insn],
    states: &[Option<AbstractState>],
    sizes: Sizes,
    fault: VerifyFault,
    insn: Insn,
) -> Result<String, NoMemory>
    requires units { unit_count before.now ≤ PROGRAM_UNITS }
    ensures { IfOk result (λ text. (string_bytes text ≡ [])
        ⊎ IsReasonAfter before.now states.now sizes fault insn (string_bytes text)) }
{
    let Some(Some(state)) = states.get(before.len()) else {
        return Ok(String::new(alloc));
    };
    match fault {
        VerifyFault::UnwrittenRegister(_) => unwritten_reason(alloc, before, states, state, insn),
        VerifyFault::NotAWindow(_) => address_reason(alloc, before, states, state, insn),
        VerifyFault::OutOfWindow(_) => access_reason(alloc, sizes, state, insn),
        VerifyFault::ReadOnly(_) => store_reason(alloc, state, insn),
        VerifyFault::UnwrittenBytes(_) => load_reason(alloc, state, insn),
        VerifyFault::BadExitValue(_) => exit_reason(alloc, state),
        _ => Ok(String::new(alloc)),
    }
}

/// The index of the instruction that starts at this unit.
fn index_at(program: &[Insn], unit: usize) -> Option<usize>
    ensures unit { IfSome result (λ index. unit_count (take index program.now) ≡ unit) }
    ensures inside { IfSome result (λ index. index ≤ length program.now) }
{
    let mut left = unit;
    for (index, insn) in program.iter().enumerate() {
        if left == 0 {
            return Some(index);
        }
        if left < insn.units() {
            return None;
        }
        left -= insn.units();
    }
    None
}

/// What these states know of the refused instruction of the program.
fn reason_in(
    alloc: Global,
    program: &[Insn],
    states: &[Option<AbstractState>],
    sizes: Sizes,
    fault: VerifyFault,
    insn: Insn,
) -> Result<String, NoMemory>
    requires program { IsProgram program.now }
    requires known { KnowsRuns program.now states.now sizes }
    ensures { IfOk result (λ text.
        IsKnownReason program.now sizes fault insn (string_bytes text)) }
{
    let Some(index) = index_at(program, fault.unit()) else {
        return Ok(String::new(alloc));
    };
    reason_after(alloc, &program[..index], states, sizes, fault, insn)
}

/// Tells whether something is told of this refusal.
fn is_told(fault: VerifyFault) -> bool
    ensures { result ≡ is_told fault }
{
    matches!(
        fault,
        VerifyFault::UnwrittenRegister(_)
            | VerifyFault::NotAWindow(_)
            | VerifyFault::OutOfWindow(_)
            | VerifyFault::ReadOnly(_)
            | VerifyFault::UnwrittenBytes(_)
            | VerifyFault::BadExitValue(_)
    )
}

/// What the verifier knew when it refused this instruction of the program, for 40 and 42 to 46; empty for another refusal. It walks
/// over the program once more for it.
pub fn known_reason(
    alloc: Global,
    program: Program,
    sizes: Sizes,
    fault: VerifyFault,
    insn: Insn,
) -> Result<String, NoMemory>
    ensures { IfOk result (λ text. IsKnownReason program sizes fault insn (string_bytes text)) }
{
    if !is_told(fault) || !sizes.are_within_limits() {
        return Ok(String::new(alloc));
    }
    let Ok(shaped) = shape(program) else {
        return Ok(String::new(alloc));
    };
    let states = known_states(alloc, &shaped, sizes)?;
    let program = shaped.program().instructions();
    reason_in(alloc, program, &states, sizes, fault, insn)
}
