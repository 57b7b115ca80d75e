//! A program's text, with what the verifier knows beside each instruction.
ghost use Rattle.std.specs.Prelude.{◌≡◌, ◌<◌, ◌++◌, IfOk, OnOk, length, option_map, string_bytes};
ghost use Rattle.bpf_model.specs.Fits.{AreWithinLimits};
ghost use Rattle.bpf_model.specs.Program.{IsProgram};
ghost use Rattle.explanations.specs.Listings.{told_register, registers_below, state_text, known_text, line_text, values_after, lines_below};

use crate::known::{is_same, write_bytes, write_value};
use bpf_assembler::instruction_text;
use bpf_model::limits::STACK_BYTES;
use bpf_model::{Insn, NoMemory, Sizes, Window};
use stack_slots::RegValue;
use std::alloc::{AllocError, Global};
use std::fmt::Write;
use verifier::AbstractState;

/// What is known of each register, by its number.
type Values = [RegValue; 11];

/// Writes what is known of a register, unless it is what was known before.
fn write_register(
    text: &mut String,
    before: &Values,
    values: &Values,
    register: usize,
) -> Result<(), AllocError>
    requires { register < 11 }
    ensures { OnOk result (string_bytes text.new
        ≡ string_bytes text.old ++ told_register before.now values.now register) }
{
    let value = values[register];
    if is_same(before[register], value) {
        return Ok(());
    }
    write!(text, "; r{register} is ")?;
    write_value(text, value)
}

/// Writes what is known of each register of which something else was known before.
fn write_registers(text: &mut String, before: &Values, values: &Values) -> Result<(), AllocError>
    ensures { OnOk result (string_bytes text.new
        ≡ string_bytes text.old ++ registers_below before.now values.now 11) }
{
    for register in 0..11 {
        write_register(text, before, values, register)?;
    }
    Ok(())
}

/// Writes what is known at an instruction: registers, bytes of the result, bytes of the stack.
fn write_state(
    text: &mut String,
    sizes: Sizes,
    before: &Values,
    state: &AbstractState,
) -> Result<(), AllocError>
    requires limits { AreWithinLimits sizes }
    ensures { OnOk result (string_bytes text.new
        ≡ string_bytes text.old ++ state_text sizes before.now state.now) }
{
    write_registers(text, before, state.registers())?;
    write_bytes(
        text,
        state.frame(),
        Window::Result,
        usize::from(sizes.result),
    )?;
    write_bytes(text, state.frame(), Window::Stack, STACK_BYTES)
}

/// Writes what is known at an instruction, or that no run comes there. Writes nothing if the verifier did not come
/// there.
fn write_known(
    text: &mut String,
    sizes: Sizes,
    before: &Values,
    known: Option<&Option<AbstractState>>,
) -> Result<(), AllocError>
    requires limits { AreWithinLimits sizes }
    ensures { OnOk result (string_bytes text.new
        ≡ string_bytes text.old ++ known_text sizes before.now (option_map (λ k. k.now) known.entry)) }
{
    match known {
        Some(Some(state)) => write_state(text, sizes, before, state),
        Some(None) => text.push_str("; no run comes here"),
        None => Ok(()),
    }
}

/// Writes the instruction's unit, its text and what is known there, as one line.
fn write_line(
    text: &mut String,
    unit: usize,
    instruction: &str,
    sizes: Sizes,
    before: &Values,
    known: Option<&Option<AbstractState>>,
) -> Result<(), AllocError>
    requires limits { AreWithinLimits sizes }
    ensures { OnOk result (string_bytes text.new ≡ string_bytes text.old
        ++ line_text unit instruction.now sizes before.now (option_map (λ k. k.now) known.entry)) }
{
    write!(text, "{unit}: {instruction}")?;
    write_known(text, sizes, before, known)?;
    text.push_str("\n")
}

/// Returns what is known of the registers here, or what was known before if nothing is.
fn values_after(before: Values, known: Option<&Option<AbstractState>>) -> Values
    ensures { result ≡ values_after before (option_map (λ k. k.now) known.entry) }
{
    match known {
        Some(Some(state)) => *state.registers(),
        _ => before,
    }
}

/// The lines of a program's instructions, of the first of which this is known.
pub fn explanation(
    alloc: Global,
    program: &[Insn],
    states: &[Option<AbstractState>],
    sizes: Sizes,
) -> Result<String, NoMemory>
    requires program { IsProgram program.now }
    requires limits { AreWithinLimits sizes }
    ensures { IfOk result (λ text. string_bytes text
        ≡ lines_below program.now states.now sizes (length program.now)) }
{
    let mut text = String::new(alloc);
    let mut values = [RegValue::Unwritten; 11];
    let mut unit = 0;
    for (index, insn) in program.iter().enumerate() {
        let known = states.get(index);
        let instruction = instruction_text(alloc, insn)?;
        write_line(&mut text, unit, &instruction, sizes, &values, known)?;
        values = values_after(values, known);
        unit += insn.units();
    }
    Ok(text)
}
