//! From which instructions a register has its value, in words.
ghost use Rattle.std.specs.Prelude.{◌≡◌, ◌<◌, ◌≤◌, ◌++◌, Some, IfSome, OnOk, length, option_map, string_bytes};
ghost use Rattle.bpf_model.specs.declared.limits.TheConstants.{PROGRAM_UNITS};
ghost use Rattle.bpf_model.specs.Program.{unit_count};
ghost use Rattle.verifier.specs.Instructions.{reads, written_by, operand_reads};
ghost use Rattle.explanations.specs.Origins.{was_text, writes, is_write, last_write, operand_text, operands_below, wrote_text, told_write, write_text, passes, told_pass, pass_text, passes_below, origin_text, origin_of, register_text, is_unwritten, reads_unwritten, unwritten_read};

use crate::known::{write_name, write_value};
use bpf_assembler::instruction_text;
use bpf_model::{Insn, NoMemory, Operand, Reg};
use flow_shape::distance;
use stack_slots::RegValue;
use std::alloc::{AllocError, Global};
use std::fmt::Write;
use verifier::AbstractState;

/// The units from the last write of a register to the instruction that reads it.
#[derive(Clone, Copy)]
pub struct Stretch {
    pub register: usize,
    pub written: usize,
    pub read: usize,
}

/// Writes what was known of a register.
fn write_was(text: &mut String, register: usize, value: RegValue) -> Result<(), AllocError>
    ensures { OnOk result
        (string_bytes text.new ≡ string_bytes text.old ++ was_text register value) }
{
    write!(text, "; r{register} was ")?;
    write_value(text, value)
}

/// Tells whether an operand is this register.
fn operand_reads(operand: &Operand, register: usize) -> bool
    ensures { result ≡ operand_reads operand.now register }
{
    match operand {
        Operand::Register(src) => usize::from(src.number()) == register,
        Operand::Immediate(_) => false,
    }
}

/// Tells whether the instruction reads the register.
fn reads(insn: &Insn, register: usize) -> bool
    ensures { result ≡ reads insn.now register }
{
    match insn {
        Insn::Alu { dst, src, .. } | Insn::Store { dst, src, .. } | Insn::Branch { dst, src, .. } =>
            { usize::from(dst.number()) == register || operand_reads(src, register) }
        Insn::Negate { dst, .. } | Insn::Reorder { dst, .. } => {
            usize::from(dst.number()) == register
        }
        Insn::Mov { src, .. } => operand_reads(src, register),
        Insn::SignExtend { src, .. } | Insn::Load { src, .. } => {
            usize::from(src.number()) == register
        }
        Insn::Exit => register == 0,
        Insn::Wide { .. } | Insn::Jump { .. } | Insn::JumpLong { .. } => false,
    }
}

/// The register that the instruction writes.
fn written_by(insn: &Insn) -> Option<Reg>
    ensures { result ≡ written_by insn.now }
{
    match insn {
        Insn::Alu { dst, .. }
        | Insn::Negate { dst, .. }
        | Insn::Mov { dst, .. }
        | Insn::SignExtend { dst, .. }
        | Insn::Reorder { dst, .. }
        | Insn::Wide { dst, .. }
        | Insn::Load { dst, .. } => Some(*dst),
        _ => None,
    }
}

/// Tells whether the instruction writes the register.
fn writes(insn: &Insn, register: usize) -> bool
    ensures { result ≡ writes insn.now register }
{
    match written_by(insn) {
        Some(dst) => usize::from(dst.number()) == register,
        None => false,
    }
}

/// Tells whether the instruction writes the register, and some run may come to it.
fn is_write(insn: Option<&Insn>, known: Option<&Option<AbstractState>>, register: usize) -> bool
    ensures { result ≡ is_write (option_map (λ i. i.now) insn.entry)
        (option_map (λ k. k.now) known.entry) register }
{
    match (insn, known) {
        (Some(insn), Some(Some(_))) => writes(insn, register),
        _ => false,
    }
}

/// The index of the last of these instructions that writes the register.
fn last_write(before: &[Insn], states: &[Option<AbstractState>], register: usize) -> Option<usize>
    ensures value { result ≡ last_write before.now states.now register (length before.now) }
    ensures inside { IfSome result (λ index. index < length before.now) }
{
    let mut last = None;
    for index in 0..before.len() {
        if is_write(before.get(index), states.get(index), register) {
            last = Some(index);
        }
    }
    last
}

/// Writes what was known of the register, if the instruction reads it.
fn write_operand(
    text: &mut String,
    insn: &Insn,
    state: &AbstractState,
    register: usize,
) -> Result<(), AllocError>
    requires { register < 11 }
    ensures { OnOk result (string_bytes text.new
        ≡ string_bytes text.old ++ operand_text insn.now state.now register) }
{
    if !reads(insn, register) {
        return Ok(());
    }
    write_was(text, register, state.registers()[register])
}

/// Writes what was known of each register that the instruction reads.
fn write_operands(text: &mut String, insn: &Insn, state: &AbstractState) -> Result<(), AllocError>
    ensures { OnOk result (string_bytes text.new
        ≡ string_bytes text.old ++ operands_below insn.now state.now 11) }
{
    for register in 0..11 {
        write_operand(text, insn, state, register)?;
    }
    Ok(())
}

/// Writes the unit of a write.
#[tactic(auto, unfolding(crate::specs::Origins::wrote_text))]
fn write_wrote(text: &mut String, unit: usize) -> Result<(), AllocError>
    ensures { OnOk result (string_bytes text.new ≡ string_bytes text.old ++ wrote_text unit) }
{
    write!(text, "; unit {unit} wrote it last: ")
}

/// Writes a write's unit, its text and what it read.
fn write_told_write(
    alloc: Global,
    text: &mut String,
    unit: usize,
    insn: &Insn,
    state: &AbstractState,
) -> Result<(), NoMemory>
    ensures { OnOk result (string_bytes text.new
        ≡ string_bytes text.old ++ told_write unit insn.now state.now) }
{
    let instruction = instruction_text(alloc, insn)?;
    write_wrote(text, unit)?;
    text.push_str(&instruction)?;
    write_operands(text, insn, state)?;
    Ok(())
}

/// Writes a write's unit, its text and what it read. Writes nothing if no run comes to it.
fn write_write(
    alloc: Global,
    text: &mut String,
    unit: usize,
    insn: Option<&Insn>,
    known: Option<&Option<AbstractState>>,
) -> Result<(), NoMemory>
    ensures { OnOk result (string_bytes text.new ≡ string_bytes text.old
        ++ write_text unit (option_map (λ i. i.now) insn.entry) (option_map (λ k. k.now) known.entry)) }
{
    match (insn, known) {
        (Some(insn), Some(Some(state))) => write_told_write(alloc, text, unit, insn, state),
        _ => Ok(()),
    }
}

/// Tells whether the instruction at a unit jumps from before the write to behind it, and no further than to the read.
fn passes(stretch: Stretch, unit: usize, insn: &Insn) -> bool
    requires inside { unit ≤ PROGRAM_UNITS }
    requires written { stretch.written ≤ PROGRAM_UNITS }
    requires read { stretch.read ≤ PROGRAM_UNITS }
    ensures { result ≡ passes stretch unit insn.now }
{
    let Some(distance) = distance(insn) else {
        return false;
    };
    let next = unit + 1;
    let target = next as i64 + i64::from(distance);
    unit < stretch.written && (stretch.written as i64) < target && target <= stretch.read as i64
}

/// Writes a jump past the write, with what was known of the register there. Writes nothing of another instruction.
fn write_told_pass(
    alloc: Global,
    text: &mut String,
    stretch: Stretch,
    unit: usize,
    insn: &Insn,
    state: &AbstractState,
) -> Result<(), NoMemory>
    requires register { stretch.register < 11 }
    requires inside { unit ≤ PROGRAM_UNITS }
    requires written { stretch.written ≤ PROGRAM_UNITS }
    requires read { stretch.read ≤ PROGRAM_UNITS }
    ensures { OnOk result (string_bytes text.new
        ≡ string_bytes text.old ++ told_pass stretch unit insn.now state.now) }
{
    if !passes(stretch, unit, insn) {
        return Ok(());
    }
    let instruction = instruction_text(alloc, insn)?;
    write!(text, "; unit {unit} jumps past that: {instruction}")?;
    write_was(text, stretch.register, state.registers()[stretch.register])?;
    Ok(())
}

/// Writes a jump past the write, if some run may come to it.
fn write_pass(
    alloc: Global,
    text: &mut String,
    stretch: Stretch,
    unit: usize,
    insn: &Insn,
    known: Option<&Option<AbstractState>>,
) -> Result<(), NoMemory>
    requires register { stretch.register < 11 }
    requires inside { unit ≤ PROGRAM_UNITS }
    requires written { stretch.written ≤ PROGRAM_UNITS }
    requires read { stretch.read ≤ PROGRAM_UNITS }
    ensures { OnOk result (string_bytes text.new ≡ string_bytes text.old
        ++ pass_text stretch unit insn.now (option_map (λ k. k.now) known.entry)) }
{
    match known {
        Some(Some(state)) => write_told_pass(alloc, text, stretch, unit, insn, state),
        _ => Ok(()),
    }
}

/// Writes each of these instructions that jumps past the write.
fn write_passes(
    alloc: Global,
    text: &mut String,
    before: &[Insn],
    states: &[Option<AbstractState>],
    stretch: Stretch,
) -> Result<(), NoMemory>
    requires register { stretch.register < 11 }
    requires units { unit_count before.now ≤ PROGRAM_UNITS }
    requires written { stretch.written ≤ PROGRAM_UNITS }
    requires read { stretch.read ≤ PROGRAM_UNITS }
    ensures { OnOk result (string_bytes text.new ≡ string_bytes text.old
        ++ passes_below before.now states.now stretch (length before.now)) }
{
    let mut unit = 0;
    for (index, insn) in before.iter().enumerate() {
        write_pass(alloc, text, stretch, unit, insn, states.get(index))?;
        unit += insn.units();
    }
    Ok(())
}

/// Writes the write at this index, and each jump past it.
fn write_origin_at(
    alloc: Global,
    text: &mut String,
    before: &[Insn],
    states: &[Option<AbstractState>],
    register: usize,
    index: usize,
) -> Result<(), NoMemory>
    requires register { register < 11 }
    requires units { unit_count before.now ≤ PROGRAM_UNITS }
    requires inside { index < length before.now }
    ensures { OnOk result (string_bytes text.new ≡ string_bytes text.old
        ++ origin_of before.now states.now register (Some index)) }
{
    let written = Insn::count_units(&before[..index]);
    write_write(alloc, text, written, before.get(index), states.get(index))?;
    let stretch = Stretch {
        register,
        written,
        read: Insn::count_units(before),
    };
    write_passes(alloc, text, before, states, stretch)
}

/// Writes where the register's value comes from, on each way through these instructions to the one after them.
#[tactic(auto, unfolding(crate::specs::Origins::origin_text))]
fn write_origin(
    alloc: Global,
    text: &mut String,
    before: &[Insn],
    states: &[Option<AbstractState>],
    register: usize,
) -> Result<(), NoMemory>
    requires register { register < 11 }
    requires units { unit_count before.now ≤ PROGRAM_UNITS }
    ensures { OnOk result (string_bytes text.new
        ≡ string_bytes text.old ++ origin_text before.now states.now register) }
{
    let Some(index) = last_write(before, states, register) else {
        text.push_str("; nothing above writes it")?;
        return Ok(());
    };
    write_origin_at(alloc, text, before, states, register, index)
}

/// Tells whether this is what is known of a register that was perhaps not written.
fn is_unwritten(value: RegValue) -> bool
    ensures { result ≡ is_unwritten value }
{
    matches!(value, RegValue::Unwritten)
}

/// Tells whether the instruction reads a register that was perhaps not written.
fn reads_unwritten(insn: &Insn, state: &AbstractState, register: usize) -> bool
    requires { register < 11 }
    ensures { result ≡ reads_unwritten insn.now state.now register }
{
    reads(insn, register) && is_unwritten(state.registers()[register])
}

/// A register that the instruction reads and that was perhaps not written, the last one.
pub fn unwritten_read(insn: &Insn, state: &AbstractState) -> Option<usize>
    ensures value { result ≡ unwritten_read insn.now state.now 11 }
    ensures inside { IfSome result (λ register. register < 11) }
{
    let mut last = None;
    for register in 0..11 {
        if reads_unwritten(insn, state, register) {
            last = Some(register);
        }
    }
    last
}

/// Writes what a register is, and where that comes from.
pub fn write_register(
    alloc: Global,
    text: &mut String,
    before: &[Insn],
    states: &[Option<AbstractState>],
    register: usize,
    value: RegValue,
) -> Result<(), NoMemory>
    requires register { register < 11 }
    requires units { unit_count before.now ≤ PROGRAM_UNITS }
    ensures { OnOk result (string_bytes text.new
        ≡ string_bytes text.old ++ register_text before.now states.now register value) }
{
    write_name(text, register)?;
    write_value(text, value)?;
    write_origin(alloc, text, before, states, register)
}
