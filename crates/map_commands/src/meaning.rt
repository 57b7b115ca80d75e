//! What a refusal means, in words: a line for standard error.
ghost use Rattle.std.specs.Prelude.{◌≡◌, Some, IfOk, string_bytes};
ghost use Rattle.bpf_model.specs.Program.{instruction_at};
ghost use Rattle.flow_shape.specs.FlowShape.{flow_fault_unit};
ghost use Rattle.map_commands.specs.Meanings.{refused_instruction, verdict, IsKnownText, TellsInstruction, TellsFlow, IsMeaning};

use crate::commands::program_of;
use crate::refusal::Refusal;
use crate::words::Command;
use admission::AdmissionFault;
use bpf_assembler::instruction_text;
use bpf_model::{Insn, NoMemory, Program, Sizes};
use explanations::known_reason;
use flow_shape::FlowFault;
use std::alloc::Global;
use verifier::VerifyFault;

/// The instruction that starts at this unit; none if it is the second of a wide one, or past the program.
fn instruction_at(program: &[Insn], unit: usize) -> Option<Insn>
    ensures { result ≡ instruction_at program.now unit }
{
    let mut left = unit;
    for insn in program {
        if left == 0 {
            return Some(*insn);
        }
        if left < insn.units() {
            return None;
        }
        left -= insn.units();
    }
    None
}

/// Returns the instruction that the verifier refuses; none if memory or the sizes are refused.
fn refused_instruction(program: &Program, fault: VerifyFault) -> Option<Insn>
    ensures { result ≡ refused_instruction program.now fault }
{
    instruction_at(program.instructions(), fault.faulty_unit()?)
}

/// Returns what the verifier knew at the refused instruction; nothing if the command asks for no sizes.
fn known_there(
    alloc: Global,
    program: Program,
    sizes: Option<Sizes>,
    fault: VerifyFault,
    insn: Insn,
) -> Result<String, NoMemory>
    ensures { IfOk result (λ known. IsKnownText program sizes fault insn (string_bytes known)) }
{
    match sizes {
        Some(sizes) => known_reason(alloc, program, sizes, fault, insn),
        None => Ok(String::new(alloc)),
    }
}

/// Returns the line of a refused instruction, with what is known there.
fn line_of(alloc: Global, fault: VerifyFault, insn: &Insn, known: &str) -> Result<String, NoMemory>
    ensures { IfOk result (λ line. string_bytes line ≡ verdict fault insn.now known.now) }
{
    let text = instruction_text(alloc, insn)?;
    let unit = fault.unit();
    Ok(format!(in alloc; "unit {unit}: {text}: {}{known}\n", fault.reason())?)
}

/// The line of a refused instruction. It may tell what the verifier knew there, for which it is run once more.
fn told_instruction(
    alloc: Global,
    program: Program,
    sizes: Option<Sizes>,
    fault: VerifyFault,
    insn: Insn,
) -> Result<String, NoMemory>
    ensures { IfOk result (λ line.
        TellsInstruction program sizes fault (Some insn) (string_bytes line)) }
{
    let known = known_there(alloc, program, sizes, fault, insn)?;
    let line = line_of(alloc, fault, &insn, &known)?;
    Ok(line)
}

/// Returns the line of a verifier's refusal.
fn verdict(
    alloc: Global,
    program: Program,
    sizes: Option<Sizes>,
    fault: VerifyFault,
) -> Result<String, NoMemory>
    ensures { IfOk result (λ line. TellsInstruction program sizes fault
        (refused_instruction program fault) (string_bytes line)) }
{
    match refused_instruction(&program, fault) {
        Some(insn) => told_instruction(alloc, program, sizes, fault, insn),
        None => Ok(format!(in alloc; "{fault}\n")?),
    }
}

/// Returns the line of a program whose flow is refused.
fn flow_verdict(alloc: Global, program: &Program, fault: FlowFault) -> Result<String, NoMemory>
    ensures { IfOk result (λ line. TellsFlow fault
        (instruction_at program.now (flow_fault_unit fault)) (string_bytes line)) }
{
    let Some(insn) = instruction_at(program.instructions(), fault.unit()) else {
        return Ok(format!(in alloc; "{fault}\n")?);
    };
    let text = instruction_text(alloc, &insn)?;
    Ok(format!(in alloc; "{fault}: {text}\n")?)
}

/// The line that tells a command's refusal of this text. A program whose flow was refused, or that the verifier refused, is
/// read once more for it, so that nothing is kept of programs that are accepted.
pub(crate) fn meaning_of(
    alloc: Global,
    command: &Command<'_>,
    text: &[u8],
    refusal: Refusal,
) -> Result<String, NoMemory>
    ensures { IfOk result (λ line. IsMeaning command.now text.now refusal (string_bytes line)) }
{
    match refusal {
        Refusal::Program(AdmissionFault::Verify(fault)) => {
            // The text spelled a program before, so memory alone can be wanting.
            let program = program_of(alloc, text).map_err(|_| NoMemory)?;
            verdict(alloc, program, command.sizes(), fault)
        }
        Refusal::Program(AdmissionFault::Flow(fault)) => {
            let program = program_of(alloc, text).map_err(|_| NoMemory)?;
            flow_verdict(alloc, &program, fault)
        }
        _ => Ok(format!(in alloc; "{refusal}\n")?),
    }
}
