//! Text from programs.
ghost use Rattle.std.specs.Prelude.{◌≡◌, ◌≤◌, ◌++◌, codes, IfOk, OnOk, string_bytes};
ghost use Rattle.bpf_model.specs.Spelling.{IsRegister, IsOperand, IsInstruction};
ghost use Rattle.bpf_assembler.specs.Names.{name_of};
ghost use Rattle.bpf_assembler.specs.Text.{register_text, operand, offset, address_text, mnemonic_of, operands_of, instruction_text, line_of, text_of, IsTextOf};

use crate::mnemonic::Mnemonic;
use crate::tables::Named;
use bpf_model::{Insn, NoMemory, Operand, Program, Reg};
use std::alloc::{AllocError, Global};
use std::fmt::Write;

#[tactic(auto, unfolding(crate::specs::Names::name_of))]
fn write_name(text: &mut String, mnemonic: Mnemonic) -> Result<(), AllocError>
    ensures { OnOk result (string_bytes text.new ≡ string_bytes text.old ++ name_of mnemonic) }
{
    write!(text, "{}{}", mnemonic.stem().word(), mnemonic.suffix())
}

fn write_operand(text: &mut String, src: Operand) -> Result<(), AllocError>
    ensures text { OnOk result (string_bytes text.new ≡ string_bytes text.old ++ operand src) }
    ensures fits { OnOk result (IsOperand src) }
{
    match src {
        Operand::Register(r) => write!(text, "r{}", r.number()),
        Operand::Immediate(imm) => write!(text, "{imm}"),
    }
}

#[tactic(auto, using(crate::proofs::SignLemmas::styled_with_sign))]
fn write_signed(text: &mut String, number: i32) -> Result<(), AllocError>
    ensures { OnOk result (string_bytes text.new ≡ string_bytes text.old ++ offset number) }
{
    write!(text, "{number:+}")
}

fn write_place(text: &mut String, base: Reg, displacement: i16) -> Result<(), AllocError>
    ensures text { OnOk result
        (string_bytes text.new ≡ string_bytes text.old ++ address_text base displacement) }
    ensures fits { OnOk result (IsRegister base) }
{
    write!(text, "[r{}", base.number())?;
    write_signed(text, i32::from(displacement))?;
    text.push_str("]")
}

fn write_pair(text: &mut String, dst: Reg, src: Operand) -> Result<(), AllocError>
    ensures text { OnOk result (string_bytes text.new
        ≡ string_bytes text.old ++ codes " " ++ register_text dst ++ codes ", " ++ operand src) }
    ensures fits { OnOk result (IsRegister dst × IsOperand src) }
{
    write!(text, " r{}, ", dst.number())?;
    write_operand(text, src)
}

fn write_jump(text: &mut String, distance: i32) -> Result<(), AllocError>
    ensures { OnOk result
        (string_bytes text.new ≡ string_bytes text.old ++ codes " " ++ offset distance) }
{
    text.push_str(" ")?;
    write_signed(text, distance)
}

fn write_store(
    text: &mut String,
    base: Reg,
    displacement: i16,
    src: Operand,
) -> Result<(), AllocError>
    ensures text { OnOk result (string_bytes text.new
        ≡ string_bytes text.old ++ codes " " ++ address_text base displacement ++ codes ", " ++ operand src) }
    ensures fits { OnOk result (IsRegister base × IsOperand src) }
{
    text.push_str(" ")?;
    write_place(text, base, displacement)?;
    text.push_str(", ")?;
    write_operand(text, src)
}

#[tactic(auto, unfolding(crate::specs::Text::operands_of))]
fn write_operands(text: &mut String, insn: Insn) -> Result<(), AllocError>
    ensures text { OnOk result (string_bytes text.new ≡ string_bytes text.old ++ operands_of insn) }
    ensures fits { OnOk result (IsInstruction insn) }
{
    match insn {
        Insn::Alu { dst, src, .. } | Insn::Mov { dst, src, .. } => write_pair(text, dst, src),
        Insn::Negate { dst, .. } | Insn::Reorder { dst, .. } => write!(text, " r{}", dst.number()),
        Insn::SignExtend { dst, src, .. } => write_pair(text, dst, Operand::Register(src)),
        Insn::Wide { dst, value } => write!(text, " r{}, {value}", dst.number()),
        Insn::Load {
            dst,
            src,
            offset,
            ..
        } => {
            write!(text, " r{}, ", dst.number())?;
            write_place(text, src, offset)
        }
        Insn::Store {
            dst,
            src,
            offset,
            ..
        } => write_store(text, dst, offset, src),
        Insn::Jump { distance } => write_jump(text, i32::from(distance)),
        Insn::JumpLong { distance } => write_jump(text, distance),
        Insn::Branch {
            dst,
            src,
            distance,
            ..
        } => {
            write_pair(text, dst, src)?;
            text.push_str(", ")?;
            write_signed(text, i32::from(distance))
        }
        Insn::Exit => Ok(()),
    }
}

#[tactic(auto, unfolding(crate::specs::Text::line_of))]
fn write_line(text: &mut String, insn: &Insn) -> Result<(), AllocError>
    ensures text { OnOk result (string_bytes text.new ≡ string_bytes text.old ++ line_of insn.now) }
    ensures fits { OnOk result (IsInstruction insn.now) }
{
    write_name(text, Mnemonic::of(*insn))?;
    write_operands(text, *insn)?;
    text.push_str("\n")
}

/// Returns the canonical text of one instruction: its line without the newline. Asks for memory only for the text.
pub fn instruction_text(alloc: Global, insn: &Insn) -> Result<String, NoMemory>
    ensures text { IfOk result (λ text. string_bytes text ≡ instruction_text insn.now) }
{
    let mut text = String::new(alloc);
    write_name(&mut text, Mnemonic::of(*insn))?;
    write_operands(&mut text, *insn)?;
    Ok(text)
}

/// Returns the canonical text of a program; `assemble` reads it back. Asks for memory only for the text.
#[tactic(auto, unfolding(crate::specs::Text::text_of))]
pub fn disassemble(alloc: Global, program: &Program) -> Result<String, NoMemory>
    ensures text { IfOk result (λ text. IsTextOf (string_bytes text) program.now) }
{
    let mut text = String::new(alloc);
    for insn in program.instructions() {
        write_line(&mut text, insn)?;
    }
    Ok(text)
}
