//! Lines of a text.
ghost use Rattle.std.specs.Prelude.{◌≡◌, ◌++◌, codes, IfOk, OnOk};
ghost use Rattle.bpf_model.specs.Spelling.{IsRegister, IsOffset, IsOperand, IsInstruction};
ghost use Rattle.bpf_assembler.specs.Names.{name_of};
ghost use Rattle.bpf_assembler.specs.Text.{register_text, operand, offset, mnemonic_of, operands_of, line_of};
ghost use Rattle.bpf_assembler.specs.Operands.{Gives, TakesText, comma_at, operand_at, base_at, displacement_at};
ghost use Rattle.bpf_assembler.specs.Reading.{operands_at, name_at, line_at};

use crate::cursor::Cursor;
use crate::fault::LineFault;
use crate::mnemonic::Mnemonic;
use bpf_model::{Insn, Operand, Reg};

impl<'a> Cursor<'a> {
    /// Takes a comma and a blank.
    #[tactic(auto, unfolding(crate::specs::Operands::comma_at))]
    pub(crate) fn comma(&mut self) -> Result<(), LineFault>
        ensures exact { Gives self.new.rest.now result (comma_at self.old.rest.now) }
        ensures found { OnOk result (self.old.rest.now ≡ codes ", " ++ self.new.rest.now) }
    {
        self.byte(b',')?;
        self.byte(b' ')
    }

    /// Takes a register or an immediate.
    #[tactic(auto, unfolding(crate::specs::Operands::operand_at))]
    pub(crate) fn operand(&mut self) -> Result<Operand, LineFault>
        ensures exact { Gives self.new.rest.now result (operand_at self.old.rest.now) }
        ensures found { TakesText operand IsOperand self.old.rest.now self.new.rest.now result }
    {
        if self.begins_with(b'r') {
            let register = self.register()?;
            Ok(Operand::Register(register))
        } else {
            let imm = self.immediate()?;
            Ok(Operand::Immediate(imm))
        }
    }

    /// Takes the start of a place in memory: a bracket and a register.
    #[tactic(auto, unfolding(crate::specs::Operands::base_at))]
    pub(crate) fn base(&mut self) -> Result<Reg, LineFault>
        ensures exact { Gives self.new.rest.now result (base_at self.old.rest.now) }
        ensures found { TakesText (λ r. codes "[" ++ register_text r) IsRegister
            self.old.rest.now self.new.rest.now result }
    {
        self.byte(b'[')?;
        self.register()
    }

    /// Takes the end of a place in memory: an offset and a bracket.
    #[tactic(auto, unfolding(crate::specs::Operands::displacement_at))]
    pub(crate) fn displacement(&mut self) -> Result<i16, LineFault>
        ensures exact { Gives self.new.rest.now result (displacement_at self.old.rest.now) }
        ensures found { TakesText (λ z. offset z ++ codes "]") IsOffset
            self.old.rest.now self.new.rest.now result }
    {
        let offset = self.offset()?;
        self.byte(b']')?;
        Ok(offset)
    }

    /// Takes the instruction's name.
    #[tactic(auto, unfolding(crate::specs::Reading::name_at))]
    fn mnemonic(&mut self) -> Result<Mnemonic, LineFault>
        ensures exact { Gives self.new.rest.now result (name_at self.old.rest.now) }
        ensures found { IfOk result (λ m. self.old.rest.now ≡ name_of m ++ self.new.rest.now) }
    {
        match Mnemonic::from_name(self.name()) {
            Some(mnemonic) => Ok(mnemonic),
            None => Err(LineFault::UnknownName),
        }
    }

    /// Takes a line with its newline.
    #[tactic(auto, unfolding(crate::specs::Reading::line_at, crate::specs::Text::line_of))]
    pub(crate) fn line(&mut self) -> Result<Insn, LineFault>
        ensures exact { Gives self.new.rest.now result (line_at self.old.rest.now) }
        ensures found { TakesText line_of IsInstruction self.old.rest.now self.new.rest.now result }
    {
        let mnemonic = self.mnemonic()?;
        let insn = self.operands(mnemonic)?;
        self.newline()?;
        Ok(insn)
    }
}
