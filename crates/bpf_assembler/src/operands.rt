//! The operands of each instruction.
ghost use Rattle.std.specs.Prelude.{◌≡◌, ◌++◌, codes, IfOk};
ghost use Rattle.bpf_model.specs.Spelling.{IsRegister, IsInstruction};
ghost use Rattle.bpf_assembler.specs.declared.mnemonic.Mnemonic.TheVariants.{Alu, Negate, Mov, SignExtend, Reorder, Wide, Load, Store, StoreImmediate, Jump, JumpLong, Branch};
ghost use Rattle.bpf_assembler.specs.Text.{register_text, mnemonic_of, operands_of};
ghost use Rattle.bpf_assembler.specs.Operands.{Gives, TakesText, dst_at};
ghost use Rattle.bpf_assembler.specs.Reading.{TakesOperands, operands_at};

use crate::cursor::Cursor;
use crate::fault::LineFault;
use crate::mnemonic::Mnemonic;
use bpf_model::{
    AccessSize, AluOp, ByteOrder, Insn, JumpOp, LoadKind, Operand, Reg, SignExtension, SwapWidth,
    Width,
};

impl<'a> Cursor<'a> {
    #[tactic(auto, unfolding(crate::specs::Operands::dst_at))]
    fn dst(&mut self) -> Result<Reg, LineFault>
        ensures exact { Gives self.new.rest.now result (dst_at self.old.rest.now) }
        ensures found { TakesText (λ r. codes " " ++ register_text r) IsRegister
            self.old.rest.now self.new.rest.now result }
    {
        self.byte(b' ')?;
        self.register()
    }

    #[tactic(auto, unfolding(crate::specs::Reading::operands_at, crate::specs::Text::operands_of))]
    fn alu(&mut self, op: AluOp, width: Width) -> Result<Insn, LineFault>
        ensures exact { Gives self.new.rest.now result
            (operands_at (Alu op width) self.old.rest.now) }
        ensures found { TakesOperands (Alu op width) self.old.rest.now self.new.rest.now result }
    {
        let dst = self.dst()?;
        self.comma()?;
        let src = self.operand()?;
        Ok(Insn::Alu {
            op,
            width,
            dst,
            src,
        })
    }

    #[tactic(auto, unfolding(crate::specs::Reading::operands_at, crate::specs::Text::operands_of))]
    fn negate(&mut self, width: Width) -> Result<Insn, LineFault>
        ensures exact { Gives self.new.rest.now result
            (operands_at (Negate width) self.old.rest.now) }
        ensures found { TakesOperands (Negate width) self.old.rest.now self.new.rest.now result }
    {
        let dst = self.dst()?;
        Ok(Insn::Negate { width, dst })
    }

    #[tactic(auto, unfolding(crate::specs::Reading::operands_at, crate::specs::Text::operands_of))]
    fn mov(&mut self, width: Width) -> Result<Insn, LineFault>
        ensures exact { Gives self.new.rest.now result (operands_at (Mov width) self.old.rest.now) }
        ensures found { TakesOperands (Mov width) self.old.rest.now self.new.rest.now result }
    {
        let dst = self.dst()?;
        self.comma()?;
        let src = self.operand()?;
        Ok(Insn::Mov { width, dst, src })
    }

    #[tactic(auto, unfolding(crate::specs::Reading::operands_at, crate::specs::Text::operands_of))]
    fn sign_extend(&mut self, extension: SignExtension) -> Result<Insn, LineFault>
        ensures exact { Gives self.new.rest.now result
            (operands_at (SignExtend extension) self.old.rest.now) }
        ensures found { TakesOperands (SignExtend extension)
            self.old.rest.now self.new.rest.now result }
    {
        let dst = self.dst()?;
        self.comma()?;
        let src = self.register()?;
        Ok(Insn::SignExtend {
            extension,
            dst,
            src,
        })
    }

    #[tactic(auto, unfolding(crate::specs::Reading::operands_at, crate::specs::Text::operands_of))]
    fn reorder(&mut self, order: ByteOrder, size: SwapWidth) -> Result<Insn, LineFault>
        ensures exact { Gives self.new.rest.now result
            (operands_at (Reorder order size) self.old.rest.now) }
        ensures found { TakesOperands (Reorder order size)
            self.old.rest.now self.new.rest.now result }
    {
        let dst = self.dst()?;
        Ok(Insn::Reorder { order, size, dst })
    }

    #[tactic(auto, unfolding(crate::specs::Reading::operands_at, crate::specs::Text::operands_of))]
    fn wide(&mut self) -> Result<Insn, LineFault>
        ensures exact { Gives self.new.rest.now result (operands_at Wide self.old.rest.now) }
        ensures found { TakesOperands Wide self.old.rest.now self.new.rest.now result }
    {
        let dst = self.dst()?;
        self.comma()?;
        let value = self.number(u64::MAX)?;
        Ok(Insn::Wide { dst, value })
    }

    #[tactic(auto, unfolding(crate::specs::Reading::operands_at, crate::specs::Text::operands_of))]
    fn load(&mut self, kind: LoadKind) -> Result<Insn, LineFault>
        ensures exact { Gives self.new.rest.now result (operands_at (Load kind) self.old.rest.now) }
        ensures found { TakesOperands (Load kind) self.old.rest.now self.new.rest.now result }
    {
        let dst = self.dst()?;
        self.comma()?;
        let src = self.base()?;
        let offset = self.displacement()?;
        Ok(Insn::Load {
            kind,
            dst,
            src,
            offset,
        })
    }

    #[tactic(auto, unfolding(crate::specs::Reading::operands_at, crate::specs::Text::operands_of))]
    fn store(&mut self, size: AccessSize) -> Result<Insn, LineFault>
        ensures exact { Gives self.new.rest.now result
            (operands_at (Store size) self.old.rest.now) }
        ensures found { TakesOperands (Store size) self.old.rest.now self.new.rest.now result }
    {
        self.byte(b' ')?;
        let dst = self.base()?;
        let offset = self.displacement()?;
        self.comma()?;
        let src = self.register()?;
        Ok(Insn::Store {
            size,
            dst,
            src: Operand::Register(src),
            offset,
        })
    }

    #[tactic(auto, unfolding(crate::specs::Reading::operands_at, crate::specs::Text::operands_of))]
    fn store_immediate(&mut self, size: AccessSize) -> Result<Insn, LineFault>
        ensures exact { Gives self.new.rest.now result
            (operands_at (StoreImmediate size) self.old.rest.now) }
        ensures found { TakesOperands (StoreImmediate size)
            self.old.rest.now self.new.rest.now result }
    {
        self.byte(b' ')?;
        let dst = self.base()?;
        let offset = self.displacement()?;
        self.comma()?;
        let imm = self.immediate()?;
        Ok(Insn::Store {
            size,
            dst,
            src: Operand::Immediate(imm),
            offset,
        })
    }

    #[tactic(auto, unfolding(crate::specs::Reading::operands_at, crate::specs::Text::operands_of))]
    fn jump(&mut self) -> Result<Insn, LineFault>
        ensures exact { Gives self.new.rest.now result (operands_at Jump self.old.rest.now) }
        ensures found { TakesOperands Jump self.old.rest.now self.new.rest.now result }
    {
        self.byte(b' ')?;
        let distance = self.offset()?;
        Ok(Insn::Jump { distance })
    }

    #[tactic(auto, unfolding(crate::specs::Reading::operands_at, crate::specs::Text::operands_of))]
    fn jump_long(&mut self) -> Result<Insn, LineFault>
        ensures exact { Gives self.new.rest.now result (operands_at JumpLong self.old.rest.now) }
        ensures found { TakesOperands JumpLong self.old.rest.now self.new.rest.now result }
    {
        self.byte(b' ')?;
        let distance = self.distance()?;
        Ok(Insn::JumpLong { distance })
    }

    #[tactic(auto, unfolding(crate::specs::Reading::operands_at, crate::specs::Text::operands_of))]
    fn branch(&mut self, test: JumpOp, width: Width) -> Result<Insn, LineFault>
        ensures exact { Gives self.new.rest.now result
            (operands_at (Branch test width) self.old.rest.now) }
        ensures found { TakesOperands (Branch test width)
            self.old.rest.now self.new.rest.now result }
    {
        let dst = self.dst()?;
        self.comma()?;
        let src = self.operand()?;
        self.comma()?;
        let distance = self.offset()?;
        Ok(Insn::Branch {
            test,
            width,
            dst,
            src,
            distance,
        })
    }

    /// Takes the operands of an instruction of this name, with the blank before them.
    #[tactic(auto, unfolding(crate::specs::Reading::operands_at, crate::specs::Text::operands_of))]
    pub(crate) fn operands(&mut self, mnemonic: Mnemonic) -> Result<Insn, LineFault>
        ensures exact { Gives self.new.rest.now result (operands_at mnemonic self.old.rest.now) }
        ensures found { TakesOperands mnemonic self.old.rest.now self.new.rest.now result }
    {
        match mnemonic {
            Mnemonic::Alu(op, width) => self.alu(op, width),
            Mnemonic::Negate(width) => self.negate(width),
            Mnemonic::Mov(width) => self.mov(width),
            Mnemonic::SignExtend(extension) => self.sign_extend(extension),
            Mnemonic::Reorder(order, size) => self.reorder(order, size),
            Mnemonic::Wide => self.wide(),
            Mnemonic::Load(kind) => self.load(kind),
            Mnemonic::Store(size) => self.store(size),
            Mnemonic::StoreImmediate(size) => self.store_immediate(size),
            Mnemonic::Jump => self.jump(),
            Mnemonic::JumpLong => self.jump_long(),
            Mnemonic::Branch(test, width) => self.branch(test, width),
            Mnemonic::Exit => Ok(Insn::Exit),
        }
    }
}
