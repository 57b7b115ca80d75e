//! Abstract states: the facts that hold of every state that a run brings to a unit, and how an instruction changes
//! them.
ghost use Rattle.std.specs.Prelude.{◌≡◌, true, Ok, OnOk};
ghost use Rattle.bpf_model.specs.declared.input.Sizes.{Sizes as DeclaredSizes};
ghost use Rattle.bpf_model.specs.declared.instruction.Insn.TheVariants.{Alu, Negate, Mov, SignExtend, Reorder};
ghost use Rattle.bpf_model.specs.Fits.{AreWithinLimits};
ghost use Rattle.verifier.specs.Describes.{Leads, goes_straight};
ghost use Rattle.verifier.specs.Changes.{Changes, Suffices};
ghost use Rattle.verifier.specs.Windows.{LiesIn, window_of};

mod accesses;
mod branches;
mod entry;
mod kept;
mod registers;
mod span;

use crate::arithmetic::{moved, operate};
use crate::fault::StepFault;
use bpf_model::{AluOp, ByteOrder, Insn, Operand, Reg, SignExtension, Sizes, SwapWidth, Width};
pub use branches::{Operands, Side};
pub use kept::KeptState;
pub(crate) use kept::shared;
use stack_slots::{Frame, RegValue};
use value_ranges::{Range, negate, reorder, sign_extend};

/// An abstract state: a value for each register, and the frame with the bytes of stack and result.
#[derive(Debug, Drop)]
pub struct AbstractState {
    registers: [RegValue; 11],
    frame: Frame,
}

impl AbstractState {
    /// Returns the value of each register, by its number.
    pub fn registers(&self) -> &[RegValue; 11]
        ensures value { result.now ≡ self.now.registers }
    {
        &self.registers
    }

    /// Returns the frame: the known facts about the bytes of stack and result.
    pub fn frame(&self) -> &Frame
        ensures value { result.now ≡ self.now.frame }
    {
        &self.frame
    }

    /// Returns a copy of the state. Takes no memory.
    pub(crate) fn copied(&self) -> AbstractState
        ensures value { result ≡ self.now }
    {
        AbstractState {
            registers: self.registers,
            frame: self.frame.copied(),
        }
    }

    /// Checks an instruction after which a run goes on at the next one, and becomes the state there. Faults are checked
    /// in the order of their numbers.
    pub(crate) fn step(&mut self, sizes: Sizes, insn: Insn) -> Result<(), StepFault>
        requires limits { AreWithinLimits sizes }
        requires straight { goes_straight insn ≡ true }
        ensures ok { OnOk result (Leads self.old sizes insn self.new) }
        ensures changes { OnOk result (Changes insn self.old self.new) }
        ensures accepts { Suffices sizes insn self.old → result ≡ Ok tt }
        ensures window { OnOk result (LiesIn sizes insn self.old (window_of insn self.old)) }
    {
        match insn {
            Insn::Alu {
                op,
                width,
                dst,
                src,
            } => self.arithmetic(op, width, dst, src),
            Insn::Negate { width, dst } => self.negate(width, dst),
            Insn::Mov { width, dst, src } => self.mov(width, dst, src),
            Insn::SignExtend {
                extension,
                dst,
                src,
            } => self.sign_extend(extension, dst, src),
            Insn::Reorder { order, size, dst } => self.reorder(order, size, dst),
            Insn::Wide { dst, value } => self.assign(dst, RegValue::Number(Range::single(value))),
            Insn::Load {
                kind,
                dst,
                src,
                offset,
            } => self.load(sizes, kind, dst, src, offset),
            Insn::Store {
                size,
                dst,
                src,
                offset,
            } => self.store(sizes, size, dst, src, offset),
            Insn::Jump { .. } | Insn::JumpLong { .. } | Insn::Branch { .. } | Insn::Exit =>
                unreachable!(),
        }
    }

    fn arithmetic(
        &mut self,
        op: AluOp,
        width: Width,
        dst: Reg,
        src: Operand,
    ) -> Result<(), StepFault>
        ensures ok { OnOk result ((sizes : DeclaredSizes)
            → Leads self.old sizes (Alu op width dst src) self.new) }
        ensures changes { OnOk result (Changes (Alu op width dst src) self.old self.new) }
        ensures accepts { (sizes : DeclaredSizes) → Suffices sizes (Alu op width dst src) self.old
            → result ≡ Ok tt }
    {
        let a = self.read(dst.number())?;
        let b = self.operand(src)?;
        self.assign(dst, operate(op, width, a, b))
    }

    fn negate(&mut self, width: Width, dst: Reg) -> Result<(), StepFault>
        ensures ok { OnOk result ((sizes : DeclaredSizes)
            → Leads self.old sizes (Negate width dst) self.new) }
        ensures changes { OnOk result (Changes (Negate width dst) self.old self.new) }
        ensures accepts { (sizes : DeclaredSizes) → Suffices sizes (Negate width dst) self.old
            → result ≡ Ok tt }
    {
        let number = self.read(dst.number())?.as_number();
        self.assign(dst, RegValue::Number(negate(width, number)))
    }

    fn mov(&mut self, width: Width, dst: Reg, src: Operand) -> Result<(), StepFault>
        ensures ok { OnOk result ((sizes : DeclaredSizes)
            → Leads self.old sizes (Mov width dst src) self.new) }
        ensures changes { OnOk result (Changes (Mov width dst src) self.old self.new) }
        ensures accepts { (sizes : DeclaredSizes) → Suffices sizes (Mov width dst src) self.old
            → result ≡ Ok tt }
    {
        let value = self.operand(src)?;
        self.assign(dst, moved(width, value))
    }

    fn sign_extend(&mut self, extension: SignExtension, dst: Reg, src: Reg) -> Result<(), StepFault>
        ensures ok { OnOk result ((sizes : DeclaredSizes)
            → Leads self.old sizes (SignExtend extension dst src) self.new) }
        ensures changes { OnOk result (Changes (SignExtend extension dst src) self.old self.new) }
        ensures accepts { (sizes : DeclaredSizes)
            → Suffices sizes (SignExtend extension dst src) self.old → result ≡ Ok tt }
    {
        let number = self.read(src.number())?.as_number();
        self.assign(dst, RegValue::Number(sign_extend(extension, number)))
    }

    fn reorder(&mut self, order: ByteOrder, size: SwapWidth, dst: Reg) -> Result<(), StepFault>
        ensures ok { OnOk result ((sizes : DeclaredSizes)
            → Leads self.old sizes (Reorder order size dst) self.new) }
        ensures changes { OnOk result (Changes (Reorder order size dst) self.old self.new) }
        ensures accepts { (sizes : DeclaredSizes)
            → Suffices sizes (Reorder order size dst) self.old → result ≡ Ok tt }
    {
        let number = self.read(dst.number())?.as_number();
        self.assign(dst, RegValue::Number(reorder(order, size, number)))
    }
}
