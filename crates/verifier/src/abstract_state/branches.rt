//! The state on one side of a condition, and the state where two ways meet.
ghost use Rattle.std.specs.Prelude.{◌≡◌, ◌≢◌, ℕ, IsOk, IfOk, length, slice_index_or};
ghost use Rattle.bpf_model.specs.declared.instruction.Operand.TheVariants.{Register as TheRegister};
ghost use Rattle.stack_slots.specs.declared.reg_value.RegValue.TheVariants.{Unwritten};
ghost use Rattle.value_ranges.specs.In.{AreInSome, KeepsPairs};
ghost use Rattle.verifier.specs.Describes.{lies_on, Assumes, Narrows};
ghost use Rattle.stack_slots.specs.Values.{IsJoin};
ghost use Rattle.verifier.specs.Joins.{register as known};
ghost use Rattle.verifier.specs.Changes.{second_register, KeepsOthers, OnlyNarrows};

use super::AbstractState;
use crate::fault::StepFault;
use bpf_model::{Condition, Operand, Reg, Width};
use stack_slots::RegValue;
use value_ranges::{Range, join, refine};

/// A side of a condition, on which a run may go on.
#[derive(Clone, Copy, Debug, PartialEq, Eq)]
pub enum Side {
    /// The condition holds.
    Holding(Condition),
    /// The condition holds or doesn't.
    Either(Condition),
}

/// The values of the registers of a condition's operands. If the second operand isn't a register, both are the first
/// one's value.
#[derive(Clone, Copy, Debug, PartialEq, Eq)]
pub struct Operands {
    dst: RegValue,
    src: RegValue,
}

impl AbstractState {
    /// Returns the values of the only registers that a condition on these operands narrows.
    pub(crate) fn operands(&self, dst: Reg, src: Operand) -> Operands
        ensures dst { result.dst ≡ known self.now dst }
        ensures src { result.src ≡ known self.now (second_register dst src) }
    {
        Operands {
            dst: self.registers[dst.number() as usize],
            src: self.registers[source(dst, src).number() as usize],
        }
    }

    /// Undoes the narrowing by a condition on these operands.
    pub(crate) fn put_back(&mut self, dst: Reg, src: Operand, operands: Operands)
        ensures back { (before : AbstractState) → length before.registers ≡ 11
            → operands.dst ≡ known before dst → operands.src ≡ known before (second_register dst src)
            → OnlyNarrows before self.old → KeepsOthers before dst src self.old
            → self.new ≡ before }
    {
        self.registers[source(dst, src).number() as usize] = operands.src;
        self.registers[dst.number() as usize] = operands.dst;
    }

    /// Narrows the two operands to a side of a condition. Returns false if no state is on that side.
    pub(crate) fn assume(
        &mut self,
        side: Side,
        width: Width,
        dst: Reg,
        src: Operand,
    ) -> Result<bool, StepFault>
        ensures ok { IfOk result (λ any. Assumes self.old side width dst src any self.new) }
        ensures changes { OnlyNarrows self.old self.new }
        ensures others { KeepsOthers self.old dst src self.new }
        ensures accepts { known self.old dst ≢ Unwritten
            → ((r : ℕ) → src ≡ TheRegister r → known self.old r ≢ Unwritten) → IsOk result }
    {
        let a = self.read(dst.number())?.as_number();
        let b = self.operand(src)?.as_number();
        if src == Operand::Register(dst) {
            return Ok(true);
        }
        let Some((a, b)) = narrowed(side, width, a, b) else {
            return Ok(false);
        };
        self.narrow(dst, a);
        if let Operand::Register(src) = src {
            self.narrow(src, b);
        }
        Ok(true)
    }

    /// a pointer stays as it is
    fn narrow(&mut self, register: Reg, range: Range)
        ensures narrows { Narrows self.old register range self.new }
        ensures changes { OnlyNarrows self.old self.new }
        ensures others { (r : ℕ) → r ≢ register → known self.new r ≡ known self.old r }
    {
        let value = &mut self.registers[register.number() as usize];
        if let RegValue::Number(_) = value {
            *value = RegValue::Number(range);
        }
    }
}

/// the register of the second operand, or that of the first if the second isn't a register
fn source(dst: Reg, src: Operand) -> Reg
    ensures value { result ≡ second_register dst src }
{
    match src {
        Operand::Register(register) => register,
        Operand::Immediate(_) => dst,
    }
}

/// the ranges of the words on a side of a condition, or none if no pair of words is on it
fn narrowed(side: Side, width: Width, a: Range, b: Range) -> Option<(Range, Range)>
    ensures { KeepsPairs (lies_on side width) a b result }
{
    match side {
        Side::Holding(condition) => refine(condition, width, a, b),
        Side::Either(condition) => either(
            refine(condition, width, a, b),
            refine(condition.opposite(), width, a, b),
        ),
    }
}

/// the ranges of the words that are in either pair of ranges
fn either(one: Option<(Range, Range)>, other: Option<(Range, Range)>) -> Option<(Range, Range)>
    ensures first { (x y : ℕ) → AreInSome x y one → AreInSome x y result }
    ensures second { (x y : ℕ) → AreInSome x y other → AreInSome x y result }
{
    match (one, other) {
        (Some((a, b)), Some((c, d))) => Some((join(a, c), join(b, d))),
        (Some(pair), None) => Some(pair),
        (None, other) => other,
    }
}

pub(super) fn join_registers(registers: &mut [RegValue], others: &[RegValue])
    requires same_length { length registers.old ≡ length others.now }
    ensures joins { (r : ℕ) → IsJoin (slice_index_or registers.old r Unwritten)
        (slice_index_or others.now r Unwritten) (slice_index_or registers.new r Unwritten) }
{
    for r in 0..registers.len() {
        registers[r] = registers[r].join(&others[r]);
    }
}
