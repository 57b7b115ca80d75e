//! Reads and writes of registers.
ghost use Rattle.std.specs.Prelude.{◌≡◌, ◌≢◌, ◌≤◌, ◌<◌, ◌^◌, ℕ, ℤ, pos, Ok, Err, OnOk, IfOk, IsOk, nat_eq, if◌then◌else◌};
ghost use Rattle.verifier.specs.declared.fault.StepFault.TheVariants.{UnwrittenRegister, WriteToR10};
ghost use Rattle.bpf_model.specs.declared.instruction.Operand.TheVariants.{Register as TheRegister, Immediate as TheImmediate};
ghost use Rattle.stack_slots.specs.declared.reg_value.RegValue.TheVariants.{Unwritten};
ghost use Rattle.stack_slots.specs.Values.{IsNumberIn};
ghost use Rattle.verifier.specs.Joins.{register as known, SetsTo};
ghost use Rattle.verifier.specs.Describes.{Knows, KnowsOperand, Sets};
ghost use Rattle.verifier.specs.Changes.{IsSmallWord};

use super::AbstractState;
use crate::fault::StepFault;
use bpf_model::{Operand, Reg, immediate_word};
use stack_slots::RegValue;
use value_ranges::Range;

/// The number of r10, which points to the stack's end and is never written.
const FRAME_POINTER: u8 = 10;

impl AbstractState {
    pub(super) fn operand(&self, src: Operand) -> Result<RegValue, StepFault>
        ensures ok { IfOk result (KnowsOperand self.now src) }
        ensures register { (r : ℕ) → src ≡ TheRegister r → IfOk result (λ x. x ≡ known self.now r) }
        ensures constant { (k : ℤ) → src ≡ TheImmediate k → IfOk result (IsNumberIn k k) }
        ensures mask { (m : ℕ) → src ≡ TheImmediate (pos m) → IfOk result (IsSmallWord m) }
        ensures value { IfOk result (λ x. x ≢ Unwritten) }
        ensures accepts { ((r : ℕ) → src ≡ TheRegister r → known self.now r ≢ Unwritten)
            → IsOk result }
    {
        match src {
            Operand::Register(register) => self.read(register.number()),
            Operand::Immediate(imm) => Ok(RegValue::Number(Range::single(immediate_word(imm)))),
        }
    }

    pub(super) fn read(&self, register: u8) -> Result<RegValue, StepFault>
        requires register { register ≤ 10 }
        ensures ok { IfOk result (Knows self.now register) }
        ensures exact { IfOk result (λ x. (x ≡ known self.now register) × (x ≢ Unwritten)) }
        ensures accepts { known self.now register ≢ Unwritten
            → result ≡ Ok (known self.now register) }
    {
        match self.registers[register as usize] {
            RegValue::Unwritten => Err(StepFault::UnwrittenRegister),
            value => Ok(value),
        }
    }

    pub(super) fn assign(&mut self, dst: Reg, value: RegValue) -> Result<(), StepFault>
        ensures ok { OnOk result (Sets self.old dst value self.new) }
        ensures exact { OnOk result (SetsTo self.old dst value self.new) }
        ensures accepts { dst ≢ 10 → result ≡ Ok tt }
    {
        test_target(dst)?;
        self.set(dst, value);
        Ok(())
    }

    pub(super) fn set(&mut self, dst: Reg, value: RegValue)
        requires target { dst ≢ 10 }
        ensures sound { Sets self.old dst value self.new }
        ensures exact { SetsTo self.old dst value self.new }
    {
        self.registers[dst.number() as usize] = value;
    }
}

pub(super) fn test_target(dst: Reg) -> Result<(), StepFault>
    ensures exact { result ≡ (if nat_eq dst 10 then Err WriteToR10 else Ok tt) }
{
    if dst.number() == FRAME_POINTER {
        Err(StepFault::WriteToR10)
    } else {
        Ok(())
    }
}
