//! Loads, stores and the end of a run.
ghost use Rattle.std.specs.Prelude.{◌≡◌, ◌≢◌, ◌^◌, ◌+ℤ◌, ◌≤ℤ◌, ℕ, pos, Ok, Some, IsOk, IsSome, OnOk, IfOk, IfSome};
ghost use Rattle.bpf_model.specs.declared.instruction.Insn.TheVariants.{Load, Store};
ghost use Rattle.bpf_model.specs.Fits.{AreWithinLimits};
ghost use Rattle.bpf_model.specs.Accesses.{byte_count, loaded_size};
ghost use Rattle.bpf_model.specs.Step.{address_of};
ghost use Rattle.stack_slots.specs.declared.pointer.Pointer.{Pointer as ThePointer};
ghost use Rattle.stack_slots.specs.declared.reg_value.RegValue.TheVariants.{Unwritten, Pointer as PointerInto};
ghost use Rattle.stack_slots.specs.Kept.{IsKept};
ghost use Rattle.stack_slots.specs.Frames.{NoneUnwritten};
ghost use Rattle.stack_slots.specs.Values.{StandsFor};
ghost use Rattle.verifier.specs.Changes.{Changes, Suffices, CanExit, ReachesInside, IsSpan, AreMarked, WritesAt};
ghost use Rattle.verifier.specs.Describes.{Leads, ReadsBytes, WritesBytes, Exits, IsInSpan, LiesInside, is_signed};
ghost use Rattle.verifier.specs.Joins.{register as known};
ghost use Rattle.verifier.specs.Windows.{LiesIn, pointed_window, window_of};

use super::AbstractState;
use super::registers::test_target;
use super::span::Span;
use crate::fault::StepFault;
use bpf_model::{AccessSize, Insn, LoadKind, Operand, Reg, Sizes, Window};
use stack_slots::{Access, RegValue, loadable};

impl AbstractState {
    /// Returns the window that the instruction's address register points into, or the result's if it points into none.
    pub(crate) fn window(&self, insn: Insn) -> Window
        ensures value { result ≡ window_of insn self.now }
    {
        match insn {
            Insn::Load { src, .. } => self.pointed_window(src),
            Insn::Store { dst, .. } => self.pointed_window(dst),
            _ => Window::Result,
        }
    }

    fn pointed_window(&self, register: Reg) -> Window
        ensures value { result ≡ pointed_window (known self.now register) }
    {
        match &self.registers[register.number() as usize] {
            RegValue::Pointer(pointer) => pointer.window,
            _ => Window::Result,
        }
    }

    pub(super) fn load(
        &mut self,
        sizes: Sizes,
        kind: LoadKind,
        dst: Reg,
        src: Reg,
        offset: i16,
    ) -> Result<(), StepFault>
        requires limits { AreWithinLimits sizes }
        ensures ok { OnOk result (Leads self.old sizes (Load kind dst src offset) self.new) }
        ensures changes { OnOk result (Changes (Load kind dst src offset) self.old self.new) }
        ensures accepts { Suffices sizes (Load kind dst src offset) self.old → result ≡ Ok tt }
        ensures window { OnOk result (LiesIn sizes (Load kind dst src offset) self.old
            (pointed_window (known self.old src))) }
    {
        let base = self.read(src.number())?;
        test_target(dst)?;
        let span = locate(sizes, base, offset, kind.size())?;
        let value = self.read_bytes(sizes, span, kind)?;
        self.set(dst, value);
        Ok(())
    }

    pub(super) fn store(
        &mut self,
        sizes: Sizes,
        size: AccessSize,
        dst: Reg,
        src: Operand,
        offset: i16,
    ) -> Result<(), StepFault>
        requires limits { AreWithinLimits sizes }
        ensures ok { OnOk result (Leads self.old sizes (Store size dst src offset) self.new) }
        ensures changes { OnOk result (Changes (Store size dst src offset) self.old self.new) }
        ensures accepts { Suffices sizes (Store size dst src offset) self.old → result ≡ Ok tt }
        ensures window { OnOk result (LiesIn sizes (Store size dst src offset) self.old
            (pointed_window (known self.old dst))) }
    {
        let base = self.read(dst.number())?;
        let value = self.operand(src)?;
        let span = locate(sizes, base, offset, size)?;
        self.write_bytes(sizes, span, size, value)
    }

    /// Checks the end of a run.
    pub(crate) fn exit(&self) -> Result<(), StepFault>
        ensures ok { OnOk result (Exits self.now) }
        ensures accepts { CanExit self.now → result ≡ Ok tt }
    {
        let number = self.read(0)?.as_number();
        if number.smin < -1 || number.smax > i64::from(self.frame.written_prefix()) {
            return Err(StepFault::BadExitValue);
        }
        Ok(())
    }

    fn read_bytes(&self, sizes: Sizes, span: Span, kind: LoadKind) -> Result<RegValue, StepFault>
        requires limits { AreWithinLimits sizes }
        requires inside { LiesInside sizes span (loaded_size kind) }
        ensures ok { IfOk result (ReadsBytes self.now sizes span kind) }
        ensures value { NoneUnwritten self.now.frame → IfOk result (λ x. x ≢ Unwritten) }
        ensures accepts { (IsKept span.window
            → AreMarked self.now span (byte_count (loaded_size kind))) → IsOk result }
    {
        match Access::new(
            span.window,
            span.least,
            span.greatest,
            kind.size(),
            is_signed(kind),
            sizes,
        ) {
            Some(access) => self.frame.load(&access).ok_or(StepFault::UnwrittenBytes),
            // The windows that may only be read have all their bytes.
            None => Ok(RegValue::Number(loadable(kind.size(), is_signed(kind)))),
        }
    }

    fn write_bytes(
        &mut self,
        sizes: Sizes,
        span: Span,
        size: AccessSize,
        value: RegValue,
    ) -> Result<(), StepFault>
        requires limits { AreWithinLimits sizes }
        ensures ok { OnOk result (WritesBytes self.old sizes span size value self.new) }
        ensures changes { OnOk result (WritesAt self.old span size value self.new) }
        ensures accepts { IsKept span.window → LiesInside sizes span size → result ≡ Ok tt }
        ensures kept { OnOk result (IsKept span.window) }
    {
        match Access::new(span.window, span.least, span.greatest, size, false, sizes) {
            Some(access) => {
                self.frame.store(&access, &value);
                Ok(())
            }
            None => Err(StepFault::ReadOnly),
        }
    }
}

fn is_signed(kind: LoadKind) -> bool
    ensures value { result ≡ is_signed kind }
{
    matches!(
        kind,
        LoadKind::SignedByte | LoadKind::SignedHalfWord | LoadKind::SignedWord
    )
}

/// Returns the span of an access through this value, if all its bytes are in the window.
fn locate(sizes: Sizes, base: RegValue, offset: i16, size: AccessSize) -> Result<Span, StepFault>
    ensures address { IfOk result (λ span. (w : ℕ) → StandsFor base (Some w)
        → IsInSpan span (address_of w offset)) }
    ensures inside { IfOk result (λ span. LiesInside sizes span size) }
    ensures window { IfOk result (λ span. span.window ≡ pointed_window base) }
    ensures exact { (p : ThePointer) → base ≡ PointerInto p → IfOk result (IsSpan p offset) }
    ensures accepts { (p : ThePointer) → base ≡ PointerInto p
        → ReachesInside sizes p offset (byte_count size) → IsOk result }
{
    let RegValue::Pointer(pointer) = base else {
        return Err(StepFault::NotAWindow);
    };
    let least = distance_inside(pointer.least, offset).ok_or(StepFault::OutOfWindow)?;
    let greatest = distance_inside(pointer.greatest, offset).ok_or(StepFault::OutOfWindow)?;
    if greatest + size.bytes() > pointer.window.size(sizes) {
        return Err(StepFault::OutOfWindow);
    }
    Ok(Span {
        window: pointer.window,
        least,
        greatest,
    })
}

/// Returns the distance from the window's first byte, or `None` if it is before that byte.
fn distance_inside(from: i64, offset: i16) -> Option<usize>
    ensures value { IfSome result (λ n. pos n ≡ from +ℤ offset) }
    ensures some { from ≤ℤ pos (2 ^ 62) → pos 0 ≤ℤ (from +ℤ offset) → IsSome result }
{
    usize::try_from(from.checked_add(i64::from(offset))?).ok()
}
