//! States that are kept for units ahead.
ghost use Rattle.std.specs.Prelude.{◌≡◌, OnOk, IfOk};
ghost use Rattle.stack_slots.specs.Frames.{JoinsSlots};
ghost use Rattle.verifier.specs.Describes.{Includes};
ghost use Rattle.verifier.specs.Joins.{JoinsStates, JoinsFrames, KeepsCommon};

use super::AbstractState;
use super::branches::join_registers;
use stack_slots::{Frame, KeptFrame, RegValue};
use std::alloc::{AllocError, Global};
use std::marker::Model;
use std::rc::Rc;

/// An abstract state that is kept for a unit ahead. States that were sent one after the other share their frame as long
/// as it didn't change between them.
#[derive(Drop)]
pub struct KeptState {
    registers: [RegValue; 11],
    frame: Rc<KeptFrame>,
}

impl Model for KeptState {
    ghost use Rattle.verifier.specs.declared.abstract_state.AbstractState.{AbstractState};

    ghost Value = { AbstractState };

    ghost view = { λ kept. record { registers = kept.registers; frame = kept.frame.value } };
}

impl AbstractState {
    /// Becomes a state that describes whatever this one or the kept one describes.
    pub(crate) fn join(&mut self, kept: &KeptState)
        ensures first { Includes self.old self.new }
        ensures second { Includes kept.now self.new }
        ensures exact { JoinsStates self.old kept.now self.new }
        ensures keeps { KeepsCommon self.old kept.now self.new }
    {
        join_registers(&mut self.registers, &kept.registers);
        join_frames(&mut self.frame, &kept.frame);
    }
}

/// Joins a kept frame into another one. It's quicker to see that they are the same than to join them.
fn join_frames(frame: &mut Frame, kept: &KeptFrame)
    ensures joins { JoinsFrames frame.old kept.now frame.new }
    ensures slots { JoinsSlots frame.old kept.now frame.new }
{
    if !kept.is(frame) {
        frame.join_kept(kept);
    }
}

impl KeptState {
    /// Keeps a state. The frame is the state's.
    pub(crate) fn new(state: &AbstractState, frame: Rc<KeptFrame>) -> KeptState
        requires same { frame.value ≡ state.now.frame }
        ensures value { result ≡ state.now }
    {
        KeptState {
            registers: state.registers,
            frame,
        }
    }

    /// Keeps another state, in place. The frame is that state's.
    pub(crate) fn replace(&mut self, state: &AbstractState, frame: Rc<KeptFrame>)
        requires same { frame.value ≡ state.now.frame }
        ensures value { self.new ≡ state.now }
    {
        self.registers = state.registers;
        self.frame = frame;
    }

    /// Returns the state that is kept. Takes no memory.
    pub(crate) fn state(&self) -> AbstractState
        ensures value { result ≡ self.now }
    {
        AbstractState {
            registers: self.registers,
            frame: self.frame.frame(),
        }
    }

    /// Becomes a state that describes whatever this one or the other describes. Asks for memory if their frames differ.
    /// Fails if it is refused.
    pub(crate) fn join(&mut self, alloc: Global, other: &AbstractState) -> Result<(), AllocError>
        ensures first { OnOk result (Includes self.old self.new) }
        ensures second { OnOk result (Includes other.now self.new) }
        ensures keeps { OnOk result (KeepsCommon self.old other.now self.new) }
    {
        join_registers(&mut self.registers, &other.registers);
        if !self.frame.is(&other.frame) {
            self.frame = joined(alloc, &self.frame, &other.frame)?;
        }
        Ok(())
    }
}

// This has room for frames, which would be cleared in each caller.
#[inline(never)]
fn joined(alloc: Global, kept: &KeptFrame, other: &Frame) -> Result<Rc<KeptFrame>, AllocError>
    ensures joins { IfOk result (λ frame. JoinsFrames kept.now other.now frame.value) }
{
    let frame = kept.frame().join(other);
    Ok(Rc::new(alloc, frame.keep(alloc, Some(kept))?)?)
}

/// Returns the frame to be kept: the last one if it is the same. Else it shares with the last one what it has in common.
/// Fails if a request for memory is refused.
pub(crate) fn shared(
    alloc: Global,
    frame: &Frame,
    last: &Option<Rc<KeptFrame>>,
) -> Result<Rc<KeptFrame>, AllocError>
    ensures value { IfOk result (λ shared. shared.value ≡ frame.now) }
{
    let Some(last) = last else {
        return Ok(Rc::new(alloc, frame.keep(alloc, None)?)?);
    };
    if last.is(frame) {
        return last.clone();
    }
    Ok(Rc::new(alloc, frame.keep(alloc, Some(last))?)?)
}
