//! The states that are kept for units ahead.
ghost use Rattle.std.specs.Prelude.{◌≡◌, ◌≢◌, ◌<◌, ℕ, Some, None, IfOk, OnOk, vec_len};
ghost use Rattle.verifier.specs.Walks.{boxed, kept_at, IncludesSome, MeetsKnown};

use crate::abstract_state::{AbstractState, KeptState, shared};
use stack_slots::KeptFrame;
use std::alloc::{AllocError, Global};
use std::rc::Rc;

/// The states at units that some jump leads to and that the walk hasn't reached yet.
#[derive(Drop)]
pub struct Pending {
    alloc: Global,
    // by unit, up to the greatest one that a jump led to so far
    states: Vec<Option<Box<KeptState>>>,
    // the box of a state that is no longer needed, for the next one
    spare: Option<Box<KeptState>>,
    // the frame of the last state: the next one shares it if it has the same
    last: Option<Rc<KeptFrame>>,
}

impl Pending {
    /// Keeps nothing yet. Takes no memory.
    pub fn new(alloc: Global) -> Pending
        ensures none { (unit : ℕ) → kept_at result unit ≡ None }
    {
        Pending {
            alloc,
            states: Vec::new(alloc),
            spare: None,
            last: None,
        }
    }

    /// Removes and returns the state that is kept for a unit.
    pub fn take(&mut self, unit: usize) -> Option<Box<KeptState>>
        ensures value { boxed result ≡ kept_at self.old unit }
        ensures empty { kept_at self.new unit ≡ None }
        ensures others { (other : ℕ) → other ≢ unit
            → kept_at self.new other ≡ kept_at self.old other }
    {
        if unit < self.states.len() {
            self.states[unit].take()
        } else {
            None
        }
    }

    /// Takes back what `take` returned, to use its box again.
    pub fn give_back(&mut self, kept: Option<Box<KeptState>>)
        ensures same { (unit : ℕ) → kept_at self.new unit ≡ kept_at self.old unit }
    {
        if kept.is_some() {
            self.spare = kept;
        }
    }

    /// Keeps a state for a unit. If one is kept there already, joins the two. Fails if a request for memory is refused.
    pub fn send(&mut self, unit: usize, state: &AbstractState) -> Result<(), AllocError>
        ensures sent { OnOk result (IncludesSome (Some state.now) (kept_at self.new unit)) }
        ensures keeps { OnOk result ((other : ℕ)
            → IncludesSome (kept_at self.old other) (kept_at self.new other)) }
        ensures meets { OnOk result (MeetsKnown (kept_at self.old unit) (Some state.now)
            (kept_at self.new unit)) }
        ensures others { OnOk result ((other : ℕ) → other ≢ unit
            → kept_at self.new other ≡ kept_at self.old other) }
    {
        self.reach(unit)?;
        if let Some(kept) = &mut self.states[unit] {
            kept.join(self.alloc, state)?;
            return Ok(());
        }
        let copy = self.boxed(state)?;
        self.states[unit] = Some(copy);
        Ok(())
    }

    /// keeps a state, in the spare box if there is one
    fn boxed(&mut self, state: &AbstractState) -> Result<Box<KeptState>, AllocError>
        ensures value { IfOk result (λ kept. kept.value ≡ state.now) }
        ensures same { self.new.states ≡ self.old.states }
    {
        let frame = shared(self.alloc, state.frame(), &self.last)?;
        self.last = Some(frame.clone()?);
        match self.spare.take() {
            Some(mut room) => {
                room.replace(state, frame);
                Ok(room)
            }
            None => Ok(Box::new(self.alloc, KeptState::new(state, frame))?),
        }
    }

    /// makes room for each unit up to this one
    fn reach(&mut self, unit: usize) -> Result<(), AllocError>
        ensures reached { OnOk result (unit < vec_len self.new.states) }
        ensures same { OnOk result ((other : ℕ) → kept_at self.new other ≡ kept_at self.old other) }
    {
        while self.states.len() <= unit {
            self.states.push(None)?;
        }
        Ok(())
    }
}
