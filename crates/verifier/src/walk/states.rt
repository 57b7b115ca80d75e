//! The abstract state at each instruction, for readers outside the walk.
ghost use Rattle.std.specs.Prelude.{◌≡◌, ◌≤◌, IfOk, length};
ghost use Rattle.bpf_model.specs.Fits.{AreWithinLimits};
ghost use Rattle.bpf_model.specs.Program.{IsProgram};
ghost use Rattle.flow_shape.specs.FlowShape.{IsForward};
ghost use Rattle.verifier.specs.Plain.{IsPlain};
ghost use Rattle.verifier.specs.Walks.{KnowsRuns};

use super::indices::Indices;
use super::pending::Pending;
use super::{come, visit};
use crate::abstract_state::AbstractState;
use crate::fault::Stop;
use bpf_model::{Insn, NoMemory, Sizes};
use flow_shape::Shaped;
use std::alloc::Global;

fn copy_of(state: &Option<AbstractState>) -> Option<AbstractState>
    ensures value { result ≡ state.now }
{
    match state {
        Some(state) => Some(state.copied()),
        None => None,
    }
}

fn states_of(
    alloc: Global,
    program: &[Insn],
    sizes: Sizes,
) -> Result<Vec<Option<AbstractState>>, NoMemory>
    requires program { IsProgram program.now }
    requires forward { IsForward program.now }
    requires limits { AreWithinLimits sizes }
    ensures sound { IfOk result (λ states. KnowsRuns program.now states.items sizes) }
    ensures some { IfOk result (λ states. 1 ≤ length states.items) }
    ensures inside { IfOk result (λ states. length states.items ≤ length program.now) }
    ensures floor { IsPlain program.now sizes
        → IfOk result (λ states. length states.items ≡ length program.now) }
{
    let mut states = Vec::new(alloc);
    let indices = Indices::of(program);
    let mut pending = Pending::new(alloc);
    let mut state = Some(AbstractState::entry(sizes));
    let mut unit = 0;
    for insn in program {
        come(&mut pending, &mut state, unit);
        states.push(copy_of(&state))?;
        match visit(&mut pending, &mut state, &indices, unit, sizes, *insn) {
            Ok(_) => unit += insn.units(),
            Err(Stop::Fault(_)) => return Ok(states),
            Err(Stop::NoMemory) => return Err(NoMemory),
        }
    }
    Ok(states)
}

/// Returns the abstract state that the walk of `verify` has at each instruction, in the program's order, up to the one
/// that is refused. If a run on an input that fits comes to an instruction, the answer at this index describes the run's
/// state; if that answer is `None`, no run comes there. Asks for memory for each answer, and as `verify` does. Returns
/// `NoMemory` if such a request is refused.
pub fn known_states(
    alloc: Global,
    shaped: &Shaped,
    sizes: Sizes,
) -> Result<Vec<Option<AbstractState>>, NoMemory>
    requires limits { AreWithinLimits sizes }
    ensures sound { IfOk result (λ states. KnowsRuns shaped.now states.items sizes) }
    ensures some { IfOk result (λ states. 1 ≤ length states.items) }
    ensures inside { IfOk result (λ states. length states.items ≤ length shaped.now) }
    ensures floor { IsPlain shaped.now sizes
        → IfOk result (λ states. length states.items ≡ length shaped.now) }
{
    states_of(alloc, shaped.program().instructions(), sizes)
}
