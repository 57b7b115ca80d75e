//! A thread's handle for its calls.

use crate::ghost_action::GhostAction;
use atomic_methods::Workspace;
use known_seat::Known;
use std::marker::Model;
use stripe_rule::View;

/// The right to make calls on the map that it was opened with. Its bytes are the workspace of its calls, in which programs
/// run. Contracts see its numbers and knowledge: for each stripe the events that it has seen, and those of them that it
/// made.
#[derive(Drop)]
pub struct Pass {
    pub(crate) known: Known<View<GhostAction>>,
    pub(crate) workspace: Workspace,
}

impl Model for Pass {
    ghost use Rattle.stripe_rule.specs.Steps.{view_of};
    ghost use Rattle.bin_stripes.specs.Passes.{PassState, pass_code, IsPass};

    ghost Value = { PassState };

    ghost coded = { pass_code };

    ghost view = { λ p. record { map = p.known.table_id; view = view_of p.known.views } };

    ghost invariant = { λ p. IsPass p.known.table_id p.known.views };
}

impl Pass {
    ghost use Rattle.stripe_rule.specs.Gains.{Carries, least};
    ghost use Rattle.bin_stripes.specs.AllSeen.{CarriesAll, SeesJustMine};
    ghost use Rattle.bin_stripes.specs.Histories.{Sound};
    ghost use Rattle.bin_stripes.specs.Passes.{stripes_of};

    /// What always holds of a pass: of each stripe it has seen a legal history, with numbers of opened passes, and the
    /// events with its own numbers are exactly the ones that it made. It carries the least of its numbers, and makes its
    /// calls with it. If it carries the numbers of all passes, it has seen exactly the events that were made, each once.
    /// Does nothing.
    pub fn vouch(&self)
        ensures sound { Sound (stripes_of self.now.map) self.now.view }
        ensures least { Carries self.now.view (least self.now.view.numbers) }
        ensures once { CarriesAll self.now.view → SeesJustMine self.now.view }
    {
        // Only for the proof: the facts that always hold of a pass come from the seat at rest here.
        let _ = &self.known;
    }
}
