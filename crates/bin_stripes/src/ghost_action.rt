//! Actions on a stripe.
ghost use Rattle.bin_stripes.specs.Actions.{Action};
ghost use Rattle.bin_stripes.specs.ActionCodes.{action_code};

use std::marker::Model;

/// An action on a stripe with its outcome: `action`. No value of it is made.
pub struct GhostAction {
    pub ghost action: { Action } by { action_code },
}

impl Model for GhostAction {
    ghost use Rattle.std.specs.Borrow.{ftrue};

    ghost also_owns = { λ _. ftrue };
}
