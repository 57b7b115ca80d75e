//! Who sees that a server has served.

use crate::serving::Served;
use map_keeper::HostFiles;

/// Sees how serving ended. A contract can speak of it then: nothing else makes a `Served` but a server that served.
pub trait Witness {
    ghost use Rattle.map_server.specs.declared.serving.Served.{Served as HowItEnded};

    /// Serving ended so. Nothing but `see` tells it.
    ghost saw: { HowItEnded → Type 0 } = { λ _. Unit {0} };

    /// Sees it. Does nothing.
    fn see(&self, served: &Served)
        ensures { saw served.now };
}

impl Witness for HostFiles<'_> {
    fn see(&self, _served: &Served) {}
}
