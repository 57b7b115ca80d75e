//! The source of clients.
ghost use Rattle.std.specs.Prelude.{◌≡◌, IfSome, None};
ghost use Rattle.devices.specs.Devices.{CanRead, CanWrite};

use crate::crew::Crew;
use crate::tokens::Tokens;
use devices::{Sink, Source};
use sessions::SessionEnd;

/// What hands each worker its clients, one after the other.
pub trait Accept<R: Source, W: Sink> {
    ghost use Rattle.atomic_table.specs.Seated.{TableId};
    ghost use Rattle.program_registry.specs.declared.registry.Registry.{Registry};
    ghost use Rattle.crews.specs.declared.crew.Crew.{Crew};
    ghost use Rattle.crews.specs.Crews.{IsCrewOf};
    ghost use Rattle.crews.specs.Served.{IsAnswered};

    /// The clients are of this map, and their programs of this registry.
    ghost serves: { Self → TableId → Registry → Type 0 } = { λ _ _ _. Unit {0} };

    /// The crew, as it was then, was given this reader and this writer as one pair. Nothing but `next` tells it.
    ghost gave: { Crew → R → W → Type 0 } = { λ _ _ _. Unit {0} };

    /// The worker of this crew, as it was then, was told that no client comes any more. Nothing but `next` tells it.
    ghost over: { Crew → Type 0 } = { λ _. Unit {0} };

    /// The reader and the writer of the crew's next client; or none, and its worker ends. Each has failed fewer than
    /// `2 ^ 64 - 1` times. It may wait for a client.
    fn next(&self, crew: &Crew) -> Option<(R, W)>
        requires { (map : TableId) × (registry : Registry) × serves self.now map registry × IsCrewOf map crew.now }
        ensures able { IfSome result (λ client. CanRead (R.state client.0) × CanWrite (W.state client.1)) }
        ensures gave { IfSome result (λ client. gave crew.now client.0 client.1) }
        ensures over { result ≡ None → over crew.now };

    /// The session of the crew's client ended so, and its streams are given up: a pair that this crew was given. What was
    /// read is answered by what was written. The session led from how the crew stood then, with no token, to how it stands now with
    /// these tokens. They are of the registry that the clients' programs are of: `Tokens::mean_the_same` compares them with others of it.
    fn ended(&self, crew: &Crew, reader: R, writer: W, end: SessionEnd, tokens: Tokens<'_>)
        requires session { (old : Crew) × IsAnswered R.state W.state gave old end reader writer tokens crew.now }
        requires serves { (map : TableId) × serves self.now map tokens.registry × IsCrewOf map crew.now };
}
