//! What `mapd` serves.
ghost use Rattle.std.specs.Prelude.{◌≡◌, All};
ghost use Rattle.std.specs.Option.{ForSome};
ghost use Rattle.crews.specs.Crews.{IsCrewOf};

use crate::arrivals::Limits;
use crate::quotas::Quotas;
use bin_stripes::{Pass, StripedMap};
use crews::Crew;
use program_registry::Registry;
use server_state::Password;

/// Which protocols clients speak. There is a port for each.
#[derive(Clone, Copy, Debug, PartialEq, Eq)]
pub struct Protocols {
    /// Some clients speak frames.
    pub frames: bool,
    /// Some clients speak the commands of Redis.
    pub commands: bool,
}

/// What is served, who serves it, how often, to how many, and in which protocols.
#[derive(Drop)]
pub struct Server {
    pub map: StripedMap,
    pub registry: Registry,
    pub crews: Vec<Crew>,
    pub quotas: Quotas,
    pub limits: Limits,
    pub protocols: Protocols,
    /// How many scripts clients of commands may load.
    pub scripts: u64,
    /// The pass by which the map is kept in a file; none: it is not kept.
    pub keeper: Option<Pass>,
    /// The password that clients of commands have to show; none: they needn't.
    pub password: Option<Password>,
    /// The pass by which the map's entries are counted, if there is a port for the server's numbers.
    pub watcher: Option<Pass>,
    ghost serve: { All (λ crew. IsCrewOf map crew) crews.items },
    ghost keeps: { ForSome keeper (λ pass. pass.map ≡ map) },
    ghost watches: { ForSome watcher (λ pass. pass.map ≡ map) },
}
