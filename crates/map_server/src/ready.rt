//! What is ready to be served at ports that are bound.

use crate::arrivals::Limits;
use crate::entrance::Gates;
use crate::keeping::Kept;
use crate::metrics::Watch;
use crate::quotas::Quotas;
use crews::Crew;
use mio::Poll;
use server_state::Password;
use std::alloc::Global;

/// The crews that serve, each with a poll, at which ports, how many sessions they may begin, to how many clients at once, the password
/// that clients of commands have to show, the file in which the map is kept, and what readers of the server's numbers are answered with.
#[derive(Drop)]
pub(crate) struct Ready<'a> {
    pub(crate) alloc: Global,
    pub(crate) crews: Vec<Crew>,
    pub(crate) polls: Vec<Poll>,
    pub(crate) gates: Gates,
    pub(crate) quotas: Quotas,
    pub(crate) limits: Limits,
    pub(crate) password: Option<Password>,
    pub(crate) kept: Option<Kept<'a>>,
    pub(crate) watch: Option<Watch>,
}
