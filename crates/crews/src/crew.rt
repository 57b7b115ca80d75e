//! What serves one client at a time.

use bin_stripes::Pass;
use bulk_walks::Team;

/// What serves one client at a time: the number of its worker, the pass of its calls, and the team of its walks.
#[derive(Drop)]
pub struct Crew {
    pub worker: u32,
    pub pass: Pass,
    pub team: Team,
}
