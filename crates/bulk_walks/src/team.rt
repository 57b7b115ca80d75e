//! Teams of passes.
ghost use Rattle.std.specs.Prelude.{◌≡◌, ◌<◌, IfOk, IsOk, ◌↔◌, vec_len};

use bin_stripes::Pass;
use std::error::Error;
use std::fmt;

/// A team without a pass: number 53.
#[derive(Clone, Copy, Debug, PartialEq, Eq)]
pub struct EmptyTeam;

impl EmptyTeam {
    /// This error is printed and sent with this number.
    pub const NUMBER: u8 = 53;

    /// Returns `NUMBER`.
    pub fn number(self) -> u8
        ensures { result ≡ 53 }
    {
        EmptyTeam::NUMBER
    }
}

impl fmt::Display for EmptyTeam {
    ghost use Rattle.std.specs.Prelude.{Some, codes};

    ghost output = { λ _. Some (codes "a team of no pass") };

    fn fmt<W: fmt::Write>(&self, f: &mut fmt::Formatter<W>) -> fmt::Result {
        write!(f, "a team of no pass")
    }
}

impl Error for EmptyTeam {}

/// The passes of the workers of a walk: worker j owns pass j.
#[derive(Drop)]
pub struct Team {
    pub(crate) passes: Vec<Pass>,
    ghost some: { 0 < vec_len passes },
}

impl Team {
    /// Makes a team of these passes; `EmptyTeam` if there are none. Takes no memory.
    pub fn new(passes: Vec<Pass>) -> Result<Team, EmptyTeam>
        ensures some { IsOk result ↔ (0 < vec_len passes) }
        ensures team { IfOk result (λ team. team.passes ≡ passes) }
    {
        if passes.is_empty() {
            return Err(EmptyTeam);
        }
        Ok(Team { passes })
    }

    /// Returns the passes, in their order. Takes no memory.
    pub fn into_passes(self) -> Vec<Pass>
        ensures { result ≡ self.passes }
    {
        self.passes
    }
}
