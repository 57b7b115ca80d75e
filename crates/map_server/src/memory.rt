//! What `--memory` leaves to entries, to programs and to sessions.
ghost use Rattle.std.specs.Prelude.{◌≡◌};
ghost use Rattle.map_server.specs.Memory.{shares_of, shares_within};

const MEBIBYTE: u64 = 1 << 20;

/// One of this many parts of the memory is left to sessions, so that a full server still takes clients.
const SESSIONS_PART: u64 = 50;

/// At least this many bytes of the memory are left to sessions.
const SESSIONS_LEAST: u64 = 4 * MEBIBYTE;

/// One of this many parts of the memory is left to programs and to the texts of scripts.
const PROGRAMS_PART: u64 = 16;

/// How many bytes each may take.
#[derive(Clone, Copy, Debug, PartialEq, Eq)]
pub struct Shares {
    /// The rows and the index of all entries; none: there is no bound.
    pub entries: Option<u64>,
    /// Registered programs, and the texts of scripts.
    pub programs: u64,
    /// What is kept for clients between their turns.
    pub sessions: u64,
}

impl Shares {
    /// What of this many bytes is left to whom.
    fn within(bytes: u64) -> Shares
        ensures { result ≡ shares_within bytes }
    {
        let programs = bytes / PROGRAMS_PART;
        let sessions = (bytes / SESSIONS_PART).max(SESSIONS_LEAST);
        Shares {
            entries: Some(bytes.saturating_sub(programs).saturating_sub(sessions)),
            programs,
            sessions,
        }
    }

    /// What of this many MiB is left to whom; none: there is no bound.
    pub(crate) fn of(memory: Option<u64>) -> Shares
        ensures { result ≡ shares_of memory }
    {
        match memory {
            None => Shares {
                entries: None,
                programs: u64::MAX,
                sessions: u64::MAX,
            },
            Some(mebibytes) => Shares::within(mebibytes.saturating_mul(MEBIBYTE)),
        }
    }
}
