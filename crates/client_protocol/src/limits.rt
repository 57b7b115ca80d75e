//! Versions of the protocol, and the limits of each.
ghost use Rattle.std.specs.Prelude.{◌≡◌, ◌≢◌, IfSome, IfNone};
ghost use Rattle.client_protocol.specs.declared.limits.Version.{Version as TheVersion};
ghost use Rattle.client_protocol.specs.Bodies.{version_number, limits_after};

use bpf_model::limits::PROGRAM_UNITS;

/// A version of the protocol, which a client names in its Hello.
#[derive(Clone, Copy, Debug, PartialEq, Eq)]
pub enum Version {
    /// Only short values.
    One,
    /// Longer values and programs.
    Two,
}

impl Version {
    /// Returns the version with this number, or `None` if there is none.
    pub fn from_number(number: u8) -> Option<Version>
        ensures some { IfSome result (λ version. version_number version ≡ number) }
        ensures none { IfNone result ((version : TheVersion) → version_number version ≢ number) }
    {
        match number {
            1 => Some(Version::One),
            2 => Some(Version::Two),
            _ => None,
        }
    }

    /// Returns the number with which the version is sent.
    pub fn number(self) -> u8
        ensures { result ≡ version_number self }
    {
        match self {
            Version::One => 1,
            Version::Two => 2,
        }
    }
}

/// The limits: the most bytes of a frame's body, of a value or an argument, and the most units of a program.
#[derive(Clone, Copy, Debug, PartialEq, Eq)]
pub struct Limits {
    pub body: u32,
    pub value: usize,
    pub units: usize,
}

impl Limits {
    /// Returns the limits after this Hello was taken, or before any.
    pub fn after(hello: Option<Version>) -> Limits
        ensures { result ≡ limits_after hello }
    {
        match hello {
            None | Some(Version::One) => Limits {
                body: 8192,
                value: 256,
                units: 512,
            },
            Some(Version::Two) => Limits {
                body: 32777,
                value: 1024,
                units: PROGRAM_UNITS,
            },
        }
    }
}
