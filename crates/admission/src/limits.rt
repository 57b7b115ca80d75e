//! The limits of a program.
ghost use Rattle.std.specs.Prelude.{◌↔◌, IsTrue};
ghost use Rattle.admission.specs.Admissions.{HasManyUnits, HasLargeWindow};

use bpf_model::Sizes;
use bpf_model::limits::{KEY_BYTES, PROGRAM_UNITS, VALUE_BYTES};
use std::marker::Model;

/// The most units of a program, and the most bytes of its old value, argument and result.
#[derive(Clone, Copy, Debug, PartialEq, Eq)]
pub struct ProgramLimits {
    pub units: usize,
    pub window: usize,
}

impl Model for ProgramLimits {
    ghost use Rattle.std.specs.Prelude.{◌≤◌};
    ghost use Rattle.bpf_model.specs.declared.limits.TheConstants.{VALUE_BYTES};
    ghost use Rattle.admission.specs.Admissions.{Allowance};

    ghost Value = { Allowance };

    ghost view = { λ limits. record { units = limits.units; window = limits.window } };

    // No limit is higher than in `GREATEST`.
    ghost invariant = { λ limits. limits.window ≤ VALUE_BYTES };

    ghost inverse = { λ allowance. record { units = allowance.units; window = allowance.window } };
}

/// A unit has this many bytes.
const UNIT_BYTES: usize = 8;

impl ProgramLimits {
    /// The limits of any program.
    pub const GREATEST: ProgramLimits = ProgramLimits {
        units: PROGRAM_UNITS,
        window: VALUE_BYTES,
    };

    /// Tests whether the bytes are whole units, and more than the limits allow.
    pub(crate) fn has_many_units(self, bytes: &[u8]) -> bool
        ensures { IsTrue result ↔ HasManyUnits self bytes.now }
    {
        bytes.len() % UNIT_BYTES == 0 && bytes.len() / UNIT_BYTES > self.units
    }

    /// Tests whether a declared size is above its limit; for a key that is the limit of any key.
    pub(crate) fn has_large_window(self, sizes: Sizes) -> bool
        ensures { IsTrue result ↔ HasLargeWindow self sizes }
    {
        usize::from(sizes.key) > KEY_BYTES
            || usize::from(sizes.old) > self.window
            || usize::from(sizes.arg) > self.window
            || usize::from(sizes.result) > self.window
    }
    /// Tests whether the bytes and sizes are within the limits. It doesn't look at the program in the bytes. Takes no
    /// memory.
    pub fn allows(self, bytes: &[u8], sizes: Sizes) -> bool
        ensures { IsTrue result ↔ ((HasManyUnits self bytes.now → ⊥) × (HasLargeWindow self sizes → ⊥)) }
    {
        !self.has_many_units(bytes) && !self.has_large_window(sizes)
    }
}
