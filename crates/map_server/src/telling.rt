//! What several workers tell on standard error.
ghost use Rattle.std.specs.Prelude.{◌≡◌, true};
ghost use Rattle.devices.specs.Devices.{CanWrite};

use devices::{Sink, write_all};

/// Standard error, which is not used again after it failed.
#[derive(Drop)]
pub struct Telling<'a, E: Sink> {
    errors: &'a mut E,
    usable: bool,
    ghost writes: { usable ≡ true → CanWrite (E.state errors.now) },
}

impl<'a, E: Sink> Telling<'a, E> {
    /// Standard error, which has not failed.
    pub fn new(errors: &'a mut E) -> Telling<'a, E>
        requires { CanWrite (E.state errors.old) }
    {
        Telling {
            errors,
            usable: true,
        }
    }

    /// Writes the text, unless standard error failed before.
    pub fn tell(&mut self, text: &[u8]) {
        if !self.usable {
            return;
        }
        self.usable = write_all(self.errors, text).is_ok();
    }
}
