//! The password that clients show.
ghost use Rattle.std.specs.Prelude.{◌≡◌, bytes_eq, get_or, if◌then◌else◌, nat_eq};
ghost use Rattle.server_state.specs.Passwords.{made};

use arrayvec::ArrayVec;
use std::marker::Model;

/// A password has at most this many bytes.
pub const PASSWORD_BYTES: usize = 512;

/// A password of 1 to `PASSWORD_BYTES` bytes. In a contract it is the list of its bytes.
#[derive(Drop)]
pub struct Password {
    bytes: ArrayVec<u8, PASSWORD_BYTES>,
}

impl Model for Password {
    ghost use Rattle.std.specs.Prelude.{List, ℕ};

    ghost Value = { List ℕ };

    ghost view = { λ p. p.bytes.items };

    ghost inverse = { λ xs. record { bytes = record { items = xs } } };
}

/// Returns the byte at this place, or 0 after the last one.
fn byte_at(bytes: &[u8], place: usize) -> u8
    ensures { result ≡ get_or bytes.now place 0 }
{
    bytes.get(place).copied().unwrap_or(0)
}

/// Returns 1 if the bytes differ, and else 0.
fn one_if_different(one: u8, other: u8) -> usize
    ensures { result ≡ (if nat_eq one other then 0 else 1) }
{
    if one == other { 0 } else { 1 }
}

impl Password {
    /// Makes it of these bytes. `None` if there is none, or there are too many.
    pub fn new(bytes: &[u8]) -> Option<Password>
        ensures { result ≡ made bytes.now }
    {
        if bytes.is_empty() || bytes.len() > PASSWORD_BYTES {
            return None;
        }
        let mut kept = ArrayVec::new();
        kept.try_extend_from_slice(bytes).unwrap();
        Some(Password { bytes: kept })
    }

    /// Tests whether a client showed this password. It compares `PASSWORD_BYTES` places, whatever the bytes are, and leaves none out.
    pub fn is(&self, shown: &[u8]) -> bool
        ensures { result ≡ bytes_eq self.now shown.now }
    {
        let bytes = self.bytes.as_slice();
        let mut different = 0;
        for place in 0..PASSWORD_BYTES {
            different += one_if_different(byte_at(bytes, place), byte_at(shown, place));
        }
        (different == 0) & (bytes.len() == shown.len())
    }
}
