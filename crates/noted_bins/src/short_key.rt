//! Keys that are short.
ghost use Rattle.std.specs.Prelude.{◌≡◌, ◌≤◌, ◌<◌, length, MatchOption};

use std::marker::Model;

/// The most bytes that a short key has.
pub(crate) const SHORT: usize = 15;

/// A key of at most `SHORT` bytes, in sixteen.
#[derive(Drop)]
pub(crate) struct ShortKey {
    many: u8,
    bytes: [u8; SHORT],
}

impl Model for ShortKey {
    ghost use Rattle.std.specs.Prelude.{List, ℕ, ◌≤◌, take};

    ghost Value = { List ℕ };

    ghost view = { λ key. take key.many key.bytes };

    ghost invariant = { λ key. key.many ≤ 15 };
}

impl ShortKey {
    /// Makes a short key of these bytes, if they are few enough.
    pub(crate) fn from_slice(bytes: &[u8]) -> Option<ShortKey>
        ensures value { MatchOption result (SHORT < length bytes.now) (λ key. key ≡ bytes.now) }
    {
        if bytes.len() > SHORT {
            return None;
        }
        let mut key = [0; SHORT];
        key[..bytes.len()].copy_from_slice(bytes);
        Some(ShortKey {
            many: bytes.len() as u8,
            bytes: key,
        })
    }

    /// The bytes.
    #[inline(always)]
    pub(crate) fn as_slice(&self) -> &[u8]
        ensures value { result.now ≡ self.now }
        ensures fits { length result.now ≤ SHORT }
    {
        &self.bytes[..usize::from(self.many)]
    }
}
