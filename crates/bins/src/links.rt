//! What leads from one position of a chain to the next.
ghost use Rattle.std.specs.Prelude.{◌≡◌, ◌<◌};

use std::marker::Model;

/// There are fewer positions than this: no memory has room for as many.
pub const MOST_POSITIONS: u64 = 1 << 48;

/// A link of a chain in eight bytes: the position that it leads to, counted from 1, or 0 if it leads to none; and beside that the highest 16
/// bits of the hash there. So a link mostly tells whether that position is the right one.
#[derive(Drop)]
pub struct LinkWord {
    word: u64,
}

const _: () = prove!(size_of::<LinkWord>() == 8);

impl Model for LinkWord {
    ghost use Rattle.std.specs.Prelude.{ℕ, ◌%◌};
    ghost use Rattle.bins.specs.declared.links.TheConstants.{MOST_POSITIONS};

    ghost Value = { ℕ };

    ghost view = { λ link. link.word % MOST_POSITIONS };
}

impl LinkWord {
    /// Returns a link that leads to no position.
    pub fn none() -> LinkWord
        ensures { result ≡ 0 }
    {
        LinkWord { word: 0 }
    }

    /// Returns a link that leads to this position, counted from 1, or to none; the position has this hash.
    #[inline(always)]
    pub fn new(at: usize, hash: u64) -> LinkWord
        requires { at < MOST_POSITIONS }
        ensures { result ≡ at }
    {
        LinkWord {
            word: hash / MOST_POSITIONS * MOST_POSITIONS + at as u64,
        }
    }

    /// Returns the position that it leads to, counted from 1; 0 if it leads to none.
    #[inline(always)]
    pub fn at(&self) -> usize
        ensures value { result ≡ self.now }
    {
        (self.word % MOST_POSITIONS) as usize
    }

    /// Returns the same link.
    #[inline(always)]
    pub fn copied(&self) -> LinkWord
        ensures { result ≡ self.now }
    {
        LinkWord { word: self.word }
    }

    /// Tests whether the bits beside the position are those of this hash.
    #[inline(always)]
    pub fn has_bits_of(&self, hash: u64) -> bool {
        self.word / MOST_POSITIONS == hash / MOST_POSITIONS
    }
}
