//! Where the row of a position is: its width, and its place among the rows of that width.
ghost use Rattle.std.specs.Prelude.{◌≡◌};
ghost use Rattle.bins.specs.KeptRows.{IsNear};

use std::marker::Model;

/// The most positions that there may be: more than any memory has room for.
pub const MOST_ROWS: usize = 1 << 56;
/// The number of widths that a location can tell apart.
pub const WIDTH_CODES: u64 = 32;
/// Stands in a location instead of a width if there is no row.
pub const VACANT_CODE: u64 = 31;

/// The width of a row: its place among all widths, the narrowest first.
#[derive(Clone, Copy, PartialEq, Eq)]
pub struct Width {
    /// The place.
    pub step: usize,
}

/// The location of a position's row.
#[derive(Clone, Copy)]
pub enum Location {
    /// There is no row.
    Vacant,
    /// The row is at this position among the rows of this width.
    In(Width, usize),
}

/// A location in eight bytes.
#[derive(Drop)]
pub struct LocationWord {
    word: u64,
}

impl Model for LocationWord {
    ghost use Rattle.bins.specs.declared.locations.Location.{Location};
    ghost use Rattle.bins.specs.KeptRows.{location_of};

    ghost Value = { Location };

    ghost view = { λ word. location_of word.word };
}

impl LocationWord {
    /// Returns the word of a location.
    #[inline(always)]
    pub(crate) fn new(location: Location) -> LocationWord
        requires { IsNear location }
        ensures { result ≡ location }
    {
        let word = match location {
            Location::Vacant => VACANT_CODE,
            Location::In(width, at) => at as u64 * WIDTH_CODES + width.step as u64,
        };
        LocationWord { word }
    }

    /// Returns the location.
    #[inline(always)]
    pub(crate) fn get(&self) -> Location
        ensures value { result ≡ self.now }
    {
        let step = self.word % WIDTH_CODES;
        if step == VACANT_CODE {
            return Location::Vacant;
        }
        let width = Width {
            step: step as usize,
        };
        Location::In(width, (self.word / WIDTH_CODES) as usize)
    }
}
