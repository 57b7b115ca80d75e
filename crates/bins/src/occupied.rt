//! How many bytes bins take.

/// The bytes of memory that bins take, by what they are for.
#[derive(Clone, Copy, Debug, Default, PartialEq, Eq)]
pub struct Occupied {
    /// Keys and values, and the places where they are.
    pub rows: u64,
    /// What is kept beside them: the index that finds them, and whatever else a kind of bins keeps for its entries.
    pub index: u64,
}

impl Occupied {
    /// Returns the bytes of both.
    pub fn plus(self, other: Occupied) -> Occupied {
        Occupied {
            rows: self.rows.saturating_add(other.rows),
            index: self.index.saturating_add(other.index),
        }
    }

    /// Returns the same with this many more bytes beside the rows.
    pub fn and_beside(self, bytes: u64) -> Occupied {
        Occupied {
            rows: self.rows,
            index: self.index.saturating_add(bytes),
        }
    }

    /// Returns all of its bytes.
    pub fn total(self) -> u64 {
        self.rows.saturating_add(self.index)
    }
}

/// Bins that know how many bytes they take. No contract says so: it is told to whoever runs a server.
pub trait Occupies {
    /// Returns how many bytes they take: what their lists have room for, and the bytes of segments that were touched so far.
    /// Takes no memory. Never waits.
    fn occupied(&self) -> Occupied;
}
