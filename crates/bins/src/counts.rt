//! The counts of a pass over entries.

/// The number of entries that a pass visited, and what became of them.
#[derive(Clone, Copy, Debug, PartialEq, Eq)]
pub struct Counts {
    /// All entries.
    pub scanned: u64,
    /// The values that a replacement entered, whether they equal the old ones or not. In a walk, the items that it returns.
    pub given: u64,
    /// The entries that are too long for a declared size; their program didn't run.
    pub unfit: u64,
}
