//! A device failed.

/// A device could not be used. Don't use it again.
#[derive(Clone, Copy, Debug, PartialEq, Eq)]
pub struct Failed;
