//! The type of ranges.
ghost use Rattle.std.specs.Prelude.{◌≤◌, ◌≤ℤ◌};

/// The words whose unsigned reading lies from `umin` to `umax` and whose signed reading lies from `smin` to `smax`.
///
/// Each minimum is at most its maximum. Even so there may be no such word, as with `umax` 3 and `smax` -1.
#[derive(Clone, Copy, Debug, PartialEq, Eq)]
pub struct Range {
    pub umin: u64,
    pub umax: u64,
    pub smin: i64,
    pub smax: i64,
    pub ghost unsigned_order: { umin ≤ umax },
    pub ghost signed_order: { smin ≤ℤ smax },
}
