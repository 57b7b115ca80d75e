//! The time of a turn.

/// The time at which the commands of a piece make their calls, in milliseconds since the epoch, the runtime by which they wait, and
/// whether those of them are refused that may change the map.
#[derive(Drop)]
pub struct Moment<'t, H> {
    /// The runtime.
    pub rt: &'t H,
    /// The time.
    pub time: u64,
    /// Whether commands that may change the map are refused.
    pub refuses: bool,
}
