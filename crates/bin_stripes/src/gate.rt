//! Points at which a test may hold a worker.

/// A worker's place.
#[derive(Clone, Copy, Debug, PartialEq, Eq)]
pub enum Place {
    /// Before the first stripe of a walk.
    WalkStart,
    /// While it holds a stripe.
    Held,
    /// Before it answers a request.
    Request,
}

/// A worker passes the gate at each `Place`. The gate may hold it there.
pub trait Gate {
    /// The worker with this number is at the place.
    fn pass(&self, place: Place, worker: u32);
}

/// A gate that holds nobody.
pub struct OpenGate;

impl Gate for OpenGate {
    fn pass(&self, _place: Place, _worker: u32) {}
}
