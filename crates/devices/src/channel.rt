//! Connections that never block.
ghost use Rattle.std.specs.Prelude.{◌≤◌, length};

/// The result of one receive.
#[derive(Clone, Copy, Debug, PartialEq, Eq)]
pub enum Received {
    /// This number of bytes, at least one, at the front of the room.
    Bytes(usize),
    /// No byte has arrived.
    NotNow,
    /// The client sends no more.
    Ended,
    /// The connection failed.
    Failed,
}

/// The result of one send.
#[derive(Clone, Copy, Debug, PartialEq, Eq)]
pub enum Sent {
    /// This number of bytes of the front, at least one, were taken.
    Took(usize),
    /// None is taken now.
    NotNow,
    /// The connection failed.
    Failed,
}

/// A connection that never blocks: a call does what it can at once.
pub trait Channel {
    ghost use Rattle.devices.specs.Channels.{ChannelState, Receives, Sends};

    /// The bytes that are left to be received, and those that were taken, if the connection tells them.
    ghost state: { Self → ChannelState };

    /// Receives bytes into the front of the room.
    fn receive(&mut self, room: &mut [u8]) -> Received
        requires { 1 ≤ length room.old }
        ensures { Receives (state self.old) (state self.new) result room.new };

    /// Sends bytes from the front.
    fn send(&mut self, bytes: &[u8]) -> Sent
        requires { 1 ≤ length bytes.now }
        ensures { Sends (state self.old) (state self.new) result bytes.now };
}
