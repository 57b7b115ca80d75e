//! A worker's doors, one for each port.

use crate::door::{Door, sooner};
use crate::ports::Ports;
use crews::Protocol;
use std::time::Duration;

/// A worker's doors, one for each port. A door without a port is shut.
#[derive(Drop)]
pub(crate) struct Doors {
    frames: Door,
    commands: Door,
}

/// The door to a port, if it is there.
fn door_to(is_there: bool) -> Door {
    let mut door = Door::new();
    if !is_there {
        door.shut();
    }
    door
}

impl Doors {
    /// The doors to these ports.
    pub(crate) fn of(ports: &Ports) -> Doors {
        Doors {
            frames: door_to(ports.frames.is_some()),
            commands: door_to(ports.commands.is_some()),
        }
    }

    /// The door to the port whose clients speak this protocol.
    pub(crate) fn door(&mut self, protocol: Protocol) -> &mut Door {
        match protocol {
            Protocol::Frames => &mut self.frames,
            Protocol::Commands => &mut self.commands,
        }
    }

    /// The worker takes no further client.
    pub(crate) fn shut(&mut self) {
        self.frames.shut();
        self.commands.shut();
    }

    /// The worker takes no further client.
    pub(crate) fn are_shut(&self) -> bool {
        self.frames.is_shut() && self.commands.is_shut()
    }

    /// The worker's clients have had their turns, and it is this time.
    pub(crate) fn begin_round(&mut self, now: Duration) {
        self.frames.begin_round(now);
        self.commands.begin_round(now);
    }

    /// How long it is from now until the next look; none if a knock is waited for.
    pub(crate) fn wait(&self, now: Duration) -> Option<Duration> {
        sooner(self.frames.wait(now), self.commands.wait(now))
    }
}
