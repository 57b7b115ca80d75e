//! A reader and a writer in memory.
ghost use Rattle.std.specs.Prelude.{◌≤◌, vec_len};

use devices::{Failed, Sink, Source};

/// Gives its bytes once, and then those after the opening `times` times more.
#[derive(Drop)]
pub struct Repeated {
    bytes: Vec<u8>,
    opening: usize,
    times: u64,
    place: usize,
    last: usize,
    ends: u64,
    ghost opening_inside: { opening ≤ vec_len bytes },
    ghost place_inside: { place ≤ vec_len bytes },
}

impl Repeated {
    /// Takes these bytes; the first `opening` of them, or all if there are fewer, are the opening.
    pub fn new(bytes: Vec<u8>, opening: usize, times: u64) -> Repeated {
        let opening = opening.min(bytes.len());
        Repeated {
            bytes,
            opening,
            times,
            place: 0,
            last: 0,
            ends: 0,
        }
    }
}

impl Source for Repeated {
    ghost use Rattle.std.specs.Prelude.{None};

    ghost state = { λ s. record { left = None; last = s.last; ends = s.ends; failures = 0 } };

    fn read(&mut self, buffer: &mut [u8]) -> Result<usize, Failed> {
        if self.place == self.bytes.len() && self.times > 0 {
            self.times -= 1;
            self.place = self.opening;
        }
        let rest = &self.bytes[self.place..];
        let n = rest.len().min(buffer.len());
        buffer[..n].copy_from_slice(&rest[..n]);
        self.place += n;
        self.last = n;
        if n == 0 {
            self.ends = self.ends.wrapping_add(1);
        }
        Ok(n)
    }
}

/// Counts the bytes that it takes.
#[derive(Drop)]
pub struct Counter {
    bytes: u64,
}

impl Counter {
    /// Makes a counter of 0.
    pub fn new() -> Counter {
        Counter { bytes: 0 }
    }

    /// Returns how many bytes it has taken, modulo 2^64.
    pub fn bytes(&self) -> u64 {
        self.bytes
    }
}

impl Sink for Counter {
    ghost use Rattle.std.specs.Prelude.{None, false};

    ghost state = { λ _. record { held = None; keeps_back = false; failures = 0 } };

    fn write(&mut self, bytes: &[u8]) -> Result<usize, Failed> {
        self.bytes = self.bytes.wrapping_add(bytes.len() as u64);
        Ok(bytes.len())
    }

    fn flush(&mut self) -> Result<(), Failed> {
        Ok(())
    }
}
