//! Readers and writers over memory, which may fail.
use map_server::{StreamSink, StreamSource, bpfmap_on};
use std::alloc::Global;
use std::io::{self, ErrorKind, Read, Write};
use std::sync::Wait;

/// Gives its bytes in pieces of at most this size, and then ends or fails.
#[derive(Drop)]
pub struct Pieces<'a> {
    pub rest: &'a [u8],
    pub size: usize,
    pub fails: bool,
}

impl Read for Pieces<'_> {
    fn read(&mut self, buf: &mut [u8]) -> io::Result<usize> {
        if self.rest.is_empty() && self.fails {
            return Err(io::Error::from(ErrorKind::BrokenPipe));
        }
        let all = self.rest;
        let n = self.size.min(all.len()).min(buf.len());
        buf[..n].copy_from_slice(&all[..n]);
        self.rest = &all[n..];
        Ok(n)
    }
}

/// Takes bytes while there is room, and then fails.
#[derive(Drop)]
pub struct Room {
    pub bytes: Vec<u8>,
    pub room: usize,
}

impl Room {
    /// Makes an empty room of this size.
    pub fn new(alloc: Global, room: usize) -> Room {
        Room {
            bytes: Vec::new(alloc),
            room,
        }
    }
}

impl Write for Room {
    fn write(&mut self, buf: &[u8]) -> io::Result<usize> {
        if self.room == 0 {
            return Err(io::Error::from(ErrorKind::BrokenPipe));
        }
        let n = self.room.min(buf.len());
        self.bytes.extend_from_slice(&buf[..n])?;
        self.room -= n;
        Ok(n)
    }

    fn flush(&mut self) -> io::Result<()> {
        Ok(())
    }
}

/// A device whose calls are each interrupted `times` times before they are made.
#[derive(Drop)]
pub struct Interrupted<D> {
    pub inner: D,
    times: u8,
    left: u8,
}

impl<D> Interrupted<D> {
    /// Makes a device whose calls are each interrupted this many times.
    pub fn new(inner: D, times: u8) -> Interrupted<D> {
        Interrupted {
            inner,
            times,
            left: times,
        }
    }

    /// Interrupts the call, or lets it through if it was interrupted often enough.
    fn interrupt(&mut self) -> io::Result<()> {
        if self.left == 0 {
            self.left = self.times;
            return Ok(());
        }
        self.left -= 1;
        Err(io::Error::from(ErrorKind::Interrupted))
    }
}

impl<R: Read> Read for Interrupted<R> {
    fn read(&mut self, buf: &mut [u8]) -> io::Result<usize> {
        self.interrupt()?;
        self.inner.read(buf)
    }
}

impl<W: Write> Write for Interrupted<W> {
    fn write(&mut self, buf: &[u8]) -> io::Result<usize> {
        self.interrupt()?;
        self.inner.write(buf)
    }

    fn flush(&mut self) -> io::Result<()> {
        self.inner.flush()
    }
}

/// The status and the bytes that a call of `bpfmap_on` leaves.
#[derive(Drop)]
pub struct Outcome {
    pub status: u8,
    pub output: Vec<u8>,
    pub errors: Vec<u8>,
}

impl Outcome {
    /// Tests whether it has this status, output and errors.
    pub fn is(&self, status: u8, output: &[u8], errors: &[u8]) -> bool {
        self.status == status
            && self.output.as_slice() == output
            && self.errors.as_slice() == errors
    }
}

pub const ROOM: usize = 1 << 20;

/// Makes one call, with this much room in standard output and standard error.
pub fn call<R: AllocGlobal + Wait>(
    rt: &R,
    words: &[&str],
    input: Pieces<'_>,
    output_room: usize,
    errors_room: usize,
) -> Outcome {
    let alloc = rt.alloc();
    let mut reader = StreamSource::new(input);
    let mut writer = StreamSink::new(Room::new(alloc, output_room));
    let mut errors = StreamSink::new(Room::new(alloc, errors_room));
    let status = bpfmap_on(rt, alloc, words, &mut reader, &mut writer, &mut errors);
    Outcome {
        status,
        output: writer.into_inner().bytes,
        errors: errors.into_inner().bytes,
    }
}
