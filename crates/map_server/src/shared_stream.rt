//! A connection that its reader and its writer share.

use std::alloc::{AllocError, Global};
use std::io::{self, Read, Write};
use std::net::TcpStream;
use std::sync::Arc;

/// A connection that its reader and its writer share, so that it has one descriptor. It is closed when both are gone.
#[derive(Drop)]
pub struct SharedStream {
    stream: Arc<TcpStream, Global>,
}

impl SharedStream {
    /// The connection, which nothing else shares. `AllocError` if a request for memory was refused.
    pub(crate) fn new(alloc: Global, stream: TcpStream) -> Result<SharedStream, AllocError> {
        Ok(SharedStream {
            stream: Arc::new(alloc, stream)?,
        })
    }

    /// The same connection, once more. `AllocError` if it is shared too often.
    pub(crate) fn shared(&self) -> Result<SharedStream, AllocError> {
        Ok(SharedStream {
            stream: Arc::try_clone(&self.stream)?,
        })
    }

    /// The connection.
    pub(crate) fn as_stream(&self) -> &TcpStream {
        &self.stream
    }
}

impl Read for SharedStream {
    fn read(&mut self, buffer: &mut [u8]) -> io::Result<usize> {
        let mut stream = self.as_stream();
        stream.read(buffer)
    }
}

impl Write for SharedStream {
    fn write(&mut self, bytes: &[u8]) -> io::Result<usize> {
        let mut stream = self.as_stream();
        stream.write(bytes)
    }

    fn flush(&mut self) -> io::Result<()> {
        Ok(())
    }
}
