//! The clients of one port, as workers take them.
ghost use Rattle.std.specs.Prelude.{IfOk};
ghost use Rattle.devices.specs.Devices.{CanRead, CanWrite};

use crate::arrivals::{Arrivals, Limits, NO_LIMITS, Then};
use crate::patience::Patience;
use crate::quotas::Quotas;
use crate::shared_stream::SharedStream;
use crate::sockets::{hear_out, set_up, tell_no_room};
use crate::telling::Telling;
use crews::{Accept, Crew, Protocol, Tokens};
use devices::{Sink, Source, StreamSink, StreamSource};
use sessions::SessionEnd;
use std::alloc::Global;
use std::io::{self, BufWriter, ErrorKind};
use std::net::{TcpListener, TcpStream};
use std::rt::Clock;
use std::sync::Wait;
use std::thread;

/// How many bytes of answers are kept back at most, until the session flushes them.
const KEPT_BYTES: usize = 16384;

/// What a worker reads its client's requests from.
pub type TcpReader = StreamSource<SharedStream>;

/// What it writes the answers to.
pub type TcpWriter = StreamSink<BufWriter<SharedStream>>;

/// The clients of one port, which speak frames. Each worker takes its next client by itself, until it has served as many as it may.
/// It counts the clients. If an accept fails of a want that may pass, the worker waits and accepts again, for an hour at most. Any
/// other failed accept ends its worker. Standard error is told of both.
#[derive(Drop)]
pub struct TcpAccept<'a, 'b, H: Wait + Clock, E: Sink> {
    arrivals: Arrivals<'a, 'b, H, E>,
    alloc: Global,
    listener: TcpListener,
    quotas: Quotas,
}

/// A writer to the stream, which keeps answers back. If there is no memory for that, it keeps back none.
fn writer_to(alloc: Global, stream: &SharedStream) -> io::Result<BufWriter<SharedStream>> {
    match BufWriter::with_capacity(alloc, KEPT_BYTES, stream.shared()?) {
        Ok(writer) => Ok(writer),
        Err(_) => BufWriter::with_capacity(alloc, 0, stream.shared()?),
    }
}

/// The stream for a reader, and a writer to it. It has one descriptor.
fn both_ways(
    alloc: Global,
    stream: TcpStream,
) -> io::Result<(SharedStream, BufWriter<SharedStream>)> {
    let stream = SharedStream::new(alloc, stream)?;
    let writer = writer_to(alloc, &stream)?;
    Ok((stream, writer))
}

impl<'a, 'b, H: Wait + Clock, E: Sink> TcpAccept<'a, 'b, H, E> {
    /// The clients of the port that the listener is bound to, for the workers of these quotas. A failed accept is told in
    /// a line of standard error. There are no limits.
    pub fn new(
        rt: &'a H,
        alloc: Global,
        listener: TcpListener,
        quotas: Quotas,
        errors: Telling<'b, E>,
    ) -> TcpAccept<'a, 'b, H, E> {
        TcpAccept::within(rt, alloc, listener, quotas, NO_LIMITS, errors)
    }

    /// The same clients, within these limits.
    pub fn within(
        rt: &'a H,
        alloc: Global,
        listener: TcpListener,
        quotas: Quotas,
        limits: Limits,
        errors: Telling<'b, E>,
    ) -> TcpAccept<'a, 'b, H, E> {
        TcpAccept {
            arrivals: Arrivals::new(rt, alloc, limits, errors),
            alloc,
            listener,
            quotas,
        }
    }

    /// How many clients were handed out.
    pub fn streams(&self) -> u64 {
        self.arrivals.streams()
    }

    /// An accept failed.
    pub fn has_failed(&self) -> bool {
        self.arrivals.has_failed()
    }

    /// What tells standard error.
    pub(crate) fn into_telling(self) -> Telling<'b, E> {
        self.arrivals.into_telling()
    }

    /// It is worth while to try again, now that as long was waited as is needed.
    fn waits(&self, patience: &mut Patience, error: &io::Error) -> bool {
        match self.arrivals.after_fault(patience, error) {
            Then::Again => true,
            Then::Never => false,
            Then::After(wait) => {
                thread::sleep(self.arrivals.rt, wait);
                true
            }
        }
    }

    /// The next connection.
    fn next_stream(&self) -> io::Result<TcpStream> {
        let mut patience = Patience::new();
        for _ in 0..u64::MAX {
            match self.listener.accept() {
                Ok((stream, _)) => {
                    self.arrivals.tell_plenty(&mut patience);
                    return Ok(stream);
                }
                Err(error) if self.waits(&mut patience, &error) => {}
                Err(error) => return Err(error),
            }
        }
        Err(io::Error::from(ErrorKind::Interrupted))
    }

    /// The next connection for which there is room. The others are told that there is none.
    fn next_within(&self) -> io::Result<TcpStream> {
        for _ in 0..u64::MAX {
            let stream = self.next_stream()?;
            if self.arrivals.comes() {
                return Ok(stream);
            }
            let mut told = &stream;
            tell_no_room(&mut told, Protocol::Frames);
            hear_out(self.arrivals.rt, &stream);
        }
        Err(io::Error::from(ErrorKind::Interrupted))
    }

    /// The next client's reader and writer.
    fn next_client(&self) -> io::Result<(TcpReader, TcpWriter)>
        ensures reads { IfOk result (λ client. CanRead (⟦<TcpReader as Source>⟧.state client.0)) }
        ensures writes { IfOk result (λ client. CanWrite (⟦<TcpWriter as Sink>⟧.state client.1)) }
    {
        let stream = self.next_within()?;
        set_up(&stream, self.arrivals.limits.idle);
        match both_ways(self.alloc, stream) {
            Ok((reader, writer)) => {
                self.arrivals.is_handed_out();
                Ok((StreamSource::new(reader), StreamSink::new(writer)))
            }
            Err(error) => {
                self.arrivals.leaves();
                Err(error)
            }
        }
    }
}

impl<'a, 'b, H: Wait + Clock, E: Sink> Accept<TcpReader, TcpWriter> for TcpAccept<'a, 'b, H, E> {
    fn next(&self, crew: &Crew) -> Option<(TcpReader, TcpWriter)> {
        if !self.quotas.has_left(crew.worker) {
            return None;
        }
        self.quotas.begin(crew.worker);
        match self.next_client() {
            Ok(client) => Some(client),
            Err(error) => {
                self.arrivals.tell_failure(crew.worker, &error);
                None
            }
        }
    }

    fn ended(
        &self,
        _crew: &Crew,
        reader: TcpReader,
        writer: TcpWriter,
        end: SessionEnd,
        _tokens: Tokens<'_>,
    ) {
        let (stream, _) = writer.into_inner().into_parts();
        if matches!(end, SessionEnd::Refused(_) | SessionEnd::NoMemory) {
            hear_out(self.arrivals.rt, stream.as_stream());
        }
        drop(reader);
        self.arrivals.leaves();
    }
}
