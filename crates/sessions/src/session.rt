//! A session of one client: it reads pieces, and answers the requests in each before it reads the next one.
//!
//! The loop knows no table: the caller passes a function that answers the requests.
ghost use Rattle.std.specs.Prelude.{◌≡◌, ◌≢◌, ◌+◌, ℕ, List, false};
ghost use Rattle.std.specs.Io.KnownBytes.{Appends, Consumes, IsAtEnd};
ghost use Rattle.sessions.specs.Conversations.{AnswersBy};
ghost use Rattle.devices.specs.Devices.{CanRead, CanWrite};
ghost use Rattle.sessions.specs.Sessions.{Ended, HasToldEnd, ends_after, failed_reads, failed_writes};

mod conversation;
pub(crate) mod send;
mod service;

use crate::session::send::{AtOnce, refuse};
use bpf_model::{NoMemory, Value};
use client_protocol::{ProtocolFault, Request, Version};
pub use conversation::{Conversation, ConversationEnd, exchanges_join, pieces_join};
use devices::{ReadAfterFlush, Sink};
pub use send::end_of;
pub use service::{Answer, Service};
use std::alloc::Global;
use std::sync::Wait;

/// Why a session ended.
#[derive(Clone, Copy, Debug, PartialEq, Eq)]
pub enum SessionEnd {
    /// The reader told its end between two frames.
    Closed,
    /// The reader told its end inside a frame.
    Cut,
    /// The input has this fault, and the client was told.
    Refused(ProtocolFault),
    /// A read failed.
    ReadFailed,
    /// A write failed. The client has a beginning of the answers owed to it.
    WriteFailed,
    /// Memory for the last piece was refused, and the client was told.
    NoMemory,
}

/// A read takes at most this many bytes.
const PIECE_BYTES: usize = 4096;

/// Answers the requests that it reads, until the end. `answer` gets the state, the Hello that came before the request,
/// the request, and room for a value. The sink's bytes are passed on before each read.
pub fn run_session<
    H: Wait,
    R: ReadAfterFlush<W>,
    W: Sink,
    S: Service,
    F: Fn(&mut S, Option<Version>, &Request, &mut Value) -> Answer,
>(rt: &H, alloc: Global, reader: &mut R, writer: &mut W, state: &mut S, answer: &F) -> SessionEnd
    requires reads { CanRead (R.source reader.old) }
    requires writes { CanWrite (W.state writer.old) }
    requires answer { AnswersBy F.Fn answer.now S.answers }
    ensures ended { (read : List ℕ) × ((written : List ℕ)
        × (Consumes (R.source reader.old).left (R.source reader.new).left read
        × (Appends (W.state writer.old).held (W.state writer.new).held written
        × Ended S.answers state.old result read (R.source reader.new).last written state.new))) }
    ensures told { (R.source reader.new).ends ≡ ends_after result (R.source reader.old).ends }
    ensures whole { HasToldEnd result → IsAtEnd (R.source reader.new).left }
    ensures reads { (R.source reader.new).failures
        ≡ (R.source reader.old).failures + failed_reads result }
    ensures writes { (W.state writer.new).failures
        ≡ (W.state writer.old).failures + failed_writes result }
    ensures sent { (result ≢ SessionEnd.WriteFailed) → (W.state writer.new).keeps_back ≡ false }
{
    let mut conversation = Conversation::new(alloc);
    let mut piece = [0; PIECE_BYTES];
    for _ in rt.forever() {
        let Ok(()) = writer.flush() else {
            return SessionEnd::WriteFailed;
        };
        let Ok(n) = reader.read_after_flush(writer, &mut piece) else {
            return SessionEnd::ReadFailed;
        };
        if n == 0 {
            if conversation.is_inside() {
                return SessionEnd::Cut;
            }
            return SessionEnd::Closed;
        }
        match conversation.take::<S, F, W, AtOnce>(state, answer, &piece[..n], writer) {
            Ok(()) => {}
            Err(ConversationEnd::Refused(fault)) => {
                return refuse(writer, fault.number(), SessionEnd::Refused(fault));
            }
            Err(ConversationEnd::NoMemory) => {
                return refuse(writer, NoMemory::NUMBER, SessionEnd::NoMemory);
            }
            Err(ConversationEnd::WriteFailed) => return SessionEnd::WriteFailed,
        }
    }
    unreachable!()
}
