//! The service of one client: its own table, and the programs that it registers.
ghost use Rattle.std.specs.Prelude.{◌≡◌, ◌≢◌, ◌+◌, ◌↔◌, ℕ, List, [], ◌∷◌, Option, false, option_copied, slice_get, IfOk, IsErrOf};
ghost use Rattle.std.specs.Io.KnownBytes.{Appends, Consumes, IsAtEnd};
ghost use Rattle.atomic_methods.specs.Hashes.{IsStripeCount};
ghost use Rattle.client_protocol.specs.declared.limits.Version.{Version as TheVersion};
ghost use Rattle.client_protocol.specs.Responses.{response_of};
ghost use Rattle.sessions.specs.Answering.{responses_of};
ghost use Rattle.sessions.specs.Asking.{walk, replacement, count, asked, with_program, IsCall};
ghost use Rattle.sessions.specs.Requests.{Meets, AnswersRegister, Serves, IsNew};
ghost use Rattle.devices.specs.Devices.{CanRead, CanWrite};
ghost use Rattle.sessions.specs.Sessions.{Ended, HasToldEnd, ends_after, failed_reads, failed_writes};

mod programs;

use crate::alone::programs::Programs;
use crate::calls::{argument_of, call_of};
use crate::responses::{answer_to, no_memory, program_sent, unknown_program};
use crate::session::{Answer, Service, SessionEnd, end_of, run_session};
use atomic_methods::{OpenFault, Striped, WalkKind, count_of};
use bpf_model::{NoMemory, Sizes, Value};
use client_protocol::{Request, RequestView, ShortResponse, Version};
use devices::{ReadAfterFlush, Sink};
use std::alloc::Global;
use std::sync::Wait;

/// A table, and programs with the numbers 0, 1, 2 and on.
#[derive(Drop)]
pub struct Alone {
    table: Striped,
    programs: Programs,
}

impl Alone {
    /// Opens an empty table with this number of stripes, and no programs. `BadStripes` if a table may not have that
    /// number, else `NoMemory` if a request for memory is refused.
    pub fn open(alloc: Global, stripes: u64) -> Result<Alone, OpenFault>
        ensures bad_stripes { IsErrOf result OpenFault.BadStripes ↔ (IsStripeCount stripes → ⊥) }
        ensures ok { IfOk result (λ alone. IsNew alone) }
    {
        Ok(Alone {
            table: Striped::open(alloc, stripes)?,
            programs: Programs::new(alloc),
        })
    }
}

impl Alone {
    /// Gives the program that the bytes spell the next number and keeps it. It was sent after this Hello.
    fn register(
        &mut self,
        alloc: Global,
        hello: Option<Version>,
        sizes: Sizes,
        bytes: &[u8],
    ) -> ShortResponse
        ensures { AnswersRegister hello self.old sizes bytes.now (response_of result ∷ []) self.new }
    {
        let program = match program_sent(alloc, hello, bytes, sizes) {
            Ok(program) => program,
            Err(response) => return response,
        };
        match self.programs.add(program) {
            Ok(program) => ShortResponse::Registered { program },
            Err(NoMemory) => no_memory(),
        }
    }

    /// Makes the requested call. Leaves the value of its reply, if it has one, in `value`.
    fn call(&mut self, request: &Request, value: &mut Value) -> Answer
        requires { IsCall request.now }
        ensures { (hello : Option TheVersion) → Meets hello self.old
            (asked (λ number. slice_get self.old.programs number) request.now) (responses_of result value.new) self.new }
    {
        let program = self.programs.named_by(request);
        let Some(call) = call_of(request, program) else {
            return Answer::One(unknown_program());
        };
        match self.table.apply_into(&call, value) {
            Ok(kind) => answer_to(kind),
            Err(NoMemory) => Answer::One(no_memory()),
        }
    }

    /// Runs the program of this number over all entries. Not inlined, so that a call clears no place for an argument.
    #[inline(never)]
    fn walk(&self, alloc: Global, kind: WalkKind, number: u64, arg: Option<&Value>) -> Answer
        ensures { (hello : Option TheVersion) (bytes : List ℕ) → Meets hello self.now
            (with_program (slice_get self.now.programs number) (λ program. walk kind program (option_copied arg.entry)))
            (responses_of result bytes) self.now }
    {
        let Some(program) = self.programs.get(number) else {
            return Answer::One(unknown_program());
        };
        let arg = argument_of(arg);
        match self.table.walk(alloc, kind, program, &arg) {
            Ok(reply) => Answer::Walk(reply),
            Err(NoMemory) => Answer::One(no_memory()),
        }
    }

    /// Counts all entries.
    fn count(&self, alloc: Global) -> Answer
        ensures { (hello : Option TheVersion) (bytes : List ℕ) → Meets hello self.now count (responses_of result bytes) self.now }
    {
        Answer::Walk(count_of(alloc, self.table.count()))
    }

    /// Replaces the value of each key by the answer of the program of this number. Not inlined, for the same reason as
    /// `walk`.
    #[inline(never)]
    fn replace_all(&mut self, number: u64, arg: Option<&Value>) -> ShortResponse
        ensures { (hello : Option TheVersion) → Meets hello self.old
            (with_program (slice_get self.old.programs number) (λ program. replacement program (option_copied arg.entry)))
            (response_of result ∷ []) self.new }
    {
        let arg = argument_of(arg);
        match self.programs.get(number) {
            Some(program) => end_of(self.table.replace_each(program, &arg)),
            None => unknown_program(),
        }
    }

    /// Answers the request, which came after this Hello. If the answer found a value, leaves it in `value`, whose old contents
    /// are lost. A refused request for memory is an answer too.
    fn answer(
        &mut self,
        alloc: Global,
        hello: Option<Version>,
        request: &Request,
        value: &mut Value,
    ) -> Answer
        ensures { Serves hello self.old request.now (responses_of result value.new) self.new }
    {
        match request.view() {
            RequestView::Hello { version } => Answer::One(ShortResponse::Hello { version }),
            RequestView::Register { sizes, program } => {
                Answer::One(self.register(alloc, hello, sizes, program))
            }
            RequestView::Search { program, arg, .. } => {
                self.walk(alloc, WalkKind::Search, program, arg)
            }
            RequestView::ForEach { program, arg, .. } => {
                self.walk(alloc, WalkKind::ForEach, program, arg)
            }
            RequestView::ReplaceAll { program, arg } => {
                Answer::One(self.replace_all(program, arg))
            }
            RequestView::Count => self.count(alloc),
            _ => self.call(request, value),
        }
    }
}

impl Service for Alone {
    ghost use Rattle.sessions.specs.Requests.{Serves};

    ghost answers = { Serves };
}

/// Answers the requests that it reads, each before it looks at the next one, until the reader tells its end, a device
/// fails, or the input is refused. The sink's bytes are passed on before each read, and at the end. The table and the
/// programs are then as the answered requests left them. If a write failed, this includes the request whose answer is not
/// wholly written. A refused request for memory is answered with 9. It ends the session only if the memory was needed to
/// take in the piece of the last read. Waits for the reader.
pub fn session_alone<H: Wait, R: ReadAfterFlush<W>, W: Sink>(
    rt: &H,
    alloc: Global,
    reader: &mut R,
    writer: &mut W,
    alone: &mut Alone,
) -> SessionEnd
    requires reads { CanRead (R.source reader.old) }
    requires writes { CanWrite (W.state writer.old) }
    // The requests that were read are answered. One that was refused memory has 9 for an answer, as `Serves` says, and the
    // next one is answered too: 9 ends a session only at the piece of the last read.
    ensures ended { (read : List ℕ) × ((written : List ℕ)
        × (Consumes (R.source reader.old).left (R.source reader.new).left read
        × (Appends (W.state writer.old).held (W.state writer.new).held written
        × Ended Serves alone.old result read (R.source reader.new).last written alone.new))) }
    // The reader told its end in this call exactly if the session ended that way.
    ensures told { (R.source reader.new).ends ≡ ends_after result (R.source reader.old).ends }
    ensures whole { HasToldEnd result → IsAtEnd (R.source reader.new).left }
    ensures reads { (R.source reader.new).failures
        ≡ (R.source reader.old).failures + failed_reads result }
    ensures writes { (W.state writer.new).failures
        ≡ (W.state writer.old).failures + failed_writes result }
    // Nothing is kept back at the end. `read_after_flush` requires that nothing is kept back before a read.
    ensures sent { (result ≢ SessionEnd.WriteFailed) → (W.state writer.new).keeps_back ≡ false }
{
    let answer = |alone: &mut Alone, hello, request: &Request, value: &mut Value| {
        alone.answer(alloc, hello, request, value)
    };
    run_session(rt, alloc, reader, writer, alone, &answer)
}
