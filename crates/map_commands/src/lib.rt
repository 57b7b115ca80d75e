//! What the program `bpfmap` does, over readers and writers that are handed in.
//!
//! The promise to the layers above: `bpfmap_on` does what its words ask for, prints and tells that and nothing else (by
//! `specs/CommandLine.antt`, `specs/Commands.antt`, `specs/Endings.antt` and `specs/Executions.antt`). Sessions,
//! devices and admission are crates below; what a program needs of them is here too. A session waits for its reader, and
//! nothing else waits. A refused request for memory is told as a refusal. What another program needs to read words and to
//! tell endings is public too.
#![tactic(auto)]

mod commands;
mod ending;
mod exec;
mod hex;
mod meaning;
mod program;
mod refusal;
mod report;
mod shown;
mod words;

pub use admission::{AdmissionFault, ProgramLimits, admit};
pub use commands::report_of;
pub use devices::{
    Failed, ReadAfterFlush, ReadFault, Sink, Source, StreamSink, StreamSource, read_all, write_all,
};
pub use ending::{Ending, FAILED_DEVICE, REFUSED, refuse, warn};
pub use hex::{HexFault, hex_bytes};
pub use program::{bpfmap_on, tell_unread_words, told_error};
pub use refusal::Refusal;
pub use report::{LINE_BYTES, Line, Report, append, text_line, unit_lines};
pub use sessions::{Alone, Answer, Service, SessionEnd, run_session, session_alone};
pub use words::{
    Command, RunTexts, Task, flag_option, given_size, is_given, parse_words, size_option,
};
