//! What the program `mapd` does, over writers that are handed in and the network.
//!
//! The promise to the layers above: `mapd_on` does what its words ask for, and prints nothing else (by
//! `specs/ServerWords.antt` and `specs/ServerRuns.antt`). What `bpfmap` does is the crate map_commands, and sessions over a
//! shared map are the crate crews; sessions, devices and admission are crates below. What a program needs of them is here
//! too. A server waits for its clients. A refused request for memory is told as a refusal.
#![tactic(auto)]

mod accept;
mod arrivals;
mod connection;
mod departures;
mod door;
mod doors;
mod entrance;
mod keeping;
mod memory;
mod metrics;
mod opening;
mod passwords;
mod patience;
mod ports;
mod posts;
mod program;
mod quotas;
mod ready;
mod roll;
mod seats;
mod server;
mod serving;
mod shared_stream;
mod sockets;
mod stopwatch;
mod sweeps;
mod tcp;
mod tcp_clients;
mod telling;
mod threads;
mod wall_clock;
mod witness;
mod words;

pub use accept::{TcpAccept, TcpReader, TcpWriter};
pub use admission::{AdmissionFault, ProgramLimits, admit};
pub use arrivals::Limits;
pub use crews::{Accept, Crew, serve, session};
pub use devices::{
    Failed, ReadAfterFlush, ReadFault, Sink, Source, StreamSink, StreamSource, read_all, write_all,
};
pub use map_commands::{
    Command, Ending, HexFault, LINE_BYTES, Line, Refusal, Report, RunTexts, Task, bpfmap_on,
    hex_bytes, parse_words, report_of, tell_unread_words, unit_lines,
};
pub use map_keeper::{HostFiles, KeepFault, KeptFile, OnDisk, Opener};
pub use memory::Shares;
pub use opening::open_server;
pub use passwords::PasswordFiles;
pub use ports::{Binder, Ports, first_listener};
pub use program::mapd_on;
pub use quotas::Quotas;
pub use server::{Protocols, Server};
pub use serving::Served;
pub use sessions::{Alone, Answer, Service, SessionEnd, run_session, session_alone};
pub use shared_stream::SharedStream;
pub use telling::Telling;
pub use witness::Witness;
pub use words::{MapdWords, WordsFault, mapd_words};
