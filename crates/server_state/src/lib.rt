//! What all threads of a server know of it: which saves were asked for and written, whether the server ends, what its workers counted, and
//! who its clients are.
//!
//! A thread that keeps the map in a file takes the last ticket that was asked for (`save_asked`), writes the map, and then says `saved` or
//! `failed` of that ticket. All who asked before it began are served then. No contract says what another thread does: each number that is
//! read here may be any.
#![tactic(auto)]

mod clients;
mod counts;
mod password;
mod resident;
mod saves;
mod slowlog;
mod state;

pub use clients::{
    CLIENT_TEXT_BYTES, ClientFact, ClientPulse, ClientText, ClientView, KillFilter, Killed,
    ServerClients, client_number, client_text,
};
pub use counts::{Counts, MOST_KINDS, WorkerCounts};
pub use password::{PASSWORD_BYTES, Password};
pub use resident::resident_bytes;
pub use saves::SaveFate;
pub use slowlog::{SLOW_ENTRIES, SLOW_WORD_BYTES, SLOW_WORDS, SlowEntry, SlowLog, SlowWord};
pub use state::{ServerState, WorkerState};
