//! What all threads of a server know of it.
ghost use Rattle.std.specs.Prelude.{◌≡◌, false, is_some, IfOk, IsTrue, None};
ghost use Rattle.server_state.specs.Passwords.{lent};

use crate::clients::ServerClients;
use crate::counts::{
    Counts, WorkerCounts, commands_of, refused_of, requests_of, session_bytes_of, sum,
};
use crate::password::Password;
use crate::saves::{SaveFate, Saves};
use crate::slowlog::SlowLog;
use bpf_model::NoMemory;
use std::alloc::Global;
use std::sync::Wait;
use std::sync::atomic::{AtomicBool, Ordering};

/// What all threads of a server know of it. Times are in milliseconds since the epoch.
#[derive(Drop)]
pub struct ServerState {
    keeps: bool,
    /// Whether requests that may change the map are refused while saves fail.
    is_strict: bool,
    began: u64,
    saves: Saves,
    fails: AtomicBool,
    ends: AtomicBool,
    saves_at_end: AtomicBool,
    workers: Vec<WorkerCounts>,
    /// What threads counted that are no workers.
    others: WorkerCounts,
    password: Option<Password>,
    clients: ServerClients,
    slow: SlowLog,
    /// What may be kept for clients before those that need most are let go.
    session_bytes: u64,
}

/// What one worker knows of its server, and where it counts.
#[derive(Clone, Copy)]
pub struct WorkerState<'a> {
    /// The server.
    pub server: &'a ServerState,
    /// What the worker counts.
    pub counts: &'a WorkerCounts,
}

impl ServerState {
    /// A server that began at this time with this number of workers, and keeps its map in a file or not. `NoMemory` if a request for
    /// memory was refused.
    pub fn new(
        alloc: Global,
        workers: u64,
        keeps: bool,
        began: u64,
    ) -> Result<ServerState, NoMemory>
        ensures keeps { IfOk result (λ state. state.keeps ≡ keeps) }
        ensures began { IfOk result (λ state. state.began ≡ began) }
        ensures open { IfOk result (λ state. state.password ≡ None) }
        ensures strict { IfOk result (λ state. state.is_strict ≡ false) }
    {
        let mut all = Vec::new(alloc);
        for _ in 0..workers {
            all.push(WorkerCounts::new())?;
        }
        Ok(ServerState {
            keeps,
            is_strict: false,
            began,
            saves: Saves::new(),
            fails: AtomicBool::new(false),
            ends: AtomicBool::new(false),
            saves_at_end: AtomicBool::new(keeps),
            workers: all,
            others: WorkerCounts::new(),
            password: None,
            clients: ServerClients::new(alloc, workers)?,
            slow: SlowLog::off(alloc),
            session_bytes: u64::MAX,
        })
    }

    /// The same server, whose clients of commands have to show this password first, if there is one.
    pub fn with_password(self, password: Option<Password>) -> ServerState
        ensures password { result.password ≡ password }
        ensures strict { result.is_strict ≡ self.is_strict }
        ensures keeps { result.keeps ≡ self.keeps }
        ensures began { result.began ≡ self.began }
    {
        ServerState { password, ..self }
    }

    /// The same server, which refuses requests that may change the map while saves fail, or not.
    pub fn with_strict(self, is_strict: bool) -> ServerState
        ensures strict { result.is_strict ≡ is_strict }
        ensures password { result.password ≡ self.password }
        ensures keeps { result.keeps ≡ self.keeps }
        ensures began { result.began ≡ self.began }
    {
        ServerState { is_strict, ..self }
    }

    /// The same server, which keeps commands that take long in this log.
    pub fn with_slow_log(self, slow: SlowLog) -> ServerState
        ensures password { result.password ≡ self.password }
        ensures strict { result.is_strict ≡ self.is_strict }
        ensures keeps { result.keeps ≡ self.keeps }
        ensures began { result.began ≡ self.began }
    {
        ServerState { slow, ..self }
    }

    /// The same server, whose clients are crowded if more than this many bytes are kept for them.
    pub fn with_session_bytes(self, session_bytes: u64) -> ServerState
        ensures bytes { result.session_bytes ≡ session_bytes }
        ensures password { result.password ≡ self.password }
        ensures strict { result.is_strict ≡ self.is_strict }
        ensures keeps { result.keeps ≡ self.keeps }
        ensures began { result.began ≡ self.began }
    {
        ServerState {
            session_bytes,
            ..self
        }
    }

    /// Tests whether more bytes are kept for clients than may be. Those of the others count only if this worker has more than its
    /// share: so a worker rarely looks at their counts.
    #[inline(always)]
    pub fn is_crowded(&self, worker: u32) -> bool {
        let share = self.session_bytes / (self.workers.len() as u64).max(1);
        self.counts_of(worker).session_bytes() > share && self.are_all_crowded()
    }

    /// Tests whether more bytes are kept for the clients of all workers than may be.
    #[cold]
    fn are_all_crowded(&self) -> bool {
        session_bytes_of(&self.workers) > self.session_bytes
    }

    /// Returns the commands that took long.
    pub fn slow(&self) -> &SlowLog {
        &self.slow
    }

    /// Returns the password that clients of commands have to show first; none if they needn't.
    pub fn password(&self) -> Option<&Password>
        ensures { lent result ≡ self.now.password }
    {
        self.password.as_ref()
    }

    /// Tests whether the server keeps its map in a file.
    pub fn keeps(&self) -> bool
        ensures { result ≡ self.now.keeps }
    {
        self.keeps
    }

    /// Returns when the server began.
    pub fn began(&self) -> u64
        ensures { result ≡ self.now.began }
    {
        self.began
    }

    /// A thread saves from now on, whenever somebody asks for it.
    pub fn saver_began(&self) {
        self.saves.begin();
    }

    /// Asks for a save, and returns its ticket.
    pub fn ask_save(&self) -> u64 {
        self.saves.ask()
    }

    /// Returns the last ticket that was asked for; 0 if none was.
    pub fn save_asked(&self) -> u64 {
        self.saves.asked()
    }

    /// A save that began when this ticket was asked for, or later, is written. The time is that of its end.
    pub fn saved(&self, ticket: u64, at_millis: u64) {
        self.fails.store(false, Ordering::SeqCst);
        self.saves.saved(ticket, at_millis);
    }

    /// A save that began when this ticket was asked for, or later, could not be written.
    pub fn failed(&self, ticket: u64) {
        self.fails.store(true, Ordering::SeqCst);
        self.saves.failed(ticket);
    }

    /// Tests whether this ticket's save is written.
    pub fn is_saved(&self, ticket: u64) -> bool {
        self.saves.fate(ticket) == SaveFate::Saved
    }

    /// Tests whether the last save could not be written.
    pub fn is_failing(&self) -> bool {
        self.fails.load(Ordering::SeqCst)
    }

    /// Returns the server, if it is strict.
    pub fn if_strict(&self) -> Option<&ServerState>
        ensures { is_some result ≡ self.now.is_strict }
    {
        if self.is_strict { Some(self) } else { None }
    }

    /// Tests whether requests that may change the map are refused now: the last save could not be written, and the server is strict.
    pub fn refuses_changes(&self) -> bool
        ensures { IsTrue result → IsTrue self.now.is_strict }
    {
        self.is_strict && self.is_failing()
    }

    /// Returns when the last save was written; 0 if none was.
    pub fn last_save(&self) -> u64 {
        self.saves.last_save()
    }

    /// Waits for this ticket's save, a minute at most, or a second if no thread saves. Returns what came of it.
    pub fn wait_for_save<H: Wait>(&self, rt: &H, ticket: u64) -> SaveFate {
        self.saves.wait_for(rt, ticket)
    }

    /// The server ends, after a last save or without one.
    pub fn end(&self, saves: bool) {
        self.saves_at_end.store(saves, Ordering::SeqCst);
        self.ends.store(true, Ordering::SeqCst);
    }

    /// Tests whether the server is to end.
    pub fn is_ending(&self) -> bool {
        self.ends.load(Ordering::SeqCst)
    }

    /// Tests whether the server saves its map before it ends.
    pub fn saves_at_end(&self) -> bool {
        self.saves_at_end.load(Ordering::SeqCst)
    }

    /// Returns the table of the server's clients.
    pub fn clients(&self) -> &ServerClients {
        &self.clients
    }

    /// Returns where the worker of this number counts.
    pub fn counts_of(&self, worker: u32) -> &WorkerCounts {
        self.workers.get(worker as usize).unwrap_or(&self.others)
    }

    /// Returns what the worker of this number knows of the server.
    pub fn at(&self, worker: u32) -> WorkerState<'_> {
        WorkerState {
            server: self,
            counts: self.counts_of(worker),
        }
    }

    /// Returns what all counted since the server began.
    pub fn counts(&self) -> Counts {
        sum(&self.workers).plus(self.others.so_far())
    }

    /// Returns how many commands of this kind came since the server began.
    pub fn commands_of(&self, kind: usize) -> u64 {
        commands_of(&self.workers, kind)
    }

    /// Returns how many requests of this kind came since the server began.
    pub fn requests_of(&self, kind: usize) -> u64 {
        requests_of(&self.workers, kind)
    }

    /// Returns how many refusals in frames had this number since the server began.
    pub fn refused_of(&self, number: usize) -> u64 {
        refused_of(&self.workers, number)
    }
}
