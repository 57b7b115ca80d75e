//! How many workers run at once.
ghost use Rattle.std.specs.Prelude.{◌≤◌};

use crate::telling::Telling;
use devices::Sink;
use std::alloc::{AllocError, Global};
use std::sync::{Mutex, Wait};
use std::thread;
use std::thread::Threads;

/// How many threads the system makes at once, `wanted` at most. Each waits until all have been asked for, and ends.
fn threads_made<H: Threads + Wait + Sync>(rt: &H, wanted: u64) -> u64 {
    let gate = Mutex::new(());
    let gate = &gate;
    thread::scope(thread::scope_env(), rt, |scope| {
        let held = gate.lock(rt);
        let mut made = 0u64;
        for _ in 0..wanted {
            if scope.spawn(move || drop(gate.lock(rt))).is_err() {
                break;
            }
            made = made.saturating_add(1);
        }
        drop(held);
        made
    })
}

/// How many of the workers can run at once beside this number of other threads: one takes the calling thread if no further one can be
/// made.
fn running_workers<H: Threads + Wait + Sync>(rt: &H, workers: u64, others: u64) -> u64
    ensures { result ≤ workers }
{
    if workers < 2 {
        return workers;
    }
    let made = threads_made(rt, workers.saturating_add(others));
    made.saturating_sub(others).saturating_add(1).min(workers)
}

/// The threads beside those of the workers.
#[derive(Clone, Copy, Debug, PartialEq, Eq)]
pub(crate) struct Others {
    /// One saves the map.
    pub(crate) saves: bool,
    /// One answers readers of the server's numbers.
    pub(crate) answers: bool,
}

impl Others {
    /// How many they are.
    fn number(self) -> u64 {
        u64::from(self.saves).saturating_add(u64::from(self.answers))
    }
}

/// Tells standard error if no thread can be made that saves the map while clients are served, or none that answers readers of the
/// server's numbers.
fn tell_others<H: Threads + Wait + Sync, E: Sink>(
    rt: &H,
    others: Others,
    errors: &mut Telling<'_, E>,
) {
    let made = threads_made(rt, others.number());
    if others.saves && made == 0 {
        errors.tell(b"the map is saved at the end alone: no further thread could be made\n");
    }
    if others.answers && made < others.number() {
        errors.tell(b"readers of metrics are not answered: no further thread could be made\n");
    }
}

/// The line that tells how many workers run.
fn running_line(alloc: Global, running: u64, workers: u64) -> Result<String, AllocError> {
    format!(in alloc; "{running} of {workers} workers run: no further thread could be made\n")
}

/// Tells standard error if not all of the workers can run at once, beside these other threads. The remaining ones begin when a worker has
/// ended.
pub(crate) fn tell_running<H: Threads + Wait + Sync, E: Sink>(
    rt: &H,
    alloc: Global,
    workers: u64,
    others: Others,
    errors: &mut Telling<'_, E>,
) {
    tell_others(rt, others, errors);
    let running = running_workers(rt, workers, others.number());
    if running == workers {
        return;
    }
    match running_line(alloc, running, workers) {
        Ok(line) => errors.tell(line.as_bytes()),
        Err(_) => errors.tell(b"not all workers run\n"),
    }
}
