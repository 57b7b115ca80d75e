//! Keeping the map in a file: it is restored before clients are served, and saved while they are.
ghost use Rattle.std.specs.Prelude.{◌≡◌, true, Some, None, if◌then◌else◌, IfOk, IfErr, IfSome, is_some, option_map};
ghost use Rattle.std.specs.Option.{ForSome};
ghost use Rattle.map_keeper.specs.Keepers.{pass_of};

use crate::entrance::Entrance;
use crate::stopwatch::Stopwatch;
use crate::telling::Telling;
use crate::wall_clock::WallClock;
use crate::words::MapdWords;
use bin_stripes::Pass;
use devices::Sink;
use map_keeper::{KeepFault, Keeper, OnDisk, Opener, RestoreFault, Restored, Shared};
use std::alloc::{AllocError, Global};
use std::rt::Clock;
use std::sync::Wait;
use std::sync::atomic::{AtomicU64, Ordering};
use std::time::Duration;

/// How often it is looked whether somebody asks for a save, in milliseconds.
const LOOK_MILLIS: u64 = 100;

/// A save that nobody waits for rests this long after each batch that it writes, in milliseconds, so that clients have the processors.
const REST_MILLIS: u64 = 1;

/// What a server works with: the runtime, the allocator, and the machine's files and ports.
#[derive(Drop)]
pub(crate) struct Host<'a, H, K> {
    pub(crate) rt: &'a H,
    pub(crate) alloc: Global,
    pub(crate) machine: &'a K,
}

/// A map that is kept: what keeps it, the name of its file, and how many seconds it is from one save to the next.
#[derive(Drop)]
pub(crate) struct Kept<'a> {
    pub(crate) keeper: Keeper<OnDisk>,
    path: &'a str,
    pub(crate) seconds: u64,
}

/// The line that tells what was restored, and in which time.
fn restored_line(
    alloc: Global,
    path: &str,
    restored: &Restored,
    took: Duration,
) -> Result<String, AllocError> {
    let (entries, scripts) = (restored.entries, restored.scripts);
    let programs = restored.programs.len();
    let tenths = took.as_millis() / 100;
    let (seconds, tenth) = (tenths / 10, tenths % 10);
    format!(in alloc;
        "{path}: {entries} entries, {programs} programs, {scripts} scripts in {seconds}.{tenth} s\n"
    )
}

/// The line that tells of a fault of the file.
fn fault_line(alloc: Global, path: &str, fault: &RestoreFault) -> Result<String, AllocError> {
    format!(in alloc; "{path}: {fault}\n")
}

/// The line that tells that a save failed.
fn failing_line(alloc: Global, path: &str, fault: &KeepFault) -> Result<String, AllocError> {
    format!(in alloc; "{path}: saves fail: {fault}\n")
}

/// The line that tells that saves go on.
fn going_on_line(alloc: Global, path: &str) -> Result<String, AllocError> {
    format!(in alloc; "{path}: saves go on\n")
}

/// Writes the line to standard error, or this text if there is no memory for it.
fn tell_line<E: Sink>(
    errors: &mut Telling<'_, E>,
    line: Result<String, AllocError>,
    or_else: &[u8],
) {
    match line {
        Ok(line) => errors.tell(line.as_bytes()),
        Err(AllocError) => errors.tell(or_else),
    }
}

/// Opens the file, and restores the map from it.
fn restored_from<H: Wait + Clock, K: Opener>(
    host: &Host<'_, H, K>,
    path: &str,
    pass: Pass,
    shared: &Shared<'_, '_>,
) -> Result<(Keeper<OnDisk>, Restored), RestoreFault>
    requires { pass.map ≡ shared.now.map.now }
    ensures { IfOk result (λ restored. (pass_of restored.0).map ≡ shared.now.map.now) }
{
    let file = host.machine.open(path)?;
    let mut keeper = Keeper::new(host.alloc, file, pass)?;
    let now = WallClock::new(host.rt).look();
    let restored = keeper.restore(host.rt, shared, now)?;
    Ok((keeper, restored))
}

/// Restores the map from its file, if it is kept, and tells standard error what was in it.
pub(crate) fn restored<'a, H: Wait + Clock, K: Opener, E: Sink>(
    host: &Host<'_, H, K>,
    asked: &'a MapdWords,
    pass: Option<Pass>,
    shared: &Shared<'_, '_>,
    errors: &mut Telling<'_, E>,
) -> Result<Option<Kept<'a>>, RestoreFault>
    requires map { ForSome pass (λ pass. pass.map ≡ shared.now.map.now) }
    requires pass { is_some pass ≡ is_some asked.now.keep }
    ensures ok { IfOk result (λ kept. IfSome kept (λ kept. (pass_of kept.keeper).map ≡ shared.now.map.now)) }
    ensures keeps { IfOk result (λ kept. option_map (λ kept. kept.seconds) kept ≡
        (if is_some asked.now.keep then Some asked.now.keep_seconds else None)) }
    ensures err { IfErr result (λ _. is_some asked.now.keep ≡ true) }
{
    let Some(path) = &asked.keep else {
        return Ok(None);
    };
    let Some(pass) = pass else { unreachable!() };
    let path = path.as_str();
    let mut stopwatch = Stopwatch::new(host.rt);
    let (keeper, restored) = restored_from(host, path, pass, shared)?;
    stopwatch.look();
    let line = restored_line(host.alloc, path, &restored, stopwatch.now());
    tell_line(errors, line, b"the map is restored\n");
    Ok(Some(Kept {
        keeper,
        path,
        seconds: asked.keep_seconds,
    }))
}

/// Tells standard error why the map is not restored from its file.
pub(crate) fn tell_fault_of_file<E: Sink>(
    alloc: Global,
    asked: &MapdWords,
    fault: &RestoreFault,
    errors: &mut Telling<'_, E>,
) {
    let Some(path) = &asked.keep else {
        return;
    };
    let line = fault_line(alloc, path.as_str(), fault);
    tell_line(errors, line, b"the map is not restored\n");
}

/// How long a save rests after each batch: not at all if somebody waits for it.
fn rest_of(is_asked: bool) -> Duration {
    if is_asked {
        return Duration::ZERO;
    }
    Duration::from_millis(REST_MILLIS)
}

/// Tells that the workers have ended.
#[derive(Drop)]
pub(crate) struct Bell {
    rung: AtomicU64,
}

impl Bell {
    /// The workers have not ended.
    pub(crate) fn new() -> Bell {
        Bell {
            rung: AtomicU64::new(0),
        }
    }

    /// The workers have ended.
    pub(crate) fn ring(&self) {
        self.rung.store(1, Ordering::SeqCst);
        self.rung.wake_all();
    }

    /// Tests whether the workers have ended.
    pub(crate) fn has_rung(&self) -> bool {
        self.rung.load(Ordering::SeqCst) != 0
    }

    /// Waits until the workers have ended, at most this long. Returns whether they have.
    pub(crate) fn wait<H: Wait>(&self, rt: &H, most: Duration) -> bool {
        self.rung.park_timeout(rt, 0, most);
        self.has_rung()
    }
}

/// Saves a map while clients come in by this entrance.
#[derive(Drop)]
pub(crate) struct Saver<'a, 'b, 'c, 's, 'r, H: Wait + Clock, E: Sink> {
    pub(crate) entrance: &'a Entrance<'b, 'c, H, E>,
    pub(crate) shared: &'a Shared<'s, 'r>,
    pub(crate) alloc: Global,
}

impl<H: Wait + Clock, E: Sink> Saver<'_, '_, '_, '_, '_, H, E> {
    /// Saves once, with a rest of this length after each batch, and tells those who wait for a save. Standard error is told if the save
    /// fails and the one before it didn't, or the other way round. Returns whether it fails.
    fn save(&self, kept: &mut Kept<'_>, was_failing: bool, rest: Duration) -> bool
        requires { (pass_of kept.old.keeper).map ≡ self.now.shared.now.map.now }
        ensures { (pass_of kept.new.keeper).map ≡ self.now.shared.now.map.now }
    {
        let entrance = self.entrance;
        let (rt, state) = (entrance.arrivals.rt, entrance.state);
        let ticket = state.save_asked();
        let fault = match kept.keeper.save(rt, self.shared, rest) {
            Ok(()) => {
                if was_failing {
                    self.tell(going_on_line(self.alloc, kept.path), b"saves go on\n");
                }
                state.saved(ticket, entrance.wall_clock.look());
                return false;
            }
            Err(fault) => fault,
        };
        if !was_failing {
            self.tell(failing_line(self.alloc, kept.path, &fault), b"saves fail\n");
        }
        state.failed(ticket);
        true
    }

    /// Writes the line to standard error, or this text if there is no memory for it.
    fn tell(&self, line: Result<String, AllocError>, or_else: &[u8]) {
        match line {
            Ok(line) => self.entrance.arrivals.tell(line.as_bytes()),
            Err(AllocError) => self.entrance.arrivals.tell(or_else),
        }
    }

    /// Saves whenever the seconds are over or somebody asks for it, until the workers have ended. Returns whether the last save failed.
    fn save_on(&self, kept: &mut Kept<'_>, bell: &Bell) -> bool
        requires { (pass_of kept.old.keeper).map ≡ self.now.shared.now.map.now }
        ensures { (pass_of kept.new.keeper).map ≡ self.now.shared.now.map.now }
    {
        let entrance = self.entrance;
        let (rt, state) = (entrance.arrivals.rt, entrance.state);
        state.saver_began();
        let period = Duration::from_secs(kept.seconds);
        let mut stopwatch = Stopwatch::new(rt);
        let mut next = period;
        let mut heard = 0;
        let mut is_failing = false;
        for _ in rt.forever() {
            if bell.wait(rt, Duration::from_millis(LOOK_MILLIS)) {
                return is_failing;
            }
            stopwatch.look();
            let asked = state.save_asked();
            let is_asked = asked != heard;
            if is_asked || stopwatch.now() >= next {
                heard = asked;
                is_failing = self.save(kept, is_failing, rest_of(is_asked));
                stopwatch.look();
                next = stopwatch.now().saturating_add(period);
            }
        }
        unreachable!()
    }

    /// Saves until the workers have ended, and then once more, unless the server was told not to. Returns whether the last save failed,
    /// or the file can't be closed.
    pub(crate) fn keep(&self, kept: Kept<'_>, bell: &Bell) -> bool
        requires { (pass_of kept.keeper).map ≡ self.now.shared.now.map.now }
    {
        let mut kept = kept;
        let mut has_failed = self.save_on(&mut kept, bell);
        if self.entrance.state.saves_at_end() {
            has_failed = self.save(&mut kept, has_failed, Duration::ZERO);
        }
        match kept.keeper.close() {
            Ok(()) => has_failed,
            Err(_) => true,
        }
    }
}
