//! Saves that are asked for, and what comes of them.

use std::sync::Wait;
use std::sync::atomic::{AtomicBool, AtomicU64, Ordering};
use std::time::Duration;

/// How often one who waits for a save looks, before it gives up.
const MOST_LOOKS: u64 = 600;

/// How often one who waits for a save looks, before it gives up if no thread saves.
const LOOKS_ALONE: u64 = 10;

/// How long it sleeps between two looks at most, in milliseconds.
const LOOK_MILLIS: u64 = 100;

/// What came of a save that was asked for.
#[derive(Clone, Copy, Debug, PartialEq, Eq)]
pub enum SaveFate {
    /// It is written.
    Saved,
    /// It could not be written.
    Failed,
    /// Nobody wrote it so far.
    Waits,
}

/// Saves that are asked for, by tickets that count up from 1, and the last ones that were written or given up.
#[derive(Drop)]
pub(crate) struct Saves {
    /// Whether a thread saves.
    saver: AtomicBool,
    asked: AtomicU64,
    written: AtomicU64,
    given_up: AtomicU64,
    last_save: AtomicU64,
    /// How often a save was written or given up: those who wait sleep on it.
    news: AtomicU64,
}

impl Saves {
    /// Nobody asked for a save, and none was written.
    pub(crate) fn new() -> Saves {
        Saves {
            saver: AtomicBool::new(false),
            asked: AtomicU64::new(0),
            written: AtomicU64::new(0),
            given_up: AtomicU64::new(0),
            last_save: AtomicU64::new(0),
            news: AtomicU64::new(0),
        }
    }

    /// A thread saves from now on.
    pub(crate) fn begin(&self) {
        self.saver.store(true, Ordering::SeqCst);
    }

    /// Asks for a save, and returns its ticket.
    pub(crate) fn ask(&self) -> u64 {
        self.asked.fetch_add(1, Ordering::SeqCst).wrapping_add(1)
    }

    /// Returns the last ticket that was asked for; 0 if none was.
    pub(crate) fn asked(&self) -> u64 {
        self.asked.load(Ordering::SeqCst)
    }

    /// Wakes those who wait for a save.
    fn tell(&self) {
        self.news.fetch_add(1, Ordering::SeqCst);
        self.news.wake_all();
    }

    /// The saves up to this ticket are written, at this time.
    pub(crate) fn saved(&self, ticket: u64, at_millis: u64) {
        self.last_save.store(at_millis, Ordering::SeqCst);
        self.written.fetch_max(ticket, Ordering::SeqCst);
        self.tell();
    }

    /// The saves up to this ticket that are not written could not be written.
    pub(crate) fn failed(&self, ticket: u64) {
        self.given_up.fetch_max(ticket, Ordering::SeqCst);
        self.tell();
    }

    /// Returns what came of this ticket's save.
    pub(crate) fn fate(&self, ticket: u64) -> SaveFate {
        if self.written.load(Ordering::SeqCst) >= ticket {
            return SaveFate::Saved;
        }
        if self.given_up.load(Ordering::SeqCst) >= ticket {
            return SaveFate::Failed;
        }
        SaveFate::Waits
    }

    /// Returns the time of the last save that was written; 0 if none was.
    pub(crate) fn last_save(&self) -> u64 {
        self.last_save.load(Ordering::SeqCst)
    }

    /// Tests whether no thread saves, although one who waits has looked this often.
    fn is_alone(&self, looks: u64) -> bool {
        looks >= LOOKS_ALONE && !self.saver.load(Ordering::SeqCst)
    }

    /// Waits for this ticket's save, a minute at most, or a second if no thread saves. Returns what came of it.
    pub(crate) fn wait_for<H: Wait>(&self, rt: &H, ticket: u64) -> SaveFate {
        for look in 0..MOST_LOOKS {
            let news = self.news.load(Ordering::SeqCst);
            let fate = self.fate(ticket);
            if fate != SaveFate::Waits || self.is_alone(look) {
                return fate;
            }
            let seen = (news & 0xffff_ffff) as u32;
            self.news
                .park_timeout(rt, seen, Duration::from_millis(LOOK_MILLIS));
        }
        self.fate(ticket)
    }
}
