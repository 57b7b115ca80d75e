//! The commands that took long.
ghost use Rattle.std.specs.Prelude.{◌≤◌, length, IfOk};

use crate::clients::{ClientText, client_text};
use arrayvec::ArrayVec;
use bpf_model::NoMemory;
use std::alloc::Global;
use std::sync::{Mutex, Wait};

/// At most this many commands are kept: the latest ones.
pub const SLOW_ENTRIES: usize = 128;

/// At most this many words of a command are kept.
pub const SLOW_WORDS: usize = 8;

/// The bytes of a word that are kept, with what says how many more it had.
pub const SLOW_WORD_BYTES: usize = 96;

/// A word of a command.
#[derive(Default, Drop)]
pub struct SlowWord {
    pub text: ArrayVec<u8, SLOW_WORD_BYTES>,
}

/// A command that took long.
#[derive(Drop)]
pub struct SlowEntry {
    /// How many were kept before it since the server began.
    pub number: u64,
    /// When it came, in seconds since the epoch.
    pub time: u64,
    /// How long it took.
    pub microseconds: u64,
    /// Its words, cut short.
    pub words: ArrayVec<SlowWord, SLOW_WORDS>,
    /// The address of its client.
    pub address: ClientText,
    /// The name that the client gave itself.
    pub name: ClientText,
}

/// The same words.
fn words_of(words: &[SlowWord]) -> ArrayVec<SlowWord, SLOW_WORDS> {
    let mut copy = ArrayVec::new();
    for word in words {
        let mut text = ArrayVec::new();
        let _ = text.try_extend_from_slice(word.text.as_slice());
        let _ = copy.try_push(SlowWord { text });
    }
    copy
}

impl SlowEntry {
    /// Returns a copy.
    fn copied(&self) -> SlowEntry {
        SlowEntry {
            number: self.number,
            time: self.time,
            microseconds: self.microseconds,
            words: words_of(self.words.as_slice()),
            address: client_text(self.address.as_slice()),
            name: client_text(self.name.as_slice()),
        }
    }
}

/// The commands that are kept, in a ring.
#[derive(Drop)]
struct Ring {
    entries: Vec<SlowEntry>,
    /// The place of the oldest one, if the ring is full; else 0.
    oldest: usize,
    /// How many were kept so far.
    came: u64,
}

impl Ring {
    /// Keeps a command, in place of the oldest one if there are as many as may be.
    fn add(&mut self, entry: SlowEntry) {
        let entry = SlowEntry {
            number: self.came,
            ..entry
        };
        self.came = self.came.wrapping_add(1);
        if self.entries.len() < SLOW_ENTRIES {
            let _ = self.entries.push(entry);
            return;
        }
        if let Some(place) = self.entries.get_mut(self.oldest) {
            *place = entry;
        }
        self.oldest = (self.oldest % SLOW_ENTRIES + 1) % SLOW_ENTRIES;
    }

    /// Returns the place of the command before which this number of later ones were kept.
    fn place(&self, later: usize) -> usize {
        let count = self.entries.len().max(1);
        let latest = self.oldest % count + count - 1;
        (latest - later % count) % count
    }
}

/// Returns copies of the latest commands, at most this many, the latest one first. `NoMemory` if a request for memory was refused.
fn latest_of(ring: &Ring, alloc: Global, most: usize) -> Result<Vec<SlowEntry>, NoMemory>
    ensures { IfOk result (λ latest. length latest.items ≤ most) }
{
    let mut latest = Vec::new(alloc);
    for later in 0..most.min(ring.entries.len()) {
        if let Some(entry) = ring.entries.get(ring.place(later)) {
            latest.push(entry.copied())?;
        }
    }
    Ok(latest)
}

/// The commands that took long, of all workers' clients.
#[derive(Drop)]
pub struct SlowLog {
    /// A command is kept that took at least this many microseconds; none: no command is kept.
    least: Option<u64>,
    ring: Mutex<Ring>,
}

impl SlowLog {
    /// No command is kept. Takes no memory.
    pub(crate) fn off(alloc: Global) -> SlowLog {
        SlowLog {
            least: None,
            ring: Mutex::new(Ring {
                entries: Vec::new(alloc),
                oldest: 0,
                came: 0,
            }),
        }
    }

    /// Commands are kept that take at least this many microseconds. Takes the memory for all that may be kept at once. `NoMemory` if it
    /// was refused.
    pub fn from(alloc: Global, least: u64) -> Result<SlowLog, NoMemory> {
        let mut entries = Vec::new(alloc);
        entries.reserve(SLOW_ENTRIES)?;
        Ok(SlowLog {
            least: Some(least),
            ring: Mutex::new(Ring {
                entries,
                oldest: 0,
                came: 0,
            }),
        })
    }

    /// Returns from how many microseconds on a command is kept; none: no command is.
    #[inline(always)]
    pub fn least(&self) -> Option<u64> {
        self.least
    }

    /// Keeps a command. Its number is given to it here.
    pub fn add<H: Wait>(&self, rt: &H, entry: SlowEntry) {
        let mut ring = self.ring.lock(rt);
        let ring = &mut *ring;
        ring.add(entry);
    }

    /// Returns how many commands are kept.
    pub fn len<H: Wait>(&self, rt: &H) -> usize {
        self.ring.lock(rt).entries.len()
    }

    /// Returns the latest commands, at most this many, the latest one first. `NoMemory` if a request for memory was refused.
    pub fn latest<H: Wait>(
        &self,
        rt: &H,
        alloc: Global,
        most: usize,
    ) -> Result<Vec<SlowEntry>, NoMemory>
        ensures { IfOk result (λ latest. length latest.items ≤ most) }
    {
        let ring = self.ring.lock(rt);
        latest_of(&ring, alloc, most)
    }

    /// Keeps none of those any more that are kept so far.
    pub fn clear<H: Wait>(&self, rt: &H) {
        let mut ring = self.ring.lock(rt);
        let ring = &mut *ring;
        ring.entries.clear();
        ring.oldest = 0;
    }
}
