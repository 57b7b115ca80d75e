//! The deadlines of keys, and an agenda of them, the soonest first.
ghost use Rattle.std.specs.FinMap as map;
ghost use Rattle.std.specs.Prelude.{◌≡◌, ◌≤◌, ◌⊎◌, ℕ, List, Some, None, IsTrue, IfOk, OnOk, OnErr, length, [], ◌∷◌, MatchOption};
ghost use Rattle.timed_bins.specs.Agendas.{AreListed, AreRowsListed, HasRoom, SetsDeadline, deadline_of, entries_of, first_of, Due};
ghost use Rattle.timed_bins.specs.Looks.{Finds};
ghost use Rattle.std.specs.List.{All};
ghost use Rattle.std.specs.List.Sorted.{IsPermutation};

use crate::number::{bytes_of, is_over, number_of};
use bins::{Bins, EntryList, HashedKey, Occupies, Seed};
use bpf_model::{Key, NoMemory};
use std::alloc::Global;
use std::cmp::Reverse;
use std::collections::BinaryHeap;
use std::marker::Model;

/// An agenda may have this many deadlines that hold no more, and as many again as hold. It is made anew if there are more.
const STALE: u64 = 64;

/// The deadlines of keys: for each key with one a row of eight bytes, in bins of their own, and an agenda. The bins are
/// opened with the first deadline, and stay open.
#[derive(Drop)]
pub(crate) struct Deadlines<B: Bins> {
    times: Option<B>,
    agenda: Agenda,
    opening: RowsOpening,
}

/// How the bins of deadlines are opened: for one of this number of stripes, and by this seed.
#[derive(Clone, Copy)]
pub(crate) struct RowsOpening {
    pub(crate) alloc: Global,
    pub(crate) stripes: u64,
    pub(crate) seed: Seed,
}

impl RowsOpening {
    /// Opens bins without entries. Returns `NoMemory` if a request for memory is refused.
    pub(crate) fn open<B: Bins>(&self) -> Result<B, NoMemory>
        ensures ok { IfOk result (λ bins. B.table bins ≡ map.empty) }
    {
        B::open_seeded(self.alloc, self.stripes, self.seed)
    }
}

impl<B: Bins> Model for Deadlines<B> {
    ghost use Rattle.timed_bins.specs.Agendas.{Schedule, schedule_code, AreListed, entries_of};

    ghost Value = { Schedule };

    ghost coded = { schedule_code };

    ghost view = { λ d. record { times = entries_of B.table d.times; listed = d.agenda } };

    ghost invariant = { λ d. AreListed (entries_of B.table d.times) d.agenda };
}

/// What a look for a deadline that is over found.
#[derive(Drop)]
pub(crate) enum Found {
    /// This key's is over.
    Over(Key),
    /// None is over, nor is one before this time.
    Later(u64),
    /// There are no deadlines.
    None,
}

impl<B: Bins + Drop> Deadlines<B> {
    /// No deadlines. The bins for them will be opened in this way. Takes no memory.
    pub(crate) fn new(opening: RowsOpening) -> Deadlines<B>
        ensures { result.times ≡ map.empty }
    {
        Deadlines {
            times: None,
            agenda: Agenda::new(opening.alloc),
            opening,
        }
    }

    /// Returns whether there are no deadlines, since none is listed. There may be none if it returns `false`.
    #[inline(always)]
    pub(crate) fn is_empty(&self) -> bool
        ensures empty { IsTrue result → self.now.times ≡ map.empty }
    {
        self.agenda.is_empty()
    }

    /// Returns the deadline of a key. Takes no memory.
    #[inline(always)]
    pub(crate) fn get(&self, key: &HashedKey<'_>) -> Option<u64>
        ensures value { result ≡ deadline_of self.now.times key.now }
    {
        if self.is_empty() {
            return None;
        }
        deadline_in(&self.times, key)
    }

    /// Makes room for this deadline: lists it, and adds a row for a key that has none, with this deadline in it. Returns
    /// `NoMemory` if a request for memory is refused; no deadline has changed then.
    #[inline(never)]
    pub(crate) fn reserve(&mut self, key: &HashedKey<'_>, at: u64) -> Result<(), NoMemory>
        ensures ok { OnOk result (HasRoom self.new key.now at) }
        ensures sets { OnOk result (SetsDeadline self.old.times self.new.times key.now
            (first_of (deadline_of self.old.times key.now) (Some at))) }
        ensures err { OnErr result (self.new.times ≡ self.old.times) }
    {
        shorten(self.opening.alloc, &self.times, &mut self.agenda);
        self.agenda.push(at, key.key().copied())?;
        make_row(&mut self.times, &self.opening, key, at)?;
        Ok(())
    }

    /// The key has this deadline from now on, instead of the one held, for which there is room. Takes no memory.
    #[inline(always)]
    pub(crate) fn settle(&mut self, key: &HashedKey<'_>, held: Option<u64>, after: Option<u64>)
        requires held { held ≡ deadline_of self.old.times key.now }
        requires ready { (at : ℕ) → after ≡ Some at → (held ≡ after) ⊎ HasRoom self.old key.now at }
        ensures { SetsDeadline self.old.times self.new.times key.now after }
    {
        if held != after {
            self.change(key, after);
        }
    }

    /// The key has this deadline from now on. It is separate so that calls that change none clear no room for a row.
    #[inline(never)]
    fn change(&mut self, key: &HashedKey<'_>, after: Option<u64>)
        requires { (at : ℕ) → after ≡ Some at → HasRoom self.old key.now at }
        ensures { SetsDeadline self.old.times self.new.times key.now after }
    {
        match after {
            Some(at) => self.set(key, at),
            None => self.clear(key),
        }
    }

    /// Writes a deadline into the key's row.
    fn set(&mut self, key: &HashedKey<'_>, at: u64)
        requires { HasRoom self.old key.now at }
        ensures { SetsDeadline self.old.times self.new.times key.now (Some at) }
    {
        let Some(times) = &mut self.times else {
            unreachable!()
        };
        let Ok(()) = times.put(key, &bytes_of(at)) else {
            unreachable!()
        };
    }

    /// The key has no deadline from now on. Takes no memory.
    pub(crate) fn clear(&mut self, key: &HashedKey<'_>)
        ensures { self.new.times ≡ map.remove self.old.times key.now }
    {
        let Some(times) = &mut self.times else {
            return;
        };
        times.discard(key);
        if times.count() == 0 {
            self.agenda.clear();
        }
    }

    /// Looks for a deadline that is over at this time. Takes no memory.
    pub(crate) fn find_over(&mut self, now: u64) -> Found
        ensures same { self.new.times ≡ self.old.times }
        ensures finds { Finds self.old.times now result }
    {
        find_in(&self.times, &mut self.agenda, now)
    }
}

impl<B: Bins + Occupies> Deadlines<B> {
    /// Returns how many bytes they take, with their agenda.
    pub(crate) fn bytes(&self) -> u64 {
        let listed = self.agenda.bytes() as u64;
        match &self.times {
            Some(times) => times.occupied().total().saturating_add(listed),
            None => listed,
        }
    }
}

/// Returns the deadline of a key among those in these bins. It is separate so that calls without deadlines have no search in
/// them.
#[inline(never)]
fn deadline_in<B: Bins>(times: &Option<B>, key: &HashedKey<'_>) -> Option<u64>
    ensures { result ≡ deadline_of (entries_of B.table times.now) key.now }
{
    match times {
        Some(times) => Some(number_of(times.find(key)?)),
        None => None,
    }
}

/// Adds a row with this deadline, unless the key has one.
fn make_row<B: Bins + Drop>(
    times: &mut Option<B>,
    opening: &RowsOpening,
    key: &HashedKey<'_>,
    at: u64,
) -> Result<(), NoMemory>
    ensures ok { OnOk result (let held = deadline_of (entries_of B.table times.old) key.now in
        SetsDeadline (entries_of B.table times.old) (entries_of B.table times.new) key.now (first_of held (Some at))) }
    ensures err { OnErr result (entries_of B.table times.new ≡ entries_of B.table times.old) }
{
    match deadline_in(times, key) {
        Some(_) => Ok(()),
        None => add_row(times, opening, key, at),
    }
}

/// Adds a row with this deadline for a key that has none, to bins that are opened if need be.
fn add_row<B: Bins + Drop>(
    times: &mut Option<B>,
    opening: &RowsOpening,
    key: &HashedKey<'_>,
    at: u64,
) -> Result<(), NoMemory>
    requires absent { map.get (entries_of B.table times.old) key.now ≡ None }
    ensures ok { OnOk result (SetsDeadline (entries_of B.table times.old) (entries_of B.table times.new) key.now (Some at)) }
    ensures err { OnErr result (entries_of B.table times.new ≡ entries_of B.table times.old) }
{
    match times {
        Some(times) => times.add(key, &bytes_of(at)),
        None => {
            let mut opened: B = opening.open()?;
            opened.add(key, &bytes_of(at))?;
            *times = Some(opened);
            Ok(())
        }
    }
}

/// Makes the agenda anew if it is too long, unless a request for memory is refused.
fn shorten<B: Bins>(alloc: Global, times: &Option<B>, agenda: &mut Agenda)
    requires { AreListed (entries_of B.table times.now) agenda.old }
    ensures { AreListed (entries_of B.table times.now) agenda.new }
{
    let Some(times) = times else {
        return;
    };
    if agenda.len() as u64 > 2 * times.count() + STALE {
        if let Ok(anew) = agenda_of(alloc, times) {
            *agenda = anew;
        }
    }
}

/// Returns an agenda of the deadlines in these bins. Returns `NoMemory` if a request for memory is refused.
fn agenda_of<B: Bins>(alloc: Global, times: &B) -> Result<Agenda, NoMemory>
    ensures { IfOk result (AreListed (B.table times.now)) }
{
    let mut rows = EntryList::new(alloc);
    times.copy_into(&mut rows)?;
    let agenda = agenda_in(alloc, &rows)?;
    Ok(agenda)
}

/// Returns an agenda of the deadlines in these rows. Returns `NoMemory` if a request for memory is refused.
fn agenda_in(alloc: Global, rows: &EntryList) -> Result<Agenda, NoMemory>
    ensures { IfOk result (AreRowsListed rows.now (length rows.now)) }
{
    let mut agenda = Agenda::new(alloc);
    for position in 0..rows.len() {
        let (key, bytes) = rows.get(position);
        agenda.push(number_of(bytes), Key::from_slice(key).unwrap())?;
    }
    Ok(agenda)
}

/// Looks for a deadline that is over. Drops those from the agenda that hold no more, up to the first one that holds.
fn find_in<B: Bins>(times: &Option<B>, agenda: &mut Agenda, now: u64) -> Found
    requires { AreListed (entries_of B.table times.now) agenda.old }
    ensures listed { AreListed (entries_of B.table times.now) agenda.new }
    ensures finds { Finds (entries_of B.table times.now) now result }
{
    while let Some((at, key)) = agenda.first() {
        if at > now {
            return Found::Later(at);
        }
        if is_over(deadline_in(times, &HashedKey::new(key)), now) {
            return Found::Over(key.copied());
        }
        agenda.drop_first();
    }
    Found::None
}

/// Deadlines with their keys in a heap, the soonest on top. One takes 80 bytes.
#[derive(Drop)]
pub(crate) struct Agenda {
    heap: BinaryHeap<(Reverse<u64>, Key)>,
}

impl Model for Agenda {
    ghost use Rattle.std.specs.Prelude.{List};
    ghost use Rattle.std.specs.BinaryHeap.{heap_items, IsHeap};
    ghost use Rattle.timed_bins.specs.Agendas.{Due};
    ghost use Rattle.timed_bins.specs.Heaps.{dues_in, later_first};

    ghost Value = { List Due };

    ghost view = { λ a. dues_in (heap_items a.heap) };

    ghost invariant = { λ a. IsHeap later_first (heap_items a.heap) };
}

impl Agenda {
    /// Makes an empty one. Takes no memory.
    pub(crate) fn new(alloc: Global) -> Agenda
        ensures { result ≡ [] }
    {
        Agenda {
            heap: BinaryHeap::new(alloc),
        }
    }

    /// Returns the number of deadlines.
    pub(crate) fn len(&self) -> usize
        ensures value { result ≡ length self.now }
    {
        self.heap.len()
    }

    /// Returns whether there are no deadlines.
    #[inline(always)]
    pub(crate) fn is_empty(&self) -> bool
        ensures { IsTrue result → self.now ≡ [] }
    {
        self.heap.is_empty()
    }

    /// Returns how many bytes the deadlines take that it has room for.
    pub(crate) fn bytes(&self) -> usize {
        self.heap
            .capacity()
            .saturating_mul(size_of::<(Reverse<u64>, Key)>())
    }

    /// Drops all deadlines, and keeps the room for them.
    pub(crate) fn clear(&mut self)
        ensures { self.new ≡ [] }
    {
        self.heap.clear();
    }

    /// Adds a deadline. Returns `NoMemory` if there is no room for it and a request for memory is refused; then nothing
    /// changes.
    pub(crate) fn push(&mut self, at: u64, key: Key) -> Result<(), NoMemory>
        ensures ok { OnOk result (IsPermutation {X = Due} ((at, key) ∷ self.old) self.new) }
        ensures err { OnErr result (self.new ≡ self.old) }
    {
        self.heap.push((Reverse(at), key))?;
        Ok(())
    }

    /// Returns the soonest deadline with its key.
    pub(crate) fn first(&self) -> Option<(u64, &Key)>
        ensures is { MatchOption result (self.now ≡ [])
            (λ due. (rest : List Due) × (self.now ≡ (due.0, due.1.now) ∷ rest)) }
        ensures soonest { MatchOption result (self.now ≡ []) (λ due. All (λ other. due.0 ≤ other.0) self.now) }
    {
        let (Reverse(at), key) = self.heap.peek()?;
        Some((*at, key))
    }

    /// Drops the soonest deadline.
    pub(crate) fn drop_first(&mut self)
        ensures { (due : Due) (rest : List Due) → self.old ≡ due ∷ rest → IsPermutation self.old (due ∷ self.new) }
    {
        self.heap.pop();
    }
}
