//! Bins with notes of which keys changed.
ghost use Rattle.std.specs.Prelude.{◌≡◌, ◌≤◌, ◌++◌, [], true, false, List, length, IsTrue, IfOk, OnErr, option_copied};
ghost use Rattle.std.specs.FinMap as map;
ghost use Rattle.atomic_methods.specs.Invocations.{get, invocation_of};
ghost use Rattle.bins.specs.Ranks.{KeepsRanks};
ghost use Rattle.timed_bins.specs.Deadlines.{timed_table, MakesCall, RefusesCall, Expires};
ghost use Rattle.noted_bins.specs.Hands.{HandsOut, LeavesSame};
ghost use Rattle.noted_bins.specs.Notes.{NotesChanges, TakesChanges, is_all, is_anew};
ghost use Rattle.noted_bins.specs.Rows.{Row};
ghost use Rattle.noted_bins.specs.Tours.{is_due};
ghost use Rattle.noted_bins.specs.Taking.{HandsOutFiltered, HandsOutAhead};
ghost use Rattle.noted_bins.specs.declared.taken.Taken.TheVariants.{All as AllTaken};

use crate::changes::Changes;
use crate::noted_bins::NotedBins;
use crate::notes::Notes;
use crate::taken::Taken;
use crate::tour::Tour;
use atomic_methods::{Call, HashedCall, Workspace};
use bins::{Bins, Counts, HashedKey, LentEntries, Occupied, Occupies, Opening, Ranks};
use bpf_model::{NoMemory, Value};
use std::alloc::Global;
use timed_bins::{Expiry, TimedBins, TimedReply, Timing};
use verifier::Verified;

/// Bins with deadlines, and notes of the keys that changed since their rows were handed out. At first all keys are noted, and
/// each call tests that once. After the first save each key that changes is noted.
#[derive(Drop)]
pub struct Noted<T: TimedBins> {
    bins: T,
    notes: Notes,
    tour: Tour,
}

impl<T: TimedBins + Drop> Noted<T> {
    /// Makes one call, and notes its key unless it changed nothing.
    #[inline(always)]
    fn make(
        &mut self,
        call: &HashedCall<'_>,
        timing: Option<&Timing>,
        workspace: &mut Workspace,
        bytes: &mut Value,
    ) -> Result<TimedReply, NoMemory>
        ensures ok { IfOk result (λ timed. MakesCall (option_copied timing.entry)
            (timed_table (T.table self.old.bins) (T.deadline self.old.bins) (T.latest self.old.bins)) call.now timed bytes.new
            (timed_table (T.table self.new.bins) (T.deadline self.new.bins) (T.latest self.new.bins))) }
        ensures err { OnErr result (RefusesCall (option_copied timing.entry)
            (timed_table (T.table self.old.bins) (T.deadline self.old.bins) (T.latest self.old.bins)) call.now
            (timed_table (T.table self.new.bins) (T.deadline self.new.bins) (T.latest self.new.bins))) }
        ensures notes { NotesChanges (is_due self.old.notes self.old.tour (T.order self.old.bins) (T.table self.old.bins))
            (timed_table (T.table self.old.bins) (T.deadline self.old.bins) (T.latest self.old.bins)) (is_due self.new.notes self.new.tour (T.order self.new.bins) (T.table self.new.bins))
            (timed_table (T.table self.new.bins) (T.deadline self.new.bins) (T.latest self.new.bins)) }
        ensures ranks { KeepsRanks (T.table self.old.bins) (T.order self.old.bins) (T.order self.new.bins) }
    {
        let timed = self.bins.call(call, timing, workspace, bytes)?;
        if !is_get(call.call()) || changes_deadline(timing, &timed) {
            self.notes.note(call.key(), &self.bins);
        }
        Ok(timed)
    }

    /// Takes at most one entry away whose time is over, and notes its key.
    fn expire(&mut self, now: u64) -> Expiry
        ensures expires { Expires (timed_table (T.table self.old.bins) (T.deadline self.old.bins) (T.latest self.old.bins)) now result
            (timed_table (T.table self.new.bins) (T.deadline self.new.bins) (T.latest self.new.bins)) }
        ensures notes { NotesChanges (is_due self.old.notes self.old.tour (T.order self.old.bins) (T.table self.old.bins))
            (timed_table (T.table self.old.bins) (T.deadline self.old.bins) (T.latest self.old.bins)) (is_due self.new.notes self.new.tour (T.order self.new.bins) (T.table self.new.bins))
            (timed_table (T.table self.new.bins) (T.deadline self.new.bins) (T.latest self.new.bins)) }
        ensures ranks { KeepsRanks (T.table self.old.bins) (T.order self.old.bins) (T.order self.new.bins) }
    {
        match self.bins.expire_one(now) {
            Expiry::Took(key) => {
                self.notes.note(&HashedKey::new(&key), &self.bins);
                Expiry::Took(key)
            }
            Expiry::Waits(at) => Expiry::Waits(at),
            Expiry::Nothing => Expiry::Nothing,
        }
    }
}

/// Returns whether the call only reads.
#[inline(always)]
fn is_get(call: &Call) -> bool
    ensures { IsTrue result → (invocation_of call.now).method ≡ get }
{
    matches!(call, Call::Get { .. })
}

/// Returns whether a call that only reads its value changed its entry nonetheless: took it away, or set its deadline.
#[inline(always)]
fn changes_deadline(timing: Option<&Timing>, timed: &TimedReply) -> bool
    ensures { result ≡ false → LeavesSame (option_copied timing.entry) timed.now }
{
    timing.is_some() && (timed.was_over || timed.before != timed.after)
}

/// Adds rows of the keys in the lists to the changes, at most `most` of them. Returns whether none is left there.
fn take_listed<T: TimedBins>(
    bins: &T,
    notes: &mut Notes,
    most: usize,
    changes: &mut Changes,
) -> Result<bool, NoMemory>
    requires { notes.old.all ≡ false }
    ensures ok { IfOk result (λ _. (rows : List Row) × ((changes.new ≡ changes.old ++ rows)
        × HandsOut notes.old (timed_table (T.table bins.now) (T.deadline bins.now) (T.latest bins.now)) rows notes.new)) }
    ensures none { IfOk result (λ emptied. IsTrue emptied → notes.new.keys ≡ []) }
    ensures still { IfOk result (λ _. changes.new ≡ changes.old → notes.new ≡ notes.old) }
    ensures err { OnErr result ((changes.new ≡ changes.old) × (notes.new ≡ notes.old)) }
{
    for handed in 0..most {
        let Some(key) = notes.last() else {
            return Ok(true);
        };
        if let Err(fault) = changes.add(bins, &key) {
            return if handed == 0 { Err(fault) } else { Ok(false) };
        }
        notes.drop_last();
    }
    Ok(notes.is_empty())
}

/// Adds rows of the keys at the tour's next ranks to the changes. If a request for memory is refused, some of the rows are added, and
/// the tour stays as it is. `NoMemory` if it is refused for the first row; then nothing changes.
fn take_ahead<T: TimedBins>(
    bins: &T,
    tour: &mut Tour,
    most: usize,
    changes: &mut Changes,
) -> Result<(), NoMemory>
    ensures handed { HandsOutAhead (timed_table (T.table bins.now) (T.deadline bins.now) (T.latest bins.now)) (T.order bins.now)
        tour.old tour.new changes.old changes.new }
    ensures err { OnErr result ((changes.new ≡ changes.old) × (tour.new ≡ tour.old)) }
{
    let before = changes.len();
    let ranks = tour.next_ranks(most, bins.count() as usize);
    if changes.add_filtered(bins, tour.filter(), ranks).is_err() {
        return if changes.len() == before {
            Err(NoMemory)
        } else {
            Ok(())
        };
    }
    tour.leave(ranks);
    Ok(())
}

/// Adds rows of all entries that the filter may have to the changes, and turns it off. If a request for memory is refused, some of the rows
/// are added, and the filter stays on.
fn take_filtered<T: TimedBins>(bins: &T, notes: &mut Notes, changes: &mut Changes) -> bool
    ensures all { notes.new.all ≡ notes.old.all }
    ensures keys { notes.new.keys ≡ notes.old.keys }
    ensures handed { HandsOutFiltered (timed_table (T.table bins.now) (T.deadline bins.now) (T.latest bins.now))
        notes.old.filter notes.new.filter changes.old changes.new }
    ensures off { IsTrue result → notes.new.filter ≡ [] }
    ensures still { result ≡ false → notes.new ≡ notes.old }
{
    if changes
        .add_filtered(bins, notes.filter(), Ranks::all())
        .is_err()
    {
        return false;
    }
    notes.take_filter();
    true
}

/// Adds rows of noted keys to the changes: those of the lists, at most `most`; then those of the filter, by a tour in parts, or all
/// at once if keys change faster than they are handed out.
fn take_some<T: TimedBins>(
    bins: &T,
    notes: &mut Notes,
    tour: &mut Tour,
    most: usize,
    changes: &mut Changes,
) -> Result<Taken, NoMemory>
    requires { notes.old.all ≡ false }
    ensures ok { IfOk result (λ taken. (rows : List Row) × ((changes.new ≡ changes.old ++ rows)
        × TakesChanges (is_due notes.old tour.old (T.order bins.now) (T.table bins.now)) (timed_table (T.table bins.now) (T.deadline bins.now) (T.latest bins.now))
        taken rows (is_due notes.new tour.new (T.order bins.now) (T.table bins.now)) (timed_table (T.table bins.now) (T.deadline bins.now) (T.latest bins.now)))) }
    ensures err { OnErr result ((changes.new ≡ changes.old) × (notes.new ≡ notes.old) × (tour.new ≡ tour.old)) }
{
    if tour.is_on() {
        take_ahead(bins, tour, most, changes)?;
        return Ok(Taken::Some);
    }
    let before = changes.len();
    if !take_listed(bins, notes, most, changes)? {
        return Ok(Taken::Some);
    }
    if !notes.is_filtered() {
        tour.end();
        return Ok(Taken::Rest);
    }
    if tour.may_follow() {
        tour.begin(notes.take_filter());
        // If memory is refused, the tour has begun nonetheless: the next call tells.
        let _ = take_ahead(bins, tour, most, changes);
        return Ok(Taken::Some);
    }
    if take_filtered(bins, notes, changes) {
        tour.end();
        return Ok(Taken::Rest);
    }
    if changes.len() == before {
        return Err(NoMemory);
    }
    Ok(Taken::Some)
}

/// Adds rows of all entries to the changes. Then no key is noted.
fn take_all<T: TimedBins>(
    bins: &T,
    notes: &mut Notes,
    tour: &mut Tour,
    changes: &mut Changes,
) -> Result<Taken, NoMemory>
    ensures ok { IfOk result (λ taken. (rows : List Row) × ((changes.new ≡ changes.old ++ rows)
        × TakesChanges (is_due notes.old tour.old (T.order bins.now) (T.table bins.now)) (timed_table (T.table bins.now) (T.deadline bins.now) (T.latest bins.now))
        taken rows (is_due notes.new tour.new (T.order bins.now) (T.table bins.now)) (timed_table (T.table bins.now) (T.deadline bins.now) (T.latest bins.now)))) }
    ensures all { IfOk result (λ taken. taken ≡ AllTaken) }
    ensures err { OnErr result ((changes.new ≡ changes.old) × (notes.new ≡ notes.old) × (tour.new ≡ tour.old)) }
{
    changes.add_all(bins)?;
    notes.forget();
    tour.end();
    Ok(Taken::All)
}

/// Adds rows of all entries to the changes; or, if these are more than `most`, of some, and a tour begins that hands out the others.
fn take_anew<T: TimedBins>(
    bins: &T,
    notes: &mut Notes,
    tour: &mut Tour,
    most: usize,
    changes: &mut Changes,
) -> Result<Taken, NoMemory>
    ensures ok { IfOk result (λ taken. (rows : List Row) × ((changes.new ≡ changes.old ++ rows)
        × TakesChanges (is_due notes.old tour.old (T.order bins.now) (T.table bins.now)) (timed_table (T.table bins.now) (T.deadline bins.now) (T.latest bins.now))
        taken rows (is_due notes.new tour.new (T.order bins.now) (T.table bins.now)) (timed_table (T.table bins.now) (T.deadline bins.now) (T.latest bins.now)))) }
    ensures anew { IfOk result (λ taken. is_anew taken ≡ true) }
    ensures all { IfOk result (λ taken. length (map.entries (T.table bins.now)) ≤ most → is_all taken ≡ true) }
    ensures err { OnErr result ((changes.new ≡ changes.old) × (notes.new ≡ notes.old) × (tour.new ≡ tour.old)) }
{
    if bins.count() <= most as u64 {
        return take_all(bins, notes, tour, changes);
    }
    let Ok(whole) = notes.whole_filter() else {
        return take_all(bins, notes, tour, changes);
    };
    notes.forget();
    tour.end();
    tour.begin(whole);
    // If memory is refused, the tour has begun nonetheless: the next call tells.
    let _ = take_ahead(bins, tour, most, changes);
    Ok(Taken::Begun)
}

impl<T: TimedBins + Drop> Bins for Noted<T> {
    ghost table = { λ noted. T.table noted.bins };

    ghost order = { λ noted. T.order noted.bins };

    fn open(alloc: Global, stripes: u64) -> Result<Noted<T>, NoMemory> {
        Ok(Noted {
            bins: T::open(alloc, stripes)?,
            notes: Notes::of_all(alloc),
            tour: Tour::off(alloc),
        })
    }

    fn open_with(alloc: Global, stripes: u64, opening: &Opening) -> Result<Noted<T>, NoMemory> {
        Ok(Noted {
            bins: T::open_with(alloc, stripes, opening)?,
            notes: Notes::of_all(alloc),
            tour: Tour::off(alloc),
        })
    }

    #[inline(always)]
    fn find(&self, key: &HashedKey<'_>) -> Option<&[u8]> {
        self.bins.find(key)
    }

    fn put(&mut self, key: &HashedKey<'_>, value: &Value) -> Result<(), NoMemory> {
        let result = self.bins.put(key, value);
        self.notes.note(key, &self.bins);
        result
    }

    fn add(&mut self, key: &HashedKey<'_>, value: &Value) -> Result<(), NoMemory> {
        let result = self.bins.add(key, value);
        self.notes.note(key, &self.bins);
        result
    }

    fn discard(&mut self, key: &HashedKey<'_>) {
        self.bins.discard(key);
        self.notes.note(key, &self.bins);
    }

    fn lend(&self) -> LentEntries<'_> {
        self.bins.lend()
    }

    fn lend_at(&self, ranks: Ranks) -> (LentEntries<'_>, Ranks) {
        self.bins.lend_at(ranks)
    }

    fn count(&self) -> u64 {
        self.bins.count()
    }

    fn replace_each(&mut self, program: &Verified, arg: &Option<Value>) -> Counts {
        self.notes.note_all();
        self.bins.replace_each(program, arg)
    }
}

impl<T: TimedBins + Occupies + Drop> Occupies for Noted<T> {
    /// The keys that changed are beside the rows.
    fn occupied(&self) -> Occupied {
        let beside = self.notes.bytes().saturating_add(self.tour.bytes() as u64);
        self.bins.occupied().and_beside(beside)
    }
}

impl<T: TimedBins + Drop> TimedBins for Noted<T> {
    ghost deadline = { λ noted. T.deadline noted.bins };

    ghost latest = { λ noted. T.latest noted.bins };

    #[inline(always)]
    fn call(
        &mut self,
        call: &HashedCall<'_>,
        timing: Option<&Timing>,
        workspace: &mut Workspace,
        bytes: &mut Value,
    ) -> Result<TimedReply, NoMemory> {
        self.make(call, timing, workspace, bytes)
    }

    fn deadline_of(&self, key: &HashedKey<'_>) -> Option<u64> {
        self.bins.deadline_of(key)
    }

    fn expire_one(&mut self, now: u64) -> Expiry {
        self.expire(now)
    }
}

impl<T: TimedBins + Drop> NotedBins for Noted<T> {
    ghost noted = { λ noted. is_due noted.notes noted.tour (T.order noted.bins) (T.table noted.bins) };

    #[inline(always)]
    fn call_noted(
        &mut self,
        call: &HashedCall<'_>,
        timing: Option<&Timing>,
        workspace: &mut Workspace,
        bytes: &mut Value,
    ) -> Result<TimedReply, NoMemory> {
        self.make(call, timing, workspace, bytes)
    }

    fn expire_noted(&mut self, now: u64) -> Expiry {
        self.expire(now)
    }

    fn replace_noted(&mut self, program: &Verified, arg: &Option<Value>) -> Counts {
        self.notes.note_all();
        self.bins.replace_each(program, arg)
    }

    fn take_changes(
        &mut self,
        anew: bool,
        most: usize,
        changes: &mut Changes,
    ) -> Result<Taken, NoMemory> {
        let Noted { bins, notes, tour } = self;
        if anew || notes.are_all() {
            return take_anew(bins, notes, tour, most, changes);
        }
        take_some(bins, notes, tour, most, changes)
    }
}
