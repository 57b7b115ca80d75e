//! Bins with the deadlines of their keys beside them: what a call does to its key's deadline, and the call itself.
ghost use Rattle.std.specs.FinMap as map;
ghost use Rattle.std.specs.Prelude.{◌≡◌, option_copied, ℕ, None, IsTrue, IfOk, OnErr};
ghost use Rattle.bins.specs.Ranks.{KeepsRanks};
ghost use Rattle.timed_bins.specs.Agendas.{deadline_of, AreOfEntries, SetsDeadline};
ghost use Rattle.timed_bins.specs.Deadlines.{timed_table, CallsWith, asks_room as asks_room_is, allows, changed, change_of as change_of_is};
ghost use Rattle.timed_bins.specs.Steps.{LooksFirst, IsReady, KeepsDeadlines, MakesRoom, MayRefuse, NeedsNone, Settles, before_in, change_at as change_at_is};
ghost use Rattle.atomic_methods.specs.Invocations.{invocation_of, Method};
ghost use Rattle.atomic_methods.specs.Plans.{reply_by};
ghost use Rattle.timed_bins.specs.declared.timed.Room.TheVariants.{NotNeeded};
ghost use Rattle.timed_bins.specs.Touched.{touch_of as touch_is, deadline_by};

use crate::deadlines::{Deadlines, Found, RowsOpening};
use crate::number::{is_over, latest_of};
use crate::stale::call_on_stale;
use crate::timed_bins::TimedBins;
use crate::timing::{DeadlineChange, Expiry, SetRule, TimedReply, Timing};
use atomic_methods::{Call, HashedCall, ReplyKind, Workspace, apply_into};
use bins::{Bins, Counts, HashedKey, LentEntries, Occupied, Occupies, Opening, Ranks, Seed};
use bpf_model::{NoMemory, Value};
use std::alloc::Global;
use std::marker::Model;
use verifier::Verified;

/// Bins, and the deadlines of their keys in bins of the same kind. These are opened with the first deadline. If no key has
/// one, a call that sets none tests that once, and does nothing else with deadlines.
#[derive(Drop)]
pub struct Timed<B: Bins> {
    bins: B,
    deadlines: Deadlines<B>,
    latest: u64,
}

impl<B: Bins> Model for Timed<B> {
    ghost use Rattle.timed_bins.specs.Agendas.{Kept, kept_code, AreOfEntries};

    ghost Value = { Kept };

    ghost coded = { kept_code };

    ghost view = { λ t. record { table = B.table t.bins; order = B.order t.bins; times = t.deadlines.times; latest = t.latest } };

    ghost invariant = { λ t. AreOfEntries (B.table t.bins) t.deadlines.times };
}

impl<B: Bins + Drop> Timed<B> {
    /// Hears the time, if there is one, and returns whether the key's time is over then. Takes no memory.
    #[inline(always)]
    fn look_first(&mut self, key: &HashedKey<'_>, timing: Option<&Timing>) -> bool
        ensures looks { LooksFirst (timed_table self.old.table (deadline_of self.old.times) self.old.latest)
            (option_copied timing.entry) key.now
            (timed_table self.new.table (deadline_of self.new.times) self.new.latest) result }
        ensures table { self.new.table ≡ self.old.table }
        ensures order { self.new.order ≡ self.old.order }
        ensures times { self.new.times ≡ self.old.times }
    {
        let Some(timing) = timing else {
            return false;
        };
        self.latest = latest_of(self.latest, timing.now);
        is_over(self.deadlines.get(key), self.latest)
    }

    /// Takes a key with its deadline away. Takes no memory.
    #[inline(never)]
    fn take(&mut self, key: &HashedKey<'_>)
        ensures table { self.new.table ≡ map.remove self.old.table key.now }
        ensures times { self.new.times ≡ map.remove self.old.times key.now }
        ensures latest { self.new.latest ≡ self.old.latest }
        ensures ranks { KeepsRanks self.old.table self.old.order self.new.order }
    {
        self.bins.discard(key);
        self.deadlines.clear(key);
    }
}

impl<B: Bins + Drop> Bins for Timed<B> {
    ghost table = { λ timed. timed.table };

    ghost order = { λ timed. timed.order };

    fn open(alloc: Global, stripes: u64) -> Result<Timed<B>, NoMemory> {
        Timed::open_with(alloc, stripes, &Opening::seeded(Seed::fixed()))
    }

    /// The budget is one of the entries; deadlines have none.
    fn open_with(alloc: Global, stripes: u64, opening: &Opening) -> Result<Timed<B>, NoMemory> {
        let rows = RowsOpening {
            alloc,
            stripes,
            seed: opening.seed,
        };
        Ok(Timed {
            bins: B::open_with(alloc, stripes, opening)?,
            deadlines: Deadlines::new(rows),
            latest: 0,
        })
    }

    #[inline(always)]
    fn find(&self, key: &HashedKey<'_>) -> Option<&[u8]> {
        self.bins.find(key)
    }

    #[inline(always)]
    fn put(&mut self, key: &HashedKey<'_>, value: &Value) -> Result<(), NoMemory> {
        self.bins.put(key, value)
    }

    fn add(&mut self, key: &HashedKey<'_>, value: &Value) -> Result<(), NoMemory> {
        self.bins.add(key, value)
    }

    fn discard(&mut self, key: &HashedKey<'_>) {
        self.take(key);
    }

    fn lend(&self) -> LentEntries<'_> {
        self.bins.lend()
    }

    fn lend_at(&self, places: Ranks) -> (LentEntries<'_>, Ranks) {
        self.bins.lend_at(places)
    }

    fn count(&self) -> u64 {
        self.bins.count()
    }

    fn replace_each(&mut self, program: &Verified, arg: &Option<Value>) -> Counts {
        self.bins.replace_each(program, arg)
    }
}

impl<B: Bins + Occupies + Drop> Occupies for Timed<B> {
    /// Deadlines are beside the rows, with their own rows and index.
    fn occupied(&self) -> Occupied {
        self.bins.occupied().and_beside(self.deadlines.bytes())
    }
}

impl<B: Bins + Drop> TimedBins for Timed<B> {
    ghost deadline = { λ timed. deadline_of timed.times };

    ghost latest = { λ timed. timed.latest };

    #[inline(always)]
    fn call(
        &mut self,
        call: &HashedCall<'_>,
        timing: Option<&Timing>,
        workspace: &mut Workspace,
        bytes: &mut Value,
    ) -> Result<TimedReply, NoMemory> {
        let is_over = self.look_first(call.key(), timing);
        let (bins, deadlines) = (&mut self.bins, &mut self.deadlines);
        if is_over {
            let change = change_at(timing, call.call());
            let made = call_on_stale(bins, deadlines, call, change, workspace, bytes)?;
            return Ok(made.reply(true));
        }
        let made = call_with(bins, deadlines, call, timing, workspace, bytes)?;
        Ok(made.reply(false))
    }

    fn deadline_of(&self, key: &HashedKey<'_>) -> Option<u64> {
        self.deadlines.get(key)
    }

    fn expire_one(&mut self, now: u64) -> Expiry {
        self.latest = latest_of(self.latest, now);
        match self.deadlines.find_over(self.latest) {
            Found::Over(key) => {
                self.take(&HashedKey::new(&key));
                Expiry::Took(key)
            }
            Found::Later(at) => Expiry::Waits(at),
            Found::None => Expiry::Nothing,
        }
    }
}

/// A call that was made: the kind of its reply, and its key's deadline before and after it.
#[derive(Clone, Copy)]
pub(crate) struct Made {
    pub(crate) kind: ReplyKind,
    pub(crate) before: Option<u64>,
    pub(crate) after: Option<u64>,
}

impl Made {
    /// The reply of a call whose key was taken away first, or not.
    #[inline(always)]
    pub(crate) fn reply(self, was_over: bool) -> TimedReply
        ensures { result ≡ record { kind = self.kind; was_over = was_over; before = self.before; after = self.after } }
    {
        TimedReply {
            kind: self.kind,
            was_over,
            before: self.before,
            after: self.after,
        }
    }
}

/// How there is room for the deadline of a call's key until the call was made.
#[derive(Clone, Copy, PartialEq, Eq)]
pub(crate) enum Room {
    /// None is needed: no key has a deadline, and the call sets none.
    NotNeeded,
    /// The key has the deadline that it had, or none.
    There,
    /// The key had none. Its row has the one that the call wants.
    Added,
}

/// Makes room for the deadline that a call wants. Returns `NoMemory` if a request for memory is refused; no deadline has
/// changed then.
#[inline(never)]
fn make_room<B: Bins + Drop>(
    deadlines: &mut Deadlines<B>,
    call: &HashedCall<'_>,
    timing: Option<&Timing>,
) -> Result<Room, NoMemory>
    ensures ok { IfOk result (λ room. MakesRoom (change_at_is (option_copied timing.entry) call.now.method) call.now.key
        deadlines.old.times room deadlines.new) }
    ensures err { OnErr result (deadlines.new.times ≡ deadlines.old.times) }
    ensures asks { OnErr result (IsTrue (asks_room_is (change_at_is (option_copied timing.entry) call.now.method))) }
{
    let before = deadlines.get(call.key());
    let wanted = change_at(timing, call.call()).of(before);
    match (before, wanted) {
        (None, Some(at)) => {
            deadlines.reserve(call.key(), at)?;
            Ok(Room::Added)
        }
        (Some(held), Some(at)) if at != held => {
            deadlines.reserve(call.key(), at)?;
            Ok(Room::There)
        }
        _ => Ok(Room::There),
    }
}

/// Makes room for the deadline that a call wants, as `make_room` does. None is needed if no key has a deadline and the call
/// sets none.
#[inline(always)]
fn prepare<B: Bins + Drop>(
    deadlines: &mut Deadlines<B>,
    call: &HashedCall<'_>,
    timing: Option<&Timing>,
) -> Result<Room, NoMemory>
    ensures ok { IfOk result (λ room. MakesRoom (change_at_is (option_copied timing.entry) call.now.method) call.now.key
        deadlines.old.times room deadlines.new) }
    ensures err { OnErr result (deadlines.new.times ≡ deadlines.old.times) }
    ensures asks { OnErr result (IsTrue (asks_room_is (change_at_is (option_copied timing.entry) call.now.method))) }
{
    if deadlines.is_empty() && !asks_room(timing) {
        return Ok(Room::NotNeeded);
    }
    make_room(deadlines, call, timing)
}

/// Settles the deadline of a call's key, for which there is room, after the call was made. Takes no memory.
#[inline(never)]
fn settle_room<B: Bins + Drop>(
    deadlines: &mut Deadlines<B>,
    call: &HashedCall<'_>,
    timing: Option<&Timing>,
    room: Room,
    kind: ReplyKind,
) -> Made
    requires ready { IsReady (change_at_is (option_copied timing) call.now.method) call.now.key room deadlines.old }
    ensures settles { Settles (change_at_is (option_copied timing.entry) call.now.method) call.now.method
        (before_in room (deadline_of deadlines.old.times call.now.key)) kind result }
    ensures sets { SetsDeadline deadlines.old.times deadlines.new.times call.now.key result.after }
{
    let held = deadlines.get(call.key());
    let before = before_of(room, held);
    let wanted = change_at(timing, call.call()).of(before);
    let after = touch_of(call.call(), kind).deadline(wanted, before);
    deadlines.settle(call.key(), held, after);
    Made {
        kind,
        before,
        after,
    }
}

/// Returns the key's deadline before the call, by the one that its row has now.
fn before_of(room: Room, held: Option<u64>) -> Option<u64>
    ensures { result ≡ before_in room held }
{
    match room {
        Room::NotNeeded | Room::Added => None,
        Room::There => held,
    }
}

/// Settles the deadline of a call's key after the call was made. Takes no memory.
#[inline(always)]
fn settle<B: Bins + Drop>(
    deadlines: &mut Deadlines<B>,
    call: &HashedCall<'_>,
    timing: Option<&Timing>,
    room: Room,
    kind: ReplyKind,
) -> Made
    requires ready { IsReady (change_at_is (option_copied timing) call.now.method) call.now.key room deadlines.old }
    requires none { NeedsNone (change_at_is (option_copied timing) call.now.method) call.now.key room deadlines.old.times }
    ensures settles { Settles (change_at_is (option_copied timing.entry) call.now.method) call.now.method
        (before_in room (deadline_of deadlines.old.times call.now.key)) kind result }
    ensures sets { SetsDeadline deadlines.old.times deadlines.new.times call.now.key result.after }
{
    match room {
        Room::NotNeeded => Made {
            kind,
            before: None,
            after: None,
        },
        room => settle_room(deadlines, call, timing, room, kind),
    }
}

/// Gives the key of a refused call the deadline back that it had. Takes no memory.
#[inline(never)]
fn give_back<B: Bins + Drop>(deadlines: &mut Deadlines<B>, key: &HashedKey<'_>, room: Room)
    requires none { room ≡ NotNeeded → deadline_of deadlines.old.times key.now ≡ None }
    ensures { SetsDeadline deadlines.old.times deadlines.new.times key.now
        (before_in room (deadline_of deadlines.old.times key.now)) }
{
    let held = deadlines.get(key);
    deadlines.settle(key, held, before_of(room, held));
}

/// Makes a call, at a time or without a clock, and changes its key's deadline if the call gets to the entry. Returns
/// `NoMemory` if the call would add its key, or may set a deadline, and the room for that is refused; then nothing changes.
/// No other place of this crate calls `apply_into`, which is long, so that a program has it once.
#[inline(always)]
pub(crate) fn call_with<B: Bins + Drop>(
    bins: &mut B,
    deadlines: &mut Deadlines<B>,
    call: &HashedCall<'_>,
    timing: Option<&Timing>,
    workspace: &mut Workspace,
    bytes: &mut Value,
) -> Result<Made, NoMemory>
    requires of_entries { AreOfEntries (B.table bins.old) deadlines.old.times }
    ensures of_entries { AreOfEntries (B.table bins.new) deadlines.new.times }
    ensures ok { IfOk result (λ made. (latest : ℕ) →
        CallsWith (change_at_is (option_copied timing.entry) call.now.method)
        (timed_table (B.table bins.old) (deadline_of deadlines.old.times) latest) call.now
        (reply_by made.kind bytes.new) (timed_table (B.table bins.new) (deadline_of deadlines.new.times) latest)) }
    ensures before { IfOk result (λ made. made.before ≡ deadline_of deadlines.old.times call.now.key) }
    ensures after { IfOk result (λ made. made.after ≡ deadline_of deadlines.new.times call.now.key) }
    ensures err { OnErr result ((B.table bins.new ≡ B.table bins.old) × KeepsDeadlines deadlines.old.times deadlines.new.times) }
    ensures memory { OnErr result (MayRefuse (B.table bins.old) (change_at_is (option_copied timing.entry) call.now.method) call.now) }
    ensures ranks { KeepsRanks (B.table bins.old) (B.order bins.old) (B.order bins.new) }
{
    let room = prepare(deadlines, call, timing)?;
    match apply_into(bins, call, workspace, bytes) {
        Ok(kind) => Ok(settle(deadlines, call, timing, room, kind)),
        Err(fault) => {
            give_back(deadlines, call.key(), room);
            Err(fault)
        }
    }
}

/// What a call did to its key's entry.
#[derive(Clone, Copy, PartialEq, Eq)]
pub(crate) enum Touch {
    /// The key has none now.
    Gone,
    /// The call got to it.
    Reached,
    /// Neither.
    Missed,
}

/// Returns what a call with a reply of this kind did to its key's entry.
#[inline(always)]
pub(crate) fn touch_of(call: &Call, kind: ReplyKind) -> Touch
    ensures { result ≡ touch_is (invocation_of call.now).method kind }
{
    use Touch::{Gone, Missed, Reached};
    match (*call, kind) {
        (Call::Put { .. }, _) => Reached,
        (Call::Remove { .. }, _) => Gone,
        (Call::Get { .. } | Call::Replace { .. }, ReplyKind::Some) => Reached,
        (Call::PutIfAbsent { .. }, ReplyKind::None) => Reached,
        (Call::RemoveIf { .. }, ReplyKind::Done(true)) => Gone,
        (Call::ReplaceIf { .. }, ReplyKind::Done(true)) => Reached,
        (
            Call::Get { .. }
            | Call::Replace { .. }
            | Call::PutIfAbsent { .. }
            | Call::RemoveIf { .. }
            | Call::ReplaceIf { .. },
            _,
        ) => Missed,
        (_, ReplyKind::Some) => Reached,
        (_, ReplyKind::None) => Gone,
        (_, ReplyKind::Done(_) | ReplyKind::Unfit(_)) => Missed,
    }
}

impl Touch {
    /// Returns the key's deadline after the call: the wanted one if the call got to the entry, else the one before.
    #[inline(always)]
    pub(crate) fn deadline(self, wanted: Option<u64>, before: Option<u64>) -> Option<u64>
        ensures { result ≡ deadline_by self wanted before }
    {
        match self {
            Touch::Gone => None,
            Touch::Reached => wanted,
            Touch::Missed => before,
        }
    }
}

impl SetRule {
    /// Returns whether the rule sets this deadline for a key that has the old one, or none. Both are in milliseconds since
    /// the epoch.
    pub fn allows(self, old: Option<u64>, at: u64) -> bool
        ensures { result ≡ allows self old at }
    {
        use SetRule::{Always, IfLater, IfNone, IfSome, IfSomeAndSooner, IfSooner};
        match old {
            None => match self {
                Always | IfNone | IfSooner => true,
                IfSome | IfLater | IfSomeAndSooner => false,
            },
            Some(before) => match self {
                Always | IfSome => true,
                IfNone => false,
                IfLater => before < at,
                IfSooner | IfSomeAndSooner => at < before,
            },
        }
    }
}

impl DeadlineChange {
    /// Returns the deadline after this change.
    #[inline(always)]
    pub(crate) fn of(self, old: Option<u64>) -> Option<u64>
        ensures { result ≡ changed self old }
    {
        match self {
            DeadlineChange::Keep => old,
            DeadlineChange::Clear => None,
            DeadlineChange::Set { at, rule } => if rule.allows(old, at) { Some(at) } else { old },
            DeadlineChange::Extend { by } => Some(old?.saturating_add(by)),
        }
    }
}

/// Returns what becomes of the deadline in a call: what its timing says, or what its method does without a clock.
#[inline(always)]
pub(crate) fn change_at(timing: Option<&Timing>, call: &Call) -> DeadlineChange
    ensures { result ≡ change_at_is (option_copied timing.entry) (invocation_of call.now).method }
{
    match timing {
        Some(timing) => timing.change,
        None => change_of(call),
    }
}

/// Returns whether the call may need room for a deadline.
#[inline(always)]
pub(crate) fn asks_room(timing: Option<&Timing>) -> bool
    ensures { (method : Method) → asks_room_is (change_at_is (option_copied timing.entry) method) ≡ result }
{
    let Some(timing) = timing else {
        return false;
    };
    match timing.change {
        DeadlineChange::Keep | DeadlineChange::Clear => false,
        DeadlineChange::Set { .. } | DeadlineChange::Extend { .. } => true,
    }
}

/// Returns what becomes of the deadline in a call without a clock.
#[inline(always)]
pub(crate) fn change_of(call: &Call) -> DeadlineChange
    ensures { result ≡ change_of_is (invocation_of call.now).method }
{
    match call {
        Call::Put { .. } | Call::PutIfAbsent { .. } | Call::Replace { .. } => DeadlineChange::Clear,
        _ => DeadlineChange::Keep,
    }
}
