//! Taking what changed out of a map, into a save.
ghost use Rattle.std.specs.Prelude.{◌≡◌, ◌≢◌, ℕ, ◌<◌, ◌≤◌, [], ◌∷◌, ◌++◌, if◌then◌else◌, true, false, IsTrue, IfOk, IfErr, OnOk};
ghost use Rattle.sqlite.specs.Held.{state};
ghost use Rattle.sqlite.specs.State.{HasCleanDisk, Survives};
ghost use Rattle.kept_file.specs.Changes.{IsWithin, change_bytes};
ghost use Rattle.kept_file.specs.Steps.{clearing};
ghost use Rattle.stripe_rule.specs.Gains.{Keeps};
ghost use Rattle.bin_stripes.specs.Passes.{ServesSameMap, stripes_of};
ghost use Rattle.bin_stripes.specs.Saves.{SavesStripe as HandsOutOf};
ghost use Rattle.noted_bins.specs.Marks.{saved_in};
ghost use Rattle.noted_bins.specs.Notes.{is_anew, is_some};
ghost use Rattle.map_keeper.specs.Saves.{IsWhole, MadeOnlySaves};
ghost use Rattle.map_keeper.specs.Parts.{IsFurther, WouldStop, end_of};
ghost use Rattle.map_keeper.specs.Written.{IsSavedSince, MakesAll, Pending, SavesBetween, SavesMap, SavesPart, SavesStripe, WouldCommit, WouldSave, WritesPart, WritesRound, WritesRows, may_part};

use crate::keeper::{Had, InFile, Shared};
use crate::saving::{write_others, write_width};
use bin_stripes::{Pass, StripedMap, TakeHow};
use bpf_model::NoMemory;
use kept_file::{Batch, KeepFault, Save, save};
use noted_bins::{Changes, SavedEntry, Taken};
use sqlite::{Alter, Connection};
use std::alloc::Global;
use std::sync::Wait;
use std::sync::atomic::AtomicU64;
use std::time::Duration;

/// A round takes the rows of this many keys, while the stripe is held.
const ROUND_KEYS: usize = 250;

/// After this many rounds in which more keys were noted, one round takes all entries anew.
const ROUNDS: u32 = 1 << 16;

/// A batch of this many bytes is written.
const BATCH_BYTES: usize = 1 << 14;

/// When the batches of a transaction have this many bytes, it is committed, and the next stripe begins another one.
const PART_BYTES: u64 = 1 << 20;

/// Writes rows as batches, and rests between them.
#[derive(Drop)]
pub(crate) struct BatchWriter {
    /// Room for one batch.
    batch: Batch,
    /// How many bytes the batches have that this transaction has written.
    bytes: u64,
    /// How long it rests after each full batch.
    pub(crate) rest: Duration,
}

/// A pass that only saves, and room for the rows of one round.
#[derive(Drop)]
pub(crate) struct Taker {
    pub(crate) alloc: Global,
    pub(crate) pass: Pass,
    changes: Changes,
    pub(crate) writer: BatchWriter,
    /// How many rows this save has written.
    pub(crate) rows: u64,
}

/// How far one transaction of a save has come.
#[derive(Clone, Copy)]
pub(crate) enum Reached {
    /// The next one begins with this stripe.
    Stripe(u64),
    /// All is saved, and the file has this.
    End(InFile),
}

/// A refused request for memory, as a fault of the file.
pub(crate) fn memory_fault(_: NoMemory) -> KeepFault
    ensures { result ≡ KeepFault.NoMemory }
{
    KeepFault::NoMemory
}

/// Tests whether keys may still be noted after a round that came to this.
fn leaves_noted(taken: Taken) -> bool
    ensures { result ≡ is_some taken }
{
    matches!(taken, Taken::Begun | Taken::Some)
}

/// Tests whether this round begins anew: the first, if all is taken anew, and the last one.
fn begins_with(anew: bool, round: u32) -> bool
    ensures { round ≡ 0 → result ≡ anew }
{
    (anew && round == 0) || round == ROUNDS
}

/// Tests whether rows of the stripe that were handed out before a round count no more.
fn begins_anew(taken: Taken) -> bool
    ensures { result ≡ is_anew taken }
{
    matches!(taken, Taken::All | Taken::Begun)
}

/// Appends what a key has to a batch: its entry, or that it has none. The faults of `Batch::put`.
fn push(batch: &mut Batch, key: &[u8], entry: Option<SavedEntry<'_>>) -> Result<(), KeepFault>
    ensures { OnOk result (IsWithin (key.now, saved_in entry.entry) × (batch.new.bytes.items ≡ batch.old.bytes.items ++ change_bytes (key.now, saved_in entry.entry))) }
{
    match entry {
        Some(entry) => batch.put(key, entry.value, entry.deadline),
        None => batch.remove(key),
    }
}

/// Takes what the file has of this stripe out of it, if rows that were handed out before the round count no more.
fn write_start<S: Alter>(stripe: u64, taken: Taken, save: &mut Save<'_, S>) -> Result<(), KeepFault>
    ensures same_reference { save.new.conn.ghost_name ≡ save.old.conn.ghost_name }
    ensures made { HasCleanDisk (state S.Store save.new.conn.now) → OnOk result
        (MakesAll (state S.Store) (if is_anew taken then clearing stripe ∷ [] else []) save.old.conn.now save.new.conn.now) }
    ensures kept { Survives (state S.Store save.old.conn.now) (state S.Store save.new.conn.now) (λ _. ⊥) }
{
    if !begins_anew(taken) {
        return Ok(());
    }
    save::start_anew(save, stripe)
}

/// Waits for this time, with no stripe held.
fn pause<R: Wait>(rt: &R, time: Duration) {
    if time.is_zero() {
        return;
    }
    // Nobody else knows of it: so nobody ends the sleep early.
    AtomicU64::new(0).park_timeout(rt, 0, time);
}

impl BatchWriter {
    /// Tests whether this transaction has written as many bytes as one should have, in a save in parts.
    fn is_full(&self, in_parts: bool) -> bool
        ensures { IsTrue result → IsTrue in_parts }
    {
        in_parts && self.bytes >= PART_BYTES
    }

    /// Writes the batch, and takes its changes out.
    fn append<S: Alter>(&mut self, stripe: u64, save: &mut Save<'_, S>) -> Result<(), KeepFault>
        ensures same_reference { save.new.conn.ghost_name ≡ save.old.conn.ghost_name }
        ensures wrote { HasCleanDisk (state S.Store save.new.conn.now) → OnOk result ((rows : _) (start : _) → Pending (state S.Store) stripe rows self.old.batch.bytes.items start save.old.conn.now
            → WritesRows (state S.Store) stripe rows start save.new.conn.now) }
        ensures empty { OnOk result (self.new.batch.bytes.items ≡ []) }
        ensures kept { Survives (state S.Store save.old.conn.now) (state S.Store save.new.conn.now) (λ _. ⊥) }
    {
        save::append(save, stripe, &self.batch)?;
        let bytes = self.batch.as_slice().len() as u64;
        self.bytes = self.bytes.saturating_add(bytes);
        self.batch.clear();
        Ok(())
    }

    /// Writes the batch if it has as many bytes as one should have, and then rests.
    fn write_full<R: Wait, S: Alter>(
        &mut self,
        rt: &R,
        stripe: u64,
        save: &mut Save<'_, S>,
    ) -> Result<(), KeepFault>
        ensures same_reference { save.new.conn.ghost_name ≡ save.old.conn.ghost_name }
        ensures wrote { HasCleanDisk (state S.Store save.new.conn.now) → OnOk result ((rows : _) (start : _) → Pending (state S.Store) stripe rows self.old.batch.bytes.items start save.old.conn.now
            → Pending (state S.Store) stripe rows self.new.batch.bytes.items start save.new.conn.now) }
        ensures kept { Survives (state S.Store save.old.conn.now) (state S.Store save.new.conn.now) (λ _. ⊥) }
    {
        if self.batch.as_slice().len() < BATCH_BYTES {
            return Ok(());
        }
        self.append(stripe, save)?;
        pause(rt, self.rest);
        Ok(())
    }

    /// Writes the batch, if it has changes.
    fn write_left<S: Alter>(&mut self, stripe: u64, save: &mut Save<'_, S>) -> Result<(), KeepFault>
        ensures same_reference { save.new.conn.ghost_name ≡ save.old.conn.ghost_name }
        ensures wrote { HasCleanDisk (state S.Store save.new.conn.now) → OnOk result ((rows : _) (start : _) → Pending (state S.Store) stripe rows self.old.batch.bytes.items start save.old.conn.now
            → WritesRows (state S.Store) stripe rows start save.new.conn.now) }
        ensures kept { Survives (state S.Store save.old.conn.now) (state S.Store save.new.conn.now) (λ _. ⊥) }
    {
        if self.batch.as_slice().is_empty() {
            return Ok(());
        }
        self.append(stripe, save)
    }

    /// Writes these rows of a stripe, in their order, as batches of some 16 KiB.
    fn write_rows<R: Wait, S: Alter>(
        &mut self,
        rt: &R,
        stripe: u64,
        changes: &Changes,
        save: &mut Save<'_, S>,
    ) -> Result<(), KeepFault>
        ensures same_reference { save.new.conn.ghost_name ≡ save.old.conn.ghost_name }
        ensures made { HasCleanDisk (state S.Store save.new.conn.now) → OnOk result
            (WritesRows (state S.Store) stripe changes.now save.old.conn.now save.new.conn.now) }
        ensures kept { Survives (state S.Store save.old.conn.now) (state S.Store save.new.conn.now) (λ _. ⊥) }
    {
        self.batch.clear();
        for place in 0..changes.len() {
            let (key, entry) = changes.get(place);
            push(&mut self.batch, key, entry)?;
            self.write_full(rt, stripe, save)?;
        }
        self.write_left(stripe, save)
    }

    /// Writes the rows of a round into the save. If rows before them count no more, what the file has of the stripe goes first.
    fn write_round<R: Wait, S: Alter>(
        &mut self,
        rt: &R,
        stripe: u64,
        taken: Taken,
        changes: &Changes,
        save: &mut Save<'_, S>,
    ) -> Result<(), KeepFault>
        ensures same_reference { save.new.conn.ghost_name ≡ save.old.conn.ghost_name }
        ensures made { HasCleanDisk (state S.Store save.new.conn.now) → OnOk result
            (WritesRound (state S.Store) stripe (is_anew taken) changes.now save.old.conn.now save.new.conn.now) }
        ensures kept { Survives (state S.Store save.old.conn.now) (state S.Store save.new.conn.now) (λ _. ⊥) }
    {
        write_start(stripe, taken, save)?;
        self.write_rows(rt, stripe, changes, save)
    }
}

impl Taker {
    /// Takes by this pass. It rests for no time.
    pub(crate) fn new(alloc: Global, pass: Pass) -> Taker
        ensures { result.pass ≡ pass }
    {
        Taker {
            alloc,
            pass,
            changes: Changes::new(alloc),
            writer: BatchWriter {
                batch: Batch::new(alloc),
                bytes: 0,
                rest: Duration::ZERO,
            },
            rows: 0,
        }
    }

    /// Takes what changed in this stripe, and returns what that came to. `NoMemory` if a request for memory was refused.
    #[tactic(auto, using(crate::proofs::SaveLemmas::one_save, crate::proofs::SaveLemmas::no_save, crate::proofs::SaveLemmas::whole_save))]
    fn take<R: Wait>(
        &mut self,
        rt: &R,
        map: &StripedMap,
        stripe: u64,
        how: TakeHow,
    ) -> Result<Taken, KeepFault>
        requires map { self.old.pass.map ≡ map.now }
        requires stripe { stripe < stripes_of map.now }
        ensures same { ServesSameMap self.old.pass self.new.pass }
        ensures made { MadeOnlySaves self.old.pass.view self.new.pass.view }
        ensures elsewhere { (j : ℕ) → j ≢ stripe → Keeps self.old.pass.view self.new.pass.view j }
        ensures anew { IfOk result (λ taken. IsTrue how.anew → is_anew taken ≡ true) }
        ensures handed { IfOk result (λ taken. HandsOutOf self.old.pass stripe [] self.new.changes taken self.new.pass) }
        ensures whole { IfOk result (λ taken. is_some taken ≡ false → IsWhole self.new.pass stripe) }
    {
        self.changes.clear();
        match map.take_changes(rt, &mut self.pass, stripe, how, &mut self.changes) {
            Ok(taken) => Ok(taken),
            Err(NoMemory) => Err(KeepFault::NoMemory),
        }
    }

    /// Takes what changed in this stripe, or all of it, into the save, until nothing is noted. `NoMemory` if a request for memory was
    /// refused; else a fault is the save's.
    pub(crate) fn save_stripe<R: Wait, S: Alter>(
        &mut self,
        rt: &R,
        map: &StripedMap,
        stripe: u64,
        anew: bool,
        save: &mut Save<'_, S>,
    ) -> Result<(), KeepFault>
        requires map { self.old.pass.map ≡ map.now }
        requires stripe { stripe < stripes_of map.now }
        ensures same { ServesSameMap self.old.pass self.new.pass }
        ensures made { MadeOnlySaves self.old.pass.view self.new.pass.view }
        ensures elsewhere { (j : ℕ) → j ≢ stripe → Keeps self.old.pass.view self.new.pass.view j }
        ensures whole { OnOk result (IsWhole self.new.pass stripe) }
        ensures ends { OnOk result (IsSavedSince anew self.old.pass.view self.new.pass.view stripe) }
        ensures same_reference { save.new.conn.ghost_name ≡ save.old.conn.ghost_name }
        ensures wrote { HasCleanDisk (state S.Store save.new.conn.now) → OnOk result
            (SavesStripe (state S.Store) anew self.old.pass.view self.new.pass.view stripe save.old.conn.now save.new.conn.now) }
        ensures kept { Survives (state S.Store save.old.conn.now) (state S.Store save.new.conn.now) (λ _. ⊥) }
    {
        for round in 0..=ROUNDS {
            let most = if round < ROUNDS {
                ROUND_KEYS
            } else {
                usize::MAX
            };
            let how = TakeHow {
                anew: begins_with(anew, round),
                most,
            };
            let taken = self.take(rt, map, stripe, how)?;
            self.rows = self.rows.saturating_add(self.changes.len() as u64);
            self.writer
                .write_round(rt, stripe, taken, &self.changes, save)?;
            if !leaves_noted(taken) {
                return Ok(());
            }
        }
        Err(KeepFault::NoMemory)
    }

    /// Takes what changed in the stripes from this one on, or all of it, into the save, until its batches have 1 MiB or no stripe is
    /// left. Returns the stripe after the last one. The faults of `save_stripe`.
    fn save_stripes<R: Wait, S: Alter>(
        &mut self,
        rt: &R,
        map: &StripedMap,
        had: &Had,
        from: u64,
        save: &mut Save<'_, S>,
    ) -> Result<u64, KeepFault>
        requires map { self.old.pass.map ≡ map.now }
        requires from { from ≤ stripes_of map.now }
        ensures same { ServesSameMap self.old.pass self.new.pass }
        ensures made { MadeOnlySaves self.old.pass.view self.new.pass.view }
        ensures below { (j : ℕ) → j < from → Keeps self.old.pass.view self.new.pass.view j }
        ensures next { IfOk result (λ next. (next ≤ stripes_of map.now)
            × (next < stripes_of map.now → (from < next) × IsTrue (may_part had.now.in_file.stripes (stripes_of map.now)))) }
        ensures above { IfOk result (λ next. (j : ℕ) → next ≤ j → Keeps self.old.pass.view self.new.pass.view j) }
        ensures whole { IfOk result (λ next. (k : ℕ) → from ≤ k → k < next → IsWhole self.new.pass k) }
        ensures ends { IfOk result (λ next. (k : ℕ) → from ≤ k → k < next → IsSavedSince had.now.takes_anew self.old.pass.view self.new.pass.view k) }
        ensures same_reference { save.new.conn.ghost_name ≡ save.old.conn.ghost_name }
        ensures wrote { HasCleanDisk (state S.Store save.new.conn.now) → IfOk result (λ next.
            SavesBetween (state S.Store) had.now.takes_anew self.old.pass.view self.new.pass.view from next save.old.conn.now save.new.conn.now) }
        ensures kept { Survives (state S.Store save.old.conn.now) (state S.Store save.new.conn.now) (λ _. ⊥) }
    {
        let stripes = map.stripes();
        let in_parts = had.may_part(stripes);
        for stripe in from..stripes {
            self.save_stripe(rt, map, stripe, had.takes_anew, save)?;
            if self.writer.is_full(in_parts) {
                return Ok(stripe + 1);
            }
        }
        Ok(stripes)
    }

    /// Writes what changed in the stripes from this one on into the save, until its batches have 1 MiB, and how many the map has. If no
    /// stripe is left, writes the programs and scripts that are new, too.
    fn write_part<R: Wait, S: Alter>(
        &mut self,
        rt: &R,
        shared: &Shared<'_, '_>,
        had: &Had,
        from: u64,
        save: &mut Save<'_, S>,
    ) -> Result<Reached, KeepFault>
        requires map { self.old.pass.map ≡ shared.now.map.now }
        requires from { from ≤ stripes_of shared.now.map.now }
        ensures same { ServesSameMap self.old.pass self.new.pass }
        ensures made { MadeOnlySaves self.old.pass.view self.new.pass.view }
        ensures below { (j : ℕ) → j < from → Keeps self.old.pass.view self.new.pass.view j }
        ensures next { IfOk result (λ reached. IsFurther (may_part had.now.in_file.stripes (stripes_of shared.now.map.now)) (stripes_of shared.now.map.now) from reached) }
        ensures above { IfOk result (λ reached. (j : ℕ) → end_of (stripes_of shared.now.map.now) reached ≤ j → Keeps self.old.pass.view self.new.pass.view j) }
        ensures whole { IfOk result (λ reached. (k : ℕ) → from ≤ k → k < end_of (stripes_of shared.now.map.now) reached → IsWhole self.new.pass k) }
        ensures ends { IfOk result (λ reached. (k : ℕ) → from ≤ k → k < end_of (stripes_of shared.now.map.now) reached
            → IsSavedSince had.now.takes_anew self.old.pass.view self.new.pass.view k) }
        ensures same_reference { save.new.conn.ghost_name ≡ save.old.conn.ghost_name }
        ensures wrote { HasCleanDisk (state S.Store save.new.conn.now) → IfOk result (λ reached.
            WritesPart (state S.Store) had.now.takes_anew self.old.pass.view self.new.pass.view (stripes_of shared.now.map.now) from (end_of (stripes_of shared.now.map.now) reached)
            save.old.conn.now save.new.conn.now) }
        ensures kept { Survives (state S.Store save.old.conn.now) (state S.Store save.new.conn.now) (λ _. ⊥) }
    {
        let next = self.save_stripes(rt, shared.map, had, from, save)?;
        let stripes = shared.map.stripes();
        if next < stripes {
            // The next part may be cut off, so each one says it.
            write_width(had.in_file.stripes, stripes, save)?;
            return Ok(Reached::Stripe(next));
        }
        let in_file = write_others(rt, self.alloc, shared, &had.in_file, save)?;
        Ok(Reached::End(in_file))
    }

    /// Makes one transaction of a save, which begins with this stripe. If an earlier transaction has not ended, which cannot be,
    /// `Unwritable`; the commit's own fault, if it fails. After a fault the file has what it had before this transaction.
    fn save_part<R: Wait, S: Alter>(
        &mut self,
        rt: &R,
        shared: &Shared<'_, '_>,
        had: &Had,
        from: u64,
        conn: &mut Connection<S>,
    ) -> Result<Reached, KeepFault>
        requires map { self.old.pass.map ≡ shared.now.map.now }
        requires from { from ≤ stripes_of shared.now.map.now }
        ensures same { ServesSameMap self.old.pass self.new.pass }
        ensures made { MadeOnlySaves self.old.pass.view self.new.pass.view }
        ensures below { (j : ℕ) → j < from → Keeps self.old.pass.view self.new.pass.view j }
        ensures next { IfOk result (λ reached. IsFurther (may_part had.now.in_file.stripes (stripes_of shared.now.map.now)) (stripes_of shared.now.map.now) from reached) }
        ensures above { IfOk result (λ reached. (j : ℕ) → end_of (stripes_of shared.now.map.now) reached ≤ j → Keeps self.old.pass.view self.new.pass.view j) }
        ensures whole { IfOk result (λ reached. (k : ℕ) → from ≤ k → k < end_of (stripes_of shared.now.map.now) reached → IsWhole self.new.pass k) }
        ensures ends { IfOk result (λ reached. (k : ℕ) → from ≤ k → k < end_of (stripes_of shared.now.map.now) reached
            → IsSavedSince had.now.takes_anew self.old.pass.view self.new.pass.view k) }
        ensures wrote { HasCleanDisk (state S.Store conn.new) → IfOk result (λ reached.
            SavesPart (state S.Store) had.now.takes_anew self.old.pass.view self.new.pass.view (stripes_of shared.now.map.now) from (end_of (stripes_of shared.now.map.now) reached)
            conn.old conn.new) }
        ensures crash { IfOk result (λ reached. Survives (state S.Store conn.old) (state S.Store conn.new)
            (WouldCommit (state S.Store) had.now.takes_anew self.old.pass.view self.new.pass.view (stripes_of shared.now.map.now) from (end_of (stripes_of shared.now.map.now) reached) conn.old)) }
        ensures crash_err { IfErr result (λ _. Survives (state S.Store conn.old) (state S.Store conn.new)
            (WouldStop (state S.Store) (may_part had.now.in_file.stripes (stripes_of shared.now.map.now)) had.now.takes_anew self.old.pass.view self.new.pass.view (stripes_of shared.now.map.now) from conn.old)) }
    {
        if !conn.is_autocommit() {
            return Err(KeepFault::Unwritable);
        }
        self.writer.bytes = 0;
        let mut save = conn.transaction();
        let reached = self.write_part(rt, shared, had, from, &mut save)?;
        save.commit()?;
        Ok(reached)
    }

    /// Saves what changed in the map, its programs and its scripts, in one transaction or several. Returns what the file has then. The
    /// faults of `save_part`.
    pub(crate) fn save_all<R: Wait, S: Alter>(
        &mut self,
        rt: &R,
        shared: &Shared<'_, '_>,
        had: &Had,
        conn: &mut Connection<S>,
    ) -> Result<InFile, KeepFault>
        requires map { self.old.pass.map ≡ shared.now.map.now }
        ensures same { ServesSameMap self.old.pass self.new.pass }
        ensures made { MadeOnlySaves self.old.pass.view self.new.pass.view }
        ensures whole { OnOk result ((k : ℕ) → k < stripes_of shared.now.map.now → IsWhole self.new.pass k) }
        ensures ends { OnOk result ((k : ℕ) → k < stripes_of shared.now.map.now → IsSavedSince had.now.takes_anew self.old.pass.view self.new.pass.view k) }
        ensures wrote { HasCleanDisk (state S.Store conn.new) → OnOk result
            (SavesMap (state S.Store) had.now.takes_anew self.old.pass.view self.new.pass.view (stripes_of shared.now.map.now) conn.old conn.new) }
        ensures crash { Survives (state S.Store conn.old) (state S.Store conn.new)
            (WouldSave (state S.Store) had.now.takes_anew self.old.pass.view self.new.pass.view (stripes_of shared.now.map.now) conn.old) }
        ensures at_once { may_part had.now.in_file.stripes (stripes_of shared.now.map.now) ≡ false → Survives (state S.Store conn.old) (state S.Store conn.new)
            (WouldCommit (state S.Store) had.now.takes_anew self.old.pass.view self.new.pass.view (stripes_of shared.now.map.now) 0 (stripes_of shared.now.map.now) conn.old) }
    {
        self.rows = 0;
        let mut from = 0;
        loop {
            let reached = self.save_part(rt, shared, had, from, conn)?;
            match reached {
                Reached::Stripe(next) => from = next,
                Reached::End(in_file) => return Ok(in_file),
            }
        }
    }
}
