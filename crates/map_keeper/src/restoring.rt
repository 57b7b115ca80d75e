//! What a file has, back into a map, its programs and its scripts.
ghost use Rattle.std.specs.Prelude.{◌≡◌, ◌⊎◌, ◌==◌, ℕ, List, [], false, None, Ok, IsNone, IsTrue, IfOk, IfSome, OnOk, length};
ghost use Rattle.sqlite.specs.Held.{state};
ghost use Rattle.sqlite.specs.State.{HasCleanDisk, IsUnchanged, Survives};
ghost use Rattle.atomic_methods.specs.Hashes.{stripe_of};
ghost use Rattle.atomic_methods.specs.Invocations.{invocation_of};
ghost use Rattle.bin_stripes.specs.Passes.{ServesSameMap, stripes_of};
ghost use Rattle.program_registry.specs.Sent.{IsSentAs};
ghost use Rattle.program_registry.specs.Tokens.{IsOf, program_of};
ghost use Rattle.kept_file.specs.Reading.{HandedOut};
ghost use Rattle.kept_file.specs.Changes.{change_of, entry_of};
ghost use Rattle.map_keeper.specs.Restores.{AreRestored, CallsOnce, CountsBelow, CountsScripts, IsLeft, IsRestored, Replays, ReplaysBatch, ReplaysFile, RestoresEntries, RestoresPrograms, left_at};

use crate::fault::RestoreFault;
use crate::keeper::{Keeper, Shared};
use admission::{AdmissionFault, ProgramLimits, admit};
use atomic_methods::Call;
use bin_stripes::{Pass, StripedMap};
use bpf_model::{Key, NoMemory, Value};
use kept_file::{Batches, KeepFault, KeptBatch, KeptChange, KeptProgram, Mark, batches};
use program_registry::{ProgramToken, Registry, SentProgram};
use redis_scripts::{ScriptFault, Scripts};
use sqlite::{Alter, Connection};
use std::alloc::Global;
use std::sync::Wait;
use timed_bins::{DeadlineChange, SetRule, Timing};
use verifier::Verified;

/// What came from a file.
#[derive(Drop)]
pub struct Restored {
    /// How many entries the map has then.
    pub entries: u64,
    /// A token of each program, in the order of their numbers.
    pub programs: Vec<ProgramToken>,
    /// How many scripts.
    pub scripts: u64,
}

/// What the refusal of the program of this number means for its file.
fn refusal_of(number: u64, fault: AdmissionFault) -> RestoreFault
    ensures { (result ≡ RestoreFault.NoMemory) ⊎ (result ≡ RestoreFault.Program number fault) }
{
    if fault.number() == NoMemory::NUMBER {
        return RestoreFault::NoMemory;
    }
    RestoreFault::Program { number, fault }
}

/// Registers the program of these bytes. One that the file has twice gets a number of its own again.
fn register_verified<R: Wait>(
    rt: &R,
    registry: &Registry,
    kept: &KeptProgram,
    verified: Verified,
) -> Result<ProgramToken, NoMemory>
    requires { IsSentAs kept.now.sizes kept.now.bytes.items verified }
    ensures { IfOk result (λ token. IsOf registry.now token × (program_of token ≡ verified)) }
{
    let sent = SentProgram::new(kept.sizes, &kept.bytes);
    if let Some(_) = registry.find_same(rt, &sent) {
        return registered(registry.register(rt, verified));
    }
    registered(registry.register_sent(rt, &sent, verified))
}

/// The token, without the program that comes back if there is none.
fn registered(outcome: Result<ProgramToken, (NoMemory, Verified)>) -> Result<ProgramToken, NoMemory>
    ensures { IfOk result (λ token. outcome ≡ Ok token) }
{
    match outcome {
        Ok(token) => Ok(token),
        Err((fault, _)) => Err(fault),
    }
}

/// Registers the program again, if it is verified now as it was. `Program` if it is refused, `Number` if it would get another number,
/// `NoMemory` if a request for memory was refused or the registry is full.
fn register<R: Wait>(
    rt: &R,
    alloc: Global,
    registry: &Registry,
    kept: &KeptProgram,
) -> Result<ProgramToken, RestoreFault>
    ensures { IfOk result (λ token. IsRestored registry.now kept.now token) }
{
    let verified = match admit(alloc, ProgramLimits::GREATEST, &kept.bytes, kept.sizes) {
        Ok(verified) => verified,
        Err(fault) => return Err(refusal_of(kept.number, fault)),
    };
    match register_verified(rt, registry, kept, verified) {
        Ok(token) if token.number() == kept.number => Ok(token),
        Ok(_) => Err(RestoreFault::Number {
            number: kept.number,
        }),
        Err(_) => Err(RestoreFault::NoMemory),
    }
}

/// Registers these programs, and returns a token of each. The faults of `register`.
fn register_all<R: Wait>(
    rt: &R,
    alloc: Global,
    registry: &Registry,
    programs: &[KeptProgram],
) -> Result<Vec<ProgramToken>, RestoreFault>
    ensures { IfOk result (λ tokens. AreRestored registry.now programs.now tokens.items) }
{
    let mut tokens = Vec::new(alloc);
    for program in programs {
        let token = register(rt, alloc, registry, program)?;
        if tokens.push(token).is_err() {
            return Err(RestoreFault::NoMemory);
        }
    }
    Ok(tokens)
}

/// Returns what becomes of the deadline of a key with this change; `None` if the key has nothing at this time, since it was removed or its
/// time is over.
fn deadline_at(mark: Mark, now: u64) -> Option<DeadlineChange>
    ensures some { IfSome result (λ change. (value : List ℕ) → IsLeft mark now value change) }
    ensures none { IsNone result → (value : List ℕ) → left_at now (entry_of mark value) ≡ None }
{
    match mark {
        Mark::Gone => None,
        Mark::Lasting => Some(DeadlineChange::Clear),
        Mark::Until(at) if at <= now => None,
        Mark::Until(at) => Some(DeadlineChange::Set {
            at,
            rule: SetRule::Always,
        }),
    }
}

/// Loads the scripts of these texts, and returns how many there are. `Script` if one is refused, `NoMemory` if a request for memory was
/// refused or there are more scripts than there may be.
fn load<R: Wait>(
    rt: &R,
    alloc: Global,
    scripts: &Scripts<'_>,
    texts: &[Vec<u8>],
) -> Result<u64, RestoreFault>
    ensures { IfOk result (λ count. count ≡ length texts.now) }
{
    let mut place = 0u64;
    for text in texts {
        match scripts.load(rt, alloc, text.as_slice()) {
            Ok(_) => place += 1,
            Err(ScriptFault::NoMemory) => return Err(RestoreFault::NoMemory),
            Err(fault) => return Err(RestoreFault::Script { place, fault }),
        }
    }
    Ok(place)
}

/// Room for a change that is read, and for a reply.
#[derive(Drop)]
struct Room {
    change: KeptChange,
    reply: Value,
}

/// How the changes of a file are made again.
#[derive(Clone, Copy)]
struct Replay<'a> {
    map: &'a StripedMap,
    /// How many stripes the map had that was saved.
    had: u64,
    /// The time, in milliseconds since the epoch.
    time: u64,
}

impl Replay<'_> {
    /// Tests whether a key's change is in another stripe than the key, if the map has as many stripes as the one that was saved had.
    fn is_misplaced(&self, stripe: u64, key: &Key) -> bool
        ensures { result ≡ false → IsTrue (self.now.had == stripes_of self.now.map.now) → stripe ≡ stripe_of (stripes_of self.now.map.now) key.now }
    {
        self.had == self.map.stripes() && stripe != self.map.stripe_of(key)
    }

    /// Makes a call at the time. `NoMemory` if a request for memory was refused.
    fn call<R: Wait>(
        &self,
        rt: &R,
        pass: &mut Pass,
        call: &Call,
        change: DeadlineChange,
        reply: &mut Value,
    ) -> Result<(), NoMemory>
        requires map { pass.old.map ≡ self.now.map.now }
        ensures same { ServesSameMap pass.old pass.new }
        ensures calls { OnOk result (CallsOnce (record { now = self.now.time; change = change }) (invocation_of call.now) pass.old pass.new) }
    {
        let timing = Timing {
            now: self.time,
            change,
        };
        self.map.call_at_into(rt, pass, call, &timing, reply)?;
        Ok(())
    }

    /// Makes the change: the key gets its value and its deadline, or is removed, also if its time is over. `NoMemory` if a request for
    /// memory was refused. Waits until the stripe of the key is free.
    #[tactic(auto, using(crate::proofs::RestoreLemmas::replays_put, crate::proofs::RestoreLemmas::replays_remove))]
    fn apply<R: Wait>(
        &self,
        rt: &R,
        pass: &mut Pass,
        change: &KeptChange,
        reply: &mut Value,
    ) -> Result<(), NoMemory>
        requires map { pass.old.map ≡ self.now.map.now }
        ensures same { ServesSameMap pass.old pass.new }
        ensures replays { OnOk result (Replays self.now.time (change_of change.now) pass.old pass.new) }
    {
        let Some(deadline) = deadline_at(change.mark, self.time) else {
            let call = Call::Remove { key: &change.key };
            return self.call(rt, pass, &call, DeadlineChange::Clear, reply);
        };
        let call = Call::Put {
            key: &change.key,
            value: &change.value,
        };
        self.call(rt, pass, &call, deadline, reply)
    }

    /// Makes the changes of a batch, one after the other. If the map has as many stripes as the one that was saved had, each has to be in
    /// its key's stripe. The faults of `KeptChange::read`, and `NoMemory` if a request for memory was refused.
    fn apply_batch<R: Wait>(
        &self,
        rt: &R,
        pass: &mut Pass,
        batch: &KeptBatch,
        room: &mut Room,
    ) -> Result<(), RestoreFault>
        requires map { pass.old.map ≡ self.now.map.now }
        ensures same { ServesSameMap pass.old pass.new }
        ensures replays { OnOk result (ReplaysBatch (self.now.had == stripes_of self.now.map.now) self.now.time batch.now.stripe batch.now.bytes.items pass.old pass.new) }
    {
        let mut rest = batch.bytes.as_slice();
        for _ in 0..u64::MAX {
            if rest.is_empty() {
                return Ok(());
            }
            rest = room.change.read(rest)?;
            if self.is_misplaced(batch.stripe, &room.change.key) {
                return Err(RestoreFault::File(KeepFault::Damaged));
            }
            self.apply(rt, pass, &room.change, &mut room.reply)?;
        }
        Err(RestoreFault::NoMemory)
    }

    /// Makes the changes of all batches, in their order. The faults of `apply_batch` and of `batches::next`.
    fn apply_all<R: Wait, S: Alter>(
        &self,
        rt: &R,
        alloc: Global,
        pass: &mut Pass,
        batches: &mut Batches<'_, S>,
    ) -> Result<(), RestoreFault>
        requires map { pass.old.map ≡ self.now.map.now }
        ensures same { ServesSameMap pass.old pass.new }
        ensures same_reference { batches.new.conn.ghost_name ≡ batches.old.conn.ghost_name }
        ensures replayed { HasCleanDisk (state S.Store batches.new.conn.now) → OnOk result ((start : _) → HandedOut S.Store start batches.old.conn.now []
            → ReplaysFile (state S.Store start) (self.now.had == stripes_of self.now.map.now) self.now.time pass.old pass.new × IsUnchanged (state S.Store start) (state S.Store batches.new.conn.now)) }
        ensures kept { Survives (state S.Store batches.old.conn.now) (state S.Store batches.new.conn.now) (λ _. ⊥) }
    {
        let mut batch = KeptBatch::new(alloc);
        let mut room = Room {
            change: KeptChange::new(),
            reply: Value::new(),
        };
        for _ in 0..u64::MAX {
            if !batches::next(batches, self.had, &mut batch)? {
                return Ok(());
            }
            self.apply_batch(rt, pass, &batch, &mut room)?;
        }
        Err(RestoreFault::NoMemory)
    }

    /// Makes the changes of the file that is connected so, as `apply_all` does.
    fn apply_from<R: Wait, S: Alter>(
        &self,
        rt: &R,
        alloc: Global,
        pass: &mut Pass,
        conn: &mut Connection<S>,
    ) -> Result<(), RestoreFault>
        requires map { pass.old.map ≡ self.now.map.now }
        ensures same { ServesSameMap pass.old pass.new }
        ensures replayed { HasCleanDisk (state S.Store conn.new) → OnOk result (ReplaysFile (state S.Store conn.old) (self.now.had == stripes_of self.now.map.now) self.now.time pass.old pass.new) }
        ensures unchanged { HasCleanDisk (state S.Store conn.new) → OnOk result (IsUnchanged (state S.Store conn.old) (state S.Store conn.new)) }
        ensures kept { OnOk result (Survives (state S.Store conn.old) (state S.Store conn.new) (λ _. ⊥)) }
    {
        let mut batches = batches::begin(conn)?;
        self.apply_all(rt, alloc, pass, &mut batches)
    }
}

/// Returns how many entries the map has, by one count of each of its stripes.
fn count_all<R: Wait>(rt: &R, map: &StripedMap, pass: &mut Pass) -> u64
    requires map { pass.old.map ≡ map.now }
    ensures same { ServesSameMap pass.old pass.new }
    ensures counted { CountsBelow (stripes_of map.now) pass.old pass.new result }
{
    let mut count = 0u64;
    for stripe in 0..map.stripes() {
        count += map.count_stripe(rt, pass, stripe);
    }
    count
}

impl<S: Alter> Keeper<S> {
    /// Registers the programs of the file, each under the number that it had, and returns a token of each.
    fn restore_programs<R: Wait>(
        &mut self,
        rt: &R,
        registry: &Registry,
    ) -> Result<Vec<ProgramToken>, RestoreFault>
        ensures taker { self.new.taker ≡ self.old.taker }
        ensures stripes { self.new.in_file.stripes ≡ self.old.in_file.stripes }
        ensures programs { HasCleanDisk (state S.Store self.new.file.conn) → IfOk result (λ tokens. RestoresPrograms (state S.Store self.old.file.conn) registry.now tokens.items) }
        ensures unchanged { HasCleanDisk (state S.Store self.new.file.conn) → OnOk result (IsUnchanged (state S.Store self.old.file.conn) (state S.Store self.new.file.conn)) }
        ensures kept { OnOk result (Survives (state S.Store self.old.file.conn) (state S.Store self.new.file.conn) (λ _. ⊥)) }
    {
        let programs = self.file.programs(self.taker.alloc)?;
        let tokens = register_all(rt, self.taker.alloc, registry, &programs)?;
        self.in_file.programs = programs.len() as u64;
        Ok(tokens)
    }

    /// Loads the scripts of the file, and returns how many there are.
    fn restore_scripts<R: Wait>(
        &mut self,
        rt: &R,
        scripts: &Scripts<'_>,
    ) -> Result<u64, RestoreFault>
        ensures taker { self.new.taker ≡ self.old.taker }
        ensures stripes { self.new.in_file.stripes ≡ self.old.in_file.stripes }
        ensures scripts { HasCleanDisk (state S.Store self.new.file.conn) → IfOk result (CountsScripts (state S.Store self.old.file.conn)) }
        ensures unchanged { HasCleanDisk (state S.Store self.new.file.conn) → OnOk result (IsUnchanged (state S.Store self.old.file.conn) (state S.Store self.new.file.conn)) }
        ensures kept { OnOk result (Survives (state S.Store self.old.file.conn) (state S.Store self.new.file.conn) (λ _. ⊥)) }
    {
        let texts = self.file.scripts(self.taker.alloc)?;
        let loaded = load(rt, self.taker.alloc, scripts, &texts)?;
        self.in_file.scripts = texts.len();
        Ok(loaded)
    }

    /// Makes the changes that the file has, and returns how many entries the map has after that.
    #[tactic(auto, using(crate::proofs::RestoreLemmas::restores_all))]
    fn restore_entries<R: Wait>(
        &mut self,
        rt: &R,
        map: &StripedMap,
        now: u64,
    ) -> Result<u64, RestoreFault>
        requires map { self.old.taker.pass.map ≡ map.now }
        ensures same { ServesSameMap self.old.taker.pass self.new.taker.pass }
        ensures entered { HasCleanDisk (state S.Store self.new.file.conn) → IfOk result
            (RestoresEntries (state S.Store self.old.file.conn) (self.old.in_file.stripes == stripes_of map.now) now self.old.taker.pass self.new.taker.pass) }
        ensures unchanged { HasCleanDisk (state S.Store self.new.file.conn) → OnOk result (IsUnchanged (state S.Store self.old.file.conn) (state S.Store self.new.file.conn)) }
        ensures kept { OnOk result (Survives (state S.Store self.old.file.conn) (state S.Store self.new.file.conn) (λ _. ⊥)) }
    {
        let replay = Replay {
            map,
            had: self.in_file.stripes,
            time: now,
        };
        let conn = self.file.connection();
        replay.apply_from(rt, self.taker.alloc, &mut self.taker.pass, conn)?;
        Ok(count_all(rt, map, &mut self.taker.pass))
    }

    /// Restores what the file has: its programs, each verified anew and under the number that it had; its scripts; and its entries, with
    /// their deadlines, without those whose time is over by `now`, in milliseconds since the epoch: the changes of the file are made once
    /// more, in their order. The map, the registry and the table
    /// of scripts are new. `Program` and `Script` if one is refused, `Number` if a program would get another number, `NoMemory` if a
    /// request for memory was refused or there are more programs or scripts than there may be, else a fault of the file. After a fault
    /// the file is as it was, and some of it may be restored. Waits for stripes that others hold.
    pub fn restore<R: Wait>(
        &mut self,
        rt: &R,
        shared: &Shared<'_, '_>,
        now: u64,
    ) -> Result<Restored, RestoreFault>
        requires map { self.old.taker.pass.map ≡ shared.now.map.now }
        ensures same { ServesSameMap self.old.taker.pass self.new.taker.pass }
        ensures entries { HasCleanDisk (state S.Store self.new.file.conn) → IfOk result (λ restored. RestoresEntries (state S.Store self.old.file.conn)
            (self.old.in_file.stripes == stripes_of shared.now.map.now) now self.old.taker.pass self.new.taker.pass restored.entries) }
        ensures programs { HasCleanDisk (state S.Store self.new.file.conn) → IfOk result (λ restored. RestoresPrograms (state S.Store self.old.file.conn) shared.now.registry.now restored.programs.items) }
        ensures scripts { HasCleanDisk (state S.Store self.new.file.conn) → IfOk result (λ restored. CountsScripts (state S.Store self.old.file.conn) restored.scripts) }
        ensures unchanged { HasCleanDisk (state S.Store self.new.file.conn) → OnOk result (IsUnchanged (state S.Store self.old.file.conn) (state S.Store self.new.file.conn)) }
        ensures kept { OnOk result (Survives (state S.Store self.old.file.conn) (state S.Store self.new.file.conn) (λ _. ⊥)) }
    {
        let programs = self.restore_programs(rt, shared.registry)?;
        let scripts = self.restore_scripts(rt, shared.scripts)?;
        let entries = self.restore_entries(rt, shared.map, now)?;
        Ok(Restored {
            entries,
            programs,
            scripts,
        })
    }
}
