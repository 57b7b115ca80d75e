//! What keeps a map in a file.
ghost use Rattle.std.specs.Prelude.{◌≡◌, ℕ, ◌<◌, ◌^◌, [], ◌∷◌, true, false, IfOk, OnOk, OnErr};
ghost use Rattle.stripe_rule.specs.Gains.{seen_of};
ghost use Rattle.bin_stripes.specs.Passes.{ServesSameMap, stripes_of};
ghost use Rattle.sqlite.specs.Held.{state};
ghost use Rattle.sqlite.specs.State.{HasCleanDisk, Survives};
ghost use Rattle.sqlite.specs.Tree.{Trees};
ghost use Rattle.kept_file.specs.Content.{HasTables};
ghost use Rattle.map_keeper.specs.Kept.{HasContent, IsInStep, IsSavedPartly, OnlySaves, with_trees};
ghost use Rattle.map_keeper.specs.Saves.{IsWhole, MadeOnlySaves};
ghost use Rattle.map_keeper.specs.Written.{IsSavedSince, SavesMap, WouldCommit, WouldSave, may_part};

use crate::fault::RestoreFault;
use crate::taker::Taker;
use bin_stripes::{Pass, StripedMap};
use kept_file::{KeepFault, KeptFile, OnDisk};
use program_registry::Registry;
use redis_scripts::Scripts;
use sqlite::Alter;
use std::alloc::Global;
use std::sync::Wait;
use std::time::Duration;

/// What is kept: a map, its programs and its scripts.
#[derive(Clone, Copy)]
pub struct Shared<'a, 'r> {
    pub map: &'a StripedMap,
    pub registry: &'a Registry,
    pub scripts: &'a Scripts<'r>,
}

/// What the file has of what is kept.
#[derive(Clone, Copy, Debug, PartialEq, Eq)]
pub(crate) struct InFile {
    /// The stripes of the map that saved last; 0 if none did.
    pub(crate) stripes: u64,
    pub(crate) programs: u64,
    pub(crate) scripts: usize,
}

/// If there are more changes than these, a file may be taken for long.
const FEW: u64 = 1 << 16;

/// How many changes the file's batches have.
#[derive(Clone, Copy, Debug, Default, PartialEq, Eq)]
struct LogLength {
    /// Those that the last save wrote that took every stripe anew.
    anew: u64,
    /// Those that came after it.
    since: u64,
}

impl LogLength {
    /// The length after a save that wrote this many rows.
    fn after(self, rows: u64, takes_anew: bool) -> LogLength {
        if takes_anew {
            return LogLength {
                anew: rows,
                since: 0,
            };
        }
        LogLength {
            anew: self.anew,
            since: self.since.saturating_add(rows),
        }
    }

    /// Tests whether more changes came since all was taken anew than there were entries then.
    fn is_long(self) -> bool {
        self.since > FEW && self.since > self.anew
    }
}

/// What the file has, and whether a save takes every stripe anew.
#[derive(Clone, Copy)]
pub(crate) struct Had {
    pub(crate) in_file: InFile,
    pub(crate) takes_anew: bool,
}

impl Had {
    /// Tests whether a map of this many stripes may be saved in several transactions: the file has no stripes, or as many. If it has another
    /// number, what it has of a key may be in another stripe, and a part would take it away before it has it in the new one.
    pub(crate) fn may_part(&self, stripes: u64) -> bool
        ensures { result ≡ may_part self.now.in_file.stripes stripes }
    {
        let had = self.in_file.stripes;
        had == 0 || had == stripes
    }
}

/// Keeps a map in a file over this store, by a pass of its own.
#[derive(Drop)]
pub struct Keeper<S: Alter> {
    pub(crate) file: KeptFile<S>,
    pub(crate) taker: Taker,
    pub(crate) in_file: InFile,
    /// Whether the next save takes every stripe anew: none came before it, the last one failed, or the file has got long.
    pub(crate) takes_anew: bool,
    log: LogLength,
}

impl<S: Alter + Drop> Keeper<S> {
    /// Keeps a map in this file by this pass, which nothing else uses. The faults of `KeptFile::stripes`.
    pub fn new(alloc: Global, file: KeptFile<S>, pass: Pass) -> Result<Keeper<S>, RestoreFault>
        ensures pass { IfOk result (λ keeper. keeper.taker.pass ≡ pass) }
        ensures anew { IfOk result (λ keeper. keeper.takes_anew ≡ true) }
        ensures tables { IfOk result (λ keeper. HasCleanDisk (state S.Store keeper.file.conn)
            → (HasCleanDisk (state S.Store file.conn) → HasTables (state S.Store file.conn)) → HasTables (state S.Store keeper.file.conn)) }
    {
        let mut file = file;
        let stripes = file.stripes()?;
        Ok(Keeper {
            file,
            taker: Taker::new(alloc, pass),
            in_file: InFile {
                stripes,
                programs: 0,
                scripts: 0,
            },
            takes_anew: true,
            log: LogLength::default(),
        })
    }

    /// Saves what changed since the last save: of each stripe the rows of the keys that changed, or of all its entries if the last save
    /// failed, none came before, or the file has got long; and programs and scripts that are new. A save of less than 1 MiB is one transaction
    /// of the file. A longer one makes several: each takes stripes until its batches come to 1 MiB, and is committed. But it is one if the
    /// file has another number of stripes than the map. It rests for this time after each batch of some 16 KiB, with no stripe held.
    /// `NoMemory` if a request for memory was refused, else a fault of the file. The file then has of each stripe what it had, or what this
    /// save took of it; and the next save takes all anew. Waits for stripes that others hold, each for a moment.
    pub fn save<R: Wait>(
        &mut self,
        rt: &R,
        shared: &Shared<'_, '_>,
        rest: Duration,
    ) -> Result<(), KeepFault>
        requires map { self.old.taker.pass.map ≡ shared.now.map.now }
        ensures same { ServesSameMap self.old.taker.pass self.new.taker.pass }
        ensures made { MadeOnlySaves self.old.taker.pass.view self.new.taker.pass.view }
        ensures whole { OnOk result ((k : ℕ) → k < stripes_of shared.now.map.now → IsWhole self.new.taker.pass k) }
        ensures ends { OnOk result ((k : ℕ) → k < stripes_of shared.now.map.now → IsSavedSince self.old.takes_anew self.old.taker.pass.view self.new.taker.pass.view k) }
        ensures wrote { HasCleanDisk (state S.Store self.new.file.conn) → OnOk result
            (SavesMap (state S.Store) self.old.takes_anew self.old.taker.pass.view self.new.taker.pass.view (stripes_of shared.now.map.now) self.old.file.conn self.new.file.conn) }
        ensures file { HasCleanDisk (state S.Store self.new.file.conn) → stripes_of shared.now.map.now < 2 ^ 63
            → IsInStep self.old.takes_anew self.old.taker.pass.view (stripes_of shared.now.map.now) (state S.Store self.old.file.conn)
            → OnOk result (IsInStep false self.new.taker.pass.view (stripes_of shared.now.map.now) (state S.Store self.new.file.conn)) }
        ensures content { HasCleanDisk (state S.Store self.new.file.conn) → stripes_of shared.now.map.now < 2 ^ 63
            → IsInStep self.old.takes_anew self.old.taker.pass.view (stripes_of shared.now.map.now) (state S.Store self.old.file.conn)
            → OnOk result ((k q : ℕ) → k < stripes_of shared.now.map.now → self.new.taker.pass.view.numbers ≡ q ∷ [] → OnlySaves q (seen_of self.new.taker.pass.view k)
            → HasContent (state S.Store self.new.file.conn) self.new.taker.pass k) }
        ensures crash { Survives (state S.Store self.old.file.conn) (state S.Store self.new.file.conn)
            (WouldSave (state S.Store) self.old.takes_anew self.old.taker.pass.view self.new.taker.pass.view (stripes_of shared.now.map.now) self.old.file.conn) }
        ensures at_once { may_part self.old.in_file.stripes (stripes_of shared.now.map.now) ≡ false → Survives (state S.Store self.old.file.conn) (state S.Store self.new.file.conn)
            (WouldCommit (state S.Store) self.old.takes_anew self.old.taker.pass.view self.new.taker.pass.view (stripes_of shared.now.map.now) 0 (stripes_of shared.now.map.now) self.old.file.conn) }
        ensures found { stripes_of shared.now.map.now < 2 ^ 63
            → IsInStep self.old.takes_anew self.old.taker.pass.view (stripes_of shared.now.map.now) (state S.Store self.old.file.conn)
            → (trees : Trees) → WouldSave (state S.Store) self.old.takes_anew self.old.taker.pass.view self.new.taker.pass.view (stripes_of shared.now.map.now) self.old.file.conn trees
            → IsSavedPartly self.new.taker.pass (stripes_of shared.now.map.now) (state S.Store self.old.file.conn) (with_trees (state S.Store self.old.file.conn) trees) }
        ensures err { OnErr result (self.new.takes_anew ≡ true) }
    {
        let had = Had {
            in_file: self.in_file,
            takes_anew: self.takes_anew,
        };
        self.takes_anew = true;
        self.taker.writer.rest = rest;
        let conn = self.file.connection();
        let saved = self.taker.save_all(rt, shared, &had, conn);
        self.taker.pass.vouch();
        let in_file = saved?;
        self.in_file = in_file;
        self.log = self.log.after(self.taker.rows, had.takes_anew);
        self.takes_anew = self.log.is_long();
        Ok(())
    }
}

impl Keeper<OnDisk> {
    /// Closes the file, which then has all that was saved in it alone. If this fails, it has that together with the files beside it.
    pub fn close(self) -> Result<(), KeepFault> {
        self.file.close()
    }
}
