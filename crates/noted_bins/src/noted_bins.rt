//! Bins that note which keys changed.
ghost use Rattle.std.specs.Prelude.{◌≡◌, ◌<◌, ◌≤◌, ◌^◌, ◌++◌, true, List, length, IsTrue, IfOk, OnErr, option_copied};
ghost use Rattle.std.specs.FinMap as map;
ghost use Rattle.bins.specs.Replacements.{ReplacesEach};
ghost use Rattle.timed_bins.specs.Deadlines.{timed_table, MakesCall, RefusesCall, Expires};
ghost use Rattle.noted_bins.specs.Notes.{NotesChanges, TakesChanges, is_all, is_anew};
ghost use Rattle.noted_bins.specs.Rows.{Row};

use crate::changes::Changes;
use crate::taken::Taken;
use atomic_methods::{HashedCall, Workspace};
use bins::Counts;
use bpf_model::{NoMemory, Value};
use timed_bins::{Expiry, TimedBins, TimedReply, Timing};
use verifier::Verified;

/// Bins that note which keys changed since their rows were handed out. The clauses of `Bins` and `TimedBins` say nothing of
/// that, so each of their methods that changes something stands here again, and says which keys are noted.
pub trait NotedBins: TimedBins {
    ghost use Rattle.std.specs.Prelude.{ℕ, List, Bool};

    /// If a key is noted.
    ghost noted: { Self → List ℕ → Bool };

    /// Makes one call as `TimedBins::call` does, and notes its key unless it changed nothing.
    fn call_noted(
        &mut self,
        call: &HashedCall<'_>,
        timing: Option<&Timing>,
        workspace: &mut Workspace,
        bytes: &mut Value,
    ) -> Result<TimedReply, NoMemory>
        ensures ok { IfOk result (λ timed. MakesCall (option_copied timing.entry)
            (timed_table (Self.table self.old) (Self.deadline self.old) (Self.latest self.old)) call.now timed bytes.new
            (timed_table (Self.table self.new) (Self.deadline self.new) (Self.latest self.new))) }
        ensures err { OnErr result (RefusesCall (option_copied timing.entry)
            (timed_table (Self.table self.old) (Self.deadline self.old) (Self.latest self.old)) call.now
            (timed_table (Self.table self.new) (Self.deadline self.new) (Self.latest self.new))) }
        ensures notes { NotesChanges (noted self.old)
            (timed_table (Self.table self.old) (Self.deadline self.old) (Self.latest self.old)) (noted self.new)
            (timed_table (Self.table self.new) (Self.deadline self.new) (Self.latest self.new)) };

    /// Takes at most one entry away whose time is over, as `TimedBins::expire_one` does, and notes its key.
    fn expire_noted(&mut self, now: u64) -> Expiry
        ensures expires { Expires (timed_table (Self.table self.old) (Self.deadline self.old) (Self.latest self.old)) now result
            (timed_table (Self.table self.new) (Self.deadline self.new) (Self.latest self.new)) }
        ensures notes { NotesChanges (noted self.old)
            (timed_table (Self.table self.old) (Self.deadline self.old) (Self.latest self.old)) (noted self.new)
            (timed_table (Self.table self.new) (Self.deadline self.new) (Self.latest self.new)) };

    /// Replaces the value of each key once, as `Bins::replace_each` does, and notes all keys.
    fn replace_noted(&mut self, program: &Verified, arg: &Option<Value>) -> Counts
        ensures each { ReplacesEach program.now arg.now (Self.table self.old) (Self.table self.new) result }
        ensures bounded { result.scanned < 2 ^ 57 }
        ensures notes { NotesChanges (noted self.old)
            (timed_table (Self.table self.old) (Self.deadline self.old) (Self.latest self.old)) (noted self.new)
            (timed_table (Self.table self.new) (Self.deadline self.new) (Self.latest self.new)) };

    /// Adds rows of noted keys to the changes, at most `most` of them; or of all entries if `anew`, or if it isn't known which keys
    /// changed. If these are more than `most`, rows of some are added, and the others are noted then. (If keys change faster than
    /// they are handed out, more may be added at once, up to all that are left.) Keys whose rows were added are no longer noted. If a
    /// request for memory is refused, returns `NoMemory`, and nothing changes; or `Begun` or `Some`, with the rows for which there was
    /// room. Never waits.
    fn take_changes(
        &mut self,
        anew: bool,
        most: usize,
        changes: &mut Changes,
    ) -> Result<Taken, NoMemory>
        ensures ok { IfOk result (λ taken. (rows : List Row) × ((changes.new ≡ changes.old ++ rows)
            × TakesChanges (noted self.old) (timed_table (Self.table self.old) (Self.deadline self.old) (Self.latest self.old))
            taken rows (noted self.new) (timed_table (Self.table self.new) (Self.deadline self.new) (Self.latest self.new)))) }
        ensures anew { IfOk result (λ taken. IsTrue anew → is_anew taken ≡ true) }
        ensures all { IfOk result (λ taken. IsTrue anew → length (map.entries (Self.table self.old)) ≤ most → is_all taken ≡ true) }
        ensures err { OnErr result ((changes.new ≡ changes.old) × (noted self.new ≡ noted self.old)
            × (timed_table (Self.table self.new) (Self.deadline self.new) (Self.latest self.new)
            ≡ timed_table (Self.table self.old) (Self.deadline self.old) (Self.latest self.old))) };
}
