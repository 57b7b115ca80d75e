//! Bins whose keys may have deadlines.
ghost use Rattle.std.specs.Prelude.{◌≡◌, None, IfOk, OnErr, option_copied};
ghost use Rattle.std.specs.FinMap as map;
ghost use Rattle.atomic_methods.specs.Methods.{Answers, WouldAdd};
ghost use Rattle.atomic_methods.specs.Plans.{reply_by};
ghost use Rattle.bins.specs.Ranks.{KeepsRanks};
ghost use Rattle.timed_bins.specs.Deadlines.{timed_table, change_of, CallsWith, CallsTimed, MakesCall, RefusesCall, RefusesTimed, Expires};

use crate::timing::{Expiry, TimedReply, Timing};
use atomic_methods::{HashedCall, ReplyKind, Workspace};
use bins::{Bins, HashedKey};
use bpf_model::{NoMemory, Value};

/// Bins whose keys may have deadlines. The clauses of `Bins` say nothing of deadlines, so they hold for these bins too.
pub trait TimedBins: Bins {
    ghost use Rattle.std.specs.Prelude.{ℕ, List, Option};

    /// The deadline of each key, or none.
    ghost deadline: { Self → List ℕ → Option ℕ };

    /// The latest time that the bins were told.
    ghost latest: { Self → ℕ };

    /// Makes one call: at a time as `call_at` does, or without a clock as `call_into` does; then only `kind` of the reply
    /// tells something. Returns `NoMemory` as they do. Never waits.
    fn call(
        &mut self,
        call: &HashedCall<'_>,
        timing: Option<&Timing>,
        workspace: &mut Workspace,
        bytes: &mut Value,
    ) -> Result<TimedReply, NoMemory>
        ensures ok { IfOk result (λ timed. MakesCall (option_copied timing.entry)
            (timed_table (Self.table self.old) (deadline self.old) (latest self.old)) call.now timed bytes.new
            (timed_table (Self.table self.new) (deadline self.new) (latest self.new))) }
        ensures err { OnErr result (RefusesCall (option_copied timing.entry)
            (timed_table (Self.table self.old) (deadline self.old) (latest self.old)) call.now
            (timed_table (Self.table self.new) (deadline self.new) (latest self.new))) }
        ensures ranks { KeepsRanks (Self.table self.old) (Self.order self.old) (Self.order self.new) };

    /// Makes one call as `apply_into` does, whatever the time is. A `Put`, `PutIfAbsent` or `Replace` that sets its value
    /// clears the key's deadline; all others keep it. Never waits.
    #[inline(always)]
    fn call_into(
        &mut self,
        call: &HashedCall<'_>,
        workspace: &mut Workspace,
        bytes: &mut Value,
    ) -> Result<ReplyKind, NoMemory>
        ensures ok { IfOk result (λ kind.
            Answers (Self.table self.old) call.now (Self.table self.new) (reply_by kind bytes.new)) }
        ensures err { OnErr result (Self.table self.new ≡ Self.table self.old) }
        ensures memory { OnErr result (WouldAdd (Self.table self.old) call.now) }
        ensures calls { IfOk result (λ kind. CallsWith (change_of call.now.method)
            (timed_table (Self.table self.old) (deadline self.old) (latest self.old)) call.now (reply_by kind bytes.new)
            (timed_table (Self.table self.new) (deadline self.new) (latest self.new))) }
        ensures same { OnErr result ((deadline self.new ≡ deadline self.old) × (latest self.new ≡ latest self.old)) }
    {
        let timed = self.call(call, None, workspace, bytes)?;
        Ok(timed.kind)
    }

    /// Makes one call at a time: takes its key away first if its time is over, and then changes the key's deadline if the
    /// call gets to its entry. Returns `NoMemory` if the call would add its key, or the change may set a deadline, and the
    /// room for that is refused; the call is then not made. Never waits.
    #[inline(always)]
    fn call_at(
        &mut self,
        call: &HashedCall<'_>,
        timing: &Timing,
        workspace: &mut Workspace,
        bytes: &mut Value,
    ) -> Result<TimedReply, NoMemory>
        ensures ok { IfOk result (λ timed.
            CallsTimed (timed_table (Self.table self.old) (deadline self.old) (latest self.old)) timing.entry.now call.now timed
            bytes.new (timed_table (Self.table self.new) (deadline self.new) (latest self.new))) }
        ensures err { OnErr result (
            RefusesTimed (timed_table (Self.table self.old) (deadline self.old) (latest self.old)) timing.entry.now call.now
            (timed_table (Self.table self.new) (deadline self.new) (latest self.new))) }
    {
        self.call(call, Some(timing), workspace, bytes)
    }

    /// Returns the deadline of a key, in milliseconds since the epoch. Takes no memory.
    fn deadline_of(&self, key: &HashedKey<'_>) -> Option<u64>
        ensures value { result ≡ deadline self.now key.now };

    /// Takes at most one entry away whose time is over. Takes no memory. Never waits.
    fn expire_one(&mut self, now: u64) -> Expiry
        ensures expires { Expires (timed_table (Self.table self.old) (deadline self.old) (latest self.old)) now result
            (timed_table (Self.table self.new) (deadline self.new) (latest self.new)) }
        ensures ranks { KeepsRanks (Self.table self.old) (Self.order self.old) (Self.order self.new) };
}
