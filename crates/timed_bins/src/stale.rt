//! Calls at a time on keys whose time is over.
ghost use Rattle.std.specs.Prelude.{◌≡◌, ◌≢◌, ℕ, Some, None, IsSome, IsTrue, IfOk, OnOk, OnErr};
ghost use Rattle.std.specs.FinMap as map;
ghost use Rattle.atomic_methods.specs.Plans.{reply_by};
ghost use Rattle.bins.specs.Ranks.{KeepsRanks};
ghost use Rattle.timed_bins.specs.Agendas.{AreOfEntries, HasRoom, SetsDeadline, deadline_of};
ghost use Rattle.timed_bins.specs.Deadlines.{CallsWith, asks_room, timed_table};
ghost use Rattle.timed_bins.specs.Steps.{KeepsDeadlines};

use crate::deadlines::Deadlines;
use crate::timed::{Made, touch_of};
use crate::timing::DeadlineChange;
use atomic_methods::{HashedCall, Workspace, apply_to_stale};
use bins::{Bins, HashedKey};
use bpf_model::{NoMemory, Value};

/// Makes room for the wanted deadline of a key that has another one, which it keeps. Returns `NoMemory` if a request for memory
/// is refused; no deadline has changed then.
fn make_room<B: Bins + Drop>(
    deadlines: &mut Deadlines<B>,
    key: &HashedKey<'_>,
    wanted: Option<u64>,
) -> Result<(), NoMemory>
    requires has { deadline_of deadlines.old.times key.now ≢ None }
    ensures sets { OnOk result (SetsDeadline deadlines.old.times deadlines.new.times key.now (deadline_of deadlines.old.times key.now)) }
    ensures ready { OnOk result ((at : ℕ) → wanted ≡ Some at → HasRoom deadlines.new key.now at) }
    ensures err { OnErr result (deadlines.new.times ≡ deadlines.old.times) }
    ensures asks { OnErr result (IsSome wanted) }
{
    match wanted {
        Some(at) => deadlines.reserve(key, at),
        None => Ok(()),
    }
}

/// Makes a call on a key whose time is over: its entry goes with its deadline, and the call is made as on an absent key, in the
/// room that is there. Returns `NoMemory` if the change sets a deadline, and the room for that is refused; then nothing changes.
#[inline(never)]
pub(crate) fn call_on_stale<B: Bins + Drop>(
    bins: &mut B,
    deadlines: &mut Deadlines<B>,
    call: &HashedCall<'_>,
    change: DeadlineChange,
    workspace: &mut Workspace,
    bytes: &mut Value,
) -> Result<Made, NoMemory>
    requires of_entries { AreOfEntries (B.table bins.old) deadlines.old.times }
    requires has { deadline_of deadlines.old.times call.now.key ≢ None }
    ensures of_entries { AreOfEntries (B.table bins.new) deadlines.new.times }
    ensures ok { IfOk result (λ made. (latest : ℕ) → CallsWith change
        (timed_table (map.remove (B.table bins.old) call.now.key) (deadline_of (map.remove deadlines.old.times call.now.key)) latest)
        call.now (reply_by made.kind bytes.new) (timed_table (B.table bins.new) (deadline_of deadlines.new.times) latest)) }
    ensures before { IfOk result (λ made. made.before ≡ None) }
    ensures after { IfOk result (λ made. made.after ≡ deadline_of deadlines.new.times call.now.key) }
    ensures err { OnErr result ((B.table bins.new ≡ B.table bins.old) × KeepsDeadlines deadlines.old.times deadlines.new.times) }
    ensures asks { OnErr result (IsTrue (asks_room change)) }
    ensures ranks { KeepsRanks (B.table bins.old) (B.order bins.old) (B.order bins.new) }
{
    let key = call.key();
    let held = deadlines.get(key);
    let wanted = change.of(None);
    make_room(deadlines, key, wanted)?;
    let kind = apply_to_stale(bins, call, workspace, bytes);
    let after = touch_of(call.call(), kind).deadline(wanted, None);
    deadlines.settle(key, held, after);
    Ok(Made {
        kind,
        before: None,
        after,
    })
}
