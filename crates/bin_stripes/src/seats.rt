//! Calls, scans and replacements by a seat at rest that tries to take the stripe once.
ghost use Rattle.std.specs.Prelude.{◌≡◌, ◌<◌, ◌^◌, [], ◌∷◌, IfOk, IfErr, OnErr, IsErrOf};
ghost use Rattle.std.specs.FinMap as map;
ghost use Rattle.atomic_methods.specs.Hashes.{stripe_of};
ghost use Rattle.atomic_methods.specs.Plans.{reply_by};
ghost use Rattle.bin_stripes.specs.Actions.{called, scanned};
ghost use Rattle.bin_stripes.specs.Holding.{IsLaid, Rests, Settles, SeatRefuses, SeatFinds, SeatReplaces};

use crate::fault::CallFault;
use crate::gate::OpenGate;
use crate::held::{CallAt, Replacer, make_call, make_replacements, make_scan};
use crate::steps::{PassSeat, Stripes, try_take_stripe};
use atomic_methods::{HashedCall, ReplyKind, Workspace};
use bins::Counts;
use bpf_model::{Key, Value};
use noted_bins::NotedBins;
use std::alloc::Global;

/// Makes the call on the stripe of its key if that is free. A program runs in the workspace. The bytes of the replied
/// value are left in `bytes`.
pub(crate) fn try_call<B: NotedBins + Drop>(
    table: &Stripes<B>,
    seat: &mut PassSeat<B>,
    stripe: usize,
    call: &HashedCall<'_>,
    workspace: &mut Workspace,
    bytes: &mut Value,
) -> Result<ReplyKind, CallFault>
    requires table { IsLaid table.now.table_id table.now.key × (seat.old.table_id ≡ table.now.table_id) }
    requires stripe { stripe < table.now.table_id.slots }
    requires rests { Rests seat.old.me }
    requires key { stripe_of table.now.table_id.slots call.now.key ≡ stripe }
    ensures same { (seat.new.table_id ≡ seat.old.table_id) × (seat.new.id ≡ seat.old.id) }
    ensures ok { IfOk result (λ kind. Settles table.now.table_id.slots stripe seat.old.me
        (called call.now (reply_by kind bytes.new) ∷ []) seat.new.me) }
    ensures err { OnErr result (Settles table.now.table_id.slots stripe seat.old.me [] seat.new.me) }
    ensures memory { IsErrOf result CallFault.NoMemory →
        SeatRefuses table.now.table_id.slots stripe seat.new.me call.now }
{
    if !try_take_stripe(table, seat, stripe) {
        return Err(CallFault::Busy);
    }
    let at = CallAt { call, timing: None };
    Ok(make_call(table, seat, stripe, at, workspace, bytes)?.kind)
}

/// Returns copies of the stripe's entries, in key order, if it is free.
pub(crate) fn try_scan<B: NotedBins + Drop>(
    alloc: Global,
    table: &Stripes<B>,
    seat: &mut PassSeat<B>,
    stripe: usize,
) -> Result<Vec<(Key, Value)>, CallFault>
    requires table { IsLaid table.now.table_id table.now.key × (seat.old.table_id ≡ table.now.table_id) }
    requires stripe { stripe < table.now.table_id.slots }
    requires rests { Rests seat.old.me }
    ensures same { (seat.new.table_id ≡ seat.old.table_id) × (seat.new.id ≡ seat.old.id) }
    ensures ok { IfOk result (λ found.
        SeatFinds table.now.table_id.slots stripe seat.old.me found.items seat.new.me) }
    ensures err { OnErr result (Settles table.now.table_id.slots stripe seat.old.me [] seat.new.me) }
{
    if !try_take_stripe(table, seat, stripe) {
        return Err(CallFault::Busy);
    }
    Ok(make_scan(alloc, table, seat, stripe)?)
}

/// Replaces the value of each of the stripe's keys once, if it is free.
pub(crate) fn try_replace<B: NotedBins + Drop>(
    table: &Stripes<B>,
    seat: &mut PassSeat<B>,
    stripe: usize,
    by: Replacer<'_>,
) -> Result<Counts, CallFault>
    requires table { IsLaid table.now.table_id table.now.key × (seat.old.table_id ≡ table.now.table_id) }
    requires stripe { stripe < table.now.table_id.slots }
    requires rests { Rests seat.old.me }
    ensures same { (seat.new.table_id ≡ seat.old.table_id) × (seat.new.id ≡ seat.old.id) }
    ensures ok { IfOk result (λ counts.
        SeatReplaces table.now.table_id.slots stripe seat.old.me by.entry.program.now by.entry.arg.now counts seat.new.me) }
    ensures err { OnErr result (Settles table.now.table_id.slots stripe seat.old.me [] seat.new.me) }
    ensures busy { IfErr result (λ fault. fault ≡ CallFault.Busy) }
    ensures bounded { IfOk result (λ counts. counts.scanned < 2 ^ 57) }
{
    if !try_take_stripe(table, seat, stripe) {
        return Err(CallFault::Busy);
    }
    Ok(make_replacements(table, seat, stripe, by, &OpenGate, 0))
}
