//! Walks over entries in key order.
ghost use Rattle.std.specs.Prelude.{◌≡◌, ◌≤◌, ◌++◌, ◌∷◌, [], List, Some, IfOk, OnOk, length};
ghost use Rattle.bpf_model.specs.Fits.{input_of};
ghost use Rattle.bins.specs.Replacements.{ComesTo};
ghost use Rattle.bins.specs.Table.{Entry};
ghost use Rattle.atomic_methods.specs.Plans.{outcome_by};
ghost use Rattle.atomic_methods.specs.Replies.{chosen, IsReply};

use crate::methods::answer_into;
use crate::walk_reply::WalkKind;
use crate::worker_reply::WorkerReply;
use bins::{Counts, EntryList, SortedEntries};
use bpf_machine::Machine;
use bpf_model::limits::{KEY_BYTES, VALUE_BYTES};
use bpf_model::{InputPart, Key, NoMemory, Value, value_bytes};
use std::alloc::Global;
use verifier::Verified;

/// The buffers in which a program runs on one entry after the other: no value is made for an entry, or moved. Old contents
/// make no difference.
#[derive(Drop)]
struct Workbench {
    machine: Machine,
    key: Key,
    answer: Value,
}

impl Workbench {
    /// Makes a workbench. Takes no memory.
    fn new() -> Workbench {
        Workbench {
            machine: Machine::new(),
            key: Key::from_slice(&[]).unwrap(),
            answer: Value::new(),
        }
    }
}

/// Runs the program on each entry in turn, and returns the answers of this kind of walk, in the order of the entries.
/// Asks for room for the answers first; returns `NoMemory` if a request for memory is refused. Never waits.
pub fn walk_entries(
    alloc: Global,
    kind: WalkKind,
    entries: &SortedEntries,
    program: &Verified,
    arg: &Option<Value>,
) -> Result<WorkerReply, NoMemory>
    ensures ok { IfOk result (λ reply. IsReply kind program.now arg.now entries.now reply) }
{
    let mut items = EntryList::new(alloc);
    let count = entries.len();
    items.reserve(most_given(kind, count))?;
    let mut bench = Workbench::new();
    let mut unfit = 0;
    for position in 0..count {
        let (key, value) = entries.get(position);
        match answer(program, key, value, arg, &mut bench) {
            Ok(true) => keep(kind, &mut items, key, bench.answer.as_slice())?,
            Ok(false) => {}
            Err(_) => unfit += 1,
        }
    }
    let counts = Counts {
        scanned: count as u64,
        given: items.len() as u64,
        unfit,
    };
    Ok(WorkerReply::new(items, counts))
}

/// Returns how many answers a walk over this many entries gives at most.
fn most_given(kind: WalkKind, count: usize) -> usize {
    match kind {
        WalkKind::Search => 1,
        WalkKind::ForEach => count,
    }
}

/// Runs the program on a key, its value and the argument. Returns whether it answers bytes, which are then on the
/// bench.
fn answer(
    program: &Verified,
    key: &[u8],
    value: &[u8],
    arg: &Option<Value>,
    bench: &mut Workbench,
) -> Result<bool, InputPart>
    requires key { length key.now ≤ KEY_BYTES }
    requires value { length value.now ≤ VALUE_BYTES }
    ensures outcome { ComesTo program.now (input_of key.now (Some value.now) arg.now) (outcome_by result bench.new.answer) }
{
    let arg = value_bytes(arg.as_ref());
    let Workbench {
        machine,
        key: own_key,
        answer,
    } = bench;
    own_key.set_from(key);
    answer_into(program, own_key, Some(value), arg, machine, answer)
}

/// Adds an answer after the earlier ones, if the walk gives it.
fn keep(kind: WalkKind, items: &mut EntryList, key: &[u8], answer: &[u8]) -> Result<(), NoMemory>
    requires key { length key.now ≤ KEY_BYTES }
    requires value { length answer.now ≤ VALUE_BYTES }
    ensures ok { OnOk result ((found : List Entry) → items.old ≡ chosen kind found →
        items.new ≡ chosen kind (found ++ (key.now, answer.now) ∷ [])) }
{
    let wanted = match kind {
        WalkKind::Search => items.is_empty(),
        WalkKind::ForEach => true,
    };
    if wanted {
        items.push(key, answer)?;
    }
    Ok(())
}
