//! Walks over a small map, by teams of several sizes.
ghost use Rattle.std.specs.Prelude.{◌≡◌, All, IfSome};

use crate::playing::on_map;
use atomic_methods::{Call, Reply};
use bin_stripes::{Gate, OpenGate, Pass, Place, StripedMap};
use bins::MergedEntries;
use bpf_model::{Key, NoMemory, Value};
use bulk_walks::{Team, WalkReply, for_each, mapping_count, replace_all, search};
use map_tests::programs::{NINE, ONE, THREE, TWO, summed, summing};
use std::alloc::Global;
use std::sync::Wait;
use std::sync::atomic::{AtomicU64, Ordering};
use std::test::Fail;
use std::thread;
use std::thread::Threads;
use verifier::Verified;

mod changing;
mod gates;
mod refused;
mod rows;

/// Puts an entry. Returns `None` if memory was refused.
fn put<R: Wait>(rt: &R, map: &StripedMap, pass: &mut Pass, name: &[u8], bytes: &[u8]) -> Option<()>
    requires { pass.old.map ≡ map.now }
    ensures { pass.new.map ≡ map.now }
{
    let key = &Key::from_slice(name).ok()?;
    let value = &Value::from_slice(bytes).ok()?;
    map.call(rt, pass, &Call::Put { key, value }).ok()?;
    Some(())
}

/// Takes the last of a map's passes, and makes a team of the others.
fn dealt(map: &StripedMap, mut passes: Vec<Pass>) -> Option<(Pass, Team)>
    requires { All (λ pass. pass.map ≡ map.now) passes.items }
    ensures pass { IfSome result (λ r. r.0.map ≡ map.now) }
    ensures team { IfSome result (λ r. All (λ pass. pass.map ≡ map.now) r.1.passes.items) }
{
    let pass = passes.pop()?;
    let team = Team::new(passes).ok()?;
    Some((pass, team))
}

/// Puts the entries `b` of 2 and `a` of 1, and `c` of nine bytes, which is too long for the program. In one stripe a walk finds
/// the least key after a greater one. Returns `None` if memory was refused.
fn put_all<R: Wait>(rt: &R, map: &StripedMap, pass: &mut Pass) -> Option<()>
    requires { pass.old.map ≡ map.now }
    ensures { pass.new.map ≡ map.now }
{
    put(rt, map, pass, b"b", &TWO)?;
    put(rt, map, pass, b"a", &ONE)?;
    put(rt, map, pass, b"c", &NINE)
}

/// Puts those three entries by the last of the passes, and makes a team of the others. Returns `None` if memory was refused.
fn filled<R: Wait>(rt: &R, map: &StripedMap, passes: Vec<Pass>) -> Option<(Pass, Team)>
    requires { All (λ pass. pass.map ≡ map.now) passes.items }
    ensures pass { IfSome result (λ r. r.0.map ≡ map.now) }
    ensures team { IfSome result (λ r. All (λ pass. pass.map ≡ map.now) r.1.passes.items) }
{
    let (mut pass, team) = dealt(map, passes)?;
    put_all(rt, map, &mut pass)?;
    Some((pass, team))
}

/// A walk; a search and a list have a threshold.
#[derive(Clone, Copy)]
enum Task {
    List(u64),
    Search(u64),
    Count,
    /// Adds 1 to each value.
    Replace,
    /// Adds nothing to each value: there is no argument.
    Rewrite,
}

/// Makes the walk with the argument 1, if it has one.
fn walk<R: AllocGlobal + Threads + Wait + Sync, G: Gate + Sync>(
    rt: &R,
    map: &StripedMap,
    team: Team,
    program: &Verified,
    task: Task,
    gate: &G,
) -> (Team, Result<WalkReply, NoMemory>)
    requires { All (λ pass. pass.map ≡ map.now) team.passes.items }
    ensures { All (λ pass. pass.map ≡ map.now) result.0.passes.items }
{
    let alloc = rt.alloc();
    let arg = Value::from_slice(&ONE).ok();
    match task {
        Task::List(threshold) => for_each(rt, alloc, map, team, program, &arg, threshold, gate),
        Task::Search(threshold) => search(rt, alloc, map, team, program, &arg, threshold, gate),
        Task::Count => mapping_count(rt, alloc, map, team, gate),
        Task::Replace => replace_all(rt, alloc, map, team, program, &arg, gate),
        Task::Rewrite => replace_all(rt, alloc, map, team, program, &None, gate),
    }
}

/// Returns the number that these bytes spell, if there are eight.
fn number_of(bytes: &[u8]) -> Option<u64> {
    match bytes {
        [a, b, c, d, e, f, g, h] => Some(u64::from_le_bytes([*a, *b, *c, *d, *e, *f, *g, *h])),
        _ => None,
    }
}

/// Keys and values.
type Items = &'static [(&'static [u8], &'static [u8])];

/// The reply of a walk: its items, and how many entries were scanned, given and unfit.
#[derive(Clone, Copy)]
struct Wanted(Items, (u64, u64, u64));

/// The replies of the walks over the three entries.
const LISTED: Wanted = Wanted(&[(b"a", &TWO), (b"b", &THREE)], (3, 2, 1));

const FOUND: Wanted = Wanted(&[(b"a", &TWO)], (3, 1, 1));

const COUNTED: Wanted = Wanted(&[], (3, 0, 0));

const REPLACED: Wanted = Wanted(&[], (3, 2, 1));

/// Tells whether these are the items, in their order.
fn are_items(found: &MergedEntries, items: &[(&[u8], &[u8])]) -> bool {
    if found.len() != items.len() {
        return false;
    }
    for position in 0..found.len() {
        if found.get(position) != items[position] {
            return false;
        }
    }
    true
}

/// Tells whether the reply has these items and counts.
fn is_reply(reply: &WalkReply, items: &[(&[u8], &[u8])], counts: (u64, u64, u64)) -> bool {
    let found = &reply.counts;
    are_items(&reply.items, items) && (found.scanned, found.given, found.unfit) == counts
}

/// Tells whether the walk replied this.
fn replied(reply: &Result<WalkReply, NoMemory>, wanted: Wanted) -> bool {
    let Ok(reply) = reply else { return false };
    is_reply(reply, wanted.0, wanted.1)
}
