//! The program's runs on entries.
ghost use Rattle.std.specs.Prelude.{◌≡◌, ◌<◌, ◌≤◌, ◌++◌, ◌∷◌, ◌↔◌, [], All, List, ℕ, Some, IfOk, IsOk, OnOk, length, option_copied};
ghost use Rattle.bpf_model.specs.Fits.{Fits, HasInputBytes, first_unfit, input_of, passes_size};
ghost use Rattle.atomic_methods.specs.declared.walk_reply.WalkKind.TheVariants.{Search, ForEach};
ghost use Rattle.bulk_walks.specs.Kept.{IsOffered, AddsRuns, FindsFirst};
ghost use Rattle.bulk_walks.specs.Merges.{comes_first};

use crate::walk::Walk;
use atomic_methods::WalkKind;
use bins::{EntryList, LentEntries, front_of};
use bpf_machine::{Machine, run_into};
use bpf_model::limits::{KEY_BYTES, VALUE_BYTES};
use bpf_model::{InputPart, Key, NoMemory, Sizes, Value, value_bytes};
use std::alloc::Global;
use std::marker::Model;
use verifier::Verified;

/// The buffers in which a program runs on one entry after the other: no value is made for an entry, or moved. Old contents
/// make no difference.
#[derive(Drop)]
struct Workbench {
    machine: Machine,
    key: Key,
    answer: Value,
}

impl Workbench {
    /// Makes a workbench. Takes no memory.
    fn new() -> Workbench {
        Workbench {
            machine: Machine::new(),
            key: Key::from_slice(&[]).unwrap(),
            answer: Value::new(),
        }
    }
}

/// States that a list of bytes has bytes, for the proof.
fn are_bytes(bytes: &[u8])
    ensures { All (λ b. b < 256) bytes.now }
{}

/// States the same of an input's parts.
fn has_bytes(key: &[u8], value: &[u8], arg: Option<&[u8]>)
    ensures { HasInputBytes (input_of key.now (Some value.now) (option_copied arg.entry)) }
{
    are_bytes(key);
    are_bytes(value);
    let Some(arg) = arg else {
        return;
    };
    are_bytes(arg);
}

/// A program with its sizes, and the argument with which it runs.
#[derive(Drop)]
struct Runner<'a> {
    program: &'a Verified,
    sizes: Sizes,
    arg: Option<&'a [u8]>,
    ghost sized: { sizes ≡ program.now.sizes },
}

impl<'a> Runner<'a> {
    /// Makes one of a program and an argument.
    fn new(program: &'a Verified, arg: &'a Option<Value>) -> Runner<'a>
        ensures program { result.program.now ≡ program.now }
        ensures arg { option_copied result.arg ≡ arg.now }
    {
        Runner {
            program,
            sizes: program.sizes(),
            arg: value_bytes(arg.as_ref()),
        }
    }

    /// Tests whether the argument is longer than its window.
    #[inline(always)]
    fn arg_is_over(&self) -> bool
        ensures { result ≡ passes_size (option_copied self.now.arg) self.now.program.now.sizes.arg }
    {
        match self.arg {
            Some(arg) => arg.len() > usize::from(self.sizes.arg),
            None => false,
        }
    }

    /// Tests whether a key, its value and the argument fit. Returns the first window that is too small. Nothing is copied for that.
    #[inline(always)]
    fn fits(&self, key: &[u8], value: &[u8]) -> Result<(), InputPart>
        ensures first { result ≡ first_unfit (input_of key.now (Some value.now) (option_copied self.now.arg)) self.now.program.now.sizes }
        ensures ok { IsOk result ↔ Fits (input_of key.now (Some value.now) (option_copied self.now.arg)) self.now.program.now.sizes }
    {
        if key.len() > usize::from(self.sizes.key) {
            return Err(InputPart::Key);
        }
        if value.len() > usize::from(self.sizes.old) {
            return Err(InputPart::Old);
        }
        if self.arg_is_over() {
            return Err(InputPart::Arg);
        }
        Ok(())
    }

    /// Runs the program on a key and its value, if its answer is wanted. Returns whether it answers bytes, which are then on the
    /// bench. If the input doesn't fit, returns the first window that is too small, wanted or not.
    #[inline(always)]
    fn answer(
        &self,
        key: &[u8],
        value: &[u8],
        wanted: bool,
        bench: &mut Workbench,
    ) -> Result<bool, InputPart>
        requires key { length key.now ≤ KEY_BYTES }
        ensures offered { IsOffered self.now.program.now (input_of key.now (Some value.now) (option_copied self.now.arg)) wanted result bench.new.answer }
    {
        // the program is safe: it has an answer, wanted or not
        let _program = self.program.program();
        has_bytes(key, value, self.arg);
        if let Err(part) = self.fits(key, value) {
            return Err(part);
        }
        if !wanted {
            return Ok(false);
        }
        let Workbench {
            machine,
            key: own_key,
            answer,
        } = bench;
        own_key.set_from(key);
        Ok(run_into(
            self.program,
            own_key,
            Some(value),
            self.arg,
            machine,
            answer,
        ))
    }
}

/// Adds an answer with its key. Before the first one, asks for room for this many: a walk that answers nothing asks for none.
#[inline(always)]
fn keep(items: &mut EntryList, most: usize, key: &[u8], answer: &[u8]) -> Result<(), NoMemory>
    requires key { length key.now ≤ KEY_BYTES }
    requires answer { length answer.now ≤ VALUE_BYTES }
    ensures ok { OnOk result (items.new ≡ items.old ++ (key.now, answer.now) ∷ []) }
{
    if items.is_empty() {
        items.reserve(most)?;
    }
    items.push(key, answer)
}

/// Runs the program on each entry in turn, and adds its answers with their keys to the items. Returns how many entries don't fit.
fn add_all(
    entries: &LentEntries<'_>,
    program: &Verified,
    arg: &Option<Value>,
    items: &mut EntryList,
) -> Result<u64, NoMemory>
    ensures adds { IfOk result (λ unfit. AddsRuns ForEach program.now arg.now entries.now items.old items.new unfit) }
    ensures few { IfOk result (λ unfit. unfit ≤ length entries.now) }
{
    let count = entries.len();
    let runner = Runner::new(program, arg);
    let mut bench = Workbench::new();
    let mut unfit = 0;
    for position in 0..count {
        let (key, value) = entries.get(position);
        match runner.answer(key, value, true, &mut bench) {
            Ok(true) => keep(items, count - position, key, bench.answer.as_slice())?,
            Ok(false) => {}
            Err(_) => unfit += 1,
        }
    }
    Ok(unfit)
}

/// The entry of the least key so far at which the program answers bytes, with this answer; or none. The key stays where it lies; the
/// lead is its first bytes as a number.
#[derive(Drop)]
struct First<'e> {
    key: Option<&'e [u8]>,
    lead: u64,
    answer: Value,
}

impl<'e> Model for First<'e> {
    ghost use Rattle.std.specs.Prelude.{List, option_copied};
    ghost use Rattle.bins.specs.Table.{Entry};
    ghost use Rattle.bulk_walks.specs.Kept.{item_of};
    ghost use Rattle.bulk_walks.specs.Merges.{IsLed};

    ghost Value = { List Entry };

    ghost view = { λ first. item_of (option_copied first.key) first.answer };

    ghost invariant = { λ first. IsLed first.lead (item_of (option_copied first.key) first.answer) };
}

impl<'e> First<'e> {
    /// None yet.
    fn new() -> First<'e>
        ensures { result ≡ [] }
    {
        First {
            key: None,
            lead: u64::MAX,
            answer: Value::new(),
        }
    }

    /// Tests whether a key comes before its key, by all their bytes.
    fn is_after_bytes(&self, key: &[u8]) -> bool
        ensures { (answer : List ℕ) → result ≡ comes_first ((key.now, answer) ∷ []) self.now }
    {
        match self.key {
            None => true,
            Some(least) => key.cmp(least).is_lt(),
        }
    }

    /// Tests whether an answer at this key would be the first. Mostly the leads tell.
    #[inline(always)]
    fn is_after(&self, key: &[u8]) -> bool
        ensures { (answer : List ℕ) → result ≡ comes_first ((key.now, answer) ∷ []) self.now }
    {
        let lead = front_of(key);
        if lead < self.lead {
            return true;
        }
        if self.lead < lead {
            return false;
        }
        self.is_after_bytes(key)
    }

    /// Tests whether its key comes before the first one of these items.
    fn is_before(&self, items: &EntryList) -> bool
        ensures { result ≡ comes_first self.now items.now }
    {
        match self.key {
            None => false,
            Some(_) if items.is_empty() => true,
            Some(key) => key.cmp(items.key(0)).is_lt(),
        }
    }

    /// Becomes this answer at this key.
    fn set(&mut self, key: &'e [u8], answer: &[u8])
        requires key { length key.now ≤ KEY_BYTES }
        requires answer { length answer.now ≤ VALUE_BYTES }
        ensures { self.new ≡ (key.now, answer.now) ∷ [] }
    {
        self.key = Some(key);
        self.lead = front_of(key);
        self.answer.set_from(answer);
    }

    /// Returns a list of it, or an empty one.
    fn to_list(&self, alloc: Global) -> Result<EntryList, NoMemory>
        ensures { IfOk result (λ items. items ≡ self.now) }
    {
        let mut items = EntryList::new(alloc);
        if let Some(key) = self.key {
            items.push(key, self.answer.as_slice())?;
        }
        Ok(items)
    }
}

/// Finds the least key at which the program answers bytes, and that answer. On an entry whose key is not less than the best
/// one so far it doesn't run. Returns how many entries don't fit, too.
fn find_first<'e>(
    entries: &'e LentEntries<'_>,
    program: &Verified,
    arg: &Option<Value>,
) -> (First<'e>, u64)
    ensures few { result.1 ≤ length entries.now }
    ensures first { FindsFirst program.now arg.now entries.now result.0 result.1 }
{
    let runner = Runner::new(program, arg);
    let mut bench = Workbench::new();
    let mut first = First::new();
    let mut unfit = 0;
    for position in 0..entries.len() {
        let (key, value) = entries.get(position);
        let wanted = first.is_after(key);
        match runner.answer(key, value, wanted, &mut bench) {
            Ok(true) => first.set(key, bench.answer.as_slice()),
            Ok(false) => {}
            Err(_) => unfit += 1,
        }
    }
    (first, unfit)
}

/// Keeps the answer at the least key of these entries instead of the item, if it comes before that. Asks for memory for no other.
/// Returns how many entries don't fit.
fn keep_first(
    alloc: Global,
    entries: &LentEntries<'_>,
    program: &Verified,
    arg: &Option<Value>,
    items: &mut EntryList,
) -> Result<u64, NoMemory>
    ensures adds { IfOk result (λ unfit. AddsRuns Search program.now arg.now entries.now items.old items.new unfit) }
    ensures few { IfOk result (λ unfit. unfit ≤ length entries.now) }
{
    let (first, unfit) = find_first(entries, program, arg);
    if first.is_before(items) {
        *items = first.to_list(alloc)?;
    }
    Ok(unfit)
}

/// Runs the program on these entries, and adds to the items what this kind of walk keeps of its answers. Returns how many entries
/// don't fit. Returns `NoMemory` if a request for memory is refused.
pub(crate) fn run_on(
    alloc: Global,
    walk: &Walk<'_>,
    entries: &LentEntries<'_>,
    items: &mut EntryList,
) -> Result<u64, NoMemory>
    ensures adds { IfOk result (λ unfit. AddsRuns walk.now.kind walk.now.program.now walk.now.arg.now entries.now items.old items.new unfit) }
    ensures few { IfOk result (λ unfit. unfit ≤ length entries.now) }
{
    match walk.kind {
        WalkKind::Search => keep_first(alloc, entries, walk.program, walk.arg, items),
        WalkKind::ForEach => add_all(entries, walk.program, walk.arg, items),
    }
}
