//! Commands about the whole map.
ghost use Rattle.std.specs.Prelude.{◌≡◌, ◌++◌, ℕ, Bool, List, [], filter, if◌then◌else◌, Option, OnOk};
ghost use Rattle.devices.specs.Devices.{SinkState, CanWrite};
ghost use Rattle.redis_commands.specs.Commands.{text, walk_by};
ghost use Rattle.redis_commands.specs.Matching.{matches};
ghost use Rattle.redis_service.specs.Replied.{replied_bytes};
ghost use Rattle.redis_service.specs.Sending.{Sends};
ghost use Rattle.redis_service.specs.Walks.{AnswersAllKeys, AnswersChoice, AnswersClear, AnswersCount, AnswersScan, AnswersWalk, keys_bytes, shown};
ghost use Rattle.redis_service.specs.Walked.{choice_line, found_line, page_line};

use crate::reply::Replied;
use bin_stripes::{Pass, StripedMap};
use bpf_model::{Key, NoMemory};
use devices::{Failed, Sink};
use itoa::Buffer;
use key_walks::{Page, PageAsked, all_keys, count_all, random_key, remove_all, scan_some};
use redis_commands::{WalkCommand, matches};
use std::alloc::Global;
use std::sync::Wait;

/// What a walk needs.
#[derive(Drop)]
pub struct Ground<'a> {
    /// Memory for the keys that are found.
    pub alloc: Global,
    /// The map.
    pub map: &'a StripedMap,
    /// The number by which a key is chosen, if one is to be.
    pub number: u64,
    /// The time in milliseconds since the epoch.
    pub time: u64,
}

/// Counts all keys.
#[tactic(auto, using(crate::proofs::WalkLemmas::count_keeps))]
fn count<H: Wait>(rt: &H, map: &StripedMap, pass: &mut Pass) -> Replied
    requires map { pass.old.map ≡ map.now }
    ensures same { pass.new.map ≡ map.now }
    ensures passes { pass.new.view.passes ≡ pass.old.view.passes }
    ensures numbers { pass.new.view.numbers ≡ pass.old.view.numbers }
    ensures answers { (found : List ℕ) → AnswersCount pass.old (replied_bytes result found) pass.new }
{
    Replied::Count(count_all(rt, map, pass))
}

/// Removes all keys. If memory is refused, the first stripes were cleared.
#[tactic(auto, using(crate::proofs::WalkLemmas::clear_keeps, crate::proofs::WalkLemmas::clear_stops))]
fn clear<H: Wait>(rt: &H, alloc: Global, map: &StripedMap, pass: &mut Pass) -> Replied
    requires map { pass.old.map ≡ map.now }
    ensures same { pass.new.map ≡ map.now }
    ensures passes { pass.new.view.passes ≡ pass.old.view.passes }
    ensures numbers { pass.new.view.numbers ≡ pass.old.view.numbers }
    ensures answers { (found : List ℕ) → AnswersClear pass.old (replied_bytes result found) pass.new }
{
    match remove_all(rt, alloc, map, pass) {
        Ok(()) => Replied::Simple(b"OK"),
        Err(NoMemory) => Replied::NoMemory,
    }
}

/// Writes an array of these keys, if no write of those before failed.
fn put_keys<W: Sink>(begun: Result<(), Failed>, keys: &[Key], sink: &mut W) -> Result<(), Failed>
    requires { OnOk begun (CanWrite (W.state sink.old)) }
    ensures { (before : SinkState) (said : List ℕ) → Sends begun before (W.state sink.old) said
        → Sends result before (W.state sink.new) (said ++ keys_bytes keys.now) }
{
    let mut sent = Replied::Array(keys.len()).send_after(begun, &[], sink);
    for key in keys {
        sent = Replied::Found.send_after(sent, key.as_slice(), sink);
    }
    sent
}

/// Keeps the keys that the pattern matches.
fn keep_matching(keys: &mut Vec<Key>, pattern: &[u8])
    ensures { keys.new.items ≡ filter (λ key. matches pattern.now key) keys.old.items }
{
    keys.retain(|key| matches(pattern, key.as_slice()));
}

/// Returns the keys that are shown: all, or those that the pattern matches.
fn shown(mut keys: Vec<Key>, pattern: Option<&[u8]>) -> Vec<Key>
    ensures { result.items ≡ shown (text pattern.entry) keys.items }
{
    if let Some(pattern) = pattern {
        keep_matching(&mut keys, pattern);
    }
    keys
}

/// Returns the keys, or none if keys of another type than a string are asked for.
fn if_strings(keys: &[Key], is_string: bool) -> &[Key]
    ensures { result.now ≡ (if is_string then keys.now else []) }
{
    if is_string { keys } else { &[] }
}

/// Writes a page: its keys that are shown, or none if no keys of their type are asked for; or that memory was refused.
fn put_page<W: Sink>(
    scanned: Result<Page, NoMemory>,
    pattern: Option<&[u8]>,
    is_string: bool,
    sink: &mut W,
) -> Result<(), Failed>
    requires { CanWrite (W.state sink.old) }
    ensures { Sends result (W.state sink.old) (W.state sink.new) (page_line (text pattern.entry) is_string scanned) }
{
    let Ok(page) = scanned else {
        return Replied::NoMemory.send(&[], sink);
    };
    let mut digits = Buffer::new();
    let sent = Replied::Array(2).send_after(Ok(()), &[], sink);
    let sent = Replied::Found.send_after(sent, digits.format(page.next).as_bytes(), sink);
    let keys = shown(page.keys, pattern);
    put_keys(sent, if_strings(&keys, is_string), sink)
}

/// Scans some keys from a cursor on. Entries whose time is over go first.
#[tactic(auto, using(crate::proofs::WalkLemmas::page_keeps, crate::proofs::WalkLemmas::page_stops))]
fn scan<H: Wait>(
    rt: &H,
    alloc: Global,
    map: &StripedMap,
    pass: &mut Pass,
    asked: PageAsked,
) -> Result<Page, NoMemory>
    requires map { pass.old.map ≡ map.now }
    ensures same { pass.new.map ≡ map.now }
    ensures passes { pass.new.view.passes ≡ pass.old.view.passes }
    ensures numbers { pass.new.view.numbers ≡ pass.old.view.numbers }
    ensures answers { (pattern : Option (List ℕ)) (is_string : Bool) → AnswersScan asked.time asked.cursor pattern asked.most is_string pass.old (page_line pattern is_string result) pass.new }
{
    match scan_some(rt, alloc, map, pass, asked) {
        Ok(page) => Ok(page),
        Err(NoMemory) => Err(NoMemory),
    }
}

/// Finds all keys. Entries whose time is over go first.
#[tactic(auto, using(crate::proofs::WalkLemmas::find_keeps, crate::proofs::WalkLemmas::find_stops))]
fn find<H: Wait>(
    rt: &H,
    alloc: Global,
    map: &StripedMap,
    pass: &mut Pass,
    now: u64,
) -> Result<Vec<Key>, NoMemory>
    requires map { pass.old.map ≡ map.now }
    ensures same { pass.new.map ≡ map.now }
    ensures passes { pass.new.view.passes ≡ pass.old.view.passes }
    ensures numbers { pass.new.view.numbers ≡ pass.old.view.numbers }
    ensures answers { (pattern : List ℕ) → AnswersAllKeys now pattern pass.old (found_line pattern result) pass.new }
{
    match all_keys(rt, alloc, map, pass, now) {
        Ok(keys) => Ok(keys),
        Err(NoMemory) => Err(NoMemory),
    }
}

/// Writes the keys that the pattern matches, or that memory was refused.
fn put_found<W: Sink>(
    found: Result<Vec<Key>, NoMemory>,
    pattern: &[u8],
    sink: &mut W,
) -> Result<(), Failed>
    requires { CanWrite (W.state sink.old) }
    ensures { Sends result (W.state sink.old) (W.state sink.new) (found_line pattern.now found) }
{
    let Ok(keys) = found else {
        return Replied::NoMemory.send(&[], sink);
    };
    let keys = shown(keys, Some(pattern));
    put_keys(Ok(()), &keys, sink)
}

/// Chooses a key by a number. Entries whose time is over go first.
#[tactic(auto, using(crate::proofs::WalkLemmas::choice_keeps, crate::proofs::WalkLemmas::find_stops))]
fn choose<H: Wait>(
    rt: &H,
    alloc: Global,
    map: &StripedMap,
    pass: &mut Pass,
    number: u64,
    now: u64,
) -> Result<Option<Key>, NoMemory>
    requires map { pass.old.map ≡ map.now }
    ensures same { pass.new.map ≡ map.now }
    ensures passes { pass.new.view.passes ≡ pass.old.view.passes }
    ensures numbers { pass.new.view.numbers ≡ pass.old.view.numbers }
    ensures answers { AnswersChoice now pass.old (choice_line result) pass.new }
{
    match random_key(rt, alloc, map, pass, number, now) {
        Ok(choice) => Ok(choice),
        Err(NoMemory) => Err(NoMemory),
    }
}

/// Writes the key that was chosen, or that there is none, or that memory was refused.
fn put_choice<W: Sink>(chosen: &Result<Option<Key>, NoMemory>, sink: &mut W) -> Result<(), Failed>
    requires { CanWrite (W.state sink.old) }
    ensures { Sends result (W.state sink.old) (W.state sink.new) (choice_line chosen.now) }
{
    match chosen {
        Ok(Some(key)) => Replied::Found.send(key.as_slice(), sink),
        Ok(None) => Replied::Nothing.send(&[], sink),
        Err(NoMemory) => Replied::NoMemory.send(&[], sink),
    }
}

/// Makes the walk, and answers the command. KEYS, SCAN and RANDOMKEY take entries away whose time is over. Waits until each stripe
/// of the map is free.
pub fn answer_walk<H: Wait, W: Sink>(
    rt: &H,
    ground: &Ground<'_>,
    pass: &mut Pass,
    command: &WalkCommand<'_>,
    sink: &mut W,
) -> Result<(), Failed>
    requires map { pass.old.map ≡ ground.now.map.now }
    requires sink { CanWrite (W.state sink.old) }
    ensures same { pass.new.map ≡ ground.now.map.now }
    ensures passes { pass.new.view.passes ≡ pass.old.view.passes }
    ensures numbers { pass.new.view.numbers ≡ pass.old.view.numbers }
    ensures answers { (written : List ℕ) × Sends result (W.state sink.old) (W.state sink.new) written
        × AnswersWalk ground.now.time pass.old (walk_by command.now) written pass.new }
{
    let alloc = ground.alloc;
    let map = ground.map;
    let time = ground.time;
    match *command {
        WalkCommand::CountAll => count(rt, map, pass).send(&[], sink),
        WalkCommand::RemoveAll => clear(rt, alloc, map, pass).send(&[], sink),
        WalkCommand::RandomKey => put_choice(
            &choose(rt, alloc, map, pass, ground.number, time),
            sink,
        ),
        WalkCommand::Keys { pattern } => put_found(find(rt, alloc, map, pass, time), pattern, sink),
        WalkCommand::Scan {
            cursor,
            pattern,
            count: most,
            is_string,
        } => {
            let asked = PageAsked { cursor, most, time };
            let scanned = scan(rt, alloc, map, pass, asked);
            put_page(scanned, pattern, is_string, sink)
        }
    }
}
