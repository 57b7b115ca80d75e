//! Repeats runs and verifications of programs, calls, requests and walks, to be timed from outside.
//!
//! The README explains the words. Each mode prints its result; without words each mode does a little.
#![tactic(auto)]

mod calls;
mod entries;
mod made_up;
mod memory;
mod opening;
mod programs;
mod registers;
mod runs;
mod session;
mod tables;
mod walk;

use anyhow::{Result, bail};
use calls::{Keys, Method, calls_sum};
use entries::work_often;
use made_up::checksum;
use programs::Sample;
use registers::{Programs, register_often};
use runs::{Mode, answer_of, bytes_of, run_often};
use session::{Ask, serve};
use std::alloc::Global;
use std::env;
use std::sync::Wait;
use std::thread::Threads;
use tables::call_often;
use walk::{Walk, walk_often};

/// The modes that run without words.
const ROWS: [(&str, &[&str]); 32] = [
    ("answer", &["sum"]),
    ("answer", &["alu"]),
    ("answer", &["eight"]),
    ("answer", &["mix"]),
    ("answer", &["straight"]),
    ("answer", &["jumps"]),
    ("answer", &["ladder"]),
    ("answer", &["spills"]),
    ("made_up", &["2000"]),
    ("entries", &["find", "1000", "1"]),
    ("entries", &["put", "1000", "1"]),
    ("entries", &["remove", "1000", "1"]),
    ("calls", &["get", "1", "4", "500"]),
    ("calls", &["get", "1000", "4", "500"]),
    ("calls", &["put", "1", "4", "500"]),
    ("calls", &["put", "1000", "4", "500"]),
    ("calls", &["replace", "1000", "4", "500"]),
    ("calls", &["compute", "1000", "4", "500"]),
    ("calls", &["merge", "1", "4", "500"]),
    ("calls", &["merge", "1000", "4", "500"]),
    ("calls", &["merge", "near", "4", "500"]),
    ("calls", &["merge", "apart", "4", "500"]),
    ("register", &["known", "4096", "2"]),
    ("register", &["new", "6", "2"]),
    ("session", &["get", "2"]),
    ("session", &["put", "2"]),
    ("session", &["replace", "2"]),
    ("session", &["compute", "2"]),
    ("session", &["merge", "2"]),
    ("walk", &["for_each", "2", "1000", "1"]),
    ("walk", &["search", "2", "1000", "1"]),
    ("walk", &["mapping_count", "2", "1000", "1"]),
];

fn sample(name: &str) -> Result<Sample> {
    match Sample::named(name) {
        Some(sample) => Ok(sample),
        None => bail!("no program is named so"),
    }
}

fn made_up_text(alloc: Global, count: u64) -> Result<String> {
    let (safe, sum) = checksum(alloc, count)?;
    Ok(format!(in alloc; "{safe} of them safe, {sum:016x}")?)
}

fn calls_text<R: Threads + Wait + Sync>(
    rt: &R,
    alloc: Global,
    words: &[&str; 4],
) -> Result<String> {
    let [method, keys, threads, count] = words;
    let Some(method) = Method::named(method) else {
        bail!("the calls are get, put, replace, compute and merge");
    };
    let keys = Keys::named(keys)?;
    let sum = calls_sum(rt, alloc, method, keys, threads.parse()?, count.parse()?)?;
    Ok(format!(in alloc; "the sum of the values is {sum}")?)
}

fn register_text<R: Wait>(rt: &R, alloc: Global, words: &[&str; 3]) -> Result<String> {
    let [programs, units, count] = words;
    let Some(programs) = Programs::named(programs) else {
        bail!("the programs are known and new");
    };
    let numbers = register_often(rt, alloc, programs, units.parse()?, count.parse()?)?;
    Ok(format!(in alloc; "{numbers} numbers were given")?)
}

fn session_text<R: Wait>(rt: &R, alloc: Global, ask: &str, count: &str) -> Result<String> {
    let Some(ask) = Ask::named(ask) else {
        bail!("the requests are get, put, replace, compute and merge");
    };
    let bytes = serve(rt, alloc, ask, count.parse()?)?;
    Ok(format!(in alloc; "{bytes} bytes are answered")?)
}

fn walk_text<R: Threads + Wait + Sync>(rt: &R, alloc: Global, words: &[&str; 4]) -> Result<String> {
    let [walk, workers, entries, count] = words;
    let (workers, entries, count) = (workers.parse()?, entries.parse()?, count.parse()?);
    let Some(walk) = Walk::named(walk) else {
        bail!("the walks are for_each, search and mapping_count");
    };
    let (scanned, given) = walk_often(rt, alloc, walk, workers, entries, count)?;
    Ok(format!(in alloc; "{scanned} scanned, {given} given")?)
}

/// Runs the modes of one thread without a shared map.
fn alone_text(alloc: Global, mode: &str, words: &[&str]) -> Result<String> {
    match (mode, words) {
        ("answer", [name]) => answer_of(alloc, sample(name)?),
        ("hex", [name]) => bytes_of(alloc, sample(name)?),
        ("made_up", [count]) => made_up_text(alloc, count.parse()?),
        ("call", [name, count]) => {
            call_often(alloc, name, count.parse()?)?;
            Ok(String::new(alloc))
        }
        ("entries", [name, entries, rounds]) => {
            let seen = work_often(alloc, name, entries.parse()?, rounds.parse()?)?;
            Ok(format!(in alloc; "{seen} bytes are seen")?)
        }
        (mode, [name, count]) => {
            let Some(mode) = Mode::named(mode) else {
                bail!("no mode is named so");
            };
            run_often(alloc, mode, sample(name)?, count.parse()?)?;
            Ok(String::new(alloc))
        }
        _ => bail!("the words are those of the README"),
    }
}

fn text<R: Threads + Wait + Sync>(
    rt: &R,
    alloc: Global,
    mode: &str,
    words: &[&str],
) -> Result<String> {
    match (mode, words) {
        ("calls", [method, keys, threads, count]) => {
            calls_text(rt, alloc, &[method, keys, threads, count])
        }
        ("register", [programs, units, count]) => {
            register_text(rt, alloc, &[programs, units, count])
        }
        ("session", [ask, count]) => session_text(rt, alloc, ask, count),
        ("walk", [kind, workers, entries, count]) => {
            walk_text(rt, alloc, &[kind, workers, entries, count])
        }
        _ => alone_text(alloc, mode, words),
    }
}

fn print_row(rt: &impl Print, mode: &str, words: &[&str], text: &str) -> Result<()> {
    print!(rt; "{mode}")?;
    for word in words {
        print!(rt; " {word}")?;
    }
    Ok(println!(rt; ": {text}")?)
}

fn main(rt: HostRuntime) -> Result<()> {
    let alloc = rt.alloc();
    let words: Vec<String> = env::args(&rt)?.collect(alloc)?;
    let words: Vec<&str> = words.iter().map(|word| word.as_str()).collect(alloc)?;
    if let [_, mode, words @ ..] = words.as_slice() {
        let text = text(&rt, alloc, mode, words)?;
        return Ok(println!(rt; "{text}")?);
    }
    for (mode, words) in ROWS {
        let text = text(&rt, alloc, mode, words)?;
        print_row(&rt, mode, words, &text)?;
    }
    Ok(())
}
