//! An example: counters of visits, with the map as a library. Four threads visit a page, and no visit is lost.
#![tactic(auto)]

mod counters;

ghost use Rattle.std.specs.Prelude.{◌≡◌, All, IfOk};

use crate::counters::{CountFault, Counters};
use anyhow::{Result, anyhow};
use bin_stripes::Pass;
use bpf_model::Key;
use std::sync::Wait;
use std::thread::{self, Threads};

const THREADS: u64 = 4;

/// How often each thread visits the page.
const VISITS: u64 = 25;

/// Takes the last of the passes.
fn last_pass(counters: &Counters, passes: &mut Vec<Pass>) -> Result<Pass>
    requires all { All (λ pass. pass.map ≡ counters.now.map) passes.old.items }
    ensures pass { IfOk result (λ pass. pass.map ≡ counters.now.map) }
    ensures all { All (λ pass. pass.map ≡ counters.now.map) passes.new.items }
{
    // Only for the proof: the clauses name the counters.
    let _ = counters;
    match passes.pop() {
        Some(pass) => Ok(pass),
        None => Err(anyhow!("no pass")),
    }
}

/// Visits the page again and again.
fn visit<R: Wait>(
    rt: &R,
    counters: &Counters,
    pass: &mut Pass,
    page: &Key,
) -> Result<(), CountFault>
    requires { pass.old.map ≡ counters.now.map }
    ensures { pass.new.map ≡ counters.now.map }
{
    for _ in 0..VISITS {
        counters.count(rt, pass, page)?;
    }
    Ok(())
}

/// Visits the page in as many threads as there are passes.
fn visit_from_all<R: Threads + Wait + Sync>(
    rt: &R,
    counters: &Counters,
    passes: &mut [Pass],
    page: &Key,
)
    requires { All (λ pass. pass.map ≡ counters.now.map) passes.old }
{
    let threads = passes.len().max(1);
    let work = move |_: usize, pass: &mut Pass|
        requires { pass.old.map ≡ counters.now.map }
        ensures { pass.new.map ≡ counters.entry.now.map }
    {
        let _ = visit(rt, counters, pass, page);
    };
    thread::for_each_mut(rt, passes, threads, &work);
}

fn main(rt: HostRuntime) -> Result<()> {
    let page = Key::from_slice(b"/index.html")?;
    let (counters, mut passes) = Counters::open(rt.alloc(), THREADS + 1)?;
    let mut pass = last_pass(&counters, &mut passes)?;
    visit_from_all(&rt, &counters, &mut passes, &page);
    let visits = counters.count(&rt, &mut pass, &page)?;
    Ok(println!(rt; "you are visitor {visits}")?)
}
