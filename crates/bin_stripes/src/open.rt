//! A new map and its passes.
ghost use Rattle.std.specs.Prelude.{◌≡◌, ℕ, ◌/◌, ◌<◌, ◌≤◌, ◌↔◌, [], ◌∷◌, All, IfOk, IsErrOf, length, map, option_map, replicate};
ghost use Rattle.atomic_methods.specs.Hashes.{IsStripeCount};
ghost use Rattle.stripe_rule.specs.Words.{words_of};
ghost use Rattle.stripe_rule.specs.Rule.{from_on, newcomer, opener};
ghost use Rattle.bin_stripes.specs.Holding.{IsLaid, IsEmptyBins};
ghost use Rattle.bin_stripes.specs.Opened.{IsPassCount, IsOpened, pass_of};

use crate::fault::OpenFault;
use crate::holds::Holds;
use crate::map::{StripeBins, StripedMap};
use crate::pass::Pass;
use crate::rule::{Deal, Shape};
use crate::steps::{PassSeat, STRIPE_WORDS, Stripes};
use crate::turns::Turns;
use atomic_methods::{Workspace, is_stripe_count};
use atomic_table::Table;
use bins::{Opening, Seed};
use bpf_model::NoMemory;
use known_seat::Known;
use noted_bins::NotedBins;
use std::alloc::Global;

/// A map can be opened with at most this many passes.
pub const MAX_PASSES: u64 = 64;

impl StripedMap {
    /// Opens an empty map with `stripes` stripes and `passes` passes, which all serve it. `BadStripes` if it may not have this many
    /// stripes, else `BadPasses` if the number of passes is not from 1 to `MAX_PASSES`, else `NoMemory` if a request for memory is
    /// refused.
    pub fn open(
        alloc: Global,
        stripes: u64,
        passes: u64,
    ) -> Result<(StripedMap, Vec<Pass>), OpenFault>
        ensures bad_stripes { IsErrOf result OpenFault.BadStripes ↔ (IsStripeCount stripes → ⊥) }
        ensures bad_passes { IsErrOf result OpenFault.BadPasses ↔ IsStripeCount stripes × (IsPassCount passes → ⊥) }
        ensures ok { IfOk result (λ opened. IsOpened stripes passes opened.0 opened.1.items) }
        ensures serve { IfOk result (λ opened. All (λ pass. pass.map ≡ opened.0) opened.1.items) }
    {
        StripedMap::open_seeded(alloc, stripes, passes, Seed::fixed())
    }

    /// As `open`, for a map that hashes keys with this seed inside its stripes: if you don't know the seed, you can't choose keys
    /// that are slow to find. `BadStripes` if it may not have this many stripes, else `BadPasses` if the number of passes is not from
    /// 1 to `MAX_PASSES`, else `NoMemory` if a request for memory is refused.
    pub fn open_seeded(
        alloc: Global,
        stripes: u64,
        passes: u64,
        seed: Seed,
    ) -> Result<(StripedMap, Vec<Pass>), OpenFault>
        ensures bad_stripes { IsErrOf result OpenFault.BadStripes ↔ (IsStripeCount stripes → ⊥) }
        ensures bad_passes { IsErrOf result OpenFault.BadPasses ↔ IsStripeCount stripes × (IsPassCount passes → ⊥) }
        ensures ok { IfOk result (λ opened. IsOpened stripes passes opened.0 opened.1.items) }
        ensures serve { IfOk result (λ opened. All (λ pass. pass.map ≡ opened.0) opened.1.items) }
    {
        StripedMap::open_with(alloc, stripes, passes, seed, None)
    }

    /// As `open_seeded`, for a map whose entries take at most this many bytes, an equal part of them in each stripe; none: there is
    /// no bound. If a new key would take more, it is refused as if memory were. Returns the errors of `open_seeded`.
    #[tactic(auto, using(atomic_methods::proofs::StripeLemmas::some_stripe))]
    pub fn open_with(
        alloc: Global,
        stripes: u64,
        passes: u64,
        seed: Seed,
        budget: Option<u64>,
    ) -> Result<(StripedMap, Vec<Pass>), OpenFault>
        ensures bad_stripes { IsErrOf result OpenFault.BadStripes ↔ (IsStripeCount stripes → ⊥) }
        ensures bad_passes { IsErrOf result OpenFault.BadPasses ↔ IsStripeCount stripes × (IsPassCount passes → ⊥) }
        ensures ok { IfOk result (λ opened. IsOpened stripes passes opened.0 opened.1.items) }
        ensures serve { IfOk result (λ opened. All (λ pass. pass.map ≡ opened.0) opened.1.items) }
    {
        if !is_stripe_count(stripes) {
            return Err(OpenFault::BadStripes);
        }
        if passes == 0 || passes > MAX_PASSES {
            return Err(OpenFault::BadPasses);
        }
        let opening = Opening {
            seed,
            budget: share_of(budget, stripes),
        };
        Ok(opened(alloc, stripes, passes, &opening)?)
    }
}

/// Returns the budget of one stripe of this many: an equal part.
fn share_of(budget: Option<u64>, stripes: u64) -> Option<u64>
    requires some { 0 < stripes }
    ensures share { result ≡ option_map (λ bytes. bytes / stripes) budget }
{
    match budget {
        Some(bytes) => Some(bytes / stripes),
        None => None,
    }
}

/// Returns the map and its passes.
#[tactic(auto, using(crate::proofs::OpenedLemmas::serve_all))]
fn opened(
    alloc: Global,
    stripes: u64,
    passes: u64,
    opening: &Opening,
) -> Result<(StripedMap, Vec<Pass>), NoMemory>
    requires stripes { IsStripeCount stripes }
    requires passes { IsPassCount passes }
    ensures ok { IfOk result (λ opened. IsOpened stripes passes opened.0 opened.1.items) }
    ensures serve { IfOk result (λ opened. All (λ pass. pass.map ≡ opened.0) opened.1.items) }
{
    let (words, slots) = free_stripes::<StripeBins>(alloc, stripes, opening)?;
    let shape = Shape { stripes, passes };
    let Ok((table, seat)) = Table::new(alloc, &words, slots, &shape) else {
        return Err(NoMemory);
    };
    let all = dealt(alloc, &table.shared, seat, passes)?;
    let map = StripedMap {
        table,
        turns: Turns::new(),
        holds: Holds::none(),
    };
    Ok((map, all))
}

/// Makes the words and the bins of the stripes of a new map.
fn free_stripes<B: NotedBins + Drop>(
    alloc: Global,
    stripes: u64,
    opening: &Opening,
) -> Result<(Vec<u64>, Vec<Option<B>>), NoMemory>
    requires bounded { stripes ≤ 64 }
    ensures words { IfOk result (λ made. made.0.items ≡ replicate (words_of stripes) 0) }
    ensures count { IfOk result (λ made. length made.1.items ≡ stripes) }
    ensures empty { IfOk result (λ made. All (IsEmptyBins B.table) made.1.items) }
{
    let words = zero_words(alloc, stripes * STRIPE_WORDS as u64)?;
    let mut slots = Vec::new(alloc);
    for _ in 0..stripes {
        slots.push(Some(B::open_with(alloc, stripes, opening)?))?;
    }
    Ok((words, slots))
}

/// Makes `count` words of 0.
fn zero_words(alloc: Global, count: u64) -> Result<Vec<u64>, NoMemory>
    ensures words { IfOk result (λ words. words.items ≡ replicate count 0) }
{
    let mut words = Vec::new(alloc);
    for _ in 0..count {
        words.push(0)?;
    }
    Ok(words)
}

/// Makes a pass for each number that the seat carries.
fn dealt<B: NotedBins>(
    alloc: Global,
    table: &Stripes<B>,
    mut rest: PassSeat<B>,
    passes: u64,
) -> Result<Vec<Pass>, NoMemory>
    requires table { IsLaid table.now.table_id table.now.key × (rest.table_id ≡ table.now.table_id) }
    requires passes { (table.now.key.passes ≡ passes) × IsPassCount passes }
    requires some { 0 < table.now.table_id.slots }
    requires first { rest.me ≡ (opener table.now.table_id.slots passes, []) }
    ensures dealt { IfOk result (λ all. all.items ≡ map (pass_of table.now.table_id passes) (from_on 0 passes)) }
{
    let mut all = Vec::new(alloc);
    for number in 0..passes - 1 {
        // Only for the proof, which counts the passes that were dealt.
        let _ = number;
        let next = table.split_seat::<Deal>(&mut rest);
        all.push(dealt_pass(rest))?;
        rest = next;
    }
    all.push(dealt_pass(rest))?;
    Ok(all)
}

/// Makes the pass of a seat that carries one number and knows nothing.
fn dealt_pass<B: NotedBins>(seat: PassSeat<B>) -> Pass
    requires new { (passes : ℕ) × ((number : ℕ) × (seat.me ≡ (newcomer seat.table_id.slots passes (number ∷ []), []))) }
    ensures pass { result ≡ record { map = seat.table_id; view = seat.me.0 } }
{
    Pass {
        known: Known::of(seat),
        workspace: Workspace::new(),
    }
}
