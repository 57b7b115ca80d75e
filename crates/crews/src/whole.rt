//! Two whole crews become one pass.
ghost use Rattle.std.specs.Prelude.{◌≡◌, ◌<◌, ◌++◌, ℕ, All, flat_map, vec_len};
ghost use Rattle.stripe_rule.specs.Gains.{mine_of};
ghost use Rattle.bin_stripes.specs.Passes.{stripes_of};
ghost use Rattle.crews.specs.Crews.{IsCrewOf};
ghost use Rattle.crews.specs.Deeds.{SeesLives};
ghost use Rattle.crews.specs.Lives.{known_of};
ghost use Rattle.crews.specs.Whole.{SeesSessions, Joins, crew_numbers, all_mine};

use crate::crew::Crew;
use bin_stripes::{Pass, StripedMap};

/// Joins these passes of a team and its last one. Takes no memory. Never waits.
fn join_rest(map: &StripedMap, rest: Vec<Pass>, last: Pass) -> Pass
    requires last { last.map ≡ map.now }
    requires rest { All (λ member. member.map ≡ map.now) rest.items }
    ensures map { result.map ≡ map.now }
    ensures numbers { result.view.numbers ≡ flat_map (λ member. member.view.numbers) rest.items ++ last.view.numbers }
    ensures mine { (k : ℕ) → k < stripes_of map.now → mine_of result.view k ≡ all_mine k rest.items ++ mine_of last.view k }
{
    let mut passes = rest;
    let mut joined = last;
    while let Some(member) = passes.pop() {
        let more = map.join(member, joined);
        joined = more;
    }
    joined
}

/// Joins the passes of a team, at least one. Takes no memory. Never waits.
fn join_team(map: &StripedMap, team: Vec<Pass>) -> Pass
    requires some { 0 < vec_len team }
    requires team { All (λ member. member.map ≡ map.now) team.items }
    ensures map { result.map ≡ map.now }
    ensures numbers { result.view.numbers ≡ flat_map (λ member. member.view.numbers) team.items }
    ensures mine { (k : ℕ) → k < stripes_of map.now → mine_of result.view k ≡ all_mine k team.items }
{
    let mut passes = team;
    let Some(last) = passes.pop() else {
        unreachable!()
    };
    join_rest(map, passes, last)
}

/// Joins all passes of a crew. Takes no memory. Never waits.
fn join_crew(map: &StripedMap, crew: Crew) -> Pass
    requires crew { IsCrewOf map.now crew }
    ensures map { result.map ≡ map.now }
    ensures numbers { result.view.numbers ≡ crew_numbers (known_of crew) }
    ensures joins { (k : ℕ) → k < stripes_of map.now → Joins k (known_of crew) result }
{
    let Crew { pass, team, .. } = crew;
    let team = join_team(map, team.into_passes());
    map.join(pass, team)
}

/// Joins all passes of two crews, those of their teams too. The joined pass carries all their numbers. However many sessions each crew
/// served, of each stripe the joined pass has seen, under each of these numbers, just what the passes had made before, and what they
/// made since: each call that a session answered, and each event of each walk, once (`served`). What a crew made stands there in the
/// order of its answers, after all that its pass had seen before. The same holds of what the crews made in the turns of their lives, as
/// `attend` tells them: for requests, for commands, and in sweeps (`lived`). Takes no memory. Never waits.
pub fn join_crews(map: &StripedMap, one: Crew, other: Crew) -> Pass
    requires one { IsCrewOf map.now one }
    requires other { IsCrewOf map.now other }
    ensures map { result.map ≡ map.now }
    ensures numbers { result.view.numbers ≡ crew_numbers (known_of one) ++ crew_numbers (known_of other) }
    ensures served { SeesSessions one other result }
    ensures lived { SeesLives one other result }
{
    let one = join_crew(map, one);
    let other = join_crew(map, other);
    let joined = map.join(one, other);
    joined.vouch();
    joined
}
