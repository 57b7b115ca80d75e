//! What passes tell each other before and after a walk.
ghost use Rattle.std.specs.Prelude.{◌≡◌, ◌<◌, All, vec_len};
ghost use Rattle.crews.specs.Steps.{IsToldBy, Pairwise, HearsEach};

use bin_stripes::{Pass, StripedMap};
use bulk_walks::Team;

/// Tells each pass of the team what the pass knows.
fn tell_each(map: &StripedMap, pass: &Pass, team: &mut Vec<Pass>)
    requires pass { pass.now.map ≡ map.now }
    requires team { All (λ member. member.map ≡ map.now) team.old.items }
    ensures told { Pairwise (IsToldBy pass.now) team.old.items team.new.items }
    ensures map { All (λ member. member.map ≡ map.now) team.new.items }
    ensures count { vec_len team.new ≡ vec_len team.old }
{
    for member in team.iter_mut() {
        map.tell(pass, member);
    }
}

/// Tells the pass what each pass of the team knows, in their order.
fn hear_each(map: &StripedMap, pass: &mut Pass, team: &[Pass])
    requires pass { pass.old.map ≡ map.now }
    requires team { All (λ member. member.map ≡ map.now) team.now }
    ensures heard { HearsEach pass.old team.now pass.new }
    ensures map { pass.new.map ≡ map.now }
{
    for member in team {
        map.tell(member, pass);
    }
}

/// The team of these passes, after each was told what the pass knows. Takes no memory. Never waits.
pub fn told(map: &StripedMap, pass: &Pass, team: Vec<Pass>) -> Team
    requires pass { pass.now.map ≡ map.now }
    requires team { All (λ member. member.map ≡ map.now) team.items }
    requires some { 0 < vec_len team }
    ensures told { Pairwise (IsToldBy pass.now) team.items result.passes.items }
    ensures map { All (λ member. member.map ≡ map.now) result.passes.items }
{
    let mut passes = team;
    tell_each(map, pass, &mut passes);
    let Ok(team) = Team::new(passes) else {
        unreachable!()
    };
    team
}

/// The passes of the team, in their order, after the pass was told of each. Takes no memory. Never waits.
pub fn heard(map: &StripedMap, pass: &mut Pass, team: Team) -> Vec<Pass>
    requires pass { pass.old.map ≡ map.now }
    requires team { All (λ member. member.map ≡ map.now) team.passes.items }
    ensures heard { HearsEach pass.old team.passes.items pass.new }
    ensures map { pass.new.map ≡ map.now }
    ensures passes { result ≡ team.passes }
{
    let passes = team.into_passes();
    hear_each(map, pass, &passes);
    passes
}
