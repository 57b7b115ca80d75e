//! What the sessions of two crews have in common.
ghost use Rattle.std.specs.Prelude.{◌≡◌};
ghost use Rattle.stripe_rule.specs.Gains.{IsJoined};
ghost use Rattle.bin_stripes.specs.Passes.{ServesSameMap, stripes_of};
ghost use Rattle.crews.specs.Shared.{SeesBothSessions};
ghost use Rattle.crews.specs.Together.{SeesAllSessions};

use bin_stripes::{Pass, StripedMap};

/// Joins the passes of two crews, as `StripedMap::join` does. However their sessions went, of each stripe the joined pass has
/// seen, under the numbers that it carries, just what the passes had made before, and each call that the sessions answered, once and
/// in order. So it is after one session each (`shared`), and after any number of them, one after the other (`served`). Takes no
/// memory. Never waits.
pub fn join_sessions(map: &StripedMap, one: Pass, other: Pass) -> Pass
    requires one { one.map ≡ map.now }
    requires other { other.map ≡ map.now }
    ensures same { ServesSameMap one result }
    ensures joined { IsJoined (stripes_of map.now) one.view other.view result.view }
    ensures shared { SeesBothSessions one other result }
    ensures served { SeesAllSessions one other result }
{
    let joined = map.join(one, other);
    joined.vouch();
    joined
}
