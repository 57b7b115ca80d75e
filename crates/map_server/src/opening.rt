//! Opening what `mapd` serves: a map, its programs, and the crews of its workers.
ghost use Rattle.std.specs.Prelude.{◌≡◌, ◌+◌, ◌*◌, ◌≤◌, All, IfOk, IfErr, if◌then◌else◌, is_some, vec_len};
ghost use Rattle.std.specs.Option.{ForSome};
ghost use Rattle.crews.specs.Crews.{IsCrewOf};
ghost use Rattle.bin_stripes.specs.Passes.{stripes_of};
ghost use Rattle.map_server.specs.Servers.{AreAsked, IsAsked, passes_of};
ghost use Rattle.map_server.specs.ServerRuns.{CanOpen, IsNotOpened};
ghost use Rattle.map_server.specs.ServerWords.{IsInRange};
ghost use Rattle.map_server.specs.declared.words.MapdWords.{MapdWords};

use crate::arrivals::Limits;
use crate::quotas::Quotas;
use crate::server::Server;
use crate::words::MapdWords;
use bin_stripes::{OpenFault, Pass, StripedMap};
use bins::Seed;
use bpf_model::NoMemory;
use bulk_walks::Team;
use crews::Crew;
use program_registry::{Bounds, Registry};
use server_state::Password;
use std::alloc::Global;

/// The next worker's crew: the last of the passes is its own, and those before it are its team's.
fn next_crew(
    map: &StripedMap,
    passes: &mut Vec<Pass>,
    worker: u32,
    team: usize,
) -> Result<Crew, NoMemory>
    requires serve { All (λ pass. pass.map ≡ map.now) passes.old.items }
    requires some { 1 ≤ team }
    requires passes { 1 + team ≤ vec_len passes.old }
    ensures crew { IfOk result (λ crew. IsCrewOf map.now crew) }
    ensures worker { IfOk result (λ crew. crew.worker ≡ worker) }
    ensures team { IfOk result (λ crew. vec_len crew.team.passes ≡ team) }
    ensures serve { All (λ pass. pass.map ≡ map.now) passes.new.items }
    ensures left { IfOk result (λ _. vec_len passes.new + (1 + team) ≡ vec_len passes.old) }
{
    // For the proof alone: the clauses name the map.
    let _ = map;
    let Some(pass) = passes.pop() else {
        unreachable!()
    };
    let members = passes.split_off(passes.len() - team)?;
    let Ok(team) = Team::new(members) else {
        unreachable!()
    };
    Ok(Crew { worker, pass, team })
}

/// The crews of all of the passes: a worker has one pass of its own, and `team` more for its team.
fn crews_of(
    alloc: Global,
    map: &StripedMap,
    passes: Vec<Pass>,
    workers: u32,
    team: usize,
) -> Result<Vec<Crew>, NoMemory>
    requires serve { All (λ pass. pass.map ≡ map.now) passes.items }
    requires some { 1 ≤ team }
    requires passes { workers * (1 + team) ≤ vec_len passes }
    ensures map { IfOk result (λ crews. All (λ crew. IsCrewOf map.now crew) crews.items) }
    ensures asked { IfOk result (λ crews. AreAsked workers team crews.items) }
{
    let mut passes = passes;
    let mut crews = Vec::new(alloc);
    for worker in 0..workers {
        crews.push(next_crew(map, &mut passes, worker, team)?)?;
    }
    Ok(crews)
}

/// The last of the passes, if it is wanted, for the map's keeper or its watcher.
fn pass_if(map: &StripedMap, is_wanted: bool, passes: &mut Vec<Pass>) -> Option<Pass>
    requires serve { All (λ pass. pass.map ≡ map.now) passes.old.items }
    requires some { (if is_wanted then 1 else 0) ≤ vec_len passes.old }
    ensures some { is_some result ≡ is_wanted }
    ensures pass { ForSome result (λ pass. pass.map ≡ map.now) }
    ensures serve { All (λ pass. pass.map ≡ map.now) passes.new.items }
    ensures left { vec_len passes.new + (if is_wanted then 1 else 0) ≡ vec_len passes.old }
{
    // For the proof alone: the clauses name the map.
    let _ = map;
    if !is_wanted {
        return None;
    }
    let Some(pass) = passes.pop() else {
        unreachable!()
    };
    Some(pass)
}

/// The server of this map, with no program yet.
fn server_of(
    alloc: Global,
    asked: &MapdWords,
    map: StripedMap,
    passes: Vec<Pass>,
) -> Result<Server, NoMemory>
    requires range { IsInRange asked.now }
    requires serve { All (λ pass. pass.map ≡ map) passes.items }
    requires passes { passes_of asked.now ≤ vec_len passes }
    requires stripes { stripes_of map ≡ asked.now.stripes }
    ensures { IfOk result (λ server. IsAsked asked.now server) }
{
    let mut passes = passes;
    let keeper = pass_if(&map, asked.keep.is_some(), &mut passes);
    let watcher = pass_if(&map, asked.metrics.is_some(), &mut passes);
    let shares = asked.shares();
    let bounds = Bounds {
        programs: asked.programs as usize,
        bytes: shares.programs,
    };
    let registry = Registry::bounded(alloc, bounds)?;
    let crews = crews_of(
        alloc,
        &map,
        passes,
        asked.workers as u32,
        asked.team as usize,
    )?;
    let quotas = Quotas::new(alloc, asked.workers, asked.sessions)?;
    let limits = Limits {
        clients: asked.clients,
        idle: asked.idle,
        slow: asked.slowlog_microseconds,
        session_bytes: shares.sessions,
        is_strict: asked.keep_strict,
    };
    Ok(Server {
        map,
        registry,
        crews,
        quotas,
        limits,
        protocols: asked.protocols(),
        scripts: asked.programs,
        keeper,
        password: None,
        watcher,
    })
}

impl Server {
    /// The same server, whose clients of commands have to show this password, if there is one.
    pub(crate) fn locked_by(self, password: Option<Password>) -> Server
        ensures password { result.password ≡ password }
        ensures asked { (asked : MapdWords) → IsAsked asked self → IsAsked asked result }
    {
        let mut server = self;
        server.password = password;
        server
    }
}

/// An empty map that hashes keys by this seed, no program, and the crews that are asked for.
pub fn open_server(alloc: Global, asked: &MapdWords, seed: Seed) -> Result<Server, OpenFault>
    requires { IsInRange asked.now }
    ensures ok { IfOk result (λ _. CanOpen asked.now) }
    ensures asked { IfOk result (λ server. IsAsked asked.now server) }
    ensures err { IfErr result (λ fault. IsNotOpened asked.now fault) }
{
    let (map, passes) = StripedMap::open_with(
        alloc,
        asked.stripes,
        asked.passes(),
        seed,
        asked.shares().entries,
    )?;
    Ok(server_of(alloc, asked, map, passes)?)
}
