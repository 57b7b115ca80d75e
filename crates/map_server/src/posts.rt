//! The workers, each with clients of its own.
ghost use Rattle.std.specs.Prelude.{◌≡◌, ◌≤◌, [], IfOk, All, map, vec_len, vec_capacity};
ghost use Rattle.crews.specs.Crews.{IsCrewOf};
ghost use Rattle.map_server.specs.ServerRuns.{HaveAttended};

use crate::entrance::Entrance;
use crate::tcp_clients::TcpClients;
use bin_stripes::OpenGate;
use bpf_model::NoMemory;
use crews::{Attended, Crew, Post, Worker, attend_each};
use devices::Sink;
use mio::Poll;
use redis_scripts::Scripts;
use std::alloc::Global;
use std::rt::Clock;
use std::sync::Wait;
use std::thread::Threads;

/// The crews, each with clients of its own that come in by this entrance, and with one of the polls. `NoMemory` if a request for
/// memory was refused.
fn posts_of<'a, 'b, 'c, H: Wait + Clock, E: Sink>(
    alloc: Global,
    entrance: &'a Entrance<'b, 'c, H, E>,
    crews: Vec<Crew>,
    polls: Vec<Poll>,
) -> Result<Vec<Post<TcpClients<'a, 'b, 'c, H, E>, Crew>>, NoMemory>
    requires { vec_len polls ≡ vec_len crews }
    ensures { IfOk result (λ posts. map (λ post. post.crew) posts.items ≡ crews.items) }
{
    let mut polls = polls;
    let mut posts = Vec::with_capacity(alloc, crews.len())?;
    for crew in crews {
        let Some(poll) = polls.pop() else {
            unreachable!()
        };
        let clients = TcpClients::new(alloc, entrance, crew.worker, poll)?;
        posts.push_reserved(Post { crew, clients });
    }
    Ok(posts)
}

/// The crews of the posts, in the room that is there.
fn crews_of<P: Drop>(posts: Vec<Post<P, Attended>>, mut crews: Vec<Attended>) -> Vec<Attended>
    requires empty { crews.items ≡ [] }
    requires room { vec_len posts ≤ vec_capacity crews }
    ensures { result.items ≡ map (λ post. post.crew) posts.items }
{
    for post in posts {
        crews.push_reserved(post.crew);
    }
    crews
}

/// Has each crew attend clients that come in by this entrance, until they are over, by scripts that all share. Gives the crews back in
/// their order. `NoMemory` if a request for memory was refused.
pub(crate) fn attend_all<'a, 'r, H: Threads + Wait + Clock + Sync, E: Sink + Send>(
    worker: &Worker<'a, H, OpenGate>,
    scripts: &'a Scripts<'r>,
    entrance: &Entrance<'a, '_, H, E>,
    crews: Vec<Crew>,
    polls: Vec<Poll>,
) -> Result<Vec<Attended>, NoMemory>
    requires crews { All (λ crew. IsCrewOf worker.now.map.now crew) crews.items }
    requires polls { vec_len polls ≡ vec_len crews }
    ensures lived { IfOk result (λ back. HaveAttended worker.now.registry.now entrance.now.state.now.password entrance.now.state.now.is_strict crews.items back.items) }
    ensures map { IfOk result (λ back. All (λ crew. IsCrewOf worker.now.map.now crew) back.items) }
{
    let back = Vec::with_capacity(worker.alloc, crews.len())?;
    let posts = posts_of(worker.alloc, entrance, crews, polls)?;
    let attended = attend_each(worker, scripts, entrance.state, posts)?;
    Ok(crews_of(attended, back))
}
