//! The workers of a team.
ghost use Rattle.std.specs.Prelude.{◌≡◌, ℕ, ◌<◌, ◌≤◌, MatchResult, length, vec_len, vec_capacity, map, Some, None, IsSome, slice_index_or};
ghost use Rattle.std.specs.Prelude.{IsSomeAnd, [], All};
ghost use Rattle.workers.specs.Workers.{job_of, MayTake, Worked, TakesEach, AllWorked};
ghost use Rattle.workers.specs.declared.jobs.Job.{Job};

use crate::apart::for_each_apart;
use bpf_model::NoMemory;
use std::alloc::Global;
use std::thread::{self, Threads};

/// In which threads the calls for a list are made.
#[derive(Clone, Copy, Debug, PartialEq, Eq)]
pub enum Execution {
    /// Each in a thread of its own if one can be made, and if there are several.
    Parallel,
    /// All in the calling thread, one after the other.
    Sequential,
}

/// One worker's input and answer.
#[derive(Drop)]
struct Job<X, T> {
    own: X,
    answer: Option<T>,
}

/// Calls `f(i, &mut x)` for each element `x` at its place `i`, in threads as the execution tells, and waits for all of them. Returns
/// the elements in their order, with the answers of the calls. `NoMemory` if a request for the lists of jobs is refused; then nothing
/// was called.
pub fn work<R: Threads + Sync, X: Send + Drop, T: Send + Drop, F: Fn(usize, &mut X) -> T + Sync>(
    rt: &R,
    alloc: Global,
    all: Vec<X>,
    f: &F,
    execution: Execution,
) -> (Vec<X>, Result<Vec<T>, NoMemory>)
    requires { TakesEach F.Fn f.now all.items }
    ensures { MatchResult result.1 (λ rs. AllWorked F.Fn f.now all.items rs.items result.0.items) (λ _. result.0.items ≡ all.items) }
{
    let count = all.len();
    let Ok(jobs) = Vec::with_capacity(alloc, count) else {
        return (all, Err(NoMemory));
    };
    let Ok(left) = Vec::with_capacity(alloc, count) else {
        return (all, Err(NoMemory));
    };
    let Ok(answers) = Vec::with_capacity(alloc, count) else {
        return (all, Err(NoMemory));
    };
    let mut jobs = given_out(all, jobs);
    run(rt, &mut jobs, f, execution);
    let (left, answers) = handed_back(jobs, left, answers);
    (left, Ok(answers))
}

/// Makes a job for each element, in room that was already asked for.
fn given_out<X: Drop, T: Drop>(all: Vec<X>, mut jobs: Vec<Job<X, T>>) -> Vec<Job<X, T>>
    requires empty { jobs.items ≡ [] }
    requires room { vec_len all ≤ vec_capacity jobs }
    ensures { result.items ≡ map job_of all.items }
{
    for own in all {
        let job = Job { own, answer: None };
        let Ok(()) = jobs.push(job) else {
            unreachable!()
        };
    }
    jobs
}

/// Takes the jobs apart, in room that was already asked for.
fn handed_back<X: Drop, T: Drop>(
    jobs: Vec<Job<X, T>>,
    mut left: Vec<X>,
    mut answers: Vec<T>,
) -> (Vec<X>, Vec<T>)
    requires empty { (left.items ≡ []) × (answers.items ≡ []) }
    requires room { (vec_len jobs ≤ vec_capacity left) × (vec_len jobs ≤ vec_capacity answers) }
    requires done { All (λ job. IsSome job.answer) jobs.items }
    ensures { (result.0.items ≡ map (λ job. job.own) jobs.items) × (map Some result.1.items ≡ map (λ job. job.answer) jobs.items) }
{
    for job in jobs {
        let Job { own, answer } = job;
        let Ok(()) = left.push(own) else {
            unreachable!()
        };
        let Some(answer) = answer else { unreachable!() };
        let Ok(()) = answers.push(answer) else {
            unreachable!()
        };
    }
    (left, answers)
}

/// One worker's call.
fn one<X, T: Drop, F: Fn(usize, &mut X) -> T>(f: &F, i: usize, job: &mut Job<X, T>)
    requires { MayTake F.Fn f.now i job.old.own }
    ensures { IsSomeAnd job.new.answer (λ r. Worked F.Fn f.now i job.old.own r job.new.own) }
{
    let answer = f(i, &mut job.own);
    job.answer = Some(answer);
}

fn run<R: Threads + Sync, X: Send + Drop, T: Send + Drop, F: Fn(usize, &mut X) -> T + Sync>(
    rt: &R,
    jobs: &mut [Job<X, T>],
    f: &F,
    execution: Execution,
)
    requires { (i : ℕ) (d : Job X T) → i < length jobs.old → MayTake F.Fn f.now i (slice_index_or jobs.old i d).own }
    ensures { (length jobs.new ≡ length jobs.old) × ((i : ℕ) (d : Job X T) → i < length jobs.old → IsSomeAnd (slice_index_or jobs.new i d).answer (λ r. Worked F.Fn f.now i (slice_index_or jobs.old i d).own r (slice_index_or jobs.new i d).own)) }
{
    let call = move |i: usize, job: &mut Job<X, T>|
        requires { MayTake F.Fn f.now i job.old.own }
        ensures { IsSomeAnd job.new.answer (λ r. Worked F.Fn f.entry.now i job.old.own r job.new.own) }
    { one(f, i, job) };
    match execution {
        Execution::Parallel => for_each_apart(rt, jobs, &call),
        Execution::Sequential => thread::for_each_mut(rt, jobs, 1, &call),
    }
}
