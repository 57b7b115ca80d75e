//! Calls in threads of their own, while the calling thread waits.
ghost use Rattle.std.specs.Prelude.{◌+◌, ◌^◌, ◌<◌, length};
ghost use denote.Param.Send.{IsSync, IsSend};
ghost use Rattle.std.specs.Fork.{AcceptsAt, AcceptsEach, ChangesAt, ChangesEach};
ghost use Rattle.workers.specs.Apart.{AcceptsFrom, ChangesFrom};

use std::thread::{Threads, join_mut};

/// Calls f(i, &mut s[i]) at each place, each in a thread of its own if one can be made, and waits for all. If there are several,
/// the calling thread makes no call itself: beside a thread that works, we saw a thread that it had made wait for its core while
/// others were free.
pub fn for_each_apart<R: Threads + Sync, T: Send, F: Fn(usize, &mut T) + Sync>(
    rt: &R,
    s: &mut [T],
    f: &F,
)
    requires accepts { AcceptsEach F.Fn f.now s.old }
    ensures { ChangesEach F.Fn f.now s.old s.new }
{
    if s.len() < 2 {
        in_turn(f, 0, s);
        return;
    }
    each_from(rt, f, 0, s);
}

/// Makes the calls at the places of a part of the whole, which begins at `base`.
#[cycle(from)]
fn each_from<R: Threads + Sync, T: Send, F: Fn(usize, &mut T) + Sync>(
    rt: &R,
    f: &F,
    base: usize,
    s: &mut [T],
)
    requires room { base + length s.old < 2 ^ 64 }
    requires accepts { AcceptsFrom (AcceptsAt F.Fn f.now) base s.old }
    ensures { ChangesFrom (ChangesAt F.Fn f.now) base s.old s.new }
{
    if s.is_empty() {
        return;
    }
    let (first, rest) = s.split_at_mut(1);
    both(rt, f, base, first, base + 1, rest);
}

/// Makes the calls of two parts, those of the first in a new thread. It is its own function so that it is given exactly what
/// its closures require.
#[cycle(from)]
fn both<R: Threads + Sync, T: Send, F: Fn(usize, &mut T) + Sync>(
    rt: &R,
    f: &F,
    base: usize,
    first: &mut [T],
    next: usize,
    rest: &mut [T],
)
    requires room { (base + length first.old < 2 ^ 64) × (next + length rest.old < 2 ^ 64) }
    requires front { AcceptsFrom (AcceptsAt F.Fn f.now) base first.old }
    requires back { AcceptsFrom (AcceptsAt F.Fn f.now) next rest.old }
    ensures front { ChangesFrom (ChangesAt F.Fn f.now) base first.old first.new }
    ensures back { ChangesFrom (ChangesAt F.Fn f.now) next rest.old rest.new }
{
    let mut front = ||
        requires { (base + length first.now < 2 ^ 64) × AcceptsFrom (AcceptsAt F.Fn f.now) base first.now }
        ensures { ChangesFrom (ChangesAt F.Fn f.entry.now) base first.entry.now first.exit.now }
    { in_turn(f, base, first) };
    let mut back = ||
        requires { IsSync R.row × IsSync F.row × IsSend T.row × (next + length rest.now < 2 ^ 64) × AcceptsFrom (AcceptsAt F.Fn f.now) next rest.now }
        ensures { ChangesFrom (ChangesAt F.Fn f.entry.now) next rest.entry.now rest.exit.now }
    { each_from(rt, f, next, rest) };
    join_mut(rt, &mut front, &mut back);
}

/// Makes the calls at the places of a part, one after the other.
fn in_turn<T, F: Fn(usize, &mut T)>(f: &F, base: usize, s: &mut [T])
    requires room { base + length s.old < 2 ^ 64 }
    requires accepts { AcceptsFrom (AcceptsAt F.Fn f.now) base s.old }
    ensures { ChangesFrom (ChangesAt F.Fn f.now) base s.old s.new }
{
    for k in 0..s.len() {
        at_one(f, base + k, &mut s[k]);
    }
}

fn at_one<T, F: Fn(usize, &mut T)>(f: &F, i: usize, it: &mut T)
    requires { AcceptsAt F.Fn f.now i it.old }
    ensures { ChangesAt F.Fn f.now i it.old it.new }
{
    f(i, it);
}
