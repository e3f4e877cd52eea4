//! Two parts beside each other.
#![tactic(auto)]

ghost use Rattle.std.specs.Prelude.{◌≡◌};
ghost use Rattle.std.specs.Thread.{IsSend, IsSync};
ghost use Rattle.std.specs.Fork.{AcceptsAt, ChangesAt};

use std::thread::{Threads, join_mut};

fn at_one<T, F: Fn(usize, &mut T)>(f: &F, i: usize, it: &mut T)
    requires { AcceptsAt F.Fn f.now i it.old }
    ensures { ChangesAt F.Fn f.now i it.old it.new }
{
    f(i, it);
}

/// Calls `f` at the first part, with 0, and `g` at the second, with 1, beside each other. Where no
/// thread can be had, the second goes first.
pub fn beside<
    R: Threads + Sync,
    A: Send,
    B: Send,
    F: Fn(usize, &mut A) + Sync,
    G: Fn(usize, &mut B) + Sync,
>(rt: &R, f: &F, g: &G, a: &mut A, b: &mut B)
    requires first { AcceptsAt F.Fn f.now 0 a.old }
    requires second { AcceptsAt G.Fn g.now 1 b.old }
    ensures first { ChangesAt F.Fn f.now 0 a.old a.new }
    ensures second { ChangesAt G.Fn g.now 1 b.old b.new }
{
    let mut front = ||
        requires { AcceptsAt F.Fn f.now 0 a.now }
        ensures { ChangesAt F.Fn f.entry.now 0 a.entry.now a.exit.now }
    { at_one(f, 0, a) };
    let mut back = ||
        requires { AcceptsAt G.Fn g.now 1 b.now }
        ensures { ChangesAt G.Fn g.entry.now 1 b.entry.now b.exit.now }
    { at_one(g, 1, b) };
    join_mut(rt, &mut front, &mut back);
}
