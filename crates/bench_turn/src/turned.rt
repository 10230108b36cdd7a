//! Threads that take turns.

ghost use Rattle.std.specs.Prelude.{◌≡◌, ◌+◌, ◌<◌, ◌≤◌};
ghost use Rattle.std.specs.Thread.{IsSync};
ghost use Rattle.nt_turn.specs.Pass.{IsFree, MaySplit, SplitAndJoined};

use crate::tally::Tally;
use nt_turn::{Pass, Turn};
use std::alloc::{AllocError, Global};
use std::sync::Wait;
use std::thread::{Threads, join_mut};

/// Takes and gives so often.
fn take_turns<R: Wait>(rt: &R, turn: &Turn<Tally>, pass: &mut Pass<Tally>, rounds: u64)
    requires { IsFree turn.now pass.old }
    ensures free { IsFree turn.now pass.new }
    ensures number { pass.new.number ≡ pass.old.number }
{
    for _ in 0..rounds {
        let mut tally = turn.take(rt, pass);
        tally.count = tally.count.wrapping_add(1);
        turn.give(pass, tally);
    }
}

/// Splits so many passes off the first, lets a thread work with each, and joins them.
fn work_beside<R: Threads + Wait + Sync>(
    rt: &R,
    turn: &Turn<Tally>,
    first: &mut Pass<Tally>,
    threads: u32,
    rounds: u64,
)
    requires { MaySplit turn.now threads first.old }
    ensures { SplitAndJoined turn.now threads first.old first.new }
{
    if threads == 0 {
        return;
    }
    let rest = threads - 1;
    let mut pass = turn.split(first);
    join_mut(
        rt,
        &mut ||
            requires { IsSync R.row × IsFree turn.now pass }
            ensures { IsFree turn.entry.now pass.exit × (pass.exit.number ≡ pass.entry.number) }
        { take_turns(rt, turn, &mut pass, rounds) },
        &mut ||
            requires { IsSync R.row × MaySplit turn.now rest first.now }
            ensures { SplitAndJoined turn.entry.now rest first.entry.now first.exit.now }
        { work_beside(rt, turn, first, rest, rounds) },
    );
    turn.join(first, pass);
}

/// How often the turn was taken by so many threads.
pub fn count_in_turn<R: Threads + Wait + Sync>(
    rt: &R,
    alloc: Global,
    threads: u32,
    rounds: u64,
) -> Result<u64, AllocError>
    requires { (1 ≤ threads) × (threads ≤ 64) }
{
    match Turn::new(alloc, Tally { count: 0 }, threads) {
        Ok((turn, mut first)) => {
            work_beside(rt, &turn, &mut first, threads, rounds);
            Ok(turn.close(first).count)
        }
        Err((_, error)) => Err(error),
    }
}
