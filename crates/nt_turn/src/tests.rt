//! Threads that take turns at one list, which then has the entries of each, in order.

ghost use Rattle.std.specs.Prelude.{◌≡◌, ◌+◌, ◌≤◌, ◌++◌, ◌∷◌, [], MatchBool};
ghost use Rattle.std.specs.Thread.{IsSync};
ghost use Rattle.nt_turn.specs.Pass.{IsFree, MaySplit, SplitAndJoined};

use crate::logged::Logged;
use crate::pass::Pass;
use crate::turn::Turn;
use std::alloc::{AllocError, Global};
use std::sync::Wait;
use std::thread::{Threads, join_mut};

/// A list of the numbers of passes, each with a word.
#[derive(Drop)]
struct Log {
    list: Vec<(u32, u64)>,
}

impl Logged for Log {
    type Entry = (u32, u64);

    type Birth = u32;

    ghost history = { λ log. log.list.items };

    ghost birth = { λ log. 0 };

    ghost context = { λ entry. entry.0 };
}

impl Log {
    /// Adds an entry where there is memory.
    fn add(&mut self, number: u32, word: u64) -> bool
        ensures { MatchBool result (self.new.list.items ≡ self.old.list.items ++ (number, word) ∷ []) (self.new.list.items ≡ self.old.list.items) }
    {
        self.list.push((number, word)).is_ok()
    }

    /// Whether the words of the number are 0, 1 and so on, so many of them.
    fn counts(&self, number: u32, words: u64) -> bool {
        let mut next = 0u64;
        for (by, word) in &self.list {
            if *by == number {
                if *word != next {
                    return false;
                }
                next = next.wrapping_add(1);
            }
        }
        next == words
    }
}

fn take_turns<R: Wait>(rt: &R, turn: &Turn<Log>, pass: &mut Pass<Log>, words: u64)
    requires { IsFree turn.now pass.old }
    ensures free { IsFree turn.now pass.new }
    ensures number { pass.new.number ≡ pass.old.number }
{
    for word in 0..words {
        let mut log = turn.take(rt, pass);
        let _added = log.add(pass.number(), word);
        turn.give(pass, log);
    }
}

/// Splits so many passes off the first, lets a thread work with each, and joins them.
fn work_beside<R: Threads + Wait + Sync>(
    rt: &R,
    turn: &Turn<Log>,
    first: &mut Pass<Log>,
    threads: u32,
    words: u64,
)
    requires { MaySplit turn.now threads first.old }
    ensures { SplitAndJoined turn.now threads first.old first.new }
{
    if threads == 0 {
        return;
    }
    let rest = threads - 1;
    let mut pass = turn.split(first);
    join_mut(
        rt,
        &mut ||
            requires { IsSync R.row × IsFree turn.now pass }
            ensures { IsFree turn.entry.now pass.exit × (pass.exit.number ≡ pass.entry.number) }
        { take_turns(rt, turn, &mut pass, words) },
        &mut ||
            requires { IsSync R.row × MaySplit turn.now rest first.now }
            ensures { SplitAndJoined turn.entry.now rest first.entry.now first.exit.now }
        { work_beside(rt, turn, first, rest, words) },
    );
    turn.join(first, pass);
}

/// What so many threads wrote into one list, each so many words.
fn written<R: Threads + Wait + Sync>(
    rt: &R,
    alloc: Global,
    threads: u32,
    words: u64,
) -> Result<Log, AllocError>
    requires { (1 ≤ threads) × (threads ≤ 64) }
{
    let log = Log {
        list: Vec::new(alloc),
    };
    match Turn::new(alloc, log, threads) {
        Ok((turn, mut first)) => {
            work_beside(rt, &turn, &mut first, threads, words);
            Ok(turn.close(first))
        }
        Err((_, error)) => Err(error),
    }
}

#[test]
fn two_threads_of_a_thousand_words(rt: HostRuntime) -> Result<(), AllocError> {
    let log = written(&rt, rt.alloc(), 2, 1000)?;
    assert_eq!(rt; log.list.len(), 2000);
    assert!(rt; log.counts(0, 1000));
    assert!(rt; log.counts(1, 1000));
    Ok(())
}

#[test]
fn as_many_threads_as_seats(rt: HostRuntime) -> Result<(), AllocError> {
    let log = written(&rt, rt.alloc(), 64, 100)?;
    assert_eq!(rt; log.list.len(), 6400);
    for number in 0..64 {
        assert!(rt; log.counts(number, 100), "pass {number}");
    }
    Ok(())
}
