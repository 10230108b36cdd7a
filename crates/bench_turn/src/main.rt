//! Threads that take the turn, or a lock of the standard library, again and again: for the benchmark alone.
#![tactic(auto)]

ghost use Rattle.std.specs.Prelude.{◌≤◌};

mod locked;
mod tally;
mod turned;

use crate::locked::count_locked;
use crate::turned::count_in_turn;
use std::alloc::Global;
use std::process::ExitCode;
use std::rt::Runtime;
use std::sync::Wait;
use std::thread::Threads;
use std::time::Instant;
use std::{env, io};

/// What is measured: the lock, the threads, and how often each takes it.
#[derive(Drop)]
struct Run {
    is_turn: bool,
    threads: u32,
    rounds: u64,
    ghost seats: { (1 ≤ threads) × (threads ≤ 64) },
}

/// A run of four threads.
fn brief(is_turn: bool) -> Run {
    Run {
        is_turn,
        threads: 4,
        rounds: 1000,
    }
}

/// The words `turn` or `mutex`, the threads, the rounds.
fn run_of<R: Runtime<A = Global>>(rt: &R) -> io::Result<Option<Run>> {
    let mut words = env::args(rt)?;
    let _program = words.next();
    let Some(lock) = words.next() else {
        return Ok(None);
    };
    let Some(threads) = words.next() else {
        return Ok(None);
    };
    let Some(rounds) = words.next() else {
        return Ok(None);
    };
    let Ok(threads) = threads.parse::<u32>() else {
        return Ok(None);
    };
    let Ok(rounds) = rounds.parse::<u64>() else {
        return Ok(None);
    };
    if threads < 1 || 64 < threads {
        return Ok(None);
    }
    Ok(Some(Run {
        is_turn: lock.as_str() == "turn",
        threads,
        rounds,
    }))
}

/// Counts once, and says how often the lock was taken.
fn count<R: Runtime<A = Global> + Threads + Wait + Sync>(rt: &R, run: &Run) -> io::Result<u64> {
    if run.is_turn {
        Ok(count_in_turn(rt, rt.alloc(), run.threads, run.rounds)?)
    } else {
        Ok(count_locked(rt, run.threads, run.rounds))
    }
}

/// Prints the nanoseconds of one taking.
fn measure<R: Runtime<A = Global> + Threads + Wait + Sync>(rt: &R, run: &Run) -> io::Result<()> {
    let start = Instant::now(rt)?;
    let taken = count(rt, run)?;
    let spent = start.elapsed(rt)?;
    let nanoseconds = spent.as_nanos() / u128::from(taken.max(1));
    println!(rt; "{nanoseconds}")?;
    Ok(())
}

/// With no words it counts a little with each lock.
fn main(rt: HostRuntime) -> io::Result<ExitCode> {
    match run_of(&rt)? {
        Some(run) => measure(&rt, &run)?,
        None => {
            for is_turn in [true, false] {
                let taken = count(&rt, &brief(is_turn))?;
                println!(&rt; "{taken}")?;
            }
        }
    }
    Ok(ExitCode::from(0))
}
