//! Threads that take a lock of the standard library.

ghost use Rattle.std.specs.Prelude.{◌≡◌};
ghost use Rattle.std.specs.Thread.{IsSync};

use std::sync::{Mutex, Wait};
use std::thread::{Threads, join};

fn take_lock<R: Wait>(rt: &R, count: &Mutex<u64>, rounds: u64) {
    for _ in 0..rounds {
        let mut count = count.lock(rt);
        *count = count.wrapping_add(1);
    }
}

fn work_beside<R: Threads + Wait + Sync>(rt: &R, count: &Mutex<u64>, threads: u32, rounds: u64) {
    if threads == 0 {
        return;
    }
    let rest = threads - 1;
    join(
        rt,
        ||
            requires { IsSync R.row }
        { take_lock(rt, count, rounds) },
        ||
            requires { IsSync R.row }
        { work_beside(rt, count, rest, rounds) },
    );
}

/// How often the lock was taken by so many threads.
pub fn count_locked<R: Threads + Wait + Sync>(rt: &R, threads: u32, rounds: u64) -> u64 {
    let count = Mutex::new(0);
    work_beside(rt, &count, threads, rounds);
    count.into_inner()
}
