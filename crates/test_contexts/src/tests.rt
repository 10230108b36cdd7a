//! Contexts really run beside each other, and hold nothing from the filling of a range on.

use crate::gates::{Counting, HoldsFirst, Meeting};
use nt_app::run;
use nt_memory::MemHost;
use nt_outside::Gate;
use std::alloc::{AllocError, Global};
use std::sync::Wait;
use std::sync::atomic::Ordering;
use std::test::*;
use std::thread::Threads;

/// The inputs, each of one entry.
const INPUTS: [(&str, &[u8]); 4] = [
    ("a", b"[1]\n"),
    ("b", b"[2]\n"),
    ("c", b"[3]\n"),
    ("d", b"[4]\n"),
];

/// Whether the first so many inputs are written into one file, by these options.
fn is_written<R: Threads + Wait + Sync, G: Gate + Sync>(
    rt: &R,
    alloc: Global,
    inputs: usize,
    options: &[&str],
    gate: &G,
) -> Result<bool, AllocError> {
    let mut host = MemHost::new(alloc);
    host.add("s", b"x u64\n")?;
    let mut words = Vec::new(alloc);
    for word in ["write", "--cluster", "10", "o", "s"] {
        words.push(String::from_str(alloc, word)?)?;
    }
    for option in options {
        words.push(String::from_str(alloc, option)?)?;
    }
    for (name, text) in INPUTS.iter().take(inputs) {
        host.add(name, text)?;
        words.push(String::from_str(alloc, name)?)?;
    }
    Ok(run(rt, alloc, words, &mut host, gate).code() == 0)
}

#[test]
fn a_context_fills_while_another_settles(rt: HostRuntime) {
    let gate = HoldsFirst::new();
    let is_done = is_written(&rt, rt.alloc(), 2, &[], &gate) == Ok(true);
    assert!(rt; is_done && gate.seen.load(Ordering::SeqCst) == 1);
}

#[test]
fn all_contexts_meet_before_they_commit_and_while_they_fill(rt: HostRuntime) {
    let gate = Meeting::new(4);
    let is_done = is_written(&rt, rt.alloc(), 4, &[], &gate) == Ok(true);
    assert!(rt; is_done && gate.met.load(Ordering::SeqCst) == 8);
}

#[test]
fn two_workers_run_beside_each_other_and_no_more(rt: HostRuntime) {
    let gate = Counting::new(2);
    let is_done = is_written(&rt, rt.alloc(), 3, &["--contexts=2"], &gate) == Ok(true);
    let is_seen = gate.holds.seen.load(Ordering::SeqCst) == 1;
    assert!(rt; is_done && is_seen && gate.over.load(Ordering::SeqCst) == 0);
}
