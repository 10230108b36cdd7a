//! Trials of the program over memory: a transcript of cases, read from stdin, and of what came out of each.
//!
//! A case is a line, its words apart by one blank. Stdout has each line again, but for what `let` gives, and behind it the answer.
//! `trials.rt` has the lines; `running.rt` calls `nt_app::run` over a host in memory; `direct.rt` calls the writers below it, for
//! limits and lengths that no word of the program sets, and `built.rt` those that write on a disk itself. Nothing is proved here of
//! what a run answers: that is said by the contract of `run`, and tried here on rows that were made by hand. What is expected was
//! worked out outside the program.
#![tactic(auto)]

mod built;
mod direct;
mod lent;
mod named;
mod points;
mod rows;
mod running;
mod spelling;
mod trials;
mod whole;

use crate::trials::Trials;
use std::io;
use std::io::Write;

fn main(rt: HostRuntime) -> io::Result<()> {
    let mut trials = Trials::new(rt.alloc());
    for line in rt.lines(rt.alloc()) {
        let line = line?;
        let mut told = Vec::new(rt.alloc());
        trials.obey(&rt, line.as_str(), &mut told)?;
        rt.stdout().write_all(&told)?;
    }
    Ok(())
}
