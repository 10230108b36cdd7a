//! An example of the libraries: two contexts write a file beside each other, and its pages are read as they are stored. It reads the
//! texts `first.txt` and `second.txt` of the folder that it runs in, and leaves the file `out.root` there.
//!
//! Start at `main.rt`; `writing.rt` writes and `reading.rt` reads. Both take whatever is a disk, a text or a file by the traits of
//! nt_outside: here those of the system, which nt_system has. `MemHost` of nt_memory has them in memory.
//!
//! Proved: each call is made under its conditions, whatever was read and whichever call before it failed; and a reading blames the
//! file only where its count of faults rose (`file`). Nothing is proved here of what the file holds: that is said by the contracts of
//! the calls, and of a whole command by nt_store.
#![tactic(auto)]

mod reading;
mod writing;

use crate::reading::greatest;
use crate::writing::write_file;
use nt_book::{Limits, Params};
use nt_outside::{Host, Refused};
use nt_system::RealHost;
use nt_tfile::ReadFailure;
use nt_types::parse_schema;
use std::alloc::{AllocError, Global};
use std::io;
use std::sync::Wait;
use std::thread::Threads;

const SCHEMA: &[u8] = b"time u64\nname string\n";

/// What failed.
#[derive(Debug, Drop)]
pub enum Failure {
    Memory,
    Schema,
    Writing,
    Reading,
}

impl From<AllocError> for Failure {
    fn from(_: AllocError) -> Self {
        Failure::Memory
    }
}

impl From<Refused> for Failure {
    fn from(_: Refused) -> Self {
        Failure::Writing
    }
}

impl From<ReadFailure> for Failure {
    fn from(_: ReadFailure) -> Self {
        Failure::Reading
    }
}

/// Writes the two inputs as the file `out.root`, in clusters of two entries.
fn write<R: Threads + Wait + Sync>(
    rt: &R,
    alloc: Global,
    host: &mut RealHost,
) -> Result<(), Failure> {
    let Some(limits) = Limits::new(1 << 30, 1 << 40, u32::MAX) else {
        return Err(Failure::Writing);
    };
    let Some(params) = Params::new(2, 4096, 1000, false, false, limits) else {
        return Err(Failure::Writing);
    };
    let Ok(fields) = parse_schema(alloc, SCHEMA) else {
        return Err(Failure::Schema);
    };
    let mut texts = Vec::with_capacity(alloc, 2)?;
    texts.push_reserved(host.open_text("first.txt")?);
    texts.push_reserved(host.open_text("second.txt")?);
    let disk = host.create("out.root")?;
    let (disk, texts, written) = write_file(rt, alloc, disk, &fields, texts, &params);
    host.return_disk(disk);
    for text in texts {
        host.return_text(text);
    }
    written
}

/// Writes the file, and says how many clusters it has and the greatest of its times, which is its column 0.
fn write_and_read<R: Threads + Wait + Sync>(
    rt: &R,
    alloc: Global,
    host: &mut RealHost,
) -> Result<(u32, u64), Failure> {
    write(rt, alloc, host)?;
    let mut file = host.open_file("out.root")?;
    let seen = greatest(alloc, &mut file, 0);
    host.return_file(file);
    Ok(seen?)
}

fn main(rt: HostRuntime) -> io::Result<()> {
    let mut host = RealHost::new(rt);
    match write_and_read(&rt, rt.alloc(), &mut host) {
        Ok((clusters, latest)) => println!(rt; "clusters {clusters}, the latest time {latest}"),
        Err(failure) => println!(rt; "failed: {failure:?}"),
    }
}
