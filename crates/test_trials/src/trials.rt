//! The lines of a transcript, and what each does.

mod asking;
mod crashing;
mod looking;
mod setting;

use crate::named::Named;
use crate::running::Ran;
use crate::whole::Whole;
use nt_memory::Object;
use std::alloc::{AllocError, Global};
use std::sync::Wait;
use std::thread::Threads;

/// How often a gate looks where the others must come: for seconds.
const LONG: u64 = 100_000_000;

/// How often a gate looks where the others may never come.
const SHORT: u64 = 1 << 20;

/// What the lines so far have set.
#[derive(Drop)]
pub struct Trials {
    alloc: Global,
    /// Bytes that lines name by an `@`.
    texts: Vec<Named>,
    /// The files of the runs that follow.
    files: Vec<Named>,
    /// The words of the runs that follow.
    words: Vec<String>,
    /// The orders in which contexts commit and publish, if there are any, and how often each looks for its turn.
    order: Vec<u32>,
    publishing: Vec<u32>,
    looks: u64,
    /// The most bytes that texts give at a time, or 0.
    most: usize,
    /// The runs that were done.
    wholes: Vec<Whole>,
    /// The run before.
    last: Option<Ran>,
}

impl Trials {
    pub fn new(alloc: Global) -> Self {
        Trials {
            alloc,
            texts: Vec::new(alloc),
            files: Vec::new(alloc),
            words: Vec::new(alloc),
            order: Vec::new(alloc),
            publishing: Vec::new(alloc),
            looks: 0,
            most: 0,
            wholes: Vec::new(alloc),
            last: None,
        }
    }

    /// Does what a line says, and adds the line and its answer.
    pub fn obey<R: Threads + Wait + Sync>(
        &mut self,
        rt: &R,
        line: &str,
        told: &mut Vec<u8>,
    ) -> Result<(), AllocError> {
        let words: Vec<&str> = line.split(' ').collect(self.alloc)?;
        let Some((command, rest)) = words.split_first() else {
            return Ok(());
        };
        if *command == "let" {
            return self.name(rest, told);
        }
        told.extend_from_slice(line.as_bytes())?;
        told.push(b'\n')?;
        if line.is_empty() || line.starts_with('#') || self.set(command, rest)? {
            return Ok(());
        }
        self.ask(rt, command, rest, told)
    }
}

/// The object of a host that two words name.
fn object_of(kind: &str, number: u32) -> Object {
    match kind {
        "text" => Object::Text(number),
        "file" => Object::File(number),
        "disk" => Object::Disk,
        "pen" => Object::Pen(number),
        _ => Object::Host,
    }
}
