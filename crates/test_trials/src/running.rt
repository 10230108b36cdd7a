//! A run of the program over a host in memory.

use crate::named::Named;
use crate::points::Points;
use crate::spelling::{add_number, add_shown};
use nt_app::run;
use nt_memory::{MemHost, Object};
use std::alloc::{AllocError, Global};
use std::sync::Wait;
use std::thread::Threads;

/// What a run answered, and what it left.
#[derive(Drop)]
pub struct Ran {
    pub code: u8,
    /// The digits of the gate.
    pub points: u64,
    pub host: MemHost,
}

/// Which calls of a host are to fail.
#[derive(Clone, Copy, Debug, PartialEq, Eq)]
pub enum Fails {
    Nothing,
    /// This call of an object.
    Of(Object, u64),
    /// The call of this number over all objects.
    Call(u64),
    /// Each call of disks and pens behind so many, where a failing append leaves half of its bytes.
    Behind(u64),
}

/// A host with these files, of which these calls fail, and whose texts give at most so many bytes at a time, or any number for 0.
pub fn host_of(
    alloc: Global,
    files: &[Named],
    fails: Fails,
    most: usize,
) -> Result<MemHost, AllocError> {
    let mut host = MemHost::new(alloc);
    for file in files {
        host.add(file.name.as_str(), &file.bytes)?;
    }
    match fails {
        Fails::Nothing => {}
        Fails::Of(object, call) => host.fail(object, call)?,
        Fails::Call(number) => host.fail_call(number)?,
        Fails::Behind(count) => host.stop_after(count)?,
    }
    if most > 0 {
        host.step(most);
    }
    Ok(host)
}

/// These words, each as a text of its own.
pub fn words_of(alloc: Global, words: &[String]) -> Result<Vec<String>, AllocError> {
    let mut list = Vec::new(alloc);
    for word in words {
        list.push(String::from_str(alloc, word.as_str())?)?;
    }
    Ok(list)
}

/// A run of these words.
pub fn run_on<R: Threads + Wait + Sync>(
    rt: &R,
    alloc: Global,
    host: MemHost,
    words: &[String],
    gate: &Points<'_>,
) -> Result<Ran, AllocError> {
    let mut host = host;
    let words = words_of(alloc, words)?;
    let status = run(rt, alloc, words, &mut host, gate);
    Ok(Ran {
        code: status.code(),
        points: gate.told(),
        host,
    })
}

/// Adds a text with a word before it, unless it is empty.
pub fn add_named(word: &[u8], text: &[u8], told: &mut Vec<u8>) -> Result<(), AllocError> {
    if !text.is_empty() {
        told.extend_from_slice(word)?;
        add_shown(text, told)?;
    }
    Ok(())
}

impl Ran {
    /// Adds the status, what was printed, and, of the file `o`, its length where the command was done, and its first byte.
    pub fn add_answer(
        &self,
        alloc: Global,
        is_writing: bool,
        told: &mut Vec<u8>,
    ) -> Result<(), AllocError> {
        add_number(alloc, u64::from(self.code), told)?;
        add_named(b" out ", self.host.out(), told)?;
        add_named(b" err ", self.host.err(), told)?;
        if !is_writing {
            return Ok(());
        }
        if let Some(file) = self.host.file("o") {
            told.extend_from_slice(b" o ")?;
            if self.code == 0 {
                add_number(alloc, file.len() as u64, told)?;
                told.push(b' ')?;
            }
            add_shown(file.get(..1).unwrap_or(b"".as_slice()), told)?;
        }
        Ok(())
    }
}
