//! A file of the system that is read at any place.

ghost use Rattle.std.specs.Prelude.{◌≤◌, length, IfOk};
ghost use Rattle.nt_system.specs.Real.{file_state, unread};

use crate::faults::Faults;
use nt_outside::{Failed, ReadAt};
use std::fs::OpenFile;
use std::io;
use std::io::{Error, ErrorKind};
use std::os::unix::fs::FileExt;

/// A file that is read from an opened file.
#[derive(Drop)]
pub struct RealFile<F> {
    pub(crate) file: F,
    pub(crate) faults: Faults,
}

impl<F: FileExt + OpenFile> ReadAt for RealFile<F> {
    ghost state = { λ f. file_state f.faults.count };

    ghost fit = { λ f. unread f.faults.count };

    fn size(&mut self) -> Result<u64, Failed> {
        match self.file.metadata() {
            Ok(metadata) => Ok(metadata.len()),
            Err(_) => Err(self.faults.failed()),
        }
    }

    fn read_at(&mut self, at: u64, buf: &mut [u8]) -> Result<usize, Failed> {
        match fill_from(&self.file, at, buf) {
            Ok(count) => Ok(count),
            Err(_) => Err(self.faults.failed()),
        }
    }
}

/// Fills `buf` from place `at` of a file, as far as the file has bytes there. A read may give only some of them, and a signal may
/// interrupt it: both are no failure, and the next read goes on.
fn fill_from<F: FileExt>(file: &F, at: u64, buf: &mut [u8]) -> io::Result<usize>
    ensures { IfOk result (λ n. n ≤ length buf.new) }
{
    let mut filled = 0;
    for _ in 0..u64::MAX {
        if filled >= buf.len() {
            return Ok(filled);
        }
        match file.read_at(&mut buf[filled..], at.saturating_add(filled as u64)) {
            Ok(0) => return Ok(filled),
            Ok(count) => filled += count,
            Err(error) if error.kind() == ErrorKind::Interrupted => {}
            Err(error) => return Err(error),
        }
    }
    Err(Error::from(ErrorKind::Interrupted))
}
