//! A text of the system.

ghost use Rattle.std.specs.Io.{ReadsAtMost};
ghost use Rattle.nt_system.specs.Real.{text_state};

use crate::faults::Faults;
use nt_outside::{Failed, Source};
use std::io;
use std::io::{Error, ErrorKind, Read};

/// A text that is read from an opened file.
#[derive(Drop)]
pub struct RealText<F> {
    pub(crate) file: F,
    pub(crate) faults: Faults,
}

impl<F: Read> Source for RealText<F> {
    ghost state = { λ t. text_state t.faults.count };

    fn read(&mut self, buf: &mut [u8]) -> Result<usize, Failed> {
        match read_on(&mut self.file, buf) {
            Ok(count) => Ok(count),
            Err(_) => Err(self.faults.failed()),
        }
    }
}

/// Reads once, and again where a signal interrupts it: that is no failure.
fn read_on<F: Read>(file: &mut F, buf: &mut [u8]) -> io::Result<usize>
    ensures { ReadsAtMost result buf.new }
{
    for _ in 0..u64::MAX {
        match file.read(buf) {
            Err(error) if error.kind() == ErrorKind::Interrupted => {}
            read => return read,
        }
    }
    Err(Error::from(ErrorKind::Interrupted))
}
