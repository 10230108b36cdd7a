//! A file in memory.

ghost use Rattle.std.specs.Prelude.{◌≡◌, ◌<◌, ◌^◌, ℕ, All, Some, None};

use crate::bytes::are_bytes;
use crate::calls::Calls;
use crate::front::copy_front;
use crate::tally::Tally;
use crate::trip::Trip;
use nt_lists::Bytes;
use nt_outside::{Failed, ReadAt};

/// A file whose bytes are told.
#[derive(Drop)]
pub struct MemFile {
    bytes: Bytes,
    tally: Tally,
    ghost fit: { All (λ (b : ℕ). b < 2 ^ 8) bytes },
}

impl MemFile {
    ghost use Rattle.nt_memory.specs.Tally.{new_tally};
    ghost use Rattle.nt_memory.specs.File.{state_of, tally_of};

    pub fn new(bytes: Bytes, fails: Calls) -> Self
        ensures bytes { state_of result ≡ record { bytes = Some bytes; faults = 0 } }
        ensures tally { tally_of result ≡ new_tally fails None }
    {
        MemFile::open(bytes, Tally::new(fails, Trip::none()))
    }

    pub(crate) fn open(bytes: Bytes, tally: Tally) -> Self
        ensures bytes { state_of result ≡ record { bytes = Some bytes; faults = tally.faults } }
        ensures tally { tally_of result ≡ tally }
    {
        are_bytes(bytes.as_slice());
        MemFile { bytes, tally }
    }

    pub(crate) fn faults(&self) -> u64
        ensures { result ≡ (state_of self.now).faults }
    {
        self.tally.faults
    }
}

impl ReadAt for MemFile {
    ghost use Rattle.nt_memory.specs.Tally.{FailsWhereListed};
    ghost use Rattle.nt_memory.specs.File.{state_of, tally_of, fit_of};
    ghost use Rattle.nt_outside.specs.File.{TellsSize, ReadsAt};

    ghost state = { state_of };

    ghost fit = { fit_of };

    fn size(&mut self) -> Result<u64, Failed>
        ensures tells { TellsSize (state_of self.old) (state_of self.new) result }
        ensures exact { FailsWhereListed (tally_of self.old) (tally_of self.new) result }
    {
        if self.tally.count_call() {
            return Err(Failed);
        }
        Ok(self.bytes.as_slice().len() as u64)
    }

    fn read_at(&mut self, at: u64, buf: &mut [u8]) -> Result<usize, Failed>
        ensures reads { ReadsAt at (state_of self.old) (state_of self.new) buf.new result }
        ensures exact { FailsWhereListed (tally_of self.old) (tally_of self.new) result }
    {
        if self.tally.count_call() {
            return Err(Failed);
        }
        let bytes = self.bytes.as_slice();
        let start = at.min(bytes.len() as u64) as usize;
        let most = buf.len();
        Ok(copy_front(&bytes[start..], buf, most))
    }
}
