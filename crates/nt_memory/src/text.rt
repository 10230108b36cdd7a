//! A text in memory.

ghost use Rattle.std.specs.Prelude.{◌≡◌, ◌-◌, ◌^◌, ◌≤◌, ◌<◌, length, Some, None, IfOk};

use crate::calls::Calls;
use crate::front::copy_front;
use crate::tally::Tally;
use crate::trip::Trip;
use nt_lists::Bytes;
use nt_outside::{Failed, Source};

/// A text whose bytes are told.
#[derive(Drop)]
pub struct MemSource {
    bytes: Bytes,
    at: usize,
    most: usize,
    tally: Tally,
    ghost within: { at ≤ length bytes },
    ghost some: { 1 ≤ most },
}

impl MemSource {
    ghost use Rattle.nt_memory.specs.Tally.{new_tally};
    ghost use Rattle.nt_memory.specs.Text.{state_of, tally_of, most_of};

    /// A text whose reads give as many bytes as there is room for.
    pub fn new(bytes: Bytes, fails: Calls) -> Self
        ensures left { state_of result ≡ record { left = Some bytes; faults = 0 } }
        ensures tally { tally_of result ≡ new_tally fails None }
        ensures most { most_of result ≡ 2 ^ 64 - 1 }
    {
        MemSource::open(bytes, Tally::new(fails, Trip::none()), usize::MAX)
    }

    pub(crate) fn open(bytes: Bytes, tally: Tally, most: usize) -> Self
        requires { 1 ≤ most }
        ensures left { state_of result ≡ record { left = Some bytes; faults = tally.faults } }
        ensures tally { tally_of result ≡ tally }
        ensures most { most_of result ≡ most }
    {
        MemSource {
            bytes,
            at: 0,
            most,
            tally,
        }
    }

    /// No read gives more bytes from now on.
    pub fn step(&mut self, most: usize)
        requires { 1 ≤ most }
        ensures state { state_of self.new ≡ state_of self.old }
        ensures tally { tally_of self.new ≡ tally_of self.old }
        ensures most { most_of self.new ≡ most }
    {
        self.most = most;
    }

    pub(crate) fn faults(&self) -> u64
        ensures { result ≡ (state_of self.now).faults }
    {
        self.tally.faults
    }
}

impl Source for MemSource {
    ghost use Rattle.nt_memory.specs.Tally.{FailsWhereListed};
    ghost use Rattle.nt_memory.specs.Text.{state_of, tally_of, most_of};
    ghost use Rattle.nt_outside.specs.Source.{TakesNext};

    ghost state = { state_of };

    fn read(&mut self, buf: &mut [u8]) -> Result<usize, Failed>
        requires { 0 < length buf.old }
        ensures next { TakesNext (state_of self.old) (state_of self.new) buf.new result }
        ensures exact { FailsWhereListed (tally_of self.old) (tally_of self.new) result }
        ensures few { IfOk result (λ n. n ≤ most_of self.old) }
        ensures most { most_of self.new ≡ most_of self.old }
    {
        if self.tally.count_call() {
            return Err(Failed);
        }
        let count = copy_front(&self.bytes.as_slice()[self.at..], buf, self.most);
        self.at += count;
        Ok(count)
    }
}
