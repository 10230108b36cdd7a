//! How a disk in memory is made, taken apart, and what a crash leaves of it.

ghost use Rattle.std.specs.Prelude.{◌≡◌, [], drop, take, false, None, slice_index_or, IfOk};
ghost use Rattle.nt_disk_log.specs.Logged.{steps_of};
ghost use Rattle.nt_disk_log.specs.Left.{AreInside};

use super::MemDisk;
use crate::calls::Calls;
use crate::tally::Tally;
use crate::trip::Trip;
use nt_disk_log::{Log, pick_left};
use nt_lists::Bytes;
use std::alloc::{AllocError, Global};

impl MemDisk {
    ghost use Rattle.nt_memory.specs.Tally.{new_tally};
    ghost use Rattle.nt_memory.specs.Disk.{IsEmpty, held_of, state_of, tally_of, pens_of};
    ghost use Rattle.nt_disk_log.specs.Left.{picked_file};
    ghost use Rattle.nt_outside.specs.Crash.{LeavesBehind};

    /// An empty disk, whose calls fail where `fails` lists their numbers; those of its k-th pen where the k-th of `pens` does.
    pub fn new(alloc: Global, fails: Calls, pens: Vec<Calls>) -> Self
        ensures empty { IsEmpty (state_of result) }
        ensures tally { tally_of result ≡ new_tally fails None }
        ensures pens { pens_of result ≡ pens.items }
        ensures torn { result.torn ≡ false }
    {
        MemDisk::open(alloc, Tally::new(fails, Trip::none()), pens, false)
    }

    pub(crate) fn open(alloc: Global, tally: Tally, pens: Vec<Calls>, torn: bool) -> Self
        requires { tally.faults ≡ 0 }
        ensures empty { IsEmpty (state_of result) }
        ensures tally { tally_of result ≡ tally }
        ensures pens { pens_of result ≡ pens.items }
        ensures torn { result.torn ≡ torn }
    {
        MemDisk {
            alloc,
            image: Vec::new(alloc),
            log: Log::new(alloc),
            out: Vec::new(alloc),
            pens,
            tally,
            torn,
        }
    }

    /// The file that a crash after the first so many steps may leave: what was synced for pick 0; all whole for pick 1, unknown
    /// bytes 0; for a greater one the worst, each byte 255 that a later step covers, but the newest where only writes of that one
    /// byte do.
    pub fn crash(&self, count: usize, pick: u8) -> Result<Bytes, AllocError>
        ensures picked { IfOk result (λ bytes. bytes ≡ picked_file pick (take count (held_of self.now).log)) }
        ensures leaves { IfOk result (λ bytes. LeavesBehind (held_of self.now).log count bytes) }
    {
        pick_left(self.alloc, &self.log, count, pick)
    }

    /// The bytes that stand there, the steps and the faults.
    pub(crate) fn into_parts(self) -> (Vec<u8>, Log, u64)
        ensures image { result.0.items ≡ (held_of self).image }
        ensures log { steps_of result.1 ≡ (held_of self).log }
        ensures placed { AreInside 0 (steps_of result.1) }
        ensures faults { result.2 ≡ (state_of self).faults }
    {
        (self.image, self.log, self.tally.faults)
    }

    /// The calls of the next pen that are to fail.
    pub(super) fn next_calls(&mut self) -> Calls
        ensures calls { result ≡ slice_index_or (pens_of self.old) 0 [] }
        ensures pens { pens_of self.new ≡ drop 1 (pens_of self.old) }
        ensures state { state_of self.new ≡ state_of self.old }
        ensures tally { tally_of self.new ≡ tally_of self.old }
    {
        if self.pens.is_empty() {
            Calls::from_vec(Vec::new(self.alloc))
        } else {
            self.pens.remove(0)
        }
    }
}
