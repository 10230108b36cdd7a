//! How a host makes calls fail by their number over all objects, reads short, and leaves what a crash may leave.

use super::MemHost;
use crate::finding::newest;
use crate::trip::Trip;
use nt_lists::Bytes;
use std::alloc::AllocError;

impl MemHost {
    ghost use Rattle.std.specs.Prelude.{◌≡◌, ◌≤◌, IfOk, IfSome, OnOk};
    ghost use Rattle.nt_outside.specs.World.{stored};
    ghost use Rattle.nt_disk_log.specs.Left.{picked_under, MayBeLeft};
    ghost use Rattle.nt_memory.specs.Host.{world_of};
    ghost use Rattle.nt_memory.specs.Trips.{FailsCall, StopsAfter, Trips, Steps};

    /// Lets the call of this number fail: of those that can answer `Failed`, counted from 1 over the host and all objects that it
    /// opens from then on, in the order in which they are made. That they are counted so is only tested. It takes the place of what an
    /// earlier `fail_call` or `stop_after` said.
    pub fn fail_call(&mut self, number: u64) -> Result<(), AllocError>
        ensures trips { Trips self.old self.new }
        ensures number { OnOk result (FailsCall number self.new) }
    {
        let own = Trip::new(self.alloc, number, number)?;
        let trip = own.share()?;
        self.plan.disk_trip = own.share()?;
        self.plan.trip = trip;
        self.tally.trip = own;
        self.plan.torn = false;
        Ok(())
    }

    /// Lets each call of disks and pens that are made from then on fail, once so many of them that can were made, and each failing
    /// append leave half of its bytes. That they are counted so is only tested. It takes the place of what an earlier call said.
    pub fn stop_after(&mut self, count: u64) -> Result<(), AllocError>
        ensures trips { Trips self.old self.new }
        ensures count { OnOk result (StopsAfter count self.new) }
    {
        self.plan.disk_trip = Trip::new(self.alloc, count.saturating_add(1), u64::MAX)?;
        self.plan.trip = Trip::none();
        self.tally.trip = Trip::none();
        self.plan.torn = true;
        Ok(())
    }

    /// How many calls were counted since the last `fail_call` or `stop_after`.
    pub fn calls(&self) -> u64 {
        self.plan.disk_trip.count()
    }

    /// No read of a text that is opened from then on gives more bytes.
    pub fn step(&mut self, most: usize)
        requires { 1 ≤ most }
        ensures { Steps most self.old self.new }
    {
        self.plan.most = most;
    }

    /// The file that a crash after the first so many steps of its disk may leave under a name, as `MemDisk::crash` gives it: none
    /// where no disk wrote it.
    pub fn crash(&self, name: &str, count: usize, pick: u8) -> Result<Option<Bytes>, AllocError>
        ensures picked { IfOk result (λ found. found ≡ picked_under count pick (stored (world_of self.now) name.now)) }
        ensures leaves { IfOk result (λ found. IfSome found (MayBeLeft (stored (world_of self.now) name.now) count)) }
    {
        match newest(&self.files, name) {
            Some(file) => file.crash(self.alloc, count, pick),
            None => Ok(None),
        }
    }
}
