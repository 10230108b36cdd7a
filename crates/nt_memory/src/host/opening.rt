//! What the calls of a host that open something have in common.

use super::MemHost;
use crate::calls::Calls;
use crate::disk::MemDisk;
use crate::finding::newest;
use crate::plan::{Object, numbers_for};
use crate::tally::Tally;
use nt_lists::Bytes;
use nt_outside::{Ask, Kind};
use std::alloc::AllocError;

impl MemHost {
    ghost use Rattle.std.specs.Prelude.{◌≡◌, ◌<◌, vec_len, vec_capacity, OnOk, IfOk, IfSome, IsSome, IsNone};
    ghost use Rattle.nt_outside.specs.World.{file, asked_as, asked_of};
    ghost use Rattle.nt_memory.specs.Planned.{numbers_for};
    ghost use Rattle.nt_memory.specs.Host.{state_of, world_of, tally_of, plan_of, listed_of_pens};
    ghost use Rattle.nt_memory.specs.Tally.{new_tally};
    ghost use Rattle.nt_memory.specs.Disk as mem_disk;
    ghost use Rattle.nt_memory.specs.Disk.{IsEmpty};
    ghost use Rattle.nt_memory.specs.Opening.{MayOpen, IsListedDisk, IsSameHost, Admits, KeepsAsked, HoldsSame};

    /// Copies the name, and takes the memory to keep it and for some prints. One object more can be counted as out.
    pub(super) fn prepare(&mut self, kind: Kind, name: &str) -> Result<Ask, AllocError>
        ensures ask { IfOk result (λ ask. asked_of ask ≡ asked_as kind name.now) }
        ensures ready { OnOk result (MayOpen self.new) }
        ensures same { IsSameHost self.old self.new }
    {
        if self.opened == u64::MAX {
            return Err(AllocError);
        }
        self.streams.make_room()?;
        self.asked.reserve(1)?;
        let name = String::from_str(self.alloc, name)?;
        Ok(Ask { kind, name })
    }

    /// A copy of the bytes of a name.
    pub(super) fn copy_of(&self, name: &str) -> Result<Option<Bytes>, AllocError>
        ensures { IfOk result (λ bytes. bytes ≡ file (world_of self.now) name.now) }
    {
        match newest(&self.files, name) {
            Some(file) => Ok(Some(Bytes::from_vec(file.bytes.to_vec(self.alloc)?))),
            None => Ok(None),
        }
    }

    /// The calls of an object that are to fail.
    pub(super) fn calls_of(&self, object: Object) -> Result<Calls, AllocError>
        ensures { IfOk result (λ calls. calls ≡ numbers_for object (plan_of self.now).planned.items) }
    {
        let numbers = numbers_for(self.alloc, &self.plan.planned, object)?;
        Ok(Calls::from_vec(numbers))
    }

    /// The calls of each pen of a disk that are to fail.
    pub(super) fn calls_of_pens(&self) -> Result<Vec<Calls>, AllocError>
        ensures { IfOk result (λ pens. pens.items ≡ listed_of_pens self.now) }
    {
        let mut pens = Vec::new(self.alloc);
        for number in 0..self.plan.pens {
            let calls = self.calls_of(Object::Pen(number))?;
            pens.push(calls)?;
        }
        Ok(pens)
    }

    /// The counts of a new text or file, and which of its calls are to fail.
    pub(super) fn new_tally(&self, object: Object) -> Result<Tally, AllocError>
        ensures { IfOk result (λ t. t ≡ new_tally (numbers_for object (plan_of self.now).planned.items) (plan_of self.now).trip) }
    {
        let fails = self.calls_of(object)?;
        let trip = self.plan.trip.share()?;
        Ok(Tally::new(fails, trip))
    }

    /// An empty disk, which knows which of its calls and of its pens' calls are to fail.
    pub(super) fn new_disk(&self) -> Result<MemDisk, AllocError>
        ensures listed { IfOk result (IsListedDisk self.now) }
        ensures empty { IfOk result (λ d. IsEmpty (mem_disk.state_of d)) }
    {
        let fails = self.calls_of(Object::Disk)?;
        let pens = self.calls_of_pens()?;
        let trip = self.plan.disk_trip.share()?;
        Ok(MemDisk::open(self.alloc, Tally::new(fails, trip), pens, self.plan.torn))
    }

    /// A name for a disk, unless one is out.
    pub(super) fn name_unless_out(&self, name: String) -> Option<String>
        ensures same { IfSome result (λ n. n ≡ name) }
        ensures out { IsSome (world_of self.now).creating → IsNone result }
        ensures only { IsNone result → IsSome (world_of self.now).creating }
    {
        if self.creating.is_none() {
            Some(name)
        } else {
            None
        }
    }

    /// Counts a call that asks for something, and gives what was found, unless the call is to fail.
    pub(super) fn admit<T: Drop>(&mut self, ask: Ask, found: Option<T>) -> Option<T>
        requires { vec_len self.old.asked < vec_capacity self.old.asked }
        ensures admits { Admits found (tally_of self.old) (tally_of self.new) result }
        ensures asked { KeepsAsked (asked_of ask) (state_of self.old) (state_of self.new) result }
        ensures same { HoldsSame self.old self.new }
    {
        self.asked.push_reserved(ask);
        let listed = self.tally.begin_call();
        if listed || found.is_none() {
            self.tally.count_fault();
            return None;
        }
        found
    }
}
