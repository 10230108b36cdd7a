//! Counts of an object's calls.

ghost use Rattle.std.specs.Prelude.{◌≡◌, ◌+◌, ◌-◌, ◌^◌, ◌≤◌, None, if◌then◌else◌, min, IsTrue};
ghost use Rattle.std.specs.Bool.{OnTrue};

use crate::calls::Calls;
use crate::trip::Trip;

/// How many calls that can fail were made, how many of them failed, and which are to fail: those listed, and those that `trip` hits.
#[derive(Drop)]
pub struct Tally {
    pub listed: Calls,
    pub made: u64,
    pub faults: u64,
    pub trip: Trip,
}

impl Tally {
    ghost use Rattle.nt_outside.specs.Faults.{Rose, TakesIn};
    ghost use Rattle.nt_memory.specs.Tally.{IsListed, new_tally, call_counted, faulted, failed, takes_in};

    pub fn new(listed: Calls, trip: Trip) -> Self
        ensures { result ≡ new_tally listed trip }
    {
        Tally {
            listed,
            made: 0,
            faults: 0,
            trip,
        }
    }

    /// Counts a call, and says whether it is to fail.
    pub fn begin_call(&mut self) -> bool
        ensures listed { IsListed self.old → IsTrue result }
        ensures only { self.old.trip ≡ None → IsTrue result → IsListed self.old }
        ensures counted { self.new ≡ call_counted self.old }
        ensures faults { self.new.faults ≡ self.old.faults }
    {
        self.made = self.made.saturating_add(1);
        let tripped = self.trip.hits();
        self.listed.contains(self.made) || tripped
    }

    pub fn count_fault(&mut self)
        ensures faulted { self.new ≡ faulted self.old }
        ensures later { self.old.faults ≤ self.new.faults }
        ensures rose { Rose self.old.faults self.new.faults }
    {
        self.faults = self.faults.saturating_add(1);
    }

    /// Counts a call, and a fault where it is to fail.
    pub fn count_call(&mut self) -> bool
        ensures listed { IsListed self.old → IsTrue result }
        ensures only { self.old.trip ≡ None → IsTrue result → IsListed self.old }
        ensures tally { self.new ≡ (if result then failed self.old else call_counted self.old) }
        ensures later { self.old.faults ≤ self.new.faults }
        ensures rose { OnTrue result (Rose self.old.faults self.new.faults) }
    {
        let fails = self.begin_call();
        if fails {
            self.count_fault();
        }
        fails
    }

    /// Takes in the faults of another object.
    pub fn take_in(&mut self, faults: u64)
        ensures takes_in { self.new ≡ takes_in faults self.old }
        ensures faults { TakesIn self.old.faults self.new.faults faults }
    {
        self.faults = self.faults.saturating_add(faults);
    }
}
