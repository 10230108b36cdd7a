//! How often an object's calls have failed.

ghost use Rattle.std.specs.Prelude.{◌≤◌};
ghost use Rattle.nt_outside.specs.Faults.{Rose, TakesIn};

use nt_outside::Failed;

/// A count that stands still at the last number of its type.
#[derive(Clone, Copy)]
pub struct Faults {
    pub count: u64,
}

impl Faults {
    pub const NONE: Faults = Faults { count: 0 };

    /// Counts a failure, and answers it.
    pub fn failed(&mut self) -> Failed
        ensures rose { Rose self.old.count self.new.count }
        ensures later { self.old.count ≤ self.new.count }
    {
        self.count = self.count.saturating_add(1);
        Failed
    }

    /// Counts all failures of another object too.
    pub fn take_in(&mut self, other: Faults)
        ensures { TakesIn self.old.count self.new.count other.count }
    {
        self.count = self.count.saturating_add(other.count);
    }
}
