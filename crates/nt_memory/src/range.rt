//! Extents and pens in memory, and the ranges that are out.

ghost use Rattle.std.specs.Prelude.{◌≡◌, ◌≤◌, true, false, [], length, vec_capacity};

use crate::calls::Calls;
use crate::tally::Tally;
use crate::trip::Trip;
use nt_disk_log::add_reserved;
use nt_outside::{Ext, Failed, Pen, Range};

/// A range with its bytes, once it is filled, for which it has the memory.
#[derive(Drop)]
pub struct MemExt {
    pub(crate) range: Range,
    pub(crate) filled: bool,
    pub(crate) bytes: Vec<u8>,
    ghost room: { range.len ≤ vec_capacity bytes },
    ghost whole: { filled ≡ true → length bytes.items ≡ range.len },
    ghost empty: { filled ≡ false → bytes.items ≡ [] },
}

impl Ext for MemExt {
    ghost use Rattle.nt_memory.specs.Ext.{state_of, sized_of, has_bytes_of};

    ghost state = { state_of };

    ghost sized = { sized_of };

    ghost told = { has_bytes_of };

    fn start(&self) -> u64 {
        self.range.start
    }

    fn len(&self) -> u64 {
        self.range.len
    }

    fn filled(&self) -> bool {
        self.filled
    }
}

/// A pen that fills extents in memory.
#[derive(Drop)]
pub struct MemPen {
    tally: Tally,
}

impl MemPen {
    ghost use Rattle.nt_memory.specs.Tally.{new_tally};
    ghost use Rattle.nt_memory.specs.Pen.{state_of, tally_of};

    pub(crate) fn new(fails: Calls, trip: Trip) -> Self
        ensures faults { (state_of result).faults ≡ 0 }
        ensures tally { tally_of result ≡ new_tally fails trip }
    {
        MemPen {
            tally: Tally::new(fails, trip),
        }
    }
}

impl Pen for MemPen {
    type Ext = MemExt;

    ghost use Rattle.nt_outside.specs.Range.{Fills};
    ghost use Rattle.nt_memory.specs.Tally.{FailsWhereListed};
    ghost use Rattle.nt_memory.specs.Ext as mem_ext;
    ghost use Rattle.nt_memory.specs.Pen.{state_of, tally_of};

    ghost state = { state_of };

    fn faults(&self) -> u64 {
        self.tally.faults
    }

    fn fill(&mut self, ext: &mut MemExt, bytes: &[u8]) -> Result<(), Failed>
        requires empty { (mem_ext.state_of ext.old).filled ≡ false }
        requires whole { length bytes.now ≡ (mem_ext.state_of ext.old).range.len }
        ensures fills { Fills bytes.now (mem_ext.state_of ext.old) (mem_ext.state_of ext.new) (state_of self.old) (state_of self.new) result }
        ensures exact { FailsWhereListed (tally_of self.old) (tally_of self.new) result }
    {
        if self.tally.count_call() {
            return Err(Failed);
        }
        add_reserved(&mut ext.bytes, bytes);
        ext.filled = true;
        Ok(())
    }
}
