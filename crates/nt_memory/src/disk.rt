//! A disk in memory.

ghost use Rattle.std.specs.Prelude.{◌≡◌, ◌+◌, ◌^◌, ◌≤◌, [], length, drop, ◌++◌, false, take, slice_index_or, vec_len, All, Contains, sum_by, if◌then◌else◌, is_ok, IfOk, OnErr};
ghost use Rattle.nt_outside.specs.Reads.{Reads};
ghost use Rattle.nt_outside.specs.declared.range.Range.{Range};
ghost use Rattle.nt_disk_log.specs.Logged.{steps_of};
ghost use Rattle.nt_disk_log.specs.Left.{AreInside, AreInside-prop};

mod making;

use crate::bytes::{add_zeros, grow_room};
use crate::calls::Calls;
use crate::range::{MemExt, MemPen};
use crate::tally::Tally;
use nt_disk_log::{Log, Row, add_reserved, put_over};
use nt_outside::{Disk, Failed, Pen, Range, Refused, take_off};
use std::alloc::{AllocError, Global};

/// A disk whose steps and bytes are told. It has the memory to settle each range that is out.
#[derive(Drop)]
pub struct MemDisk {
    alloc: Global,
    image: Vec<u8>,
    log: Log,
    out: Vec<Range>,
    pens: Vec<Calls>,
    tally: Tally,
    /// Whether an append that fails leaves the first half of its bytes.
    torn: bool,
    ghost reads: { Reads (steps_of log) image.items },
    ghost placed: { AreInside 0 (steps_of log) } by { AreInside-prop 0 (steps_of log) },
    ghost inside: { All (λ (r : Range). r.start + r.len ≤ vec_len image) out.items },
    ghost rows_owed: { sum_by (λ (r : Range). 1) out.items ≤ log.owed },
    ghost bytes_owed: { sum_by (λ (r : Range). r.len) out.items ≤ log.owed_bytes },
}

impl Disk for MemDisk {
    type Ext = MemExt;

    type Pen = MemPen;

    ghost use Rattle.nt_memory.specs.Tally.{new_tally, takes_in, FailsWhereListedOr};
    ghost use Rattle.nt_memory.specs.Disk.{held_of, state_of, tally_of, pens_of, told_of, left_of_append, FailsAsListed};
    ghost use Rattle.nt_memory.specs.Ext as mem_ext;
    ghost use Rattle.nt_memory.specs.Pen as mem_pen;
    ghost use Rattle.nt_outside.specs.Range.{IsApart};
    ghost use Rattle.nt_outside.specs.Disk.{HasSpare, TakesRoom, Appends, Writes, Syncs, MakesPen, TakesPen, Reserves, IsNewExt, Settles};

    ghost state = { state_of };

    ghost told = { told_of };

    fn end(&self) -> u64 {
        self.image.len() as u64
    }

    fn faults(&self) -> u64 {
        self.tally.faults
    }

    fn pen(&mut self) -> Result<MemPen, Refused>
        ensures makes { MakesPen (state_of self.old) (state_of self.new) result }
        ensures new { IfOk result (λ p. (mem_pen.state_of p).faults ≡ 0) }
        ensures exact { FailsWhereListedOr ⊥ (tally_of self.old) (tally_of self.new) result }
        ensures calls { IfOk result (λ p. mem_pen.tally_of p ≡ new_tally (slice_index_or (pens_of self.old) 0 []) (tally_of self.old).trip) }
        ensures pens { pens_of self.new ≡ (if is_ok result then drop 1 (pens_of self.old) else pens_of self.old) }
    {
        let trip = self.tally.trip.share()?;
        if self.tally.count_call() {
            return Err(Refused::Failed);
        }
        let fails = self.next_calls();
        Ok(MemPen::new(fails, trip))
    }

    fn return_pen(&mut self, pen: MemPen)
        ensures back { TakesPen (mem_pen.state_of pen).faults (state_of self.old) (state_of self.new) }
        ensures exact { tally_of self.new ≡ takes_in (mem_pen.state_of pen).faults (tally_of self.old) }
        ensures pens { pens_of self.new ≡ pens_of self.old }
    {
        self.tally.take_in(pen.faults());
    }

    fn room(&mut self, steps: u32, bytes: u64) -> Result<(), AllocError>
        ensures room { TakesRoom steps bytes (state_of self.old) (state_of self.new) result }
        ensures tally { tally_of self.new ≡ tally_of self.old }
        ensures pens { pens_of self.new ≡ pens_of self.old }
    {
        self.log.room(steps as usize, bytes as usize)?;
        self.image.reserve(bytes as usize)
    }

    fn reserve(&mut self, len: u64) -> Result<MemExt, Refused>
        requires { (state_of self.old).end + len ≤ 2 ^ 63 }
        ensures reserves { Reserves len (state_of self.old) (state_of self.new) result }
        ensures new { IfOk result (λ e. IsNewExt len (state_of self.old) (mem_ext.state_of e)) }
        ensures exact { FailsWhereListedOr ⊥ (tally_of self.old) (tally_of self.new) result }
        ensures pens { pens_of self.new ≡ pens_of self.old }
    {
        let start = self.image.len() as u64;
        let bytes = Vec::with_capacity(self.alloc, len as usize)?;
        self.out.reserve(1)?;
        grow_room(&mut self.image, len as usize)?;
        self.log.range_room(len as usize)?;
        if self.tally.count_call() {
            return Err(Refused::Failed);
        }
        self.log.push_reserve(start, len);
        self.out.push_reserved(Range { start, len });
        add_zeros(&mut self.image, len as usize);
        Ok(MemExt {
            range: Range { start, len },
            filled: false,
            bytes,
        })
    }

    fn settle(&mut self, ext: MemExt)
        requires { Contains (state_of self.old).out (mem_ext.state_of ext).range }
        ensures settles { Settles (mem_ext.state_of ext) (state_of self.old) (state_of self.new) }
        ensures tally { tally_of self.new ≡ tally_of self.old }
        ensures pens { pens_of self.new ≡ pens_of self.old }
    {
        let MemExt {
            range,
            filled,
            bytes,
        } = ext;
        let len = range.len as usize;
        let row = Row::Settle {
            start: range.start,
            len,
            known: filled,
        };
        self.log.push_settle(row, &bytes, len);
        put_over(&mut self.image, range.start as usize, &bytes);
        take_off(&mut self.out, range);
    }

    fn append(&mut self, bytes: &[u8]) -> Result<(), Failed>
        requires sum { (state_of self.old).end + length bytes.now ≤ 2 ^ 63 }
        requires spare { HasSpare (state_of self.old) (length bytes.now) }
        ensures appends { Appends bytes.now (state_of self.old) (state_of self.new) result }
        ensures exact { FailsAsListed self.old self.new result }
        ensures left { OnErr result ((held_of self.new).image ≡ (held_of self.old).image ++ left_of_append self.old.torn bytes.now) }
    {
        if self.tally.count_call() {
            let left = if self.torn {
                &bytes[..bytes.len() / 2]
            } else {
                &[]
            };
            let len = left.len();
            self.log.push(Row::FailedAppend { len }, &[]);
            add_reserved(&mut self.image, left);
            return Err(Failed);
        }
        self.log.push(Row::Append { len: bytes.len() }, bytes);
        add_reserved(&mut self.image, bytes);
        Ok(())
    }

    fn write_at(&mut self, at: u64, bytes: &[u8]) -> Result<(), Failed>
        requires inside { at + length bytes.now ≤ (state_of self.old).end }
        requires outside { All (IsApart at (length bytes.now)) (state_of self.old).out }
        requires spare { HasSpare (state_of self.old) (length bytes.now) }
        ensures writes { Writes at bytes.now (state_of self.old) (state_of self.new) result }
        ensures exact { FailsAsListed self.old self.new result }
    {
        let len = bytes.len();
        if self.tally.count_call() {
            self.log.push(Row::FailedWrite { at, len }, bytes);
            return Err(Failed);
        }
        self.log.push(Row::Write { at, len }, bytes);
        put_over(&mut self.image, at as usize, bytes);
        Ok(())
    }

    fn sync(&mut self) -> Result<(), Failed>
        requires { HasSpare (state_of self.old) 0 }
        ensures syncs { Syncs (state_of self.old) (state_of self.new) result }
        ensures exact { FailsAsListed self.old self.new result }
    {
        if self.tally.count_call() {
            return Err(Failed);
        }
        self.log.push(Row::Sync, &[]);
        Ok(())
    }
}
