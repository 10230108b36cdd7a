//! A file that is written.

ghost use Rattle.std.specs.Prelude.{◌≡◌, ◌+◌, ◌^◌, ◌≤◌, length, Some, All, Contains, IfOk};
ghost use Rattle.nt_outside.specs.Reads.{Reads};
ghost use Rattle.nt_outside.specs.Range.{IsApart};
ghost use Rattle.nt_outside.specs.Held.{Held};
ghost use Rattle.nt_outside.specs.Disk.{DiskState, HasSpare, TakesRoom, Appends, Writes, Syncs, MakesPen, TakesPen, Reserves, IsNewExt, Settles};

use crate::fault::{Failed, Refused};
use crate::range::{Ext, Pen};
use std::alloc::AllocError;

/// A disk, by the steps that it took and the bytes that stand there.
pub trait Disk {
    type Ext: Ext;

    type Pen: Pen<Ext = Self::Ext>;

    ghost state: { Self → DiskState };

    /// Its length in bytes.
    fn end(&self) -> u64
        ensures { result ≡ (state self.now).end };

    /// How often a call has failed, those of pens that came back among them.
    fn faults(&self) -> u64
        ensures { result ≡ (state self.now).faults };

    /// A new pen, which has failed never.
    fn pen(&mut self) -> Result<Self::Pen, Refused>
        ensures makes { MakesPen (state self.old) (state self.new) result }
        ensures new { IfOk result (λ p. (Self.Pen.state p).faults ≡ 0) };

    /// Takes a pen back, and its faults in.
    fn return_pen(&mut self, pen: Self::Pen)
        ensures { TakesPen (Self.Pen.state pen).faults (state self.old) (state self.new) };

    /// Takes the memory for so many calls of `append`, `write_at` and `sync`, with so many bytes together.
    fn room(&mut self, steps: u32, bytes: u64) -> Result<(), AllocError>
        ensures { TakesRoom steps bytes (state self.old) (state self.new) result };

    /// Puts a range of so many bytes at the end, which its extent alone may write. It takes the memory that `settle` needs.
    fn reserve(&mut self, len: u64) -> Result<Self::Ext, Refused>
        requires { (state self.old).end + len ≤ 2 ^ 63 }
        ensures reserves { Reserves len (state self.old) (state self.new) result }
        ensures new { IfOk result (λ e. IsNewExt len (state self.old) (Self.Ext.state e)) };

    /// Ends an extent of this disk. Its bytes stand in its range from now on; of one that wasn't filled, unknown ones.
    fn settle(&mut self, ext: Self::Ext)
        requires { Contains (state self.old).out (Self.Ext.state ext).range }
        ensures { Settles (Self.Ext.state ext) (state self.old) (state self.new) };

    /// Adds bytes at the end. After `Failed` some unknown ones stand there, at most as many.
    fn append(&mut self, bytes: &[u8]) -> Result<(), Failed>
        requires sum { (state self.old).end + length bytes.now ≤ 2 ^ 63 }
        requires spare { HasSpare (state self.old) (length bytes.now) }
        ensures { Appends bytes.now (state self.old) (state self.new) result };

    /// Writes over what is there. After `Failed` the place holds anything; a single byte is the old or the new one.
    fn write_at(&mut self, at: u64, bytes: &[u8]) -> Result<(), Failed>
        requires inside { at + length bytes.now ≤ (state self.old).end }
        requires outside { All (IsApart at (length bytes.now)) (state self.old).out }
        requires spare { HasSpare (state self.old) (length bytes.now) }
        ensures { Writes at bytes.now (state self.old) (state self.new) result };

    /// Makes sure that what was written stays, whatever happens.
    fn sync(&mut self) -> Result<(), Failed>
        requires { HasSpare (state self.old) 0 }
        ensures { Syncs (state self.old) (state self.new) result };

    /// What is held is of the disk's length, and the file may read so after its steps.
    ghost told: { (d : Self) (h : Held) → (state d).held ≡ Some h → ((state d).end ≡ length h.image) × Reads h.log h.image };
}
