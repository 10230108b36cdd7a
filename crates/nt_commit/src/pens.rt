//! Pens that come and go while the turn is held.

ghost use Rattle.std.specs.Prelude.{◌≡◌, ◌≤◌, IfOk};
ghost use Rattle.nt_commit.specs.Holds.{IsLater, OpensPen, KeepsHistory};

use crate::locked::Locked;
use nt_outside::{Disk, Refused};

impl<D: Disk> Locked<D> {
    /// A new pen for a context. A fault of the disk is entered in the book as this context's.
    pub(crate) fn open_pen(&mut self, context: u32) -> Result<D::Pen, Refused>
        requires { context ≤ self.old.birth.contexts }
        ensures step { IsLater D.state self.old self.new }
        ensures opens { OpensPen D.state context self.old self.new result }
        ensures new { IfOk result (λ p. (D.Pen.state p).faults ≡ 0) }
    {
        self.book.keeps();
        self.book.room()?;
        match self.disk.pen() {
            Ok(pen) => Ok(pen),
            Err(Refused::Memory) => Err(Refused::Memory),
            Err(Refused::Failed) => {
                let faults = self.disk.faults();
                self.book.fault(context, faults);
                Err(Refused::Failed)
            }
        }
    }

    /// Takes a pen back.
    pub(crate) fn take_pen(&mut self, pen: D::Pen)
        ensures step { IsLater D.state self.old self.new }
        ensures keeps { KeepsHistory D.state self.old self.new }
    {
        self.disk.return_pen(pen);
    }
}
