//! What holds of each writer.

ghost use Rattle.nt_book.specs.Kept.{IsBookKept};
ghost use Rattle.nt_seq.specs.Standing.{IsSequential};

use crate::writer::SeqWriter;
use nt_outside::Disk;

impl<D: Disk> SeqWriter<D> {
    /// What holds of it whatever was done with it.
    pub fn keeps(&self)
        ensures writer { IsSequential D.state self.now }
        ensures book { IsBookKept self.now.book }
    {
        self.book.keeps();
    }
}
