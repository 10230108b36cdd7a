//! The closing of a file.

ghost use Rattle.std.specs.Prelude.{IfOk};
ghost use Rattle.nt_outside.specs.Held.{BecomesSome};
ghost use Rattle.nt_seq.specs.Writer.{IsClear};
ghost use Rattle.nt_seq.specs.Closing.{AnswersClosing, EndsFile, AreCounts, LeavesFile};

use crate::crashing::crashes_leave_closed_or_unfinished;
use crate::writer::SeqWriter;
use nt_close::{CloseError, close};
use nt_outside::Disk;

impl<D: Disk> SeqWriter<D> {
    /// Closes the file, and gives the disk, with the numbers of clusters and of entries that were
    /// written.
    pub fn close(self) -> (D, Result<(u32, u64), CloseError>)
        requires { IsClear self }
        ensures cause { AnswersClosing self result.1 }
        ensures left { EndsFile D.state self result.0 result.1 }
        ensures counts { IfOk result.1 (λ n. AreCounts D.state self n.0 n.1) }
        ensures file { BecomesSome (D.state self.given).held (D.state result.0).held
            (λ h h'. LeavesFile D.state self h' result.1) }
    {
        let SeqWriter {
            alloc,
            given,
            mut disk,
            book,
            begun,
            schema,
            params,
            columns: _,
            entries: _,
            alive: _,
            spare: _,
            direct: _,
        } = self;
        drop(given);
        drop(begun);
        crashes_leave_closed_or_unfinished();
        book.keeps();
        match close(alloc, &mut disk, &book, &schema, &params) {
            Ok(()) => (disk, Ok((book.clusters(), book.entries()))),
            Err(error) => (disk, Err(error)),
        }
    }
}
