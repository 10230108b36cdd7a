//! How a committer ends whose contexts were joined.

ghost use Rattle.nt_commit.specs.Holds.{IsFirstOf, HaveAllLeft};
ghost use Rattle.nt_contexts.specs.Ending.{HasEnded};

use nt_book::Book;
use nt_commit::{Committer, Locked};
use nt_dealing::{
    commits_are_dealt, committed_chunks_fit, histories_fill, next_chunks_pass_limits_of_all,
};
use nt_outside::Disk;
use nt_turn::Pass;

/// Ends the committer: disk and book are what the contexts made of them.
pub(crate) fn end<D: Disk>(committer: Committer<D>, first: Pass<Locked<D>>) -> (D, Book)
    requires first { IsFirstOf committer first }
    requires left { HaveAllLeft first }
    ensures { HasEnded D.state committer.birth first result.0 result.1 }
{
    commits_are_dealt::<D>();
    histories_fill::<D>();
    next_chunks_pass_limits_of_all::<D>();
    committed_chunks_fit::<D>();
    let (disk, book) = committer.finish(first);
    book.keeps();
    let _faults = disk.faults();
    (disk, book)
}
