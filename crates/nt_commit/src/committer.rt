//! The committer, from its disk and book to the end.

ghost use Rattle.std.specs.Prelude.{◌≡◌, ◌≤◌, [], IfOk, IfErr};
ghost use Rattle.nt_turn.specs.Pass.{Closes, first_pass};
ghost use Rattle.nt_commit.specs.Ending.{LeavesDisk};
ghost use Rattle.nt_commit.specs.Holds.{IsFirstOf, HaveAllLeft};
ghost use Rattle.nt_commit.specs.Locked.{IsInStep, IsNewBookOn, birth_of, birth_with, context_of, history_of_locked, locked_by};

use crate::locked::Locked;
use nt_book::{Book, ClusterMeta};
use nt_cuts::{histories_leave_logs_shut, shut_logs_leave_unfinished};
use nt_outside::Disk;
use nt_turn::{Logged, MOST_SEATS, Pass, Turn};
use std::alloc::{AllocError, Global};
use std::marker::Model;

/// A value which contexts take in turn.
pub struct CommitterOf<V: Logged> {
    pub(crate) turn: Turn<V>,
}

impl<V: Logged> Model for CommitterOf<V> {
    ghost use Rattle.nt_turn.specs.Pass.{TurnState};

    ghost Value = { TurnState V.Birth };

    ghost view = { λ c. c.turn };
}

/// A disk and its book, which contexts take in turn.
pub type Committer<D> = CommitterOf<Locked<D>>;

impl<D: Disk> Committer<D> {
    /// A committer over a disk and its new book, for so many contexts at most, and its first pass.
    /// Without memory both come back.
    pub fn new(
        alloc: Global,
        disk: D,
        book: Book,
        contexts: u32,
    ) -> Result<(Committer<D>, Pass<Locked<D>>), (D, Book, AllocError)>
        requires contexts { (1 ≤ contexts) × (contexts ≤ MOST_SEATS) }
        requires book { IsNewBookOn (D.state disk) book }
        ensures ok { IfOk result (λ t. (t.0.seats ≡ contexts)
            × (t.0.birth ≡ birth_with disk book contexts) × (t.1 ≡ first_pass t.0)) }
        ensures err { IfErr result (λ e. (e.0 ≡ disk) × (e.1 ≡ book)) }
    {
        let locked = Locked::new(alloc, disk, book, contexts);
        match Turn::new(alloc, locked, contexts) {
            Ok((turn, pass)) => Ok((CommitterOf { turn }, pass)),
            Err((locked, error)) => {
                let (disk, book) = locked.into_parts();
                Err((disk, book, error))
            }
        }
    }

    /// Ends the turn, and gives what it locked.
    fn finish_turn(self, first: Pass<Locked<D>>) -> (D, Book)
        requires first { IsFirstOf self first }
        requires left { HaveAllLeft first }
        ensures closes { Closes (history_of_locked D.state) birth_of context_of first (locked_by self.birth result.0 result.1) }
        ensures in_step { IsInStep D.state (locked_by self.birth result.0 result.1) }
        ensures out { (D.state result.0).out ≡ [] }
    {
        let CommitterOf { turn } = self;
        let locked = turn.close(first);
        locked.into_parts()
    }

    /// Ends the committer, once the pass of each context was joined and no range is out. What stands
    /// on the disk then, and in the book, is what one history makes of them. Wherever a crash comes
    /// before that, whatever the contexts did, the file is left unfinished.
    pub fn finish(self, first: Pass<Locked<D>>) -> (D, Book)
        requires first { IsFirstOf self first }
        requires left { HaveAllLeft first }
        ensures closes { Closes (history_of_locked D.state) birth_of context_of first (locked_by self.birth result.0 result.1) }
        ensures in_step { IsInStep D.state (locked_by self.birth result.0 result.1) }
        ensures disk { LeavesDisk D.state (locked_by self.birth result.0 result.1) }
    {
        histories_leave_logs_shut::<ClusterMeta>();
        shut_logs_leave_unfinished();
        self.finish_turn(first)
    }
}
