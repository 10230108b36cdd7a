//! What the turn locks: a disk and its book.

ghost use Rattle.std.specs.Prelude.{◌≡◌};
ghost use Rattle.nt_commit.specs.Locked.{IsInStep, IsNewBookOn, birth_with, locked_by};

use nt_book::{Book, Limits};
use nt_machine::Entry;
use nt_outside::Disk;
use nt_turn::Logged;
use std::alloc::Global;
use std::collections::LinkedList;
use std::marker::Model;
use std::snapshot::Snapshot;

/// What never changes: the disk as it was begun, the limits of its book, the number of its columns
/// and the first element index of each, how many contexts there are at most, by how many clusters
/// page lists stand beside them, under a header of which checksum, and whether clusters are staged.
/// No value of it is made.
pub struct Birth<D> {
    pub begun: D,
    pub limits: Limits,
    pub columns: u32,
    pub firsts: LinkedList<u64>,
    pub contexts: u32,
    pub group: Option<(u32, u64)>,
    /// Whether clusters are staged.
    pub staged: bool,
}

/// A disk and its book, which are what one history makes of them.
pub struct Locked<D: Disk> {
    pub(crate) disk: D,
    pub(crate) book: Book,
    pub(crate) contexts: u32,
    pub(crate) alloc: Global,
    pub(crate) begun: Snapshot<D>,
}

impl<D: Disk> Model for Locked<D> {
    ghost use Rattle.std.specs.Prelude.{length};
    ghost use Rattle.nt_commit.specs.Locked.{LockedState, IsInStep};

    ghost Value = { LockedState D };

    ghost view = { λ l. record {
      disk = l.disk;
      book = l.book;
      birth = record {
        begun = l.begun.value;
        limits = l.book.limits;
        columns = length l.book.firsts;
        firsts = l.book.firsts;
        contexts = l.contexts;
        group = l.book.group;
        staged = l.book.staged;
      };
    } };

    ghost invariant = { λ l. IsInStep D.state record {
      disk = l.disk;
      book = l.book;
      birth = record {
        begun = l.begun.value;
        limits = l.book.limits;
        columns = length l.book.firsts;
        firsts = l.book.firsts;
        contexts = l.contexts;
        group = l.book.group;
        staged = l.book.staged;
      };
    } };
}

impl<D: Disk> Logged for Locked<D> {
    ghost use Rattle.nt_commit.specs.Locked.{birth_of, context_of, history_of_locked};

    type Entry = Entry<nt_book::ClusterMeta>;

    type Birth = Birth<D>;

    ghost history = { history_of_locked D.state };

    ghost birth = { birth_of };

    ghost context = { context_of };
}

impl<D: Disk> Locked<D> {
    /// A disk as it stands, with its new book.
    pub(crate) fn new(alloc: Global, disk: D, book: Book, contexts: u32) -> Locked<D>
        requires { IsNewBookOn (D.state disk) book }
        ensures { result ≡ locked_by (birth_with disk book contexts) disk book }
    {
        let begun = Snapshot::of(&disk);
        Locked {
            disk,
            book,
            contexts,
            alloc,
            begun,
        }
    }

    /// The disk and the book, as they stand.
    pub(crate) fn into_parts(self) -> (D, Book)
        ensures parts { (result.0 ≡ self.disk) × (result.1 ≡ self.book) }
        ensures in_step { IsInStep D.state self }
    {
        let Locked {
            disk,
            book,
            contexts: _,
            alloc: _,
            begun,
        } = self;
        drop(begun);
        (disk, book)
    }
}
