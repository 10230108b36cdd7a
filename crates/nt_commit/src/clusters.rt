//! How a cluster is committed while the turn is held.

ghost use Rattle.std.specs.Prelude.{◌≡◌, ◌<◌, ◌≤◌, ◌-◌, ◌++◌, ◌∷◌, [], false, length, None, if◌then◌else◌, is_ok, OnOk, OnErr};
ghost use Rattle.nt_machine.specs.Legal.{ranges_end};
ghost use Rattle.nt_book.specs.Books.{book_ranges, book_end};
ghost use Rattle.nt_commit.specs.Appending.{AppendsCluster, FitsCluster, IsEnterable};
ghost use Rattle.nt_commit.specs.Claims.{reserving_entry};
ghost use Rattle.nt_commit.specs.Holds.{IsCommittable, IsLater, MayReserveIn, Commits};

use crate::claim::Claim;
use crate::error::CommitError;
use crate::locked::Locked;
use nt_book::{Book, ClusterMeta};
use nt_outside::{Disk, Refused};
use std::alloc::AllocError;

/// Enters a cluster at the end of a book, or a range for it where clusters are staged.
fn enter(book: &mut Book, meta: &mut ClusterMeta) -> u32
    requires { IsEnterable book.old meta.old }
    ensures number { result ≡ length (book_ranges book.old) }
    ensures behind { ranges_end book.old.begin (book_ranges book.old) ≤ book_end book.old }
    ensures book { book.new ≡ record book.old {
      history = book.old.history ++ reserving_entry book.old.staged result (book_end book.old) meta.old ∷ [];
      spare = book.old.spare - 1;
      ready = book.new.ready;
    } }
    ensures moved { meta.new ≡ record meta.old { pages = [] } }
{
    if book.staged() {
        book.reserve(meta)
    } else {
        book.append(meta)
    }
}

impl<D: Disk> Locked<D> {
    /// Makes room in the book for a cluster, its events, and the page list that is due.
    fn make_room(&mut self) -> Result<(), AllocError>
        ensures step { IsLater D.state self.old self.new }
        ensures same { self.new ≡ record self.old {
          book = record self.old.book { spare = self.new.book.spare };
        } }
        ensures ok { OnOk result (0 < self.new.book.spare) }
        ensures err { OnErr result (self.new ≡ self.old) }
    {
        self.book.room()
    }

    /// Reserves a range for a cluster at the end of the file, and enters it in the book, as a staged
    /// one or not. A fault of the disk is entered too.
    fn append_cluster(&mut self, meta: &mut ClusterMeta) -> Result<Claim<D::Ext>, CommitError>
        requires meta { IsCommittable self.old.birth meta.old }
        requires fits { FitsCluster self.old.book meta.old }
        ensures step { IsLater D.state self.old self.new }
        ensures appends { AppendsCluster D.state self.old.birth.staged D.Ext.state meta.old self.old self.new result }
        ensures meta { meta.new ≡ (if is_ok result then record meta.old { pages = [] } else meta.old) }
    {
        self.book.keeps();
        match self.disk.reserve(meta.len) {
            Ok(ext) => {
                let cluster = enter(&mut self.book, meta);
                Ok(Claim { cluster, ext })
            }
            Err(Refused::Memory) => Err(CommitError::Memory),
            Err(Refused::Failed) => {
                let faults = self.disk.faults();
                self.book.fault(meta.context, faults);
                Err(CommitError::Fault)
            }
        }
    }

    /// Appends the page list that is due, reserves a range for a cluster behind it, and enters both
    /// in the book. Of a staged book no list is due. A fault of the disk is entered too.
    pub(crate) fn commit(&mut self, meta: &mut ClusterMeta) -> Result<Claim<D::Ext>, CommitError>
        requires meta { IsCommittable self.old.birth meta.old }
        requires before { MayReserveIn D.state self.old meta.old.context }
        ensures step { IsLater D.state self.old self.new }
        ensures commits { Commits D.state self.old.birth.staged D.Ext.state meta.old self.old self.new result }
        ensures meta { meta.new ≡ (if is_ok result then record meta.old { pages = [] } else meta.old) }
    {
        self.book.keeps();
        let Ok(list) = self.make_list() else {
            return Err(CommitError::Memory);
        };
        self.book.check_with(meta.len, list.len() as u64)?;
        if self.make_room().is_err() {
            return Err(CommitError::Memory);
        }
        self.append_due(meta.context, list)?;
        self.append_cluster(meta)
    }
}
