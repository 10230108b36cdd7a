//! One cluster that is copied, and all those of one file.

ghost use Rattle.std.specs.Prelude.{◌≡◌, ◌<◌, ℕ, length, OnOk};
ghost use Rattle.nt_outside.specs.Disk.{DiskState};
ghost use Rattle.nt_grammar.specs.Table.{Table};
ghost use Rattle.nt_book.specs.declared.params.Params.{Params};
ghost use Rattle.nt_merge.specs.Copying.{MayCopy, LeavesLoaded, LeavesCluster, ServesCopy, MayCopyInto, IsJoinable, CopiesFile, CopyGoesOn};
ghost use Rattle.nt_merge.specs.Merging.{IsMerging};

use crate::copy_error::CopyError;
use nt_append::{append_image, appended_parts_go_on};
use nt_book::Book;
use nt_commit::CommitError;
use nt_copying::{copied_image, keyed_images_are_copies, loaded_pages_are_stored};
use nt_merge_limits::merges_pass_what_their_fronts_pass;
use nt_outside::{Disk, ReadAt};
use nt_reader::Reader;
use nt_seq::crashes_leave_closed_or_unfinished;
use nt_view::ClusterBytes;
use std::alloc::{AllocError, Global};
use std::mem;

/// The book of the file that clusters are copied into, and the memory for the next one.
#[derive(Drop)]
pub(crate) struct Target {
    pub(crate) book: Book,
    pub(crate) columns: u32,
    pub(crate) pages: ClusterBytes,
    pub(crate) image: Vec<u8>,
}

/// Puts a copy of a loaded cluster of so many entries behind the others.
fn put_copy<D: Disk>(
    alloc: Global,
    disk: &mut D,
    target: &mut Target,
    loaded: &ClusterBytes,
    entries: u64,
) -> Result<(), CommitError>
    requires { MayCopy loaded.now target.old.columns (D.state disk.old) target.old.book }
    ensures columns { target.new.columns ≡ target.old.columns }
    ensures left { LeavesLoaded loaded.now target.old.columns entries (D.state disk.old) (D.state disk.new)
        target.old.book target.new.book result }
{
    appended_parts_go_on();
    target.book.keeps();
    let memory = mem::replace(&mut target.image, Vec::new(alloc));
    let mut image = match copied_image(memory, alloc, loaded, target.columns, entries) {
        Ok(image) => image,
        Err(AllocError) => return Err(CommitError::Memory),
    };
    match append_image(alloc, disk, &mut target.book, &mut image) {
        Ok(()) => {
            target.book.keeps();
            target.image = image.bytes.into_vec();
            Ok(())
        }
        Err(error) => Err(error),
    }
}

/// Loads a cluster of a file, and puts its copy behind the others.
fn copy_cluster<F: ReadAt, D: Disk>(
    alloc: Global,
    file: &mut F,
    reader: &Reader,
    k: u32,
    disk: &mut D,
    target: &mut Target,
) -> Result<(), CopyError>
    requires there { k < length reader.now.clusters }
    requires may { MayCopyInto target.old.columns (D.state disk.old) target.old.book }
    ensures served { ServesCopy (F.state file.old) (F.state file.new) (D.state disk.old) (D.state disk.new) result }
    ensures columns { target.new.columns ≡ target.old.columns }
    ensures left { LeavesCluster (F.state file.old).bytes reader.now k target.old.columns (D.state disk.old) (D.state disk.new)
        target.old.book target.new.book result }
{
    loaded_pages_are_stored();
    keyed_images_are_copies();
    let memory = mem::replace(&mut target.pages, ClusterBytes::new(alloc));
    let cluster = match reader.cluster_in(alloc, file, k, memory) {
        Ok(cluster) => cluster,
        Err(failure) => return Err(CopyError::Read(failure)),
    };
    match put_copy(alloc, disk, target, cluster.columns(), cluster.entries()) {
        Ok(()) => {
            target.pages = cluster.into_columns();
            Ok(())
        }
        Err(error) => Err(CopyError::Commit(error)),
    }
}

/// Copies the clusters of a file, one after the other.
pub(crate) fn copy_file<F: ReadAt, D: Disk>(
    alloc: Global,
    file: &mut F,
    reader: &Reader,
    disk: &mut D,
    target: &mut Target,
) -> Result<(), CopyError>
    requires { MayCopyInto target.old.columns (D.state disk.old) target.old.book }
    ensures served { ServesCopy (F.state file.old) (F.state file.new) (D.state disk.old) (D.state disk.new) result }
    ensures may { OnOk result (MayCopyInto target.new.columns (D.state disk.new) target.new.book) }
    ensures going { (t : Table) (p : Params) (given : DiskState) → IsJoinable t reader.now.table
        → IsMerging t p given (D.state disk.old) target.old.book → CopyGoesOn t p given (D.state disk.new) target.new.book result }
    ensures told { CopiesFile (F.state file.old).bytes reader.now (D.state disk.old) (D.state disk.new)
        target.old.book target.new.book result }
{
    crashes_leave_closed_or_unfinished();
    merges_pass_what_their_fronts_pass();
    for k in 0..reader.clusters() {
        target.book.keeps();
        match copy_cluster(alloc, file, reader, k, disk, target) {
            Ok(()) => {}
            Err(error) => return Err(error),
        }
    }
    Ok(())
}
