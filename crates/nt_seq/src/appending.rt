//! The next cluster of a writer, put behind the others.

ghost use Rattle.std.specs.Prelude.{◌≡◌, ◌≢◌, false, length, Err, OnOk, IsErrOf};
ghost use Rattle.nt_book.specs.Books.{book_clusters, book_end};
ghost use Rattle.nt_book.specs.Limiting.{limit_error_with};
ghost use Rattle.nt_commit.specs.declared.error.CommitError.{CommitError};
ghost use Rattle.nt_commit.specs.declared.error.CommitError.TheVariants.{Memory, Fault};
ghost use Rattle.nt_commit.specs.Appending.{due_bytes};
ghost use Rattle.nt_commit.specs.Claims.{limit_answered};
ghost use Rattle.nt_append.specs.Appending.{MayAppend, KeepsDiskAndBook, FailsOnDisk};
ghost use Rattle.nt_seq.specs.Beside.{AppendsNext};

use nt_append::{append_image, appended_parts_go_on};
use nt_book::Book;
use nt_commit::CommitError;
use nt_outside::Disk;
use nt_pages::ClusterImage;
use std::alloc::Global;

/// Writes an image as the next cluster, behind the page list that is due, so that the parts of the file go on by both. Where the disk
/// fails what was alive isn't any more.
pub(crate) fn append_next<D: Disk>(
    alloc: Global,
    disk: &mut D,
    book: &mut Book,
    image: &mut ClusterImage,
    alive: &mut bool,
) -> Result<(), CommitError>
    requires { MayAppend (D.state disk.old) book.old image.old }
    ensures ok { OnOk result (AppendsNext image.old (D.state disk.old) (D.state disk.new) book.old book.new
        × (alive.new ≡ alive.old)) }
    ensures limits { result ≢ Err Memory → limit_error_with book.old.limits (book_end book.old)
        (length (book_clusters book.old)) image.old.meta.len (length (due_bytes book.old)) ≡ limit_answered result }
    ensures kept { (e : CommitError) → result ≡ Err e → e ≢ Fault
        → KeepsDiskAndBook (D.state disk.old) (D.state disk.new) book.old book.new × (alive.new ≡ alive.old) }
    ensures fault { IsErrOf result Fault
        → FailsOnDisk image.old (D.state disk.old) (D.state disk.new) book.old book.new
        × (alive.new ≡ false) }
{
    appended_parts_go_on();
    book.keeps();
    match append_image(alloc, disk, book, image) {
        Ok(()) => {
            book.keeps();
            Ok(())
        }
        Err(CommitError::Fault) => {
            *alive = false;
            Err(CommitError::Fault)
        }
        Err(error) => Err(error),
    }
}
