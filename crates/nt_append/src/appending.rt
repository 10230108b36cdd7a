//! A cluster that is put behind the others.

ghost use Rattle.std.specs.Prelude.{◌≡◌, ◌≢◌, ◌+◌, length, None, Err, OnOk, IfErr, IsErrOf};
ghost use Rattle.nt_book.specs.Books.{book_ranges, book_end};
ghost use Rattle.nt_book.specs.Limiting.{limit_error_with};
ghost use Rattle.nt_commit.specs.declared.error.CommitError.{CommitError};
ghost use Rattle.nt_commit.specs.declared.error.CommitError.TheVariants.{Memory, Fault};
ghost use Rattle.nt_commit.specs.Appending.{due_bytes};
ghost use Rattle.nt_commit.specs.Claims.{limit_answered, limit_in};
ghost use Rattle.nt_append.specs.Appending.{HasMemoryFor, MayAppend, KeepsDiskAndBook, AppendsImage, FailsOnDisk};

use crate::lists::{append_due, make_list};
use crate::ranges::append_range;
use nt_book::Book;
use nt_commit::CommitError;
use nt_outside::{Disk, Failed};
use nt_pages::ClusterImage;
use std::alloc::Global;

/// Takes the memory for the next cluster, of so many bytes, and for the page list before it, of
/// that many, which is 0 where none is due. They pass no limit.
fn make_room<D: Disk>(disk: &mut D, book: &mut Book, len: u64, list: u64) -> Result<(), CommitError>
    ensures ok { OnOk result (HasMemoryFor 2 (list + len) book.new (D.state disk.new)) }
    ensures fits { OnOk result (limit_error_with book.old.limits (book_end book.old)
        (length (book_ranges book.old)) len list ≡ None) }
    ensures kept { KeepsDiskAndBook (D.state disk.old) (D.state disk.new) book.old book.new }
    ensures limits { result ≢ Err Memory → limit_error_with book.old.limits (book_end book.old)
        (length (book_ranges book.old)) len list ≡ limit_answered result }
    ensures err { IfErr result (λ e. e ≢ Fault) }
{
    book.check_with(len, list)?;
    if book.room().is_err() || disk.room(2, list + len).is_err() {
        return Err(CommitError::Memory);
    }
    Ok(())
}

/// Writes an image as the next cluster of a book, with the key of its place, and in front of it the
/// page list that is due, if one is. All memory is taken, and all limits are tested, before the
/// first step of the disk: one for the list, which is noted, and one for the image. If the disk
/// fails in the first the book is torn; after either the fault is entered, and a part of what was to
/// be written may stand behind the end of all that is known. The book's clusters are not staged.
pub fn append_image<D: Disk>(
    alloc: Global,
    disk: &mut D,
    book: &mut Book,
    image: &mut ClusterImage,
) -> Result<(), CommitError>
    requires { MayAppend (D.state disk.old) book.old image.old }
    ensures ok { OnOk result (AppendsImage image.old (D.state disk.old) (D.state disk.new) book.old book.new) }
    ensures limits { result ≢ Err Memory → limit_error_with book.old.limits (book_end book.old)
        (length (book_ranges book.old)) image.old.meta.len (length (due_bytes book.old)) ≡ limit_answered result }
    ensures kept { (e : CommitError) → result ≡ Err e → e ≢ Fault
        → KeepsDiskAndBook (D.state disk.old) (D.state disk.new) book.old book.new }
    ensures fault { IsErrOf result Fault
        → FailsOnDisk image.old (D.state disk.old) (D.state disk.new) book.old book.new }
{
    book.keeps();
    let Ok(list) = make_list(alloc, book) else {
        return Err(CommitError::Memory);
    };
    make_room(disk, book, image.meta.len, list.len() as u64)?;
    match append_due(disk, book, list, image.meta.context) {
        Ok(()) => {}
        Err(Failed) => return Err(CommitError::Fault),
    }
    match append_range(disk, book, image) {
        Ok(()) => Ok(()),
        Err(Failed) => Err(CommitError::Fault),
    }
}
