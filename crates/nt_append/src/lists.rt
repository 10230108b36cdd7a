//! The page list that is due, put behind the clusters.

ghost use Rattle.std.specs.Prelude.{◌≡◌, OnOk, OnErr, IfOk};
ghost use Rattle.nt_commit.specs.Appending.{IsDueList, due_bytes};
ghost use Rattle.nt_append.specs.Appending.{MayAppendList, AppendsDue, FailsAtList};

use nt_book::Book;
use nt_commit::{blob_at, link_of};
use nt_meta::due_list;
use nt_outside::{Disk, Failed};
use std::alloc::{AllocError, Global};

/// The page list that is due, behind room for its key; nothing where none is due.
pub(crate) fn make_list(alloc: Global, book: &Book) -> Result<Vec<u8>, AllocError>
    ensures { IfOk result (λ list. list.items ≡ due_bytes book.now) }
{
    if book.due() {
        due_list(alloc, book)
    } else {
        Ok(Vec::new(alloc))
    }
}

/// Appends a page list with its key, and notes it. If the disk fails the book is torn there, and
/// the fault is entered for the context.
fn append_list<D: Disk>(
    disk: &mut D,
    book: &mut Book,
    list: Vec<u8>,
    context: u32,
) -> Result<(), Failed>
    requires may { MayAppendList (D.state disk.old) book.old list.items }
    requires due { IsDueList book.old list.items }
    ensures ok { OnOk result (AppendsDue (D.state disk.old) (D.state disk.new) book.old book.new) }
    ensures err { OnErr result (FailsAtList context (D.state disk.old) (D.state disk.new) book.old book.new) }
{
    book.keeps();
    let start = disk.end();
    let len = list.len() as u64;
    let blob = blob_at(list, start);
    match disk.append(blob.as_slice()) {
        Ok(()) => {
            book.note_list(link_of(start, len), len);
            Ok(())
        }
        Err(Failed) => {
            let faults = disk.faults();
            book.tear(disk.end(), faults);
            book.fault(context, faults);
            Err(Failed)
        }
    }
}

/// Appends the page list that is due, if one is: if none is there are no bytes of it.
pub(crate) fn append_due<D: Disk>(
    disk: &mut D,
    book: &mut Book,
    list: Vec<u8>,
    context: u32,
) -> Result<(), Failed>
    requires { MayAppendList (D.state disk.old) book.old list.items }
    ensures ok { OnOk result (AppendsDue (D.state disk.old) (D.state disk.new) book.old book.new) }
    ensures err { OnErr result (FailsAtList context (D.state disk.old) (D.state disk.new) book.old book.new) }
{
    if list.is_empty() {
        return Ok(());
    }
    append_list(disk, book, list, context)
}
