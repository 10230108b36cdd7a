//! The page list that a book is due.

ghost use Rattle.std.specs.Prelude.{◌≡◌, ◌++◌, true, replicate, IfOk};
ghost use Rattle.nt_book.specs.Books.{is_due};
ghost use Rattle.nt_container.specs.Lengths.{blob_key_len};
ghost use Rattle.nt_pagelists.specs.Due.{due_object};

use crate::writing_list::write_page_list;
use nt_book::Book;
use std::alloc::{AllocError, Global};

/// The bytes of a blob's key.
const KEY: usize = 42;

/// An object behind room for its key.
fn behind_key_room(alloc: Global, object: &[u8]) -> Result<Vec<u8>, AllocError>
    ensures { IfOk result (λ list. list.items ≡ replicate blob_key_len 0 ++ object.now) }
{
    let mut list: Vec<u8> = vec![in alloc; 0; KEY]?;
    list.extend_from_slice(object)?;
    Ok(list)
}

/// The page list of the first full group that has none, in its envelope, behind 42 bytes of room for
/// the key of its blob.
pub fn due_list(alloc: Global, book: &Book) -> Result<Vec<u8>, AllocError>
    requires { is_due book.now ≡ true }
    ensures { IfOk result (λ list. list.items ≡ replicate blob_key_len 0 ++ due_object book.now) }
{
    book.keeps();
    match book.group() {
        Some((most, header_sum)) => {
            let to = book.clusters();
            let list = write_page_list(alloc, book, to - most, to, header_sum)?;
            behind_key_room(alloc, &list)
        }
        None => unreachable!(),
    }
}
