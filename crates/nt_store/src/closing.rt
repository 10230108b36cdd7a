//! A file that was filled, and is closed.

ghost use Rattle.nt_store.specs.Filling.{MayClose, ClosesFile};

use crate::error::StoreError;
use crate::laws::{chunks_in_files, crashes_leave_chunks_or_none};
use nt_book::{Book, Params};
use nt_close::{close, closed_is_finished};
use nt_outside::Disk;
use nt_schema::Schema;
use std::alloc::Global;

/// Closes a file that was filled: the chunks of its texts are stored then.
///
/// # Errors
///
/// `Limit` is a limit that the file would pass. `Outside` comes only where the disk failed. `Schema` and `Line` never come.
pub fn close_file<D: Disk>(
    alloc: Global,
    disk: &mut D,
    book: &Book,
    schema: &Schema,
    params: &Params,
) -> Result<(), StoreError>
    requires may { MayClose (D.state disk.old) book.now schema.now params.now }
    ensures { ClosesFile schema.now params.now book.now (D.state disk.old) (D.state disk.new) result }
{
    chunks_in_files();
    closed_is_finished();
    crashes_leave_chunks_or_none();
    close(alloc, disk, book, schema, params)?;
    Ok(())
}
