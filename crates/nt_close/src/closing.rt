//! How a file is closed.

ghost use Rattle.std.specs.Prelude.{OnOk};
ghost use Rattle.nt_close.specs.Closing.{IsClosable, ClosesOnDisk};
ghost use Rattle.nt_close.specs.Crashes.{CrashesByAnswer};
ghost use Rattle.nt_close.specs.Unpublished.{NoneUnpublished};

use crate::damage::refuse_damaged;
use crate::ending::ending_of;
use crate::error::CloseError;
use crate::front::front_of;
use crate::steps::write_end;
use nt_book::{Book, Params};
use nt_outside::Disk;
use nt_schema::Schema;
use std::alloc::Global;

/// Does what `close` does.
fn take_steps<D: Disk>(
    alloc: Global,
    disk: &mut D,
    book: &Book,
    schema: &Schema,
    params: &Params,
) -> Result<(), CloseError>
    requires { IsClosable (D.state disk.old) book.now schema.now params.now }
    ensures closes { ClosesOnDisk schema.now params.now book.now (D.state disk.old) (D.state disk.new) result }
    ensures published { OnOk result (NoneUnpublished book.now) }
{
    book.keeps();
    refuse_damaged(book)?;
    let ending = ending_of(alloc, book, schema, params)?;
    disk.room(5, ending.tail.len() as u64 + 226)?;
    let front = front_of(&ending.fields);
    write_end(disk, &ending.tail, &front)?;
    Ok(())
}

/// Closes the file of a schema whose ranges and page lists are those of a book: the page lists that
/// aren't noted, which are all of them where clusters are staged, footer, anchor and the lists of
/// keys and of free pieces behind the ranges, file header and directory behind the first byte, and
/// that byte once all the rest stays. All memory is taken, and all limits are tested, before the
/// first of these steps. After a refusal the first byte is what it was, but for a fault of its own
/// write or of the sync behind it.
pub fn close<D: Disk>(
    alloc: Global,
    disk: &mut D,
    book: &Book,
    schema: &Schema,
    params: &Params,
) -> Result<(), CloseError>
    requires { IsClosable (D.state disk.old) book.now schema.now params.now }
    ensures closes { ClosesOnDisk schema.now params.now book.now (D.state disk.old) (D.state disk.new) result }
    ensures published { OnOk result (NoneUnpublished book.now) }
    ensures crash { CrashesByAnswer params.now.staged schema.now book.now params.now.group
        (D.state disk.old).held (D.state disk.new).held result }
{
    book.keeps();
    take_steps(alloc, disk, book, schema, params)
}
