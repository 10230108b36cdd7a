//! The file of events that are made, on a disk.

ghost use Rattle.std.specs.Prelude.{◌<◌, ◌≤◌, map};
ghost use Rattle.nt_types.specs.Views.{members_view};
ghost use Rattle.nt_draws.specs.declared.making.Making.{Making as MakingData};
ghost use Rattle.nt_draws.specs.Source.{state_of};
ghost use Rattle.nt_store.specs.Filling.{MayClose};
ghost use Rattle.nt_generate.specs.Writing.{MayWriteMade, WritesMade, ClosesMade};

use crate::error::{GenerateError, unwritten};
use crate::laws::made_texts_are_read;
use nt_book::{Book, Params};
use nt_draws::{EventSource, Making};
use nt_outside::{Disk, Gate};
use nt_schema::Schema;
use nt_store::{Settings, close_file, fill_file};
use nt_types::Fields;
use std::alloc::Global;
use std::sync::Wait;
use std::thread::Threads;

/// Closes the file, and says in which order its clusters were committed.
fn close_made<D: Disk>(
    alloc: Global,
    disk: &mut D,
    book: &Book,
    schema: &Schema,
    params: &Params,
) -> Result<Vec<u32>, GenerateError>
    requires { MayClose (D.state disk.old) book.now schema.now params.now }
    ensures { (m : MakingData) → ClosesMade (λ order. order.items) schema.now params.now m book.now
        (D.state disk.old) (D.state disk.new) result }
{
    let order = book.order(alloc)?;
    made_texts_are_read();
    match close_file(alloc, disk, book, schema, params) {
        Ok(()) => Ok(order),
        Err(error) => Err(unwritten(error)),
    }
}

/// Writes the file of events that are made on an empty disk: a context for each text, beside the others. It gives the order in which their
/// clusters were committed.
pub(crate) fn write_made<R, D, G>(
    rt: &R,
    disk: D,
    fields: &Fields,
    making: &Making,
    sources: Vec<EventSource>,
    settings: &Settings<'_, G>,
) -> (D, Result<Vec<u32>, GenerateError>)
where
    R: Threads + Wait + Sync,
    D: Disk + Send,
    D::Pen: Send,
    D::Ext: Send,
    G: Gate + Sync,
    requires may { MayWriteMade (members_view fields.now) making.now (map state_of sources.items) (D.state disk) }
    requires workers { (0 < settings.now.workers) × (settings.now.workers ≤ 64) }
    ensures { WritesMade (λ order. order.items) settings.now.params.now making.now (D.state disk) (D.state result.0) result.1 }
{
    made_texts_are_read();
    let (disk, _sources, filled) = fill_file(rt, disk, fields, sources, settings);
    match filled {
        Ok((book, schema)) => {
            let mut disk = disk;
            let (alloc, params) = (settings.alloc, settings.params);
            let closed = close_made(alloc, &mut disk, &book, &schema, params);
            (disk, closed)
        }
        Err(error) => (disk, Err(unwritten(error))),
    }
}
