//! A file that is begun, and filled by contexts.

ghost use Rattle.std.specs.Prelude.{◌<◌, ◌≤◌, length, map};
ghost use Rattle.nt_types.specs.Views.{members_view};
ghost use Rattle.nt_outside.specs.Held.{nothing_held};
ghost use Rattle.nt_store.specs.Leaving.{MayWriteFile};
ghost use Rattle.nt_store.specs.Filling.{FillsFile};

use crate::error::StoreError;
use crate::laws::crashes_leave_chunks_or_none;
use crate::settings::Settings;
use nt_book::Book;
use nt_close::begin;
use nt_contexts::{Ended, Shared, run_contexts};
use nt_dealing::whole_files_are_longest;
use nt_outside::{Disk, Gate, Source};
use nt_schema::Schema;
use nt_types::Fields;
use std::sync::Wait;
use std::thread::Threads;

/// Begins the file of these fields on an empty disk, and runs a context for each source beside the others, which writes the chunks of its
/// text. The file is still to be closed, by the book and the schema that are given. The sources come back in their order.
///
/// # Errors
///
/// `Line` is the first bad line of a source, `Limit` a limit that the file would pass. `Outside` comes only where the disk or a source
/// failed. `Schema` never comes.
pub fn fill_file<R, D, S, G>(
    rt: &R,
    disk: D,
    fields: &Fields,
    sources: Vec<S>,
    settings: &Settings<'_, G>,
) -> (D, Vec<S>, Result<(Book, Schema), StoreError>)
where
    R: Threads + Wait + Sync,
    D: Disk + Send,
    D::Pen: Send,
    D::Ext: Send,
    S: Source + Send,
    G: Gate + Sync,
    requires may { MayWriteFile (members_view fields.now) (length sources.items) (D.state disk) }
    requires workers { (0 < settings.now.workers) × (settings.now.workers ≤ 64) }
    ensures { FillsFile (members_view fields.now) settings.now.params.now nothing_held (map S.state sources.items)
        (map S.state result.1.items) (D.state disk) (D.state result.0) result.2 }
{
    let mut disk = disk;
    crashes_leave_chunks_or_none();
    whole_files_are_longest();
    let (book, schema) = match begin(settings.alloc, &mut disk, fields, settings.params) {
        Ok(begun) => begun,
        Err(error) => return (disk, sources, Err(StoreError::from(error))),
    };
    let shared = Shared {
        alloc: settings.alloc,
        schema: &schema,
        fields,
        params: settings.params,
        gate: settings.gate,
        workers: settings.workers,
    };
    let Ended {
        disk,
        book,
        sources,
        ended,
    } = run_contexts(rt, disk, book, sources, &shared);
    book.keeps();
    match ended {
        Ok(()) => (disk, sources, Ok((book, schema))),
        Err(error) => (disk, sources, Err(StoreError::from(error))),
    }
}
