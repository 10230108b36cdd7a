//! A file that is written from texts.

ghost use Rattle.std.specs.Prelude.{◌<◌, ◌≤◌, length, map};
ghost use Rattle.nt_types.specs.Views.{members_view};
ghost use Rattle.nt_outside.specs.Held.{nothing_held};
ghost use Rattle.nt_book.specs.Ranges.{IsFromTo};
ghost use Rattle.nt_store.specs.Writing.{FailsOnEither, AsksNothing, TakesTextsBack};
ghost use Rattle.nt_store.specs.Filling.{MayClose};
ghost use Rattle.nt_store.specs.Leaving.{MayWriteFile, WritesFile, FinishesFile};
ghost use Rattle.nt_store.specs.Stored.{Stores};

use crate::closing::close_file;
use crate::error::StoreError;
use crate::filling::fill_file;
use crate::orders::order_line;
use crate::settings::Settings;
use crate::texts::{open_texts, read_schema, return_texts};
use nt_book::{Book, Params};
use nt_outside::{Gate, Host, Stream, print_all};
use nt_schema::Schema;
use nt_types::Fields;
use std::alloc::Global;
use std::sync::Wait;
use std::thread::Threads;

/// The names of the texts that are read, and of the file that is written.
#[derive(Clone, Copy)]
pub struct Names<'a> {
    pub out: &'a str,
    pub schema: &'a str,
    pub inputs: &'a [&'a str],
}

/// Tells the order of the clusters on out, and then closes their file.
fn finish<H: Host>(
    alloc: Global,
    host: &mut H,
    disk: &mut H::Out,
    book: &Book,
    schema: &Schema,
    params: &Params,
) -> Result<(), StoreError>
    requires may { MayClose (H.Out.state disk.old) book.now schema.now params.now }
    ensures file { FinishesFile schema.now params.now book.now (H.state host.old) (H.state host.new)
        (H.Out.state disk.old) (H.Out.state disk.new) result }
    ensures cause { FailsOnEither (H.Out.state disk.new) (H.state host.old) (H.state host.new) result }
    ensures rest { AsksNothing (H.state host.old) (H.state host.new) }
{
    let order = book.order(alloc)?;
    let line = order_line(alloc, &order)?;
    print_all(host, Stream::ToOut, &line)?;
    close_file(alloc, disk, book, schema, params)
}

/// Writes the file of these fields and texts on an empty disk. The texts go back to the host, and the disk to the caller.
fn write_file<R, H, G>(
    rt: &R,
    host: &mut H,
    disk: H::Out,
    fields: &Fields,
    texts: Vec<H::Text>,
    settings: &Settings<'_, G>,
) -> (H::Out, Result<(), StoreError>)
where
    R: Threads + Wait + Sync,
    H: Host,
    H::Text: Send,
    H::Out: Send,
    <H::Out as nt_outside::Disk>::Pen: Send,
    <H::Out as nt_outside::Disk>::Ext: Send,
    G: Gate + Sync,
    requires may { MayWriteFile (members_view fields.now) (length texts.items) (H.Out.state disk) }
    requires settings { (0 < settings.now.workers) × (settings.now.workers ≤ 64) }
    ensures file { WritesFile (members_view fields.now) settings.now.params.now (map H.Text.state texts.items) nothing_held
        (H.state host.old) (H.state host.new) (H.Out.state disk) (H.Out.state result.0) result.1 }
    ensures cause { FailsOnEither (H.Out.state result.0) (H.state host.old) (H.state host.new) result.1 }
    ensures rest { TakesTextsBack (length texts.items) (H.state host.old) (H.state host.new) }
{
    let (disk, texts, filled) = fill_file(rt, disk, fields, texts, settings);
    return_texts(host, texts);
    match filled {
        Ok((book, schema)) => {
            let mut disk = disk;
            let (alloc, params) = (settings.alloc, settings.params);
            let finished = finish(alloc, host, &mut disk, &book, &schema, params);
            (disk, finished)
        }
        Err(error) => (disk, Err(error)),
    }
}

/// Writes a file from texts of a host: reads the schema text, opens the inputs in order, makes the disk, begins the file, runs a
/// context for each input, as many beside each other as there are workers, tells the order of their clusters on out, and closes the file.
///
/// # Errors
///
/// `Schema` and `Line` name the first fault of a text, `Limit` a limit that the file would pass. After these and after `Memory` the
/// file can't pass for finished. `Outside` comes only where the host's count rose.
pub fn store<R, H, G>(
    rt: &R,
    host: &mut H,
    names: Names<'_>,
    settings: &Settings<'_, G>,
) -> Result<(), StoreError>
where
    R: Threads + Wait + Sync,
    H: Host,
    H::Text: Send,
    H::Out: Send,
    <H::Out as nt_outside::Disk>::Pen: Send,
    <H::Out as nt_outside::Disk>::Ext: Send,
    G: Gate + Sync,
    requires inputs { IsFromTo 1 64 (length names.inputs.now) }
    requires workers { (0 < settings.now.workers) × (settings.now.workers ≤ 64) }
    ensures { Stores names.entry.out.now names.entry.schema.now (map (λ name. name.now) names.entry.inputs.now) settings.now.params.now
        (H.state host.old) (H.state host.new) result }
{
    let alloc = settings.alloc;
    let fields = read_schema(alloc, host, names.schema)?;
    let texts = open_texts(alloc, host, names.inputs)?;
    match host.create(names.out) {
        Ok(disk) => {
            let (disk, written) = write_file(rt, host, disk, &fields, texts, settings);
            host.return_disk(disk);
            written
        }
        Err(refused) => {
            return_texts(host, texts);
            Err(StoreError::from(refused))
        }
    }
}
