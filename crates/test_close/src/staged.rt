//! Staged files: contexts fill ranges, and each publishes all of its ranges together.

ghost use Rattle.std.specs.Prelude.{◌≡◌, ◌∷◌, ◌++◌, ◌<◌, ◌≤◌, ◌^◌, [], length, OnOk};
ghost use Rattle.nt_types.specs.Rules.{AreFields};
ghost use Rattle.nt_types.specs.Views.{members_view};
ghost use Rattle.nt_outside.specs.Held.{WhereHeld, nothing_held};
ghost use Rattle.nt_memory.specs.Disk.{state_of};
ghost use Rattle.nt_machine.specs.Deal.{times};
ghost use Rattle.nt_machine.specs.History.{publishers_of};
ghost use Rattle.nt_book.specs.Pages.{IsPaged};
ghost use Rattle.nt_schema.specs.Whole.{AreWhole};
ghost use Rattle.nt_close.specs.Unpublished.{IsAllUnpublished};
ghost use Rattle.test_close.specs.Notes.{HasNotes, IsAllFilled, KeepsNotes};

use crate::files::{End, Shape, blob_of, close_at, meta_of, params_of};
use crate::lists::make_room;
use nt_book::{Book, ClusterMeta, Params};
use nt_close::begin;
use nt_memory::{MemDisk, MemHost};
use nt_outside::{Disk, Host, Pen};
use nt_schema::Schema;
use nt_types::{Fields, parse_schema};
use std::alloc::Global;
use std::test::Fail;

/// Puts the blob of a page behind all that stands, in a range of its own.
fn write_range(alloc: Global, disk: &mut MemDisk, page: &[u8]) -> Result<(), Fail>
    requires place { (state_of disk.old).end ≤ 2 ^ 56 }
    requires page { length page.now < 8000 }
    requires out { (state_of disk.old).out ≡ [] }
    ensures { OnOk result ((state_of disk.new).out ≡ []) }
{
    let blob = blob_of(alloc, disk.end(), page)?;
    let mut pen = disk.pen()?;
    let mut range = disk.reserve(blob.len() as u64)?;
    pen.fill(&mut range, &blob)?;
    disk.settle(range);
    disk.return_pen(pen);
    Ok(())
}

/// Reserves the next range of a book for a context, and hands it back filled.
fn enter_range(book: &mut Book, meta: &mut ClusterMeta) -> Result<(), Fail>
    requires unpublished { IsAllUnpublished book.old }
    requires paged { IsPaged meta.old }
    requires lists { length meta.old.pages ≡ length book.old.firsts }
    ensures unpublished { OnOk result (IsAllUnpublished book.new) }
    ensures notes { OnOk result (KeepsNotes book.old book.new) }
{
    book.check(meta.len)?;
    make_room(book)?;
    book.keeps();
    let context = meta.context;
    let range = book.reserve(meta);
    book.settle(range, context);
    Ok(())
}

/// Adds a range of a context to file and book, filled with the blob of a page.
fn add_range(
    alloc: Global,
    disk: &mut MemDisk,
    book: &mut Book,
    context: u32,
    page: &[u8],
) -> Result<(), Fail>
    requires book { IsAllUnpublished book.old × (length book.old.firsts ≡ 1) }
    requires out { (state_of disk.old).out ≡ [] }
    ensures unpublished { OnOk result (IsAllUnpublished book.new) }
    ensures notes { OnOk result (KeepsNotes book.old book.new) }
    ensures out { OnOk result ((state_of disk.new).out ≡ []) }
{
    let count = page.len() / 8;
    let place = disk.end();
    if count >= 1000 || page.len() != 8 * count || place > 1 << 56 || place != book.end() {
        return Err(Fail::new("a page or a place that is too large"));
    }
    write_range(alloc, disk, page)?;
    let mut meta = meta_of(alloc, context, count as u32)?;
    enter_range(book, &mut meta)
}

/// A context publishes the ranges that it filled.
fn publish(book: &mut Book, context: u32) -> Result<(), Fail>
    requires filled { IsAllFilled book.old }
    requires before { times context (publishers_of book.old.history) ≡ 0 }
    ensures filled { OnOk result (IsAllFilled book.new) }
    ensures publishers { OnOk result (publishers_of book.new.history ≡ publishers_of book.old.history ++ context ∷ []) }
    ensures notes { OnOk result (KeepsNotes book.old book.new) }
{
    book.keeps();
    book.room_to_publish(context)?;
    book.publish(context);
    Ok(())
}

/// Context 1 publishes, and then context 0 if all is to be published.
fn publish_in_turn(book: &mut Book, all: bool) -> Result<(), Fail>
    requires { IsAllUnpublished book.old }
    ensures { OnOk result (KeepsNotes book.old book.new) }
{
    publish(book, 1)?;
    if all {
        publish(book, 0)?;
    }
    Ok(())
}

/// Adds a range for each page of a context, publishes them, and closes the file.
fn fill_staged(
    alloc: Global,
    disk: &mut MemDisk,
    book: &mut Book,
    schema: &Schema,
    params: &Params,
    pages: (&[(u32, &[u8])], bool),
) -> Result<End, Fail>
    requires unpublished { IsAllUnpublished book.old }
    requires notes { HasNotes schema.now params.now book.old }
    requires out { (state_of disk.old).out ≡ [] }
    requires whole { AreWhole schema.now }
{
    let (pages, all) = pages;
    for (context, page) in pages.iter() {
        add_range(alloc, disk, book, *context, page)?;
    }
    publish_in_turn(book, all)?;
    Ok(close_at(alloc, disk, book, schema, params)?)
}

/// Begins a staged file, fills and closes it.
fn write_staged_on(
    alloc: Global,
    disk: &mut MemDisk,
    fields: &Fields,
    params: &Params,
    pages: &[(u32, &[u8])],
    all: bool,
) -> Result<End, Fail>
    requires fields { AreFields (members_view fields.now) }
    requires empty { WhereHeld (state_of disk.old).held (λ h. h ≡ nothing_held) }
    requires end { (state_of disk.old).end ≡ 0 }
    requires out { (state_of disk.old).out ≡ [] }
{
    match begin(alloc, disk, fields, params) {
        Ok((mut book, schema)) => {
            if schema.columns() != 1 || !book.staged() {
                return Err(Fail::new("another schema"));
            }
            fill_staged(alloc, disk, &mut book, &schema, params, (pages, all))
        }
        Err(e) => Ok(End::NotBegun(e)),
    }
}

/// Writes a staged file `o` of the pages of contexts 0 and 1 on a host. Context 1 publishes first, and
/// then context 0 if all is to be published.
pub fn write_staged(
    alloc: Global,
    host: &mut MemHost,
    shape: &Shape,
    pages: &[(u32, &[u8])],
    all: bool,
) -> Result<End, Fail> {
    let params = params_of(shape).ok_or("no such parameters")?;
    let fields = parse_schema(alloc, b"x u64\n")?;
    let mut disk = host.create("o")?;
    let end = write_staged_on(alloc, &mut disk, &fields, &params, pages, all)?;
    host.return_disk(disk);
    Ok(end)
}
