//! Files of one field of numbers, with clusters of one page each.

ghost use Rattle.std.specs.Prelude.{◌≡◌, ◌+◌, ◌*◌, ◌<◌, ◌≤◌, ◌^◌, [], true, length, OnOk, IfOk};
ghost use Rattle.nt_types.specs.Rules.{AreFields};
ghost use Rattle.nt_types.specs.Views.{members_view};
ghost use Rattle.nt_outside.specs.Held.{WhereHeld, nothing_held};
ghost use Rattle.nt_memory.specs.Disk.{state_of};
ghost use Rattle.nt_machine.specs.History.{ranges_of};
ghost use Rattle.nt_machine.specs.Legal.{IsOut};
ghost use Rattle.nt_book.specs.Pages.{IsPaged};
ghost use Rattle.nt_schema.specs.Whole.{AreWhole};
ghost use Rattle.test_close.specs.Notes.{HasNotes, KeepsNotes};

use crate::lists::{empty_key, make_room, put_due};
use nt_book::{Book, ClusterMeta, Limits, PageList, PageLists, PageMeta, Params};
use nt_close::{BeginError, CloseError, begin, close};
use nt_memory::{MemDisk, MemHost};
use nt_outside::{Disk, Host};
use nt_schema::Schema;
use nt_types::{Fields, parse_schema};
use std::alloc::{AllocError, Global};
use std::test::Fail;

/// How a file is written: with split columns or plain ones, with staged clusters or not, so many
/// clusters a group, and so many bytes for a range and for the file.
#[derive(Clone, Copy)]
pub struct Shape {
    pub plain: bool,
    pub staged: bool,
    pub group: u32,
    pub range: u64,
    pub file: u64,
}

/// What came of a file.
#[derive(Clone, Copy, Debug, PartialEq, Eq)]
pub enum End {
    Closed,
    NotBegun(BeginError),
    NotClosed(CloseError),
}

/// These parameters, if they are in their ranges.
pub fn params_of(shape: &Shape) -> Option<Params> {
    let limits = Limits::new(shape.range, shape.file, 1000)?;
    Params::new(1000, 1000, shape.group, shape.plain, shape.staged, limits)
}

/// What is kept of a context's cluster of so many numbers on one page.
pub fn meta_of(alloc: Global, context: u32, count: u32) -> Result<ClusterMeta, AllocError>
    requires { count < 1000 }
    ensures paged { IfOk result (λ meta. IsPaged meta) }
    ensures one { IfOk result (λ meta. length meta.pages ≡ 1) }
    ensures len { IfOk result (λ meta. meta.len ≡ 50 + 8 * count) }
    ensures context { IfOk result (λ meta. meta.context ≡ context) }
{
    let page = PageMeta {
        count,
        place: 0,
        size: 8 * count,
    };
    let column = PageList::from_vec(vec![in alloc; page]?);
    Ok(ClusterMeta {
        context,
        entries: u64::from(count),
        len: 50 + 8 * u64::from(count),
        pages: PageLists::from_vec(vec![in alloc; column]?),
    })
}

/// The blob of a cluster of this one page: its key, the page, and the page's checksum.
pub fn blob_of(alloc: Global, place: u64, page: &[u8]) -> Result<Vec<u8>, AllocError>
    requires place { place ≤ 2 ^ 56 }
    requires page { length page.now < 8000 }
    ensures { IfOk result (λ blob. length blob.items ≡ 50 + length page.now) }
{
    let mut key = empty_key();
    nt_tfile::blob_key(place, page.len() as u32 + 8, &mut key);
    let mut blob = Vec::new(alloc);
    blob.extend_from_slice(&key)?;
    blob.extend_from_slice(page)?;
    blob.extend_from_slice(&nt_xxh3::sum(page).to_le_bytes())?;
    Ok(blob)
}

/// Spoils the range of the last cluster after so many faults, if there are any; no page list is noted
/// then.
fn spoil_last(book: &mut Book, cluster: u32, faults: u64) -> Result<(), AllocError>
    requires { IsOut (ranges_of book.old.history) 0 cluster }
    ensures { OnOk result (KeepsNotes book.old book.new) }
{
    if faults == 0 {
        return Ok(());
    }
    if book.lists() > 0 {
        return Err(AllocError);
    }
    book.spoil(cluster, 0, faults);
    Ok(())
}

/// Appends the cluster of a page of numbers, and enters it in the book; its range is spoiled after so
/// many faults, if there are any. To a torn book nothing is added.
fn add(
    alloc: Global,
    disk: &mut MemDisk,
    book: &mut Book,
    page: &[u8],
    faults: u64,
) -> Result<(), AllocError>
    requires page { length page.now < 8000 }
    requires columns { length book.old.firsts ≡ 1 }
    ensures notes { OnOk result (KeepsNotes book.old book.new) }
    ensures out { (state_of disk.new).out ≡ (state_of disk.old).out }
{
    if book.torn().is_some() {
        return Ok(());
    }
    if book.staged() {
        return Err(AllocError);
    }
    make_room(book)?;
    book.keeps();
    let mut meta = meta_of(alloc, 0, (page.len() / 8) as u32)?;
    if disk.end() != book.end() || book.check(meta.len).is_err() || book.due() {
        return Err(AllocError);
    }
    let blob = blob_of(alloc, book.end(), page)?;
    disk.room(1, blob.len() as u64)?;
    if disk.append(&blob).is_err() {
        return Err(AllocError);
    }
    let cluster = book.append(&mut meta);
    spoil_last(book, cluster, faults)
}

/// Closes the file of a book, if it ends where the book says.
#[tactic(auto, using(crate::proofs::Growing::closable))]
pub fn close_at(
    alloc: Global,
    disk: &mut MemDisk,
    book: &Book,
    schema: &Schema,
    params: &Params,
) -> Result<End, AllocError>
    requires notes { HasNotes schema.now params.now book.now }
    requires out { (state_of disk.old).out ≡ [] }
    requires whole { AreWhole schema.now }
{
    if disk.end() != book.end() {
        return Err(AllocError);
    }
    match close(alloc, disk, book, schema, params) {
        Ok(()) => Ok(End::Closed),
        Err(e) => Ok(End::NotClosed(e)),
    }
}

/// Adds a cluster for each page, whose ranges are spoiled from a number on, and in front of it the
/// page list that is due, and closes the file. If a page list fails no more is added.
fn fill(
    alloc: Global,
    disk: &mut MemDisk,
    book: &mut Book,
    schema: &Schema,
    params: &Params,
    clusters: (&[&[u8]], usize),
) -> Result<End, AllocError>
    requires notes { HasNotes schema.now params.now book.old }
    requires out { (state_of disk.old).out ≡ [] }
    requires whole { AreWhole schema.now }
{
    let (pages, spoiled) = clusters;
    for (k, page) in pages.iter().enumerate() {
        let count = page.len() / 8;
        if count >= 1000 || page.len() != 8 * count {
            return Err(AllocError);
        }
        put_due(alloc, disk, book)?;
        let faults = if k < spoiled { 0 } else { k as u64 };
        add(alloc, disk, book, page, faults)?;
    }
    close_at(alloc, disk, book, schema, params)
}

/// Begins a file, adds a cluster for each page, and closes it.
fn write_on(
    alloc: Global,
    disk: &mut MemDisk,
    fields: &Fields,
    params: &Params,
    pages: &[&[u8]],
    spoiled: usize,
) -> Result<End, AllocError>
    requires fields { AreFields (members_view fields.now) }
    requires empty { WhereHeld (state_of disk.old).held (λ h. h ≡ nothing_held) }
    requires end { (state_of disk.old).end ≡ 0 }
    requires out { (state_of disk.old).out ≡ [] }
{
    match begin(alloc, disk, fields, params) {
        Ok((mut book, schema)) => {
            if schema.columns() != 1 {
                return Err(AllocError);
            }
            fill(alloc, disk, &mut book, &schema, params, (pages, spoiled))
        }
        Err(e) => Ok(End::NotBegun(e)),
    }
}

/// Writes a file `o` of these pages on a host.
pub fn write_file(
    alloc: Global,
    host: &mut MemHost,
    shape: &Shape,
    pages: &[&[u8]],
    spoiled: usize,
) -> Result<End, Fail> {
    let params = params_of(shape).ok_or("no such parameters")?;
    let fields = parse_schema(alloc, b"x u64\n")?;
    let mut disk = host.create("o")?;
    let end = write_on(alloc, &mut disk, &fields, &params, pages, spoiled)?;
    host.return_disk(disk);
    Ok(end)
}
