//! Page lists that are appended beside the clusters.

ghost use Rattle.std.specs.Prelude.{◌≡◌, ◌+◌, ◌<◌, ◌≤◌, ◌^◌, true, length, OnOk, IfOk};
ghost use Rattle.nt_memory.specs.Disk.{state_of};
ghost use Rattle.nt_book.specs.Books.{book_end, is_due};
ghost use Rattle.nt_pagelists.specs.Due.{due_object};
ghost use Rattle.test_close.specs.Notes.{KeepsNotes};

use nt_book::{Book, ListPlace};
use nt_memory::MemDisk;
use nt_meta::due_list;
use nt_outside::Disk;
use std::alloc::{AllocError, Global};

/// A key that isn't written yet.
pub fn empty_key() -> [u8; 42] {
    [0; 42]
}

/// The page list that is due, behind room for the key of its blob.
#[tactic(auto, using(crate::proofs::Keeping::behind_key))]
fn list_of(alloc: Global, book: &Book) -> Result<Vec<u8>, AllocError>
    requires { is_due book.now ≡ true }
    ensures { IfOk result (λ list. length list.items ≡ 42 + length (due_object book.now)) }
{
    due_list(alloc, book)
}

/// The blob of a page list that stands behind room for its key.
fn keyed(alloc: Global, place: u64, list: &[u8]) -> Result<Vec<u8>, AllocError>
    requires place { place ≤ 2 ^ 56 }
    requires list { 42 ≤ length list.now }
    requires fits { length list.now ≤ 2 ^ 30 }
    ensures { IfOk result (λ blob. length blob.items ≡ length list.now) }
{
    let (_, object) = list.split_at(42);
    let mut key = empty_key();
    nt_tfile::blob_key(place, object.len() as u32, &mut key);
    let mut blob = Vec::new(alloc);
    blob.extend_from_slice(&key)?;
    blob.extend_from_slice(object)?;
    Ok(blob)
}

/// Whether so many bytes can be put behind all that stands, as a range or as a page list.
#[tactic(auto, using(crate::proofs::Keeping::no_limit_passed))]
fn fits(book: &Book, len: u64) -> bool
    ensures { result ≡ true → (len ≤ book.now.limits.range) × (book_end book.now + len ≤ book.now.limits.file) }
{
    book.check(len).is_ok()
}

/// Notes the page list that is due, whose blob of so many bytes stands behind all others.
fn note(book: &mut Book, len: u64)
    requires due { is_due book.old ≡ true }
    requires spare { 0 < book.old.spare }
    requires fits { (len ≤ book.old.limits.range) × (book_end book.old + len ≤ book.old.limits.file) }
    requires long { len ≡ 42 + length (due_object book.old) }
    ensures { KeepsNotes book.old book.new }
{
    book.keeps();
    let size = (len - 42) as u32;
    let at = ListPlace {
        length: len - 42,
        size,
        place: book.end() + 42,
    };
    book.note_list(at, len);
}

/// The append of the page list that is due failed.
fn tear(book: &mut Book, disk: &MemDisk) -> Result<(), AllocError>
    requires { is_due book.old ≡ true }
    ensures { OnOk result (KeepsNotes book.old book.new) }
{
    book.keeps();
    let end = disk.end();
    if end < book.end() || !fits(book, end - book.end()) {
        return Err(AllocError);
    }
    book.tear(end, disk.faults());
    Ok(())
}

/// Appends the page list that is due, and notes it. If its append fails the book is torn.
fn put_list(alloc: Global, disk: &mut MemDisk, book: &mut Book) -> Result<(), AllocError>
    requires due { is_due book.old ≡ true }
    requires spare { 0 < book.old.spare }
    ensures notes { OnOk result (KeepsNotes book.old book.new) }
    ensures out { (state_of disk.new).out ≡ (state_of disk.old).out }
{
    book.keeps();
    let list = list_of(alloc, book)?;
    let (place, len) = (book.end(), list.len() as u64);
    if disk.end() != place || !fits(book, len) {
        return Err(AllocError);
    }
    let blob = keyed(alloc, place, &list)?;
    disk.room(1, len)?;
    if disk.append(&blob).is_err() {
        return tear(book, disk);
    }
    note(book, len);
    Ok(())
}

/// Makes room for a cluster, and for the page list that is due.
pub fn make_room(book: &mut Book) -> Result<(), AllocError>
    ensures same { book.new ≡ record book.old { spare = book.new.spare } }
    ensures ok { OnOk result (0 < book.new.spare) }
    ensures notes { KeepsNotes book.old book.new }
{
    book.keeps();
    book.room()
}

/// Puts the page list that is due, if one is, behind all that stands.
pub fn put_due(alloc: Global, disk: &mut MemDisk, book: &mut Book) -> Result<(), AllocError>
    ensures notes { OnOk result (KeepsNotes book.old book.new) }
    ensures out { (state_of disk.new).out ≡ (state_of disk.old).out }
{
    make_room(book)?;
    if !book.due() {
        return Ok(());
    }
    put_list(alloc, disk, book)
}
