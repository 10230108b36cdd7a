//! The page list that is due, while the turn is held.

ghost use Rattle.std.specs.Prelude.{◌≡◌, ◌+◌, ◌-◌, ◌<◌, ◌≤◌, ◌^◌, ◌++◌, true, length, drop, replicate, IfOk, OnErr};
ghost use Rattle.nt_container.specs.Lengths.{blob_key_len, most_place};
ghost use Rattle.nt_book.specs.Books.{book_end, is_due};
ghost use Rattle.nt_pagelists.specs.Blobs.{blob};
ghost use Rattle.nt_pagelists.specs.Due.{due_object};
ghost use Rattle.nt_commit.specs.Appending.{AppendsList, FitsList, IsDueList, due_bytes};
ghost use Rattle.nt_commit.specs.Holds.{IsLater};

use crate::error::CommitError;
use crate::locked::Locked;
use nt_book::ListPlace;
use nt_lists::Bytes;
use nt_meta::due_list;
use nt_outside::{Disk, Failed};
use std::alloc::AllocError;

/// The bytes of a blob's key.
const KEY: u64 = 42;

/// A key that isn't written yet.
fn empty_key() -> [u8; 42] {
    [0; 42]
}

/// The blob of an object at a place: its key comes into the room before it.
pub fn blob_at(list: Vec<u8>, start: u64) -> Bytes
    requires room { blob_key_len ≤ length list.items }
    requires fits { length list.items < 2 ^ 32 }
    requires start { start ≤ most_place }
    ensures { result ≡ blob start (drop blob_key_len list.items) }
{
    let payload = list.len() - KEY as usize;
    let mut key = empty_key();
    nt_tfile::blob_key(start, payload as u32, &mut key);
    let mut bytes = Bytes::from_vec(list);
    bytes.put_over(0, &key);
    bytes
}

/// The link to the object of a blob of so many bytes that starts there.
pub fn link_of(start: u64, len: u64) -> ListPlace
    requires { (blob_key_len ≤ len) × (len < 2 ^ 32) × (start ≤ most_place) }
    ensures { result ≡ record { length = len - blob_key_len; size = len - blob_key_len; place = start + blob_key_len } }
{
    ListPlace {
        length: len - KEY,
        size: (len - KEY) as u32,
        place: start + KEY,
    }
}

impl<D: Disk> Locked<D> {
    /// The page list that is due, behind room for its key; nothing where none is due.
    pub(crate) fn make_list(&self) -> Result<Vec<u8>, AllocError>
        ensures list { IfOk result (λ list. list.items ≡ due_bytes self.now.book) }
        ensures err { OnErr result (is_due self.now.book ≡ true) }
    {
        if self.book.due() {
            due_list(self.alloc, &self.book)
        } else {
            Ok(Vec::new(self.alloc))
        }
    }

    /// Appends a page list with its key at the end of the disk, and notes it in the book. If the
    /// disk fails the book is torn there, and the fault is entered.
    fn append_list(&mut self, context: u32, list: Vec<u8>) -> Result<(), CommitError>
        requires context { context ≤ self.old.birth.contexts }
        requires list { IsDueList self.old.book list.items }
        requires fits { FitsList self.old.book (length list.items) }
        ensures step { IsLater D.state self.old self.new }
        ensures appends { AppendsList D.state context self.old self.new result }
    {
        self.book.keeps();
        let start = self.disk.end();
        let len = list.len() as u64;
        let blob = blob_at(list, start);
        if self.disk.room(1, len).is_err() {
            return Err(CommitError::Memory);
        }
        match self.disk.append(blob.as_slice()) {
            Ok(()) => {
                self.book.note_list(link_of(start, len), len);
                Ok(())
            }
            Err(Failed) => {
                let faults = self.disk.faults();
                self.book.tear(self.disk.end(), faults);
                self.book.fault(context, faults);
                Err(CommitError::Fault)
            }
        }
    }

    /// Appends the page list that is due, if one is. If none is due there are no bytes of it.
    pub(crate) fn append_due(&mut self, context: u32, list: Vec<u8>) -> Result<(), CommitError>
        requires context { context ≤ self.old.birth.contexts }
        requires list { list.items ≡ due_bytes self.old.book }
        requires fits { FitsList self.old.book (length list.items) }
        ensures step { IsLater D.state self.old self.new }
        ensures appends { AppendsList D.state context self.old self.new result }
    {
        self.book.keeps();
        if list.is_empty() {
            return Ok(());
        }
        self.append_list(context, list)
    }
}
