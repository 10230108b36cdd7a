//! The log of a disk.

ghost use Rattle.std.specs.Prelude.{◌≡◌, ◌+◌, ◌≤◌, ◌++◌, ◌∷◌, [], length, vec_len, vec_capacity};
ghost use Rattle.nt_disk_log.specs.Rows.{bytes_of, total_bytes, step};

use crate::bytes::add_reserved;
use std::alloc::{AllocError, Global};

/// A step of a disk, by its place and length. The bytes of all steps lie elsewhere, one after the other.
#[derive(Clone, Copy, Debug, PartialEq, Eq)]
pub enum Row {
    Write { at: u64, len: usize },
    FailedWrite { at: u64, len: usize },
    Append { len: usize },
    FailedAppend { len: usize },
    Reserve { start: u64, len: u64 },
    Settle { start: u64, len: usize, known: bool },
    Sync,
}

impl Row {
    /// How many of its bytes are kept.
    pub fn kept(self) -> usize
        ensures { result ≡ bytes_of self }
    {
        match self {
            Row::Write { len, .. } | Row::FailedWrite { len, .. } | Row::Append { len } => len,
            Row::Settle { len, known, .. } if known => len,
            _ => 0,
        }
    }
}

/// Steps and their bytes, apart, so that a step for which there is room takes no memory.
#[derive(Drop)]
pub struct Log {
    pub rows: Vec<Row>,
    pub bytes: Vec<u8>,
    /// For how many steps that settle a range, and for how many bytes in them, there is room besides.
    pub owed: usize,
    pub owed_bytes: usize,
    ghost whole: { total_bytes rows.items ≡ length bytes.items },
    ghost row_room: { vec_len rows + owed ≤ vec_capacity rows },
    ghost byte_room: { vec_len bytes + owed_bytes ≤ vec_capacity bytes },
}

impl Log {
    ghost use Rattle.nt_disk_log.specs.Logged.{steps_of, spare_rows, spare_bytes, MakesRoom, KeepsRoom, HasRoomForSteps, UsesRoom, Owes, MaySettle, IsSameLog};
    ghost use Rattle.nt_outside.specs.Log.{Step, Reserve};
    ghost use Rattle.std.specs.Prelude.{OnOk};

    pub fn new(alloc: Global) -> Self
        ensures { steps_of result ≡ [] }
    {
        Log {
            rows: Vec::new(alloc),
            bytes: Vec::new(alloc),
            owed: 0,
            owed_bytes: 0,
        }
    }

    /// Takes the memory for so many steps, with so many bytes together.
    pub fn room(&mut self, rows: usize, bytes: usize) -> Result<(), AllocError>
        ensures room { MakesRoom rows bytes self.new result }
        ensures kept { KeepsRoom self.old self.new }
        ensures same { IsSameLog self.old self.new }
    {
        let Some(rows) = self.owed.checked_add(rows) else {
            return Err(AllocError);
        };
        let Some(bytes) = self.owed_bytes.checked_add(bytes) else {
            return Err(AllocError);
        };
        self.rows.reserve(rows)?;
        self.bytes.reserve(bytes)
    }

    /// Takes the memory that a range of so many bytes needs, beside all that is there.
    pub fn range_room(&mut self, bytes: usize) -> Result<(), AllocError>
        ensures rows { OnOk result (spare_rows self.old + 2 ≤ spare_rows self.new) }
        ensures bytes { OnOk result (spare_bytes self.old + bytes ≤ spare_bytes self.new) }
        ensures kept { KeepsRoom self.old self.new }
        ensures same { IsSameLog self.old self.new }
    {
        let Some(rows) = (self.rows.capacity() - self.rows.len()).checked_add(2) else {
            return Err(AllocError);
        };
        let Some(bytes) = (self.bytes.capacity() - self.bytes.len()).checked_add(bytes) else {
            return Err(AllocError);
        };
        // exactly, or else the room that is kept would double at each range
        self.rows.reserve_exact(rows)?;
        self.bytes.reserve_exact(bytes)
    }

    /// Adds a step with its bytes, for which there is room.
    pub fn push(&mut self, row: Row, bytes: &[u8])
        requires len { bytes_of row ≡ length bytes.now }
        requires room { HasRoomForSteps 1 (length bytes.now) self.old }
        ensures steps { steps_of self.new ≡ steps_of self.old ++ step row bytes.now ∷ [] }
        ensures spent { UsesRoom 1 (length bytes.now) self.old self.new }
        ensures owed { Owes self.old.owed self.old.owed_bytes self.new }
    {
        add_reserved(&mut self.bytes, bytes);
        self.rows.push_reserved(row);
    }

    /// Adds the step that reserves a range, and keeps room for the one that settles it.
    pub fn push_reserve(&mut self, start: u64, len: u64)
        requires { HasRoomForSteps 2 len self.old }
        ensures steps { steps_of self.new ≡ steps_of self.old ++ Reserve start len ∷ [] }
        ensures spent { UsesRoom 2 len self.old self.new }
        ensures owed { Owes (self.old.owed + 1) (self.old.owed_bytes + len) self.new }
    {
        self.push(Row::Reserve { start, len }, &[]);
        self.owed += 1;
        self.owed_bytes += len as usize;
    }

    /// Adds the step that settles a range, for which there is room besides.
    pub fn push_settle(&mut self, row: Row, bytes: &[u8], len: usize)
        requires len { bytes_of row ≡ length bytes.now }
        requires owed { MaySettle (length bytes.now) len self.old }
        ensures steps { steps_of self.new ≡ steps_of self.old ++ step row bytes.now ∷ [] }
        ensures kept { KeepsRoom self.old self.new }
        ensures owed { Owes (self.new.owed + 1) (self.new.owed_bytes + len) self.old }
    {
        self.owed -= 1;
        self.owed_bytes -= len;
        add_reserved(&mut self.bytes, bytes);
        self.rows.push_reserved(row);
    }
}
