//! The streams of a host in memory.

ghost use Rattle.std.specs.Prelude.{◌≡◌, ◌⊎◌, ◌+◌, ◌-◌, ◌<◌, ◌≤◌, ◌++◌, [], length, vec_len, vec_capacity, OnOk, IsTrue, IsFalse};
ghost use Rattle.std.specs.Bool.{OnTrue, OnFalse};

use std::alloc::{AllocError, Global};

/// The room that a call takes on each stream for the prints after it.
const ROOM: usize = 4096;

/// What was printed on both streams.
#[derive(Drop)]
pub struct Streams {
    pub out: Vec<u8>,
    pub err: Vec<u8>,
}

impl Streams {
    ghost use Rattle.nt_memory.specs.Streams.{IsRoomy, room_of};

    pub fn new(alloc: Global) -> Self
        ensures out { result.out.items ≡ [] }
        ensures err { result.err.items ≡ [] }
    {
        Streams {
            out: Vec::new(alloc),
            err: Vec::new(alloc),
        }
    }

    /// Takes room for prints.
    pub fn make_room(&mut self) -> Result<(), AllocError>
        ensures out { self.new.out.items ≡ self.old.out.items }
        ensures err { self.new.err.items ≡ self.old.err.items }
        ensures room { OnOk result (IsRoomy (room_of self.new)) }
    {
        self.out.reserve(ROOM)?;
        self.err.reserve(ROOM)
    }
}

/// Adds a piece, unless the call is to fail or no room is to be had.
pub fn add_unless(fails: bool, list: &mut Vec<u8>, piece: &[u8]) -> bool
    ensures added { OnTrue result (list.new.items ≡ list.old.items ++ piece.now) }
    ensures kept { OnFalse result (list.new.items ≡ list.old.items) }
    ensures fails { IsTrue fails → IsFalse result }
    ensures cause { OnFalse result (IsTrue fails ⊎ (vec_capacity list.old - vec_len list.old < length piece.now)) }
    ensures room { vec_capacity list.old - vec_len list.old ≤ vec_capacity list.new - vec_len list.new + length piece.now }
{
    if fails {
        return false;
    }
    list.extend_from_slice(piece).is_ok()
}
