//! A cursor over borrowed bytes: each read takes what comes next, and says where too little is left.

ghost use Rattle.std.specs.Prelude.{◌≡◌, Some, length};
ghost use Rattle.std.specs.Int.{w8, w16, w32, w64};
ghost use Rattle.nt_lists.specs.Answering.{Answers};
ghost use Rattle.nt_num.specs.Cursor.{Moves, part_of, next, little, little_signed, big};

use byteorder::{BigEndian, ByteOrder, LittleEndian};
use std::marker::Model;

/// Fewer bytes are left than the call needs.
#[derive(Clone, Copy, Debug, PartialEq, Eq)]
pub struct Short;

/// A cursor over borrowed bytes. Contracts see its place, counted from the beginning of the bytes
/// that the first cursor was made of, and the bytes that are left.
#[derive(Debug, Drop)]
pub struct Cur<'a> {
    place: usize,
    left: &'a [u8],
}

impl<'a> Model for Cur<'a> {
    ghost use Rattle.std.specs.Prelude.{◌<◌, ◌+◌, ◌^◌, length};
    ghost use Rattle.nt_num.specs.Place.{At};

    ghost Value = { At };

    ghost view = { λ c. record { place = c.place; left = c.left.now } };

    ghost invariant = { λ c. c.place + length c.left.now < 2 ^ 64 };
}

impl<'a> Cur<'a> {
    /// A cursor at the beginning of the bytes.
    pub fn new(bytes: &'a [u8]) -> Cur<'a>
        ensures { result ≡ record { place = 0; left = bytes.now } }
    {
        Cur {
            place: 0,
            left: bytes,
        }
    }

    /// How far the cursor is from the beginning, in bytes.
    pub fn place(&self) -> usize
        ensures { result ≡ self.now.place }
    {
        self.place
    }

    /// How many bytes are left.
    pub fn left(&self) -> usize
        ensures { result ≡ length self.now.left }
    {
        self.left.len()
    }

    /// The bytes that are left, without a move.
    pub fn rest(&self) -> &'a [u8]
        ensures { result.now ≡ self.now.left }
    {
        self.left
    }

    /// A second cursor at the same place, to look ahead with.
    pub fn fork(&self) -> Cur<'a>
        ensures { result ≡ self.now }
    {
        Cur {
            place: self.place,
            left: self.left,
        }
    }

    /// The next `n` bytes.
    pub fn bytes(&mut self, n: usize) -> Result<&'a [u8], Short>
        ensures reading { Answers (λ b. (b.now, self.new)) (λ _. Some self.old.place) result
            (next (λ b. b) n self.old) }
        ensures moves { Moves n result self.old self.new }
    {
        if self.left.len() < n {
            return Err(Short);
        }
        let (front, left) = self.left.split_at(n);
        self.place += n;
        self.left = left;
        Ok(front)
    }

    /// A cursor over the next `n` bytes, whose places count from the same beginning.
    pub fn part(&mut self, n: usize) -> Result<Cur<'a>, Short>
        ensures reading { Answers (λ c. (c, self.new)) (λ _. Some self.old.place) result
            (part_of n self.old) }
        ensures moves { Moves n result self.old self.new }
    {
        let place = self.place;
        let left = self.bytes(n)?;
        Ok(Cur { place, left })
    }

    /// The next byte.
    pub fn u8(&mut self) -> Result<u8, Short>
        ensures reading { Answers (λ v. (v, self.new)) (λ _. Some self.old.place) result
            (little w8 self.old) }
        ensures moves { Moves 1 result self.old self.new }
    {
        let bytes = self.bytes(1)?;
        Ok(bytes[0])
    }

    /// The next two bytes as a number, the lowest first.
    pub fn u16le(&mut self) -> Result<u16, Short>
        ensures reading { Answers (λ v. (v, self.new)) (λ _. Some self.old.place) result
            (little w16 self.old) }
        ensures moves { Moves 2 result self.old self.new }
    {
        let bytes = self.bytes(2)?;
        Ok(LittleEndian::read_u16(bytes))
    }

    /// The next four bytes as a number, the lowest first.
    pub fn u32le(&mut self) -> Result<u32, Short>
        ensures reading { Answers (λ v. (v, self.new)) (λ _. Some self.old.place) result
            (little w32 self.old) }
        ensures moves { Moves 4 result self.old self.new }
    {
        let bytes = self.bytes(4)?;
        Ok(LittleEndian::read_u32(bytes))
    }

    /// The next eight bytes as a number, the lowest first.
    pub fn u64le(&mut self) -> Result<u64, Short>
        ensures reading { Answers (λ v. (v, self.new)) (λ _. Some self.old.place) result
            (little w64 self.old) }
        ensures moves { Moves 8 result self.old self.new }
    {
        let bytes = self.bytes(8)?;
        Ok(LittleEndian::read_u64(bytes))
    }

    /// The next four bytes as a number in two's complement, the lowest first.
    pub fn i32le(&mut self) -> Result<i32, Short>
        ensures reading { Answers (λ v. (v, self.new)) (λ _. Some self.old.place) result
            (little_signed w32 self.old) }
        ensures moves { Moves 4 result self.old self.new }
    {
        let bytes = self.bytes(4)?;
        Ok(LittleEndian::read_i32(bytes))
    }

    /// The next eight bytes as a number in two's complement, the lowest first.
    pub fn i64le(&mut self) -> Result<i64, Short>
        ensures reading { Answers (λ v. (v, self.new)) (λ _. Some self.old.place) result
            (little_signed w64 self.old) }
        ensures moves { Moves 8 result self.old self.new }
    {
        let bytes = self.bytes(8)?;
        Ok(LittleEndian::read_i64(bytes))
    }

    /// The next two bytes as a number, the highest first.
    pub fn u16be(&mut self) -> Result<u16, Short>
        ensures reading { Answers (λ v. (v, self.new)) (λ _. Some self.old.place) result
            (big w16 self.old) }
        ensures moves { Moves 2 result self.old self.new }
    {
        let bytes = self.bytes(2)?;
        Ok(BigEndian::read_u16(bytes))
    }

    /// The next four bytes as a number, the highest first.
    pub fn u32be(&mut self) -> Result<u32, Short>
        ensures reading { Answers (λ v. (v, self.new)) (λ _. Some self.old.place) result
            (big w32 self.old) }
        ensures moves { Moves 4 result self.old self.new }
    {
        let bytes = self.bytes(4)?;
        Ok(BigEndian::read_u32(bytes))
    }

    /// The next eight bytes as a number, the highest first.
    pub fn u64be(&mut self) -> Result<u64, Short>
        ensures reading { Answers (λ v. (v, self.new)) (λ _. Some self.old.place) result
            (big w64 self.old) }
        ensures moves { Moves 8 result self.old self.new }
    {
        let bytes = self.bytes(8)?;
        Ok(BigEndian::read_u64(bytes))
    }
}
