//! Arrays of a few numbers, written to room whole.

ghost use Rattle.std.specs.Prelude.{◌≡◌, ◌+◌, ◌<◌, ◌≤◌, ◌∷◌, ◌++◌, length, map, take, ltb, pos};
ghost use Rattle.nt_print.specs.Integers.{integers_text, AreBelow};
ghost use Rattle.nt_print.specs.Marks.{end_of};

use crate::room::{place_byte, place_short};
use crate::words::Word;

/// Writes what stands behind the last value of an array, and says where it ends.
#[inline(always)]
pub fn place_end(later: bool, at: usize, room: &mut [u8]) -> usize
    requires { at + 2 ≤ length room.old }
    ensures text { take result room.new ≡ take at room.old ++ end_of later }
    ensures more { at < result }
    ensures few { result ≤ at + 2 }
    ensures len { length room.new ≡ length room.old }
{
    if later {
        place_byte(b']', at, room);
        return at + 1;
    }
    place_byte(b'[', at, room);
    place_byte(b']', at + 1, room);
    at + 2
}

/// Writes a few numbers that are below another behind what is written, a mark in front of the first, and
/// commas, and says where they end; 0 where one of them isn't.
#[inline(always)]
pub fn place_below<W: Word>(mark: u8, words: &[W], end: u64, from: usize, room: &mut [u8]) -> usize
    requires short { end ≤ 1000000 }
    requires room { (length words.now < 8) × (from ≤ 8) × (64 ≤ length room.old) }
    ensures below { 0 < result → AreBelow end (map W.number words.now) }
    ensures text { 0 < result → take result room.new ≡ take from room.old ++ integers_text mark
        (map pos (map W.number words.now)) }
    ensures few { (result ≤ from + 49) × (length room.new ≡ length room.old) }
{
    let mut next = mark;
    let mut at = from;
    for word in words {
        let number = word.number();
        if number >= end {
            return 0;
        }
        at = place_short(next, number as u32, at, room);
        next = b',';
    }
    at
}

/// Writes a mark, and then the array of a few numbers that are below another, and says where it ends; 0
/// where one of them isn't.
#[inline(always)]
pub fn place_array<W: Word>(mark: u8, words: &[W], end: u64, room: &mut [u8]) -> usize
    requires short { end ≤ 1000000 }
    requires room { (length words.now < 8) × (64 ≤ length room.old) }
    ensures below { 0 < result → AreBelow end (map W.number words.now) }
    ensures text { 0 < result → take result room.new ≡ mark ∷ (integers_text 91
        (map pos (map W.number words.now)) ++ end_of (ltb 0 (length words.now))) }
    ensures few { (result ≤ 64) × (length room.new ≡ length room.old) }
{
    place_byte(mark, 0, room);
    let at = place_below(b'[', words, end, 1, room);
    if at == 0 {
        return 0;
    }
    place_end(words.len() > 0, at, room)
}
