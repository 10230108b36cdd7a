//! Room that was appended, and is written to a few bytes at a time; each writes eight bytes, of which
//! those that count stay.

ghost use Rattle.std.specs.Prelude.{◌≡◌, ◌+◌, ◌<◌, ◌≤◌, [], ◌∷◌, ◌++◌, length, take, decimal};
ghost use Rattle.std.specs.Int.{to_le_bytes, w64};
ghost use Rattle.nt_print.specs.Digits.{last_digits};

use crate::digits::small_word;
use crate::triples::triple;

/// Room that is appended.
pub static ROOM: [u8; 32] = [0; 32];

/// Writes a byte behind what is written.
#[inline(always)]
pub fn place_byte(byte: u8, at: usize, room: &mut [u8])
    requires { at < length room.old }
    ensures text { take (at + 1) room.new ≡ take at room.old ++ byte ∷ [] }
    ensures len { length room.new ≡ length room.old }
{
    room[at] = byte;
}

/// Writes eight bytes behind what is written.
#[inline(always)]
pub fn place_eight(bytes: &[u8], at: usize, room: &mut [u8])
    requires eight { length bytes.now ≡ 8 }
    requires room { at + 8 ≤ length room.old }
    ensures text { take (at + 8) room.new ≡ take at room.old ++ bytes.now }
    ensures len { length room.new ≡ length room.old }
{
    room[at..at + 8].copy_from_slice(bytes);
}

/// Writes the bytes of a word behind what is written.
#[inline(always)]
fn place(word: u64, at: usize, room: &mut [u8])
    requires { at + 8 ≤ length room.old }
    ensures text { take (at + 8) room.new ≡ take at room.old ++ to_le_bytes w64 word }
    ensures len { length room.new ≡ length room.old }
{
    room[at..at + 8].copy_from_slice(&word.to_le_bytes());
}

/// Writes a mark and a number below 1000 behind what is written, and says where they end.
#[inline(always)]
fn place_small(mark: u8, n: u32, at: usize, room: &mut [u8]) -> usize
    requires small { n < 1000 }
    requires room { at + 8 ≤ length room.old }
    ensures text { take result room.new ≡ take at room.old ++ mark ∷ decimal n }
    ensures few { result ≤ at + 4 }
    ensures len { length room.new ≡ length room.old }
{
    let (text, count) = small_word(mark, n);
    place(text, at, room);
    at + count
}

/// Writes the last three digits of a number behind what is written, and says where they end.
#[inline(always)]
fn place_three(n: u32, at: usize, room: &mut [u8]) -> usize
    requires small { n < 1000 }
    requires room { at + 8 ≤ length room.old }
    ensures text { take result room.new ≡ take at room.old ++ last_digits 3 n }
    ensures three { result ≡ at + 3 }
    ensures len { length room.new ≡ length room.old }
{
    place(triple(n), at, room);
    at + 3
}

/// Writes the last six digits of a number behind what is written, and says where they end.
#[inline(always)]
pub fn place_six(n: u32, at: usize, room: &mut [u8]) -> usize
    requires short { n < 1000000 }
    requires room { at + 11 ≤ length room.old }
    ensures text { take result room.new ≡ take at room.old ++ last_digits 6 n }
    ensures six { result ≡ at + 6 }
    ensures len { length room.new ≡ length room.old }
{
    let next = place_three(n / 1000, at, room);
    place_three(n % 1000, next, room)
}

/// Writes a mark and a number below a million behind what is written, and says where they end.
#[inline(always)]
pub fn place_short(mark: u8, n: u32, at: usize, room: &mut [u8]) -> usize
    requires short { n < 1000000 }
    requires room { at + 12 ≤ length room.old }
    ensures text { take result room.new ≡ take at room.old ++ mark ∷ decimal n }
    ensures few { result ≤ at + 7 }
    ensures len { length room.new ≡ length room.old }
{
    if n < 1000 {
        return place_small(mark, n, at, room);
    }
    let next = place_small(mark, n / 1000, at, room);
    place_three(n % 1000, next, room)
}
