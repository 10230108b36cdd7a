//! Numbers of any size behind a mark: room for the longest is written to six digits at a time.

ghost use Rattle.std.specs.Prelude.{◌≡◌, ◌<◌, ◌≤◌, ◌+◌, ◌∷◌, ◌++◌, length, take, decimal, OnOk};

use crate::digits::MILLION;
use crate::room::{ROOM, place_short, place_six};
use std::alloc::AllocError;

/// Writes a mark and a number of 7 to 12 digits behind what is written, and says where they end.
#[inline(always)]
fn place_twelve(mark: u8, n: u64, at: usize, room: &mut [u8]) -> usize
    requires digits { (1000000 ≤ n) × (n < 1000000000000) }
    requires room { at + 32 ≤ length room.old }
    ensures text { take result room.new ≡ take at room.old ++ mark ∷ decimal n }
    ensures few { result ≤ at + 13 }
    ensures len { length room.new ≡ length room.old }
{
    let next = place_short(mark, (n / MILLION) as u32, at, room);
    place_six((n % MILLION) as u32, next, room)
}

/// Writes a mark and a number of 13 to 18 digits behind what is written, and says where they end.
#[inline(always)]
fn place_eighteen(mark: u8, n: u64, at: usize, room: &mut [u8]) -> usize
    requires digits { (1000000000000 ≤ n) × (n < 1000000000000000000) }
    requires room { at + 32 ≤ length room.old }
    ensures text { take result room.new ≡ take at room.old ++ mark ∷ decimal n }
    ensures few { result ≤ at + 19 }
    ensures len { length room.new ≡ length room.old }
{
    let next = place_twelve(mark, n / MILLION, at, room);
    place_six((n % MILLION) as u32, next, room)
}

/// Writes a mark and a number of 19 or 20 digits behind what is written, and says where they end.
#[inline(always)]
fn place_twenty(mark: u8, n: u64, at: usize, room: &mut [u8]) -> usize
    requires large { 1000000000000000000 ≤ n }
    requires room { at + 32 ≤ length room.old }
    ensures text { take result room.new ≡ take at room.old ++ mark ∷ decimal n }
    ensures few { result ≤ at + 25 }
    ensures len { length room.new ≡ length room.old }
{
    let next = place_eighteen(mark, n / MILLION, at, room);
    place_six((n % MILLION) as u32, next, room)
}

/// Writes a mark and a number behind what is written, and says where they end.
#[inline(always)]
pub fn place_digits(mark: u8, n: u64, at: usize, room: &mut [u8]) -> usize
    requires { at + 32 ≤ length room.old }
    ensures text { take result room.new ≡ take at room.old ++ mark ∷ decimal n }
    ensures few { result ≤ at + 25 }
    ensures len { length room.new ≡ length room.old }
{
    if n < MILLION {
        place_short(mark, n as u32, at, room)
    } else if n < MILLION * MILLION {
        place_twelve(mark, n, at, room)
    } else if n < MILLION * MILLION * MILLION {
        place_eighteen(mark, n, at, room)
    } else {
        place_twenty(mark, n, at, room)
    }
}

/// Appends a mark, and then a number.
#[inline(never)]
pub fn put_digits(mark: u8, n: u64, out: &mut Vec<u8>) -> Result<(), AllocError>
    ensures ok { OnOk result (out.new.items ≡ out.old.items ++ mark ∷ decimal n) }
    ensures kept { take (length out.old.items) out.new.items ≡ out.old.items }
{
    let len = out.len();
    out.extend_from_slice(&ROOM)?;
    let count = place_digits(mark, n, 0, &mut out[len..]);
    out.truncate(len + count);
    Ok(())
}
