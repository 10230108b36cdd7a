//! Short texts, whose bytes are looked at while they are written to room.

ghost use Rattle.std.specs.Prelude.{◌≡◌, ◌+◌, ◌<◌, ◌≤◌, ◌∷◌, ◌++◌, length, take, drop, IsTrue};
ghost use Rattle.serde_json.specs.Written.{compact_text};
ghost use Rattle.nt_event.specs.Json.{data_of};
ghost use Rattle.nt_types.specs.TreeData.{text};
ghost use Rattle.nt_print.specs.Simple.{AllSimple};

use crate::room::{place_byte, place_eight};
use crate::simple::{are_simple, is_simple, others};
use std::simd::prelude::*;

/// So many bytes are looked at sixteen at a time and then copied, in less time than eight at a time.
const MANY: usize = 64;

/// Writes eight bytes behind a mark, a quote and the bytes before them, and says whether all stand for
/// themselves.
#[inline(always)]
fn place_part(bytes: &[u8], from: usize, room: &mut [u8]) -> bool
    requires eight { from + 8 ≤ length bytes.now }
    requires room { from + 10 ≤ length room.old }
    ensures text { take (from + 10) room.new
        ≡ take (from + 2) room.old ++ take 8 (drop from bytes.now) }
    ensures simple { IsTrue result → AllSimple (take 8 (drop from bytes.now)) }
    ensures len { length room.new ≡ length room.old }
{
    place_eight(&bytes[from..from + 8], from + 2, room);
    others(u8x8::from_slice(&bytes[from..])) == 0
}

/// Writes at least eight bytes behind a mark and a quote, the last eight once more where they don't end
/// so, and says whether all stand for themselves.
#[inline(always)]
fn place_eights(bytes: &[u8], room: &mut [u8]) -> bool
    requires many { 8 ≤ length bytes.now }
    requires room { length bytes.now + 2 ≤ length room.old }
    ensures text { IsTrue result → take (length bytes.now + 2) room.new
        ≡ take 2 room.old ++ bytes.now }
    ensures simple { IsTrue result → AllSimple bytes.now }
    ensures len { length room.new ≡ length room.old }
{
    let last = bytes.len() - 8;
    let mut from = 0;
    while from < last {
        if !place_part(bytes, from, room) {
            return false;
        }
        from += 8;
    }
    place_part(bytes, last, room)
}

/// The same of a few bytes.
#[inline(always)]
fn place_few(bytes: &[u8], room: &mut [u8]) -> bool
    requires room { length bytes.now + 2 ≤ length room.old }
    ensures text { IsTrue result → take (length bytes.now + 2) room.new
        ≡ take 2 room.old ++ bytes.now }
    ensures simple { IsTrue result → AllSimple bytes.now }
    ensures len { length room.new ≡ length room.old }
{
    for i in 0..bytes.len() {
        let byte = bytes[i];
        if !is_simple(byte) {
            return false;
        }
        place_byte(byte, i + 2, room);
    }
    true
}

/// The same of many bytes, which are looked at first.
fn place_many(bytes: &[u8], room: &mut [u8]) -> bool
    requires room { length bytes.now + 2 ≤ length room.old }
    ensures text { IsTrue result → take (length bytes.now + 2) room.new
        ≡ take 2 room.old ++ bytes.now }
    ensures simple { IsTrue result → AllSimple bytes.now }
    ensures len { length room.new ≡ length room.old }
{
    if !are_simple(bytes) {
        return false;
    }
    room[2..bytes.len() + 2].copy_from_slice(bytes);
    true
}

/// The same of any bytes.
#[inline(always)]
fn place_bytes(bytes: &[u8], room: &mut [u8]) -> bool
    requires room { length bytes.now + 2 ≤ length room.old }
    ensures text { IsTrue result → take (length bytes.now + 2) room.new
        ≡ take 2 room.old ++ bytes.now }
    ensures simple { IsTrue result → AllSimple bytes.now }
    ensures len { length room.new ≡ length room.old }
{
    if bytes.len() < 8 {
        place_few(bytes, room)
    } else if bytes.len() < MANY {
        place_eights(bytes, room)
    } else {
        place_many(bytes, room)
    }
}

/// Writes a mark, and bytes that stand for themselves between quotes, and says where they end; 0 where
/// not all do.
#[inline(always)]
pub fn place_text(mark: u8, bytes: &[u8], room: &mut [u8]) -> usize
    requires room { length bytes.now + 3 ≤ length room.old }
    ensures text { 0 < result → take result room.new
        ≡ mark ∷ compact_text (data_of (text bytes.now)) }
    ensures few { result ≤ length bytes.now + 3 }
    ensures len { length room.new ≡ length room.old }
{
    place_byte(mark, 0, room);
    place_byte(b'"', 1, room);
    if !place_bytes(bytes, room) {
        return 0;
    }
    place_byte(b'"', bytes.len() + 2, room);
    bytes.len() + 3
}
