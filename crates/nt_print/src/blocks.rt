//! Eight numbers of at most six digits at once: room for them is appended, written to, and cut.

ghost use Rattle.std.specs.Prelude.{◌≡◌, ◌+◌, ◌*◌, ◌≤◌, ◌++◌, length, map, take, pos, OnOk};
ghost use Rattle.nt_print.specs.Integers.{integers_text, AreBelow};

use crate::room::place_short;
use crate::words::Word;
use std::alloc::AllocError;

/// The room of eight numbers.
pub static BLOCK_ROOM: [u8; 64] = [0; 64];

/// Writes numbers behind what is written, a mark in front of the first, and commas, and says where they end.
#[inline(always)]
pub fn place_each<W: Word>(mark: u8, words: &[W], from: usize, room: &mut [u8]) -> usize
    requires below { AreBelow 1000000 (map W.number words.now) }
    requires room { from + 7 * length words.now + 5 ≤ length room.old }
    ensures text { take result room.new ≡ take from room.old
        ++ integers_text mark (map pos (map W.number words.now)) }
    ensures few { result ≤ from + 7 * length words.now }
    ensures len { length room.new ≡ length room.old }
{
    let mut next = mark;
    let mut at = from;
    for word in words {
        at = place_short(next, word.number() as u32, at, room);
        next = b',';
    }
    at
}

/// Appends eight numbers, a mark in front of the first, and commas.
#[inline(always)]
pub fn put_block<W: Word>(mark: u8, words: &[W], out: &mut Vec<u8>) -> Result<(), AllocError>
    requires below { AreBelow 1000000 (map W.number words.now) }
    requires eight { length words.now ≡ 8 }
    ensures ok { OnOk result (out.new.items ≡ out.old.items
        ++ integers_text mark (map pos (map W.number words.now))) }
    ensures kept { take (length out.old.items) out.new.items ≡ out.old.items }
{
    let len = out.len();
    out.extend_from_slice(&BLOCK_ROOM)?;
    let count = place_each(mark, words, 0, &mut out[len..]);
    out.truncate(len + count);
    Ok(())
}
