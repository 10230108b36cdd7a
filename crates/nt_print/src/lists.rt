//! Lists of numbers, printed from where they lie.

ghost use Rattle.std.specs.Prelude.{◌≡◌, ◌≤◌, ◌<◌, ◌∷◌, ◌++◌, ℕ, length, map, take, pos, OnOk, IsTrue};
ghost use Rattle.nt_column.specs.Elements.{numbers};
ghost use Rattle.nt_column.specs.Words.{lent_elements};
ghost use Rattle.nt_event.specs.Json.{line_of};
ghost use Rattle.nt_trees.specs.Integers.{integer_of};
ghost use Rattle.nt_print.specs.Integers.{integer_trees, integers_text, AreBelow};

use crate::blocks::{BLOCK_ROOM, put_block};
use crate::digits::MILLION;
use crate::few::{place_array, place_below};
use crate::leaves::{put_end, put_integer};
use crate::words::Word;
use nt_column::WordSlice;
use std::alloc::AllocError;

/// Where numbers end that have at most six digits, and stand for themselves in this width and sign.
#[inline]
pub fn short_end(bits: u8, signed: bool) -> u64
    ensures short { result ≤ 1000000 }
    ensures same { (n : ℕ) → n < result → integer_of bits signed n ≡ pos n }
{
    if !signed {
        return MILLION;
    }
    if bits > 20 {
        return MILLION;
    }
    if bits == 0 { 1 } else { 1 << (bits - 1) }
}

/// Whether all numbers are below another. It ends behind the last one whatever they are, so that it can
/// look at many at once.
pub fn are_below<W: Word>(words: &[W], end: u64) -> bool
    ensures { IsTrue result → AreBelow end (map W.number words.now) }
{
    let mut all = true;
    for word in words {
        all &= word.number() < end;
    }
    all
}

/// Appends the integers that words stand for, a mark in front of the first, and commas.
#[inline(always)]
fn put_some<W: Word>(
    mark: u8,
    words: &[W],
    bits: u8,
    signed: bool,
    out: &mut Vec<u8>,
) -> Result<(), AllocError>
    ensures ok { OnOk result (out.new.items ≡ out.old.items
        ++ integers_text mark (map (integer_of bits signed) (map W.number words.now))) }
    ensures kept { take (length out.old.items) out.new.items ≡ out.old.items }
{
    let mut next = mark;
    for word in words {
        put_integer(next, word.number(), bits, signed, out)?;
        next = b',';
    }
    Ok(())
}

/// Appends the integers that a few words stand for, a mark in front of the first, and commas: in room
/// for all of them, where it isn't known that they don't fit there.
#[inline(always)]
fn put_rest<W: Word>(
    long: bool,
    mark: u8,
    words: &[W],
    bits: u8,
    signed: bool,
    out: &mut Vec<u8>,
) -> Result<(), AllocError>
    requires { length words.now < 8 }
    ensures ok { OnOk result (out.new.items ≡ out.old.items
        ++ integers_text mark (map (integer_of bits signed) (map W.number words.now))) }
    ensures kept { take (length out.old.items) out.new.items ≡ out.old.items }
{
    if long {
        return put_some(mark, words, bits, signed, out);
    }
    let end = short_end(bits, signed);
    let len = out.len();
    out.extend_from_slice(&BLOCK_ROOM)?;
    let count = place_below(mark, words, end, 0, &mut out[len..]);
    out.truncate(len + count);
    if count == 0 {
        return put_some(mark, words, bits, signed, out);
    }
    Ok(())
}

/// Appends the integers that eight words stand for, a mark in front of the first, and commas.
#[inline(always)]
fn put_eight<W: Word>(
    mark: u8,
    words: &[W],
    bits: u8,
    signed: bool,
    out: &mut Vec<u8>,
) -> Result<(), AllocError>
    requires { length words.now ≡ 8 }
    ensures ok { OnOk result (out.new.items ≡ out.old.items
        ++ integers_text mark (map (integer_of bits signed) (map W.number words.now))) }
    ensures kept { take (length out.old.items) out.new.items ≡ out.old.items }
{
    let end = short_end(bits, signed);
    if are_below(words, end) {
        put_block(mark, words, out)
    } else {
        put_some(mark, words, bits, signed, out)
    }
}

/// Appends the integers that words stand for, a mark in front of the first, and commas.
#[inline(always)]
pub fn put_integers<W: Word>(
    first: u8,
    words: &[W],
    bits: u8,
    signed: bool,
    out: &mut Vec<u8>,
) -> Result<(), AllocError>
    ensures ok { OnOk result (out.new.items ≡ out.old.items
        ++ integers_text first (map (integer_of bits signed) (map W.number words.now))) }
    ensures kept { take (length out.old.items) out.new.items ≡ out.old.items }
{
    let mut mark = first;
    let blocks = words.len() / 8;
    for i in 0..blocks {
        put_eight(mark, &words[8 * i..8 * i + 8], bits, signed, out)?;
        mark = b',';
    }
    put_rest(blocks == 0, mark, &words[8 * blocks..], bits, signed, out)?;
    Ok(())
}

/// Appends the array of the integers that words stand for.
fn put_array<W: Word>(
    words: &[W],
    bits: u8,
    signed: bool,
    out: &mut Vec<u8>,
) -> Result<(), AllocError>
    ensures ok { OnOk result (out.new.items ≡ out.old.items
        ++ line_of (integer_trees bits signed (map W.number words.now))) }
    ensures kept { take (length out.old.items) out.new.items ≡ out.old.items }
{
    put_integers(b'[', words, bits, signed, out)?;
    put_end(words.len() > 0, out)?;
    Ok(())
}

/// Appends a mark, and then the array of the integers that any words stand for.
#[inline(never)]
fn put_any<W: Word>(
    mark: u8,
    words: &[W],
    bits: u8,
    signed: bool,
    out: &mut Vec<u8>,
) -> Result<(), AllocError>
    ensures ok { OnOk result (out.new.items ≡ out.old.items
        ++ mark ∷ line_of (integer_trees bits signed (map W.number words.now))) }
    ensures kept { take (length out.old.items) out.new.items ≡ out.old.items }
{
    out.push(mark)?;
    put_array(words, bits, signed, out)?;
    Ok(())
}

/// Appends a mark, and then the array of the integers that a few words stand for.
#[inline(always)]
fn put_few<W: Word>(
    mark: u8,
    words: &[W],
    bits: u8,
    signed: bool,
    out: &mut Vec<u8>,
) -> Result<(), AllocError>
    requires { length words.now < 8 }
    ensures ok { OnOk result (out.new.items ≡ out.old.items
        ++ mark ∷ line_of (integer_trees bits signed (map W.number words.now))) }
    ensures kept { take (length out.old.items) out.new.items ≡ out.old.items }
{
    let end = short_end(bits, signed);
    let len = out.len();
    out.extend_from_slice(&BLOCK_ROOM)?;
    let count = place_array(mark, words, end, &mut out[len..]);
    out.truncate(len + count);
    if count == 0 {
        return put_any(mark, words, bits, signed, out);
    }
    Ok(())
}

/// Appends a mark, and then the array of the integers that words stand for.
#[inline(never)]
fn put_words<W: Word>(
    mark: u8,
    words: &[W],
    bits: u8,
    signed: bool,
    out: &mut Vec<u8>,
) -> Result<(), AllocError>
    ensures ok { OnOk result (out.new.items ≡ out.old.items
        ++ mark ∷ line_of (integer_trees bits signed (map W.number words.now))) }
    ensures kept { take (length out.old.items) out.new.items ≡ out.old.items }
{
    if words.len() < 8 {
        put_few(mark, words, bits, signed, out)
    } else {
        put_any(mark, words, bits, signed, out)
    }
}

/// Appends a mark, and then the array of the integers that elements stand for.
#[inline(always)]
pub fn put_lent(
    mark: u8,
    words: WordSlice<'_>,
    bits: u8,
    signed: bool,
    out: &mut Vec<u8>,
) -> Result<(), AllocError>
    ensures ok { OnOk result (out.new.items ≡ out.old.items
        ++ mark ∷ line_of (integer_trees bits signed (numbers (lent_elements words.entry)))) }
    ensures kept { take (length out.old.items) out.new.items ≡ out.old.items }
{
    match words {
        WordSlice::Bits(list) => put_words(mark, list, bits, signed, out),
        WordSlice::Bytes(list) => put_words(mark, list, bits, signed, out),
        WordSlice::Words16(list) => put_words(mark, list, bits, signed, out),
        WordSlice::Words32(list) => put_words(mark, list, bits, signed, out),
        WordSlice::Words64(list) => put_words(mark, list, bits, signed, out),
    }
}
