//! Values that are written to room behind what is written, where they fit there and need nothing else.
//!
//! Each says where it ends, or 0 where it isn't written; what stands before it stays in any case.

ghost use Rattle.std.specs.Prelude.{◌≡◌, ◌+◌, ◌-◌, ◌*◌, ◌<◌, ◌≤◌, ◌∷◌, ◌++◌, ℕ, length, map, take, None, IfSome};
ghost use Rattle.serde_json.specs.Written.{compact_text};
ghost use Rattle.nt_event.specs.Json.{data_of, line_of};
ghost use Rattle.nt_types.specs.TreeData.{num, text};
ghost use Rattle.nt_column.specs.Elements.{plain, text_of};
ghost use Rattle.nt_trees.specs.Columns.{number_at};
ghost use Rattle.nt_trees.specs.Integers.{integer_of};
ghost use Rattle.nt_print.specs.Integers.{integer_trees, integers_text};
ghost use Rattle.nt_lines.specs.Lent.{HasPart, HasValue, part_at, lent_tree};
ghost use Rattle.nt_lines.specs.declared.lent.Lent.TheVariants.{Nothing};

use crate::lent::Lent;
use crate::options::{Options, place_lent_options, place_optional};
use nt_print::{
    Word, are_below, begin_in, end_in, place_byte, place_digits, place_each, place_end, place_text,
    short_end, signed_of,
};

/// So much room has a number with its mark and sign, and what is written behind it.
pub const NUMBER_ROOM: usize = 33;

/// Of fewer integers each is looked at by itself.
const FEW: usize = 64;

/// Writes a mark, and then a number with its sign if it is below zero.
#[inline(never)]
fn place_signed(mark: u8, n: i64, at: usize, room: &mut [u8]) -> usize
    requires { at + 33 ≤ length room.old }
    ensures text { take result room.new ≡ take at room.old ++ mark ∷ compact_text (data_of (num n)) }
    ensures few { result ≤ at + 26 }
    ensures len { length room.new ≡ length room.old }
{
    if n >= 0 {
        return place_digits(mark, n.unsigned_abs(), at, room);
    }
    place_byte(mark, at, room);
    place_digits(b'-', n.unsigned_abs(), at + 1, room)
}

/// Writes a mark, and then the integer that an element of this width and sign stands for.
#[inline(always)]
pub fn place_integer(mark: u8, element: u64, form: (u8, bool), at: usize, room: &mut [u8]) -> usize
    requires { at + 33 ≤ length room.old }
    ensures text { take result room.new ≡ take at room.old ++ mark ∷ compact_text
        (data_of (num (integer_of form.0 form.1 element))) }
    ensures few { result ≤ at + 26 }
    ensures len { length room.new ≡ length room.old }
{
    let (bits, signed) = form;
    if !signed {
        return place_digits(mark, element, at, room);
    }
    // A width of more than 64 bits: no element is as large as half of it.
    if bits > 64 {
        return place_digits(mark, element, at, room);
    }
    place_signed(mark, signed_of(element, bits), at, room)
}

/// The same where there is room.
#[inline(always)]
fn place_number(mark: u8, element: u64, form: (u8, bool), at: usize, room: &mut [u8]) -> usize
    requires { at ≤ length room.old }
    ensures text { 0 < result → take result room.new ≡ take at room.old ++ mark ∷ compact_text
        (data_of (num (integer_of form.0 form.1 element))) }
    ensures kept { take at room.new ≡ take at room.old }
    ensures within { (result ≤ length room.new) × (length room.new ≡ length room.old) }
{
    if room.len() - at < NUMBER_ROOM {
        return 0;
    }
    place_integer(mark, element, form, at, room)
}

/// Writes the integers that words stand for, a mark in front of the first, and commas.
#[inline(always)]
fn place_any<W: Word>(
    mark: u8,
    words: &[W],
    form: (u8, bool),
    from: usize,
    room: &mut [u8],
) -> usize
    requires { from + 26 * length words.now + 33 ≤ length room.old }
    ensures text { take result room.new ≡ take from room.old
        ++ integers_text mark (map (integer_of form.0 form.1) (map W.number words.now)) }
    ensures few { result ≤ from + 26 * length words.now }
    ensures len { length room.new ≡ length room.old }
{
    let mut next = mark;
    let mut at = from;
    for word in words {
        at = place_integer(next, word.number(), form, at, room);
        next = b',';
    }
    at
}

/// The same, in a shorter way where there are many, and all have at most six digits.
#[inline(always)]
fn place_integers<W: Word>(
    mark: u8,
    words: &[W],
    form: (u8, bool),
    from: usize,
    room: &mut [u8],
) -> usize
    requires { from + 26 * length words.now + 33 ≤ length room.old }
    ensures text { take result room.new ≡ take from room.old
        ++ integers_text mark (map (integer_of form.0 form.1) (map W.number words.now)) }
    ensures few { result ≤ from + 26 * length words.now }
    ensures len { length room.new ≡ length room.old }
{
    if words.len() < FEW {
        return place_any(mark, words, form, from, room);
    }
    if are_below(words, short_end(form.0, form.1)) {
        return place_each(mark, words, from, room);
    }
    place_any(mark, words, form, from, room)
}

/// Writes a mark, and then the array of the integers that words stand for, where there is room for the longest.
#[inline(never)]
fn place_list<W: Word>(mark: u8, words: &[W], form: (u8, bool), at: usize, room: &mut [u8]) -> usize
    requires { at ≤ length room.old }
    ensures text { 0 < result → take result room.new ≡ take at room.old
        ++ mark ∷ line_of (integer_trees form.0 form.1 (map W.number words.now)) }
    ensures kept { take at room.new ≡ take at room.old }
    ensures within { (result ≤ length room.new) × (length room.new ≡ length room.old) }
{
    let numbers = (room.len() - at) / 32;
    if numbers < 2 || words.len() > numbers - 2 {
        return 0;
    }
    place_byte(mark, at, room);
    let end = place_integers(b'[', words, form, at + 1, room);
    place_end(words.len() > 0, end, room)
}

/// Writes a mark, and then bytes between quotes, where there is room and they stand for themselves.
#[inline(never)]
fn place_quoted(mark: u8, bytes: &[u8], at: usize, room: &mut [u8]) -> usize
    requires { at ≤ length room.old }
    ensures text { 0 < result → take result room.new ≡ take at room.old
        ++ mark ∷ compact_text (data_of (text (text_of (map plain bytes.now)))) }
    ensures kept { take at room.new ≡ take at room.old }
    ensures within { (result ≤ length room.new) × (length room.new ≡ length room.old) }
{
    let left = room.len() - at;
    if left < 3 || bytes.len() > left - 3 {
        return 0;
    }
    let count = place_text(mark, bytes, &mut room[at..]);
    if count == 0 {
        return 0;
    }
    at + count
}

/// The words of an element's part of others.
#[inline(always)]
fn part_of<'a, W: Copy>(ends: &[u64], words: &'a [W], i: usize) -> &'a [W]
    requires { HasPart ends.now (length words.now) i }
    ensures { result.now ≡ part_at ends.now words.now i }
{
    &words[begin_in(ends, i) as usize..end_in(ends, i) as usize]
}

/// The number of an element.
#[inline(always)]
pub fn number_in<W: Word>(words: &[W], i: usize) -> u64
    requires { i < length words.now }
    ensures { result ≡ number_at (map plain (map W.number words.now)) i }
{
    words[i].number()
}

/// Writes bytes behind what is written, where there is room.
pub fn place_all(bytes: &[u8], at: usize, room: &mut [u8]) -> usize
    requires { at ≤ length room.old }
    ensures text { 0 < result → take result room.new ≡ take at room.old ++ bytes.now }
    ensures kept { take at room.new ≡ take at room.old }
    ensures within { (result ≤ length room.new) × (length room.new ≡ length room.old) }
{
    let count = bytes.len();
    if room.len() - at < count {
        return 0;
    }
    room[at..at + count].copy_from_slice(bytes);
    at + count
}

/// Whether a value that found no room among so many bytes may have room where it is made apart: one that isn't lent, or a text in which
/// something is escaped. Any other that is lent wants more room.
#[inline(always)]
pub fn is_made_apart(lent: &Lent<'_>, i: usize, left: usize) -> bool
    requires { HasValue lent.now i }
{
    match lent {
        Lent::Nothing => true,
        Lent::Texts(ends, bytes) => part_of(ends, bytes, i).len() < left,
        _ => false,
    }
}

/// Writes a mark, and then a value that columns lend.
#[inline(always)]
pub fn place_lent(lent: &Lent<'_>, i: usize, mark: u8, at: usize, room: &mut [u8]) -> usize
    requires { HasValue lent.now i × (at ≤ length room.old) }
    ensures text { 0 < result → take result room.new ≡ take at room.old
        ++ mark ∷ compact_text (data_of (lent_tree lent.now i)) }
    ensures none { lent.now ≡ Nothing → result ≡ 0 }
    ensures kept { take at room.new ≡ take at room.old }
    ensures within { (result ≤ length room.new) × (length room.new ≡ length room.old) }
{
    match lent {
        Lent::Numbers32(words, bits, signed) => {
            place_number(mark, number_in(words, i), (*bits, *signed), at, room)
        }
        Lent::Numbers64(words, bits, signed) => {
            place_number(mark, number_in(words, i), (*bits, *signed), at, room)
        }
        Lent::Options32(ends, words, bits, signed) => {
            let form = (*bits, *signed);
            place_optional(mark, Options { ends, words, form }, i, at, room)
        }
        Lent::Options64(ends, words, bits, signed) => {
            let form = (*bits, *signed);
            place_optional(mark, Options { ends, words, form }, i, at, room)
        }
        Lent::Lists32(ends, words, bits, signed) => {
            place_list(mark, part_of(ends, words, i), (*bits, *signed), at, room)
        }
        Lent::Lists64(ends, words, bits, signed) => {
            place_list(mark, part_of(ends, words, i), (*bits, *signed), at, room)
        }
        Lent::OptionLists32(..) | Lent::OptionLists64(..) => {
            place_lent_options(lent, i, mark, at, room)
        }
        Lent::Texts(ends, bytes) => place_quoted(mark, part_of(ends, bytes, i), at, room),
        Lent::Nothing => 0,
    }
}
