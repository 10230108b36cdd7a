//! Optional integers and lists of these, written to room.

ghost use Rattle.std.specs.Prelude.{◌≡◌, ◌+◌, ◌-◌, ◌<◌, ◌≤◌, ◌∷◌, ◌++◌, ℕ, length, map, take, None, IfSome};
ghost use Rattle.serde_json.specs.Written.{compact_text};
ghost use Rattle.nt_event.specs.Json.{data_of, line_of};
ghost use Rattle.nt_types.specs.TreeData.{nothing};
ghost use Rattle.nt_column.specs.Elements.{plain};
ghost use Rattle.nt_trees.specs.Columns.{begin_at, number_at};
ghost use Rattle.nt_trees.specs.TreeAt.{trees_from};
ghost use Rattle.nt_lines.specs.Lent.{HasPart, HasValue, option_tree, lent_tree};
ghost use Rattle.nt_lines.specs.declared.lent.Lent.TheVariants.{Nothing};

use crate::lent::Lent;
use crate::placing::{NUMBER_ROOM, number_in, place_integer};
use nt_print::{Word, begin_in, end_in, mark_before, place_byte, place_end};

/// Where the number of an optional stands, if it has one.
#[inline(always)]
fn option_at(ends: &[u64], i: usize) -> Option<usize>
    requires { i < length ends.now }
    ensures some { IfSome result (λ k. (k ≡ begin_at (map plain ends.now) i) × (k < number_at (map plain ends.now) i)) }
    ensures none { result ≡ None → number_at (map plain ends.now) i ≤ begin_at (map plain ends.now) i }
{
    let from = begin_in(ends, i);
    if from < end_in(ends, i) {
        return Some(from as usize);
    }
    None
}

/// Writes a mark, and then what stands for no value.
#[inline(always)]
fn place_null(mark: u8, at: usize, room: &mut [u8]) -> usize
    requires { at + 5 ≤ length room.old }
    ensures text { take result room.new ≡ take at room.old ++ mark ∷ compact_text (data_of nothing) }
    ensures few { result ≤ at + 5 }
    ensures len { length room.new ≡ length room.old }
{
    place_byte(mark, at, room);
    room[at + 1..at + 5].copy_from_slice(b"null");
    at + 5
}

/// Optional integers: where each ends, the words that they stand in, and their width and sign.
#[derive(Clone, Copy)]
pub struct Options<'a, W> {
    pub ends: &'a [u64],
    pub words: &'a [W],
    pub form: (u8, bool),
}

/// Writes a mark, and then the optional integer of an element.
#[inline(always)]
fn place_option<W: Word>(
    mark: u8,
    options: Options<'_, W>,
    i: usize,
    at: usize,
    room: &mut [u8],
) -> usize
    requires { HasPart options.ends.now (length options.words.now) i × (at + 33 ≤ length room.old) }
    ensures text { take result room.new ≡ take at room.old ++ mark ∷ compact_text
        (data_of (option_tree options.entry.ends.now (map W.number options.entry.words.now) options.entry.form.0 options.entry.form.1 i)) }
    ensures few { result ≤ at + 26 }
    ensures len { length room.new ≡ length room.old }
{
    match option_at(options.ends, i) {
        Some(k) => place_integer(mark, number_in(options.words, k), options.form, at, room),
        None => place_null(mark, at, room),
    }
}

/// The same where there is room.
#[inline(always)]
pub fn place_optional<W: Word>(
    mark: u8,
    options: Options<'_, W>,
    i: usize,
    at: usize,
    room: &mut [u8],
) -> usize
    requires { HasPart options.ends.now (length options.words.now) i × (at ≤ length room.old) }
    ensures text { 0 < result → take result room.new ≡ take at room.old ++ mark ∷ compact_text
        (data_of (option_tree options.entry.ends.now (map W.number options.entry.words.now) options.entry.form.0 options.entry.form.1 i)) }
    ensures kept { take at room.new ≡ take at room.old }
    ensures within { (result ≤ length room.new) × (length room.new ≡ length room.old) }
{
    if room.len() - at < NUMBER_ROOM {
        return 0;
    }
    place_option(mark, options, i, at, room)
}

/// Writes a mark, and then the array of the optional integers from one place to before another, where there is room for the longest.
#[inline(never)]
fn place_options<W: Word>(
    mark: u8,
    options: Options<'_, W>,
    part: (usize, usize),
    at: usize,
    room: &mut [u8],
) -> usize
    requires has { (part.0 ≤ part.1) × ((j : ℕ) → j < part.1 → HasPart options.ends.now (length options.words.now) j) }
    requires within { at ≤ length room.old }
    ensures text { let tree = option_tree options.entry.ends.now (map W.number options.entry.words.now) options.entry.form.0 options.entry.form.1 in
        0 < result → take result room.new ≡ take at room.old ++ mark ∷ line_of (trees_from tree part.0 (part.1 - part.0)) }
    ensures kept { take at room.new ≡ take at room.old }
    ensures within { (result ≤ length room.new) × (length room.new ≡ length room.old) }
{
    let (from, to) = part;
    let numbers = (room.len() - at) / 32;
    if numbers < 2 || to - from > numbers - 2 {
        return 0;
    }
    place_byte(mark, at, room);
    let mut later = false;
    let mut end = at + 1;
    for i in from..to {
        end = place_option(mark_before(later), options, i, end, room);
        later = true;
    }
    place_end(later, end, room)
}

/// Writes a mark, and then a list of optional integers that columns lend. It stands apart, so that nothing is set up for such lists where
/// other values are written.
#[inline(never)]
pub fn place_lent_options(lent: &Lent<'_>, i: usize, mark: u8, at: usize, room: &mut [u8]) -> usize
    requires { HasValue lent.now i × (at ≤ length room.old) }
    ensures text { 0 < result → take result room.new ≡ take at room.old
        ++ mark ∷ compact_text (data_of (lent_tree lent.now i)) }
    ensures none { lent.now ≡ Nothing → result ≡ 0 }
    ensures kept { take at room.new ≡ take at room.old }
    ensures within { (result ≤ length room.new) × (length room.new ≡ length room.old) }
{
    match lent {
        Lent::OptionLists32(lists, ends, words, bits, signed) => {
            let form = (*bits, *signed);
            let part = (begin_in(lists, i) as usize, end_in(lists, i) as usize);
            place_options(mark, Options { ends, words, form }, part, at, room)
        }
        Lent::OptionLists64(lists, ends, words, bits, signed) => {
            let form = (*bits, *signed);
            let part = (begin_in(lists, i) as usize, end_in(lists, i) as usize);
            place_options(mark, Options { ends, words, form }, part, at, room)
        }
        _ => 0,
    }
}
