//! Columns of a cluster to the lines of its entries, without trees.
//!
//! Start at `write_entry`, which appends the line of one entry. It goes over any `Columns` by the plans
//! of a schema's open fields, as nt_join does for trees; nothing here reads rows. Most values are the
//! numbers of lists: `lists.rt` prints these from where their column lies, `few.rt` those of a short
//! list, `blocks.rt` eight of a longer one at once, and `marked.rt` any number; `optional.rt` prints lists of
//! optional integers. Most texts are of
//! characters that stand for themselves: `short.rt` sees it while it writes a short one.
//!
//! The other public calls are the pieces of which nt_lines makes the lines of many entries: they write to room that was appended, or
//! append one value.
//!
//! Words: those of nt_trees and nt_event; a *line* is the JSON array of an entry, and its LF; a *mark* is
//! the byte in front of a value: the bracket of its array, or a comma.
//!
//! Proved: `write_entry` appends exactly the line (`line_of` of nt_event) of the trees that nt_join's
//! `entry` gives, the definition `each_at`; where memory runs out it appends nothing.
//!
//! Not proved: that nothing but what is appended takes memory. A text that is lent is printed from
//! where it lies; one that is not UTF-8 is first written as hex.
//!
//! Choices that bind nobody else:
//! - Numbers are printed as 64-bit integers, since no element is wider. Room for the longest and its mark
//!   is appended, written to three digits at a time, and cut behind the last.
//! - Of a list's numbers, eight of up to six digits share such room, and so do the last few; a whole list
//!   of fewer shares it with its mark and brackets.
//! - A text of up to 29 bytes is written to such room, eight bytes at a time; the last eight may be there
//!   already in part. A longer one is looked at first, and then appended.
//! - Where the part of an element stands is one look at the column of its ends, where they lie together.
//! - A list of optional integers is printed by runs, of integers up to the next that is missing, and of `null`. As
//!   many ends as integers say that none is missing: then it is the list of the integers, and no end is looked at.
//! - A list of numbers that don't lie together, as those of a column of zeros, is read 32 numbers at a time.
//! - It goes as deep as the plans do, which is at most 64 levels.
#![tactic(auto)]

mod blocks;
mod digits;
mod entry;
mod few;
mod integers;
mod leaves;
mod lists;
mod marked;
mod optional;
mod reading;
mod room;
mod short;
mod simple;
mod spans;
mod texts;
mod triples;
mod values;
mod words;

pub use blocks::place_each;
pub use entry::write_entry;
pub use few::place_end;
pub use integers::{Integers, integers_of};
pub use leaves::{mark_before, put_end, signed_of};
pub use lists::{are_below, short_end};
pub use marked::place_digits;
pub use room::place_byte;
pub use short::place_text;
pub use spans::{begin_in, end_in};
pub use values::put_value;
pub use words::Word;
