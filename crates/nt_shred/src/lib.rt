//! Entries to columns: the elements of an entry at the ends of the columns of a set, from its trees or from its line.
//!
//! Start at `entry.rt` with nt_trees' `specs/Put` (what an entry adds), then `putting.rt`, the walk over plans and
//! trees; or at [`Direct`] in `line.rt`: `put_line` reads a line of event text as it adds its elements, without trees,
//! or refuses it. Then `values.rt`, the walk over plans and text, `leaves.rt`, the values without parts,
//! `integer_runs.rt`, integers that stand one after the other, `lists.rt`, lists of integers, `optional.rt`, optional
//! integers and lists of these, and `room.rt`, what is done before and after a line. Both walks add by the steps of
//! `pushing.rt`, `growing.rt` and `counting.rt`; `integers.rt` has what both know of integers. Nearly every entry that is
//! written comes as a line, and every one through these steps, so keep them free of maps, of memory for single values,
//! and of walks over the rows of a schema.
//!
//! Words: those of nt_trees and nt_event; a *frame* is what stays of a set of columns while it is filled; *room*
//! is memory for elements, and ends that can count them; columns of ends are *narrow* where these
//! have 32 bits. A line is *taken* where its entry was added, and *refused* where nothing was; of a refused line
//! nothing is said, and it is to be read as trees.
//!
//! Proved: an entry adds exactly its elements (`added`), so that columns stay sound and the entry's
//! trees are those of the new element (`last`); types stay (`frame`); where memory is wanting, no
//! column has changed (`refused`), since all growth comes first. Of a line that is taken, that it spells trees which fit
//! the schema, and that the columns have exactly what these add (`PutsEntry`); of a refused one, that no column has
//! changed (`put_line`).
//!
//! Only tested: nothing. Not proved: how much memory is taken; which lines are taken, and how long it takes.
//!
//! Choices that bind nobody else:
//! - There is one walk over values, `value_in_place`. Where an entry or a record goes over its fields it is inlined, so that integers,
//!   truth values, texts, lists of integers and optional integers are read right there, without a call by their plan.
//! - What lies inside is added first. So an end is the number of its elements then, and the index
//!   of a choice that before, and nothing is counted beside the columns.
//! - Each column gets room for as many elements as the entry adds to any one of them at most: texts
//!   and lists count what they hold, a record its largest part, and each of them one at least. Of a line it is as many as
//!   the line has bytes: each element of a column stands there as one byte at least that no other element of that
//!   column has. Then nothing can fail.
//! - What ends of 32 bits can't count is want of memory.
//! - The walks go as deep as the plans, which are of open fields and so of 64 levels at most.
//! - Refused are strings with escapes, lines above 4096 bytes, and those for which there is no memory.
//! - In no schema is what an optional contains `null` itself. By a plan in which it could be, as that of an optional in an optional,
//!   only `null` is taken, as no value.
//! - How much room all columns have is counted down from line to line, by the bytes of each, so that a line asks one test. Where it is
//!   used up, or something else was done to the columns, each of them is looked at.
//! - What was added of a refused line is cut off again, at the lengths that were noted before it.
//! - A line of ASCII alone, as most are, is seen to be UTF-8 sixteen bytes at a time (`ascii.rt`), others by simdutf8.
//! - Fewer than eight bytes are added one by one (`FEW` in `pushing.rt`), which is quicker than a copy of them; more at once.
//! - Integers one after the other, which most values are, are read as a run, by a loop of its own for each width and sign, in which
//!   the plan and the column are looked up once. A run ends at what is no integer.
//! - A list of integers is one run. A list of optional integers is a row of runs: of integers up to the next `null`, and then their
//!   ends, which count on by one, and of a `null` with the end before it once more.
#![tactic(auto)]

mod ascii;
pub mod counting;
mod entry;
pub mod growing;
mod integer_runs;
pub mod integers;
mod leaves;
mod line;
mod lists;
mod most;
mod optional;
mod parts;
pub mod pushing;
mod putting;
mod room;
mod values;

pub use ascii::is_utf8;
pub use entry::shred;
pub use line::Direct;
