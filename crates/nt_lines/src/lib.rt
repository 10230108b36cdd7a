//! The lines of many entries, without trees and without a look at a column for each value.
//!
//! All of it is on the hot path of printing. Start at `write_entries` in `lines.rt`. It looks up what the columns of each plan lend
//! (`lent.rt`), appends room for many lines once, and writes entry by entry (`entry.rt`) the values behind one another there (`placing.rt`,
//! `options.rt`). A value that isn't read from words which lie together, such as a record, a choice or a text with an escape, is made apart
//! by nt_print, and copied.
//!
//! Words: those of nt_print; what columns *lend* are their elements as they lie.
//!
//! Proved: `write_entries` appends exactly the lines (`written_lines`) of the trees that nt_join's `entry` gives, of at least one entry;
//! where memory runs out it appends nothing.
//!
//! Choices that bind nobody else:
//! - Where a line doesn't fit in the room any more, the rest of it is appended, and it is the last line of the call. So no value is made
//!   twice, whatever the length of lines.
//! - A number has 33 bytes of room, and a list 32 for each of its numbers: a list that may not fit is appended.
#![tactic(auto)]

mod entry;
mod lent;
mod lines;
mod options;
mod placing;

pub use lines::write_entries;
