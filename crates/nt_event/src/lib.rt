//! Event text: lines of JSON to trees, and back.
//!
//! Start at [`LineReader`], which gives the lines of a text; [`blank`] tells those without an entry, [`read_line`] reads
//! an entry by the fields of a schema, and [`write_line`] appends the line of one; [`write_text`] appends one text of it.
//!
//! Its words: an *entry* is one tree for each field; its *line* is a JSON array with one value for each field. A value in its
//! *compact form* stands as `write_line` prints it. What a line means is `entry_of` (specs/Entry.antt), by what
//! `serde_json` reads; what an entry's line is, `line_of` (specs/Json.antt); what the next line is, `GivesLine`
//! (specs/Lines.antt). That a line is read back as its entry is the clause of [`lines_are_read_back`].
//!
//! Who reads values in another way takes their pieces from [`after`], [`comma`], [`unsigned_integer`], [`plain_string`] and the
//! others beside them; [`spelled_trees_are_read`] says that what they spell is what `read_line` reads.
//!
//! Choices that bind nobody else: digits are read eight at once (nt_digits), since most of a line's bytes are
//! digits; byte by byte only near the end of a line. What reads a number of fewer than eight digits is inlined whole, so that a loop
//! over many of them makes no calls; [`quick_item`] reads one behind a comma by one test of the line's length. The bytes of a string
//! are looked at eight at once too, up to the first that doesn't stand for itself.
#![tactic(auto)]

mod blanks;
mod entry;
mod escapes;
mod fault;
mod integers;
mod laws;
mod leaf;
mod lines;
mod marks;
mod printing;
mod quoted;
mod ready;
mod scan;
mod single;
mod strings;
mod values;

pub use blanks::blank;
pub use entry::read_line;
pub use fault::{TextError, TextKind};
pub use integers::{number, quick_item, signed_integer, unsigned_integer};
pub use laws::{lines_are_read_back, spelled_trees_are_read};
pub use lines::{Line, LineError, LineReader};
pub use marks::{after, after_blanks, comma, comma_if, null, truth};
pub use printing::write_line;
pub use quoted::plain_string;
pub use strings::write_text;
