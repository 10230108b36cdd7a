//! Writes a file from a schema text and a script of a host: the work of the command `seq`.
//!
//! A *script* is an event text in which lines that begin with a plus each add a field for the events behind them. Start at
//! `specs/Script.antt`, which says what is read of a script, and at `store_script` in `hosting.rt`. `storing.rt` writes the
//! file on a disk; `write_script` in `running.rt` goes from line to line and writes what is read through a sequential
//! writer, `taking.rt` takes a line of events, `adding.rt` the field of a line; `error.rt` and `store_error.rt` are why that
//! ends early, and `laws.rt` says which fields a table has.
//!
//! Words: a *segment* is the lines of events up to the next one that adds a field; entries are *written next* as a whole
//! cluster, or as the last of their segment; a table has *just* some fields where their names, their number and what fits them are
//! those of its rows; the *whole* file of a script means the schema with all its fields and just its clusters, and is laid
//! out for them (`specs/Whole.antt`). What is *left open*, and what a crash *leaves*, is as in nt_store.
//!
//! Proved of `write_script` (`ended`): after `Ok` no line of the text is bad, its fields stand in the schema, each added
//! behind all entries before it, and the writer has written just its clusters: those of each segment, each entry with the
//! zeros of the fields that were added behind it. A line that is told is the first bad one, and what is written in front of
//! it passes no limit; a limit is one that a cluster passes where it is written, or the page list in front of it, and those
//! before it don't (`specs/Passing.antt`, with the lists of all full groups counted in `specs/Limits.antt`).
//! `Outside` comes only where a count of faults rose. What is gathered is written before a line adds its field, whatever that
//! line says (`done` of `add_field`). A table that describes fields has just these (`tables_have_just_their_fields`).
//!
//! Proved of `store_script` (`StoresScript`): after `Ok` the file is the whole one of the script, within the limits (`fits`), and exactly
//! the line of its numbers was printed; a schema fault is the text's first one, a bad line the script's first one, and a limit one that
//! is passed where the file is begun, where a cluster or the page list in front of it is written, or where the file is closed. After a
//! schema fault no file was made, and nothing but the schema text was asked for; after a bad line and a limit the file is left open,
//! after `Memory` it is so or wasn't made, and after `Outside` too, unless it is whole or its first append failed; of a file that is
//! whole then, either the step of its first byte failed or the sync behind it, and nothing is printed, or the print of its numbers
//! failed. The first byte is written over only when all the rest stays.
//! So wherever a crash comes behind the first sync, it leaves a file that is refused as unfinished, or, where the
//! first byte was written over before, the whole one; behind all steps of `Ok` just that, and of an answer but `Ok` and
//! `Outside` only what is unfinished. `Outside` comes only where the host's count rose, and each object that was opened
//! comes back. Nothing is only tested.
//!
//! Whether a whole file is within the limits is told of what is kept of its clusters, or would be, each by the fields that
//! there are when it is written (`specs/Fitting.antt`). That this is one thing isn't proved. So a file *fits* where all of
//! it is within them, and *may fit* where some of it is; a limit that is told is passed by some
//! (`whole_files_pass_what_scripts_pass`).
#![tactic(auto)]

mod adding;
mod error;
mod hosting;
mod laws;
mod running;
mod store_error;
mod storing;
mod taking;

pub use error::{LineFault, ScriptError};
pub use hosting::{ScriptNames, print_counts, store_script};
pub use laws::{tables_have_just_their_fields, whole_files_pass_what_scripts_pass};
pub use running::write_script;
pub use store_error::ScriptStoreError;
pub use storing::Counts;
