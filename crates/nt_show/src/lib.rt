//! What is read of a file, printed: its entries as lines of event text, and a line for each field of
//! its schema.
//!
//! Start at `entries.rt` (`show_entries`) and `fields.rt` (`show_fields`); `lines.rt` gathers the lines
//! before they are printed, and `entry_range.rt` is which entries are to be shown. Both are generic in
//! the host that prints and in the file that is read.
//!
//! Words: what is *shown* of a file is what is printed once it is read, or before its first fault is
//! told (`specs/Shown.antt`); a cluster is *sound* that has no fault; bytes *wait* that are gathered and
//! not yet printed.
//!
//! Proved: by the answer, what was printed of the bytes of a file that tells them (`ShowsFile`): all of
//! what nt_file_meaning reads of it, or the lines before its first fault and not one more, or, where printing failed, a prefix of these;
//! that a fault comes only where the host's or the file's count rose; and that nothing but prints on out
//! happens to the host. `sound_clusters_end_at_the_fault` says which clusters are shown of a file with a
//! fault. That lines are gathered to 64 KiB, and that memory is that of one cluster, no clause says.
#![tactic(auto)]

mod entries;
mod entry_range;
mod fields;
mod laws;
mod lines;

pub use entries::show_entries;
pub use entry_range::EntryRange;
pub use fields::show_fields;
pub use laws::sound_clusters_end_at_the_fault;
