//! How a file is begun and closed on a disk.
//!
//! `begin` puts the head of a file, whose first byte is 0, and the header of its fields on an empty
//! disk, and gives the schema and the book of the clusters to come. Their page lists are to stand
//! beside them, or, where the parameters say that clusters are staged, behind all ranges. `close`
//! puts the page lists that are left, footer, anchor and lists behind the ranges, then file header
//! and directory in front of the header; it writes the first byte last, once all of that is synced.
//! `write_begin` and `write_end` are the steps of each, for bytes that are made. Start at
//! `beginning.rt` and `closing.rt`. Which bytes these are is said in `specs/Filled.antt` and in
//! `nt_layout` (`file_begun`, `finished`), in which order they are written in `specs/Steps.antt`,
//! which limits they keep in `specs/Passing.antt`.
//!
//! Proved of `begin`: after `Ok` the disk holds exactly that head and the header, with their steps
//! in its log, and schema and book are those of the fields (`begun`); after a refusal what is left,
//! and which limit is passed (`refused`). Of `close`: the cause of each answer, the lowest spoiled
//! range, the page list that failed, the lowest filled range that is no cluster and the first limit
//! that is passed (`cause` in `closes`); that after `Ok` each filled range is a cluster
//! (`published`); what is left after each answer, byte for byte and step for step, after a fault
//! without the last step at least, and nothing at all before all memory is there and all limits are
//! tested (`left`); that a file with ranges of the lengths that the book has, and the page lists
//! that are noted, becomes the finished file with these ranges, within the limits, with its page
//! lists beside its clusters or behind all ranges as the parameters say (`finished`). Wherever a
//! crash comes behind the first sync, it leaves what isn't finished of a file that is begun (`crash`
//! of `IsBegun` and `IsBeginCut`), and of one that is closed that, or the finished file once its
//! first byte was written over; behind all steps only that file (`crash`, by `specs/Crashes.antt`).
//! A fault comes only where the disk's count rose. `closed_is_finished`, `first_byte_is_last` and
//! `steps_stay_in_order` are laws on what is left. Nothing is only tested.
//!
//! Choices that bind nobody else: parts that would begin behind 2^61 bytes, which no machine holds,
//! are want of memory; the header is written again when a file is closed, for its checksum and its
//! length, and not kept since it was begun.
#![tactic(auto)]

mod beginning;
mod blobs;
mod closing;
mod damage;
mod ending;
mod error;
mod front;
mod headers;
mod laws;
mod lists;
mod steps;

pub use beginning::{begin, begin_with};
pub use closing::close;
pub use error::{BeginError, CloseError};
pub use laws::{closed_is_finished, first_byte_is_last, steps_stay_in_order};
pub use steps::{write_begin, write_end};

#[cfg(test)]
mod tests;
