//! The log of a disk in memory, and the files that a crash may leave of it.
//!
//! Start at `Log`, whose steps are `steps_of` of `specs/Logged.antt`, and at `pick_left`, which gives a file that a crash may leave.
//! `add_reserved` and `put_over` change bytes in the memory that there is.
//!
//! Words: a *row* is a step by its place and length; the bytes of all steps lie beside the rows, one after the other. Room is *spare*
//! for steps to come, and *owed* to those that settle the ranges that are out. Of a log the files of three *picks* are made: what was
//! synced, all whole, and the worst, in which each byte that a later step covers is 255, but the newest where only writes of that one
//! byte do.
//!
//! Proved: a log has exactly the steps that were pushed (`steps`), and one for which there is room takes no memory (`spent`, `kept`,
//! `owed`); where `room` and `range_room` answer `Ok` the room is there (`room`, `rows`, `bytes`), and always the steps
//! stay (`same`); `pick_left` gives the file of its pick (`picked`), which is one that a crash may leave after the first so many steps
//! (`leaves`). Nothing is only tested.
#![tactic(auto)]

mod bytes;
mod cells;
mod left;
mod log;

pub use bytes::{add_reserved, put_over};
pub use left::pick_left;
pub use log::{Log, Row};
