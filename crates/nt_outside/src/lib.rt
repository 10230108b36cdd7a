//! What the product asks of the outside: texts, files, disks with ranges that pens fill, a host that has them by name, and a
//! gate for tests.
//!
//! Each trait has one ghost member, `state`: what an object holds, where it tells that, and the counts that it always keeps.
//! A call's contract is one named relation between the state before, the state after and the answer.
//!
//! A disk tells a log of its steps. What the log reads as stands in `specs/Reads.antt`, and what a crash may leave of it in
//! `specs/Crash.antt`, and the order in which a file's first byte comes last in `specs/Order.antt`; `known_logs_read_once`,
//! `crashes_follow_steps` and `steps_keep_order` are their laws.
#![tactic(auto)]

mod asked;
mod disk;
mod fault;
mod file;
mod gate;
mod host;
mod laws;
mod range;
mod source;
mod stream;

pub use asked::{Ask, Kind};
pub use disk::Disk;
pub use fault::{Failed, Refused};
pub use file::ReadAt;
pub use gate::{Gate, NoGate, Point};
pub use host::{Host, print_all};
pub use laws::{crashes_follow_steps, known_logs_read_once, steps_keep_order};
pub use range::{Ext, Pen, Range, take_off};
pub use source::{Source, read_front};
pub use stream::Stream;
