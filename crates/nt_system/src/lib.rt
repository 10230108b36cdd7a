//! Files, disks and streams of the system, by the traits of nt_outside.
//!
//! Start at `RealHost`, which a `main` makes of its `HostRuntime`: it opens texts and files, creates disks and prints. A `RealDisk` is
//! written, by `RealPen`s too that each fill a `RealExt`; a `RealFile` is read at any place, a `RealText` from its front.
//!
//! Proved: counts of faults, lists of names, the length of a disk and its ranges, as the traits of nt_outside ask; that a host keeps a
//! device and a number with each file that it opens or makes, and makes no file with those of one before; that an error of the system
//! is told as want of memory where it says so, and else as a fault. Nothing is proved of what a file or a stream holds. Only tested:
//! all of them over files that take or give few bytes, are interrupted or fail, and over names that are links; that they can be handed
//! to another thread; by `.ci/checks/program.sh` over the built program that OUT is never a file that was read.
//!
//! Choices that bind nobody else:
//! - `room` of a real disk takes no memory: the system has what a write takes.
//! - After a failed append a real disk goes on at the length that it keeps itself, behind the bytes that were written: the
//!   contract allows any number of unknown bytes up to those that were asked for.
//! - Where the system has no memory to open a file the answer is `Memory`, and no fault is counted.
//! - A stream that takes nothing of a piece counts as a fault: else printing might not end.
#![tactic(auto)]

mod disk;
mod faults;
mod file;
mod host;
mod named;
mod positioned;
mod range;
#[cfg(test)]
mod tests;
mod text;

pub use disk::RealDisk;
pub use file::RealFile;
pub use host::RealHost;
pub use range::{RealExt, RealPen};
pub use text::RealText;
