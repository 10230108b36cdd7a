//! The outside in memory: texts, files, disks with their extents and pens, which tell what they hold, and a host that has them
//! by name.
//!
//! Each object keeps a list of the numbers of its calls that are to fail, counted from 1 over those that can answer `Failed`. By
//! `fail_call` and `stop_after` calls fail by their number over a host and all that it opened, which count in one word.
//!
//! Start at `MemHost`, whose texts, files and disks are `MemSource`, `MemFile` and `MemDisk`; a disk's `MemPen` fills a `MemExt`.
//!
//! Proved: the contracts of nt_outside's traits, with all contents told; a call fails exactly where its number is listed or its
//! name isn't there, a print also where its stream has no room, and `create` also while a disk is out (`exact`), unless calls fail by
//! their number over all objects, when only these numbers are told (`number`, `count`), and that a count of faults rises with each; a
//! disk's bytes are ones that its steps allow (the type's `reads`, and `told`); there is memory to settle each range that is out; the
//! file that `crash` gives is one that a crash may leave (`leaves`). A disk's log, and what a crash may leave of it, are nt_disk_log's.
//!
//! Only tested, in test_memory: that the calls succeed with ample memory, which call is the n-th over all objects, and that the objects
//! can be handed to another thread.
//!
//! Choices that bind nobody else:
//! - After a failed append nothing more stands in memory, or the first half of its bytes once `stop_after` was called, and after a
//!   failed write what was there: the simplest of the outcomes that the contract allows; proofs cover the others.
//! - A print that gets no memory is a failed call, counted as such, since `print` has no answer for want of memory. So that this
//!   doesn't disturb tests, `add`, `open_text`, `open_file` and `create` reserve 4096 bytes on both streams.
//! - A call that ran out of memory counts for nothing among the numbers of failing calls: these don't depend on memory.
//! - All disks of a host share one list of failing calls, as one disk is out at a time. A disk that comes back and wasn't created
//!   has no name, and the files stay.
#![tactic(auto)]

mod bytes;
mod calls;
mod disk;
mod file;
mod finding;
mod front;
mod host;
mod named;
mod plan;
mod range;
mod streams;
mod tally;
mod text;
mod trip;

pub use calls::Calls;
pub use disk::MemDisk;
pub use file::MemFile;
pub use host::MemHost;
pub use plan::Object;
pub use range::{MemExt, MemPen};
pub use text::MemSource;
