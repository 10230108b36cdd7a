//! Writes what is selected of a file of a host as another file: the work of the command `skim`.
//!
//! Start at `store_selected` in `hosting.rt`. `choosing.rt` attaches to the file that is read and makes the plan of its schema;
//! `writing.rt` writes the file of what is selected on a disk, through the sink of `sink.rt`, whose entries are the clusters of a
//! sequential writer; `birth.rt` is what no put changes, and `error.rt` why that ends early. What the whole file is stands in
//! `specs/Whole.antt`, what is left of a host in `specs/Storing.antt`.
//!
//! Words: those of nt_skim and nt_script; what is *selected* are the entries that pass the test of a plan, each as its chosen trees; the
//! *choice* is the names of fields and the test that the words say.
//!
//! Proved of `store_selected` (`StoresSelected`): after `Ok` the file that was read means some clusters, the plan of its schema is made,
//! and the new file means the schema of the plan's fields with just what is selected of these clusters, in clusters of as many entries
//! as the parameters say; it is laid out for them within the limits, and exactly the line of its numbers was printed. A defect is
//! exactly the first fault of the file that is read: before any disk was made, or in its clusters; what stands against the plan comes
//! only of a file that has an outline, is exactly the first thing that does, and then no disk was made; the new file is asked for only
//! once the outline and the plan stand (`plan_first`); a limit is one that what is selected before the first fault passes. After these and after `Memory` the new file is left open or wasn't made, and after `Outside` too,
//! unless it is whole or its first append failed. The first byte is written over only when all the rest stays. So wherever a crash
//! comes behind the first sync, it leaves a file that is refused as unfinished, or, where the first byte was written over before, the
//! whole one; behind all steps of `Ok` just that. `Outside` comes only where the host's count rose, and each object that was opened
//! comes back.
//!
//! Choices that bind nobody else:
//! - An entry is put by elements: what is chosen of it goes from the columns of the cluster that was read into those of the
//!   writer, and no tree is made. `put` takes trees, and does the same with them.
//! - A put writes the gathered cluster first, where it is whole, and then gathers its entry; so the last cluster, whole or not, is
//!   written once all is put.
#![tactic(auto)]

mod birth;
mod choosing;
mod error;
mod hosting;
mod sink;
mod writing;

pub use birth::SinkBirth;
pub use choosing::SkimChoice;
pub use error::SkimStoreError;
pub use hosting::{SkimNames, store_selected};
pub use sink::FileSink;
