//! Joins files of a host as another file, page by page as they are stored: the work of the command `merge`.
//!
//! Start at `store_merged` in `hosting.rt`. `opening.rt` opens the files that are read, in order, and returns them; between that nt_merge
//! plans their merge, and writes it on a disk; `error.rt` is why that ends early. What the whole file is stands in `specs/Whole.antt`,
//! what is left of a host in `specs/Storing.antt`.
//!
//! Words: those of nt_merge, nt_copied and nt_script; files *can be merged* where each has an outline, and nothing stands against merging
//! their schemas.
//!
//! Proved of `store_merged` (`StoresMerged`): after `Ok` each of the files means some clusters, their schemas are alike, and the new file
//! means the schema of the first without the flags of its fields, with the clusters of all of them, file by file; by cluster, column and
//! page it has byte for byte the pages that are stored in them; it is laid out for these within the limits, and exactly the line of its
//! numbers was printed. A defect is exactly the first fault of the files, with the number of its file: of the first that has no outline,
//! and then no disk was made, or else of the clusters, file by file. `Schema` comes only of files that all have outlines, names exactly the
//! first place that stands against merging them, and then no disk was made. Where they can't be merged, nothing but they was asked for.
//! A limit is one that the file of the clusters before the first fault passes. A limit, or the fault of a cluster, is exactly what is
//! refused first in the order of the work (`refused_of` in `specs/Whole.antt`): a limit that the header passes; of one cluster after the
//! other its first fault, and a limit that its copy passes; and a limit that the file passes where it is closed. After `Ok` nothing is
//! refused. After these and after `Memory` the new file is left open or wasn't made, and after `Outside` too, unless it is whole or its
//! first append failed. The first byte is written over only when all the rest stays. So wherever a crash comes behind the first sync,
//! it leaves a file that is refused as unfinished, or, where the first byte was written over before, the whole one; behind all steps of
//! `Ok` just that. `Outside` comes only where the host's count rose, and each object that was opened comes back.
//!
//! Choices that bind nobody else: the files are opened all at once, before the first is read.
#![tactic(auto)]

mod error;
mod hosting;
mod opening;

pub use error::MergeStoreError;
pub use hosting::{MergeNames, store_merged};
