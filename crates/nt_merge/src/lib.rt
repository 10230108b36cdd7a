//! Files that are merged into one: which files can be, and what stands against it.
//!
//! Start at `plan` in `planning.rt`, which attaches to all files and compares their schemas row by row
//! (`comparing.rt`). Files can be merged where each has an outline, all their fields are open, all their
//! columns begin with the first entry, and their rows are the same but for flags (`specs/Comparing.antt`,
//! `schema_error`). That a file whose clusters are copies of theirs means the same is said in nt_copied.
//! `merge` in `merging.rt` begins a file under the schema of the first one, copies all clusters into it, file by
//! file (`copying.rt`), and closes it. A cluster is read by nt_reader, which keeps its pages as they are stored, and
//! of these nt_copying makes the image of another.
//!
//! Proved of `plan`: after `Ok` the outlines are those of the files, and nothing stands against merging
//! them; a defect is the first fault of the first file that has no outline, and else the
//! place that is named is the first one of the schemas that stands against it: of all files first the
//! closed fields, then the deferred columns, then rows unlike those of the first file (`told`); each file
//! has the bytes that it had (`kept`), and `ReadFault` comes only where the count of one of them rose
//! (`blamed`). Schemas that nothing stands against have open fields alone, no deferred column, and are
//! alike the first one (`schemas_without_error_are_mergeable`). Of `merge`, wherever all files tell their bytes (`told`, by `MergesTold` in
//! `specs/Merging.antt`): after `Ok` the file is the finished one of copies of all their clusters in order, as
//! nt_copied says, and passes no limit, and so many clusters and entries are told; a defect is the first fault of a
//! cluster; a limit is one that the file of the clusters before the first fault passes. A defect or a limit is exactly
//! what is refused first in the order of the work (`first_refusal` there): a limit that the header passes; then, of one
//! cluster after the other, its first fault, and a limit that its copy passes behind the others, with the page list in
//! front of it; and behind all clusters a limit that the page lists, the footer or the whole file pass. So no limit is
//! passed before a fault that is told, no cluster has a fault before a limit that is told, and after `Ok` nothing is
//! refused. How far the file reaches in front of a cluster stands in `specs/Fronts.antt`. After each refusal the file
//! isn't finished, but that after `DiskFault` it may stand there whole, or its first append failed; the first byte is
//! written over only when all the rest stays; wherever a crash came, it left what isn't finished or,
//! once the first byte was written over, the whole file. Each file keeps its bytes, `ReadFault` comes only where the
//! count of one of them rose, and `DiskFault` only where the disk's did (`served`). Nothing is only tested.
//!
//! Choices that bind nobody else: a file without fields is told as one whose field 0 is closed; a schema that a
//! description can't hold whole, which no file has, is want of memory.
#![tactic(auto)]

mod comparing;
mod copy_error;
mod copying;
mod error;
mod laws;
mod merging;
mod place;
mod planning;

pub use error::MergeError;
pub use laws::schemas_without_error_are_mergeable;
pub use merging::merge;
pub use place::SchemaPlace;
pub use planning::{MergePlan, plan};
