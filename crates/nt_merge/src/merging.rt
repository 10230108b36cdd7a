//! The files that are merged, written as one.

ghost use Rattle.std.specs.Prelude.{◌≡◌, ◌<◌, ℕ, false, Ok, List, length, IfOk, IfErr, OnOk};
ghost use Rattle.nt_grammar.specs.Table.{Table};
ghost use Rattle.nt_outside.specs.Disk.{DiskState};
ghost use Rattle.nt_book.specs.declared.params.Params.{Params};
ghost use Rattle.nt_schema.specs.Whole.{AreWhole};
ghost use Rattle.nt_seq.specs.Standing.{IsBlankDisk};
ghost use Rattle.nt_merge.specs.declared.error.MergeError.TheVariants.{Memory};
ghost use Rattle.nt_merge.specs.Files.{TellBytes};
ghost use Rattle.nt_merge.specs.Planning.{outlines_from};
ghost use Rattle.nt_merge.specs.Copying.{MayCopyInto};
ghost use Rattle.nt_merge.specs.Joining.{AllCopyable, BeginsTarget, ClosesMerge, CopiesAt, CopiesFiles, MergeGoesOn, IsClosableCopy, IsMergeSchema};
ghost use Rattle.nt_merge.specs.Joining.{RefusesTarget, ServesClose, ServesCopyAt, ServesMerge, error_of_copy};
ghost use Rattle.nt_merge.specs.Merging.{IsMerging, all_numbered, merged_table, MergesTold};

use crate::copy_error::CopyError;
use crate::copying::{Target, copy_file};
use crate::error::{MergeError, merge_error};
use crate::laws::schemas_without_error_are_mergeable;
use crate::planning::MergePlan;
use nt_book::{Book, Params};
use nt_close::{BeginError, CloseError, begin_with, close, closed_is_finished};
use nt_commit::CommitError;
use nt_copied::{alike_schemas_are_read_alike, finished_files_are_made_of_copies};
use nt_merge_limits::{merges_pass_what_their_fronts_pass, merges_within_limits_fit};
use nt_outside::{Disk, ReadAt};
use nt_schema::Schema;
use nt_seq::crashes_leave_closed_or_unfinished;
use nt_view::ClusterBytes;
use std::alloc::Global;

/// What a failure in copying the file of this number is to a merge.
fn copy_failure(number: u32, error: CopyError) -> MergeError
    ensures { result ≡ error_of_copy number error }
{
    match error {
        CopyError::Read(failure) => merge_error(number, failure),
        CopyError::Commit(CommitError::RangeTooLarge { len, limit }) => MergeError::RangeTooLarge {
            len,
            limit,
        },
        CopyError::Commit(CommitError::FileTooLarge { end, limit }) => MergeError::FileTooLarge {
            end,
            limit,
        },
        CopyError::Commit(CommitError::TooManyClusters) => MergeError::TooManyClusters,
        CopyError::Commit(CommitError::Memory) => MergeError::Memory,
        CopyError::Commit(CommitError::Fault) => MergeError::DiskFault,
    }
}

/// Copies the clusters of the file of this number.
fn copy_at<F: ReadAt, D: Disk>(
    alloc: Global,
    plan: &MergePlan,
    files: &mut Vec<F>,
    at: usize,
    disk: &mut D,
    target: &mut Target,
) -> Result<(), CopyError>
    requires there { (at < length files.old.items) × (length files.old.items ≡ length plan.now) }
    requires may { MayCopyInto target.old.columns (D.state disk.old) target.old.book }
    ensures may { OnOk result (MayCopyInto target.new.columns (D.state disk.new) target.new.book) }
    ensures served { ServesCopyAt F.state at files.old.items files.new.items (D.state disk.old) (D.state disk.new) result }
    ensures copies { CopiesAt F.state at files.old.items plan.now (D.state disk.old) (D.state disk.new)
        target.old.book target.new.book result }
{
    copy_file(alloc, &mut files[at], &plan.readers[at], disk, target)
}

/// Copies the clusters of all files.
fn copy_files<F: ReadAt, D: Disk>(
    alloc: Global,
    plan: &MergePlan,
    files: &mut Vec<F>,
    disk: &mut D,
    target: &mut Target,
) -> Result<(), MergeError>
    requires as_many { length files.old.items ≡ length plan.now }
    requires may { MayCopyInto target.old.columns (D.state disk.old) target.old.book }
    ensures served { ServesMerge F.state files.old.items files.new.items (D.state disk.old) (D.state disk.new) result }
    ensures going { (t : Table) (p : Params) (given : DiskState) → AllCopyable t plan.now
        → IsMerging t p given (D.state disk.old) target.old.book → MergeGoesOn t p given (D.state disk.new) target.new.book result }
    ensures told { CopiesFiles F.state files.old.items plan.now (D.state disk.old) (D.state disk.new)
        target.old.book target.new.book result }
{
    for at in 0..plan.readers.len() {
        match copy_at(alloc, plan, files, at, disk, target) {
            Ok(()) => {}
            Err(error) => return Err(copy_failure(at as u32, error)),
        }
    }
    Ok(())
}

/// The schema of the first file without the flags of its fields. A description that can't hold it whole, as no file has, is want of memory.
fn bare_schema(alloc: Global, plan: &MergePlan) -> Result<Schema, MergeError>
    ensures bare { IfOk result (λ schema. IsMergeSchema schema plan.now) }
    ensures memory { IfErr result (λ e. e ≡ Memory) }
{
    schemas_without_error_are_mergeable();
    alike_schemas_are_read_alike();
    let schema = plan.readers[0].schema().bare(alloc)?;
    if !schema.is_whole() {
        return Err(MergeError::Memory);
    }
    Ok(schema)
}

/// Begins the file that clusters are copied into, whose schema is this one.
fn begin_target<D: Disk>(
    alloc: Global,
    disk: &mut D,
    schema: &Schema,
    params: &Params,
) -> Result<Target, MergeError>
    requires whole { AreWhole schema.now }
    requires blank { IsBlankDisk (D.state disk.old) }
    ensures begun { IfOk result (λ target. BeginsTarget schema.now params.now (D.state disk.old) (D.state disk.new)
        target.book target.columns) }
    ensures refused { IfErr result (RefusesTarget schema.now params.now (D.state disk.old) (D.state disk.new)) }
{
    match begin_with(alloc, disk, schema, params) {
        Ok(book) => Ok(Target {
            book,
            columns: schema.columns(),
            pages: ClusterBytes::new(alloc),
            image: Vec::new(alloc),
        }),
        Err(BeginError::Memory) => Err(MergeError::Memory),
        Err(BeginError::RangeTooLarge { len, limit }) => Err(MergeError::RangeTooLarge {
            len,
            limit,
        }),
        Err(BeginError::FileTooLarge { end, limit }) => Err(MergeError::FileTooLarge {
            end,
            limit,
        }),
        Err(BeginError::Fault) => Err(MergeError::DiskFault),
    }
}

/// Closes the file of copies, and says how many clusters and entries it has.
fn close_target<D: Disk>(
    alloc: Global,
    disk: &mut D,
    book: &Book,
    schema: &Schema,
    params: &Params,
) -> Result<(u32, u64), MergeError>
    requires { IsClosableCopy schema.now params.now (D.state disk.old) book.now }
    ensures served { ServesClose (D.state disk.old) (D.state disk.new) result }
    ensures told { (given : DiskState) → IsMerging schema.now params.now given (D.state disk.old) book.now
        → ClosesMerge schema.now params.now given (D.state disk.old) (D.state disk.new) book.now result }
{
    closed_is_finished();
    finished_files_are_made_of_copies();
    crashes_leave_closed_or_unfinished();
    merges_pass_what_their_fronts_pass();
    merges_within_limits_fit();
    book.keeps();
    match close(alloc, disk, book, schema, params) {
        Ok(()) => Ok((book.clusters(), book.entries())),
        Err(CloseError::RangeTooLarge { len, limit }) => Err(MergeError::RangeTooLarge {
            len,
            limit,
        }),
        Err(CloseError::FileTooLarge { end, limit }) => Err(MergeError::FileTooLarge {
            end,
            limit,
        }),
        Err(CloseError::Memory) => Err(MergeError::Memory),
        Err(CloseError::Fault) => Err(MergeError::DiskFault),
        Err(
            CloseError::Spoiled { .. } | CloseError::Torn { .. } | CloseError::Unpublished { .. },
        ) => unreachable!(),
    }
}

/// Merges the files of a plan into one on an empty disk: their clusters, file by file, each with its pages as they are stored, under
/// the schema of the first without the flags of its fields. It says how many clusters and entries were written. No element is coded
/// again, and what is read of a cluster is looked at first.
///
/// # Errors
///
/// Exactly the first that comes: a limit that the header passes; then, cluster by cluster, its first fault, and a limit that it passes behind
/// the others; then a limit that the page lists and the footer pass. `ReadFault` comes only where the count of faults of one of the files
/// rose, `DiskFault` only where the disk's did, `Memory` where memory ran out. After each of them the file isn't finished, but that after
/// `DiskFault` it may stand there whole.
pub fn merge<F: ReadAt, D: Disk>(
    alloc: Global,
    plan: &MergePlan,
    files: &mut Vec<F>,
    disk: &mut D,
    params: &Params,
) -> Result<(u32, u64), MergeError>
    requires blank { IsBlankDisk (D.state disk.old) }
    requires unstaged { params.now.staged ≡ false }
    requires as_many { length files.old.items ≡ length plan.now }
    ensures served { ServesMerge F.state files.old.items files.new.items (D.state disk.old) (D.state disk.new) result }
    ensures told { (bytes : List (List ℕ)) → TellBytes F.state files.old.items bytes → outlines_from 0 bytes ≡ Ok plan.now
        → MergesTold (merged_table plan.now) params.now (all_numbered 0 bytes plan.now) (D.state disk.old) (D.state disk.new) result }
{
    merges_pass_what_their_fronts_pass();
    let schema = bare_schema(alloc, plan)?;
    let mut target = match begin_target(alloc, disk, &schema, params) {
        Ok(target) => target,
        Err(error) => return Err(error),
    };
    match copy_files(alloc, plan, files, disk, &mut target) {
        Ok(()) => close_target(alloc, disk, &target.book, &schema, params),
        Err(error) => Err(error),
    }
}
