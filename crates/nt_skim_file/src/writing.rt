//! The file of what is selected, on a disk.

ghost use Rattle.std.specs.Prelude.{◌≡◌, ◌≤◌, ℕ, List, [], true, false, length};
ghost use Rattle.nt_types.specs.TreeData.{TreesData};
ghost use Rattle.nt_seq.specs.Writer.{gathered_by};
ghost use Rattle.nt_store.specs.Writing.{IsEmptyDisk};
ghost use Rattle.nt_script.specs.Taking.{HasTakenLines, HasWrittenLines};
ghost use Rattle.nt_skim.specs.Select.{selection_of};
ghost use Rattle.nt_skim_file.specs.Errors.{skim_of_commit, skim_of_early};
ghost use Rattle.nt_skim_file.specs.Choosing.{IsFitPlan};
ghost use Rattle.nt_skim_file.specs.Filing.{IsNewWriterOf, EndsEntries, EndsSelection, WritesSelection};

use crate::choosing::Chosen;
use crate::error::SkimStoreError;
use crate::sink::FileSink;
use nt_book::Params;
use nt_commit::CommitError;
use nt_finished::late_files_mean_their_entries;
use nt_outside::{Disk, ReadAt};
use nt_script::{Counts, tables_have_just_their_fields};
use nt_seq::{SeqWriter, crashes_leave_closed_or_unfinished, unclosed_files_are_shut};
use nt_skim::{SkimError, skim};
use std::alloc::Global;

/// The error of a cluster that isn't written, where a file may have so many.
fn commit_error(clusters: u32, error: CommitError) -> SkimStoreError
    ensures { result ≡ skim_of_commit clusters error }
{
    match error {
        CommitError::RangeTooLarge { len, limit } => SkimStoreError::Limit {
            reached: len,
            limit,
        },
        CommitError::FileTooLarge { end, limit } => SkimStoreError::Limit {
            reached: end,
            limit,
        },
        CommitError::TooManyClusters => SkimStoreError::Limit {
            reached: u64::from(clusters) + 1,
            limit: u64::from(clusters),
        },
        CommitError::Memory => SkimStoreError::Memory,
        CommitError::Fault => SkimStoreError::Outside,
    }
}

/// The error of a selection that ended early.
fn early_error(clusters: u32, error: SkimError<CommitError>) -> SkimStoreError
    ensures { result ≡ skim_of_early clusters error }
{
    match error {
        SkimError::Defect(fault) => SkimStoreError::Defect(fault),
        SkimError::Fault => SkimStoreError::Outside,
        SkimError::Sink(error) => commit_error(clusters, error),
        SkimError::Memory => SkimStoreError::Memory,
    }
}

/// Closes the file of a writer that has written all.
fn close_file<D: Disk>(writer: SeqWriter<D>) -> (D, Result<Counts, SkimStoreError>)
    requires alive { writer.alive ≡ true }
    requires none { gathered_by writer ≡ [] }
    ensures { EndsEntries D.state writer (λ es. HasWrittenLines D.state [] es writer) result.0 result.1 }
{
    late_files_mean_their_entries();
    unclosed_files_are_shut();
    writer.keeps();
    let (disk, closed) = writer.close();
    match closed {
        Ok((clusters, entries)) => (disk, Ok(Counts { clusters, entries })),
        Err(error) => (disk, Err(SkimStoreError::from(error))),
    }
}

/// Writes what is gathered, and closes the file.
fn finish<D: Disk>(writer: SeqWriter<D>, clusters: u32) -> (D, Result<Counts, SkimStoreError>)
    requires alive { writer.alive ≡ true }
    requires few { length (gathered_by writer) ≤ writer.params.cluster }
    requires clusters { writer.params.limits.clusters ≡ clusters }
    ensures { EndsEntries D.state writer (λ es. HasTakenLines D.state [] es writer) result.0 result.1 }
{
    writer.keeps();
    let mut writer = writer;
    match writer.flush() {
        Ok(()) => close_file(writer),
        Err(error) => {
            crashes_leave_closed_or_unfinished();
            unclosed_files_are_shut();
            let disk = writer.abandon();
            (disk, Err(commit_error(clusters, error)))
        }
    }
}

/// Puts what is selected into the clusters of a file that is begun, and closes it.
fn write_clusters<D: Disk, F: ReadAt>(
    alloc: Global,
    chosen: &Chosen,
    file: &mut F,
    writer: SeqWriter<D>,
    params: &Params,
) -> (D, Result<Counts, SkimStoreError>)
    requires fit { IsFitPlan chosen.now }
    requires first { IsNewWriterOf D.state (selection_of chosen.now.plan).fields writer }
    requires params { writer.params ≡ params.now }
    ensures { EndsSelection D.state writer (selection_of chosen.now.plan) chosen.now.reader
        (F.state file.old) (F.state file.new) result.0 result.1 }
{
    let mut sink = FileSink::new(writer, chosen.plan.fields());
    let skimmed = skim(alloc, &chosen.reader, file, &chosen.plan, &mut sink);
    let writer = sink.into_writer();
    match skimmed {
        Ok(_) => finish(writer, params.limits.clusters),
        Err(error) => {
            crashes_leave_closed_or_unfinished();
            unclosed_files_are_shut();
            let disk = writer.abandon();
            (disk, Err(early_error(params.limits.clusters, error)))
        }
    }
}

/// Writes the file of what is selected on an empty disk, which comes back.
pub(crate) fn write_selection<D: Disk, F: ReadAt>(
    alloc: Global,
    chosen: &Chosen,
    file: &mut F,
    disk: D,
    params: &Params,
) -> (D, Result<Counts, SkimStoreError>)
    requires fit { IsFitPlan chosen.now }
    requires empty { IsEmptyDisk (D.state disk) }
    requires unstaged { params.now.staged ≡ false }
    ensures { WritesSelection params.now (selection_of chosen.now.plan) chosen.now.reader
        (F.state file.old) (F.state file.new) (D.state disk) (D.state result.0) result.1 }
{
    tables_have_just_their_fields();
    crashes_leave_closed_or_unfinished();
    match SeqWriter::new(alloc, disk, chosen.plan.fields(), params) {
        Ok(writer) => write_clusters(alloc, chosen, file, writer, params),
        Err((disk, error)) => (disk, Err(SkimStoreError::from(error))),
    }
}
