//! The file of a script.

ghost use Rattle.std.specs.Prelude.{◌≡◌, [], true, false};
ghost use Rattle.nt_types.specs.Rules.{AreFields};
ghost use Rattle.nt_types.specs.Views.{members_view};
ghost use Rattle.nt_contexts.specs.Reading.{left_of};
ghost use Rattle.nt_seq.specs.Writer.{gathered_by};
ghost use Rattle.nt_store.specs.Writing.{IsEmptyDisk};
ghost use Rattle.nt_script.specs.StoreErrors.{error_of_script};
ghost use Rattle.nt_script.specs.Running.{IsFirstWriter};
ghost use Rattle.nt_script.specs.Filing.{FinishesScript, FilesScript, WritesLines, WritesScript};

use crate::error::ScriptError;
use crate::laws::tables_have_just_their_fields;
use crate::running::write_script;
use crate::store_error::ScriptStoreError;
use nt_book::{LimitError, Params};
use nt_event::LineReader;
use nt_finished::late_files_mean_their_entries;
use nt_outside::{Disk, Source};
use nt_seq::{SeqWriter, crashes_leave_closed_or_unfinished};
use nt_types::Fields;
use std::alloc::Global;

/// How many clusters and entries were written.
#[derive(Clone, Copy, Debug, PartialEq, Eq)]
pub struct Counts {
    pub clusters: u32,
    pub entries: u64,
}

/// The error of a script that ended early, where a file may have so many clusters.
fn error_of_script(clusters: u32, error: ScriptError) -> ScriptStoreError
    ensures { result ≡ error_of_script clusters error }
{
    match error {
        ScriptError::Line { line, kind } => ScriptStoreError::Line { line, kind },
        ScriptError::Limit(LimitError::RangeTooLarge { len, limit }) => ScriptStoreError::Limit {
            reached: len,
            limit,
        },
        ScriptError::Limit(LimitError::FileTooLarge { end, limit }) => ScriptStoreError::Limit {
            reached: end,
            limit,
        },
        ScriptError::Limit(LimitError::TooManyClusters) => ScriptStoreError::Limit {
            reached: u64::from(clusters) + 1,
            limit: u64::from(clusters),
        },
        ScriptError::Outside => ScriptStoreError::Outside,
        ScriptError::Memory => ScriptStoreError::Memory,
    }
}

/// Closes the file of a script that is written.
fn finish<D: Disk>(writer: SeqWriter<D>) -> (D, Result<Counts, ScriptStoreError>)
    requires alive { writer.alive ≡ true }
    requires none { gathered_by writer ≡ [] }
    ensures { FinishesScript D.state writer result.0 result.1 }
{
    late_files_mean_their_entries();
    writer.keeps();
    let (disk, closed) = writer.close();
    match closed {
        Ok((clusters, entries)) => (disk, Ok(Counts { clusters, entries })),
        Err(error) => (disk, Err(ScriptStoreError::from(error))),
    }
}

/// Writes the clusters of a script, and closes their file.
fn write_lines<D: Disk, S: Source>(
    alloc: Global,
    fields: Fields,
    lines: &mut LineReader<S>,
    writer: SeqWriter<D>,
    params: &Params,
) -> (D, Result<Counts, ScriptStoreError>)
    requires begins { IsFirstWriter D.state (members_view fields) (left_of S.state lines.old) writer }
    requires params { writer.params ≡ params.now }
    ensures { FilesScript D.state writer (members_view fields) (left_of S.state lines.old) (left_of S.state lines.new)
        result.0 result.1 }
{
    let mut writer = writer;
    match write_script(alloc, fields, lines, &mut writer) {
        Ok(()) => finish(writer),
        Err(error) => {
            crashes_leave_closed_or_unfinished();
            let disk = writer.abandon();
            (disk, Err(error_of_script(params.limits.clusters, error)))
        }
    }
}

/// Begins the file of these fields on an empty disk, and writes the script of these lines.
fn write_text<D: Disk, S: Source>(
    alloc: Global,
    disk: D,
    fields: Fields,
    lines: &mut LineReader<S>,
    params: &Params,
) -> (D, Result<Counts, ScriptStoreError>)
    requires rules { AreFields (members_view fields) }
    requires empty { IsEmptyDisk (D.state disk) }
    requires unstaged { params.now.staged ≡ false }
    requires first { (left_of S.state lines.old).number ≡ 0 }
    ensures { WritesLines (members_view fields) params.now (left_of S.state lines.old) (left_of S.state lines.new)
        (D.state disk) (D.state result.0) result.1 }
{
    tables_have_just_their_fields();
    crashes_leave_closed_or_unfinished();
    match SeqWriter::new(alloc, disk, &fields, params) {
        Ok(writer) => write_lines(alloc, fields, lines, writer, params),
        Err((disk, error)) => (disk, Err(ScriptStoreError::from(error))),
    }
}

/// Writes the file of these fields and a script on an empty disk. Disk and text come back.
pub(crate) fn write_file<D: Disk, S: Source>(
    alloc: Global,
    disk: D,
    fields: Fields,
    text: S,
    params: &Params,
) -> (D, S, Result<Counts, ScriptStoreError>)
    requires rules { AreFields (members_view fields) }
    requires empty { IsEmptyDisk (D.state disk) }
    requires unstaged { params.now.staged ≡ false }
    ensures { WritesScript (members_view fields) params.now (S.state text) (S.state result.1)
        (D.state disk) (D.state result.0) result.2 }
{
    match LineReader::new(alloc, text) {
        Ok(mut lines) => {
            let (disk, written) = write_text(alloc, disk, fields, &mut lines, params);
            (disk, lines.into_source(), written)
        }
        Err((text, _)) => (disk, text, Err(ScriptStoreError::Memory)),
    }
}
