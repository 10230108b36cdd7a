//! What the laws of the crates below say together of a file that is written.

ghost use Rattle.nt_store.specs.Laws.{RangesAreAsLong, FinishedAreStored, PassedAreOver, CrashesLeave};

use nt_crash::{closing_leaves_unfinished_or_finished, filling_leaves_unfinished};
use nt_dealing::{dealt_chunks_are_all_chunks, files_are_as_long_as_their_clusters_say};
use nt_finished::{
    arranged_files_are_laid, books_of_fields_are_of_their_schema,
    files_of_fields_mean_their_entries,
};

/// Where the clusters are the chunks of texts, dealt out, the ranges are as long as the book says, and the finished file is stored.
fn finished_files_are_stored()
    ensures lengths { RangesAreAsLong }
    ensures stored { FinishedAreStored }
{
    arranged_files_are_laid();
    books_of_fields_are_of_their_schema();
    files_of_fields_mean_their_entries();
}

/// A limit that the closing of such a file passes is one that its chunks pass, in whatever order they are committed.
fn closing_passes_limits_of_chunks()
    ensures { PassedAreOver }
{
    books_of_fields_are_of_their_schema();
    files_are_as_long_as_their_clusters_say();
    dealt_chunks_are_all_chunks();
}

/// A crash leaves a file unfinished, or, where such a file is closed within the limits and its first byte was written over before, it
/// leaves the stored file.
pub(crate) fn crashes_leave_chunks_or_none()
    ensures { CrashesLeave }
{
    finished_files_are_stored();
    filling_leaves_unfinished();
    closing_leaves_unfinished_or_finished();
}

/// What holds of files whose clusters are the chunks of texts, dealt out.
pub(crate) fn chunks_in_files()
    ensures lengths { RangesAreAsLong }
    ensures stored { FinishedAreStored }
    ensures over { PassedAreOver }
{
    finished_files_are_stored();
    closing_passes_limits_of_chunks();
}
