//! What a column must have in a cluster.

ghost use Rattle.std.specs.Prelude.{◌≡◌, ◌≤◌, length, drop, Some};
ghost use Rattle.nt_lists.specs.Answering.{Answers};
ghost use Rattle.nt_pagelists.specs.Columns.{paged_elements, no_pages, begins_inside, has_its_elements, has_its_offset, judged, judged_unlisted};

use crate::faults::fault_in;
use crate::known::{KnownColumns, ends_before};
use nt_num::ReadError;
use nt_pagelists::{ClusterSummary, KnownColumn, PageItem};

/// What a cluster lists of a column.
#[derive(Clone, Copy)]
pub(crate) struct Listed<'a> {
    pub(crate) pages: &'a [PageItem],
    /// The elements of these pages together.
    pub(crate) elements: u64,
    /// The first element index.
    pub(crate) offset: u64,
    ghost summed: { elements ≡ paged_elements pages.now },
}

/// The code of a column that begins inside of a cluster.
const DEFERRED_INSIDE: u8 = 20;

/// The code of a column without the elements that it must have.
const BAD_CLUSTER: u8 = 18;

fn begins_inside(cluster: &ClusterSummary, column: &KnownColumn) -> bool
    ensures { result ≡ begins_inside cluster.now column.now }
{
    column.is_open
        && column.is_principal
        && cluster.first < column.first
        && column.first - cluster.first < cluster.entries
}

fn no_pages(pages: &[PageItem]) -> bool
    ensures { result ≡ no_pages pages.now }
{
    pages.is_empty()
}

fn has_its_elements(cluster: &ClusterSummary, column: &KnownColumn, listed: &Listed) -> bool
    ensures { result ≡ has_its_elements cluster.now column.now listed.now.pages.now }
{
    if !(column.is_open && column.is_principal) {
        return true;
    }
    if cluster.entries == 0 || cluster.first < column.first {
        no_pages(listed.pages)
    } else {
        listed.elements == cluster.entries
    }
}

fn has_its_offset(column: &KnownColumn, before: u64, listed: &Listed) -> bool
    ensures { result ≡ has_its_offset column.now before listed.now.pages.now listed.now.offset }
{
    !column.is_open
        || listed.elements == 0
        || (column.first <= listed.offset && listed.offset - column.first == before)
}

/// The fault of a column in a cluster, by the pages that it has there.
#[tactic(auto, unfolding(nt_pagelists::specs::Columns::judged))]
pub(crate) fn judge(
    cluster: &ClusterSummary,
    id: u32,
    column: &KnownColumn,
    before: u64,
    frame: usize,
    listed: &Listed,
) -> Result<(), ReadError>
    ensures { Answers (λ done. done) (λ e. Some e) result
        (judged cluster.now id column.now before frame listed.now.pages.now listed.now.offset) }
{
    if begins_inside(cluster, column) {
        return Err(fault_in(DEFERRED_INSIDE, frame, cluster.number, id));
    }
    if has_its_elements(cluster, column, listed) && has_its_offset(column, before, listed) {
        return Ok(());
    }
    Err(fault_in(BAD_CLUSTER, frame, cluster.number, id))
}

#[tactic(auto, using(crate::proofs::UnlistedSteps::unlisted_steps))]
/// The first fault of the columns from this id on, which have no pages.
fn judge_each(
    cluster: &ClusterSummary,
    frame: usize,
    from: u32,
    columns: &KnownColumns,
) -> Result<(), ReadError>
    requires { from ≤ length columns.now }
    ensures { Answers (λ done. done) (λ e. Some e) result
        (judged_unlisted cluster.now frame from (drop from columns.now)) }
{
    for id in from..columns.len() as u32 {
        let column = columns.column(id);
        let nothing = Listed {
            pages: &[],
            elements: 0,
            offset: 0,
        };
        judge(cluster, id, &column, 0, frame, &nothing)?;
    }
    Ok(())
}

#[tactic(auto, using(crate::proofs::UnlistedSteps::unlisted_late))]
/// The same; where the cluster lies before them all, without a look at each of them.
pub(crate) fn judge_unlisted(
    cluster: &ClusterSummary,
    frame: usize,
    from: u32,
    columns: &KnownColumns,
) -> Result<(), ReadError>
    requires { from ≤ length columns.now }
    ensures { Answers (λ done. done) (λ e. Some e) result
        (judged_unlisted cluster.now frame from (drop from columns.now)) }
{
    if ends_before(cluster, columns.least_from(from)) {
        return Ok(());
    }
    judge_each(cluster, frame, from, columns)
}
