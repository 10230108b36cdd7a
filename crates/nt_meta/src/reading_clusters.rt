//! The clusters of a group, each a list of columns.

ghost use Rattle.std.specs.Prelude.{◌≡◌, ◌-◌, ◌≤◌, ◌<◌, ◌^◌, [], length, min, slice_index_or, IfOk};
ghost use Rattle.nt_lists.specs.Answering.{Answers};
ghost use Rattle.nt_meta.specs.Defects.{defect_of};
ghost use Rattle.nt_pagelists.specs.Columns.{paged_elements};
ghost use Rattle.nt_pagelists.specs.Clusters.{outer_list_at, cluster_list_at, with_elements, cluster_lists_on, cluster_lists_at};
ghost use Rattle.nt_pagelists.specs.declared.cluster.ColumnList.{ColumnList};

use crate::error::MetaError;
use crate::faults::{fault, fault_in};
use crate::judging::judge_unlisted;
use crate::known::KnownColumns;
use crate::reading_columns::push_columns;
use nt_frame::read_list;
use nt_num::Cur;
use nt_pagelists::{ClusterList, ClusterSummary, ColumnList, ColumnLists, Group, PageItem};
use std::alloc::Global;

/// The code of what a cluster group doesn't have.
const BAD_GROUP: u8 = 17;

/// The code of what a page list can't say.
const BAD_PAGE_LIST: u8 = 19;

#[tactic(auto, unfolding(nt_pagelists::specs::Clusters::outer_list_at))]
fn read_outer<'a>(
    cur: &mut Cur<'a>,
    cluster: &ClusterSummary,
    columns: &KnownColumns,
) -> Result<(u32, Cur<'a>), MetaError>
    ensures told { Answers (λ found. (found, cur.new)) defect_of result
        (outer_list_at cluster.now columns.now cur.old) }
    ensures few { IfOk result (λ found. found.0 ≤ length columns.now) }
{
    let frame = cur.place();
    let (count, inside) = read_list(cur)?;
    if count as usize > columns.len() {
        return Err(MetaError::Defect(fault_in(BAD_PAGE_LIST, frame, cluster.number, 0)));
    }
    Ok((count, inside))
}

#[tactic(auto, unfolding(nt_pagelists::specs::Clusters::cluster_list_at))]
fn read_cluster(
    alloc: Global,
    cur: &mut Cur,
    cluster: &ClusterSummary,
    columns: &KnownColumns,
    elements: &[u64],
) -> Result<ClusterList, MetaError>
    requires { length elements.now ≡ length columns.now }
    ensures told { Answers (λ list. (list, cur.new)) defect_of result
        (cluster_list_at cluster.now columns.now elements.now cur.old) }
    ensures few { IfOk result (λ list. length list.columns ≤ length columns.now) }
{
    let frame = cur.place();
    let (count, mut inside) = read_outer(cur, cluster, columns)?;
    let mut lists = Vec::new(alloc);
    push_columns(&mut inside, cluster, columns, elements, count, &mut lists)?;
    judge_unlisted(cluster, frame, count, columns).map_err(MetaError::Defect)?;
    Ok(ClusterList {
        first: cluster.first,
        entries: cluster.entries,
        outer: frame as u64,
        columns: ColumnLists::from_vec(lists),
    })
}

#[tactic(auto, using(crate::proofs::Adding::counting_steps))]
/// The elements of these pages, or 2^64 - 1 where there are more.
fn count_elements(pages: &[PageItem]) -> u64
    ensures { result ≡ min (paged_elements pages.now) (2 ^ 64 - 1) }
{
    let mut elements: u64 = 0;
    for i in 0..pages.len() {
        elements = elements.saturating_add(u64::from(pages[i].count));
    }
    elements
}

fn count_column(lists: &[ColumnList], id: usize) -> u64
    requires { id < length lists.now }
    ensures { (d : ColumnList) → result ≡ min (paged_elements (slice_index_or lists.now id d).pages)
        (2 ^ 64 - 1) }
{
    count_elements(lists[id].pages.as_slice())
}

#[tactic(auto, using(crate::proofs::Adding::adding_steps))]
/// Adds the elements of a cluster to those of each column.
fn add_elements(elements: &mut [u64], lists: &[ColumnList])
    requires { length lists.now ≤ length elements.old }
    ensures sum { elements.new ≡ with_elements elements.old lists.now }
    ensures len { length elements.new ≡ length elements.old }
{
    for id in 0..lists.len() {
        let more = count_column(lists, id);
        elements[id] = elements[id].saturating_add(more);
    }
}

#[tactic(auto, using(crate::proofs::ClusterSteps::cluster_steps))]
/// Reads the pages of these clusters.
fn push_clusters(
    cur: &mut Cur,
    clusters: &[ClusterSummary],
    columns: &KnownColumns,
    elements: &mut [u64],
    lists: &mut Vec<ClusterList>,
) -> Result<(), MetaError>
    requires none { lists.old.items ≡ [] }
    requires same { length elements.old ≡ length columns.now }
    ensures { Answers (λ _. (lists.new.items, elements.new)) defect_of result
        (cluster_lists_on columns.now clusters.now elements.old [] cur.old) }
{
    let alloc = *lists.allocator();
    for i in 0..clusters.len() {
        let cluster = clusters[i];
        let list = read_cluster(alloc, cur, &cluster, columns, elements)?;
        add_elements(elements, list.columns.as_slice());
        lists.push(list)?;
    }
    Ok(())
}

/// Reads the list of the pages of these clusters of a group.
#[tactic(auto, unfolding(nt_pagelists::specs::Clusters::cluster_lists_at))]
pub(crate) fn read_clusters(
    cur: &mut Cur,
    group: &Group,
    clusters: &[ClusterSummary],
    columns: &KnownColumns,
    elements: &mut [u64],
    lists: &mut Vec<ClusterList>,
) -> Result<(), MetaError>
    requires none { lists.old.items ≡ [] }
    requires same { length elements.old ≡ length columns.now }
    ensures { Answers (λ _. (lists.new.items, elements.new)) defect_of result
        (cluster_lists_at group.now columns.now clusters.now elements.old cur.old) }
{
    let frame = cur.place();
    let (count, mut inside) = read_list(cur)?;
    if count != group.clusters {
        return Err(MetaError::Defect(fault(BAD_GROUP, frame)));
    }
    push_clusters(&mut inside, clusters, columns, elements, lists)
}
