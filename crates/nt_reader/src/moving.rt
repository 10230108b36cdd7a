//! Clusters of a page list, with places that count from the file's beginning.

ghost use Rattle.std.specs.Prelude.{◌≡◌, ◌+◌, ◌++◌, map, IfOk, OnOk};
ghost use Rattle.nt_file_meaning.specs.Envelopes.{payload_start};
ghost use Rattle.nt_file_meaning.specs.Outlines.{moved_column, moved_cluster};

use crate::faults::place_inside;
use nt_listing::Wanting;
use nt_pagelists::{ClusterList, ColumnList, ColumnLists, PageItems};
use std::alloc::Global;

/// A column of a page list whose envelope begins at that place.
fn moved_column(alloc: Global, envelope: u64, column: &ColumnList) -> Result<ColumnList, Wanting>
    ensures { IfOk result (λ moved. moved ≡ moved_column (envelope + payload_start) column.now) }
{
    let Some(inner) = place_inside(envelope, column.inner) else {
        return Err(Wanting);
    };
    let pages = column.pages.as_slice().to_vec(alloc)?;
    Ok(ColumnList {
        inner,
        offset: column.offset,
        pages: PageItems::from_vec(pages),
    })
}

/// Its columns.
fn moved_columns(
    alloc: Global,
    envelope: u64,
    columns: &[ColumnList],
) -> Result<ColumnLists, Wanting>
    ensures { IfOk result
        (λ moved. moved ≡ map (moved_column (envelope + payload_start)) columns.now) }
{
    let mut moved = Vec::with_capacity(alloc, columns.len())?;
    for i in 0..columns.len() {
        moved.push(moved_column(alloc, envelope, &columns[i])?)?;
    }
    Ok(ColumnLists::from_vec(moved))
}

/// A cluster of it.
fn moved_cluster(
    alloc: Global,
    envelope: u64,
    cluster: &ClusterList,
) -> Result<ClusterList, Wanting>
    ensures { IfOk result (λ moved. moved ≡ moved_cluster (envelope + payload_start) cluster.now) }
{
    let Some(outer) = place_inside(envelope, cluster.outer) else {
        return Err(Wanting);
    };
    let columns = moved_columns(alloc, envelope, cluster.columns.as_slice())?;
    Ok(ClusterList {
        first: cluster.first,
        entries: cluster.entries,
        outer,
        columns,
    })
}

/// Appends the clusters of a page list whose envelope begins at that place.
pub fn push_moved(
    alloc: Global,
    envelope: u64,
    clusters: &[ClusterList],
    list: &mut Vec<ClusterList>,
) -> Result<(), Wanting>
    ensures { OnOk result (list.new.items
        ≡ list.old.items ++ map (moved_cluster (envelope + payload_start)) clusters.now) }
{
    for i in 0..clusters.len() {
        list.push(moved_cluster(alloc, envelope, &clusters[i])?)?;
    }
    Ok(())
}
