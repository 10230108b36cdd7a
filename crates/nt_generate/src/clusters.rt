//! What a cluster that was read comes to, added to the total of its context.

ghost use Rattle.std.specs.Prelude.{◌≡◌, ◌+◌, length, IfOk, OnOk};
ghost use Rattle.nt_reader.specs.Columns.{given_entries};
ghost use Rattle.nt_generate.specs.Numbers.{entries_sum};
ghost use Rattle.nt_generate.specs.Totals.{counted_to};
ghost use Rattle.nt_generate.specs.Adding.{with_cluster, with_cluster_at};

use crate::entries::add_entry;
use crate::total::Total;
use nt_reader::ClusterRead;
use std::alloc::{AllocError, Global};

/// Adds the numbers of the entries of a cluster to a sum.
fn add_entries(alloc: Global, cluster: &ClusterRead<'_>, sum: u64) -> Result<u64, AllocError>
    ensures { IfOk result (λ n. n ≡ counted_to (sum + entries_sum (given_entries cluster.now))) }
{
    let mut total = sum;
    for i in 0..cluster.entries() {
        let entry = cluster.entry(alloc, i)?;
        total = add_entry(total, &entry);
    }
    Ok(total)
}

/// A total with one cluster more.
fn with_cluster(
    alloc: Global,
    cluster: &ClusterRead<'_>,
    total: &Total,
) -> Result<Total, AllocError>
    ensures { IfOk result (λ more. more ≡ with_cluster (given_entries cluster.now) total.now) }
{
    let clusters = total.clusters.saturating_add(1);
    let entries = total.entries.saturating_add(cluster.entries());
    let sum = add_entries(alloc, cluster, total.sum)?;
    Ok(Total {
        clusters,
        entries,
        sum,
    })
}

/// Adds a cluster to the total of the context of this number; a context without a total stays without one.
#[tactic(auto, using(crate::proofs::AddedEntries::no_total))]
pub(crate) fn add_cluster(
    alloc: Global,
    cluster: &ClusterRead<'_>,
    context: u32,
    totals: &mut [Total],
) -> Result<(), AllocError>
    ensures all { length totals.new ≡ length totals.old }
    ensures ok { OnOk result (totals.new ≡ with_cluster_at context (given_entries cluster.now) totals.old) }
{
    let place = context as usize;
    if place < totals.len() {
        totals[place] = with_cluster(alloc, cluster, &totals[place])?;
    }
    Ok(())
}
