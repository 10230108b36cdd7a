//! What the columns of clusters add to what is kept of them.

ghost use Rattle.std.specs.Prelude.{◌≡◌, ◌≤◌, length, replicate, ℕ, List, Some, IfOk};
ghost use Rattle.nt_tfile.specs.Calls.{Serves};
ghost use Rattle.nt_scan.specs.Steps.{AreAdded, ClustersAdded};

use crate::leaf::column_kind;
use nt_column::Columns;
use nt_decoded::decode_cluster;
use nt_outside::ReadAt;
use nt_reader::Reader;
use nt_schema::Schema;
use nt_tfile::ReadFailure;
use nt_total::Running;
use std::alloc::Global;
use std::thread::Threads;

/// Adds the columns of a cluster, each to what is kept of it.
fn add_columns<C: Columns>(
    rt: &(impl Threads + Sync),
    cluster: &C,
    schema: &Schema,
    columns: &[u32],
    running: &mut [Running],
)
    requires { length running.old ≡ length columns.now }
    ensures len { length running.new ≡ length running.old }
    ensures each { AreAdded schema.now (C.elements cluster.now) columns.now running.old running.new }
{
    for i in 0..columns.len() {
        let kind = column_kind(schema, columns[i]);
        running[i] = running[i].with_column(rt, cluster, columns[i], kind);
    }
}

/// Loads the clusters one after the other, and adds the columns of each to what is kept of them.
pub fn add_clusters<F: ReadAt>(
    rt: &(impl Threads + Sync),
    alloc: Global,
    reader: &Reader,
    file: &mut F,
    columns: &[u32],
    running: &mut [Running],
) -> Result<(), ReadFailure>
    requires { length running.old ≡ length columns.now }
    ensures file { Serves (F.state file.old) (F.state file.new) result }
    ensures len { length running.new ≡ length running.old }
    ensures added { (told : List ℕ) → (F.state file.old).bytes ≡ Some told
        → ClustersAdded told reader.now columns.now running.old running.new result }
{
    let mut kept = None;
    for k in 0..reader.clusters() {
        let cluster = decode_cluster(alloc, file, reader, k, kept.take())?;
        add_columns(rt, cluster.columns(), reader.schema(), columns, running);
        kept = Some(cluster.into_memory());
    }
    Ok(())
}
