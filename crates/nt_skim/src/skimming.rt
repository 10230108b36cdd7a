//! The selected entries of all clusters.

ghost use Rattle.std.specs.Prelude.{◌≡◌, ◌<◌, ℕ, List, ◌∷◌, [], true, None, Some, length, slice_index_or};
ghost use Rattle.nt_types.specs.ShapeData.{parts_of};
ghost use Rattle.nt_types.specs.Fits.{fit_parts};
ghost use Rattle.nt_types.specs.TreeData.{no_trees};
ghost use Rattle.nt_join.specs.Chosen.{chosen};
ghost use Rattle.nt_reader.specs.Columns.{given_entries};
ghost use Rattle.nt_reader.specs.Outlines.{entries_in};
ghost use Rattle.nt_skim.specs.Select.{selection_of, selected, passes, cluster_readings};
ghost use Rattle.nt_skim.specs.Skimming.{TakesSelected, IsClusterSkimmed, IsSkimmed, LeavesSink, CanSkim, ServesSkim};

use crate::error::{PutError, SkimError};
use crate::selection::{PlaceTest, SkimPlan};
use crate::sink::EntrySink;
use nt_decoded::{DecodedCluster, KeptMemory, decode_cluster};
use nt_outside::ReadAt;
use nt_reader::Reader;
use nt_tfile::ReadFailure;
use std::alloc::Global;

/// Whether an entry passes the test.
fn passes(cluster: &DecodedCluster<'_>, test: &Option<PlaceTest>, i: u64) -> bool
    requires { i < cluster.now.entries }
    ensures { result ≡ passes test.now (slice_index_or (given_entries cluster.now) i no_trees) }
{
    match test {
        None => true,
        Some(test) => match cluster.number(test.place, i) {
            Some(number) => test.least <= number && number <= test.greatest,
            None => false,
        },
    }
}

/// Puts an entry that passes, and says how many were put.
fn put_entry<E: EntrySink>(
    alloc: Global,
    cluster: &DecodedCluster<'_>,
    plan: &SkimPlan,
    i: u64,
    out: &mut E,
) -> Result<u64, SkimError<E::Fault>>
    requires there { i < cluster.now.entries }
    requires going { (E.state out.old).refused ≡ None }
    requires fits { fit_parts (parts_of (E.state out.old).fields)
        (chosen (selection_of plan.now).places (slice_index_or (given_entries cluster.now) i no_trees)) ≡ true }
    ensures takes { TakesSelected
        (selected (selection_of plan.now) (slice_index_or (given_entries cluster.now) i no_trees ∷ []))
        (E.state out.old) (E.state out.new) result }
    ensures left { LeavesSink (E.state out.old) (E.state out.new) result }
{
    if !passes(cluster, &plan.test, i) {
        return Ok(0);
    }
    match out.put_from(alloc, cluster, &plan.places, i) {
        Ok(()) => Ok(1),
        Err(PutError::Refused(fault)) => Err(SkimError::Sink(fault)),
        Err(PutError::Memory) => Err(SkimError::Memory),
    }
}

/// Puts the entries of a cluster that pass, and says how many were put.
fn put_entries<E: EntrySink>(
    alloc: Global,
    cluster: &DecodedCluster<'_>,
    plan: &SkimPlan,
    out: &mut E,
) -> Result<u64, SkimError<E::Fault>>
    requires going { (E.state out.old).refused ≡ None }
    requires fits { (i : ℕ) → i < cluster.now.entries → fit_parts (parts_of (E.state out.old).fields)
        (chosen (selection_of plan.now).places (slice_index_or (given_entries cluster.now) i no_trees)) ≡ true }
    ensures takes { TakesSelected (selected (selection_of plan.now) (given_entries cluster.now))
        (E.state out.old) (E.state out.new) result }
    ensures left { LeavesSink (E.state out.old) (E.state out.new) result }
{
    let mut total: u64 = 0;
    for i in 0..cluster.entries() {
        match put_entry(alloc, cluster, plan, i, out) {
            Ok(more) => match total.checked_add(more) {
                Some(sum) => total = sum,
                None => return Err(SkimError::Memory),
            },
            Err(error) => return Err(error),
        }
    }
    Ok(total)
}

/// A cluster of a file, by its number.
#[derive(Clone, Copy)]
struct ClusterOf<'a> {
    reader: &'a Reader,
    k: u32,
}

/// Reads a cluster in the memory of the one before and puts its entries that pass, and says how many were put.
fn put_cluster<F: ReadAt, E: EntrySink>(
    alloc: Global,
    file: &mut F,
    of: ClusterOf<'_>,
    kept: &mut Option<KeptMemory>,
    plan: &SkimPlan,
    out: &mut E,
) -> Result<u64, SkimError<E::Fault>>
    requires there { of.k < length of.reader.now.clusters }
    requires can { CanSkim of.reader.now.table (selection_of plan.now) (E.state out.old) }
    ensures skimmed { (b : List ℕ) → (F.state file.old).bytes ≡ Some b
        → IsClusterSkimmed (selection_of plan.now) (entries_in of.entry.reader.now of.entry.k b) (E.state out.old) (E.state out.new) result }
    ensures file { ServesSkim (F.state file.old) (F.state file.new) result }
    ensures left { LeavesSink (E.state out.old) (E.state out.new) result }
{
    match decode_cluster(alloc, file, of.reader, of.k, kept.take()) {
        Ok(cluster) => {
            cluster.entries_fit();
            let put = put_entries(alloc, &cluster, plan, out);
            *kept = Some(cluster.into_memory());
            put
        }
        Err(ReadFailure::Defect(fault)) => Err(SkimError::Defect(fault)),
        Err(ReadFailure::Fault) => Err(SkimError::Fault),
        Err(ReadFailure::Memory) => Err(SkimError::Memory),
    }
}

/// Reads all clusters of a file in order, and puts the chosen trees of the entries that pass. It says
/// how many were put. The plan is one of the schema of the reader, and the sink has the plan's fields.
///
/// # Errors
///
/// A defect is the first fault of the clusters; the entries before it were put. `Fault` comes only
/// where the file's count rose, `Sink` is what a put of this call answered; then, and where memory
/// ran out, some of the entries were put.
pub fn skim<F: ReadAt, E: EntrySink>(
    alloc: Global,
    reader: &Reader,
    file: &mut F,
    plan: &SkimPlan,
    out: &mut E,
) -> Result<u64, SkimError<E::Fault>>
    requires { CanSkim reader.now.table (selection_of plan.now) (E.state out.old) }
    ensures skimmed { (b : List ℕ) → (F.state file.old).bytes ≡ Some b
        → IsSkimmed (selection_of plan.now) (cluster_readings b reader.now) (E.state out.old) (E.state out.new) result }
    ensures file { ServesSkim (F.state file.old) (F.state file.new) result }
    ensures left { LeavesSink (E.state out.old) (E.state out.new) result }
{
    let mut total: u64 = 0;
    let mut kept = None;
    for k in 0..reader.clusters() {
        match put_cluster(alloc, file, ClusterOf { reader, k }, &mut kept, plan, out) {
            Ok(more) => match total.checked_add(more) {
                Some(sum) => total = sum,
                None => return Err(SkimError::Memory),
            },
            Err(error) => return Err(error),
        }
    }
    Ok(total)
}
