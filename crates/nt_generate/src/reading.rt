//! A file that is read whole.

ghost use Rattle.std.specs.Prelude.{◌≡◌, length, replicate, IfOk, OnOk, slice_get};
ghost use Rattle.nt_tfile.specs.Calls.{Serves, ReadsFile};
ghost use Rattle.nt_reader.specs.Columns.{given_entries};
ghost use Rattle.nt_generate.specs.Adding.{empty_total, with_named};
ghost use Rattle.nt_generate.specs.ReadTotals.{totals_in, outline_totals};

use crate::clusters::add_cluster;
use crate::total::Total;
use nt_outside::ReadAt;
use nt_reader::{ClusterRead, Reader};
use nt_tfile::ReadFailure;
use std::alloc::{AllocError, Global};

/// The total of nothing.
const NOTHING: Total = Total {
    clusters: 0,
    entries: 0,
    sum: 0,
};

/// Adds the cluster of this number to the total of the context that the order names there, if it names one.
fn add_named(
    alloc: Global,
    cluster: &ClusterRead<'_>,
    order: &[u32],
    number: u32,
    totals: &mut [Total],
) -> Result<(), AllocError>
    ensures all { length totals.new ≡ length totals.old }
    ensures ok { OnOk result (totals.new ≡ with_named (slice_get order.now number) (given_entries cluster.now) totals.old) }
{
    match order.get(number as usize) {
        Some(context) => add_cluster(alloc, cluster, *context, totals)?,
        None => {}
    }
    Ok(())
}

/// Adds all clusters to totals of nothing.
fn add_clusters<F: ReadAt>(
    alloc: Global,
    file: &mut F,
    reader: &Reader,
    order: &[u32],
    totals: &mut [Total],
) -> Result<(), ReadFailure>
    requires { totals.old ≡ replicate (length totals.old) empty_total }
    ensures file { Serves (F.state file.old) (F.state file.new) result }
    ensures read { ReadsFile (λ _. totals.new) (outline_totals (length totals.old) order.now reader.now) (F.state file.old) result }
{
    for k in 0..reader.clusters() {
        let cluster = reader.cluster(alloc, file, k)?;
        match add_named(alloc, &cluster, order, k, totals) {
            Ok(()) => {}
            Err(_) => return Err(ReadFailure::Memory),
        }
    }
    Ok(())
}

/// So many totals of nothing.
fn empty_totals(alloc: Global, contexts: u32) -> Result<Vec<Total>, AllocError>
    ensures { IfOk result (λ totals. totals.items ≡ replicate contexts empty_total) }
{
    let totals = vec![in alloc; NOTHING; contexts as usize]?;
    Ok(totals)
}

/// Reads a file whole, cluster by cluster, and adds up the clusters, the entries and the numbers in these, for each context those of the
/// clusters at whose places the order names it. The context of a cluster behind the end of the order is none.
///
/// # Errors
///
/// A defect is the first fault of the file. `Fault` comes only where the file's count of faults rose, `Memory` where memory ran out.
pub(crate) fn tell_totals<F: ReadAt>(
    alloc: Global,
    file: &mut F,
    order: &[u32],
    contexts: u32,
) -> Result<Vec<Total>, ReadFailure>
    ensures file { Serves (F.state file.old) (F.state file.new) result }
    ensures read { ReadsFile (λ totals. totals.items) (totals_in contexts order.now) (F.state file.old) result }
{
    let reader = Reader::attach(alloc, file)?;
    match empty_totals(alloc, contexts) {
        Ok(mut totals) => {
            add_clusters(alloc, file, &reader, order, &mut totals)?;
            Ok(totals)
        }
        Err(_) => Err(ReadFailure::Memory),
    }
}
