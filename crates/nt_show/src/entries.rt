//! The entries of a file, printed as lines.

ghost use Rattle.std.specs.Prelude.{◌≡◌, ◌<◌, ℕ, List, Some, length, OnOk, IfOk};
ghost use Rattle.nt_outside.specs.Faults.{RoseOnFailed};
ghost use Rattle.nt_reader.specs.Columns.{given_entries};
ghost use Rattle.nt_show.specs.Ranges.{entry_lines, in_range};
ghost use Rattle.nt_show.specs.Gathering.{PrintsSome, GathersPart, OnlyPrints, HasCauses};
ghost use Rattle.nt_show.specs.Listing.{ClusterTold, ClustersTold};
ghost use Rattle.nt_show.specs.Shown.{entries_shown, ShowsFile};

use crate::entry_range::EntryRange;
use crate::lines::put_some;
use nt_decoded::{DecodedCluster, KeptMemory, decode_cluster};
use nt_num::ReadError;
use nt_outside::{Host, ReadAt, Refused, Stream, print_all};
use nt_reader::Reader;
use nt_tfile::ReadFailure;
use std::alloc::Global;

/// What goes from one cluster to the next: the entries that are left to show, counted from its first, the
/// lines that wait to be printed, and memory that it may have.
#[derive(Drop)]
struct Pending {
    range: EntryRange,
    waiting: Vec<u8>,
    kept: Option<KeptMemory>,
}

/// Gathers the lines of those entries of a cluster that lie in the range.
fn put_entries<H: Host>(
    alloc: Global,
    host: &mut H,
    waiting: &mut Vec<u8>,
    cluster: &DecodedCluster<'_>,
    range: &EntryRange,
) -> Result<(), Refused>
    ensures ok { OnOk result (PrintsSome (entry_lines (in_range range.now (given_entries cluster.now)))
        (H.state host.old).world waiting.old.items (H.state host.new).world waiting.new.items) }
    ensures part { GathersPart (entry_lines (in_range range.now (given_entries cluster.now)))
        (H.state host.old).world waiting.old.items (H.state host.new).world }
    ensures cause { RoseOnFailed (H.state host.old).faults (H.state host.new).faults result }
    ensures rest { OnlyPrints (H.state host.old) (H.state host.new) }
{
    let (from, to) = range.within(cluster.entries());
    let mut i = from;
    while i < to {
        i = put_some(alloc, host, waiting, cluster, (i, to))?;
    }
    Ok(())
}

/// Reads a cluster, and then gathers the lines of its entries that lie in the range, which goes on
/// behind them; or says the cluster's first fault. Its memory is kept for the next one.
fn put_cluster<H: Host, F: ReadAt>(
    alloc: Global,
    host: &mut H,
    file: &mut F,
    reader: &Reader,
    k: u32,
    pending: &mut Pending,
) -> Result<Option<ReadError>, Refused>
    requires { k < length reader.now.clusters }
    ensures told { (b : List ℕ) → (F.state file.old).bytes ≡ Some b → ClusterTold b reader.now k
        pending.old.range pending.new.range (H.state host.old).world pending.old.waiting.items
        (H.state host.new).world pending.new.waiting.items result }
    ensures bytes { (F.state file.new).bytes ≡ (F.state file.old).bytes }
    ensures cause { HasCauses (H.state host.old) (H.state host.new) (F.state file.old) (F.state file.new) result }
    ensures rest { OnlyPrints (H.state host.old) (H.state host.new) }
{
    match decode_cluster(alloc, file, reader, k, pending.kept.take()) {
        Ok(cluster) => {
            put_entries(alloc, host, &mut pending.waiting, &cluster, &pending.range)?;
            pending.range = pending.range.past(cluster.entries());
            pending.kept = Some(cluster.into_memory());
            Ok(None)
        }
        Err(ReadFailure::Defect(fault)) => Ok(Some(fault)),
        Err(ReadFailure::Fault) => Err(Refused::Failed),
        Err(ReadFailure::Memory) => Err(Refused::Memory),
    }
}

/// The same of all clusters, up to the first with a fault.
fn put_clusters<H: Host, F: ReadAt>(
    alloc: Global,
    host: &mut H,
    file: &mut F,
    reader: &Reader,
    pending: &mut Pending,
) -> Result<Option<ReadError>, Refused>
    ensures told { (b : List ℕ) → (F.state file.old).bytes ≡ Some b → ClustersTold b reader.now
        pending.old.range (H.state host.old).world pending.old.waiting.items (H.state host.new).world
        pending.new.waiting.items result }
    ensures cause { HasCauses (H.state host.old) (H.state host.new) (F.state file.old) (F.state file.new) result }
    ensures rest { OnlyPrints (H.state host.old) (H.state host.new) }
{
    for k in 0..reader.clusters() {
        let fault = put_cluster(alloc, host, file, reader, k, pending)?;
        if fault.is_some() {
            return Ok(fault);
        }
    }
    Ok(None)
}

/// Attaches to a file, then reads its clusters in order, and prints the lines of the entries that lie
/// in the range. The range chooses what is printed and not what is read: every cluster is read and
/// checked, up to the first that has a fault.
///
/// A cluster's lines are printed once it was read. They are gathered to 64 KiB, also over clusters.
///
/// # Errors
///
/// A defect is the first fault of the file; then the lines of the clusters before it are printed.
/// `Fault` comes only where the count of the host or of the file rose, `Memory` where memory ran out;
/// then some of the lines are printed.
pub fn show_entries<H: Host, F: ReadAt>(
    alloc: Global,
    host: &mut H,
    file: &mut F,
    range: EntryRange,
) -> Result<(), ReadFailure>
    ensures { ShowsFile (entries_shown range) (H.state host.old) (H.state host.new)
        (F.state file.old) (F.state file.new) result }
{
    let reader = Reader::attach(alloc, file)?;
    let mut pending = Pending {
        range,
        waiting: Vec::new(alloc),
        kept: None,
    };
    let fault = put_clusters(alloc, host, file, &reader, &mut pending)?;
    print_all(host, Stream::ToOut, &pending.waiting)?;
    match fault {
        None => Ok(()),
        Some(fault) => Err(ReadFailure::Defect(fault)),
    }
}
