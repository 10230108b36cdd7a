//! The totals of columns in a file.

ghost use Rattle.std.specs.Prelude.{◌≡◌, ◌≤◌, length, replicate, ℕ, List, All, Some, IfOk};
ghost use Rattle.nt_total.specs.Running.{IsSoFar};
ghost use Rattle.nt_scan.specs.Leaves.{IsNumberColumn};
ghost use Rattle.nt_scan.specs.Totals.{IsScanOf};
ghost use Rattle.nt_scan.specs.Scans.{ServesScan};
ghost use Rattle.nt_scan.specs.Steps.{AreNothing};

use crate::adding::add_clusters;
use crate::counting::first_too_many;
use crate::error::ScanError;
use crate::totals::{Totals, totals_of};
use nt_outside::ReadAt;
use nt_reader::Reader;
use nt_total::Running;
use std::alloc::{AllocError, Global};
use std::thread::Threads;

/// No numbers of so many columns.
fn nothing(alloc: Global, columns: usize) -> Result<Vec<Running>, AllocError>
    ensures { IfOk result (λ running. AreNothing columns running.items) }
{
    let mut running = Vec::new(alloc);
    for _ in 0..columns {
        running.push(Running::none())?;
    }
    Ok(running)
}

/// The totals of columns, given by their ids, in all clusters of the file that the reader is attached to: one for each, in the same
/// order. Elements are read by the sign of the column's type; those of a cluster in which the column is defaulted are its zeros. The
/// elements are counted first by the page lists (RNTuple Binary Format Specification 1.0.0.0, section Page Locations), and then the
/// clusters are read and checked whole, one after the other, and the numbers of a column totalled by several threads. Memory is that
/// of one cluster, beside what a column's total takes.
///
/// # Errors
///
/// `TooMany` where a column has more than 2^60 elements, before any page is read: of the lowest such column its first count above.
/// A defect is the first fault of a cluster. `Fault` comes only where the file's count of faults rose, `Memory` where memory ran out.
pub fn scan<F: ReadAt>(
    rt: &(impl Threads + Sync),
    alloc: Global,
    reader: &Reader,
    file: &mut F,
    columns: &[u32],
) -> Result<Totals, ScanError>
    requires { All (λ c. IsNumberColumn reader.now.table c) columns.now }
    ensures file { ServesScan (F.state file.old) (F.state file.new) result }
    ensures len { IfOk result (λ totals. length totals ≡ length columns.now) }
    ensures scan { (told : List ℕ) → (F.state file.old).bytes ≡ Some told
        → IsScanOf told reader.now columns.now result }
{
    if let Some((column, reached)) = first_too_many(reader, columns) {
        return Err(ScanError::TooMany { column, reached });
    }
    let mut running = nothing(alloc, columns.len())?;
    add_clusters(rt, alloc, reader, file, columns, &mut running)?;
    Ok(totals_of(alloc, reader.schema(), columns, &running)?)
}
