//! The columns of a cluster.

ghost use Rattle.std.specs.Prelude.{◌≡◌, length, slice_get, Some, IfOk};
ghost use Rattle.nt_num.specs.Faults.{fault, with_values};
ghost use Rattle.nt_pagelists.specs.Columns.{in_column};
ghost use Rattle.nt_view.specs.declared.page_place.PagePlace.{PagePlace};
ghost use Rattle.nt_file_meaning.specs.Clusters.{columns_from};
ghost use Rattle.nt_tfile.specs.declared.failure.ReadFailure.TheVariants.{Defect, Fault};
ghost use Rattle.nt_tfile.specs.Calls.{Serves, ReadsFile};
ghost use Rattle.nt_view.specs.declared.fault.ViewFault.TheVariants as view;
ghost use Rattle.nt_listing.specs.Loading.{AreOfRowTypes, IsLoadedFrom};
ghost use Rattle.nt_listing.specs.Listings.{columns_of_loaded, AreColumnsOf};
ghost use Rattle.nt_listing.specs.Listed.{IsLoadFailure};

use crate::faults::{BAD_PAGE, OUT_OF_FILE, fault_with, in_column};
use crate::page_listing::list_columns;
use nt_outside::ReadAt;
use nt_pagelists::ClusterList;
use nt_schema::Schema;
use nt_tfile::ReadFailure;
use nt_view::{ClusterBytes, PagePlace, ViewFault};
use std::alloc::Global;

/// The fault of a page of a cluster, whose place is told; want of memory where the page isn't one of the list.
fn page_failure(
    number: u32,
    pages: &[PagePlace],
    page: u32,
    code: u8,
    kept: u64,
    found: u64,
) -> ReadFailure
    ensures inside { result ≡ Fault → ⊥ }
    ensures told { (p : PagePlace) → slice_get pages.now page ≡ Some p
        → result ≡ Defect (in_column number p.column (with_values kept found (fault code p.place))) }
{
    match pages.get(page as usize) {
        Some(place) => ReadFailure::Defect(in_column(
            number,
            place.column,
            fault_with(code, place.place, kept, found),
        )),
        None => ReadFailure::Memory,
    }
}

/// What came in place of pages that were to be loaded, as a fault of the cluster of this number.
fn load_failure(number: u32, pages: &[PagePlace], fault: ViewFault) -> ReadFailure
    ensures told { IsLoadFailure number pages.now fault result }
    ensures fault { result ≡ Fault → fault ≡ view.Fault }
{
    match fault {
        ViewFault::OutOfFile { page } => page_failure(number, pages, page, OUT_OF_FILE, 0, 0),
        ViewFault::Checksum { page, kept, found } => {
            page_failure(number, pages, page, BAD_PAGE, kept, found)
        }
        ViewFault::Fault => ReadFailure::Fault,
        ViewFault::Memory => ReadFailure::Memory,
    }
}

/// Reads the columns of a cluster, in the memory of others: its pages are listed up to the first of a wrong size, and loaded at once.
pub fn read_columns<F: ReadAt>(
    alloc: Global,
    file: &mut F,
    number: u32,
    cluster: &ClusterList,
    schema: &Schema,
    kept: ClusterBytes,
) -> Result<ClusterBytes, ReadFailure>
    ensures file { Serves (F.state file.old) (F.state file.new) result }
    ensures read { let rows = schema.now.columns in ReadsFile (λ c. columns_of_loaded 0 (length rows) c)
        (λ told. columns_from told number cluster.now schema.now 0 rows) (F.state file.old) result }
    ensures columns { IfOk result (λ c. AreColumnsOf (length schema.now.columns) c) }
    ensures loaded { IfOk result (λ c. IsLoadedFrom (F.state file.old).bytes number cluster.now schema.now c) }
    ensures types { IfOk result (λ c. AreOfRowTypes schema.now.columns c) }
{
    let listing = list_columns(alloc, number, cluster, schema)?;
    let columns = match kept.load_over(alloc, file, &listing.pages, &listing.zeros) {
        Ok(columns) => columns,
        Err(fault) => return Err(load_failure(number, &listing.pages, fault)),
    };
    match listing.wrong {
        Some(error) => Err(ReadFailure::Defect(error)),
        None => Ok(columns),
    }
}
