//! The pages of a cluster, listed so that they are loaded at once.

ghost use Rattle.std.specs.Prelude.{◌≡◌, ◌<◌, length, slice_get, Some, None, IfOk, OnOk};
ghost use Rattle.nt_grammar.specs.declared.rows.ColumnRow.{ColumnRow};
ghost use Rattle.nt_plans.specs.Needs.{need_of};
ghost use Rattle.nt_file_meaning.specs.Outlines.{known_column};
ghost use Rattle.nt_file_meaning.specs.Clusters.{kind_of_code, pages_listed, begins_behind};
ghost use Rattle.nt_listing.specs.Listings.{size_fault, pages_onto, column_onto, columns_listed};
ghost use Rattle.nt_listing.specs.Listed.{IsListedOnto, listing_view};

use crate::faults::{COMPRESSED, fault_with, in_column};
use crate::known::known_column;
use crate::wanting::Wanting;
use nt_encode::size_of;
use nt_grammar::ColumnRow;
use nt_num::ReadError;
use nt_pagelists::{ClusterList, KnownColumn, PageItem};
use nt_schema::Schema;
use nt_types::ColumnType;
use nt_view::{PagePlace, ZeroColumn};
use std::alloc::Global;

/// The pages of the open columns of a cluster, up to the first of a wrong size, and the columns of zeros.
#[derive(Drop)]
pub struct Listing {
    pub pages: Vec<PagePlace>,
    pub zeros: Vec<ZeroColumn>,
    /// The fault of the page of a wrong size.
    pub wrong: Option<ReadError>,
}

/// The type of a column, if it is one of those whose values can be read.
pub fn kind_of_row(row: &ColumnRow) -> Option<ColumnType>
    ensures { result ≡ kind_of_code row.now.code }
{
    ColumnType::of_code(row.code)
}

/// The pages that a cluster lists of a column.
pub fn pages_listed(cluster: &ClusterList, id: u32) -> &[PageItem]
    ensures { result.now ≡ pages_listed cluster.now id }
{
    match cluster.columns.as_slice().get(id as usize) {
        Some(column) => column.pages.as_slice(),
        None => &[],
    }
}

/// Whether a column begins behind all entries of a cluster.
pub fn begins_behind(cluster: &ClusterList, known: &KnownColumn) -> bool
    ensures { result ≡ begins_behind cluster.now known.now }
{
    known.is_principal
        && u128::from(cluster.first) + u128::from(cluster.entries) <= u128::from(known.first)
}

/// The fault of a page that has another size than its elements, as a compressed one has.
fn size_fault(number: u32, id: u32, kind: ColumnType, page: &PageItem) -> ReadError
    ensures { result ≡ size_fault number id kind page.now }
{
    let size = size_of(kind, u64::from(page.count));
    in_column(
        number,
        id,
        fault_with(COMPRESSED, page.place, size, u64::from(page.size)),
    )
}

/// Lists the pages of a column, up to the first of a wrong size.
fn list_pages(
    number: u32,
    id: u32,
    kind: ColumnType,
    pages: &[PageItem],
    listing: &mut Listing,
) -> Result<(), Wanting>
    requires { listing.old.wrong ≡ None }
    ensures { OnOk result (IsListedOnto listing.old listing.new (pages_onto number id kind pages.now)) }
{
    for page in pages {
        if u64::from(page.size) != size_of(kind, u64::from(page.count)) {
            listing.wrong = Some(size_fault(number, id, kind, page));
            return Ok(());
        }
        listing.pages.push(PagePlace {
            column: id,
            kind,
            count: page.count,
            place: page.place,
            size: page.size,
            checked: page.checked,
        })?;
    }
    Ok(())
}

/// Lists what is loaded for the column with this id.
fn list_column(
    number: u32,
    cluster: &ClusterList,
    schema: &Schema,
    id: u32,
    listing: &mut Listing,
) -> Result<(), Wanting>
    requires there { id < length schema.now.columns }
    requires right { listing.old.wrong ≡ None }
    ensures { OnOk result ((row : ColumnRow) → slice_get schema.now.columns id ≡ Some row
        → IsListedOnto listing.old listing.new
        (column_onto number cluster.now id (known_column (need_of schema.now id) row) row.code)) }
{
    let known = known_column(schema, id);
    if !known.is_open {
        return Ok(());
    }
    if begins_behind(cluster, &known) {
        listing.zeros.push(ZeroColumn {
            column: id,
            count: cluster.entries,
        })?;
        return Ok(());
    }
    match kind_of_row(schema.column(id)) {
        Some(kind) => list_pages(number, id, kind, pages_listed(cluster, id), listing),
        None => Ok(()),
    }
}

/// Lists what is loaded for all columns of a cluster.
pub fn list_columns(
    alloc: Global,
    number: u32,
    cluster: &ClusterList,
    schema: &Schema,
) -> Result<Listing, Wanting>
    ensures { IfOk result (λ l. listing_view l ≡ columns_listed number cluster.now schema.now 0 schema.now.columns) }
{
    let mut listing = Listing {
        pages: Vec::new(alloc),
        zeros: Vec::new(alloc),
        wrong: None,
    };
    for id in 0..schema.columns() {
        list_column(number, cluster, schema, id, &mut listing)?;
        match listing.wrong {
            Some(_) => return Ok(listing),
            None => {}
        }
    }
    Ok(listing)
}
