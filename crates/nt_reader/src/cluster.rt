//! A cluster that was read.

ghost use Rattle.std.specs.Prelude.{◌≡◌, ◌<◌, ◌++◌, ◌∷◌, [], ℕ, true, length, take, Some, slice_get, slice_index_or, IfOk, OnOk, OnErr};
ghost use Rattle.nt_types.specs.TreeData.{trees_of, no_trees};
ghost use Rattle.nt_types.specs.TreeViews.{trees_view};
ghost use Rattle.nt_plans.specs.Place.{open_plans};
ghost use Rattle.nt_trees.specs.Fits.{fits_entry};
ghost use Rattle.nt_trees.specs.Sound.{AllSound};
ghost use Rattle.nt_trees.specs.Faults.{fault_in_any};
ghost use Rattle.nt_join.specs.Spots.{spot_of};
ghost use Rattle.nt_event.specs.Json.{line_of};
ghost use Rattle.nt_file_meaning.specs.Clusters.{columns_by_id, frame_of, value_fault, no_value_fault, cluster_of, columns_in_cluster};
ghost use Rattle.nt_tfile.specs.Calls.{Serves, IsReadAs, ReadsFile};
ghost use Rattle.nt_view.specs.Loaded.{loaded_elements};
ghost use Rattle.nt_view.specs.declared.page_place.PagePlace.{PagePlace};
ghost use Rattle.nt_reader.specs.Columns.{given_entries, IsClusterFrom};

use nt_column::Columns;
use nt_fitting::entries_fit_their_plans;
use nt_join::{ValueFault, check_values};
use nt_listing::read_columns;
use nt_num::ReadError;
use nt_outside::ReadAt;
use nt_pagelists::ClusterList;
use nt_plans::columns_have_types;
use nt_schema::Schema;
use nt_tfile::ReadFailure;
use nt_trees::plans_take_what_fits;
use nt_types::Trees;
use nt_view::{ClusterBytes, PagePlace};
use std::alloc::{AllocError, Global};
use std::marker::Model;

/// The code of a value that no entry has.
const BAD_VALUE: u8 = 22;

/// A cluster in which nothing is wrong, with its pages as they are stored: values are read from these one by one, and a text that lies in
/// one page is borrowed from it. Contracts see the schema, the elements of each column, the number of entries, and the pages;
/// `given_entries` says what entries these give.
#[derive(Drop)]
pub struct ClusterRead<'a> {
    schema: &'a Schema,
    columns: ClusterBytes,
    entries: u64,
}

impl<'a> Model for ClusterRead<'a> {
    ghost use Rattle.std.specs.Prelude.{length};
    ghost use Rattle.nt_listing.specs.Listings.{columns_of_loaded};
    ghost use Rattle.nt_reader.specs.Columns.{ClusterData, IsSoundOver};

    ghost Value = { ClusterData };

    ghost view = { λ c. record { table = c.schema.now; columns = columns_of_loaded 0 (length c.schema.now.columns) c.columns; entries = c.entries; loaded = c.columns } };

    ghost invariant = { λ c. IsSoundOver c.schema.now c.columns c.entries };
}

impl<'a> ClusterRead<'a> {
    /// The number of entries.
    pub fn entries(&self) -> u64
        ensures { result ≡ self.now.entries }
    {
        self.entries
    }

    /// The trees of an entry, of the open fields at the top level in order.
    pub fn entry(&self, alloc: Global, i: u64) -> Result<Trees, AllocError>
        requires { i < self.now.entries }
        ensures { IfOk result
            (λ ts. slice_get (given_entries self.now) i ≡ Some (trees_of (trees_view ts))) }
    {
        nt_join::entry(alloc, &self.columns, self.schema, i)
    }

    /// Appends the line of an entry, the same values as event text, and its LF; nothing where memory runs out.
    pub fn write_entry(&self, alloc: Global, i: u64, out: &mut Vec<u8>) -> Result<(), AllocError>
        requires { i < self.now.entries }
        ensures ok { OnOk result (out.new.items ≡ out.old.items
            ++ (line_of (slice_index_or (given_entries self.now) i no_trees) ++ 10 ∷ [])) }
        ensures err { OnErr result (out.new.items ≡ out.old.items) }
    {
        nt_print::write_entry(alloc, &self.columns, self.schema, i, out)
    }

    /// Each entry fits the open fields of the schema. It is a law, and does nothing.
    pub fn entries_fit(&self)
        ensures { (i : ℕ) → i < self.now.entries
            → fits_entry self.now.table (slice_index_or (given_entries self.now) i no_trees) ≡ true }
    {
        let _entries = self.entries;
        columns_have_types();
        plans_take_what_fits();
        entries_fit_their_plans();
    }

    /// The columns by id, read from their pages; of a closed one no element.
    pub fn columns(&self) -> &ClusterBytes
        ensures loaded { result.now ≡ self.now.loaded }
        ensures columns { (id : ℕ) → loaded_elements result.now id ≡ columns_by_id self.now.columns id }
    {
        &self.columns
    }

    /// The number of pages of the open columns.
    pub fn pages(&self) -> u32
        ensures { result ≡ length self.now.loaded.pages }
    {
        self.columns.pages()
    }

    /// A page of the open columns. Pages stand in the order of their columns' ids, and those of a column in their own.
    pub fn page(&self, i: u32) -> PagePlace
        requires { i < length self.now.loaded.pages }
        ensures { slice_get self.now.loaded.pages i ≡ Some result }
    {
        self.columns.page(i)
    }

    /// The bytes of a page as they are stored, without its checksum.
    pub fn page_bytes(&self, i: u32) -> &[u8]
        requires { i < length self.now.loaded.pages }
        ensures { (d : PagePlace) → result.now
            ≡ take (slice_index_or self.now.loaded.pages i d).size (slice_index_or self.now.loaded.stored i []) }
    {
        self.columns.page_bytes(i)
    }

    /// The columns with their pages, whose memory another cluster can take.
    pub fn into_columns(self) -> ClusterBytes
        ensures { result ≡ self.entry.loaded }
    {
        self.columns
    }
}

/// The place of the frame that shows a column of a cluster.
fn frame_of(cluster: &ClusterList, id: u32) -> u64
    ensures { result ≡ frame_of cluster.now id }
{
    match cluster.columns.as_slice().get(id as usize) {
        Some(column) => column.inner,
        None => cluster.outer,
    }
}

/// A value in the columns of the cluster with this number that no entry has, as a fault of the file.
fn value_fault(number: u32, cluster: &ClusterList, found: ValueFault) -> ReadError
    ensures { result ≡ value_fault number cluster.now (spot_of found) }
{
    ReadError {
        code: BAD_VALUE,
        at: frame_of(cluster, found.column),
        cluster: number,
        column: found.column,
        element: found.element,
        kept: 0,
        found: 0,
    }
}

/// Whether the values of columns are those of the entries of the cluster with this number; if not, the first that is wrong, as a fault of
/// the file.
///
/// # Errors
///
/// A fault has code 22, and names the column and its element.
pub fn check_cluster<C: Columns>(
    columns: &C,
    schema: &Schema,
    number: u32,
    cluster: &ClusterList,
) -> Result<(), ReadError>
    ensures fault { let found = fault_in_any (open_plans schema.now) (C.Columns.elements columns.now) cluster.now.entries in
        IsReadAs (λ _. tt) result (no_value_fault number cluster.now found) }
    ensures sound { IfOk result
        (λ _. AllSound (open_plans schema.now) (C.Columns.elements columns.now) cluster.now.entries) }
{
    match check_values(columns, schema, cluster.entries) {
        Ok(()) => Ok(()),
        Err(found) => Err(value_fault(number, cluster, found)),
    }
}

/// The cluster of this number, by what a page list tells of it; or its first fault. Its pages are loaded in the memory of others.
pub fn read_cluster<'a, F: ReadAt>(
    alloc: Global,
    file: &mut F,
    schema: &'a Schema,
    number: u32,
    cluster: &ClusterList,
    kept: ClusterBytes,
) -> Result<ClusterRead<'a>, ReadFailure>
    ensures file { Serves (F.state file.old) (F.state file.new) result }
    ensures read { ReadsFile (λ c. given_entries c)
        (λ told. cluster_of told schema.now number cluster.now) (F.state file.old) result }
    ensures columns { ReadsFile (λ c. c.columns)
        (λ told. columns_in_cluster told schema.now number cluster.now) (F.state file.old) result }
    ensures loaded { let told = (F.state file.old).bytes in
        IfOk result (λ c. IsClusterFrom told number cluster.now schema.now c) }
{
    let columns = read_columns(alloc, file, number, cluster, schema, kept)?;
    columns.in_range();
    check_cluster(&columns, schema, number, cluster)?;
    Ok(ClusterRead {
        schema,
        columns,
        entries: cluster.entries,
    })
}
