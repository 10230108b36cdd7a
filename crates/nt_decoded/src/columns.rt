//! The columns of a cluster.

ghost use Rattle.std.specs.Prelude.{◌≡◌, ◌<◌, length, map, slice_get, Some, IfOk};
ghost use Rattle.nt_grammar.specs.declared.rows.ColumnRow.{ColumnRow};
ghost use Rattle.nt_column.specs.Column.{columns_of, elements_at};
ghost use Rattle.nt_file_meaning.specs.Clusters.{kind_of_code, pages_of_column, columns_from};
ghost use Rattle.nt_tfile.specs.Calls.{Serves, ReadsFile};
ghost use Rattle.nt_decoded.specs.Windows.{IsSeenBy};
ghost use Rattle.nt_decoded.specs.Columns.{kind_or_bit, kept_empty, elements_in, held_elements, held_column, IsNextColumn, IsEmptyAt, FillsOne, AreOfTypes};

use crate::pages::{ColumnOf, push_pages};
use crate::reuse::reused_columns;
use crate::window::Window;
use nt_column::ColumnSet;
use nt_grammar::ColumnRow;
use nt_listing::{Wanting, begins_behind, kind_of_row, known_column, pages_listed};
use nt_outside::ReadAt;
use nt_pagelists::{ClusterList, PageItem};
use nt_schema::Schema;
use nt_tfile::ReadFailure;
use nt_types::ColumnType;
use std::alloc::Global;

/// A cluster by its number, with what its page list tells of it.
#[derive(Drop)]
pub struct NumberedCluster<'a> {
    pub number: u32,
    pub list: &'a ClusterList,
}

/// The type by which a column is kept.
pub fn kept_kind(row: &ColumnRow) -> ColumnType
    ensures { result ≡ kind_or_bit (kind_of_code row.now.code) }
{
    match kind_of_row(row) {
        Some(kind) => kind,
        None => ColumnType::Bit,
    }
}

/// A column without elements for each of the schema.
pub fn empty_columns(alloc: Global, schema: &Schema) -> Result<ColumnSet, Wanting>
    ensures { IfOk result (λ set. columns_of set ≡ map kept_empty schema.now.columns) }
{
    let mut kinds = Vec::new(alloc);
    for id in 0..schema.columns() {
        kinds.push(kept_kind(schema.column(id)))?;
    }
    Ok(ColumnSet::new(alloc, &kinds)?)
}

/// Fills an empty column with the elements of its pages.
fn fill<F: ReadAt>(
    file: &mut F,
    of: &ColumnOf,
    pages: &[PageItem],
    window: &mut Window,
    columns: &mut ColumnSet,
) -> Result<(), ReadFailure>
    requires { IsSeenBy (F.state file.old) window.old × IsEmptyAt (columns_of columns.old) of.now.id }
    ensures file { Serves (F.state file.old) (F.state file.new) result }
    ensures window { IsSeenBy (F.state file.new) window.new }
    ensures read { let kind = (held_column (columns_of columns.old) of.now.id).kind in
        ReadsFile (λ _. elements_at (columns_of columns.new) of.now.id)
        (λ told. pages_of_column told of.now.cluster of.now.id kind pages.now) (F.state file.old) result }
    ensures others { FillsOne of.now.id (columns_of columns.old) (columns_of columns.new) result }
{
    push_pages(file, of, pages, window, columns.buffer(of.id))
}

/// Reads the column with this id, of those that are still empty.
fn read_column<F: ReadAt>(
    file: &mut F,
    cluster: &NumberedCluster<'_>,
    schema: &Schema,
    id: u32,
    window: &mut Window,
    columns: &mut ColumnSet,
) -> Result<(), ReadFailure>
    requires { IsSeenBy (F.state file.old) window.old × IsNextColumn schema.now.columns id (columns_of columns.old) }
    ensures file { Serves (F.state file.old) (F.state file.new) result }
    ensures window { IsSeenBy (F.state file.new) window.new }
    ensures read { (row : ColumnRow) → slice_get schema.now.columns id ≡ Some row
        → ReadsFile (λ _. elements_at (columns_of columns.new) id)
        (elements_in cluster.now.number cluster.now.list.now schema.now id row) (F.state file.old) result }
    ensures others { FillsOne id (columns_of columns.old) (columns_of columns.new) result }
{
    let known = known_column(schema, id);
    if !known.is_open {
        return Ok(());
    }
    if begins_behind(cluster.list, &known) {
        columns.zeros(id, cluster.list.entries);
        return Ok(());
    }
    let of = ColumnOf {
        cluster: cluster.number,
        id,
    };
    match kind_of_row(schema.column(id)) {
        Some(_) => fill(file, &of, pages_listed(cluster.list, id), window, columns),
        None => Ok(()),
    }
}

/// Reads the columns of a cluster, by id, in the memory of other columns where they are such.
pub fn read_columns<F: ReadAt>(
    alloc: Global,
    file: &mut F,
    cluster: &NumberedCluster<'_>,
    schema: &Schema,
    kept: Option<ColumnSet>,
    window: &mut Window,
) -> Result<ColumnSet, ReadFailure>
    requires { IsSeenBy (F.state file.old) window.old }
    ensures file { Serves (F.state file.old) (F.state file.new) result }
    ensures read { let rows = schema.now.columns in ReadsFile (λ set. held_elements set)
        (λ told. columns_from told cluster.now.number cluster.now.list.now schema.now 0 rows) (F.state file.old) result }
    ensures types { IfOk result (λ set. AreOfTypes schema.now.columns (columns_of set)) }
{
    let mut columns = reused_columns(alloc, schema, kept)?;
    for id in 0..schema.columns() {
        read_column(file, cluster, schema, id, window, &mut columns)?;
    }
    Ok(columns)
}
