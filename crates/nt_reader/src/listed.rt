//! What a cluster lists of a column.

ghost use Rattle.std.specs.Prelude.{◌≡◌, ◌<◌, length, slice_index_or, slice_get, Some};
ghost use Rattle.nt_grammar.specs.declared.rows.ColumnRow.{ColumnRow};
ghost use Rattle.nt_plans.specs.Needs.{need_of};
ghost use Rattle.nt_file_meaning.specs.Outlines.{known_column};
ghost use Rattle.nt_file_meaning.specs.Clusters.{pages_listed};
ghost use Rattle.nt_file_meaning.specs.Counts.{zeros_due};
ghost use Rattle.nt_reader.specs.Outlines.{unlisted_page};

use nt_listing::{begins_behind, known_column, pages_listed};
use nt_pagelists::ClusterList;
use nt_schema::Schema;

/// How many pages are listed of a column.
pub fn page_number(cluster: &ClusterList, column: u32) -> u64
    ensures { result ≡ length (pages_listed cluster.now column) }
{
    pages_listed(cluster, column).len() as u64
}

/// How many elements a page of a column has.
pub fn page_count(cluster: &ClusterList, column: u32, i: u64) -> u32
    requires { i < length (pages_listed cluster.now column) }
    ensures { result ≡ (slice_index_or (pages_listed cluster.now column) i unlisted_page).count }
{
    pages_listed(cluster, column)[i as usize].count
}

/// How many zeros stand for a column.
pub fn zeros_due(schema: &Schema, cluster: &ClusterList, column: u32) -> u64
    requires { column < length schema.now.columns }
    ensures { (row : ColumnRow) → slice_get schema.now.columns column ≡ Some row
        → result ≡ zeros_due cluster.now (known_column (need_of schema.now column) row) }
{
    let known = known_column(schema, column);
    if known.is_open && begins_behind(cluster, &known) {
        return cluster.entries;
    }
    0
}
