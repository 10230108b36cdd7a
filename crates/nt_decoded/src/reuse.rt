//! Memory that is used again.

ghost use Rattle.std.specs.Prelude.{◌≡◌, map, IfOk};
ghost use Rattle.std.specs.Bool.{OnTrue};
ghost use Rattle.nt_column.specs.Column.{columns_of};
ghost use Rattle.nt_decoded.specs.Columns.{kept_empty, AreOfTypes};

use crate::columns::{empty_columns, kept_kind};
use nt_column::ColumnSet;
use nt_listing::Wanting;
use nt_schema::Schema;
use std::alloc::Global;

/// Memory of a cluster that was decoded, which another takes.
#[derive(Drop)]
pub struct KeptMemory {
    pub(crate) columns: ColumnSet,
    /// That of the bytes which were read at once.
    pub(crate) bytes: Vec<u8>,
}

/// Its parts, or none.
pub fn kept_parts(alloc: Global, kept: Option<KeptMemory>) -> (Option<ColumnSet>, Vec<u8>) {
    match kept {
        Some(memory) => (Some(memory.columns), memory.bytes),
        None => (None, Vec::new(alloc)),
    }
}

/// Whether columns are of the types by which those of a schema are kept.
fn are_of_types(columns: &ColumnSet, schema: &Schema) -> bool
    ensures { OnTrue result (AreOfTypes schema.now.columns (columns_of columns.now)) }
{
    if columns.columns() != schema.columns() as usize {
        return false;
    }
    for id in 0..schema.columns() {
        let kept = kept_kind(schema.column(id));
        if columns.column(id).kind().code() != kept.code() {
            return false;
        }
    }
    true
}

/// A column without elements for each of a schema, in the memory of other columns where these are of
/// the same types.
pub fn reused_columns(
    alloc: Global,
    schema: &Schema,
    kept: Option<ColumnSet>,
) -> Result<ColumnSet, Wanting>
    ensures { IfOk result (λ set. columns_of set ≡ map kept_empty schema.now.columns) }
{
    if let Some(mut columns) = kept {
        if are_of_types(&columns, schema) {
            columns.recycle();
            return Ok(columns);
        }
    }
    empty_columns(alloc, schema)
}
