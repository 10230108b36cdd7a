//! The columns that a context begins with.

ghost use Rattle.std.specs.Prelude.{◌≡◌, ℕ, [], map, Some, slice_get, IfOk};
ghost use Rattle.nt_types.specs.ColumnTable.{code_of};
ghost use Rattle.nt_grammar.specs.declared.rows.ColumnRow.{ColumnRow};
ghost use Rattle.nt_column.specs.Column.{columns_of};
ghost use Rattle.nt_layout.specs.Laid.{Gives};
ghost use Rattle.nt_fill.specs.Context.{HasKnownType};

use nt_column::ColumnSet;
use nt_schema::{ColumnRow, Schema};
use nt_types::ColumnType;
use std::alloc::{AllocError, Global};

/// The type of a column.
fn kind_of(row: &ColumnRow) -> ColumnType
    requires { HasKnownType row.now }
    ensures { code_of result ≡ row.now.code }
{
    match ColumnType::of_code(row.code) {
        Some(kind) => kind,
        None => unreachable!(),
    }
}

/// The types of a schema's columns.
fn kinds_of(alloc: Global, schema: &Schema) -> Result<Vec<ColumnType>, AllocError>
    requires { (k : ℕ) (r : ColumnRow) → slice_get schema.now.columns k ≡ Some r → HasKnownType r }
    ensures { IfOk result (λ v. map code_of v.items ≡ map (λ r. r.code) schema.now.columns) }
{
    let count = schema.columns();
    let mut kinds = Vec::with_capacity(alloc, count as usize)?;
    for k in 0..count {
        kinds.push(kind_of(schema.column(k)))?;
    }
    Ok(kinds)
}

/// The columns of a schema, which give no entry yet.
pub fn empty_columns(alloc: Global, schema: &Schema) -> Result<ColumnSet, AllocError>
    requires { (k : ℕ) (r : ColumnRow) → slice_get schema.now.columns k ≡ Some r → HasKnownType r }
    ensures { IfOk result (λ s. Gives schema.now (columns_of s) []) }
{
    let kinds = kinds_of(alloc, schema)?;
    ColumnSet::new(alloc, &kinds)
}
