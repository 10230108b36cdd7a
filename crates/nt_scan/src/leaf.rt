//! The number leaves of a schema.

ghost use Rattle.std.specs.Prelude.{◌≡◌, ◌<◌, length, slice_get, Some, IfOk, IsSome};
ghost use Rattle.nt_grammar.specs.declared.rows.FieldRow.{FieldRow};
ghost use Rattle.nt_scan.specs.Leaves.{number_kind, column_kind, leaf_of_row, leaves_of};

use nt_listing::kind_of_row;
use nt_schema::Schema;
use nt_total::is_integral;
use nt_types::ColumnType;
use std::alloc::{AllocError, Global};

/// The role of a field without fields inside.
const LEAF: u16 = 0;

/// A field of integers, characters or bytes that lies in an open one, and its column, by their ids, which count fields and columns from 0
/// (RNTuple Binary Format Specification 1.0.0.0, sections Field Description and Column Description).
#[derive(Clone, Copy, Debug, PartialEq, Eq)]
pub struct Leaf {
    pub field: u32,
    pub column: u32,
}

/// The type of a column, if it is there and its values are integers, characters or bytes.
fn number_kind(schema: &Schema, column: u32) -> Option<ColumnType>
    ensures { result ≡ number_kind schema.now column }
{
    if column >= schema.columns() {
        return None;
    }
    let kind = kind_of_row(schema.column(column))?;
    if is_integral(kind) { Some(kind) } else { None }
}

/// The type of a column of numbers.
pub fn column_kind(schema: &Schema, column: u32) -> ColumnType
    ensures { result ≡ column_kind schema.now column }
{
    match number_kind(schema, column) {
        Some(kind) => kind,
        None => ColumnType::Byte,
    }
}

/// The leaf that a field is.
fn leaf_of(schema: &Schema, id: u32) -> Option<Leaf>
    requires { id < length schema.now.fields }
    ensures { (row : FieldRow) → slice_get schema.now.fields id ≡ Some row
        → result ≡ leaf_of_row schema.now id row }
{
    let columns = schema.columns_of(id);
    if schema.field(id).role != LEAF || columns.len() != 1 {
        return None;
    }
    let column = columns[0];
    let _kind = number_kind(schema, column)?;
    if !schema.is_open_column(column) {
        return None;
    }
    Some(Leaf { field: id, column })
}

/// All number leaves of a schema, in the order of the fields' ids. Its one error is want of memory.
pub fn leaves_of(alloc: Global, schema: &Schema) -> Result<Vec<Leaf>, AllocError>
    ensures { IfOk result (λ leaves. leaves.items ≡ leaves_of schema.now) }
{
    let mut leaves = Vec::new(alloc);
    for id in 0..schema.fields() {
        match leaf_of(schema, id) {
            Some(leaf) => leaves.push(leaf)?,
            None => {}
        }
    }
    Ok(leaves)
}
