//! What a schema tells of its columns.

ghost use Rattle.std.specs.Prelude.{◌≡◌, ◌<◌, length, slice_get, Some};
ghost use Rattle.nt_grammar.specs.declared.rows.ColumnRow.{ColumnRow};
ghost use Rattle.nt_plans.specs.Needs.{need_of};
ghost use Rattle.nt_file_meaning.specs.Outlines.{known_column};

use nt_pagelists::KnownColumn;
use nt_plans::columns_have_needs;
use nt_schema::Schema;

/// What a schema tells of the column with this id.
pub fn known_column(schema: &Schema, id: u32) -> KnownColumn
    requires { id < length schema.now.columns }
    ensures { (row : ColumnRow) → slice_get schema.now.columns id ≡ Some row
        → result ≡ known_column (need_of schema.now id) row }
{
    columns_have_needs();
    KnownColumn {
        is_open: schema.is_open_column(id),
        is_principal: schema.is_principal(id),
        first: schema.column(id).first,
    }
}
