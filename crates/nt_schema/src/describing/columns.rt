//! The columns of a field.

ghost use Rattle.std.specs.Prelude.{◌≡◌, ◌≤◌, ◌+◌, ◌++◌, ◌∷◌, [], OnOk, vec_len};
ghost use Rattle.nt_types.specs.Views.{shape_view};
ghost use Rattle.nt_grammar.specs.Columns.{index_type, column_types};
ghost use Rattle.nt_grammar.specs.Added.{late_row, late_rows};

use crate::writing::DEFERRED;
use nt_grammar::ColumnRow;
use nt_open::int_type;
use nt_types::{ColumnType, Shape};
use std::alloc::AllocError;

fn index_type(plain: bool) -> ColumnType
    ensures { result ≡ index_type plain }
{
    if plain {
        ColumnType::Index64
    } else {
        ColumnType::SplitIndex64
    }
}

fn push_column(
    columns: &mut Vec<ColumnRow>,
    field: u32,
    of: ColumnType,
    first: u64,
) -> Result<(), AllocError>
    ensures row { OnOk result (columns.new.items
        ≡ columns.old.items ++ late_row first field of ∷ []) }
    ensures len { OnOk result (vec_len columns.new ≡ vec_len columns.old + 1) }
{
    columns.push(ColumnRow {
        code: of.code(),
        bits: of.bits(),
        field,
        flags: if first == 0 { 0 } else { DEFERRED },
        representation: 0,
        first,
    })?;
    Ok(())
}

/// Appends the columns of a field. The first of them begins with this entry; the bytes of a text are
/// a second one, which isn't principal.
pub(crate) fn push_columns(
    columns: &mut Vec<ColumnRow>,
    field: u32,
    shape: &Shape,
    plain: bool,
    first: u64,
) -> Result<(), AllocError>
    ensures rows { OnOk result (columns.new.items ≡ columns.old.items
        ++ late_rows first field (column_types plain (shape_view shape.now))) }
    ensures few { OnOk result (vec_len columns.new ≤ vec_len columns.old + 2) }
{
    match shape {
        Shape::Bool => push_column(columns, field, ColumnType::Bit, first),
        Shape::Char => push_column(columns, field, ColumnType::Char, first),
        Shape::Byte => push_column(columns, field, ColumnType::Byte, first),
        Shape::Int { bits, signed } => {
            push_column(columns, field, int_type(plain, *bits, *signed), first)
        }
        Shape::Text => {
            push_column(columns, field, index_type(plain), first)?;
            push_column(columns, field, ColumnType::Char, 0)
        }
        Shape::List(_) | Shape::Maybe(_) => {
            push_column(columns, field, index_type(plain), first)
        }
        Shape::Rec(_) | Shape::Tuple(_) => Ok(()),
        Shape::Choice(_) => push_column(columns, field, ColumnType::Switch, first),
    }
}
