//! The columns of open fields.

ghost use Rattle.std.specs.Prelude.{◌≡◌, ◌==◌, ◌&&◌, ◌∷◌, [], option_map};
ghost use Rattle.std.specs.List.{list_any};
ghost use Rattle.std.specs.Str.{bytes_eq};
ghost use Rattle.nt_types.specs.Views.{shape_view};
ghost use Rattle.nt_types.specs.ColumnTable.{code_of, bits_of};
ghost use Rattle.nt_types.specs.ShapeData.{int};
ghost use Rattle.nt_types.specs.declared.column_type.ColumnType.TheVariants.{Switch};
ghost use Rattle.nt_grammar.specs.Open.{column_fits, one_column, text_columns, index_types, leaf_with, leaf_types, leaf_shape, named_leaf, integers};

use crate::integers::int_type;
use nt_grammar::ColumnRow;
use nt_types::{ColumnType, Shape};

/// The ends of collections and texts.
const INDEX_TYPES: [ColumnType; 4] = [
    ColumnType::Index32,
    ColumnType::Index64,
    ColumnType::SplitIndex32,
    ColumnType::SplitIndex64,
];

/// Whether a column is of one of these types.
fn is_of_type(types: &[ColumnType], column: &ColumnRow) -> bool
    ensures { result ≡ list_any (λ t. (column.now.code == code_of t) &&
        (column.now.bits == bits_of t)) types.now }
{
    types
        .iter()
        .any(|of| column.code == of.code() && column.bits == of.bits())
}

fn column_fits(principal: bool, types: &[ColumnType], column: &ColumnRow) -> bool
    ensures { result ≡ column_fits principal types.now column.now }
{
    is_of_type(types, column)
        && column.representation == 0
        && column.flags <= 1
        && column.first < 1 << 63
        && (principal || column.first == 0)
}

/// Whether there is exactly one column, of one of these types.
fn one_column(principal: bool, types: &[ColumnType], columns: &[ColumnRow]) -> bool
    ensures { result ≡ one_column principal types.now columns.now }
{
    match columns {
        [column] => column_fits(principal, types, column),
        _ => false,
    }
}

/// Whether the columns are the ends of one collection in each element.
pub(crate) fn is_index(principal: bool, columns: &[ColumnRow]) -> bool
    ensures { result ≡ one_column principal index_types columns.now }
{
    one_column(principal, &INDEX_TYPES, columns)
}

/// Whether the columns are one of tags.
pub(crate) fn is_switch(principal: bool, columns: &[ColumnRow]) -> bool
    ensures { result ≡ one_column principal (Switch ∷ []) columns.now }
{
    one_column(principal, &[ColumnType::Switch], columns)
}

fn text_columns(principal: bool, columns: &[ColumnRow]) -> bool
    ensures { result ≡ text_columns principal columns.now }
{
    match columns {
        [ends, bytes] => {
            column_fits(principal, &INDEX_TYPES, ends)
                && column_fits(false, &[ColumnType::Char], bytes)
        }
        _ => false,
    }
}

/// A leaf, where it has one column of one of these types.
fn leaf_with(
    principal: bool,
    columns: &[ColumnRow],
    leaf: Shape,
    types: [ColumnType; 2],
) -> Option<Shape>
    requires { types ≡ leaf_types (shape_view leaf) }
    ensures { option_map shape_view result ≡ leaf_with principal columns.now (shape_view leaf) }
{
    if one_column(principal, &types, columns) {
        Some(leaf)
    } else {
        None
    }
}

fn int_with(principal: bool, columns: &[ColumnRow], bits: u8, signed: bool) -> Option<Shape>
    ensures { option_map shape_view result ≡ leaf_with principal columns.now (int bits signed) }
{
    let types = [int_type(true, bits, signed), int_type(false, bits, signed)];
    leaf_with(principal, columns, Shape::Int { bits, signed }, types)
}

pub(crate) fn is(name: &[u8], text: &str) -> bool
    ensures { result ≡ bytes_eq name.now text.now }
{
    name == text.as_bytes()
}

/// An integer of a type name, where its columns fit.
fn int_of(principal: bool, name: &[u8], columns: &[ColumnRow]) -> Option<Shape>
    ensures { option_map shape_view result ≡ named_leaf integers principal name.now columns.now }
{
    if is(name, "std::int8_t") {
        int_with(principal, columns, 8, true)
    } else if is(name, "std::uint8_t") {
        int_with(principal, columns, 8, false)
    } else if is(name, "std::int16_t") {
        int_with(principal, columns, 16, true)
    } else if is(name, "std::uint16_t") {
        int_with(principal, columns, 16, false)
    } else if is(name, "std::int32_t") {
        int_with(principal, columns, 32, true)
    } else if is(name, "std::uint32_t") {
        int_with(principal, columns, 32, false)
    } else if is(name, "std::int64_t") {
        int_with(principal, columns, 64, true)
    } else if is(name, "std::uint64_t") {
        int_with(principal, columns, 64, false)
    } else {
        None
    }
}

/// The leaf of a type name, where its columns fit.
pub(crate) fn leaf_of(principal: bool, name: &[u8], columns: &[ColumnRow]) -> Option<Shape>
    ensures { option_map shape_view result ≡ leaf_shape principal name.now columns.now }
{
    if is(name, "std::string") {
        if text_columns(principal, columns) {
            Some(Shape::Text)
        } else {
            None
        }
    } else if is(name, "bool") {
        leaf_with(principal, columns, Shape::Bool, [ColumnType::Bit; 2])
    } else if is(name, "char") {
        leaf_with(principal, columns, Shape::Char, [ColumnType::Char; 2])
    } else if is(name, "std::byte") {
        leaf_with(principal, columns, Shape::Byte, [ColumnType::Byte; 2])
    } else {
        int_of(principal, name, columns)
    }
}
