//! The column types of integers.

ghost use Rattle.std.specs.Prelude.{◌≡◌};
ghost use Rattle.nt_grammar.specs.Columns.{int_type};

use nt_types::ColumnType;

/// The type of a column of integers; plain columns keep the bytes of an element together.
pub fn int_type(plain: bool, bits: u8, signed: bool) -> ColumnType
    ensures { result ≡ int_type plain bits signed }
{
    match (bits, plain, signed) {
        (8, _, true) => ColumnType::Int8,
        (8, _, false) => ColumnType::UInt8,
        (16, true, true) => ColumnType::Int16,
        (16, true, false) => ColumnType::UInt16,
        (16, false, true) => ColumnType::SplitInt16,
        (16, false, false) => ColumnType::SplitUInt16,
        (32, true, true) => ColumnType::Int32,
        (32, true, false) => ColumnType::UInt32,
        (32, false, true) => ColumnType::SplitInt32,
        (32, false, false) => ColumnType::SplitUInt32,
        (_, true, true) => ColumnType::Int64,
        (_, true, false) => ColumnType::UInt64,
        (_, false, true) => ColumnType::SplitInt64,
        (_, false, false) => ColumnType::SplitUInt64,
    }
}
