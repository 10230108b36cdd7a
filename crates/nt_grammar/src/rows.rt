//! The rows of a schema description.

use nt_types::Bytes;

/// What a description says of a field. Its id is its place in the list of fields, from 0.
#[derive(Drop)]
pub struct FieldRow {
    /// The id of the field that it lies in. A field at the top level names itself.
    pub parent: u32,
    /// 0 leaf, 1 collection, 2 record, 3 variant, 4 streamer.
    pub role: u16,
    pub flags: u16,
    pub name: Bytes,
    pub type_name: Bytes,
}

/// What a description says of a column. Its id is its place in the list of columns, from 0.
#[derive(Clone, Copy, Debug, PartialEq, Eq)]
pub struct ColumnRow {
    /// The code of the column's type.
    pub code: u16,
    /// The bits of an element.
    pub bits: u16,
    /// The id of the field that it belongs to.
    pub field: u32,
    pub flags: u16,
    pub representation: u16,
    /// The index of the first element, 0 where none is written.
    pub first: u64,
}
