//! Rows of fields and columns, and schemas that have them.

use nt_num::{Cur, put_u16le, put_u32le, put_u64le};
use nt_schema::{ColumnRow, FieldRow, Part, Schema, describe, read_description};
use nt_types::parse_schema;
use std::alloc::{AllocError, Global};

/// The parent, role, flags, name and type name of a field.
pub type Field = (u32, u16, u16, &'static [u8], &'static [u8]);

/// The code, bits, field, flags, representation and first element of a column.
pub type Column = (u16, u16, u32, u16, u16, u64);

/// The schema of this text, split or plain; an error too where it is no text of a schema.
pub fn described(alloc: Global, text: &[u8], plain: bool) -> Result<Schema, AllocError> {
    match parse_schema(alloc, text) {
        Ok(fields) => describe(alloc, &fields, plain),
        Err(_) => Err(AllocError),
    }
}

fn is_field(row: &FieldRow, wanted: &Field) -> bool {
    let (parent, role, flags, name, type_name) = *wanted;
    (row.parent, row.role, row.flags) == (parent, role, flags)
        && row.name.as_slice() == name
        && row.type_name.as_slice() == type_name
}

/// Whether the fields of a schema are these.
pub fn has_fields(schema: &Schema, rows: &[Field]) -> bool {
    for id in 0..schema.fields() {
        match rows.get(id as usize) {
            Some(row) if is_field(schema.field(id), row) => {}
            _ => return false,
        }
    }
    schema.fields() as usize == rows.len()
}

fn is_column(row: &ColumnRow, wanted: &Column) -> bool {
    let (code, bits, field, flags, representation, first) = *wanted;
    (row.code, row.bits, row.field) == (code, bits, field)
        && (row.flags, row.representation, row.first) == (flags, representation, first)
}

/// Whether the columns of a schema are these.
pub fn has_columns(schema: &Schema, rows: &[Column]) -> bool {
    for id in 0..schema.columns() {
        match rows.get(id as usize) {
            Some(row) if is_column(schema.column(id), row) => {}
            _ => return false,
        }
    }
    schema.columns() as usize == rows.len()
}

fn put_text(out: &mut Vec<u8>, text: &[u8]) -> Result<(), AllocError> {
    put_u32le(out, u32::try_from(text.len()).unwrap_or(0))?;
    out.extend_from_slice(text)
}

/// Puts a record frame of these bytes behind others.
fn put_record(out: &mut Vec<u8>, inside: &[u8]) -> Result<(), AllocError> {
    put_u64le(out, 8 + inside.len() as u64)?;
    out.extend_from_slice(inside)
}

/// Puts a list frame of so many items behind other bytes.
fn put_list(out: &mut Vec<u8>, count: usize, items: &[u8]) -> Result<(), AllocError> {
    put_u64le(out, (12 + items.len() as u64).wrapping_neg())?;
    put_u32le(out, u32::try_from(count).unwrap_or(0))?;
    out.extend_from_slice(items)
}

fn put_field(alloc: Global, out: &mut Vec<u8>, row: &Field) -> Result<(), AllocError> {
    let (parent, role, flags, name, type_name) = *row;
    let mut inside = vec![in alloc; 0u8; 8]?;
    put_u32le(&mut inside, parent)?;
    put_u16le(&mut inside, role)?;
    put_u16le(&mut inside, flags)?;
    put_text(&mut inside, name)?;
    put_text(&mut inside, type_name)?;
    put_text(&mut inside, b"")?;
    put_text(&mut inside, b"")?;
    put_record(out, &inside)
}

fn put_column(alloc: Global, out: &mut Vec<u8>, row: &Column) -> Result<(), AllocError> {
    let (code, bits, field, flags, representation, first) = *row;
    let mut inside = Vec::new(alloc);
    put_u16le(&mut inside, code)?;
    put_u16le(&mut inside, bits)?;
    put_u32le(&mut inside, field)?;
    put_u16le(&mut inside, flags)?;
    put_u16le(&mut inside, representation)?;
    if flags % 2 == 1 {
        put_u64le(&mut inside, first)?;
    }
    put_record(out, &inside)
}

/// The schema that a header with these rows describes, and no alias column nor type information; an error too where they are none.
pub fn schema_of(
    alloc: Global,
    fields: &[Field],
    columns: &[Column],
) -> Result<Schema, AllocError> {
    let (mut rows, mut bytes) = (Vec::new(alloc), Vec::new(alloc));
    for row in fields {
        put_field(alloc, &mut rows, row)?;
    }
    put_list(&mut bytes, fields.len(), &rows)?;
    rows.clear();
    for row in columns {
        put_column(alloc, &mut rows, row)?;
    }
    put_list(&mut bytes, columns.len(), &rows)?;
    put_list(&mut bytes, 0, b"")?;
    put_list(&mut bytes, 0, b"")?;
    let mut schema = Schema::new(alloc);
    match read_description(&mut Cur::new(&bytes), &mut schema, Part::Header) {
        Ok(()) => Ok(schema),
        Err(_) => Err(AllocError),
    }
}
