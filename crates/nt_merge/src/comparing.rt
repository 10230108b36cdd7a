//! Schemas compared row by row.

ghost use Rattle.std.specs.Prelude.{◌≡◌, ◌==◌, ◌&&◌, ◌+◌, ◌<◌, ◌^◌, not, is_some, slice_get, Some, length, map};
ghost use Rattle.nt_grammar.specs.declared.rows.FieldRow.{FieldRow};
ghost use Rattle.nt_grammar.specs.Open.{top_shape};
ghost use Rattle.nt_file_meaning.specs.Outlines.{Outline};
ghost use Rattle.nt_merge.specs.Comparing.{first_closed, first_deferred, like_field, like_column, unlike_from, first_unlike, closed_in, deferred_in, unlike_in, schema_error};

use crate::place::SchemaPlace;
use nt_reader::Reader;
use nt_schema::{ColumnRow, FieldRow, Schema};

/// Whether a field stands at the top level and isn't open.
fn is_closed(schema: &Schema, id: u32) -> bool
    requires { id < length schema.now.fields }
    ensures { (r : FieldRow) → slice_get schema.now.fields id ≡ Some r
        → result ≡ ((r.parent == id) && not (is_some (top_shape schema.now.fields schema.now.columns id r))) }
{
    let closed = schema.shape(id).is_none();
    schema.field(id).parent == id && closed
}

/// The lowest field at the top level that isn't open, or 0 where there is no field.
fn first_closed(schema: &Schema) -> Option<u32>
    ensures { result ≡ first_closed schema.now }
{
    if schema.fields() == 0 {
        return Some(0);
    }
    for id in 0..schema.fields() {
        if is_closed(schema, id) {
            return Some(id);
        }
    }
    None
}

/// The lowest column that doesn't begin with the first entry.
fn first_deferred(schema: &Schema) -> Option<u32>
    ensures { result ≡ first_deferred schema.now }
{
    for id in 0..schema.columns() {
        if schema.column(id).first != 0 {
            return Some(id);
        }
    }
    None
}

/// Whether fields have the same parent, role and names.
fn like_field(one: &FieldRow, other: &FieldRow) -> bool
    ensures { result ≡ like_field one.now other.now }
{
    one.parent == other.parent
        && one.role == other.role
        && one.name.as_slice() == other.name.as_slice()
        && one.type_name.as_slice() == other.type_name.as_slice()
}

/// Whether columns have the same type, bits and field.
fn like_column(one: &ColumnRow, other: &ColumnRow) -> bool
    ensures { result ≡ like_column one.now other.now }
{
    one.code == other.code && one.bits == other.bits && one.field == other.field
}

/// The first field that differs.
fn unlike_field(first: &Schema, schema: &Schema) -> Option<u32>
    ensures { result ≡ unlike_from like_field 0 first.now.fields schema.now.fields }
{
    let common = first.fields().min(schema.fields());
    for id in 0..common {
        if !like_field(first.field(id), schema.field(id)) {
            return Some(id);
        }
    }
    if first.fields() == schema.fields() {
        None
    } else {
        Some(common)
    }
}

/// The first column that differs.
fn unlike_column(first: &Schema, schema: &Schema) -> Option<u32>
    ensures { result ≡ unlike_from like_column 0 first.now.columns schema.now.columns }
{
    let common = first.columns().min(schema.columns());
    for id in 0..common {
        if !like_column(first.column(id), schema.column(id)) {
            return Some(id);
        }
    }
    if first.columns() == schema.columns() {
        None
    } else {
        Some(common)
    }
}

/// The first row that differs, of the file of this number.
fn first_unlike(first: &Schema, file: u32, schema: &Schema) -> Option<SchemaPlace>
    ensures { result ≡ first_unlike first.now file schema.now }
{
    if let Some(id) = unlike_field(first, schema) {
        return Some(SchemaPlace::Field { file, id });
    }
    match unlike_column(first, schema) {
        Some(id) => Some(SchemaPlace::Column { file, id }),
        None => None,
    }
}

/// The first file with a closed field.
fn closed_in(readers: &[Reader]) -> Option<SchemaPlace>
    requires { length readers.now < 2 ^ 32 }
    ensures { result ≡ closed_in 0 (map (λ (o : Outline). o.table) readers.now) }
{
    for (file, reader) in readers.iter().enumerate() {
        if let Some(field) = first_closed(reader.schema()) {
            let file = file as u32;
            return Some(SchemaPlace::Closed { file, field });
        }
    }
    None
}

/// The first file with a deferred column.
fn deferred_in(readers: &[Reader]) -> Option<SchemaPlace>
    requires { length readers.now < 2 ^ 32 }
    ensures { result ≡ deferred_in 0 (map (λ (o : Outline). o.table) readers.now) }
{
    for (file, reader) in readers.iter().enumerate() {
        if let Some(column) = first_deferred(reader.schema()) {
            let file = file as u32;
            return Some(SchemaPlace::Deferred { file, column });
        }
    }
    None
}

/// The first file with a row unlike that of another schema; files count from 1.
fn unlike_in(first: &Schema, readers: &[Reader]) -> Option<SchemaPlace>
    requires { length readers.now + 1 < 2 ^ 32 }
    ensures { result ≡ unlike_in first.now 1 (map (λ (o : Outline). o.table) readers.now) }
{
    for (place, reader) in readers.iter().enumerate() {
        let found = first_unlike(first, place as u32 + 1, reader.schema());
        if found.is_some() {
            return found;
        }
    }
    None
}

/// The first place that stands against merging the files of these readers: all files are tried for
/// closed fields, then for deferred columns, then for rows unlike those of the first.
pub(crate) fn schema_error(readers: &[Reader]) -> Option<SchemaPlace>
    requires { length readers.now < 2 ^ 32 }
    ensures { result ≡ schema_error (map (λ (o : Outline). o.table) readers.now) }
{
    let (first, others) = readers.split_first()?;
    if let Some(place) = closed_in(readers) {
        return Some(place);
    }
    if let Some(place) = deferred_in(readers) {
        return Some(place);
    }
    unlike_in(first.schema(), others)
}
