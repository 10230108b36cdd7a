//! Descriptions as frames.

ghost use Rattle.std.specs.Prelude.{◌≡◌, ◌<◌, ◌^◌, true, [], length, OnOk};
ghost use Rattle.std.specs.List.{list_all};
ghost use Rattle.nt_format.specs.Frames.{list_frame};
ghost use Rattle.nt_frame.specs.Writing.{bytes_added};
ghost use Rattle.nt_grammar.specs.Table.{is_short};
ghost use Rattle.nt_grammar.specs.Writing.{field_numbers, field_texts, field_record, column_numbers, first_element, column_record, field_records, column_records, description, part_fields, part_columns};
ghost use Rattle.nt_schema.specs.Whole.{AreWhole};

use crate::schema::Schema;
use nt_frame::FrameOut;
use nt_grammar::{ColumnRow, FieldRow, Part};
use std::alloc::AllocError;

/// A column with this bit among its flags has the index of its first element.
pub(crate) const DEFERRED: u16 = 1;

fn put_field_numbers(out: &mut FrameOut, row: &FieldRow) -> Result<(), AllocError>
    ensures { OnOk result (out.new ≡ bytes_added (field_numbers row.now) out.old) }
{
    out.put_u32le(0)?;
    out.put_u32le(0)?;
    out.put_u32le(row.parent)?;
    out.put_u16le(row.role)?;
    out.put_u16le(row.flags)?;
    Ok(())
}

#[tactic(auto, using(crate::proofs::Appended::four))]
fn put_field_texts(out: &mut FrameOut, row: &FieldRow) -> Result<(), AllocError>
    requires { is_short row.now ≡ true }
    ensures { OnOk result (out.new ≡ bytes_added (field_texts row.now) out.old) }
{
    out.text(row.name.as_slice())?;
    out.text(row.type_name.as_slice())?;
    out.text(b"")?;
    out.text(b"")?;
    Ok(())
}

#[tactic(auto, using(crate::proofs::Appended::record_of))]
fn put_field(out: &mut FrameOut, row: &FieldRow) -> Result<(), AllocError>
    requires { is_short row.now ≡ true }
    ensures { OnOk result (out.new ≡ bytes_added (field_record row.now) out.old) }
{
    out.begin_record()?;
    put_field_numbers(out, row)?;
    put_field_texts(out, row)?;
    out.finish();
    Ok(())
}

fn put_column_numbers(out: &mut FrameOut, row: &ColumnRow) -> Result<(), AllocError>
    ensures { OnOk result (out.new ≡ bytes_added (column_numbers row.now) out.old) }
{
    out.put_u16le(row.code)?;
    out.put_u16le(row.bits)?;
    out.put_u32le(row.field)?;
    out.put_u16le(row.flags)?;
    out.put_u16le(row.representation)?;
    Ok(())
}

fn put_first(out: &mut FrameOut, row: &ColumnRow) -> Result<(), AllocError>
    ensures { OnOk result (out.new ≡ bytes_added (first_element row.now) out.old) }
{
    if row.flags % 2 == DEFERRED {
        out.put_u64le(row.first)?;
    }
    Ok(())
}

#[tactic(auto, using(crate::proofs::Appended::record_of))]
fn put_column(out: &mut FrameOut, row: &ColumnRow) -> Result<(), AllocError>
    ensures { OnOk result (out.new ≡ bytes_added (column_record row.now) out.old) }
{
    out.begin_record()?;
    put_column_numbers(out, row)?;
    put_first(out, row)?;
    out.finish();
    Ok(())
}

fn put_fields(out: &mut FrameOut, rows: &[FieldRow]) -> Result<(), AllocError>
    requires { list_all is_short rows.now ≡ true }
    ensures { OnOk result (out.new ≡ bytes_added (field_records rows.now) out.old) }
{
    for row in rows {
        put_field(out, row)?;
    }
    Ok(())
}

fn put_columns(out: &mut FrameOut, rows: &[ColumnRow]) -> Result<(), AllocError>
    ensures { OnOk result (out.new ≡ bytes_added (column_records rows.now) out.old) }
{
    for row in rows {
        put_column(out, row)?;
    }
    Ok(())
}

#[tactic(auto, using(crate::proofs::Appended::list_of))]
fn put_field_list(out: &mut FrameOut, rows: &[FieldRow]) -> Result<(), AllocError>
    requires short { list_all is_short rows.now ≡ true }
    requires few { length rows.now < 2 ^ 32 }
    ensures { OnOk result (out.new ≡ bytes_added
        (list_frame (length rows.now) (field_records rows.now)) out.old) }
{
    out.begin_list(rows.len() as u32)?;
    put_fields(out, rows)?;
    out.finish();
    Ok(())
}

#[tactic(auto, using(crate::proofs::Appended::list_of))]
fn put_column_list(out: &mut FrameOut, rows: &[ColumnRow]) -> Result<(), AllocError>
    requires { length rows.now < 2 ^ 32 }
    ensures { OnOk result (out.new ≡ bytes_added
        (list_frame (length rows.now) (column_records rows.now)) out.old) }
{
    out.begin_list(rows.len() as u32)?;
    put_columns(out, rows)?;
    out.finish();
    Ok(())
}

#[tactic(auto, using(crate::proofs::Appended::empty_list))]
fn put_empty_list(out: &mut FrameOut) -> Result<(), AllocError>
    ensures { OnOk result (out.new ≡ bytes_added (list_frame 0 []) out.old) }
{
    out.begin_list(0)?;
    out.finish();
    Ok(())
}

#[tactic(auto, using(crate::proofs::Appended::four))]
fn put_lists(
    out: &mut FrameOut,
    fields: &[FieldRow],
    columns: &[ColumnRow],
) -> Result<(), AllocError>
    requires short { list_all is_short fields.now ≡ true }
    requires few_fields { length fields.now < 2 ^ 32 }
    requires few_columns { length columns.now < 2 ^ 32 }
    ensures { OnOk result (out.new ≡ bytes_added (description fields.now columns.now) out.old) }
{
    put_field_list(out, fields)?;
    put_column_list(out, columns)?;
    put_empty_list(out)?;
    put_empty_list(out)?;
    Ok(())
}

/// Writes the description of a part of a schema (section Schema Description), which holds the rows
/// whole: a word that a flag asks for is never left out.
#[tactic(auto, using(crate::proofs::Appended::list_all_split))]
pub fn write_description(schema: &Schema, part: Part, out: &mut FrameOut) -> Result<(), AllocError>
    requires { AreWhole schema.now }
    ensures { OnOk result (out.new ≡ bytes_added
        (description (part_fields part schema.now) (part_columns part schema.now)) out.old) }
{
    let (fields, more_fields) = schema.fields.split_at(schema.header_fields as usize);
    let (columns, more_columns) = schema.columns.split_at(schema.header_columns as usize);
    match part {
        Part::Header => put_lists(out, fields, columns),
        Part::Extension => put_lists(out, more_fields, more_columns),
    }
}
