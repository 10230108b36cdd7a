//! Descriptions read from bytes.

ghost use Rattle.std.specs.Prelude.{◌≡◌, ◌+◌, ◌<◌, ◌≤◌, ◌^◌, true, vec_len, ℕ, List, ◌++◌, length, Ok, OnOk, OnErr};
ghost use Rattle.nt_num.specs.Place.{At};
ghost use Rattle.nt_format.specs.Reading.{standing, IsBytes};
ghost use Rattle.nt_grammar.specs.Table.{Table};
ghost use Rattle.nt_grammar.specs.Writing.{description, part_fields, part_columns};
ghost use Rattle.nt_grammar.specs.Reading.{rows_at, description_at};
ghost use Rattle.nt_lists.specs.Answering.{Answers};
ghost use Rattle.nt_schema.specs.Reading.{fault_of, AreShortRows};
ghost use Rattle.nt_grammar.specs.ReadingBack.{IsDescribed, AddsRows, before, up_to};

mod columns;
mod fields;
mod words;

use crate::description_error::DescriptionError;
use crate::reading::columns::read_columns;
use crate::reading::fields::read_fields;
use crate::schema::Schema;
use nt_frame::read_list;
use nt_grammar::{ColumnRow, FieldRow, Part, descriptions_are_read_back, rows_read_are_described};
use nt_num::Cur;

/// Each item of a slice of bytes is one.
fn are_bytes(bytes: &[u8])
    ensures { IsBytes bytes.now }
{}

/// Reads the rows of a description behind these.
#[tactic(auto, unfolding(nt_grammar::specs::Reading::rows_at))]
fn read_rows(
    cur: &mut Cur,
    fields: &mut Vec<FieldRow>,
    columns: &mut Vec<ColumnRow>,
) -> Result<(), DescriptionError>
    requires { AreShortRows fields.old columns.old }
    ensures told { Answers (λ _. ((fields.new.items, columns.new.items), cur.new)) fault_of result
        (rows_at fields.old.items columns.old.items cur.old) }
    ensures rows { AreShortRows fields.new columns.new }
    ensures more_fields { vec_len fields.old ≤ vec_len fields.new }
    ensures more_columns { vec_len columns.old ≤ vec_len columns.new }
{
    read_fields(cur, fields)?;
    read_columns(cur, fields.len() as u32, columns)?;
    read_list(cur)?; // alias columns
    read_list(cur)?; // extra type information
    Ok(())
}

#[tactic(auto, unfolding(nt_grammar::specs::Reading::description_at))]
fn read_lists(cur: &mut Cur, schema: &mut Schema, part: Part) -> Result<(), DescriptionError>
    ensures told { Answers (λ _. (schema.new, cur.new)) fault_of result
        (description_at part schema.old cur.old) }
    ensures stays { OnErr result (cur.new ≡ cur.old) }
{
    let mut ahead = cur.fork();
    let alloc = *schema.fields.allocator();
    let (header_fields, header_columns) = (schema.header_fields, schema.header_columns);
    let (mut fields, mut columns) = schema.take_rows();
    read_rows(&mut ahead, &mut fields, &mut columns)?;
    let (header_fields, header_columns) = match part {
        Part::Header => (fields.len() as u32, columns.len() as u32),
        Part::Extension => (header_fields, header_columns),
    };
    *schema = Schema::of_rows(alloc, fields, columns, header_fields, header_columns)?;
    *cur = ahead;
    Ok(())
}

/// Reads the description of a part of a schema (section Schema Description), and adds its rows
/// behind those that are there; ids go on from theirs. The cursor then stands behind it. What the
/// bytes only promise takes neither time nor memory. A refusal leaves the cursor, and a schema that
/// is not to be used again.
pub fn read_description(
    cur: &mut Cur,
    schema: &mut Schema,
    part: Part,
) -> Result<(), DescriptionError>
    // What the bytes mean, or which fault is the first.
    ensures told { Answers (λ _. (schema.new, cur.new)) fault_of result
        (description_at part schema.old cur.old) }
    ensures stays { OnErr result (cur.new ≡ cur.old) }
    // What is written of this part of a table is read behind the rows before it, whatever follows.
    ensures written { (t : Table) (rest : List ℕ)
        → IsDescribed t → length t.fields < 2 ^ 32 → length t.columns < 2 ^ 32
        → schema.old ≡ before part t → cur.old.left
        ≡ description (part_fields part t) (part_columns part t) ++ rest
        → Answers {W = Table × At} (λ _. (schema.new, cur.new)) fault_of result
        (Ok (
          up_to part t,
          standing (cur.old.place + length
              (description (part_fields part t) (part_columns part t))) rest,
        )) }
    // The rows are in range, so that a table that can be written stays one.
    ensures adds { OnOk result (AddsRows part schema.old schema.new) }
    ensures described { OnOk result (IsDescribed schema.old → IsDescribed schema.new) }
{
    descriptions_are_read_back();
    rows_read_are_described();
    are_bytes(cur.rest());
    read_lists(cur, schema, part)
}
