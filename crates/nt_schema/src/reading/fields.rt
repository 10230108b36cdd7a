//! The fields of a description.

ghost use Rattle.std.specs.Prelude.{◌≡◌, ◌<◌, ◌≤◌, ◌^◌, true, length, vec_len, IfOk};
ghost use Rattle.nt_grammar.specs.Table.{is_short};
ghost use Rattle.nt_grammar.specs.Reading.{parent_at, names_at, field_at, fields_on, fields_at};
ghost use Rattle.nt_lists.specs.Answering.{Answers};
ghost use Rattle.nt_schema.specs.Reading.{fault_of, AreShortFields};

use crate::description_error::DescriptionError;
use crate::reading::words::{read_text, read_u16, read_u32};
use nt_frame::{read_list, read_record};
use nt_grammar::FieldRow;
use nt_num::Cur;
use nt_types::Bytes;
use std::alloc::{AllocError, Global};

#[tactic(auto, unfolding(nt_grammar::specs::Reading::parent_at))]
fn read_parent(cur: &mut Cur, id: u32, frame: usize) -> Result<u32, DescriptionError>
    ensures { Answers (λ n. (n, cur.new)) fault_of result (parent_at id frame cur.old) }
{
    read_u32(cur)?;
    read_u32(cur)?;
    let parent = read_u32(cur)?;
    if parent > id {
        return Err(DescriptionError::BadField {
            at: frame,
            id,
            parent,
        });
    }
    Ok(parent)
}

fn owned(alloc: Global, text: &[u8]) -> Result<Bytes, AllocError>
    ensures { IfOk result (λ b. b ≡ text.now) }
{
    Ok(Bytes::from_vec(text.to_vec(alloc)?))
}

#[tactic(auto, unfolding(nt_grammar::specs::Reading::names_at))]
fn read_names(alloc: Global, cur: &mut Cur) -> Result<(Bytes, Bytes), DescriptionError>
    ensures told { Answers (λ names. (names, cur.new)) fault_of result (names_at cur.old) }
    ensures short { IfOk result (λ names. (length names.0 < 2 ^ 32) × (length names.1 < 2 ^ 32)) }
{
    let name = read_text(cur)?;
    let type_name = read_text(cur)?;
    read_text(cur)?;
    read_text(cur)?;
    Ok((owned(alloc, name)?, owned(alloc, type_name)?))
}

#[tactic(auto, unfolding(nt_grammar::specs::Reading::field_at))]
fn read_field(alloc: Global, cur: &mut Cur, id: u32) -> Result<FieldRow, DescriptionError>
    ensures told { Answers (λ row. (row, cur.new)) fault_of result (field_at id cur.old) }
    ensures short { IfOk result (λ row. is_short row ≡ true) }
{
    let frame = cur.place();
    let mut inside = read_record(cur)?;
    let parent = read_parent(&mut inside, id, frame)?;
    let role = read_u16(&mut inside)?;
    let flags = read_u16(&mut inside)?;
    let (name, type_name) = read_names(alloc, &mut inside)?;
    Ok(FieldRow {
        parent,
        role,
        flags,
        name,
        type_name,
    })
}

#[tactic(auto, using(crate::proofs::RowSteps::field_steps))]
/// Reads so many fields behind these. Nothing is taken on the word of the count.
fn push_fields(cur: &mut Cur, count: u32, rows: &mut Vec<FieldRow>) -> Result<(), DescriptionError>
    requires { AreShortFields rows.old }
    ensures left { Answers (λ _. rows.new.items) fault_of result
        (fields_on count rows.old.items cur.old) }
    ensures rows { AreShortFields rows.new }
    ensures more { vec_len rows.old ≤ vec_len rows.new }
{
    let alloc = *rows.allocator();
    for _ in 0..count {
        let id = rows.len() as u32;
        if id == u32::MAX {
            return Err(DescriptionError::Memory);
        }
        let row = read_field(alloc, cur, id)?;
        rows.push(row)?;
    }
    Ok(())
}

/// Reads the list of fields behind these.
#[tactic(auto, unfolding(nt_grammar::specs::Reading::fields_at))]
pub(crate) fn read_fields(cur: &mut Cur, rows: &mut Vec<FieldRow>) -> Result<(), DescriptionError>
    requires { AreShortFields rows.old }
    ensures told { Answers (λ _. (rows.new.items, cur.new)) fault_of result
        (fields_at rows.old.items cur.old) }
    ensures rows { AreShortFields rows.new }
    ensures more { vec_len rows.old ≤ vec_len rows.new }
{
    let (count, mut inside) = read_list(cur)?;
    push_fields(&mut inside, count, rows)
}
