//! The columns of a description.

ghost use Rattle.std.specs.Prelude.{◌≡◌, ◌<◌, ◌≤◌, ◌^◌, vec_len};
ghost use Rattle.nt_grammar.specs.Reading.{owner_at, first_at, column_at, columns_on, columns_at};
ghost use Rattle.nt_lists.specs.Answering.{Answers};
ghost use Rattle.nt_schema.specs.Reading.{fault_of};

use crate::description_error::DescriptionError;
use crate::reading::words::{read_u16, read_u32, read_u64};
use nt_frame::{read_list, read_record};
use nt_grammar::ColumnRow;
use nt_num::Cur;

/// A column with this bit among its flags has the index of its first element.
const DEFERRED: u16 = 1;

#[tactic(auto, unfolding(nt_grammar::specs::Reading::owner_at))]
fn read_owner(cur: &mut Cur, fields: u32, frame: usize) -> Result<u32, DescriptionError>
    ensures { Answers (λ n. (n, cur.new)) fault_of result (owner_at fields frame cur.old) }
{
    let field = read_u32(cur)?;
    if field >= fields {
        return Err(DescriptionError::BadColumn {
            at: frame,
            count: fields,
            id: field,
        });
    }
    Ok(field)
}

#[tactic(auto, unfolding(nt_grammar::specs::Reading::first_at))]
fn read_first(cur: &mut Cur, flags: u16) -> Result<u64, DescriptionError>
    ensures { Answers (λ n. (n, cur.new)) fault_of result (first_at flags cur.old) }
{
    if flags % 2 == DEFERRED {
        read_u64(cur)
    } else {
        Ok(0)
    }
}

#[tactic(auto, unfolding(nt_grammar::specs::Reading::column_at))]
fn read_column(cur: &mut Cur, fields: u32) -> Result<ColumnRow, DescriptionError>
    ensures { Answers (λ row. (row, cur.new)) fault_of result (column_at fields cur.old) }
{
    let frame = cur.place();
    let mut inside = read_record(cur)?;
    let code = read_u16(&mut inside)?;
    let bits = read_u16(&mut inside)?;
    let field = read_owner(&mut inside, fields, frame)?;
    let flags = read_u16(&mut inside)?;
    let representation = read_u16(&mut inside)?;
    let first = read_first(&mut inside, flags)?;
    Ok(ColumnRow {
        code,
        bits,
        field,
        flags,
        representation,
        first,
    })
}

#[tactic(auto, using(crate::proofs::RowSteps::column_steps))]
/// Reads so many columns of so many fields behind these. Nothing is taken on the word of the count.
fn push_columns(
    cur: &mut Cur,
    fields: u32,
    count: u32,
    rows: &mut Vec<ColumnRow>,
) -> Result<(), DescriptionError>
    requires { vec_len rows.old < 2 ^ 32 }
    ensures left { Answers (λ _. rows.new.items) fault_of result
        (columns_on fields count rows.old.items cur.old) }
    ensures few { vec_len rows.new < 2 ^ 32 }
    ensures more { vec_len rows.old ≤ vec_len rows.new }
{
    for _ in 0..count {
        if rows.len() as u32 == u32::MAX {
            return Err(DescriptionError::Memory);
        }
        let row = read_column(cur, fields)?;
        rows.push(row)?;
    }
    Ok(())
}

/// Reads the list of columns of so many fields behind these.
#[tactic(auto, unfolding(nt_grammar::specs::Reading::columns_at))]
pub(crate) fn read_columns(
    cur: &mut Cur,
    fields: u32,
    rows: &mut Vec<ColumnRow>,
) -> Result<(), DescriptionError>
    requires { vec_len rows.old < 2 ^ 32 }
    ensures told { Answers (λ _. (rows.new.items, cur.new)) fault_of result
        (columns_at fields rows.old.items cur.old) }
    ensures few { vec_len rows.new < 2 ^ 32 }
    ensures more { vec_len rows.old ≤ vec_len rows.new }
{
    let (count, mut inside) = read_list(cur)?;
    push_columns(&mut inside, fields, count, rows)
}
