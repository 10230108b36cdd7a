//! The description of fields.

ghost use Rattle.std.specs.Prelude.{◌≡◌, ◌≤◌, ◌+◌, ◌*◌, ◌++◌, map, length, IfOk, OnOk, vec_len};
ghost use Rattle.nt_types.specs.Limits.{max_fields};
ghost use Rattle.nt_types.specs.Views.{members_view};
ghost use Rattle.nt_types.specs.ShapeData.{parts_of};
ghost use Rattle.nt_types.specs.Schema.{parts_count};
ghost use Rattle.nt_types.specs.Rules.{AreFields};
ghost use Rattle.nt_grammar.specs.Table.{in_header, IsFew};
ghost use Rattle.nt_grammar.specs.Rows.{Rows, field_row};
ghost use Rattle.nt_grammar.specs.Added.{nodes_of, added_rows};
ghost use Rattle.nt_schema.specs.Describing.{mark_view};
ghost use Rattle.nt_schema.specs.Whole.{AreWhole};

pub(crate) mod columns;
mod extending;
mod node;
mod nodes;

use crate::describing::columns::push_columns;
use crate::describing::node::{Node, field_row};
use crate::describing::nodes::all_nodes;
use crate::schema::Schema;
use nt_grammar::{ColumnRow, FieldRow};
use nt_types::Fields;
use std::alloc::{AllocError, Global};

/// Appends the rows of listed fields behind others. So many entries were written without them.
fn push_rows(
    nodes: &[Node<'_>],
    plain: bool,
    entries: u64,
    fields: &mut Vec<FieldRow>,
    columns: &mut Vec<ColumnRow>,
) -> Result<(), AllocError>
    requires { vec_len fields.old + length nodes.now ≤ max_fields }
    ensures fields { OnOk result (fields.new.items
        ≡ fields.old.items ++ map field_row (nodes_of (map mark_view nodes.now))) }
    ensures columns { OnOk result (columns.new.items ≡ columns.old.items
        ++ added_rows plain entries (vec_len fields.old) (map mark_view nodes.now)) }
    ensures few_columns { OnOk result (vec_len columns.new
        ≤ vec_len columns.old + 2 * length nodes.now) }
{
    let alloc = *fields.allocator();
    for node in nodes {
        let first = if node.principal { entries } else { 0 };
        push_columns(columns, fields.len() as u32, node.of, plain, first)?;
        fields.push(field_row(alloc, node)?)?;
    }
    Ok(())
}

/// The rows of fields and of columns.
fn rows_of(
    alloc: Global,
    fields: &Fields,
    plain: bool,
) -> Result<(Vec<FieldRow>, Vec<ColumnRow>), AllocError>
    requires { parts_count (parts_of (members_view fields.now)) ≤ max_fields }
    ensures rows { IfOk result (λ rows. Rows (members_view fields.now) plain
        (in_header rows.0.items rows.1.items)) }
    ensures few { IfOk result (λ rows. IsFew (in_header rows.0.items rows.1.items)) }
{
    let nodes = all_nodes(alloc, fields.as_slice(), 0)?;
    let (mut field_rows, mut columns) = (Vec::new(alloc), Vec::new(alloc));
    push_rows(&nodes, plain, 0, &mut field_rows, &mut columns)?;
    Ok((field_rows, columns))
}

/// The rows of fields that keep the rules of a schema text, all in the header. Plain columns keep
/// the bytes of an element together.
#[tactic(auto, using(nt_grammar::proofs::AllNodes::described_short, crate::proofs::WholeRows::described_whole))]
pub fn describe(alloc: Global, fields: &Fields, plain: bool) -> Result<Schema, AllocError>
    requires { AreFields (members_view fields.now) }
    ensures rows { IfOk result (λ schema. Rows (members_view fields.now) plain schema) }
    ensures few { IfOk result (λ schema. IsFew schema) }
    ensures whole { IfOk result (λ schema. AreWhole schema) }
{
    let (field_rows, columns) = rows_of(alloc, fields, plain)?;
    let (in_header, columns_in_header) = (field_rows.len() as u32, columns.len() as u32);
    Schema::of_rows(alloc, field_rows, columns, in_header, columns_in_header)
}
