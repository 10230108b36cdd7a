//! The shapes of all open fields.

ghost use Rattle.std.specs.Prelude.{◌≡◌, ◌<◌, ◌^◌, length, map, option_map, IfOk};
ghost use Rattle.nt_types.specs.Views.{shape_view};
ghost use Rattle.nt_grammar.specs.Open.{top_shape, open_shapes};

use crate::fields::open_field;
use crate::grouped::Grouped;
use nt_grammar::FieldRow;
use nt_types::Shape;
use std::alloc::{AllocError, Global};

/// The most levels of an open field.
const MAX_DEPTH: u32 = 64;

fn top_shape(
    alloc: Global,
    rows: &Grouped<'_>,
    id: u32,
    row: &FieldRow,
) -> Result<Option<Shape>, AllocError>
    ensures { IfOk result (λ shape. option_map shape_view shape
        ≡ top_shape rows.now.fields.now rows.now.columns.now id row.now) }
{
    if row.parent != id {
        return Ok(None);
    }
    match open_field(alloc, rows, MAX_DEPTH, true, id)? {
        Some(part) => Ok(Some(part.of)),
        None => Ok(None),
    }
}

/// The shape of each field, where it is at the top level and open. Each field is looked at once.
pub(crate) fn shapes_of(alloc: Global, rows: &Grouped<'_>) -> Result<Vec<Option<Shape>>, AllocError>
    requires { length rows.now.fields.now < 2 ^ 32 }
    ensures { IfOk result (λ shapes. map (option_map shape_view) shapes.items
        ≡ open_shapes rows.now.fields.now rows.now.columns.now 0 rows.now.fields.now) }
{
    let mut shapes = Vec::new(alloc);
    for (id, row) in rows.fields.iter().enumerate() {
        shapes.push(top_shape(alloc, rows, id as u32, row)?)?;
    }
    Ok(shapes)
}
