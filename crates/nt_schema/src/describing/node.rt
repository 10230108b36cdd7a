//! A field that is listed, and its row.

ghost use Rattle.std.specs.Prelude.{◌≡◌, IfOk};
ghost use Rattle.nt_grammar.specs.Rows.{field_row};
ghost use Rattle.nt_schema.specs.Describing.{label_view, node_view};

use itoa::Buffer;
use nt_grammar::FieldRow;
use nt_open::{role_of, type_name};
use nt_types::{Bytes, Shape};
use std::alloc::{AllocError, Global};

/// How a field is named.
#[derive(Clone, Copy)]
pub(crate) enum Label<'a> {
    Given(&'a [u8]),
    /// By its place among the fields inside its parent, from 0.
    Place(usize),
}

/// A field that is listed.
#[derive(Clone, Copy)]
pub(crate) struct Node<'a> {
    /// The id of the field that it lies in, or its own.
    pub(crate) parent: u32,
    pub(crate) label: Label<'a>,
    pub(crate) of: &'a Shape,
    /// Whether all fields that it lies in are records.
    pub(crate) principal: bool,
}

fn name_of(alloc: Global, label: Label<'_>) -> Result<Bytes, AllocError>
    ensures { IfOk result (λ name. name ≡ label_view label.entry) }
{
    let mut out = Vec::new(alloc);
    match label {
        Label::Given(name) => out.extend_from_slice(name)?,
        Label::Place(place) => {
            out.push(b'_')?;
            out.extend_from_slice(Buffer::new().format(place).as_bytes())?;
        }
    }
    Ok(Bytes::from_vec(out))
}

/// The row of a field.
pub(crate) fn field_row(alloc: Global, node: &Node<'_>) -> Result<FieldRow, AllocError>
    ensures { IfOk result (λ row. row ≡ field_row (node_view node.now)) }
{
    Ok(FieldRow {
        parent: node.parent,
        role: role_of(node.of),
        flags: 0,
        name: name_of(alloc, node.label)?,
        type_name: type_name(alloc, node.of)?,
    })
}
