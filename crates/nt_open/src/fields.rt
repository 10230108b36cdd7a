//! The shapes of open fields.

ghost use Rattle.std.specs.Prelude.{◌≡◌, ◌<◌, ◌&&◌, not, if◌then◌else◌, length, map, option_map, option_and_then, IfOk};
ghost use Rattle.nt_types.specs.ShapeData.{list, maybe, takes_nothing};
ghost use Rattle.nt_types.specs.Views.{shape_view, member_view};
ghost use Rattle.nt_grammar.specs.declared.rows.FieldRow.{FieldRow};
ghost use Rattle.nt_grammar.specs.Open.{ids_inside, columns_of_field, flags_fit, is_optional, collection_shape, record_shape, choice_shape, shape_by_role, all_some, field_of_row, open_field};

use crate::columns::{is, is_index, is_switch, leaf_of};
use crate::grouped::Grouped;
use nt_grammar::FieldRow;
use nt_types::{Member, Members, Name, Shape, Shapes};
use std::alloc::{AllocError, Global};

/// The structural roles of fields.
const LEAF: u16 = 0;

const COLLECTION: u16 = 1;

const RECORD: u16 = 2;

const VARIANT: u16 = 3;

/// The flag that a record's row has the checksum of its type.
const HAS_CHECKSUM: u16 = 4;

fn flags_fit(row: &FieldRow) -> bool
    ensures { result ≡ flags_fit row.now }
{
    row.flags == 0 || (row.flags == HAS_CHECKSUM && row.role == RECORD)
}

/// Whether a type name is that of an optional.
fn is_optional(name: &[u8]) -> bool
    ensures { result ≡ is_optional name.now }
{
    let (head, _) = name.split_at(name.len().min(14));
    is(head, "std::optional<")
}

/// An optional, where the type name is that of one and the values inside are never nothing; else a list.
fn collection(alloc: Global, name: &[u8], of: Shape) -> Result<Shape, AllocError>
    ensures { IfOk result (λ shape. shape_view shape
        ≡ (if is_optional name.now && not (takes_nothing (shape_view of)) then maybe (shape_view of)
        else list (shape_view of))) }
{
    if is_optional(name) && !of.takes_nothing() {
        Ok(Shape::Maybe(Box::new(alloc, of)?))
    } else {
        Ok(Shape::List(Box::new(alloc, of)?))
    }
}

/// A list or an optional, where there is exactly one field inside.
fn collection_of(
    alloc: Global,
    name: &[u8],
    parts: Option<Vec<Member>>,
) -> Result<Option<Shape>, AllocError>
    ensures { IfOk result (λ shape. option_map shape_view shape ≡ option_and_then
        (collection_shape name.now) (option_map (λ list. map member_view list.items) parts)) }
{
    let Some(mut parts) = parts else {
        return Ok(None);
    };
    match (parts.pop(), parts.is_empty()) {
        (Some(part), true) => Ok(Some(collection(alloc, name, part.of)?)),
        _ => Ok(None),
    }
}

/// A record, where there is a field inside.
fn record_of(parts: Option<Vec<Member>>) -> Option<Shape>
    ensures { option_map shape_view result
        ≡ option_and_then record_shape (option_map (λ list. map member_view list.items) parts) }
{
    match parts {
        Some(parts) if !parts.is_empty() => Some(Shape::Rec(Members::from_vec(parts))),
        _ => None,
    }
}

fn without_names(alloc: Global, parts: Vec<Member>) -> Result<Vec<Shape>, AllocError>
    ensures { IfOk result (λ shapes. map shape_view shapes.items
        ≡ map (λ part. part.of) (map member_view parts.items)) }
{
    let mut shapes = Vec::new(alloc);
    for part in parts {
        shapes.push(part.of)?;
    }
    Ok(shapes)
}

/// A choice, where there is a field inside.
fn choice_of(alloc: Global, parts: Option<Vec<Member>>) -> Result<Option<Shape>, AllocError>
    ensures { IfOk result (λ shape. option_map shape_view shape
        ≡ option_and_then choice_shape (option_map (λ list. map member_view list.items) parts)) }
{
    match parts {
        Some(parts) if !parts.is_empty() => {
            let shapes = without_names(alloc, parts)?;
            Ok(Some(Shape::Choice(Shapes::from_vec(shapes))))
        }
        _ => Ok(None),
    }
}

/// The fields of these ids, where all of them are open.
#[cycle(open)]
fn open_fields(
    alloc: Global,
    rows: &Grouped<'_>,
    depth: u32,
    principal: bool,
    ids: &[u32],
) -> Result<Option<Vec<Member>>, AllocError>
    ensures { IfOk result (λ parts. option_map (λ list. map member_view list.items) parts
        ≡ all_some
        (map (open_field depth rows.now.fields.now rows.now.columns.now principal) ids.now)) }
{
    let mut parts = Vec::new(alloc);
    for id in ids {
        let Some(part) = open_field(alloc, rows, depth, principal, *id)? else {
            return Ok(None);
        };
        parts.push(part)?;
    }
    Ok(Some(parts))
}

/// The shape of the field of a row, where it is open.
#[cycle(open)]
fn shape_by_role(
    alloc: Global,
    rows: &Grouped<'_>,
    depth: u32,
    principal: bool,
    id: u32,
    row: &FieldRow,
) -> Result<Option<Shape>, AllocError>
    requires { id < length rows.now.fields.now }
    ensures { IfOk result (λ shape. option_map shape_view shape
        ≡ shape_by_role principal row.now (columns_of_field id rows.now.columns.now)
        (ids_inside id 0 rows.now.fields.now)
        (λ up. all_some (map (open_field depth rows.now.fields.now rows.now.columns.now up)
        (ids_inside id 0 rows.now.fields.now)))) }
{
    let columns = rows.columns_of(id);
    let ids = rows.ids_of(id);
    if row.role == LEAF && ids.is_empty() {
        Ok(leaf_of(principal, row.type_name.as_slice(), columns))
    } else if row.role == COLLECTION && is_index(principal, columns) {
        let parts = open_fields(alloc, rows, depth, false, ids)?;
        collection_of(alloc, row.type_name.as_slice(), parts)
    } else if row.role == RECORD && columns.is_empty() {
        Ok(record_of(open_fields(alloc, rows, depth, principal, ids)?))
    } else if row.role == VARIANT && is_switch(principal, columns) {
        choice_of(alloc, open_fields(alloc, rows, depth, false, ids)?)
    } else {
        Ok(None)
    }
}

/// The field of a row, where it is open.
#[cycle(open)]
fn open_row(
    alloc: Global,
    rows: &Grouped<'_>,
    depth: u32,
    principal: bool,
    id: u32,
    row: &FieldRow,
) -> Result<Option<Member>, AllocError>
    requires { id < length rows.now.fields.now }
    ensures { IfOk result (λ part. option_map member_view part
        ≡ field_of_row rows.now.fields.now rows.now.columns.now
        (open_field depth rows.now.fields.now rows.now.columns.now) principal id row.now) }
{
    if !flags_fit(row) {
        return Ok(None);
    }
    let Some(of) = shape_by_role(alloc, rows, depth, principal, id, row)? else {
        return Ok(None);
    };
    let name = Name::from_vec(row.name.as_slice().to_vec(alloc)?);
    Ok(Some(Member { name, of }))
}

/// The field of this id, where it is open and has at most so many levels.
#[cycle(open)]
#[tactic(auto, using(crate::proofs::Levels::open_field_none, crate::proofs::Levels::open_field_past, crate::proofs::Levels::open_field_row))]
pub(crate) fn open_field(
    alloc: Global,
    rows: &Grouped<'_>,
    depth: u32,
    principal: bool,
    id: u32,
) -> Result<Option<Member>, AllocError>
    ensures { IfOk result (λ part. option_map member_view part
        ≡ open_field depth rows.now.fields.now rows.now.columns.now principal id) }
{
    if depth == 0 || id as usize >= rows.fields.len() {
        return Ok(None);
    }
    open_row(
        alloc,
        rows,
        depth - 1,
        principal,
        id,
        &rows.fields[id as usize],
    )
}
