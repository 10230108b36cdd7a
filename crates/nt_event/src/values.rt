//! Trees of any JSON.

ghost use Rattle.std.specs.Prelude.{◌≡◌, map, IfOk, option_map};
ghost use Rattle.serde_json.specs.View.{view, items_view};
ghost use Rattle.nt_types.specs.ShapeData.{kinds_of, parts_of};
ghost use Rattle.nt_types.specs.Views.{shape_view, member_view};
ghost use Rattle.nt_types.specs.TreeData.{trees_of};
ghost use Rattle.nt_types.specs.TreeViews.{tree_view};
ghost use Rattle.nt_event.specs.Line.{tree_read, all_read, choice_read, pick_read, one_read, kinds_read, parts_read};

use crate::leaf::{flag, number, tag, text};
use nt_types::{Member, Shape, Tree, Trees};
use serde_json::Value;
use std::alloc::{AllocError, Global};

/// The tree that a value is, for a shape.
#[cycle(tree)]
fn tree(alloc: Global, shape: &Shape, value: &Value) -> Result<Option<Tree>, AllocError>
    ensures { IfOk result (λ found. option_map tree_view found ≡ tree_read (shape_view shape.now)
        (view value.now)) }
{
    match shape {
        Shape::Bool => Ok(flag(value)),
        Shape::Char | Shape::Byte => Ok(number(value, 8, false)),
        Shape::Int { bits, signed } => Ok(number(value, *bits, *signed)),
        Shape::Text => text(alloc, value),
        Shape::List(of) => {
            let Some(values) = value.as_array() else {
                return Ok(None);
            };
            match list(alloc, of, &values)? {
                Some(list) => Ok(Some(Tree::Items(Trees { list }))),
                None => Ok(None),
            }
        }
        Shape::Rec(members) => {
            let Some(values) = value.as_array() else {
                return Ok(None);
            };
            match each_member(alloc, &members.list, &values)? {
                Some(list) => Ok(Some(Tree::Parts(Trees { list }))),
                None => Ok(None),
            }
        }
        Shape::Tuple(shapes) => {
            let Some(values) = value.as_array() else {
                return Ok(None);
            };
            match each(alloc, &shapes.list, &values)? {
                Some(list) => Ok(Some(Tree::Parts(Trees { list }))),
                None => Ok(None),
            }
        }
        Shape::Choice(shapes) => choice(alloc, &shapes.list, value),
        Shape::Maybe(_) if value.is_null() => Ok(Some(Tree::Nothing)),
        Shape::Maybe(of) => tree(alloc, of, value),
    }
}

#[cycle(tree)]
fn list(alloc: Global, of: &Shape, values: &[Value]) -> Result<Option<Vec<Tree>>, AllocError>
    ensures { IfOk result (λ found. option_map (λ v. trees_of (map tree_view v.items)) found ≡
        all_read (tree_read (shape_view of.now)) (items_view values.now)) }
{
    let mut trees = Vec::new(alloc);
    for value in values {
        match tree(alloc, of, value)? {
            Some(tree) => trees.push(tree)?,
            None => return Ok(None),
        }
    }
    Ok(Some(trees))
}

#[cycle(tree)]
fn each(alloc: Global, shapes: &[Shape], values: &[Value]) -> Result<Option<Vec<Tree>>, AllocError>
    ensures { IfOk result (λ found. option_map (λ v. trees_of (map tree_view v.items)) found ≡
        kinds_read (kinds_of (map shape_view shapes.now)) (items_view values.now)) }
{
    if shapes.len() != values.len() {
        return Ok(None);
    }
    let mut trees = Vec::new(alloc);
    for i in 0..shapes.len() {
        match tree(alloc, &shapes[i], &values[i])? {
            Some(tree) => trees.push(tree)?,
            None => return Ok(None),
        }
    }
    Ok(Some(trees))
}

#[cycle(tree)]
pub(crate) fn each_member(
    alloc: Global,
    members: &[Member],
    values: &[Value],
) -> Result<Option<Vec<Tree>>, AllocError>
    ensures { IfOk result (λ found. option_map (λ v. trees_of (map tree_view v.items)) found ≡
        parts_read (parts_of (map member_view members.now)) (items_view values.now)) }
{
    if members.len() != values.len() {
        return Ok(None);
    }
    let mut trees = Vec::new(alloc);
    for i in 0..members.len() {
        match tree(alloc, &members[i].of, &values[i])? {
            Some(tree) => trees.push(tree)?,
            None => return Ok(None),
        }
    }
    Ok(Some(trees))
}

#[cycle(tree)]
fn picked(alloc: Global, shapes: &[Shape], values: &[Value]) -> Result<Option<Tree>, AllocError>
    ensures { IfOk result (λ found. option_map tree_view found ≡ pick_read
        (one_read (kinds_of (map shape_view shapes.now))) (items_view values.now)) }
{
    if values.len() != 2 {
        return Ok(None);
    }
    let Some(tag) = tag(&values[0]) else {
        return Ok(None);
    };
    if tag == 0 {
        return Ok(None);
    }
    if tag as usize > shapes.len() {
        return Ok(None);
    }
    match tree(alloc, &shapes[tag as usize - 1], &values[1])? {
        Some(tree) => Ok(Some(Tree::Pick {
            tag,
            value: Box::new(alloc, tree)?,
        })),
        None => Ok(None),
    }
}

/// `null`, or a tag and the value of its alternative.
#[cycle(tree)]
fn choice(alloc: Global, shapes: &[Shape], value: &Value) -> Result<Option<Tree>, AllocError>
    ensures { IfOk result (λ found. option_map tree_view found ≡ choice_read
        (one_read (kinds_of (map shape_view shapes.now))) (view value.now)) }
{
    if value.is_null() {
        return Ok(Some(Tree::Nothing));
    }
    let Some(values) = value.as_array() else {
        return Ok(None);
    };
    picked(alloc, shapes, &values)
}
