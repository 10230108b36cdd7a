//! Values as writers put them, read by their shape.

ghost use Rattle.std.specs.Prelude.{◌≡◌, ◌+◌, ◌∷◌, [], ◌≤◌, length, map, IfOk, IfSome};
ghost use Rattle.nt_types.specs.ShapeData.{choice, kinds_of};
ghost use Rattle.nt_types.specs.Views.{shape_view, member_view, members_view};
ghost use Rattle.nt_types.specs.TreeData.{trees_of};
ghost use Rattle.nt_types.specs.TreeViews.{tree_view, trees_view};
ghost use Rattle.nt_event.specs.Standing.{StandsFrom, ItemsStand, ReadsValue, AllGood, EachGood, jsons_of, kinds_in, IsWritten};

use crate::integers::number;
use crate::marks::{after, after_blanks, comma, comma_if, null};
use crate::single::single_value;
use nt_types::{Fields, Member, Shape, Tree, Trees};
use std::alloc::{AllocError, Global};

/// How deep arrays nest in that of a line.
const DEEPEST: usize = 126;

/// How many items a list has room for at once, so that it seldom grows.
const FEW: usize = 16;

/// Passes an opening bracket, where arrays may nest so deep; how deep they may nest behind it.
fn open(text: &[u8], at: usize, deep: usize) -> Option<(usize, usize)>
    ensures bracket { IfSome result (λ r. StandsFrom (91 ∷ []) text.now at r.0) }
    ensures deep { IfSome result (λ r. deep ≡ r.1 + 1) }
{
    let first = after(text, at, b'[')?;
    if deep == 0 {
        None
    } else {
        Some((first, deep - 1))
    }
}

/// The value at a place, whose arrays nest at most so deep.
#[cycle(value)]
fn value(
    alloc: Global,
    shape: &Shape,
    text: &[u8],
    at: usize,
    deep: usize,
) -> Result<Option<(Tree, usize)>, AllocError>
    requires { at ≤ length text.now }
    ensures { IfOk result (λ found. IfSome found
        (λ r. ReadsValue deep (shape_view shape.now) (tree_view r.0) text.now at r.1)) }
{
    match shape {
        Shape::List(of) => {
            let Some((first, inside)) = open(text, at, deep) else {
                return Ok(None);
            };
            match items(alloc, of, text, first, inside)? {
                Some((list, end)) => Ok(Some((Tree::Items(Trees { list }), end))),
                None => Ok(None),
            }
        }
        Shape::Rec(members) => {
            let Some((first, inside)) = open(text, at, deep) else {
                return Ok(None);
            };
            match each_member(alloc, &members.list, text, first, inside)? {
                Some((list, end)) => Ok(Some((Tree::Parts(Trees { list }), end))),
                None => Ok(None),
            }
        }
        Shape::Tuple(shapes) => {
            let Some((first, inside)) = open(text, at, deep) else {
                return Ok(None);
            };
            match each(alloc, &shapes.list, text, first, inside)? {
                Some((list, end)) => Ok(Some((Tree::Parts(Trees { list }), end))),
                None => Ok(None),
            }
        }
        Shape::Choice(shapes) => match null(text, at) {
            Some(end) => Ok(Some((Tree::Nothing, end))),
            None => picked(alloc, &shapes.list, text, at, deep),
        },
        Shape::Maybe(of) => match null(text, at) {
            Some(end) => Ok(Some((Tree::Nothing, end))),
            None => value(alloc, of, text, at, deep),
        },
        _ => single_value(alloc, shape, text, at),
    }
}

/// The items up to the bracket.
#[cycle(value)]
fn items(
    alloc: Global,
    of: &Shape,
    text: &[u8],
    at: usize,
    deep: usize,
) -> Result<Option<(Vec<Tree>, usize)>, AllocError>
    requires { at ≤ length text.now }
    ensures stands { IfOk result (λ found. IfSome found
        (λ r. ItemsStand (jsons_of (trees_of (map tree_view r.0.items))) text.now at r.1)) }
    ensures good { IfOk result (λ found. IfSome found
        (λ r. AllGood deep (shape_view of.now) (map tree_view r.0.items))) }
{
    if let Some(end) = after(text, at, b']') {
        return Ok(Some((Vec::new(alloc), end)));
    }
    let Some((first, mut i)) = value(alloc, of, text, at, deep)? else {
        return Ok(None);
    };
    let mut list = Vec::with_capacity(alloc, FEW)?;
    list.push(first)?;
    while let Some(next) = comma(text, i) {
        let Some((item, end)) = value(alloc, of, text, next, deep)? else {
            return Ok(None);
        };
        list.push(item)?;
        i = end;
    }
    match after(text, i, b']') {
        Some(end) => Ok(Some((list, end))),
        None => Ok(None),
    }
}

/// One value for each shape, up to the bracket.
#[cycle(value)]
fn each(
    alloc: Global,
    shapes: &[Shape],
    text: &[u8],
    at: usize,
    deep: usize,
) -> Result<Option<(Vec<Tree>, usize)>, AllocError>
    requires { at ≤ length text.now }
    ensures stands { IfOk result (λ found. IfSome found
        (λ r. ItemsStand (jsons_of (trees_of (map tree_view r.0.items))) text.now at r.1)) }
    ensures good { IfOk result (λ found. IfSome found
        (λ r. EachGood deep (map shape_view shapes.now) (map tree_view r.0.items))) }
{
    let mut list = Vec::with_capacity(alloc, shapes.len())?;
    let mut i = at;
    for shape in shapes {
        let Some(next) = comma_if(text, i, !list.is_empty()) else {
            return Ok(None);
        };
        let Some((tree, end)) = value(alloc, shape, text, next, deep)? else {
            return Ok(None);
        };
        list.push(tree)?;
        i = end;
    }
    match after(text, i, b']') {
        Some(end) => Ok(Some((list, end))),
        None => Ok(None),
    }
}

/// One value for each member, up to the bracket.
#[cycle(value)]
fn each_member(
    alloc: Global,
    members: &[Member],
    text: &[u8],
    at: usize,
    deep: usize,
) -> Result<Option<(Vec<Tree>, usize)>, AllocError>
    requires { at ≤ length text.now }
    ensures stands { IfOk result (λ found. IfSome found
        (λ r. ItemsStand (jsons_of (trees_of (map tree_view r.0.items))) text.now at r.1)) }
    ensures good { IfOk result (λ found. IfSome found
        (λ r. EachGood deep (kinds_in (map member_view members.now)) (map tree_view r.0.items))) }
{
    let mut list = Vec::with_capacity(alloc, members.len())?;
    let mut i = at;
    for member in members {
        let Some(next) = comma_if(text, i, !list.is_empty()) else {
            return Ok(None);
        };
        let Some((tree, end)) = value(alloc, &member.of, text, next, deep)? else {
            return Ok(None);
        };
        list.push(tree)?;
        i = end;
    }
    match after(text, i, b']') {
        Some(end) => Ok(Some((list, end))),
        None => Ok(None),
    }
}

/// A tag from 1 on, and the value of its alternative.
#[cycle(value)]
fn picked(
    alloc: Global,
    shapes: &[Shape],
    text: &[u8],
    at: usize,
    deep: usize,
) -> Result<Option<(Tree, usize)>, AllocError>
    requires { at ≤ length text.now }
    ensures { IfOk result (λ found. IfSome found
        (λ r. ReadsValue deep (choice (kinds_of (map shape_view shapes.now))) (tree_view r.0)
        text.now at r.1)) }
{
    let Some((first, inside)) = open(text, at, deep) else {
        return Ok(None);
    };
    let Some((tag, i)) = number(text, first) else {
        return Ok(None);
    };
    let Some(next) = comma(text, i) else {
        return Ok(None);
    };
    if tag == 0 || tag > shapes.len() as u64 || tag >= 1 << 32 {
        return Ok(None);
    }
    let Some((tree, last)) = value(alloc, &shapes[tag as usize - 1], text, next, inside)? else {
        return Ok(None);
    };
    let Some(end) = after(text, last, b']') else {
        return Ok(None);
    };
    Ok(Some((
        Tree::Pick {
            tag: tag as u32,
            value: Box::new(alloc, tree)?,
        },
        end,
    )))
}

/// The entry of a line as writers put it: without blanks, or with some behind its commas and at its end.
pub(crate) fn read_written(
    alloc: Global,
    line: &[u8],
    fields: &Fields,
) -> Result<Option<Trees>, AllocError>
    ensures { IfOk result (λ found. IfSome found
        (λ ts. IsWritten (members_view fields.now) (trees_view ts) line.now)) }
{
    let Some(first) = after(line, 0, b'[') else {
        return Ok(None);
    };
    match each_member(alloc, fields.as_slice(), line, first, DEEPEST)? {
        Some((list, end)) if after_blanks(line, end) == line.len() => {
            Ok(Some(Trees::from_vec(list)))
        }
        _ => Ok(None),
    }
}
