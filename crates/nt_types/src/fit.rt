//! Whether a value has a shape.

ghost use Rattle.std.specs.Prelude.{◌≡◌, ◌^◌, nat_lt, map};
ghost use Rattle.nt_types.specs.ShapeData.{kinds_of, parts_of};
ghost use Rattle.nt_types.specs.Views.{shape_view, member_view};
ghost use Rattle.nt_types.specs.TreeData.{trees_of};
ghost use Rattle.nt_types.specs.TreeViews.{tree_view};
ghost use Rattle.nt_types.specs.Fits.{is_int, fits, all_trees, fit_parts, fit_kinds, fits_one};

use crate::shape::{Member, Shape};
use crate::tree::Tree;

/// Has so many bits at most.
fn has_bits(n: u128, bits: u8) -> bool
    ensures { result ≡ nat_lt n (2 ^ bits) }
{
    bits >= 128 || n >> bits == 0
}

/// Is in the range of integers of this width.
fn is_int(n: i128, bits: u8, signed: bool) -> bool
    ensures { result ≡ is_int bits signed n }
{
    let width = if signed { bits.saturating_sub(1) } else { bits };
    if n < 0 {
        signed && has_bits(n.unsigned_abs() - 1, width)
    } else {
        has_bits(n.unsigned_abs(), width)
    }
}

/// Whether a value has this shape.
pub fn fits(tree: &Tree, shape: &Shape) -> bool
    ensures { result ≡ fits (shape_view shape.now) (tree_view tree.now) }
{
    takes(shape, tree)
}

/// Whether a shape has this value: the shape comes first, since each call goes down the shape.
#[cycle(fits)]
fn takes(shape: &Shape, tree: &Tree) -> bool
    ensures { result ≡ fits (shape_view shape.now) (tree_view tree.now) }
{
    match shape {
        Shape::Bool => matches!(tree, Tree::Flag(_)),
        Shape::Char | Shape::Byte => match tree {
            Tree::Num(n) => is_int(*n, 8, false),
            _ => false,
        },
        Shape::Int { bits, signed } => match tree {
            Tree::Num(n) => is_int(*n, *bits, *signed),
            _ => false,
        },
        Shape::Text => matches!(tree, Tree::Text(_)),
        Shape::List(of) => match tree {
            Tree::Items(items) => all_fit(of, &items.list),
            _ => false,
        },
        Shape::Maybe(of) => matches!(tree, Tree::Nothing) || takes(of, tree),
        Shape::Rec(members) => match tree {
            Tree::Parts(parts) => members_fit(&members.list, &parts.list),
            _ => false,
        },
        Shape::Tuple(shapes) => match tree {
            Tree::Parts(parts) => each_fits(&shapes.list, &parts.list),
            _ => false,
        },
        Shape::Choice(shapes) => match tree {
            Tree::Nothing => true,
            Tree::Pick { tag, value } => one_fits(&shapes.list, *tag, value),
            _ => false,
        },
    }
}

/// Whether all of them have the shape of a list's items.
#[cycle(fits)]
fn all_fit(shape: &Shape, trees: &[Tree]) -> bool
    ensures { result ≡ all_trees (fits (shape_view shape.now)) (trees_of (map tree_view trees.now)) }
{
    for tree in trees {
        if !takes(shape, tree) {
            return false;
        }
    }
    true
}

/// Whether they are one for each member, which they fit.
#[cycle(fits)]
fn members_fit(members: &[Member], trees: &[Tree]) -> bool
    ensures { result ≡ fit_parts (parts_of (map member_view members.now)) (trees_of (map tree_view trees.now)) }
{
    if members.len() != trees.len() {
        return false;
    }
    for i in 0..members.len() {
        if !takes(&members[i].of, &trees[i]) {
            return false;
        }
    }
    true
}

/// Whether they are one for each shape, which they fit.
#[cycle(fits)]
fn each_fits(shapes: &[Shape], trees: &[Tree]) -> bool
    ensures { result ≡ fit_kinds (kinds_of (map shape_view shapes.now)) (trees_of (map tree_view trees.now)) }
{
    if shapes.len() != trees.len() {
        return false;
    }
    for i in 0..shapes.len() {
        if !takes(&shapes[i], &trees[i]) {
            return false;
        }
    }
    true
}

/// Whether a value fits the alternative of a tag.
#[cycle(fits)]
fn one_fits(shapes: &[Shape], tag: u32, tree: &Tree) -> bool
    ensures { result ≡ fits_one (kinds_of (map shape_view shapes.now)) tag (tree_view tree.now) }
{
    if tag == 0 || tag as usize > shapes.len() {
        return false;
    }
    takes(&shapes[tag as usize - 1], tree)
}
