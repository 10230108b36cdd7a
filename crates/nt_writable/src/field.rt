//! Whether a shape under a name keeps the rules of a field.

ghost use Rattle.std.specs.Prelude.{◌≡◌, nat_le, IfOk, map};
ghost use Rattle.nt_types.specs.ShapeData.{kinds_of, parts_of};
ghost use Rattle.nt_types.specs.Spelling.{depth, deepest_kind, deepest_part};
ghost use Rattle.nt_types.specs.Views.{shape_view, member_view};
ghost use Rattle.nt_writable.specs.Fields.{is_type, are_types, are_members, is_field};

use crate::names::{is_name, names_differ};
use nt_types::{Member, Shape};
use std::alloc::{AllocError, Global};

/// How deep a type may nest, with a leaf counted as 1.
const MAX_DEPTH: u32 = 32;

/// The most alternatives of a choice.
const MAX_ALTERNATIVES: usize = 100;

/// Whether a shape keeps the rules of types, outside of a choice and an optional or within.
#[cycle(rules)]
fn is_type(alloc: Global, shape: &Shape, within: bool) -> Result<bool, AllocError>
    ensures { IfOk result (λ keeps. keeps ≡ is_type within (shape_view shape.now)) }
{
    match shape {
        Shape::Bool | Shape::Char | Shape::Byte | Shape::Text => Ok(true),
        Shape::Int { bits, .. } => Ok(*bits == 8 || *bits == 16 || *bits == 32 || *bits == 64),
        Shape::List(of) => is_type(alloc, of, within),
        Shape::Maybe(of) => {
            if of.takes_nothing() {
                return Ok(false);
            }
            is_type(alloc, of, true)
        }
        Shape::Rec(members) => {
            if within {
                return Ok(false);
            }
            if !names_differ(alloc, &members.list)? {
                return Ok(false);
            }
            are_members(alloc, &members.list)
        }
        Shape::Tuple(shapes) => are_types(alloc, &shapes.list, within),
        Shape::Choice(shapes) => {
            if shapes.list.len() > MAX_ALTERNATIVES {
                return Ok(false);
            }
            are_types(alloc, &shapes.list, true)
        }
    }
}

#[cycle(rules)]
fn are_types(alloc: Global, shapes: &[Shape], within: bool) -> Result<bool, AllocError>
    ensures { IfOk result (λ keep. keep ≡ are_types within (kinds_of (map shape_view shapes.now))) }
{
    for shape in shapes {
        if !is_type(alloc, shape, within)? {
            return Ok(false);
        }
    }
    Ok(!shapes.is_empty())
}

#[cycle(rules)]
fn are_members(alloc: Global, members: &[Member]) -> Result<bool, AllocError>
    ensures { IfOk result (λ keep. keep ≡ are_members (parts_of (map member_view members.now))) }
{
    for member in members {
        if !is_name(member.name.as_slice()) {
            return Ok(false);
        }
        if !is_type(alloc, &member.of, false)? {
            return Ok(false);
        }
    }
    Ok(!members.is_empty())
}

/// Whether a shape nests no deeper than this.
#[cycle(depth)]
fn nests_within(shape: &Shape, most: u32) -> bool
    ensures { result ≡ nat_le (depth (shape_view shape.now)) most }
{
    if most == 0 {
        return false;
    }
    match shape {
        Shape::Bool | Shape::Char | Shape::Byte | Shape::Int { .. } | Shape::Text => true,
        Shape::List(of) => nests_within(of, most - 1),
        Shape::Maybe(of) => nests_within(of, most - 1),
        Shape::Rec(members) => members_nest_within(&members.list, most - 1),
        Shape::Tuple(shapes) => shapes_nest_within(&shapes.list, most - 1),
        Shape::Choice(shapes) => shapes_nest_within(&shapes.list, most - 1),
    }
}

#[cycle(depth)]
fn shapes_nest_within(shapes: &[Shape], most: u32) -> bool
    ensures { result ≡ nat_le (deepest_kind (kinds_of (map shape_view shapes.now))) most }
{
    for shape in shapes {
        if !nests_within(shape, most) {
            return false;
        }
    }
    true
}

#[cycle(depth)]
fn members_nest_within(members: &[Member], most: u32) -> bool
    ensures { result ≡ nat_le (deepest_part (parts_of (map member_view members.now))) most }
{
    for member in members {
        if !nests_within(&member.of, most) {
            return false;
        }
    }
    true
}

/// Whether a name and a shape are those of a field of a schema text.
pub fn is_field(alloc: Global, name: &[u8], shape: &Shape) -> Result<bool, AllocError>
    ensures { IfOk result
        (λ is. is ≡ is_field (record { name = name.now; of = shape_view shape.now })) }
{
    if !is_name(name) {
        return Ok(false);
    }
    if !nests_within(shape, MAX_DEPTH) {
        return Ok(false);
    }
    is_type(alloc, shape, false)
}
