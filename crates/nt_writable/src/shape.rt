//! The shape that a field is written with.

ghost use Rattle.std.specs.Prelude.{◌≡◌, IfOk, map};
ghost use Rattle.std.specs.Str.{bytes_eq};
ghost use Rattle.nt_types.specs.ShapeData.{kinds_of, parts_of};
ghost use Rattle.nt_types.specs.Views.{shape_view, member_view};
ghost use Rattle.nt_grammar.specs.Rows.{place_name};
ghost use Rattle.nt_writable.specs.Written.{named_by_places, as_written, kinds_as_written, parts_as_written, kinds_of_members};

use itoa::Buffer;
use nt_types::{Member, Members, Name, Shape, Shapes};
use std::alloc::{AllocError, Global};

/// Whether a name is that of a place.
fn is_place(name: &[u8], place: usize) -> bool
    ensures { result ≡ bytes_eq name.now (place_name place) }
{
    let mut buffer = Buffer::new();
    match name {
        [b'_', digits @ ..] => digits == buffer.format(place).as_bytes(),
        _ => false,
    }
}

/// Whether members are named by their places.
fn named_by_places(members: &[Member]) -> bool
    ensures { result ≡ named_by_places 0 (parts_of (map member_view members.now)) }
{
    for i in 0..members.len() {
        if !is_place(members[i].name.as_slice(), i) {
            return false;
        }
    }
    true
}

/// A member under a copy of a name.
fn under_name(alloc: Global, name: &[u8], of: Shape) -> Result<Member, AllocError>
    ensures { IfOk result (λ m. member_view m ≡ record { name = name.now; of = shape_view of }) }
{
    Ok(Member {
        name: Name::from_vec(name.to_vec(alloc)?),
        of,
    })
}

/// The shape that a shape is written with, as one of its own.
#[cycle(written)]
pub fn as_written(alloc: Global, shape: &Shape) -> Result<Shape, AllocError>
    ensures { IfOk result (λ k. shape_view k ≡ as_written (shape_view shape.now)) }
{
    match shape {
        Shape::Bool => Ok(Shape::Bool),
        Shape::Char => Ok(Shape::Char),
        Shape::Byte => Ok(Shape::Byte),
        Shape::Int { bits, signed } => Ok(Shape::Int {
            bits: *bits,
            signed: *signed,
        }),
        Shape::Text => Ok(Shape::Text),
        Shape::List(of) => Ok(Shape::List(Box::new(alloc, as_written(alloc, of)?)?)),
        Shape::Maybe(of) => Ok(Shape::Maybe(Box::new(alloc, as_written(alloc, of)?)?)),
        Shape::Rec(members) => {
            if named_by_places(&members.list) {
                let shapes = shapes_of_members(alloc, &members.list)?;
                Ok(Shape::Tuple(Shapes::from_vec(shapes)))
            } else {
                let written = all_members(alloc, &members.list)?;
                Ok(Shape::Rec(Members::from_vec(written)))
            }
        }
        Shape::Tuple(shapes) => Ok(Shape::Tuple(Shapes::from_vec(all_shapes(
            alloc,
            &shapes.list,
        )?))),
        Shape::Choice(shapes) => Ok(Shape::Choice(Shapes::from_vec(all_shapes(
            alloc,
            &shapes.list,
        )?))),
    }
}

#[cycle(written)]
fn all_shapes(alloc: Global, shapes: &[Shape]) -> Result<Vec<Shape>, AllocError>
    ensures { IfOk result (λ v. kinds_of (map shape_view v.items)
        ≡ kinds_as_written (kinds_of (map shape_view shapes.now))) }
{
    let mut list = Vec::with_capacity(alloc, shapes.len())?;
    for shape in shapes {
        list.push(as_written(alloc, shape)?)?;
    }
    Ok(list)
}

#[cycle(written)]
fn all_members(alloc: Global, members: &[Member]) -> Result<Vec<Member>, AllocError>
    ensures { IfOk result (λ v. parts_of (map member_view v.items)
        ≡ parts_as_written (parts_of (map member_view members.now))) }
{
    let mut list = Vec::with_capacity(alloc, members.len())?;
    for member in members {
        let of = as_written(alloc, &member.of)?;
        list.push(under_name(alloc, member.name.as_slice(), of)?)?;
    }
    Ok(list)
}

/// The shapes of members, without their names.
#[cycle(written)]
fn shapes_of_members(alloc: Global, members: &[Member]) -> Result<Vec<Shape>, AllocError>
    ensures { IfOk result (λ v. kinds_of (map shape_view v.items)
        ≡ kinds_of_members (parts_of (map member_view members.now))) }
{
    let mut list = Vec::with_capacity(alloc, members.len())?;
    for member in members {
        list.push(as_written(alloc, &member.of)?)?;
    }
    Ok(list)
}
