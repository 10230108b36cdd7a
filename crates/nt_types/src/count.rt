//! How many fields a shape makes.

ghost use Rattle.std.specs.Prelude.{◌≡◌, ◌≤◌, ◌+◌, min, map};
ghost use Rattle.nt_types.specs.Views.{shape_view, member_view};
ghost use Rattle.nt_types.specs.ShapeData.{kinds_of, parts_of};
ghost use Rattle.nt_types.specs.Limits.{too_many};
ghost use Rattle.nt_types.specs.Schema.{field_count, kinds_count, parts_count};

use crate::shape::{Member, Shape};

/// The most fields of a schema, those inside of others included.
pub const MAX_FIELDS: u32 = 4096;

/// A count that is reached only by too many fields.
const TOO_MANY: u32 = 4097;

/// The fields of a shape, those inside of others included, beside so many before it. It stands still at 4097.
#[cycle(count)]
pub fn count_fields(shape: &Shape, before: u32) -> u32
    requires { before ≤ too_many }
    ensures { result ≡ min too_many (before + field_count (shape_view shape.now)) }
{
    let now = TOO_MANY.min(before + 1);
    match shape {
        Shape::Bool | Shape::Char | Shape::Byte | Shape::Int { .. } | Shape::Text => now,
        Shape::List(of) => count_fields(of, now),
        Shape::Maybe(of) => count_fields(of, now),
        Shape::Rec(members) => count_members(&members.list, now),
        Shape::Tuple(shapes) => count_shapes(&shapes.list, now),
        Shape::Choice(shapes) => count_shapes(&shapes.list, now),
    }
}

#[cycle(count)]
fn count_shapes(shapes: &[Shape], before: u32) -> u32
    requires { before ≤ too_many }
    ensures { result ≡ min too_many (before + kinds_count (kinds_of (map shape_view shapes.now))) }
{
    let mut now = before;
    for shape in shapes {
        now = count_fields(shape, now);
    }
    now
}

#[cycle(count)]
fn count_members(members: &[Member], before: u32) -> u32
    requires { before ≤ too_many }
    ensures { result ≡ min too_many
        (before + parts_count (parts_of (map member_view members.now))) }
{
    let mut now = before;
    for member in members {
        now = count_fields(&member.of, now);
    }
    now
}
