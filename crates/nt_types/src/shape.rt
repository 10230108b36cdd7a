//! What the values of a field look like.

ghost use Rattle.std.specs.Prelude.{◌≡◌, map};
ghost use Rattle.nt_types.specs.ShapeData.{takes_nothing};
ghost use Rattle.nt_types.specs.Views.{shape_view, shapes_view, member_view, members_view};

use crate::name::Name;

/// What the values of a field look like.
#[derive(Drop)]
#[cycle(shape)]
pub enum Shape {
    Bool,
    Char,
    Byte,
    /// Integers of 8, 16, 32 or 64 bits.
    Int { bits: u8, signed: bool },
    Text,
    List(Box<Shape>),
    /// A value, or nothing.
    Maybe(Box<Shape>),
    Rec(Members),
    Tuple(Shapes),
    /// One of the alternatives, or nothing.
    Choice(Shapes),
}

/// Shapes in order.
#[derive(Drop)]
#[cycle(shape)]
pub struct Shapes {
    pub list: Vec<Shape>,
}

/// A member of a record, or a field.
#[derive(Drop)]
#[cycle(shape)]
pub struct Member {
    pub name: Name,
    pub of: Shape,
}

/// Members in order.
#[derive(Drop)]
#[cycle(shape)]
pub struct Members {
    pub list: Vec<Member>,
}

/// The fields of an event, at the top level.
pub type Fields = Members;

impl Shape {
    /// Whether nothing is among the values.
    pub fn takes_nothing(&self) -> bool
        ensures { result ≡ takes_nothing (shape_view self.now) }
    {
        match self {
            Shape::Maybe(_) | Shape::Choice(_) => true,
            Shape::Bool | Shape::Char | Shape::Byte | Shape::Int { .. } | Shape::Text => false,
            Shape::List(_) | Shape::Rec(_) | Shape::Tuple(_) => false,
        }
    }
}

impl Shapes {
    pub fn from_vec(list: Vec<Shape>) -> Self
        ensures { shapes_view result ≡ map shape_view list.items }
    {
        Shapes { list }
    }

    pub fn as_slice(&self) -> &[Shape]
        ensures { map shape_view result.now ≡ shapes_view self.now }
    {
        self.list.as_slice()
    }

    pub fn into_vec(self) -> Vec<Shape>
        ensures { map shape_view result.items ≡ shapes_view self }
    {
        self.list
    }
}

impl Members {
    pub fn from_vec(list: Vec<Member>) -> Self
        ensures { members_view result ≡ map member_view list.items }
    {
        Members { list }
    }

    pub fn as_slice(&self) -> &[Member]
        ensures { map member_view result.now ≡ members_view self.now }
    {
        self.list.as_slice()
    }

    pub fn into_vec(self) -> Vec<Member>
        ensures { map member_view result.items ≡ members_view self }
    {
        self.list
    }
}
