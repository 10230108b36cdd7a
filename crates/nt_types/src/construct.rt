//! The constructs of a type that are open while it is read.

ghost use Rattle.std.specs.Prelude.{◌≡◌, map, option_map};
ghost use Rattle.nt_types.specs.Views.{shape_view, member_view};
ghost use Rattle.nt_types.specs.Reading.{put, within_after, started, within_inside, tuple_on, choice_on, members_on};
ghost use Rattle.nt_lists.specs.Answering.{Answers};
ghost use Rattle.nt_types.specs.ConstructViews.{open_view, placed_view};
ghost use Rattle.nt_types.specs.FaultViews.{type_fault, or_malformed};

use crate::fault::TypeError;
use crate::name::Name;
use crate::names::names_differ;
use crate::shape::{Member, Members, Shape, Shapes};
use std::alloc::Global;

/// A construct that is open, with the parts that it has so far.
#[derive(Drop)]
pub(crate) enum Open {
    List,
    /// An optional, and whether it lies in a choice or another optional.
    Maybe(bool),
    /// A record, before the name of its next member.
    Name(Vec<Member>),
    /// A record, in the type of the member of this name.
    Member(Vec<Member>, Name),
    Tuple(Vec<Shape>),
    /// A choice, and whether it lies in another one or in an optional.
    Choice(bool, Vec<Shape>),
}

/// What the byte after a part makes of the construct round it.
#[derive(Drop)]
pub(crate) enum Placed {
    Goes(Open),
    Ends(Shape),
}

fn tuple_on(shapes: Vec<Shape>, after: u8) -> Option<Placed>
    ensures { option_map placed_view result ≡ tuple_on (map shape_view shapes.items) after }
{
    match after {
        b',' => Some(Placed::Goes(Open::Tuple(shapes))),
        b'>' => Some(Placed::Ends(Shape::Tuple(Shapes::from_vec(shapes)))),
        _ => None,
    }
}

fn choice_on(within: bool, shapes: Vec<Shape>, after: u8) -> Option<Placed>
    ensures { option_map placed_view result ≡ choice_on within (map shape_view shapes.items) after }
{
    match after {
        b',' => Some(Placed::Goes(Open::Choice(within, shapes))),
        b'>' if shapes.len() <= 100 => {
            Some(Placed::Ends(Shape::Choice(Shapes::from_vec(shapes))))
        }
        _ => None,
    }
}

fn members_on(alloc: Global, members: Vec<Member>, after: u8) -> Result<Placed, TypeError>
    ensures { Answers placed_view type_fault result
        (or_malformed (members_on (map member_view members.items) after)) }
{
    match after {
        b',' => Ok(Placed::Goes(Open::Name(members))),
        b'}' => {
            if names_differ(alloc, members.as_slice())? {
                Ok(Placed::Ends(Shape::Rec(Members::from_vec(members))))
            } else {
                Err(TypeError::Malformed)
            }
        }
        _ => Err(TypeError::Malformed),
    }
}

/// A part of the construct has ended, and this byte follows it.
pub(crate) fn put(
    alloc: Global,
    construct: Open,
    part: Shape,
    after: u8,
) -> Result<Placed, TypeError>
    ensures { Answers placed_view type_fault result
        (or_malformed (put (open_view construct) (shape_view part) after)) }
{
    match construct {
        Open::List => match after {
            b'>' => Ok(Placed::Ends(Shape::List(Box::new(alloc, part)?))),
            _ => Err(TypeError::Malformed),
        },
        Open::Maybe(_) => match after {
            b'>' if !part.takes_nothing() => {
                Ok(Placed::Ends(Shape::Maybe(Box::new(alloc, part)?)))
            }
            _ => Err(TypeError::Malformed),
        },
        Open::Name(_) => Err(TypeError::Malformed),
        Open::Member(mut members, name) => {
            members.push(Member { name, of: part })?;
            members_on(alloc, members, after)
        }
        Open::Tuple(mut shapes) => {
            shapes.push(part)?;
            tuple_on(shapes, after).ok_or(TypeError::Malformed)
        }
        Open::Choice(within, mut shapes) => {
            shapes.push(part)?;
            choice_on(within, shapes, after).ok_or(TypeError::Malformed)
        }
    }
}

/// Whether a choice or an optional is open once this construct has ended.
pub(crate) fn within_after(construct: &Open, inside: bool) -> bool
    ensures { result ≡ within_after (open_view construct.now) inside }
{
    match construct {
        Open::Choice(within, _) | Open::Maybe(within) => *within,
        Open::List | Open::Name(_) | Open::Member(..) | Open::Tuple(_) => inside,
    }
}

/// Whether a choice or an optional is open inside of this construct.
pub(crate) fn within_inside(construct: &Open, outside: bool) -> bool
    ensures { result ≡ within_inside (open_view construct.now) outside }
{
    match construct {
        Open::Choice(..) | Open::Maybe(_) => true,
        Open::List | Open::Name(_) | Open::Member(..) | Open::Tuple(_) => outside,
    }
}

/// The construct that a word and the byte after it begin. A record begins in no choice and no optional.
pub(crate) fn started(alloc: Global, within: bool, word: &[u8], after: u8) -> Option<Open>
    ensures { option_map open_view result ≡ started within word.now after }
{
    if after == b'{' {
        (word == b"rec".as_slice() && !within).then_some(Open::Name(Vec::new(alloc)))
    } else if word == b"vec".as_slice() {
        Some(Open::List)
    } else if word == b"opt".as_slice() {
        Some(Open::Maybe(within))
    } else if word == b"tuple".as_slice() {
        Some(Open::Tuple(Vec::new(alloc)))
    } else if word == b"var".as_slice() {
        Some(Open::Choice(within, Vec::new(alloc)))
    } else {
        None
    }
}
