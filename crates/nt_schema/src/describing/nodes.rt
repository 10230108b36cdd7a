//! Fields, breadth first.

ghost use Rattle.std.specs.Prelude.{◌≡◌, ◌<◌, ◌≤◌, ◌+◌, ◌^◌, ◌++◌, true, length, map, List, OnOk, IfOk, vec_len};
ghost use Rattle.nt_types.specs.Limits.{max_fields};
ghost use Rattle.nt_types.specs.Views.{shape_view, member_view};
ghost use Rattle.nt_types.specs.ShapeData.{MemberData, kinds_of, parts_of};
ghost use Rattle.nt_types.specs.Schema.{parts_count};
ghost use Rattle.nt_grammar.specs.Rows.{members_in, places_in, at_top};
ghost use Rattle.nt_grammar.specs.Added.{with_mark, marks_inside, AreMarked};
ghost use Rattle.nt_schema.specs.Describing.{mark_view};
ghost use Rattle.nt_grammar.specs.Listing.{AreListed};

use crate::describing::node::{Label, Node};
use nt_types::{Member, Shape};
use std::alloc::{AllocError, Global};

fn push_members<'a>(
    nodes: &mut Vec<Node<'a>>,
    members: &'a [Member],
    parent: u32,
    principal: bool,
) -> Result<(), AllocError>
    ensures { OnOk result (map mark_view nodes.new.items
        ≡ map mark_view nodes.old.items ++ with_mark principal
        (members_in parent (parts_of (map member_view members.now)))) }
{
    for member in members {
        nodes.push(Node {
            parent,
            label: Label::Given(member.name.as_slice()),
            of: &member.of,
            principal,
        })?;
    }
    Ok(())
}

fn push_places<'a>(
    nodes: &mut Vec<Node<'a>>,
    shapes: &'a [Shape],
    parent: u32,
    principal: bool,
) -> Result<(), AllocError>
    ensures { OnOk result (map mark_view nodes.new.items
        ≡ map mark_view nodes.old.items ++ with_mark principal
        (places_in parent 0 (kinds_of (map shape_view shapes.now)))) }
{
    for (place, of) in shapes.iter().enumerate() {
        nodes.push(Node {
            parent,
            label: Label::Place(place),
            of,
            principal,
        })?;
    }
    Ok(())
}

/// Appends the fields directly inside the field of this id. In a record they are principal where it
/// is, and elsewhere none is.
fn push_inside<'a>(nodes: &mut Vec<Node<'a>>, node: Node<'a>, id: u32) -> Result<(), AllocError>
    ensures { OnOk result (map mark_view nodes.new.items
        ≡ map mark_view nodes.old.items ++ marks_inside id (mark_view node.entry)) }
{
    match node.of {
        Shape::Bool | Shape::Char | Shape::Byte | Shape::Int { .. } | Shape::Text => Ok(()),
        Shape::List(of) | Shape::Maybe(of) => {
            nodes.push(Node {
                parent: id,
                label: Label::Place(0),
                of,
                principal: false,
            })?;
            Ok(())
        }
        Shape::Rec(members) => push_members(nodes, &members.list, id, node.principal),
        Shape::Tuple(shapes) => push_places(nodes, &shapes.list, id, node.principal),
        Shape::Choice(shapes) => push_places(nodes, &shapes.list, id, false),
    }
}

fn push_top<'a>(
    nodes: &mut Vec<Node<'a>>,
    fields: &'a [Member],
    first: u32,
) -> Result<(), AllocError>
    requires { first + vec_len nodes.old + parts_count (parts_of (map member_view fields.now))
        ≤ max_fields }
    ensures { OnOk result (map mark_view nodes.new.items
        ≡ map mark_view nodes.old.items ++ with_mark true (at_top (first + vec_len nodes.old)
        (map member_view fields.now))) }
{
    for field in fields {
        nodes.push(Node {
            parent: first + nodes.len() as u32,
            label: Label::Given(field.name.as_slice()),
            of: &field.of,
            principal: true,
        })?;
    }
    Ok(())
}

/// Appends the fields directly inside the next field, where the first has this id.
fn expand(nodes: &mut Vec<Node<'_>>, first: u32, next: usize) -> Result<(), AllocError>
    requires here { next < length nodes.old.items }
    requires few { first + next < 2 ^ 32 }
    ensures { (ps : List MemberData) → AreListed first ps next (map mark_view nodes.old.items)
        → OnOk result (AreListed first ps (next + 1) (map mark_view nodes.new.items)) }
{
    let node = nodes[next];
    push_inside(nodes, node, first + next as u32)?;
    Ok(())
}

/// All fields, of which the first has this id: those at the top level, and behind them those inside
/// each field, by its id.
pub(crate) fn all_nodes(
    alloc: Global,
    fields: &[Member],
    first: u32,
) -> Result<Vec<Node<'_>>, AllocError>
    requires { first + parts_count (parts_of (map member_view fields.now)) ≤ max_fields }
    ensures order { IfOk result (λ nodes. AreMarked first (map member_view fields.now)
        (map mark_view nodes.items)) }
    ensures few { IfOk result (λ nodes. first + vec_len nodes ≤ max_fields) }
{
    let mut nodes = Vec::new(alloc);
    push_top(&mut nodes, fields, first)?;
    let mut next = 0;
    while next < nodes.len() {
        expand(&mut nodes, first, next)?;
        next += 1;
    }
    Ok(nodes)
}
