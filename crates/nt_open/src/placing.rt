//! The plans of open fields.

ghost use Rattle.std.specs.Prelude.{◌≡◌, ◌<◌, ◌^◌, length, map, option_map, IfOk};
ghost use Rattle.nt_types.specs.ShapeData.{kinds_of, parts_of};
ghost use Rattle.nt_types.specs.Views.{shape_view, member_view};
ghost use Rattle.nt_grammar.specs.Open.{ids_inside};
ghost use Rattle.nt_plans.specs.Plan.{plans_of};
ghost use Rattle.nt_plans.specs.PlanViews.{plan_view, plans_view};
ghost use Rattle.nt_plans.specs.Place.{place, place_members, place_each, place_from};
ghost use Rattle.nt_open.specs.Uses.{HaveUses};

use crate::grouped::Grouped;
use crate::uses::{ColumnUse, mark_field, no_uses};
use nt_plans::{Plan, Plans};
use nt_types::{Member, Shape};
use std::alloc::{AllocError, Global};

/// A shape with the columns of this field, and of the fields inside it.
#[cycle(place)]
fn place(alloc: Global, rows: &Grouped<'_>, shape: &Shape, id: u32) -> Result<Plan, AllocError>
    requires { id < length rows.now.fields.now }
    ensures { IfOk result (λ plan. plan_view plan
        ≡ place rows.now.fields.now rows.now.columns.now (shape_view shape.now) id) }
{
    let column = rows.column_at(id, 0);
    match shape {
        Shape::Bool => Ok(Plan::Bool { column }),
        Shape::Char | Shape::Byte => Ok(Plan::Number {
            column,
            bits: 8,
            signed: false,
        }),
        Shape::Int { bits, signed } => Ok(Plan::Number {
            column,
            bits: *bits,
            signed: *signed,
        }),
        Shape::Text => Ok(Plan::Text {
            ends: column,
            bytes: rows.column_at(id, 1),
        }),
        Shape::List(of) => {
            let inner = place(alloc, rows, of, rows.inside_at(id, 0))?;
            Ok(Plan::List {
                ends: column,
                of: Box::new(alloc, inner)?,
            })
        }
        Shape::Maybe(of) => {
            let inner = place(alloc, rows, of, rows.inside_at(id, 0))?;
            Ok(Plan::Maybe {
                ends: column,
                of: Box::new(alloc, inner)?,
            })
        }
        Shape::Rec(members) => Ok(Plan::Record(place_members(alloc, rows, &members.list, id)?)),
        Shape::Tuple(shapes) => Ok(Plan::Record(place_each(alloc, rows, &shapes.list, id)?)),
        Shape::Choice(shapes) => Ok(Plan::Choice {
            tags: column,
            of: place_each(alloc, rows, &shapes.list, id)?,
        }),
    }
}

/// Members, each at one of the fields inside this one.
#[cycle(place)]
fn place_members(
    alloc: Global,
    rows: &Grouped<'_>,
    members: &[Member],
    id: u32,
) -> Result<Plans, AllocError>
    requires { id < length rows.now.fields.now }
    ensures { IfOk result (λ plans. plans_of (plans_view plans)
        ≡ place_members rows.now.fields.now rows.now.columns.now
        (parts_of (map member_view members.now)) (ids_inside id 0 rows.now.fields.now)) }
{
    let mut list = Vec::new(alloc);
    for (at, member) in members.iter().enumerate() {
        list.push(place(alloc, rows, &member.of, rows.inside_at(id, at))?)?;
    }
    Ok(Plans::from_vec(list))
}

/// Shapes, each at one of the fields inside this one.
#[cycle(place)]
fn place_each(
    alloc: Global,
    rows: &Grouped<'_>,
    shapes: &[Shape],
    id: u32,
) -> Result<Plans, AllocError>
    requires { id < length rows.now.fields.now }
    ensures { IfOk result (λ plans. plans_of (plans_view plans)
        ≡ place_each rows.now.fields.now rows.now.columns.now
        (kinds_of (map shape_view shapes.now)) (ids_inside id 0 rows.now.fields.now)) }
{
    let mut list = Vec::new(alloc);
    for (at, shape) in shapes.iter().enumerate() {
        list.push(place(alloc, rows, shape, rows.inside_at(id, at))?)?;
    }
    Ok(Plans::from_vec(list))
}

/// The plans of the fields that have a shape, and what each column is of.
pub(crate) fn plans_of(
    alloc: Global,
    rows: &Grouped<'_>,
    shapes: &[Option<Shape>],
) -> Result<(Plans, Vec<Option<ColumnUse>>), AllocError>
    requires few { length rows.now.fields.now < 2 ^ 32 }
    requires each { length shapes.now ≡ length rows.now.fields.now }
    ensures plans { IfOk result (λ made. plans_of (plans_view made.0)
        ≡ place_from rows.now.fields.now rows.now.columns.now 0
        (map (option_map shape_view) shapes.now)) }
    ensures uses { IfOk result (λ made. HaveUses rows.now.fields.now rows.now.columns.now
        (map (option_map shape_view) shapes.now) made.1.items) }
{
    let mut list = Vec::new(alloc);
    let mut uses = no_uses(alloc, rows.columns.len())?;
    for (id, shape) in shapes.iter().enumerate() {
        if let Some(shape) = shape {
            let plan = place(alloc, rows, shape, id as u32)?;
            mark_field(&mut uses, &plan, id as u32);
            list.push(plan)?;
        }
    }
    Ok((Plans::from_vec(list), uses))
}
