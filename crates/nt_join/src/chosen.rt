//! Chosen trees of an entry, and single numbers of it.

ghost use Rattle.std.specs.Prelude.{◌≡◌, IfOk};
ghost use Rattle.nt_types.specs.TreeData.{trees_of};
ghost use Rattle.nt_types.specs.TreeViews.{tree_view, trees_view};
ghost use Rattle.nt_plans.specs.Plan.{plans_of};
ghost use Rattle.nt_plans.specs.PlanViews.{plan_view, plans_view};
ghost use Rattle.nt_trees.specs.TreeAt.{tree_at, each_at};
ghost use Rattle.nt_join.specs.Chosen.{tree_in, chosen, number_in};
ghost use Rattle.nt_join.specs.Readable.{Readable, ReadableEach};

use crate::join::tree;
use crate::number::integer_of;
use crate::reading::{begin, number};
use nt_column::Columns;
use nt_plans::{Plan, Plans};
use nt_types::{Tree, Trees};
use std::alloc::{AllocError, Global};

/// The number that an element is, if it is one.
fn number_at<C: Columns>(columns: &C, plan: &Plan, i: u64) -> Option<i128>
    requires { Readable (plan_view plan.now) (C.Columns.elements columns.now) i }
    ensures { result
        ≡ number_in (tree_at (plan_view plan.now) (C.Columns.elements columns.now) i) }
{
    match plan {
        Plan::Number {
            column,
            bits,
            signed,
        } => Some(integer_of(number(columns, *column, i), *bits, *signed)),
        Plan::Maybe { ends, of } => {
            let from = begin(columns, *ends, i);
            if from == number(columns, *ends, i) {
                None
            } else {
                number_at(columns, of, from)
            }
        }
        Plan::Bool { .. } => None,
        Plan::Text { .. } => None,
        Plan::List { .. } => None,
        Plan::Record(_) => None,
        Plan::Choice { .. } => None,
    }
}

/// The number that stands at a place of an entry, if one does. It takes no memory.
pub fn number_by<C: Columns>(columns: &C, plans: &Plans, place: u32, i: u64) -> Option<i128>
    requires { ReadableEach (plans_of (plans_view plans.now)) (C.Columns.elements columns.now) i }
    ensures { let entry = each_at (plans_of (plans_view plans.now)) (C.Columns.elements columns.now) i in
        result ≡ number_in (tree_in entry place) }
{
    if (place as usize) >= plans.list.len() {
        return None;
    }
    number_at(columns, &plans.list[place as usize], i)
}

/// The tree at a place of an entry; nothing where there is none.
fn tree_by<C: Columns>(
    alloc: Global,
    columns: &C,
    plans: &Plans,
    place: u32,
    i: u64,
) -> Result<Tree, AllocError>
    requires { ReadableEach (plans_of (plans_view plans.now)) (C.Columns.elements columns.now) i }
    ensures { let entry = each_at (plans_of (plans_view plans.now)) (C.Columns.elements columns.now) i in
        IfOk result (λ t. tree_view t ≡ tree_in entry place) }
{
    if (place as usize) >= plans.list.len() {
        return Ok(Tree::Nothing);
    }
    tree(alloc, columns, &plans.list[place as usize], i)
}

/// The trees at some places of an entry, in the order of the places; no other tree is made.
pub fn chosen_by<C: Columns>(
    alloc: Global,
    columns: &C,
    plans: &Plans,
    places: &[u32],
    i: u64,
) -> Result<Trees, AllocError>
    requires { ReadableEach (plans_of (plans_view plans.now)) (C.Columns.elements columns.now) i }
    ensures { let entry = each_at (plans_of (plans_view plans.now)) (C.Columns.elements columns.now) i in
        IfOk result (λ ts. trees_of (trees_view ts) ≡ chosen places.now entry) }
{
    let mut list = Vec::with_capacity(alloc, places.len())?;
    for place in places {
        list.push(tree_by(alloc, columns, plans, *place, i)?)?;
    }
    Ok(Trees::from_vec(list))
}
