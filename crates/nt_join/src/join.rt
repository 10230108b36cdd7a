//! The trees of elements.

ghost use Rattle.std.specs.Prelude.{◌≡◌, ◌≤◌, ◌-◌, map, IfOk};
ghost use Rattle.nt_types.specs.TreeData.{trees_of};
ghost use Rattle.nt_types.specs.TreeViews.{tree_view, trees_view};
ghost use Rattle.nt_plans.specs.Plan.{plans_of};
ghost use Rattle.nt_plans.specs.PlanViews.{plan_view, plans_view};
ghost use Rattle.nt_trees.specs.TreeAt.{tree_at, each_at, trees_from, only};
ghost use Rattle.nt_join.specs.Readable.{Readable, ReadableTo, ReadableEach};

use crate::number::integer_of;
use crate::reading::{begin, number, tag, text};
use nt_column::Columns;
use nt_plans::{Plan, Plans};
use nt_types::{Tree, Trees};
use std::alloc::{AllocError, Global};

/// The tree of an element.
#[cycle(join)]
pub(crate) fn tree<C: Columns>(
    alloc: Global,
    columns: &C,
    plan: &Plan,
    i: u64,
) -> Result<Tree, AllocError>
    requires { Readable (plan_view plan.now) (C.Columns.elements columns.now) i }
    ensures { IfOk result (λ t. tree_view t
        ≡ tree_at (plan_view plan.now) (C.Columns.elements columns.now) i) }
{
    match plan {
        Plan::Bool { column } => Ok(Tree::Flag(number(columns, *column, i) == 1)),
        Plan::Number {
            column,
            bits,
            signed,
        } => Ok(Tree::Num(integer_of(number(columns, *column, i), *bits, *signed))),
        Plan::Text { ends, bytes } => {
            let from = begin(columns, *ends, i);
            let to = number(columns, *ends, i);
            Ok(Tree::Text(text(alloc, columns, *bytes, from, to)?))
        }
        Plan::List { ends, of } => {
            let from = begin(columns, *ends, i);
            let to = number(columns, *ends, i);
            Ok(Tree::Items(range(alloc, columns, of, from, to)?))
        }
        Plan::Maybe { ends, of } => {
            let from = begin(columns, *ends, i);
            let to = number(columns, *ends, i);
            at_most_one(alloc, columns, of, from, to)
        }
        Plan::Record(parts) => Ok(Tree::Parts(each(alloc, columns, &parts.list, i)?)),
        Plan::Choice { tags, of } => {
            let tag = tag(columns, *tags, i);
            if tag == 0 {
                return Ok(Tree::Nothing);
            }
            let chosen = &of.list[tag as usize - 1];
            let at = number(columns, *tags, i);
            let value = tree(alloc, columns, chosen, at)?;
            Ok(Tree::Pick {
                tag,
                value: Box::new(alloc, value)?,
            })
        }
    }
}

/// The trees of elements from one place to before another.
#[cycle(join)]
fn range<C: Columns>(
    alloc: Global,
    columns: &C,
    of: &Plan,
    from: u64,
    to: u64,
) -> Result<Trees, AllocError>
    requires order { from ≤ to }
    requires readable { ReadableTo (plan_view of.now) (C.Columns.elements columns.now) to }
    ensures { IfOk result (λ ts. trees_of (trees_view ts)
        ≡ trees_from (tree_at (plan_view of.now) (C.Columns.elements columns.now)) from (to - from)) }
{
    let mut list = Vec::with_capacity(alloc, (to - from) as usize)?;
    for i in from..to {
        list.push(tree(alloc, columns, of, i)?)?;
    }
    Ok(Trees::from_vec(list))
}

/// The tree of the one element from one place to before another, or nothing where there is none.
#[cycle(join)]
fn at_most_one<C: Columns>(
    alloc: Global,
    columns: &C,
    of: &Plan,
    from: u64,
    to: u64,
) -> Result<Tree, AllocError>
    requires order { from ≤ to }
    requires readable { ReadableTo (plan_view of.now) (C.Columns.elements columns.now) to }
    ensures { IfOk result (λ t. tree_view t ≡ only
        (trees_from (tree_at (plan_view of.now) (C.Columns.elements columns.now)) from (to - from))) }
{
    if from == to {
        return Ok(Tree::Nothing);
    }
    tree(alloc, columns, of, from)
}

/// The tree of each plan, all at one element.
#[cycle(join)]
fn each<C: Columns>(alloc: Global, columns: &C, parts: &[Plan], i: u64) -> Result<Trees, AllocError>
    requires { ReadableEach (plans_of (map plan_view parts.now)) (C.Columns.elements columns.now) i }
    ensures { IfOk result (λ ts. trees_of (trees_view ts)
        ≡ each_at (plans_of (map plan_view parts.now)) (C.Columns.elements columns.now) i) }
{
    let mut list = Vec::with_capacity(alloc, parts.len())?;
    for part in parts {
        list.push(tree(alloc, columns, part, i)?)?;
    }
    Ok(Trees::from_vec(list))
}

/// The trees of an entry, of the open fields at the top level in order.
pub fn entry_by<C: Columns>(
    alloc: Global,
    columns: &C,
    plans: &Plans,
    i: u64,
) -> Result<Trees, AllocError>
    requires { ReadableEach (plans_of (plans_view plans.now)) (C.Columns.elements columns.now) i }
    ensures { IfOk result (λ ts. trees_of (trees_view ts)
        ≡ each_at (plans_of (plans_view plans.now)) (C.Columns.elements columns.now) i) }
{
    each(alloc, columns, &plans.list, i)
}
