//! How much room values need.

ghost use Rattle.std.specs.Prelude.{◌≡◌, ◌≤◌, ◌-◌, ℕ, true, IfOk, IsTrue};
ghost use Rattle.nt_plans.specs.PlanViews.{plan_view};
ghost use Rattle.nt_trees.specs.Columns.{Cols};
ghost use Rattle.nt_trees.specs.TreeAt.{tree_at, each_at, trees_from};
ghost use Rattle.nt_trees.specs.Views.{plans_in};
ghost use Rattle.nt_join.specs.Readable.{Readable, ReadableTo, ReadableEach};
ghost use Rattle.nt_shred.specs.Most.{most, most_of_all, most_of_any};
ghost use Rattle.nt_join.specs.Chosen.{tree_in};
ghost use Rattle.nt_moving.specs.Moved.{chosen_at};

use nt_column::Columns;
use nt_join::reading::{begin, number, tag};
use nt_plans::Plan;
use std::alloc::AllocError;

/// Whether the values of a plan are numbers, which add one element each.
fn is_single(plan: &Plan) -> bool
    ensures { IsTrue result → (cols : Cols) (i : ℕ) → most (tree_at (plan_view plan.now) cols i) ≡ 1 }
{
    match plan {
        Plan::Bool { .. } | Plan::Number { .. } => true,
        Plan::Maybe { of, .. } => is_single(of),
        _ => false,
    }
}

/// How many elements the value of an element adds to one column at most. No memory holds more than a usize counts.
#[cycle(room)]
fn most<C: Columns>(columns: &C, plan: &Plan, i: u64) -> Result<usize, AllocError>
    requires { Readable (plan_view plan.now) (C.Columns.elements columns.now) i }
    ensures { IfOk result (λ n. n ≡ most (tree_at (plan_view plan.now) (C.Columns.elements columns.now) i)) }
{
    match plan {
        Plan::Bool { .. } => Ok(1),
        Plan::Number { .. } => Ok(1),
        Plan::Text { ends, .. } => {
            let from = begin(columns, *ends, i);
            let to = number(columns, *ends, i);
            Ok(((to - from) as usize).max(1))
        }
        Plan::List { ends, of } => {
            let from = begin(columns, *ends, i);
            let to = number(columns, *ends, i);
            Ok(most_of_all(columns, of, from, to)?.max(1))
        }
        Plan::Maybe { ends, of } => {
            let from = begin(columns, *ends, i);
            if from == number(columns, *ends, i) {
                return Ok(1);
            }
            most(columns, of, from)
        }
        Plan::Record(parts) => Ok(most_of_any(columns, &parts.list, i)?.max(1)),
        Plan::Choice { tags, of } => {
            let tag = tag(columns, *tags, i);
            if tag == 0 {
                return Ok(1);
            }
            let at = number(columns, *tags, i);
            Ok(most(columns, &of.list[tag as usize - 1], at)?.max(1))
        }
    }
}

/// Of the elements from one place to before another together.
#[cycle(room)]
fn most_of_all<C: Columns>(columns: &C, of: &Plan, from: u64, to: u64) -> Result<usize, AllocError>
    requires order { from ≤ to }
    requires readable { ReadableTo (plan_view of.now) (C.Columns.elements columns.now) to }
    ensures { IfOk result (λ n. n ≡ most_of_all
        (trees_from (tree_at (plan_view of.now) (C.Columns.elements columns.now)) from (to - from))) }
{
    if is_single(of) {
        return Ok((to - from) as usize);
    }
    let mut total: usize = 0;
    for i in from..to {
        let more = most(columns, of, i)?;
        total = total.checked_add(more).ok_or(AllocError)?;
    }
    Ok(total)
}

/// Of the one of these at an element that adds most.
#[cycle(room)]
fn most_of_any<C: Columns>(columns: &C, plans: &[Plan], i: u64) -> Result<usize, AllocError>
    requires { ReadableEach (plans_in plans.now) (C.Columns.elements columns.now) i }
    ensures { IfOk result (λ n. n ≡ most_of_any
        (each_at (plans_in plans.now) (C.Columns.elements columns.now) i)) }
{
    let mut highest: usize = 0;
    for plan in plans {
        highest = highest.max(most(columns, plan, i)?);
    }
    Ok(highest)
}

/// Of the one of the values at these places that adds most.
pub fn most_of_places<C: Columns>(
    columns: &C,
    plans: &[Plan],
    places: &[u32],
    i: u64,
) -> Result<usize, AllocError>
    requires { ReadableEach (plans_in plans.now) (C.Columns.elements columns.now) i }
    ensures { IfOk result (λ n. n ≡ most_of_any
        (chosen_at (plans_in plans.now) (C.Columns.elements columns.now) places.now i)) }
{
    let mut highest: usize = 0;
    for place in places {
        highest = highest.max(most_at(columns, plans, *place, i)?);
    }
    Ok(highest)
}

/// Of the value at a place.
fn most_at<C: Columns>(columns: &C, plans: &[Plan], place: u32, i: u64) -> Result<usize, AllocError>
    requires { ReadableEach (plans_in plans.now) (C.Columns.elements columns.now) i }
    ensures { IfOk result (λ n. n ≡ most
        (tree_in (each_at (plans_in plans.now) (C.Columns.elements columns.now) i) place)) }
{
    if place as usize >= plans.len() {
        return Ok(1);
    }
    most(columns, &plans[place as usize], i)
}
