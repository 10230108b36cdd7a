//! What each column is of.

ghost use Rattle.std.specs.Prelude.{◌≡◌, ℕ, None, true, map, vec_len, IfOk};
ghost use Rattle.nt_plans.specs.Plan.{plans_of};
ghost use Rattle.nt_plans.specs.PlanViews.{plan_view};
ghost use Rattle.nt_open.specs.Uses.{principal_at, principal_in, principal_in_any, use_in, use_at, Marks};

use nt_plans::Plan;
use std::alloc::{AllocError, Global};

/// A column of an open field.
#[derive(Clone, Copy, Debug, PartialEq, Eq)]
pub struct ColumnUse {
    /// The field at the top level.
    pub top: u32,
    /// It has one element an entry.
    pub principal: bool,
}

/// So many columns, of which nothing is noted.
pub(crate) fn no_uses(alloc: Global, count: usize) -> Result<Vec<Option<ColumnUse>>, AllocError>
    ensures count { IfOk result (λ uses. vec_len uses ≡ count) }
    ensures none { IfOk result (λ uses. (k : ℕ) → use_at uses.items k ≡ None) }
{
    let mut uses = Vec::new(alloc);
    while uses.len() < count {
        uses.push(None)?;
    }
    Ok(uses)
}

/// Notes one column, if nothing is noted of it.
fn mark_column(uses: &mut [Option<ColumnUse>], column: u32, of: ColumnUse)
    ensures { Marks (λ k. use_in of.top (principal_at of.principal column k)) uses.old uses.new }
{
    let at = column as usize;
    if at < uses.len() && uses[at].is_none() {
        uses[at] = Some(of);
    }
}

/// Notes the columns of a plan.
#[cycle(mark)]
fn mark(uses: &mut [Option<ColumnUse>], plan: &Plan, of: ColumnUse)
    ensures { Marks (λ k. use_in of.top (principal_in of.principal (plan_view plan.now) k))
        uses.old uses.new }
{
    let inner = ColumnUse {
        top: of.top,
        principal: false,
    };
    match plan {
        Plan::Bool { column } | Plan::Number { column, .. } => mark_column(uses, *column, of),
        Plan::Text { ends, bytes } => {
            mark_column(uses, *ends, of);
            mark_column(uses, *bytes, inner);
        }
        Plan::List { ends, of: item } | Plan::Maybe { ends, of: item } => {
            mark_column(uses, *ends, of);
            mark(uses, item, inner);
        }
        Plan::Record(plans) => mark_all(uses, &plans.list, of),
        Plan::Choice { tags, of: plans } => {
            mark_column(uses, *tags, of);
            mark_all(uses, &plans.list, inner);
        }
    }
}

/// Notes the columns of several plans.
#[cycle(mark)]
fn mark_all(uses: &mut [Option<ColumnUse>], plans: &[Plan], of: ColumnUse)
    ensures { Marks (λ k. use_in of.top
        (principal_in_any of.principal (plans_of (map plan_view plans.now)) k)) uses.old uses.new }
{
    for plan in plans {
        mark(uses, plan, of);
    }
}

/// Notes the columns of the plan of a field at the top level.
pub(crate) fn mark_field(uses: &mut Vec<Option<ColumnUse>>, plan: &Plan, top: u32)
    ensures { Marks (λ k. use_in top (principal_in true (plan_view plan.now) k))
        uses.old.items uses.new.items }
{
    mark(
        uses.as_mut_slice(),
        plan,
        ColumnUse {
            top,
            principal: true,
        },
    );
}
