//! How many elements there are of a field.

ghost use Rattle.std.specs.Prelude.{◌≡◌, ◌<◌, ℕ};
ghost use Rattle.nt_plans.specs.PlanViews.{plan_view};
ghost use Rattle.nt_trees.specs.Sound.{Sound};
ghost use Rattle.nt_trees.specs.Views.{cols_of};
ghost use Rattle.nt_shred.specs.Frame.{set_frame, Takes, FitsIn, ends_below};

use nt_column::{ColumnSet, Columns};
use nt_plans::Plan;

/// How many elements the columns have of a field: as many as its first column.
pub fn count(out: &ColumnSet, plan: &Plan) -> u64
    requires takes { Takes (plan_view plan.now) (set_frame out.now) }
    requires room { FitsIn out.now (cols_of out.now) }
    ensures size { (n : ℕ) → Sound (plan_view plan.now) (cols_of out.now) n → result ≡ n }
    ensures bound { result < ends_below (set_frame out.now) }
{
    match plan {
        Plan::Bool { column } | Plan::Number { column, .. } => out.len(*column),
        Plan::Text { ends, .. } | Plan::List { ends, .. } | Plan::Maybe { ends, .. } => {
            out.len(*ends)
        }
        Plan::Record(parts) => count(out, &parts.list[0]),
        Plan::Choice { tags, .. } => out.len(*tags),
    }
}
