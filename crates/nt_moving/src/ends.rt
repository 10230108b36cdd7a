//! The end behind what was added.

ghost use Rattle.std.specs.Prelude.{◌≡◌, ℕ, [], ◌∷◌};
ghost use Rattle.nt_column.specs.Elements.{plain};
ghost use Rattle.nt_plans.specs.Plan.{list};
ghost use Rattle.nt_plans.specs.PlanViews.{plan_view};
ghost use Rattle.nt_trees.specs.Columns.{add_to};
ghost use Rattle.nt_trees.specs.Sound.{Sound};
ghost use Rattle.nt_trees.specs.Views.{cols_of};
ghost use Rattle.nt_shred.specs.Frame.{set_frame, Takes, FitsIn};
ghost use Rattle.nt_shred.specs.Steps.{GainsInRoom};

use nt_column::ColumnSet;
use nt_plans::Plan;
use nt_shred::counting::count;
use nt_shred::pushing::push_end;

/// Adds an end: how many elements there are of a plan.
#[inline(always)]
pub fn push_count(out: &mut ColumnSet, ends: u32, of: &Plan)
    requires takes { Takes (list ends (plan_view of.now)) (set_frame out.old) }
    requires room { (n : ℕ) × Sound (plan_view of.now) (cols_of out.old) n
        × FitsIn out.old (add_to ends (plain n ∷ []) (cols_of out.old)) }
    ensures { (n : ℕ) → Sound (plan_view of.now) (cols_of out.old) n
        → GainsInRoom (add_to ends (plain n ∷ [])) out.old out.new }
{
    let last = count(out, of);
    push_end(out, ends, last);
}
