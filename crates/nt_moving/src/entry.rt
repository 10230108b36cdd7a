//! The chosen values of an entry, from columns to columns.

ghost use Rattle.std.specs.Prelude.{◌≡◌, ◌≤◌, ◌^◌, ℕ, length, OnOk, OnErr};
ghost use Rattle.nt_column.specs.Column.{columns_of};
ghost use Rattle.nt_plans.specs.Plan.{plans_of};
ghost use Rattle.nt_plans.specs.PlanViews.{plans_view};
ghost use Rattle.nt_plans.specs.Place.{open_plans};
ghost use Rattle.nt_trees.specs.Described.{IsSetOf};
ghost use Rattle.nt_trees.specs.Sound.{AllSound};
ghost use Rattle.nt_trees.specs.Put.{put_trees};
ghost use Rattle.nt_trees.specs.Views.{cols_of, plans_in};
ghost use Rattle.nt_shred.specs.Frame.{set_frame};
ghost use Rattle.nt_shred.specs.Steps.{IsEntry, IsLast, IsEntryOf};
ghost use Rattle.nt_moving.specs.Moved.{chosen_at, CanMove};

use crate::moving::move_places;
use crate::room::most_of_places;
use nt_column::{ColumnSet, Columns};
use nt_plans::{Plan, Plans, columns_differ, columns_have_types};
use nt_schema::Schema;
use nt_shred::growing::reserve;
use std::alloc::AllocError;

/// Adds the values at some places of an entry, each by its plan: all growth comes first.
fn move_by<C: Columns>(
    columns: &C,
    from: &[Plan],
    places: &[u32],
    i: u64,
    to: &[Plan],
    out: &mut ColumnSet,
) -> Result<(), AllocError>
    requires count { length out.old ≤ 2 ^ 32 }
    requires entry { CanMove (plans_in from.now) (C.Columns.elements columns.now) places.now i
        (λ ts. IsEntry (plans_in to.now) ts out.old) }
    ensures added { OnOk result (cols_of out.new ≡ put_trees (plans_in to.now)
        (chosen_at (plans_in from.now) (C.Columns.elements columns.now) places.now i) (cols_of out.old)) }
    ensures frame { set_frame out.new ≡ set_frame out.old }
    ensures refused { OnErr result (columns_of out.new ≡ columns_of out.old) }
{
    let more = most_of_places(columns, from, places, i)?;
    reserve(out, more)?;
    move_places(out, to, columns, from, places, i);
    Ok(())
}

/// Adds the values at some places of an entry of other columns, of which the plans are `plans`: one for
/// each open field of the schema at the top level, in order. What it adds is what their trees would add,
/// and none is made. Where memory is wanting, no column has changed.
pub fn move_chosen<C: Columns>(
    from: &C,
    plans: &Plans,
    places: &[u32],
    i: u64,
    schema: &Schema,
    out: &mut ColumnSet,
) -> Result<(), AllocError>
    requires { CanMove (plans_of (plans_view plans.now)) (C.Columns.elements from.now) places.now i
        (λ ts. IsEntryOf schema.now ts out.old) }
    ensures added { OnOk result (cols_of out.new ≡ put_trees (open_plans schema.now)
        (chosen_at (plans_of (plans_view plans.now)) (C.Columns.elements from.now) places.now i) (cols_of out.old)) }
    ensures last { OnOk result ((n : ℕ) → AllSound (open_plans schema.now) (cols_of out.old) n
        → IsLast (open_plans schema.now)
        (chosen_at (plans_of (plans_view plans.now)) (C.Columns.elements from.now) places.now i) n (cols_of out.new)) }
    ensures set { IsSetOf schema.now.columns (columns_of out.new) }
    ensures refused { OnErr result (columns_of out.new ≡ columns_of out.old) }
{
    // As many as the rows, which have ids of 32 bits. Two laws of their plans follow, which do nothing.
    let _columns = schema.columns();
    columns_differ();
    columns_have_types();
    move_by(
        from,
        plans.as_slice(),
        places,
        i,
        schema.plans().as_slice(),
        out,
    )?;
    Ok(())
}
