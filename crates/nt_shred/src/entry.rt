//! An entry to its columns.

ghost use Rattle.std.specs.Prelude.{◌≡◌, ◌≤◌, ◌^◌, ℕ, length, OnOk, OnErr};
ghost use Rattle.nt_types.specs.TreeData.{trees_of};
ghost use Rattle.nt_types.specs.TreeViews.{trees_view};
ghost use Rattle.nt_column.specs.Column.{columns_of};
ghost use Rattle.nt_plans.specs.Place.{open_plans};
ghost use Rattle.nt_trees.specs.Described.{IsSetOf};
ghost use Rattle.nt_trees.specs.Sound.{AllSound};
ghost use Rattle.nt_trees.specs.Put.{put_trees};
ghost use Rattle.nt_trees.specs.Views.{cols_of, plans_in, trees_in};
ghost use Rattle.nt_shred.specs.Frame.{set_frame};
ghost use Rattle.nt_shred.specs.Steps.{IsEntry, IsLast, IsEntryOf};

use crate::growing::reserve;
use crate::most::most_of_any;
use crate::putting::put_trees;
use nt_column::ColumnSet;
use nt_plans::{Plan, columns_differ, columns_have_types};
use nt_schema::Schema;
use nt_types::{Tree, Trees};
use std::alloc::AllocError;

/// Adds an entry by the plans of its fields: all growth comes first.
fn shred_by(trees: &[Tree], plans: &[Plan], out: &mut ColumnSet) -> Result<(), AllocError>
    requires count { length out.old ≤ 2 ^ 32 }
    requires entry { IsEntry (plans_in plans.now) (trees_in trees.now) out.old }
    ensures added { OnOk result
        (cols_of out.new ≡ put_trees (plans_in plans.now) (trees_in trees.now) (cols_of out.old)) }
    ensures frame { set_frame out.new ≡ set_frame out.old }
    ensures refused { OnErr result (columns_of out.new ≡ columns_of out.old) }
{
    let more = most_of_any(trees)?;
    reserve(out, more)?;
    put_trees(out, plans, trees);
    Ok(())
}

/// Adds the elements of an entry, which has one tree for each open field at the top level, and
/// nothing else. Where memory is wanting, no column has changed.
pub fn shred(trees: &Trees, schema: &Schema, out: &mut ColumnSet) -> Result<(), AllocError>
    requires { IsEntryOf schema.now (trees_of (trees_view trees.now)) out.old }
    ensures added { OnOk result (cols_of out.new
        ≡ put_trees (open_plans schema.now) (trees_of (trees_view trees.now)) (cols_of out.old)) }
    ensures last { OnOk result ((n : ℕ) → AllSound (open_plans schema.now) (cols_of out.old) n
        → IsLast (open_plans schema.now) (trees_of (trees_view trees.now)) n (cols_of out.new)) }
    ensures set { IsSetOf schema.now.columns (columns_of out.new) }
    ensures refused { OnErr result (columns_of out.new ≡ columns_of out.old) }
{
    // As many as the rows, which have ids of 32 bits. Two laws of their plans follow, which do nothing.
    let _columns = schema.columns();
    columns_differ();
    columns_have_types();
    shred_by(trees.as_slice(), schema.plans().as_slice(), out)?;
    Ok(())
}
