//! Values and entries by a schema.

ghost use Rattle.std.specs.Prelude.{◌≡◌, ◌<◌, ℕ, IfOk, MatchResult, Some, None};
ghost use Rattle.nt_types.specs.TreeData.{trees_of};
ghost use Rattle.nt_types.specs.TreeViews.{trees_view};
ghost use Rattle.nt_plans.specs.Place.{open_plans};
ghost use Rattle.nt_trees.specs.Sound.{AllSound};
ghost use Rattle.nt_trees.specs.Faults.{fault_in_any};
ghost use Rattle.nt_trees.specs.TreeAt.{each_at};
ghost use Rattle.nt_join.specs.Spots.{spot_of};
ghost use Rattle.nt_join.specs.Readable.{ReadableEach};

use crate::check::check_by;
use crate::fault::ValueFault;
use crate::join::entry_by;
use nt_column::Columns;
use nt_schema::Schema;
use nt_types::Trees;
use std::alloc::{AllocError, Global};

/// Whether a cluster's columns are those of so many entries of the schema; if not, what is wrong
/// first.
pub fn check_values<C: Columns>(
    columns: &C,
    schema: &Schema,
    entries: u64,
) -> Result<(), ValueFault>
    ensures fault { MatchResult result
        (λ _. fault_in_any (open_plans schema.now) (C.Columns.elements columns.now) entries ≡ None)
        (λ f. fault_in_any (open_plans schema.now) (C.Columns.elements columns.now) entries
        ≡ Some (spot_of f)) }
    ensures sound { IfOk result (λ _.
        AllSound (open_plans schema.now) (C.Columns.elements columns.now) entries) }
    ensures readable { IfOk result (λ _. (i : ℕ) → i < entries
        → ReadableEach (open_plans schema.now) (C.Columns.elements columns.now) i) }
{
    check_by(columns, schema.plans(), entries)
}

/// The trees of an entry, of the open fields at the top level in order.
pub fn entry<C: Columns>(
    alloc: Global,
    columns: &C,
    schema: &Schema,
    i: u64,
) -> Result<Trees, AllocError>
    requires { ReadableEach (open_plans schema.now) (C.Columns.elements columns.now) i }
    ensures { IfOk result (λ ts. trees_of (trees_view ts)
        ≡ each_at (open_plans schema.now) (C.Columns.elements columns.now) i) }
{
    entry_by(alloc, columns, schema.plans(), i)
}
