//! The lines of entries.

ghost use Rattle.std.specs.Prelude.{◌≡◌, ◌++◌, ◌∷◌, [], length, take, OnOk, OnErr};
ghost use Rattle.nt_event.specs.Json.{line_of};
ghost use Rattle.nt_plans.specs.Plan.{plans_of};
ghost use Rattle.nt_plans.specs.PlanViews.{plans_view};
ghost use Rattle.nt_plans.specs.Place.{open_plans};
ghost use Rattle.nt_trees.specs.TreeAt.{each_at};
ghost use Rattle.nt_join.specs.Readable.{ReadableEach};

use crate::values::put_each;
use nt_column::Columns;
use nt_plans::Plans;
use nt_schema::Schema;
use std::alloc::{AllocError, Global};

/// The end of a line.
const LF: u8 = 10;

/// An entry's array and its LF, where memory suffices.
fn put_entry<C: Columns>(
    alloc: Global,
    columns: &C,
    plans: &Plans,
    i: u64,
    out: &mut Vec<u8>,
) -> Result<(), AllocError>
    requires { ReadableEach (plans_of (plans_view plans.now)) (C.Columns.elements columns.now) i }
    ensures ok { OnOk result (out.new.items ≡ out.old.items ++ (line_of
        (each_at (plans_of (plans_view plans.now)) (C.Columns.elements columns.now) i) ++ LF ∷ [])) }
    ensures kept { take (length out.old.items) out.new.items ≡ out.old.items }
{
    put_each(alloc, columns, plans.as_slice(), i, out)?;
    out.push(LF)?;
    Ok(())
}

/// Appends the line of an entry, with the values of the open fields at the top level in order, and its
/// LF; nothing where memory runs out.
pub fn write_entry<C: Columns>(
    alloc: Global,
    columns: &C,
    schema: &Schema,
    i: u64,
    out: &mut Vec<u8>,
) -> Result<(), AllocError>
    requires { ReadableEach (open_plans schema.now) (C.Columns.elements columns.now) i }
    ensures ok { OnOk result (out.new.items ≡ out.old.items ++ (line_of
        (each_at (open_plans schema.now) (C.Columns.elements columns.now) i) ++ LF ∷ [])) }
    ensures err { OnErr result (out.new.items ≡ out.old.items) }
{
    let len = out.len();
    match put_entry(alloc, columns, schema.plans(), i, out) {
        Ok(()) => Ok(()),
        Err(error) => {
            out.truncate(len);
            Err(error)
        }
    }
}
