//! Lists of integers.

ghost use Rattle.std.specs.Prelude.{◌-◌, ◌≤◌, length};
ghost use Rattle.nt_plans.specs.Plan.{list, number};
ghost use Rattle.nt_shred.specs.Walk.{CanPut, Puts, PutsAll, Leaves};

use crate::integer_runs::put_run;
use crate::integers::Integers;
use crate::pushing::push_end;
use nt_column::{ColumnSet, Columns};
use nt_event::after;

/// Adds integers, the items of a list, up to its bracket.
fn integer_items(out: &mut ColumnSet, of: Integers, line: &[u8], at: usize) -> Option<usize>
    requires within { at ≤ length line.now }
    requires can { CanPut (number of.column of.bits of.signed) (length line.now - at) out.old }
    ensures { Leaves (λ end. PutsAll (number of.column of.bits of.signed) line.now at end out.old out.new)
        out.old out.new result }
{
    if let Some(end) = after(line, at, b']') {
        return Some(end);
    }
    let end = put_run(out, of, line, at)?;
    after(line, end, b']')
}

/// Adds a list of integers: its items, and their end.
#[inline(always)]
pub fn integer_list(
    out: &mut ColumnSet,
    ends: u32,
    of: Integers,
    line: &[u8],
    at: usize,
) -> Option<usize>
    requires within { at ≤ length line.now }
    requires can { CanPut (list ends (number of.column of.bits of.signed)) (length line.now - at) out.old }
    ensures { Leaves (λ end. Puts (list ends (number of.column of.bits of.signed)) line.now at end out.old out.new)
        out.old out.new result }
{
    let first = after(line, at, b'[')?;
    let end = integer_items(out, of, line, first)?;
    let last = out.len(of.column);
    push_end(out, ends, last);
    Some(end)
}
