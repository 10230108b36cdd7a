//! Runs of integers: those that stand one after the other in a list. They go to their column in a loop that has this column alone,
//! one width and one sign. A run ends at what is no integer, as the bracket of the list or a `null` among its items.

ghost use Rattle.std.specs.Prelude.{◌≡◌, ◌-◌, ◌+◌, ◌≤◌, length, true, false, IfSome};
ghost use Rattle.nt_types.specs.Spelling.{is_width};
ghost use Rattle.nt_event.specs.Standing.{CommaStands};
ghost use Rattle.nt_plans.specs.Plan.{number};
ghost use Rattle.nt_shred.specs.Places.{TakesIntegers};
ghost use Rattle.nt_shred.specs.Runs.{AddsRun, PutsIntegers};
ghost use Rattle.nt_shred.specs.Walk.{CanPut, ElementStands, Leaves};

use crate::integers::{Integers, element_at};
use nt_column::{ColumnBuf, ColumnSet};
use nt_event::{comma, quick_item};

/// The element of the next integer of a list, right behind a comma, where that is quickly read.
#[inline(always)]
fn quick_element(line: &[u8], at: usize, bits: u8, signed: bool) -> Option<(u64, usize)>
    requires within { at ≤ length line.now }
    requires width { is_width bits ≡ true }
    ensures comma { IfSome result (λ r. CommaStands line.now at (at + 1)) }
    ensures element { IfSome result (λ r. ElementStands bits signed r.0 line.now (at + 1) r.1) }
{
    if signed {
        return None;
    }
    let (value, end) = quick_item(line, at, bits)?;
    Some((value, end))
}

/// Adds the integers that stand one after the other, one at least, and gives the end of the last. Inlined, so that a loop has one
/// width and one sign alone.
#[inline(always)]
fn run(column: &mut ColumnBuf, bits: u8, signed: bool, line: &[u8], at: usize) -> Option<usize>
    requires within { at ≤ length line.now }
    requires takes { TakesIntegers bits (length line.now - at) column.old }
    ensures { AddsRun bits signed line.now at column.old column.new result }
{
    let (first, end) = element_at(line, at, bits, signed)?;
    column.push_at_width(bits, first);
    let mut i = end;
    while let Some((quick, end)) = quick_element(line, i, bits, signed) {
        column.push_at_width(bits, quick);
        i = end;
    }
    while let Some(next) = comma(line, i) {
        let Some((value, end)) = element_at(line, next, bits, signed) else {
            break;
        };
        column.push_at_width(bits, value);
        i = end;
    }
    Some(i)
}

/// The same, by a loop for each width.
#[inline(always)]
fn run_by_width(
    column: &mut ColumnBuf,
    bits: u8,
    signed: bool,
    line: &[u8],
    at: usize,
) -> Option<usize>
    requires within { at ≤ length line.now }
    requires takes { TakesIntegers bits (length line.now - at) column.old }
    ensures { AddsRun bits signed line.now at column.old column.new result }
{
    match bits {
        8 => run(column, 8, signed, line, at),
        16 => run(column, 16, signed, line, at),
        32 => run(column, 32, signed, line, at),
        64 => run(column, 64, signed, line, at),
        _ => unreachable!(),
    }
}

/// The same without a sign.
#[inline(never)]
fn unsigned_run(column: &mut ColumnBuf, bits: u8, line: &[u8], at: usize) -> Option<usize>
    requires within { at ≤ length line.now }
    requires takes { TakesIntegers bits (length line.now - at) column.old }
    ensures { AddsRun bits false line.now at column.old column.new result }
{
    run_by_width(column, bits, false, line, at)
}

/// The same with a sign.
#[inline(never)]
fn signed_run(column: &mut ColumnBuf, bits: u8, line: &[u8], at: usize) -> Option<usize>
    requires within { at ≤ length line.now }
    requires takes { TakesIntegers bits (length line.now - at) column.old }
    ensures { AddsRun bits true line.now at column.old column.new result }
{
    run_by_width(column, bits, true, line, at)
}

/// Adds the integers that stand one after the other, one at least, to their column of a set.
pub fn put_run(out: &mut ColumnSet, of: Integers, line: &[u8], at: usize) -> Option<usize>
    requires within { at ≤ length line.now }
    requires can { CanPut (number of.column of.bits of.signed) (length line.now - at) out.old }
    ensures { Leaves (λ end. PutsIntegers of.column of.bits of.signed line.now at end out.old out.new)
        out.old out.new result }
{
    let column = out.buffer(of.column);
    if of.signed {
        signed_run(column, of.bits, line, at)
    } else {
        unsigned_run(column, of.bits, line, at)
    }
}
