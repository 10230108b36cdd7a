//! Optional integers, one and the items of a list.
//!
//! Of a list the integers up to the next `null` go to their column first, as a run, and then their ends, which count on from the one
//! before.

ghost use Rattle.std.specs.Prelude.{◌≡◌, ◌-◌, ◌+◌, ◌<◌, ◌≤◌, length};
ghost use Rattle.nt_types.specs.ColumnTable.{bits_of};
ghost use Rattle.nt_column.specs.Column.{TakesNumber, with_more};
ghost use Rattle.nt_plans.specs.Plan.{maybe, number};
ghost use Rattle.nt_trees.specs.Columns.{add_to};
ghost use Rattle.nt_trees.specs.Views.{cols_of};
ghost use Rattle.nt_shred.specs.Frame.{set_frame, IsEnds, FitsIn, ends_below};
ghost use Rattle.nt_shred.specs.Steps.{GainsInRoom};
ghost use Rattle.nt_shred.specs.Runs.{PutsRun, ends_behind};
ghost use Rattle.nt_shred.specs.Walk.{CanPut, Puts, PutsAll, Leaves};

use crate::integer_runs::put_run;
use crate::integers::Integers;
use crate::leaves::integer_in_place;
use crate::pushing::push_end;
use core::mem::replace_with;
use nt_column::{ColumnBuf, ColumnSet, Columns};
use nt_event::{after, comma, null};

/// Adds an optional integer: its element, if there is one, and the end.
#[inline(always)]
pub fn optional_integer(
    out: &mut ColumnSet,
    ends: u32,
    of: Integers,
    line: &[u8],
    at: usize,
) -> Option<usize>
    requires within { at ≤ length line.now }
    requires can { CanPut (maybe ends (number of.column of.bits of.signed)) (length line.now - at) out.old }
    ensures { Leaves (λ end. Puts (maybe ends (number of.column of.bits of.signed)) line.now at end out.old out.new)
        out.old out.new result }
{
    let before = out.len(of.column);
    if let Some(end) = null(line, at) {
        push_end(out, ends, before);
        return Some(end);
    }
    let end = integer_in_place(out, of, line, at)?;
    push_end(out, ends, before + 1);
    Some(end)
}

/// The column of ends with those behind one up to another. It is held by value, so that its place is kept in registers. Inlined, so
/// that a loop has one width alone.
#[inline(always)]
fn counted_on(column: ColumnBuf, bits: u8, before: u64, last: u64) -> ColumnBuf
    requires width { bits_of column.column.kind ≡ bits }
    requires takes { TakesNumber column.column last }
    requires room { (before ≤ last) × (last - before ≤ column.spare) }
    ensures column { result.column ≡ with_more column.column (ends_behind before (last - before)) }
    ensures spare { column.spare ≤ result.spare + (last - before) }
{
    let mut ends = column;
    let mut end = before;
    while end < last {
        end += 1;
        ends.push_at_width(bits, end);
    }
    ends
}

/// The same of ends of 64 bits, as nearly all are, with the two ends as a pair.
fn wide_counted_on(column: ColumnBuf, span: (u64, u64)) -> (ColumnBuf, ())
    requires width { bits_of column.column.kind ≡ 64 }
    requires takes { TakesNumber column.column span.1 }
    requires room { (span.0 ≤ span.1) × (span.1 - span.0 ≤ column.spare) }
    ensures column { result.0.column ≡ with_more column.column (ends_behind span.0 (span.1 - span.0)) }
    ensures spare { column.spare ≤ result.0.spare + (span.1 - span.0) }
{
    (counted_on(column, 64, span.0, span.1), ())
}

/// The same of ends of a width.
fn any_counted_on(column: ColumnBuf, span: (u8, u64, u64)) -> (ColumnBuf, ())
    requires width { bits_of column.column.kind ≡ span.0 }
    requires takes { TakesNumber column.column span.2 }
    requires room { (span.1 ≤ span.2) × (span.2 - span.1 ≤ column.spare) }
    ensures column { result.0.column ≡ with_more column.column (ends_behind span.1 (span.2 - span.1)) }
    ensures spare { column.spare ≤ result.0.spare + (span.2 - span.1) }
{
    (counted_on(column, span.0, span.1, span.2), ())
}

/// Adds the ends behind one up to another.
#[inline(always)]
fn count_on(ends: &mut ColumnBuf, bits: u8, before: u64, last: u64)
    requires width { bits_of ends.old.column.kind ≡ bits }
    requires takes { TakesNumber ends.old.column last }
    requires room { (before ≤ last) × (last - before ≤ ends.old.spare) }
    ensures column { ends.new.column ≡ with_more ends.old.column (ends_behind before (last - before)) }
    ensures spare { ends.old.spare ≤ ends.new.spare + (last - before) }
{
    if bits == 64 {
        replace_with(ends, (before, last), wide_counted_on);
    } else {
        replace_with(ends, (bits, before, last), any_counted_on);
    }
}

/// Adds the ends behind one up to another to their column of a set.
fn put_ends(out: &mut ColumnSet, ends: u32, before: u64, last: u64)
    requires order { before ≤ last }
    requires column { IsEnds (set_frame out.old) ends }
    requires end { last < ends_below (set_frame out.old) }
    requires room { FitsIn out.old (add_to ends (ends_behind before (last - before)) (cols_of out.old)) }
    ensures { GainsInRoom (add_to ends (ends_behind before (last - before))) out.old out.new }
{
    let ends = out.buffer(ends);
    if ends.kind().bits() == 64 {
        count_on(ends, 64, before, last);
    } else {
        count_on(ends, 32, before, last);
    }
}

/// Adds nothing, or the integers up to the next `null` or the last of them, and the ends.
fn part(out: &mut ColumnSet, ends: u32, of: Integers, line: &[u8], at: usize) -> Option<usize>
    requires within { at ≤ length line.now }
    requires can { CanPut (maybe ends (number of.column of.bits of.signed)) (length line.now - at) out.old }
    ensures { Leaves (λ end. PutsRun (maybe ends (number of.column of.bits of.signed)) line.now at end out.old out.new)
        out.old out.new result }
{
    let before = out.len(of.column);
    if let Some(end) = null(line, at) {
        push_end(out, ends, before);
        return Some(end);
    }
    let end = put_run(out, of, line, at)?;
    let last = out.len(of.column);
    put_ends(out, ends, before, last);
    Some(end)
}

/// Adds optional integers, the items of a list, up to its bracket.
pub fn optional_integers(
    out: &mut ColumnSet,
    ends: u32,
    of: Integers,
    line: &[u8],
    at: usize,
) -> Option<usize>
    requires within { at ≤ length line.now }
    requires can { CanPut (maybe ends (number of.column of.bits of.signed)) (length line.now - at) out.old }
    ensures { Leaves (λ end. PutsAll (maybe ends (number of.column of.bits of.signed)) line.now at end out.old out.new)
        out.old out.new result }
{
    if let Some(end) = after(line, at, b']') {
        return Some(end);
    }
    let mut i = part(out, ends, of, line, at)?;
    while let Some(next) = comma(line, i) {
        i = part(out, ends, of, line, next)?;
    }
    after(line, i, b']')
}
