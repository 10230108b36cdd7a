//! What is done to the columns before a line and after a refused one.

ghost use Rattle.std.specs.Prelude.{◌≡◌, ◌≤◌, ◌<◌, ◌^◌, List, length, true, IfOk, OnOk};
ghost use Rattle.nt_column.specs.Column.{Buffer, columns_of};
ghost use Rattle.nt_trees.specs.Described.{are_stored};
ghost use Rattle.nt_shred.specs.Frame.{HasRoomIn, HasRoomFor};
ghost use Rattle.nt_shred.specs.Places.{Grew, lengths_of};

use crate::growing::{NARROW, reserve_column};
use nt_column::ColumnSet;
use std::alloc::AllocError;

/// How many more elements a column has memory for, and any ends can count.
#[inline(always)]
fn room_in(out: &ColumnSet, column: u32) -> usize
    requires { column < length out.now }
    ensures { 0 < result → HasRoomIn out.now column result }
{
    let buffer = out.column(column);
    buffer
        .spare()
        .min((NARROW - 1).saturating_sub(buffer.len()))
}

/// Makes room for so many more elements in each column, and says how much there is in each at least.
#[inline(never)]
pub fn make_room(out: &mut ColumnSet, more: usize) -> Result<usize, AllocError>
    requires { length out.old ≤ 2 ^ 32 }
    ensures columns { columns_of out.new ≡ columns_of out.old }
    ensures ok { IfOk result (λ room. HasRoomFor out.new room × (more ≤ room)) }
{
    let mut room = usize::MAX;
    for column in 0..out.columns() {
        reserve_column(out, column as u32, more)?;
        room = room.min(room_in(out, column as u32));
    }
    if room > more {
        return Ok(room);
    }
    Ok(more)
}

/// Notes how many elements each column has.
fn note_each(out: &ColumnSet, marks: &mut [usize])
    requires few { length out.now ≤ 2 ^ 32 }
    requires count { length marks.old ≡ length out.now }
    ensures { marks.new ≡ lengths_of out.now }
{
    for column in 0..marks.len() {
        marks[column] = out.column(column as u32).len();
    }
}

/// The same, in memory that is taken where it is lacking.
#[inline(always)]
pub fn note(out: &ColumnSet, marks: &mut Vec<usize>) -> Result<(), AllocError>
    requires few { length out.now ≤ 2 ^ 32 }
    ensures { OnOk result (marks.new.items ≡ lengths_of out.now) }
{
    if marks.len() != out.columns() {
        marks.clear();
        marks.resize(out.columns(), 0)?;
    }
    note_each(out, marks.as_mut_slice());
    Ok(())
}

/// Cuts each column back to what it had when this was noted.
pub fn cut_back(out: &mut ColumnSet, marks: &[usize])
    requires count { length out.old ≤ 2 ^ 32 }
    requires marks { length marks.now ≡ length out.old }
    ensures { (start : List Buffer) → Grew start out.old → are_stored (columns_of start) ≡ true
        → marks.now ≡ lengths_of start → columns_of out.new ≡ columns_of start }
{
    for column in 0..out.columns() {
        out.buffer(column as u32).cut(marks[column]);
    }
}
