//! Room for elements.

ghost use Rattle.std.specs.Prelude.{◌≡◌, ◌≤◌, ◌<◌, ◌+◌, ◌^◌, ℕ, length, IsTrue, IfOk, OnOk};
ghost use Rattle.nt_column.specs.Column.{columns_of};
ghost use Rattle.nt_trees.specs.Views.{cols_of};
ghost use Rattle.nt_shred.specs.Frame.{set_frame, is_narrow, has_narrow, ends_below, capacity_at, HasRoomIn, HasRoomFor};

use nt_column::ColumnSet;
use nt_types::ColumnType;
use std::alloc::AllocError;

fn is_narrow(kind: ColumnType) -> bool
    ensures { result ≡ is_narrow kind }
{
    matches!(kind, ColumnType::Index32 | ColumnType::SplitIndex32)
}

/// Whether the ends of some column have 32 bits.
fn has_narrow(out: &ColumnSet) -> bool
    requires { length out.now ≤ 2 ^ 32 }
    ensures { result ≡ has_narrow (set_frame out.now) }
{
    for column in 0..out.columns() {
        if is_narrow(out.column(column as u32).kind()) {
            return true;
        }
    }
    false
}

/// What ends of 32 bits count to, and one more.
pub const NARROW: usize = 1 << 32;

/// Whether the ends of all columns can count so many elements and so many more. Mostly any ends can, which needs
/// no look at the columns.
#[inline(always)]
fn can_count(out: &ColumnSet, len: usize, more: usize) -> bool
    requires { length out.now ≤ 2 ^ 32 }
    ensures { IsTrue result → len + more < ends_below (set_frame out.now) }
{
    len < NARROW.saturating_sub(more) || can_count_wide(out, len, more)
}

/// Whether they can count what is too much for ends of 32 bits.
#[inline(never)]
fn can_count_wide(out: &ColumnSet, len: usize, more: usize) -> bool
    requires { length out.now ≤ 2 ^ 32 }
    ensures { IsTrue result → len + more < ends_below (set_frame out.now) }
{
    len.checked_add(more).is_some() && !has_narrow(out)
}

/// Makes room for so many more elements in a column, and gives how many it has. What ends of 32
/// bits can't count has no room either.
#[inline(always)]
pub fn reserve_column(out: &mut ColumnSet, column: u32, more: usize) -> Result<usize, AllocError>
    requires column { (column < length out.old) × (length out.old ≤ 2 ^ 32) }
    ensures columns { columns_of out.new ≡ columns_of out.old }
    ensures kept { (k : ℕ) → capacity_at out.old k ≤ capacity_at out.new k }
    ensures ok { OnOk result (HasRoomIn out.new column more) }
    ensures len { IfOk result (λ n. n ≡ length (cols_of out.old column)) }
{
    let len = out.buffer(column).ready(more)?;
    if !can_count(out, len, more) {
        return Err(AllocError);
    }
    Ok(len)
}

/// Makes room for so many more elements in each column.
pub fn reserve(out: &mut ColumnSet, more: usize) -> Result<(), AllocError>
    requires { length out.old ≤ 2 ^ 32 }
    ensures columns { columns_of out.new ≡ columns_of out.old }
    ensures ok { OnOk result (HasRoomFor out.new more) }
{
    for column in 0..out.columns() {
        reserve_column(out, column as u32, more)?;
    }
    Ok(())
}
