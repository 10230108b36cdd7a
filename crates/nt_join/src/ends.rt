//! Sweeps over a column.

ghost use Rattle.std.specs.Prelude.{◌≡◌, ◌<◌, ℕ, map, option_map, length, true, IsTrue};
ghost use Rattle.nt_column.specs.Elements.{plain};
ghost use Rattle.nt_trees.specs.Faults.{rising, free, is_met, column_fault};
ghost use Rattle.nt_join.specs.Spots.{spot_of};
ghost use Rattle.nt_join.specs.Sweeps.{IsFirstUnmet};

use crate::fault::{ValueFault, first_in};
use crate::reading::{all_words, number};
use nt_column::{Columns, WordSlice};

/// Whether none of these ends is below the one before, and none is 2^63 or more. No end is branched on, so that LLVM looks at several
/// at once.
fn are_rising(ends: &[u64]) -> bool
    ensures { IsTrue result → (i : ℕ) → i < length ends.now → is_met rising (map plain ends.now) i ≡ true }
{
    let mut seen: u64 = 0;
    let mut last: u64 = 0;
    for end in ends {
        seen |= *end | end.wrapping_sub(last);
        last = *end;
    }
    seen < 1 << 63
}

/// The first of these ends that is below the one before, or their number.
fn first_fall_in(ends: &[u64]) -> usize
    ensures { IsFirstUnmet rising (map plain ends.now) result }
{
    if are_rising(ends) {
        return ends.len();
    }
    let mut last: u64 = 0;
    for i in 0..ends.len() {
        let end = ends[i];
        if end < last {
            return i;
        }
        last = end;
    }
    ends.len()
}

/// The first end that is below the one before, or the number of elements.
fn first_fall<C: Columns>(columns: &C, column: u32) -> u64
    ensures { IsFirstUnmet rising (C.Columns.elements columns.now column) result }
{
    if let Some(WordSlice::Words64(ends)) = all_words(columns, column) {
        return first_fall_in(ends) as u64;
    }
    let len = columns.len(column);
    let mut last: u64 = 0;
    for i in 0..len {
        let end = number(columns, column, i);
        if end < last {
            return i;
        }
        last = end;
    }
    len
}

/// The fault of a column of ends that must have so many.
pub fn ends_fault<C: Columns>(columns: &C, column: u32, needed: u64) -> Option<ValueFault>
    ensures { option_map spot_of result
        ≡ column_fault rising (C.Columns.elements columns.now) column needed }
{
    first_in(
        column,
        columns.len(column),
        needed,
        first_fall(columns, column),
    )
}

/// The fault of a column of values that must have so many.
pub fn values_fault<C: Columns>(columns: &C, column: u32, needed: u64) -> Option<ValueFault>
    ensures { option_map spot_of result
        ≡ column_fault free (C.Columns.elements columns.now) column needed }
{
    let len = columns.len(column);
    first_in(column, len, needed, len)
}
