//! Sweeps over the ends of optionals, each of which has one item at most.

ghost use Rattle.std.specs.Prelude.{◌≡◌, ◌+◌, ◌&&◌, ◌<◌, ℕ, nat_le, map, option_map, length, true, IsTrue};
ghost use Rattle.nt_column.specs.Elements.{plain};
ghost use Rattle.nt_trees.specs.Faults.{stepping, is_met, column_fault};
ghost use Rattle.nt_join.specs.Spots.{spot_of};
ghost use Rattle.nt_join.specs.Sweeps.{IsFirstUnmet};

use crate::fault::{ValueFault, first_in};
use crate::reading::{all_words, number};
use nt_column::{Columns, WordSlice};

/// Whether an end is the one before it, or the next number.
fn is_step(last: u64, end: u64) -> bool
    ensures { result ≡ (nat_le last end && nat_le end (last + 1)) }
{
    last <= end && end - last <= 1
}

/// Whether each of these ends is a step. No end is branched on, so that LLVM looks at several at once.
fn are_steps(ends: &[u64]) -> bool
    ensures { IsTrue result → (i : ℕ) → i < length ends.now → is_met stepping (map plain ends.now) i ≡ true }
{
    let mut odd: u64 = 0;
    let mut last: u64 = 0;
    for end in ends {
        odd |= end.wrapping_sub(last) >> 1;
        last = *end;
    }
    odd == 0
}

/// The first of these ends that is no step, or their number.
fn first_leap_in(ends: &[u64]) -> usize
    ensures { IsFirstUnmet stepping (map plain ends.now) result }
{
    if are_steps(ends) {
        return ends.len();
    }
    let mut last: u64 = 0;
    for i in 0..ends.len() {
        let end = ends[i];
        if !is_step(last, end) {
            return i;
        }
        last = end;
    }
    ends.len()
}

/// The first end that is no step, or the number of elements.
fn first_leap<C: Columns>(columns: &C, column: u32) -> u64
    ensures { IsFirstUnmet stepping (C.Columns.elements columns.now column) result }
{
    if let Some(WordSlice::Words64(ends)) = all_words(columns, column) {
        return first_leap_in(ends) as u64;
    }
    let len = columns.len(column);
    let mut last: u64 = 0;
    for i in 0..len {
        let end = number(columns, column, i);
        if !is_step(last, end) {
            return i;
        }
        last = end;
    }
    len
}

/// The fault of a column of ends of optionals that must have so many.
pub fn steps_fault<C: Columns>(columns: &C, column: u32, needed: u64) -> Option<ValueFault>
    ensures { option_map spot_of result
        ≡ column_fault stepping (C.Columns.elements columns.now) column needed }
{
    first_in(
        column,
        columns.len(column),
        needed,
        first_leap(columns, column),
    )
}
