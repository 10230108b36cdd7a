//! Sweeps over a Switch: for some tags at a time, so that their counts take no memory.

ghost use Rattle.std.specs.Prelude.{◌≡◌, ◌↔◌, ◌<◌, ◌≤◌, ◌+◌, ◌^◌, ℕ, length, get_or, IsTrue};
ghost use Rattle.nt_join.specs.Sweeps.{CountsOne, IsNext, IsFirstOfTags, HasCounts};

use crate::reading::{number, tag};
use nt_column::Columns;

/// For how many tags a sweep counts.
pub const BLOCK: usize = 128;

/// Counts one element, where its tag is one of those behind the first `low`. Answers whether the
/// tag is up to `most` and, if it is one of them, the index is the count before.
fn count_one(counts: &mut [u64], low: usize, most: usize, tag: usize, index: u64) -> bool
    requires { (t : ℕ) → t < length counts.old → get_or counts.old t 0 + 1 < 2 ^ 64 }
    ensures counts { CountsOne low tag counts.old counts.new }
    ensures next { IsTrue result ↔ IsNext most low counts.old tag index }
{
    if tag <= low || tag - low > counts.len() {
        return tag <= most;
    }
    let count = counts[tag - low - 1];
    counts[tag - low - 1] = count + 1;
    tag <= most && index == count
}

/// Counts the elements of each tag behind the first `low`, of as many tags as there are counts,
/// which are 0 before. Answers the first element whose tag is above `most` or, of these tags,
/// whose index isn't the count before it, or the number of elements.
pub fn count_tags<C: Columns>(
    columns: &C,
    column: u32,
    most: usize,
    low: usize,
    counts: &mut [u64],
) -> u64
    requires { (t : ℕ) → t < length counts.old → get_or counts.old t 0 ≡ 0 }
    ensures counts { HasCounts low (C.Columns.elements columns.now column) counts.new }
    ensures first { IsFirstOfTags most low (low + length counts.new)
        (C.Columns.elements columns.now column) result }
{
    let mut first = columns.len(column);
    for i in 0..columns.len(column) {
        let tag = tag(columns, column, i) as usize;
        let index = number(columns, column, i);
        if !count_one(counts, low, most, tag, index) {
            first = first.min(i);
        }
    }
    first
}
