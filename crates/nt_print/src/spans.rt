//! Where the parts of elements stand in another column.

ghost use Rattle.std.specs.Prelude.{◌≡◌, ◌<◌, ◌≤◌, length, map};
ghost use Rattle.nt_column.specs.Elements.{plain};
ghost use Rattle.nt_trees.specs.Columns.{number_at, begin_at};

use nt_column::{Columns, WordSlice};
use nt_join::reading::{begin, number};

/// Where the part of an element ends, by the ends as they lie.
#[inline(always)]
pub fn end_in(list: &[u64], i: usize) -> u64
    requires { i < length list.now }
    ensures { result ≡ number_at (map plain list.now) i }
{
    list[i]
}

/// Where the part of an element begins, by the ends as they lie.
#[inline(always)]
pub fn begin_in(list: &[u64], i: usize) -> u64
    requires { i ≤ length list.now }
    ensures { result ≡ begin_at (map plain list.now) i }
{
    if i == 0 { 0 } else { end_in(list, i - 1) }
}

/// Where the part of an element begins and ends, where the ends don't lie together.
#[inline(never)]
fn span_read<C: Columns>(columns: &C, ends: u32, i: u64) -> (u64, u64)
    requires { i < length (C.Columns.elements columns.now ends) }
    ensures begin { result.0 ≡ begin_at (C.Columns.elements columns.now ends) i }
    ensures end { result.1 ≡ number_at (C.Columns.elements columns.now ends) i }
{
    (begin(columns, ends, i), number(columns, ends, i))
}

/// Where the part of an element begins and ends: one look at a column where its end and the one before it
/// lie together.
#[inline(always)]
pub fn span<C: Columns>(columns: &C, ends: u32, i: u64) -> (u64, u64)
    requires { i < length (C.Columns.elements columns.now ends) }
    ensures begin { result.0 ≡ begin_at (C.Columns.elements columns.now ends) i }
    ensures end { result.1 ≡ number_at (C.Columns.elements columns.now ends) i }
{
    let from = i.saturating_sub(1);
    // The last place of all has none behind it.
    let Some(behind) = i.checked_add(1) else {
        return span_read(columns, ends, i);
    };
    if let Some(WordSlice::Words64(list)) = columns.words(ends, from, behind) {
        let at = (i - from) as usize;
        return (begin_in(list, at), end_in(list, at));
    }
    span_read(columns, ends, i)
}
