//! Elements that are read.

ghost use Rattle.std.specs.Prelude.{◌≡◌, ◌<◌, ◌≤◌, ◌-◌, length, IfOk, IfSome};
ghost use Rattle.nt_column.specs.Words.{lent_elements};
ghost use Rattle.nt_trees.specs.Columns.{number_at, tag_at, begin_at, last_end};
ghost use Rattle.nt_trees.specs.TreeAt.{text_from};

use nt_column::{Columns, CowSlice, WordSlice};
use nt_lists::Bytes;
use std::alloc::{AllocError, Global};

/// The number of an element; of a Switch its index.
pub fn number<C: Columns>(columns: &C, column: u32, i: u64) -> u64
    requires { i < length (C.Columns.elements columns.now column) }
    ensures { result ≡ number_at (C.Columns.elements columns.now column) i }
{
    columns.number(column, i)
}

/// The tag of an element.
pub fn tag<C: Columns>(columns: &C, column: u32, i: u64) -> u32
    requires { i < length (C.Columns.elements columns.now column) }
    ensures { result ≡ tag_at (C.Columns.elements columns.now column) i }
{
    columns.tag(column, i)
}

/// Where the part of an element begins.
pub fn begin<C: Columns>(columns: &C, ends: u32, i: u64) -> u64
    requires { i ≤ length (C.Columns.elements columns.now ends) }
    ensures { result ≡ begin_at (C.Columns.elements columns.now ends) i }
{
    if i == 0 {
        0
    } else {
        number(columns, ends, i - 1)
    }
}

/// The last end.
pub fn last<C: Columns>(columns: &C, ends: u32) -> u64
    ensures { result ≡ last_end (C.Columns.elements columns.now ends) }
{
    begin(columns, ends, columns.len(ends))
}

/// All elements of a column as they lie, where they lie together.
pub fn all_words<C: Columns>(columns: &C, column: u32) -> Option<WordSlice<'_>>
    ensures { IfSome result (λ w. lent_elements w ≡ C.Columns.elements columns.now column) }
{
    columns.words(column, 0, columns.len(column))
}

/// The bytes from one place to before another; bytes that are lent are copied once.
pub fn text<C: Columns>(
    alloc: Global,
    columns: &C,
    column: u32,
    from: u64,
    to: u64,
) -> Result<Bytes, AllocError>
    requires order { from ≤ to }
    requires within { to ≤ length (C.Columns.elements columns.now column) }
    ensures { IfOk result (λ b. b
        ≡ text_from (C.Columns.elements columns.now column) from (to - from)) }
{
    let bytes = match columns.text(alloc, column, from, to)? {
        CowSlice::Borrowed(bytes) => bytes.to_vec(alloc)?,
        CowSlice::Owned(bytes) => bytes,
    };
    Ok(Bytes::from_vec(bytes))
}
