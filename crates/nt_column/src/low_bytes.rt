//! Texts of columns, lent or copied.

ghost use Rattle.std.specs.Prelude.{◌≡◌, ◌≤◌, length, IsTrue, IfOk, IsOkAnd};
ghost use Rattle.std.specs.List.{slice_range};
ghost use Rattle.nt_types.specs.ColumnTable.{bits_of};
ghost use Rattle.nt_column.specs.Cow.{cow_items, is_borrowed};
ghost use Rattle.nt_column.specs.Elements.{text_of};

use crate::buffer::ColumnBuf;
use crate::cow::{CowSlice, lent};
use crate::words::WordSlice;
use std::alloc::{AllocError, Global};

impl ColumnBuf {
    /// The low bytes of the elements from one place to before another. They are lent where the
    /// type has 8 bits and the elements aren't kept as a count.
    pub fn text(
        &self,
        alloc: Global,
        from: usize,
        to: usize,
    ) -> Result<CowSlice<'_, u8>, AllocError>
        requires order { from ≤ to }
        requires within { to ≤ length self.now.column.elements }
        ensures text { IfOk result
            (λ t. cow_items t ≡ text_of (slice_range self.now.column.elements from to)) }
        ensures lent { bits_of self.now.column.kind ≡ 8 → self.now.column.zeros ≡ 0
            → IsOkAnd result (λ t. IsTrue (is_borrowed t)) }
    {
        match self.words(from, to) {
            Some(WordSlice::Bytes(bytes)) => Ok(lent(bytes)),
            _ => Ok(CowSlice::Owned(low_bytes(self, alloc, from, to)?)),
        }
    }
}

/// A copy of the low bytes of the elements from one place to before another.
fn low_bytes(
    buffer: &ColumnBuf,
    alloc: Global,
    from: usize,
    to: usize,
) -> Result<Vec<u8>, AllocError>
    requires order { from ≤ to }
    requires within { to ≤ length buffer.now.column.elements }
    ensures { IfOk result
        (λ v. v.items ≡ text_of (slice_range buffer.now.column.elements from to)) }
{
    let mut bytes = Vec::with_capacity(alloc, to - from)?;
    for i in from..to {
        bytes.push((buffer.number(i) % 256) as u8)?;
    }
    Ok(bytes)
}
