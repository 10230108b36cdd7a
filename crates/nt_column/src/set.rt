//! The columns of a cluster, by id.

ghost use Rattle.std.specs.Prelude.{◌≡◌, ◌<◌, [], length, map, Some, slice_get, IfOk};
ghost use Rattle.std.specs.Borrow.{sem};
ghost use Rattle.nt_column.specs.Column.{empty, zeroed, changed, columns_of, elements_at};
ghost use Rattle.nt_column.specs.Lending.{LendsBuffer};

use crate::buffer::ColumnBuf;
use crate::columns::Columns;
use crate::cow::CowSlice;
use crate::words::WordSlice;
use nt_types::ColumnType;
use std::alloc::{AllocError, Global};
use std::marker::Model;

/// One buffer a column.
#[derive(Drop)]
pub struct ColumnSet {
    buffers: Vec<ColumnBuf>,
}

impl Model for ColumnSet {
    ghost use Rattle.std.specs.Prelude.{List};
    ghost use Rattle.nt_column.specs.Column.{Buffer};

    ghost Value = { List Buffer };

    ghost view = { λ s. s.buffers.items };
}

impl ColumnSet {
    /// A column without elements for each type.
    pub fn new(alloc: Global, kinds: &[ColumnType]) -> Result<ColumnSet, AllocError>
        ensures { IfOk result (λ s. columns_of s ≡ map empty kinds.now) }
    {
        let mut buffers = Vec::with_capacity(alloc, kinds.len())?;
        for kind in kinds {
            buffers.push(ColumnBuf::new(alloc, *kind))?;
        }
        Ok(ColumnSet { buffers })
    }

    /// The number of columns.
    pub fn columns(&self) -> usize
        ensures { result ≡ length self.now }
    {
        self.buffers.len()
    }

    /// A column's buffer, to read.
    pub fn column(&self, column: u32) -> &ColumnBuf
        requires { column < length self.now }
        ensures { slice_get self.now column ≡ Some result.now }
    {
        &self.buffers[column as usize]
    }

    /// A column's buffer, to fill.
    pub fn buffer(&mut self, column: u32) -> &mut ColumnBuf
        requires { column < length self.old }
        ensures* written { sem 𝓛 (LendsBuffer self.entry column result) }
        ensures value { slice_get self.old column ≡ Some result.now }
    {
        &mut self.buffers[column as usize]
    }

    /// Makes an empty column one of so many zeros, kept as their count. It isn't pushed to.
    pub fn zeros(&mut self, column: u32, count: u64)
        requires column { column < length self.old }
        requires empty { elements_at (columns_of self.old) column ≡ [] }
        ensures { columns_of self.new ≡ changed (λ c. zeroed c.kind count) column
            (columns_of self.old) }
    {
        self.buffer(column).zeros(count);
    }

    /// Takes all elements of all columns away, and keeps their memory.
    pub fn clear(&mut self)
        ensures { columns_of self.new ≡ map (λ c. empty c.kind) (columns_of self.old) }
    {
        for i in 0..self.buffers.len() {
            self.buffers[i].clear();
        }
    }

    /// Takes all elements of all columns away, and keeps their memory for pages.
    pub fn recycle(&mut self)
        ensures { columns_of self.new ≡ map (λ c. empty c.kind) (columns_of self.old) }
    {
        for i in 0..self.buffers.len() {
            self.buffers[i].recycle();
        }
    }
}

impl Columns for ColumnSet {
    ghost use Rattle.std.specs.Prelude.{◌≡◌, ◌≢◌, ◌<◌, ◌≤◌, length, Some, slice_get, IsTrue, IsSome, IfSome, IfOk, IsOkAnd};
    ghost use Rattle.std.specs.List.{slice_range};
    ghost use Rattle.nt_types.specs.ColumnTable.{bits_of};
    ghost use Rattle.nt_column.specs.Elements.{text_of};
    ghost use Rattle.nt_column.specs.Column.{Buffer, columns_of, elements_at, kind_at};
    ghost use Rattle.nt_column.specs.Cow.{cow_items, is_borrowed};
    ghost use Rattle.nt_types.specs.declared.column_type.ColumnType.TheVariants.{Switch};
    ghost use Rattle.nt_column.specs.Words.{lent_elements};

    ghost elements = { λ s k. elements_at (columns_of s) k };

    ghost kind = { λ s k. kind_at (columns_of s) k };

    fn in_range(&self) {
        for buffer in &self.buffers {
            buffer.in_range();
        }
    }

    #[inline(always)]
    fn len(&self, column: u32) -> u64 {
        if (column as usize) < self.columns() {
            self.column(column).len() as u64
        } else {
            0
        }
    }

    #[inline(always)]
    fn number(&self, column: u32, i: u64) -> u64 {
        self.column(column).number(i as usize)
    }

    fn tag(&self, column: u32, i: u64) -> u32 {
        self.column(column).tag(i as usize)
    }

    #[inline(always)]
    fn text(
        &self,
        alloc: Global,
        column: u32,
        from: u64,
        to: u64,
    ) -> Result<CowSlice<'_, u8>, AllocError>
        requires order { from ≤ to }
        requires within { to ≤ length (elements_at (columns_of self.now) column) }
        ensures text { IfOk result
            (λ t. cow_items t ≡ text_of
            (slice_range (elements_at (columns_of self.now) column) from to)) }
        // Nothing is copied of a column of 8 bits whose elements are stored.
        ensures lent { (b : Buffer) → slice_get self.now column ≡ Some b → bits_of b.column.kind ≡ 8
            → b.column.zeros ≡ 0 → IsOkAnd result (λ t. IsTrue (is_borrowed t)) }
    {
        if (column as usize) < self.columns() {
            self.column(column).text(alloc, from as usize, to as usize)
        } else {
            Ok(CowSlice::Owned(Vec::new(alloc)))
        }
    }

    #[inline(always)]
    fn words(&self, column: u32, from: u64, to: u64) -> Option<WordSlice<'_>>
        requires order { from ≤ to }
        requires within { to ≤ length (elements_at (columns_of self.now) column) }
        ensures words { IfSome result (λ w. lent_elements w
            ≡ slice_range (elements_at (columns_of self.now) column) from to) }
        // Each column is lent but a Switch and one that is kept as a count of zeros.
        ensures lent { (b : Buffer) → slice_get self.now column ≡ Some b → b.column.kind ≢ Switch
            → b.column.zeros ≡ 0 → IsSome result }
    {
        if (column as usize) < self.columns() {
            self.column(column).words(from as usize, to as usize)
        } else {
            None
        }
    }

    fn read(&self, column: u32, from: u64, out: &mut [u64]) -> usize {
        self.column(column).read(from as usize, out)
    }
}
