//! Columns that are read.

ghost use Rattle.std.specs.Prelude.{◌≡◌, ◌<◌, ◌≤◌, ◌+◌, ℕ, List, length, take, slice_index, IfSome, IfOk, Option, Some};
ghost use Rattle.nt_types.specs.declared.column_type.ColumnType.{ColumnType};
ghost use Rattle.std.specs.List.{slice_range};
ghost use Rattle.nt_column.specs.Elements.{Element, numbers, tags, text_of, AreElementsOf};
ghost use Rattle.nt_column.specs.Cow.{cow_items};
ghost use Rattle.nt_column.specs.Words.{lent_elements};

use crate::cow::CowSlice;
use crate::words::WordSlice;
use std::alloc::{AllocError, Global};

/// The elements of columns, by the column's id and the element's place, both from 0. Threads may
/// share them.
pub trait Columns: Sync {
    ghost elements: { Self → ℕ → List Element };

    /// The type of a column; none of a column that isn't there.
    ghost kind: { Self → ℕ → Option ColumnType };

    /// Each element of a column is one of the column's type.
    fn in_range(&self)
        ensures { (k : ℕ) (t : ColumnType) → kind self.now k ≡ Some t
            → AreElementsOf t (elements self.now k) };

    /// The number of a column's elements; 0 of a column that isn't there.
    fn len(&self, column: u32) -> u64
        ensures { result ≡ length (elements self.now column) };

    /// An element; of a Switch its index.
    fn number(&self, column: u32, i: u64) -> u64
        requires { i < length (elements self.now column) }
        ensures { result ≡ slice_index (numbers (elements self.now column)) i };

    /// The tag of a Switch's element; 0 in any other column.
    fn tag(&self, column: u32, i: u64) -> u32
        requires { i < length (elements self.now column) }
        ensures { result ≡ slice_index (tags (elements self.now column)) i };

    /// The low bytes of the elements from one place to before another: of a column of 8 bits its
    /// elements.
    fn text(
        &self,
        alloc: Global,
        column: u32,
        from: u64,
        to: u64,
    ) -> Result<CowSlice<'_, u8>, AllocError>
        requires order { from ≤ to }
        requires within { to ≤ length (elements self.now column) }
        ensures text { IfOk result
            (λ t. cow_items t ≡ text_of (slice_range (elements self.now column) from to)) };

    /// The elements from one place to before another as they lie, where they lie together as numbers of
    /// one width.
    fn words(&self, column: u32, from: u64, to: u64) -> Option<WordSlice<'_>>
        requires order { from ≤ to }
        requires within { to ≤ length (elements self.now column) }
        ensures words { IfSome result
            (λ w. lent_elements w ≡ slice_range (elements self.now column) from to) };

    /// Reads the numbers from a place on into `out`, and gives how many: at least one, and no more than
    /// there is room for and than the column has. Whoever wants more asks again behind them.
    fn read(&self, column: u32, from: u64, out: &mut [u64]) -> usize
        requires within { from < length (elements self.now column) }
        requires room { 0 < length out.old }
        ensures some { (0 < result) × (result ≤ length out.new) × (length out.new ≡ length out.old) }
        ensures within { from + result ≤ length (elements self.now column) }
        ensures read { take result out.new
            ≡ slice_range (numbers (elements self.now column)) from (from + result) };
}
