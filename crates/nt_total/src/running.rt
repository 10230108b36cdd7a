//! What the numbers of a column came to so far.

ghost use Rattle.std.specs.Prelude.{◌≡◌, ◌≤◌, ◌^◌, ℕ, List, [], map, length};
ghost use Rattle.nt_column.specs.Elements.{Element, numbers, AreElementsOf};
ghost use Rattle.nt_total.specs.Running.{IsSoFar, IsAdded};
ghost use Rattle.nt_total.specs.Totals.{low_of, integer_in, IsTotalOf};

use crate::parallel::keys_in_parallel;
use crate::piece::Piece;
use crate::total::{Total, low_of, total_of_piece};
use nt_column::Columns;
use nt_types::ColumnType;
use std::thread::Threads;

/// How many numbers there were so far, in 64 bits, and what their keys come to.
#[derive(Clone, Copy)]
pub struct Running {
    pub count: u64,
    pub piece: Piece,
}

impl Running {
    /// No numbers.
    pub fn none() -> Running
        ensures { (bias : ℕ) → IsSoFar [] bias result }
    {
        Running {
            count: 0,
            piece: Piece::none(),
        }
    }

    /// The numbers of a column more, whose elements are of a type.
    pub fn with_column<C: Columns>(
        self,
        rt: &(impl Threads + Sync),
        columns: &C,
        column: u32,
        kind: ColumnType,
    ) -> Running
        ensures { IsAdded (numbers (C.elements columns.now column)) (low_of kind) self result }
    {
        let piece = keys_in_parallel(rt, columns, column, low_of(kind));
        Running {
            count: self.count.wrapping_add(columns.len(column)),
            piece: self.piece.join(piece),
        }
    }

    /// The total of the integers, of which there are at most 2^60.
    pub fn total(self, kind: ColumnType) -> Total
        ensures { (es : List Element) → IsSoFar (numbers es) (low_of kind) self → AreElementsOf kind es
            → length es ≤ 2 ^ 60 → IsTotalOf (map (integer_in kind) (numbers es)) result }
    {
        total_of_piece(self.count, self.piece, low_of(kind))
    }
}
