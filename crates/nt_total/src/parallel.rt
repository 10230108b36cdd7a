//! Blocks of numbers, read and totalled by several threads.

ghost use Rattle.std.specs.Prelude.{◌≡◌, ◌+◌, ◌*◌, ◌<◌, ◌≤◌, ◌^◌, [], map, length, IfSome};
ghost use Rattle.std.specs.List.{slice_range};
ghost use Rattle.nt_lists.specs.Chunks.{chunk};
ghost use Rattle.nt_column.specs.Elements.{numbers};
ghost use Rattle.nt_total.specs.Keys.{key, IsPieceOf, IsJoinOf};

use crate::lent::lent_piece;
use crate::piece::{Piece, piece_of};
use nt_column::Columns;
use rayon::prelude::*;
use std::thread::Threads;

/// How many numbers are read at once.
const BLOCK: usize = 512;

/// How many blocks are worth a thread of their own.
const LEAST_BLOCKS: usize = 256;

/// Where a block is read to.
fn empty_block() -> [u64; BLOCK] {
    [0; BLOCK]
}

/// Reads numbers from a place on, up to the end of their page and of the room; how many they are, and what their keys come to.
fn some_piece<C: Columns>(
    columns: &C,
    column: u32,
    bias: u64,
    from: u64,
    room: &mut [u64],
) -> (usize, Piece)
    requires bias { bias ≤ 2 ^ 63 }
    requires room { (from < length (C.elements columns.now column)) × (0 < length room.old) × (length room.old ≤ 512) }
    ensures some { (0 < result.0) × (result.0 ≤ length room.old) }
    ensures within { from + result.0 ≤ length (C.elements columns.now column) }
    ensures piece { IsPieceOf
        (map (key bias) (slice_range (numbers (C.elements columns.now column)) from (from + result.0))) result.1 }
{
    let some = columns.read(column, from, room);
    (some, piece_of(&room[..some], bias))
}

/// What the keys of the numbers from one place to before another come to, which are so few that they are a block. They are read page
/// by page.
fn read_piece<C: Columns>(columns: &C, column: u32, bias: u64, from: u64, to: u64) -> Piece
    requires bias { bias ≤ 2 ^ 63 }
    requires block { (from ≤ to) × (to ≤ from + 512) }
    requires within { to ≤ length (C.elements columns.now column) }
    ensures { IsPieceOf (map (key bias) (slice_range (numbers (C.elements columns.now column)) from to)) result }
{
    let count = (to - from) as usize;
    let mut room = empty_block();
    let mut whole = Piece::none();
    let mut done = 0;
    while done < count {
        let at = from + done as u64;
        let (some, piece) = some_piece(columns, column, bias, at, &mut room[done..count]);
        whole = whole.join(piece);
        done += some;
    }
    whole
}

/// The same, where the column lends these numbers as they lie.
fn lent_part<C: Columns>(columns: &C, column: u32, bias: u64, from: u64, to: u64) -> Option<Piece>
    requires bias { bias ≤ 2 ^ 63 }
    requires block { (from ≤ to) × (to ≤ from + 512) }
    requires within { to ≤ length (C.elements columns.now column) }
    ensures { IfSome result (λ p. IsPieceOf
        (map (key bias) (slice_range (numbers (C.elements columns.now column)) from to)) p) }
{
    lent_piece(columns.words(column, from, to)?, bias)
}

/// What the keys of a block come to. Only numbers that the column doesn't lend are copied.
fn block_piece<C: Columns>(columns: &C, column: u32, bias: u64, b: usize) -> Piece
    requires bias { bias ≤ 2 ^ 63 }
    requires within { b * 512 < length (C.elements columns.now column) }
    ensures { IsPieceOf (map (key bias) (chunk 512 (numbers (C.elements columns.now column)) b)) result }
{
    let len = columns.len(column);
    let from = b as u64 * BLOCK as u64;
    let to = from + (len - from).min(BLOCK as u64);
    match lent_part(columns, column, bias, from, to) {
        Some(piece) => piece,
        None => read_piece(columns, column, bias, from, to),
    }
}

/// What the keys of all numbers of a column come to, in as many threads as there are processors.
pub fn keys_in_parallel<C: Columns>(
    rt: &(impl Threads + Sync),
    columns: &C,
    column: u32,
    bias: u64,
) -> Piece
    requires { bias ≤ 2 ^ 63 }
    ensures { IsPieceOf (map (key bias) (numbers (C.elements columns.now column))) result }
{
    let blocks = columns.len(column).div_ceil(BLOCK as u64) as usize;
    (0..blocks)
        .into_par_iter()
        .with_min_len(LEAST_BLOCKS)
        .map(
            |b: usize| -> Piece
                requires { (bias ≤ 2 ^ 63) × (b * 512 < length (C.elements columns.now column)) }
                ensures { IsPieceOf (map (key bias)
                    (chunk 512 (numbers (C.elements columns.entry.now column)) b)) result }
            { block_piece(columns, column, bias, b) },
        )
        .reduce(
            rt,
            || -> Piece
                ensures { IsPieceOf [] result }
            { Piece::none() },
            |a: Piece, b: Piece| -> Piece
                ensures { IsJoinOf a b result }
            { a.join(b) },
        )
}
