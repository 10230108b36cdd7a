//! Lists of numbers that don't lie together: they are read a block at a time.

ghost use Rattle.std.specs.Prelude.{◌≡◌, ◌≤◌, ◌∷◌, ◌++◌, ℕ, ℤ, List, length, map, take, OnOk};
ghost use Rattle.std.specs.List.{slice_range};
ghost use Rattle.nt_column.specs.Elements.{numbers};
ghost use Rattle.nt_event.specs.Json.{line_of};
ghost use Rattle.nt_trees.specs.Integers.{integer_of};
ghost use Rattle.nt_print.specs.Integers.{integer_trees, integers_text};

use crate::leaves::put_end;
use crate::lists::put_integers;
use nt_column::Columns;
use std::alloc::AllocError;

/// So many numbers are read at once.
const BLOCK: u64 = 32;

/// Room for them.
fn empty_block() -> [u64; 32] {
    [0; 32]
}

/// Appends the integers that a part of a column stands for, in a width and with a sign or without, a mark in
/// front of the first, and commas.
#[inline(never)]
pub fn put_read_run<C: Columns>(
    columns: &C,
    column: u32,
    form: (u8, bool),
    part: (u64, u64),
    mark: u8,
    out: &mut Vec<u8>,
) -> Result<(), AllocError>
    requires order { part.0 ≤ part.1 }
    requires within { part.1 ≤ length (C.Columns.elements columns.now column) }
    ensures ok { OnOk result (out.new.items ≡ out.old.items ++ integers_text mark (map (integer_of form.0 form.1)
        (numbers (slice_range (C.Columns.elements columns.now column) part.0 part.1)))) }
    ensures kept { take (length out.old.items) out.new.items ≡ out.old.items }
{
    let (bits, signed) = form;
    let (from, to) = part;
    let mut block = empty_block();
    let mut next = mark;
    let mut at = from;
    while at < to {
        let most = (to - at).min(BLOCK) as usize;
        let count = columns.read(column, at, &mut block[..most]);
        put_integers(next, &block[..count], bits, signed, out)?;
        next = b',';
        at += count as u64;
    }
    Ok(())
}

/// Appends a mark, and then the array of the integers that a part of a column stands for, in a width and
/// with a sign or without.
#[inline(never)]
pub fn put_read<C: Columns>(
    columns: &C,
    column: u32,
    form: (u8, bool),
    part: (u64, u64),
    mark: u8,
    out: &mut Vec<u8>,
) -> Result<(), AllocError>
    requires order { part.0 ≤ part.1 }
    requires within { part.1 ≤ length (C.Columns.elements columns.now column) }
    ensures ok { OnOk result (out.new.items ≡ out.old.items ++ mark ∷ line_of (integer_trees form.0 form.1
        (numbers (slice_range (C.Columns.elements columns.now column) part.0 part.1)))) }
    ensures kept { take (length out.old.items) out.new.items ≡ out.old.items }
{
    out.push(mark)?;
    put_read_run(columns, column, form, part, b'[', out)?;
    put_end(part.0 < part.1, out)?;
    Ok(())
}
