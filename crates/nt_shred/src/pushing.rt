//! Elements that are added to a set of columns, which has room for them.

ghost use Rattle.std.specs.Prelude.{◌≡◌, ◌≢◌, ◌+◌, ◌<◌, ◌≤◌, ◌^◌, ℕ, [], ◌∷◌, length, map};
ghost use Rattle.nt_types.specs.ColumnTable.{bits_of};
ghost use Rattle.nt_types.specs.declared.column_type.ColumnType.TheVariants.{Switch};
ghost use Rattle.nt_column.specs.Column.{with_more};
ghost use Rattle.nt_column.specs.Elements.{plain};
ghost use Rattle.nt_trees.specs.Columns.{add_to};
ghost use Rattle.nt_trees.specs.Views.{cols_of};
ghost use Rattle.nt_shred.specs.Frame.{set_frame, IsPlain, IsEnds, IsTags, FitsIn, ends_below};
ghost use Rattle.nt_shred.specs.Steps.{GainsInRoom};

use nt_column::{ColumnBuf, ColumnSet};

/// Fewer bytes than this are added one by one.
const FEW: usize = 8;

/// Adds a number.
pub fn push(out: &mut ColumnSet, column: u32, value: u64)
    requires column { (bits : ℕ) × IsPlain (set_frame out.old) column bits × (value < 2 ^ bits) }
    requires room { FitsIn out.old (add_to column (plain value ∷ []) (cols_of out.old)) }
    ensures { GainsInRoom (add_to column (plain value ∷ [])) out.old out.new }
{
    out.buffer(column).push(value);
}

/// Adds a number to a column whose width the caller knows. Where it is a constant, no width is looked at.
#[inline(always)]
pub fn push_at_width(out: &mut ColumnSet, column: u32, bits: u8, value: u64)
    requires column { IsPlain (set_frame out.old) column bits × (value < 2 ^ bits) }
    requires room { FitsIn out.old (add_to column (plain value ∷ []) (cols_of out.old)) }
    ensures { GainsInRoom (add_to column (plain value ∷ [])) out.old out.new }
{
    out.buffer(column).push_at_width(bits, value);
}

/// Adds an end, which the ends of all columns can count.
pub fn push_end(out: &mut ColumnSet, column: u32, end: u64)
    requires column { IsEnds (set_frame out.old) column }
    requires end { end < ends_below (set_frame out.old) }
    requires room { FitsIn out.old (add_to column (plain end ∷ []) (cols_of out.old)) }
    ensures { GainsInRoom (add_to column (plain end ∷ [])) out.old out.new }
{
    out.buffer(column).push(end);
}

/// Adds an index and a tag.
pub fn push_tag(out: &mut ColumnSet, column: u32, index: u64, tag: u32)
    requires column { IsTags (set_frame out.old) column }
    requires room { FitsIn out.old (add_to column ((index, tag) ∷ []) (cols_of out.old)) }
    ensures { GainsInRoom (add_to column ((index, tag) ∷ [])) out.old out.new }
{
    out.buffer(column).push_switch(index, tag);
}

/// Adds bytes to a column at once. It stands apart, so that nothing is set up for it where few bytes are added.
#[inline(never)]
fn push_many(buffer: &mut ColumnBuf, bytes: &[u8])
    requires kind { bits_of buffer.old.column.kind ≡ 8 }
    requires stored { buffer.old.column.zeros ≡ 0 }
    requires spare { length bytes.now ≤ buffer.old.spare }
    ensures column { buffer.new.column ≡ with_more buffer.old.column (map plain bytes.now) }
    ensures spare { buffer.old.spare ≤ buffer.new.spare + length bytes.now }
{
    buffer.push_bytes(bytes);
}

/// Adds bytes to a column, a few of them one by one, which is quicker than a copy.
#[inline(always)]
fn push_all(buffer: &mut ColumnBuf, bytes: &[u8])
    requires kind { (bits_of buffer.old.column.kind ≡ 8) × (buffer.old.column.kind ≢ Switch) }
    requires stored { buffer.old.column.zeros ≡ 0 }
    requires spare { length bytes.now ≤ buffer.old.spare }
    ensures column { buffer.new.column ≡ with_more buffer.old.column (map plain bytes.now) }
    ensures spare { buffer.old.spare ≤ buffer.new.spare + length bytes.now }
{
    if bytes.len() >= FEW {
        push_many(buffer, bytes);
        return;
    }
    for byte in bytes {
        buffer.push_at_width(8, u64::from(*byte));
    }
}

/// Adds bytes.
#[inline(always)]
pub fn push_bytes(out: &mut ColumnSet, column: u32, bytes: &[u8])
    requires column { IsPlain (set_frame out.old) column 8 }
    requires room { FitsIn out.old (add_to column (map plain bytes.now) (cols_of out.old)) }
    ensures { GainsInRoom (add_to column (map plain bytes.now)) out.old out.new }
{
    push_all(out.buffer(column), bytes);
}
