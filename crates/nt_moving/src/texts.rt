//! Bytes of a text.

ghost use Rattle.std.specs.Prelude.{◌≡◌, ◌≤◌, ◌-◌, length, map};
ghost use Rattle.nt_column.specs.Elements.{plain};
ghost use Rattle.nt_plans.specs.Plan.{text};
ghost use Rattle.nt_trees.specs.Columns.{add_to};
ghost use Rattle.nt_trees.specs.Put.{put_tree};
ghost use Rattle.nt_trees.specs.TreeAt.{text_from};
ghost use Rattle.nt_trees.specs.Views.{cols_of};
ghost use Rattle.nt_shred.specs.Frame.{set_frame, IsPlain, FitsIn};
ghost use Rattle.nt_shred.specs.Steps.{Ready, GainsInRoom};
ghost use Rattle.nt_moving.specs.declared.level.Level.TheVariants.{Text};
ghost use Rattle.nt_moving.specs.Levels.{level_tree, CanBeRead};

use crate::level::Span;
use crate::words::bytes_fit;
use nt_column::{ColumnSet, Columns, WordSlice};
use nt_join::reading::number;
use nt_shred::pushing::{push_at_width, push_bytes, push_end};

/// Adds a text, and its end.
pub fn move_text<C: Columns>(out: &mut ColumnSet, ends: u32, bytes: u32, columns: &C, span: Span)
    requires inside { CanBeRead (Text span) (C.Columns.elements columns.now) }
    requires ready { Ready (text ends bytes) (level_tree (Text span) (C.Columns.elements columns.now)) out.old }
    ensures { GainsInRoom (put_tree (text ends bytes) (level_tree (Text span) (C.Columns.elements columns.now)))
        out.old out.new }
{
    move_bytes(out, bytes, columns, span);
    let end = out.len(bytes);
    push_end(out, ends, end);
}

/// Adds the bytes of a text: as they lie, where they lie together.
fn move_bytes<C: Columns>(out: &mut ColumnSet, column: u32, columns: &C, text: Span)
    requires order { text.from ≤ text.to }
    requires within { text.to ≤ length (C.Columns.elements columns.now text.column) }
    requires column { IsPlain (set_frame out.old) column 8 }
    requires room { FitsIn out.old (add_to column (map plain
        (text_from (C.Columns.elements columns.now text.column) text.from (text.to - text.from))) (cols_of out.old)) }
    ensures { GainsInRoom (add_to column (map plain
        (text_from (C.Columns.elements columns.now text.column) text.from (text.to - text.from)))) out.old out.new }
{
    if let Some(WordSlice::Bytes(bytes)) = columns.words(text.column, text.from, text.to) {
        bytes_fit(bytes);
        push_bytes(out, column, bytes);
    } else {
        move_each_byte(out, column, columns, text);
    }
}

/// The same, a byte at a time.
#[inline(never)]
fn move_each_byte<C: Columns>(out: &mut ColumnSet, column: u32, columns: &C, text: Span)
    requires order { text.from ≤ text.to }
    requires within { text.to ≤ length (C.Columns.elements columns.now text.column) }
    requires column { IsPlain (set_frame out.old) column 8 }
    requires room { FitsIn out.old (add_to column (map plain
        (text_from (C.Columns.elements columns.now text.column) text.from (text.to - text.from))) (cols_of out.old)) }
    ensures { GainsInRoom (add_to column (map plain
        (text_from (C.Columns.elements columns.now text.column) text.from (text.to - text.from)))) out.old out.new }
{
    for i in text.from..text.to {
        push_at_width(out, column, 8, number(columns, text.column, i) % 256);
    }
}
