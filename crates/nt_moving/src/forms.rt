//! What a level of a known form holds.

ghost use Rattle.std.specs.Prelude.{◌≡◌, ℕ, ℤ, Bool, true, MatchOption};
ghost use Rattle.nt_types.specs.TreeData.{TreeData, TreesData, is_nothing};
ghost use Rattle.nt_types.specs.Fits.{fits_flag, fits_number, fits_text, fits_items, fits_parts, fits_pick};
ghost use Rattle.nt_trees.specs.Columns.{Cols};
ghost use Rattle.nt_moving.specs.declared.level.Level.TheVariants.{Nothing, Flag, Number, Text, List, Record, Choice};
ghost use Rattle.nt_moving.specs.Levels.{level_tree};

use crate::level::{Integer, Items, Level, Parts, Pick, Span};

/// The truth value.
#[inline(always)]
pub fn flag_in(level: Level<'_>) -> bool
    requires { (cols : Cols) × (fits_flag (level_tree level cols) ≡ true) }
    ensures { level.entry ≡ Flag result }
{
    match level {
        Level::Flag(value) => value,
        _ => unreachable!(),
    }
}

/// The element of an integer.
#[inline(always)]
pub fn integer_in(level: Level<'_>) -> Integer
    requires { (cols : Cols) × (f : ℤ → Bool) × (fits_number f (level_tree level cols) ≡ true) }
    ensures { level.entry ≡ Number result }
{
    match level {
        Level::Number(value) => value,
        _ => unreachable!(),
    }
}

/// The bytes of the text.
#[inline(always)]
pub fn text_in(level: Level<'_>) -> Span
    requires { (cols : Cols) × (fits_text (level_tree level cols) ≡ true) }
    ensures { level.entry ≡ Text result }
{
    match level {
        Level::Text(span) => span,
        _ => unreachable!(),
    }
}

/// The items of the list.
#[inline(always)]
pub fn items_in(level: Level<'_>) -> Items<'_>
    requires { (cols : Cols) × (f : TreesData → Bool) × (fits_items f (level_tree level cols) ≡ true) }
    ensures { level.entry ≡ List result }
{
    match level {
        Level::List(items) => items,
        _ => unreachable!(),
    }
}

/// The parts of the record.
#[inline(always)]
pub fn parts_in(level: Level<'_>) -> Parts<'_>
    requires { (cols : Cols) × (f : TreesData → Bool) × (fits_parts f (level_tree level cols) ≡ true) }
    ensures { level.entry ≡ Record result }
{
    match level {
        Level::Record(parts) => parts,
        _ => unreachable!(),
    }
}

/// Whether it is no value.
#[inline(always)]
pub fn is_nothing(level: Level<'_>) -> bool
    ensures { (cols : Cols) → result ≡ is_nothing (level_tree level.entry cols) }
{
    matches!(level, Level::Nothing)
}

/// The alternative that was picked, or none.
#[inline(always)]
pub fn pick_in(level: Level<'_>) -> Option<Pick<'_>>
    requires { (cols : Cols) × (f : ℕ → TreeData → Bool) × (fits_pick f (level_tree level cols) ≡ true) }
    ensures { MatchOption result (level.entry ≡ Nothing) (λ p. level.entry ≡ Choice p) }
{
    match level {
        Level::Nothing => None,
        Level::Choice(pick) => Some(pick),
        _ => unreachable!(),
    }
}
