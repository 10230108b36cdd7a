//! Numbers of a list, moved as they lie.

ghost use Rattle.std.specs.Prelude.{◌≡◌, ◌≤◌, ◌+◌, length, map, true, IsTrue, IfSome};
ghost use Rattle.nt_types.specs.Spelling.{is_width};
ghost use Rattle.nt_column.specs.Elements.{Element, plain};
ghost use Rattle.nt_column.specs.Column.{with_more};
ghost use Rattle.nt_column.specs.Words.{lent_elements, lent_width};
ghost use Rattle.nt_plans.specs.Plan.{number};
ghost use Rattle.nt_plans.specs.PlanViews.{plan_view};
ghost use Rattle.nt_trees.specs.Columns.{add_to};
ghost use Rattle.nt_trees.specs.Views.{cols_of};
ghost use Rattle.nt_join.specs.Readable.{ReadableTo};
ghost use Rattle.nt_shred.specs.Frame.{set_frame, IsPlain, FitsIn};
ghost use Rattle.nt_shred.specs.Steps.{GainsInRoom};
ghost use Rattle.nt_shred.specs.Places.{TakesIntegers};
ghost use Rattle.nt_moving.specs.Runs.{AllHaveBits, IsLentRun};

use crate::level::Items;
use core::mem::replace_with;
use nt_column::{ColumnBuf, ColumnSet, Columns, WordSlice};
use nt_plans::Plan;
use nt_shred::pushing::push_bytes;

/// A number of some width.
pub trait Word: Copy {
    /// The number as an element.
    ghost element: { Self → Element };

    /// The number.
    fn number(self) -> u64
        ensures { element self ≡ plain result };
}

impl Word for u16 {
    ghost element = { plain };

    fn number(self) -> u64 {
        u64::from(self)
    }
}

impl Word for u32 {
    ghost element = { plain };

    fn number(self) -> u64 {
        u64::from(self)
    }
}

impl Word for u64 {
    ghost element = { plain };

    fn number(self) -> u64 {
        self
    }
}

/// Bytes have 8 bits. It is a law, and does nothing, as those below.
pub fn bytes_fit(list: &[u8])
    ensures { AllHaveBits 8 (map plain list.now) }
{}

/// Words of 16 bits.
fn words_16_fit(list: &[u16])
    ensures { AllHaveBits 16 (map plain list.now) }
{}

/// Words of 32 bits.
fn words_32_fit(list: &[u32])
    ensures { AllHaveBits 32 (map plain list.now) }
{}

/// Words of 64 bits.
fn words_64_fit(list: &[u64])
    ensures { AllHaveBits 64 (map plain list.now) }
{}

/// Whether numbers lie at this width, which they have all.
#[inline(always)]
fn has_width(words: WordSlice<'_>, bits: u8) -> bool
    ensures { IsTrue result → (lent_width words.entry ≡ bits) × (is_width bits ≡ true)
        × AllHaveBits bits (lent_elements words.entry) }
{
    match words {
        WordSlice::Bits(_) => false,
        WordSlice::Bytes(list) => {
            bytes_fit(list);
            bits == 8
        }
        WordSlice::Words16(list) => {
            words_16_fit(list);
            bits == 16
        }
        WordSlice::Words32(list) => {
            words_32_fit(list);
            bits == 32
        }
        WordSlice::Words64(list) => {
            words_64_fit(list);
            bits == 64
        }
    }
}

/// The column with these numbers behind it. It is held by value, so that its place is kept in registers.
#[inline(always)]
fn pushed<W: Word>(column: ColumnBuf, words: (u8, &[W])) -> (ColumnBuf, ())
    requires takes { TakesIntegers words.0 (length words.1.now) column }
    requires fit { AllHaveBits words.0 (map W.element words.1.now) }
    ensures column { result.0.column ≡ with_more column.column (map W.element words.entry.1.now) }
    ensures spare { column.spare ≤ result.0.spare + length words.entry.1.now }
{
    let (bits, list) = words;
    let mut longer = column;
    for word in list {
        longer.push_at_width(bits, word.number());
    }
    (longer, ())
}

/// Adds numbers to their column.
#[inline(always)]
fn append<W: Word>(column: &mut ColumnBuf, bits: u8, words: &[W])
    requires takes { TakesIntegers bits (length words.now) column.old }
    requires fit { AllHaveBits bits (map W.element words.now) }
    ensures column { column.new.column ≡ with_more column.old.column (map W.element words.now) }
    ensures spare { column.old.spare ≤ column.new.spare + length words.now }
{
    replace_with(column, (bits, words), pushed);
}

/// Adds numbers to a column of their width.
#[inline(never)]
fn push_run<W: Word>(out: &mut ColumnSet, column: u32, bits: u8, words: &[W])
    requires column { IsPlain (set_frame out.old) column bits × (is_width bits ≡ true) }
    requires fit { AllHaveBits bits (map W.element words.now) }
    requires room { FitsIn out.old (add_to column (map W.element words.now) (cols_of out.old)) }
    ensures { GainsInRoom (add_to column (map W.element words.now)) out.old out.new }
{
    append(out.buffer(column), bits, words);
}

/// Adds numbers to a column of their width, whichever it is.
#[inline(always)]
pub fn push_words(out: &mut ColumnSet, column: u32, words: WordSlice<'_>)
    requires column { IsPlain (set_frame out.old) column (lent_width words) }
    requires width { is_width (lent_width words) ≡ true }
    requires fit { AllHaveBits (lent_width words) (lent_elements words) }
    requires room { FitsIn out.old (add_to column (lent_elements words) (cols_of out.old)) }
    ensures { GainsInRoom (add_to column (lent_elements words.entry)) out.old out.new }
{
    match words {
        WordSlice::Bits(_) => unreachable!(),
        WordSlice::Bytes(list) => push_bytes(out, column, list),
        WordSlice::Words16(list) => push_run(out, column, 16, list),
        WordSlice::Words32(list) => push_run(out, column, 32, list),
        WordSlice::Words64(list) => push_run(out, column, 64, list),
    }
}

/// Numbers as they lie, and the column that takes them.
#[derive(Clone, Copy)]
pub struct Run<'a> {
    pub column: u32,
    pub words: WordSlice<'a>,
}

/// The numbers of items, if they lie together and are elements of a plan as they are.
#[inline(always)]
pub fn run_of<'a, C: Columns>(to: &Plan, columns: &'a C, items: Items<'_>) -> Option<Run<'a>>
    requires order { items.from ≤ items.to }
    requires readable { ReadableTo (plan_view items.of.now) (C.Columns.elements columns.now) items.to }
    ensures { IfSome result (λ r. IsLentRun (plan_view to.now) (plan_view items.entry.of.now)
        (C.Columns.elements columns.now) items.entry.from items.entry.to r.column r.words) }
{
    match to {
        Plan::Number {
            column,
            bits,
            signed,
        } => {
            let source = column_of(items.of, *bits, *signed)?;
            let words = columns.words(source, items.from, items.to)?;
            if has_width(words, *bits) {
                Some(Run {
                    column: *column,
                    words,
                })
            } else {
                None
            }
        }
        _ => None,
    }
}

/// The column of a plan of integers of this width and sign.
#[inline(always)]
fn column_of(plan: &Plan, width: u8, sign: bool) -> Option<u32>
    ensures { IfSome result (λ k. plan_view plan.now ≡ number k width sign) }
{
    match plan {
        Plan::Number {
            column,
            bits,
            signed,
        } if *bits == width && *signed == sign => Some(*column),
        _ => None,
    }
}
