//! Integers that stand next to each other in a column.

ghost use Rattle.std.specs.Prelude.{◌≡◌, ◌≤◌, ◌∷◌, ◌++◌, ℕ, List, length, map, take, OnOk, IfSome};
ghost use Rattle.std.specs.List.{slice_range};
ghost use Rattle.nt_column.specs.Elements.{numbers};
ghost use Rattle.nt_column.specs.Words.{lent_elements};
ghost use Rattle.nt_event.specs.Json.{line_of};
ghost use Rattle.nt_plans.specs.Plan.{number};
ghost use Rattle.nt_plans.specs.PlanViews.{plan_view};
ghost use Rattle.nt_trees.specs.Integers.{integer_of};
ghost use Rattle.nt_print.specs.Integers.{integer_trees, integers_text};

use crate::lists::{put_integers, put_lent};
use crate::reading::{put_read, put_read_run};
use crate::words::Word;
use nt_column::{Columns, WordSlice};
use nt_plans::Plan;
use std::alloc::AllocError;

/// The column of integers, their width and their sign.
#[derive(Clone, Copy)]
pub struct Integers {
    pub column: u32,
    pub bits: u8,
    pub signed: bool,
}

/// The column of a plan of integers.
#[inline(always)]
pub fn integers_of(plan: &Plan) -> Option<Integers>
    ensures { IfSome result (λ r. plan_view plan.now ≡ number r.column r.bits r.signed) }
{
    match plan {
        Plan::Number {
            column,
            bits,
            signed,
        } => Some(Integers {
            column: *column,
            bits: *bits,
            signed: *signed,
        }),
        _ => None,
    }
}

/// Appends a mark, and then the array of the integers from one place to before another.
#[inline(always)]
pub fn put_list<C: Columns>(
    columns: &C,
    of: Integers,
    part: (u64, u64),
    mark: u8,
    out: &mut Vec<u8>,
) -> Result<(), AllocError>
    requires order { part.0 ≤ part.1 }
    requires within { part.1 ≤ length (C.Columns.elements columns.now of.column) }
    ensures ok { OnOk result (out.new.items ≡ out.old.items ++ mark ∷ line_of (integer_trees of.bits of.signed
        (numbers (slice_range (C.Columns.elements columns.now of.column) part.0 part.1)))) }
    ensures kept { take (length out.old.items) out.new.items ≡ out.old.items }
{
    if let Some(words) = columns.words(of.column, part.0, part.1) {
        return put_lent(mark, words, of.bits, of.signed, out);
    }
    put_read(columns, of.column, (of.bits, of.signed), part, mark, out)
}

/// Appends the integers that words stand for, a mark in front of the first, and commas.
#[inline(never)]
fn put_words_run<W: Word>(
    mark: u8,
    words: &[W],
    bits: u8,
    signed: bool,
    out: &mut Vec<u8>,
) -> Result<(), AllocError>
    ensures ok { OnOk result (out.new.items ≡ out.old.items
        ++ integers_text mark (map (integer_of bits signed) (map W.number words.now))) }
    ensures kept { take (length out.old.items) out.new.items ≡ out.old.items }
{
    put_integers(mark, words, bits, signed, out)
}

/// Appends the integers that elements stand for, a mark in front of the first, and commas.
fn put_lent_run(
    mark: u8,
    words: WordSlice<'_>,
    bits: u8,
    signed: bool,
    out: &mut Vec<u8>,
) -> Result<(), AllocError>
    ensures ok { OnOk result (out.new.items ≡ out.old.items
        ++ integers_text mark (map (integer_of bits signed) (numbers (lent_elements words.entry)))) }
    ensures kept { take (length out.old.items) out.new.items ≡ out.old.items }
{
    match words {
        WordSlice::Bits(list) => put_words_run(mark, list, bits, signed, out),
        WordSlice::Bytes(list) => put_words_run(mark, list, bits, signed, out),
        WordSlice::Words16(list) => put_words_run(mark, list, bits, signed, out),
        WordSlice::Words32(list) => put_words_run(mark, list, bits, signed, out),
        WordSlice::Words64(list) => put_words_run(mark, list, bits, signed, out),
    }
}

/// Appends the integers from one place to before another, a mark in front of the first, and commas.
pub fn put_run<C: Columns>(
    columns: &C,
    of: Integers,
    part: (u64, u64),
    mark: u8,
    out: &mut Vec<u8>,
) -> Result<(), AllocError>
    requires order { part.0 ≤ part.1 }
    requires within { part.1 ≤ length (C.Columns.elements columns.now of.column) }
    ensures ok { OnOk result (out.new.items ≡ out.old.items ++ integers_text mark (map (integer_of of.bits of.signed)
        (numbers (slice_range (C.Columns.elements columns.now of.column) part.0 part.1)))) }
    ensures kept { take (length out.old.items) out.new.items ≡ out.old.items }
{
    if let Some(words) = columns.words(of.column, part.0, part.1) {
        return put_lent_run(mark, words, of.bits, of.signed, out);
    }
    put_read_run(columns, of.column, (of.bits, of.signed), part, mark, out)
}
