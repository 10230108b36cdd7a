//! Values that are read from the words which columns lend: the columns are looked up once for many entries.

ghost use Rattle.std.specs.Prelude.{◌≡◌, length, map, IfSome, IfOk};
ghost use Rattle.nt_column.specs.Elements.{plain};
ghost use Rattle.nt_column.specs.Words.{lent_elements};
ghost use Rattle.nt_plans.specs.Plan.{number, maybe, list, text};
ghost use Rattle.nt_plans.specs.PlanViews.{plan_view};
ghost use Rattle.nt_lines.specs.Lent.{IsLentAs, AreLentAs};

use nt_column::{Columns, WordSlice};
use nt_plans::Plan;
use nt_print::{Integers, integers_of};
use std::alloc::{AllocError, Global};

/// The words that the values of a plan are read from: numbers, with their width and whether they have a sign; optional ones or lists of
/// such, by their ends; lists of optional ones, by the ends of the lists and those of the numbers; or texts, by their ends.
#[derive(Clone, Copy)]
pub enum Lent<'a> {
    Numbers32(&'a [u32], u8, bool),
    Numbers64(&'a [u64], u8, bool),
    Options32(&'a [u64], &'a [u32], u8, bool),
    Options64(&'a [u64], &'a [u64], u8, bool),
    Lists32(&'a [u64], &'a [u32], u8, bool),
    Lists64(&'a [u64], &'a [u64], u8, bool),
    OptionLists32(&'a [u64], &'a [u64], &'a [u32], u8, bool),
    OptionLists64(&'a [u64], &'a [u64], &'a [u64], u8, bool),
    Texts(&'a [u64], &'a [u8]),
    /// The columns are looked up for each value.
    Nothing,
}

/// A plan, and what its columns lend.
#[derive(Clone, Copy)]
pub struct LentPlan<'a> {
    pub plan: &'a Plan,
    pub lent: Lent<'a>,
}

/// All elements of a column as they lie, where they lie together.
fn all_words<C: Columns>(columns: &C, column: u32) -> Option<WordSlice<'_>>
    ensures { IfSome result (λ w. lent_elements w ≡ C.Columns.elements columns.now column) }
{
    columns.words(column, 0, columns.len(column))
}

/// What a column of numbers lends.
fn numbers_of<C: Columns>(columns: &C, of: Integers) -> Lent<'_>
    ensures { IsLentAs (number of.column of.bits of.signed) (C.Columns.elements columns.now) result }
{
    match all_words(columns, of.column) {
        Some(WordSlice::Words32(words)) => Lent::Numbers32(words, of.bits, of.signed),
        Some(WordSlice::Words64(words)) => Lent::Numbers64(words, of.bits, of.signed),
        _ => Lent::Nothing,
    }
}

/// What the columns of optional numbers lend.
fn options_of<C: Columns>(columns: &C, ends: u32, of: Integers) -> Lent<'_>
    ensures { IsLentAs (maybe ends (number of.column of.bits of.signed)) (C.Columns.elements columns.now) result }
{
    let Some(WordSlice::Words64(ends)) = all_words(columns, ends) else {
        return Lent::Nothing;
    };
    match all_words(columns, of.column) {
        Some(WordSlice::Words32(words)) => Lent::Options32(ends, words, of.bits, of.signed),
        Some(WordSlice::Words64(words)) => Lent::Options64(ends, words, of.bits, of.signed),
        _ => Lent::Nothing,
    }
}

/// What the columns of lists of numbers lend.
fn lists_of<C: Columns>(columns: &C, ends: u32, of: Integers) -> Lent<'_>
    ensures { IsLentAs (list ends (number of.column of.bits of.signed)) (C.Columns.elements columns.now) result }
{
    let Some(WordSlice::Words64(ends)) = all_words(columns, ends) else {
        return Lent::Nothing;
    };
    match all_words(columns, of.column) {
        Some(WordSlice::Words32(words)) => Lent::Lists32(ends, words, of.bits, of.signed),
        Some(WordSlice::Words64(words)) => Lent::Lists64(ends, words, of.bits, of.signed),
        _ => Lent::Nothing,
    }
}

/// What the columns of lists of optional numbers lend.
fn option_lists_of<C: Columns>(columns: &C, lists: u32, ends: u32, of: Integers) -> Lent<'_>
    ensures { IsLentAs (list lists (maybe ends (number of.column of.bits of.signed))) (C.Columns.elements columns.now) result }
{
    let Some(WordSlice::Words64(lists)) = all_words(columns, lists) else {
        return Lent::Nothing;
    };
    match options_of(columns, ends, of) {
        Lent::Options32(ends, words, bits, signed) => {
            Lent::OptionLists32(lists, ends, words, bits, signed)
        }
        Lent::Options64(ends, words, bits, signed) => {
            Lent::OptionLists64(lists, ends, words, bits, signed)
        }
        _ => Lent::Nothing,
    }
}

/// What the columns of lists lend.
fn items_of<'a, C: Columns>(columns: &'a C, lists: u32, of: &Plan) -> Lent<'a>
    ensures { IsLentAs (list lists (plan_view of.now)) (C.Columns.elements columns.now) result }
{
    if let Some(integers) = integers_of(of) {
        return lists_of(columns, lists, integers);
    }
    let Plan::Maybe { ends, of: inside } = of else {
        return Lent::Nothing;
    };
    match integers_of(inside) {
        Some(integers) => option_lists_of(columns, lists, *ends, integers),
        None => Lent::Nothing,
    }
}

/// What the columns of texts lend.
fn texts_of<C: Columns>(columns: &C, ends: u32, bytes: u32) -> Lent<'_>
    ensures { IsLentAs (text ends bytes) (C.Columns.elements columns.now) result }
{
    let Some(WordSlice::Words64(ends)) = all_words(columns, ends) else {
        return Lent::Nothing;
    };
    match all_words(columns, bytes) {
        Some(WordSlice::Bytes(bytes)) => Lent::Texts(ends, bytes),
        _ => Lent::Nothing,
    }
}

/// What the columns of a plan lend.
fn lent_of<'a, C: Columns>(columns: &'a C, plan: &Plan) -> Lent<'a>
    ensures { IsLentAs (plan_view plan.now) (C.Columns.elements columns.now) result }
{
    if let Some(of) = integers_of(plan) {
        return numbers_of(columns, of);
    }
    match plan {
        Plan::Text { ends, bytes } => texts_of(columns, *ends, *bytes),
        Plan::Maybe { ends, of } => match integers_of(of) {
            Some(integers) => options_of(columns, *ends, integers),
            None => Lent::Nothing,
        },
        Plan::List { ends, of } => items_of(columns, *ends, of),
        _ => Lent::Nothing,
    }
}

/// What the columns of each plan lend.
pub fn lent_plans<'a, C: Columns>(
    alloc: Global,
    columns: &'a C,
    plans: &'a [Plan],
) -> Result<Vec<LentPlan<'a>>, AllocError>
    ensures { IfOk result (λ v. AreLentAs plans.now (C.Columns.elements columns.now) v.items) }
{
    let mut lent = Vec::with_capacity(alloc, plans.len())?;
    for k in 0..plans.len() {
        let plan = &plans[k];
        lent.push(LentPlan {
            plan,
            lent: lent_of(columns, plan),
        })?;
    }
    Ok(lent)
}
