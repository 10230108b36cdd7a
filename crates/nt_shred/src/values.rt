//! Values by their plans, each added as it is read.

ghost use Rattle.std.specs.Prelude.{◌≡◌, ◌-◌, ◌≤◌, length};
ghost use Rattle.nt_plans.specs.Plan.{list, maybe, record_of, choice};
ghost use Rattle.nt_plans.specs.PlanViews.{plan_view};
ghost use Rattle.nt_trees.specs.Views.{plans_in};
ghost use Rattle.nt_shred.specs.Walk.{CanPut, CanPutEach, Puts, PutsAll, PutsSome, PutsEach, Leaves, takes_null};

use crate::counting::count;
use crate::integers::{Integers, integers_of};
use crate::leaves::{flag, integer_in_place, string};
use crate::lists::integer_list;
use crate::optional::{optional_integer, optional_integers};
use crate::pushing::{push_end, push_tag};
use nt_column::ColumnSet;
use nt_event::{after, comma, comma_if, null, number};
use nt_plans::Plan;

/// Adds the value of a plan that stands at a place, and gives its end. What lies inside comes first. Inlined, so that what most values
/// are, an integer or a truth value, a text, a list of integers or an optional one, is read without a call by its plan.
#[inline(always)]
#[cycle(value)]
fn value_in_place(out: &mut ColumnSet, plan: &Plan, line: &[u8], at: usize) -> Option<usize>
    requires within { at ≤ length line.now }
    requires can { CanPut (plan_view plan.now) (length line.now - at) out.old }
    ensures { Leaves (λ end. Puts (plan_view plan.now) line.now at end out.old out.new)
        out.old out.new result }
{
    match plan {
        Plan::Bool { column } => flag(out, *column, line, at),
        Plan::Number {
            column,
            bits,
            signed,
        } => {
            let of = Integers {
                column: *column,
                bits: *bits,
                signed: *signed,
            };
            integer_in_place(out, of, line, at)
        }
        Plan::Text { ends, bytes } => string(out, *ends, *bytes, line, at),
        Plan::List { ends, of } => match integers_of(of) {
            Some(integers) => integer_list(out, *ends, integers, line, at),
            None => list(out, *ends, of, line, at),
        },
        Plan::Maybe { ends, of } => match integers_of(of) {
            Some(integers) => optional_integer(out, *ends, integers, line, at),
            None => optional(out, *ends, of, line, at),
        },
        Plan::Record(parts) => record(out, &parts.list, line, at),
        Plan::Choice { tags, of } => picked(out, *tags, &of.list, line, at),
    }
}

/// The same, where it is called.
#[inline(never)]
#[cycle(value)]
fn value(out: &mut ColumnSet, plan: &Plan, line: &[u8], at: usize) -> Option<usize>
    requires within { at ≤ length line.now }
    requires can { CanPut (plan_view plan.now) (length line.now - at) out.old }
    ensures { Leaves (λ end. Puts (plan_view plan.now) line.now at end out.old out.new)
        out.old out.new result }
{
    value_in_place(out, plan, line, at)
}

/// Adds the items of a list up to its bracket.
#[cycle(value)]
fn items(out: &mut ColumnSet, of: &Plan, line: &[u8], at: usize) -> Option<usize>
    requires within { at ≤ length line.now }
    requires can { CanPut (plan_view of.now) (length line.now - at) out.old }
    ensures { Leaves (λ end. PutsAll (plan_view of.now) line.now at end out.old out.new)
        out.old out.new result }
{
    if let Plan::Maybe { ends, of: inside } = of {
        if let Some(integers) = integers_of(inside) {
            return optional_integers(out, *ends, integers, line, at);
        }
    }
    if let Some(end) = after(line, at, b']') {
        return Some(end);
    }
    let mut i = value(out, of, line, at)?;
    while let Some(next) = comma(line, i) {
        i = value(out, of, line, next)?;
    }
    after(line, i, b']')
}

/// Adds a list: its items, and their end.
#[cycle(value)]
fn list(out: &mut ColumnSet, ends: u32, of: &Plan, line: &[u8], at: usize) -> Option<usize>
    requires within { at ≤ length line.now }
    requires can { CanPut (list ends (plan_view of.now)) (length line.now - at) out.old }
    ensures { Leaves (λ end. Puts (list ends (plan_view of.now)) line.now at end out.old out.new)
        out.old out.new result }
{
    let first = after(line, at, b'[')?;
    let end = items(out, of, line, first)?;
    let last = count(out, of);
    push_end(out, ends, last);
    Some(end)
}

/// Whether nothing is among the values of a plan.
fn takes_null(plan: &Plan) -> bool
    ensures { result ≡ takes_null (plan_view plan.now) }
{
    matches!(plan, Plan::Maybe { .. } | Plan::Choice { .. })
}

/// Adds the value of an optional, where there is one. In no schema is what it contains nothing itself.
#[cycle(value)]
fn value_or_null(out: &mut ColumnSet, of: &Plan, line: &[u8], at: usize) -> Option<usize>
    requires within { at ≤ length line.now }
    requires can { CanPut (plan_view of.now) (length line.now - at) out.old }
    ensures { Leaves (λ end. PutsSome (plan_view of.now) line.now at end out.old out.new)
        out.old out.new result }
{
    if let Some(end) = null(line, at) {
        return Some(end);
    }
    if takes_null(of) {
        return None;
    }
    value(out, of, line, at)
}

/// Adds an optional: its value, if there is one, and the end.
#[cycle(value)]
fn optional(out: &mut ColumnSet, ends: u32, of: &Plan, line: &[u8], at: usize) -> Option<usize>
    requires within { at ≤ length line.now }
    requires can { CanPut (maybe ends (plan_view of.now)) (length line.now - at) out.old }
    ensures { Leaves (λ end. Puts (maybe ends (plan_view of.now)) line.now at end out.old out.new)
        out.old out.new result }
{
    let end = value_or_null(out, of, line, at)?;
    let total = count(out, of);
    push_end(out, ends, total);
    Some(end)
}

/// Adds a value of each plan, up to the bracket.
#[cycle(value)]
pub fn each(out: &mut ColumnSet, plans: &[Plan], line: &[u8], at: usize) -> Option<usize>
    requires within { at ≤ length line.now }
    requires can { CanPutEach (plans_in plans.now) (length line.now - at) out.old }
    ensures { Leaves (λ end. PutsEach (plans_in plans.now) line.now at end out.old out.new)
        out.old out.new result }
{
    let mut i = at;
    for (k, plan) in plans.iter().enumerate() {
        let next = comma_if(line, i, k > 0)?;
        i = value_in_place(out, plan, line, next)?;
    }
    after(line, i, b']')
}

/// Adds a record: a value of each plan, between brackets.
#[cycle(value)]
fn record(out: &mut ColumnSet, plans: &[Plan], line: &[u8], at: usize) -> Option<usize>
    requires within { at ≤ length line.now }
    requires can { CanPut (record_of (plans_in plans.now)) (length line.now - at) out.old }
    ensures { Leaves (λ end. Puts (record_of (plans_in plans.now)) line.now at end out.old out.new)
        out.old out.new result }
{
    let first = after(line, at, b'[')?;
    each(out, plans, line, first)
}

/// Adds the value of an alternative, or nothing.
#[cycle(value)]
fn picked(out: &mut ColumnSet, tags: u32, of: &[Plan], line: &[u8], at: usize) -> Option<usize>
    requires within { at ≤ length line.now }
    requires can { CanPut (choice tags (plans_in of.now)) (length line.now - at) out.old }
    ensures { Leaves (λ end. Puts (choice tags (plans_in of.now)) line.now at end out.old out.new)
        out.old out.new result }
{
    if let Some(end) = null(line, at) {
        push_tag(out, tags, 0, 0);
        return Some(end);
    }
    let first = after(line, at, b'[')?;
    let (tag, i) = number(line, first)?;
    let next = comma(line, i)?;
    if tag == 0 || tag > of.len() as u64 || tag >= 1 << 32 {
        return None;
    }
    let chosen = &of[tag as usize - 1];
    let index = count(out, chosen);
    let last = value(out, chosen, line, next)?;
    let end = after(line, last, b']')?;
    push_tag(out, tags, index, tag as u32);
    Some(end)
}
