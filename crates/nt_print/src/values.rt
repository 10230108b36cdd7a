//! Values at elements, printed by their plans.

ghost use Rattle.std.specs.Prelude.{◌≡◌, ◌≤◌, ◌-◌, ◌++◌, ◌∷◌, length, map, take, OnOk};
ghost use Rattle.serde_json.specs.Written.{compact_text};
ghost use Rattle.nt_event.specs.Json.{data_of, line_of};
ghost use Rattle.nt_plans.specs.Plan.{choice, plans_of};
ghost use Rattle.nt_plans.specs.PlanViews.{plan_view, plans_view};
ghost use Rattle.nt_trees.specs.TreeAt.{tree_at, each_at, trees_from, only};
ghost use Rattle.nt_join.specs.Readable.{Readable, ReadableTo, ReadableEach};

use crate::integers::{integers_of, put_list};
use crate::leaves::{mark_before, put_end, put_flag, put_integer, put_null, put_part, put_tag};
use crate::optional::{optionals_of, put_optionals};
use crate::spans::span;
use nt_column::Columns;
use nt_join::reading::{number, tag};
use nt_plans::{Plan, Plans};
use std::alloc::{AllocError, Global};

/// Appends a mark, and then the value of an element; a number right here, where it is called.
#[inline(always)]
#[cycle(print)]
pub fn put_value<C: Columns>(
    alloc: Global,
    columns: &C,
    plan: &Plan,
    i: u64,
    mark: u8,
    out: &mut Vec<u8>,
) -> Result<(), AllocError>
    requires { Readable (plan_view plan.now) (C.Columns.elements columns.now) i }
    ensures ok { OnOk result (out.new.items ≡ out.old.items ++ mark ∷ compact_text
        (data_of (tree_at (plan_view plan.now) (C.Columns.elements columns.now) i))) }
    ensures kept { take (length out.old.items) out.new.items ≡ out.old.items }
{
    match plan {
        Plan::Number {
            column,
            bits,
            signed,
        } => put_integer(mark, number(columns, *column, i), *bits, *signed, out),
        Plan::Bool { column } => {
            out.push(mark)?;
            put_flag(number(columns, *column, i) == 1, out)?;
            Ok(())
        }
        Plan::Text { ends, bytes } => {
            let text = span(columns, *ends, i);
            put_part(alloc, columns, *bytes, text, mark, out)?;
            Ok(())
        }
        Plan::List { ends, of } => {
            let items = span(columns, *ends, i);
            put_range(alloc, columns, of, items, mark, out)?;
            Ok(())
        }
        Plan::Maybe { ends, of } => {
            let part = span(columns, *ends, i);
            put_optional(alloc, columns, of, part, mark, out)?;
            Ok(())
        }
        Plan::Record(parts) => {
            out.push(mark)?;
            put_each(alloc, columns, &parts.list, i, out)?;
            Ok(())
        }
        Plan::Choice { tags, of } => {
            out.push(mark)?;
            put_choice(alloc, columns, *tags, of, i, out)?;
            Ok(())
        }
    }
}

/// Appends a mark, and then the array of the values from one place to before another.
#[inline(never)]
#[cycle(print)]
fn put_range<C: Columns>(
    alloc: Global,
    columns: &C,
    of: &Plan,
    part: (u64, u64),
    mark: u8,
    out: &mut Vec<u8>,
) -> Result<(), AllocError>
    requires order { part.0 ≤ part.1 }
    requires readable { ReadableTo (plan_view of.now) (C.Columns.elements columns.now) part.1 }
    ensures ok { OnOk result (out.new.items ≡ out.old.items ++ mark ∷ line_of
        (trees_from (tree_at (plan_view of.now) (C.Columns.elements columns.now)) part.0 (part.1 - part.0))) }
    ensures kept { take (length out.old.items) out.new.items ≡ out.old.items }
{
    if let Some(integers) = integers_of(of) {
        return put_list(columns, integers, part, mark, out);
    }
    if let Some(list) = optionals_of(columns, of, part) {
        return put_optionals(columns, list, mark, out);
    }
    put_items(alloc, columns, of, part, mark, out)
}

/// The same, an element at a time.
#[inline(never)]
#[cycle(print)]
fn put_items<C: Columns>(
    alloc: Global,
    columns: &C,
    of: &Plan,
    part: (u64, u64),
    mark: u8,
    out: &mut Vec<u8>,
) -> Result<(), AllocError>
    requires order { part.0 ≤ part.1 }
    requires readable { ReadableTo (plan_view of.now) (C.Columns.elements columns.now) part.1 }
    ensures ok { OnOk result (out.new.items ≡ out.old.items ++ mark ∷ line_of
        (trees_from (tree_at (plan_view of.now) (C.Columns.elements columns.now)) part.0 (part.1 - part.0))) }
    ensures kept { take (length out.old.items) out.new.items ≡ out.old.items }
{
    let (from, to) = part;
    out.push(mark)?;
    let mut later = false;
    for i in from..to {
        put_value(alloc, columns, of, i, mark_before(later), out)?;
        later = true;
    }
    put_end(later, out)?;
    Ok(())
}

/// Appends a mark, and then the value of the one element from one place to before another, or what
/// stands for none.
#[inline(never)]
#[cycle(print)]
fn put_optional<C: Columns>(
    alloc: Global,
    columns: &C,
    of: &Plan,
    part: (u64, u64),
    mark: u8,
    out: &mut Vec<u8>,
) -> Result<(), AllocError>
    requires order { part.0 ≤ part.1 }
    requires readable { ReadableTo (plan_view of.now) (C.Columns.elements columns.now) part.1 }
    ensures ok { OnOk result (out.new.items ≡ out.old.items ++ mark ∷ compact_text (data_of (only
        (trees_from (tree_at (plan_view of.now) (C.Columns.elements columns.now)) part.0 (part.1 - part.0))))) }
    ensures kept { take (length out.old.items) out.new.items ≡ out.old.items }
{
    let (from, to) = part;
    if from == to {
        return put_null(mark, out);
    }
    put_value(alloc, columns, of, from, mark, out)
}

/// Appends the array of the value of each plan, all at one element.
#[cycle(print)]
pub fn put_each<C: Columns>(
    alloc: Global,
    columns: &C,
    parts: &[Plan],
    i: u64,
    out: &mut Vec<u8>,
) -> Result<(), AllocError>
    requires { ReadableEach (plans_of (map plan_view parts.now)) (C.Columns.elements columns.now) i }
    ensures ok { OnOk result (out.new.items ≡ out.old.items ++ line_of
        (each_at (plans_of (map plan_view parts.now)) (C.Columns.elements columns.now) i)) }
    ensures kept { take (length out.old.items) out.new.items ≡ out.old.items }
{
    let mut later = false;
    for part in parts {
        put_value(alloc, columns, part, i, mark_before(later), out)?;
        later = true;
    }
    put_end(later, out)?;
    Ok(())
}

/// Appends the tag and the value of an alternative, or what stands for none.
#[inline(never)]
#[cycle(print)]
fn put_choice<C: Columns>(
    alloc: Global,
    columns: &C,
    tags: u32,
    of: &Plans,
    i: u64,
    out: &mut Vec<u8>,
) -> Result<(), AllocError>
    requires { Readable (choice tags (plans_of (plans_view of.now))) (C.Columns.elements columns.now) i }
    ensures ok { OnOk result (out.new.items ≡ out.old.items ++ compact_text (data_of
        (tree_at (choice tags (plans_of (plans_view of.now))) (C.Columns.elements columns.now) i))) }
    ensures kept { take (length out.old.items) out.new.items ≡ out.old.items }
{
    let tag = tag(columns, tags, i);
    if tag == 0 {
        return out.extend_from_slice(b"null");
    }
    let chosen = &of.list[tag as usize - 1];
    let at = number(columns, tags, i);
    put_tag(tag, out)?;
    put_value(alloc, columns, chosen, at, b',', out)?;
    out.push(b']')?;
    Ok(())
}
