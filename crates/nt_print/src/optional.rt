//! Lists of optional integers, printed by runs: integers up to the next that is missing, and then `null`.

ghost use Rattle.std.specs.Prelude.{◌≡◌, ◌+◌, ◌≤◌, ◌∷◌, ◌++◌, ℕ, length, take, get_or, OnOk, IfSome};
ghost use Rattle.nt_event.specs.Json.{line_of};
ghost use Rattle.nt_plans.specs.Plan.{number};
ghost use Rattle.nt_plans.specs.PlanViews.{plan_view};
ghost use Rattle.nt_trees.specs.TreeAt.{tree_at};
ghost use Rattle.nt_join.specs.Readable.{ReadableTo};
ghost use Rattle.nt_print.specs.Optionals.{optional_trees, StepsOn, CountsOn, last_behind, AreOptionals};

use crate::integers::{Integers, integers_of, put_list, put_run};
use crate::leaves::{mark_before, put_end, put_null};
use nt_column::{Columns, WordSlice};
use nt_plans::Plan;
use std::alloc::AllocError;

/// Optional integers: where the first of them begins, their ends as they lie, and their column.
#[derive(Clone, Copy)]
pub struct Optionals<'a> {
    pub begin: u64,
    pub ends: &'a [u64],
    pub of: Integers,
}

/// The optional integers from one place to before another, where their ends lie together.
#[inline(always)]
pub fn optionals_of<'a, C: Columns>(
    columns: &'a C,
    plan: &Plan,
    part: (u64, u64),
) -> Option<Optionals<'a>>
    requires order { part.0 ≤ part.1 }
    requires readable { ReadableTo (plan_view plan.now) (C.Columns.elements columns.now) part.1 }
    ensures { IfSome result (λ r. AreOptionals (plan_view plan.now) (C.Columns.elements columns.now) part.0 part.1
        r.begin r.ends.now r.of.column r.of.bits r.of.signed) }
{
    let Plan::Maybe { ends, of: inside } = plan else {
        return None;
    };
    let of = integers_of(inside)?;
    let (from, to) = part;
    let back = from.saturating_sub(1);
    let Some(WordSlice::Words64(list)) = columns.words(*ends, back, to) else {
        return None;
    };
    if from == 0 {
        return Some(Optionals {
            begin: 0,
            ends: list,
            of,
        });
    }
    Some(Optionals {
        begin: list[0],
        ends: &list[1..],
        of,
    })
}

/// How many of the first ends count on by one, and the last of these.
#[inline(always)]
fn first_run(begin: u64, ends: &[u64]) -> (usize, u64)
    requires { StepsOn begin ends.now }
    ensures run { (result.0 ≤ length ends.now) × CountsOn begin result.0 ends.now }
    ensures last { result.1 ≡ begin + result.0 }
    ensures none { result.0 ≡ 0 → get_or ends.now 0 begin ≡ begin }
{
    let mut last = begin;
    let mut count = 0;
    for end in ends {
        if *end == last {
            return (count, last);
        }
        last = *end;
        count += 1;
    }
    (count, last)
}

/// The last end, or where the first optional begins.
#[inline(always)]
fn last_of(begin: u64, ends: &[u64]) -> u64
    ensures { result ≡ last_behind begin ends.now }
{
    let count = ends.len();
    if count == 0 {
        return begin;
    }
    ends[count - 1]
}

/// Appends a mark, and then the array of optional integers, a run at a time.
#[inline(never)]
fn put_runs<C: Columns>(
    columns: &C,
    list: Optionals<'_>,
    mark: u8,
    out: &mut Vec<u8>,
) -> Result<(), AllocError>
    requires steps { StepsOn list.begin list.ends.now }
    requires within { last_behind list.begin list.ends.now ≤ length (C.Columns.elements columns.now list.of.column) }
    ensures ok { OnOk result (out.new.items ≡ out.old.items ++ mark ∷ line_of (optional_trees
        (tree_at (number list.entry.of.column list.entry.of.bits list.entry.of.signed) (C.Columns.elements columns.now))
        list.entry.begin list.entry.ends.now)) }
    ensures kept { take (length out.old.items) out.new.items ≡ out.old.items }
{
    out.push(mark)?;
    let mut later = false;
    let mut begin = list.begin;
    let mut at = 0;
    while at < list.ends.len() {
        let (count, end) = first_run(begin, &list.ends[at..]);
        if count == 0 {
            put_null(mark_before(later), out)?;
            later = true;
            at += 1;
            continue;
        }
        put_run(columns, list.of, (begin, end), mark_before(later), out)?;
        later = true;
        begin = end;
        at += count;
    }
    put_end(later, out)?;
    Ok(())
}

/// Appends a mark, and then the array of optional integers: that of the integers, where none is missing.
pub fn put_optionals<C: Columns>(
    columns: &C,
    list: Optionals<'_>,
    mark: u8,
    out: &mut Vec<u8>,
) -> Result<(), AllocError>
    requires steps { StepsOn list.begin list.ends.now }
    requires within { last_behind list.begin list.ends.now ≤ length (C.Columns.elements columns.now list.of.column) }
    ensures ok { OnOk result (out.new.items ≡ out.old.items ++ mark ∷ line_of (optional_trees
        (tree_at (number list.entry.of.column list.entry.of.bits list.entry.of.signed) (C.Columns.elements columns.now))
        list.entry.begin list.entry.ends.now)) }
    ensures kept { take (length out.old.items) out.new.items ≡ out.old.items }
{
    let last = last_of(list.begin, list.ends);
    if last - list.begin == list.ends.len() as u64 {
        return put_list(columns, list.of, (list.begin, last), mark, out);
    }
    put_runs(columns, list, mark, out)
}
