//! The first fault of columns.

ghost use Rattle.std.specs.Prelude.{◌≡◌, ◌≤◌, ◌<◌, ◌+◌, ℕ, length, map, drop, option_map, IfOk, MatchResult, Some, None};
ghost use Rattle.nt_plans.specs.Plan.{choice, plans_of};
ghost use Rattle.nt_plans.specs.PlanViews.{plan_view, plans_view};
ghost use Rattle.nt_trees.specs.Sound.{AllSound};
ghost use Rattle.nt_trees.specs.Faults.{fault_in, fault_in_any, fault_under, lower};
ghost use Rattle.nt_join.specs.Spots.{spot_of};
ghost use Rattle.nt_join.specs.Readable.{ReadableEach};
ghost use Rattle.nt_join.specs.Sweeps.{IsFirstOfTags};

use crate::counting::{BLOCK, count_tags};
use crate::ends::{ends_fault, values_fault};
use crate::fault::{ValueFault, first_in, lower};
use crate::reading::last;
use crate::steps::steps_fault;
use nt_column::Columns;
use nt_plans::{Plan, Plans};

/// The first fault of the columns of a field that must have so many elements.
#[cycle(check)]
fn plan_fault<C: Columns>(columns: &C, plan: &Plan, needed: u64) -> Option<ValueFault>
    ensures { option_map spot_of result
        ≡ fault_in (plan_view plan.now) (C.Columns.elements columns.now) needed }
{
    match plan {
        Plan::Bool { column } => values_fault(columns, *column, needed),
        Plan::Number { column, .. } => values_fault(columns, *column, needed),
        Plan::Text { ends, bytes } => {
            let fault = ends_fault(columns, *ends, needed);
            lower(fault, values_fault(columns, *bytes, last(columns, *ends)))
        }
        Plan::List { ends, of } => {
            let fault = ends_fault(columns, *ends, needed);
            lower(fault, plan_fault(columns, of, last(columns, *ends)))
        }
        Plan::Maybe { ends, of } => {
            let fault = steps_fault(columns, *ends, needed);
            lower(fault, plan_fault(columns, of, last(columns, *ends)))
        }
        Plan::Record(parts) => each_fault(columns, &parts.list, needed),
        Plan::Choice { tags, of } => choice_fault(columns, *tags, of, needed),
    }
}

/// The first fault of the columns of fields that must have so many elements.
#[cycle(check)]
fn each_fault<C: Columns>(columns: &C, plans: &[Plan], needed: u64) -> Option<ValueFault>
    ensures { option_map spot_of result
        ≡ fault_in_any (plans_of (map plan_view plans.now)) (C.Columns.elements columns.now) needed }
{
    let mut fault = None;
    for plan in plans {
        fault = lower(fault, plan_fault(columns, plan, needed));
    }
    fault
}

/// The first fault of the columns of a choice that must have so many elements.
#[cycle(check)]
fn choice_fault<C: Columns>(columns: &C, tags: u32, of: &Plans, needed: u64) -> Option<ValueFault>
    ensures { option_map spot_of result
        ≡ fault_in (choice tags (plans_of (plans_view of.now)))
        (C.Columns.elements columns.now) needed }
{
    let len = columns.len(tags);
    let mut first = len;
    let mut below = None;
    for block in 0..of.list.len().saturating_sub(1) / BLOCK + 1 {
        let (odd, fault) = block_fault(columns, tags, &of.list, block * BLOCK, below);
        first = first.min(odd);
        below = fault;
    }
    lower(first_in(tags, len, needed, first), below)
}

/// One sweep over a Switch, for the alternatives behind so many: the first element that isn't as it
/// must be, and of their columns' first fault and the one that is known the lower.
#[cycle(check)]
fn block_fault<C: Columns>(
    columns: &C,
    tags: u32,
    of: &[Plan],
    low: usize,
    known: Option<ValueFault>,
) -> (u64, Option<ValueFault>)
    requires { low ≤ length of.now }
    ensures first { IsFirstOfTags (length of.now) low (low + 128)
        (C.Columns.elements columns.now tags) result.0 }
    ensures below { let cols = C.Columns.elements columns.now in
        let plans = map plan_view of.now in
        lower (option_map spot_of result.1)
        (fault_under (low + 128) (plans_of (drop (low + 128) plans)) (cols tags) cols)
        ≡ lower (option_map spot_of known)
        (fault_under low (plans_of (drop low plans)) (cols tags) cols) }
{
    let mut counts = [0; BLOCK];
    let odd = count_tags(columns, tags, of.len(), low, &mut counts);
    let mut fault = known;
    for j in low..of.len().min(low + BLOCK) {
        fault = lower(fault, plan_fault(columns, &of[j], counts[j - low]));
    }
    (odd, fault)
}

/// Whether a cluster's columns are those of so many entries; if not, what is wrong first. By column
/// id: the column's length first, and then its elements. It takes no memory, and makes one sweep
/// over each column of ends, and one over a Switch for each 128 of its tags.
pub fn check_by<C: Columns>(columns: &C, plans: &Plans, entries: u64) -> Result<(), ValueFault>
    ensures fault { MatchResult result
        (λ _. fault_in_any (plans_of (plans_view plans.now)) (C.Columns.elements columns.now) entries
        ≡ None)
        (λ f. fault_in_any (plans_of (plans_view plans.now)) (C.Columns.elements columns.now) entries
        ≡ Some (spot_of f)) }
    ensures sound { IfOk result (λ _.
        AllSound (plans_of (plans_view plans.now)) (C.Columns.elements columns.now) entries) }
    ensures readable { IfOk result (λ _. (i : ℕ) → i < entries
        → ReadableEach (plans_of (plans_view plans.now)) (C.Columns.elements columns.now) i) }
{
    match each_fault(columns, &plans.list, entries) {
        None => Ok(()),
        Some(fault) => Err(fault),
    }
}
