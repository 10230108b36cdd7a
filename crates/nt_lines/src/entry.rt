//! The line of one entry, written to room as far as it fits there.

ghost use Rattle.std.specs.Prelude.{◌≡◌, ◌<◌, ◌≤◌, ◌∷◌, [], ◌++◌, length, take, IfOk, OnOk, IsTrue, IsFalse};
ghost use Rattle.serde_json.specs.Written.{compact_text};
ghost use Rattle.nt_event.specs.Json.{data_of, line_of};
ghost use Rattle.nt_plans.specs.PlanViews.{plan_view};
ghost use Rattle.nt_trees.specs.TreeAt.{tree_at};
ghost use Rattle.nt_join.specs.Readable.{Readable};
ghost use Rattle.nt_print.specs.Marks.{end_of};
ghost use Rattle.nt_lines.specs.Lines.{entry_trees, rest_behind, CanPlace, CanPrint, IsMadeOrNone, IsNextMade, AreWritten, IsBegunLine};

use crate::lent::LentPlan;
use crate::placing::{is_made_apart, place_all, place_lent};
use nt_column::Columns;
use nt_plans::Plan;
use nt_print::{mark_before, place_byte, place_end, put_end, put_value};
use std::alloc::{AllocError, Global};

/// The end of a line.
const LF: u8 = 10;

/// What lines are printed from: columns, and plans with what their columns lend.
#[derive(Drop)]
pub struct Lines<'a, C> {
    pub alloc: Global,
    pub columns: &'a C,
    pub plans: Vec<LentPlan<'a>>,
}

/// Writes a mark, and then the value of an element by its plan: it is made apart, and copied.
#[inline(never)]
fn place_made<C: Columns>(
    lines: &Lines<'_, C>,
    plan: &Plan,
    value: (u64, u8),
    at: usize,
    made: &mut Vec<u8>,
    room: &mut [u8],
) -> Result<usize, AllocError>
    requires can { Readable (plan_view plan.now) (C.Columns.elements lines.now.columns.now) value.0
        × (at ≤ length room.old) × (made.old.items ≡ []) }
    ensures text { let tree = tree_at (plan_view plan.now) (C.Columns.elements lines.now.columns.now) value.0 in
        IfOk result (λ end. 0 < end → take end room.new ≡ take at room.old ++ value.1 ∷ compact_text (data_of tree)) }
    ensures made { let tree = tree_at (plan_view plan.now) (C.Columns.elements lines.now.columns.now) value.0 in
        OnOk result (made.new.items ≡ value.1 ∷ compact_text (data_of tree)) }
    ensures kept { take at room.new ≡ take at room.old }
    ensures room { IfOk result (λ end. end ≤ length room.new) × (length room.new ≡ length room.old) }
{
    let (i, mark) = value;
    put_value(lines.alloc, lines.columns, plan, i, mark, made)?;
    Ok(place_all(made, at, room))
}

/// Writes a mark, and then the value of an element, and says where it ends; 0 where there is no room. Then `made` has the mark and the
/// value, or nothing.
#[inline(always)]
fn place_value<C: Columns>(
    lines: &Lines<'_, C>,
    plan: &LentPlan<'_>,
    value: (u64, u8),
    at: usize,
    made: &mut Vec<u8>,
    room: &mut [u8],
) -> Result<usize, AllocError>
    requires can { CanPlace (plan_view plan.now.plan.now) (C.Columns.elements lines.now.columns.now) value.0 plan.now.lent
        × (at ≤ length room.old) }
    ensures text { let tree = tree_at (plan_view plan.now.plan.now) (C.Columns.elements lines.now.columns.now) value.0 in
        IfOk result (λ end. 0 < end → take end room.new ≡ take at room.old ++ value.1 ∷ compact_text (data_of tree)) }
    ensures made { let tree = tree_at (plan_view plan.now.plan.now) (C.Columns.elements lines.now.columns.now) value.0 in
        IfOk result (λ end. end ≡ 0 → IsMadeOrNone made.new.items (value.1 ∷ compact_text (data_of tree))) }
    ensures kept { take at room.new ≡ take at room.old }
    ensures room { IfOk result (λ end. end ≤ length room.new) × (length room.new ≡ length room.old) }
{
    let end = place_lent(&plan.lent, value.0 as usize, value.1, at, room);
    if end != 0 {
        return Ok(end);
    }
    made.clear();
    if !is_made_apart(&plan.lent, value.0 as usize, room.len() - at) {
        return Ok(0);
    }
    place_made(lines, plan.plan, value, at, made, room)
}

/// Writes the values of an entry behind what is written, as many as there is room for. Says how many, and where the last of them ends;
/// `made` may have the next one.
#[inline(always)]
fn place_values<C: Columns>(
    lines: &Lines<'_, C>,
    i: u64,
    from: usize,
    made: &mut Vec<u8>,
    room: &mut [u8],
) -> Result<(usize, usize), AllocError>
    requires can { CanPrint (C.Columns.elements lines.now.columns.now) lines.now.plans.items i × (from ≤ length room.old) }
    ensures written { IfOk result (λ r. AreWritten lines.now.plans.items (C.Columns.elements lines.now.columns.now) i r.0
        (take from room.old) (take r.1 room.new)) }
    ensures next { IfOk result (λ r. r.0 < length lines.now.plans.items
        → IsNextMade r.0 lines.now.plans.items (C.Columns.elements lines.now.columns.now) i made.new.items) }
    ensures kept { take from room.new ≡ take from room.old }
    ensures room { IfOk result (λ r. (from ≤ r.1) × (r.1 ≤ length room.new)) × (length room.new ≡ length room.old) }
{
    let mut at = from;
    for k in 0..lines.plans.len() {
        let value = (i, mark_before(k > 0));
        let end = place_value(lines, &lines.plans[k], value, at, made, room)?;
        if end == 0 {
            return Ok((k, at));
        }
        at = end;
    }
    Ok((lines.plans.len(), at))
}

/// Writes what stands behind the last value of a line, and its LF, and says where it ends; 0 where there is no room.
#[inline(always)]
fn place_line_end(later: bool, at: usize, room: &mut [u8]) -> usize
    requires { at ≤ length room.old }
    ensures text { 0 < result → take result room.new ≡ take at room.old ++ (end_of later ++ LF ∷ []) }
    ensures kept { take at room.new ≡ take at room.old }
    ensures within { (result ≤ length room.new) × (length room.new ≡ length room.old) }
{
    if room.len() - at < 3 {
        return 0;
    }
    let end = place_end(later, at, room);
    place_byte(LF, end, room);
    end + 1
}

/// Appends the values of an entry behind so many of them, and the end of its line.
fn put_values<C: Columns>(
    lines: &Lines<'_, C>,
    i: u64,
    count: usize,
    out: &mut Vec<u8>,
) -> Result<(), AllocError>
    requires can { CanPrint (C.Columns.elements lines.now.columns.now) lines.now.plans.items i }
    requires count { count ≤ length lines.now.plans.items }
    ensures ok { OnOk result (out.new.items ≡ out.old.items
        ++ (rest_behind count lines.now.plans.items (C.Columns.elements lines.now.columns.now) i ++ LF ∷ [])) }
    ensures kept { take (length out.old.items) out.new.items ≡ out.old.items }
{
    for k in count..lines.plans.len() {
        let plan = lines.plans[k].plan;
        put_value(lines.alloc, lines.columns, plan, i, mark_before(k > 0), out)?;
    }
    put_end(lines.plans.len() > 0, out)?;
    out.push(LF)?;
    Ok(())
}

/// The same, where the first of these values may be made.
#[inline(never)]
fn put_rest<C: Columns>(
    lines: &Lines<'_, C>,
    i: u64,
    count: usize,
    made: &[u8],
    out: &mut Vec<u8>,
) -> Result<(), AllocError>
    requires can { CanPrint (C.Columns.elements lines.now.columns.now) lines.now.plans.items i }
    requires made { (count ≤ length lines.now.plans.items)
        × IsNextMade count lines.now.plans.items (C.Columns.elements lines.now.columns.now) i made.now }
    ensures ok { OnOk result (out.new.items ≡ out.old.items
        ++ (rest_behind count lines.now.plans.items (C.Columns.elements lines.now.columns.now) i ++ LF ∷ [])) }
    ensures kept { take (length out.old.items) out.new.items ≡ out.old.items }
{
    if made.is_empty() {
        return put_values(lines, i, count, out);
    }
    out.extend_from_slice(made)?;
    put_values(lines, i, count + 1, out)
}

/// Writes the line of an entry behind what is written, as far as there is room. Says how many of its values, where they end, and whether
/// the line ends there; if it doesn't, `made` may have the next value.
#[inline(always)]
fn place_line<C: Columns>(
    lines: &Lines<'_, C>,
    i: u64,
    from: usize,
    made: &mut Vec<u8>,
    room: &mut [u8],
) -> Result<(usize, usize, bool), AllocError>
    requires can { CanPrint (C.Columns.elements lines.now.columns.now) lines.now.plans.items i × (from ≤ length room.old) }
    ensures whole { let line = line_of (entry_trees lines.now.plans.items (C.Columns.elements lines.now.columns.now) i) in
        IfOk result (λ r. IsTrue r.2 → take r.1 room.new ≡ take from room.old ++ (line ++ LF ∷ [])) }
    ensures begun { IfOk result (λ r. IsFalse r.2 → IsBegunLine lines.now.plans.items (C.Columns.elements lines.now.columns.now) i r.0
        (take from room.old) (take r.1 room.new) made.new.items) }
    ensures kept { take from room.new ≡ take from room.old }
    ensures room { IfOk result (λ r. (from ≤ r.1) × (r.1 ≤ length room.new)) × (length room.new ≡ length room.old) }
{
    let (count, at) = place_values(lines, i, from, made, room)?;
    if count < lines.plans.len() {
        return Ok((count, at, false));
    }
    let end = place_line_end(count > 0, at, room);
    if end != 0 {
        return Ok((count, end, true));
    }
    made.clear();
    Ok((count, at, false))
}

/// Writes the line of an entry behind what is written, and says where it ends. Where there isn't room for all of it, what comes behind is
/// cut, and the rest of the line is appended.
pub fn place_entry<C: Columns>(
    lines: &Lines<'_, C>,
    i: u64,
    from: usize,
    made: &mut Vec<u8>,
    out: &mut Vec<u8>,
) -> Result<usize, AllocError>
    requires can { CanPrint (C.Columns.elements lines.now.columns.now) lines.now.plans.items i }
    requires within { from ≤ length out.old.items }
    ensures text { IfOk result (λ end. take end out.new.items ≡ take from out.old.items
        ++ (line_of (entry_trees lines.now.plans.items (C.Columns.elements lines.now.columns.now) i) ++ LF ∷ [])) }
    ensures kept { take from out.new.items ≡ take from out.old.items }
    ensures room { IfOk result (λ end. end ≤ length out.new.items) }
{
    let (count, at, ended) = place_line(lines, i, from, made, out.as_mut_slice())?;
    if ended {
        return Ok(at);
    }
    out.truncate(at);
    put_rest(lines, i, count, made, out)?;
    Ok(out.len())
}
