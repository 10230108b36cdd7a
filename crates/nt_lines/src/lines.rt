//! The lines of many entries, written to room that is appended once.

ghost use Rattle.std.specs.Prelude.{◌≡◌, ◌-◌, ◌<◌, ◌≤◌, ◌++◌, ℕ, length, take, IfOk, OnErr};
ghost use Rattle.nt_plans.specs.Place.{open_plans};
ghost use Rattle.nt_trees.specs.TreeAt.{each_at};
ghost use Rattle.nt_join.specs.Readable.{ReadableEach};
ghost use Rattle.nt_lines.specs.Lines.{written_lines, entry_trees, CanPrint};

use crate::entry::{Lines, place_entry};
use crate::lent::lent_plans;
use nt_column::Columns;
use nt_schema::Schema;
use std::alloc::{AllocError, Global};

/// Writes the lines of entries from one on, at least one and as many as there is room for, behind what is written. Says which comes next,
/// and where they end.
fn place_entries<C: Columns>(
    lines: &Lines<'_, C>,
    part: (u64, u64),
    from: usize,
    made: &mut Vec<u8>,
    out: &mut Vec<u8>,
) -> Result<(u64, usize), AllocError>
    requires can { (part.0 < part.1) × (from ≤ length out.old.items)
        × ((i : ℕ) → i < part.1 → CanPrint (C.Columns.elements lines.now.columns.now) lines.now.plans.items i) }
    ensures next { IfOk result (λ r. (part.0 < r.0) × (r.0 ≤ part.1)) }
    ensures text { let trees = entry_trees lines.now.plans.items (C.Columns.elements lines.now.columns.now) in
        IfOk result (λ r. take r.1 out.new.items ≡ take from out.old.items ++ written_lines trees part.0 (r.0 - part.0)) }
    ensures kept { take from out.new.items ≡ take from out.old.items }
    ensures room { IfOk result (λ r. r.1 ≤ length out.new.items) }
{
    let (first, to) = part;
    let mut at = place_entry(lines, first, from, made, out)?;
    let mut i = first + 1;
    while i < to && at < out.len() {
        at = place_entry(lines, i, at, made, out)?;
        i += 1;
    }
    Ok((i, at))
}

/// The same by the plans of a schema, whose columns are looked up here.
fn place_lines<C: Columns>(
    alloc: Global,
    columns: &C,
    schema: &Schema,
    part: (u64, u64),
    from: usize,
    out: &mut Vec<u8>,
) -> Result<(u64, usize), AllocError>
    requires can { (part.0 < part.1) × (from ≤ length out.old.items)
        × ((i : ℕ) → i < part.1 → ReadableEach (open_plans schema.now) (C.Columns.elements columns.now) i) }
    ensures next { IfOk result (λ r. (part.0 < r.0) × (r.0 ≤ part.1)) }
    ensures text { let trees = each_at (open_plans schema.now) (C.Columns.elements columns.now) in
        IfOk result (λ r. take r.1 out.new.items ≡ take from out.old.items ++ written_lines trees part.0 (r.0 - part.0)) }
    ensures kept { take from out.new.items ≡ take from out.old.items }
    ensures room { IfOk result (λ r. r.1 ≤ length out.new.items) }
{
    let plans = lent_plans(alloc, columns, schema.plans().as_slice())?;
    let lines = Lines {
        alloc,
        columns,
        plans,
    };
    let mut made = Vec::new(alloc);
    place_entries(&lines, part, from, &mut made, out)
}

/// Appends the lines of entries from one on, and says which comes next. It ends before another entry, or behind the first line that may not
/// fit in so many bytes of `out`, which that line may pass. So there is at least one line; where memory runs out, nothing is appended.
/// The columns are looked up once.
pub fn write_entries<C: Columns>(
    alloc: Global,
    columns: &C,
    schema: &Schema,
    part: (u64, u64),
    most: usize,
    out: &mut Vec<u8>,
) -> Result<u64, AllocError>
    requires order { part.0 < part.1 }
    requires readable { (i : ℕ) → i < part.1 → ReadableEach (open_plans schema.now) (C.Columns.elements columns.now) i }
    ensures next { IfOk result (λ next. (part.0 < next) × (next ≤ part.1)) }
    ensures ok { IfOk result (λ next. out.new.items ≡ out.old.items
        ++ written_lines (each_at (open_plans schema.now) (C.Columns.elements columns.now)) part.0 (next - part.0)) }
    ensures err { OnErr result (out.new.items ≡ out.old.items) }
{
    let len = out.len();
    out.resize(len.max(most), 0)?;
    match place_lines(alloc, columns, schema, part, len, out) {
        Ok((next, end)) => {
            out.truncate(end);
            Ok(next)
        }
        Err(error) => {
            out.truncate(len);
            Err(error)
        }
    }
}
