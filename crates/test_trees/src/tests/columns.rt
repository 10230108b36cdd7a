//! Columns with given elements, and what is read of them.

ghost use Rattle.std.specs.Prelude.{◌≡◌, ◌≢◌, ◌<◌, ◌^◌, IsTrue, IfOk};
ghost use Rattle.nt_types.specs.declared.column_type.ColumnType.TheVariants.{Switch};

use nt_column::{ColumnBuf, ColumnSet};
use nt_event::write_line;
use nt_join::{check_by, entry_by};
use nt_plans::Plans;
use nt_types::ColumnType;
use std::alloc::{AllocError, Global};

/// The elements of a column: numbers, each with a tag.
pub type Elements<'a> = &'a [(u64, u32)];

/// Whether the value has at most so many bits.
fn fits(value: u64, bits: u16) -> bool
    ensures { IsTrue result → value < 2 ^ bits }
{
    match bits {
        1 => value < 2,
        8 => value < 1 << 8,
        16 => value < 1 << 16,
        32 => value < 1 << 32,
        64 => true,
        _ => false,
    }
}

/// A buffer of those elements that fit.
pub fn filled(alloc: Global, kind: ColumnType, elements: Elements) -> Result<ColumnBuf, AllocError>
    ensures { IfOk result (λ b. b.column.kind ≡ kind) }
{
    let mut buffer = ColumnBuf::new(alloc, kind);
    for element in elements {
        buffer.reserve(1)?;
        if kind == ColumnType::Switch {
            buffer.push_switch(element.0, element.1);
        } else if fits(element.0, kind.bits()) {
            buffer.push(element.0);
        }
    }
    Ok(buffer)
}

/// A set of columns with these elements.
pub fn set_of(alloc: Global, columns: &[(ColumnType, Elements)]) -> Result<ColumnSet, AllocError> {
    let mut kinds = Vec::with_capacity(alloc, columns.len())?;
    for column in columns {
        kinds.push(column.0)?;
    }
    let mut set = ColumnSet::new(alloc, &kinds)?;
    for (k, column) in columns.iter().enumerate() {
        if k < set.columns() && k < 1 << 32 {
            *set.buffer(k as u32) = filled(alloc, column.0, column.1)?;
        }
    }
    Ok(set)
}

/// What is wrong first with columns of so many entries.
pub fn fault_of(columns: &ColumnSet, plans: &Plans, entries: u64) -> Option<(u32, u64)> {
    match check_by(columns, plans, entries) {
        Ok(()) => None,
        Err(fault) => Some((fault.column, fault.element)),
    }
}

/// The lines of the entries of columns in which nothing is wrong.
pub fn lines_of(
    alloc: Global,
    columns: &ColumnSet,
    plans: &Plans,
    entries: u64,
) -> Result<Vec<u8>, AllocError> {
    let mut lines = Vec::new(alloc);
    match check_by(columns, plans, entries) {
        Ok(()) => {
            for i in 0..entries {
                let trees = entry_by(alloc, columns, plans, i)?;
                write_line(alloc, &trees, &mut lines)?;
            }
        }
        Err(_) => (),
    }
    Ok(lines)
}
