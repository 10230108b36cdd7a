//! Values without parts.

ghost use Rattle.std.specs.Prelude.{◌-◌, ◌≤◌, length};
ghost use Rattle.nt_plans.specs.Plan.{bool, number, text};
ghost use Rattle.nt_shred.specs.Walk.{CanPut, Puts, Leaves};

use crate::integers::{Integers, element_at};
use crate::pushing::{push, push_at_width, push_bytes, push_end};
use nt_column::{ColumnSet, Columns};
use nt_event::{plain_string, truth};

/// Adds a truth value.
pub fn flag(out: &mut ColumnSet, column: u32, line: &[u8], at: usize) -> Option<usize>
    requires within { at ≤ length line.now }
    requires can { CanPut (bool column) (length line.now - at) out.old }
    ensures { Leaves (λ end. Puts (bool column) line.now at end out.old out.new) out.old out.new result }
{
    let (value, end) = truth(line, at)?;
    push(out, column, u64::from(value));
    Some(end)
}

/// Adds an integer. Inlined, so that a width and a sign that are known are not looked at.
#[inline(always)]
fn integer_at_width(
    out: &mut ColumnSet,
    column: u32,
    bits: u8,
    signed: bool,
    line: &[u8],
    at: usize,
) -> Option<usize>
    requires within { at ≤ length line.now }
    requires can { CanPut (number column bits signed) (length line.now - at) out.old }
    ensures { Leaves (λ end. Puts (number column bits signed) line.now at end out.old out.new)
        out.old out.new result }
{
    let (value, end) = element_at(line, at, bits, signed)?;
    push_at_width(out, column, bits, value);
    Some(end)
}

/// Adds an integer.
fn integer(out: &mut ColumnSet, of: Integers, line: &[u8], at: usize) -> Option<usize>
    requires within { at ≤ length line.now }
    requires can { CanPut (number of.column of.bits of.signed) (length line.now - at) out.old }
    ensures { Leaves (λ end. Puts (number of.column of.bits of.signed) line.now at end out.old out.new)
        out.old out.new result }
{
    if of.signed {
        return integer_at_width(out, of.column, of.bits, true, line, at);
    }
    match of.bits {
        8 => integer_at_width(out, of.column, 8, false, line, at),
        16 => integer_at_width(out, of.column, 16, false, line, at),
        32 => integer_at_width(out, of.column, 32, false, line, at),
        64 => integer_at_width(out, of.column, 64, false, line, at),
        _ => unreachable!(),
    }
}

/// The same. The widths that most integers have are read without a call.
#[inline(always)]
pub fn integer_in_place(out: &mut ColumnSet, of: Integers, line: &[u8], at: usize) -> Option<usize>
    requires within { at ≤ length line.now }
    requires can { CanPut (number of.column of.bits of.signed) (length line.now - at) out.old }
    ensures { Leaves (λ end. Puts (number of.column of.bits of.signed) line.now at end out.old out.new)
        out.old out.new result }
{
    if !of.signed && of.bits == 32 {
        return integer_at_width(out, of.column, 32, false, line, at);
    }
    if !of.signed && of.bits == 64 {
        return integer_at_width(out, of.column, 64, false, line, at);
    }
    integer(out, of, line, at)
}

/// Adds a text, and its end.
#[inline(always)]
pub fn string(out: &mut ColumnSet, ends: u32, bytes: u32, line: &[u8], at: usize) -> Option<usize>
    requires within { at ≤ length line.now }
    requires can { CanPut (text ends bytes) (length line.now - at) out.old }
    ensures { Leaves (λ end. Puts (text ends bytes) line.now at end out.old out.new)
        out.old out.new result }
{
    let (inside, end) = plain_string(line, at)?;
    push_bytes(out, bytes, inside);
    let last = out.len(bytes);
    push_end(out, ends, last);
    Some(end)
}
