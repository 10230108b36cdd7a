//! Values that hold no others, and the pieces between values.

ghost use Rattle.std.specs.Prelude.{◌≡◌, ◌≤◌, ◌-◌, ◌++◌, ◌∷◌, length, take, true, decimal, OnOk};
ghost use Rattle.serde_json.specs.Written.{compact_text};
ghost use Rattle.nt_event.specs.Json.{data_of};
ghost use Rattle.nt_types.specs.TreeData.{flag, nothing, num, text};
ghost use Rattle.nt_trees.specs.Integers.{integer_of};
ghost use Rattle.nt_trees.specs.TreeAt.{text_from};
ghost use Rattle.nt_print.specs.Marks.{mark_before, end_of};

use crate::marked::put_digits;
use crate::texts::put_text;
use nt_column::Columns;
use std::alloc::{AllocError, Global};

/// What stands in front of a value of an array.
#[inline(always)]
pub fn mark_before(later: bool) -> u8
    ensures { result ≡ mark_before later }
{
    if later { b',' } else { b'[' }
}

/// Appends what stands behind the last value of an array.
#[inline]
pub fn put_end(later: bool, out: &mut Vec<u8>) -> Result<(), AllocError>
    ensures ok { OnOk result (out.new.items ≡ out.old.items ++ end_of later) }
    ensures kept { take (length out.old.items) out.new.items ≡ out.old.items }
{
    if later {
        out.extend_from_slice(b"]")
    } else {
        out.extend_from_slice(b"[]")
    }
}

/// Appends a mark, and then what stands for no value.
#[inline(never)]
pub fn put_null(mark: u8, out: &mut Vec<u8>) -> Result<(), AllocError>
    ensures ok { OnOk result (out.new.items ≡ out.old.items ++ mark ∷ compact_text (data_of nothing)) }
    ensures kept { take (length out.old.items) out.new.items ≡ out.old.items }
{
    out.push(mark)?;
    out.extend_from_slice(b"null")?;
    Ok(())
}

/// Appends a truth value.
#[inline(never)]
pub fn put_flag(holds: bool, out: &mut Vec<u8>) -> Result<(), AllocError>
    ensures ok { OnOk result (out.new.items ≡ out.old.items ++ compact_text (data_of (flag holds))) }
    ensures kept { take (length out.old.items) out.new.items ≡ out.old.items }
{
    if holds {
        out.extend_from_slice(b"true")
    } else {
        out.extend_from_slice(b"false")
    }
}

/// Appends a mark, and then a number with its sign if it is below zero.
#[inline(never)]
fn put_signed(mark: u8, n: i64, out: &mut Vec<u8>) -> Result<(), AllocError>
    ensures ok { OnOk result (out.new.items ≡ out.old.items ++ mark ∷ compact_text (data_of (num n))) }
    ensures kept { take (length out.old.items) out.new.items ≡ out.old.items }
{
    if n >= 0 {
        return put_digits(mark, n.unsigned_abs(), out);
    }
    out.push(mark)?;
    put_digits(b'-', n.unsigned_abs(), out)?;
    Ok(())
}

/// The integer that an element of this width stands for, where it has a sign.
pub fn signed_of(element: u64, bits: u8) -> i64
    requires { bits ≤ 64 }
    ensures { result ≡ integer_of bits true element }
{
    let half: u64 = if bits == 0 { 1 } else { 1 << (bits - 1) };
    let top = half - 1 + half;
    if element < half {
        element as i64
    } else if element > top {
        -1
    } else {
        -1 - (top - element) as i64
    }
}

/// Appends a mark, and then the integer that an element of this width and sign stands for.
#[inline(always)]
pub fn put_integer(
    mark: u8,
    element: u64,
    bits: u8,
    signed: bool,
    out: &mut Vec<u8>,
) -> Result<(), AllocError>
    ensures ok { OnOk result (out.new.items ≡ out.old.items ++ mark ∷ compact_text
        (data_of (num (integer_of bits signed element)))) }
    ensures kept { take (length out.old.items) out.new.items ≡ out.old.items }
{
    if !signed {
        return put_digits(mark, element, out);
    }
    // A width of more than 64 bits: no element is as large as half of it.
    if bits > 64 {
        return put_digits(mark, element, out);
    }
    put_signed(mark, signed_of(element, bits), out)
}

/// Appends a mark, and then the text of the bytes from one place to before another.
#[inline(never)]
pub fn put_part<C: Columns>(
    alloc: Global,
    columns: &C,
    column: u32,
    part: (u64, u64),
    mark: u8,
    out: &mut Vec<u8>,
) -> Result<(), AllocError>
    requires order { part.0 ≤ part.1 }
    requires within { part.1 ≤ length (C.Columns.elements columns.now column) }
    ensures ok { OnOk result (out.new.items ≡ out.old.items ++ mark ∷ compact_text
        (data_of (text (text_from (C.Columns.elements columns.now column) part.0 (part.1 - part.0))))) }
    ensures kept { take (length out.old.items) out.new.items ≡ out.old.items }
{
    let bytes = columns.text(alloc, column, part.0, part.1)?;
    put_text(alloc, mark, bytes.as_slice(), out)
}

/// Appends what stands before the value of an alternative and its mark: a bracket and the tag.
pub fn put_tag(tag: u32, out: &mut Vec<u8>) -> Result<(), AllocError>
    ensures ok { OnOk result (out.new.items ≡ out.old.items ++ 91 ∷ decimal tag) }
    ensures kept { take (length out.old.items) out.new.items ≡ out.old.items }
{
    put_digits(b'[', u64::from(tag), out)
}
