//! Integers and texts of any JSON.

ghost use Rattle.std.specs.Prelude.{pos, ◌≡◌, ◌^◌, nat_lt, option_map, IfOk};
ghost use Rattle.serde_json.specs.View.{view};
ghost use Rattle.serde_json.specs.Find.{as_bool};
ghost use Rattle.nt_types.specs.TreeData.{flag, num, text};
ghost use Rattle.nt_types.specs.TreeViews.{tree_view};
ghost use Rattle.nt_types.specs.Fits.{is_int};
ghost use Rattle.nt_event.specs.Line.{text_read, int_read, tag_read};

use hex::FromHexError;
use nt_types::{Bytes, Tree};
use serde_json::Value;
use std::alloc::{AllocError, Global};

/// Has so many bits at most.
fn below(n: u64, bits: u8) -> bool
    ensures { result ≡ nat_lt n (2 ^ bits) }
{
    bits >= 64 || n >> bits == 0
}

/// Is in the range of a width.
fn in_range(n: i64, bits: u8, signed: bool) -> bool
    ensures { result ≡ is_int bits signed n }
{
    let width = if signed { bits.saturating_sub(1) } else { bits };
    if n < 0 {
        signed && below(n.unsigned_abs() - 1, width)
    } else {
        below(n.unsigned_abs(), width)
    }
}

/// Is in the range of a width.
fn in_unsigned_range(n: u64, bits: u8, signed: bool) -> bool
    ensures { result ≡ is_int bits signed (pos n) }
{
    below(n, if signed { bits.saturating_sub(1) } else { bits })
}

/// The integer that a value is, in a width.
fn int(value: &Value, bits: u8, signed: bool) -> Option<i128>
    ensures { option_map num result ≡ int_read (is_int bits signed) (view value.now) }
{
    if let Some(n) = value.as_u64() {
        if in_unsigned_range(n, bits, signed) {
            return Some(i128::from(n));
        }
        return None;
    }
    let n = value.as_i64()?;
    if in_range(n, bits, signed) {
        Some(i128::from(n))
    } else {
        None
    }
}

/// The bytes that a value stands for.
fn bytes(alloc: Global, value: &Value) -> Result<Option<Vec<u8>>, AllocError>
    ensures { IfOk result (λ found. option_map (λ v. v.items) found ≡ text_read (view value.now)) }
{
    if let Some(text) = value.as_str() {
        return Ok(Some(Vec::from_slice(alloc, text.as_bytes())?));
    }
    let Some(map) = value.as_object() else {
        return Ok(None);
    };
    if map.len() != 1 {
        return Ok(None);
    }
    let Some(inner) = value.get("hex") else {
        return Ok(None);
    };
    let Some(digits) = inner.as_str() else {
        return Ok(None);
    };
    match hex::decode(alloc, digits) {
        Ok(bytes) => Ok(Some(bytes)),
        Err(FromHexError::OutOfMemory) => Err(AllocError),
        Err(_) => Ok(None),
    }
}

/// The truth value that a value is.
pub(crate) fn flag(value: &Value) -> Option<Tree>
    ensures { option_map tree_view result ≡ option_map flag (as_bool (view value.now)) }
{
    match value.as_bool() {
        Some(holds) => Some(Tree::Flag(holds)),
        None => None,
    }
}

/// The integer that a value is, in a width.
pub(crate) fn number(value: &Value, bits: u8, signed: bool) -> Option<Tree>
    ensures { option_map tree_view result ≡ int_read (is_int bits signed) (view value.now) }
{
    match int(value, bits, signed) {
        Some(n) => Some(Tree::Num(n)),
        None => None,
    }
}

/// The text that a value is.
pub(crate) fn text(alloc: Global, value: &Value) -> Result<Option<Tree>, AllocError>
    ensures { IfOk result (λ found. option_map tree_view found ≡ option_map text
        (text_read (view value.now))) }
{
    match bytes(alloc, value)? {
        Some(bytes) => Ok(Some(Tree::Text(Bytes::from_vec(bytes)))),
        None => Ok(None),
    }
}

/// The tag that a value is.
pub(crate) fn tag(value: &Value) -> Option<u32>
    ensures { result ≡ tag_read (view value.now) }
{
    let tag = value.as_u64()?;
    if tag < 1 << 32 {
        Some(tag as u32)
    } else {
        None
    }
}
