//! The entry of a line.

ghost use Rattle.std.specs.Prelude.{◌≡◌, ◌≤◌, length, IfOk, IfErr, Ok};
ghost use Rattle.nt_types.specs.ShapeData.{parts_of};
ghost use Rattle.nt_types.specs.Views.{members_view};
ghost use Rattle.nt_types.specs.TreeData.{trees_of};
ghost use Rattle.nt_types.specs.TreeViews.{trees_view};
ghost use Rattle.nt_event.specs.Entry.{entry_of, IsFaultOf};
ghost use Rattle.nt_event.specs.Limits.{max_line};

use crate::fault::{TextError, TextKind};
use crate::scan::read_written;
use crate::values::each_member;
use nt_types::{Fields, Trees};
use serde_json::{Category, Value};
use std::alloc::{AllocError, Global};

/// The entry of any line that is not too long.
fn read_value(alloc: Global, line: &[u8], fields: &Fields) -> Result<Trees, TextError>
    requires { length line.now ≤ max_line }
    ensures ok { IfOk result (λ ts. entry_of (parts_of (members_view fields.now)) line.now ≡ Ok
        (trees_of (trees_view ts))) }
    ensures err { IfErr result (λ e. IsFaultOf
        (entry_of (parts_of (members_view fields.now)) line.now) e) }
{
    let value = match Value::from_slice(alloc, line) {
        Ok(value) => value,
        Err(error) => match error.classify() {
            Category::Memory => return Err(TextError::Memory),
            _ => return Err(TextError::Kind(TextKind::NotJson)),
        },
    };
    let Some(values) = value.as_array() else {
        return Err(TextError::Kind(TextKind::NotArray));
    };
    let members = fields.as_slice();
    if values.len() != members.len() {
        return Err(TextError::Kind(TextKind::Count));
    }
    match each_member(alloc, members, &values) {
        Ok(Some(list)) => Ok(Trees::from_vec(list)),
        Ok(None) => Err(TextError::Kind(TextKind::Misfit)),
        Err(AllocError) => Err(TextError::Memory),
    }
}

/// Reads the entry of a line, whose LF is taken off: a JSON array with one value for each field, at most 2^24 bytes.
///
/// A line as [`crate::write_line`] puts it, or with blanks behind its commas and at its end, is read without a JSON value in
/// between; so are texts with escapes and beyond ASCII.
pub fn read_line(alloc: Global, bytes: &[u8], fields: &Fields) -> Result<Trees, TextError>
    ensures ok { IfOk result (λ ts. entry_of (parts_of (members_view fields.now)) bytes.now ≡ Ok
        (trees_of (trees_view ts))) }
    ensures err { IfErr result (λ e. IsFaultOf
        (entry_of (parts_of (members_view fields.now)) bytes.now) e) }
{
    if bytes.len() > 1 << 24 {
        return Err(TextError::Kind(TextKind::TooLong));
    }
    if let Ok(_text) = simdutf8::compat::from_utf8(bytes) {
        match read_written(alloc, bytes, fields) {
            Ok(Some(trees)) => return Ok(trees),
            Ok(None) => {}
            Err(AllocError) => return Err(TextError::Memory),
        }
    }
    read_value(alloc, bytes, fields)
}
