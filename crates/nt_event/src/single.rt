//! Values of shapes that have no parts, as writers put them.

ghost use Rattle.std.specs.Prelude.{◌≤◌, length, IfOk, IfSome};
ghost use Rattle.nt_types.specs.Views.{shape_view};
ghost use Rattle.nt_types.specs.TreeViews.{tree_view};
ghost use Rattle.nt_event.specs.Standing.{ReadsValue};

use crate::integers::integer;
use crate::marks::truth;
use crate::quoted::string;
use nt_types::{Bytes, Shape, Tree};
use std::alloc::{AllocError, Global};

/// The value at a place, of a shape that has no parts.
pub(crate) fn single_value(
    alloc: Global,
    shape: &Shape,
    text: &[u8],
    at: usize,
) -> Result<Option<(Tree, usize)>, AllocError>
    requires { at ≤ length text.now }
    ensures { IfOk result (λ found. IfSome found
        (λ r. ReadsValue 0 (shape_view shape.now) (tree_view r.0) text.now at r.1)) }
{
    match shape {
        Shape::Bool => match truth(text, at) {
            Some((holds, end)) => Ok(Some((Tree::Flag(holds), end))),
            None => Ok(None),
        },
        Shape::Char | Shape::Byte => match integer(text, at, 8, false) {
            Some((n, end)) => Ok(Some((Tree::Num(n), end))),
            None => Ok(None),
        },
        Shape::Int { bits, signed } => match integer(text, at, *bits, *signed) {
            Some((n, end)) => Ok(Some((Tree::Num(n), end))),
            None => Ok(None),
        },
        Shape::Text => match string(alloc, text, at)? {
            Some((bytes, end)) => Ok(Some((Tree::Text(Bytes::from_vec(bytes)), end))),
            None => Ok(None),
        },
        _ => Ok(None),
    }
}
