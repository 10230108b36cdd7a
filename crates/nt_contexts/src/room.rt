//! Memory for lists, before anything goes into them.

ghost use Rattle.std.specs.Prelude.{◌≡◌, ◌≤◌, [], vec_capacity, IfOk};

use std::alloc::{AllocError, Global};

/// Two empty lists, each with room for so many.
pub(crate) fn take_room<A, B>(alloc: Global, count: usize) -> Result<(Vec<A>, Vec<B>), AllocError>
    ensures first { IfOk result (λ r. (r.0.items ≡ []) × (count ≤ vec_capacity r.0)) }
    ensures second { IfOk result (λ r. (r.1.items ≡ []) × (count ≤ vec_capacity r.1)) }
{
    let first = Vec::with_capacity(alloc, count)?;
    match Vec::with_capacity(alloc, count) {
        Ok(second) => Ok((first, second)),
        Err(error) => {
            first.destroy_empty();
            Err(error)
        }
    }
}
