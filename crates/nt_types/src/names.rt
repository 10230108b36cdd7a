//! Names that were seen before.

ghost use Rattle.std.specs.Prelude.{◌≡◌, IfOk, map};
ghost use Rattle.nt_types.specs.Views.{member_view};
ghost use Rattle.nt_types.specs.Names.{names_differ};

use crate::shape::Member;
use std::alloc::{AllocError, Global};
use std::collections::BTreeSet;

/// Whether no name stands twice.
pub(crate) fn names_differ(alloc: Global, members: &[Member]) -> Result<bool, AllocError>
    ensures { IfOk result (λ differ. differ ≡ names_differ (map member_view members.now)) }
{
    let mut seen = BTreeSet::new(alloc);
    for member in members {
        if !seen.insert(member.name.as_slice())? {
            return Ok(false);
        }
    }
    Ok(true)
}
