//! Want of memory.

ghost use Rattle.std.specs.Prelude.{◌≡◌};
ghost use Rattle.nt_view.specs.declared.fault.ViewFault.TheVariants.{Memory};

use crate::fault::ViewFault;
use std::alloc::{AllocError, AllocFailed};

/// Memory is wanting.
#[derive(Clone, Copy, Debug, PartialEq, Eq)]
pub struct Wanting;

impl From<AllocError> for Wanting {
    fn from(_: AllocError) -> Self {
        Wanting
    }
}

impl<T: Drop> From<AllocFailed<T>> for Wanting {
    fn from(_: AllocFailed<T>) -> Self {
        Wanting
    }
}

impl From<Wanting> for ViewFault {
    ghost from_gives = { λ _ fault. fault ≡ Memory };

    fn from(_: Wanting) -> Self {
        ViewFault::Memory
    }
}
