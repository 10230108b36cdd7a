//! Want of memory.

use nt_tfile::ReadFailure;
use std::alloc::{AllocError, AllocFailed};

/// Memory is wanting.
#[derive(Clone, Copy, Debug, PartialEq, Eq)]
pub struct Wanting;

impl From<AllocError> for Wanting {
    fn from(_: AllocError) -> Self {
        Wanting
    }
}

impl<T: Drop> From<AllocFailed<T>> for Wanting {
    fn from(_: AllocFailed<T>) -> Self {
        Wanting
    }
}

impl From<Wanting> for ReadFailure {
    ghost use Rattle.std.specs.Prelude.{◌≡◌};
    ghost use Rattle.nt_tfile.specs.declared.failure.ReadFailure.TheVariants.{Memory};

    ghost from_gives = { λ _ failure. failure ≡ Memory };

    fn from(_: Wanting) -> Self {
        ReadFailure::Memory
    }
}
