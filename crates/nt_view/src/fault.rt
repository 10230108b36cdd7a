//! How pages fail to be loaded.

ghost use Rattle.std.specs.Prelude.{◌≡◌};
ghost use Rattle.nt_view.specs.Refusals.{fault_of_refused};
ghost use Rattle.nt_view.specs.declared.fault.ViewFault.TheVariants.{Fault, Memory};

use nt_outside::{Failed, Refused};
use std::alloc::{AllocError, AllocFailed};

/// What came in place of loaded pages. A page is named by its place in the list that was to be loaded, from 0.
#[derive(Clone, Copy, Debug, PartialEq, Eq)]
pub enum ViewFault {
    /// The page, with its checksum, doesn't lie in the file.
    OutOfFile { page: u32 },
    /// The page's checksum, as it is kept behind it, isn't that of its bytes, as it was found.
    Checksum { page: u32, kept: u64, found: u64 },
    /// A call of the file failed.
    Fault,
    /// Memory ran out.
    Memory,
}

impl From<Failed> for ViewFault {
    ghost from_gives = { λ _ r. r ≡ Fault };

    fn from(_: Failed) -> Self {
        ViewFault::Fault
    }
}

impl From<AllocError> for ViewFault {
    ghost from_gives = { λ _ r. r ≡ Memory };

    fn from(_: AllocError) -> Self {
        ViewFault::Memory
    }
}

impl<T: Drop> From<AllocFailed<T>> for ViewFault {
    ghost from_gives = { λ _ r. r ≡ Memory };

    fn from(_: AllocFailed<T>) -> Self {
        ViewFault::Memory
    }
}

impl From<Refused> for ViewFault {
    ghost from_gives = { λ e r. r ≡ fault_of_refused e };

    fn from(refused: Refused) -> Self {
        match refused {
            Refused::Failed => ViewFault::Fault,
            Refused::Memory => ViewFault::Memory,
        }
    }
}
