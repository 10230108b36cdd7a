//! Why a page list or a footer could not be read.

use crate::faults::fault;
use nt_frame::FrameFault;
use nt_num::ReadError;
use std::alloc::{AllocError, AllocFailed};

/// The code of what does not lie in what holds it.
const BAD_FRAME: u8 = 12;

/// The first fault of a payload, or want of memory. Places count from the payload's beginning.
#[derive(Clone, Copy, Debug, PartialEq, Eq)]
pub enum MetaError {
    Defect(ReadError),
    Memory,
}

impl From<FrameFault> for MetaError {
    ghost use Rattle.std.specs.Prelude.{◌≡◌};
    ghost use Rattle.nt_num.specs.Codes.{bad_frame};
    ghost use Rattle.nt_num.specs.Faults.{fault};
    ghost use Rattle.nt_meta.specs.declared.error.MetaError.TheVariants.{Defect};

    ghost from_gives = { λ f e. e ≡ Defect (fault bad_frame f.at) };

    fn from(lost: FrameFault) -> Self {
        MetaError::Defect(fault(BAD_FRAME, lost.at))
    }
}

impl From<AllocError> for MetaError {
    ghost use Rattle.std.specs.Prelude.{◌≡◌};
    ghost use Rattle.nt_meta.specs.declared.error.MetaError.TheVariants.{Memory};

    ghost from_gives = { λ _ e. e ≡ Memory };

    fn from(_: AllocError) -> Self {
        MetaError::Memory
    }
}

impl<T: Drop> From<AllocFailed<T>> for MetaError {
    ghost use Rattle.std.specs.Prelude.{◌≡◌};
    ghost use Rattle.nt_meta.specs.declared.error.MetaError.TheVariants.{Memory};

    ghost from_gives = { λ _ e. e ≡ Memory };

    fn from(_: AllocFailed<T>) -> Self {
        MetaError::Memory
    }
}
