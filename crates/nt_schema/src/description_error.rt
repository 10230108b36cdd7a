//! Why a description could not be read.

use nt_frame::FrameFault;
use std::alloc::{AllocError, AllocFailed};

/// The first fault of a description, or want of memory. Places count as the cursor's.
#[derive(Clone, Copy, Debug, PartialEq, Eq)]
pub enum DescriptionError {
    /// A frame, a string or a number that begins here does not lie in what holds it.
    BadFrame { at: usize },
    /// The field whose record frame begins here has this id, and a parent with a larger one.
    BadField { at: usize, id: u32, parent: u32 },
    /// The column whose record frame begins here is one of a field that is none of so many.
    BadColumn { at: usize, count: u32, id: u32 },
    /// There was no memory, or there are more than 2^32 - 1 rows.
    Memory,
}

impl From<FrameFault> for DescriptionError {
    ghost use Rattle.std.specs.Prelude.{◌≡◌};
    ghost use Rattle.nt_schema.specs.declared.description_error.DescriptionError.TheVariants.{BadFrame};

    ghost from_gives = { λ f e. e ≡ BadFrame f.at };

    fn from(fault: FrameFault) -> Self {
        DescriptionError::BadFrame { at: fault.at }
    }
}

impl From<AllocError> for DescriptionError {
    ghost use Rattle.std.specs.Prelude.{◌≡◌};
    ghost use Rattle.nt_schema.specs.declared.description_error.DescriptionError.TheVariants.{Memory};

    ghost from_gives = { λ _ e. e ≡ Memory };

    fn from(_: AllocError) -> Self {
        DescriptionError::Memory
    }
}

impl<T: Drop> From<AllocFailed<T>> for DescriptionError {
    ghost use Rattle.std.specs.Prelude.{◌≡◌};
    ghost use Rattle.nt_schema.specs.declared.description_error.DescriptionError.TheVariants.{Memory};

    ghost from_gives = { λ _ e. e ≡ Memory };

    fn from(_: AllocFailed<T>) -> Self {
        DescriptionError::Memory
    }
}
